//! What a command line can ask for.
use cov_percent::Percent;
use cov_text::{Items, Text};

/// A command with its words.
#[derive(Debug, Drop)]
pub enum Command {
    /// `merge FOLDER`: the one normal file of a folder's texts.
    Merge {
        folder: Text,
    },
    /// `same ONE OTHER`: whether the texts of two folders come to the same sums.
    Same {
        one: Text,
        other: Text,
    },
    /// `normal FILE`: whether a file is a normal file.
    Normal {
        file: Text,
    },
    /// `upgrade FILE`: the normal file of what a flat file says.
    Upgrade {
        file: Text,
    },
    /// `report FOLDER --as FORM`: the report of a folder's texts, as text of this form.
    Report {
        folder: Text,
        form: Form,
    },
    /// `check FOLDER --lines N --branches N --functions N`: what of a folder's texts was run less than these percentages.
    Check {
        folder: Text,
        lines: Percent,
        branches: Percent,
        functions: Percent,
    },
    /// `make SEED COUNT`: what so many snapshots made of a seed come to. The seed is at most 2,147,483,647; there is one
    /// snapshot at least, and 100,000 at most.
    Make {
        seed: u32,
        count: u32,
    },
}

/// How a report is written.
#[derive(Clone, Copy, Debug, PartialEq, Eq)]
pub enum Form {
    /// The JSON text of coverage files, as Istanbul has them.
    Json,
    /// An lcov trace.
    Lcov,
    /// A table.
    Text,
}

/// `collect FOLDER --workers N`: the one normal file of a folder's texts, which so many workers take, from 1 to 16.
#[derive(Debug, Drop)]
pub struct Collect {
    pub folder: Text,
    pub workers: u32,
}

/// `run --dir FOLDER --as FORM -- WORD..`: a program that leaves its coverage in a folder, and the folder's report in this form.
#[derive(Debug, Drop)]
pub struct Run {
    pub folder: Text,
    pub form: Form,
    /// The program and its words. There is one at least.
    pub words: Items<Text>,
}

/// A command that speaks over links.
#[derive(Debug, Drop)]
pub enum Live {
    /// `serve FOLDER --port P --sessions N --pace K`: a folder's texts, replayed to so many clients, from 1 to 64. Each take plays so many
    /// texts, from 0 to 1,000. A port of 0 is one that the system chooses.
    Serve {
        folder: Text,
        port: u16,
        sessions: u32,
        pace: u32,
    },
    /// `attach PLACE.. --takes N`: the one normal file of what so many takes of each place tell, from 1 to 1,000. A place is
    /// `HOST:PORT/PATH`.
    Attach {
        places: Items<Text>,
        takes: u32,
    },
}

/// The commands of one call: which call reads the words is told by the first of them.
#[derive(Clone, Copy, Debug, PartialEq, Eq)]
pub enum Group {
    /// The commands that read folders and files, each in one thread.
    Readers,
    /// `collect`, which works in threads.
    Workers,
    /// `serve` and `attach`, which speak over links.
    Live,
    /// `run`, which starts a program.
    Child,
}

/// Why words ask for no command.
#[derive(Clone, Copy, Debug, PartialEq, Eq)]
pub enum WordsFault {
    /// They name no command, or not the words that it takes.
    Usage,
    /// There was no memory to read them.
    NoMemory,
}
