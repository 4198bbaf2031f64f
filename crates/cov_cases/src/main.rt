//! Plays the cases of the folders `calls` and `cases` again, and says of each whether all comes as it stands there.
//!
//! A file of `calls` has calls of the crates below the commands. `$ CALL ARGUMENT` is one, and the line behind it is what it is to
//! give. Other lines are notes.
//!
//! - `$ coverage TEXT`: the coverage files of the text as they are written, or its first fault.
//! - `$ ignored "TEXT"`: for each line of the text, written as JSON, an `x` where comments leave it out, else a dot.
//! - `$ mappings "TEXT"`: the mappings of the text as they are written, or its first fault.
//!
//! A case of `cases` is a transcript: files, runs of a command over them, and below each run what it is to give.
//!
//! - `== PATH` begins a file. The lines behind it are its text, up to the next line that begins `== `,
//!   `! ` or `$`; the end of the last line is not part of it. The file's folder is there too, and
//!   `== FOLDER/` is a folder alone. A file is there for all later runs of its case.
//!   `== PATH in hex` is a file of the bytes whose hex digits follow, with a space between two, and
//!   `== PATH times N` is N files of this text, whose paths have the numbers from 0 for the `*`.
//! - `@ link` begins a link that the net of the next run will make, in the order of these. Each line behind it is a text that comes over
//!   it, up to the next line that begins `== `, `@ link`, `! ` or `$`; `N times TEXT` is N of this text. `@ link N M` is one whose calls
//!   N and M fail.
//! - `! store N`, `! net N`, `! out N` and `! err N`, before a run: call N of that object, from 0, fails.
//! - `! spawner N`: so does that of the spawner. `! program N`: the program that the run starts ends with this status, else with 0.
//! - `$ WORDS` is a run. Words stand apart by one space; `''` is the empty word.
//! - Below it, where a program was run, stands `-- ran` with its words, one a line; `-- dialled` with each place that was dialled; and
//!   for each link that was handed back `-- sent` with the texts that were sent, one a line. Where something was
//!   written, stand `-- out` and `-- err`, each with what was, and then
//!   `= STATUS ANSWER, N calls`, with the number of calls of the store.
//! - Notes begin with `#`. They and empty lines stand before a file, a `!` or a run.
//!
//! Where what comes is another text than the case, that whole text is written, the first line that
//! differs goes to the error stream, and the status is 1. No line of a text may begin `== `, `@ link`, `! `, `$`
//! or `= `.
#![tactic(auto)]

mod calls;
mod stage;

use std::rt::Files;
use std::sync::Wait;
use std::thread::Threads;
use std::{fs, io};

fn main(rt: HostRuntime) -> io::Result<()> {
    let calls = play(&rt, Kind::Calls)?;
    let cases = play(&rt, Kind::Commands)?;
    if calls && cases {
        Ok(())
    } else {
        Err(io::Error::from(io::ErrorKind::InvalidData))
    }
}

/// What the cases of a folder are.
#[derive(Clone, Copy)]
enum Kind {
    Calls,
    Commands,
}

// Plays the cases of a kind, and tells whether all come as they stand.
fn play<R: Files + Print + Eprint + Threads + Wait + Sync + AllocGlobal + Clone + Drop>(
    rt: &R,
    kind: Kind,
) -> io::Result<bool> {
    let alloc = rt.alloc();
    let folder = match kind {
        Kind::Calls => "calls",
        Kind::Commands => "cases",
    };
    let mut all_as_wanted = true;
    for name in names_in(rt, folder)? {
        let path = format!(in alloc; "{folder}/{name}")?;
        let wanted = fs::read_to_string(rt, path.as_str())?;
        let given = match kind {
            Kind::Calls => calls::played(alloc, wanted.as_str())?,
            Kind::Commands => stage::played(rt, alloc, wanted.as_str())?,
        };
        if given.as_str() == wanted.as_str() {
            println!(rt; "{name}: as it stands")?;
        } else {
            all_as_wanted = false;
            println!(rt; "{name}: differs\n{given}")?;
            if let Some((line, wanted, given)) = first_difference(wanted.as_str(), given.as_str()) {
                eprintln!(rt; "{path}:{line}: wanted {wanted:?}, given {given:?}")?;
            }
        }
    }
    Ok(all_as_wanted)
}

// The names in a folder, in byte order.
fn names_in<R: Files + AllocGlobal + Clone + Drop>(
    rt: &R,
    folder: &str,
) -> io::Result<Vec<String>> {
    let alloc = rt.alloc();
    let mut names = Vec::new(alloc);
    for entry in fs::read_dir(rt, folder)? {
        names.push(String::from_str(alloc, entry?.file_name())?)?;
    }
    names.sort()?;
    Ok(names)
}

// The first lines that differ, and their number.
fn first_difference<'a>(wanted: &'a str, given: &'a str) -> Option<(u64, &'a str, &'a str)> {
    let mut lines = wanted.split('\n');
    let mut number = 0u64;
    for given in given.split('\n') {
        number = number.saturating_add(1);
        let wanted = lines.next().unwrap_or("(the end)");
        if wanted != given {
            return Some((number, wanted, given));
        }
    }
    None
}
