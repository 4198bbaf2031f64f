//! Reading the words of `collect`, and which call reads which words.
ghost use Rattle.std.specs.Prelude.{◌≡◌, None, Some, map, string_bytes, IfOk, IfErr};
ghost use Rattle.cov_words.specs.Groups.{HasWorkers, collect_app, collect_from, collect_of};
ghost use Rattle.cov_words.specs.Groups as spec;
ghost use Rattle.cov_words.specs.Simple.{collect_is_simple};

use crate::asking::{Asking, read_asked};
use crate::options::{number, number_in};
use crate::reading::{value, wanted};
use crate::{Collect, Group, WordsFault};
use clap::ArgMatches;
use std::alloc::{AllocError, Global};

/// The group of the command that the first word names. Words that name no command go to the readers of files.
pub fn group_of(words: &[String]) -> Group
    ensures { result ≡ spec.group_of (map string_bytes words.now) }
{
    match words {
        [] => Group::Readers,
        [name, ..] => group_named(name.as_str()),
    }
}

fn group_named(name: &str) -> Group
    ensures { result ≡ spec.group_named name.now }
{
    if name == "collect" {
        Group::Workers
    } else if name == "serve" {
        Group::Live
    } else if name == "attach" {
        Group::Live
    } else if name == "run" {
        Group::Child
    } else {
        Group::Readers
    }
}

/// What the words ask of the workers, from 1 to 16 of them and 4 where no number is given.
///
/// `WordsFault::Usage` comes exactly where the words are no `collect`, also where they ask for help, and
/// `WordsFault::NoMemory` only for want of memory.
#[tactic(auto, unfolding(crate::specs::Groups::collect_of))]
pub fn read_collect(alloc: Global, words: &[String]) -> Result<Collect, WordsFault>
    ensures ok { IfOk result (λ collect. collect_of (map string_bytes words.now) ≡ Some collect) }
    ensures usage { IfErr result (λ fault. fault ≡ WordsFault.Usage
        → collect_of (map string_bytes words.now) ≡ None) }
    ensures workers { IfOk result HasWorkers }
{
    match words {
        [] => Err(WordsFault::Usage),
        [name, ..] => {
            if name.as_str() == "collect" {
                read_asked::<CollectWords>(alloc, words)
            } else {
                Err(WordsFault::Usage)
            }
        }
    }
}

/// `collect FOLDER --workers N`.
pub(crate) struct CollectWords;

impl Asking for CollectWords {
    type Told = Collect;

    ghost app = { collect_app };

    ghost from = { collect_from };

    ghost within = { HasWorkers };

    ghost simple = { collect_is_simple };

    fn command<'a>(alloc: Global) -> Result<clap::Command<'a>, AllocError> {
        let command = clap::Command::new(alloc, "collect").arg(wanted(alloc, "folder"))?;
        command.arg(number(alloc, "workers", 1, 16, "4"))
    }

    fn told(alloc: Global, matches: &ArgMatches<'_>) -> Result<Collect, WordsFault> {
        let folder = match value(alloc, matches, "folder") {
            Ok(folder) => folder,
            Err(fault) => return Err(fault),
        };
        match number_in(matches, "workers", 1, 16) {
            Ok(workers) => Ok(Collect {
                folder,
                workers: workers as u32,
            }),
            Err(fault) => Err(fault),
        }
    }
}
