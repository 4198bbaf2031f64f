//! Reading the words of a command line.
ghost use Rattle.std.specs.Prelude.{◌≡◌, None, Some, true, false, map, string_bytes, IfOk, IfErr};
ghost use Rattle.clap.specs.Words.{app_of, first_of, found_of, is_simple_and_free, rows_of, rule_of};
ghost use Rattle.cov_words.specs.Asked.{Finds, FindsNone, command_of, named, wanted};

use crate::asking::read_asked;
use crate::files::{MergeWords, NormalWords, SameWords, UpgradeWords};
use crate::make::MakeWords;
use crate::options::{CheckWords, ReportWords};
use crate::{Command, WordsFault};
use clap::error::ErrorKind;
use clap::{Arg, ArgMatches};
use cov_text::Text;
use std::alloc::Global;

/// The command that these words ask for. The first word names it, and one simple command of `clap` reads the rest: words
/// that begin with `-` are options unless `--` stands before them.
///
/// `WordsFault::Usage` comes exactly where the words ask for no command, also where they ask for help, and
/// `WordsFault::NoMemory` only for want of memory.
#[tactic(auto, unfolding(crate::specs::Asked::command_of))]
pub fn read_words(alloc: Global, words: &[String]) -> Result<Command, WordsFault>
    ensures ok { IfOk result (λ command. command_of (map string_bytes words.now) ≡ Some command) }
    ensures usage { IfErr result (λ fault. fault ≡ WordsFault.Usage
        → command_of (map string_bytes words.now) ≡ None) }
{
    match words {
        [] => Err(WordsFault::Usage),
        [name, ..] => read_named(alloc, name.as_str(), words),
    }
}

/// The command of this name, with these words.
fn read_named(alloc: Global, name: &str, words: &[String]) -> Result<Command, WordsFault>
    ensures ok { IfOk result (λ command. named name.now (map string_bytes words.now) ≡ Some command) }
    ensures usage { IfErr result (λ fault. fault ≡ WordsFault.Usage
        → named name.now (map string_bytes words.now) ≡ None) }
{
    if name == "merge" {
        read_asked::<MergeWords>(alloc, words)
    } else if name == "same" {
        read_asked::<SameWords>(alloc, words)
    } else if name == "normal" {
        read_asked::<NormalWords>(alloc, words)
    } else if name == "upgrade" {
        read_asked::<UpgradeWords>(alloc, words)
    } else if name == "report" {
        read_asked::<ReportWords>(alloc, words)
    } else if name == "check" {
        read_asked::<CheckWords>(alloc, words)
    } else if name == "make" {
        read_asked::<MakeWords>(alloc, words)
    } else {
        Err(WordsFault::Usage)
    }
}

/// A positional that has to be given.
pub(crate) fn wanted<'a>(alloc: Global, id: &'a str) -> Arg<'a>
    ensures rule { rule_of result ≡ wanted id.entry.now }
    ensures local { result.global ≡ false }
{
    Arg::new(alloc, id).required(true)
}

/// The value of a positional or an option.
pub(crate) fn value(alloc: Global, matches: &ArgMatches<'_>, id: &str) -> Result<Text, WordsFault>
    ensures ok { IfOk result (λ text. first_of id.now (rows_of (found_of matches.now)) ≡ Some text) }
    ensures usage { IfErr result (λ fault. fault ≡ WordsFault.Usage
        → first_of id.now (rows_of (found_of matches.now)) ≡ None) }
{
    match matches.get_str(id) {
        Some(text) => match Text::from_text(alloc, text) {
            Ok(text) => Ok(text),
            Err(_) => Err(WordsFault::NoMemory),
        },
        None => Err(WordsFault::Usage),
    }
}

/// What a simple command of `clap` finds in the words.
pub(crate) fn matches_of<'a>(
    command: clap::Command<'a>,
    words: &'a [String],
) -> Result<ArgMatches<'a>, WordsFault>
    requires { is_simple_and_free (app_of command) ≡ true }
    ensures ok { IfOk result (λ matches. Finds (app_of command.entry) (map string_bytes words.entry.now)
        (rows_of (found_of matches))) }
    ensures usage { IfErr result (λ fault. fault ≡ WordsFault.Usage
        → FindsNone (app_of command.entry) (map string_bytes words.entry.now)) }
{
    match command.try_get_matches_from(words) {
        Ok(matches) => Ok(matches),
        Err(error) => match error.kind() {
            ErrorKind::OutOfMemory => Err(WordsFault::NoMemory),
            _ => Err(WordsFault::Usage),
        },
    }
}
