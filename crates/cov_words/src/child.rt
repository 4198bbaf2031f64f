//! Reading the words of `run`.
ghost use Rattle.std.specs.Prelude.{◌≡◌, None, Some, false, map, string_bytes, IfOk, IfErr, ⊤};
ghost use Rattle.clap.specs.Words.{all_of, found_of, rows_of, rule_of};
ghost use Rattle.cov_words.specs.Child.{run_app, run_from, run_of};
ghost use Rattle.cov_words.specs.Child as spec;
ghost use Rattle.cov_words.specs.Simple.{run_is_simple};

use crate::asking::{Asking, read_asked};
use crate::options::{form_of, option};
use crate::reading::{value, wanted};
use crate::{Run, WordsFault};
use clap::{Arg, ArgMatches};
use cov_text::{Items, Text};
use std::alloc::{AllocError, Global};

/// What the words ask to run, and to report then: the form is `text` where none is given.
///
/// `WordsFault::Usage` comes exactly where the words are no `run`, also where they ask for help, and
/// `WordsFault::NoMemory` only for want of memory.
#[tactic(auto, unfolding(crate::specs::Child::run_of))]
pub fn read_run(alloc: Global, words: &[String]) -> Result<Run, WordsFault>
    ensures ok { IfOk result (λ run. run_of (map string_bytes words.now) ≡ Some run) }
    ensures usage { IfErr result (λ fault. fault ≡ WordsFault.Usage
        → run_of (map string_bytes words.now) ≡ None) }
{
    match words {
        [] => Err(WordsFault::Usage),
        [name, ..] => {
            if name.as_str() == "run" {
                read_asked::<RunWords>(alloc, words)
            } else {
                Err(WordsFault::Usage)
            }
        }
    }
}

/// An option that has to be given.
fn wanted_option<'a>(alloc: Global, name: &'a str) -> Arg<'a>
    ensures rule { rule_of result ≡ spec.wanted_option name.entry.now }
    ensures local { result.global ≡ false }
{
    Arg::new(alloc, name).long(name).required(true)
}

/// Positionals, of which there is one or more.
pub(crate) fn many<'a>(alloc: Global, id: &'a str) -> Arg<'a>
    ensures rule { rule_of result ≡ spec.many id.entry.now }
    ensures local { result.global ≡ false }
{
    wanted(alloc, id).num_args(1..)
}

/// `run --dir FOLDER --as FORM -- WORD..`.
pub(crate) struct RunWords;

impl Asking for RunWords {
    type Told = Run;

    ghost app = { run_app };

    ghost from = { run_from };

    ghost within = { λ _. ⊤ };

    ghost simple = { run_is_simple };

    fn command<'a>(alloc: Global) -> Result<clap::Command<'a>, AllocError> {
        let command = clap::Command::new(alloc, "run").arg(wanted_option(alloc, "dir"))?;
        let command = command.arg(option(alloc, "as", "text"))?;
        command.arg(many(alloc, "word"))
    }

    fn told(alloc: Global, matches: &ArgMatches<'_>) -> Result<Run, WordsFault> {
        let folder = match value(alloc, matches, "dir") {
            Ok(folder) => folder,
            Err(fault) => return Err(fault),
        };
        let name = match value(alloc, matches, "as") {
            Ok(name) => name,
            Err(fault) => return Err(fault),
        };
        let form = match form_of(name.as_text()) {
            Ok(form) => form,
            Err(fault) => return Err(fault),
        };
        match values(alloc, matches, "word") {
            Ok(words) => Ok(Run {
                folder,
                form,
                words,
            }),
            Err(fault) => Err(fault),
        }
    }
}

/// The values of positionals.
pub(crate) fn values(
    alloc: Global,
    matches: &ArgMatches<'_>,
    id: &str,
) -> Result<Items<Text>, WordsFault>
    ensures ok { IfOk result (λ texts. all_of id.now (rows_of (found_of matches.now)) ≡ Some texts) }
    ensures usage { IfErr result (λ fault. fault ≡ WordsFault.Usage
        → all_of id.now (rows_of (found_of matches.now)) ≡ None) }
{
    match matches.get_strs(id) {
        Some(given) => match texts_of(alloc, given) {
            Ok(texts) => Ok(texts),
            Err(_) => Err(WordsFault::NoMemory),
        },
        None => Err(WordsFault::Usage),
    }
}

fn texts_of(alloc: Global, given: &[&str]) -> Result<Items<Text>, AllocError>
    ensures { IfOk result (λ texts. texts ≡ map (λ word. word.now) given.now) }
{
    let mut texts = Items::new(alloc);
    for word in given {
        let text = Text::from_text(alloc, word)?;
        texts.push(text)?;
    }
    Ok(texts)
}
