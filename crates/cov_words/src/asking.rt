//! The commands as clap knows them, and the one way in which each is read.
ghost use Rattle.std.specs.Prelude.{◌≡◌, List, Option, None, Some, true, map, string_bytes, IfOk, IfErr};
ghost use Rattle.clap.specs.Words.{App, Row, app_of, found_of, is_simple_and_free, rows_of};
ghost use Rattle.cov_words.specs.Asked.{asked};

use crate::WordsFault;
use crate::reading::matches_of;
use clap::ArgMatches;
use std::alloc::{AllocError, Global};

/// A command of `clap`, and what is read of the values that it finds in words.
pub(crate) trait Asking {
    /// What the words ask for.
    type Told;

    /// The command.
    ghost app: { App };

    /// What its values ask for.
    ghost from: { List Row → Option Self.Told };

    /// What is known of whatever they ask for.
    ghost within: { Self.Told → Type 0 };

    /// The command.
    fn command<'a>(alloc: Global) -> Result<clap::Command<'a>, AllocError>
        ensures { IfOk result (λ command. app_of command ≡ app) };

    /// What the values that were found ask for.
    fn told(alloc: Global, matches: &ArgMatches<'_>) -> Result<Self::Told, WordsFault>
        ensures ok { IfOk result (λ told. from (rows_of (found_of matches.now)) ≡ Some told) }
        ensures usage { IfErr result (λ fault. fault ≡ WordsFault.Usage
            → from (rows_of (found_of matches.now)) ≡ None) }
        ensures within { IfOk result within };

    /// It is one whose parses clap's definitions tell.
    ghost simple: { is_simple_and_free app ≡ true };
}

/// What words ask of a command, which the first of them names.
pub(crate) fn read_asked<A: Asking>(alloc: Global, words: &[String]) -> Result<A::Told, WordsFault>
    ensures ok { IfOk result (λ told. asked A.app A.from (map string_bytes words.now) ≡ Some told) }
    ensures usage { IfErr result (λ fault. fault ≡ WordsFault.Usage
        → asked A.app A.from (map string_bytes words.now) ≡ None) }
    ensures within { IfOk result A.within }
{
    let Ok(command) = A::command(alloc) else {
        return Err(WordsFault::NoMemory);
    };
    match matches_of(command, words) {
        Ok(matches) => A::told(alloc, &matches),
        Err(fault) => Err(fault),
    }
}
