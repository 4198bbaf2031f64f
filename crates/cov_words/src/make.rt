//! Reading the words of `make`.
ghost use Rattle.std.specs.Prelude.{◌≡◌, false, ⊤};
ghost use Rattle.clap.specs.Words.{rule_of};
ghost use Rattle.cov_words.specs.Asked as spec;
ghost use Rattle.cov_words.specs.Asked.{make_app, make_from};
ghost use Rattle.cov_words.specs.Simple.{make_is_simple};

use crate::asking::Asking;
use crate::options::{bounded, number_in};
use crate::reading::wanted;
use crate::{Command, WordsFault};
use clap::{Arg, ArgMatches};
use std::alloc::{AllocError, Global};

/// A positional that has to be given, a whole number in bounds.
fn wanted_number<'a>(alloc: Global, name: &'a str, least: u32, most: u32) -> Arg<'a>
    ensures rule { rule_of result ≡ spec.wanted_number least most name.entry.now }
    ensures local { result.global ≡ false }
{
    wanted(alloc, name).value_parser(bounded(least, most))
}

/// `make SEED COUNT`, the seed from 0 to 2,147,483,647 and the count from 1 to 100,000.
pub(crate) struct MakeWords;

impl Asking for MakeWords {
    type Told = Command;

    ghost app = { make_app };

    ghost from = { make_from };

    ghost within = { λ _. ⊤ };

    ghost simple = { make_is_simple };

    fn command<'a>(alloc: Global) -> Result<clap::Command<'a>, AllocError> {
        let command = clap::Command::new(alloc, "make").arg(wanted_number(
            alloc, "seed", 0, 2147483647,
        ))?;
        command.arg(wanted_number(alloc, "count", 1, 100000))
    }

    fn told(_alloc: Global, matches: &ArgMatches<'_>) -> Result<Command, WordsFault> {
        let seed = match number_in(matches, "seed", 0, 2147483647) {
            Ok(seed) => seed,
            Err(fault) => return Err(fault),
        };
        match number_in(matches, "count", 1, 100000) {
            Ok(count) => Ok(Command::Make {
                seed: seed as u32,
                count: count as u32,
            }),
            Err(fault) => Err(fault),
        }
    }
}
