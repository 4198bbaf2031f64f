//! The commands that take folders or a file and nothing else.
ghost use Rattle.std.specs.Prelude.{◌≡◌, IfOk, ⊤};
ghost use Rattle.clap.specs.Words.{app_of};
ghost use Rattle.cov_words.specs.Asked.{file_app, merge_app, merge_from, normal_app, normal_from, same_app, same_from, upgrade_app, upgrade_from};
ghost use Rattle.cov_words.specs.Simple.{merge_is_simple, normal_is_simple, same_is_simple, upgrade_is_simple};

use crate::asking::Asking;
use crate::reading::{value, wanted};
use crate::{Command, WordsFault};
use clap::ArgMatches;
use std::alloc::{AllocError, Global};

/// `merge FOLDER`.
pub(crate) struct MergeWords;

impl Asking for MergeWords {
    type Told = Command;

    ghost app = { merge_app };

    ghost from = { merge_from };

    ghost within = { λ _. ⊤ };

    ghost simple = { merge_is_simple };

    fn command<'a>(alloc: Global) -> Result<clap::Command<'a>, AllocError> {
        clap::Command::new(alloc, "merge").arg(wanted(alloc, "folder"))
    }

    fn told(alloc: Global, matches: &ArgMatches<'_>) -> Result<Command, WordsFault> {
        match value(alloc, matches, "folder") {
            Ok(folder) => Ok(Command::Merge { folder }),
            Err(fault) => Err(fault),
        }
    }
}

/// `same ONE OTHER`.
pub(crate) struct SameWords;

impl Asking for SameWords {
    type Told = Command;

    ghost app = { same_app };

    ghost from = { same_from };

    ghost within = { λ _. ⊤ };

    ghost simple = { same_is_simple };

    fn command<'a>(alloc: Global) -> Result<clap::Command<'a>, AllocError> {
        let command = clap::Command::new(alloc, "same").arg(wanted(alloc, "one"))?;
        command.arg(wanted(alloc, "other"))
    }

    fn told(alloc: Global, matches: &ArgMatches<'_>) -> Result<Command, WordsFault> {
        let one = match value(alloc, matches, "one") {
            Ok(one) => one,
            Err(fault) => return Err(fault),
        };
        match value(alloc, matches, "other") {
            Ok(other) => Ok(Command::Same { one, other }),
            Err(fault) => Err(fault),
        }
    }
}

// A command of this name, of one file.
fn file_command<'a>(alloc: Global, name: &'a str) -> Result<clap::Command<'a>, AllocError>
    ensures { IfOk result (λ command. app_of command ≡ file_app name.entry.now) }
{
    clap::Command::new(alloc, name).arg(wanted(alloc, "file"))
}

/// `normal FILE`.
pub(crate) struct NormalWords;

impl Asking for NormalWords {
    type Told = Command;

    ghost app = { normal_app };

    ghost from = { normal_from };

    ghost within = { λ _. ⊤ };

    ghost simple = { normal_is_simple };

    fn command<'a>(alloc: Global) -> Result<clap::Command<'a>, AllocError> {
        file_command(alloc, "normal")
    }

    fn told(alloc: Global, matches: &ArgMatches<'_>) -> Result<Command, WordsFault> {
        match value(alloc, matches, "file") {
            Ok(file) => Ok(Command::Normal { file }),
            Err(fault) => Err(fault),
        }
    }
}

/// `upgrade FILE`.
pub(crate) struct UpgradeWords;

impl Asking for UpgradeWords {
    type Told = Command;

    ghost app = { upgrade_app };

    ghost from = { upgrade_from };

    ghost within = { λ _. ⊤ };

    ghost simple = { upgrade_is_simple };

    fn command<'a>(alloc: Global) -> Result<clap::Command<'a>, AllocError> {
        file_command(alloc, "upgrade")
    }

    fn told(alloc: Global, matches: &ArgMatches<'_>) -> Result<Command, WordsFault> {
        match value(alloc, matches, "file") {
            Ok(file) => Ok(Command::Upgrade { file }),
            Err(fault) => Err(fault),
        }
    }
}
