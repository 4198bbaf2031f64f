//! The command `make SEED COUNT`.
ghost use Rattle.std.specs.Prelude.{◌≡◌, ◌<◌, IfOk, IfErr};
ghost use Rattle.made_summary.specs.Line as line;
ghost use Rattle.cov_commands.specs.Making.{make_due};
ghost use Rattle.cov_commands.specs.Owed.{owed_of};

use crate::Ended;
use crate::due::{Due, Output};
use crate::judge::accepted_file;
use cov_book::Steps;
use cov_model::Items;
use made_summary::made_line;
use std::alloc::{AllocError, Global};
use std::marker::Brand;
use std::sync::ledger::{Blank, Ledger};

/// What `make SEED COUNT` owes: the line of what so many snapshots made of a seed come to, each taken as a text is taken. No store is
/// called.
pub fn make(alloc: Global, seed: u32, count: u32) -> Result<Due, Ended>
    ensures due { IfOk result (λ due. owed_of due ≡ make_due seed count) }
    ensures short { IfErr result (λ ended. ended ≡ Ended.NoMemory) }
{
    match line_counted::<Brand>(alloc, seed, count, Blank::new(1)) {
        Ok(line) => Ok(accepted_file(alloc, Output::Bytes(line))),
        Err(_) => Err(Ended::NoMemory),
    }
}

/// The line, with a counter of steps that nobody reads.
fn line_counted<L: Ledger>(
    alloc: Global,
    seed: u32,
    count: u32,
    blank: Blank,
) -> Result<Items<u8>, AllocError>
    requires name { blank.name ≡ L.name }
    requires parts { (blank.parts ≡ L.parts) × (0 < L.parts) }
    ensures { IfOk result (λ text. text ≡ line.made_line seed count) }
{
    let mut steps: Steps<L> = Steps::new(blank);
    made_line(alloc, seed, count, &mut steps)
}
