//! The command `same ONE OTHER`.
ghost use Rattle.std.specs.Prelude.{◌≡◌, ◌≤◌, ◌⊎◌, ◌++◌, ◌||◌, IfOk, IfErr, OnOk};
ghost use Rattle.cov_io.specs.Causes.{Rose};
ghost use Rattle.cov_io.specs.Told.{WhereTold, FolderIsThere};
ghost use Rattle.cov_commands.specs.Due.{same_answer, same_due, FolderIsMissing};
ghost use Rattle.cov_commands.specs.Ends.{IsFinished};
ghost use Rattle.cov_commands.specs.Owed.{Gives, owed_of};
ghost use Rattle.cov_commands.specs.Stores.{store_at};
ghost use Rattle.cov_commands.specs.Tool.{same_reader, reading_duty};

use crate::Ended;
use crate::due::{Due, Output};
use crate::ended::refused_or_done;
use crate::gather::{Maps, Merged, gather};
use cov_book::Book;
use cov_io::Store;
use cov_laws::have_one_file;
use cov_model::Items;
use std::alloc::{AllocError, Global};

/// What `same ONE OTHER` owes: reads the texts of both folders, those of the first before those of the second, and says
/// whether the snapshots that fit come to the same sums.
pub fn same<S: Store>(alloc: Global, store: &mut S, one: &str, other: &str) -> Result<Due, Ended>
    ensures { Gives (reading_duty (same_reader one.now other.now))
        (store_at store.old (S.files store.old) (S.folders store.old) (S.faults store.old))
        (store_at store.new (S.files store.new) (S.folders store.new) (S.faults store.new)) result }
{
    let mut first = Book::new(alloc);
    let found = match gather(alloc, store, &mut first, one, Maps::Left) {
        Ok(found) => found,
        Err(ended) => return Err(ended),
    };
    let mut second = Book::new(alloc);
    let more = match gather(alloc, store, &mut second, other, Maps::Left) {
        Ok(more) => more,
        Err(ended) => return Err(ended),
    };
    let agree = have_one_file(&first, &second);
    match answered(alloc, agree, found, more) {
        Ok(due) => Ok(due),
        Err(_) => Err(Ended::NoMemory),
    }
}

/// What is due where the two folders' sums agree, or don't.
fn answered(alloc: Global, agree: bool, found: Merged, more: Merged) -> Result<Due, AllocError>
    ensures { IfOk result (λ due. owed_of due ≡ same_answer agree (found.lines ++ more.lines) (found.refused || more.refused)) }
{
    let mut lines = found.lines;
    lines.extend_from_slice(more.lines.as_slice())?;
    let verdict = if agree { "same\n" } else { "different\n" };
    let out = Items::from_slice(alloc, verdict.as_bytes())?;
    let ended = if agree {
        refused_or_done(found.refused || more.refused)
    } else {
        Ended::Different
    };
    Ok(Due {
        out: Output::Bytes(out),
        err: lines,
        ended,
    })
}
