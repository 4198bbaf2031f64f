//! The command `merge FOLDER`.
ghost use Rattle.std.specs.Prelude.{◌≡◌, ◌≤◌, ◌⊎◌, IfOk, IfErr, OnOk};
ghost use Rattle.cov_io.specs.Causes.{Rose};
ghost use Rattle.cov_io.specs.Told.{WhereTold, FolderIsThere};
ghost use Rattle.cov_commands.specs.Due.{merge_due, FolderIsMissing};
ghost use Rattle.cov_commands.specs.Ends.{IsFinished};
ghost use Rattle.cov_commands.specs.Owed.{Gives};
ghost use Rattle.cov_commands.specs.Stores.{store_at};
ghost use Rattle.cov_commands.specs.Tool.{merge_reader, reading_duty};

use crate::Ended;
use crate::due::{Due, file_of};
use crate::ended::refused_or_done;
use crate::gather::{Maps, gather};
use cov_book::Book;
use cov_io::Store;
use std::alloc::Global;

/// What `merge FOLDER` owes: reads the folder's texts in byte order of their names, and sums those that are snapshots
/// and fit. The one normal file of these is for the output.
pub fn merge<S: Store>(alloc: Global, store: &mut S, folder: &str) -> Result<Due, Ended>
    ensures { Gives (reading_duty (merge_reader folder.now))
        (store_at store.old (S.files store.old) (S.folders store.old) (S.faults store.old))
        (store_at store.new (S.files store.new) (S.folders store.new) (S.faults store.new)) result }
{
    let mut book = Book::new(alloc);
    let merged = match gather(alloc, store, &mut book, folder, Maps::Left) {
        Ok(merged) => merged,
        Err(ended) => return Err(ended),
    };
    let Ok(out) = file_of(alloc, &book) else {
        return Err(Ended::NoMemory);
    };
    let ended = refused_or_done(merged.refused);
    Ok(Due {
        out,
        err: merged.lines,
        ended,
    })
}
