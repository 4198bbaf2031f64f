//! The command `upgrade FILE`.
ghost use Rattle.std.specs.Prelude.{◌≡◌, ◌≤◌, ◌⊎◌, IfOk, IfErr, OnOk, List};
ghost use Rattle.cov_io.specs.Causes.{Rose};
ghost use Rattle.cov_io.specs.Told.{WhereTold};
ghost use Rattle.cov_book.specs.Stands.{StandsFor};
ghost use Rattle.cov_model.specs.File.{file};
ghost use Rattle.cov_model.specs.declared.report.ListForm.TheVariants.{Flat};
ghost use Rattle.cov_model.specs.declared.snapshot.Snapshot.{Snapshot};
ghost use Rattle.cov_commands.specs.Due.{FileIsMissing, accepted_due, file_answer, normal_file};
ghost use Rattle.cov_commands.specs.Ends.{IsFinished};
ghost use Rattle.cov_commands.specs.Owed.{Gives, owed_of};
ghost use Rattle.cov_commands.specs.Stores.{store_at};
ghost use Rattle.cov_commands.specs.Tool.{upgrade_reader, reading_duty};

use crate::Ended;
use crate::due::{Due, file_of};
use crate::gather::{MOST, ended_by};
use crate::judge::{accepted_file, refused_file};
use cov_book::Book;
use cov_files::read_flat;
use cov_io::Store;
use std::alloc::{AllocError, Global};

/// What `upgrade FILE` owes: reads a flat file, as older files are, and writes the normal file of what it says.
pub fn upgrade<S: Store>(alloc: Global, store: &mut S, path: &str) -> Result<Due, Ended>
    ensures { Gives (reading_duty (upgrade_reader path.now))
        (store_at store.old (S.files store.old) (S.folders store.old) (S.faults store.old))
        (store_at store.new (S.files store.new) (S.folders store.new) (S.faults store.new)) result }
{
    let bytes = match store.read(alloc, path, MOST) {
        Ok(bytes) => bytes,
        Err(fault) => return Err(ended_by(fault)),
    };
    match judged(alloc, path, bytes.as_slice()) {
        Ok(due) => Ok(due),
        Err(_) => Err(Ended::NoMemory),
    }
}

/// What is due for these bytes of the file at a path.
fn judged(alloc: Global, path: &str, bytes: &[u8]) -> Result<Due, AllocError>
    ensures { IfOk result (λ due. owed_of due ≡ file_answer Flat normal_file path.now bytes.now) }
{
    match read_flat(alloc, bytes) {
        Ok(book) => normal_file(alloc, &book),
        Err(fault) => refused_file(alloc, path, fault),
    }
}

/// What is due for a flat file, of which this book was read.
fn normal_file(alloc: Global, book: &Book) -> Result<Due, AllocError>
    ensures { IfOk result (λ due. (held : List Snapshot) → StandsFor book.now held → owed_of due ≡ accepted_due (file held)) }
{
    let file = file_of(alloc, book)?;
    Ok(accepted_file(alloc, file))
}
