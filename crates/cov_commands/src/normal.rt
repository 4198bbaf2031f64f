//! The command `normal FILE`.
ghost use Rattle.std.specs.Prelude.{◌≡◌, ◌≤◌, ◌⊎◌, IfOk, IfErr, OnOk, codes};
ghost use Rattle.cov_io.specs.Causes.{Rose};
ghost use Rattle.cov_io.specs.Told.{WhereTold};
ghost use Rattle.cov_model.specs.declared.report.ListForm.TheVariants.{Nested};
ghost use Rattle.cov_commands.specs.Due.{FileIsMissing, accepted_due, file_answer, normal_word};
ghost use Rattle.cov_commands.specs.Ends.{IsFinished};
ghost use Rattle.cov_commands.specs.Owed.{Gives, owed_of};
ghost use Rattle.cov_commands.specs.Stores.{store_at};
ghost use Rattle.cov_commands.specs.Tool.{normal_reader, reading_duty};

use crate::Ended;
use crate::due::{Due, Output};
use crate::gather::{MOST, ended_by};
use crate::judge::{accepted_file, refused_file};
use cov_files::read_normal;
use cov_io::Store;
use cov_model::Items;
use std::alloc::{AllocError, Global};

/// What `normal FILE` owes: reads the file, and says whether it is a normal file.
pub fn normal<S: Store>(alloc: Global, store: &mut S, path: &str) -> Result<Due, Ended>
    ensures { Gives (reading_duty (normal_reader path.now))
        (store_at store.old (S.files store.old) (S.folders store.old) (S.faults store.old))
        (store_at store.new (S.files store.new) (S.folders store.new) (S.faults store.new)) result }
{
    let bytes = match store.read(alloc, path, MOST) {
        Ok(bytes) => bytes,
        Err(fault) => return Err(ended_by(fault)),
    };
    match judged(alloc, path, bytes.as_slice()) {
        Ok(due) => Ok(due),
        Err(_) => Err(Ended::NoMemory),
    }
}

/// What is due for these bytes of the file at a path.
fn judged(alloc: Global, path: &str, bytes: &[u8]) -> Result<Due, AllocError>
    ensures { IfOk result (λ due. owed_of due ≡ file_answer Nested normal_word path.now bytes.now) }
{
    match read_normal(alloc, bytes) {
        Ok(_book) => normal_word(alloc),
        Err(fault) => refused_file(alloc, path, fault),
    }
}

/// What is due for a normal file.
fn normal_word(alloc: Global) -> Result<Due, AllocError>
    ensures { IfOk result (λ due. owed_of due ≡ accepted_due (codes "normal\n")) }
{
    let word = Items::from_slice(alloc, b"normal\n")?;
    Ok(accepted_file(alloc, Output::Bytes(word)))
}
