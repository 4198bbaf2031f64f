//! What is due for a file that is accepted, or refused.
ghost use Rattle.std.specs.Prelude.{◌≡◌, ◌<◌, ℕ, List, length, IfOk};
ghost use Rattle.cov_text.specs.Listing.{max_text};
ghost use Rattle.cov_files.specs.Normal.{TellsWhy};
ghost use Rattle.cov_model.specs.declared.report.ListForm.{ListForm};
ghost use Rattle.cov_model.specs.declared.snapshot.Snapshot.{Snapshot};
ghost use Rattle.cov_commands.specs.Due.{accepted_due, file_answer, refused_due};
ghost use Rattle.cov_commands.specs.Owed.{owed_of, text_of};

use crate::Ended;
use crate::due::{Due, Output};
use crate::lines::refused;
use cov_files::NormalFault;
use cov_model::Items;
use std::alloc::{AllocError, Global};

/// What is due for a file that is accepted, with this on the output.
pub fn accepted_file(alloc: Global, out: Output) -> Due
    ensures { owed_of result ≡ accepted_due (text_of out) }
{
    Due {
        out,
        err: Items::new(alloc),
        ended: Ended::Done,
    }
}

/// What is due for a file whose bytes were refused for this.
pub fn refused_file(alloc: Global, path: &str, fault: NormalFault) -> Result<Due, AllocError>
    ensures { IfOk result (λ due. (form : ListForm) (said : Snapshot → List ℕ) (bytes : List ℕ) → TellsWhy form fault bytes
        → (max_text < length bytes → fault ≡ NormalFault.TooLong) → owed_of due ≡ file_answer form said path.now bytes) }
{
    match fault {
        NormalFault::TooLong => refused_for(alloc, path, b"too long"),
        NormalFault::NotNormal => refused_for(alloc, path, b"not normal"),
        NormalFault::NoMemory => Err(AllocError),
    }
}

/// What is due for a file that is refused with this in its line.
fn refused_for(alloc: Global, path: &str, why: &[u8]) -> Result<Due, AllocError>
    ensures { IfOk result (λ due. owed_of due ≡ refused_due path.now why.now) }
{
    let line = refused(alloc, path, why)?;
    Ok(Due {
        out: Output::Bytes(Items::new(alloc)),
        err: Items::from_vec(line),
        ended: Ended::SomeRefused,
    })
}
