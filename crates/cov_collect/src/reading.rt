//! What a text is read as.
ghost use Rattle.std.specs.Prelude.{◌≡◌, IfOk};
ghost use Rattle.cov_model.specs.Reading.{reading};

use cov_files::read_snapshot;
use cov_model::{Snapshot, TextFault};
use std::alloc::{AllocError, Global};

// The snapshot that a text is, or its first fault. Want of memory is told apart, since it says nothing of the text.
pub(crate) fn read_text(
    alloc: Global,
    bytes: &[u8],
) -> Result<Result<Snapshot, TextFault>, AllocError>
    ensures { IfOk result (λ read. read ≡ reading bytes.now) }
{
    match read_snapshot(alloc, bytes) {
        Ok(snapshot) => Ok(Ok(snapshot)),
        Err(TextFault::NoMemory) => Err(AllocError),
        Err(fault) => Ok(Err(fault)),
    }
}
