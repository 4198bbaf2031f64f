//! What a command owes.
ghost use Rattle.std.specs.Prelude.{◌≡◌, List, IfOk};
ghost use Rattle.cov_model.specs.declared.snapshot.Snapshot.{Snapshot as SnapshotValue};
ghost use Rattle.cov_model.specs.File.{file};
ghost use Rattle.cov_book.specs.Stands.{StandsFor};
ghost use Rattle.cov_commands.specs.Owed.{text_of};

use crate::Ended;
use cov_book::Book;
use cov_model::{Items, Snapshot};
use coverage_text::CoverageFiles;
use std::alloc::{AllocError, Global};

/// What a command owes the output.
#[derive(Debug, Drop)]
pub enum Output {
    /// These bytes.
    Bytes(Items<u8>),
    /// The JSON text of these scripts, which is written straight from them.
    Scripts(Snapshot),
    /// The JSON text of these coverage files, which is written straight from them.
    Coverage(CoverageFiles),
}

/// What a command owes: what goes to the output, the lines for the error sink, and how it then ends.
#[derive(Debug, Drop)]
pub struct Due {
    pub out: Output,
    pub err: Items<u8>,
    pub ended: Ended,
}

/// The one normal file of a book.
#[tactic(auto, unfolding(cov_model::specs::File::file_in))]
pub fn file_of(alloc: Global, book: &Book) -> Result<Output, AllocError>
    ensures { IfOk result (λ output. (held : List SnapshotValue) → StandsFor book.now held → text_of output ≡ file held) }
{
    let scripts = book.scripts(alloc)?;
    Ok(Output::Scripts(scripts))
}
