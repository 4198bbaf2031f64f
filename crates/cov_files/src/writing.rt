//! The files of a book.
ghost use Rattle.std.specs.Prelude.{◌≡◌, List, IfOk, OnOk};
ghost use Rattle.std.specs.Io.KnownBytes.{Appends};
ghost use Rattle.cov_io.specs.declared.sink.SinkFault.TheVariants.{Failed};
ghost use Rattle.cov_io.specs.Causes.{HasCause};
ghost use Rattle.cov_io.specs.Grows.{AppendsPart};
ghost use Rattle.json_pieces.specs.Pieces.{IsWithin, piece};
ghost use Rattle.cov_model.specs.declared.snapshot.Snapshot.{Snapshot};
ghost use Rattle.cov_model.specs.File.{file, file_in};
ghost use Rattle.cov_book.specs.Stands.{StandsFor};

use cov_book::Book;
use cov_io::{Sink, SinkFault, SureSink};
use cov_model::ListForm;
use scripts_text::write_scripts;
use std::alloc::{AllocError, Global};

/// Writes the one normal file of a book to a sink: the compact JSON text of its scripts in file order, each function with
/// its normal list. It has no final newline.
///
/// It goes in pieces of at most 65,536 bytes, straight from the scripts; a string may be cut between bytes. After a
/// refusal a prefix of the file was written. `SinkFault::Failed` comes only where the sink's count of faults rose.
pub fn write_normal<O: Sink>(alloc: Global, book: &Book, out: &mut O) -> Result<(), SinkFault>
    ensures whole { OnOk result ((held : List Snapshot) → StandsFor book.now held
        → Appends (O.held out.old) (O.held out.new) (file held)) }
    ensures prefix { (held : List Snapshot) → StandsFor book.now held
        → AppendsPart (O.held out.old) (O.held out.new) (file held) }
    ensures within { IsWithin piece (O.longest out.old) (O.longest out.new) }
    ensures cause { HasCause Failed (O.faults out.old) (O.faults out.new) result }
{
    write_in(alloc, book, ListForm::Nested, out)
}

/// The bytes of the one normal file of a book, as [`write_normal`] writes them.
pub fn normal_text(alloc: Global, book: &Book) -> Result<Vec<u8>, AllocError>
    ensures { IfOk result (λ text. (held : List Snapshot) → StandsFor book.now held → text.items ≡ file held) }
{
    text_in(alloc, book, ListForm::Nested)
}

// Writes a book's file with lists of this form.
#[tactic(auto, unfolding(cov_model::specs::File::file_in))]
fn write_in<O: Sink>(
    alloc: Global,
    book: &Book,
    form: ListForm,
    out: &mut O,
) -> Result<(), SinkFault>
    ensures whole { OnOk result ((held : List Snapshot) → StandsFor book.now held
        → Appends (O.held out.old) (O.held out.new) (file_in form held)) }
    ensures prefix { (held : List Snapshot) → StandsFor book.now held
        → AppendsPart (O.held out.old) (O.held out.new) (file_in form held) }
    ensures within { IsWithin piece (O.longest out.old) (O.longest out.new) }
    ensures cause { HasCause Failed (O.faults out.old) (O.faults out.new) result }
{
    let snapshot = book.scripts_in(alloc, form)?;
    write_scripts(alloc, snapshot.scripts(), out)
}

// The bytes of a book's file with lists of this form.
pub(crate) fn text_in(alloc: Global, book: &Book, form: ListForm) -> Result<Vec<u8>, AllocError>
    ensures { IfOk result (λ text. (held : List Snapshot) → StandsFor book.now held → text.items ≡ file_in form held) }
{
    let mut out = SureSink::new(alloc);
    match write_in(alloc, book, form, &mut out) {
        Ok(()) => Ok(out.bytes.into_vec()),
        Err(_) => Err(AllocError),
    }
}
