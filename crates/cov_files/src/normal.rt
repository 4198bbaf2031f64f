//! A book from the bytes of a normal file, or of a flat one.
ghost use Rattle.std.specs.Prelude.{◌≡◌, ◌<◌, [], ◌∷◌, Err, IfOk, IfErr, length};
ghost use Rattle.cov_text.specs.Listing.{max_text};
ghost use Rattle.cov_model.specs.declared.report.ListForm.TheVariants.{Nested, Flat};
ghost use Rattle.cov_model.specs.Sums.{sum_fault};
ghost use Rattle.cov_book.specs.Stands.{StandsFor, TellsSum};
ghost use Rattle.cov_files.specs.Normal.{IsReadFrom, TellsWhy};

use crate::read_snapshot;
use crate::writing::text_in;
use cov_book::{AddFault, Book, Steps};
use cov_model::{ListForm, MAX_TEXT, Snapshot, TextFault};
use std::alloc::Global;
use std::marker::Brand;
use std::sync::ledger::{Blank, Ledger};

/// Why bytes aren't read as a normal file, or as a flat one.
#[derive(Clone, Copy, Debug, PartialEq, Eq)]
pub enum NormalFault {
    /// They are longer than 134,217,728 bytes.
    TooLong,
    /// They are not longer, and not the bytes that a book is written as in this form.
    NotNormal,
    /// There was no memory to tell.
    NoMemory,
}

/// The book whose normal file these bytes are. It stands for the one snapshot that they are read as.
///
/// Bytes are a normal file where they are a snapshot's JSON text, no sum of that snapshot alone passes 2^64-1, and its sums are
/// written as exactly these bytes. `NormalFault::TooLong` comes exactly past 134,217,728 bytes, `NormalFault::NotNormal` exactly
/// where shorter bytes are no normal file, and `NormalFault::NoMemory` only for want of memory.
pub fn read_normal(alloc: Global, bytes: &[u8]) -> Result<Book, NormalFault>
    ensures ok { IfOk result (λ book. IsReadFrom Nested book bytes.now) }
    ensures long { max_text < length bytes.now → result ≡ Err NormalFault.TooLong }
    ensures fails { IfErr result (λ fault. TellsWhy Nested fault bytes.now) }
{
    read_in(alloc, bytes, ListForm::Nested)
}

/// The book whose flat file these bytes are, as older files are. It stands for the one snapshot that they are read as.
///
/// Bytes are a flat file where they are a snapshot's JSON text, no sum of that snapshot alone passes 2^64-1, and its sums are
/// written as exactly these bytes with flat lists. `NormalFault::TooLong` comes exactly past 134,217,728 bytes,
/// `NormalFault::NotNormal` exactly where shorter bytes are no flat file, and `NormalFault::NoMemory` only for want of memory.
pub fn read_flat(alloc: Global, bytes: &[u8]) -> Result<Book, NormalFault>
    ensures ok { IfOk result (λ book. IsReadFrom Flat book bytes.now) }
    ensures long { max_text < length bytes.now → result ≡ Err NormalFault.TooLong }
    ensures fails { IfErr result (λ fault. TellsWhy Flat fault bytes.now) }
{
    read_in(alloc, bytes, ListForm::Flat)
}

/// The book whose file with lists of this form these bytes are.
fn read_in(alloc: Global, bytes: &[u8], form: ListForm) -> Result<Book, NormalFault>
    ensures ok { IfOk result (λ book. IsReadFrom form book bytes.now) }
    ensures long { max_text < length bytes.now → result ≡ Err NormalFault.TooLong }
    ensures fails { IfErr result (λ fault. TellsWhy form fault bytes.now) }
{
    if bytes.len() > MAX_TEXT {
        return Err(NormalFault::TooLong);
    }
    let snapshot = match read_snapshot(alloc, bytes) {
        Ok(snapshot) => snapshot,
        Err(TextFault::NoMemory) => return Err(NormalFault::NoMemory),
        Err(_) => return Err(NormalFault::NotNormal),
    };
    let book = match book_of::<Brand>(alloc, &snapshot, Blank::new(1)) {
        Ok(book) => book,
        Err(AddFault::Sum(_)) => return Err(NormalFault::NotNormal),
        Err(AddFault::NoMemory) => return Err(NormalFault::NoMemory),
    };
    let Ok(text) = text_in(alloc, &book, form) else {
        return Err(NormalFault::NoMemory);
    };
    if text.as_slice() == bytes {
        Ok(book)
    } else {
        Err(NormalFault::NotNormal)
    }
}

/// The book of one snapshot, with a counter of steps that nobody reads.
fn book_of<L: Ledger>(alloc: Global, snapshot: &Snapshot, blank: Blank) -> Result<Book, AddFault>
    requires name { blank.name ≡ L.name }
    requires parts { (blank.parts ≡ L.parts) × (0 < L.parts) }
    ensures ok { IfOk result (λ book. StandsFor book (snapshot.now ∷ [])) }
    ensures sum { IfErr result (λ fault. TellsSum (sum_fault [] snapshot.now) fault) }
{
    let mut steps: Steps<L> = Steps::new(blank);
    let mut book = Book::new(alloc);
    match book.add(snapshot, &mut steps) {
        Ok(()) => Ok(book),
        Err(fault) => Err(fault),
    }
}
