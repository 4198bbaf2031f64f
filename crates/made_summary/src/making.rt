//! The book of made snapshots, and its line.
ghost use Rattle.std.specs.Prelude.{◌≡◌, [], ◌∷◌, ◌++◌, List, IfOk, OnOk};
ghost use Rattle.serde_json.specs.Written.{compact_text};
ghost use Rattle.cov_model.specs.declared.snapshot.Snapshot.{Snapshot};
ghost use Rattle.cov_model.specs.File.{result_data};
ghost use Rattle.cov_book.specs.Stands.{StandsFor};
ghost use Rattle.cov_laws.specs.Laws.{AreInBounds};
ghost use Rattle.made_snapshots.specs.Made.{made};
ghost use Rattle.made_summary.specs.Line as line;
ghost use Rattle.made_summary.specs.Line.{summary_line};

use cov_book::{Book, Numbers, Steps};
use cov_files::{normal_text, read_snapshot};
use cov_io::SureSink;
use cov_model::{Entry, Items};
use made_snapshots::{Draws, made_scripts};
use scripts_text::write_scripts;
use std::alloc::{AllocError, Global};
use std::sync::ledger::Ledger;

/// Makes so many snapshots of a seed, writes each, reads it back and adds it to one book, and gives the line of what the book comes
/// to, with its newline: `snapshots N scripts S functions F ranges R roots T bytes B`, the last number being the length of the
/// book's normal file. The counter may rise: it counts the runs that were looked at.
pub fn made_line<L: Ledger>(
    alloc: Global,
    seed: u32,
    count: u32,
    steps: &mut Steps<L>,
) -> Result<Items<u8>, AllocError>
    ensures { IfOk result (λ text. text ≡ line.made_line seed count) }
{
    let book = made_book(alloc, seed, count, steps)?;
    let numbers = book.numbers(alloc)?;
    let file = normal_text(alloc, &book)?;
    summary(alloc, count, numbers, file.as_slice().len())
}

// The line of so many snapshots, of which these are the numbers, and whose normal file has so many bytes.
fn summary(
    alloc: Global,
    count: u32,
    numbers: Numbers,
    bytes: usize,
) -> Result<Items<u8>, AllocError>
    ensures { IfOk result (λ text. text ≡ summary_line count numbers bytes) }
{
    let text = format!(in alloc;
        "snapshots {count} scripts {} functions {} ranges {} roots {} bytes {bytes}\n",
        numbers.scripts, numbers.functions, numbers.ranges, numbers.roots
    )?;
    Items::from_slice(alloc, text.as_bytes())
}

// The book of the first so many snapshots that are made of a seed.
fn made_book<L: Ledger>(
    alloc: Global,
    seed: u32,
    count: u32,
    steps: &mut Steps<L>,
) -> Result<Book, AllocError>
    ensures { IfOk result (λ book. StandsFor book (made seed count)) }
{
    let mut book = Book::new(alloc);
    let mut draws = Draws::new(seed);
    for number in 0..count {
        let scripts = made_scripts(alloc, &mut draws, number)?;
        add_written(alloc, &mut book, scripts.as_slice(), steps)?;
    }
    Ok(book)
}

// Adds a made snapshot as a text is added: written first, and read back. What is made nests, and its counts are at most 4, so that
// it is refused for want of memory alone; tests see that.
fn add_written<L: Ledger>(
    alloc: Global,
    book: &mut Book,
    scripts: &[Entry],
    steps: &mut Steps<L>,
) -> Result<(), AllocError>
    requires { AreInBounds scripts.now }
    ensures { OnOk result ((held : List Snapshot) → StandsFor book.old held
        → StandsFor book.new (held ++ scripts.now ∷ [])) }
{
    let text = written(alloc, scripts)?;
    let Ok(snapshot) = read_snapshot(alloc, text.as_slice()) else {
        return Err(AllocError);
    };
    match book.add(&snapshot, steps) {
        Ok(()) => Ok(()),
        Err(_) => Err(AllocError),
    }
}

// The text of scripts.
fn written(alloc: Global, scripts: &[Entry]) -> Result<Items<u8>, AllocError>
    ensures { IfOk result (λ text. text ≡ compact_text (result_data scripts.now)) }
{
    let mut out = SureSink::new(alloc);
    match write_scripts(alloc, scripts, &mut out) {
        Ok(()) => Ok(out.bytes),
        Err(_) => Err(AllocError),
    }
}
