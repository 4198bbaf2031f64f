//! The tape of a folder: the accepted ones of its texts.
ghost use Rattle.std.specs.Prelude.{◌≡◌, ◌<◌, ◌+◌, ◌∷◌, ◌++◌, ◌||◌, [], ℕ, List, IfOk, IfErr, OnOk, IsTrue};
ghost use Rattle.cov_io.specs.Told.{WhereTold, path_in, names_in, FolderIsThere};
ghost use Rattle.cov_model.specs.Outcome.{after, answer_to};
ghost use Rattle.cov_model.specs.Reading.{reading};
ghost use Rattle.cov_model.specs.Sums.{fits};
ghost use Rattle.cov_book.specs.Stands.{StandsFor};
ghost use Rattle.cov_commands.specs.Due.{FileIsMissing, FolderIsMissing};
ghost use Rattle.cov_commands.specs.Lines.{is_refusal};
ghost use Rattle.cov_commands.specs.Lines as lines;
ghost use Rattle.cov_commands.specs.Stores.{StillTells, Stopped, store_at};
ghost use Rattle.cov_replay.specs.Taping.{HasTaped};

use cov_book::Book;
use cov_commands::{Ended, MOST, add, answer_line, ended_by, is_json, path_of};
use cov_files::read_snapshot;
use cov_io::Store;
use cov_model::{Answer, Items, Snapshot, TextFault};
use std::alloc::{AllocError, Global};

/// What a folder's texts come to: the accepted ones, and the lines of the refused ones.
#[derive(Drop)]
pub struct Tape {
    /// The snapshots of the accepted texts, in order.
    pub snapshots: Vec<Snapshot>,
    /// The lines of the refused texts, in order.
    pub lines: Items<u8>,
    /// Whether a text was refused.
    pub refused: bool,
    /// How many texts were read.
    pub texts: u32,
}

/// Reads the texts of a folder in byte order of their names, at most the first 4,294,967,295 of them. A text is accepted where it is a
/// snapshot whose sums fit with those of the accepted texts before it.
pub fn tape_of<S: Store>(alloc: Global, store: &mut S, folder: &str) -> Result<Tape, Ended>
    ensures taped { IfOk result (λ tape. WhereTold (S.files store.old) (λ files.
        HasTaped folder.now files (names_in folder.now files) tape)) }
    ensures fits { IfOk result (λ tape. IsTrue (fits tape.snapshots.items)) }
    ensures there { OnOk result (FolderIsThere (S.folders store.old) folder.now) }
    ensures kept { OnOk result (S.faults store.new ≡ S.faults store.old) }
    ensures stops { IfErr result (Stopped (FolderIsMissing (S.folders store.old) folder.now)
        (store_at store.old (S.files store.old) (S.folders store.old) (S.faults store.old))
        (store_at store.new (S.files store.new) (S.folders store.new) (S.faults store.new))) }
    ensures still { StillTells
        (store_at store.old (S.files store.old) (S.folders store.old) (S.faults store.old))
        (store_at store.new (S.files store.new) (S.folders store.new) (S.faults store.new)) }
{
    let names = match store.list(alloc, folder) {
        Ok(names) => names,
        Err(fault) => return Err(ended_by(fault)),
    };
    let mut book = Book::new(alloc);
    let mut tape = Tape {
        snapshots: Vec::new(alloc),
        lines: Items::new(alloc),
        refused: false,
        texts: 0,
    };
    for name in names.as_slice() {
        if let Err(ended) = take_name(alloc, store, &mut book, &mut tape, folder, name.as_str()) {
            return Err(ended);
        }
    }
    Ok(tape)
}

// Takes the file of a name, where it is a text and not one too many.
fn take_name<S: Store>(
    alloc: Global,
    store: &mut S,
    book: &mut Book,
    tape: &mut Tape,
    folder: &str,
    name: &str,
) -> Result<(), Ended>
    ensures stands { OnOk result (StandsFor book.old tape.old.snapshots.items → StandsFor book.new tape.new.snapshots.items) }
    ensures taped { OnOk result (StandsFor book.old tape.old.snapshots.items → WhereTold (S.files store.old) (λ files.
        (names : List (List ℕ)) → HasTaped folder.now files names tape.old
        → HasTaped folder.now files (names ++ name.now ∷ []) tape.new)) }
    ensures kept { OnOk result (S.faults store.new ≡ S.faults store.old) }
    ensures stops { IfErr result (Stopped (FileIsMissing (S.files store.old) (path_in folder.now name.now))
        (store_at store.old (S.files store.old) (S.folders store.old) (S.faults store.old))
        (store_at store.new (S.files store.new) (S.folders store.new) (S.faults store.new))) }
    ensures still { StillTells
        (store_at store.old (S.files store.old) (S.folders store.old) (S.faults store.old))
        (store_at store.new (S.files store.new) (S.folders store.new) (S.faults store.new)) }
{
    if !is_json(name) {
        return Ok(());
    }
    if tape.texts == u32::MAX {
        return Ok(());
    }
    let path = match path_of(alloc, folder, name) {
        Ok(path) => path,
        Err(_) => return Err(Ended::NoMemory),
    };
    let bytes = match store.read(alloc, path.as_str(), MOST) {
        Ok(bytes) => bytes,
        Err(fault) => return Err(ended_by(fault)),
    };
    match take_text(alloc, book, tape, path.as_str(), bytes.as_slice()) {
        Ok(()) => Ok(()),
        Err(_) => Err(Ended::NoMemory),
    }
}

// Takes a text: puts its snapshot on the tape, or keeps the line of its refusal.
fn take_text(
    alloc: Global,
    book: &mut Book,
    tape: &mut Tape,
    path: &str,
    bytes: &[u8],
) -> Result<(), AllocError>
    requires { tape.old.texts < 4294967295 }
    ensures book { OnOk result (StandsFor book.old tape.old.snapshots.items → StandsFor book.new tape.new.snapshots.items) }
    ensures snapshots { OnOk result (StandsFor book.old tape.old.snapshots.items
        → tape.new.snapshots.items ≡ after tape.old.snapshots.items (reading bytes.now)) }
    ensures lines { OnOk result (StandsFor book.old tape.old.snapshots.items
        → tape.new.lines ≡ tape.old.lines ++ lines.answer_line path.now (answer_to tape.old.snapshots.items (reading bytes.now))) }
    ensures refused { OnOk result (StandsFor book.old tape.old.snapshots.items
        → tape.new.refused ≡ (tape.old.refused || is_refusal (answer_to tape.old.snapshots.items (reading bytes.now)))) }
    ensures texts { OnOk result (tape.new.texts ≡ tape.old.texts + 1) }
{
    let answer = answer_of(alloc, book, &mut tape.snapshots, bytes)?;
    let line = answer_line(alloc, path, &answer)?;
    tape.lines.extend_from_slice(line.as_slice())?;
    tape.refused |= !matches!(&answer, Answer::Taken);
    tape.texts += 1;
    Ok(())
}

// The answer to a text, over the snapshots that the book stands for.
fn answer_of(
    alloc: Global,
    book: &mut Book,
    snapshots: &mut Vec<Snapshot>,
    bytes: &[u8],
) -> Result<Answer, AllocError>
    ensures book { OnOk result (StandsFor book.old snapshots.old.items → StandsFor book.new snapshots.new.items) }
    ensures snapshots { OnOk result (StandsFor book.old snapshots.old.items
        → snapshots.new.items ≡ after snapshots.old.items (reading bytes.now)) }
    ensures answer { IfOk result (λ answer. StandsFor book.old snapshots.old.items
        → answer ≡ answer_to snapshots.old.items (reading bytes.now)) }
{
    match read_snapshot(alloc, bytes) {
        Ok(snapshot) => match add(book, &snapshot)? {
            Answer::Taken => {
                snapshots.push(snapshot)?;
                Ok(Answer::Taken)
            }
            Answer::Past(fault) => Ok(Answer::Past(fault)),
            Answer::Bad(fault) => Ok(Answer::Bad(fault)),
        },
        Err(TextFault::NoMemory) => Err(AllocError),
        Err(fault) => Ok(Answer::Bad(fault)),
    }
}
