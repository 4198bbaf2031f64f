//! Taking the texts of a folder one after the other.
ghost use Rattle.std.specs.Prelude.{◌≡◌, ◌<◌, [], ◌∷◌, ◌++◌, ◌||◌, ℕ, List, None, Ok, map, string_bytes, IfOk, IfErr, OnOk, OnErr};
ghost use Rattle.cov_io.specs.Told.{WhereTold, path_in, names_in, FolderIsThere};
ghost use Rattle.cov_commands.specs.Due as due;
ghost use Rattle.cov_commands.specs.Due.{FileIsMissing, FolderIsMissing};
ghost use Rattle.cov_commands.specs.Stores.{StillTells, Stopped, store_at};
ghost use Rattle.cov_commands.specs.Gather.{HasKept, HasTaken, kept_if};
ghost use Rattle.cov_commands.specs.Ends.{IsEndedBy};
ghost use Rattle.cov_model.specs.declared.snapshot.Snapshot.{Snapshot};
ghost use Rattle.cov_model.specs.Gives.{TextFails};
ghost use Rattle.cov_files.specs.Maps.{maps_reading};
ghost use Rattle.source_maps.specs.Entries.{Said, said};
ghost use Rattle.cov_report.specs.First.{AreFirsts};
ghost use Rattle.cov_report.specs.Texts.{entries_if_taken, entries_or_none};
ghost use Rattle.cov_model.specs.Outcome.{after, answer_to};
ghost use Rattle.cov_model.specs.Reading.{reading};
ghost use Rattle.cov_model.specs.Sums.{sum_fault};
ghost use Rattle.cov_book.specs.Stands.{StandsFor, TellsSum};
ghost use Rattle.cov_commands.specs.Lines.{is_refusal};
ghost use Rattle.cov_commands.specs.Lines as lines;

use crate::Ended;
use crate::lines::answer_line;
use cov_book::{AddFault, Book, Steps};
use cov_files::{read_snapshot, read_text};
use cov_io::{Store, StoreFault};
use cov_model::{Answer, Items, Snapshot, TextFault};
use cov_report::FirstEntries;
use source_maps::MapEntry;
use std::alloc::{AllocError, Global};
use std::marker::Brand;
use std::sync::ledger::{Blank, Ledger};

/// The most bytes of a text that are read: one past the greatest size of a text.
pub const MOST: usize = 134217729;

/// Whether the map entries of texts are kept.
#[derive(Clone, Copy, Debug, PartialEq, Eq)]
pub enum Maps {
    /// Those of the accepted texts are kept.
    Kept,
    /// None is looked for.
    Left,
}

/// What is kept of the texts beside the book.
#[derive(Drop)]
pub struct Merged {
    /// The lines of the refused texts, in order.
    pub lines: Items<u8>,
    /// Whether a text was refused.
    pub refused: bool,
    /// The first map entry of each url of the accepted texts, where they are kept.
    pub entries: FirstEntries,
}

/// Takes each text of a folder, in byte order of their names.
pub fn gather<S: Store>(
    alloc: Global,
    store: &mut S,
    book: &mut Book,
    folder: &str,
    maps: Maps,
) -> Result<Merged, Ended>
    requires { StandsFor book.old [] }
    ensures taken { IfOk result (λ merged. WhereTold (S.files store.old) (λ files.
        HasTaken folder.now files (names_in folder.now files) book.new merged)) }
    ensures entries { IfOk result (λ merged. WhereTold (S.files store.old) (λ files.
        HasKept maps folder.now files (names_in folder.now files) merged)) }
    ensures there { OnOk result (FolderIsThere (S.folders store.old) folder.now) }
    ensures kept { OnOk result (S.faults store.new ≡ S.faults store.old) }
    ensures stops { IfErr result (Stopped (FolderIsMissing (S.folders store.old) folder.now)
        (store_at store.old (S.files store.old) (S.folders store.old) (S.faults store.old))
        (store_at store.new (S.files store.new) (S.folders store.new) (S.faults store.new))) }
    ensures still { StillTells
        (store_at store.old (S.files store.old) (S.folders store.old) (S.faults store.old))
        (store_at store.new (S.files store.new) (S.folders store.new) (S.faults store.new)) }
{
    let names = match store.list(alloc, folder) {
        Ok(names) => names,
        Err(fault) => return Err(ended_by(fault)),
    };
    let mut merged = Merged {
        lines: Items::new(alloc),
        refused: false,
        entries: FirstEntries::new(alloc),
    };
    for name in names.as_slice() {
        if let Err(ended) = take_name(
            alloc,
            store,
            book,
            &mut merged,
            folder,
            name.as_str(),
            maps,
        ) {
            return Err(ended);
        }
    }
    Ok(merged)
}

/// How a fault of the store ends a command.
pub fn ended_by(fault: StoreFault) -> Ended
    ensures { IsEndedBy fault result }
{
    match fault {
        StoreFault::Failed | StoreFault::Absent => Ended::ReadFault,
        StoreFault::NoMemory => Ended::NoMemory,
    }
}

/// Takes the file of a name, where it is a text.
fn take_name<S: Store>(
    alloc: Global,
    store: &mut S,
    book: &mut Book,
    merged: &mut Merged,
    folder: &str,
    name: &str,
    maps: Maps,
) -> Result<(), Ended>
    ensures taken { OnOk result (WhereTold (S.files store.old) (λ files. (names : List (List ℕ))
        → HasTaken folder.now files names book.old merged.old
        → HasTaken folder.now files (names ++ name.now ∷ []) book.new merged.new)) }
    ensures entries { OnOk result (WhereTold (S.files store.old) (λ files. (names : List (List ℕ))
        → HasTaken folder.now files names book.old merged.old
        → HasKept maps folder.now files names merged.old
        → HasKept maps folder.now files (names ++ name.now ∷ []) merged.new)) }
    ensures kept { OnOk result (S.faults store.new ≡ S.faults store.old) }
    ensures stops { IfErr result (Stopped (FileIsMissing (S.files store.old) (path_in folder.now name.now))
        (store_at store.old (S.files store.old) (S.folders store.old) (S.faults store.old))
        (store_at store.new (S.files store.new) (S.folders store.new) (S.faults store.new))) }
    ensures still { StillTells
        (store_at store.old (S.files store.old) (S.folders store.old) (S.faults store.old))
        (store_at store.new (S.files store.new) (S.folders store.new) (S.faults store.new)) }
{
    if !is_json(name) {
        return Ok(());
    }
    let path = match path_of(alloc, folder, name) {
        Ok(path) => path,
        Err(_) => return Err(Ended::NoMemory),
    };
    let bytes = match store.read(alloc, path.as_str(), MOST) {
        Ok(bytes) => bytes,
        Err(fault) => return Err(ended_by(fault)),
    };
    match take_text(alloc, book, merged, path.as_str(), bytes, maps) {
        Ok(()) => Ok(()),
        Err(_) => Err(Ended::NoMemory),
    }
}

/// Whether a file of this name is a text.
pub fn is_json(name: &str) -> bool
    ensures { result ≡ due.is_json name.now }
{
    name.as_bytes().ends_with(b".json")
}

/// The path of a file of a folder.
pub fn path_of(alloc: Global, folder: &str, name: &str) -> Result<String, AllocError>
    ensures { IfOk result (λ path. string_bytes path ≡ path_in folder.now name.now) }
{
    format!(in alloc; "{folder}/{name}")
}

/// Takes a text: reads it, adds it to the book, and keeps its line where it is refused, its map entries where they are kept.
fn take_text(
    alloc: Global,
    book: &mut Book,
    merged: &mut Merged,
    path: &str,
    bytes: Vec<u8>,
    maps: Maps,
) -> Result<(), AllocError>
    ensures book { OnOk result ((held : List Snapshot) → StandsFor book.old held
        → StandsFor book.new (after held (reading bytes.items))) }
    ensures lines { OnOk result ((held : List Snapshot) → StandsFor book.old held
        → merged.new.lines ≡ merged.old.lines ++ lines.answer_line path.now (answer_to held (reading bytes.items))) }
    ensures refused { OnOk result ((held : List Snapshot) → StandsFor book.old held
        → merged.new.refused ≡ (merged.old.refused || is_refusal (answer_to held (reading bytes.items)))) }
    ensures entries { OnOk result ((held : List Snapshot) (all : List Said) → StandsFor book.old held
        → AreFirsts all merged.old.entries
        → AreFirsts (all ++ kept_if maps (entries_if_taken bytes.items (answer_to held (reading bytes.items)))) merged.new.entries) }
{
    let answer = answer_of(alloc, book, &mut merged.entries, bytes, maps)?;
    let line = answer_line(alloc, path, &answer)?;
    merged.lines.extend_from_slice(line.as_slice())?;
    merged.refused |= !matches!(&answer, Answer::Taken);
    Ok(())
}

/// How a text is answered. It is let go once it is read, before the book takes memory for the snapshot.
fn answer_of(
    alloc: Global,
    book: &mut Book,
    entries: &mut FirstEntries,
    bytes: Vec<u8>,
    maps: Maps,
) -> Result<Answer, AllocError>
    ensures book { OnOk result ((held : List Snapshot) → StandsFor book.old held
        → StandsFor book.new (after held (reading bytes.items))) }
    ensures answer { IfOk result (λ answer. (held : List Snapshot) → StandsFor book.old held
        → answer ≡ answer_to held (reading bytes.items)) }
    ensures entries { IfOk result (λ answer. (all : List Said) → AreFirsts all entries.old
        → AreFirsts (all ++ kept_if maps (entries_if_taken bytes.items answer)) entries.new) }
{
    let read = read_for(alloc, bytes.as_slice(), maps);
    drop(bytes);
    match read {
        Ok((snapshot, found)) => match add(book, &snapshot)? {
            Answer::Taken => {
                entries.keep(found)?;
                Ok(Answer::Taken)
            }
            Answer::Past(fault) => Ok(Answer::Past(fault)),
            Answer::Bad(fault) => Ok(Answer::Bad(fault)),
        },
        Err(TextFault::NoMemory) => Err(AllocError),
        Err(fault) => Ok(Answer::Bad(fault)),
    }
}

/// The snapshot that a text is, and its map entries where they are kept. It asks no book, so texts can be read side by side.
fn read_for(
    alloc: Global,
    bytes: &[u8],
    maps: Maps,
) -> Result<(Snapshot, Items<MapEntry>), TextFault>
    ensures snapshot { IfOk result (λ both. reading bytes.now ≡ Ok both.0) }
    ensures entries { IfOk result (λ both. map said both.1 ≡ kept_if maps (entries_or_none (maps_reading bytes.now))) }
    ensures fails { IfErr result (λ fault. TextFails fault (reading bytes.now)) }
{
    match maps {
        Maps::Kept => read_text(alloc, bytes),
        Maps::Left => match read_snapshot(alloc, bytes) {
            Ok(snapshot) => Ok((snapshot, Items::new(alloc))),
            Err(fault) => Err(fault),
        },
    }
}

/// Adds a snapshot to the book, or refuses it for a sum past the limit, and answers which. An `AllocError` comes only for want of memory.
pub fn add(book: &mut Book, snapshot: &Snapshot) -> Result<Answer, AllocError>
    ensures book { OnOk result ((held : List Snapshot) → StandsFor book.old held
        → StandsFor book.new (after held (Ok snapshot.now))) }
    ensures answer { IfOk result (λ answer. (held : List Snapshot) → StandsFor book.old held
        → answer ≡ answer_to held (Ok snapshot.now)) }
{
    match add_counted::<Brand>(book, snapshot, Blank::new(1)) {
        Ok(()) => Ok(Answer::Taken),
        Err(AddFault::Sum(fault)) => Ok(Answer::Past(fault)),
        Err(AddFault::NoMemory) => Err(AllocError),
    }
}

/// Adds a snapshot, with a counter of steps that nobody reads.
fn add_counted<L: Ledger>(
    book: &mut Book,
    snapshot: &Snapshot,
    blank: Blank,
) -> Result<(), AddFault>
    requires name { blank.name ≡ L.name }
    requires parts { (blank.parts ≡ L.parts) × (0 < L.parts) }
    ensures ok { OnOk result ((held : List Snapshot) → StandsFor book.old held
        → (sum_fault held snapshot.now ≡ None) × StandsFor book.new (held ++ snapshot.now ∷ [])) }
    ensures sum { IfErr result (λ fault. (held : List Snapshot) → StandsFor book.old held
        → TellsSum (sum_fault held snapshot.now) fault) }
    ensures err { OnErr result (book.new ≡ book.old) }
{
    let mut steps: Steps<L> = Steps::new(blank);
    book.add(snapshot, &mut steps)
}
