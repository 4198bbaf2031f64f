//! The command `collect FOLDER --workers N`.
ghost use Rattle.std.specs.Prelude.{◌≡◌, ◌≤◌, ◌⊎◌, [], ◌∷◌, ◌++◌, ℕ, List, map, string_bytes, IfOk, IfErr, OnOk};
ghost use Rattle.std.specs.List.{list_any};
ghost use Rattle.cov_io.specs.Told.{WhereTold, Files, path_in, names_in, FolderIsThere};
ghost use Rattle.cov_collect.specs.Batchwise.{Collects};
ghost use Rattle.cov_commands.specs.Collect.{OwesCollect, collect_reader};
ghost use Rattle.cov_commands.specs.Due.{FileIsMissing, FolderIsMissing};
ghost use Rattle.cov_commands.specs.Gathering.{HasGathered};
ghost use Rattle.cov_commands.specs.Lines as lines;
ghost use Rattle.cov_commands.specs.Owed.{Gives, owed_of};
ghost use Rattle.cov_commands.specs.Stores.{StillTells, Stopped, store_at};
ghost use Rattle.cov_commands.specs.Tool.{IsPlainEnd, reading_duty};

use crate::Ended;
use crate::due::{Due, file_of};
use crate::ended::refused_or_done;
use crate::gather::{MOST, ended_by, is_json, path_of};
use crate::lines::answer_line;
use cov_collect::Collector;
use cov_io::{Gate, Store};
use cov_model::{Answer, Items};
use std::alloc::{AllocError, Global};
use std::sync::Wait;
use std::thread::Threads;

/// The texts of a folder that were read so far: their paths, and the collector that has them.
#[derive(Drop)]
pub struct Gathered {
    paths: Vec<String>,
    texts: Collector,
}

/// What `collect FOLDER --workers N` owes: reads the folder's texts in byte order of their names, and has each batch taken by
/// so many workers. The one normal file of those that are snapshots and fit in the order of taking is for the output.
pub fn collect<S: Store, G: Gate + Sync, R: Threads + Wait + Sync>(
    rt: &R,
    alloc: Global,
    store: &mut S,
    folder: &str,
    workers: u32,
    gate: &G,
) -> Result<Due, Ended>
    requires { (1 ≤ workers) × (workers ≤ 16) }
    ensures { Gives (reading_duty (collect_reader folder.now))
        (store_at store.old (S.files store.old) (S.folders store.old) (S.faults store.old))
        (store_at store.new (S.files store.new) (S.folders store.new) (S.faults store.new)) result }
{
    let gathered = match gather_texts(rt, alloc, store, folder, workers, gate) {
        Ok(gathered) => gathered,
        Err(ended) => return Err(ended),
    };
    match due_of(rt, alloc, gathered, workers, gate) {
        Ok(due) => Ok(due),
        Err(_) => Err(Ended::NoMemory),
    }
}

/// Hands each text of a folder to the workers, in byte order of their names.
fn gather_texts<S: Store, G: Gate + Sync, R: Threads + Wait + Sync>(
    rt: &R,
    alloc: Global,
    store: &mut S,
    folder: &str,
    workers: u32,
    gate: &G,
) -> Result<Gathered, Ended>
    requires { (1 ≤ workers) × (workers ≤ 16) }
    ensures taken { IfOk result (λ gathered. WhereTold (S.files store.old) (λ files.
        HasGathered folder.now files (names_in folder.now files) gathered)) }
    ensures there { OnOk result (FolderIsThere (S.folders store.old) folder.now) }
    ensures kept { OnOk result (S.faults store.new ≡ S.faults store.old) }
    ensures stops { IfErr result (Stopped (FolderIsMissing (S.folders store.old) folder.now)
        (store_at store.old (S.files store.old) (S.folders store.old) (S.faults store.old))
        (store_at store.new (S.files store.new) (S.folders store.new) (S.faults store.new))) }
    ensures still { StillTells
        (store_at store.old (S.files store.old) (S.folders store.old) (S.faults store.old))
        (store_at store.new (S.files store.new) (S.folders store.new) (S.faults store.new)) }
{
    let names = match store.list(alloc, folder) {
        Ok(names) => names,
        Err(fault) => return Err(ended_by(fault)),
    };
    let mut gathered = Gathered {
        paths: Vec::new(alloc),
        texts: Collector::new(alloc),
    };
    for name in names.as_slice() {
        gathered = match take_name(
            rt,
            alloc,
            store,
            gathered,
            folder,
            name.as_str(),
            workers,
            gate,
        ) {
            Ok(gathered) => gathered,
            Err(ended) => return Err(ended),
        };
    }
    Ok(gathered)
}

/// Hands the file of a name to the workers, where it is a text.
fn take_name<S: Store, G: Gate + Sync, R: Threads + Wait + Sync>(
    rt: &R,
    alloc: Global,
    store: &mut S,
    gathered: Gathered,
    folder: &str,
    name: &str,
    workers: u32,
    gate: &G,
) -> Result<Gathered, Ended>
    requires { (1 ≤ workers) × (workers ≤ 16) }
    ensures taken { IfOk result (λ now. WhereTold (S.files store.old) (λ files. (names : List (List ℕ))
        → HasGathered folder.now files names gathered
        → HasGathered folder.now files (names ++ name.now ∷ []) now)) }
    ensures kept { OnOk result (S.faults store.new ≡ S.faults store.old) }
    ensures stops { IfErr result (Stopped (FileIsMissing (S.files store.old) (path_in folder.now name.now))
        (store_at store.old (S.files store.old) (S.folders store.old) (S.faults store.old))
        (store_at store.new (S.files store.new) (S.folders store.new) (S.faults store.new))) }
    ensures still { StillTells
        (store_at store.old (S.files store.old) (S.folders store.old) (S.faults store.old))
        (store_at store.new (S.files store.new) (S.folders store.new) (S.faults store.new)) }
{
    if !is_json(name) {
        return Ok(gathered);
    }
    let path = match path_of(alloc, folder, name) {
        Ok(path) => path,
        Err(_) => return Err(Ended::NoMemory),
    };
    let bytes = match store.read(alloc, path.as_str(), MOST) {
        Ok(bytes) => bytes,
        Err(fault) => return Err(ended_by(fault)),
    };
    match with_text(rt, alloc, gathered, path, bytes, workers, gate) {
        Ok(gathered) => Ok(gathered),
        Err(_) => Err(Ended::NoMemory),
    }
}

/// The same with one text more, which is taken with its batch.
fn with_text<G: Gate + Sync, R: Threads + Wait + Sync>(
    rt: &R,
    alloc: Global,
    gathered: Gathered,
    path: String,
    bytes: Vec<u8>,
    workers: u32,
    gate: &G,
) -> Result<Gathered, AllocError>
    requires { (1 ≤ workers) × (workers ≤ 16) }
    ensures texts { IfOk result (λ now. (texts : List (List ℕ)) → Collects texts gathered.texts
        → Collects (texts ++ bytes.items ∷ []) now.texts) }
    ensures paths { IfOk result (λ now. now.paths.items ≡ gathered.paths.items ++ path ∷ []) }
{
    let Gathered { mut paths, texts } = gathered;
    paths.push(path)?;
    let texts = texts.add(rt, alloc, bytes, workers, gate)?;
    Ok(Gathered { paths, texts })
}

/// What is due for the texts of a folder that were all read.
fn due_of<G: Gate + Sync, R: Threads + Wait + Sync>(
    rt: &R,
    alloc: Global,
    gathered: Gathered,
    workers: u32,
    gate: &G,
) -> Result<Due, AllocError>
    requires { (1 ≤ workers) × (workers ≤ 16) }
    ensures due { IfOk result (λ due. (folder : List ℕ) (files : Files)
        → HasGathered folder files (names_in folder files) gathered → OwesCollect folder files (owed_of due)) }
    ensures ends { IfOk result (λ due. IsPlainEnd due.ended) }
{
    let Gathered { paths, texts } = gathered;
    let all = texts.finish(rt, alloc, workers, gate)?;
    let out = file_of(alloc, &all.book)?;
    let err = lines_of(alloc, paths.as_slice(), all.answers.as_slice())?;
    let ended = refused_or_done(has_refusal(all.answers.as_slice()));
    Ok(Due {
        out,
        err: Items::from_vec(err),
        ended,
    })
}

/// The lines of the refused texts at these paths, in their order.
fn lines_of(alloc: Global, paths: &[String], answers: &[Answer]) -> Result<Vec<u8>, AllocError>
    ensures { IfOk result (λ written. written.items ≡ lines.answer_lines (map string_bytes paths.now) answers.now) }
{
    let mut written = Vec::new(alloc);
    for (path, answer) in paths.iter().zip(answers) {
        let line = answer_line(alloc, path.as_str(), answer)?;
        written.extend_from_slice(line.as_slice())?;
    }
    Ok(written)
}

fn has_refusal(answers: &[Answer]) -> bool
    ensures { result ≡ list_any lines.is_refusal answers.now }
{
    answers
        .iter()
        .any(|answer| !matches!(answer, Answer::Taken))
}
