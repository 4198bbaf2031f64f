//! A batch of texts, taken by workers.
ghost use Rattle.std.specs.Prelude.{◌≡◌, ◌≤◌, ◌<◌, ◌^◌, ◌*◌, ◌/◌, List, length, map, slice_get};
ghost use Rattle.std.specs.Prelude.{Some, None, IfOk, OnOk, vec_items};
ghost use Rattle.std.specs.Thread.{IsSync};
ghost use Rattle.cov_model.specs.declared.snapshot.Snapshot.{Snapshot};
ghost use Rattle.cov_book.specs.Stands.{StandsFor};
ghost use Rattle.cov_collect.specs.Batches.{IsBatch, AllAnswered, IsAnswered, KeepsAnswered};
ghost use Rattle.cov_collect.specs.Shelves.{answer_at, readings_of};

use crate::reading::read_text;
use crate::{Batch, Naming, Shelf};
use cov_book::{Book, Steps};
use cov_io::Gate;
use cov_model::{Snapshot, TextFault};
use std::alloc::{AllocError, Global};
use std::marker::Brand;
use std::sync::ledger::{Blank, Ledger};
use std::sync::{Mutex, Wait};
use std::thread::{Threads, join};

/// Answers each text of a batch over a base book, by 1 to 16 workers in threads of their own. Of n
/// texts worker j of w has the places from `j*n/w` up to but without `(j+1)*n/w`, rounded down.
///
/// A worker goes through its places from the least on. It reads the text outside the lock, calls the
/// gate's `before`, takes the text under the lock and calls the gate's `after`. A place that is still
/// open when all workers are done is taken in the same way by the caller.
///
/// An `AllocError` comes only for want of memory, in any of the threads. The base book is dropped then.
pub fn collect_batch<G: Gate + Sync, R: Threads + Wait + Sync>(
    rt: &R,
    alloc: Global,
    base: Book,
    texts: &[Vec<u8>],
    workers: u32,
    gate: &G,
) -> Result<Batch, AllocError>
    requires workers { (1 ≤ workers) × (workers ≤ 16) }
    requires count { length texts.now < 2 ^ 32 }
    ensures { IfOk result (λ batch. (held : List Snapshot) → StandsFor base held
        → IsBatch held (map vec_items texts.now) batch) }
{
    collect_as::<Brand, G, R>(rt, alloc, base, texts, workers, gate)
}

// The same, for a base and texts that have names.
fn collect_as<N: Naming + Send + Sync, G: Gate + Sync, R: Threads + Wait + Sync>(
    rt: &R,
    alloc: Global,
    base: Book,
    texts: &[Vec<u8>],
    workers: u32,
    gate: &G,
) -> Result<Batch, AllocError>
    requires base { base ≡ N.base }
    requires texts { map vec_items texts.now ≡ N.texts }
    requires workers { (1 ≤ workers) × (workers ≤ 16) }
    requires count { length texts.now < 2 ^ 32 }
    ensures { IfOk result (λ batch. (held : List Snapshot) → StandsFor N.base held
        → IsBatch held N.texts batch) }
{
    let shelf: Shelf<'_, N> = Shelf::new(alloc, &base, texts)?;
    let lock = Mutex::new(shelf);
    work(rt, alloc, &lock, texts, 0, workers, workers, gate)?;
    let mut shelf = lock.into_inner();
    finish(alloc, &mut shelf, texts, gate)?;
    shelf.into_batch(alloc)
}

// The workers from first up to but without last, each in a thread of its own.
fn work<N: Naming + Send + Sync, G: Gate + Sync, R: Threads + Wait + Sync>(
    rt: &R,
    alloc: Global,
    lock: &Mutex<Shelf<'_, N>>,
    texts: &[Vec<u8>],
    first: u32,
    last: u32,
    workers: u32,
    gate: &G,
) -> Result<(), AllocError>
    requires texts { map vec_items texts.now ≡ N.texts }
    requires count { length texts.now < 2 ^ 32 }
    requires part { (first < last) × (last ≤ workers) }
{
    if last - first == 1 {
        return work_alone(rt, alloc, lock, texts, first, workers, gate);
    }
    let middle = first + (last - first) / 2;
    let (a, b) = join(
        rt,
        || -> Result<(), AllocError>
            requires { IsSync R.row × (map vec_items texts.now ≡ N.texts)
                × (length texts.now < 2 ^ 32) × (first < middle) × (middle ≤ workers) }
        { work(rt, alloc, lock, texts, first, middle, workers, gate) },
        || -> Result<(), AllocError>
            requires { IsSync R.row × (map vec_items texts.now ≡ N.texts)
                × (length texts.now < 2 ^ 32) × (middle < last) × (last ≤ workers) }
        { work(rt, alloc, lock, texts, middle, last, workers, gate) },
    );
    a?;
    b
}

// The places of one worker, rising.
fn work_alone<N: Naming, G: Gate, R: Wait>(
    rt: &R,
    alloc: Global,
    lock: &Mutex<Shelf<'_, N>>,
    texts: &[Vec<u8>],
    worker: u32,
    workers: u32,
    gate: &G,
) -> Result<(), AllocError>
    requires texts { map vec_items texts.now ≡ N.texts }
    requires count { length texts.now < 2 ^ 32 }
    requires part { worker < workers }
{
    let count = texts.len() as u32;
    for place in start_of(worker, workers, count)..start_of(worker + 1, workers, count) {
        take_under(rt, alloc, lock, texts, place, gate)?;
    }
    Ok(())
}

// Where the places of a worker begin, of so many texts.
fn start_of(worker: u32, workers: u32, count: u32) -> u32
    requires { (worker ≤ workers) × (0 < workers) }
    ensures start { result ≡ (worker * count) / workers }
    ensures within { result ≤ count }
{
    (worker as u64 * count as u64 / workers as u64) as u32
}

// Reads the text of a place, and takes it under the lock unless it has an answer.
fn take_under<N: Naming, G: Gate, R: Wait>(
    rt: &R,
    alloc: Global,
    lock: &Mutex<Shelf<'_, N>>,
    texts: &[Vec<u8>],
    place: u32,
    gate: &G,
) -> Result<(), AllocError>
    requires texts { map vec_items texts.now ≡ N.texts }
    requires place { place < length texts.now }
{
    let read = read_text(alloc, texts[place as usize].as_slice())?;
    gate.before(place);
    let done = take_open(&mut lock.lock(rt), place, read);
    gate.after(place);
    done
}

// Takes the places that are open.
fn finish<N: Naming, G: Gate>(
    alloc: Global,
    shelf: &mut Shelf<'_, N>,
    texts: &[Vec<u8>],
    gate: &G,
) -> Result<(), AllocError>
    requires texts { map vec_items texts.now ≡ N.texts }
    requires count { length texts.now < 2 ^ 32 }
    ensures { OnOk result (AllAnswered shelf.new.answers (length N.texts)) }
{
    for place in 0..texts.len() as u32 {
        if shelf.answered(place) {
            continue;
        }
        let read = read_text(alloc, texts[place as usize].as_slice())?;
        gate.before(place);
        let done = take_open(shelf, place, read);
        gate.after(place);
        done?;
    }
    Ok(())
}

// Takes the text of a place unless it has an answer.
fn take_open<N: Naming>(
    shelf: &mut Shelf<'_, N>,
    place: u32,
    read: Result<Snapshot, TextFault>,
) -> Result<(), AllocError>
    requires read { slice_get (readings_of N.texts) place ≡ Some read }
    ensures answered { OnOk result (IsAnswered shelf.new.answers place) }
    ensures others { OnOk result (KeepsAnswered shelf.old.answers shelf.new.answers) }
{
    if shelf.answered(place) {
        return Ok(());
    }
    take_counted::<N, Brand>(shelf, place, read, Blank::new(1))
}

// Takes an open place, with a counter of its own.
fn take_counted<N: Naming, L: Ledger>(
    shelf: &mut Shelf<'_, N>,
    place: u32,
    read: Result<Snapshot, TextFault>,
    blank: Blank,
) -> Result<(), AllocError>
    requires name { blank.name ≡ L.name }
    requires parts { (blank.parts ≡ L.parts) × (0 < L.parts) }
    requires open { answer_at shelf.old.answers place ≡ None }
    requires read { slice_get (readings_of N.texts) place ≡ Some read }
    ensures answered { OnOk result (IsAnswered shelf.new.answers place) }
    ensures others { OnOk result (KeepsAnswered shelf.old.answers shelf.new.answers) }
{
    let mut steps: Steps<L> = Steps::new(blank);
    shelf.take(place, read, &mut steps)
}
