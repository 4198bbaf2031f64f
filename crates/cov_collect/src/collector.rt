//! The texts of a folder, taken batch after batch.
ghost use Rattle.std.specs.Prelude.{◌≡◌, ◌≤◌, ◌<◌, ◌^◌, [], ◌∷◌, ◌++◌, ◌||◌, ℕ, List, length, map, nat_le, vec_items, IfOk};
ghost use Rattle.cov_collect.specs.Batchwise.{Collects, HasTaken, HasTakenAll};

use crate::{Collected, collect_batch};
use cov_book::Book;
use cov_io::Gate;
use cov_model::{Answer, Items};
use std::alloc::{AllocError, Global};
use std::marker::Model;
use std::sync::Wait;
use std::thread::Threads;

/// A batch ends where it has so many texts.
const BATCH_TEXTS: usize = 256;

/// A batch ends where it has so many bytes.
const BATCH_BYTES: u64 = 33554432;

/// Takes texts batch after batch. It has the book of the texts that were taken and the answers to
/// these, and the texts that wait until their batch is full.
#[derive(Drop)]
pub struct Collector {
    book: Book,
    answers: Items<Answer>,
    waiting: Vec<Vec<u8>>,
    bytes: u64,
}

impl Model for Collector {
    ghost use Rattle.std.specs.Prelude.{◌≡◌, ◌<◌, map, length, sum_by, vec_items};
    ghost use Rattle.cov_collect.specs.Collecting.{Collecting};

    ghost Value = { Collecting };

    ghost view = { λ c. record { book = c.book; answers = c.answers; waiting = map vec_items c.waiting.items } };

    ghost invariant = { λ c. (length c.waiting.items < 256)
        × (c.bytes ≡ sum_by length (map vec_items c.waiting.items)) × (c.bytes < 33554432) };
}

impl Collector {
    /// A collector that has no text. Takes no memory.
    pub fn new(alloc: Global) -> Collector
        ensures { Collects [] result }
    {
        Collector {
            book: Book::new(alloc),
            answers: Items::new(alloc),
            waiting: Vec::new(alloc),
            bytes: 0,
        }
    }

    /// The same with one text more. Where it fills its batch, the batch is taken as `collect_batch` says.
    ///
    /// An `AllocError` comes only for want of memory, in any of the threads.
    pub fn add<G: Gate + Sync, R: Threads + Wait + Sync>(
        self,
        rt: &R,
        alloc: Global,
        text: Vec<u8>,
        workers: u32,
        gate: &G,
    ) -> Result<Collector, AllocError>
        requires { (1 ≤ workers) × (workers ≤ 16) }
        ensures { IfOk result (λ now. (texts : List (List ℕ)) → Collects texts self
            → Collects (texts ++ text.items ∷ []) now) }
    {
        let Collector {
            book,
            answers,
            mut waiting,
            bytes,
        } = self;
        let bytes = bytes.saturating_add(text.len() as u64);
        waiting.push(text)?;
        if !is_full(waiting.len(), bytes) {
            return Ok(Collector {
                book,
                answers,
                waiting,
                bytes,
            });
        }
        let so_far = Collected { book, answers };
        let now = take(rt, alloc, so_far, waiting.as_slice(), workers, gate)?;
        Ok(Collector {
            book: now.book,
            answers: now.answers,
            waiting: Vec::new(alloc),
            bytes: 0,
        })
    }

    /// What all texts come to: those that wait are taken as the last batch.
    ///
    /// An `AllocError` comes only for want of memory, in any of the threads.
    pub fn finish<G: Gate + Sync, R: Threads + Wait + Sync>(
        self,
        rt: &R,
        alloc: Global,
        workers: u32,
        gate: &G,
    ) -> Result<Collected, AllocError>
        requires { (1 ≤ workers) × (workers ≤ 16) }
        ensures { IfOk result (λ all. (texts : List (List ℕ)) → Collects texts self → HasTakenAll texts all) }
    {
        let Collector {
            book,
            answers,
            waiting,
            ..
        } = self;
        let so_far = Collected { book, answers };
        if waiting.is_empty() {
            return Ok(so_far);
        }
        take(rt, alloc, so_far, waiting.as_slice(), workers, gate)
    }
}

// Whether a batch of so many texts and bytes is full.
fn is_full(texts: usize, bytes: u64) -> bool
    ensures { result ≡ (nat_le 256 texts || nat_le 33554432 bytes) }
{
    texts >= BATCH_TEXTS || bytes >= BATCH_BYTES
}

// Takes a batch over what was taken before.
fn take<G: Gate + Sync, R: Threads + Wait + Sync>(
    rt: &R,
    alloc: Global,
    so_far: Collected,
    texts: &[Vec<u8>],
    workers: u32,
    gate: &G,
) -> Result<Collected, AllocError>
    requires workers { (1 ≤ workers) × (workers ≤ 16) }
    requires count { length texts.now < 2 ^ 32 }
    ensures { IfOk result (λ now. (batches : List (List (List ℕ))) → HasTaken batches so_far
        → HasTaken (batches ++ map vec_items texts.now ∷ []) now) }
{
    let Collected { book, answers } = so_far;
    let batch = collect_batch(rt, alloc, book, texts, workers, gate)?;
    let mut all = answers.into_vec();
    let mut more = batch.answers.into_vec();
    all.append(&mut more)?;
    Ok(Collected {
        book: batch.book,
        answers: Items::from_vec(all),
    })
}
