//! What the frames of a tape come to.
ghost use Rattle.std.specs.Prelude.{◌≡◌, ◌<◌, ◌≤◌, None, true, length, IfOk, IfErr, OnOk};
ghost use Rattle.cov_model.specs.Sums.{fits};
ghost use Rattle.cov_model.specs.File.{scripts};
ghost use Rattle.cov_book.specs.Stands.{StandsFor, TellsSum};
ghost use Rattle.cov_session.specs.Machine.{frames};
ghost use Rattle.cov_session.specs.Merging.{tape_fault, TellsFault};
ghost use Rattle.cov_session.specs.View.{taken_view};

use crate::TargetFault;
use crate::seeing::viewed;
use cov_book::{AddFault, Book};
use cov_messages::Flags;
use cov_model::{Snapshot, Steps};
use std::alloc::{AllocError, Global};
use std::marker::Brand;
use std::sync::ledger::{Blank, Ledger};

// The book of these snapshots, added in order, or the first sum past the limit.
fn merged(alloc: Global, frames: &[Snapshot]) -> Result<Book, AddFault>
    ensures book { IfOk result (λ book. StandsFor book frames.now) }
    ensures fits { OnOk result (tape_fault frames.now ≡ None) }
    ensures sum { IfErr result (λ fault. TellsSum (tape_fault frames.now) fault) }
{
    merged_by::<Brand>(alloc, frames, Blank::new(1))
}

// The same, with a counter of steps that nobody reads.
fn merged_by<L: Ledger>(alloc: Global, frames: &[Snapshot], blank: Blank) -> Result<Book, AddFault>
    requires name { blank.name ≡ L.name }
    requires parts { (blank.parts ≡ L.parts) × (0 < L.parts) }
    ensures book { IfOk result (λ book. StandsFor book frames.now) }
    ensures fits { OnOk result (tape_fault frames.now ≡ None) }
    ensures sum { IfErr result (λ fault. TellsSum (tape_fault frames.now) fault) }
{
    let mut steps: Steps<L> = Steps::new(blank);
    let mut book = Book::new(alloc);
    for frame in frames {
        book.add(frame, &mut steps)?;
    }
    Ok(book)
}

/// Whether the sums of a tape fit: else the first sum past the limit, as its snapshots are added in order.
#[tactic(auto, using(crate::proofs::Tapes::fits_where_faultless))]
pub fn fitting(alloc: Global, tape: &[Snapshot]) -> Result<(), TargetFault>
    ensures fits { OnOk result ((tape_fault tape.now ≡ None) × (fits tape.now ≡ true)) }
    ensures sum { IfErr result (λ fault. TellsFault (tape_fault tape.now) fault) }
{
    match merged(alloc, tape) {
        Ok(_book) => Ok(()),
        Err(AddFault::Sum(fault)) => Err(TargetFault::Sum(fault)),
        Err(AddFault::NoMemory) => Err(TargetFault::NoMemory),
    }
}

// The frames of a tape from `since` up to but without `played`.
fn between(tape: &[Snapshot], since: u64, played: u64) -> &[Snapshot]
    requires order { since ≤ played }
    requires within { played ≤ length tape.now }
    ensures { result.now ≡ frames tape.now since played }
{
    &tape[since as usize..played as usize]
}

// The scripts of a book of these frames, whose sums fit.
fn scripts_of(alloc: Global, frames: &[Snapshot]) -> Result<Snapshot, AllocError>
    requires { fits frames.now ≡ true }
    ensures { IfOk result (λ snapshot. snapshot ≡ scripts frames.now) }
{
    match merged(alloc, frames) {
        Ok(book) => book.scripts(alloc),
        Err(AddFault::Sum(_)) => unreachable!(),
        Err(AddFault::NoMemory) => Err(AllocError),
    }
}

/// What the frames of a tape from `since` up to but without `played` come to, as flags let see it. The sums of the tape fit.
pub fn taken(
    alloc: Global,
    flags: &Flags,
    tape: &[Snapshot],
    since: u64,
    played: u64,
) -> Result<Snapshot, AllocError>
    requires order { since ≤ played }
    requires within { played ≤ length tape.now }
    requires fits { fits tape.now ≡ true }
    ensures { IfOk result (λ snapshot. snapshot ≡ taken_view flags.now (frames tape.now since played)) }
{
    let frames = between(tape, since, played);
    let merged = scripts_of(alloc, frames)?;
    let seen = viewed(alloc, *flags, &merged)?;
    Ok(seen)
}
