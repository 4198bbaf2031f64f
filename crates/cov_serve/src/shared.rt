//! The lock, and the end.
ghost use Rattle.std.specs.Prelude.{◌≡◌, ◌<◌, ◌^◌, [], true, length, IfOk, sum_by, vec_len};
ghost use Rattle.std.specs.Option.{option_to_list};
ghost use Rattle.cov_session.specs.Kept.{is_proper};
ghost use Rattle.cov_session.specs.Machine.{replied};
ghost use Rattle.cov_serve.specs.Served.{starts_of, IsServed};
ghost use Rattle.cov_serve.specs.Seats.{Gains, new_seats};
ghost use Rattle.cov_serve.specs.Answering.{IsAnswered, judged};

use crate::locked::Locked;
use crate::{Seat, Show, Stepped};
use cov_session::{Command, Desk, Target};
use std::alloc::{AllocError, Global};
use std::sync::ledger::{Blank, Ledger, Share};
use std::sync::{Mutex, Wait};

/// A target that several sessions share. Whenever its lock is free, only takes have played, the k-th take starts where k times the
/// pace is, no frame was lost, and each session's three sums are those of its own takes.
#[derive(Drop)]
pub struct SharedTarget<N: Show, A: Ledger, B: Ledger, C: Ledger> {
    lock: Mutex<Locked<N, A, B, C>>,
}

impl<N: Show, A: Ledger, B: Ledger, C: Ledger> SharedTarget<N, A, B, C> {
    /// A target that has played nothing, under a lock, and one seat for each of its sessions. An `AllocError` comes only for want of
    /// memory.
    pub fn new(
        alloc: Global,
        target: Target,
        takes: Blank,
        frames: Blank,
        starts: Blank,
    ) -> Result<(SharedTarget<N, A, B, C>, Vec<Seat<N, A, B, C>>), AllocError>
        requires named { (target.tape ≡ N.tape) × (target.pace ≡ N.pace) × (length target.desks ≡ N.sessions) }
        requires fresh { (target.played ≡ 0) × (target.takes ≡ []) }
        requires few { N.sessions < 2 ^ 32 }
        requires takes { (takes.name ≡ A.name) × (takes.parts ≡ A.parts) × (takes.parts ≡ N.sessions) }
        requires frames { (frames.name ≡ B.name) × (frames.parts ≡ B.parts) × (frames.parts ≡ N.sessions) }
        requires starts { (starts.name ≡ C.name) × (starts.parts ≡ C.parts) × (starts.parts ≡ N.sessions) }
        ensures { IfOk result (λ r. r.1.items ≡ new_seats N.sessions) }
    {
        let sessions = target.sessions();
        let (takes_book, mut all_takes) = takes.open::<A>();
        let (frames_book, mut all_frames) = frames.open::<B>();
        let (starts_book, mut all_starts) = starts.open::<C>();
        let shared = SharedTarget {
            lock: Mutex::new(Locked::new(target, takes_book, frames_book, starts_book)),
        };
        let mut seats = Vec::new(alloc);
        for session in 0..sessions {
            let takes = all_takes.split_off(1, 0);
            let frames = all_frames.split_off(1, 0);
            let starts = all_starts.split_off(1, 0);
            seats.push(Seat::new(session as u32, takes, frames, starts))?;
        }
        Ok((shared, seats))
    }

    /// One command of the seat's session, whose desk is the one that its earlier commands leave, under one hold of the lock. An
    /// `AllocError` comes only for want of memory.
    pub fn step<R: Wait>(
        &self,
        rt: &R,
        alloc: Global,
        seat: &mut Seat<N, A, B, C>,
        desk: &Desk,
        command: &Command,
    ) -> Result<Stepped, AllocError>
        requires proper { is_proper desk.now ≡ true }
        ensures answered { IfOk result (λ r. IsAnswered N.tape N.pace seat.old.session
            (judged desk.now command.now) r.reply r.take) }
        ensures gains { IfOk result (λ r. Gains seat.old seat.new (option_to_list r.take)) }
        ensures session { seat.new.session ≡ seat.old.session }
    {
        self.lock.lock(rt).step(alloc, seat, desk, command)
    }

    /// The seat's session leaves.
    pub fn leave<R: Wait>(&self, rt: &R, seat: &Seat<N, A, B, C>) {
        self.lock.lock(rt).leave(seat);
    }
}

/// The target, once all seats are back.
pub fn close<N: Show, A: Ledger, B: Ledger, C: Ledger>(
    shared: SharedTarget<N, A, B, C>,
    seats: Vec<Seat<N, A, B, C>>,
) -> Target
    requires all { (vec_len seats ≡ A.parts) × (vec_len seats ≡ B.parts) × (vec_len seats ≡ C.parts) }
    requires some { 0 < vec_len seats }
    ensures served { IsServed N.tape N.pace N.sessions result }
    ensures takes { length result.takes ≡ sum_by (λ s. s.takes) seats.items }
    ensures frames { replied result.takes ≡ sum_by (λ s. s.frames) seats.items }
    ensures starts { starts_of result.takes ≡ sum_by (λ s. s.starts) seats.items }
{
    let (takes, frames, starts) = gathered(seats);
    shared.lock.into_inner().close(takes, frames, starts)
}

fn gathered<N: Show, A: Ledger, B: Ledger, C: Ledger>(
    seats: Vec<Seat<N, A, B, C>>,
) -> (Share<A>, Share<B>, Share<C>)
    requires some { 0 < vec_len seats }
    ensures parts { (result.0.parts ≡ vec_len seats) × (result.1.parts ≡ vec_len seats) × (result.2.parts ≡ vec_len seats) }
    ensures takes { result.0.amount ≡ sum_by (λ s. s.takes) seats.items }
    ensures frames { result.1.amount ≡ sum_by (λ s. s.frames) seats.items }
    ensures starts { result.2.amount ≡ sum_by (λ s. s.starts) seats.items }
{
    let mut seats = seats;
    let Some(last) = seats.pop() else {
        unreachable!()
    };
    let (mut takes, mut frames, mut starts) = last.into_shares();
    while let Some(seat) = seats.pop() {
        let (more_takes, more_frames, more_starts) = seat.into_shares();
        takes.merge(more_takes);
        frames.merge(more_frames);
        starts.merge(more_starts);
    }
    (takes, frames, starts)
}
