//! What stands behind the lock, and what a session holds beside it.
ghost use Rattle.std.specs.Prelude.{◌≡◌, ℕ, ◌<◌, ◌++◌, List, [], length, true, IfOk, OnErr, slice_get};
ghost use Rattle.std.specs.Option.{option_to_list};
ghost use Rattle.cov_model.specs.declared.snapshot.Snapshot.{Snapshot};
ghost use Rattle.cov_session.specs.Machine.{replied};
ghost use Rattle.cov_session.specs.Kept.{is_proper};
ghost use Rattle.cov_serve.specs.Served.{starts_of, IsServed};
ghost use Rattle.cov_serve.specs.Seats.{Gains};
ghost use Rattle.cov_serve.specs.Answering.{IsAnswered, judged, desk_after};

use cov_messages::Reply;
use cov_session::{Command, Desk, Take, Target};
use std::alloc::{AllocError, Global};
use std::marker::{Brand, Model, PhantomData};
use std::sync::ledger::{Book, Ledger, Share};

/// What is played, and for how many sessions. The caller names it where the target is shared; no value of it is made.
pub trait Show {
    ghost tape: { List Snapshot };

    ghost pace: { ℕ };

    ghost sessions: { ℕ };
}

impl Show for Brand {
    ghost use Rattle.std.specs.Prelude.{[]};

    ghost tape = { [] };

    ghost pace = { 0 };

    ghost sessions = { 0 };
}

/// The target, and the books of its takes, of the frames in their replies, and of their starts. What holds whenever the lock is
/// free is in the type.
#[derive(Drop)]
pub(crate) struct Locked<N: Show, A: Ledger, B: Ledger, C: Ledger> {
    target: Target,
    takes: Book<A>,
    frames: Book<B>,
    starts: Book<C>,
    of: PhantomData<N>,
    ghost served: { IsServed N.tape N.pace N.sessions target },
    ghost takes_are: { takes.total ≡ length target.takes },
    ghost frames_are: { frames.total ≡ replied target.takes },
    ghost starts_are: { starts.total ≡ starts_of target.takes },
}

/// A session, and its shares: of the number of takes, of the number of frames in their replies, and of their starts. The starts of
/// takes are the sum of `since` over those that hold a frame.
#[derive(Drop)]
pub struct Seat<N: Show, A: Ledger, B: Ledger, C: Ledger> {
    session: u32,
    takes: Share<A>,
    frames: Share<B>,
    starts: Share<C>,
    of: PhantomData<N>,
}

impl<N: Show, A: Ledger, B: Ledger, C: Ledger> Model for Seat<N, A, B, C> {
    ghost use Rattle.std.specs.Prelude.{◌≡◌, ◌<◌};
    ghost use Rattle.cov_serve.specs.Seats.{Seated};

    ghost Value = { Seated };

    ghost view = { λ s. record {
      session = s.session;
      takes = s.takes.amount;
      frames = s.frames.amount;
      starts = s.starts.amount;
    } };

    ghost invariant = { λ s. (s.session < N.sessions)
        × (s.takes.parts ≡ 1) × (s.frames.parts ≡ 1) × (s.starts.parts ≡ 1) };
}

/// What a command is answered, and its take, where it is one.
#[derive(Debug, Drop)]
pub struct Stepped {
    pub reply: Reply,
    pub take: Option<Take>,
}

// One command of a session whose desk this is, on a target that only takes play.
fn served_step(
    alloc: Global,
    target: &mut Target,
    session: u32,
    desk: &Desk,
    command: &Command,
) -> Result<Stepped, AllocError>
    requires within { session < length target.old.desks }
    requires proper { is_proper desk.now ≡ true }
    ensures served { (tape : List Snapshot) (pace sessions : ℕ) → IsServed tape pace sessions target.old
        → IsServed tape pace sessions target.new }
    ensures answered { IfOk result (λ r. (tape : List Snapshot) (pace sessions : ℕ)
        → IsServed tape pace sessions target.old
        → IsAnswered tape pace session (judged desk.now command.now) r.reply r.take) }
    ensures takes { IfOk result (λ r. target.new.takes ≡ target.old.takes ++ option_to_list r.take) }
    ensures err { OnErr result (target.new.takes ≡ target.old.takes) }
{
    let earlier = target.takes().len();
    target.resume(session, desk);
    let reply = target.step(alloc, session, command)?;
    let take = take_at(target.takes(), earlier);
    Ok(Stepped { reply, take })
}

fn take_at(takes: &[Take], place: usize) -> Option<Take>
    ensures { result ≡ slice_get takes.now place }
{
    takes.get(place).copied()
}

// A session leaves a target that only takes play.
fn served_leave(target: &mut Target, session: u32)
    requires within { session < length target.old.desks }
    ensures served { (tape : List Snapshot) (pace sessions : ℕ) → IsServed tape pace sessions target.old
        → IsServed tape pace sessions target.new }
    ensures takes { target.new.takes ≡ target.old.takes }
{
    target.leave(session);
}

impl<N: Show, A: Ledger, B: Ledger, C: Ledger> Seat<N, A, B, C> {
    pub(crate) fn new(
        session: u32,
        takes: Share<A>,
        frames: Share<B>,
        starts: Share<C>,
    ) -> Seat<N, A, B, C>
        requires within { session < N.sessions }
        requires parts { (takes.parts ≡ 1) × (frames.parts ≡ 1) × (starts.parts ≡ 1) }
        ensures session { result.session ≡ session }
        ensures takes { result.takes ≡ takes.amount }
        ensures frames { result.frames ≡ frames.amount }
        ensures starts { result.starts ≡ starts.amount }
    {
        Seat {
            session,
            takes,
            frames,
            starts,
            of: PhantomData,
        }
    }

    pub(crate) fn into_shares(self) -> (Share<A>, Share<B>, Share<C>)
        ensures takes { (result.0.parts ≡ 1) × (result.0.amount ≡ self.takes) }
        ensures frames { (result.1.parts ≡ 1) × (result.1.amount ≡ self.frames) }
        ensures starts { (result.2.parts ≡ 1) × (result.2.amount ≡ self.starts) }
    {
        let Seat {
            session: _,
            takes,
            frames,
            starts,
            of: _,
        } = self;
        (takes, frames, starts)
    }
}

impl<N: Show, A: Ledger, B: Ledger, C: Ledger> Locked<N, A, B, C> {
    // Over a target that has played nothing.
    pub(crate) fn new(
        target: Target,
        takes: Book<A>,
        frames: Book<B>,
        starts: Book<C>,
    ) -> Locked<N, A, B, C>
        requires named { (target.tape ≡ N.tape) × (target.pace ≡ N.pace) × (length target.desks ≡ N.sessions) }
        requires fresh { (target.played ≡ 0) × (target.takes ≡ []) }
        requires books { (takes.total ≡ 0) × (frames.total ≡ 0) × (starts.total ≡ 0) }
    {
        let _ = target.takes();
        Locked {
            target,
            takes,
            frames,
            starts,
            of: PhantomData,
        }
    }

    // The target, where these are the whole shares.
    pub(crate) fn close(self, takes: Share<A>, frames: Share<B>, starts: Share<C>) -> Target
        requires all { (takes.parts ≡ A.parts) × (frames.parts ≡ B.parts) × (starts.parts ≡ C.parts) }
        ensures served { IsServed N.tape N.pace N.sessions result }
        ensures takes { length result.takes ≡ takes.amount }
        ensures frames { replied result.takes ≡ frames.amount }
        ensures starts { starts_of result.takes ≡ starts.amount }
    {
        let Locked {
            target,
            takes: mut takes_book,
            frames: mut frames_book,
            starts: mut starts_book,
            of: _,
        } = self;
        let mut takes = takes;
        let mut frames = frames;
        let mut starts = starts;
        takes_book.audit(&mut takes);
        frames_book.audit(&mut frames);
        starts_book.audit(&mut starts);
        target
    }

    // The seat's session leaves.
    pub(crate) fn leave(&mut self, seat: &Seat<N, A, B, C>) {
        served_leave(&mut self.target, seat.session);
    }

    // One command of the seat's session, whose desk is the one that its earlier commands leave.
    pub(crate) fn step(
        &mut self,
        alloc: Global,
        seat: &mut Seat<N, A, B, C>,
        desk: &Desk,
        command: &Command,
    ) -> Result<Stepped, AllocError>
        requires proper { is_proper desk.now ≡ true }
        ensures answered { IfOk result (λ r. IsAnswered N.tape N.pace seat.old.session
            (judged desk.now command.now) r.reply r.take) }
        ensures gains { IfOk result (λ r. Gains seat.old seat.new (option_to_list r.take)) }
        ensures session { seat.new.session ≡ seat.old.session }
    {
        let Locked {
            target,
            takes: takes_book,
            frames: frames_book,
            starts: starts_book,
            of: _,
        } = self;
        let Seat {
            session,
            takes,
            frames,
            starts,
            of: _,
        } = seat;
        let stepped = served_step(alloc, target, *session, desk, command)?;
        takes_book.add(takes, taken(stepped.take));
        frames_book.add(frames, frames_in(stepped.take));
        starts_book.add(starts, start_in(stepped.take));
        Ok(stepped)
    }
}

fn taken(take: Option<Take>) -> u64
    ensures { result ≡ length (option_to_list take) }
{
    match take {
        Some(_) => 1,
        None => 0,
    }
}

fn frames_in(take: Option<Take>) -> u64
    ensures { result ≡ replied (option_to_list take) }
{
    match take {
        Some(take) => take.played.saturating_sub(take.since),
        None => 0,
    }
}

fn start_in(take: Option<Take>) -> u64
    ensures { result ≡ starts_of (option_to_list take) }
{
    match take {
        Some(take) if take.since < take.played => take.since,
        Some(_) | None => 0,
    }
}

/// The desk that a command of a session leaves.
pub fn next_desk(desk: &Desk, command: &Command) -> Desk
    ensures after { result ≡ desk_after desk.now command.now }
    ensures proper { is_proper desk.now ≡ true → is_proper result ≡ true }
{
    match command {
        Command::Enable => Desk {
            enabled: true,
            started: desk.started,
        },
        Command::Start(flags) if desk.enabled => Desk {
            enabled: true,
            started: Some(*flags),
        },
        Command::Stop if desk.enabled => Desk {
            enabled: true,
            started: None,
        },
        Command::Start(_) | Command::Take | Command::Stop => *desk,
        Command::Disable => Desk {
            enabled: false,
            started: None,
        },
    }
}
