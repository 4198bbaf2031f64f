//! The target: a tape that is played frame by frame, and the sessions that take what was played.
ghost use Rattle.std.specs.Prelude.{◌≡◌, ◌<◌, ◌≢◌, ◌+◌, length, min, replicate, None, IfOk, IfErr, OnOk, OnErr, IsOk, true};
ghost use Rattle.cov_session.specs.Machine.{start, runs, desk_at, after_frame, frame_is_left, resumed, stopped_after};
ghost use Rattle.cov_session.specs.Machine.{left_after, step, answer_to, idle_desks, tally_of};
ghost use Rattle.cov_session.specs.View.{reply_of};
ghost use Rattle.cov_session.specs.Merging.{tape_fault, TellsFault};
ghost use Rattle.cov_session.specs.declared.target.TargetFault.TheVariants.{NoMemory};
ghost use Rattle.cov_session.specs.Kept.{IsKept, is_proper};

use crate::merging::{fitting, taken};
use crate::{Command, Desk, ErrorCode, Flags, Reply, Take, Tally};
use cov_book::SumFault;
use cov_model::{Items, Snapshot};
use std::alloc::{AllocError, Global};
use std::marker::Model;

/// Why there is no target of a tape.
#[derive(Debug, Drop)]
pub enum TargetFault {
    /// The tape's snapshots, added in order, come to a sum past 2^64-1: the first such sum.
    Sum(SumFault),
    NoMemory,
}

impl From<AllocError> for TargetFault {
    ghost from_gives = { λ _ fault. fault ≡ NoMemory };

    fn from(_: AllocError) -> TargetFault {
        TargetFault::NoMemory
    }
}

/// A tape of snapshots that is played frame by frame, and its sessions. While a session is started the frames that are played
/// are held, until a take has them in its reply or they are discarded. Contracts see the target as the state of the machine. What
/// holds of each target is `IsKept`: the held frames are those from `since` up to but without `played`; none is held while no
/// session is started; each take is behind the last one and has its number; the tally's sum is `played`.
#[derive(Drop)]
pub struct Target {
    tape: Vec<Snapshot>,
    pace: u32,
    played: u64,
    since: u64,
    discarded: u64,
    unwatched: u64,
    desks: Vec<Desk>,
    takes: Items<Take>,
    // How many takes each session has had.
    counts: Vec<u64>,
}

impl Model for Target {
    ghost use Rattle.cov_session.specs.Machine.{State, state};
    ghost use Rattle.cov_session.specs.Kept.{IsSound};

    ghost Value = { State };

    ghost view = { λ t.
        state t.tape.items t.pace t.played t.since t.discarded t.unwatched t.desks.items t.takes };

    ghost invariant = { λ t. IsSound
        (state t.tape.items t.pace t.played t.since t.discarded t.unwatched t.desks.items t.takes) t.counts.items };
}

fn any_started(desks: &[Desk]) -> bool
    ensures { result ≡ runs desks.now }
{
    desks.iter().any(|desk| desk.started.is_some())
}

fn next_played(left: u64, played: u64, pace: u32) -> u64
    ensures { result ≡ min left (played + pace) }
{
    left.min(played.saturating_add(pace as u64))
}

fn no_desks(alloc: Global, sessions: u32) -> Result<Vec<Desk>, AllocError>
    ensures { IfOk result (λ desks. desks.items ≡ idle_desks sessions) }
{
    let mut desks = Vec::new(alloc);
    for _ in 0..sessions {
        desks.push(Desk {
            enabled: false,
            started: None,
        })?;
    }
    Ok(desks)
}

fn no_counts(alloc: Global, sessions: u32) -> Result<Vec<u64>, AllocError>
    ensures { IfOk result (λ counts. counts.items ≡ replicate sessions 0) }
{
    let mut counts = Vec::new(alloc);
    for _ in 0..sessions {
        counts.push(0)?;
    }
    Ok(counts)
}

impl Target {
    /// The target at its start: nothing is played, no session is enabled, no take is listed. Each take plays up to `pace` frames
    /// first. `TargetFault::Sum` comes exactly where the tape's snapshots, added in order, come to a sum past 2^64-1, and
    /// `TargetFault::NoMemory` only for want of memory.
    pub fn new(
        alloc: Global,
        tape: Vec<Snapshot>,
        pace: u32,
        sessions: u32,
    ) -> Result<Target, TargetFault>
        ensures state { IfOk result (λ t. t ≡ start tape.items pace sessions) }
        ensures fits { OnOk result (tape_fault tape.items ≡ None) }
        ensures sum { IfErr result (λ fault. TellsFault (tape_fault tape.items) fault) }
    {
        fitting(alloc, &tape)?;
        let desks = no_desks(alloc, sessions)?;
        let counts = no_counts(alloc, sessions)?;
        Ok(Target {
            tape,
            pace,
            played: 0,
            since: 0,
            discarded: 0,
            unwatched: 0,
            desks,
            takes: Items::new(alloc),
            counts,
        })
    }

    /// Plays the next frame. It is false at the end of the tape, with nothing changed.
    pub fn play(&mut self) -> bool
        ensures state { self.new ≡ after_frame self.old }
        ensures played { result ≡ frame_is_left self.old }
    {
        if self.played >= self.tape.len() as u64 {
            return false;
        }
        if any_started(&self.desks) {
            self.played += 1;
            return true;
        }
        self.unwatched += 1;
        self.played += 1;
        self.since = self.played;
        true
    }

    /// What a command of a session changes, and its reply. A command that is refused changes nothing. A take's snapshot is what a
    /// book of exactly its frames comes to, as the session's flags let see it. An `AllocError` comes only for want of memory and
    /// only of a take, and changes nothing.
    pub fn step(
        &mut self,
        alloc: Global,
        session: u32,
        command: &Command,
    ) -> Result<Reply, AllocError>
        requires { session < length self.old.desks }
        ensures state { OnOk result (self.new ≡ step self.old session command.now) }
        ensures reply { IfOk result (λ r. r ≡ reply_of self.old.tape (answer_to self.old session command.now)) }
        ensures err { OnErr result (self.new ≡ self.old) }
        ensures take { command.now ≢ Command.Take → IsOk result }
    {
        match command {
            Command::Enable => {
                self.enable(session);
                Ok(Reply::Done)
            }
            Command::Start(flags) => Ok(self.start(session, flags)),
            Command::Take => self.take(alloc, session),
            Command::Stop => Ok(self.stop(session)),
            Command::Disable => {
                self.end(session, false);
                Ok(Reply::Done)
            }
        }
    }

    /// The session is gone: as its disable.
    pub fn leave(&mut self, session: u32)
        requires { session < length self.old.desks }
        ensures { self.new ≡ left_after self.old session }
    {
        self.end(session, false);
    }

    /// The session gets this desk, and where no session is started then, all held frames are discarded. With the desk that it has
    /// nothing changes.
    pub fn resume(&mut self, session: u32, desk: &Desk)
        requires within { session < length self.old.desks }
        requires proper { is_proper desk.now ≡ true }
        ensures state { self.new ≡ resumed self.old session desk.now }
        ensures same { desk_at self.old.desks session ≡ desk.now → self.new ≡ self.old }
    {
        self.desks[session as usize] = *desk;
        if any_started(&self.desks) {
            return;
        }
        self.discarded += self.played - self.since;
        self.since = self.played;
    }

    /// All takes that were answered, in order.
    pub fn takes(&self) -> &[Take]
        ensures value { result.now ≡ self.now.takes }
        ensures kept { IsKept self.now }
    {
        self.takes.as_slice()
    }

    /// How many sessions there are.
    pub fn sessions(&self) -> usize
        ensures { result ≡ length self.now.desks }
    {
        self.desks.len()
    }

    /// How many frames were played, and what became of them.
    pub fn tally(&self) -> Tally
        ensures { result ≡ tally_of self.now }
    {
        Tally {
            played: self.played,
            replied: self.since - self.discarded - self.unwatched,
            discarded: self.discarded,
            unwatched: self.unwatched,
            held: self.played - self.since,
        }
    }

    /// The desk of a session.
    pub fn desk(&self, session: u32) -> Desk
        requires { session < length self.now.desks }
        ensures { result ≡ desk_at self.now.desks session }
    {
        self.desks[session as usize]
    }

    fn enable(&mut self, session: u32)
        requires { session < length self.old.desks }
        ensures { self.new ≡ step self.old session Command.Enable }
    {
        let started = self.desks[session as usize].started;
        self.desks[session as usize] = Desk {
            enabled: true,
            started,
        };
    }

    fn start(&mut self, session: u32, flags: &Flags) -> Reply
        requires { session < length self.old.desks }
        ensures state { self.new ≡ step self.old session (Command.Start flags.now) }
        ensures reply { result ≡ reply_of self.old.tape (answer_to self.old session (Command.Start flags.now)) }
    {
        if !self.desks[session as usize].enabled {
            return Reply::Refused(ErrorCode::NotEnabled);
        }
        self.desks[session as usize] = Desk {
            enabled: true,
            started: Some(*flags),
        };
        self.discarded += self.played - self.since;
        self.since = self.played;
        Reply::Started
    }

    fn take(&mut self, alloc: Global, session: u32) -> Result<Reply, AllocError>
        requires { session < length self.old.desks }
        ensures state { OnOk result (self.new ≡ step self.old session Command.Take) }
        ensures reply { IfOk result (λ r. r ≡ reply_of self.old.tape (answer_to self.old session Command.Take)) }
        ensures err { OnErr result (self.new ≡ self.old) }
    {
        let Some(flags) = self.desks[session as usize].started else {
            return Ok(Reply::Refused(ErrorCode::NotStarted));
        };
        let since = self.since;
        let played = next_played(self.tape.len() as u64, self.played, self.pace);
        let snapshot = taken(alloc, &flags, &self.tape, since, played)?;
        let number = self.counts[session as usize];
        self.takes.push(Take {
            session,
            number,
            since,
            played,
        })?;
        prove!(number < self.takes.len() as u64);
        self.counts[session as usize] = number + 1;
        self.played = played;
        self.since = played;
        Ok(Reply::Taken(snapshot))
    }

    fn stop(&mut self, session: u32) -> Reply
        requires { session < length self.old.desks }
        ensures state { self.new ≡ step self.old session Command.Stop }
        ensures reply { result ≡ reply_of self.old.tape (answer_to self.old session Command.Stop) }
    {
        if !self.desks[session as usize].enabled {
            return Reply::Refused(ErrorCode::NotEnabled);
        }
        self.end(session, true);
        Reply::Done
    }

    // No longer started, and enabled or not.
    fn end(&mut self, session: u32, enabled: bool)
        requires { session < length self.old.desks }
        ensures { self.new ≡ stopped_after (desk_at self.old.desks session).started self.old session enabled }
    {
        let _ = &self.tape;
        self.resume(
            session,
            &Desk {
                enabled,
                started: None,
            },
        );
    }
}
