//! The words of the sessions of a target.
use cov_messages::{Command, Flags};

/// The state of one session. One that is started is enabled.
#[derive(Clone, Copy, Debug, PartialEq, Eq)]
pub struct Desk {
    /// Whether its Profiler domain is enabled.
    pub enabled: bool,
    /// What its last start asked for, where precise coverage is started.
    pub started: Option<Flags>,
}

/// A take: its reply has the frames from `since` up to but without `played`. `number` counts the takes of its session from 0.
#[derive(Clone, Copy, Debug, PartialEq, Eq)]
pub struct Take {
    pub session: u32,
    pub number: u64,
    pub since: u64,
    pub played: u64,
}

/// How many frames were played, and what became of them: `played` is the sum of the four others.
#[derive(Clone, Copy, Debug, PartialEq, Eq)]
pub struct Tally {
    pub played: u64,
    /// In the replies of takes.
    pub replied: u64,
    /// Held once, and in no reply.
    pub discarded: u64,
    /// Played while no session was started.
    pub unwatched: u64,
    /// Still to be taken or discarded.
    pub held: u64,
}

/// What happens to a target.
#[derive(Clone, Copy, Debug, PartialEq, Eq)]
pub enum Event {
    /// The next frame is played.
    Frame,
    /// A command of this session.
    Command { session: u32, command: Command },
    /// This session is gone.
    Leave { session: u32 },
}

/// What became of a frame.
#[derive(Clone, Copy, Debug, PartialEq, Eq)]
pub enum Fate {
    /// It is in the reply of this take: its place among all takes that were answered, from 0.
    InReply(u32),
    /// The event at this place, from 0, discarded it.
    Discarded(u32),
    /// No session was started when it was played.
    Unwatched,
    /// No event took or discarded it.
    Held,
}
