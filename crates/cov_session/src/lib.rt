//! The session machine of a replay server: what each command of a session is answered, which frames a take has, and what
//! becomes of each frame over a whole list of events.
//!
//! A take is replied to with what exactly its frames come to, merged into one snapshot and seen by the session's flags. The
//! other side of a link is the `Client`: its script of requests, and what it hears.
#![tactic(auto)]

mod client;
mod events;
pub mod laws;
mod merging;
mod seeing;
mod session;
mod target;

pub use client::{Client, HearFault, Heard, PeerWhy};
pub use cov_book::SumFault;
pub use cov_messages::{Command, ErrorCode, Flags, Reply};
pub use events::{EventRun, run_events};
pub use seeing::viewed;
pub use session::{Desk, Event, Fate, Take, Tally};
pub use target::{Target, TargetFault};
