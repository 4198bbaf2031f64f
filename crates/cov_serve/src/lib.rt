//! The target of a replay server, which several sessions share under one lock.
#![tactic(auto)]

mod locked;
mod many;
mod session;
mod shared;

pub use locked::{Seat, Show, Stepped, next_desk};
pub use many::{Session, serve_sessions};
pub use session::serve_session;
pub use shared::{SharedTarget, close};
