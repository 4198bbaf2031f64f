//! The command that plays a folder's tape to sessions over links.
#![tactic(auto)]

mod command;
mod tape;

pub use command::serve;
pub use tape::{Tape, tape_of};
