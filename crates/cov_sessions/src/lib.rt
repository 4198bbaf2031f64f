//! Sessions over links that are made by listening: a target is played to all of them at once.
#![tactic(auto)]

mod links;
mod net;
mod seating;

pub use net::replay;
