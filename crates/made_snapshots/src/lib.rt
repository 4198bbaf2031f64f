//! Snapshots that are made of a seed, for whoever wants to see the tool under load.
#![tactic(auto)]

mod draws;
mod making;

pub use draws::Draws;
pub use making::made_scripts;
