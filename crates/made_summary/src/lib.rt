//! What snapshots made of a seed come to, each taken as a text is taken.
#![tactic(auto)]

mod making;

pub use making::made_line;
