//! The texts of a folder, read by workers and added to one book under one lock.
#![tactic(auto)]

mod batch;
mod collector;
mod naming;
mod outcome;
mod reading;
mod shelf;

pub use batch::collect_batch;
pub use collector::Collector;
pub use naming::Naming;
pub use outcome::{Batch, Collected};
pub use shelf::Shelf;
