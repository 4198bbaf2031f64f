//! The counts of a function as runs: longest stretches of one count, end to end over its root.
//!
//! Offsets are those of the DevTools protocol's `CoverageRange`: UTF-16 units of the script, ends exclusive.
#![tactic(auto)]

mod counted;
mod fault;
pub mod laws;
mod pushing;
mod runs;
mod sum;

pub use cov_model::Steps;
pub use fault::StepFault;
pub use runs::{Run, Runs};
