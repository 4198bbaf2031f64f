//! The plain values of a coverage merge, and in `specs/` what the words of the other crates mean.
#![tactic(auto)]

pub mod laws;
mod report;
mod snapshot;
mod steps;
mod sums;

pub use cov_text::{Items, MAX_TEXT, Text};
pub use report::{FunctionReport, ListForm, Range, RangeFault};
pub use snapshot::{Entry, Field, Place, ShapeFault, Snapshot, TextFault};
pub use steps::Steps;
pub use sums::{Answer, At, Key, SumFault};
