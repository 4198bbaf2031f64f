//! The normal list of a function, and the flat one of older files.
//!
//! The normal list is nested: it keeps a range whole round what runs inside it. It is the root, then as few ranges as a
//! stack of open ranges needs. The flat list is the root, then the longest runs of counts that differ from the root's.
//!
//! Of a root, its count and the counts at its offsets there is exactly one list of each form, so that equal sums are
//! written equally. Offsets are those of the DevTools protocol's `CoverageRange`: UTF-16 units of the script, ends
//! exclusive.
#![tactic(auto)]

mod flat_list;
pub mod laws;
mod nested_list;
mod nesting;

pub use cov_model::{Items, Range};
pub use cov_steps::Runs;
pub use flat_list::flat;
pub use nested_list::{is_normal, normal, runs_of};
