//! What a file's coverage is, by the counts of the scripts that were made from it: how often each line ran, which
//! branches and functions there are, and which lines comments leave out.
#![tactic(auto)]

mod counting;
mod file;
mod ignoring;
mod laws;
mod locating;
mod painting;
mod part;
mod remapped;

pub use file::{file_coverage, file_coverage_by};
pub use ignoring::ignored;
pub use laws::worked_examples;
pub use part::{Part, PartBranch, PartFunction, direct_part, mapped_part};
pub use remapped::{CountedSpan, NamedSpan, Remapped};
