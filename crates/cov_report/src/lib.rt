//! The coverage of the files behind a book of snapshots, and what was left out of it.
#![tactic(auto)]

mod answer;
mod asking;
mod files;
mod first;
mod gathering;
mod kept;
mod laws;
mod lines;
mod making;
mod maps;
mod texts;

pub use answer::{Report, ReportFault, Skip, SkipCause};
pub use kept::FirstEntries;
pub use laws::{firsts_are_enough, worked_examples};
pub use lines::lines_of_skips;
pub use making::report_of;
