//! The JSON text of coverage files, written straight from them to a sink.
#![tactic(auto)]

mod files;
mod listed;
mod order;
mod parts;
mod writing;

pub use files::CoverageFiles;
pub use writing::write_files;
