//! The JSON text of scripts, with their functions and ranges, written straight from them to a sink.
#![tactic(auto)]

mod parts;
mod writing;

pub use writing::write_scripts;
