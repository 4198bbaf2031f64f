//! The commands, from the words of a command line to what stands on the output and the error sink.
#![tactic(auto)]

mod check;
mod child;
mod collect;
mod due;
mod ended;
mod faults;
mod gather;
mod judge;
mod lines;
mod make;
mod merge;
mod normal;
mod put;
mod report;
mod reporting;
mod same;
mod tool;
mod upgrade;
mod workers;

pub use child::run_child;
pub use ended::Ended;
pub use tool::{run_sure, run_tool};
pub use workers::run_collect;

// What the calls of the crates above are made of as well.
pub use due::{Due, Output, file_of};
pub use ended::refused_or_done;
pub use gather::{MOST, add, ended_by, is_json, path_of};
pub use lines::answer_line;
pub use put::{put_bytes, put_due, put_output};
pub use tool::tell_end;
