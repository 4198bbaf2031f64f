//! Snapshots as the bytes of files: how a text is read, the one normal file of a book, and the flat files of older ones.
#![tactic(auto)]

mod normal;
mod reading;
mod writing;

pub use cov_model::TextFault;
pub use normal::{NormalFault, read_flat, read_normal};
pub use reading::{maps_of, read_snapshot, read_text};
pub use writing::{normal_text, write_normal};
