//! Texts that grow part by part, and names as a line shows them.
#![tactic(auto)]

mod parts;
mod shown;

pub use parts::{put, put_number};
pub use shown::{cleaned, put_cleaned};
