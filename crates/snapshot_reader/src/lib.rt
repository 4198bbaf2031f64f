//! A snapshot that is read straight from the tokens of a text, with no JSON tree between but that of its maps, where
//! these are wanted.
//!
//! What is answered is what `serde_json`'s value of the text gives: lists and objects nested no deeper than 127, numbers
//! judged wherever they stand, members in any order, and of members with one key the last. A text for which that isn't
//! plain is not answered at all; `cov_messages::snapshot_of` names its fault from its value.
#![tactic(auto)]

mod bytes;
mod function;
mod range;
mod script;
mod text;

pub use bytes::{fast_reading, fast_text};
pub use text::ReadText;
