//! JSON values that are read straight from the tokens of a text, with no tree between.
//!
//! What is answered is what `serde_json`'s value of the text gives: lists and objects nested no deeper than 127, numbers
//! judged wherever they stand, members in any order, and of members with one key the last. A text for which that isn't
//! plain is not answered at all; its fault is to be named from its value.
#![tactic(auto)]

mod keyed;
mod leaf;
mod number;
mod passing;
mod shape;
mod tree;
mod whole;

pub use keyed::{Keyed, Member, Object};
pub use leaf::{read_bool, read_offset, read_offset_or_null, read_string, read_whole};
pub use passing::pass;
pub use shape::{Listed, Membered, read_list, read_object};
pub use tree::read_value;
pub use whole::{read_bytes, read_text};
