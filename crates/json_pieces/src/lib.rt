//! JSON text that goes to a sink in pieces of a bounded length, with no tree and no second text.
#![tactic(auto)]

mod lists;
mod parts;
mod pieces;

pub use lists::{Part, write_list};
pub use parts::{put, put_number, put_quoted, put_string};
pub use pieces::{PIECE, finish, hand_over};
