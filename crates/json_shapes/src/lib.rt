//! JSON texts and values as all readers and writers of formats see them: in `specs/` the words that their definitions share.
#![tactic(auto)]

mod numbers;
mod text;

pub use numbers::offset_in;
pub use text::{ParseFault, parse};
