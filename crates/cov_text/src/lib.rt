//! Texts and lists as contracts see them: a text is the list of its bytes, and items are the list of their elements.
#![tactic(auto)]

mod items;
mod text;

pub use items::Items;
pub use text::Text;

/// The greatest size of a text that is read, in bytes: 128 MiB.
pub const MAX_TEXT: usize = 134217728;
