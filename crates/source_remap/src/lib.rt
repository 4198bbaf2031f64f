//! From generated code to its sources, by a source map: the files that urls and sources name, the lines that
//! generated places come from, and the original spans of generated ranges.
#![tactic(auto)]

mod groups;
mod lines;
mod paths;
mod spans;
mod walk;

pub use groups::BySource;
pub use lines::{Landing, anchors_of, landings_by_source, original_lines};
pub use paths::{path_of, source_path};
pub use spans::original_span;
use utf16_lines::Spot;

/// The part of a source that a range of generated code comes from.
#[derive(Clone, Copy, Debug, PartialEq, Eq)]
pub struct OriginalSpan {
    /// The source, by its place in the map's list.
    pub source: u32,
    /// Where the first unit of the range comes from.
    pub first: Spot,
    /// Where the last unit of the range comes from, no earlier than the first.
    pub last: Spot,
}
