//! The `mappings` text of Source Map revision 3: each place of the generated text with the place, and
//! maybe the name, that it comes from.
//!
//! [`read_mappings`] takes exactly the texts of the grammar and names the first fault of any other text with its
//! place. [`write_mappings`] writes the shortest spelling, which reads as the same mappings.
#![tactic(auto)]

mod digits;
mod examples;
mod kept;
mod last;
mod reader;
mod segments;
mod values;
mod writer;

pub use examples::worked_examples;
pub use kept::Mappings;
pub use reader::read_mappings;
pub use writer::write_mappings;

/// The greatest number of a mapping: 2^31 - 1.
pub const MOST: u32 = 2147483647;

/// Where a segment comes from. Source and name are places in the map's lists of sources and names, line and column
/// are those of the original text; all count from 0.
#[derive(Clone, Copy, Debug, PartialEq, Eq)]
pub struct Origin {
    pub source: u32,
    pub line: u32,
    pub column: u32,
    pub name: Option<u32>,
}

/// A place of a generated line, by its column from 0, and where it comes from, if the map says so.
#[derive(Clone, Copy, Debug, PartialEq, Eq)]
pub struct Segment {
    pub column: u32,
    pub origin: Option<Origin>,
}

/// What is wrong with a text of mappings (Source Map revision 3, `mappings`).
#[derive(Clone, Copy, Debug, PartialEq, Eq)]
pub enum VlqCause {
    /// A byte of a segment is no base64 digit. The place is that of the byte.
    Digit,
    /// A segment ends behind a digit that says that another follows. The place is that of the byte behind it.
    Cut,
    /// A segment has neither 1, 4 nor 5 values. The place is that of the segment's first byte.
    Fields,
    /// A value's size, or the number that it leads to, passes 2^31 - 1, or that number is negative. The place is that
    /// of the value's first byte.
    Range,
}

/// Why a text gives no mappings.
#[derive(Clone, Copy, Debug, PartialEq, Eq)]
pub enum VlqFault {
    /// The first fault of the text, at a byte from 0.
    At { place: u32, cause: VlqCause },
    /// Memory ran out.
    NoMemory,
}
