//! Source maps of revision 3: which original spot a spot of a generated text comes from.
#![tactic(auto)]

mod entries;
mod fault;
mod lookup;
mod map;
mod members;
mod moving;
mod plain;
mod reader;
mod sections;
mod segments;
mod start;
mod version;

pub use entries::{EntryBody, MapEntry, entries_of, entries_of_member};
pub use fault::{MapFault, MapField};
pub use map::{MapParts, MapSegment, SourceMap};
pub use reader::map_of;
