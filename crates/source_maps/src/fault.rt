//! Why a JSON value isn't a map.
use vlq_mappings::VlqCause;

/// A member of a map, or what it is a part of (Source Map revision 3).
#[derive(Clone, Copy, Debug, PartialEq, Eq)]
pub enum MapField {
    /// The whole value.
    Top,
    /// `version`.
    Version,
    /// `sections`, or one of its items.
    Sections,
    /// `offset` of a section, with its `line` and `column`.
    Offset,
    /// `map` of a section, with its `version`.
    Map,
    /// `sources`.
    Sources,
    /// `sourceRoot`.
    SourceRoot,
    /// `sourcesContent`.
    SourcesContent,
    /// `names`.
    Names,
    /// `mappings`, as a text.
    Mappings,
}

/// Why a JSON value isn't a map of Source Map revision 3. Sections and segments are numbered from 0.
#[derive(Clone, Copy, Debug, PartialEq, Eq)]
pub enum MapFault {
    /// The member is missing or of another kind.
    Shape(MapField),
    /// The same in section `k` of an index map.
    Section {
        k: u64,
        field: MapField,
    },
    /// The text of the mappings has a fault at a byte from 0. The section is 0 in a map that has none.
    Mappings {
        section: u64,
        place: u32,
        cause: VlqCause,
    },
    /// The source or the name of a segment is past its map's list. The segment is counted in the text of that map.
    Index {
        segment: u32,
    },
    /// Section `k` starts before the section ahead of it.
    Order {
        k: u64,
    },
    /// A number of a segment of section `k`, moved behind the sections ahead of it, passes 2^31 - 1.
    Far {
        k: u64,
    },
    /// Memory ran out.
    NoMemory,
}
