//! A map, and what holds of each.
ghost use Rattle.std.specs.Prelude.{◌≡◌};

use cov_text::{Items, Text};
use std::marker::Model;
use vlq_mappings::Origin;

/// A spot of the generated text, its line and its column in UTF-16 code units from 0, and where it comes from, if the
/// map says so. An origin's source and name are places in the map's lists.
#[derive(Clone, Copy, Debug, PartialEq, Eq)]
pub struct MapSegment {
    pub line: u32,
    pub column: u32,
    pub origin: Option<Origin>,
}

/// What a map says. A source that the map doesn't name is `None`, and so is a content that it doesn't give.
#[derive(Debug, Drop)]
pub struct MapParts {
    pub sources: Items<Option<Text>>,
    pub contents: Items<Option<Text>>,
    pub names: Items<Text>,
    pub segments: Items<MapSegment>,
}

/// A map of Source Map revision 3. There are as many contents as sources; the segments stand by line and column, those
/// of one spot in the order of the map; no number of a segment passes 2^31 - 1; each origin's source and name are in the
/// lists. Contracts see the parts.
#[derive(Debug, Drop)]
pub struct SourceMap {
    parts: MapParts,
}

impl Model for SourceMap {
    ghost use Rattle.source_maps.specs.declared.map.MapParts.{MapParts};
    ghost use Rattle.source_maps.specs.Kept.{IsMap};

    ghost Value = { MapParts };

    ghost view = { λ m. m.parts };

    ghost invariant = { λ m. IsMap m.parts };
}

impl SourceMap {
    ghost use Rattle.source_maps.specs.Kept.{IsMap};

    /// The map of these parts.
    pub fn new(parts: MapParts) -> SourceMap
        requires { IsMap parts }
        ensures { result ≡ parts }
    {
        SourceMap { parts }
    }

    /// The name of each source, its root set before it.
    pub fn sources(&self) -> &[Option<Text>]
        ensures value { result.now ≡ self.now.sources }
        ensures kept { IsMap self.now }
    {
        self.parts.sources.as_slice()
    }

    /// The content of each source.
    pub fn contents(&self) -> &[Option<Text>]
        ensures value { result.now ≡ self.now.contents }
        ensures kept { IsMap self.now }
    {
        self.parts.contents.as_slice()
    }

    /// The names.
    pub fn names(&self) -> &[Text]
        ensures value { result.now ≡ self.now.names }
        ensures kept { IsMap self.now }
    {
        self.parts.names.as_slice()
    }

    /// The segments, by line and column.
    pub fn segments(&self) -> &[MapSegment]
        ensures value { result.now ≡ self.now.segments }
        ensures kept { IsMap self.now }
    {
        self.parts.segments.as_slice()
    }
}
