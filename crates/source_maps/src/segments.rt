//! The segments of one text of mappings.
ghost use Rattle.std.specs.Prelude.{◌≡◌, ◌≤◌, ◌<◌, ◌++◌, ◌^◌, true, map, length, IfOk, OnOk};
ghost use Rattle.std.specs.List.{list_all};
ghost use Rattle.serde_json.specs.View.{view};
ghost use Rattle.cov_text.specs.Listing.{max_text};
ghost use Rattle.vlq_mappings.specs.Mappings.{mappings as lines_of};
ghost use Rattle.vlq_mappings.specs.Kept.{most};
ghost use Rattle.source_maps.specs.Kept.{is_near, is_below as is_below_both, origin_is_below};
ghost use Rattle.source_maps.specs.Maps as maps;
ghost use Rattle.source_maps.specs.Gives.{Gives};

use crate::members::mappings_of;
use crate::{MapFault, MapSegment};
use cov_text::Items;
use serde_json::Value;
use std::alloc::{AllocError, Global};
use vlq_mappings::{Mappings, Origin, Segment, VlqFault, read_mappings};

/// The segments in the order of the text, for as many sources and names.
pub fn segments_of(
    alloc: Global,
    section: Option<u64>,
    sources: usize,
    names: usize,
    value: &Value,
) -> Result<Items<MapSegment>, MapFault>
    ensures segments { Gives result (maps.segments_of section sources names (view value.now)) }
    ensures near { IfOk result (λ segments. list_all is_near segments ≡ true) }
    ensures below { IfOk result (λ segments. list_all (is_below_both sources names) segments ≡ true) }
{
    let text = mappings_of(section, value)?;
    let mappings = spelt(alloc, section, text)?;
    let Ok(segments) = located(alloc, mappings.lines()) else {
        return Err(MapFault::NoMemory);
    };
    all_below(sources, names, segments)
}

// The lines that a text of mappings spells.
fn spelt(alloc: Global, section: Option<u64>, text: &str) -> Result<Mappings, MapFault>
    requires { length text.now ≤ max_text }
    ensures { Gives result (maps.spelt section (lines_of text.now)) }
{
    match read_mappings(alloc, text) {
        Ok(mappings) => Ok(mappings),
        Err(VlqFault::At { place, cause }) => Err(MapFault::Mappings {
            section: section.unwrap_or(0),
            place,
            cause,
        }),
        Err(VlqFault::NoMemory) => Err(MapFault::NoMemory),
    }
}

// The segments of all lines, each with its line.
fn located(alloc: Global, lines: &[Items<Segment>]) -> Result<Items<MapSegment>, AllocError>
    requires { length lines.now ≤ most }
    ensures { IfOk result (λ segments. segments ≡ maps.located 0 lines.now) }
{
    let mut segments = Items::new(alloc);
    for (line, found) in lines.iter().enumerate() {
        push_line(&mut segments, line as u32, found.as_slice())?;
    }
    Ok(segments)
}

// Puts the segments of a line at the end.
fn push_line(
    segments: &mut Items<MapSegment>,
    line: u32,
    found: &[Segment],
) -> Result<(), AllocError>
    ensures { OnOk result (segments.new ≡ segments.old ++ map (maps.on_line line) found.now) }
{
    for segment in found {
        let Segment { column, origin } = *segment;
        segments.push(MapSegment {
            line,
            column,
            origin,
        })?;
    }
    Ok(())
}

// The segments, unless one's source or name is past as many sources and names.
fn all_below(
    sources: usize,
    names: usize,
    segments: Items<MapSegment>,
) -> Result<Items<MapSegment>, MapFault>
    requires { length segments < 2 ^ 32 }
    ensures { result ≡ maps.all_below sources names segments (maps.first_past sources names segments) }
{
    match first_past(sources, names, segments.as_slice()) {
        None => Ok(segments),
        Some(segment) => Err(MapFault::Index { segment }),
    }
}

// The first segment whose source or name is past as many sources and names.
fn first_past(sources: usize, names: usize, segments: &[MapSegment]) -> Option<u32>
    requires { length segments.now < 2 ^ 32 }
    ensures { result ≡ maps.first_past sources names segments.now }
{
    for (k, segment) in segments.iter().enumerate() {
        if !is_below(sources, names, segment.origin) {
            return Some(k as u32);
        }
    }
    None
}

// Whether an origin's source and name are among as many.
fn is_below(sources: usize, names: usize, origin: Option<Origin>) -> bool
    ensures { result ≡ origin_is_below sources names origin }
{
    let Some(origin) = origin else {
        return true;
    };
    let name_is_below = match origin.name {
        Some(name) => (name as usize) < names,
        None => true,
    };
    (origin.source as usize) < sources && name_is_below
}
