//! The original spans of generated ranges.
ghost use Rattle.std.specs.Prelude.{◌≡◌};
ghost use Rattle.source_remap.specs.Origins as origins;

use crate::OriginalSpan;
use source_maps::SourceMap;
use utf16_lines::{LineTable, Spot};
use vlq_mappings::Origin;

/// The original span of the generated range from `start` up to but without `end`, in UTF-16 code units: from the origin
/// of its first unit to that of its last, an offset past the table's units counting as the units.
///
/// `None` exactly where the range is empty, where no segment with an origin belongs to one of the two, where they come
/// from two sources, or where the first comes from behind the second.
///
/// Takes no memory, and time by the logarithms of the numbers of segments and lines.
#[tactic(auto, unfolding(crate::specs::Origins::original_span))]
pub fn original_span(
    map: &SourceMap,
    generated: &LineTable,
    start: u32,
    end: u32,
) -> Option<OriginalSpan>
    ensures { result ≡ origins.original_span map.now.segments generated.now start end }
{
    if end <= start {
        return None;
    }
    let first = origin_at(map, generated, start)?;
    let last = origin_at(map, generated, end - 1)?;
    span_between(first, last)
}

// Where the code at a generated offset comes from.
fn origin_at(map: &SourceMap, generated: &LineTable, offset: u32) -> Option<Origin>
    ensures { result ≡ origins.origin_at map.now.segments generated.now offset }
{
    let spot = generated.place(offset.min(generated.units()))?;
    let segment = map.at(spot.line, spot.column)?;
    segment.origin
}

// From one origin to another of the same source, unless it stands before.
fn span_between(first: Origin, last: Origin) -> Option<OriginalSpan>
    ensures { result ≡ origins.span_between first last }
{
    if first.source != last.source || !is_not_after(first, last) {
        return None;
    }
    Some(OriginalSpan {
        source: first.source,
        first: spot_of(first),
        last: spot_of(last),
    })
}

// Whether an origin stands before another or at its spot, by line and then by column.
fn is_not_after(first: Origin, last: Origin) -> bool
    ensures { result ≡ origins.is_not_after first last }
{
    first.line < last.line || first.line == last.line && first.column <= last.column
}

// The spot of an origin in its source.
fn spot_of(origin: Origin) -> Spot
    ensures { result ≡ origins.spot_in origin }
{
    Spot {
        line: origin.line,
        column: origin.column,
    }
}
