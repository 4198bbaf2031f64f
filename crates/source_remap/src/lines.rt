//! The generated places of each original line.
ghost use Rattle.std.specs.Prelude.{◌≡◌, [], map, replicate, length, IfOk};
ghost use Rattle.cov_text.specs.Listing.{counted};
ghost use Rattle.source_remap.specs.Origins as origins;
ghost use Rattle.source_remap.specs.Columns.{least_on, leftmost_on};
ghost use Rattle.source_remap.specs.Groups.{AreBySource};

use crate::groups::BySource;
use cov_text::Items;
use source_maps::{MapSegment, SourceMap};
use std::alloc::{AllocError, Global};
use utf16_lines::{LineTable, Spot};

/// Where a segment of the map lands in a source, and its place in the generated code.
#[derive(Clone, Copy, Debug, PartialEq, Eq)]
pub struct Landing {
    /// The original line, from 0.
    pub line: u32,
    /// The original column, in UTF-16 code units from 0.
    pub column: u32,
    /// The generated offset, in UTF-16 code units.
    pub offset: u32,
}

/// For each original line below `lines` of a source, the generated offsets of its anchors, one per anchor, in the order
/// of the map's segments.
///
/// The segments of an original line are those with this source and line whose generated spot has an offset in the
/// generated table; its anchors are those of them with the least original column. A line without segments has none.
///
/// Takes time by the number of segments and of lines. The only error is want of memory.
#[tactic(auto, unfolding(crate::specs::Origins::anchors))]
pub fn original_lines(
    alloc: Global,
    map: &SourceMap,
    source: u32,
    generated: &LineTable,
    lines: u32,
) -> Result<Items<Items<u32>>, AllocError>
    ensures { IfOk result (λ offsets. offsets ≡ origins.original_lines map.now.segments source generated.now lines) }
{
    let landings = landings(alloc, map.segments(), source, generated)?;
    anchors_of(alloc, landings.as_slice(), lines)
}

/// For each original line below `lines`, the generated offsets of the leftmost of the landings on it, in their order.
///
/// Takes time by the number of landings and of lines. The only error is want of memory.
pub fn anchors_of(
    alloc: Global,
    landings: &[Landing],
    lines: u32,
) -> Result<Items<Items<u32>>, AllocError>
    ensures { IfOk result (λ offsets. offsets ≡ map (leftmost_on landings.now) (counted 0 lines)) }
{
    let least = least_columns(alloc, landings, lines)?;
    let offsets = leftmost_offsets(alloc, landings, least.as_slice())?;
    Ok(Items::from_vec(offsets))
}

/// Where the segments of each source of a map land in it, in their order.
///
/// Takes time by the number of segments. The only error is want of memory.
pub fn landings_by_source(
    alloc: Global,
    map: &SourceMap,
    generated: &LineTable,
) -> Result<BySource<Landing>, AllocError>
    ensures { IfOk result (AreBySource (origins.landing_of generated.now) map.now.segments) }
{
    let mut found = BySource::new(alloc);
    let segments = map.segments();
    for segment in segments {
        let Some(origin) = segment.origin else {
            continue;
        };
        if let Some(landing) = landing_of(generated, origin.source, *segment) {
            found.put(alloc, origin.source, landing)?;
        }
    }
    Ok(found)
}

// Where the segments of a source land, in their order.
fn landings(
    alloc: Global,
    segments: &[MapSegment],
    source: u32,
    generated: &LineTable,
) -> Result<Vec<Landing>, AllocError>
    ensures { IfOk result (λ landings. landings.items ≡ origins.landings segments.now source generated.now) }
{
    let mut landings = Vec::new(alloc);
    for segment in segments {
        if let Some(landing) = landing_of(generated, source, *segment) {
            landings.push(landing)?;
        }
    }
    Ok(landings)
}

// Where a segment lands in a source.
fn landing_of(generated: &LineTable, source: u32, segment: MapSegment) -> Option<Landing>
    ensures { result ≡ origins.landing_of generated.now source segment }
{
    let origin = segment.origin?;
    if origin.source != source {
        return None;
    }
    let spot = Spot {
        line: segment.line,
        column: segment.column,
    };
    let offset = generated.offset(spot)?;
    Some(Landing {
        line: origin.line,
        column: origin.column,
        offset,
    })
}

// The least column at which a segment lands on each line, and the greatest number where none does.
fn least_columns(alloc: Global, landings: &[Landing], lines: u32) -> Result<Vec<u32>, AllocError>
    ensures { IfOk result (λ least. least.items ≡ map (least_on landings.now) (counted 0 lines)) }
{
    let mut least = Vec::from_elem(alloc, u32::MAX, lines as usize)?;
    for landing in landings {
        let line = landing.line as usize;
        if line < least.len() {
            least[line] = least[line].min(landing.column);
        }
    }
    Ok(least)
}

// For each line the offsets of those that land on it at its least column.
fn leftmost_offsets(
    alloc: Global,
    landings: &[Landing],
    least: &[u32],
) -> Result<Vec<Items<u32>>, AllocError>
    requires { least.now ≡ map (least_on landings.now) (counted 0 (length least.now)) }
    ensures { IfOk result (λ found. found.items ≡ map (leftmost_on landings.now) (counted 0 (length least.now))) }
{
    let mut found = no_offsets(alloc, least.len())?;
    for landing in landings {
        let line = landing.line as usize;
        if line < least.len() && landing.column <= least[line] {
            found[line].push(landing.offset)?;
        }
    }
    Ok(found)
}

// As many lists as lines, each without an offset.
fn no_offsets(alloc: Global, lines: usize) -> Result<Vec<Items<u32>>, AllocError>
    ensures { IfOk result (λ found. found.items ≡ replicate lines []) }
{
    let mut found = Vec::with_capacity(alloc, lines)?;
    for _line in 0..lines {
        found.push(Items::new(alloc))?;
    }
    Ok(found)
}
