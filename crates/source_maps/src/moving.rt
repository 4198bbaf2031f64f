//! The segments of a section, moved behind the sections ahead.
ghost use Rattle.std.specs.Prelude.{◌≡◌, ◌+◌, None, Some, map, nat_lt, if◌then◌else◌};
ghost use Rattle.vlq_mappings.specs.Kept.{most};
ghost use Rattle.source_maps.specs.Maps as maps;
ghost use Rattle.source_maps.specs.Gives.{Gives};

use crate::start::Start;
use crate::{MapFault, MapSegment};
use cov_text::Items;
use std::alloc::Global;
use vlq_mappings::{MOST, Origin};

/// The segments moved by a section's start and as many sources and names, unless a number of one passes the greatest.
pub fn all_near(
    alloc: Global,
    k: u64,
    start: Start,
    sources: usize,
    names: usize,
    segments: &[MapSegment],
) -> Result<Items<MapSegment>, MapFault>
    ensures { Gives result (maps.all_near k (map (maps.moved start sources names) segments.now)) }
{
    let mut all = Items::new(alloc);
    for segment in segments {
        let Some(next) = moved(start, sources, names, *segment) else {
            return Err(MapFault::Far { k });
        };
        if all.push(next).is_err() {
            return Err(MapFault::NoMemory);
        }
    }
    Ok(all)
}

// A segment moved, unless a number of it passes the greatest.
fn moved(start: Start, sources: usize, names: usize, segment: MapSegment) -> Option<MapSegment>
    ensures { result ≡ (if maps.stays_near (maps.moved start sources names segment) then Some (maps.moved start sources names segment) else None) }
{
    let line = near_sum(start.line as usize, segment.line)?;
    let first = if segment.line == 0 { start.column } else { 0 };
    let column = near_sum(first as usize, segment.column)?;
    let origin = match segment.origin {
        Some(origin) => Some(moved_origin(sources, names, origin)?),
        None => None,
    };
    Some(MapSegment {
        line,
        column,
        origin,
    })
}

// An origin moved behind as many sources and names, unless a number of it passes the greatest.
fn moved_origin(sources: usize, names: usize, origin: Origin) -> Option<Origin>
    ensures { result ≡ (if maps.indexes_stay_near (Some (maps.moved_origin sources names origin)) then Some (maps.moved_origin sources names origin) else None) }
{
    let source = near_sum(sources, origin.source)?;
    let name = match origin.name {
        Some(name) => Some(near_sum(names, name)?),
        None => None,
    };
    Some(Origin {
        source,
        name,
        ..origin
    })
}

// A sum, unless it passes the greatest.
fn near_sum(base: usize, number: u32) -> Option<u32>
    ensures { result ≡ (if nat_lt most (base + number) then None else Some (base + number)) }
{
    match base.checked_add(number as usize) {
        Some(sum) if sum <= MOST as usize => Some(sum as u32),
        _ => None,
    }
}
