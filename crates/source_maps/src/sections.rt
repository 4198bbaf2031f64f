//! Index maps: a list of sections, each a map that begins at a spot of the generated text.
ghost use Rattle.std.specs.Prelude.{◌≡◌, ◌++◌, None, Some, codes, option_and_then, if◌then◌else◌, IfOk};
ghost use Rattle.serde_json.specs.View.{view, items_view};
ghost use Rattle.serde_json.specs.Find.{get};
ghost use Rattle.source_maps.specs.Kept.{AreParts};
ghost use Rattle.source_maps.specs.Maps as maps;
ghost use Rattle.source_maps.specs.Answers.{seen};
ghost use Rattle.source_maps.specs.Gives.{Gives};
ghost use Rattle.source_maps.specs.Sections.{IsSection};

use crate::moving::all_near;
use crate::plain::plain_map;
use crate::start::Start;
use crate::version::has_version_3;
use crate::{MapFault, MapField, MapParts};
use cov_text::Items;
use serde_json::Value;
use std::alloc::{AllocError, Global};
use vlq_mappings::MOST;

/// The map of an index map's sections, one behind the other: their lists joined, their segments moved.
pub fn index_map(alloc: Global, sections: &Value) -> Result<MapParts, MapFault>
    ensures map { Gives result (maps.index_map (view sections.now)) }
    ensures parts { IfOk result AreParts }
{
    match sections.as_array() {
        Some(sections) => all_sections(alloc, sections.as_slice()),
        None => Err(MapFault::Shape(MapField::Sections)),
    }
}

// The map of the sections, one behind the other.
fn all_sections(alloc: Global, values: &[Value]) -> Result<MapParts, MapFault>
    ensures map { Gives result (maps.sections_from 0 None 0 0 (items_view values.now)) }
    ensures parts { IfOk result AreParts }
{
    let mut ahead = None;
    let mut map = no_map(alloc);
    for (k, value) in values.iter().enumerate() {
        let sources = map.sources.len();
        let names = map.names.len();
        let (start, next) = section_of(alloc, k as u64, ahead, sources, names, value)?;
        let Ok(both) = joined(map, next) else {
            return Err(MapFault::NoMemory);
        };
        map = both;
        ahead = Some(start);
    }
    Ok(map)
}

// A map of nothing.
fn no_map(alloc: Global) -> MapParts
    ensures { result ≡ maps.no_map }
{
    MapParts {
        sources: Items::new(alloc),
        contents: Items::new(alloc),
        names: Items::new(alloc),
        segments: Items::new(alloc),
    }
}

// A map, and the next behind it. No list ahead is copied.
fn joined(map: MapParts, next: MapParts) -> Result<MapParts, AllocError>
    ensures { IfOk result (λ both. both ≡ maps.joined map next) }
{
    Ok(MapParts {
        sources: chained(map.sources, next.sources)?,
        contents: chained(map.contents, next.contents)?,
        names: chained(map.names, next.names)?,
        segments: chained(map.segments, next.segments)?,
    })
}

// A list, and the next behind it.
fn chained<T: Drop>(front: Items<T>, back: Items<T>) -> Result<Items<T>, AllocError>
    ensures { IfOk result (λ all. all ≡ front ++ back) }
{
    let mut front = front.into_vec();
    let mut back = back.into_vec();
    front.append(&mut back)?;
    Ok(Items::from_vec(front))
}

// The map of section k and where it begins, its segments moved behind the section ahead and as many sources and names.
fn section_of(
    alloc: Global,
    k: u64,
    ahead: Option<Start>,
    sources: usize,
    names: usize,
    value: &Value,
) -> Result<(Start, MapParts), MapFault>
    ensures section { Gives result (maps.section_of k ahead sources names (view value.now)) }
    ensures parts { IfOk result (λ section. IsSection sources names section.1) }
{
    let (start, inner) = section_head(k, ahead, value)?;
    let map = plain_map(alloc, Some(k), inner)?;
    let segments = all_near(alloc, k, start, sources, names, map.segments.as_slice())?;
    Ok((start, MapParts { segments, ..map }))
}

// Where section k begins, and the value of its map.
fn section_head<'a>(
    k: u64,
    ahead: Option<Start>,
    value: &'a Value,
) -> Result<(Start, &'a Value), MapFault>
    ensures { seen (λ head. (head.0, view head.1.now)) result ≡ maps.section_head k ahead (view value.now) }
{
    if !value.is_object() {
        let field = MapField::Sections;
        return Err(MapFault::Section { k, field });
    }
    let Some(offset) = offset_of(value) else {
        let field = MapField::Offset;
        return Err(MapFault::Section { k, field });
    };
    let start = in_order(k, ahead, offset)?;
    match value.get("map") {
        Some(map) if is_section_map(map) => Ok((start, map)),
        _ => {
            let field = MapField::Map;
            Err(MapFault::Section { k, field })
        }
    }
}

// Whether a value is an object with version 3 and no sections.
fn is_section_map(value: &Value) -> bool
    ensures { maps.section_map (view value.now) ≡ (if result then Some (view value.now) else None) }
{
    has_version_3(value) && value.get("sections").is_none()
}

// A start, unless the section ahead starts later.
fn in_order(k: u64, ahead: Option<Start>, start: Start) -> Result<Start, MapFault>
    ensures { result ≡ maps.in_order k ahead start }
{
    match ahead {
        Some(ahead) if is_before(start, ahead) => Err(MapFault::Order { k }),
        _ => Ok(start),
    }
}

// Whether a spot stands before another.
fn is_before(a: Start, b: Start) -> bool
    ensures { result ≡ maps.is_before a b }
{
    a.line < b.line || a.line == b.line && a.column < b.column
}

// The spot that the member `offset` gives.
fn offset_of(value: &Value) -> Option<Start>
    ensures { result ≡ option_and_then maps.start_of (get (codes "offset") (view value.now)) }
{
    let offset = value.get("offset")?;
    let line = small(offset.get("line")?)?;
    let column = small(offset.get("column")?)?;
    Some(Start { line, column })
}

// A number of at most 2^31 - 1.
fn small(value: &Value) -> Option<u32>
    ensures { result ≡ maps.small (view value.now) }
{
    match value.as_u64() {
        Some(number) if number <= u64::from(MOST) => Some(number as u32),
        _ => None,
    }
}
