//! Reading a JSON value as a map.
ghost use Rattle.std.specs.Prelude.{◌≡◌, IfOk, codes};
ghost use Rattle.serde_json.specs.View.{view};
ghost use Rattle.serde_json.specs.Find.{get};
ghost use Rattle.source_maps.specs.At.{by_spot};
ghost use Rattle.source_maps.specs.Kept.{AreParts};
ghost use Rattle.source_maps.specs.Maps as maps;
ghost use Rattle.source_maps.specs.Gives.{Gives, GivesMap};

use crate::plain::plain_map;
use crate::sections::index_map;
use crate::version::has_version_3;
use crate::{MapFault, MapField, MapParts, SourceMap};
use cov_text::Items;
use serde_json::Value;
use std::alloc::{AllocError, Global};

/// The map that a JSON value is, by Source Map revision 3: an object whose `version` is 3, with the members of a plain
/// map or, where it has `sections`, an index map.
///
/// # Errors
///
/// The first fault, in this order: the value, its version, then its members in the order of [`MapField`], the text of
/// the mappings, and the segments' sources and names. An index map is judged section by section, each whole before the
/// next. [`MapFault::NoMemory`] comes where memory runs out.
#[tactic(auto, unfolding(crate::specs::Maps::map_of))]
pub fn map_of(alloc: Global, value: &Value) -> Result<SourceMap, MapFault>
    ensures { GivesMap result (maps.map_of (view value.now)) }
{
    if !value.is_object() {
        return Err(MapFault::Shape(MapField::Top));
    }
    if !has_version_3(value) {
        return Err(MapFault::Shape(MapField::Version));
    }
    let parts = parts_of(alloc, value)?;
    match in_order(parts) {
        Ok(map) => Ok(map),
        Err(_) => Err(MapFault::NoMemory),
    }
}

// The parts of a map with sections or without, the segments as they are read.
fn parts_of(alloc: Global, value: &Value) -> Result<MapParts, MapFault>
    ensures map { Gives result (maps.by_sections (view value.now) (get (codes "sections") (view value.now))) }
    ensures parts { IfOk result AreParts }
{
    match value.get("sections") {
        Some(sections) => index_map(alloc, sections),
        None => plain_map(alloc, None, value),
    }
}

// The map of parts, its segments by line and column. Segments that stand so take one pass.
fn in_order(parts: MapParts) -> Result<SourceMap, AllocError>
    requires { AreParts parts }
    ensures { IfOk result (λ map. map ≡ record parts { segments = by_spot parts.segments }) }
{
    let MapParts {
        sources,
        contents,
        names,
        segments,
    } = parts;
    let mut segments = segments.into_vec();
    segments.sort_by_key(|segment| (segment.line, segment.column))?;
    let segments = Items::from_vec(segments);
    Ok(SourceMap::new(MapParts {
        sources,
        contents,
        names,
        segments,
    }))
}
