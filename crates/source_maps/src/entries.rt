//! What a coverage text says of the maps of its scripts.
ghost use Rattle.std.specs.Prelude.{◌≡◌, map, option_map, string_bytes, IfOk};
ghost use Rattle.serde_json.specs.Find.{get, as_object};
ghost use Rattle.serde_json.specs.View.{view, items_view, members_view};
ghost use Rattle.json_shapes.specs.Shapes.{offset_of};
ghost use Rattle.json_shapes.specs.Members.{each_of, listed};
ghost use Rattle.source_maps.specs.Entries as spec;

use cov_text::{Items, Text};
use json_shapes::offset_in;
use serde_json::{Map, Value};
use std::alloc::{AllocError, Global};

/// What a text says of the map of a script.
#[derive(Drop)]
pub enum EntryBody {
    /// The map, not yet judged, and the lengths of the generated lines in UTF-16 code units.
    Given { map: Value, lengths: Items<u32> },
    /// Something else than an object with a list of lengths.
    Bad,
}

/// An entry of the cache of maps in a coverage text, by the url of the script.
#[derive(Drop)]
pub struct MapEntry {
    pub url: Text,
    pub body: EntryBody,
}

/// The entries of the member `source-map-cache` of a coverage text's value, in byte order of their urls, and none where
/// the value isn't an object with such a member that is an object.
///
/// An entry is left out where it is an object whose `data` or `lineLengths` is absent or null. It is `Bad` where it is no
/// object, or where `lineLengths` isn't a list of numbers from 0 to 4,294,967,295. The maps are moved out of the value. The
/// only error is want of memory.
pub fn entries_of(alloc: Global, value: Value) -> Result<Items<MapEntry>, AllocError>
    ensures { IfOk result (λ entries. map spec.said entries ≡ spec.entries_of (view value)) }
{
    entries_of_member(alloc, take_member(value, "source-map-cache"))
}

/// The same, of the member alone, where there is one.
pub fn entries_of_member(
    alloc: Global,
    member: Option<Value>,
) -> Result<Items<MapEntry>, AllocError>
    ensures { IfOk result (λ entries. map spec.said entries ≡ spec.entries_said (option_map view member)) }
{
    let Some(member) = member else {
        return Ok(Items::new(alloc));
    };
    match members_of(member) {
        Some(members) => entries_in(alloc, members),
        None => Ok(Items::new(alloc)),
    }
}

// The members of an object.
fn members_of(value: Value) -> Option<Map<String, Value>>
    ensures { option_map (λ m. members_view m.entries) result ≡ as_object (view value) }
{
    match value {
        Value::Object(members) => Some(members),
        _ => None,
    }
}

// The member of this name, out of a value.
fn take_member(value: Value, key: &str) -> Option<Value>
    ensures { option_map view result ≡ get key.now (view value) }
{
    match value {
        Value::Object(mut members) => members.remove(key),
        _ => None,
    }
}

// The entries that members say.
fn entries_in(alloc: Global, members: Map<String, Value>) -> Result<Items<MapEntry>, AllocError>
    ensures { IfOk result (λ entries. map spec.said entries ≡ spec.entries_in (members_view members.entries)) }
{
    let mut entries = Items::new(alloc);
    for (url, value) in members {
        if let Some(entry) = entry_of(alloc, url, value)? {
            entries.push(entry)?;
        }
    }
    Ok(entries)
}

// What a value says of its url.
fn entry_of(alloc: Global, url: String, value: Value) -> Result<Option<MapEntry>, AllocError>
    ensures { IfOk result (λ entry. option_map spec.said entry ≡ spec.entry_of (string_bytes url) (view value)) }
{
    if !value.is_object() {
        let url = Text::from_string(url);
        let body = EntryBody::Bad;
        return Ok(Some(MapEntry { url, body }));
    }
    let Some(lengths) = given_member(&value, "lineLengths") else {
        return Ok(None);
    };
    let lengths = lengths_of(alloc, lengths)?;
    let Some(content) = take_given_member(value, "data") else {
        return Ok(None);
    };
    let url = Text::from_string(url);
    let body = body_of(content, lengths);
    Ok(Some(MapEntry { url, body }))
}

// The member of this name, unless it is absent or null.
fn given_member<'a>(value: &'a Value, key: &str) -> Option<&'a Value>
    ensures { option_map (λ v. view v.now) result ≡ spec.given_member key.now (view value.now) }
{
    match value.get(key) {
        Some(found) if !found.is_null() => Some(found),
        _ => None,
    }
}

// The same, out of a value.
fn take_given_member(value: Value, key: &str) -> Option<Value>
    ensures { option_map view result ≡ spec.given_member key.now (view value) }
{
    match take_member(value, key) {
        Some(found) if !found.is_null() => Some(found),
        _ => None,
    }
}

// A map with the lengths of its generated lines.
fn body_of(map: Value, lengths: Option<Items<u32>>) -> EntryBody
    ensures { spec.said_body result ≡ spec.body_with (view map) lengths }
{
    match lengths {
        Some(lengths) => EntryBody::Given { map, lengths },
        None => EntryBody::Bad,
    }
}

// A list of lengths.
fn lengths_of(alloc: Global, value: &Value) -> Result<Option<Items<u32>>, AllocError>
    ensures { IfOk result (λ lengths. lengths ≡ listed offset_of (view value.now)) }
{
    match value.as_array() {
        Some(values) => lengths_in(alloc, values.as_slice()),
        None => Ok(None),
    }
}

// The lengths that items are, where each is one.
fn lengths_in(alloc: Global, values: &[Value]) -> Result<Option<Items<u32>>, AllocError>
    ensures { IfOk result (λ lengths. lengths ≡ each_of offset_of (items_view values.now)) }
{
    let mut lengths = Items::new(alloc);
    for value in values {
        let Some(length) = offset_in(value) else {
            return Ok(None);
        };
        lengths.push(length)?;
    }
    Ok(Some(lengths))
}
