//! The members of a map, each of its kind.
ghost use Rattle.std.specs.Prelude.{◌≡◌, ◌≤◌, [], Option, length, codes, IfOk};
ghost use Rattle.serde_json.specs.View.{view, items_view};
ghost use Rattle.serde_json.specs.Find.{get, as_str};
ghost use Rattle.cov_text.specs.Listing.{max_text};
ghost use Rattle.json_shapes.specs.Shapes.{or_fault};
ghost use Rattle.json_shapes.specs.Members.{each_of, listed, or_null, if_there, if_given_or};
ghost use Rattle.source_maps.specs.Maps as maps;
ghost use Rattle.source_maps.specs.Answers.{seen};
ghost use Rattle.source_maps.specs.Gives.{Gives};

use crate::{MapFault, MapField};
use cov_text::{Items, MAX_TEXT, Text};
use serde_json::Value;
use std::alloc::{AllocError, Global};

/// The fault of a member of a map, or of the map of a section.
pub fn wrong(section: Option<u64>, field: MapField) -> MapFault
    ensures { result ≡ maps.wrong section field }
{
    match section {
        None => MapFault::Shape(field),
        Some(k) => MapFault::Section { k, field },
    }
}

// What was read, or the fault where it was refused.
fn given<T>(read: Result<Option<T>, AllocError>, fault: MapFault) -> Result<T, MapFault>
    ensures { (known : Option T) → IfOk read (λ found. found ≡ known) → Gives result (or_fault fault known) }
{
    match read {
        Ok(Some(found)) => Ok(found),
        Ok(None) => Err(fault),
        Err(_) => Err(MapFault::NoMemory),
    }
}

// A string.
fn text(alloc: Global, value: &Value) -> Result<Option<Text>, AllocError>
    ensures { IfOk result (λ text. text ≡ as_str (view value.now)) }
{
    match value.as_str() {
        Some(text) => {
            let text = Text::from_text(alloc, text)?;
            Ok(Some(text))
        }
        None => Ok(None),
    }
}

// A string or null.
fn optional_text(alloc: Global, value: &Value) -> Result<Option<Option<Text>>, AllocError>
    ensures { IfOk result (λ text. text ≡ or_null as_str (view value.now)) }
{
    if value.is_null() {
        return Ok(Some(None));
    }
    match text(alloc, value)? {
        Some(text) => Ok(Some(Some(text))),
        None => Ok(None),
    }
}

// A list of strings, from its items.
fn texts(alloc: Global, values: &[Value]) -> Result<Option<Items<Text>>, AllocError>
    ensures { IfOk result (λ texts. texts ≡ each_of as_str (items_view values.now)) }
{
    let mut texts = Items::new(alloc);
    for value in values {
        let Some(item) = text(alloc, value)? else {
            return Ok(None);
        };
        texts.push(item)?;
    }
    Ok(Some(texts))
}

// A list of strings and nulls, from its items.
fn optional_texts(
    alloc: Global,
    values: &[Value],
) -> Result<Option<Items<Option<Text>>>, AllocError>
    ensures { IfOk result (λ texts. texts ≡ each_of (or_null as_str) (items_view values.now)) }
{
    let mut texts = Items::new(alloc);
    for value in values {
        let Some(item) = optional_text(alloc, value)? else {
            return Ok(None);
        };
        texts.push(item)?;
    }
    Ok(Some(texts))
}

// A list of strings and nulls.
fn optional_list(alloc: Global, value: &Value) -> Result<Option<Items<Option<Text>>>, AllocError>
    ensures { IfOk result (λ texts. texts ≡ listed (or_null as_str) (view value.now)) }
{
    match value.as_array() {
        Some(values) => optional_texts(alloc, values.as_slice()),
        None => Ok(None),
    }
}

// The list of the member `names`, and no names where it isn't there.
fn name_list(alloc: Global, value: &Value) -> Result<Option<Items<Text>>, AllocError>
    ensures { IfOk result (λ names. names ≡ if_there (listed as_str) [] (get (codes "names") (view value.now))) }
{
    let Some(found) = value.get("names") else {
        return Ok(Some(Items::new(alloc)));
    };
    match found.as_array() {
        Some(values) => texts(alloc, values.as_slice()),
        None => Ok(None),
    }
}

// The list of the member `sourcesContent`, and no contents where it isn't there or is null.
fn content_list(alloc: Global, value: &Value) -> Result<Option<Items<Option<Text>>>, AllocError>
    ensures { IfOk result (λ contents. contents
        ≡ if_given_or (listed (or_null as_str)) [] (get (codes "sourcesContent") (view value.now))) }
{
    match value.get("sourcesContent") {
        Some(found) if !found.is_null() => optional_list(alloc, found),
        _ => Ok(Some(Items::new(alloc))),
    }
}

/// The names of the sources, without the root.
pub fn sources_of(
    alloc: Global,
    section: Option<u64>,
    value: &Value,
) -> Result<Items<Option<Text>>, MapFault>
    ensures { Gives result (maps.sources_of section (view value.now)) }
{
    let read = match value.get("sources") {
        Some(found) => optional_list(alloc, found),
        None => Ok(None),
    };
    given(read, wrong(section, MapField::Sources))
}

/// The root of the sources, empty where there is none.
pub fn root_of<'a>(section: Option<u64>, value: &'a Value) -> Result<&'a str, MapFault>
    ensures { seen (λ root. root.now) result ≡ maps.root_of section (view value.now) }
{
    match value.get("sourceRoot") {
        Some(found) if !found.is_null() => match found.as_str() {
            Some(root) => Ok(root),
            None => Err(wrong(section, MapField::SourceRoot)),
        },
        _ => Ok(""),
    }
}

/// The contents that are given.
pub fn contents_of(
    alloc: Global,
    section: Option<u64>,
    value: &Value,
) -> Result<Items<Option<Text>>, MapFault>
    ensures { Gives result (maps.contents_of section (view value.now)) }
{
    let read = content_list(alloc, value);
    given(read, wrong(section, MapField::SourcesContent))
}

/// The names.
pub fn names_of(alloc: Global, section: Option<u64>, value: &Value) -> Result<Items<Text>, MapFault>
    ensures { Gives result (maps.names_of section (view value.now)) }
{
    let read = name_list(alloc, value);
    given(read, wrong(section, MapField::Names))
}

/// The text of the mappings.
pub fn mappings_of<'a>(section: Option<u64>, value: &'a Value) -> Result<&'a str, MapFault>
    ensures text { seen (λ text. text.now) result ≡ maps.mappings_of section (view value.now) }
    ensures short { IfOk result (λ text. length text.now ≤ max_text) }
{
    match value.get("mappings").and_then(Value::as_str) {
        Some(text) if text.len() <= MAX_TEXT => Ok(text),
        _ => Err(wrong(section, MapField::Mappings)),
    }
}
