//! What a JSON value is read as: a count, a location, a function or a branch.
ghost use Rattle.std.specs.Prelude.{◌≡◌, Option, codes, option_and_then, IfOk};
ghost use Rattle.serde_json.specs.Data.{Data};
ghost use Rattle.serde_json.specs.View.{view, items_view};
ghost use Rattle.serde_json.specs.Find.{get};
ghost use Rattle.json_shapes.specs.Shapes.{whole};
ghost use Rattle.json_shapes.specs.Members.{each_of, listed};
ghost use Rattle.istanbul_json.specs.Members as members;

use crate::entry::{BranchEntry, FunctionEntry};
use crate::{Loc, Mark};
use cov_text::{Items, Text};
use json_shapes::offset_in;
use serde_json::Value;
use std::alloc::{AllocError, Global};

/// What a JSON value may be read as.
pub trait FromValue: Drop + Sized {
    ghost reads: { Data → Option Self };

    /// What the value is, or `None` where it is something else.
    fn from_value(alloc: Global, value: &Value) -> Result<Option<Self>, AllocError>
        ensures { IfOk result (λ found. found ≡ reads (view value.now)) };
}

/// A line or a column, which may be absent or null.
fn number_at(value: &Value, key: &str) -> Option<Option<u32>>
    ensures { result ≡ members.number_by key.now (view value.now) }
{
    match value.get(key) {
        Some(found) if !found.is_null() => Some(Some(offset_in(found)?)),
        _ => Some(None),
    }
}

fn mark_of(value: &Value) -> Option<Mark>
    ensures { result ≡ members.mark_of (view value.now) }
{
    if !value.is_object() {
        return None;
    }
    let line = number_at(value, "line")?;
    let column = number_at(value, "column")?;
    Some(Mark { line, column })
}

fn loc_of(value: &Value) -> Option<Loc>
    ensures { result ≡ members.loc_of (view value.now) }
{
    let start = mark_of(value.get("start")?)?;
    let end = mark_of(value.get("end")?)?;
    Some(Loc { start, end })
}

fn loc_at(value: &Value, key: &str) -> Option<Loc>
    ensures { result ≡ members.member_by members.loc_of key.now (view value.now) }
{
    loc_of(value.get(key)?)
}

impl FromValue for u64 {
    ghost reads = { whole };

    fn from_value(alloc: Global, value: &Value) -> Result<Option<u64>, AllocError> {
        let _ = alloc;
        Ok(value.as_u64())
    }
}

impl FromValue for Loc {
    ghost reads = { members.loc_of };

    fn from_value(alloc: Global, value: &Value) -> Result<Option<Loc>, AllocError> {
        let _ = alloc;
        Ok(loc_of(value))
    }
}

/// Each value of a list, or `None` where one is something else.
fn each_of<T: FromValue>(alloc: Global, values: &[Value]) -> Result<Option<Items<T>>, AllocError>
    ensures { IfOk result (λ items. items ≡ each_of T.reads (items_view values.now)) }
{
    let mut items = Items::new(alloc);
    for value in values {
        let Some(item) = T::from_value(alloc, value)? else {
            return Ok(None);
        };
        items.push(item)?;
    }
    Ok(Some(items))
}

impl<T: FromValue> FromValue for Items<T> {
    ghost reads = { listed T.reads };

    fn from_value(alloc: Global, value: &Value) -> Result<Option<Items<T>>, AllocError> {
        match value.as_array() {
            Some(values) => each_of(alloc, values.as_slice()),
            None => Ok(None),
        }
    }
}

impl FromValue for FunctionEntry {
    ghost reads = { members.function_of };

    fn from_value(alloc: Global, value: &Value) -> Result<Option<FunctionEntry>, AllocError> {
        let Some(name) = value.get("name").and_then(Value::as_str) else {
            return Ok(None);
        };
        let Some(decl) = loc_at(value, "decl") else {
            return Ok(None);
        };
        let Some(loc) = loc_at(value, "loc") else {
            return Ok(None);
        };
        let Some(line) = number_at(value, "line") else {
            return Ok(None);
        };
        let name = Text::from_text(alloc, name)?;
        Ok(Some(FunctionEntry {
            name,
            decl,
            loc,
            line,
        }))
    }
}

/// The locations of a branch.
fn locations_of(alloc: Global, value: &Value) -> Result<Option<Items<Loc>>, AllocError>
    ensures { IfOk result (λ locations. locations
        ≡ members.member_by (listed members.loc_of) (codes "locations") (view value.now)) }
{
    match value.get("locations") {
        Some(found) => Items::from_value(alloc, found),
        None => Ok(None),
    }
}

impl FromValue for BranchEntry {
    ghost reads = { members.branch_of };

    fn from_value(alloc: Global, value: &Value) -> Result<Option<BranchEntry>, AllocError> {
        let Some(kind) = value.get("type").and_then(Value::as_str) else {
            return Ok(None);
        };
        let Some(loc) = loc_at(value, "loc") else {
            return Ok(None);
        };
        let Some(locations) = locations_of(alloc, value)? else {
            return Ok(None);
        };
        let Some(line) = number_at(value, "line") else {
            return Ok(None);
        };
        let kind = Text::from_text(alloc, kind)?;
        Ok(Some(BranchEntry {
            kind,
            loc,
            locations,
            line,
        }))
    }
}
