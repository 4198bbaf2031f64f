//! The members of a file, each of its kind.
ghost use Rattle.std.specs.Prelude.{◌≡◌, option_map, IfOk, IfSome};
ghost use Rattle.serde_json.specs.View.{view, members_view};
ghost use Rattle.json_shapes.specs.Members.{each_member, keyed};
ghost use Rattle.istanbul_json.specs.Answers.{seen, pairs, AreRising};
ghost use Rattle.istanbul_json.specs.Coverage.{member_as};
ghost use Rattle.istanbul_json.specs.Gives.{GivesCoverage};

use crate::values::FromValue;
use crate::{CoverageFault, CoverageField};
use serde_json::{Map, Value};
use std::alloc::{AllocError, Global};

/// Each member with its key, in byte order of the keys, or `None` where one is something else.
fn each_member<'a, T: FromValue>(
    alloc: Global,
    map: &'a Map<String, Value>,
) -> Result<Option<Vec<(&'a str, T)>>, AllocError>
    ensures members { IfOk result (λ found. option_map pairs found ≡ each_member T.reads (members_view map.now.entries)) }
    ensures rising { IfOk result (λ found. IfSome found (λ members. AreRising (pairs members))) }
{
    let mut members = Vec::new(alloc);
    for (key, value) in map {
        let Some(value) = T::from_value(alloc, value)? else {
            return Ok(None);
        };
        members.push((key.as_str(), value))?;
    }
    Ok(Some(members))
}

/// The member of this name, an object with any keys.
pub fn keyed_member<'a, T: FromValue>(
    alloc: Global,
    value: &'a Value,
    file: u64,
    field: CoverageField,
    name: &str,
) -> Result<Vec<(&'a str, T)>, CoverageFault>
    ensures members { GivesCoverage (seen pairs result) (member_as (keyed T.reads) file field name.now (view value.now)) }
    ensures rising { IfOk result (λ members. AreRising (pairs members)) }
{
    let Some(found) = value.get(name) else {
        return Err(CoverageFault::Missing { file, field });
    };
    let Some(map) = found.as_object() else {
        return Err(CoverageFault::Wrong { file, field });
    };
    match each_member(alloc, map) {
        Ok(Some(members)) => Ok(members),
        Ok(None) => Err(CoverageFault::Wrong { file, field }),
        Err(_) => Err(CoverageFault::NoMemory),
    }
}
