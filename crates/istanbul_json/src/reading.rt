//! The coverage files of a text.
ghost use Rattle.std.specs.Prelude.{◌≡◌, ◌≤◌, length, codes, IfOk};
ghost use Rattle.serde_json.specs.View.{view, members_view};
ghost use Rattle.cov_text.specs.Listing.{max_text};
ghost use Rattle.json_shapes.specs.Shapes.{or_fault, parsed};
ghost use Rattle.istanbul_json.specs.Answers.{seen};
ghost use Rattle.istanbul_json.specs.Coverage as coverage;
ghost use Rattle.istanbul_json.specs.declared.file.CoverageFault.TheVariants.{Syntax};
ghost use Rattle.istanbul_json.specs.declared.file.CoverageField.TheVariants.{Path};
ghost use Rattle.istanbul_json.specs.Gives.{ArePathsInOrder, GivesCoverage};
ghost use Rattle.istanbul_json.specs.Members.{path_as};

use crate::entry::{BranchEntry, FunctionEntry};
use crate::keys::{as_many_counts, in_key_order, same_keys};
use crate::members::keyed_member;
use crate::quick::quick_coverage;
use crate::{CoverageFault, CoverageField, FileCoverage, FileParts, Loc};
use cov_text::{Items, MAX_TEXT, Text};
use json_shapes::{ParseFault, parse};
use serde_json::{Map, Value};
use std::alloc::Global;

/// The coverage files that a text is, in byte order of their paths, or its first fault.
///
/// # Errors
///
/// [`CoverageFault::TooLong`] comes exactly past 134,217,728 bytes, and [`CoverageFault::Syntax`] exactly where shorter bytes
/// are no JSON text. Files are judged one after the other: the members in the order of [`CoverageField`], each missing or
/// wrong, and then the keys. [`CoverageFault::NoMemory`] comes only for want of memory.
#[tactic(auto, unfolding(crate::specs::Coverage::coverage_reading, crate::specs::Coverage::files_of))]
pub fn read_coverage(alloc: Global, bytes: &[u8]) -> Result<Items<FileCoverage>, CoverageFault>
    ensures reading { GivesCoverage result (coverage.coverage_reading bytes.now) }
    ensures in_order { IfOk result ArePathsInOrder }
{
    if let Some(files) = quick_coverage(alloc, bytes) {
        return Ok(files);
    }
    if bytes.len() > MAX_TEXT {
        return Err(CoverageFault::TooLong);
    }
    let value = json_of(alloc, bytes)?;
    match value.as_object() {
        Some(files) => files_of(alloc, files),
        None => Err(CoverageFault::Wrong {
            file: 0,
            field: CoverageField::Top,
        }),
    }
}

/// The JSON value of a text that isn't too long.
fn json_of(alloc: Global, bytes: &[u8]) -> Result<Value, CoverageFault>
    requires { length bytes.now ≤ max_text }
    ensures { GivesCoverage (seen view result) (or_fault Syntax (parsed bytes.now)) }
{
    match parse(alloc, bytes) {
        Ok(value) => Ok(value),
        Err(ParseFault::TooLong) => Err(CoverageFault::TooLong),
        Err(ParseFault::Syntax) => Err(CoverageFault::Syntax),
        Err(ParseFault::NoMemory) => Err(CoverageFault::NoMemory),
    }
}

/// The files of an object from path to file.
fn files_of(
    alloc: Global,
    members: &Map<String, Value>,
) -> Result<Items<FileCoverage>, CoverageFault>
    ensures files { GivesCoverage result (coverage.files_from 0 (members_view members.now.entries)) }
    ensures in_order { IfOk result ArePathsInOrder }
{
    let mut files = Items::new(alloc);
    for (path, value) in members {
        let file = file_of(alloc, files.len() as u64, path.as_str(), value)?;
        if files.push(file).is_err() {
            return Err(CoverageFault::NoMemory);
        }
    }
    Ok(files)
}

/// The file at a place, whose path is to be this one.
fn file_of(
    alloc: Global,
    file: u64,
    path: &str,
    value: &Value,
) -> Result<FileCoverage, CoverageFault>
    ensures file { GivesCoverage result (coverage.file_of file path.now (view value.now)) }
    ensures path { IfOk result (λ file. file.path ≡ path.now) }
{
    use CoverageField::*;
    if !value.is_object() {
        return Err(CoverageFault::Wrong { file, field: Top });
    }
    let path = path_of(alloc, file, path, value)?;
    let statements = keyed_member::<Loc>(alloc, value, file, StatementMap, "statementMap")?;
    let functions = keyed_member::<FunctionEntry>(alloc, value, file, FnMap, "fnMap")?;
    let branches = keyed_member::<BranchEntry>(alloc, value, file, BranchMap, "branchMap")?;
    let s = keyed_member::<u64>(alloc, value, file, S, "s")?;
    let f = keyed_member::<u64>(alloc, value, file, F, "f")?;
    let b = keyed_member::<Items<u64>>(alloc, value, file, B, "b")?;
    if !same_keys(statements.as_slice(), s.as_slice()) {
        return Err(CoverageFault::Keys { file, field: S });
    }
    if !same_keys(functions.as_slice(), f.as_slice()) {
        return Err(CoverageFault::Keys { file, field: F });
    }
    if !same_keys(branches.as_slice(), b.as_slice())
        || !as_many_counts(branches.as_slice(), b.as_slice())
    {
        return Err(CoverageFault::Keys { file, field: B });
    }
    let Ok(statements) = in_key_order(alloc, statements, s) else {
        return Err(CoverageFault::NoMemory);
    };
    let Ok(functions) = in_key_order(alloc, functions, f) else {
        return Err(CoverageFault::NoMemory);
    };
    let Ok(branches) = in_key_order(alloc, branches, b) else {
        return Err(CoverageFault::NoMemory);
    };
    Ok(FileCoverage::new(FileParts {
        path,
        statements,
        functions,
        branches,
    }))
}

/// The path of a file, which is to be this one.
fn path_of(alloc: Global, file: u64, path: &str, value: &Value) -> Result<Text, CoverageFault>
    ensures member { GivesCoverage result (coverage.member_as (path_as path.now) file Path (codes "path") (view value.now)) }
    ensures same { IfOk result (λ found. found ≡ path.now) }
{
    let field = CoverageField::Path;
    let Some(found) = value.get("path") else {
        return Err(CoverageFault::Missing { file, field });
    };
    match found.as_str() {
        Some(found) if found == path => match Text::from_text(alloc, found) {
            Ok(path) => Ok(path),
            Err(_) => Err(CoverageFault::NoMemory),
        },
        _ => Err(CoverageFault::Wrong { file, field }),
    }
}
