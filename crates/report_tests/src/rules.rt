//! Ranges and maps with the lines, branches and functions that the rules give them. `cov_cases` plays what comments leave out.
ghost use Rattle.std.specs.Prelude.{◌≡◌, IfOk};
ghost use Rattle.utf16_lines.specs.Lines as lines;

mod files;
mod parts;

use cov_model::{FunctionReport, Range};
use cov_text::{Items, MAX_TEXT, Text};
use istanbul_json::{Loc, Mark};
use serde_json::Value;
use source_maps::{SourceMap, map_of};
use std::alloc::Global;
use std::process::Abort;
use std::test::Fail;
use utf16_lines::LineTable;

// A function with these ranges, each a start, an end and a count.
fn report(
    alloc: Global,
    name: &str,
    block: bool,
    ranges: &[(u32, u32, u64)],
) -> Result<FunctionReport, Fail> {
    let mut listed = Items::new(alloc);
    for (start, end, count) in ranges {
        listed.push(Range {
            start: *start,
            end: *end,
            count: *count,
        })?;
    }
    Ok(FunctionReport {
        name: Text::from_text(alloc, name)?,
        block,
        ranges: listed,
    })
}

// The one function of a script, without a name.
fn script(alloc: Global, ranges: &[(u32, u32, u64)]) -> Result<Vec<FunctionReport>, Fail> {
    let mut functions = Vec::new(alloc);
    functions.push(report(alloc, "", true, ranges)?)?;
    Ok(functions)
}

// The lines of a text.
fn table_of(rt: &impl Abort, alloc: Global, text: &str) -> Result<LineTable, Fail>
    ensures { IfOk result (λ table. table ≡ lines.table_of text.now) }
{
    assert!(rt; text.len() <= MAX_TEXT);
    Ok(LineTable::of(alloc, text)?)
}

// The map with these mappings and the sources `a` and `b`.
fn map_with(alloc: Global, mappings: &str) -> Result<SourceMap, Fail> {
    let text = format!(in alloc;
        "{{\"version\":3,\"sources\":[\"a\",\"b\"],\"mappings\":\"{mappings}\"}}"
    )?;
    let value = Value::from_str(alloc, text.as_str()).map_err(|_| "no JSON")?;
    match map_of(alloc, &value) {
        Ok(map) => Ok(map),
        Err(_) => Err(Fail::from("no map")),
    }
}

// A location by its start and its end, each a line from 1 and a column from 0.
fn loc(start: (u32, u32), end: (u32, u32)) -> Loc {
    Loc {
        start: mark(start),
        end: mark(end),
    }
}

fn mark(spot: (u32, u32)) -> Mark {
    Mark {
        line: Some(spot.0),
        column: Some(spot.1),
    }
}
