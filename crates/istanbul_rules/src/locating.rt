//! Where ranges stand in their own text, and the branches and functions that they make.
ghost use Rattle.std.specs.Prelude.{◌≡◌, ◌+◌, ◌<◌, ◌^◌, ◌++◌, None, length, filter_map, if◌then◌else◌, IfOk};
ghost use Rattle.utf16_lines.specs.Lines as lines;
ghost use Rattle.istanbul_rules.specs.Parts as parts;

use crate::part::{PartBranch, PartFunction};
use cov_model::{FunctionReport, Range};
use cov_text::Items;
use istanbul_json::{Loc, Mark};
use source_remap::OriginalSpan;
use std::alloc::{AllocError, Global};
use utf16_lines::{LineTable, Spot};

// The location of a range of the text itself, where that has a line.
#[tactic(auto, unfolding(crate::specs::Parts::direct_loc))]
fn direct_loc(table: &LineTable, range: Range) -> Option<Loc>
    ensures { result ≡ parts.direct_loc table.now range }
{
    let start = mark_within(table, range.start)?;
    let end = mark_within(table, range.end)?;
    Some(Loc { start, end })
}

/// The location of an original span, where it is of this source and its lines are in the table.
pub fn loc_in_source(table: &LineTable, source: u32, span: OriginalSpan) -> Option<Loc>
    ensures { result ≡ parts.loc_in_source table.now source span }
{
    let lines = table.lines();
    if span.source != source || span.first.line >= lines || span.last.line >= lines {
        return None;
    }
    let column = span.first.column.min(line_length(table, span.first.line));
    let end = line_length(table, span.last.line);
    Some(Loc {
        start: mark(span.first.line, column),
        end: mark(span.last.line, end),
    })
}

// The mark of an offset, which counts as the units where it is past them; none where there is no line.
fn mark_within(table: &LineTable, offset: u32) -> Option<Mark>
    ensures { result ≡ parts.mark_within table.now offset }
{
    let spot = table.place(offset.min(table.units()))?;
    Some(mark_at(table, spot))
}

// The mark of a spot in the table.
fn mark_at(table: &LineTable, spot: Spot) -> Mark
    requires { spot.line < length table.now.spans }
    ensures { result ≡ parts.mark spot.line spot.column }
{
    let _lines = table.lines();
    mark(spot.line, spot.column)
}

/// The length of a line in UTF-16 code units, and 0 where it isn't in the table.
pub fn line_length(table: &LineTable, line: u32) -> u32
    ensures { result ≡ lines.line_length table.now line }
{
    match table.line(line) {
        Some(span) => span.end - span.start,
        None => 0,
    }
}

/// A mark counts lines from 1.
pub fn mark(line: u32, column: u32) -> Mark
    requires { line + 1 < 2 ^ 32 }
    ensures { result ≡ parts.mark line column }
{
    Mark {
        line: Some(line + 1),
        column: Some(column),
    }
}

/// The ranges that have a location, of the functions whose flag is true.
pub fn branches_of(
    alloc: Global,
    table: &LineTable,
    functions: &[FunctionReport],
) -> Result<Items<PartBranch>, AllocError>
    ensures { IfOk result (λ branches. branches ≡ parts.branches_of (parts.direct_loc table.now) functions.now) }
{
    let mut branches = Items::new(alloc);
    for function in functions {
        if function.block {
            add_branches(table, function.ranges.as_slice(), &mut branches)?;
        }
    }
    Ok(branches)
}

// Puts the branches of a function at the end.
fn add_branches(
    table: &LineTable,
    ranges: &[Range],
    branches: &mut Items<PartBranch>,
) -> Result<(), AllocError>
    ensures { IfOk result (λ _. branches.new ≡ branches.old ++ filter_map (parts.branch_of (parts.direct_loc table.now)) ranges.now) }
{
    for range in ranges {
        if let Some(loc) = direct_loc(table, *range) {
            branches.push(PartBranch {
                loc,
                count: range.count,
            })?;
        }
    }
    Ok(())
}

/// The functions that have a name and whose root has a location.
pub fn functions_of(
    alloc: Global,
    table: &LineTable,
    functions: &[FunctionReport],
) -> Result<Items<PartFunction>, AllocError>
    ensures { IfOk result (λ found. found ≡ parts.functions_of (parts.direct_loc table.now) functions.now) }
{
    let mut found = Items::new(alloc);
    for function in functions {
        if let Some(located) = function_of(table, function)? {
            found.push(located)?;
        }
    }
    Ok(found)
}

// The function, where it has a name and its root a location.
fn function_of(
    table: &LineTable,
    function: &FunctionReport,
) -> Result<Option<PartFunction>, AllocError>
    ensures { IfOk result (λ found. found ≡ (if parts.has_name function.now then parts.function_of (parts.direct_loc table.now) function.now else None)) }
{
    let name = function.name.as_text();
    if name.is_empty() {
        return Ok(None);
    }
    let Some(root) = function.ranges.get(0) else {
        return Ok(None);
    };
    let Some(loc) = direct_loc(table, *root) else {
        return Ok(None);
    };
    let name = function.name.clone()?;
    Ok(Some(PartFunction {
        name,
        loc,
        count: root.count,
    }))
}
