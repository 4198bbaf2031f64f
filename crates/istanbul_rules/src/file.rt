//! The coverage of a file, of all its parts.
ghost use Rattle.std.specs.Prelude.{◌≡◌, ◌+◌, ◌^◌, ◌≤◌, ◌<◌, ◌++◌, length, filter, decimal, IfOk};
ghost use Rattle.std.specs.List.{AllByRecursion};
ghost use Rattle.cov_text.specs.Listing.{max_text};
ghost use Rattle.utf16_lines.specs.Lines.{lines, table_of};
ghost use Rattle.istanbul_rules.specs.File as file;

use crate::ignoring::ignored;
use crate::locating::{line_length, mark};
use crate::part::{Part, PartBranch, PartFunction};
use cov_text::{Items, Text};
use istanbul_json::{Branch, FileCoverage, FileParts, Function, Loc, Statement};
use std::alloc::{AllocError, Global};
use utf16_lines::LineTable;

/// The coverage of the file at a path, with this text and these parts.
///
/// A line's count is the greatest that the parts give it. Each line that has one and that no comment leaves out is a
/// statement, from its column 0 to its length. Branches and functions are those of all parts in order, without those
/// that start on a line that a comment leaves out. Keys are the places in each list, in decimal from 0, and lines are
/// written from 1. A branch has one location, which is all of it, and the kind `branch`.
///
/// The only error is want of memory.
pub fn file_coverage(
    alloc: Global,
    path: &str,
    text: &str,
    parts: &[Part],
) -> Result<FileCoverage, AllocError>
    requires short { length text.now ≤ max_text }
    requires lines { AllByRecursion (λ part. length part.lines ≡ length (lines text.now)) parts.now }
    ensures { IfOk result (λ coverage. coverage ≡ file.file_coverage path.now text.now parts.now) }
{
    let table = LineTable::of(alloc, text)?;
    file_coverage_by(alloc, path, text, &table, parts)
}

/// The same as `file_coverage`, for who has the table of the text's lines.
pub fn file_coverage_by(
    alloc: Global,
    path: &str,
    text: &str,
    table: &LineTable,
    parts: &[Part],
) -> Result<FileCoverage, AllocError>
    requires short { length text.now ≤ max_text }
    requires table { table.now ≡ table_of text.now }
    ensures { IfOk result (λ coverage. coverage ≡ file.file_coverage path.now text.now parts.now) }
{
    let ignored = ignored(alloc, text)?;
    let off = ignored.as_slice();
    let path = Text::from_text(alloc, path)?;
    let statements = statements_of(alloc, table, off, parts)?;
    let functions = functions_in(alloc, off, parts)?;
    let branches = branches_in(alloc, off, parts)?;
    Ok(FileCoverage::new(FileParts {
        path,
        statements,
        functions,
        branches,
    }))
}

// The lines that have a count and that no comment leaves out.
fn statements_of(
    alloc: Global,
    table: &LineTable,
    off: &[bool],
    parts: &[Part],
) -> Result<Items<Statement>, AllocError>
    requires { length off.now < 2 ^ 32 }
    ensures value { IfOk result (λ statements. statements ≡ file.statements_of table.now off.now parts.now) }
    ensures bound { IfOk result (λ statements. length statements ≤ 2 ^ 64) }
{
    let mut statements = Items::new(alloc);
    for (i, is_off) in off.iter().enumerate() {
        if *is_off {
            continue;
        }
        if let Some(count) = line_count(parts, i) {
            let key = key_of(alloc, statements.len())?;
            let loc = whole_line(table, i as u32);
            statements.push(Statement { key, loc, count })?;
        }
    }
    Ok(statements)
}

// The greatest count that the parts give to a line.
fn line_count(parts: &[Part], line: usize) -> Option<u64>
    ensures { result ≡ file.line_count parts.now line }
{
    parts.iter().filter_map(|part| count_in(part, line)).max()
}

// The count that a part gives to a line.
fn count_in(part: &Part, line: usize) -> Option<u64>
    ensures { result ≡ file.count_in line part.now }
{
    part.lines.get(line).copied().flatten()
}

// From the line's column 0 to its length.
fn whole_line(table: &LineTable, line: u32) -> Loc
    requires { line + 1 < 2 ^ 32 }
    ensures { result ≡ file.whole_line table.now line }
{
    Loc {
        start: mark(line, 0),
        end: mark(line, line_length(table, line)),
    }
}

// The key of what stands at a place.
fn key_of(alloc: Global, place: usize) -> Result<Text, AllocError>
    ensures { IfOk result (λ key. key ≡ decimal place) }
{
    let key = format!(in alloc; "{place}")?;
    Ok(Text::from_string(key))
}

// Whether a location begins on a line that a comment leaves out.
fn begins_off(off: &[bool], loc: Loc) -> bool
    ensures { result ≡ file.begins_off off.now loc }
{
    match loc.start.line {
        Some(line) => off
            .get(line.saturating_sub(1) as usize)
            .copied()
            .unwrap_or(false),
        None => false,
    }
}

// The functions of all parts that begin on no line that a comment leaves out.
fn functions_in(alloc: Global, off: &[bool], parts: &[Part]) -> Result<Items<Function>, AllocError>
    ensures value { IfOk result (λ functions. functions ≡ file.functions_in off.now parts.now) }
    ensures bound { IfOk result (λ functions. length functions ≤ 2 ^ 64) }
{
    let mut functions = Items::new(alloc);
    for part in parts {
        add_functions(alloc, off, part.functions.as_slice(), &mut functions)?;
    }
    Ok(functions)
}

// Puts those of these functions at the end.
fn add_functions(
    alloc: Global,
    off: &[bool],
    more: &[PartFunction],
    functions: &mut Items<Function>,
) -> Result<(), AllocError>
    requires { length functions.old ≤ 2 ^ 64 }
    ensures value { IfOk result (λ _. functions.new ≡ functions.old ++ file.keyed file.function (length functions.old) (filter (file.is_function_on off.now) more.now)) }
    ensures bound { IfOk result (λ _. length functions.new ≤ 2 ^ 64) }
{
    for function in more {
        if begins_off(off, function.loc) {
            continue;
        }
        let key = key_of(alloc, functions.len())?;
        functions.push(function_with(key, function)?)?;
    }
    Ok(())
}

// A function with its key.
fn function_with(key: Text, function: &PartFunction) -> Result<Function, AllocError>
    ensures { IfOk result (λ f. f ≡ file.function key function.now) }
{
    let name = function.name.clone()?;
    Ok(Function {
        key,
        name,
        decl: function.loc,
        loc: function.loc,
        line: function.loc.start.line,
        count: function.count,
    })
}

// The branches of all parts that begin on no line that a comment leaves out.
fn branches_in(alloc: Global, off: &[bool], parts: &[Part]) -> Result<Items<Branch>, AllocError>
    ensures value { IfOk result (λ branches. branches ≡ file.branches_in off.now parts.now) }
    ensures bound { IfOk result (λ branches. length branches ≤ 2 ^ 64) }
{
    let mut branches = Items::new(alloc);
    for part in parts {
        add_branches(alloc, off, part.branches.as_slice(), &mut branches)?;
    }
    Ok(branches)
}

// Puts those of these branches at the end.
fn add_branches(
    alloc: Global,
    off: &[bool],
    more: &[PartBranch],
    branches: &mut Items<Branch>,
) -> Result<(), AllocError>
    requires { length branches.old ≤ 2 ^ 64 }
    ensures value { IfOk result (λ _. branches.new ≡ branches.old ++ file.keyed file.branch (length branches.old) (filter (file.is_branch_on off.now) more.now)) }
    ensures bound { IfOk result (λ _. length branches.new ≤ 2 ^ 64) }
{
    for branch in more {
        if begins_off(off, branch.loc) {
            continue;
        }
        let key = key_of(alloc, branches.len())?;
        branches.push(branch_with(alloc, key, *branch)?)?;
    }
    Ok(())
}

// A branch with its key.
fn branch_with(alloc: Global, key: Text, branch: PartBranch) -> Result<Branch, AllocError>
    ensures { IfOk result (λ b. b ≡ file.branch key branch) }
{
    let kind = Text::from_text(alloc, "branch")?;
    let locations = Items::from_slice(alloc, &[branch.loc])?;
    let counts = Items::from_slice(alloc, &[branch.count])?;
    Ok(Branch {
        key,
        kind,
        loc: branch.loc,
        locations,
        line: branch.loc.start.line,
        counts,
    })
}
