//! Coverage files as an lcov trace.
ghost use Rattle.std.specs.Prelude.{◌≡◌, [], ◌∷◌, ◌++◌, map, flat_map, decimal, IfOk, OnOk};
ghost use Rattle.std.specs.List.{enumerate_from};
ghost use Rattle.lcov_text.specs.Lcov.{head_lines, function_line, function_lines, function_count, line_line, line_lines, location_line, location_lines, branch_lines, totals, record_lines, ended_lines, lcov};

use crate::{LineCount, Share, branches_share, functions_share, line_counts, lines_share};
use clean_text::{put, put_cleaned, put_number};
use istanbul_json::{Branch, FileCoverage, Function};
use std::alloc::{AllocError, Global};

/// An lcov trace of files, a record a file. No file gives no bytes.
///
/// A record has, each on a line of its own, `TN:`, the path as `SF:`, the functions as `FN:` and `FNDA:`, the lines of
/// [`line_counts`] as `DA:`, the locations of the branches as `BRDA:`, all of them with how many there are and how many
/// were run, and `end_of_record` (the tracefile format of lcov, man page geninfo(1)). An absent line is written 0, a control character
/// of a path or a name as `?`.
///
/// Takes time by the length of the text, and by the number of statements and its logarithm. The only error is want of
/// memory.
#[tactic(auto, unfolding(crate::specs::Lcov::lcov))]
pub fn lcov_of(alloc: Global, files: &[FileCoverage]) -> Result<Vec<u8>, AllocError>
    ensures { IfOk result (λ text. text.items ≡ lcov files.now) }
{
    let mut text = Vec::new(alloc);
    for file in files {
        put_file(alloc, &mut text, file)?;
    }
    Ok(text)
}

fn put_file(alloc: Global, text: &mut Vec<u8>, file: &FileCoverage) -> Result<(), AllocError>
    ensures { OnOk result (text.new.items ≡ text.old.items ++ ended_lines (record_lines file.now)) }
{
    let lines = line_counts(alloc, file)?;
    put_head(alloc, text, file.path())?;
    put_functions(alloc, text, file.functions())?;
    put_lines(text, &lines)?;
    put_branches(text, file.branches())?;
    put(text, b"end_of_record\n")
}

fn put_head(alloc: Global, text: &mut Vec<u8>, path: &str) -> Result<(), AllocError>
    ensures { OnOk result (text.new.items ≡ text.old.items ++ ended_lines (head_lines path.now)) }
{
    put(text, b"TN:\nSF:")?;
    put_cleaned(alloc, text, path)?;
    put(text, b"\n")
}

// How many there are, and how many of them were run.
fn put_totals(text: &mut Vec<u8>, all: &[u8], hit: &[u8], share: Share) -> Result<(), AllocError>
    ensures { OnOk result (text.new.items ≡ text.old.items ++ ended_lines (totals all.now hit.now share)) }
{
    put(text, all)?;
    put_number(text, share.all)?;
    put(text, b"\n")?;
    put(text, hit)?;
    put_number(text, share.hit)?;
    put(text, b"\n")
}

#[tactic(auto, using(crate::proofs::Lines::ended_append))]
fn put_functions(
    alloc: Global,
    text: &mut Vec<u8>,
    functions: &[Function],
) -> Result<(), AllocError>
    ensures { OnOk result (text.new.items ≡ text.old.items ++ ended_lines (function_lines functions.now)) }
{
    put_function_lines(alloc, text, functions)?;
    put_totals(text, b"FNF:", b"FNH:", functions_share(functions))?;
    put_function_counts(alloc, text, functions)
}

fn put_function_lines(
    alloc: Global,
    text: &mut Vec<u8>,
    functions: &[Function],
) -> Result<(), AllocError>
    ensures { OnOk result (text.new.items ≡ text.old.items ++ ended_lines (map function_line functions.now)) }
{
    for function in functions {
        put_function_line(alloc, text, function)?;
    }
    Ok(())
}

fn put_function_line(
    alloc: Global,
    text: &mut Vec<u8>,
    function: &Function,
) -> Result<(), AllocError>
    ensures { OnOk result (text.new.items ≡ text.old.items ++ (function_line function.now ++ 10 ∷ [])) }
{
    put(text, b"FN:")?;
    put_number(text, u64::from(function.line.unwrap_or(0)))?;
    put(text, b",")?;
    put_cleaned(alloc, text, function.name.as_text())?;
    put(text, b"\n")
}

fn put_function_counts(
    alloc: Global,
    text: &mut Vec<u8>,
    functions: &[Function],
) -> Result<(), AllocError>
    ensures { OnOk result (text.new.items ≡ text.old.items ++ ended_lines (map function_count functions.now)) }
{
    for function in functions {
        put_function_count(alloc, text, function)?;
    }
    Ok(())
}

fn put_function_count(
    alloc: Global,
    text: &mut Vec<u8>,
    function: &Function,
) -> Result<(), AllocError>
    ensures { OnOk result (text.new.items ≡ text.old.items ++ (function_count function.now ++ 10 ∷ [])) }
{
    put(text, b"FNDA:")?;
    put_number(text, function.count)?;
    put(text, b",")?;
    put_cleaned(alloc, text, function.name.as_text())?;
    put(text, b"\n")
}

#[tactic(auto, using(crate::proofs::Lines::ended_append))]
fn put_lines(text: &mut Vec<u8>, lines: &[LineCount]) -> Result<(), AllocError>
    ensures { OnOk result (text.new.items ≡ text.old.items ++ ended_lines (line_lines lines.now)) }
{
    put_line_lines(text, lines)?;
    put_totals(text, b"LF:", b"LH:", lines_share(lines))
}

fn put_line_lines(text: &mut Vec<u8>, lines: &[LineCount]) -> Result<(), AllocError>
    ensures { OnOk result (text.new.items ≡ text.old.items ++ ended_lines (map line_line lines.now)) }
{
    for line in lines {
        put_line(text, *line)?;
    }
    Ok(())
}

fn put_line(text: &mut Vec<u8>, line: LineCount) -> Result<(), AllocError>
    ensures { OnOk result (text.new.items ≡ text.old.items ++ (line_line line ++ 10 ∷ [])) }
{
    put(text, b"DA:")?;
    put_number(text, u64::from(line.line))?;
    put(text, b",")?;
    put_number(text, line.count)?;
    put(text, b"\n")
}

#[tactic(auto, using(crate::proofs::Lines::ended_append))]
fn put_branches(text: &mut Vec<u8>, branches: &[Branch]) -> Result<(), AllocError>
    ensures { OnOk result (text.new.items ≡ text.old.items ++ ended_lines (branch_lines branches.now)) }
{
    put_branch_lines(text, branches)?;
    put_totals(text, b"BRF:", b"BRH:", branches_share(branches))
}

#[tactic(auto, using(crate::proofs::Lines::ended_append))]
fn put_branch_lines(text: &mut Vec<u8>, branches: &[Branch]) -> Result<(), AllocError>
    ensures { OnOk result (text.new.items ≡ text.old.items ++ ended_lines (flat_map location_lines (enumerate_from 0 branches.now))) }
{
    for (place, branch) in branches.iter().enumerate() {
        let line = branch.line.unwrap_or(0);
        put_locations(text, line, place as u64, branch.counts.as_slice())?;
    }
    Ok(())
}

// The locations of the branch at a place.
fn put_locations(
    text: &mut Vec<u8>,
    line: u32,
    place: u64,
    counts: &[u64],
) -> Result<(), AllocError>
    ensures { OnOk result (text.new.items ≡ text.old.items ++ ended_lines (map (location_line line place) (enumerate_from 0 counts.now))) }
{
    for (location, count) in counts.iter().enumerate() {
        put_location(text, line, place, location as u64, *count)?;
    }
    Ok(())
}

fn put_location(
    text: &mut Vec<u8>,
    line: u32,
    place: u64,
    location: u64,
    count: u64,
) -> Result<(), AllocError>
    ensures { OnOk result (text.new.items ≡ text.old.items ++ (location_line line place (location, count) ++ 10 ∷ [])) }
{
    put(text, b"BRDA:")?;
    put_before_comma(text, u64::from(line))?;
    put_before_comma(text, place)?;
    put_before_comma(text, location)?;
    put_number(text, count)?;
    put(text, b"\n")
}

fn put_before_comma(text: &mut Vec<u8>, number: u64) -> Result<(), AllocError>
    ensures { OnOk result (text.new.items ≡ text.old.items ++ (decimal number ++ 44 ∷ [])) }
{
    put_number(text, number)?;
    put(text, b",")
}
