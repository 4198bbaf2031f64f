//! The table of files.
ghost use Rattle.std.specs.Prelude.{◌≡◌, ◌++◌, flat_map, IfOk, OnOk};
ghost use Rattle.cov_table.specs.Shares.{summary, IsWithin};
ghost use Rattle.cov_table.specs.Table.{head_row, all_row, file_row, percents, row, runs_field, runs, uncovered};
ghost use Rattle.cov_table.specs.Table as table;
ghost use Rattle.cov_text.specs.Listing.{cleaned};

use crate::columns::{put_fields, put_name, shown_width};
use crate::runs::{put_runs, runs_of};
use crate::shares::{Summary, percent};
use clean_text::put;
use istanbul_json::FileCoverage;
use lcov_text::{LineCount, line_counts};
use std::alloc::{AllocError, Global};

// As wide is `All files`.
const LEAST_WIDTH: usize = 9;

/// The table of files: a head, a row for all files, and a row for each, with the percentages of its lines, branch
/// locations and functions, and the lines that were never run, where there are any. The column of paths is as wide as
/// its longest name, in characters. A control character of a path is shown as `?`.
///
/// The only error is want of memory.
#[tactic(auto, unfolding(crate::specs::Table::table), using(crate::proofs::Sums::summary_within))]
pub fn table_text(alloc: Global, files: &[FileCoverage]) -> Result<Vec<u8>, AllocError>
    ensures { IfOk result (λ text. text.items ≡ table.table files.now) }
{
    let width = width_of(files);
    let rows = rows_of(alloc, files, width)?;
    let mut text = Vec::new(alloc);
    put_head(alloc, &mut text, width)?;
    put_all(alloc, &mut text, width, &rows.summary)?;
    put(&mut text, &rows.text)?;
    Ok(text)
}

fn width_of(files: &[FileCoverage]) -> usize
    ensures { result ≡ table.width_of files.now }
{
    let mut width = LEAST_WIDTH;
    for file in files {
        width = width.max(shown_width(file.path()));
    }
    width
}

// The rows of files, and what they come to.
#[derive(Drop)]
struct Rows {
    text: Vec<u8>,
    summary: Summary,
}

#[tactic(auto, using(crate::proofs::Sums::files_taken))]
fn rows_of(alloc: Global, files: &[FileCoverage], width: usize) -> Result<Rows, AllocError>
    ensures text { IfOk result (λ rows. rows.text.items ≡ flat_map (file_row width) files.now) }
    ensures summary { IfOk result (λ rows. rows.summary ≡ summary files.now) }
{
    let mut text = Vec::new(alloc);
    let mut summary = Summary::NOTHING;
    for file in files {
        let lines = line_counts(alloc, file)?;
        let own = Summary::with_lines(file, &lines);
        put_row(alloc, &mut text, width, file.path(), &own, &lines)?;
        summary = summary.plus(own);
    }
    Ok(Rows { text, summary })
}

fn put_head(alloc: Global, text: &mut Vec<u8>, width: usize) -> Result<(), AllocError>
    ensures { OnOk result (text.new.items ≡ text.old.items ++ head_row width) }
{
    put_name(alloc, text, width, "File")?;
    put_fields(text, "Lines", "Branch", "Funcs")?;
    put(text, b" | Uncovered\n")
}

fn put_all(
    alloc: Global,
    text: &mut Vec<u8>,
    width: usize,
    summary: &Summary,
) -> Result<(), AllocError>
    requires { IsWithin summary.now }
    ensures { OnOk result (text.new.items ≡ text.old.items ++ all_row width summary.now) }
{
    put_name(alloc, text, width, "All files")?;
    put_percents(alloc, text, summary)?;
    put(text, b"\n")
}

fn put_row(
    alloc: Global,
    text: &mut Vec<u8>,
    width: usize,
    path: &str,
    summary: &Summary,
    lines: &[LineCount],
) -> Result<(), AllocError>
    requires { IsWithin summary.now }
    ensures { OnOk result (text.new.items ≡ text.old.items ++ row width (cleaned path.now) (percents summary.now) (runs_field (runs (uncovered lines.now)))) }
{
    put_name(alloc, text, width, path)?;
    put_percents(alloc, text, summary)?;
    let uncovered = runs_of(alloc, lines)?;
    put_runs(text, &uncovered)?;
    put(text, b"\n")
}

fn put_percents(alloc: Global, text: &mut Vec<u8>, summary: &Summary) -> Result<(), AllocError>
    requires { IsWithin summary.now }
    ensures { OnOk result (text.new.items ≡ text.old.items ++ percents summary.now) }
{
    let lines = percent(alloc, summary.lines)?;
    let branches = percent(alloc, summary.branches)?;
    let functions = percent(alloc, summary.functions)?;
    put_fields(text, &lines, &branches, &functions)
}
