//! What is counted of a file: its lines, its functions and its branch locations.
ghost use Rattle.std.specs.Prelude.{◌≡◌, ◌≤◌, [], map, IfOk, OnOk};
ghost use Rattle.lcov_text.specs.Counts.{counts_of_lines, counts_of_functions, counts_of_branches, share_of};
ghost use Rattle.lcov_text.specs.Counts as counts;
ghost use Rattle.lcov_text.specs.Counting.{line_count, with_line, with_statements, with_count, with_counts};

use istanbul_json::{Branch, FileCoverage, Function, Statement};
use std::alloc::{AllocError, Global};
use std::collections::BTreeMap;

/// A line of a file, from 1, and the greatest count of the statements that start there.
#[derive(Clone, Copy, Debug, PartialEq, Eq)]
pub struct LineCount {
    pub line: u32,
    pub count: u64,
}

/// How many of all were run. A number past 2^64-1 is told as that.
#[derive(Clone, Copy, Debug, PartialEq, Eq)]
pub struct Share {
    pub hit: u64,
    pub all: u64,
}

/// The lines of a file: those on which a statement starts, rising, each once, with the greatest count of the statements
/// that start there. A statement without a start line is passed over.
///
/// Takes time by the number of statements and its logarithm.
pub fn line_counts(alloc: Global, file: &FileCoverage) -> Result<Vec<LineCount>, AllocError>
    ensures { IfOk result (λ lines. lines.items ≡ counts.line_counts file.now) }
{
    let greatest = greatest_counts(alloc, file.statements())?;
    lines_of(alloc, &greatest)
}

fn lines_of(alloc: Global, greatest: &BTreeMap<u32, u64>) -> Result<Vec<LineCount>, AllocError>
    ensures { IfOk result (λ lines. lines.items ≡ map (λ e. line_count e.0 e.1) greatest.now.entries) }
{
    greatest
        .iter()
        .map(|(line, count)| LineCount {
            line: *line,
            count: *count,
        })
        .collect(alloc)
}

// The greatest count of each line.
fn greatest_counts(
    alloc: Global,
    statements: &[Statement],
) -> Result<BTreeMap<u32, u64>, AllocError>
    ensures { IfOk result (λ greatest. greatest.entries ≡ with_statements [] statements.now) }
{
    let mut greatest = BTreeMap::new(alloc);
    for statement in statements {
        add_statement(&mut greatest, statement)?;
    }
    Ok(greatest)
}

fn add_statement(greatest: &mut BTreeMap<u32, u64>, statement: &Statement) -> Result<(), AllocError>
    ensures { OnOk result (greatest.new.entries ≡ with_line greatest.old.entries statement.now.loc.start.line statement.now.count) }
{
    if let Some(line) = statement.loc.start.line {
        let known = greatest.get(&line).copied().unwrap_or(0);
        greatest.insert(line, known.max(statement.count))?;
    }
    Ok(())
}

/// How many lines were run, of how many.
#[tactic(auto, using(crate::proofs::Shares::share_taken))]
pub fn lines_share(lines: &[LineCount]) -> Share
    ensures value { result ≡ share_of (counts_of_lines lines.now) }
    ensures within { result.hit ≤ result.all }
{
    let mut share = Share { hit: 0, all: 0 };
    for line in lines {
        share.add(line.count);
    }
    share
}

/// How many functions were run, of how many.
#[tactic(auto, using(crate::proofs::Shares::share_taken))]
pub fn functions_share(functions: &[Function]) -> Share
    ensures value { result ≡ share_of (counts_of_functions functions.now) }
    ensures within { result.hit ≤ result.all }
{
    let mut share = Share { hit: 0, all: 0 };
    for function in functions {
        share.add(function.count);
    }
    share
}

/// How many locations of branches were run, of how many.
#[tactic(auto, using(crate::proofs::Shares::share_taken))]
pub fn branches_share(branches: &[Branch]) -> Share
    ensures value { result ≡ share_of (counts_of_branches branches.now) }
    ensures within { result.hit ≤ result.all }
{
    let mut share = Share { hit: 0, all: 0 };
    for branch in branches {
        share.add_all(branch.counts.as_slice());
    }
    share
}

impl Share {
    fn add_all(&mut self, counts: &[u64])
        ensures { self.new ≡ with_counts self.old counts.now }
    {
        for count in counts {
            self.add(*count);
        }
    }

    fn add(&mut self, count: u64)
        ensures { self.new ≡ with_count self.old count }
    {
        if count > 0 {
            self.hit = self.hit.saturating_add(1);
        }
        self.all = self.all.saturating_add(1);
    }
}
