//! From runs to the nested normal list, and back.
ghost use Rattle.std.specs.Prelude.{◌≡◌, ◌↔◌, ◌∷◌, ◌<◌, None, IsTrue, IfOk};
ghost use Rattle.cov_model.specs.Nested.{nested};
ghost use Rattle.cov_model.specs.Nesting.{range_fault, inner_count};
ghost use Rattle.cov_steps.specs.Runs.{count_in, counted};
ghost use Rattle.cov_normal.specs.NestedLaws.{IsNested};
ghost use Rattle.cov_normal.specs.Read.{HasRead};

use crate::nesting::Nesting;
use cov_model::{FunctionReport, Items, Range, Steps, Text};
use cov_ranges::{CheckFault, are_one, check_ranges};
use cov_steps::Runs;
use std::alloc::{AllocError, Global};
use std::marker::Brand;
use std::sync::ledger::{Blank, Ledger};

/// The normal list of a root and its counts, which is nested: the root with the count `root`, then the ranges inside it. Inside a
/// range, one begins at the first offset with another count than the range's, and goes up to the last offset with that
/// count before the range's own comes again; what is left on both sides is told in the same way. The runs are those of
/// this start and end, in UTF-16 units, and are gone through once, with a stack of the ranges that may go on.
pub fn normal(
    alloc: Global,
    start: u32,
    end: u32,
    root: u64,
    runs: &Runs,
) -> Result<Items<Range>, AllocError>
    requires starts { runs.now.start ≡ start }
    requires ends { runs.now.end ≡ end }
    ensures { IfOk result (λ ranges. ranges ≡ nested start end root (count_in runs.now.runs)) }
{
    let nesting = nesting_of::<Brand>(alloc, root, runs, Blank::new(1))?;
    Ok(Items::from_vec(nesting.finish(end)))
}

// The ranges of all runs, with a counter of steps that nobody reads.
fn nesting_of<L: Ledger>(
    alloc: Global,
    root: u64,
    runs: &Runs,
    blank: Blank,
) -> Result<Nesting, AllocError>
    requires name { blank.name ≡ L.name }
    requires parts { (blank.parts ≡ L.parts) × (0 < L.parts) }
    ensures { IfOk result (HasRead (count_in runs.now.runs) runs.now.start root runs.now.end) }
{
    let mut steps: Steps<L> = Steps::new(blank);
    let mut nesting = Nesting::new(alloc, runs.start(), root)?;
    for i in 0..runs.len() {
        nesting.go_on(runs.get(i, &mut steps))?;
    }
    Ok(nesting)
}

/// Whether a list of ranges is the normal list of its own root and innermost counts, whose root ends no sooner
/// than it starts. The error is want of memory.
pub fn is_normal(alloc: Global, ranges: &[Range]) -> Result<bool, AllocError>
    ensures { IfOk result (λ is. IsTrue is ↔ IsNested ranges.now) }
{
    match ranges {
        [] => Ok(false),
        [root, rest @ ..] => is_normal_under(alloc, *root, rest, ranges),
    }
}

// Whether ranges, which are a root and those behind it, are the normal list of their own counts.
fn is_normal_under(
    alloc: Global,
    root: Range,
    rest: &[Range],
    ranges: &[Range],
) -> Result<bool, AllocError>
    requires { ranges.now ≡ root ∷ rest.now }
    ensures { IfOk result (λ is. IsTrue is ↔ IsNested ranges.now) }
{
    if !nest(alloc, ranges)? {
        return Ok(false);
    }
    let list = list_of(alloc, root, rest, ranges)?;
    Ok(are_one(list.as_slice(), ranges))
}

// The normal list of the counts of ranges that nest, which are a root and those behind it.
fn list_of(
    alloc: Global,
    root: Range,
    rest: &[Range],
    ranges: &[Range],
) -> Result<Items<Range>, AllocError>
    requires is { ranges.now ≡ root ∷ rest.now }
    requires nests { range_fault ranges.now ≡ None }
    ensures { IfOk result (λ list. list ≡ nested root.start root.end root.count (inner_count ranges.now)) }
{
    let runs = counts_of(alloc, ranges)?;
    normal(alloc, root.start, root.end, root.count, &runs)
}

// Whether ranges nest.
fn nest(alloc: Global, ranges: &[Range]) -> Result<bool, AllocError>
    ensures { IfOk result (λ nest. IsTrue nest ↔ (range_fault ranges.now ≡ None)) }
{
    let report = report_of(alloc, ranges)?;
    match check_ranges(&report) {
        Ok(()) => Ok(true),
        Err(CheckFault::Bad(_)) => Ok(false),
        Err(CheckFault::NoMemory) => Err(AllocError),
    }
}

/// The runs of a normal list: at each offset of its root the innermost count, as `Runs::of` gives them of a
/// report with these ranges. The list is one that `is_normal` finds. The error is want of memory.
pub fn runs_of(alloc: Global, ranges: &[Range]) -> Result<Runs, AllocError>
    requires { IsNested ranges.now }
    ensures { IfOk result (λ runs. runs ≡ counted ranges.now) }
{
    counts_of(alloc, ranges)
}

// The runs of ranges that nest.
fn counts_of(alloc: Global, ranges: &[Range]) -> Result<Runs, AllocError>
    requires { range_fault ranges.now ≡ None }
    ensures { IfOk result (λ runs. runs ≡ counted ranges.now) }
{
    let report = report_of(alloc, ranges)?;
    Runs::of(alloc, &report)
}

// A report with these ranges.
fn report_of(alloc: Global, ranges: &[Range]) -> Result<FunctionReport, AllocError>
    ensures { IfOk result (λ report. report.ranges ≡ ranges.now) }
{
    Ok(FunctionReport {
        name: Text::from_text(alloc, "")?,
        block: true,
        ranges: Items::from_slice(alloc, ranges)?,
    })
}
