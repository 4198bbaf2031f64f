//! What a session sees of a merged snapshot, by its flags.
ghost use Rattle.std.specs.Prelude.{◌≡◌, [], ◌∷◌, None, map, take, IfOk};
ghost use Rattle.cov_model.specs.Nesting.{range_fault, AreReportsNested};
ghost use Rattle.cov_steps.specs.Runs.{counted};
ghost use Rattle.cov_session.specs.View as spec;
ghost use Rattle.cov_session.specs.View.{at_most_one, cut, seen};

use cov_messages::Flags;
use cov_model::{Entry, FunctionReport, Items, Range, Snapshot};
use cov_normal::normal;
use cov_steps::Runs;
use std::alloc::{AllocError, Global};

/// What flags let see of a snapshot: without `call_count` each count is cut to at most 1, and the
/// list of each function is the normal one of the cut counts; without `detailed` each function
/// keeps its root alone and counts no blocks. An `AllocError` comes only for want of memory.
pub fn viewed(alloc: Global, flags: Flags, snapshot: &Snapshot) -> Result<Snapshot, AllocError>
    ensures { IfOk result (λ seen. seen ≡ spec.view flags snapshot.now) }
{
    let mut entries = Items::new(alloc);
    let scripts = snapshot.scripts();
    for entry in scripts {
        let functions = functions_seen(alloc, flags, entry.functions.as_slice())?;
        entries.push(Entry {
            url: entry.url.clone()?,
            functions,
        })?;
    }
    Ok(Snapshot::new(entries))
}

fn functions_seen(
    alloc: Global,
    flags: Flags,
    reports: &[FunctionReport],
) -> Result<Items<FunctionReport>, AllocError>
    requires { AreReportsNested reports.now }
    ensures { IfOk result (λ functions. functions ≡ map (seen flags) reports.now) }
{
    let mut functions = Items::new(alloc);
    for report in reports {
        functions.push(seen_report(alloc, flags, report)?)?;
    }
    Ok(functions)
}

fn seen_report(
    alloc: Global,
    flags: Flags,
    report: &FunctionReport,
) -> Result<FunctionReport, AllocError>
    requires { range_fault report.now.ranges ≡ None }
    ensures { IfOk result (λ one. one ≡ seen flags report.now) }
{
    let name = report.name.clone()?;
    let ranges = counted_list(alloc, flags, report)?;
    if flags.detailed {
        return Ok(FunctionReport {
            name,
            block: report.block,
            ranges,
        });
    }
    Ok(FunctionReport {
        name,
        block: false,
        ranges: root_of(alloc, ranges.as_slice())?,
    })
}

fn root_of(alloc: Global, ranges: &[Range]) -> Result<Items<Range>, AllocError>
    ensures { IfOk result (λ root. root ≡ take 1 ranges.now) }
{
    match ranges {
        [] => Ok(Items::new(alloc)),
        [root, ..] => one_range(alloc, *root),
    }
}

fn one_range(alloc: Global, range: Range) -> Result<Items<Range>, AllocError>
    ensures { IfOk result (λ ranges. ranges ≡ range ∷ []) }
{
    let mut ranges = Items::new(alloc);
    ranges.push(range)?;
    Ok(ranges)
}

fn counted_list(
    alloc: Global,
    flags: Flags,
    report: &FunctionReport,
) -> Result<Items<Range>, AllocError>
    requires { range_fault report.now.ranges ≡ None }
    ensures { IfOk result (λ ranges. ranges ≡ spec.counted flags report.now.ranges) }
{
    if flags.call_count {
        return Ok(report.ranges.clone()?);
    }
    cut_list(alloc, report)
}

fn cut_list(alloc: Global, report: &FunctionReport) -> Result<Items<Range>, AllocError>
    requires { range_fault report.now.ranges ≡ None }
    ensures { IfOk result (λ ranges. ranges ≡ cut report.now.ranges) }
{
    match report.ranges.as_slice() {
        [] => Ok(Items::new(alloc)),
        [root, rest @ ..] => cut_under(alloc, *root, rest, report),
    }
}

// The normal list of the cut counts of a report, whose ranges are a root and those behind it.
#[tactic(auto, using(crate::proofs::Cut::starts_there, crate::proofs::Cut::ends_there))]
fn cut_under(
    alloc: Global,
    root: Range,
    rest: &[Range],
    report: &FunctionReport,
) -> Result<Items<Range>, AllocError>
    requires is { report.now.ranges ≡ root ∷ rest.now }
    requires nested { range_fault report.now.ranges ≡ None }
    ensures { IfOk result (λ ranges. ranges ≡ cut report.now.ranges) }
{
    let runs = cut_runs(alloc, report)?;
    let list = normal(alloc, root.start, root.end, root.count.min(1), &runs)?;
    Ok(list)
}

#[tactic(auto, using(crate::proofs::Cut::fault_cut))]
fn cut_runs(alloc: Global, report: &FunctionReport) -> Result<Runs, AllocError>
    requires { range_fault report.now.ranges ≡ None }
    ensures { IfOk result (λ runs. runs ≡ counted (map at_most_one report.now.ranges)) }
{
    let cut = FunctionReport {
        name: report.name.clone()?,
        block: report.block,
        ranges: cut_ranges(alloc, report.ranges.as_slice())?,
    };
    Runs::of(alloc, &cut)
}

// Each range with its count cut to at most 1.
fn cut_ranges(alloc: Global, ranges: &[Range]) -> Result<Items<Range>, AllocError>
    ensures { IfOk result (λ cut. cut ≡ map at_most_one ranges.now) }
{
    let mut cut = Items::new(alloc);
    for range in ranges {
        cut.push(Range {
            start: range.start,
            end: range.end,
            count: range.count.min(1),
        })?;
    }
    Ok(cut)
}
