ghost use Rattle.std.specs.Prelude.{◌≡◌, ◌<◌};

use cov_model::{FunctionReport, Steps, Text};
use cov_normal::{Items, Range, Runs, flat, is_normal, normal, runs_of};
use cov_ranges::check_ranges;
use cov_steps::StepFault;
use std::alloc::{AllocError, Global};
use std::marker::Brand;
use std::process::Abort;
use std::sync::ledger::{Blank, Ledger};
use std::test::Fail;

fn range(start: u32, end: u32, count: u64) -> Range {
    Range { start, end, count }
}

fn report_of(alloc: Global, ranges: &[Range]) -> Result<FunctionReport, AllocError> {
    Ok(FunctionReport {
        name: Text::from_text(alloc, "")?,
        block: true,
        ranges: Items::from_slice(alloc, ranges)?,
    })
}

// The runs of ranges that nest.
fn counts_of(alloc: Global, ranges: &[Range]) -> Result<Runs, Fail> {
    let report = report_of(alloc, ranges)?;
    check_ranges(&report)?;
    let runs = Runs::of(alloc, &report)?;
    Ok(runs)
}

// That these are the normal list of a root and runs, and come back from it.
fn check_runs(
    rt: &impl Abort,
    alloc: Global,
    root: u64,
    runs: &Runs,
    expected: &[Range],
) -> Result<(), Fail> {
    let list = normal(alloc, runs.start(), runs.end(), root, runs)?;
    assert_eq!(rt; list.as_slice(), expected, "of {runs:?}");
    assert!(rt; is_normal(alloc, list.as_slice())?, "{list:?}");
    let back = runs_of(alloc, list.as_slice())?;
    assert!(rt; back.agrees(runs), "{back:?} of {list:?}");
    Ok(())
}

// That the ranges, which nest, have this normal list.
fn check_normal(
    rt: &impl Abort,
    alloc: Global,
    ranges: &[Range],
    root: u64,
    expected: &[Range],
) -> Result<(), Fail> {
    let runs = counts_of(alloc, ranges)?;
    check_runs(rt, alloc, root, &runs, expected)
}

fn sum_of<L: Ledger>(alloc: Global, a: &Runs, b: &Runs, blank: Blank) -> Result<Runs, StepFault>
    requires name { blank.name ≡ L.name }
    requires parts { (blank.parts ≡ L.parts) × (0 < L.parts) }
    requires starts { a.now.start ≡ b.now.start }
    requires ends { a.now.end ≡ b.now.end }
{
    let mut steps: Steps<L> = Steps::new(blank);
    a.add(alloc, b, &mut steps)
}

#[test]
fn lists_a_sum(rt: HostRuntime) -> Result<(), Fail> {
    let alloc = rt.alloc();
    let one = [range(0, 100, 1), range(10, 50, 5), range(20, 30, 3)];
    let held = counts_of(alloc, &one)?;
    let added = counts_of(alloc, &[range(0, 100, 2), range(20, 60, 0)])?;
    assert_eq!(rt; held.start(), added.start());
    assert_eq!(rt; held.end(), added.end());
    let sum = sum_of::<Brand>(alloc, &held, &added, Blank::new(1))?;
    let expected = [
        range(0, 100, 3),
        range(10, 20, 7),
        range(30, 50, 5),
        range(50, 60, 1),
    ];
    check_runs(&rt, alloc, 3, &sum, &expected)
}

#[test]
fn keeps_a_range_whole(rt: HostRuntime) -> Result<(), Fail> {
    let alloc = rt.alloc();
    let branches = [
        range(0, 34, 1),
        range(13, 33, 10),
        range(19, 24, 4),
        range(24, 30, 6),
    ];
    check_normal(&rt, alloc, &branches, 1, &branches)?;
    let pieces = [
        range(0, 34, 1),
        range(13, 19, 10),
        range(19, 24, 4),
        range(24, 30, 6),
        range(30, 33, 10),
    ];
    check_normal(&rt, alloc, &pieces, 1, &branches)?;
    let runs = counts_of(alloc, &branches)?;
    let list = flat(alloc, runs.start(), runs.end(), 1, &runs)?;
    assert_eq!(rt; list.as_slice(), pieces.as_slice());
    let behind = [
        range(0, 10, 1),
        range(2, 7, 5),
        range(4, 6, 7),
        range(7, 9, 7),
    ];
    check_normal(&rt, alloc, &behind, 1, &behind)?;
    let hidden = [range(0, 10, 4), range(0, 10, 9)];
    check_normal(&rt, alloc, &hidden, 4, &hidden)?;
    check_normal(&rt, alloc, &[range(3, 3, 2)], 2, &[range(3, 3, 2)])
}

fn refused(rt: &impl Abort, alloc: Global, ranges: &[Range]) -> Result<(), Fail> {
    assert!(rt; !is_normal(alloc, ranges)?, "{ranges:?}");
    Ok(())
}

#[test]
fn refuses_other_lists(rt: HostRuntime) -> Result<(), Fail> {
    let alloc = rt.alloc();
    let root = range(0, 10, 1);
    refused(&rt, alloc, &[])?;
    refused(&rt, alloc, &[root, range(2, 6, 5), range(4, 8, 7)])?;
    refused(&rt, alloc, &[range(5, 4, 1)])?;
    refused(&rt, alloc, &[root, range(2, 7, 1)])?;
    refused(&rt, alloc, &[root, range(2, 4, 5), range(4, 7, 5)])?;
    refused(
        &rt,
        alloc,
        &[root, range(2, 9, 5), range(4, 6, 7), range(7, 9, 7)],
    )?;
    refused(
        &rt,
        alloc,
        &[root, range(2, 4, 5), range(4, 6, 7), range(6, 7, 5)],
    )?;
    refused(&rt, alloc, &[root, range(2, 7, 5), range(4, 9, 7)])
}

// Ranges that are each within the one before it, 100,000 of them.
#[test]
fn nests_deeply(rt: HostRuntime) -> Result<(), Fail> {
    let alloc = rt.alloc();
    let depth: u32 = 100_000;
    let mut ranges = Vec::new(alloc);
    for i in 0..depth {
        ranges.push(range(i, 2 * depth - i, u64::from(i) + 1))?;
    }
    let runs = counts_of(alloc, ranges.as_slice())?;
    let list = normal(alloc, runs.start(), runs.end(), 1, &runs)?;
    assert!(rt; list.as_slice() == ranges.as_slice());
    Ok(())
}
