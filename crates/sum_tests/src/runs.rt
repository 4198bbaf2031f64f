ghost use Rattle.std.specs.Prelude.{◌≡◌, ◌<◌, None};

use cov_model::{FunctionReport, Items, Text};
use cov_ranges::check_ranges;
use cov_steps::{Run, Runs, StepFault, Steps};
use std::alloc::{AllocError, Global};
use std::marker::Brand;
use std::process::Abort;
use std::sync::ledger::{Blank, Ledger};
use std::test::Fail;

fn run(start: u32, end: u32, count: u64) -> Run {
    Run { start, end, count }
}

fn report_of(alloc: Global, ranges: &[Run]) -> Result<FunctionReport, AllocError> {
    let name = Text::from_text(alloc, "")?;
    let ranges = Items::from_slice(alloc, ranges)?;
    Ok(FunctionReport {
        name,
        block: true,
        ranges,
    })
}

// The runs of ranges that nest.
fn runs_of(alloc: Global, ranges: &[Run]) -> Result<Runs, Fail> {
    let report = report_of(alloc, ranges)?;
    check_ranges(&report)?;
    let runs = Runs::of(alloc, &report)?;
    Ok(runs)
}

// The list of the runs, read one by one.
fn list_of<L: Ledger>(alloc: Global, runs: &Runs, blank: Blank) -> Result<Vec<Run>, AllocError>
    requires name { blank.name ≡ L.name }
    requires parts { (blank.parts ≡ L.parts) × (0 < L.parts) }
{
    let mut steps: Steps<L> = Steps::new(blank);
    let mut list = Vec::new(alloc);
    for i in 0..runs.len() {
        list.push(runs.get(i, &mut steps))?;
    }
    Ok(list)
}

fn sum_of<L: Ledger>(alloc: Global, a: &Runs, b: &Runs, blank: Blank) -> Result<Runs, StepFault>
    requires name { blank.name ≡ L.name }
    requires parts { (blank.parts ≡ L.parts) × (0 < L.parts) }
    requires starts { a.now.start ≡ b.now.start }
    requires ends { a.now.end ≡ b.now.end }
{
    let mut steps: Steps<L> = Steps::new(blank);
    a.add(alloc, b, &mut steps)
}

fn check_runs(
    rt: &impl Abort,
    alloc: Global,
    ranges: &[Run],
    expected: &[Run],
) -> Result<(), Fail> {
    let runs = runs_of(alloc, ranges)?;
    let list = list_of::<Brand>(alloc, &runs, Blank::new(1))?;
    assert_eq!(rt; list.as_slice(), expected, "the runs of {ranges:?}");
    Ok(())
}

#[test]
fn makes_the_longest_runs(rt: HostRuntime) -> Result<(), Fail> {
    let alloc = rt.alloc();
    let root = run(0, 10, 1);
    check_runs(&rt, alloc, &[root], &[root])?;
    check_runs(&rt, alloc, &[run(0, 0, 1)], &[])?;
    check_runs(&rt, alloc, &[root, run(5, 5, 7)], &[root])?;
    check_runs(
        &rt,
        alloc,
        &[run(0, 10, 4), run(0, 10, 9)],
        &[run(0, 10, 9)],
    )?;
    check_runs(
        &rt,
        alloc,
        &[run(0, 10, 5), run(2, 8, 5), run(4, 6, 5)],
        &[run(0, 10, 5)],
    )?;
    let touching = [root, run(2, 5, 3), run(5, 8, 3)];
    check_runs(
        &rt,
        alloc,
        &touching,
        &[run(0, 2, 1), run(2, 8, 3), run(8, 10, 1)],
    )?;
    let branches = [
        run(0, 34, 1),
        run(13, 33, 10),
        run(19, 24, 4),
        run(24, 30, 6),
    ];
    let expected = [
        run(0, 13, 1),
        run(13, 19, 10),
        run(19, 24, 4),
        run(24, 30, 6),
        run(30, 33, 10),
        run(33, 34, 1),
    ];
    check_runs(&rt, alloc, &branches, &expected)?;
    Ok(())
}

#[test]
fn takes_ranges_in_any_order(rt: HostRuntime) -> Result<(), Fail> {
    let alloc = rt.alloc();
    let inner_first = [run(0, 10, 1), run(4, 6, 5), run(2, 8, 3)];
    let expected = [
        run(0, 2, 1),
        run(2, 4, 3),
        run(4, 6, 5),
        run(6, 8, 3),
        run(8, 10, 1),
    ];
    check_runs(&rt, alloc, &inner_first, &expected)?;
    let twice = [
        run(2, 10, 4),
        run(3, 5, 6),
        run(2, 10, 9),
        run(3, 5, 7),
        run(4, 4, 8),
    ];
    check_runs(
        &rt,
        alloc,
        &twice,
        &[run(2, 3, 9), run(3, 5, 7), run(5, 10, 9)],
    )?;
    let later_first = [run(0, 10, 1), run(6, 10, 2), run(0, 3, 0)];
    check_runs(
        &rt,
        alloc,
        &later_first,
        &[run(0, 3, 0), run(3, 6, 1), run(6, 10, 2)],
    )?;
    Ok(())
}

fn check_sum(
    rt: &impl Abort,
    alloc: Global,
    a: &[Run],
    b: &[Run],
    expected: &[Run],
) -> Result<(), Fail> {
    let held = runs_of(alloc, a)?;
    let added = runs_of(alloc, b)?;
    assert_eq!(rt; held.start(), added.start());
    assert_eq!(rt; held.end(), added.end());
    let sum = sum_of::<Brand>(alloc, &held, &added, Blank::new(1))?;
    let list = list_of::<Brand>(alloc, &sum, Blank::new(1))?;
    assert_eq!(rt; list.as_slice(), expected, "the sum of {a:?} and {b:?}");
    Ok(())
}

#[test]
fn adds_at_each_offset(rt: HostRuntime) -> Result<(), Fail> {
    let alloc = rt.alloc();
    let nested = [run(0, 100, 1), run(10, 50, 5), run(20, 30, 3)];
    let other = [run(0, 100, 2), run(20, 60, 0)];
    let sums = [
        run(0, 10, 3),
        run(10, 20, 7),
        run(20, 30, 3),
        run(30, 50, 5),
        run(50, 60, 1),
        run(60, 100, 3),
    ];
    check_sum(&rt, alloc, &nested, &other, &sums)?;
    check_sum(&rt, alloc, &other, &nested, &sums)?;
    check_sum(&rt, alloc, &[run(3, 3, 1)], &[run(3, 3, 2)], &[])?;
    check_sum(
        &rt,
        alloc,
        &[run(0, 4, 1), run(0, 2, 3)],
        &[run(0, 4, 3), run(0, 2, 1)],
        &[run(0, 4, 4)],
    )?;
    check_sum(
        &rt,
        alloc,
        &[run(0, 4, u64::MAX)],
        &[run(0, 4, 0)],
        &[run(0, 4, u64::MAX)],
    )?;
    Ok(())
}

fn check_refusal(
    rt: &impl Abort,
    alloc: Global,
    a: &[Run],
    b: &[Run],
    expected: StepFault,
) -> Result<(), Fail> {
    let held = runs_of(alloc, a)?;
    let added = runs_of(alloc, b)?;
    assert_eq!(rt; held.start(), added.start());
    assert_eq!(rt; held.end(), added.end());
    let refusal = sum_of::<Brand>(alloc, &held, &added, Blank::new(1)).err();
    assert_eq!(rt; refusal, Some(expected), "the sum of {a:?} and {b:?}");
    Ok(())
}

#[test]
fn refuses_at_the_least_offset(rt: HostRuntime) -> Result<(), Fail> {
    let alloc = rt.alloc();
    let full = run(0, 10, u64::MAX);
    let at_once = StepFault::TooBig {
        offset: 0,
        held: u64::MAX,
        added: 1,
    };
    check_refusal(&rt, alloc, &[full], &[run(0, 10, 1)], at_once)?;
    let exchanged = StepFault::TooBig {
        offset: 0,
        held: 1,
        added: u64::MAX,
    };
    check_refusal(&rt, alloc, &[run(0, 10, 1)], &[full], exchanged)?;
    let within = StepFault::TooBig {
        offset: 5,
        held: u64::MAX,
        added: 2,
    };
    check_refusal(
        &rt,
        alloc,
        &[run(0, 10, 1), run(4, 8, u64::MAX)],
        &[run(0, 10, 0), run(5, 6, 2), run(7, 8, 3)],
        within,
    )?;
    let inside = StepFault::TooBig {
        offset: 2,
        held: u64::MAX,
        added: 1,
    };
    check_refusal(
        &rt,
        alloc,
        &[full, run(2, 4, u64::MAX)],
        &[run(0, 10, 0), run(2, 4, 1)],
        inside,
    )?;
    Ok(())
}

/// How many ranges are nested in each other.
const DEEP: u32 = 100_000;

// One of the ranges that are each within the one before it.
fn deep_range(place: u32) -> Run
    requires { place < 100000 }
{
    run(place, 200_000 - place, place as u64 + 1)
}

// The runs of these ranges, the root first, and then by rising or by falling starts.
fn deep_runs(alloc: Global, is_rising: bool) -> Result<Runs, Fail> {
    let mut ranges = Vec::new(alloc);
    ranges.push(deep_range(0))?;
    for place in 1..DEEP {
        let next = if is_rising {
            deep_range(place)
        } else {
            deep_range(DEEP - place)
        };
        ranges.push(next)?;
    }
    runs_of(alloc, &ranges)
}

#[test]
fn deep_nested_ranges(rt: HostRuntime) -> Result<(), Fail> {
    let alloc = rt.alloc();
    let rising = deep_runs(alloc, true)?;
    assert_eq!(rt; rising.len(), 199_999);
    assert_eq!(rt; rising.get_uncounted(0), run(0, 1, 1));
    assert_eq!(rt; rising.get_uncounted(1), run(1, 2, 2));
    assert_eq!(rt; rising.get_uncounted(99_999), run(99_999, 100_001, 100_000));
    assert_eq!(rt; rising.get_uncounted(199_997), run(199_998, 199_999, 2));
    let falling = deep_runs(alloc, false)?;
    assert!(rt; rising.agrees(&falling));
    Ok(())
}

#[test]
fn a_copy_agrees(rt: HostRuntime) -> Result<(), Fail> {
    let alloc = rt.alloc();
    let runs = runs_of(alloc, &[run(0, 10, 1), run(4, 6, 5)])?;
    let copy = runs.clone()?;
    assert!(rt; runs.agrees(&copy));
    let counts_more = runs_of(alloc, &[run(0, 10, 1), run(4, 6, 6)])?;
    assert!(rt; !runs.agrees(&counts_more));
    let without = runs_of(alloc, &[run(0, 0, 1)])?;
    let elsewhere = runs_of(alloc, &[run(1, 1, 1)])?;
    assert!(rt; !without.agrees(&elsewhere));
    Ok(())
}

// The next number of a linear congruential generator, below a bound.
fn pick(seed: &mut u64, below: u32) -> u32
    requires { 0 < below }
    ensures { result < below }
{
    *seed = seed
        .wrapping_mul(6364136223846793005)
        .wrapping_add(1442695040888963407);
    (*seed / 8589934592 % below as u64) as u32
}

// Some ranges that nest, over a root.
fn some_ranges(alloc: Global, seed: &mut u64, end: u32) -> Result<Vec<Run>, Fail>
    requires { end < 100 }
{
    let mut ranges = Vec::new(alloc);
    ranges.push(run(0, end, pick(seed, 3) as u64))?;
    for _ in 0..pick(seed, 12) {
        let start = pick(seed, end + 1);
        let length = pick(seed, end + 1);
        let more = run(start, end.min(start + length), pick(seed, 3) as u64);
        ranges.push(more)?;
        if check_ranges(&report_of(alloc, &ranges)?).is_err() {
            ranges.pop();
        }
    }
    Ok(ranges)
}

// The count at an offset, by going through the ranges.
fn plain_count(ranges: &[Run], offset: u32) -> u64 {
    let mut count = 0;
    let mut length = u32::MAX;
    for r in ranges {
        if r.start <= offset && offset < r.end && r.end.saturating_sub(r.start) <= length {
            count = r.count;
            length = r.end.saturating_sub(r.start);
        }
    }
    count
}

// The count at an offset, by going through runs.
fn run_count(list: &[Run], offset: u32) -> u64 {
    list.iter()
        .find(|r| r.start <= offset && offset < r.end)
        .map_or(99, |r| r.count)
}

// Whether runs lie end to end and no two neighbours have one count.
fn are_longest(list: &[Run], start: u32, end: u32) -> bool {
    let mut at = start;
    let mut last = None;
    for r in list {
        if r.start != at || r.end <= at || last == Some(r.count) {
            return false;
        }
        at = r.end;
        last = Some(r.count);
    }
    at == end
}

fn check_round(rt: &impl Abort, alloc: Global, seed: &mut u64) -> Result<(), Fail> {
    let end = pick(seed, 14);
    let one = some_ranges(alloc, seed, end)?;
    let other = some_ranges(alloc, seed, end)?;
    let held = runs_of(alloc, &one)?;
    let added = runs_of(alloc, &other)?;
    assert_eq!(rt; held.start(), added.start());
    assert_eq!(rt; held.end(), added.end());
    let sum = sum_of::<Brand>(alloc, &held, &added, Blank::new(1))?;
    let list = list_of::<Brand>(alloc, &held, Blank::new(1))?;
    let sums = list_of::<Brand>(alloc, &sum, Blank::new(1))?;
    assert!(rt; are_longest(&list, 0, end), "{list:?} of {one:?}");
    assert!(rt;
        are_longest(&sums, 0, end),
        "{sums:?} of {one:?} and {other:?}"
    );
    for offset in 0..end {
        let count = plain_count(&one, offset);
        let more = plain_count(&other, offset);
        assert_eq!(rt; run_count(&list, offset), count, "at {offset} of {one:?}");
        assert_eq!(rt;
            run_count(&sums, offset),
            count.saturating_add(more),
            "at {offset} of {one:?} and {other:?}"
        );
    }
    Ok(())
}

#[test]
fn agrees_with_a_plain_program(rt: HostRuntime) -> Result<(), Fail> {
    let alloc = rt.alloc();
    let mut seed = 1;
    for _ in 0..300 {
        check_round(&rt, alloc, &mut seed)?;
    }
    Ok(())
}
