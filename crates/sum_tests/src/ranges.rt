use cov_ranges::{CheckFault, FunctionReport, Range, RangeFault, check_ranges, count_at};
use cov_text::{Items, Text};
use std::alloc::{AllocError, Global};
use std::process::Abort;
use std::test::Fail;

fn range(start: u32, end: u32, count: u64) -> Range {
    Range { start, end, count }
}

fn report_of(alloc: Global, ranges: &[Range]) -> Result<FunctionReport, AllocError> {
    let name = Text::from_text(alloc, "f")?;
    let ranges = Items::from_slice(alloc, ranges)?;
    Ok(FunctionReport {
        name,
        block: true,
        ranges,
    })
}

// What the check answers, asserted against what is expected.
fn check_answer(
    rt: &impl Abort,
    alloc: Global,
    ranges: &[Range],
    expected: Option<RangeFault>,
) -> Result<(), Fail> {
    let report = report_of(alloc, ranges)?;
    let answer = check_ranges(&report);
    match expected {
        None => assert_eq!(rt; answer, Ok(()), "{ranges:?}"),
        Some(fault) => assert_eq!(rt; answer, Err(CheckFault::Bad(fault)), "{ranges:?}"),
    }
    Ok(())
}

#[test]
fn tells_the_first_fault(rt: HostRuntime) -> Result<(), Fail> {
    let alloc = rt.alloc();
    let root = range(0, 10, 1);
    check_answer(&rt, alloc, &[root], None)?;
    check_answer(&rt, alloc, &[range(0, 0, 1)], None)?;
    check_answer(&rt, alloc, &[root, range(5, 5, 7)], None)?;
    check_answer(&rt, alloc, &[root, range(4, 6, 5), range(2, 8, 5)], None)?;
    check_answer(&rt, alloc, &[], Some(RangeFault::NoRange))?;
    check_answer(
        &rt,
        alloc,
        &[root, range(6, 4, 1)],
        Some(RangeFault::Inverted { k: 1 }),
    )?;
    check_answer(
        &rt,
        alloc,
        &[range(6, 4, 1)],
        Some(RangeFault::Inverted { k: 0 }),
    )?;
    check_answer(
        &rt,
        alloc,
        &[root, range(8, 12, 1)],
        Some(RangeFault::Outside { k: 1 }),
    )?;
    check_answer(
        &rt,
        alloc,
        &[root, range(12, 11, 1)],
        Some(RangeFault::Inverted { k: 1 }),
    )?;
    Ok(())
}

#[test]
fn tells_the_first_that_is_crossed(rt: HostRuntime) -> Result<(), Fail> {
    let alloc = rt.alloc();
    let root = range(0, 10, 1);
    let second = Some(RangeFault::Crossing { k: 2, other: 1 });
    check_answer(&rt, alloc, &[root, range(2, 6, 1), range(4, 8, 1)], second)?;
    check_answer(&rt, alloc, &[root, range(4, 8, 1), range(2, 6, 1)], second)?;
    let third = Some(RangeFault::Crossing { k: 3, other: 1 });
    check_answer(
        &rt,
        alloc,
        &[root, range(2, 6, 1), range(3, 6, 1), range(4, 8, 1)],
        third,
    )?;
    let touching = [root, range(2, 6, 1), range(6, 8, 1), range(2, 8, 1)];
    check_answer(&rt, alloc, &touching, None)?;
    Ok(())
}

// Each range in the one before: `k..200000-k`, counted k + 1 times.
fn nested(alloc: Global) -> Result<Vec<Range>, AllocError> {
    let mut ranges = Vec::new(alloc);
    for k in 0..100000u32 {
        ranges.push(range(k, 200000 - k, u64::from(k) + 1))?;
    }
    Ok(ranges)
}

// A root with `3k..3k+2` in it.
fn siblings(alloc: Global) -> Result<Vec<Range>, AllocError> {
    let mut ranges = Vec::new(alloc);
    ranges.push(range(0, 300000, 1))?;
    for k in 0..100000u32 {
        ranges.push(range(3 * k, 3 * k + 2, 1))?;
    }
    Ok(ranges)
}

#[test]
fn checks_many_ranges(rt: HostRuntime) -> Result<(), Fail> {
    let alloc = rt.alloc();
    let deep = nested(alloc)?;
    check_answer(&rt, alloc, deep.as_slice(), None)?;
    let mut wide = siblings(alloc)?;
    check_answer(&rt, alloc, wide.as_slice(), None)?;
    wide.push(range(150001, 150004, 1))?;
    let crossing = RangeFault::Crossing {
        k: 100001,
        other: 50001,
    };
    check_answer(&rt, alloc, wide.as_slice(), Some(crossing))?;
    Ok(())
}

// The counts at some offsets, asserted one by one.
fn check_counts(
    rt: &impl Abort,
    alloc: Global,
    ranges: &[Range],
    expected: &[(u32, Option<u64>)],
) -> Result<(), Fail> {
    let report = report_of(alloc, ranges)?;
    check_ranges(&report)?;
    for (offset, count) in expected {
        assert_eq!(rt; count_at(&report, *offset), *count, "at {offset}");
    }
    Ok(())
}

#[test]
fn counts_the_innermost(rt: HostRuntime) -> Result<(), Fail> {
    let alloc = rt.alloc();
    let nested = [
        range(0, 34, 1),
        range(13, 33, 10),
        range(19, 24, 4),
        range(24, 30, 6),
    ];
    let at = [
        (0, Some(1)),
        (12, Some(1)),
        (13, Some(10)),
        (18, Some(10)),
        (19, Some(4)),
        (23, Some(4)),
    ];
    check_counts(&rt, alloc, &nested, &at)?;
    let behind = [
        (24, Some(6)),
        (29, Some(6)),
        (30, Some(10)),
        (32, Some(10)),
        (33, Some(1)),
        (34, None),
    ];
    check_counts(&rt, alloc, &nested, &behind)?;
    let twice = [
        range(2, 10, 4),
        range(3, 5, 6),
        range(2, 10, 9),
        range(3, 5, 7),
        range(4, 4, 8),
    ];
    check_counts(
        &rt,
        alloc,
        &twice,
        &[
            (1, None),
            (2, Some(9)),
            (3, Some(7)),
            (4, Some(7)),
            (5, Some(9)),
            (10, None),
        ],
    )?;
    check_counts(&rt, alloc, &[range(0, 0, 1)], &[(0, None), (1, None)])?;
    Ok(())
}
