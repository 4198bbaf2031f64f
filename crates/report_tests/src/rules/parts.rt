//! What scripts give to files: the counts of lines, the branches and the functions.
use super::{loc, map_with, report, script, table_of};
use istanbul_rules::{Part, direct_part, mapped_part};
use std::alloc::Global;
use std::process::Abort;
use std::test::Fail;
use utf16_lines::LineTable;

type Spot = (u32, u32);

// That a branch of a part has this location and this count.
fn check_branch(rt: &impl Abort, part: &Part, place: usize, start: Spot, end: Spot, count: u64) {
    let found = match part.branches.get(place) {
        Some(branch) => branch.loc == loc(start, end) && branch.count == count,
        None => false,
    };
    assert!(rt; found, "branch {place}");
}

// That a text and the ranges of its one function give these lines and as many branches.
fn check_lines(
    rt: &impl Abort,
    alloc: Global,
    text: &str,
    ranges: &[(u32, u32, u64)],
    lines: &[Option<u64>],
    branches: usize,
) -> Result<Part, Fail> {
    let table = table_of(rt, alloc, text)?;
    let functions = script(alloc, ranges)?;
    let part = direct_part(alloc, &table, &functions)?;
    assert!(rt; part.lines.as_slice() == lines, "lines of {text:?}");
    assert!(rt; part.branches.len() == branches, "branches of {text:?}");
    Ok(part)
}

const LOOP: &str = "for (x of a) {\n  x ? f() : g();\n}\n";

#[test]
fn a_loop_with_a_conditional(rt: HostRuntime) -> Result<(), Fail> {
    let ranges = [
        (0, 34, 1),
        (13, 19, 10),
        (19, 24, 4),
        (24, 30, 6),
        (30, 33, 10),
    ];
    let lines = [Some(1), Some(1), Some(10)];
    let part = check_lines(&rt, rt.alloc(), LOOP, &ranges, &lines, 5)?;
    check_branch(&rt, &part, 0, (1, 0), (3, 1), 1);
    check_branch(&rt, &part, 1, (1, 13), (2, 4), 10);
    check_branch(&rt, &part, 2, (2, 4), (2, 9), 4);
    check_branch(&rt, &part, 3, (2, 9), (2, 15), 6);
    check_branch(&rt, &part, 4, (2, 15), (3, 1), 10);
    Ok(())
}

#[test]
fn the_last_range_over_a_whole_line_counts(rt: HostRuntime) -> Result<(), Fail> {
    let alloc = rt.alloc();
    let ranges = [(0, 34, 1), (13, 33, 10), (19, 24, 4), (24, 30, 6)];
    check_lines(&rt, alloc, LOOP, &ranges, &[Some(1), Some(10), Some(10)], 4)?;
    check_lines(&rt, alloc, "", &[(0, 0, 5)], &[], 0)?;
    let ranges = [(0, 5, 3), (1, 5, 0), (0, 4, 9)];
    let part = check_lines(&rt, alloc, "ab\ncd", &ranges, &[Some(9), Some(0)], 3)?;
    check_branch(&rt, &part, 1, (1, 1), (2, 2), 0);
    Ok(())
}

#[test]
fn ranges_within_pairs_and_line_ends(rt: HostRuntime) -> Result<(), Fail> {
    let alloc = rt.alloc();
    let ranges = [(0, 6, 1), (1, 5, 0), (0, 2, 4)];
    let part = check_lines(&rt, alloc, "😀\nb😀", &ranges, &[Some(4), Some(1)], 3)?;
    check_branch(&rt, &part, 1, (1, 1), (2, 2), 0);
    check_branch(&rt, &part, 2, (1, 0), (1, 2), 4);
    let ranges = [(0, 100, 2), (0, 2, 7), (3, 4, 9)];
    let part = check_lines(&rt, alloc, "ab\r\ncd", &ranges, &[Some(7), Some(2)], 3)?;
    check_branch(&rt, &part, 0, (1, 0), (2, 2), 2);
    check_branch(&rt, &part, 2, (1, 2), (2, 0), 9);
    Ok(())
}

#[test]
fn functions_have_a_name_and_branches_a_flag(rt: HostRuntime) -> Result<(), Fail> {
    let alloc = rt.alloc();
    let table = table_of(&rt, alloc, "f(x)\n\ng(y);\n")?;
    let mut functions = Vec::new(alloc);
    functions.push(report(alloc, "", true, &[(0, 11, 1)])?)?;
    functions.push(report(alloc, "g", false, &[(6, 11, 4)])?)?;
    let part = direct_part(alloc, &table, &functions)?;
    assert!(rt; part.branches.len() == 1 && part.functions.len() == 1);
    let named = match part.functions.get(0) {
        Some(f) => f.name.as_text() == "g" && f.loc == loc((3, 0), (3, 5)) && f.count == 4,
        None => false,
    };
    assert!(rt; named);
    Ok(())
}

// That a script of two lines gives a source of its map these lines.
fn check_mapped(
    rt: &impl Abort,
    alloc: Global,
    mappings: &str,
    source: u32,
    lines: &[Option<u64>],
) -> Result<Part, Fail> {
    let table = table_of(rt, alloc, "a();\n// note\nb();\n")?;
    let map = map_with(alloc, mappings)?;
    let Ok(generated) = LineTable::of_lengths(alloc, &[4, 4, 0]) else {
        return Err(Fail::from("no table"));
    };
    let functions = script(alloc, &[(0, 10, 1), (5, 9, 0)])?;
    let part = mapped_part(alloc, &table, &generated, &map, source, &functions)?;
    assert!(rt; part.lines.as_slice() == lines, "lines of {mappings}");
    Ok(part)
}

#[test]
fn a_source_has_the_counts_of_its_anchors(rt: HostRuntime) -> Result<(), Fail> {
    let alloc = rt.alloc();
    let part = check_mapped(&rt, alloc, "AAAA;AAEA", 0, &[Some(1), None, Some(0)])?;
    assert!(rt; part.branches.len() == 2);
    check_branch(&rt, &part, 0, (1, 0), (3, 4), 1);
    check_branch(&rt, &part, 1, (3, 0), (3, 4), 0);
    let part = check_mapped(&rt, alloc, "AAAA;AAEA", 1, &[None, None, None])?;
    assert!(rt; part.branches.is_empty());
    check_mapped(&rt, alloc, "AAAA;AAAA", 0, &[Some(1), None, None])?;
    check_mapped(&rt, alloc, "AAAG;AAAF", 0, &[Some(0), None, None])?;
    Ok(())
}
