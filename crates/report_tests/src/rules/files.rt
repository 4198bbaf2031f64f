//! The coverage of files, of one part and of several.
ghost use Rattle.std.specs.Prelude.{◌≡◌, length, IfOk};
ghost use Rattle.utf16_lines.specs.Lines as lines;

use super::{loc, script, table_of};
use cov_text::MAX_TEXT;
use istanbul_json::{FileCoverage, Loc};
use istanbul_rules::{Part, direct_part, file_coverage};
use std::alloc::Global;
use std::process::Abort;
use std::test::Fail;

// How many lines a text has.
#[tactic(auto, unfolding(utf16_lines::specs::Lines::table_of))]
fn line_count(rt: &impl Abort, alloc: Global, text: &str) -> Result<usize, Fail>
    ensures { IfOk result (λ count. count ≡ length (lines.lines text.now)) }
{
    let table = table_of(rt, alloc, text)?;
    Ok(table.lines() as usize)
}

// The coverage of `/a.js`.
fn covered(
    rt: &impl Abort,
    alloc: Global,
    text: &str,
    parts: &[Part],
) -> Result<FileCoverage, Fail> {
    let lines = line_count(rt, alloc, text)?;
    assert!(rt; text.len() <= MAX_TEXT);
    for part in parts {
        assert_eq!(rt; part.lines.len(), lines);
    }
    let file = file_coverage(alloc, "/a.js", text, parts)?;
    Ok(file)
}

// The coverage of a text that is a script itself, by the ranges of its one function.
fn direct(
    rt: &impl Abort,
    alloc: Global,
    text: &str,
    ranges: &[(u32, u32, u64)],
) -> Result<FileCoverage, Fail> {
    let table = table_of(rt, alloc, text)?;
    let functions = script(alloc, ranges)?;
    let mut parts = Vec::new(alloc);
    parts.push(direct_part(alloc, &table, &functions)?)?;
    covered(rt, alloc, text, &parts)
}

// That a file's statement has this key, this location and this count.
fn check_statement(
    rt: &impl Abort,
    file: &FileCoverage,
    place: usize,
    key: &str,
    wanted: Loc,
    count: u64,
) {
    let found = match file.statements().get(place) {
        Some(s) => s.key.as_text() == key && s.loc == wanted && s.count == count,
        None => false,
    };
    assert!(rt; found, "statement {key}");
}

#[test]
fn each_line_with_a_count_is_a_statement(rt: HostRuntime) -> Result<(), Fail> {
    let text = "for (x of a) {\n  x ? f() : g();\n}\n";
    let file = direct(&rt, rt.alloc(), text, &[(0, 34, 1), (13, 33, 10)])?;
    assert!(rt; file.path() == "/a.js" && file.statements().len() == 3);
    check_statement(&rt, &file, 0, "0", loc((1, 0), (1, 14)), 1);
    check_statement(&rt, &file, 1, "1", loc((2, 0), (2, 16)), 10);
    check_statement(&rt, &file, 2, "2", loc((3, 0), (3, 1)), 10);
    let branch = match file.branches().get(1) {
        Some(b) => b.key.as_text() == "1" && b.loc == loc((1, 13), (3, 1)),
        None => false,
    };
    assert!(rt; branch && file.branches().len() == 2);
    let text = "a();\nb();/* c8 ignore start */\n";
    let file = direct(&rt, rt.alloc(), text, &[(0, 10, 1), (5, 9, 0)])?;
    assert!(rt; file.statements().len() == 1 && file.branches().len() == 1);
    check_statement(&rt, &file, 0, "0", loc((1, 0), (1, 4)), 1);
    Ok(())
}

#[test]
fn a_line_has_the_greatest_count_of_its_parts(rt: HostRuntime) -> Result<(), Fail> {
    let alloc = rt.alloc();
    let text = "a\nb\n";
    let table = table_of(&rt, alloc, text)?;
    let first = script(alloc, &[(0, 4, 1)])?;
    let second = script(alloc, &[(0, 4, 0), (2, 3, 7)])?;
    let mut parts = Vec::new(alloc);
    parts.push(direct_part(alloc, &table, &first)?)?;
    parts.push(direct_part(alloc, &table, &second)?)?;
    let file = covered(&rt, alloc, text, &parts)?;
    assert!(rt; file.statements().len() == 2 && file.branches().len() == 3);
    check_statement(&rt, &file, 0, "0", loc((1, 0), (1, 1)), 1);
    check_statement(&rt, &file, 1, "1", loc((2, 0), (2, 1)), 7);
    Ok(())
}
