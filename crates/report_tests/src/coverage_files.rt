//! Worked coverage files both ways. `cov_cases` plays every member of each kind.
use cov_text::Items;
use istanbul_json::{
    Branch, CoverageFault, FileCoverage, Loc, Mark, read_coverage, text_of, value_of,
};
use std::process::Abort;
use std::test::Fail;

const TWO_LINES: &str =
    "{\"/a.js\":{\"b\":{\"0\":[1],\"1\":[0]},\"branchMap\":{\"0\":{\"line\":1,\"loc\":{\"end\":{\"column\":4,\"line\":2},\"start\":{\"column\":0,\"line\":1}},\"locations\":[{\"end\":{\"column\":4,\"line\":2},\"start\":{\"column\":0,\"line\":1}}],\"type\":\"branch\"},\"1\":{\"line\":2,\"loc\":{\"end\":{\"column\":4,\"line\":2},\"start\":{\"column\":0,\"line\":2}},\"locations\":[{\"end\":{\"column\":4,\"line\":2},\"start\":{\"column\":0,\"line\":2}}],\"type\":\"branch\"}},\"f\":{},\"fnMap\":{},\"path\":\"/a.js\",\"s\":{\"0\":1,\"1\":0},\"statementMap\":{\"0\":{\"end\":{\"column\":4,\"line\":1},\"start\":{\"column\":0,\"line\":1}},\"1\":{\"end\":{\"column\":4,\"line\":2},\"start\":{\"column\":0,\"line\":2}}}}}";

fn mark(line: u32, column: u32) -> Mark {
    Mark {
        line: Some(line),
        column: Some(column),
    }
}

fn loc(line: u32, column: u32, end_line: u32, end_column: u32) -> Loc {
    Loc {
        start: mark(line, column),
        end: mark(end_line, end_column),
    }
}

/// The first file of a text that is read.
fn first(files: &Items<FileCoverage>) -> Result<&FileCoverage, Fail> {
    Ok(files.get(0).ok_or("no file")?)
}

fn check_branch(rt: &impl Abort, branch: &Branch, key: &str, wanted: Loc, count: u64) {
    assert!(rt; branch.key.as_text() == key && branch.kind.as_text() == "branch");
    assert!(rt; branch.loc == wanted && branch.line == wanted.start.line);
    assert!(rt; branch.locations.as_slice() == [wanted].as_slice());
    assert!(rt; branch.counts.as_slice() == [count].as_slice());
}

#[test]
fn two_lines_are_read_and_written(rt: HostRuntime) -> Result<(), Fail> {
    let alloc = rt.alloc();
    let Ok(files) = read_coverage(alloc, TWO_LINES.as_bytes()) else {
        panic!(rt; "refused");
    };
    let text = text_of(alloc, files.as_slice())?;
    assert!(rt; text.as_slice() == TWO_LINES.as_bytes());
    assert_eq!(rt; files.len(), 1);
    let file = first(&files)?;
    assert!(rt; file.path() == "/a.js" && file.functions().is_empty());
    let [one, two] = file.statements() else {
        panic!(rt; "statements");
    };
    assert!(rt; one.key.as_text() == "0" && one.loc == loc(1, 0, 1, 4) && one.count == 1);
    assert!(rt; two.key.as_text() == "1" && two.loc == loc(2, 0, 2, 4) && two.count == 0);
    let [whole, second] = file.branches() else {
        panic!(rt; "branches");
    };
    check_branch(&rt, whole, "0", loc(1, 0, 2, 4), 1);
    check_branch(&rt, second, "1", loc(2, 0, 2, 4), 0);
    let value = value_of(alloc, file)?;
    let inner = value.to_string(alloc)?;
    let around = format!(in alloc; "{{\"/a.js\":{inner}}}")?;
    assert!(rt; around.as_str() == TWO_LINES);
    Ok(())
}

#[test]
fn functions_and_open_ends_come_back(rt: HostRuntime) -> Result<(), Fail> {
    let alloc = rt.alloc();
    let text =
        "{\"a\":{\"b\":{},\"branchMap\":{},\"f\":{\"0\":18446744073709551615},\"fnMap\":{\"0\":{\"decl\":{\"end\":{\"column\":null,\"line\":null},\"start\":{\"column\":0,\"line\":4294967295}},\"line\":null,\"loc\":{\"end\":{\"column\":null,\"line\":7},\"start\":{\"column\":3,\"line\":2}},\"name\":\"f\\n\"}},\"path\":\"a\",\"s\":{\"10\":1,\"2\":0},\"statementMap\":{\"10\":{\"end\":{\"column\":1,\"line\":1},\"start\":{\"column\":0,\"line\":1}},\"2\":{\"end\":{\"column\":1,\"line\":2},\"start\":{\"column\":0,\"line\":2}}}}}";
    let Ok(files) = read_coverage(alloc, text.as_bytes()) else {
        panic!(rt; "refused");
    };
    let written = text_of(alloc, files.as_slice())?;
    assert!(rt; written.as_slice() == text.as_bytes());
    let file = first(&files)?;
    let [function] = file.functions() else {
        panic!(rt; "functions");
    };
    assert!(rt; function.name.as_text() == "f\n" && function.count == u64::MAX);
    assert!(rt; function.decl.start == mark(4294967295, 0) && function.line.is_none());
    assert!(rt; function.decl.end.line.is_none() && function.decl.end.column.is_none());
    assert!(rt; function.loc.start == mark(2, 3) && function.loc.end.line == Some(7));
    let [two, ten] = file.statements() else {
        panic!(rt; "statements");
    };
    assert!(rt; two.key.as_text() == "2" && two.count == 0);
    assert!(rt; ten.key.as_text() == "10" && ten.count == 1);
    Ok(())
}

#[test]
fn bytes_that_are_no_text_are_refused(rt: HostRuntime) {
    let fault = read_coverage(rt.alloc(), b"{\"\xff\":{}}").err();
    assert_eq!(rt; fault, Some(CoverageFault::Syntax));
}
