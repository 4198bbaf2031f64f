use cov_table::{
    Percent, Share, Summary, below, check_text, hundredths, misses, summary_of, table_text,
};
use istanbul_json::read_coverage;
use std::test::Fail;

// `a();` and `b();` on two lines, of which the second was never run.
const TWO_LINES: &str =
    r#"{"/a.js":{"b":{"0":[1],"1":[0]},"branchMap":{"0":{"line":1,"loc":{"end":{"column":4,"line":2},"start":{"column":0,"line":1}},"locations":[{"end":{"column":4,"line":2},"start":{"column":0,"line":1}}],"type":"branch"},"1":{"line":2,"loc":{"end":{"column":4,"line":2},"start":{"column":0,"line":2}},"locations":[{"end":{"column":4,"line":2},"start":{"column":0,"line":2}}],"type":"branch"}},"f":{},"fnMap":{},"path":"/a.js","s":{"0":1,"1":0},"statementMap":{"0":{"end":{"column":4,"line":1},"start":{"column":0,"line":1}},"1":{"end":{"column":4,"line":2},"start":{"column":0,"line":2}}}}}"#;

// Lines 1, 2, 3, 5, 7 and 8 were never run, line 6 was run, and line 4 isn't there.
const RUNS: &str =
    r#"{"r.js":{"path":"r.js","statementMap":{"0":{"start":{"line":8},"end":{}},"1":{"start":{"line":7},"end":{}},"2":{"start":{"line":6},"end":{}},"3":{"start":{"line":5},"end":{}},"4":{"start":{"line":3},"end":{}},"5":{"start":{"line":2},"end":{}},"6":{"start":{"line":1},"end":{}}},"fnMap":{},"branchMap":{},"s":{"0":0,"1":0,"2":1,"3":0,"4":0,"5":0,"6":0},"f":{},"b":{}}}"#;

// Three lines, of which the middle one was run.
const AROUND: &str =
    r#"{"r.js":{"path":"r.js","statementMap":{"0":{"start":{"line":1},"end":{}},"1":{"start":{"line":2},"end":{}},"2":{"start":{"line":3},"end":{}}},"fnMap":{},"branchMap":{},"s":{"0":0,"1":1,"2":0},"f":{},"b":{}}}"#;

// A path of 11 characters, of which four have 4 bytes and one is a control character, and a path of three characters. Of
// the functions of the second file one was never run.
const WIDE: &str =
    r#"{"/😀😀😀😀/a\n.js":{"path":"/😀😀😀😀/a\n.js","statementMap":{},"fnMap":{"0":{"name":"f","decl":{"start":{},"end":{}},"loc":{"start":{},"end":{}}}},"branchMap":{},"s":{},"f":{"0":18446744073709551615},"b":{}},"/é1":{"path":"/é1","statementMap":{},"fnMap":{"0":{"name":"f","decl":{"start":{},"end":{}},"loc":{"start":{},"end":{}}},"1":{"name":"g","decl":{"start":{},"end":{}},"loc":{"start":{},"end":{}}}},"branchMap":{},"s":{},"f":{"0":1,"1":0},"b":{}}}"#;

#[test]
fn writes_tables(rt: HostRuntime) -> Result<(), Fail> {
    let cases = [
        (
            TWO_LINES,
            "File      |  Lines | Branch |  Funcs | Uncovered\nAll files |  50.00 |  50.00 | 100.00\n/a.js     |  50.00 |  50.00 | 100.00 | 2\n",
        ),
        (
            "{}",
            "File      |  Lines | Branch |  Funcs | Uncovered\nAll files | 100.00 | 100.00 | 100.00\n",
        ),
        (
            RUNS,
            "File      |  Lines | Branch |  Funcs | Uncovered\nAll files |  14.28 | 100.00 | 100.00\nr.js      |  14.28 | 100.00 | 100.00 | 1-3,5,7-8\n",
        ),
        (
            AROUND,
            "File      |  Lines | Branch |  Funcs | Uncovered\nAll files |  33.33 | 100.00 | 100.00\nr.js      |  33.33 | 100.00 | 100.00 | 1,3\n",
        ),
        (
            WIDE,
            "File        |  Lines | Branch |  Funcs | Uncovered\nAll files   | 100.00 | 100.00 |  66.66\n/é1         | 100.00 | 100.00 |  50.00\n/😀😀😀😀/a?.js | 100.00 | 100.00 | 100.00\n",
        ),
    ];
    for (json, table) in cases {
        let files = read_coverage(rt.alloc(), json.as_bytes())?;
        let text = table_text(rt.alloc(), files.as_slice())?;
        assert_eq!(rt; text.as_slice(), table.as_bytes(), "of {json}");
    }
    Ok(())
}

#[test]
fn writes_missed_thresholds(rt: HostRuntime) -> Result<(), Fail> {
    let cases = [
        (TWO_LINES, (50, 60, 0), "branches 50.00 below 60\n"),
        (TWO_LINES, (50, 50, 0), ""),
        (TWO_LINES, (51, 0, 100), "lines 50.00 below 51\n"),
        (
            TWO_LINES,
            (100, 100, 100),
            "lines 50.00 below 100\nbranches 50.00 below 100\n",
        ),
        ("{}", (100, 100, 100), ""),
        (WIDE, (100, 100, 67), "functions 66.66 below 67\n"),
        (WIDE, (100, 100, 66), ""),
    ];
    for (json, (lines, branches, functions), missed) in cases {
        assert!(rt; lines <= 100 && branches <= 100 && functions <= 100);
        let files = read_coverage(rt.alloc(), json.as_bytes())?;
        let summary = summary_of(rt.alloc(), files.as_slice())?;
        let lines = Percent::new(lines);
        let branches = Percent::new(branches);
        let functions = Percent::new(functions);
        let text = check_text(rt.alloc(), &summary, lines, branches, functions)?;
        assert_eq!(rt; text.as_slice(), missed.as_bytes(), "of {json}");
        let is_missed = misses(&summary, lines, branches, functions);
        assert_eq!(rt; is_missed, !missed.is_empty(), "of {json}");
    }
    Ok(())
}

#[test]
fn adds_over_files(rt: HostRuntime) -> Result<(), Fail> {
    let files = read_coverage(rt.alloc(), WIDE.as_bytes())?;
    let summary = summary_of(rt.alloc(), files.as_slice())?;
    let expected = Summary {
        lines: Share { hit: 0, all: 0 },
        branches: Share { hit: 0, all: 0 },
        functions: Share { hit: 2, all: 3 },
    };
    assert_eq!(rt; summary, expected);
    Ok(())
}

#[test]
fn rounds_percentages_down(rt: HostRuntime) {
    let cases = [
        (2, 3, 6666),
        (1, 3, 3333),
        (1, 2, 5000),
        (0, 5, 0),
        (0, 0, 10000),
        (1, 10001, 0),
        (9999, 10000, 9999),
        (u64::MAX, u64::MAX, 10000),
        (u64::MAX - 1, u64::MAX, 9999),
    ];
    for (hit, all, expected) in cases {
        assert!(rt; hit <= all);
        assert_eq!(rt; hundredths(Share { hit, all }), expected, "{hit} of {all}");
    }
}

#[test]
fn is_not_below_at_equality(rt: HostRuntime) {
    let cases = [
        (2, 3, 67, true),
        (2, 3, 66, false),
        (1, 2, 50, false),
        (1, 2, 51, true),
        (0, 1, 0, false),
        (0, 0, 100, false),
        (u64::MAX, u64::MAX, 100, false),
        (u64::MAX - 1, u64::MAX, 100, true),
    ];
    for (hit, all, threshold, expected) in cases {
        assert!(rt; hit <= all && threshold <= 100);
        let found = below(Share { hit, all }, Percent::new(threshold));
        assert_eq!(rt; found, expected, "{hit} of {all} at {threshold}");
    }
}
