use istanbul_json::read_coverage;
use lcov_text::{
    LineCount, Share, branches_share, functions_share, lcov_of, line_counts, lines_share,
};
use std::test::Fail;

// `a();` and `b();` on two lines, of which the second was never run.
const TWO_LINES: &str =
    r#"{"/a.js":{"b":{"0":[1],"1":[0]},"branchMap":{"0":{"line":1,"loc":{"end":{"column":4,"line":2},"start":{"column":0,"line":1}},"locations":[{"end":{"column":4,"line":2},"start":{"column":0,"line":1}}],"type":"branch"},"1":{"line":2,"loc":{"end":{"column":4,"line":2},"start":{"column":0,"line":2}},"locations":[{"end":{"column":4,"line":2},"start":{"column":0,"line":2}}],"type":"branch"}},"f":{},"fnMap":{},"path":"/a.js","s":{"0":1,"1":0},"statementMap":{"0":{"end":{"column":4,"line":1},"start":{"column":0,"line":1}},"1":{"end":{"column":4,"line":2},"start":{"column":0,"line":2}}}}}"#;

// Lines out of order, two statements on line 3, and one without a line.
const STATEMENTS: &str =
    r#"{"s.js":{"path":"s.js","statementMap":{"0":{"start":{"line":3},"end":{}},"1":{"start":{"line":1},"end":{}},"2":{"start":{"line":3},"end":{}},"3":{"start":{},"end":{"line":2}},"4":{"start":{"line":2},"end":{}}},"fnMap":{},"branchMap":{},"s":{"0":5,"1":0,"2":2,"3":9,"4":18446744073709551615},"f":{},"b":{}}}"#;

// Control characters in the path and in a name, and a function without a line.
const FUNCTIONS: &str =
    r#"{"a\u0007\u007f.js":{"path":"a\u0007\u007f.js","statementMap":{},"fnMap":{"0":{"name":"f\n","decl":{"start":{},"end":{}},"loc":{"start":{},"end":{}}},"1":{"name":"","line":2,"decl":{"start":{},"end":{}},"loc":{"start":{},"end":{}}}},"branchMap":{},"s":{},"f":{"0":7,"1":0},"b":{}}}"#;

// A branch of three locations without a line, one of no location, and one on line 4.
const BRANCHES: &str =
    r#"{"b.js":{"path":"b.js","statementMap":{},"fnMap":{},"branchMap":{"0":{"type":"if","loc":{"start":{},"end":{}},"locations":[{"start":{},"end":{}},{"start":{},"end":{}},{"start":{},"end":{}}]},"1":{"type":"if","loc":{"start":{},"end":{}},"locations":[]},"2":{"type":"branch","line":4,"loc":{"start":{},"end":{}},"locations":[{"start":{},"end":{}}]}},"s":{},"f":{},"b":{"0":[0,3,2],"1":[],"2":[0]}}}"#;

// Two files that say nothing.
const TWO_FILES: &str =
    r#"{"y":{"path":"y","statementMap":{},"fnMap":{},"branchMap":{},"s":{},"f":{},"b":{}},"x":{"path":"x","statementMap":{},"fnMap":{},"branchMap":{},"s":{},"f":{},"b":{}}}"#;

#[test]
fn writes_traces(rt: HostRuntime) -> Result<(), Fail> {
    let cases = [
        (
            TWO_LINES,
            "TN:\nSF:/a.js\nFNF:0\nFNH:0\nDA:1,1\nDA:2,0\nLF:2\nLH:1\nBRDA:1,0,0,1\nBRDA:2,1,0,0\nBRF:2\nBRH:1\nend_of_record\n",
        ),
        ("{}", ""),
        (
            STATEMENTS,
            "TN:\nSF:s.js\nFNF:0\nFNH:0\nDA:1,0\nDA:2,18446744073709551615\nDA:3,5\nLF:3\nLH:2\nBRF:0\nBRH:0\nend_of_record\n",
        ),
        (
            FUNCTIONS,
            "TN:\nSF:a??.js\nFN:0,f?\nFN:2,\nFNF:2\nFNH:1\nFNDA:7,f?\nFNDA:0,\nLF:0\nLH:0\nBRF:0\nBRH:0\nend_of_record\n",
        ),
        (
            BRANCHES,
            "TN:\nSF:b.js\nFNF:0\nFNH:0\nLF:0\nLH:0\nBRDA:0,0,0,0\nBRDA:0,0,1,3\nBRDA:0,0,2,2\nBRDA:4,2,0,0\nBRF:4\nBRH:2\nend_of_record\n",
        ),
        (
            TWO_FILES,
            "TN:\nSF:x\nFNF:0\nFNH:0\nLF:0\nLH:0\nBRF:0\nBRH:0\nend_of_record\nTN:\nSF:y\nFNF:0\nFNH:0\nLF:0\nLH:0\nBRF:0\nBRH:0\nend_of_record\n",
        ),
    ];
    for (json, trace) in cases {
        let files = read_coverage(rt.alloc(), json.as_bytes())?;
        let text = lcov_of(rt.alloc(), files.as_slice())?;
        assert_eq!(rt; text.as_slice(), trace.as_bytes(), "of {json}");
    }
    Ok(())
}

#[test]
fn counts_lines_functions_and_branches(rt: HostRuntime) -> Result<(), Fail> {
    let files = read_coverage(rt.alloc(), STATEMENTS.as_bytes())?;
    let lines = line_counts(rt.alloc(), files.get(0).ok_or("no file")?)?;
    let expected = [(1, 0), (2, u64::MAX), (3, 5)];
    assert_eq!(rt; lines.len(), 3);
    for (found, (line, count)) in lines.iter().zip(expected) {
        assert_eq!(rt; *found, LineCount { line, count });
    }
    assert_eq!(rt; lines_share(&lines), Share { hit: 2, all: 3 });
    let files = read_coverage(rt.alloc(), FUNCTIONS.as_bytes())?;
    let functions = files.get(0).ok_or("no file")?.functions();
    assert_eq!(rt; functions_share(functions), Share { hit: 1, all: 2 });
    let files = read_coverage(rt.alloc(), BRANCHES.as_bytes())?;
    let branches = files.get(0).ok_or("no file")?.branches();
    assert_eq!(rt; branches_share(branches), Share { hit: 2, all: 4 });
    Ok(())
}
