//! Coverage files as they are written, by sinks in memory.
use cov_io::{MemSink, SinkFault, SureSink};
use cov_text::Items;
use coverage_text::{CoverageFiles, write_files};
use istanbul_json::read_coverage;
use std::alloc::Global;
use std::test::Fail;

// Keys in byte order, an absent line, an escape, a branch of two locations, and a file with nothing in it.
const FILES: &str =
    r#"{"/a\"b.js":{"b":{"0":[3,0],"1":[]},"branchMap":{"0":{"line":1,"loc":{"end":{"column":4,"line":2},"start":{"column":0,"line":1}},"locations":[{"end":{"column":4,"line":1},"start":{"column":0,"line":1}},{"end":{"column":4,"line":2},"start":{"column":0,"line":2}}],"type":"if"},"1":{"line":null,"loc":{"end":{"column":null,"line":null},"start":{"column":0,"line":1}},"locations":[],"type":"branch"}},"f":{"0":18446744073709551615},"fnMap":{"0":{"decl":{"end":{"column":4,"line":1},"start":{"column":0,"line":1}},"line":1,"loc":{"end":{"column":4294967295,"line":2},"start":{"column":0,"line":1}},"name":"f\n"}},"path":"/a\"b.js","s":{"10":1,"2":0},"statementMap":{"10":{"end":{"column":4,"line":1},"start":{"column":0,"line":1}},"2":{"end":{"column":4,"line":2},"start":{"column":0,"line":2}}}},"/c.js":{"b":{},"branchMap":{},"f":{},"fnMap":{},"path":"/c.js","s":{},"statementMap":{}}}"#;

fn read(alloc: Global, text: &str) -> Result<CoverageFiles, Fail> {
    match read_coverage(alloc, text.as_bytes()) {
        Ok(files) => Ok(CoverageFiles::new(files)),
        Err(_) => Err("refused")?,
    }
}

#[test]
fn files_are_written_as_they_are_read(rt: HostRuntime) -> Result<(), Fail> {
    let alloc = rt.alloc();
    for text in [FILES, "{}"] {
        let files = read(alloc, text)?;
        let mut out = SureSink::new(alloc);
        write_files(alloc, &files, &mut out)?;
        assert!(rt; out.bytes.as_slice() == text.as_bytes());
        assert_eq!(rt; out.longest, text.len());
    }
    Ok(())
}

#[test]
fn a_sink_that_fails_is_told(rt: HostRuntime) -> Result<(), Fail> {
    let alloc = rt.alloc();
    let files = read(alloc, FILES)?;
    let mut out = MemSink::new(alloc, Items::from_slice(alloc, &[0])?);
    let answer = write_files(alloc, &files, &mut out);
    assert!(rt; matches!(answer, Err(SinkFault::Failed)));
    Ok(())
}
