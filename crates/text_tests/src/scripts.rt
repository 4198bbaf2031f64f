//! The text of scripts, by sinks in memory.
use cov_io::SureSink;
use cov_model::{Entry, FunctionReport, Items, Range, Text};
use scripts_text::write_scripts;
use std::alloc::Global;
use std::test::Fail;

fn function(alloc: Global, name: &str, counts: &[u64]) -> Result<FunctionReport, Fail> {
    let mut ranges = Items::new(alloc);
    for count in counts {
        ranges.push(Range {
            start: 2,
            end: 7,
            count: *count,
        })?;
    }
    Ok(FunctionReport {
        name: Text::from_text(alloc, name)?,
        block: counts.len() > 1,
        ranges,
    })
}

#[test]
fn scripts_are_written_as_they_stand(rt: HostRuntime) -> Result<(), Fail> {
    let alloc = rt.alloc();
    let mut functions = Items::new(alloc);
    functions.push(function(alloc, "a\n", &[1, 0])?)?;
    functions.push(function(alloc, "", &[])?)?;
    let mut scripts = Vec::new(alloc);
    scripts.push(Entry {
        url: Text::from_text(alloc, "file:///\"")?,
        functions,
    })?;
    scripts.push(Entry {
        url: Text::from_text(alloc, "")?,
        functions: Items::new(alloc),
    })?;
    let mut out = SureSink::new(alloc);
    write_scripts(alloc, &scripts, &mut out)?;
    let wanted =
        r#"{"result":[{"functions":[{"functionName":"a\n","isBlockCoverage":true,"ranges":[{"count":1,"endOffset":7,"startOffset":2},{"count":0,"endOffset":7,"startOffset":2}]},{"functionName":"","isBlockCoverage":false,"ranges":[]}],"scriptId":"0","url":"file:///\""},{"functions":[],"scriptId":"1","url":""}]}"#;
    assert!(rt; out.bytes.as_slice() == wanted.as_bytes());
    assert_eq!(rt; out.longest, wanted.len());
    Ok(())
}
