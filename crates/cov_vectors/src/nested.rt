//! Ranges that are nested deep.
use crate::memory::store_of;
use cov_commands::{Ended, run_tool};
use cov_io::MemSink;
use cov_text::Items;
use std::alloc::{AllocError, Global};
use std::process::Abort;
use std::test::Fail;

/// How many ranges there are.
const RANGES: u32 = 100_000;

// A normal file of one function, whose ranges are each within the one before it.
fn nested_text(alloc: Global) -> Result<String, AllocError> {
    let mut text = String::from_str(
        alloc,
        "{\"result\":[{\"functions\":[{\"functionName\":\"\",\"isBlockCoverage\":true,\"ranges\":[",
    )?;
    for place in 0..RANGES {
        if place > 0 {
            text.push_str(",")?;
        }
        let count = place as u64 + 1;
        let end = 2 * RANGES as u64 - place as u64;
        let range = format!(in alloc;
            "{{\"count\":{count},\"endOffset\":{end},\"startOffset\":{place}}}"
        )?;
        text.push_str(range.as_str())?;
    }
    text.push_str("]}],\"scriptId\":\"0\",\"url\":\"file:///a.js\"}]}")?;
    Ok(text)
}

#[test]
fn deep_nested_ranges_come_back_as_they_stand(rt: HostRuntime) -> Result<(), Fail> {
    let alloc = rt.alloc();
    let text = nested_text(alloc)?;
    let files = [("cov/a.json", text.as_str())];
    let mut store = store_of(alloc, files.as_slice())?;
    let mut words = Vec::new(alloc);
    words.push(String::from_str(alloc, "merge")?)?;
    words.push(String::from_str(alloc, "cov")?)?;
    let mut out = MemSink::new(alloc, Items::new(alloc));
    let mut err = MemSink::new(alloc, Items::new(alloc));
    let ended = run_tool(alloc, words.as_slice(), &mut store, &mut out, &mut err);
    assert_eq!(rt; ended, Ended::Done);
    assert!(rt; out.inner.bytes.as_slice() == text.as_bytes());
    Ok(())
}
