//! Which texts are read, and as what.
use cov_model::Range;
use snapshot_reader::{fast_reading, fast_text};
use std::process::Abort;
use std::test::Fail;

const TEXT: &str =
    "{\"timestamp\":1.5e3,\"result\":[{\"functions\":[{\"isBlockCoverage\":true,\"ranges\":[{\"count\":2,\"endOffset\":9,\"startOffset\":1,\"note\":[-0.5]}],\"functionName\":\"f\"}],\"url\":\"a.js\",\"url\":\"b.js\"}]}";

#[test]
fn members_come_in_any_order_and_the_last_of_one_key_is_read(rt: HostRuntime) -> Result<(), Fail> {
    let alloc = rt.alloc();
    let snapshot = fast_reading(alloc, TEXT.as_bytes()).ok_or("not read")?;
    assert_eq!(rt; snapshot.scripts().len(), 1);
    let script = snapshot.scripts().first().ok_or("no script")?;
    assert!(rt; script.url.as_text() == "b.js");
    let function = script.functions.as_slice().first().ok_or("no function")?;
    assert!(rt; function.name.as_text() == "f");
    assert!(rt; function.block);
    let range = function.ranges.as_slice().first().ok_or("no range")?;
    let wanted = Range {
        start: 1,
        end: 9,
        count: 2,
    };
    assert!(rt; *range == wanted);
    Ok(())
}

#[test]
fn texts_that_are_no_snapshot_are_not_read(rt: HostRuntime) -> Result<(), Fail> {
    let alloc = rt.alloc();
    for text in [
        "",
        "{}",
        "{\"result\":[]",
        "{\"result\":[]}x",
        "{\"result\":[],\"note\":1e400}",
    ] {
        assert!(rt; fast_text(alloc, text.as_bytes()).is_none(), "{text}");
    }
    for (text, maps) in [
        ("{\"result\":[]}", false),
        ("{\"source-map-cache\":{},\"result\":[]}", true),
    ] {
        let read = fast_text(alloc, text.as_bytes()).ok_or("not read")?;
        assert!(rt; read.maps.is_some() == maps, "{text}");
    }
    Ok(())
}
