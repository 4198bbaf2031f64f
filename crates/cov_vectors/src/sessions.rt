//! Sessions of `serve` and of `attach` that run at once.
use crate::calls::call;
use crate::meeting::{Meeting, MeetingNet};
use crate::memory::GOOD;
use cov_commands::Ended;
use cov_io::MemSink;
use cov_text::Items;
use std::process::Abort;
use std::test::Fail;

/// What a client that is enabled and does no more sends.
const ENABLE: &[&str] = &["{\"id\":1,\"method\":\"Profiler.enable\"}"];

/// What a peer answers that lets one snapshot be taken, that of the file `GOOD`.
const ANSWERS: &[&str] = &[
    "{\"id\":1,\"result\":{}}",
    "{\"id\":2,\"result\":{}}",
    "{\"method\":\"Profiler.consoleProfileStarted\"}",
    "{\"id\":3,\"result\":{\"result\":[{\"functions\":[{\"functionName\":\"\",\"isBlockCoverage\":true,\"ranges\":[{\"count\":1,\"endOffset\":10,\"startOffset\":0}]}],\"scriptId\":\"0\",\"url\":\"file:///a.js\"}]}}",
    "{\"id\":4,\"result\":{}}",
    "{\"id\":5,\"result\":{}}",
];

/// The sum of two such snapshots.
const TWICE: &str =
    "{\"result\":[{\"functions\":[{\"functionName\":\"\",\"isBlockCoverage\":true,\"ranges\":[{\"count\":2,\"endOffset\":10,\"startOffset\":0}]}],\"scriptId\":\"0\",\"url\":\"file:///a.js\"}]}";

#[test]
fn serve_runs_its_sessions_at_once(rt: HostRuntime) -> Result<(), Fail> {
    let alloc = rt.alloc();
    let meeting = Meeting::new();
    let mut net = MeetingNet::new(rt, &meeting, ENABLE);
    let mut out = MemSink::new(alloc, Items::new(alloc));
    let words = ["serve", "cov", "--port", "9229", "--sessions", "2"];
    let files = [("cov/a.json", GOOD)];
    let called = call(&rt, alloc, &words, &files, &mut net, &mut out)?;
    assert_eq!(rt; called.ended, Ended::Done);
    assert_eq!(rt; net.late(), 0, "links that waited in vain");
    assert!(rt;
        out.inner.bytes.as_slice()
            == "listening on 127.0.0.1:9229\nplayed 0 replied 0 discarded 0 unwatched 0 held 0\n".as_bytes()
    );
    Ok(())
}

#[test]
fn attach_records_its_sessions_at_once(rt: HostRuntime) -> Result<(), Fail> {
    let alloc = rt.alloc();
    let meeting = Meeting::new();
    let mut net = MeetingNet::new(rt, &meeting, ANSWERS);
    let mut out = MemSink::new(alloc, Items::new(alloc));
    let called = call(
        &rt,
        alloc,
        &["attach", "h:1/x", "h:2/x"],
        &[],
        &mut net,
        &mut out,
    )?;
    assert_eq!(rt; called.ended, Ended::Done);
    assert_eq!(rt; net.late(), 0, "links that waited in vain");
    assert!(rt; out.inner.bytes.as_slice() == TWICE.as_bytes());
    Ok(())
}
