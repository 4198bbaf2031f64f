//! Requests with a member that is absent, or of another kind.
use cov_messages::{Body, Command, ErrorCode, Flags, request_of};
use std::process::Abort;
use std::test::Fail;

#[test]
fn a_member_that_is_absent_or_of_another_kind_is_judged(rt: HostRuntime) -> Result<(), Fail> {
    let alloc = rt.alloc();
    for text in [
        "[]",
        "{}",
        "{\"method\":\"Profiler.enable\"}",
        "{\"id\":null,\"method\":\"Profiler.enable\"}",
        "{\"id\":\"1\",\"method\":\"Profiler.enable\"}",
        "{\"id\":-1,\"method\":\"Profiler.enable\"}",
        "{\"id\":1.5,\"method\":\"Profiler.enable\"}",
        "{\"id\":18446744073709551616,\"method\":\"Profiler.enable\"}",
        "{\"id\":1,\"method\":null}",
        "{\"id\":1,\"method\":1}",
    ] {
        let request = request_of(alloc, text)?;
        assert_eq!(rt; request.body, Body::Refused(ErrorCode::Invalid));
    }
    for text in [
        "{\"id\":1,\"method\":\"Profiler.enable\",\"params\":[]}",
        "{\"id\":1,\"method\":\"Profiler.disable\",\"params\":\"\"}",
        "{\"id\":1,\"method\":\"Profiler.startPreciseCoverage\",\"params\":{\"callCount\":null}}",
        "{\"id\":1,\"method\":\"Profiler.startPreciseCoverage\",\"params\":{\"detailed\":\"true\"}}",
        "{\"id\":1,\"method\":\"Profiler.startPreciseCoverage\",\"params\":{\"allowTriggeredUpdates\":0}}",
    ] {
        let request = request_of(alloc, text)?;
        assert_eq!(rt; request.body, Body::Refused(ErrorCode::BadParams));
    }
    let plain = request_of(
        alloc,
        "{\"id\":1,\"method\":\"Profiler.startPreciseCoverage\"}",
    )?;
    let flags = Flags {
        call_count: false,
        detailed: false,
        triggered: false,
    };
    assert_eq!(rt; plain.body, Body::Command(Command::Start(flags)));
    Ok(())
}
