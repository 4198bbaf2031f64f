//! Messages of the Profiler domain, by the texts that its clients and targets send.
use cov_messages::{
    Body, Command, ErrorCode, Flags, Message, Reply, message_of, reply_text, request_of,
    request_text,
};
use std::process::Abort;
use std::test::Fail;

#[test]
fn broken_requests_are_refused_by_their_first_fault(rt: HostRuntime) -> Result<(), Fail> {
    let alloc = rt.alloc();
    for (text, reply) in [
        (
            "{",
            "{\"error\":{\"code\":-32700,\"message\":\"Parse error\"}}",
        ),
        (
            "{\"id\":1}",
            "{\"error\":{\"code\":-32600,\"message\":\"Invalid request\"},\"id\":1}",
        ),
        (
            "{\"id\":2,\"method\":\"Debugger.enable\"}",
            "{\"error\":{\"code\":-32601,\"message\":\"Method not found\"},\"id\":2}",
        ),
        (
            "{\"id\":3,\"method\":\"Profiler.startPreciseCoverage\",\"params\":{\"callCount\":1}}",
            "{\"error\":{\"code\":-32602,\"message\":\"Invalid params\"},\"id\":3}",
        ),
        (
            "{\"id\":1.0,\"method\":\"Profiler.enable\"}",
            "{\"error\":{\"code\":-32600,\"message\":\"Invalid request\"}}",
        ),
        (
            "{\"id\":4,\"method\":\"Profiler.enable\",\"params\":null}",
            "{\"error\":{\"code\":-32602,\"message\":\"Invalid params\"},\"id\":4}",
        ),
    ] {
        let request = request_of(alloc, text)?;
        let Body::Refused(code) = request.body else {
            return Err(Fail::from("a command"));
        };
        let written = reply_text(alloc, request.id, &Reply::Refused(code))?;
        assert_eq!(rt; written.as_str(), reply);
    }
    Ok(())
}

#[test]
fn replies_are_written_compact(rt: HostRuntime) -> Result<(), Fail> {
    let alloc = rt.alloc();
    for (id, reply, text) in [
        (Some(1), Reply::Done, "{\"id\":1,\"result\":{}}"),
        (
            Some(2),
            Reply::Started,
            "{\"id\":2,\"result\":{\"timestamp\":0}}",
        ),
        (None, Reply::Done, "{\"result\":{}}"),
        (
            Some(4),
            Reply::Refused(ErrorCode::NotEnabled),
            "{\"error\":{\"code\":-32000,\"message\":\"Profiler is not enabled.\"},\"id\":4}",
        ),
        (
            Some(5),
            Reply::Refused(ErrorCode::NotStarted),
            "{\"error\":{\"code\":-32000,\"message\":\"Precise coverage has not been started.\"},\"id\":5}",
        ),
    ] {
        let written = reply_text(alloc, id, &reply)?;
        assert_eq!(rt; written.as_str(), text);
    }
    Ok(())
}

#[test]
fn a_written_request_is_read_back(rt: HostRuntime) -> Result<(), Fail> {
    let alloc = rt.alloc();
    let flags = Flags {
        call_count: true,
        detailed: true,
        triggered: false,
    };
    let text = request_text(alloc, 2, &Command::Start(flags))?;
    assert_eq!(rt;
        text.as_str(),
        "{\"id\":2,\"method\":\"Profiler.startPreciseCoverage\",\"params\":{\"allowTriggeredUpdates\":false,\"callCount\":true,\"detailed\":true}}"
    );
    for command in [
        Command::Enable,
        Command::Disable,
        Command::Start(flags),
        Command::Take,
        Command::Stop,
    ] {
        let text = request_text(alloc, 18446744073709551615, &command)?;
        let request = request_of(alloc, text.as_str())?;
        assert_eq!(rt; request.id, Some(18446744073709551615));
        assert_eq!(rt; request.body, Body::Command(command));
    }
    Ok(())
}

#[test]
fn received_texts_are_told_apart(rt: HostRuntime) -> Result<(), Fail> {
    let alloc = rt.alloc();
    assert!(rt;
        matches!(
            message_of(alloc, "{\"method\":\"Profiler.consoleProfileStarted\"}")?,
            Message::Event
        )
    );
    assert!(rt;
        matches!(
            message_of(alloc, "{\"id\":7,\"result\":{}}")?,
            Message::Answer { id: 7, body: _ }
        )
    );
    assert!(rt;
        matches!(
            message_of(
                alloc,
                "{\"id\":1,\"error\":{\"code\":-32000,\"message\":\"x\"}}"
            )?,
            Message::ErrorAnswer {
                id: 1,
                code: -32000
            }
        )
    );
    for text in [
        "{",
        "[]",
        "{\"id\":1}",
        "{\"id\":1,\"result\":[]}",
        "{\"id\":1,\"result\":{},\"error\":{}}",
    ] {
        assert!(rt; matches!(message_of(alloc, text)?, Message::Bad), "{text}");
    }
    Ok(())
}
