//! Strings as they are written, and what a sink is handed.
use cov_io::{MemSink, SinkFault};
use cov_text::Items;
use json_pieces::{finish, hand_over, put, put_number, put_quoted, put_string};
use std::test::Fail;

#[test]
fn strings_have_the_shortest_escapes(rt: HostRuntime) -> Result<(), Fail> {
    let alloc = rt.alloc();
    for (string, written) in [
        ("", "\"\""),
        ("plain é", "\"plain é\""),
        ("\"\\/", "\"\\\"\\\\/\""),
        ("\u{8}\u{c}\n\r\t", "\"\\b\\f\\n\\r\\t\""),
        ("\0\u{1f}\u{7f}", "\"\\u0000\\u001f\u{7f}\""),
    ] {
        let mut text = Vec::new(alloc);
        put_string(alloc, &mut text, string)?;
        assert!(rt; text.as_slice() == written.as_bytes(), "{written}");
    }
    let mut text = Vec::new(alloc);
    put(&mut text, b"[")?;
    put_number(&mut text, u64::MAX)?;
    put_quoted(alloc, &mut text, 50)?;
    assert!(rt; text.as_slice() == "[18446744073709551615\"50\"".as_bytes());
    Ok(())
}

#[test]
fn full_pieces_go_and_the_rest_stays(rt: HostRuntime) -> Result<(), Fail> {
    let alloc = rt.alloc();
    let mut text = vec![in alloc; b'x'; 140000]?;
    let mut out = MemSink::new(alloc, Items::new(alloc));
    hand_over(&mut out, &mut text)?;
    assert_eq!(rt; text.len(), 8928);
    assert_eq!(rt; out.inner.bytes.len(), 131072);
    assert_eq!(rt; out.inner.longest, 65536);
    finish(&mut out, &text)?;
    assert_eq!(rt; out.inner.bytes.len(), 140000);
    assert_eq!(rt; out.failing.calls, 3);
    Ok(())
}

#[test]
fn a_sink_that_fails_has_got_the_pieces_before(rt: HostRuntime) -> Result<(), Fail> {
    let alloc = rt.alloc();
    let text = vec![in alloc; b'x'; 140000]?;
    for (call, held) in [(0, 0), (1, 65536), (2, 131072)] {
        let mut out = MemSink::new(alloc, Items::from_slice(alloc, &[call])?);
        let answer = finish(&mut out, &text);
        assert!(rt; matches!(answer, Err(SinkFault::Failed)));
        assert_eq!(rt; out.inner.bytes.len(), held);
    }
    Ok(())
}
