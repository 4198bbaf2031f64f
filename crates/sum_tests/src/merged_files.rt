//! Which bytes are a normal file, on examples.
use cov_book::Book;
use cov_files::{
    NormalFault, TextFault, maps_of, normal_text, read_normal, read_snapshot, read_text,
    write_normal,
};
use cov_io::{MemSink, SinkFault, SureSink};
use cov_model::Items;
use source_maps::{EntryBody, MapEntry};
use std::alloc::Global;
use std::process::Abort;
use std::test::Fail;

const FRONT: &str =
    "{\"result\":[{\"functions\":[{\"functionName\":\"\",\"isBlockCoverage\":true,\"ranges\":[";

const BACK: &str = "]}],\"scriptId\":\"0\",\"url\":\"file:///a.js\"}]}";

/// The text of one function with these ranges, each `START..END=COUNT`, and with this behind them.
fn text_of(alloc: Global, ranges: &str, back: &str) -> Result<String, Fail> {
    let mut text = String::from_str(alloc, FRONT)?;
    let mut first = true;
    for range in ranges.split(" ") {
        let (bounds, count) = range.split_once("=").ok_or("no count")?;
        let (start, end) = bounds.split_once("..").ok_or("no end")?;
        let comma = if first { "" } else { "," };
        let item = format!(in alloc;
            "{comma}{{\"count\":{count},\"endOffset\":{end},\"startOffset\":{start}}}"
        )?;
        text.push_str(item.as_str())?;
        first = false;
    }
    text.push_str(back)?;
    Ok(text)
}

/// Checks that a text which is a snapshot is a normal file or none, and that the book of one is written as it again.
fn check_normal(
    rt: &impl Abort,
    alloc: Global,
    text: &str,
    normal: bool,
    case: &str,
) -> Result<(), Fail> {
    assert!(rt; read_snapshot(alloc, text.as_bytes()).is_ok(), "{case}");
    match read_normal(alloc, text.as_bytes()) {
        Ok(book) => {
            assert!(rt; normal, "{case}");
            let written = normal_text(alloc, &book)?;
            assert!(rt; written.as_slice() == text.as_bytes(), "{case}");
        }
        Err(fault) => {
            assert!(rt; !normal, "{case}");
            assert_eq!(rt; fault, NormalFault::NotNormal, "{case}");
        }
    }
    Ok(())
}

#[test]
fn one_list_of_ranges_is_normal(rt: HostRuntime) -> Result<(), Fail> {
    let alloc = rt.alloc();
    for (ranges, normal) in [
        ("0..10=1", true),
        ("0..100=3 10..20=7 30..50=5 50..60=1", true),
        ("0..100=3 10..15=7 15..20=7 30..50=5 50..60=1", false),
        ("0..100=3 10..20=8 30..50=5 50..60=1", true),
        ("0..100=3 10..20=3 30..50=5 50..60=1", false),
        ("0..100=3 30..50=5 10..20=7 50..60=1", false),
        ("0..34=1 13..33=10 19..24=4 24..30=6", true),
        ("0..34=1 13..19=10 19..24=4 24..30=6 30..33=10", false),
    ] {
        let text = text_of(alloc, ranges, BACK)?;
        check_normal(&rt, alloc, text.as_str(), normal, ranges)?;
    }
    Ok(())
}

#[test]
fn one_way_of_writing_is_normal(rt: HostRuntime) -> Result<(), Fail> {
    let alloc = rt.alloc();
    for (case, back, normal) in [
        ("as it is written", BACK, true),
        (
            "a space at the end",
            "]}],\"scriptId\":\"0\",\"url\":\"file:///a.js\"}]} ",
            false,
        ),
        (
            "another script id",
            "]}],\"scriptId\":\"1\",\"url\":\"file:///a.js\"}]}",
            false,
        ),
        (
            "members in another order",
            "]}],\"url\":\"file:///a.js\",\"scriptId\":\"0\"}]}",
            false,
        ),
        (
            "one url twice",
            "]}],\"scriptId\":\"0\",\"url\":\"file:///a.js\"},{\"functions\":[],\"scriptId\":\"1\",\"url\":\"file:///a.js\"}]}",
            false,
        ),
    ] {
        let text = text_of(alloc, "0..10=1", back)?;
        check_normal(&rt, alloc, text.as_str(), normal, case)?;
    }
    let cut = text_of(alloc, "0..10=1", "]}]")?;
    let fault = read_normal(alloc, cut.as_bytes()).err();
    assert_eq!(rt; fault, Some(NormalFault::NotNormal));
    Ok(())
}

/// The text of this many scripts of one function each.
fn many_scripts(alloc: Global, count: u32) -> Result<String, Fail> {
    let mut text = String::from_str(alloc, "{\"result\":[")?;
    for number in 0..count {
        let comma = if number > 0 { "," } else { "" };
        let script = format!(in alloc;
            "{comma}{{\"functions\":[{{\"functionName\":\"f\",\"isBlockCoverage\":true,\"ranges\":[{{\"count\":1,\"endOffset\":10,\"startOffset\":0}}]}}],\"scriptId\":\"{number}\",\"url\":\"file:///{number:05}.js\"}}"
        )?;
        text.push_str(script.as_str())?;
    }
    text.push_str("]}")?;
    Ok(text)
}

/// Checks that a write whose call of this number fails leaves the pieces before it.
fn check_failing(
    rt: &impl Abort,
    alloc: Global,
    book: &Book,
    text: &str,
    call: usize,
) -> Result<(), Fail> {
    let mut out = MemSink::new(alloc, Items::from_slice(alloc, &[call as u64])?);
    let answer = write_normal(alloc, book, &mut out);
    assert!(rt; matches!(answer, Err(SinkFault::Failed)), "{call}");
    let held = out.inner.bytes.as_slice();
    assert_eq!(rt; held.len() / 65536, call);
    assert!(rt; text.as_bytes().starts_with(held), "{call}");
    Ok(())
}

#[test]
fn five_thousand_scripts_go_in_pieces(rt: HostRuntime) -> Result<(), Fail> {
    let alloc = rt.alloc();
    let text = many_scripts(alloc, 5000)?;
    let Ok(book) = read_normal(alloc, text.as_bytes()) else {
        return Err(Fail::from("refused"));
    };
    let mut out = SureSink::new(alloc);
    write_normal(alloc, &book, &mut out)?;
    assert!(rt; out.bytes.as_slice() == text.as_bytes());
    assert_eq!(rt; out.longest, 65536);
    for call in 0..text.len().div_ceil(65536) {
        check_failing(&rt, alloc, &book, text.as_str(), call)?;
    }
    Ok(())
}

/// Each entry's url and its lengths, or `bad`, with a semicolon behind it.
fn entries_text(alloc: Global, entries: &[MapEntry]) -> Result<String, Fail> {
    let mut text = String::new(alloc);
    for entry in entries {
        text.push_str(entry.url.as_text())?;
        text.push('=')?;
        match &entry.body {
            EntryBody::Given { lengths, .. } => {
                for length in lengths.as_slice() {
                    let item = format!(in alloc; "{length},")?;
                    text.push_str(item.as_str())?;
                }
            }
            EntryBody::Bad => text.push_str("bad")?,
        }
        text.push(';')?;
    }
    Ok(text)
}

/// Checks what a text says of maps.
fn check_maps(rt: &impl Abort, alloc: Global, text: &str, wanted: &str) -> Result<(), Fail> {
    let Ok(entries) = maps_of(alloc, text.as_bytes()) else {
        return Err(Fail::from("refused"));
    };
    let said = entries_text(alloc, entries.as_slice())?;
    assert_eq!(rt; said.as_str(), wanted, "{text}");
    Ok(())
}

/// Checks what a text says of maps beside its snapshot.
fn check_both(rt: &impl Abort, alloc: Global, text: &str, wanted: &str) -> Result<(), Fail> {
    let Ok((_, entries)) = read_text(alloc, text.as_bytes()) else {
        return Err(Fail::from("refused"));
    };
    let said = entries_text(alloc, entries.as_slice())?;
    assert_eq!(rt; said.as_str(), wanted, "{text}");
    Ok(())
}

#[test]
fn texts_without_a_cache_have_no_entries(rt: HostRuntime) -> Result<(), Fail> {
    let alloc = rt.alloc();
    for text in [
        "[]",
        "3",
        "{}",
        "{\"result\":[]}",
        "{\"source-map-cache\":null}",
        "{\"source-map-cache\":[{}]}",
        "{\"source-map-cache\":\"u\"}",
        "{\"source-map-cache\":{}}",
    ] {
        check_maps(&rt, alloc, text, "")?;
    }
    Ok(())
}

#[test]
fn members_of_a_cache_are_these_entries(rt: HostRuntime) -> Result<(), Fail> {
    let alloc = rt.alloc();
    for (cache, wanted) in [
        ("\"u\":{\"data\":{},\"lineLengths\":[1,2]}", "u=1,2,;"),
        ("\"u\":{\"data\":3,\"lineLengths\":[],\"url\":7}", "u=;"),
        (
            "\"u\":{\"data\":{},\"lineLengths\":[4294967295]}",
            "u=4294967295,;",
        ),
        ("\"u\":{\"lineLengths\":[1]}", ""),
        ("\"u\":{\"data\":null,\"lineLengths\":[1]}", ""),
        ("\"u\":{\"data\":null,\"lineLengths\":7}", ""),
        ("\"u\":{\"data\":{}}", ""),
        ("\"u\":{\"data\":{},\"lineLengths\":null}", ""),
        ("\"u\":{}", ""),
        ("\"u\":null", "u=bad;"),
        ("\"u\":[]", "u=bad;"),
        ("\"u\":\"data\"", "u=bad;"),
        ("\"u\":{\"data\":{},\"lineLengths\":[1,\"2\"]}", "u=bad;"),
        ("\"u\":{\"data\":{},\"lineLengths\":[4294967296]}", "u=bad;"),
        ("\"u\":{\"data\":{},\"lineLengths\":[-1]}", "u=bad;"),
        ("\"u\":{\"data\":{},\"lineLengths\":[1.5]}", "u=bad;"),
        ("\"u\":{\"data\":{},\"lineLengths\":[null]}", "u=bad;"),
        ("\"u\":{\"data\":{},\"lineLengths\":3}", "u=bad;"),
        ("\"u\":{\"data\":{},\"lineLengths\":{}}", "u=bad;"),
        (
            "\"b\":3,\"a\":{\"data\":{},\"lineLengths\":[5]},\"Z\":{},\"B\":4",
            "B=bad;a=5,;b=bad;",
        ),
    ] {
        let text = format!(in alloc; "{{\"source-map-cache\":{{{cache}}},\"result\":[]}}")?;
        check_maps(&rt, alloc, text.as_str(), wanted)?;
        check_both(&rt, alloc, text.as_str(), wanted)?;
    }
    Ok(())
}

#[test]
fn the_last_of_equal_caches_counts(rt: HostRuntime) -> Result<(), Fail> {
    let alloc = rt.alloc();
    let text = "{\"source-map-cache\":{\"a\":3},\"result\":[],\"source-map-cache\":{\"b\":3}}";
    check_maps(&rt, alloc, text, "b=bad;")?;
    check_both(&rt, alloc, text, "b=bad;")
}

#[test]
fn one_reading_gives_both(rt: HostRuntime) -> Result<(), Fail> {
    let alloc = rt.alloc();
    let text =
        "{\"result\":[],\"source-map-cache\":{\"u\":{\"data\":{\"version\":3},\"lineLengths\":[1]}}}";
    let Ok((snapshot, entries)) = read_text(alloc, text.as_bytes()) else {
        return Err(Fail::from("refused"));
    };
    assert!(rt; snapshot.scripts().is_empty());
    let said = entries_text(alloc, entries.as_slice())?;
    assert_eq!(rt; said.as_str(), "u=1,;");
    match entries.as_slice() {
        [entry] => match &entry.body {
            EntryBody::Given { map, .. } => assert!(rt; map.get("version").is_some()),
            EntryBody::Bad => return Err(Fail::from("bad")),
        },
        _ => return Err(Fail::from("not one")),
    }
    Ok(())
}

#[test]
fn readings_have_these_faults(rt: HostRuntime) -> Result<(), Fail> {
    let alloc = rt.alloc();
    for text in ["", "{", "{\"result\":[]} x"] {
        assert!(rt;
            matches!(maps_of(alloc, text.as_bytes()), Err(TextFault::Syntax)),
            "{text}"
        );
        assert!(rt;
            matches!(read_text(alloc, text.as_bytes()), Err(TextFault::Syntax)),
            "{text}"
        );
    }
    let text = "{\"source-map-cache\":{}}";
    assert!(rt; maps_of(alloc, text.as_bytes()).is_ok());
    assert!(rt; matches!(read_text(alloc, text.as_bytes()), Err(TextFault::Shape(_))));
    Ok(())
}
