//! Paths, anchors and spans on examples. A mapping's segments stand beside it, each with its generated line and column
//! and, behind `<`, its source, original line and original column.
use cov_text::{Items, Text};
use serde_json::Value;
use source_maps::{SourceMap, map_of};
use source_remap::{original_lines, original_span, path_of, source_path};
use std::alloc::Global;
use std::process::Abort;
use std::test::Fail;
use utf16_lines::LineTable;

const OUT: &str = "file:///app/out.js";

// The map with these sources, each as JSON, and mappings.
fn map_with(alloc: Global, sources: &str, mappings: &str) -> Result<SourceMap, Fail> {
    let text = format!(in alloc;
        "{{\"version\":3,\"sources\":[{sources}],\"mappings\":\"{mappings}\"}}"
    )?;
    let value = Value::from_str(alloc, text.as_str()).map_err(|_| "no JSON")?;
    match map_of(alloc, &value) {
        Ok(map) => Ok(map),
        Err(_) => Err(Fail::from("no map")),
    }
}

// Whether a path is this one, `-` standing for none.
fn check_path(rt: &impl Abort, path: &Option<Text>, wanted: &str, case: &str) {
    match path {
        Some(path) => assert_eq!(rt; path.as_text(), wanted, "{case}"),
        None => assert_eq!(rt; "-", wanted, "{case}"),
    }
}

#[test]
fn urls_of_files_have_these_paths(rt: HostRuntime) -> Result<(), Fail> {
    let alloc = rt.alloc();
    for (url, wanted) in [
        ("file:///a%20b.js?v=1", "/a b.js"),
        ("file:///a.js", "/a.js"),
        ("file:///", "/"),
        ("file:///a/../b//c", "/a/../b//c"),
        ("file:///a#b?c", "/a"),
        ("file:///a?b#c", "/a"),
        ("file:///a%3Fb%23c", "/a?b#c"),
        ("file:///100%#top", "/100%"),
        ("file:///%C3%A9", "/é"),
        ("file:///a?%00", "/a"),
    ] {
        check_path(&rt, &path_of(alloc, url)?, wanted, url);
    }
    Ok(())
}

#[test]
fn other_urls_have_no_path(rt: HostRuntime) -> Result<(), Fail> {
    let alloc = rt.alloc();
    for url in [
        "file://host/a.js",
        "node:fs",
        "",
        "file:",
        "file:/a.js",
        "file://",
        "FILE:///a.js",
        " file:///a.js",
        "file:///%ff",
        "file:///a%C3",
        "file:///a%00",
    ] {
        check_path(&rt, &path_of(alloc, url)?, "-", url);
    }
    Ok(())
}

// Whether the only source of the map of a script has this path, `-` standing for none.
fn check_source(
    rt: &impl Abort,
    alloc: Global,
    script: &str,
    source: &str,
    wanted: &str,
) -> Result<(), Fail> {
    let map = map_with(alloc, source, "")?;
    assert!(rt; map.sources().len() == 1);
    let path = source_path(alloc, &map, 0, script)?;
    check_path(rt, &path, wanted, source);
    Ok(())
}

#[test]
fn sources_have_these_paths(rt: HostRuntime) -> Result<(), Fail> {
    let alloc = rt.alloc();
    for (source, wanted) in [
        ("\"../lib/./x.ts\"", "/lib/x.ts"),
        ("\"x.ts\"", "/app/x.ts"),
        ("\"../../x\"", "/x"),
        ("\"../../../x/../y\"", "/y"),
        ("\"a//../b\"", "/app/a/b"),
        ("\"\"", "/app/"),
        ("\".\"", "/app"),
        ("\"..\"", "/"),
        ("\"...\"", "/app/..."),
        ("\"x?y#z%20\"", "/app/x?y#z%20"),
        ("\"/abs/../x\"", "/abs/../x"),
        ("\"file:///y%20z?v\"", "/y z"),
        ("\"1a:b\"", "/app/1a:b"),
        ("\":b\"", "/app/:b"),
        ("\"a/b:c\"", "/app/a/b:c"),
        ("\"a_b:c\"", "/app/a_b:c"),
        ("\"webpack:x\"", "-"),
        ("\"http://h/x\"", "-"),
        ("\"x1+y-z.w:q\"", "-"),
        ("\"file:x\"", "-"),
        ("\"file://host/x\"", "-"),
        ("null", "-"),
    ] {
        check_source(&rt, alloc, OUT, source, wanted)?;
    }
    Ok(())
}

#[test]
fn relative_sources_go_by_the_script(rt: HostRuntime) -> Result<(), Fail> {
    let alloc = rt.alloc();
    for (script, source, wanted) in [
        ("file:///out.js", "\"x\"", "/x"),
        ("file:///a/./b/../c/out.js?v", "\"x\"", "/a/c/x"),
        ("file:///a%20b/out.js", "\"x\"", "/a b/x"),
        ("file:///a%2Fb/out.js", "\"../x\"", "/a/x"),
        ("node:fs", "\"x\"", "-"),
        ("node:fs", "\"/x\"", "/x"),
        ("node:fs", "\"file:///x\"", "/x"),
        ("file:///%ff/out.js", "\"x\"", "-"),
    ] {
        check_source(&rt, alloc, script, source, wanted)?;
    }
    Ok(())
}

// The offsets of each line, commas between offsets and semicolons behind lines.
fn written(alloc: Global, lines: &[Items<u32>]) -> Result<String, Fail> {
    let mut text = String::new(alloc);
    for offsets in lines {
        let mut comma = "";
        for offset in offsets.as_slice() {
            let item = format!(in alloc; "{comma}{offset}")?;
            text.push_str(item.as_str())?;
            comma = ",";
        }
        text.push(';')?;
    }
    Ok(text)
}

// Whether the lines of a source have these anchors, over lines of these lengths in the generated code.
fn check_lines(
    rt: &impl Abort,
    alloc: Global,
    mappings: &str,
    source: u32,
    lengths: &[u32],
    wanted: &str,
) -> Result<(), Fail> {
    let map = map_with(alloc, "\"a\",\"b\"", mappings)?;
    let Ok(generated) = LineTable::of_lengths(alloc, lengths) else {
        return Err(Fail::from("no table"));
    };
    let lines = original_lines(alloc, &map, source, &generated, 3)?;
    let text = written(alloc, lines.as_slice())?;
    assert_eq!(rt; text.as_str(), wanted, "{mappings}");
    Ok(())
}

#[test]
fn lines_have_these_anchors(rt: HostRuntime) -> Result<(), Fail> {
    let alloc = rt.alloc();
    for (mappings, wanted) in [
        // 0:0<0:0:0, 1:0<0:2:0
        ("AAAA;AAEA", "0;;5;"),
        // 0:0<0:1:4, 0:2<0:1:2, 1:1<0:1:2
        ("AACI,EAAF;CAAA", ";2,6;;"),
        // 0:0<0:0:5, 0:3<0:0:1
        ("AAAK,GAAJ", "3;;;"),
        // 0:0<0:0:0, 0:0<0:4:0
        ("AAAA,AAIA", "0;;;"),
        // 0:0<0:7:0, 0:1<0:1:0
        ("AAOA,CANA", ";1;;"),
        // no segment
        ("", ";;;"),
    ] {
        check_lines(&rt, alloc, mappings, 0, &[4, 4, 0], wanted)?;
    }
    Ok(())
}

#[test]
fn only_segments_that_land_count(rt: HostRuntime) -> Result<(), Fail> {
    let alloc = rt.alloc();
    for (mappings, source, wanted) in [
        // 0:0, 0:2<0:0:0
        ("A,EAAA", 0, "2;;;"),
        // 0:0<0:0:7, 0:4<0:0:3, 0:5<0:0:0, the last behind its line
        ("AAAO,IAAJ,CAAH", 0, "4;;;"),
        // 0:1<0:0:7, 5:0<0:0:0, the last on no line
        ("CAAO;;;;;AAAP", 0, "1;;;"),
        // 0:0<0:0:6, 0:2<1:0:2
        ("AAAM,ECAJ", 0, "0;;;"),
        ("AAAM,ECAJ", 1, "2;;;"),
        // 0:0<0:0:0, and none of the other source
        ("AAAA", 1, ";;;"),
        ("AAAA", 2, ";;;"),
    ] {
        check_lines(&rt, alloc, mappings, source, &[4, 4], wanted)?;
    }
    check_lines(&rt, alloc, "AAAA;AAEA", 0, &[], ";;;")
}

#[test]
fn lines_below_none_have_no_list(rt: HostRuntime) -> Result<(), Fail> {
    let alloc = rt.alloc();
    let map = map_with(alloc, "\"a\"", "AAAA")?;
    let generated = LineTable::of(alloc, "a();")?;
    let lines = original_lines(alloc, &map, 0, &generated, 0)?;
    assert!(rt; lines.is_empty());
    Ok(())
}

// The source, first and last spot of a span, each number behind a blank.
fn span_text(
    alloc: Global,
    mappings: &str,
    lengths: &[u32],
    start: u32,
    end: u32,
) -> Result<String, Fail> {
    let map = map_with(alloc, "\"a\",\"b\"", mappings)?;
    let Ok(generated) = LineTable::of_lengths(alloc, lengths) else {
        return Err(Fail::from("no table"));
    };
    let text = match original_span(&map, &generated, start, end) {
        Some(span) => format!(in alloc;
            "{} {} {} {} {}",
            span.source, span.first.line, span.first.column, span.last.line, span.last.column
        )?,
        None => String::from_str(alloc, "-")?,
    };
    Ok(text)
}

#[test]
fn ranges_have_these_spans(rt: HostRuntime) -> Result<(), Fail> {
    let alloc = rt.alloc();
    for (mappings, start, end, wanted) in [
        // 0:0<0:0:0, 1:0<0:2:0
        ("AAAA;AAEA", 0, 10, "0 0 0 2 0"),
        ("AAAA;AAEA", 5, 9, "0 2 0 2 0"),
        ("AAAA;AAEA", 0, 5, "0 0 0 0 0"),
        // 0:0<0:0:0, 0:2<0:1:0
        ("AAAA,EACA", 0, 2, "0 0 0 0 0"),
        ("AAAA,EACA", 0, 3, "0 0 0 1 0"),
        ("AAAA,EACA", 1, 2, "0 0 0 0 0"),
        // 0:0<0:0:7, 0:2<0:0:9
        ("AAAO,EAAE", 1, 4, "0 0 7 0 9"),
        // 0:0<0:0:0, 0:0<0:4:0
        ("AAAA,AAIA", 0, 1, "0 4 0 4 0"),
        // 0:0<0:0:0, 0:2<1:0:0
        ("AAAA,ECAA", 2, 4, "1 0 0 0 0"),
        // 0:0<0:0:0, 0:2
        ("AAAA,E", 0, 2, "0 0 0 0 0"),
    ] {
        let text = span_text(alloc, mappings, &[4, 4, 0], start, end)?;
        assert_eq!(rt; text.as_str(), wanted, "{mappings} {start}..{end}");
    }
    Ok(())
}

#[test]
fn other_ranges_have_no_span(rt: HostRuntime) -> Result<(), Fail> {
    let alloc = rt.alloc();
    for (mappings, start, end) in [
        // 0:0<0:0:0, 1:0<0:2:0
        ("AAAA;AAEA", 5, 5),
        ("AAAA;AAEA", 9, 5),
        ("AAAA;AAEA", 0, 0),
        ("AAAA;AAEA", 0, 11),
        // 0:0<0:3:0, 0:2<0:1:9
        ("AAGA,EAFS", 0, 3),
        // 0:0<0:1:5, 0:2<0:1:3
        ("AACK,EAAF", 0, 3),
        // 0:0<0:0:0, 0:2<1:0:0
        ("AAAA,ECAA", 0, 3),
        // 0:2<0:0:0
        ("EAAA", 0, 3),
        // 0:0<0:0:0, 0:2
        ("AAAA,E", 0, 3),
        ("", 0, 3),
    ] {
        let text = span_text(alloc, mappings, &[4, 4, 0], start, end)?;
        assert_eq!(rt; text.as_str(), "-", "{mappings} {start}..{end}");
    }
    Ok(())
}

#[test]
fn offsets_past_the_units_count_as_the_units(rt: HostRuntime) -> Result<(), Fail> {
    let alloc = rt.alloc();
    for (start, end, wanted) in [
        (0, 4294967295, "0 0 0 2 0"),
        (20, 30, "0 2 0 2 0"),
        (4294967294, 4294967295, "0 2 0 2 0"),
    ] {
        let text = span_text(alloc, "AAAA;AAEA", &[4, 4], start, end)?;
        assert_eq!(rt; text.as_str(), wanted, "{start}..{end}");
    }
    let text = span_text(alloc, "AAAA;AAEA", &[], 0, 1)?;
    assert_eq!(rt; text.as_str(), "-");
    Ok(())
}
