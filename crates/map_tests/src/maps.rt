//! Worked maps, every member of each kind, and the segment at a spot.
ghost use Rattle.std.specs.Prelude.{◌≡◌, Some};

use cov_text::Text;
use serde_json::Value;
use source_maps::{MapFault, MapField, MapSegment, SourceMap, map_of};
use std::alloc::{AllocError, Global};
use std::process::Abort;
use std::test::Fail;
use vlq_mappings::{Origin, VlqCause};

fn mapped(line: u32, column: u32, source: u32, original: u32) -> MapSegment
    ensures { result ≡ record { line = line; column = column; origin = Some (record { source = source; line = original; column = 0; name = None }) } }
{
    let origin = Some(Origin {
        source,
        line: original,
        column: 0,
        name: None,
    });
    MapSegment {
        line,
        column,
        origin,
    }
}

// What the map of a text is, `None` where the text is no JSON.
fn read(alloc: Global, text: &str) -> Option<Result<SourceMap, MapFault>> {
    match Value::from_str(alloc, text) {
        Ok(value) => Some(map_of(alloc, &value)),
        Err(_) => None,
    }
}

// Whether the text is refused with this fault.
fn check_fault(rt: &impl Abort, alloc: Global, text: &str, wanted: MapFault) {
    match read(alloc, text) {
        Some(Err(fault)) => assert!(rt; fault == wanted, "{text}: {fault:?}"),
        Some(Ok(_)) => panic!(rt; "{text} is a map"),
        None => panic!(rt; "{text} is no JSON"),
    }
}

// Whether the text is a map of these segments.
fn check_segments(rt: &impl Abort, alloc: Global, text: &str, wanted: &[MapSegment]) {
    match read(alloc, text) {
        Some(Ok(map)) => assert!(rt; map.segments() == wanted, "{text}"),
        Some(Err(fault)) => panic!(rt; "{text}: {fault:?}"),
        None => panic!(rt; "{text} is no JSON"),
    }
}

// Whether these are the texts, `-` standing for one that isn't given.
fn check_texts(rt: &impl Abort, texts: &[Option<Text>], wanted: &[&str]) {
    assert_eq!(rt; texts.len(), wanted.len());
    for (text, wanted) in texts.iter().zip(wanted) {
        match text {
            Some(text) => assert!(rt; text.as_text() == *wanted),
            None => assert!(rt; *wanted == "-"),
        }
    }
}

// A map of source `a` and no mapping, with this member in place of its own, and without it where the value is empty.
fn map_text(alloc: Global, name: &str, value: &str) -> Result<String, AllocError> {
    let members = [
        ("version", "3"),
        ("sources", "[\"a\"]"),
        ("mappings", "\"\""),
    ];
    let mut text = String::from_str(alloc, "{\"file\":0")?;
    for (other, given) in members {
        if other != name {
            push_member(&mut text, other, given)?;
        }
    }
    push_member(&mut text, name, value)?;
    text.push('}')?;
    Ok(text)
}

fn push_member(text: &mut String, name: &str, value: &str) -> Result<(), AllocError> {
    if value.is_empty() {
        return Ok(());
    }
    text.push_str(",\"")?;
    text.push_str(name)?;
    text.push_str("\":")?;
    text.push_str(value)
}

// An index map of one section at the start of the text.
fn index_text(alloc: Global, map: &str) -> Result<String, AllocError> {
    let head = "{\"version\":3,\"sections\":[{\"offset\":{\"line\":0,\"column\":0},\"map\":";
    let mut text = String::from_str(alloc, head)?;
    text.push_str(map)?;
    text.push_str("}]}")?;
    Ok(text)
}

// Whether a member with each of these values is named, in a plain map and in a section.
fn check_member(
    rt: &impl Abort,
    alloc: Global,
    name: &str,
    field: MapField,
    values: &[&str],
) -> Result<(), AllocError> {
    let inner = if field == MapField::Version {
        MapField::Map
    } else {
        field
    };
    for value in values {
        let map = map_text(alloc, name, value)?;
        check_fault(rt, alloc, map.as_str(), MapFault::Shape(field));
        let index = index_text(alloc, map.as_str())?;
        let wanted = MapFault::Section { k: 0, field: inner };
        check_fault(rt, alloc, index.as_str(), wanted);
    }
    Ok(())
}

#[test]
fn names_a_member_that_is_absent_or_of_another_kind(rt: HostRuntime) -> Result<(), Fail> {
    let alloc = rt.alloc();
    let any = ["", "null", "true", "7", "\"a\"", "[7]", "{}"];
    check_member(&rt, alloc, "version", MapField::Version, &any)?;
    check_member(
        &rt,
        alloc,
        "version",
        MapField::Version,
        &["3.0", "-3", "[3]"],
    )?;
    check_member(&rt, alloc, "sources", MapField::Sources, &any)?;
    let texts = ["", "null", "true", "7", "[7]", "{}"];
    check_member(&rt, alloc, "mappings", MapField::Mappings, &texts)?;
    Ok(())
}

#[test]
fn names_a_member_of_another_kind_that_may_be_absent(rt: HostRuntime) -> Result<(), Fail> {
    let alloc = rt.alloc();
    let roots = ["true", "7", "[7]", "{}"];
    check_member(&rt, alloc, "sourceRoot", MapField::SourceRoot, &roots)?;
    let contents = ["true", "7", "\"a\"", "[7]", "{}"];
    check_member(
        &rt,
        alloc,
        "sourcesContent",
        MapField::SourcesContent,
        &contents,
    )?;
    let names = ["null", "true", "7", "\"a\"", "[7]", "[null]", "{}"];
    check_member(&rt, alloc, "names", MapField::Names, &names)?;
    Ok(())
}

#[test]
fn takes_members_that_may_be_absent_or_null(rt: HostRuntime) -> Result<(), Fail> {
    let cases = [
        ("names", ""),
        ("names", "[\"n\"]"),
        ("sourceRoot", ""),
        ("sourceRoot", "null"),
        ("sourceRoot", "\"/r\""),
        ("sourcesContent", ""),
        ("sourcesContent", "null"),
        ("sourcesContent", "[null,\"x\"]"),
        ("sources", "[null,\"b\"]"),
    ];
    for (name, value) in cases {
        let map = map_text(rt.alloc(), name, value)?;
        check_segments(&rt, rt.alloc(), map.as_str(), &[]);
        let index = index_text(rt.alloc(), map.as_str())?;
        check_segments(&rt, rt.alloc(), index.as_str(), &[]);
    }
    Ok(())
}

#[test]
fn joins_the_sections_of_an_index_map(rt: HostRuntime) {
    let text =
        "{\"version\":3,\"sections\":[{\"offset\":{\"line\":0,\"column\":0},\"map\":{\"version\":3,\"sources\":[\"a\"],\"mappings\":\"AAAA\"}},{\"offset\":{\"line\":1,\"column\":4},\"map\":{\"version\":3,\"sources\":[\"b\"],\"mappings\":\"AAAA\"}}]}";
    let wanted = [mapped(0, 0, 0, 0), mapped(1, 4, 1, 0)];
    check_segments(&rt, rt.alloc(), text, &wanted);
    let exchanged =
        "{\"version\":3,\"sections\":[{\"offset\":{\"line\":1,\"column\":4},\"map\":{\"version\":3,\"sources\":[\"b\"],\"mappings\":\"AAAA\"}},{\"offset\":{\"line\":0,\"column\":0},\"map\":{\"version\":3,\"sources\":[\"a\"],\"mappings\":\"AAAA\"}}]}";
    check_fault(&rt, rt.alloc(), exchanged, MapFault::Order { k: 1 });
}

#[test]
fn names_the_first_fault_in_the_order_of_the_checks(rt: HostRuntime) {
    let cases = [
        ("[]", MapFault::Shape(MapField::Top)),
        (
            "{\"version\":2,\"sections\":7}",
            MapFault::Shape(MapField::Version),
        ),
        (
            "{\"version\":3,\"sections\":null}",
            MapFault::Shape(MapField::Sections),
        ),
        (
            "{\"version\":3,\"sections\":[7]}",
            MapFault::Section {
                k: 0,
                field: MapField::Sections,
            },
        ),
        (
            "{\"version\":3,\"sections\":[{}]}",
            MapFault::Section {
                k: 0,
                field: MapField::Offset,
            },
        ),
        (
            "{\"version\":3,\"sections\":[{\"offset\":{\"line\":0}}]}",
            MapFault::Section {
                k: 0,
                field: MapField::Offset,
            },
        ),
        (
            "{\"version\":3,\"sections\":[{\"offset\":{\"line\":0,\"column\":2147483648}}]}",
            MapFault::Section {
                k: 0,
                field: MapField::Offset,
            },
        ),
        (
            "{\"version\":3,\"sections\":[{\"offset\":{\"line\":0,\"column\":2147483647}}]}",
            MapFault::Section {
                k: 0,
                field: MapField::Map,
            },
        ),
        (
            "{\"version\":3,\"sections\":[{\"offset\":{\"line\":0,\"column\":0},\"map\":{\"version\":3,\"sections\":[]}}]}",
            MapFault::Section {
                k: 0,
                field: MapField::Map,
            },
        ),
        (
            "{\"version\":3,\"sources\":[\"a\"],\"names\":null,\"mappings\":7}",
            MapFault::Shape(MapField::Names),
        ),
        (
            "{\"version\":3,\"sources\":[],\"mappings\":\"AAAA,AA\"}",
            MapFault::Mappings {
                section: 0,
                place: 5,
                cause: VlqCause::Fields,
            },
        ),
        (
            "{\"version\":3,\"sources\":[\"a\"],\"mappings\":\"AAAA,CCAA\"}",
            MapFault::Index { segment: 1 },
        ),
        (
            "{\"version\":3,\"sources\":[\"a\"],\"mappings\":\"A,,;AAAAA\"}",
            MapFault::Index { segment: 1 },
        ),
    ];
    for (text, wanted) in cases {
        check_fault(&rt, rt.alloc(), text, wanted);
    }
}

#[test]
fn judges_a_section_whole_before_the_next(rt: HostRuntime) {
    let far =
        "{\"version\":3,\"sections\":[{\"offset\":{\"line\":2147483647,\"column\":0},\"map\":{\"version\":3,\"sources\":[],\"mappings\":\";A\"}},7]}";
    check_fault(&rt, rt.alloc(), far, MapFault::Far { k: 0 });
    let past =
        "{\"version\":3,\"sections\":[{\"offset\":{\"line\":2147483647,\"column\":0},\"map\":{\"version\":3,\"sources\":[],\"mappings\":\";AAAA\"}},7]}";
    check_fault(&rt, rt.alloc(), past, MapFault::Index { segment: 0 });
    let near =
        "{\"version\":3,\"sections\":[{\"offset\":{\"line\":2147483647,\"column\":0},\"map\":{\"version\":3,\"sources\":[],\"mappings\":\"A\"}},7]}";
    let wanted = MapFault::Section {
        k: 1,
        field: MapField::Sections,
    };
    check_fault(&rt, rt.alloc(), near, wanted);
    let second =
        "{\"version\":3,\"sections\":[{\"offset\":{\"line\":0,\"column\":0},\"map\":{\"version\":3,\"sources\":[],\"mappings\":\"\"}},{\"offset\":{\"line\":0,\"column\":0},\"map\":{\"version\":3,\"sources\":[],\"mappings\":\"D\"}}]}";
    let wanted = MapFault::Mappings {
        section: 1,
        place: 0,
        cause: VlqCause::Range,
    };
    check_fault(&rt, rt.alloc(), second, wanted);
}

#[test]
fn finds_the_last_of_the_greatest_column(rt: HostRuntime) {
    let text = "{\"version\":3,\"sources\":[\"a\"],\"mappings\":\"IAAA,AACA\"}";
    let Some(Ok(map)) = read(rt.alloc(), text) else {
        panic!(rt; "{text} is no map");
    };
    assert_eq!(rt; map.at(0, 9), Some(mapped(0, 4, 0, 1)));
    assert_eq!(rt; map.at(0, 4), Some(mapped(0, 4, 0, 1)));
    assert_eq!(rt; map.at(0, 3), None);
    assert_eq!(rt; map.at(1, 9), None);
}

#[test]
fn keeps_a_text_for_each_source(rt: HostRuntime) {
    let text =
        "{\"version\":3,\"sourceRoot\":\"/r\",\"sources\":[\"x\",null],\"sourcesContent\":[null,\"y\",\"z\"],\"names\":[\"n\"],\"mappings\":\"C,D\"}";
    let Some(Ok(map)) = read(rt.alloc(), text) else {
        panic!(rt; "{text} is no map");
    };
    check_texts(&rt, map.sources(), &["/r/x", "-"]);
    check_texts(&rt, map.contents(), &["-", "y"]);
    assert_eq!(rt; map.names().len(), 1);
    match map.segments() {
        [first, second] => assert!(rt; first.column == 0 && second.column == 1),
        _ => panic!(rt; "not two segments"),
    }
}
