//! Texts and lengths with the tables that the rules give them.
use cov_text::MAX_TEXT;
use std::alloc::Global;
use std::process::Abort;
use std::test::Fail;
use utf16_lines::{LengthFault, LineTable, Span, Spot};

// That a table has these units and these lines, each a start and an end.
fn check_table(rt: &impl Abort, name: &str, table: &LineTable, units: u32, spans: &[(u32, u32)]) {
    assert_eq!(rt; table.units(), units, "units of {name:?}");
    assert_eq!(rt; table.lines() as usize, spans.len(), "lines of {name:?}");
    for (i, (start, end)) in (0..table.lines()).zip(spans) {
        let span = Span {
            start: *start,
            end: *end,
        };
        assert_eq!(rt; table.line(i), Some(span), "line {i} of {name:?}");
    }
    assert_eq!(rt;
        table.line(table.lines()),
        None,
        "past the lines of {name:?}"
    );
}

// That a text has these units and these lines.
fn check_text(
    rt: &impl Abort,
    alloc: Global,
    text: &str,
    units: u32,
    spans: &[(u32, u32)],
) -> Result<(), Fail> {
    assert!(rt; text.len() <= MAX_TEXT);
    let table = LineTable::of(alloc, text)?;
    check_table(rt, text, &table, units, spans);
    Ok(())
}

#[test]
fn texts_have_these_lines(rt: HostRuntime) -> Result<(), Fail> {
    let alloc = rt.alloc();
    check_text(&rt, alloc, "", 0, &[])?;
    check_text(&rt, alloc, "a", 1, &[(0, 1)])?;
    check_text(&rt, alloc, "a\n", 2, &[(0, 1)])?;
    check_text(&rt, alloc, "ab\ncd", 5, &[(0, 2), (3, 5)])?;
    check_text(&rt, alloc, "\n", 1, &[(0, 0)])?;
    check_text(&rt, alloc, "\r\n", 2, &[(0, 0)])?;
    check_text(&rt, alloc, "\n\n\r\n", 4, &[(0, 0), (1, 1), (2, 2)])?;
    check_text(&rt, alloc, "x=\"😀\";\r\nyz", 11, &[(0, 7), (9, 11)])
}

#[test]
fn other_breaks_end_no_line(rt: HostRuntime) -> Result<(), Fail> {
    let alloc = rt.alloc();
    check_text(&rt, alloc, "\r", 1, &[(0, 1)])?;
    check_text(&rt, alloc, "a\rb", 3, &[(0, 3)])?;
    check_text(&rt, alloc, "a\r\r\nb", 5, &[(0, 2), (4, 5)])?;
    check_text(&rt, alloc, "\n\r", 2, &[(0, 0), (1, 2)])?;
    check_text(&rt, alloc, "a\u{2028}b\u{2029}", 4, &[(0, 4)])?;
    check_text(&rt, alloc, "\u{85}\u{0B}\u{0C}", 3, &[(0, 3)])
}

#[test]
fn characters_count_by_their_units(rt: HostRuntime) -> Result<(), Fail> {
    let alloc = rt.alloc();
    check_text(&rt, alloc, "é\r\n", 3, &[(0, 1)])?;
    check_text(&rt, alloc, "€\n€", 3, &[(0, 1), (2, 3)])?;
    check_text(&rt, alloc, "😀\n😀", 5, &[(0, 2), (3, 5)])?;
    check_text(&rt, alloc, "\r😀\r\n", 5, &[(0, 3)])?;
    check_text(&rt, alloc, "\u{FFFF}\u{10000}\u{10FFFF}", 5, &[(0, 5)])
}

// That lengths have these units and these lines.
fn check_lengths(
    rt: &impl Abort,
    alloc: Global,
    lengths: &[u32],
    units: u32,
    spans: &[(u32, u32)],
) -> Result<(), Fail> {
    let table = LineTable::of_lengths(alloc, lengths)?;
    check_table(rt, "lengths", &table, units, spans);
    Ok(())
}

#[test]
fn lengths_have_these_lines(rt: HostRuntime) -> Result<(), Fail> {
    let alloc = rt.alloc();
    check_lengths(&rt, alloc, &[], 0, &[])?;
    check_lengths(&rt, alloc, &[0], 0, &[(0, 0)])?;
    check_lengths(&rt, alloc, &[3], 3, &[(0, 3)])?;
    check_lengths(&rt, alloc, &[3, 0], 4, &[(0, 3), (4, 4)])?;
    check_lengths(&rt, alloc, &[0, 0, 2], 4, &[(0, 0), (1, 1), (2, 4)])?;
    let most = 4294967294;
    check_lengths(&rt, alloc, &[most], most, &[(0, most)])?;
    check_lengths(
        &rt,
        alloc,
        &[most - 1, 0],
        most,
        &[(0, most - 1), (most, most)],
    )
}

#[test]
fn lengths_past_the_limit_make_no_table(rt: HostRuntime) {
    let alloc = rt.alloc();
    let cases = [[4294967295, 0], [4294967294, 0], [1, 4294967293]];
    for lengths in cases {
        let fault = LineTable::of_lengths(alloc, &lengths).err();
        assert_eq!(rt; fault, Some(LengthFault::TooLong), "{lengths:?}");
    }
}

#[test]
fn offsets_have_these_spots(rt: HostRuntime) -> Result<(), Fail> {
    let table = LineTable::of(rt.alloc(), "x=\"😀\";\r\nyz")?;
    let cases = [
        (0, 0, 0),
        (5, 0, 5),
        (7, 0, 7),
        (8, 0, 7),
        (9, 1, 0),
        (11, 1, 2),
    ];
    for (offset, line, column) in cases {
        let spot = Spot { line, column };
        assert_eq!(rt; table.place(offset), Some(spot), "place of {offset}");
    }
    assert_eq!(rt; table.place(12), None);
    assert_eq!(rt; LineTable::of(rt.alloc(), "")?.place(0), None);
    Ok(())
}

#[test]
fn spots_have_these_offsets(rt: HostRuntime) -> Result<(), Fail> {
    let table = LineTable::of(rt.alloc(), "x=\"😀\";\r\nyz")?;
    let cases = [
        (0, 0, Some(0)),
        (0, 7, Some(7)),
        (0, 8, None),
        (1, 0, Some(9)),
        (1, 2, Some(11)),
        (1, 3, None),
        (2, 0, None),
    ];
    for (line, column, offset) in cases {
        let spot = Spot { line, column };
        assert_eq!(rt; table.offset(spot), offset, "offset of {spot:?}");
    }
    Ok(())
}
