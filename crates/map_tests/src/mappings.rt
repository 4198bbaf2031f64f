//! Worked texts. `cov_cases` plays each fault at each place, and the way back.
ghost use Rattle.std.specs.Prelude.{◌≡◌, Some};

use cov_text::Items;
use std::alloc::Global;
use std::process::Abort;
use std::test::Fail;
use vlq_mappings::{Mappings, Origin, Segment, read_mappings, write_mappings};

fn mapped(column: u32, source: u32, line: u32, original: u32, name: Option<u32>) -> Segment
    ensures { result ≡ record { column = column; origin = Some (record { source = source; line = line; column = original; name = name }) } }
{
    let origin = Some(Origin {
        source,
        line,
        column: original,
        name,
    });
    Segment { column, origin }
}

// Whether the text is read as one line of these segments.
fn check_line(rt: &impl Abort, alloc: Global, text: &str, wanted: &[Segment]) {
    assert!(rt; text.len() < 1000);
    match read_mappings(alloc, text) {
        Ok(mappings) => match mappings.lines() {
            [line] => assert!(rt; line.as_slice() == wanted, "{text}"),
            _ => panic!(rt; "{text} has other lines"),
        },
        Err(fault) => panic!(rt; "{text}: {fault:?}"),
    }
}

#[test]
fn reads_segments_with_names(rt: HostRuntime) {
    let wanted = [
        mapped(6, 0, 0, 6, Some(0)),
        mapped(10, 0, 1, 2, Some(1)),
        mapped(22, 0, 1, 15, Some(2)),
    ];
    check_line(&rt, rt.alloc(), "MAAMA,IACJC,YAAaC", &wanted);
}

#[test]
fn reads_long_spellings_and_empty_segments(rt: HostRuntime) {
    let alloc = rt.alloc();
    let zero = mapped(0, 0, 0, 0, None);
    let unmapped = Segment {
        column: 2147483647,
        origin: None,
    };
    check_line(&rt, alloc, "gAAAA", &[zero]);
    check_line(&rt, alloc, "BAAA", &[zero]);
    check_line(&rt, alloc, "ggggggggggAAAA", &[zero]);
    check_line(&rt, alloc, "AAAA,,CAAC", &[zero, mapped(1, 0, 0, 1, None)]);
    check_line(&rt, alloc, "+/////D", &[unmapped]);
    check_line(&rt, alloc, "", &[]);
    check_line(&rt, alloc, ",,", &[]);
}

#[test]
fn reads_a_line_for_each_semicolon(rt: HostRuntime) -> Result<(), Fail> {
    let mappings = read_mappings(rt.alloc(), ";;AAAA")?;
    match mappings.lines() {
        [first, second, third] => {
            assert_eq!(rt; first.len(), 0);
            assert_eq!(rt; second.len(), 0);
            assert_eq!(rt; third.len(), 1);
        }
        _ => panic!(rt; "not three lines"),
    }
    Ok(())
}

#[test]
fn keeps_the_lines_that_it_is_made_of(rt: HostRuntime) -> Result<(), Fail> {
    let mut lines = Items::new(rt.alloc());
    lines.push(Items::from_slice(rt.alloc(), &[mapped(1, 2, 3, 4, None)])?)?;
    let mappings = Mappings::new(lines);
    assert_eq!(rt; mappings.lines().len(), 1);
    let text = write_mappings(rt.alloc(), &mappings)?;
    assert_eq!(rt; text.as_str(), "CEGI");
    Ok(())
}
