//! The draws of one seed and its first snapshot, as known numbers.
use cov_model::{Entry, Range};
use made_snapshots::{Draws, made_scripts};
use std::process::Abort;
use std::test::Fail;

fn range(start: u32, end: u32, count: u64) -> Range {
    Range { start, end, count }
}

/// Checks the name and the ranges of the function at a place.
fn check_function(
    rt: &impl Abort,
    script: &Entry,
    place: usize,
    name: &str,
    ranges: &[Range],
) -> Result<(), Fail> {
    let function = script.functions.get(place).ok_or("no function")?;
    assert!(rt; function.name.as_text() == name);
    assert!(rt; function.block);
    assert!(rt; function.ranges.as_slice() == ranges);
    Ok(())
}

#[test]
fn the_first_draws_of_seed_1(rt: HostRuntime) -> Result<(), Fail> {
    let mut draws = Draws::new(1);
    for drawn in [
        16838, 5758, 10113, 17515, 31051, 5627, 23010, 7419, 16212, 4086, 2749, 12767,
    ] {
        assert_eq!(rt; draws.draw(), drawn);
    }
    Ok(())
}

#[test]
fn the_first_snapshot_of_seed_1(rt: HostRuntime) -> Result<(), Fail> {
    let mut draws = Draws::new(1);
    let scripts = made_scripts(rt.alloc(), &mut draws, 0)?;
    assert_eq!(rt; scripts.len(), 1);
    let script = scripts.get(0).ok_or("no script")?;
    assert!(rt; script.url.as_text() == "file:///made/0.js");
    assert_eq!(rt; script.functions.len(), 2);
    let outer = [
        range(0, 10000, 1),
        range(338, 1097, 3),
        range(2015, 2067, 2),
        range(4010, 4430, 2),
    ];
    check_function(&rt, script, 0, "", &outer)?;
    let inner = [range(8000, 9000, 1), range(8100, 8150, 2)];
    check_function(&rt, script, 1, "f", &inner)?;
    Ok(())
}
