//! What snapshots come to, on examples. How many runs an addition may look at is a law:
//! `cov_book::laws::runs_looked_at`.
ghost use Rattle.std.specs.Prelude.{◌≡◌, ◌<◌, None, IfOk};
ghost use Rattle.cov_model.specs.Nesting.{range_fault, AreReportsNested};

use cov_book::{AddFault, At, Book, Steps, SumFault, laws};
use cov_model::{Entry, FunctionReport, Items, Range, Snapshot, Text};
use cov_ranges::check_ranges;
use std::alloc::Global;
use std::marker::Brand;
use std::sync::ledger::{Blank, Ledger};
use std::test::*;

const A: &str = "file:///a.js";

const B: &str = "file:///b.js";

const GREATEST: u64 = 18446744073709551615;

fn range(start: u32, end: u32, count: u64) -> Range {
    Range { start, end, count }
}

fn report(alloc: Global, name: &str, block: bool, ranges: &[Range]) -> Result<FunctionReport, Fail>
    ensures { IfOk result (λ report. range_fault report.ranges ≡ None) }
{
    let report = FunctionReport {
        name: Text::from_text(alloc, name)?,
        block,
        ranges: Items::from_slice(alloc, ranges)?,
    };
    match check_ranges(&report) {
        Ok(()) => Ok(report),
        Err(_) => Err("ranges that do not nest".into()),
    }
}

/// A snapshot of one script with one function.
fn snapshot(alloc: Global, url: &str, block: bool, ranges: &[Range]) -> Result<Snapshot, Fail> {
    let mut functions = Items::new(alloc);
    functions.push(report(alloc, "", block, ranges)?)?;
    let mut scripts = Items::new(alloc);
    let url = Text::from_text(alloc, url)?;
    scripts.push(Entry { url, functions })?;
    Ok(Snapshot::new(scripts))
}

/// Adds a snapshot of one function, and tells the fault if it is refused.
fn add(
    alloc: Global,
    book: &mut Book,
    url: &str,
    block: bool,
    ranges: &[Range],
) -> Result<Option<SumFault>, Fail> {
    add_snapshot(book, &snapshot(alloc, url, block, ranges)?)
}

fn add_snapshot(book: &mut Book, snapshot: &Snapshot) -> Result<Option<SumFault>, Fail> {
    add_counted::<Brand>(book, snapshot, Blank::new(1))
}

fn add_counted<L: Ledger>(
    book: &mut Book,
    snapshot: &Snapshot,
    blank: Blank,
) -> Result<Option<SumFault>, Fail>
    requires name { blank.name ≡ L.name }
    requires parts { (blank.parts ≡ L.parts) × (0 < L.parts) }
{
    let mut steps: Steps<L> = Steps::new(blank);
    match book.add(snapshot, &mut steps) {
        Ok(()) => Ok(None),
        Err(AddFault::Sum(found)) => Ok(Some(found)),
        Err(AddFault::NoMemory) => Err("no memory".into()),
    }
}

/// Five runs, then three of the same function, then one of another script's.
fn three(alloc: Global) -> Result<Book, Fail> {
    let mut book = Book::new(alloc);
    let five = [range(0, 100, 1), range(10, 50, 5), range(20, 30, 3)];
    add(alloc, &mut book, A, true, &five)?;
    add(
        alloc,
        &mut book,
        A,
        false,
        &[range(0, 100, 2), range(20, 60, 0)],
    )?;
    add(alloc, &mut book, B, false, &[range(0, 10, 1)])?;
    Ok(book)
}

#[test]
fn runs_of_a_function(rt: HostRuntime) -> Result<(), Fail> {
    let book = three(rt.alloc())?;
    let runs = book.held(A, 0, 100, "").ok_or("no function")?;
    assert_eq!(rt; runs.len(), 6);
    assert_eq!(rt; runs.get_uncounted(0), range(0, 10, 3));
    assert_eq!(rt; runs.get_uncounted(1), range(10, 20, 7));
    assert_eq!(rt; runs.get_uncounted(2), range(20, 30, 3));
    assert_eq!(rt; runs.get_uncounted(3), range(30, 50, 5));
    assert_eq!(rt; runs.get_uncounted(4), range(50, 60, 1));
    assert_eq!(rt; runs.get_uncounted(5), range(60, 100, 3));
    assert!(rt; book.held(A, 0, 99, "").is_none());
    assert!(rt; book.held(B, 0, 100, "").is_none());
    Ok(())
}

#[test]
fn scripts_and_numbers(rt: HostRuntime) -> Result<(), Fail> {
    let alloc = rt.alloc();
    let book = three(alloc)?;
    let numbers = book.numbers(alloc)?;
    assert_eq!(rt;
        (numbers.scripts, numbers.functions, numbers.roots),
        (2, 2, 4)
    );
    let copy = book.copy(alloc)?;
    assert!(rt; book.agrees(&copy));
    assert!(rt; !book.agrees(&Book::new(alloc)));
    let scripts = copy.scripts(alloc)?;
    let first = scripts.scripts().first().ok_or("no script")?;
    let function = first.functions.get(0).ok_or("no function")?;
    assert!(rt; function.block);
    assert_eq!(rt; function.ranges.get(0).copied(), Some(range(0, 100, 3)));
    let flat = book.flat_scripts(alloc)?;
    assert_eq!(rt; flat.scripts().len(), 2);
    Ok(())
}

/// A script with two functions.
fn pair(
    alloc: Global,
    url: &str,
    first: FunctionReport,
    second: FunctionReport,
) -> Result<Entry, Fail>
    requires first { range_fault first.ranges ≡ None }
    requires second { range_fault second.ranges ≡ None }
    ensures { IfOk result (λ entry. AreReportsNested entry.functions) }
{
    let mut functions = Items::new(alloc);
    functions.push(first)?;
    functions.push(second)?;
    let url = Text::from_text(alloc, url)?;
    Ok(Entry { url, functions })
}

/// Scripts whose functions stand in no order, and of which one url comes twice.
fn out_of_order(alloc: Global) -> Result<Snapshot, Fail> {
    let last = report(alloc, "b", true, &[range(20, 30, 1)])?;
    let third = report(alloc, "c", true, &[range(10, 20, 1)])?;
    let second = report(alloc, "ba", true, &[range(10, 20, 1)])?;
    let first = report(alloc, "a", true, &[range(10, 25, 1)])?;
    let elsewhere = report(alloc, "", true, &[range(5, 9, 1)])?;
    let before = report(alloc, "", true, &[range(0, 9, 1)])?;
    let mut scripts = Items::new(alloc);
    scripts.push(pair(alloc, A, last, third)?)?;
    scripts.push(pair(alloc, B, elsewhere, before)?)?;
    scripts.push(pair(alloc, A, second, first)?)?;
    Ok(Snapshot::new(scripts))
}

#[test]
fn functions_in_any_order(rt: HostRuntime) -> Result<(), Fail> {
    let alloc = rt.alloc();
    let mut book = Book::new(alloc);
    let snapshot = out_of_order(alloc)?;
    let fault = add_snapshot(&mut book, &snapshot)?;
    assert!(rt; fault.is_none());
    let merged = book.scripts(alloc)?;
    let scripts = merged.scripts();
    assert_eq!(rt; scripts.len(), 2);
    assert_eq!(rt; scripts[1].url.as_text(), B);
    let functions = scripts[0].functions.as_slice();
    assert_eq!(rt; functions.len(), 4);
    assert_eq!(rt; functions[0].name.as_text(), "a");
    assert_eq!(rt; functions[1].name.as_text(), "ba");
    assert_eq!(rt; functions[2].name.as_text(), "c");
    assert_eq!(rt; functions[3].name.as_text(), "b");
    Ok(())
}

#[test]
fn a_sum_past_the_limit(rt: HostRuntime) -> Result<(), Fail> {
    let alloc = rt.alloc();
    let mut book = Book::new(alloc);
    add(
        alloc,
        &mut book,
        A,
        true,
        &[range(0, 10, 1), range(2, 4, GREATEST)],
    )?;
    let fault = add(
        alloc,
        &mut book,
        A,
        true,
        &[range(0, 10, 1), range(3, 5, 2)],
    )?;
    let fault = fault.ok_or("no fault")?;
    assert_eq!(rt; (fault.key.start, fault.key.end), (0, 10));
    assert_eq!(rt; fault.at, At::Offset(2));
    assert_eq!(rt; (fault.held, fault.added), (GREATEST, 1));
    Ok(())
}

#[test]
fn laws_hold() {
    laws::any_order();
    laws::in_parts();
    laws::one_script();
    laws::growing();
    laws::runs_looked_at();
}
