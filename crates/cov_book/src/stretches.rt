//! The sums of many reports at each offset, in one walk, and the first of them past the limit.
ghost use Rattle.std.specs.Prelude.{◌≡◌, ℕ, ◌+◌, ◌<◌, ◌≤◌, map, find, sum_by, IfOk, nat_lt, Bool};
ghost use Rattle.cov_model.specs.declared.sums.At.{At};
ghost use Rattle.cov_model.specs.declared.sums.At.TheVariants.{Offset};
ghost use Rattle.cov_model.specs.Nesting.{AreReportsNested};
ghost use Rattle.cov_text.specs.Listing.{limit, offsets};
ghost use Rattle.cov_steps.specs.Runs.{count_in};
ghost use Rattle.cov_book.specs.Counts.{capped, weight};
ghost use Rattle.cov_book.specs.Stretching.{IsCover, TellsSums, AreRooted, sum_in};

use cov_model::{At, FunctionReport, Steps};
use cov_steps::Runs;
use std::alloc::{AllocError, Global};
use std::sync::ledger::Ledger;

/// The greatest count and the greatest sum.
pub const LIMIT: u128 = 18446744073709551615;

/// The offsets from the end of the stretch before it up to its own end, in UTF-16 units, with the
/// sum at each of them as far as 128 bits go.
#[derive(Clone, Copy)]
pub struct Stretch {
    pub end: u32,
    pub sum: u128,
}

/// The sums of reports over one root, at each offset.
pub fn sums_of_reports<L: Ledger>(
    alloc: Global,
    reports: &[&FunctionReport],
    start: u32,
    end: u32,
    steps: &mut Steps<L>,
) -> Result<Vec<Stretch>, AllocError>
    requires nested { AreReportsNested (map (λ r. r.now) reports.now) }
    requires rooted { AreRooted start end (map (λ r. r.now) reports.now) }
    ensures sums { IfOk result (λ sums. TellsSums start end (λ o. sum_by (weight (Offset o)) (map
        (λ r. r.now) reports.now)) sums.items) }
    ensures later { steps.old ≤ steps.new }
{
    let mut sums = nothing_between(alloc, start, end)?;
    for report in reports {
        let runs = Runs::of(alloc, report)?;
        sums = with_runs(alloc, sums.as_slice(), &runs, steps)?;
    }
    Ok(sums)
}

/// The sums of no report.
fn nothing_between(alloc: Global, start: u32, end: u32) -> Result<Vec<Stretch>, AllocError>
    ensures { IfOk result (λ sums. TellsSums start end (λ o. 0) sums.items) }
{
    let mut sums = Vec::new(alloc);
    if start < end {
        sums.push(Stretch { end, sum: 0 })?;
    }
    Ok(sums)
}

/// The sums with the counts of runs over the same root: both lists are walked once, side by side.
pub fn with_runs<L: Ledger>(
    alloc: Global,
    sums: &[Stretch],
    runs: &Runs,
    steps: &mut Steps<L>,
) -> Result<Vec<Stretch>, AllocError>
    requires { IsCover runs.now.start runs.now.end sums.now }
    ensures covers { IfOk result (λ made. IsCover runs.now.start runs.now.end made.items) }
    ensures sums { IfOk result (λ made. (o : ℕ) → runs.now.start ≤ o → o < runs.now.end
        → sum_in made.items o ≡ capped (sum_in sums.now o + count_in runs.now.runs o)) }
    ensures later { steps.old ≤ steps.new }
{
    let end = runs.end();
    let count = runs.len();
    let mut made = Vec::new(alloc);
    let mut from = runs.start();
    let mut i = 0;
    let mut j = 0;
    'both: while from < end {
        let stretch = sums[i];
        let run = runs.get(j, steps);
        let next = stretch.end.min(run.end);
        let sum = stretch.sum.saturating_add(run.count as u128);
        made.push(Stretch { end: next, sum })?;
        i = place_at(i, sums.len(), stretch.end, next);
        j = place_at(j, count, run.end, next);
        from = next;
    }
    Ok(made)
}

/// The place at an offset: the next one, where what stands at this one ends there.
fn place_at(place: usize, count: usize, end: u32, at: u32) -> usize
    requires { place < count }
    ensures next { end ≡ at → result ≡ place + 1 }
    ensures stays { at < end → result ≡ place }
{
    if end == at { place + 1 } else { place }
}

/// The first offset whose sum passes the limit.
pub fn first_over(sums: &[Stretch], start: u32) -> Option<At>
    ensures { (end : ℕ) (p : At → Bool) → IsCover start end sums.now
        → ((o : ℕ) → start ≤ o → o < end → p (Offset o) ≡ nat_lt limit (sum_in sums.now o))
        → result ≡ find p (map Offset (offsets start end)) }
{
    let mut from = start;
    for stretch in sums {
        if stretch.sum > LIMIT {
            return Some(At::Offset(from));
        }
        from = stretch.end;
    }
    None
}
