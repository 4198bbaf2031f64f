//! The sum of two lists of runs.
ghost use Rattle.std.specs.Prelude.{◌≡◌, ◌+◌, ◌<◌, ◌≤◌, length, IfOk, OnOk, IfErr};
ghost use Rattle.cov_model.specs.Normal.{maximal_runs};
ghost use Rattle.cov_text.specs.Listing.{limit};
ghost use Rattle.cov_steps.specs.Runs.{sum_at, Fits};
ghost use Rattle.cov_steps.specs.Sum.{IsPast, IsPastAt};
ghost use Rattle.cov_steps.specs.Walking.{Walked};

use crate::fault::StepFault;
use crate::pushing::push_run;
use crate::runs::{Run, Runs};
use cov_model::Steps;
use std::alloc::Global;
use std::sync::ledger::Ledger;

// How far a list of runs was walked: the place of the next run, and the one before it.
#[derive(Clone, Copy)]
struct Side {
    next: usize,
    run: Run,
}

// Before the first run.
fn side_before(start: u32) -> Side
    ensures next { result.next ≡ 0 }
    ensures start { result.run.start ≡ start }
    ensures end { result.run.end ≡ start }
{
    let run = Run {
        start,
        end: start,
        count: 0,
    };
    Side { next: 0, run }
}

// The side at an offset: it reads the next run where the one before it has ended.
fn side_at<L: Ledger>(runs: &Runs, side: Side, at: u32, steps: &mut Steps<L>) -> Side
    requires walked { Walked runs.now.runs runs.now.end side.next at side.run }
    requires more { at < runs.now.end }
    ensures walked { Walked runs.now.runs runs.now.end result.next at result.run }
    ensures past { at < result.run.end }
    ensures read { side.run.end ≤ at → result.next ≡ side.next + 1 }
    ensures later { side.next ≤ result.next }
    ensures cost { steps.new + side.next ≡ steps.old + result.next }
{
    if at < side.run.end {
        return side;
    }
    let count = runs.len();
    prove!(side.next < count);
    let run = runs.get(side.next, steps);
    Side {
        next: side.next + 1,
        run,
    }
}

// The sum of two counts.
fn total(offset: u32, held: u64, added: u64) -> Result<u64, StepFault>
    ensures sum { IfOk result (λ total. total ≡ held + added) }
    ensures fits { OnOk result (held + added ≤ limit) }
    ensures past { IfErr result (IsPastAt offset held added) }
{
    held.checked_add(added).ok_or(StepFault::TooBig {
        offset,
        held,
        added,
    })
}

// The runs of the sums, over a root that both lists have.
pub(crate) fn summed<L: Ledger>(
    alloc: Global,
    held: &Runs,
    added: &Runs,
    steps: &mut Steps<L>,
) -> Result<Vec<Run>, StepFault>
    requires starts { held.now.start ≡ added.now.start }
    requires ends { held.now.end ≡ added.now.end }
    ensures sum { IfOk result (λ sum. sum.items ≡ maximal_runs held.now.start held.now.end (sum_at held.now added.now)) }
    ensures fits { OnOk result (Fits held.now added.now) }
    ensures past { IfErr result (IsPast held.now added.now) }
    ensures cost { OnOk result (steps.new ≤ steps.old + (length held.now.runs + length added.now.runs)) }
    ensures size { IfOk result (λ sum. length sum.items ≤ length held.now.runs + length added.now.runs) }
    ensures later { steps.old ≤ steps.new }
{
    let start = held.start();
    let end = held.end();
    let mut left = side_before(start);
    let mut right = side_before(added.start());
    let mut sum = Vec::new(alloc);
    let mut at = start;
    while at < end {
        left = side_at(held, left, at, steps);
        right = side_at(added, right, at, steps);
        let count = total(at, left.run.count, right.run.count)?;
        let next = left.run.end.min(right.run.end);
        let run = Run {
            start: at,
            end: next,
            count,
        };
        push_run(&mut sum, run)?;
        at = next;
    }
    Ok(sum)
}
