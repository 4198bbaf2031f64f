//! The runs of a report.
ghost use Rattle.std.specs.Prelude.{◌≡◌, ℕ, ◌≤◌, None, Some, unwrap_or, IfOk, OnOk};
ghost use Rattle.cov_text.specs.Listing.{first_of};
ghost use Rattle.cov_model.specs.Nesting.{range_fault, inner_count};
ghost use Rattle.cov_model.specs.Normal.{maximal_runs};
ghost use Rattle.cov_steps.specs.Walking.{Walkable, last_at, open_count, Painted, pushed_between};

use crate::pushing::push_run;
use crate::runs::Run;
use cov_model::Range;
use cov_ranges::{are_in_order, in_order};
use std::alloc::{AllocError, Global};

// The runs of well nested ranges with this root: they are walked once, in V8's order, into which they are sorted where
// they don't stand so.
pub(crate) fn runs_of(alloc: Global, ranges: &[Range], root: Range) -> Result<Vec<Run>, AllocError>
    requires faultless { range_fault ranges.now ≡ None }
    requires root { first_of ranges.now ≡ Some root }
    ensures { IfOk result (λ runs. runs.items ≡ maximal_runs root.start root.end (inner_count ranges.now)) }
{
    if are_in_order(ranges) {
        return runs_in_order(alloc, ranges, root);
    }
    let ordered = in_order(alloc, ranges)?;
    runs_in_order(alloc, ordered.as_slice(), root)
}

// The runs of ranges in V8's order, of which the last one that has an offset counts there.
fn runs_in_order(alloc: Global, ranges: &[Range], root: Range) -> Result<Vec<Run>, AllocError>
    requires { Walkable root ranges.now }
    ensures { IfOk result (λ runs. runs.items ≡ maximal_runs root.start root.end (λ o. unwrap_or (last_at ranges.now o) 0)) }
{
    let mut runs = Vec::new(alloc);
    let mut opened = Vec::new(alloc);
    let mut at = root.start;
    for r in ranges {
        reach(&mut opened, &mut runs, at, r.start)?;
        opened.push(*r)?;
        at = r.start;
    }
    reach(&mut opened, &mut runs, at, root.end)?;
    Ok(runs)
}

// Lets the runs go on up to an offset, by the open ranges, of which the last one counts, and drops those that end there
// or before.
fn reach(opened: &mut Vec<Range>, runs: &mut Vec<Run>, from: u32, to: u32) -> Result<(), AllocError>
    requires { from ≤ to }
    ensures runs { OnOk result ((start : ℕ) (f : ℕ → ℕ) → Painted f start from to opened.old.items runs.old.items → runs.new.items ≡ maximal_runs start to f) }
    ensures rest { OnOk result ((o : ℕ) → to ≤ o → open_count opened.new.items o ≡ open_count opened.old.items o) }
{
    let mut at = from;
    while let Some(top) = opened.pop() {
        let end = top.end.min(to);
        push_between(runs, at, end, top.count)?;
        at = at.max(end);
        if to < top.end {
            opened.push(top)?;
            return Ok(());
        }
    }
    Ok(())
}

// Puts a run behind the others, unless it is empty.
fn push_between(runs: &mut Vec<Run>, start: u32, end: u32, count: u64) -> Result<(), AllocError>
    ensures { OnOk result (runs.new.items ≡ pushed_between runs.old.items start end count) }
{
    if start < end {
        push_run(runs, Run { start, end, count })?;
    }
    Ok(())
}
