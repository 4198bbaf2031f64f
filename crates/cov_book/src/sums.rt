//! The sums of one function.
ghost use Rattle.std.specs.Prelude.{◌≡◌, ◌+◌, ◌≤◌, None, IfOk, IfErr, OnOk, length};
ghost use Rattle.std.specs.List.{AllByRecursion};
ghost use Rattle.cov_model.specs.Nesting.{range_fault};
ghost use Rattle.cov_text.specs.Listing.{limit};
ghost use Rattle.cov_book.specs.Prepared.{report_sums, sum_two, IsWithin, IfPast};

use cov_model::{FunctionReport, Range, Steps};
use cov_steps::{Runs, StepFault};
use std::alloc::{AllocError, Global};
use std::sync::ledger::Ledger;

/// What the reports of a function come to: whether one has blocks, the sum of the root counts, and
/// the runs of the sums of the innermost counts.
#[derive(Clone, Debug, Drop)]
pub struct Sums {
    pub block: bool,
    pub root: u64,
    pub runs: Runs,
}

/// What stops an addition.
pub enum Stop {
    /// Some sum would pass 2^64-1.
    Past,
    /// There was no memory.
    NoMemory,
}

impl From<AllocError> for Stop {
    ghost use Rattle.std.specs.Prelude.{◌≡◌};
    ghost use Rattle.cov_book.specs.declared.sums.Stop.TheVariants.{NoMemory};

    ghost from_gives = { λ _ stop. stop ≡ NoMemory };

    fn from(_: AllocError) -> Stop {
        Stop::NoMemory
    }
}

/// The sums of one report.
pub fn sums_of(alloc: Global, report: &FunctionReport) -> Result<Sums, AllocError>
    requires { range_fault report.now.ranges ≡ None }
    ensures sums { IfOk result (λ sums. sums ≡ report_sums report.now) }
    ensures within { IfOk result IsWithin }
{
    let root = report.ranges.get(0).map(|root| root.count).unwrap_or(0);
    counts_fit(report.ranges.as_slice());
    let runs = Runs::of(alloc, report)?;
    let block = report.block;
    Ok(Sums { block, root, runs })
}

// Counts are 64-bit numbers: this does nothing but show it.
fn counts_fit(ranges: &[Range])
    ensures { AllByRecursion (λ r. r.count ≤ limit) ranges.now }
{
    for r in ranges {
        prove!(r.count <= u64::MAX);
    }
}

/// The sums with those of one more report.
pub fn sum_with<L: Ledger>(
    alloc: Global,
    held: &Sums,
    added: &Sums,
    steps: &mut Steps<L>,
) -> Result<Sums, Stop>
    requires starts { held.now.runs.start ≡ added.now.runs.start }
    requires ends { held.now.runs.end ≡ added.now.runs.end }
    ensures sums { IfOk result (λ sums. sums ≡ sum_two held.now added.now) }
    ensures within { IfOk result IsWithin }
    ensures past { IfErr result (λ stop. IfPast stop (sum_two held.now added.now)) }
    ensures cost { OnOk result (steps.new ≤ steps.old + (length held.now.runs.runs
        + length added.now.runs.runs)) }
    ensures size { IfOk result (λ sums. length sums.runs.runs ≤ length held.now.runs.runs
        + length added.now.runs.runs) }
    ensures later { steps.old ≤ steps.new }
{
    let Some(root) = held.root.checked_add(added.root) else {
        return Err(Stop::Past);
    };
    let runs = match held.runs.add(alloc, &added.runs, steps) {
        Ok(runs) => runs,
        Err(StepFault::TooBig { .. }) => return Err(Stop::Past),
        Err(StepFault::NoMemory) => return Err(Stop::NoMemory),
    };
    let block = held.block || added.block;
    Ok(Sums { block, root, runs })
}
