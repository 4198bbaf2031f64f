//! Longest stretches of one count.
ghost use Rattle.cov_model.specs.Nesting.{range_fault};
ghost use Rattle.std.specs.Prelude.{◌≡◌, ◌+◌, ◌<◌, ◌≤◌, ◌↔◌, IsTrue, None, Some, length, slice_get, IfOk, OnOk, IfErr};

use crate::counted::runs_of;
use crate::fault::StepFault;
use crate::sum::summed;
use cov_model::{FunctionReport, Range, Steps};
use cov_ranges::are_one;
use std::alloc::{AllocError, Global};
use std::marker::{Brand, Model};
use std::sync::ledger::{Blank, Ledger};

/// A stretch of one count: a `Range` whose start and end bound it, and none within.
pub type Run = Range;

/// The counts of a function over its root, as the longest runs of one count. Contracts see it as its start, its end
/// and the list of the runs: they touch, cover the root exactly, and no two neighbours have one count. Of an empty
/// root there is none.
#[derive(Debug, Drop)]
pub struct Runs {
    start: u32,
    end: u32,
    runs: Vec<Run>,
}

impl Model for Runs {
    ghost use Rattle.cov_steps.specs.Runs.{RunList, AreRuns};

    ghost Value = { RunList };

    ghost view = { λ r. record { start = r.start; end = r.end; runs = r.runs.items } };

    ghost invariant = { λ r. AreRuns r.start r.end r.runs.items };
}

impl Clone for Runs {
    ghost is_clone = { λ runs copy. copy ≡ runs };

    fn clone(&self) -> Result<Runs, AllocError> {
        let runs = self.runs.clone()?;
        Ok(Runs {
            start: self.start,
            end: self.end,
            runs,
        })
    }
}

impl Runs {
    ghost use Rattle.cov_steps.specs.Runs.{AreRuns};
    ghost use Rattle.cov_steps.specs.Runs.{counted, sum_of, Fits};
    ghost use Rattle.cov_steps.specs.Sum.{IsPast};

    /// The runs of a report: at each offset of its root the count is the innermost one. Of a root 3..9 with a range 5..7
    /// these are 3..5, 5..7 and 7..9, as far as their counts differ. The ranges are well nested, as `check_ranges`
    /// finds, and may stand in any order: they are sorted into V8's and walked once.
    pub fn of(alloc: Global, report: &FunctionReport) -> Result<Runs, AllocError>
        requires { range_fault report.now.ranges ≡ None }
        ensures { IfOk result (λ runs. runs ≡ counted report.now.ranges) }
    {
        let ranges = report.ranges.as_slice();
        match ranges {
            [] => Ok(Runs {
                start: 0,
                end: 0,
                runs: Vec::new(alloc),
            }),
            [root, ..] => {
                let runs = runs_of(alloc, ranges, *root)?;
                Ok(Runs {
                    start: root.start,
                    end: root.end,
                    runs,
                })
            }
        }
    }

    /// How many runs there are.
    pub fn len(&self) -> usize
        ensures value { result ≡ length self.now.runs }
        ensures kept { AreRuns self.now.start self.now.end self.now.runs }
    {
        self.runs.len()
    }

    /// Where the root starts, in UTF-16 units.
    pub fn start(&self) -> u32
        ensures value { result ≡ self.now.start }
        ensures kept { AreRuns self.now.start self.now.end self.now.runs }
    {
        self.start
    }

    /// Where the root ends, in UTF-16 units, exclusive.
    pub fn end(&self) -> u32
        ensures value { result ≡ self.now.end }
        ensures kept { AreRuns self.now.start self.now.end self.now.runs }
    {
        self.end
    }

    /// Whether two lists of runs are one: they have one root, and count the same at each offset. It takes no step.
    pub fn agrees(&self, other: &Runs) -> bool
        ensures { IsTrue result ↔ (self.now ≡ other.now) }
    {
        if self.start != other.start || self.end != other.end {
            return false;
        }
        are_one(self.runs.as_slice(), other.runs.as_slice())
    }

    /// The run at a place, counted from 0. It takes one step.
    pub fn get<L: Ledger>(&self, i: usize, steps: &mut Steps<L>) -> Run
        requires { i < length self.now.runs }
        ensures value { slice_get self.now.runs i ≡ Some result }
        ensures step { steps.new ≡ steps.old + 1 }
    {
        steps.tick();
        self.runs[i]
    }

    /// The run at a place, counted from 0, for a caller that counts no steps: the one step is taken of a counter that
    /// is made for it and dropped.
    pub fn get_uncounted(&self, i: usize) -> Run
        requires { i < length self.now.runs }
        ensures { slice_get self.now.runs i ≡ Some result }
    {
        get_with::<Brand>(self, i, Blank::new(1))
    }

    /// The sum of two lists of runs over one root: at each offset the sum of the two counts, as longest runs again.
    ///
    /// `TooBig` comes exactly where some sum passes the greatest 64-bit number, and names the least such offset with the
    /// count of this list and that of the other. An answer takes at most as many steps as the two lists have runs
    /// together, and has at most so many. After a refusal the counter may have risen; it never falls.
    pub fn add<L: Ledger>(
        &self,
        alloc: Global,
        other: &Runs,
        steps: &mut Steps<L>,
    ) -> Result<Runs, StepFault>
        requires starts { self.now.start ≡ other.now.start }
        requires ends { self.now.end ≡ other.now.end }
        ensures sum { IfOk result (λ sum. sum ≡ sum_of self.now other.now) }
        ensures fits { OnOk result (Fits self.now other.now) }
        ensures past { IfErr result (IsPast self.now other.now) }
        ensures cost { OnOk result (steps.new ≤ steps.old + (length self.now.runs + length other.now.runs)) }
        ensures size { IfOk result (λ sum. length sum.runs ≤ length self.now.runs + length other.now.runs) }
        ensures later { steps.old ≤ steps.new }
    {
        let start = self.start();
        let end = self.end();
        let runs = summed(alloc, self, other, steps)?;
        Ok(Runs { start, end, runs })
    }
}

// The run at a place, with a counter of steps that nobody reads.
fn get_with<L: Ledger>(runs: &Runs, i: usize, blank: Blank) -> Run
    requires name { blank.name ≡ L.name }
    requires parts { (blank.parts ≡ L.parts) × (0 < L.parts) }
    requires place { i < length runs.now.runs }
    ensures { slice_get runs.now.runs i ≡ Some result }
{
    let mut steps: Steps<L> = Steps::new(blank);
    runs.get(i, &mut steps)
}
