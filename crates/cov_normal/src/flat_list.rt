//! From runs to the flat list.
ghost use Rattle.std.specs.Prelude.{◌≡◌, ◌<◌, ◌∷◌, IfOk};
ghost use Rattle.cov_model.specs.Normal.{flat};
ghost use Rattle.cov_steps.specs.Runs.{AreRuns, count_in};
ghost use Rattle.cov_normal.specs.Parts.{counts_otherwise, told};

use cov_model::{Items, Range, Steps};
use cov_steps::Runs;
use std::alloc::{AllocError, Global};
use std::marker::Brand;
use std::sync::ledger::{Blank, Ledger};

/// The flat list of a root and its counts, as older files have it: the root with the count `root`, then the runs of another
/// count, rising. Where `root` is a count that shows at no offset, all runs are listed. The runs are those of this start and
/// end, in UTF-16 units, and are gone through once. The error is want of memory.
pub fn flat(
    alloc: Global,
    start: u32,
    end: u32,
    root: u64,
    runs: &Runs,
) -> Result<Items<Range>, AllocError>
    requires starts { runs.now.start ≡ start }
    requires ends { runs.now.end ≡ end }
    ensures { IfOk result (λ ranges. ranges ≡ flat start end root (count_in runs.now.runs)) }
{
    let count = root;
    let root = Range { start, end, count };
    listed::<Brand>(alloc, root, runs, Blank::new(1))
}

// The root and the runs of another count, with a counter of steps that nobody reads.
fn listed<L: Ledger>(
    alloc: Global,
    root: Range,
    runs: &Runs,
    blank: Blank,
) -> Result<Items<Range>, AllocError>
    requires name { blank.name ≡ L.name }
    requires parts { (blank.parts ≡ L.parts) × (0 < L.parts) }
    ensures list { IfOk result (λ ranges. ranges ≡ root ∷ told root runs.now.runs) }
    ensures runs { AreRuns runs.now.start runs.now.end runs.now.runs }
{
    let mut steps: Steps<L> = Steps::new(blank);
    let count = runs.len();
    let mut ranges = Items::new(alloc);
    ranges.push(root)?;
    for i in 0..count {
        let run = runs.get(i, &mut steps);
        if is_told(root, run) {
            ranges.push(run)?;
        }
    }
    Ok(ranges)
}

// Whether a run has another count than the root.
fn is_told(root: Range, run: Range) -> bool
    ensures { result ≡ counts_otherwise root run }
{
    run.count != root.count
}
