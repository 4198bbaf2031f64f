//! Lines that were never run, as runs of consecutive ones.
ghost use Rattle.std.specs.Prelude.{◌≡◌, ℕ, List, ◌∷◌, ◌++◌, flat_map, IfOk, OnOk};
ghost use Rattle.cov_table.specs.Adding.{runs_from, runs_behind};
ghost use Rattle.cov_table.specs.Table.{runs, run_text, runs_field, uncovered};

use clean_text::{put, put_number};
use lcov_text::LineCount;
use std::alloc::{AllocError, Global};

/// Consecutive lines, from the first to the last.
#[derive(Clone, Copy, Debug, PartialEq, Eq)]
pub struct Run {
    pub first: u32,
    pub last: u32,
}

/// The runs of the lines of count 0.
pub fn runs_of(alloc: Global, lines: &[LineCount]) -> Result<Vec<Run>, AllocError>
    ensures { IfOk result (λ found. found.items ≡ runs (uncovered lines.now)) }
{
    let mut done = Vec::new(alloc);
    let mut pending = None;
    for line in lines {
        if line.count == 0 {
            pending = Some(gone_on(&mut done, pending, line.line)?);
        }
    }
    if let Some(run) = pending {
        done.push(run)?;
    }
    Ok(done)
}

// The run that a line ends, which goes on from the one before it or begins there.
#[tactic(auto, using(crate::proofs::Running::runs_begun))]
fn gone_on(done: &mut Vec<Run>, pending: Option<Run>, line: u32) -> Result<Run, AllocError>
    ensures { IfOk result (λ run. (rest : List ℕ) → done.new.items ++ runs_behind run rest ≡ done.old.items ++ runs_from pending (line ∷ rest)) }
{
    let Some(run) = pending else {
        return Ok(Run {
            first: line,
            last: line,
        });
    };
    if u64::from(run.last) + 1 == u64::from(line) {
        return Ok(Run {
            first: run.first,
            last: line,
        });
    }
    done.push(run)?;
    Ok(Run {
        first: line,
        last: line,
    })
}

/// Runs behind a bar, with commas between them, and nothing where there is none.
pub fn put_runs(text: &mut Vec<u8>, runs: &[Run]) -> Result<(), AllocError>
    ensures { OnOk result (text.new.items ≡ text.old.items ++ runs_field runs.now) }
{
    let Some((first, rest)) = runs.split_first() else {
        return Ok(());
    };
    put(text, b" | ")?;
    put_run(text, *first)?;
    put_more_runs(text, rest)
}

fn put_more_runs(text: &mut Vec<u8>, runs: &[Run]) -> Result<(), AllocError>
    ensures { OnOk result (text.new.items ≡ text.old.items ++ flat_map (λ run. 44 ∷ run_text run) runs.now) }
{
    for run in runs {
        put(text, b",")?;
        put_run(text, *run)?;
    }
    Ok(())
}

fn put_run(text: &mut Vec<u8>, run: Run) -> Result<(), AllocError>
    ensures { OnOk result (text.new.items ≡ text.old.items ++ run_text run) }
{
    put_number(text, u64::from(run.first))?;
    if run.first == run.last {
        return Ok(());
    }
    put(text, b"-")?;
    put_number(text, u64::from(run.last))
}
