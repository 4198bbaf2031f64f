//! Runs that grow at their end.
ghost use Rattle.std.specs.Prelude.{◌≡◌, OnOk};
ghost use Rattle.cov_steps.specs.Walking.{pushed};

use crate::runs::Run;
use std::alloc::AllocError;

// Puts a run behind the others, or makes the last one longer where it has the same count.
pub(crate) fn push_run(runs: &mut Vec<Run>, run: Run) -> Result<(), AllocError>
    ensures { OnOk result (runs.new.items ≡ pushed runs.old.items run) }
{
    if let Some(last) = runs.last_mut() {
        if last.count == run.count {
            last.end = run.end;
            return Ok(());
        }
    }
    runs.push(run)?;
    Ok(())
}
