//! The command `check FOLDER --lines N --branches N --functions N`.
ghost use Rattle.std.specs.Prelude.{◌≡◌, ◌⊎◌, IfOk, IfErr, OnOk};
ghost use Rattle.cov_io.specs.Causes.{Rose};
ghost use Rattle.cov_io.specs.Told.{WhereTold, FolderIsThere};
ghost use Rattle.cov_table.specs.Shares as shares;
ghost use Rattle.cov_commands.specs.Counting.{CountsSkips};
ghost use Rattle.cov_commands.specs.Due.{check_due, FolderIsMissing};
ghost use Rattle.cov_commands.specs.Ends.{IsFinished};
ghost use Rattle.cov_commands.specs.Owed.{Gives};
ghost use Rattle.cov_commands.specs.Stores.{store_at};
ghost use Rattle.cov_commands.specs.Tool.{check_reader, reading_duty};

use crate::Ended;
use crate::due::{Due, Output};
use crate::ended::refused_or_done;
use crate::reporting::report_folder;
use cov_io::Store;
use cov_model::Items;
use cov_percent::Percent;
use cov_table::{check_text, misses, summary_of};
use istanbul_json::FileCoverage;
use std::alloc::{AllocError, Global};

/// What `check FOLDER --lines N --branches N --functions N` owes: a line for each share of the folder's report that is below its
/// percentage, and the lines of the refused texts and of what is left out.
pub fn check<S: Store>(
    alloc: Global,
    store: &mut S,
    folder: &str,
    lines: Percent,
    branches: Percent,
    functions: Percent,
) -> Result<Due, Ended>
    ensures { Gives (reading_duty (check_reader lines branches functions folder.now))
        (store_at store.old (S.files store.old) (S.folders store.old) (S.faults store.old))
        (store_at store.new (S.files store.new) (S.folders store.new) (S.faults store.new)) result }
{
    let found = match report_folder(alloc, store, folder) {
        Ok(found) => found,
        Err(ended) => return Err(ended),
    };
    let files = found.report.files.as_slice();
    let Ok(missed) = missed_in(alloc, files, lines, branches, functions) else {
        return Err(Ended::NoMemory);
    };
    let ended = if missed.any {
        Ended::Below
    } else {
        refused_or_done(found.refused)
    };
    Ok(Due {
        out: Output::Bytes(Items::from_vec(missed.text)),
        err: found.lines,
        ended,
    })
}

/// Whether a share is below its percentage, and the lines of those that are.
#[derive(Drop)]
struct Missed {
    any: bool,
    text: Vec<u8>,
}

fn missed_in(
    alloc: Global,
    files: &[FileCoverage],
    lines: Percent,
    branches: Percent,
    functions: Percent,
) -> Result<Missed, AllocError>
    ensures any { IfOk result (λ missed. missed.any ≡ shares.misses (shares.summary files.now) lines branches functions) }
    ensures text { IfOk result (λ missed. missed.text.items ≡ shares.check_text (shares.summary files.now) lines branches functions) }
{
    let summary = summary_of(alloc, files)?;
    let text = check_text(alloc, &summary, lines, branches, functions)?;
    let any = misses(&summary, lines, branches, functions);
    Ok(Missed { any, text })
}
