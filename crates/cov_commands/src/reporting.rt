//! The report of a folder's texts.
ghost use Rattle.std.specs.Prelude.{◌≡◌, ◌++◌, IfOk, IfErr, OnOk};
ghost use Rattle.cov_io.specs.Told.{WhereTold, FolderIsThere};
ghost use Rattle.istanbul_json.specs.Gives.{ArePathsInOrder};
ghost use Rattle.cov_report.specs.Texts.{skip_lines};
ghost use Rattle.cov_commands.specs.Due.{FolderIsMissing};
ghost use Rattle.cov_commands.specs.Stores.{StillTells, Stopped, store_at};
ghost use Rattle.cov_commands.specs.Counting.{CountsSkips};
ghost use Rattle.cov_commands.specs.Reporting.{TellsReport};

use crate::Ended;
use crate::gather::{Maps, Merged, gather};
use cov_book::Book;
use cov_io::Store;
use cov_model::Items;
use cov_report::{Report, ReportFault, Skip, lines_of_skips, report_of};
use std::alloc::{AllocError, Global};

/// The report of a folder's accepted texts.
#[derive(Drop)]
pub struct Reported {
    pub report: Report,
    /// The lines of the refused texts, and then those of what the report leaves out.
    pub lines: Items<u8>,
    /// Whether a text was refused.
    pub refused: bool,
}

/// Reads a folder's texts in byte order of their names, and reports on those that are snapshots and fit, with what they say of
/// the maps of their scripts.
pub fn report_folder<S: Store>(
    alloc: Global,
    store: &mut S,
    folder: &str,
) -> Result<Reported, Ended>
    ensures tells { IfOk result (λ r. WhereTold (S.files store.old) (λ files. TellsReport folder.now files r)) }
    ensures in_order { IfOk result (λ r. ArePathsInOrder r.report.files) }
    ensures counts { IfOk result (λ r. CountsSkips folder.now (S.files store.old) (S.faults store.old) (S.faults store.new) r.lines) }
    ensures there { OnOk result (FolderIsThere (S.folders store.old) folder.now) }
    ensures stops { IfErr result (Stopped (FolderIsMissing (S.folders store.old) folder.now)
        (store_at store.old (S.files store.old) (S.folders store.old) (S.faults store.old))
        (store_at store.new (S.files store.new) (S.folders store.new) (S.faults store.new))) }
    ensures still { StillTells
        (store_at store.old (S.files store.old) (S.folders store.old) (S.faults store.old))
        (store_at store.new (S.files store.new) (S.folders store.new) (S.faults store.new)) }
{
    let mut book = Book::new(alloc);
    let merged = match gather(alloc, store, &mut book, folder, Maps::Kept) {
        Ok(merged) => merged,
        Err(ended) => return Err(ended),
    };
    let Merged {
        lines,
        refused,
        entries,
    } = merged;
    let Ok(entries) = entries.into_entries(alloc) else {
        return Err(Ended::NoMemory);
    };
    let report = match report_of(alloc, &book, entries.as_slice(), store) {
        Ok(report) => report,
        Err(ReportFault::Failed) => return Err(Ended::ReadFault),
        Err(ReportFault::NoMemory) => return Err(Ended::NoMemory),
    };
    match with_skips(alloc, lines, report.skips.as_slice()) {
        Ok(lines) => Ok(Reported {
            report,
            lines,
            refused,
        }),
        Err(_) => Err(Ended::NoMemory),
    }
}

/// Lines, and then those of what a report leaves out.
fn with_skips(alloc: Global, lines: Items<u8>, skips: &[Skip]) -> Result<Items<u8>, AllocError>
    ensures { IfOk result (λ all. all ≡ lines ++ skip_lines skips.now) }
{
    let mut all = lines;
    let more = lines_of_skips(alloc, skips)?;
    all.extend_from_slice(more.as_slice())?;
    Ok(all)
}
