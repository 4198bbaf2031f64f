//! Making the report of a book.
ghost use Rattle.std.specs.Prelude.{◌≡◌, ◌≤◌, List, None, ◌++◌, map, IfOk, IfErr, OnOk, IsTrue, IsFalse};
ghost use Rattle.cov_model.specs.declared.snapshot.Snapshot.{Snapshot};
ghost use Rattle.cov_io.specs.Causes.{Rose};
ghost use Rattle.cov_io.specs.Told.{WhereTold};
ghost use Rattle.cov_book.specs.Stands.{StandsFor};
ghost use Rattle.istanbul_json.specs.Gives.{ArePathsInOrder};
ghost use Rattle.source_maps.specs.Entries.{said};
ghost use Rattle.cov_report.specs.Wanted.{Asked, asked, asked_by, entry_for};
ghost use Rattle.cov_report.specs.First.{ArePlaces};
ghost use Rattle.cov_report.specs.Report.{report};
ghost use Rattle.cov_report.specs.Skips.{has_absent};
ghost use Rattle.cov_report.specs.Gathering.{Gathers};
ghost use Rattle.cov_report.specs.Counting.{ReadsFiles, store_at};
ghost use Rattle.cov_report.specs.declared.answer.ReportFault.TheVariants.{Failed};

use crate::asking::{ask_script, ask_sources};
use crate::files::coverage_of;
use crate::first::{entry_of, first_places};
use crate::gathering::Gathered;
use crate::{Report, ReportFault};
use cov_book::Book;
use cov_io::Store;
use cov_model::Entry;
use source_maps::MapEntry;
use std::alloc::Global;
use std::collections::BTreeMap;

/// The report of the scripts of a book, with the map entries of its texts in their order, over the files of a store.
///
/// Of the entries of a url the first counts. A script without one has a part of the file that its url names; a script with
/// one has a part of each named source of its map, which has the content that the map gives or else the file that the
/// source names. A path has the first good text that comes for it, and its file isn't read again behind that. What has no
/// path, no text or no good map is left out with its cause.
///
/// Takes time by the texts, the segments of the maps and the ranges, times a logarithm.
///
/// # Errors
///
/// `Failed` comes only where the store's count of faults rose in this call, `NoMemory` where memory runs out.
pub fn report_of<S: Store>(
    alloc: Global,
    book: &Book,
    entries: &[MapEntry],
    store: &mut S,
) -> Result<Report, ReportFault>
    ensures report { IfOk result (λ r. (held : List Snapshot) → StandsFor book.now held
        → WhereTold (S.files store.old) (λ files. r ≡ report held (map said entries.now) files)) }
    ensures in_order { IfOk result (λ r. ArePathsInOrder r.files) }
    ensures untold { IfOk result (λ r. S.files store.old ≡ None → IsTrue (has_absent r.skips)
        → Rose (S.faults store.old) (S.faults store.new)) }
    ensures failed { IfErr result (λ fault. fault ≡ Failed → Rose (S.faults store.old) (S.faults store.new)) }
    ensures kept { IfOk result (λ r. IsFalse (has_absent r.skips) → S.faults store.new ≡ S.faults store.old) }
    ensures later { S.faults store.old ≤ S.faults store.new }
    ensures files { S.files store.new ≡ S.files store.old }
    ensures folders { S.folders store.new ≡ S.folders store.old }
{
    let scripts = book.scripts(alloc)?;
    let mut gathered = Gathered::new(alloc);
    gather(alloc, store, &mut gathered, scripts.scripts(), entries)?;
    let files = coverage_of(alloc, &gathered.files)?;
    let Gathered { skips, .. } = gathered;
    Ok(Report { files, skips })
}

/// Asks for all that the scripts want, in order.
fn gather<'a, S: Store>(
    alloc: Global,
    store: &mut S,
    gathered: &mut Gathered,
    scripts: &'a [Entry],
    entries: &'a [MapEntry],
) -> Result<(), ReportFault>
    ensures gathers { OnOk result (WhereTold (S.files store.old) (λ told. (earlier : List Asked)
        → Gathers told earlier gathered.old
        → Gathers told (earlier ++ asked scripts.now (map said entries.now)) gathered.new)) }
    ensures store { ReadsFiles (store_at (S.files store.old) (S.folders store.old) (S.faults store.old))
        (store_at (S.files store.new) (S.folders store.new) (S.faults store.new))
        gathered.old.skips gathered.new.skips result }
{
    let places = first_places(alloc, entries)?;
    for script in scripts {
        if let Err(fault) = ask(alloc, store, gathered, script, entries, &places) {
            return Err(fault);
        }
    }
    Ok(())
}

/// Asks for a script by its map entry, where it has one.
fn ask<'a, S: Store>(
    alloc: Global,
    store: &mut S,
    gathered: &mut Gathered,
    script: &'a Entry,
    entries: &'a [MapEntry],
    places: &BTreeMap<&'a str, usize>,
) -> Result<(), ReportFault>
    requires { ArePlaces entries.now places.now }
    ensures gathers { OnOk result (WhereTold (S.files store.old) (λ told. (earlier : List Asked)
        → Gathers told earlier gathered.old
        → Gathers told (earlier ++ asked_by script.now (entry_for (map said entries.now) script.now.url)) gathered.new)) }
    ensures store { ReadsFiles (store_at (S.files store.old) (S.folders store.old) (S.faults store.old))
        (store_at (S.files store.new) (S.folders store.new) (S.faults store.new))
        gathered.old.skips gathered.new.skips result }
{
    match entry_of(entries, places, script.url.as_text()) {
        Some(entry) => ask_sources(alloc, store, gathered, script, &entry.body),
        None => ask_script(alloc, store, gathered, script),
    }
}
