//! The sums that a snapshot changes, and the first function of which one passes the limit.
ghost use Rattle.std.specs.Prelude.{◌≡◌, ℕ, ◌+◌, ◌≤◌, List, Option, None, length, sum_by, IfOk, IfErr, OnOk, option_copied};
ghost use Rattle.std.specs.BTreeSet.{insert_key};
ghost use Rattle.cov_text.specs.Listing.{in_order, text_cmp};
ghost use Rattle.cov_book.specs.declared.sums.Sums.{Sums};
ghost use Rattle.cov_model.specs.declared.sums.Key.{Key};
ghost use Rattle.cov_model.specs.Nesting.{range_fault, AreNested, AreReportsNested};
ghost use Rattle.cov_model.specs.Sums.{file_order};
ghost use Rattle.cov_book.specs.Spent.{for_entries, for_report, for_reports, own_all, own_runs, runs_at};
ghost use Rattle.cov_book.specs.Stretching.{IfRooted};
ghost use Rattle.cov_book.specs.Prepared.{AreKept, ArePrepared, IfPast, IsWithin, report_runs, report_sums, runs_held, summed, with_report, with_reports, with_entries};
ghost use Rattle.cov_book.specs.Least.{comes_before, CanGoOn, IsLeastPast, IsLeastSoFar};
ghost use Rattle.cov_book.specs.Listed.{all_listed, own_list, held_in, AreInOrder, AreSorted, Knows, CanGoOnIn};
ghost use Rattle.cov_book.specs.Renewed.{AreChanged, changed_scripts, changed_urls, made};
ghost use Rattle.cov_book.specs.Told.{named};
ghost use Rattle.cov_book.specs.Urls.{urls_of};
ghost use Rattle.cov_book.specs.Entries.{entries_of};
ghost use Rattle.cov_book.specs.Weights.{entries_in};
ghost use Rattle.cov_model.specs.declared.snapshot.Snapshot.{Snapshot};

use crate::changed::{FunctionChanges, ScriptChange, place_of_change, put_sums, sums_so_far};
use crate::cutting::{Part, parts_of};
use crate::looking::{functions_of, place_among};
use crate::scripts::{Function, Script};
use crate::sums::{Stop, Sums, sum_with, sums_of};
use cov_model::{FunctionReport, Key, Snapshot, Steps, Text};
use std::alloc::{AllocError, Global};
use std::cmp::Ordering;
use std::sync::ledger::Ledger;

/// What an addition of a snapshot would change.
#[derive(Drop)]
pub struct Changes {
    /// What changes of each script of the snapshot.
    pub scripts: Vec<ScriptChange>,
    /// The first function, in the order of the file, of which a sum passes the limit. The sums of
    /// those behind it may lack reports.
    pub past: Option<Key>,
}

/// The changes by a snapshot: what is held of each of its functions, with the snapshot's reports.
pub fn changes_by<L: Ledger>(
    alloc: Global,
    scripts: &[Script],
    snapshot: &Snapshot,
    steps: &mut Steps<L>,
) -> Result<Changes, AllocError>
    requires order { AreSorted scripts.now }
    requires kept { AreKept (all_listed scripts.now) }
    requires held { (held : List Snapshot) × (all_listed scripts.now ≡ entries_of held) }
    ensures order { IfOk result (λ changes. AreChanged changes.scripts.items) }
    ensures urls { IfOk result (λ changes. changed_urls changes.scripts.items
        ≡ in_order text_cmp (urls_of snapshot.now)) }
    ensures sums { IfOk result (λ changes. changes.past ≡ None → ArePrepared (with_entries
        (all_listed scripts.now) snapshot.now) (held_in scripts.now) (all_listed
        (changed_scripts scripts.now changes.scripts.items))) }
    ensures past { IfOk result (λ changes. IsLeastPast (with_entries (all_listed scripts.now)
        snapshot.now) changes.past) }
    ensures nested { AreNested snapshot.now }
    ensures cost { IfOk result (λ changes. changes.past ≡ None → (bound : Key → ℕ) → ((key : Key)
        → runs_at (all_listed scripts.now) key + own_all key snapshot.now ≤ bound key)
        → steps.new ≤ steps.old + for_entries bound snapshot.now) }
    ensures later { steps.old ≤ steps.new }
{
    let parts = parts_of(alloc, snapshot)?;
    changes_in(alloc, scripts, &parts, steps)
}

/// The changes by the reports of these parts.
fn changes_in<L: Ledger>(
    alloc: Global,
    scripts: &[Script],
    parts: &[Part],
    steps: &mut Steps<L>,
) -> Result<Changes, AllocError>
    requires order { AreSorted scripts.now }
    requires kept { AreKept (all_listed scripts.now) }
    requires nested { AreNested (entries_in parts.now) }
    ensures order { IfOk result (λ changes. AreChanged changes.scripts.items) }
    ensures urls { IfOk result (λ changes. changed_urls changes.scripts.items
        ≡ in_order text_cmp (urls_of (entries_in parts.now))) }
    ensures sums { IfOk result (λ changes. changes.past ≡ None → ArePrepared (with_entries
        (all_listed scripts.now) (entries_in parts.now)) (held_in scripts.now) (all_listed
        (changed_scripts scripts.now changes.scripts.items))) }
    ensures past { IfOk result (λ changes. IsLeastPast (with_entries (all_listed scripts.now)
        (entries_in parts.now)) changes.past) }
    ensures cost { IfOk result (λ changes. changes.past ≡ None → (bound : Key → ℕ) → ((key : Key)
        → runs_at (all_listed scripts.now) key + own_all key (entries_in parts.now) ≤ bound key)
        → steps.new ≤ steps.old + for_entries bound (entries_in parts.now)) }
    ensures later { steps.old ≤ steps.new }
{
    let mut changed = Vec::new(alloc);
    let mut past = None;
    for part in parts {
        past = add_script(
            alloc,
            scripts,
            &mut changed,
            past,
            part.url,
            part.reports,
            steps,
        )?;
    }
    Ok(Changes {
        scripts: changed,
        past,
    })
}

/// Adds each report of a script.
fn add_script<L: Ledger>(
    alloc: Global,
    scripts: &[Script],
    changed: &mut Vec<ScriptChange>,
    before: Option<Key>,
    url: &Text,
    reports: &[FunctionReport],
    steps: &mut Steps<L>,
) -> Result<Option<Key>, AllocError>
    requires held { AreSorted scripts.now }
    requires changed { AreChanged changed.now.items }
    requires so_far { CanGoOn (held_in scripts.now) (all_listed (changed_scripts scripts.now
        changed.now.items)) before }
    requires nested { AreReportsNested reports.now }
    ensures order { OnOk result (AreChanged changed.new.items) }
    ensures urls { OnOk result (changed_urls changed.new.items
        ≡ insert_key text_cmp (changed_urls changed.old.items) url.now) }
    ensures sums { IfOk result (λ now. (all : List (Key × Sums))
        → IsLeastSoFar all (held_in scripts.now) (all_listed (changed_scripts scripts.now
        changed.old.items)) before
        → IsLeastSoFar (with_reports all url.now reports.now) (held_in scripts.now)
        (all_listed (changed_scripts scripts.now changed.new.items)) now) }
    ensures cost { IfOk result (λ now. now ≡ None → (all : List (Key × Sums)) (bound : Key → ℕ)
        → IsLeastSoFar all (held_in scripts.now) (all_listed (changed_scripts scripts.now
        changed.old.items)) before → ((key : Key)
        → runs_at all key + sum_by (own_runs key url.now) reports.now ≤ bound key)
        → steps.new ≤ steps.old + for_reports bound url.now reports.now) }
    ensures grows { IfOk result (λ now. now ≡ None → (all : List (Key × Sums))
        → IsLeastSoFar all (held_in scripts.now) (all_listed (changed_scripts scripts.now
        changed.old.items)) before → (key : Key)
        → runs_at (with_reports all url.now reports.now) key ≤ runs_at all key
        + sum_by (own_runs key url.now) reports.now) }
    ensures stays { IfOk result (λ now. now ≡ None → before ≡ None) }
    ensures later { steps.old ≤ steps.new }
{
    let held = functions_of(scripts, url.as_text());
    let at = place_of_change(alloc, changed, url)?;
    let changes = &mut changed[at].functions;
    add_reports(alloc, held, changes, before, url, reports, steps)
}

/// Adds each report of a script to the sums of its function.
fn add_reports<L: Ledger>(
    alloc: Global,
    held: &[Function],
    changes: &mut FunctionChanges,
    before: Option<Key>,
    url: &Text,
    reports: &[FunctionReport],
    steps: &mut Steps<L>,
) -> Result<Option<Key>, AllocError>
    requires held { AreInOrder held.now }
    requires changes { AreInOrder changes.now.fresh.items }
    requires so_far { CanGoOnIn url.now held.now (made held.now changes.now) before }
    requires nested { AreReportsNested reports.now }
    ensures order { OnOk result (AreInOrder changes.new.fresh.items) }
    ensures sums { IfOk result (λ now. (all : List (Key × Sums)) (functions : Key → Option Sums)
        → Knows url.now held.now functions
        → IsLeastSoFar all functions (own_list url.now (made held.now changes.old)) before
        → IsLeastSoFar (with_reports all url.now reports.now) functions (own_list url.now (made held.now changes.new)) now) }
    ensures cost { IfOk result (λ now. now ≡ None → (all : List (Key × Sums)) (functions : Key
        → Option Sums) (bound : Key → ℕ) → Knows url.now held.now functions
        → IsLeastSoFar all functions (own_list url.now (made held.now changes.old)) before → ((key : Key)
        → runs_at all key + sum_by (own_runs key url.now) reports.now ≤ bound key)
        → steps.new ≤ steps.old + for_reports bound url.now reports.now) }
    ensures grows { IfOk result (λ now. now ≡ None → (all : List (Key × Sums)) (functions : Key
        → Option Sums) → Knows url.now held.now functions
        → IsLeastSoFar all functions (own_list url.now (made held.now changes.old)) before → (key : Key)
        → runs_at (with_reports all url.now reports.now) key ≤ runs_at all key
        + sum_by (own_runs key url.now) reports.now) }
    ensures stays { IfOk result (λ now. now ≡ None → before ≡ None) }
    ensures later { steps.old ≤ steps.new }
{
    let mut past = before;
    for report in reports {
        past = add_report(alloc, held, changes, past, url, report, steps)?;
    }
    Ok(past)
}

/// Adds a report to the sums of its function, unless this doesn't come before the first one past
/// the limit.
fn add_report<L: Ledger>(
    alloc: Global,
    held: &[Function],
    changes: &mut FunctionChanges,
    past: Option<Key>,
    url: &Text,
    report: &FunctionReport,
    steps: &mut Steps<L>,
) -> Result<Option<Key>, AllocError>
    requires held { AreInOrder held.now }
    requires changes { AreInOrder changes.now.fresh.items }
    requires so_far { CanGoOnIn url.now held.now (made held.now changes.now) past }
    requires nested { range_fault report.now.ranges ≡ None }
    ensures order { OnOk result (AreInOrder changes.new.fresh.items) }
    ensures sums { IfOk result (λ now. (all : List (Key × Sums)) (functions : Key → Option Sums)
        → Knows url.now held.now functions
        → IsLeastSoFar all functions (own_list url.now (made held.now changes.old)) past
        → IsLeastSoFar (with_report all url.now report.now) functions (own_list url.now (made held.now changes.new)) now) }
    ensures cost { IfOk result (λ now. now ≡ None → (all : List (Key × Sums)) (functions : Key
        → Option Sums) (bound : Key → ℕ) → Knows url.now held.now functions
        → IsLeastSoFar all functions (own_list url.now (made held.now changes.old)) past → ((key : Key)
        → runs_at all key + own_runs key url.now report.now ≤ bound key)
        → steps.new ≤ steps.old + for_report bound url.now report.now) }
    ensures grows { IfOk result (λ now. now ≡ None → (all : List (Key × Sums)) (functions : Key
        → Option Sums) → Knows url.now held.now functions
        → IsLeastSoFar all functions (own_list url.now (made held.now changes.old)) past → (key : Key)
        → runs_at (with_report all url.now report.now) key ≤ runs_at all key
        + own_runs key url.now report.now) }
    ensures stays { IfOk result (λ now. now ≡ None → past ≡ None) }
    ensures later { steps.old ≤ steps.new }
{
    let Some(root) = report.ranges.get(0) else {
        return Ok(past);
    };
    let (start, end) = (root.start, root.end);
    if !is_before(url, start, end, &report.name, &past) {
        return Ok(past);
    }
    let place = place_among(held, start, end, report.name.as_text());
    let before = sums_so_far(held, changes, place, start, end, report.name.as_text());
    match sums_with(alloc, before, report, steps) {
        Ok(sums) => {
            put_sums(changes, place, start, end, &report.name, sums)?;
            Ok(past)
        }
        Err(Stop::Past) => Ok(Some(key_named(url, start, end, &report.name)?)),
        Err(Stop::NoMemory) => Err(AllocError),
    }
}

/// A function's key.
fn key_named(url: &Text, start: u32, end: u32, name: &Text) -> Result<Key, AllocError>
    ensures { IfOk result (λ key. key ≡ named url.now start end name.now) }
{
    Ok(Key {
        url: url.clone()?,
        start,
        end,
        name: name.clone()?,
    })
}

/// The sums of a function with those of one more report.
fn sums_with<L: Ledger>(
    alloc: Global,
    before: Option<&Sums>,
    report: &FunctionReport,
    steps: &mut Steps<L>,
) -> Result<Sums, Stop>
    requires nested { range_fault report.now.ranges ≡ None }
    requires rooted { IfRooted (report_sums report.now).runs.start
        (report_sums report.now).runs.end (option_copied before) }
    ensures sums { IfOk result (λ sums. sums
        ≡ summed (option_copied before.entry) (report_sums report.now)) }
    ensures within { IfOk result IsWithin }
    ensures past { IfErr result (λ stop. IfPast stop (summed (option_copied before.entry)
        (report_sums report.now))) }
    ensures cost { OnOk result (steps.new ≤ steps.old
        + (runs_held (option_copied before.entry) + report_runs report.now)) }
    ensures size { IfOk result (λ sums. length sums.runs.runs
        ≤ runs_held (option_copied before.entry) + report_runs report.now) }
    ensures later { steps.old ≤ steps.new }
{
    let added = sums_of(alloc, report)?;
    match before {
        Some(held) => sum_with(alloc, held, &added, steps),
        None => Ok(added),
    }
}

/// Whether a function comes before that one, if there is one.
fn is_before(url: &Text, start: u32, end: u32, name: &Text, past: &Option<Key>) -> bool
    ensures { result ≡ comes_before (named url.now start end name.now) past.now }
{
    match past {
        Some(first) => order_to(url, start, end, name, first).is_lt(),
        None => true,
    }
}

/// How a function stands to a key in the order of the file.
fn order_to(url: &Text, start: u32, end: u32, name: &Text, key: &Key) -> Ordering
    ensures { result ≡ file_order (named url.now start end name.now) key.now }
{
    url.cmp(&key.url)
        .then(start.cmp(&key.start))
        .then(key.end.cmp(&end))
        .then(name.cmp(&key.name))
}
