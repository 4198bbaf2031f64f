//! The reports of one function, and what they sum to.
ghost use Rattle.std.specs.Prelude.{◌≡◌, ◌++◌, map, filter, OnOk, sum_by, None};
ghost use Rattle.cov_model.specs.Nesting.{range_fault, AreReportsNested};
ghost use Rattle.cov_model.specs.Sums.{is_of, reports};
ghost use Rattle.cov_book.specs.Counts.{capped, reports_in, weight};

use cov_model::{At, Entry, FunctionReport, Key, Snapshot, Text};
use cov_ranges::count_at;
use std::alloc::AllocError;

/// Puts the reports of a key in one snapshot at the end.
pub fn add_reports<'a>(
    found: &mut Vec<&'a FunctionReport>,
    snapshot: &'a Snapshot,
    key: &Key,
) -> Result<(), AllocError>
    ensures { OnOk result (map (λ r. r.now) found.new.items ≡ map
        (λ r. r.now) found.old.items ++ reports_in key.now snapshot.now) }
{
    for entry in snapshot.scripts() {
        add_script_reports(found, entry, key)?;
    }
    Ok(())
}

fn add_script_reports<'a>(
    found: &mut Vec<&'a FunctionReport>,
    entry: &'a Entry,
    key: &Key,
) -> Result<(), AllocError>
    ensures { OnOk result (map (λ r. r.now) found.new.items ≡ map
        (λ r. r.now) found.old.items ++ filter (is_of key.now entry.now.url) entry.now.functions) }
{
    for report in entry.functions.as_slice() {
        if is_one(key, &entry.url, report) {
            found.push(report)?;
        }
    }
    Ok(())
}

/// Whether a report is one of the key's.
fn is_one(key: &Key, url: &Text, report: &FunctionReport) -> bool
    ensures { result ≡ is_of key.now url.now report.now }
{
    match report.ranges.get(0) {
        Some(root) => {
            key.url == *url
                && root.start == key.start
                && root.end == key.end
                && key.name == report.name
        }
        None => false,
    }
}

/// The sum of the counts of reports at a point, as far as 128 bits go.
pub fn sum_of(found: &[&FunctionReport], at: At) -> u128
    requires { AreReportsNested (map (λ r. r.now) found.now) }
    ensures { result ≡ capped (sum_by (weight at) (map (λ r. r.now) found.now)) }
{
    let mut sum = 0u128;
    for report in found {
        sum = sum.saturating_add(count_at_point(report, at) as u128);
    }
    sum
}

/// A report's count at a point.
fn count_at_point(report: &FunctionReport, at: At) -> u64
    requires { range_fault report.now.ranges ≡ None }
    ensures { result ≡ weight at report.now }
{
    match at {
        At::Root => report.ranges.get(0).map(|root| root.count).unwrap_or(0),
        At::Offset(offset) => count_at(report, offset).unwrap_or(0),
    }
}
