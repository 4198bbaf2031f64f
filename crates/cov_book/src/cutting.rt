//! A snapshot cut into parts that stand in the order in which a book keeps its functions.
//!
//! What an addition comes to doesn't depend on that order, which no clause tells. It is there so that each function comes
//! behind those that were added before it.
ghost use Rattle.std.specs.Prelude.{◌≡◌, ◌++◌, [], ◌∷◌, IfOk, OnOk};
ghost use Rattle.cov_model.specs.Nesting.{AreNested};
ghost use Rattle.cov_book.specs.Weights.{entries_in, entry_of, AreAlike};

use cov_model::{FunctionReport, Snapshot, Text};
use std::alloc::{AllocError, Global};
use std::cmp::Ordering;
use std::slice::from_ref;

/// Reports of one url.
#[derive(Clone, Copy)]
pub struct Part<'a> {
    pub url: &'a Text,
    pub reports: &'a [FunctionReport],
}

/// The reports of a snapshot, by urls, starts rising, ends falling and names. A script whose
/// functions stand in that order is one part, unless its url comes again. Any other has a part for
/// each report.
pub fn parts_of<'a>(alloc: Global, snapshot: &'a Snapshot) -> Result<Vec<Part<'a>>, AllocError>
    ensures alike { IfOk result (λ parts. AreAlike snapshot.now (entries_in parts.items)) }
    ensures nested { AreNested snapshot.now }
{
    let mut wholes = wholes_of(alloc, snapshot)?;
    wholes.sort_by(|a, b| a.url.cmp(b.url))?;
    let mut parts = cut(alloc, &wholes)?;
    parts.sort_by(|a, b| order_of_parts(a, b))?;
    Ok(parts)
}

/// Each script as one part.
fn wholes_of<'a>(alloc: Global, snapshot: &'a Snapshot) -> Result<Vec<Part<'a>>, AllocError>
    ensures wholes { IfOk result (λ parts. entries_in parts.items ≡ snapshot.now) }
    ensures nested { AreNested snapshot.now }
{
    let mut parts = Vec::new(alloc);
    for entry in snapshot.scripts() {
        let url = &entry.url;
        let reports = entry.functions.as_slice();
        parts.push(Part { url, reports })?;
    }
    Ok(parts)
}

/// The parts, those that don't stand in order cut into single reports.
fn cut<'a>(alloc: Global, wholes: &[Part<'a>]) -> Result<Vec<Part<'a>>, AllocError>
    ensures { IfOk result (λ parts. AreAlike (entries_in wholes.now) (entries_in parts.items)) }
{
    let mut parts = Vec::new(alloc);
    for i in 0..wholes.len() {
        let whole = &wholes[i];
        let stays = is_alone(wholes, i) && is_in_order(whole.reports);
        add_part(&mut parts, whole, stays)?;
    }
    Ok(parts)
}

/// Puts a part at the end, as it is or else cut.
fn add_part<'a>(parts: &mut Vec<Part<'a>>, whole: &Part<'a>, stays: bool) -> Result<(), AllocError>
    ensures { OnOk result (AreAlike (entries_in parts.old.items ++ entry_of whole.now ∷ []) (entries_in
        parts.new.items)) }
{
    if stays {
        parts.push(*whole)?;
        return Ok(());
    }
    cut_one(parts, whole)
}

/// Puts each report of a part at the end as a part of its own, and one without a report.
fn cut_one<'a>(parts: &mut Vec<Part<'a>>, whole: &Part<'a>) -> Result<(), AllocError>
    ensures { OnOk result (AreAlike (entries_in parts.old.items ++ entry_of whole.now ∷ []) (entries_in
        parts.new.items)) }
{
    let url = whole.url;
    for report in whole.reports {
        let reports = from_ref(report);
        parts.push(Part { url, reports })?;
    }
    parts.push(Part { url, reports: &[] })?;
    Ok(())
}

/// Whether no part beside this one has its url.
fn is_alone(parts: &[Part], i: usize) -> bool {
    let Some(part) = parts.get(i) else {
        return true;
    };
    let before = parts.get(i.wrapping_sub(1));
    let next = parts.get(i.saturating_add(1));
    !has_url(before, part.url) && !has_url(next, part.url)
}

fn has_url(part: Option<&Part>, url: &Text) -> bool {
    match part {
        Some(part) => part.url == url,
        None => false,
    }
}

/// Whether the reports stand by starts rising, ends falling and names.
fn is_in_order(reports: &[FunctionReport]) -> bool {
    reports.is_sorted_by(|a, b| !order_of_reports(b, a).is_lt())
}

/// Parts by urls, and then by their first reports.
fn order_of_parts(a: &Part, b: &Part) -> Ordering {
    match a.url.cmp(b.url) {
        Ordering::Equal => order_of_firsts(a.reports, b.reports),
        order => order,
    }
}

fn order_of_firsts(a: &[FunctionReport], b: &[FunctionReport]) -> Ordering {
    let Some(one) = a.first() else {
        return Ordering::Less;
    };
    let Some(other) = b.first() else {
        return Ordering::Greater;
    };
    order_of_reports(one, other)
}

/// Reports by their roots' starts rising and ends falling, and by their names.
fn order_of_reports(a: &FunctionReport, b: &FunctionReport) -> Ordering {
    let (Some(one), Some(other)) = (a.ranges.get(0), b.ranges.get(0)) else {
        return Ordering::Equal;
    };
    match one.start.cmp(&other.start) {
        Ordering::Equal => match other.end.cmp(&one.end) {
            Ordering::Equal => a.name.cmp(&b.name),
            order => order,
        },
        order => order,
    }
}
