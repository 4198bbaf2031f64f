//! The scripts of a book, each function with its sums.
ghost use Rattle.std.specs.Prelude.{◌≡◌, [], map, IfOk};
ghost use Rattle.cov_model.specs.Nesting.{AreNested};
ghost use Rattle.cov_book.specs.Prepared.{AreAligned, IsAligned, told_ranges, told_report};
ghost use Rattle.cov_book.specs.Listed.{all_listed, listed, own, told_script};

use crate::scripts::{Function, Script};
use cov_model::{Entry, FunctionReport, Items, ListForm, Range, Snapshot};
use cov_normal::{flat, normal};
use std::alloc::{AllocError, Global};

/// The scripts, each function with its sums as a list of this form.
pub fn scripts_of(alloc: Global, form: ListForm, scripts: &[Script]) -> Result<Snapshot, AllocError>
    requires aligned { AreAligned (all_listed scripts.now) }
    requires nested { AreNested (map (told_script form) scripts.now) }
    ensures { IfOk result (λ snapshot. snapshot ≡ map (told_script form) scripts.now) }
{
    let mut entries = Items::new(alloc);
    for script in scripts {
        entries.push(entry_of(alloc, form, script)?)?;
    }
    Ok(Snapshot::new(entries))
}

/// A script with its functions.
fn entry_of(alloc: Global, form: ListForm, script: &Script) -> Result<Entry, AllocError>
    requires { AreAligned (listed script.now) }
    ensures { IfOk result (λ entry. entry ≡ told_script form script.now) }
{
    let mut functions = Items::new(alloc);
    for function in script.functions.as_slice() {
        functions.push(report_of(alloc, form, function)?)?;
    }
    Ok(Entry {
        url: script.url.clone()?,
        functions,
    })
}

/// A function with its sums.
fn report_of(
    alloc: Global,
    form: ListForm,
    function: &Function,
) -> Result<FunctionReport, AllocError>
    requires { IsAligned (own [] function.now) }
    ensures { IfOk result (λ report. report ≡ told_report form (own [] function.now)) }
{
    Ok(FunctionReport {
        name: function.name.clone()?,
        block: function.sums.block,
        ranges: ranges_of(alloc, form, function)?,
    })
}

/// The ranges of a function, its root first.
pub fn ranges_of(
    alloc: Global,
    form: ListForm,
    function: &Function,
) -> Result<Items<Range>, AllocError>
    requires { IsAligned (own [] function.now) }
    ensures { IfOk result (λ ranges. ranges ≡ told_ranges form (own [] function.now)) }
{
    let (start, end, sums) = (function.start, function.end, &function.sums);
    match form {
        ListForm::Nested => normal(alloc, start, end, sums.root, &sums.runs),
        ListForm::Flat => flat(alloc, start, end, sums.root, &sums.runs),
    }
}
