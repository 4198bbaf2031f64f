//! How many things a list of snapshots comes to.
ghost use Rattle.std.specs.Prelude.{◌≡◌, ◌+◌, [], length, min, sum_by, IfOk};
ghost use Rattle.cov_text.specs.Listing.{limit};
ghost use Rattle.cov_book.specs.Counts.{capped};
ghost use Rattle.cov_book.specs.Listed.{all_listed, bare, own, urls_in};
ghost use Rattle.cov_book.specs.Numbers.{numbers_told, ranges_told, root_told};
ghost use Rattle.cov_book.specs.Prepared.{AreAligned, IsAligned};

use crate::merged::ranges_of;
use crate::scripts::{Function, Script};
use cov_model::ListForm;
use std::alloc::{AllocError, Global};

/// How many things a list of snapshots comes to. A number past the greatest one of its type is told
/// as that.
#[derive(Clone, Copy, Debug, PartialEq, Eq)]
pub struct Numbers {
    /// The urls of scripts, each counted once.
    pub scripts: u64,
    /// The functions, each counted once.
    pub functions: u64,
    /// The ranges of the functions' normal lists, their roots among them.
    pub ranges: u64,
    /// The sum of the functions' root counts.
    pub roots: u128,
}

/// The numbers of scripts and functions. The normal list of each function is made to be counted,
/// one after the other.
pub fn numbers_in(alloc: Global, scripts: &[Script]) -> Result<Numbers, AllocError>
    requires { AreAligned (all_listed scripts.now) }
    ensures { IfOk result (λ numbers. numbers
        ≡ numbers_told (urls_in scripts.now) (all_listed scripts.now)) }
{
    let mut numbers = Numbers {
        scripts: scripts.len() as u64,
        functions: 0,
        ranges: 0,
        roots: 0,
    };
    for script in scripts {
        numbers = with_functions(alloc, numbers, script.functions.as_slice())?;
    }
    Ok(numbers)
}

/// The numbers with those of more functions.
fn with_functions(
    alloc: Global,
    before: Numbers,
    functions: &[Function],
) -> Result<Numbers, AllocError>
    requires { AreAligned (bare functions.now) }
    ensures scripts { IfOk result (λ numbers. numbers.scripts ≡ before.scripts) }
    ensures functions { IfOk result (λ numbers. numbers.functions
        ≡ min (before.functions + length functions.now) limit) }
    ensures ranges { IfOk result (λ numbers. numbers.ranges
        ≡ min (before.ranges + sum_by ranges_told (bare functions.now)) limit) }
    ensures roots { IfOk result (λ numbers. numbers.roots
        ≡ capped (before.roots + sum_by root_told (bare functions.now))) }
{
    let mut ranges = before.ranges;
    let mut roots = before.roots;
    for function in functions {
        ranges = ranges.saturating_add(range_count(alloc, function)?);
        roots = roots.saturating_add(function.sums.root as u128);
    }
    Ok(Numbers {
        scripts: before.scripts,
        functions: before.functions.saturating_add(functions.len() as u64),
        ranges,
        roots,
    })
}

/// How many ranges the normal list of a function has, its root among them.
fn range_count(alloc: Global, function: &Function) -> Result<u64, AllocError>
    requires { IsAligned (own [] function.now) }
    ensures { IfOk result (λ count. count ≡ ranges_told (own [] function.now)) }
{
    let ranges = ranges_of(alloc, ListForm::Nested, function)?;
    Ok(ranges.len() as u64)
}
