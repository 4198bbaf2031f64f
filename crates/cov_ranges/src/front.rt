//! How far a list of ranges has no fault.
ghost use Rattle.std.specs.Prelude.{◌≡◌, IfOk};
ghost use Rattle.cov_ranges.specs.Front.{sound, are_sound, are_apart, IsLongestFront};

use crate::check::lies_in;
use crate::order::{are_in_order, in_order};
use crate::walk::nest_in_order;
use cov_model::Range;
use std::alloc::{AllocError, Global};

// How many ranges at the front end no sooner than they start and lie in the root.
pub(crate) fn count_sound(root: Range, ranges: &[Range]) -> usize
    ensures { IsLongestFront (are_sound root) ranges.now result }
{
    for (k, r) in ranges.iter().enumerate() {
        if !is_sound(root, *r) {
            return k;
        }
    }
    ranges.len()
}

fn is_sound(root: Range, r: Range) -> bool
    ensures { result ≡ sound root r }
{
    r.start <= r.end && lies_in(root, r)
}

// How many ranges at the front don't cross: all, or else so many as a search by halves finds.
pub(crate) fn count_apart(alloc: Global, ranges: &[Range]) -> Result<usize, AllocError>
    ensures { IfOk result (λ count. IsLongestFront are_apart ranges.now count) }
{
    if all_apart(alloc, ranges)? {
        return Ok(ranges.len());
    }
    let mut low = 0;
    let mut high = ranges.len();
    'halves: while low + 1 < high {
        let middle = low + (high - low) / 2;
        if all_apart(alloc, &ranges[..middle])? {
            low = middle;
        } else {
            high = middle;
        }
    }
    Ok(low)
}

// Whether no two cross.
fn all_apart(alloc: Global, ranges: &[Range]) -> Result<bool, AllocError>
    ensures { IfOk result (λ apart. apart ≡ are_apart ranges.now) }
{
    if are_in_order(ranges) {
        return nest_in_order(alloc, ranges);
    }
    let ordered = in_order(alloc, ranges)?;
    nest_in_order(alloc, ordered.as_slice())
}
