//! The order in which V8 lists ranges.
ghost use Rattle.std.specs.Prelude.{◌≡◌, ◌↔◌, IsTrue, IfOk};
ghost use Rattle.std.specs.List.Sorted.{IsPermutation, IsSortedBy, IsStableBy};
ghost use Rattle.std.specs.Ordering.{is_lt};
ghost use Rattle.cov_ranges.specs.Order.{comes_first};

use cov_model::Range;
use std::alloc::{AllocError, Global};
use std::cmp::Ordering;

/// Whether the ranges stand by starts rising, and of one start by ends falling.
pub fn are_in_order(ranges: &[Range]) -> bool
    ensures { IsTrue result ↔ IsSortedBy comes_first ranges.now }
{
    ranges.is_sorted_by(|a, b| !order_of(*b, *a).is_lt())
}

/// A copy of the ranges in that order. Those of one start and end keep theirs.
pub fn in_order(alloc: Global, ranges: &[Range]) -> Result<Vec<Range>, AllocError>
    ensures permutation { IfOk result (λ ordered. IsPermutation ranges.now ordered.items) }
    ensures sorted { IfOk result (λ ordered. IsSortedBy comes_first ordered.items) }
    ensures stable { IfOk result (λ ordered. IsStableBy comes_first ranges.now ordered.items) }
{
    let mut ordered = Vec::from_slice(alloc, ranges)?;
    ordered.sort_by(|a, b| order_of(*a, *b))?;
    Ok(ordered)
}

fn order_of(a: Range, b: Range) -> Ordering
    ensures { is_lt result ≡ comes_first a b }
{
    a.start.cmp(&b.start).then(b.end.cmp(&a.end))
}

/// Whether two lists of ranges are one.
pub fn are_one(a: &[Range], b: &[Range]) -> bool
    ensures { IsTrue result ↔ (a.now ≡ b.now) }
{
    a == b
}
