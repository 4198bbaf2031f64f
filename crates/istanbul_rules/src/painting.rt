//! The counts of stretches of a text, by ranges in order.
ghost use Rattle.std.specs.Prelude.{◌≡◌, ◌++◌, map, IfOk};
ghost use Rattle.std.specs.List.Sorted.{IsNonDecreasingBy};
ghost use Rattle.istanbul_rules.specs.Painting.{covers, count_over, IsSameBetween, IsDecided};

use cov_model::Range;
use std::alloc::{AllocError, Global};

/// UTF-16 code units of a text, from `start` up to but without `end`.
#[derive(Clone, Copy, Debug, PartialEq, Eq)]
pub struct Stretch {
    /// The first unit.
    pub start: u64,
    /// The unit behind the last one.
    pub end: u64,
}

/// The count of each stretch: that of the last range that goes over the whole of it, and 1 where none does. The
/// stretches stand in order, by their starts and by their ends.
///
/// Takes time by the number of stretches, and by that of ranges times the logarithm of that of stretches. The only error
/// is want of memory.
pub fn counts_of(
    alloc: Global,
    stretches: &[Stretch],
    ranges: &[Range],
) -> Result<Vec<u64>, AllocError>
    requires starts { IsNonDecreasingBy (λ (s : Stretch). s.start) stretches.now }
    requires ends { IsNonDecreasingBy (λ (s : Stretch). s.end) stretches.now }
    ensures { IfOk result (λ counts. counts.items ≡ map (count_over 1 ranges.now) stretches.now) }
{
    let mut counts = Vec::new(alloc);
    paint(alloc, stretches, 1, ranges, &mut counts)?;
    Ok(counts)
}

// Puts the count of each stretch at the end of `counts`: a range that ends or begins within the stretches goes to the
// half that it does so in, and one that goes over all of them is their new base.
fn paint(
    alloc: Global,
    stretches: &[Stretch],
    base: u64,
    ranges: &[Range],
    counts: &mut Vec<u64>,
) -> Result<(), AllocError>
    requires starts { IsNonDecreasingBy (λ (s : Stretch). s.start) stretches.now }
    requires ends { IsNonDecreasingBy (λ (s : Stretch). s.end) stretches.now }
    ensures { IfOk result (λ _. counts.new.items ≡ counts.old.items ++ map (count_over base ranges.now) stretches.now) }
{
    let (Some(first), Some(last)) = (stretches.first(), stretches.last()) else {
        return Ok(());
    };
    let (base, left) = undecided(alloc, *first, *last, base, ranges)?;
    if left.is_empty() {
        return repeat(base, stretches, counts);
    }
    let (front, back) = stretches.split_at(stretches.len() / 2);
    paint(alloc, front, base, &left, counts)?;
    paint(alloc, back, base, &left, counts)
}

// Puts the same count at the end for each stretch.
fn repeat(count: u64, stretches: &[Stretch], counts: &mut Vec<u64>) -> Result<(), AllocError>
    ensures { IfOk result (λ _. counts.new.items ≡ counts.old.items ++ map (λ _. count) stretches.now) }
{
    for _stretch in stretches {
        counts.push(count)?;
    }
    Ok(())
}

// The ranges that go over some but not all of what lies between two stretches, behind the last that goes over all of it,
// and that one's count.
fn undecided(
    alloc: Global,
    first: Stretch,
    last: Stretch,
    base: u64,
    ranges: &[Range],
) -> Result<(u64, Vec<Range>), AllocError>
    ensures same { IfOk result (λ left. IsSameBetween first last (left.0, left.1.items) base ranges.now) }
    ensures decided { IfOk result (λ left. IsDecided first last left.1.items) }
{
    let mut count = base;
    let mut left = Vec::new(alloc);
    for range in ranges {
        if goes_over(*range, first.start, last.end) {
            count = range.count;
            left.clear();
        } else if goes_over(*range, last.start, first.end) {
            left.push(*range)?;
        }
    }
    Ok((count, left))
}

// Whether a range begins at `start` or before, and ends at `end` or behind.
fn goes_over(range: Range, start: u64, end: u64) -> bool
    ensures { result ≡ covers (record { start = start; end = end }) range }
{
    u64::from(range.start) <= start && end <= u64::from(range.end)
}
