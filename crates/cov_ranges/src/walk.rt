//! A walk over ranges with a stack of those that are still open.
ghost use Rattle.std.specs.Prelude.{◌≡◌, ◌+◌, ◌<◌, IfOk, true, filter};
ghost use Rattle.std.specs.List.{list_any};
ghost use Rattle.cov_model.specs.Nesting.{each_pair, is_within};
ghost use Rattle.cov_ranges.specs.Order.{precedes, ends_behind, ends_before};
ghost use Rattle.cov_ranges.specs.Front.{are_apart};

use cov_model::Range;
use std::alloc::{AllocError, Global};

// Whether no two of these ranges in V8's order cross. Each has to end no later than the last that is open where it
// starts.
pub(crate) fn nest_in_order(alloc: Global, ranges: &[Range]) -> Result<bool, AllocError>
    requires { each_pair precedes ranges.now ≡ true }
    ensures { IfOk result (λ nest. nest ≡ are_apart ranges.now) }
{
    let mut stack: Vec<Range> = Vec::new(alloc);
    for r in ranges {
        close(&mut stack, r.start);
        if any_ends_before(stack.as_slice(), u64::from(r.end)) {
            return Ok(false);
        }
        stack.push(*r)?;
    }
    Ok(true)
}

// Takes those away that end at an offset or before, of ranges each of which lies in the one before.
fn close(stack: &mut Vec<Range>, start: u32)
    requires { each_pair is_within stack.old.items ≡ true }
    ensures { stack.new.items ≡ filter (ends_behind start) stack.old.items }
{
    let behind = u64::from(start) + 1;
    'ended: while any_ends_before(stack.as_slice(), behind) {
        let _ = stack.pop();
    }
}

// Whether one ends before an offset, of ranges each of which lies in the one before: the last ends first.
fn any_ends_before(stack: &[Range], offset: u64) -> bool
    requires { each_pair is_within stack.now ≡ true }
    ensures { result ≡ list_any (ends_before offset) stack.now }
{
    match stack.last() {
        Some(last) => u64::from(last.end) < offset,
        None => false,
    }
}
