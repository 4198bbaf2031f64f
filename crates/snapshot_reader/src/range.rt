//! The object of one range.
ghost use Rattle.std.specs.Prelude.{◌≡◌, Some, IfSome};
ghost use Rattle.snapshot_reader.specs.Snapshots.{GivesRange, HoldsRange};

use cov_model::Range;
use json::Reader;
use json_walk::{Listed, Membered, pass, read_object, read_offset, read_whole};
use std::alloc::Global;

/// The members of a range that were found so far.
#[derive(Drop)]
pub struct FoundRange {
    pub start: Option<u32>,
    pub end: Option<u32>,
    pub count: Option<u64>,
}

impl Membered for FoundRange {
    ghost holds = { HoldsRange };

    fn none() -> FoundRange {
        FoundRange {
            start: None,
            end: None,
            count: None,
        }
    }

    #[inline(always)]
    fn take(
        self,
        alloc: Global,
        key: &str,
        reader: &mut Reader<'_>,
        depth: usize,
    ) -> Option<FoundRange> {
        let FoundRange { start, end, count } = self;
        if key == "startOffset" {
            let new = read_offset(reader)?;
            return Some(FoundRange {
                start: Some(new),
                end,
                count,
            });
        }
        if key == "endOffset" {
            let new = read_offset(reader)?;
            return Some(FoundRange {
                start,
                end: Some(new),
                count,
            });
        }
        if key == "count" {
            let new = read_whole(reader)?;
            return Some(FoundRange {
                start,
                end,
                count: Some(new),
            });
        }
        pass(reader, depth)?;
        Some(FoundRange { start, end, count })
    }
}

// The range that was found, where all its members were.
fn range_in(found: FoundRange) -> Option<Range>
    ensures { IfSome result (λ r. (found.start ≡ Some r.start) × (found.end ≡ Some r.end)
        × (found.count ≡ Some r.count)) }
{
    let FoundRange { start, end, count } = found;
    Some(Range {
        start: start?,
        end: end?,
        count: count?,
    })
}

impl Listed for FoundRange {
    type Of = Range;

    ghost gives = { GivesRange };

    fn read(alloc: Global, reader: &mut Reader<'_>, depth: usize) -> Option<Range> {
        let found: FoundRange = read_object(alloc, reader, depth)?;
        range_in(found)
    }
}
