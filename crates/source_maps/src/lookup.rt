//! Which segment a generated spot belongs to.
ghost use Rattle.std.specs.Prelude.{◌≡◌, ◌↔◌, ◌≤◌, [], None, true, false, length};
ghost use Rattle.std.specs.List.Sorted.{IsSortedByKey, IsPartitionPoint};
ghost use Rattle.source_maps.specs.At.{segment_at, begun, spot_of, spot_cmp};
ghost use Rattle.source_maps.specs.Search.{stands_by};

use crate::{MapSegment, SourceMap};

impl SourceMap {
    /// The segment that a generated spot belongs to: of those on its line that begin at its column or before, that of
    /// the greatest column, of equal ones the last. `None` exactly where there is none.
    ///
    /// Takes no memory, and time by the logarithm of the number of segments.
    pub fn at(&self, line: u32, column: u32) -> Option<MapSegment>
        ensures segment { result ≡ segment_at self.now.segments line column }
        ensures none { (result ≡ None) ↔ (begun self.now.segments line column ≡ []) }
    {
        let segments = self.segments();
        let end = end_of_spot(segments, line, column);
        if end == 0 {
            return None;
        }
        let last = segments[end - 1];
        if last.line == line { Some(last) } else { None }
    }
}

// How many segments stand at a spot or before, by binary search.
fn end_of_spot(segments: &[MapSegment], line: u32, column: u32) -> usize
    requires { IsSortedByKey spot_of spot_cmp segments.now }
    ensures bound { result ≤ length segments.now }
    ensures parted { IsPartitionPoint (λ s. stands_by line column s ≡ true) (λ s. stands_by line column s ≡ false) segments.now result }
{
    segments.partition_point(|s| s.line < line || s.line == line && s.column <= column)
}
