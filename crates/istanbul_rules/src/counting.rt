//! The counts of lines.
ghost use Rattle.std.specs.Prelude.{◌≡◌, ◌<◌, ◌++◌, ℕ, Some, length, map, slice_index_or, IfOk, OnOk};
ghost use Rattle.std.specs.List.{All, Contains};
ghost use Rattle.std.specs.List.Sorted.{IsNonDecreasing, IsNonDecreasingBy};
ghost use Rattle.source_remap.specs.declared.lines.Landing.{Landing};
ghost use Rattle.source_remap.specs.Groups.{of_source};
ghost use Rattle.istanbul_rules.specs.Parts.{direct_line, count_at, greatest};
ghost use Rattle.istanbul_rules.specs.Painting.{stretch_of_line, stretch_at};
ghost use Rattle.istanbul_rules.specs.declared.painting.Stretch.{Stretch};

use crate::painting::{Stretch, counts_of};
use cov_model::Range;
use cov_text::Items;
use source_remap::Landing;
use std::alloc::{AllocError, Global};
use utf16_lines::{LineTable, Span};

/// The count of each line of the text itself, by the ranges in order.
pub fn direct_lines(
    alloc: Global,
    table: &LineTable,
    ranges: &[Range],
) -> Result<Items<Option<u64>>, AllocError>
    ensures { IfOk result (λ lines. lines ≡ map (λ span. Some (direct_line ranges.now span)) table.now.spans) }
{
    let stretches = line_stretches(alloc, table)?;
    let counts = counts_of(alloc, &stretches, ranges)?;
    let mut lines = Items::new(alloc);
    for count in &counts {
        lines.push(Some(*count))?;
    }
    Ok(lines)
}

// The lines of a table.
fn line_stretches(alloc: Global, table: &LineTable) -> Result<Vec<Stretch>, AllocError>
    ensures value { IfOk result (λ stretches. stretches.items ≡ map stretch_of_line table.now.spans) }
    ensures starts { IfOk result (λ stretches. IsNonDecreasingBy (λ (s : Stretch). s.start) stretches.items) }
    ensures ends { IfOk result (λ stretches. IsNonDecreasingBy (λ (s : Stretch). s.end) stretches.items) }
{
    let mut stretches = Vec::new(alloc);
    let lines = table.lines();
    for i in 0..lines {
        if let Some(span) = table.line(i) {
            stretches.push(stretch_of(span))?;
        }
    }
    Ok(stretches)
}

// A line as a stretch of the text.
fn stretch_of(line: Span) -> Stretch
    ensures { result ≡ stretch_of_line line }
{
    Stretch {
        start: u64::from(line.start),
        end: u64::from(line.end),
    }
}

/// The greatest count at the anchors of each line, and none where a line has no anchor. The offsets rise, each anchor is
/// one of them, and each has its count.
pub fn mapped_lines(
    alloc: Global,
    anchors: &[Items<u32>],
    offsets: &[u32],
    counts: &[u64],
) -> Result<Items<Option<u64>>, AllocError>
    requires sorted { IsNonDecreasing offsets.now }
    requires counts { length counts.now ≡ length offsets.now }
    requires within { All (All (Contains offsets.now)) anchors.now }
    ensures { IfOk result (λ lines. (count_of : ℕ → ℕ) → counts.now ≡ map count_of offsets.now → lines ≡ map (λ places. greatest (map count_of places)) anchors.now) }
{
    let mut lines = Items::new(alloc);
    for places in anchors {
        lines.push(greatest_count(places.as_slice(), offsets, counts))?;
    }
    Ok(lines)
}

/// The offsets of all landings, rising.
pub fn landing_offsets(alloc: Global, landings: &[Items<Landing>]) -> Result<Vec<u32>, AllocError>
    ensures sorted { IfOk result (λ offsets. IsNonDecreasing offsets.items) }
    ensures all { IfOk result (λ offsets. (source : ℕ) → All (Contains offsets.items) (map (λ (l : Landing). l.offset) (of_source landings.now source))) }
{
    let mut offsets = Vec::new(alloc);
    for list in landings {
        add_offsets(list.as_slice(), &mut offsets)?;
    }
    offsets.sort_unstable();
    Ok(offsets)
}

// Puts the offsets of these landings at the end.
fn add_offsets(landings: &[Landing], offsets: &mut Vec<u32>) -> Result<(), AllocError>
    ensures { OnOk result (offsets.new.items ≡ offsets.old.items ++ map (λ (l : Landing). l.offset) landings.now) }
{
    for landing in landings {
        offsets.push(landing.offset)?;
    }
    Ok(())
}

/// The count at each of these offsets, which rise, by the ranges in order.
pub fn counts_at(alloc: Global, offsets: &[u32], ranges: &[Range]) -> Result<Vec<u64>, AllocError>
    requires { IsNonDecreasing offsets.now }
    ensures { IfOk result (λ counts. counts.items ≡ map (count_at ranges.now) offsets.now) }
{
    let stretches = unit_stretches(alloc, offsets)?;
    counts_of(alloc, &stretches, ranges)
}

// The units at offsets.
fn unit_stretches(alloc: Global, offsets: &[u32]) -> Result<Vec<Stretch>, AllocError>
    requires { IsNonDecreasing offsets.now }
    ensures value { IfOk result (λ stretches. stretches.items ≡ map stretch_at offsets.now) }
    ensures starts { IfOk result (λ stretches. IsNonDecreasingBy (λ (s : Stretch). s.start) stretches.items) }
    ensures ends { IfOk result (λ stretches. IsNonDecreasingBy (λ (s : Stretch). s.end) stretches.items) }
{
    let mut stretches = Vec::new(alloc);
    for offset in offsets {
        let start = u64::from(*offset);
        stretches.push(Stretch {
            start,
            end: start + 1,
        })?;
    }
    Ok(stretches)
}

// The greatest of the counts at these places, each one of the offsets.
fn greatest_count(places: &[u32], offsets: &[u32], counts: &[u64]) -> Option<u64>
    requires sorted { IsNonDecreasing offsets.now }
    requires counts { length counts.now ≡ length offsets.now }
    requires within { All (Contains offsets.now) places.now }
    ensures { (count_of : ℕ → ℕ) → counts.now ≡ map count_of offsets.now → result ≡ greatest (map count_of places.now) }
{
    let mut most: Option<u64> = None;
    for place in places {
        let count = counts[first_at(offsets, *place)];
        most = Some(match most {
            Some(other) => other.max(count),
            None => count,
        });
    }
    most
}

// Where an offset first stands among these.
fn first_at(offsets: &[u32], offset: u32) -> usize
    requires sorted { IsNonDecreasing offsets.now }
    requires within { Contains offsets.now offset }
    ensures below { result < length offsets.now }
    ensures found { (d : ℕ) → slice_index_or offsets.now result d ≡ offset }
{
    offsets.partition_point(|other| *other < offset)
}
