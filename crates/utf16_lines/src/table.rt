//! Making a table, and asking it.
ghost use Rattle.std.specs.Prelude.{◌≡◌, ◌<◌, ◌≤◌, ◌↔◌, ◌⊎◌, None, true, false, length, slice_get, IfOk, IfSome};
ghost use Rattle.std.specs.List.Sorted.{IsNonDecreasingBy, IsPartitionPoint};
ghost use Rattle.cov_text.specs.Listing.{max_text};
ghost use Rattle.utf16_lines.specs.Table.{IsTable};
ghost use Rattle.utf16_lines.specs.Lines.{table_of, table_of_lengths, place, offset, column_in, begins_by};
ghost use Rattle.utf16_lines.specs.Gives.{GivesTable};

use crate::{LengthFault, LineTable, Span, Spot, scan};
use std::alloc::{AllocError, Global};

impl LineTable {
    /// The lines of a text. A line ends at LF or at CR LF; a CR that no LF follows, U+2028 and U+2029 are ordinary
    /// characters. Behind a line end at the end of the text there is no further line, and the empty text has none.
    ///
    /// The only error is want of memory.
    pub fn of(alloc: Global, text: &str) -> Result<LineTable, AllocError>
        requires { length text.now ≤ max_text }
        ensures { IfOk result (λ table. table ≡ table_of text.now) }
    {
        let (spans, units) = scan::text_lines(alloc, text.as_bytes())?;
        Ok(LineTable { spans, units })
    }

    /// The lines of these lengths, in UTF-16 code units. Each line but the last is followed by one unit of line end,
    /// and a last length of 0 makes a line.
    ///
    /// `TooLong` comes exactly where the units, the lengths and the line ends together, pass 4,294,967,294;
    /// `NoMemory` is want of memory.
    pub fn of_lengths(alloc: Global, lengths: &[u32]) -> Result<LineTable, LengthFault>
        ensures { GivesTable result (table_of_lengths lengths.now) }
    {
        let (spans, units) = scan::length_lines(alloc, lengths)?;
        Ok(LineTable { spans, units })
    }

    /// How many lines there are.
    ///
    /// The lines of every table stand in order within its units, a unit of line end at least between two.
    pub fn lines(&self) -> u32
        ensures count { result ≡ length self.now.spans }
        ensures order { IsTable self.now.spans self.now.units }
    {
        self.spans.len() as u32
    }

    /// How many UTF-16 code units the text has, its line ends among them.
    pub fn units(&self) -> u32
        ensures { result ≡ self.now.units }
    {
        self.units
    }

    /// The span of a line, counted from 0, and `None` exactly where there are no more than `i` lines.
    pub fn line(&self, i: u32) -> Option<Span>
        ensures span { result ≡ slice_get self.now.spans i }
        ensures within { IfSome result (λ span. (span.start ≤ span.end) × (span.end ≤ self.now.units)) }
    {
        self.spans.get(i as usize).copied()
    }

    /// The spot of an offset in UTF-16 code units: the last line that begins there or before, and in it the distance
    /// from its start, cut to its length. `None` exactly where the offset passes the units, or there is no line.
    ///
    /// Takes no memory, and time by the logarithm of the number of lines.
    pub fn place(&self, offset: u32) -> Option<Spot>
        ensures spot { result ≡ place self.now offset }
        ensures none { (result ≡ None) ↔ ((self.now.units < offset) ⊎ (length self.now.spans ≡ 0)) }
    {
        if offset > self.units {
            return None;
        }
        let spans = self.spans.as_slice();
        let begun = lines_begun(spans, offset);
        if begun == 0 {
            return None;
        }
        let line = begun - 1;
        Some(Spot {
            line: line as u32,
            column: column_of(spans[line], offset),
        })
    }

    /// The offset of a spot in UTF-16 code units, and `None` exactly where the line isn't in the table or the column
    /// passes its length.
    ///
    /// Takes no memory, and the same time for every table.
    pub fn offset(&self, spot: Spot) -> Option<u32>
        ensures { result ≡ offset self.now spot }
    {
        let span = self.line(spot.line)?;
        if spot.column <= span.end - span.start {
            Some(span.start + spot.column)
        } else {
            None
        }
    }
}

// How many lines begin at an offset or before, by binary search.
fn lines_begun(spans: &[Span], offset: u32) -> usize
    requires { IsNonDecreasingBy (λ (span : Span). span.start) spans.now }
    ensures bound { result ≤ length spans.now }
    ensures begun { IsPartitionPoint (λ span. begins_by offset span ≡ true) (λ span. begins_by offset span ≡ false) spans.now result }
{
    spans.partition_point(|span| span.start <= offset)
}

// How far an offset is in a line that begins there or before, cut to the line's length.
fn column_of(span: Span, offset: u32) -> u32
    requires order { span.start ≤ span.end }
    requires begun { span.start ≤ offset }
    ensures { result ≡ column_in span offset }
{
    (offset - span.start).min(span.end - span.start)
}
