//! Reading a text of mappings.
ghost use Rattle.std.specs.Prelude.{List, ◌≡◌, ◌+◌, ◌≤◌, Ok, length, IfOk, IfErr};
ghost use Rattle.cov_text.specs.Listing.{max_text};
ghost use Rattle.vlq_mappings.specs.declared.Segment.{Segment};
ghost use Rattle.vlq_mappings.specs.FirstFault.{IsFirstFault};
ghost use Rattle.vlq_mappings.specs.Gives.{Gives, GivesMappings};
ghost use Rattle.vlq_mappings.specs.Mappings.{mappings};
ghost use Rattle.vlq_mappings.specs.Grammar.{SpellsMappings};
ghost use Rattle.vlq_mappings.specs.Pieces.{is_end, line_at, line_segments};

use crate::last::{Last, START};
use crate::segments::read_segment;
use crate::{Mappings, Segment, VlqFault};
use cov_text::Items;
use std::alloc::{AllocError, AllocFailed, Global};

impl From<AllocError> for VlqFault {
    ghost use Rattle.vlq_mappings.specs.declared.VlqFault.TheVariants.{NoMemory};

    ghost from_gives = { λ _ fault. fault ≡ NoMemory };

    fn from(_: AllocError) -> VlqFault {
        VlqFault::NoMemory
    }
}

impl<T: Drop> From<AllocFailed<T>> for VlqFault {
    ghost use Rattle.vlq_mappings.specs.declared.VlqFault.TheVariants.{NoMemory};

    ghost from_gives = { λ _ fault. fault ≡ NoMemory };

    fn from(_: AllocFailed<T>) -> VlqFault {
        VlqFault::NoMemory
    }
}

/// Reads the `mappings` text of Source Map revision 3. Exactly the texts of its grammar are read: values in base64
/// VLQ (long spellings and a negative zero too), segments of 1, 4 or 5 values between commas (an empty one is none),
/// lines between semicolons. The generated column counts from the last one of its line, the other numbers from their
/// last in the text; none may be negative or pass 2^31 - 1.
///
/// # Errors
///
/// [`VlqFault::At`] names the first fault of the text; [`VlqCause`](crate::VlqCause) says what each is and where its
/// place lies. [`VlqFault::NoMemory`] comes where memory runs out.
pub fn read_mappings(alloc: Global, text: &str) -> Result<Mappings, VlqFault>
    requires { length text.now ≤ max_text }
    // What is read is spelled so.
    ensures found { IfOk result (λ lines. SpellsMappings text.now lines) }
    // What is spelled so is read, unless memory runs out.
    ensures only { (lines : List (List Segment)) → SpellsMappings text.now lines → GivesMappings result (Ok lines) }
    // A fault is the first of the text, unless memory runs out.
    ensures first { IfErr result (λ fault. IsFirstFault text.now fault) }
    // In one definition, which gives the lines or the first fault.
    ensures exact { GivesMappings result (mappings text.now) }
{
    read_lines(alloc, text)
}

// The lines of a text, or its first fault.
fn read_lines(alloc: Global, text: &str) -> Result<Mappings, VlqFault>
    requires { length text.now ≤ max_text }
    ensures { GivesMappings result (mappings text.now) }
{
    let bytes = text.as_bytes();
    let mut lines = Items::new(alloc);
    let (line, mut last, mut at) = read_line(alloc, bytes, 0, START)?;
    lines.push(line)?;
    'lines: while at < bytes.len() {
        let start = Last { column: 0, ..last };
        let (line, behind, end) = read_line(alloc, bytes, at + 1, start)?;
        lines.push(line)?;
        last = behind;
        at = end;
    }
    Ok(Mappings::new(lines))
}

// The segments of the line that begins at a place, the last numbers behind them, and where the line ends.
fn read_line(
    alloc: Global,
    bytes: &[u8],
    from: usize,
    last: Last,
) -> Result<(Items<Segment>, Last, usize), VlqFault>
    requires short { length bytes.now ≤ max_text }
    ensures segments { Gives (λ r. (r.0, r.1)) result (line_segments bytes.now from last) }
    ensures end { IfOk result (λ r. r.2 ≡ from + length (line_at bytes.now from)) }
{
    let mut segments = Items::new(alloc);
    let mut last = last;
    let mut at = from;
    'pieces: while !ends_line(bytes, at) {
        if bytes[at] == b',' {
            at += 1;
        } else {
            let (segment, behind, end) = read_segment(bytes, at, last)?;
            segments.push(segment)?;
            last = behind;
            at = end;
        }
    }
    Ok((segments, last, at))
}

// Whether no line goes on here: the text ends, or `;` stands here.
fn ends_line(bytes: &[u8], at: usize) -> bool
    ensures { result ≡ is_end (line_at bytes.now at) }
{
    at >= bytes.len() || bytes[at] == b';'
}
