//! Writing a text of mappings.
ghost use Rattle.std.specs.Prelude.{ℕ, List, ◌≡◌, ◌+◌, ◌≤◌, ◌<◌, ◌^◌, ◌∷◌, ◌++◌, [], Ok, length, IfOk, OnOk, Some, string_bytes};
ghost use Rattle.std.specs.List.{join_with_byte};
ghost use Rattle.vlq_mappings.specs.Grammar.{SpellsMappings, behind, behind_origin, behind_line, name_or};
ghost use Rattle.vlq_mappings.specs.Mappings.{next_line, mappings as lines_of};
ghost use Rattle.vlq_mappings.specs.Written.{written, spelled, step, name_text, origin_text, segment_text, segment_texts, line_texts, preceded};

use crate::digits::glyph_of;
use crate::last::{Last, START};
use crate::{Mappings, Origin, Segment};
use cov_text::Items;
use std::alloc::{AllocError, Global};

/// Writes mappings as the `mappings` text of Source Map revision 3: each value in its shortest spelling, no empty
/// segment. [`read_mappings`](crate::read_mappings) gives the same mappings back.
///
/// # Errors
///
/// [`AllocError`] where memory runs out.
pub fn write_mappings(alloc: Global, mappings: &Mappings) -> Result<String, AllocError>
    // The text is that of the lines, in the shortest spelling.
    ensures text { IfOk result (λ text. string_bytes text ≡ written mappings.now) }
    // It is one that the grammar has for them.
    ensures spelled { IfOk result (λ text. SpellsMappings (string_bytes text) mappings.now) }
    // No other text that the grammar has for them is shorter.
    ensures shortest { IfOk result (λ text. (other : List ℕ) → SpellsMappings other mappings.now → length (string_bytes text) ≤ length other) }
    // It is read as the same lines.
    ensures read_back { IfOk result (λ text. lines_of (string_bytes text) ≡ Ok mappings.now) }
{
    let mut text = String::new(alloc);
    push_all(&mut text, mappings.lines())?;
    Ok(text)
}

// Writes lines at the end, with a `;` between each two.
fn push_all(text: &mut String, lines: &[Items<Segment>]) -> Result<(), AllocError>
    ensures { OnOk result (string_bytes text.new ≡ string_bytes text.old ++ written lines.now) }
{
    match lines {
        [] => Ok(()),
        [first, rest @ ..] => {
            let last = push_line(text, first.as_slice(), START)?;
            push_lines(text, rest, last)
        }
    }
}

// Writes lines at the end, each behind a `;`.
fn push_lines(text: &mut String, lines: &[Items<Segment>], last: Last) -> Result<(), AllocError>
    ensures { OnOk result (string_bytes text.new
        ≡ string_bytes text.old ++ preceded 59 (line_texts (next_line last) lines.now)) }
{
    let mut last = last;
    for line in lines {
        push_mark(text, ';')?;
        let start = Last { column: 0, ..last };
        last = push_line(text, line.as_slice(), start)?;
    }
    Ok(())
}

// Writes a line at the end, with a `,` between each two segments, and gives the last numbers behind it.
fn push_line(text: &mut String, line: &[Segment], last: Last) -> Result<Last, AllocError>
    ensures text { OnOk result (string_bytes text.new
        ≡ string_bytes text.old ++ join_with_byte 44 (segment_texts last line.now)) }
    ensures last { IfOk result (λ l. l ≡ behind_line last line.now) }
{
    match line {
        [] => Ok(last),
        [first, rest @ ..] => {
            let last = push_segment(text, *first, last)?;
            push_segments(text, rest, last)
        }
    }
}

// Writes segments at the end, each behind a `,`, and gives the last numbers behind them.
fn push_segments(text: &mut String, segments: &[Segment], last: Last) -> Result<Last, AllocError>
    ensures text { OnOk result (string_bytes text.new
        ≡ string_bytes text.old ++ preceded 44 (segment_texts last segments.now)) }
    ensures last { IfOk result (λ l. l ≡ behind_line last segments.now) }
{
    let mut last = last;
    for segment in segments {
        push_mark(text, ',')?;
        last = push_segment(text, *segment, last)?;
    }
    Ok(last)
}

// Writes a segment at the end, and gives the last numbers behind it.
fn push_segment(text: &mut String, segment: Segment, last: Last) -> Result<Last, AllocError>
    ensures text { OnOk result (string_bytes text.new ≡ string_bytes text.old ++ segment_text last segment) }
    ensures last { IfOk result (λ l. l ≡ behind last segment) }
{
    push_step(text, last.column, segment.column)?;
    let last = Last {
        column: segment.column,
        ..last
    };
    match segment.origin {
        None => Ok(last),
        Some(origin) => push_origin(text, origin, last),
    }
}

// Writes where a segment comes from, and gives the last numbers behind it.
fn push_origin(text: &mut String, origin: Origin, last: Last) -> Result<Last, AllocError>
    ensures text { OnOk result (string_bytes text.new ≡ string_bytes text.old ++ origin_text last origin) }
    ensures last { IfOk result (λ l. l ≡ behind_origin last (Some origin)) }
{
    push_step(text, last.source, origin.source)?;
    push_step(text, last.line, origin.line)?;
    push_step(text, last.original, origin.column)?;
    let name = push_name(text, origin.name, last.name)?;
    Ok(Last {
        source: origin.source,
        line: origin.line,
        original: origin.column,
        name,
        ..last
    })
}

// Writes a name, if there is one, and gives the last name behind it.
fn push_name(text: &mut String, name: Option<u32>, last: u32) -> Result<u32, AllocError>
    ensures text { OnOk result (string_bytes text.new ≡ string_bytes text.old ++ name_text last name) }
    ensures last { IfOk result (λ n. n ≡ name_or last name) }
{
    match name {
        None => Ok(last),
        Some(name) => {
            push_step(text, last, name)?;
            Ok(name)
        }
    }
}

// Writes the step from the last number of a kind to the next.
fn push_step(text: &mut String, last: u32, next: u32) -> Result<(), AllocError>
    ensures { OnOk result (string_bytes text.new ≡ string_bytes text.old ++ spelled (step last next)) }
{
    if next < last {
        push_whole(text, 2 * u64::from(last - next) + 1)
    } else {
        push_whole(text, 2 * u64::from(next - last))
    }
}

// Writes a whole number in its shortest spelling.
fn push_whole(text: &mut String, whole: u64) -> Result<(), AllocError>
    requires { whole < 32 ^ 7 }
    ensures { OnOk result (string_bytes text.new ≡ string_bytes text.old ++ spelled whole) }
{
    let mut whole = whole;
    'groups: while whole >= 32 {
        push_mark(text, glyph_of(32 + (whole % 32) as u32))?;
        whole /= 32;
    }
    push_mark(text, glyph_of(whole as u32))
}

// Writes an ASCII character.
fn push_mark(text: &mut String, mark: char) -> Result<(), AllocError>
    requires { mark < 128 }
    ensures { OnOk result (string_bytes text.new ≡ string_bytes text.old ++ mark ∷ []) }
{
    text.push(mark)
}
