//! Segments: one value, four or five, each the difference from the last number of its kind.
ghost use Rattle.std.specs.Prelude.{ℕ, ◌≡◌, ◌+◌, ◌<◌, ◌≤◌, ◌∷◌, true, false, is_ok, Ok, Err, length, MatchResult, IfOk, Some};
ghost use Rattle.cov_text.specs.Listing.{max_text};
ghost use Rattle.vlq_mappings.specs.Faults.{goes_on};
ghost use Rattle.vlq_mappings.specs.declared.last.Last.{Last};
ghost use Rattle.vlq_mappings.specs.declared.values.Value.{Value};
ghost use Rattle.vlq_mappings.specs.Fields.{field_values, origin_values, name_values, moved_name};
ghost use Rattle.vlq_mappings.specs.Pieces.{piece_at, is_end, near_values};
ghost use Rattle.vlq_mappings.specs.Mappings.{moved, segment_of, segment_at};

use crate::last::Last;
use crate::values::{Value, ends_piece, fault, read_value};
use crate::{MOST, Origin, Segment, VlqCause, VlqFault};

/// The values of an origin.
#[derive(Clone, Copy, Debug)]
pub(crate) struct OriginFields {
    source: Value,
    line: Value,
    column: Value,
    name: Option<Value>,
}

/// The values of a segment.
#[derive(Clone, Copy, Debug)]
pub(crate) struct Fields {
    column: Value,
    origin: Option<OriginFields>,
}

/// The segment that stands at a place, the last numbers behind it, and where it ends.
pub(crate) fn read_segment(
    bytes: &[u8],
    from: usize,
    last: Last,
) -> Result<(Segment, Last, usize), VlqFault>
    requires short { length bytes.now ≤ max_text }
    requires some { is_end (piece_at bytes.now from) ≡ false }
    ensures segment { MatchResult result
        (λ r. segment_at from last (piece_at bytes.now from) ≡ Ok (r.0, r.1))
        (λ e. segment_at from last (piece_at bytes.now from) ≡ Err e) }
    ensures end { IfOk result (λ r. r.2 ≡ from + length (piece_at bytes.now from)) }
{
    let (fields, at) = read_fields(bytes, from)?;
    let (segment, behind) = placed(fields, last)?;
    Ok((segment, behind, at))
}

// The values of the segment at a place, and where it ends.
fn read_fields(bytes: &[u8], from: usize) -> Result<(Fields, usize), VlqFault>
    requires short { length bytes.now ≤ max_text }
    requires some { is_end (piece_at bytes.now from) ≡ false }
    ensures values { MatchResult result
        (λ r. near_values from (piece_at bytes.now from) ≡ Ok (field_values r.0))
        (λ e. (last : Last) → goes_on (near_values from (piece_at bytes.now from)) (segment_of from last) ≡ Err e) }
    ensures end { IfOk result (λ r. r.1 ≡ from + length (piece_at bytes.now from)) }
{
    let (column, at) = read_value(bytes, from)?;
    if ends_piece(bytes, at) {
        let origin = None;
        return Ok((Fields { column, origin }, at));
    }
    let (origin, at) = read_origin(bytes, at, from)?;
    let origin = Some(origin);
    Ok((Fields { column, origin }, at))
}

// The values behind the first of the segment that began at `from`, and where it ends.
fn read_origin(bytes: &[u8], at: usize, from: usize) -> Result<(OriginFields, usize), VlqFault>
    requires short { length bytes.now ≤ max_text }
    requires within { from ≤ max_text }
    requires some { is_end (piece_at bytes.now at) ≡ false }
    ensures values { MatchResult result
        (λ r. near_values at (piece_at bytes.now at) ≡ Ok (origin_values (Some r.0)))
        (λ e. (last : Last) (c : Value) → goes_on (near_values at (piece_at bytes.now at)) (λ vs. segment_of from last (c ∷ vs)) ≡ Err e) }
    ensures end { IfOk result (λ r. r.1 ≡ at + length (piece_at bytes.now at)) }
{
    let (source, line_at) = read_value(bytes, at)?;
    if ends_piece(bytes, line_at) {
        return Err(fault(from, VlqCause::Fields));
    }
    let (line, column_at) = read_value(bytes, line_at)?;
    if ends_piece(bytes, column_at) {
        return Err(fault(from, VlqCause::Fields));
    }
    let (column, name_at) = read_value(bytes, column_at)?;
    let (name, end) = read_name(bytes, name_at, from)?;
    let fields = OriginFields {
        source,
        line,
        column,
        name,
    };
    Ok((fields, end))
}

// The value behind the fourth of the segment that began at `from`, if there is one, and where the segment ends.
fn read_name(bytes: &[u8], at: usize, from: usize) -> Result<(Option<Value>, usize), VlqFault>
    requires short { length bytes.now ≤ max_text }
    requires within { from ≤ max_text }
    ensures values { MatchResult result
        (λ r. near_values at (piece_at bytes.now at) ≡ Ok (name_values r.0))
        (λ e. (last : Last) (c s l o : Value) → goes_on (near_values at (piece_at bytes.now at)) (λ vs. segment_of from last (c ∷ s ∷ l ∷ o ∷ vs)) ≡ Err e) }
    ensures end { IfOk result (λ r. r.1 ≡ at + length (piece_at bytes.now at)) }
{
    if ends_piece(bytes, at) {
        return Ok((None, at));
    }
    let (name, sixth_at) = read_value(bytes, at)?;
    if ends_piece(bytes, sixth_at) {
        return Ok((Some(name), sixth_at));
    }
    let (_, rest_at) = read_value(bytes, sixth_at)?;
    pass_values(bytes, rest_at)?;
    Err(fault(from, VlqCause::Fields))
}

// Goes over the values that are left of a piece, for their faults.
fn pass_values(bytes: &[u8], from: usize) -> Result<(), VlqFault>
    requires short { length bytes.now ≤ max_text }
    ensures { MatchResult result
        (λ _. is_ok (near_values from (piece_at bytes.now from)) ≡ true)
        (λ e. near_values from (piece_at bytes.now from) ≡ Err e) }
{
    let mut at = from;
    'values: while !ends_piece(bytes, at) {
        let (_, next) = read_value(bytes, at)?;
        at = next;
    }
    Ok(())
}

// The segment of these values, and the last numbers behind it.
fn placed(fields: Fields, last: Last) -> Result<(Segment, Last), VlqFault>
    ensures { MatchResult result
        (λ r. (place : ℕ) → segment_of place last (field_values fields) ≡ Ok r)
        (λ e. (place : ℕ) → segment_of place last (field_values fields) ≡ Err e) }
{
    let column = moved(last.column, fields.column)?;
    let Some(origin) = fields.origin else {
        let segment = Segment {
            column,
            origin: None,
        };
        return Ok((segment, Last { column, ..last }));
    };
    let source = moved(last.source, origin.source)?;
    let line = moved(last.line, origin.line)?;
    let original = moved(last.original, origin.column)?;
    let (name, last_name) = moved_name(last.name, origin.name)?;
    let origin = Origin {
        source,
        line,
        column: original,
        name,
    };
    let behind = Last {
        column,
        source,
        line,
        original,
        name: last_name,
    };
    let origin = Some(origin);
    Ok((Segment { column, origin }, behind))
}

// The name that a value leads to, if there is one, and the last name behind it.
fn moved_name(last: u32, value: Option<Value>) -> Result<(Option<u32>, u32), VlqFault>
    ensures { result ≡ moved_name last value }
{
    match value {
        None => Ok((None, last)),
        Some(value) => {
            let name = moved(last, value)?;
            Ok((Some(name), name))
        }
    }
}

// The number that a value leads to from the last of its kind.
fn moved(last: u32, value: Value) -> Result<u32, VlqFault>
    ensures { result ≡ moved last value }
{
    let size = value.whole / 2;
    let last = u64::from(last);
    let most = u64::from(MOST);
    let fault = VlqFault::At {
        place: value.place,
        cause: VlqCause::Range,
    };
    if most < size {
        Err(fault)
    } else if value.whole % 2 == 1 {
        if last < size {
            Err(fault)
        } else {
            Ok((last - size) as u32)
        }
    } else if most < last + size {
        Err(fault)
    } else {
        Ok((last + size) as u32)
    }
}
