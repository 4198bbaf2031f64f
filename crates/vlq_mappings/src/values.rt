//! Values in base64 VLQ: runs of digits of five bits each, the least first.
ghost use Rattle.std.specs.Prelude.{◌≡◌, ◌+◌, ◌<◌, ◌≤◌, Ok, Err, false, length, MatchResult, IfOk};
ghost use Rattle.cov_text.specs.Listing.{max_text};
ghost use Rattle.vlq_mappings.specs.Faults.{goes_on};
ghost use Rattle.vlq_mappings.specs.Pieces.{piece_at, is_end, near_values, with_value};

use crate::digits::digit_of;
use crate::{VlqCause, VlqFault};

/// A whole number that is spelled from a place on. From 2^32 on it may stand for any such number.
#[derive(Clone, Copy, Debug)]
pub(crate) struct Value {
    pub(crate) place: u32,
    pub(crate) whole: u64,
}

// The least number that no value may have, and a weight with which any digit but 0 makes one.
const TOO_BIG: u64 = 4294967296;

const TOO_HEAVY: u64 = 34359738368;

/// Whether no piece goes on here: the text ends, or `,` or `;` stands here.
pub(crate) fn ends_piece(bytes: &[u8], at: usize) -> bool
    ensures { result ≡ is_end (piece_at bytes.now at) }
{
    at >= bytes.len() || bytes[at] == b',' || bytes[at] == b';'
}

/// The value at the front of what is left of a piece, and where the next one begins.
pub(crate) fn read_value(bytes: &[u8], from: usize) -> Result<(Value, usize), VlqFault>
    requires short { length bytes.now ≤ max_text }
    requires some { is_end (piece_at bytes.now from) ≡ false }
    ensures value { MatchResult result
        (λ r. near_values from (piece_at bytes.now from) ≡ goes_on (near_values r.1 (piece_at bytes.now r.1)) (with_value r.0))
        (λ e. near_values from (piece_at bytes.now from) ≡ Err e) }
    ensures further { IfOk result (λ r. r.1 + length (piece_at bytes.now r.1) ≡ from + length (piece_at bytes.now from)) }
    ensures progress { IfOk result (λ r. from < r.1) }
{
    let place = from as u32;
    let mut whole: u64 = 0;
    let mut weight: u64 = 1;
    let mut at = from;
    'groups: while !ends_piece(bytes, at) {
        let Some(digit) = digit_of(bytes[at]) else {
            return Err(fault(at, VlqCause::Digit));
        };
        at += 1;
        let low = u64::from(digit % 32);
        whole = (whole + low * weight).min(TOO_BIG);
        if digit < 32 {
            return Ok((Value { place, whole }, at));
        }
        weight = (weight * 32).min(TOO_HEAVY);
    }
    Err(fault(at, VlqCause::Cut))
}

pub(crate) fn fault(at: usize, cause: VlqCause) -> VlqFault
    requires { at ≤ max_text }
    ensures { result ≡ VlqFault.At at cause }
{
    VlqFault::At {
        place: at as u32,
        cause,
    }
}
