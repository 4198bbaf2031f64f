//! Values with no parts.
ghost use Rattle.std.specs.Prelude.{◌≡◌, ◌<◌, length, Some, IfSome, OnSome};
ghost use Rattle.json_shapes.specs.Shapes.{whole, offset_of};
ghost use Rattle.json_shapes.specs.Members.{or_null};
ghost use Rattle.serde_json.specs.Data.{Num, number};
ghost use Rattle.serde_json.specs.Read.{number_of};
ghost use Rattle.serde_json.specs.Find.{as_str, as_bool};
ghost use Rattle.json_walk.specs.Reads.{BeginsAs};

use crate::number::{Parsed, number_in};
use cov_text::Text;
use json::{Reader, Token};
use std::alloc::Global;

/// The string that is next.
pub fn read_string(alloc: Global, reader: &mut Reader<'_>) -> Option<Text>
    ensures ok { IfSome result (λ s. BeginsAs as_str reader.old s reader.new) }
    ensures shorter { OnSome result (length reader.new < length reader.old) }
{
    let token = reader.next()?;
    let Token::String(text) = token else {
        return None;
    };
    match Text::from_text(alloc, text) {
        Ok(text) => Some(text),
        Err(_) => None,
    }
}

/// The truth that is next.
pub fn read_bool(reader: &mut Reader<'_>) -> Option<bool>
    ensures ok { IfSome result (λ b. BeginsAs as_bool reader.old b reader.new) }
    ensures shorter { OnSome result (length reader.new < length reader.old) }
{
    let token = reader.next()?;
    let Token::Bool(truth) = token else {
        return None;
    };
    Some(truth)
}

/// The whole number of at most 64 bits that is next.
#[inline(always)]
pub fn read_whole(reader: &mut Reader<'_>) -> Option<u64>
    ensures ok { IfSome result (λ n. BeginsAs whole reader.old n reader.new) }
    ensures shorter { OnSome result (length reader.new < length reader.old) }
{
    let token = reader.next()?;
    let Token::Number(text) = token else {
        return None;
    };
    match number_in(text) {
        Some(Parsed::Unsigned(n)) => Some(n),
        _ => None,
    }
}

/// The whole number of at most 32 bits that is next.
#[inline(always)]
pub fn read_offset(reader: &mut Reader<'_>) -> Option<u32>
    ensures ok { IfSome result (λ n. BeginsAs offset_of reader.old n reader.new) }
    ensures shorter { OnSome result (length reader.new < length reader.old) }
{
    let n = read_whole(reader)?;
    if n < 1 << 32 { Some(n as u32) } else { None }
}

// The whole number of at most 32 bits that a number's text writes.
#[inline(always)]
fn offset_in(text: &str) -> Option<u32>
    ensures { IfSome result (λ n. (m : Num) × (number_of text.now ≡ Some m) × (offset_of (number m) ≡ Some n)) }
{
    match number_in(text) {
        Some(Parsed::Unsigned(n)) if n < 1 << 32 => Some(n as u32),
        _ => None,
    }
}

/// The whole number of at most 32 bits that is next, or null.
#[inline(always)]
pub fn read_offset_or_null(reader: &mut Reader<'_>) -> Option<Option<u32>>
    ensures ok { IfSome result (λ n. BeginsAs (or_null offset_of) reader.old n reader.new) }
    ensures shorter { OnSome result (length reader.new < length reader.old) }
{
    let token = reader.next()?;
    match token {
        Token::Null => Some(None),
        Token::Number(text) => {
            let n = offset_in(text)?;
            Some(Some(n))
        }
        _ => None,
    }
}
