//! JSON texts of at most the size that is read.
ghost use Rattle.serde_json.specs.View.{view};
ghost use Rattle.json_shapes.specs.Parsing.{GivesValue};

use cov_text::MAX_TEXT;
use serde_json::Value;
use std::alloc::Global;
use thiserror::Error;

/// Why a text has no value.
#[derive(Debug, Drop, Error)]
pub enum ParseFault {
    /// It has more than 134,217,728 bytes.
    #[error("too long")]
    TooLong,
    /// It is no JSON text.
    #[error("syntax")]
    Syntax,
    /// There was no memory for it.
    #[error("out of memory")]
    NoMemory,
}

/// The JSON value of a text, as RFC 8259 has it.
///
/// # Errors
///
/// [`ParseFault::TooLong`] comes exactly past 134,217,728 bytes, [`ParseFault::Syntax`] exactly where shorter bytes are no JSON
/// text (bytes that aren't UTF-8, nesting past 127 and numbers out of range among them), and [`ParseFault::NoMemory`] only for
/// want of memory.
pub fn parse(alloc: Global, bytes: &[u8]) -> Result<Value, ParseFault>
    ensures { GivesValue view result bytes.now }
{
    if bytes.len() > MAX_TEXT {
        return Err(ParseFault::TooLong);
    }
    match Value::from_slice(alloc, bytes) {
        Ok(value) => Ok(value),
        Err(error) if error.is_memory() => Err(ParseFault::NoMemory),
        Err(_) => Err(ParseFault::Syntax),
    }
}
