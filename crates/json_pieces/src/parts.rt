//! Parts of a compact JSON text (RFC 8259), put at its end one by one.
ghost use Rattle.std.specs.Prelude.{◌≡◌, ◌++◌, OnOk, decimal};
ghost use Rattle.json.specs.Print.{quoted};

use itoa::Buffer;
use json::Writer;
use std::alloc::{AllocError, Global};
use std::mem;

/// Puts bytes at the end of a text.
pub fn put(text: &mut Vec<u8>, part: &[u8]) -> Result<(), AllocError>
    ensures { OnOk result (text.new.items ≡ text.old.items ++ part.now) }
{
    text.extend_from_slice(part)
}

/// Puts a number at the end of a text, in decimal.
pub fn put_number(text: &mut Vec<u8>, number: u64) -> Result<(), AllocError>
    ensures { OnOk result (text.new.items ≡ text.old.items ++ decimal number) }
{
    let mut buffer = Buffer::new();
    put(text, buffer.format(number).as_bytes())
}

/// Puts a string at the end of a text, in quotes and with the shortest escapes.
pub fn put_string(alloc: Global, text: &mut Vec<u8>, string: &str) -> Result<(), AllocError>
    ensures { OnOk result (text.new.items ≡ text.old.items ++ quoted string.now) }
{
    let mut writer = Writer::new(mem::replace(text, Vec::new(alloc)));
    let written = writer.string(string);
    *text = writer.into_inner();
    written
}

/// Puts a number at the end of a text as a string: its decimal digits in quotes.
pub fn put_quoted(alloc: Global, text: &mut Vec<u8>, number: u64) -> Result<(), AllocError>
    ensures { OnOk result (text.new.items ≡ text.old.items ++ quoted (decimal number)) }
{
    let mut writer = Writer::new(mem::replace(text, Vec::new(alloc)));
    let written = writer.quoted_u64(number);
    *text = writer.into_inner();
    written
}
