//! Parts of a text, put at its end one by one.
ghost use Rattle.std.specs.Prelude.{◌≡◌, ◌++◌, OnOk, OnErr, decimal};

use itoa::Buffer;
use std::alloc::AllocError;

/// Puts bytes at the end of a text. Where memory runs out the text is as it was.
pub fn put(text: &mut Vec<u8>, part: &[u8]) -> Result<(), AllocError>
    ensures put { OnOk result (text.new.items ≡ text.old.items ++ part.now) }
    ensures refused { OnErr result (text.new.items ≡ text.old.items) }
{
    text.extend_from_slice(part)
}

/// Puts a number at the end of a text, in decimal. Where memory runs out the text is as it was.
pub fn put_number(text: &mut Vec<u8>, number: u64) -> Result<(), AllocError>
    ensures put { OnOk result (text.new.items ≡ text.old.items ++ decimal number) }
    ensures refused { OnErr result (text.new.items ≡ text.old.items) }
{
    let mut buffer = Buffer::new();
    put(text, buffer.format(number).as_bytes())
}
