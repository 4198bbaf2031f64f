//! A path or a name as a line shows it.
ghost use Rattle.std.specs.Prelude.{◌≡◌, [], ◌∷◌, ◌++◌, IfOk, OnOk, OnErr};
ghost use Rattle.cov_text.specs.Listing as listing;

use crate::put;
use std::alloc::{AllocError, Global};

/// A path or a name as it stands in a line: each byte below 32 and each 127 as `?`.
pub fn cleaned(alloc: Global, name: &str) -> Result<Vec<u8>, AllocError>
    ensures { IfOk result (λ text. text.items ≡ listing.cleaned name.now) }
{
    name.as_bytes()
        .iter()
        .map(|byte| shown(*byte))
        .collect(alloc)
}

/// Puts a path or a name at the end of a text, as [`cleaned`] has it. Where memory runs out the text is as it was.
pub fn put_cleaned(alloc: Global, text: &mut Vec<u8>, name: &str) -> Result<(), AllocError>
    ensures put { OnOk result (text.new.items ≡ text.old.items ++ listing.cleaned name.now) }
    ensures refused { OnErr result (text.new.items ≡ text.old.items) }
{
    let shown = cleaned(alloc, name)?;
    put(text, shown.as_slice())
}

// How a byte stands in a line.
fn shown(byte: u8) -> u8
    ensures { listing.cleaned (byte ∷ []) ≡ result ∷ [] }
{
    if byte < 32 || byte == 127 { b'?' } else { byte }
}
