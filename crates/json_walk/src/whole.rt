//! A whole text.
ghost use Rattle.std.specs.Prelude.{◌≡◌, ◌≤◌, length, Some, IfSome, OnSome};
ghost use Rattle.cov_text.specs.Listing.{max_text};
ghost use Rattle.json_shapes.specs.Shapes.{parsed};
ghost use Rattle.serde_json.specs.Data.{Data};
ghost use Rattle.serde_json.specs.Read.{read};

use crate::shape::Listed;
use cov_text::MAX_TEXT;
use json::{Reader, Scratch};
use std::alloc::Global;

// How deep lists and objects may nest in a text that `serde_json` takes.
const MAX_DEPTH: usize = 127;

/// What a text is read as. `None` says nothing of the text.
pub fn read_text<T: Listed>(alloc: Global, text: &str) -> Option<T::Of>
    ensures { IfSome result (λ x. (d : Data) × (read text.now ≡ Some d) × T.gives x d) }
{
    let mut scratch = Scratch::new(alloc);
    let Ok(mut reader) = Reader::new(text, &mut scratch) else {
        return None;
    };
    let found = T::read(alloc, &mut reader, MAX_DEPTH)?;
    if reader.next().is_some() {
        return None;
    }
    Some(found)
}

/// What bytes are read as, where they are a text of at most the greatest size. `None` says nothing of them.
pub fn read_bytes<T: Listed>(alloc: Global, bytes: &[u8]) -> Option<T::Of>
    ensures value { IfSome result (λ x. (d : Data) × (parsed bytes.now ≡ Some d) × T.gives x d) }
    ensures short { OnSome result (length bytes.now ≤ max_text) }
{
    if bytes.len() > MAX_TEXT {
        return None;
    }
    match simdutf8::compat::from_utf8(bytes) {
        Ok(text) => read_text::<T>(alloc, text),
        Err(_) => None,
    }
}
