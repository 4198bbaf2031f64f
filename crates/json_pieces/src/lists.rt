//! Lists whose elements are put one by one, with commas between them.
ghost use Rattle.std.specs.Prelude.{◌≡◌, ◌++◌, ℕ, List, OnOk, false};
ghost use Rattle.serde_json.specs.Written.{comma_if};
ghost use Rattle.json_pieces.specs.Joined.{joined};
ghost use Rattle.json_pieces.specs.Pieces.{Hands, out_at};

use crate::parts::put;
use crate::pieces::hand_over;
use cov_io::{Sink, SinkFault};
use std::alloc::{AllocError, Global};

/// What has a text of its own at a place of a list. `Role` tells which of its texts is meant.
pub trait Part<Role> {
    ghost text_at: { ℕ → Self → List ℕ };

    /// Puts the text behind what is kept for the sink, and hands full pieces over on the way.
    fn write<O: Sink>(
        &self,
        alloc: Global,
        place: usize,
        text: &mut Vec<u8>,
        out: &mut O,
    ) -> Result<(), SinkFault>
        ensures { Hands (text_at place self.now)
            (out_at (O.held out.old) (O.longest out.old) (O.faults out.old))
            (out_at (O.held out.new) (O.longest out.new) (O.faults out.new))
            text.old.items text.new.items result };
}

/// Puts a list behind what is kept for the sink: what stands before it, the elements with commas between them, and what
/// stands behind it. Full pieces are handed over on the way.
pub fn write_list<Role, T: Part<Role>, O: Sink>(
    alloc: Global,
    front: &[u8],
    parts: &[T],
    back: &[u8],
    text: &mut Vec<u8>,
    out: &mut O,
) -> Result<(), SinkFault>
    ensures { Hands (front.now ++ (joined T.text_at false 0 parts.now ++ back.now))
        (out_at (O.held out.old) (O.longest out.old) (O.faults out.old))
        (out_at (O.held out.new) (O.longest out.new) (O.faults out.new))
        text.old.items text.new.items result }
{
    put(text, front)?;
    write_parts(alloc, parts, text, out)?;
    Ok(put(text, back)?)
}

// The elements with commas between them.
fn write_parts<Role, T: Part<Role>, O: Sink>(
    alloc: Global,
    parts: &[T],
    text: &mut Vec<u8>,
    out: &mut O,
) -> Result<(), SinkFault>
    ensures { Hands (joined T.text_at false 0 parts.now)
        (out_at (O.held out.old) (O.longest out.old) (O.faults out.old))
        (out_at (O.held out.new) (O.longest out.new) (O.faults out.new))
        text.old.items text.new.items result }
{
    for (place, part) in parts.iter().enumerate() {
        put_comma(text, place > 0)?;
        part.write(alloc, place, text, out)?;
        hand_over(out, text)?;
    }
    Ok(())
}

// A comma, where something stands before.
fn put_comma(text: &mut Vec<u8>, later: bool) -> Result<(), AllocError>
    ensures { OnOk result (text.new.items ≡ text.old.items ++ comma_if later) }
{
    if later { put(text, b",") } else { Ok(()) }
}
