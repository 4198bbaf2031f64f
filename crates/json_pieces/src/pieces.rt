//! A text that is handed to a sink in pieces.
ghost use Rattle.std.specs.Prelude.{◌≡◌, ◌<◌, ◌≤◌, [], OnOk, length, drop};
ghost use Rattle.json_pieces.specs.Pieces.{Hands, Writes, out_at, piece};

use cov_io::{Sink, SinkFault};

/// The greatest length of a piece that is handed to a sink, in bytes: 64 KiB.
pub const PIECE: usize = 65536;

/// Hands the full pieces in front of a text to a sink, each of [`PIECE`] bytes, and keeps what is behind them.
///
/// After a refusal a prefix of the text was written, and what is kept is left open. `SinkFault::Failed` comes only where
/// the sink's count of faults rose.
pub fn hand_over<O: Sink>(out: &mut O, text: &mut Vec<u8>) -> Result<(), SinkFault>
    ensures hands { Hands [] (out_at (O.held out.old) (O.longest out.old) (O.faults out.old))
        (out_at (O.held out.new) (O.longest out.new) (O.faults out.new))
        text.old.items text.new.items result }
    ensures short { OnOk result (length text.new.items < piece) }
{
    let all = text.len();
    if all < PIECE {
        return Ok(());
    }
    let full = all - all % PIECE;
    finish(out, &text[..full])?;
    remove_front(text, full);
    Ok(())
}

/// Hands a text to a sink whole, in pieces of [`PIECE`] bytes and a shorter last one.
pub fn finish<O: Sink>(out: &mut O, text: &[u8]) -> Result<(), SinkFault>
    ensures { Writes text.now (out_at (O.held out.old) (O.longest out.old) (O.faults out.old))
        (out_at (O.held out.new) (O.longest out.new) (O.faults out.new))
        result }
{
    for piece in text.chunks(PIECE) {
        out.write(piece)?;
    }
    Ok(())
}

// Takes the first bytes of a text away.
fn remove_front(text: &mut Vec<u8>, count: usize)
    requires { count ≤ length text.old.items }
    ensures { text.new.items ≡ drop count text.old.items }
{
    let len = text.len();
    text.as_mut_slice().copy_within(count..len, 0);
    text.truncate(len - count);
}
