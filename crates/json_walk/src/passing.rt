//! Passing over a value that `serde_json` takes.
ghost use Rattle.std.specs.Prelude.{◌<◌, ◌≤◌, length, OnSome};
ghost use Rattle.json_walk.specs.Reads.{Passes, PassesItems, PassesMembers};

use crate::number::number_in;
use json::{Reader, Token};

/// Passes over one value, nested no deeper than `depth`, whose numbers are in range.
#[cycle(pass)]
pub fn pass(reader: &mut Reader<'_>, depth: usize) -> Option<()>
    ensures ok { OnSome result (Passes depth reader.old reader.new) }
    ensures shorter { OnSome result (length reader.new < length reader.old) }
{
    let token = reader.next()?;
    match token {
        Token::String(_) => Some(()),
        Token::Bool(_) => Some(()),
        Token::Null => Some(()),
        Token::Number(text) => match number_in(text) {
            Some(_) => Some(()),
            None => None,
        },
        Token::EndObject | Token::EndArray | Token::Key(_) | Token::Bad => None,
        Token::BeginArray => {
            if depth == 0 {
                return None;
            }
            pass_items(reader, depth - 1)
        }
        Token::BeginObject => {
            if depth == 0 {
                return None;
            }
            pass_members(reader, depth - 1)
        }
    }
}

#[cycle(pass)]
#[inline(never)]
fn pass_items(reader: &mut Reader<'_>, depth: usize) -> Option<()>
    ensures ok { OnSome result (PassesItems depth reader.old reader.new) }
    ensures shorter { OnSome result (length reader.new ≤ length reader.old) }
{
    'items: while !reader.take_end_array() {
        pass(reader, depth)?;
    }
    Some(())
}

#[cycle(pass)]
#[inline(never)]
fn pass_members(reader: &mut Reader<'_>, depth: usize) -> Option<()>
    ensures ok { OnSome result (PassesMembers depth reader.old reader.new) }
    ensures shorter { OnSome result (length reader.new ≤ length reader.old) }
{
    'members: loop {
        match reader.next_key() {
            Ok(Some(_)) => pass(reader, depth)?,
            Ok(None) => return Some(()),
            Err(_) => return None,
        }
    }
}
