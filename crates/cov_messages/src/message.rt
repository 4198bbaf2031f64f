//! What a client of the DevTools protocol receives.
ghost use Rattle.std.specs.Prelude.{◌≡◌, Option, codes, option_map, option_and_then, IfOk};
ghost use Rattle.serde_json.specs.Data.{Data};
ghost use Rattle.serde_json.specs.View.{view};
ghost use Rattle.cov_messages.specs.Replies as spec;
ghost use Rattle.cov_messages.specs.Replies.{meant};
ghost use Rattle.cov_messages.specs.Kinds.{told_by};
ghost use Rattle.serde_json.specs.Find.{get, as_str};

use crate::request::id_of;
use serde_json::Value;
use std::alloc::{AllocError, Global};

/// A received text.
#[derive(Debug, Drop)]
pub enum Message {
    /// An object with a string `method` and no `id`.
    Event,
    /// The answer to a request: an object with its number, an object `result` and no `error`.
    Answer { id: u64, body: Value },
    /// The refusal of a request: an object with its number, no `result`, and an `error` with a code of 64 bits.
    ErrorAnswer { id: u64, code: i64 },
    /// Anything else.
    Bad,
}

/// What a received text is. An `AllocError` comes only for want of memory.
pub fn message_of(alloc: Global, text: &str) -> Result<Message, AllocError>
    ensures { IfOk result (λ message. meant message ≡ spec.message_of text.now) }
{
    match Value::from_str(alloc, text) {
        Ok(value) => Ok(message_in(value)),
        Err(error) if error.is_memory() => Err(AllocError),
        Err(_) => Ok(Message::Bad),
    }
}

// What a text is told by, beside the body of an answer.
#[derive(Clone, Copy, Debug)]
enum Kind {
    Event,
    Answer(u64),
    Refusal(u64, i64),
    Other,
}

fn message_in(value: Value) -> Message
    ensures { meant result ≡ spec.message_in (view value) }
{
    let kind = kind_of(&value);
    message_with(kind, result_of(value))
}

fn message_with(kind: Kind, body: Option<Value>) -> Message
    ensures { meant result ≡ told_by kind (option_map view body) }
{
    match kind {
        Kind::Event => Message::Event,
        Kind::Answer(id) => match body {
            Some(body) => Message::Answer { id, body },
            None => Message::Bad,
        },
        Kind::Refusal(id, code) => Message::ErrorAnswer { id, code },
        Kind::Other => Message::Bad,
    }
}

fn kind_of(value: &Value) -> Kind
    ensures { told_by result (get (codes "result") (view value.now)) ≡ spec.message_in (view value.now) }
{
    if value.get("id").is_none() {
        return unnumbered(value);
    }
    match id_of(value) {
        Some(id) => numbered(id, value),
        None => Kind::Other,
    }
}

// A message without a number.
fn unnumbered(value: &Value) -> Kind
    ensures { (body : Option Data) → told_by result body ≡ spec.named (option_and_then as_str (get (codes "method") (view value.now))) }
{
    match value.get("method").and_then(Value::as_str) {
        Some(_) => Kind::Event,
        None => Kind::Other,
    }
}

// A message with a number.
fn numbered(id: u64, value: &Value) -> Kind
    ensures { told_by result (get (codes "result") (view value.now))
        ≡ spec.numbered id (get (codes "result") (view value.now)) (get (codes "error") (view value.now)) }
{
    match (value.get("result"), value.get("error")) {
        (Some(body), None) if body.is_object() => Kind::Answer(id),
        (None, Some(error)) => match code_in(error) {
            Some(code) => Kind::Refusal(id, code),
            None => Kind::Other,
        },
        _ => Kind::Other,
    }
}

fn code_in(error: &Value) -> Option<i64>
    ensures { result ≡ spec.code_in (view error.now) }
{
    error.get("code").and_then(Value::as_i64)
}

// The body of an answer, taken out.
fn result_of(value: Value) -> Option<Value>
    ensures { option_map view result ≡ get (codes "result") (view value) }
{
    match value {
        Value::Object(mut members) => members.remove("result"),
        _ => None,
    }
}
