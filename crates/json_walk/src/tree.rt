//! A value that is kept as it is.
ghost use Rattle.std.specs.Prelude.{◌≡◌, ◌<◌, ◌≤◌, length, Some, string_bytes, IfSome, OnSome};
ghost use Rattle.serde_json.specs.Data.{Num, string, number, put as put_member};
ghost use Rattle.serde_json.specs.Read.{number_of};
ghost use Rattle.serde_json.specs.View.{view, number_view, items_view, members_view};
ghost use Rattle.json_walk.specs.Numbers.{num_of};
ghost use Rattle.json_walk.specs.declared.number.Parsed.TheVariants.{Negative};
ghost use Rattle.json_walk.specs.Reads.{Begins, BeginsItems, BeginsMembers};

use crate::number::{Parsed, number_in};
use json::{Reader, Token};
use serde_json::{Map, Number, Value};
use std::alloc::Global;

// The value of a string.
fn string_value(alloc: Global, text: &str) -> Option<Value>
    ensures { IfSome result (λ v. view v ≡ string text.now) }
{
    let text = copied(alloc, text)?;
    Some(Value::String(text))
}

// The number that was parsed.
fn number_for(parsed: Parsed) -> Option<Number>
    ensures { IfSome result (λ n. number_view n ≡ num_of parsed) }
{
    match parsed {
        Parsed::Unsigned(n) => Some(Number::from(n)),
        Parsed::Negative(n) => negative_number(n),
        Parsed::Float(x) => Number::from_f64(x),
    }
}

// A number below 0.
fn negative_number(n: i64) -> Option<Number>
    ensures { IfSome result (λ m. number_view m ≡ num_of (Negative n)) }
{
    if n < 0 { Some(Number::from(n)) } else { None }
}

// The value of a number's text.
fn number_value(text: &str) -> Option<Value>
    ensures { IfSome result (λ v. (n : Num) × (number_of text.now ≡ Some n) × (view v ≡ number n)) }
{
    let parsed = number_in(text)?;
    let number = number_for(parsed)?;
    Some(Value::Number(number))
}

/// The value that is next, nested no deeper than `depth`. `None` says nothing.
#[cycle(read_value)]
pub fn read_value(alloc: Global, reader: &mut Reader<'_>, depth: usize) -> Option<Value>
    ensures ok { IfSome result (λ v. Begins depth reader.old (view v) reader.new) }
    ensures shorter { OnSome result (length reader.new < length reader.old) }
{
    let token = reader.next()?;
    match token {
        Token::String(text) => string_value(alloc, text),
        Token::Number(text) => number_value(text),
        Token::Bool(truth) => Some(Value::Bool(truth)),
        Token::Null => Some(Value::Null),
        Token::EndObject | Token::EndArray | Token::Key(_) | Token::Bad => None,
        Token::BeginArray => {
            if depth == 0 {
                return None;
            }
            let items = value_items(alloc, reader, depth - 1)?;
            Some(Value::Array(items))
        }
        Token::BeginObject => {
            if depth == 0 {
                return None;
            }
            let members = value_members(alloc, reader, depth - 1)?;
            Some(Value::Object(members))
        }
    }
}

#[cycle(read_value)]
#[inline(never)]
fn value_items(alloc: Global, reader: &mut Reader<'_>, depth: usize) -> Option<Vec<Value>>
    ensures ok { IfSome result (λ vs. BeginsItems depth reader.old (items_view vs.items) reader.new) }
    ensures shorter { OnSome result (length reader.new ≤ length reader.old) }
{
    let mut found = Vec::new(alloc);
    'items: while !reader.take_end_array() {
        let item = read_value(alloc, reader, depth)?;
        if found.push(item).is_err() {
            return None;
        }
    }
    Some(found)
}

#[cycle(read_value)]
#[inline(never)]
fn value_members(alloc: Global, reader: &mut Reader<'_>, depth: usize) -> Option<Map<String, Value>>
    ensures ok { IfSome result (λ m. BeginsMembers depth reader.old (members_view m.entries) reader.new) }
    ensures shorter { OnSome result (length reader.new ≤ length reader.old) }
{
    let mut found = Map::new(alloc);
    'members: loop {
        match reader.next_key() {
            Ok(Some(name)) => {
                let key = copied(alloc, name)?;
                let member = read_value(alloc, reader, depth)?;
                put(&mut found, key, member)?;
            }
            Ok(None) => return Some(found),
            Err(_) => return None,
        }
    }
}

// A text of its own.
fn copied(alloc: Global, text: &str) -> Option<String>
    ensures { IfSome result (λ s. string_bytes s ≡ text.now) }
{
    match String::from_str(alloc, text) {
        Ok(text) => Some(text),
        Err(_) => None,
    }
}

// Puts a member in, in the place of an earlier one of its key.
fn put(members: &mut Map<String, Value>, key: String, value: Value) -> Option<()>
    ensures { OnSome result (members_view members.new.entries
        ≡ put_member (string_bytes key) (view value) (members_view members.old.entries)) }
{
    match members.insert(key, value) {
        Ok(_) => Some(()),
        Err(_) => None,
    }
}
