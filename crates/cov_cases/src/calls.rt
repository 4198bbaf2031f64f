//! Calls of the crates below the commands, as they are played.
ghost use Rattle.std.specs.Prelude.{◌≤◌, length};
ghost use Rattle.cov_text.specs.Listing.{max_text};

use cov_text::MAX_TEXT;
use istanbul_json::{CoverageFault, read_coverage, text_of};
use istanbul_rules::ignored;
use serde_json::Value;
use std::alloc::{AllocError, Global};
use vlq_mappings::{VlqFault, read_mappings, write_mappings};

/// What is given where the argument is no JSON text.
const NO_TEXT: &str = "(no text)";

/// Calls as they come when they are played: each call with what it gives, and other lines as they stand.
pub(crate) fn played(alloc: Global, calls: &str) -> Result<String, AllocError> {
    let mut given = String::new(alloc);
    let mut is_wanted = false;
    for line in calls.split_terminator('\n') {
        if is_wanted {
            is_wanted = false;
            continue;
        }
        put_line(&mut given, line)?;
        if let Some(call) = line.strip_prefix("$ ") {
            put_line(&mut given, answer(alloc, call)?.as_str())?;
            is_wanted = true;
        }
    }
    Ok(given)
}

fn put_line(text: &mut String, line: &str) -> Result<(), AllocError> {
    text.push_str(line)?;
    text.push_str("\n")
}

// What a call gives, on one line.
fn answer(alloc: Global, call: &str) -> Result<String, AllocError> {
    let (name, argument) = call.split_once(" ").unwrap_or((call, ""));
    if name == "coverage" {
        return coverage(alloc, argument);
    }
    let Some(text) = text_in(alloc, argument) else {
        return String::from_str(alloc, NO_TEXT);
    };
    if text.len() > MAX_TEXT {
        return String::from_str(alloc, NO_TEXT);
    }
    match name {
        "ignored" => marks(alloc, text.as_str()),
        "mappings" => mappings(alloc, text.as_str()),
        _ => String::from_str(alloc, "(no such call)"),
    }
}

// The text that a JSON text is.
fn text_in(alloc: Global, argument: &str) -> Option<String> {
    match Value::from_str(alloc, argument) {
        Ok(Value::String(text)) => Some(text),
        _ => None,
    }
}

// The coverage files of a text as they are written, or why it has none.
fn coverage(alloc: Global, text: &str) -> Result<String, AllocError> {
    match read_coverage(alloc, text.as_bytes()) {
        Ok(files) => {
            let written = text_of(alloc, files.as_slice())?;
            String::from_str(alloc, str::from_utf8(written.as_slice()).unwrap_or(NO_TEXT))
        }
        Err(CoverageFault::NoMemory) => Err(AllocError),
        Err(fault) => format!(in alloc; "{fault:?}"),
    }
}

// For each line an x where comments leave it out, else a dot.
fn marks(alloc: Global, text: &str) -> Result<String, AllocError>
    requires { length text.now ≤ max_text }
{
    let off = ignored(alloc, text)?;
    let mut marks = String::new(alloc);
    for is_off in off.as_slice() {
        marks.push(if *is_off { 'x' } else { '.' })?;
    }
    Ok(marks)
}

// The mappings of a text as they are written, or the first fault.
fn mappings(alloc: Global, text: &str) -> Result<String, AllocError>
    requires { length text.now ≤ max_text }
{
    match read_mappings(alloc, text) {
        Ok(mappings) => write_mappings(alloc, &mappings),
        Err(VlqFault::NoMemory) => Err(AllocError),
        Err(fault) => format!(in alloc; "{fault:?}"),
    }
}
