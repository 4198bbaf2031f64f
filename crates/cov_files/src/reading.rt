//! A snapshot, and what is said of its scripts' maps, from the bytes of a text.
ghost use Rattle.std.specs.Prelude.{◌≡◌, Ok, map, option_map, IfOk, IfErr};
ghost use Rattle.serde_json.specs.View.{view};
ghost use Rattle.cov_model.specs.Gives.{GivesText, TextFails};
ghost use Rattle.cov_model.specs.Reading as spec;
ghost use Rattle.source_maps.specs.Entries as entries;
ghost use Rattle.cov_files.specs.Maps.{maps_reading};
ghost use Rattle.cov_files.specs.Answers.{GivesValue, GivesEntries};
ghost use Rattle.snapshot_reader.specs.Snapshots.{text_maps};

use cov_messages::snapshot_of;
use cov_model::{Items, ShapeFault, Snapshot, TextFault};
use json_shapes::{ParseFault, parse};
use serde_json::Value;
use snapshot_reader::{ReadText, fast_reading, fast_text};
use source_maps::{MapEntry, entries_of, entries_of_member};
use std::alloc::Global;

/// The snapshot that a text is, or its first fault. `TooLong` comes exactly past 134,217,728 bytes, `Syntax` exactly
/// where shorter bytes are no JSON text, and `Shape` names the first check that the JSON value fails.
#[tactic(auto, unfolding(cov_model::specs::Reading::reading))]
pub fn read_snapshot(alloc: Global, bytes: &[u8]) -> Result<Snapshot, TextFault>
    ensures { GivesText result (spec.reading bytes.now) }
{
    if let Some(snapshot) = fast_reading(alloc, bytes) {
        return Ok(snapshot);
    }
    let value = value_of(alloc, bytes)?;
    snapshot_in(alloc, &value)
}

/// What a text says of the maps of its scripts, in byte order of their urls: see [`entries_of`]. `TooLong` comes exactly
/// past 134,217,728 bytes, `Syntax` exactly where shorter bytes are no JSON text, and `Shape` never.
#[tactic(auto, unfolding(crate::specs::Maps::maps_reading))]
pub fn maps_of(alloc: Global, bytes: &[u8]) -> Result<Items<MapEntry>, TextFault>
    ensures { GivesEntries result (maps_reading bytes.now) }
{
    let value = value_of(alloc, bytes)?;
    entries_in(alloc, value)
}

/// The snapshot that a text is, with what the text says of the maps of its scripts: what [`read_snapshot`] and
/// [`maps_of`] answer, for one reading of the text. The faults are those of [`read_snapshot`].
#[tactic(auto, unfolding(cov_model::specs::Reading::reading, crate::specs::Maps::maps_reading))]
pub fn read_text(alloc: Global, bytes: &[u8]) -> Result<(Snapshot, Items<MapEntry>), TextFault>
    ensures snapshot { IfOk result (λ both. spec.reading bytes.now ≡ Ok both.0) }
    ensures maps { IfOk result (λ both. maps_reading bytes.now ≡ Ok (map entries.said both.1)) }
    ensures fails { IfErr result (λ fault. TextFails fault (spec.reading bytes.now)) }
{
    if let Some(read) = fast_text(alloc, bytes) {
        return with_entries(alloc, bytes, read);
    }
    let value = value_of(alloc, bytes)?;
    let snapshot = snapshot_in(alloc, &value)?;
    let entries = entries_in(alloc, value)?;
    Ok((snapshot, entries))
}

// What was read of a text, with the entries that its member with maps says.
#[tactic(auto, unfolding(cov_model::specs::Reading::reading, crate::specs::Maps::maps_reading))]
fn with_entries(
    alloc: Global,
    bytes: &[u8],
    read: ReadText,
) -> Result<(Snapshot, Items<MapEntry>), TextFault>
    requires { (spec.reading bytes.now ≡ Ok read.snapshot)
        × (option_map view read.maps ≡ text_maps bytes.now) }
    ensures snapshot { IfOk result (λ both. spec.reading bytes.now ≡ Ok both.0) }
    ensures maps { IfOk result (λ both. maps_reading bytes.now ≡ Ok (map entries.said both.1)) }
    ensures fails { IfErr result (λ fault. TextFails fault (spec.reading bytes.now)) }
{
    let ReadText { snapshot, maps } = read;
    match entries_of_member(alloc, maps) {
        Ok(entries) => Ok((snapshot, entries)),
        Err(_) => Err(TextFault::NoMemory),
    }
}

// The JSON value of a text that isn't too long.
fn value_of(alloc: Global, bytes: &[u8]) -> Result<Value, TextFault>
    ensures { GivesValue view result bytes.now }
{
    match parse(alloc, bytes) {
        Ok(value) => Ok(value),
        Err(ParseFault::TooLong) => Err(TextFault::TooLong),
        Err(ParseFault::Syntax) => Err(TextFault::Syntax),
        Err(ParseFault::NoMemory) => Err(TextFault::NoMemory),
    }
}

// The snapshot that a value is.
fn snapshot_in(alloc: Global, value: &Value) -> Result<Snapshot, TextFault>
    ensures { GivesText result (spec.shaped (spec.snapshot_of (view value.now))) }
{
    match snapshot_of(alloc, value) {
        Ok(snapshot) => Ok(snapshot),
        Err(ShapeFault::NoMemory) => Err(TextFault::NoMemory),
        Err(fault) => Err(TextFault::Shape(fault)),
    }
}

// What a value says of maps.
fn entries_in(alloc: Global, value: Value) -> Result<Items<MapEntry>, TextFault>
    ensures { GivesEntries result (Ok (entries.entries_of (view value))) }
{
    match entries_of(alloc, value) {
        Ok(entries) => Ok(entries),
        Err(_) => Err(TextFault::NoMemory),
    }
}
