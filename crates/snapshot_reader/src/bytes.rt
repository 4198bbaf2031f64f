//! The snapshot that bytes are.
ghost use Rattle.std.specs.Prelude.{◌≡◌, Ok, option_map, IfSome};
ghost use Rattle.serde_json.specs.View.{view};
ghost use Rattle.cov_model.specs.Reading.{reading};
ghost use Rattle.snapshot_reader.specs.Snapshots.{text_maps};

use crate::text::{FoundText, FoundTop, ReadText, snapshot_in};
use cov_model::Snapshot;
use json_walk::read_bytes;
use std::alloc::Global;

/// The snapshot that bytes are, and the member `source-map-cache` of their object, where it has one. `None` says nothing
/// of the bytes: they may be no snapshot, or one with a member that comes twice and is first of another kind, or memory
/// ran out.
pub fn fast_text(alloc: Global, bytes: &[u8]) -> Option<ReadText>
    ensures snapshot { IfSome result (λ r. reading bytes.now ≡ Ok r.snapshot) }
    ensures maps { IfSome result (λ r. option_map view r.maps ≡ text_maps bytes.now) }
{
    let found = read_bytes::<FoundText>(alloc, bytes)?;
    let FoundText { top, maps } = found;
    let snapshot = snapshot_in(top)?;
    Some(ReadText { snapshot, maps })
}

/// The snapshot that bytes are, as [`fast_text`] reads it. What they say of maps is passed over, with no memory for it.
pub fn fast_reading(alloc: Global, bytes: &[u8]) -> Option<Snapshot>
    ensures { IfSome result (λ s. reading bytes.now ≡ Ok s) }
{
    let found = read_bytes::<FoundTop>(alloc, bytes)?;
    snapshot_in(found)
}
