//! What is found of the object of a text.
ghost use Rattle.std.specs.Prelude.{◌≡◌, Some, IfSome};
ghost use Rattle.snapshot_reader.specs.Snapshots.{HoldsTop, HoldsText, GivesTop, GivesText, HasScripts};

use crate::script::FoundScript;
use cov_model::{Entry, Snapshot};
use cov_text::Items;
use json::Reader;
use json_walk::{Listed, Membered, pass, read_list, read_object, read_value};
use serde_json::Value;
use std::alloc::Global;

/// A snapshot, and the member `source-map-cache` of the object of its text, where it has one.
#[derive(Drop)]
pub struct ReadText {
    pub snapshot: Snapshot,
    pub maps: Option<Value>,
}

/// The members of a text's object that were found so far, where its maps are passed over.
#[derive(Drop)]
pub struct FoundTop {
    pub scripts: Option<Items<Entry>>,
}

impl Membered for FoundTop {
    ghost holds = { HoldsTop };

    fn none() -> FoundTop {
        FoundTop { scripts: None }
    }

    fn take(
        self,
        alloc: Global,
        key: &str,
        reader: &mut Reader<'_>,
        depth: usize,
    ) -> Option<FoundTop> {
        let FoundTop { scripts } = self;
        if key == "result" {
            let new = read_list::<FoundScript>(alloc, reader, depth)?;
            return Some(FoundTop { scripts: Some(new) });
        }
        pass(reader, depth)?;
        Some(FoundTop { scripts })
    }
}

/// The members of a text's object that were found so far, with its maps.
#[derive(Drop)]
pub struct FoundText {
    pub top: FoundTop,
    pub maps: Option<Value>,
}

impl Membered for FoundText {
    ghost holds = { HoldsText };

    fn none() -> FoundText {
        FoundText {
            top: FoundTop::none(),
            maps: None,
        }
    }

    fn take(
        self,
        alloc: Global,
        key: &str,
        reader: &mut Reader<'_>,
        depth: usize,
    ) -> Option<FoundText> {
        let FoundText { top, maps } = self;
        if key == "source-map-cache" {
            let new = read_value(alloc, reader, depth)?;
            return Some(FoundText {
                top,
                maps: Some(new),
            });
        }
        let top = top.take(alloc, key, reader, depth)?;
        Some(FoundText { top, maps })
    }
}

impl Listed for FoundTop {
    type Of = FoundTop;

    ghost gives = { GivesTop };

    fn read(alloc: Global, reader: &mut Reader<'_>, depth: usize) -> Option<FoundTop> {
        read_object(alloc, reader, depth)
    }
}

impl Listed for FoundText {
    type Of = FoundText;

    ghost gives = { GivesText };

    fn read(alloc: Global, reader: &mut Reader<'_>, depth: usize) -> Option<FoundText> {
        read_object(alloc, reader, depth)
    }
}

/// The snapshot of what was found, where the scripts were.
pub fn snapshot_in(found: FoundTop) -> Option<Snapshot>
    requires { HasScripts found.scripts }
    ensures { IfSome result (λ s. found.scripts ≡ Some s) }
{
    let scripts = found.scripts?;
    Some(Snapshot::new(scripts))
}
