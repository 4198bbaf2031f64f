//! The object of one script.
ghost use Rattle.std.specs.Prelude.{◌≡◌, Some, IfSome};
ghost use Rattle.snapshot_reader.specs.Snapshots.{GivesEntry, HoldsScript};

use crate::function::FoundFunction;
use cov_model::{Entry, FunctionReport};
use cov_text::{Items, Text};
use json::Reader;
use json_walk::{Listed, Membered, pass, read_list, read_object, read_string};
use std::alloc::Global;

/// The members of a script that were found so far.
#[derive(Drop)]
pub struct FoundScript {
    pub url: Option<Text>,
    pub functions: Option<Items<FunctionReport>>,
}

impl Membered for FoundScript {
    ghost holds = { HoldsScript };

    fn none() -> FoundScript {
        FoundScript {
            url: None,
            functions: None,
        }
    }

    fn take(
        self,
        alloc: Global,
        key: &str,
        reader: &mut Reader<'_>,
        depth: usize,
    ) -> Option<FoundScript> {
        let FoundScript { url, functions } = self;
        if key == "url" {
            let new = read_string(alloc, reader)?;
            return Some(FoundScript {
                url: Some(new),
                functions,
            });
        }
        if key == "functions" {
            let new = read_list::<FoundFunction>(alloc, reader, depth)?;
            return Some(FoundScript {
                url,
                functions: Some(new),
            });
        }
        pass(reader, depth)?;
        Some(FoundScript { url, functions })
    }
}

// The script that was found, where all its members were.
fn entry_in(found: FoundScript) -> Option<Entry>
    ensures { IfSome result (λ e. (found.url ≡ Some e.url) × (found.functions ≡ Some e.functions)) }
{
    let FoundScript { url, functions } = found;
    Some(Entry {
        url: url?,
        functions: functions?,
    })
}

impl Listed for FoundScript {
    type Of = Entry;

    ghost gives = { GivesEntry };

    fn read(alloc: Global, reader: &mut Reader<'_>, depth: usize) -> Option<Entry> {
        let found: FoundScript = read_object(alloc, reader, depth)?;
        entry_in(found)
    }
}
