//! What is kept of the map entries of many texts: the first entry of each url, which a report looks up.
ghost use Rattle.std.specs.Prelude.{[], ◌∷◌, ◌++◌, List, map, IfOk, OnOk};
ghost use Rattle.source_maps.specs.Entries.{Said, said};
ghost use Rattle.cov_report.specs.First.{AreFirsts, HaveSameFirsts};

use cov_text::{Items, Text};
use source_maps::{EntryBody, MapEntry};
use std::alloc::{AllocError, Global};
use std::collections::BTreeMap;

/// The first map entry of each url. Later entries of a url take no memory here.
#[derive(Drop)]
pub struct FirstEntries {
    /// What the first entry of each url says.
    pub bodies: BTreeMap<Text, EntryBody>,
}

impl FirstEntries {
    /// No entry.
    pub fn new(alloc: Global) -> FirstEntries
        ensures { AreFirsts [] result }
    {
        FirstEntries {
            bodies: BTreeMap::new(alloc),
        }
    }

    /// Keeps each of these entries whose url has none yet, and lets the others go.
    pub fn keep(&mut self, found: Items<MapEntry>) -> Result<(), AllocError>
        ensures { OnOk result ((all : List Said)
            → AreFirsts all self.old → AreFirsts (all ++ map said found) self.new) }
    {
        for entry in found.into_vec() {
            self.keep_first(entry)?;
        }
        Ok(())
    }

    fn keep_first(&mut self, entry: MapEntry) -> Result<(), AllocError>
        ensures { OnOk result ((all : List Said)
            → AreFirsts all self.old → AreFirsts (all ++ said entry ∷ []) self.new) }
    {
        let MapEntry { url, body } = entry;
        if self.bodies.contains_key(&url) {
            return Ok(());
        }
        self.bodies.insert(url, body)?;
        Ok(())
    }

    /// The entries, in byte order of their urls.
    pub fn into_entries(self, alloc: Global) -> Result<Vec<MapEntry>, AllocError>
        ensures { IfOk result (λ entries. (all : List Said)
            → AreFirsts all self → HaveSameFirsts (map said entries.items) all) }
    {
        let FirstEntries { bodies } = self;
        let mut entries = Vec::new(alloc);
        for (url, body) in bodies {
            entries.push(MapEntry { url, body })?;
        }
        Ok(entries)
    }
}
