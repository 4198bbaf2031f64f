//! The object of one file, read straight from the tokens of a text.
ghost use Rattle.istanbul_json.specs.Walks.{HoldsMaps, HoldsCounts, HoldsFile};

use crate::Loc;
use crate::entry::{BranchEntry, FunctionEntry};
use cov_text::{Items, Text};
use json::Reader;
use json_walk::{Listed, Member, Membered, Object, pass, read_string};
use std::alloc::Global;

/// The maps of a file that were found so far.
#[derive(Drop)]
pub struct FoundMaps {
    pub statements: Option<Object<Member<Loc>>>,
    pub functions: Option<Object<Member<FunctionEntry>>>,
    pub branches: Option<Object<Member<BranchEntry>>>,
}

impl Membered for FoundMaps {
    ghost holds = { HoldsMaps };

    fn none() -> FoundMaps {
        FoundMaps {
            statements: None,
            functions: None,
            branches: None,
        }
    }

    fn take(
        self,
        alloc: Global,
        key: &str,
        reader: &mut Reader<'_>,
        depth: usize,
    ) -> Option<FoundMaps> {
        let mut found = self;
        if key == "statementMap" {
            let new = Object::<Member<Loc>>::read(alloc, reader, depth)?;
            found.statements = Some(new);
            return Some(found);
        }
        if key == "fnMap" {
            let new = Object::<Member<FunctionEntry>>::read(alloc, reader, depth)?;
            found.functions = Some(new);
            return Some(found);
        }
        if key == "branchMap" {
            let new = Object::<Member<BranchEntry>>::read(alloc, reader, depth)?;
            found.branches = Some(new);
            return Some(found);
        }
        pass(reader, depth)?;
        Some(found)
    }
}

/// The counts of a file that were found so far.
#[derive(Drop)]
pub struct FoundCounts {
    pub s: Option<Object<Member<u64>>>,
    pub f: Option<Object<Member<u64>>>,
    pub b: Option<Object<Member<Items<u64>>>>,
}

impl Membered for FoundCounts {
    ghost holds = { HoldsCounts };

    fn none() -> FoundCounts {
        FoundCounts {
            s: None,
            f: None,
            b: None,
        }
    }

    fn take(
        self,
        alloc: Global,
        key: &str,
        reader: &mut Reader<'_>,
        depth: usize,
    ) -> Option<FoundCounts> {
        let mut found = self;
        if key == "s" {
            let new = Object::<Member<u64>>::read(alloc, reader, depth)?;
            found.s = Some(new);
            return Some(found);
        }
        if key == "f" {
            let new = Object::<Member<u64>>::read(alloc, reader, depth)?;
            found.f = Some(new);
            return Some(found);
        }
        if key == "b" {
            let new = Object::<Member<Items<u64>>>::read(alloc, reader, depth)?;
            found.b = Some(new);
            return Some(found);
        }
        pass(reader, depth)?;
        Some(found)
    }
}

/// The members of a file that were found so far.
#[derive(Drop)]
pub struct FoundFile {
    pub path: Option<Text>,
    pub maps: FoundMaps,
    pub counts: FoundCounts,
}

impl Membered for FoundFile {
    ghost holds = { HoldsFile };

    fn none() -> FoundFile {
        FoundFile {
            path: None,
            maps: FoundMaps::none(),
            counts: FoundCounts::none(),
        }
    }

    fn take(
        self,
        alloc: Global,
        key: &str,
        reader: &mut Reader<'_>,
        depth: usize,
    ) -> Option<FoundFile> {
        let FoundFile { path, maps, counts } = self;
        if key == "path" {
            let new = read_string(alloc, reader)?;
            return Some(FoundFile {
                path: Some(new),
                maps,
                counts,
            });
        }
        // Counts have names of one letter.
        if key.len() == 1 {
            let counts = counts.take(alloc, key, reader, depth)?;
            return Some(FoundFile { path, maps, counts });
        }
        let maps = maps.take(alloc, key, reader, depth)?;
        Some(FoundFile { path, maps, counts })
    }
}
