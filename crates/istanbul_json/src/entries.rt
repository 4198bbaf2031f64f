//! The entries of functions and of branches, read straight from the tokens of a text.
ghost use Rattle.std.specs.Prelude.{◌≡◌, Some, IfSome};
ghost use Rattle.json_walk.specs.Shape.{Is};
ghost use Rattle.istanbul_json.specs.Members.{function_of, branch_of};
ghost use Rattle.istanbul_json.specs.Walks.{HoldsFunction, HoldsBranch};

use crate::Loc;
use crate::entry::{BranchEntry, FunctionEntry};
use cov_text::{Items, Text};
use json::Reader;
use json_walk::{Listed, Membered, pass, read_object, read_offset_or_null, read_string};
use std::alloc::Global;

/// The members of a function's entry that were found so far.
#[derive(Drop)]
pub struct FoundFunction {
    pub name: Option<Text>,
    pub decl: Option<Loc>,
    pub loc: Option<Loc>,
    pub line: Option<u32>,
}

impl Membered for FoundFunction {
    ghost holds = { HoldsFunction };

    fn none() -> FoundFunction {
        FoundFunction {
            name: None,
            decl: None,
            loc: None,
            line: None,
        }
    }

    fn take(
        self,
        alloc: Global,
        key: &str,
        reader: &mut Reader<'_>,
        depth: usize,
    ) -> Option<FoundFunction> {
        let mut found = self;
        if key == "name" {
            let new = read_string(alloc, reader)?;
            found.name = Some(new);
            return Some(found);
        }
        if key == "decl" {
            let new = Loc::read(alloc, reader, depth)?;
            found.decl = Some(new);
            return Some(found);
        }
        if key == "loc" {
            let new = Loc::read(alloc, reader, depth)?;
            found.loc = Some(new);
            return Some(found);
        }
        if key == "line" {
            let new = read_offset_or_null(reader)?;
            found.line = new;
            return Some(found);
        }
        pass(reader, depth)?;
        Some(found)
    }
}

// The entry that was found, where all its members were.
fn function_in(found: FoundFunction) -> Option<FunctionEntry>
    ensures { IfSome result (λ f. (found.name ≡ Some f.name) × (found.decl ≡ Some f.decl)
        × (found.loc ≡ Some f.loc) × (found.line ≡ f.line)) }
{
    let FoundFunction {
        name,
        decl,
        loc,
        line,
    } = found;
    Some(FunctionEntry {
        name: name?,
        decl: decl?,
        loc: loc?,
        line,
    })
}

impl Listed for FunctionEntry {
    type Of = FunctionEntry;

    ghost gives = { Is function_of };

    fn read(alloc: Global, reader: &mut Reader<'_>, depth: usize) -> Option<FunctionEntry> {
        let found: FoundFunction = read_object(alloc, reader, depth)?;
        function_in(found)
    }
}

/// The members of a branch's entry that were found so far.
#[derive(Drop)]
pub struct FoundBranch {
    pub kind: Option<Text>,
    pub loc: Option<Loc>,
    pub locations: Option<Items<Loc>>,
    pub line: Option<u32>,
}

impl Membered for FoundBranch {
    ghost holds = { HoldsBranch };

    fn none() -> FoundBranch {
        FoundBranch {
            kind: None,
            loc: None,
            locations: None,
            line: None,
        }
    }

    fn take(
        self,
        alloc: Global,
        key: &str,
        reader: &mut Reader<'_>,
        depth: usize,
    ) -> Option<FoundBranch> {
        let mut found = self;
        if key == "type" {
            let new = read_string(alloc, reader)?;
            found.kind = Some(new);
            return Some(found);
        }
        if key == "loc" {
            let new = Loc::read(alloc, reader, depth)?;
            found.loc = Some(new);
            return Some(found);
        }
        if key == "locations" {
            let new = Items::<Loc>::read(alloc, reader, depth)?;
            found.locations = Some(new);
            return Some(found);
        }
        if key == "line" {
            let new = read_offset_or_null(reader)?;
            found.line = new;
            return Some(found);
        }
        pass(reader, depth)?;
        Some(found)
    }
}

// The entry that was found, where all its members were.
fn branch_in(found: FoundBranch) -> Option<BranchEntry>
    ensures { IfSome result (λ b. (found.kind ≡ Some b.kind) × (found.loc ≡ Some b.loc)
        × (found.locations ≡ Some b.locations) × (found.line ≡ b.line)) }
{
    let FoundBranch {
        kind,
        loc,
        locations,
        line,
    } = found;
    Some(BranchEntry {
        kind: kind?,
        loc: loc?,
        locations: locations?,
        line,
    })
}

impl Listed for BranchEntry {
    type Of = BranchEntry;

    ghost gives = { Is branch_of };

    fn read(alloc: Global, reader: &mut Reader<'_>, depth: usize) -> Option<BranchEntry> {
        let found: FoundBranch = read_object(alloc, reader, depth)?;
        branch_in(found)
    }
}
