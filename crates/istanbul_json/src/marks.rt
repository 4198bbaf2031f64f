//! A mark and a location, read straight from the tokens of a text.
ghost use Rattle.std.specs.Prelude.{◌≡◌, Some, IfSome};
ghost use Rattle.json_walk.specs.Shape.{Is};
ghost use Rattle.istanbul_json.specs.Members.{mark_of, loc_of};
ghost use Rattle.istanbul_json.specs.Walks.{HoldsMark, HoldsLoc};

use crate::{Loc, Mark};
use json::Reader;
use json_walk::{Listed, Membered, pass, read_object, read_offset_or_null};
use std::alloc::Global;

impl Membered for Mark {
    ghost holds = { HoldsMark };

    fn none() -> Mark {
        Mark {
            line: None,
            column: None,
        }
    }

    #[inline(always)]
    fn take(self, alloc: Global, key: &str, reader: &mut Reader<'_>, depth: usize) -> Option<Mark> {
        let _ = alloc;
        let Mark { line, column } = self;
        if key == "line" {
            let new = read_offset_or_null(reader)?;
            return Some(Mark { line: new, column });
        }
        if key == "column" {
            let new = read_offset_or_null(reader)?;
            return Some(Mark { line, column: new });
        }
        pass(reader, depth)?;
        Some(Mark { line, column })
    }
}

impl Listed for Mark {
    type Of = Mark;

    ghost gives = { Is mark_of };

    fn read(alloc: Global, reader: &mut Reader<'_>, depth: usize) -> Option<Mark> {
        read_object(alloc, reader, depth)
    }
}

/// The marks of a location that were found so far.
#[derive(Drop)]
pub struct FoundLoc {
    pub start: Option<Mark>,
    pub end: Option<Mark>,
}

impl Membered for FoundLoc {
    ghost holds = { HoldsLoc };

    fn none() -> FoundLoc {
        FoundLoc {
            start: None,
            end: None,
        }
    }

    #[inline(always)]
    fn take(
        self,
        alloc: Global,
        key: &str,
        reader: &mut Reader<'_>,
        depth: usize,
    ) -> Option<FoundLoc> {
        let FoundLoc { start, end } = self;
        if key == "start" {
            let new = Mark::read(alloc, reader, depth)?;
            return Some(FoundLoc {
                start: Some(new),
                end,
            });
        }
        if key == "end" {
            let new = Mark::read(alloc, reader, depth)?;
            return Some(FoundLoc {
                start,
                end: Some(new),
            });
        }
        pass(reader, depth)?;
        Some(FoundLoc { start, end })
    }
}

// The location that was found, where both its marks were.
fn loc_in(found: FoundLoc) -> Option<Loc>
    ensures { IfSome result (λ l. (found.start ≡ Some l.start) × (found.end ≡ Some l.end)) }
{
    let FoundLoc { start, end } = found;
    Some(Loc {
        start: start?,
        end: end?,
    })
}

impl Listed for Loc {
    type Of = Loc;

    ghost gives = { Is loc_of };

    fn read(alloc: Global, reader: &mut Reader<'_>, depth: usize) -> Option<Loc> {
        let found: FoundLoc = read_object(alloc, reader, depth)?;
        loc_in(found)
    }
}
