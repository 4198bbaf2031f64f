//! The coverage files of a text, read straight from its tokens.
ghost use Rattle.std.specs.Prelude.{◌≡◌, Ok, List, ℕ, IfSome};
ghost use Rattle.serde_json.specs.Data.{Members, object};
ghost use Rattle.istanbul_json.specs.Coverage.{coverage_reading};
ghost use Rattle.istanbul_json.specs.Gives.{ArePathsInOrder};
ghost use Rattle.istanbul_json.specs.Walks.{HoldsFile, SaysFile};

use crate::found::{FoundCounts, FoundFile, FoundMaps};
use crate::joining::{listed, strictly_ordered};
use crate::{FileCoverage, FileParts};
use cov_text::Items;
use json::Reader;
use json_walk::{Keyed, Object, read_bytes, read_object};
use std::alloc::Global;

// The file that was found, where all its members were.
fn file_in(alloc: Global, found: FoundFile) -> Option<FileCoverage>
    ensures { IfSome result (λ f. (ms : Members) → HoldsFile found ms → SaysFile f (object ms)) }
{
    let FoundFile { path, maps, counts } = found;
    let FoundMaps {
        statements,
        functions,
        branches,
    } = maps;
    let FoundCounts { s, f, b } = counts;
    let path = path?;
    let statements = listed(alloc, statements, s)?;
    let functions = listed(alloc, functions, f)?;
    let branches = listed(alloc, branches, b)?;
    Some(FileCoverage::new(FileParts {
        path,
        statements,
        functions,
        branches,
    }))
}

impl Keyed for FileCoverage {
    type Of = FileCoverage;

    ghost key_of = { λ f. f.path };

    ghost says = { SaysFile };

    fn read_member(
        alloc: Global,
        key: &str,
        reader: &mut Reader<'_>,
        depth: usize,
    ) -> Option<FileCoverage> {
        let found: FoundFile = read_object(alloc, reader, depth)?;
        let file = file_in(alloc, found)?;
        if file.path() != key {
            return None;
        }
        Some(file)
    }
}

/// The coverage files that bytes are, where every member that is read is of its kind each time that it comes, and maps and
/// their counts have their keys in one order. `None` says nothing of the bytes.
pub fn quick_coverage(alloc: Global, bytes: &[u8]) -> Option<Items<FileCoverage>>
    ensures reading { IfSome result (λ files. coverage_reading bytes.now ≡ Ok files) }
    ensures in_order { IfSome result ArePathsInOrder }
{
    let files = read_bytes::<Object<FileCoverage>>(alloc, bytes)?;
    let Object { members } = files;
    strictly_ordered(members.into_vec())
}
