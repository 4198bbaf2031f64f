//! What is gathered for a report, script by script.
ghost use Rattle.std.specs.Prelude.{◌≡◌, [], ◌∷◌, ◌++◌, ℕ, List, Some, if◌then◌else◌, OnOk};
ghost use Rattle.std.specs.BTreeMap.{get, is_at, IsEmpty};
ghost use Rattle.cov_text.specs.Listing.{text_cmp};
ghost use Rattle.cov_report.specs.SoFar.{with_part};

use crate::files::PathFile;
use crate::{Skip, SkipCause};
use cov_text::{Items, Text};
use istanbul_rules::Part;
use std::alloc::{AllocError, Global};
use std::collections::BTreeMap;

/// The file at each path that has a part, and what is left out.
#[derive(Debug, Drop)]
pub struct Gathered {
    pub files: BTreeMap<Text, PathFile>,
    pub skips: Items<Skip>,
}

impl Gathered {
    /// Nothing.
    pub fn new(alloc: Global) -> Gathered
        ensures files { IsEmpty result.files }
        ensures skips { result.skips ≡ [] }
    {
        Gathered {
            files: BTreeMap::new(alloc),
            skips: Items::new(alloc),
        }
    }

    /// Leaves something out.
    pub fn skip(&mut self, alloc: Global, name: &str, cause: SkipCause) -> Result<(), AllocError>
        ensures files { self.new.files ≡ self.old.files }
        ensures skips { OnOk result (self.new.skips ≡ self.old.skips ++ record { name = name.now; cause = cause } ∷ []) }
    {
        let name = Text::from_text(alloc, name)?;
        self.skips.push(Skip { name, cause })?;
        Ok(())
    }

    /// Puts a file with one part more at its path.
    pub fn put(&mut self, path: Text, file: PathFile, part: Part) -> Result<(), AllocError>
        ensures files { OnOk result ((q : List ℕ) → get text_cmp self.new.files q
            ≡ (if is_at (text_cmp path) q then Some (with_part file part) else get text_cmp self.old.files q)) }
        ensures skips { self.new.skips ≡ self.old.skips }
    {
        let file = file.with_part(part)?;
        self.files.insert(path, file)?;
        Ok(())
    }
}
