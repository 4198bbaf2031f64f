//! The file at a path, as far as its parts are known.
ghost use Rattle.std.specs.Prelude.{◌≡◌, ◌≤◌, length, map, IfOk, OnOk};
ghost use Rattle.std.specs.BTreeMap.{IsOrdered};
ghost use Rattle.cov_text.specs.Listing.{max_text, text_cmp};
ghost use Rattle.istanbul_rules.specs.File as file;
ghost use Rattle.cov_report.specs.SoFar.{new_file, with_part};
ghost use Rattle.cov_report.specs.Gathering.{coverage_at};

use cov_text::{Items, Text};
use istanbul_json::FileCoverage;
use istanbul_rules::{Part, file_coverage_by};
use std::alloc::{AllocError, Global};
use std::collections::BTreeMap;
use std::marker::Model;
use utf16_lines::LineTable;

/// The text of a path, its lines, and the parts that it has got.
#[derive(Debug, Drop)]
pub struct PathFile {
    text: Text,
    table: LineTable,
    parts: Items<Part>,
}

impl Model for PathFile {
    ghost use Rattle.cov_report.specs.SoFar.{SoFar, IsFile};

    ghost Value = { SoFar };

    ghost view = { λ f. record { text = f.text; table = f.table; parts = f.parts } };

    ghost invariant = { λ f. IsFile f.text f.table };
}

impl PathFile {
    /// A file of this text, without parts.
    pub fn new(alloc: Global, text: Text) -> Result<PathFile, AllocError>
        requires { length text ≤ max_text }
        ensures { IfOk result (λ made. made ≡ new_file text) }
    {
        let table = LineTable::of(alloc, text.as_text())?;
        let parts = Items::new(alloc);
        Ok(PathFile { text, table, parts })
    }

    /// The lines of its text, lent.
    pub fn table(&self) -> &LineTable
        ensures { result.now ≡ self.now.table }
    {
        &self.table
    }

    /// The file with one part more, behind the others.
    pub fn with_part(self, part: Part) -> Result<PathFile, AllocError>
        ensures { IfOk result (λ made. made ≡ with_part self part) }
    {
        let PathFile {
            text,
            table,
            mut parts,
        } = self;
        parts.push(part)?;
        Ok(PathFile { text, table, parts })
    }

    /// Its coverage, at this path.
    fn coverage(&self, alloc: Global, path: &str) -> Result<FileCoverage, AllocError>
        ensures { IfOk result (λ found. found ≡ file.file_coverage path.now self.now.text self.now.parts) }
    {
        file_coverage_by(
            alloc,
            path,
            self.text.as_text(),
            &self.table,
            self.parts.as_slice(),
        )
    }
}

/// The coverage of each file, in byte order of the paths.
pub fn coverage_of(
    alloc: Global,
    files: &BTreeMap<Text, PathFile>,
) -> Result<Items<FileCoverage>, AllocError>
    ensures each { IfOk result (λ list. list ≡ map coverage_at files.now.entries) }
    ensures ordered { OnOk result (IsOrdered text_cmp files.now) }
{
    let mut list = Items::new(alloc);
    for (path, file) in files {
        list.push(file.coverage(alloc, path.as_text())?)?;
    }
    Ok(list)
}
