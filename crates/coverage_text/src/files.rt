//! Coverage files that stand in order.
ghost use Rattle.std.specs.Prelude.{◌≡◌};

use cov_text::Items;
use istanbul_json::FileCoverage;
use std::marker::Model;

/// Coverage files whose paths rise in byte order: contracts see the list.
#[derive(Debug, Drop)]
pub struct CoverageFiles {
    files: Items<FileCoverage>,
}

impl Model for CoverageFiles {
    ghost use Rattle.std.specs.Prelude.{List};
    ghost use Rattle.istanbul_json.specs.declared.file.FileParts.{FileParts};
    ghost use Rattle.istanbul_json.specs.Gives.{ArePathsInOrder};

    ghost Value = { List FileParts };

    ghost view = { λ c. c.files };

    ghost invariant = { λ c. ArePathsInOrder c.files };
}

impl CoverageFiles {
    ghost use Rattle.istanbul_json.specs.Gives.{ArePathsInOrder};

    /// These files.
    pub fn new(files: Items<FileCoverage>) -> CoverageFiles
        requires { ArePathsInOrder files }
        ensures { result ≡ files }
    {
        CoverageFiles { files }
    }

    /// All of them, lent.
    pub fn files(&self) -> &[FileCoverage]
        ensures value { result.now ≡ self.now }
        ensures kept { ArePathsInOrder self.now }
    {
        self.files.as_slice()
    }
}
