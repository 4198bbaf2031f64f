//! The coverage of a file, and why a text isn't such coverage.
ghost use Rattle.std.specs.Prelude.{◌≡◌};

use cov_text::{Items, Text};
use std::marker::Model;

/// A place in a file: lines from 1, columns from 0.
#[derive(Clone, Copy, Debug, PartialEq, Eq)]
pub struct Mark {
    pub line: Option<u32>,
    pub column: Option<u32>,
}

/// A part of a file.
#[derive(Clone, Copy, Debug, PartialEq, Eq)]
pub struct Loc {
    pub start: Mark,
    pub end: Mark,
}

/// A statement and how often it ran.
#[derive(Clone, Debug, PartialEq, Eq, Drop)]
pub struct Statement {
    pub key: Text,
    pub loc: Loc,
    pub count: u64,
}

/// A function, where it is declared and where it stands, and how often it ran.
#[derive(Clone, Debug, PartialEq, Eq, Drop)]
pub struct Function {
    pub key: Text,
    pub name: Text,
    pub decl: Loc,
    pub loc: Loc,
    pub line: Option<u32>,
    pub count: u64,
}

/// A branch with the count of each of its locations.
#[derive(Clone, Debug, PartialEq, Eq, Drop)]
pub struct Branch {
    pub key: Text,
    pub kind: Text,
    pub loc: Loc,
    pub locations: Items<Loc>,
    pub line: Option<u32>,
    pub counts: Items<u64>,
}

/// What the coverage of a file says.
#[derive(Debug, PartialEq, Eq, Drop)]
pub struct FileParts {
    pub path: Text,
    pub statements: Items<Statement>,
    pub functions: Items<Function>,
    pub branches: Items<Branch>,
}

/// The coverage of a file: contracts see its parts. In each list the keys rise, shorter ones first, and a branch has as many
/// counts as locations.
#[derive(Debug, Drop)]
pub struct FileCoverage {
    parts: FileParts,
}

impl Model for FileCoverage {
    ghost use Rattle.istanbul_json.specs.declared.file.FileParts.{FileParts};
    ghost use Rattle.istanbul_json.specs.Kept.{IsKeyed};

    ghost Value = { FileParts };

    ghost view = { λ f. f.parts };

    ghost invariant = { λ f. IsKeyed f.parts };
}

impl FileCoverage {
    ghost use Rattle.istanbul_json.specs.Kept.{IsKeyed};

    /// The coverage of these parts.
    pub fn new(parts: FileParts) -> FileCoverage
        requires { IsKeyed parts }
        ensures { result ≡ parts }
    {
        FileCoverage { parts }
    }

    /// All of it, lent.
    pub fn parts(&self) -> &FileParts
        ensures value { result.now ≡ self.now }
        ensures kept { IsKeyed self.now }
    {
        &self.parts
    }

    /// The path of the file.
    pub fn path(&self) -> &str
        ensures value { result.now ≡ self.now.path }
        ensures kept { IsKeyed self.now }
    {
        self.parts.path.as_text()
    }

    /// The statements, in the order of their keys.
    pub fn statements(&self) -> &[Statement]
        ensures value { result.now ≡ self.now.statements }
        ensures kept { IsKeyed self.now }
    {
        self.parts.statements.as_slice()
    }

    /// The functions, in the order of their keys.
    pub fn functions(&self) -> &[Function]
        ensures value { result.now ≡ self.now.functions }
        ensures kept { IsKeyed self.now }
    {
        self.parts.functions.as_slice()
    }

    /// The branches, in the order of their keys.
    pub fn branches(&self) -> &[Branch]
        ensures value { result.now ≡ self.now.branches }
        ensures kept { IsKeyed self.now }
    {
        self.parts.branches.as_slice()
    }
}

/// A member of a file, or the file itself.
#[derive(Clone, Copy, Debug, PartialEq, Eq)]
pub enum CoverageField {
    /// The value itself.
    Top,
    /// `path`.
    Path,
    /// `statementMap`.
    StatementMap,
    /// `fnMap`.
    FnMap,
    /// `branchMap`.
    BranchMap,
    /// `s`, the counts of the statements.
    S,
    /// `f`, the counts of the functions.
    F,
    /// `b`, the counts of the branches.
    B,
}

/// Why a text isn't coverage. Files are numbered from 0.
#[derive(Clone, Copy, Debug, PartialEq, Eq)]
pub enum CoverageFault {
    /// It is longer than 134,217,728 bytes.
    TooLong,
    /// It is no JSON text.
    Syntax,
    /// A member isn't there.
    Missing { file: u64, field: CoverageField },
    /// The text, a file or a member isn't what it has to be.
    Wrong { file: u64, field: CoverageField },
    /// The counts have other keys than their map, or a branch has another number of counts than locations.
    Keys { file: u64, field: CoverageField },
    /// Memory ran out.
    NoMemory,
}
