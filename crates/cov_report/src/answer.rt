//! What a report is, and why there is none.
ghost use Rattle.std.specs.Prelude.{◌≡◌};
ghost use Rattle.cov_report.specs.declared.answer.ReportFault.TheVariants.{NoMemory};

use cov_text::{Items, Text};
use istanbul_json::FileCoverage;
use std::alloc::{AllocError, AllocFailed};

/// Why a script or a source is left out of a report.
#[derive(Clone, Copy, Debug, PartialEq, Eq)]
pub enum SkipCause {
    /// It names no file, and no map has its content.
    NotFile,
    /// There is no file at its path.
    Absent,
    /// Its text is longer than 134,217,728 bytes.
    TooLong,
    /// Its file isn't UTF-8.
    NotUtf8,
    /// What a text says of its map isn't a map with the lengths of the generated lines.
    BadMap,
}

/// A script, by its url, or a source of a map, by its name, that is left out.
#[derive(Debug, Drop)]
pub struct Skip {
    pub name: Text,
    pub cause: SkipCause,
}

/// The files, in byte order of their paths, and what is left out, in the order in which it was asked for.
#[derive(Debug, Drop)]
pub struct Report {
    pub files: Items<FileCoverage>,
    pub skips: Items<Skip>,
}

/// Why there is no report.
#[derive(Clone, Copy, Debug, PartialEq, Eq)]
pub enum ReportFault {
    /// The store failed.
    Failed,
    /// There was no memory for it.
    NoMemory,
}

impl From<AllocError> for ReportFault {
    ghost from_gives = { λ _ e. e ≡ NoMemory };

    fn from(_: AllocError) -> Self {
        ReportFault::NoMemory
    }
}

impl<T: Drop> From<AllocFailed<T>> for ReportFault {
    ghost from_gives = { λ _ e. e ≡ NoMemory };

    fn from(_: AllocFailed<T>) -> Self {
        ReportFault::NoMemory
    }
}
