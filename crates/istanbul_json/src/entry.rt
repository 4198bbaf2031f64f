//! What a function and a branch are in their maps, without key and counts.
use crate::Loc;
use cov_text::{Items, Text};

/// A function without its key and its count.
#[derive(Drop)]
pub struct FunctionEntry {
    pub name: Text,
    pub decl: Loc,
    pub loc: Loc,
    pub line: Option<u32>,
}

/// A branch without its key and its counts.
#[derive(Drop)]
pub struct BranchEntry {
    pub kind: Text,
    pub loc: Loc,
    pub locations: Items<Loc>,
    pub line: Option<u32>,
}
