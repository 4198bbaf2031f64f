//! Coverage files in the form of Istanbul.
#![tactic(auto)]

ghost use Rattle.istanbul_json.specs.Examples.{TextOfTwoLines, ReadsBack, WithoutAMember, KeysInOrder, FaultsInOrder};

mod entries;
mod entry;
mod file;
mod found;
mod joining;
mod keys;
mod marks;
mod members;
mod quick;
mod reading;
mod values;
mod writing;

pub use file::{
    Branch, CoverageFault, CoverageField, FileCoverage, FileParts, Function, Loc, Mark, Statement,
};
pub use reading::read_coverage;
pub use writing::{text_of, value_of};

/// What the definitions give on worked examples.
pub fn worked_examples()
    ensures text_of_a_file { TextOfTwoLines }
    ensures read_back { ReadsBack }
    ensures without_a_member { WithoutAMember }
    ensures keys_in_order { KeysInOrder }
    ensures faults_in_order { FaultsInOrder }
{}
