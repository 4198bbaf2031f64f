//! The object of one function.
ghost use Rattle.std.specs.Prelude.{◌≡◌, Some, None, IfSome};
ghost use Rattle.cov_model.specs.Nesting.{range_fault};
ghost use Rattle.snapshot_reader.specs.Snapshots.{GivesReport, HoldsFunction};

use crate::range::FoundRange;
use cov_model::{FunctionReport, Range};
use cov_ranges::check_ranges;
use cov_text::{Items, Text};
use json::Reader;
use json_walk::{Listed, Membered, pass, read_bool, read_list, read_object, read_string};
use std::alloc::Global;

/// The members of a function that were found so far.
#[derive(Drop)]
pub struct FoundFunction {
    pub name: Option<Text>,
    pub block: Option<bool>,
    pub ranges: Option<Items<Range>>,
}

impl Membered for FoundFunction {
    ghost holds = { HoldsFunction };

    fn none() -> FoundFunction {
        FoundFunction {
            name: None,
            block: None,
            ranges: None,
        }
    }

    fn take(
        self,
        alloc: Global,
        key: &str,
        reader: &mut Reader<'_>,
        depth: usize,
    ) -> Option<FoundFunction> {
        let FoundFunction {
            name,
            block,
            ranges,
        } = self;
        if key == "functionName" {
            let new = read_string(alloc, reader)?;
            return Some(FoundFunction {
                name: Some(new),
                block,
                ranges,
            });
        }
        if key == "isBlockCoverage" {
            let new = read_bool(reader)?;
            return Some(FoundFunction {
                name,
                block: Some(new),
                ranges,
            });
        }
        if key == "ranges" {
            let new = read_list::<FoundRange>(alloc, reader, depth)?;
            return Some(FoundFunction {
                name,
                block,
                ranges: Some(new),
            });
        }
        pass(reader, depth)?;
        Some(FoundFunction {
            name,
            block,
            ranges,
        })
    }
}

// The function that was found, where all its members were and its ranges nest.
fn report_in(found: FoundFunction) -> Option<FunctionReport>
    ensures { IfSome result (λ r. (found.name ≡ Some r.name) × (found.block ≡ Some r.block)
        × (found.ranges ≡ Some r.ranges) × (range_fault r.ranges ≡ None)) }
{
    let FoundFunction {
        name,
        block,
        ranges,
    } = found;
    let report = FunctionReport {
        name: name?,
        block: block?,
        ranges: ranges?,
    };
    match check_ranges(&report) {
        Ok(()) => Some(report),
        Err(_) => None,
    }
}

impl Listed for FoundFunction {
    type Of = FunctionReport;

    ghost gives = { GivesReport };

    fn read(alloc: Global, reader: &mut Reader<'_>, depth: usize) -> Option<FunctionReport> {
        let found: FoundFunction = read_object(alloc, reader, depth)?;
        report_in(found)
    }
}
