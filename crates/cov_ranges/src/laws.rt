//! Laws over the definitions.
ghost use Rattle.cov_ranges.specs.Laws.{FaultlessWhereNested, FirstFaultIsLeast};

/// A list of ranges has no first fault exactly where it is well nested.
pub fn well_nested()
    ensures { FaultlessWhereNested }
{}

/// The first fault of a list of ranges is that of the least place that has one.
pub fn first_fault_is_least()
    ensures { FirstFaultIsLeast }
{}
