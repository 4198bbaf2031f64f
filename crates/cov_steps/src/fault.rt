//! Why runs can't be added.
ghost use Rattle.cov_steps.specs.declared.fault.StepFault.TheVariants.{NoMemory};
ghost use Rattle.std.specs.Prelude.{◌≡◌};

use std::alloc::AllocError;

/// Why there is no sum of two lists of runs.
#[derive(Clone, Copy, Debug, PartialEq, Eq)]
pub enum StepFault {
    /// At this offset, the least such, the sum would pass the greatest 64-bit number.
    TooBig {
        /// The offset, in UTF-16 units.
        offset: u32,
        /// The count there of the list that was added to.
        held: u64,
        /// The count there of the list that was added.
        added: u64,
    },
    /// Memory ran out.
    NoMemory,
}

impl From<AllocError> for StepFault {
    ghost from_gives = { λ _ fault. fault ≡ NoMemory };

    fn from(_: AllocError) -> StepFault {
        StepFault::NoMemory
    }
}
