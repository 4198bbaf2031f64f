//! Programs that are run to their end.
ghost use Rattle.std.specs.Prelude.{◌≡◌, ℕ, List, Option, map, string_bytes};
ghost use Rattle.cov_io.specs.declared.spawn.SpawnFault.TheVariants.{Failed, NoMemory};
ghost use Rattle.cov_io.specs.Causes.{HasCause};
ghost use Rattle.cov_io.specs.Lists.{Adds};
ghost use Rattle.cov_io.specs.Spawns.{status_after};

use std::alloc::{AllocError, AllocFailed, Global};
use thiserror::Error;

/// Why a program wasn't run to its end.
#[derive(Clone, Copy, Debug, Error)]
pub enum SpawnFault {
    #[error("the program wasn't run to its end")]
    Failed,
    #[error("out of memory")]
    NoMemory,
}

impl From<AllocError> for SpawnFault {
    ghost from_gives = { λ _ e. e ≡ NoMemory };

    fn from(_: AllocError) -> Self {
        SpawnFault::NoMemory
    }
}

impl<T: Drop> From<AllocFailed<T>> for SpawnFault {
    ghost from_gives = { λ _ e. e ≡ NoMemory };

    fn from(_: AllocFailed<T>) -> Self {
        SpawnFault::NoMemory
    }
}

/// What runs programs.
pub trait Spawner {
    /// The lists of words that it ran, in order, where the spawner tells them.
    ghost ran: { Self → Option (List (List (List ℕ))) };

    /// The status of its last call that answered Ok, and none before the first.
    ghost last: { Self → Option ℕ };

    /// How often the spawner has failed: it never falls, and stands still at the greatest `u64`.
    ghost faults: { Self → ℕ };

    /// Starts the program that the first word names, with the other words, waits for its end, and answers its
    /// status. A program that a signal ended is `Failed`.
    fn run(&mut self, alloc: Global, words: &[String]) -> Result<u8, SpawnFault>
        ensures ran { Adds Failed NoMemory (map string_bytes words.now) (ran self.old) (ran self.new) result }
        ensures last { last self.new ≡ status_after (last self.old) result }
        ensures cause { HasCause Failed (faults self.old) (faults self.new) result };
}
