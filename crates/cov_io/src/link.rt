//! Links over which texts are sent and received.
ghost use Rattle.std.specs.Prelude.{◌≡◌, ℕ};
ghost use Rattle.cov_io.specs.declared.link.LinkFault.TheVariants.{Failed, NoMemory};
ghost use Rattle.cov_io.specs.Causes.{HasCause};
ghost use Rattle.cov_io.specs.Links.{LinkState, Sends, Receives};

use std::alloc::{AllocError, AllocFailed, Global};
use thiserror::Error;

/// Why a call of a link or a net didn't answer.
#[derive(Clone, Copy, Debug, Error)]
pub enum LinkFault {
    #[error("the link failed")]
    Failed,
    #[error("out of memory")]
    NoMemory,
}

impl From<AllocError> for LinkFault {
    ghost from_gives = { λ _ e. e ≡ NoMemory };

    fn from(_: AllocError) -> Self {
        LinkFault::NoMemory
    }
}

impl<T: Drop> From<AllocFailed<T>> for LinkFault {
    ghost from_gives = { λ _ e. e ≡ NoMemory };

    fn from(_: AllocFailed<T>) -> Self {
        LinkFault::NoMemory
    }
}

/// What a link gives.
#[derive(Debug, Drop)]
pub enum Got {
    /// The next text.
    Text(String),
    /// The peer sends no more texts.
    Closed,
}

/// A link to a peer.
pub trait Link {
    /// The texts sent and the texts still to come, where the link tells them, and whether it is closed: from the
    /// first `recv` that answered `Got::Closed`.
    ghost state: { Self → LinkState };

    /// How often the link has failed: it never falls, and stands still at the greatest `u64`.
    ghost faults: { Self → ℕ };

    /// Sends one text. After a fault it was sent or not, after want of memory it wasn't.
    fn send(&mut self, alloc: Global, text: &str) -> Result<(), LinkFault>
        ensures sends { Sends text.now (state self.old) (state self.new) result }
        ensures cause { HasCause Failed (faults self.old) (faults self.new) result };

    /// The next text to come, or `Closed` exactly where none is to come.
    fn recv(&mut self, alloc: Global) -> Result<Got, LinkFault>
        ensures receives { Receives (state self.old) (state self.new) result }
        ensures cause { HasCause Failed (faults self.old) (faults self.new) result };
}
