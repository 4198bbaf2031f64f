//! Why a session didn't come to the end of its script.
ghost use Rattle.std.specs.Prelude.{◌≡◌};
ghost use Rattle.cov_attach.specs.Causes.{link_fault};
ghost use Rattle.cov_attach.specs.declared.fault.AttachFault.TheVariants.{NoMemory};

use cov_io::LinkFault;
use cov_session::PeerWhy;
use std::alloc::AllocError;

/// Why a session didn't come to the end of its script.
#[derive(Clone, Copy, Debug, PartialEq, Eq)]
pub enum AttachFault {
    /// The link failed.
    Failed,
    /// The peer closed the link before the awaited reply.
    Closed,
    /// The peer sent what a client refuses. `message` is the number of that text among those received, from 0.
    Peer { message: u64, why: PeerWhy },
    NoMemory,
}

/// The fault of the least session that has one.
#[derive(Clone, Copy, Debug, PartialEq, Eq)]
pub struct AttachAllFault {
    /// The place of the session's link, from 0.
    pub session: u64,
    pub fault: AttachFault,
}

impl From<AllocError> for AttachFault {
    ghost from_gives = { λ _ fault. fault ≡ NoMemory };

    fn from(_: AllocError) -> AttachFault {
        AttachFault::NoMemory
    }
}

impl From<LinkFault> for AttachFault {
    ghost from_gives = { λ cause fault. fault ≡ link_fault cause };

    fn from(cause: LinkFault) -> AttachFault {
        match cause {
            LinkFault::Failed => AttachFault::Failed,
            LinkFault::NoMemory => AttachFault::NoMemory,
        }
    }
}
