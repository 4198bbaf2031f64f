//! Nets, which make links.
ghost use Rattle.std.specs.Prelude.{◌≡◌, ℕ, IfOk, ◌==◌, not};
ghost use Rattle.cov_io.specs.declared.link.LinkFault.TheVariants.{Failed};
ghost use Rattle.cov_io.specs.Causes.{HasCause};
ghost use Rattle.cov_io.specs.Links.{NetState, Listens, Makes, TakesBack, IsNew, dialled_after, counted_if};

use crate::{Link, LinkFault};
use std::alloc::{AllocError, Global};

/// A count of failures or of closed links, which one case raises. It stands still at the greatest `u64`.
pub fn counted(case: bool, count: u64) -> u64
    ensures { result ≡ counted_if case count }
{
    if case { count.saturating_add(1) } else { count }
}

/// What links are made of, by listening or by dialling.
pub trait Net {
    /// The links that it makes.
    type Link: Link + Drop;

    /// The links to come, the places dialled and the links handed back, each in order, where the net tells them; the
    /// port of its last `listen` that answered Ok; and how many links that were handed back were closed.
    ghost state: { Self → NetState Self.Link };

    /// How often the net has failed, the links that were handed back after a failure among it: it never falls, and
    /// stands still at the greatest `u64`.
    ghost faults: { Self → ℕ };

    /// Listens on a port of this machine, and answers the port in use. At 0 the system picks one.
    fn listen(&mut self, port: u16) -> Result<u16, LinkFault>
        ensures listens { Listens (state self.old) (state self.new) result }
        ensures cause { HasCause Failed (faults self.old) (faults self.new) result };

    /// The next connection, ready for texts. Where the links to come are told, it is the first of them.
    fn accept(&mut self, alloc: Global) -> Result<Self::Link, LinkFault>
        ensures makes { Makes (state self.old) (state self.new) result }
        ensures fresh { IfOk result (λ link. IsNew (Self.Link.state link) (Self.Link.faults link)) }
        ensures dialled { (state self.new).dialled ≡ (state self.old).dialled }
        ensures cause { HasCause Failed (faults self.old) (faults self.new) result };

    /// Connects to a place, `HOST:PORT/PATH`. After want of memory no place was dialled.
    fn dial(&mut self, alloc: Global, place: &str) -> Result<Self::Link, LinkFault>
        ensures makes { Makes (state self.old) (state self.new) result }
        ensures fresh { IfOk result (λ link. IsNew (Self.Link.state link) (Self.Link.faults link)) }
        ensures dialled { (state self.new).dialled
            ≡ dialled_after place.now (state self.old).dialled result }
        ensures cause { HasCause Failed (faults self.old) (faults self.new) result };

    /// Takes a link back. A link that has failed counts as a failure of the net. Without memory the link is dropped,
    /// and is counted all the same.
    fn hang_up(&mut self, link: Self::Link) -> Result<(), AllocError>
        ensures back { TakesBack link (Self.Link.state link) (state self.old) (state self.new) result }
        ensures faults { faults self.new ≡ counted_if (not (Self.Link.faults link == 0)) (faults self.old) };
}
