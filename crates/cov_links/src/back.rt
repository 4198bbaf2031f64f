//! Handing links back.
ghost use Rattle.std.specs.Prelude.{◌≡◌, OnOk};
ghost use Rattle.cov_links.specs.Together.{Returned, ending_with_all, net_at, telling};

use cov_io::Net;
use std::alloc::AllocError;

/// Hands each link back, in order. Without memory a link is dropped, and is counted all the same; the others are handed back.
///
/// An `AllocError` tells that a link was dropped.
pub fn hang_up_all<N: Net>(net: &mut N, links: Vec<N::Link>) -> Result<(), AllocError>
    ensures returned { Returned (telling N.Link.Link.state N.Link.Link.faults) links.items
        (net_at (N.state net.old) (N.faults net.old)) (net_at (N.state net.new) (N.faults net.new)) }
    ensures back { OnOk result ((N.state net.new).back ≡ ending_with_all links.items (N.state net.old).back) }
{
    let mut listed = true;
    for link in links {
        listed &= net.hang_up(link).is_ok();
    }
    if listed { Ok(()) } else { Err(AllocError) }
}
