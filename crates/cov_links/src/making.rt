//! Making links, by dialling and by listening.
ghost use Rattle.std.specs.Prelude.{◌≡◌, [], IfOk, IfErr, length};
ghost use Rattle.cov_io.specs.declared.link.LinkFault.TheVariants.{Failed};
ghost use Rattle.cov_links.specs.Together.{Made, Unmade, Returned, ending_with_all, net_at, telling};

use crate::hang_up_all;
use cov_io::{LinkFault, Net};
use cov_text::Text;
use std::alloc::Global;

/// Dials all places in order, and gives their links. Where a place isn't reached, the links before it are handed back, in order.
///
/// `Failed` comes only where the net failed; `NoMemory` only for want of memory.
pub fn dial_all<N: Net>(
    alloc: Global,
    net: &mut N,
    places: &[Text],
) -> Result<Vec<N::Link>, LinkFault>
    ensures made { IfOk result (λ links. Made (telling N.Link.Link.state N.Link.Link.faults) places.now
        (net_at (N.state net.old) (N.faults net.old)) (net_at (N.state net.new) (N.faults net.new)) links.items) }
    ensures each { IfOk result (λ links. length links.items ≡ length places.now) }
    ensures unmade { IfErr result (Unmade (length places.now) places.now
        (net_at (N.state net.old) (N.faults net.old)) (net_at (N.state net.new) (N.faults net.new))) }
{
    let mut links = Vec::with_capacity(alloc, places.len())?;
    for place in places {
        match net.dial(alloc, place.as_text()) {
            Ok(link) => links.push_reserved(link),
            Err(fault) => return Err(given_up(net, links, fault)),
        }
    }
    Ok(links)
}

/// Accepts this many links, in order. Where one doesn't come, the links before it are handed back, in order. The net has to listen.
///
/// `Failed` comes only where the net failed; `NoMemory` only for want of memory.
pub fn accept_all<N: Net>(alloc: Global, net: &mut N, count: u32) -> Result<Vec<N::Link>, LinkFault>
    ensures made { IfOk result (λ links. Made (telling N.Link.Link.state N.Link.Link.faults) []
        (net_at (N.state net.old) (N.faults net.old)) (net_at (N.state net.new) (N.faults net.new)) links.items) }
    ensures each { IfOk result (λ links. length links.items ≡ count) }
    ensures unmade { IfErr result (Unmade count []
        (net_at (N.state net.old) (N.faults net.old)) (net_at (N.state net.new) (N.faults net.new))) }
{
    let mut links = Vec::with_capacity(alloc, count as usize)?;
    for _made in 0..count {
        match net.accept(alloc) {
            Ok(link) => links.push_reserved(link),
            Err(fault) => return Err(given_up(net, links, fault)),
        }
    }
    Ok(links)
}

// Hands back the links that were made before this fault. What is told is the fault, or that a link was dropped for want of memory.
fn given_up<N: Net>(net: &mut N, links: Vec<N::Link>, fault: LinkFault) -> LinkFault
    ensures returned { Returned (telling N.Link.Link.state N.Link.Link.faults) links.items
        (net_at (N.state net.old) (N.faults net.old)) (net_at (N.state net.new) (N.faults net.new)) }
    ensures told { result ≡ Failed → fault ≡ Failed }
    ensures back { result ≡ Failed → (N.state net.new).back ≡ ending_with_all links.items (N.state net.old).back }
{
    match hang_up_all(net, links) {
        Ok(()) => fault,
        Err(_) => LinkFault::NoMemory,
    }
}
