//! Live sessions at many places.
ghost use Rattle.std.specs.Prelude.{IfOk, IfErr, Ok, Err};
ghost use Rattle.cov_links.specs.Together.{net_at, telling};
ghost use Rattle.cov_attach.specs.Places.{Attends};

use crate::{AttachAllFault, attach_all};
use cov_io::{LinkFault, Net};
use cov_links::{dial_all, hang_up_all};
use cov_model::{Items, Snapshot};
use cov_text::Text;
use std::alloc::Global;
use std::sync::Wait;
use std::thread::Threads;

/// Why snapshots weren't taken at all places.
#[derive(Clone, Copy, Debug, PartialEq, Eq)]
pub enum PlacesFault {
    /// A place wasn't reached: the net failed.
    Unreached,
    /// The fault of the least session that has one.
    Session(AttachAllFault),
    /// There was no memory to dial all places, or to keep a link that was handed back.
    NoMemory,
}

/// Dials all places in order, takes this many snapshots over each link, all links at once, and gives those of each place in the
/// order of the places. It waits for all peers. Every link that was made is handed back, in the order of making, whatever it
/// answers.
///
/// `PlacesFault::Unreached` comes only where the net failed. `PlacesFault::Session` tells the fault of the least session that has
/// one: each goes on to its own end, whatever another did.
pub fn attach_places<N: Net, R: Threads + Wait + Sync>(
    rt: &R,
    alloc: Global,
    net: &mut N,
    places: &[Text],
    takes: u32,
) -> Result<Vec<Items<Snapshot>>, PlacesFault>
where
    N::Link: Send,
    ensures ok { IfOk result (λ taken. Attends (telling N.Link.Link.state N.Link.Link.faults) takes places.now
        (net_at (N.state net.old) (N.faults net.old)) (net_at (N.state net.new) (N.faults net.new)) (Ok taken.items)) }
    ensures err { IfErr result (λ fault. Attends (telling N.Link.Link.state N.Link.Link.faults) takes places.now
        (net_at (N.state net.old) (N.faults net.old)) (net_at (N.state net.new) (N.faults net.new)) (Err fault)) }
{
    let mut links = match dial_all(alloc, net, places) {
        Ok(links) => links,
        Err(LinkFault::Failed) => return Err(PlacesFault::Unreached),
        Err(LinkFault::NoMemory) => return Err(PlacesFault::NoMemory),
    };
    let told = attach_all(rt, alloc, links.as_mut_slice(), takes);
    let Ok(()) = hang_up_all(net, links) else {
        return Err(PlacesFault::NoMemory);
    };
    match told {
        Ok(taken) => Ok(taken),
        Err(fault) => Err(PlacesFault::Session(fault)),
    }
}
