//! Playing a target over links that are made by listening.
ghost use Rattle.std.specs.Prelude.{◌≡◌, ◌≤◌, [], length, IfOk, IfErr};
ghost use Rattle.cov_links.specs.Together.{net_at, telling};
ghost use Rattle.cov_sessions.specs.Sessions.{Replayed, Unreplayed};

use crate::links::{Played, serve_links};
use cov_io::{LinkFault, Net};
use cov_links::{accept_all, hang_up_all};
use cov_session::{Tally, Target};
use std::alloc::Global;
use std::marker::Brand;
use std::sync::Wait;
use std::sync::ledger::Blank;
use std::thread::Threads;

/// Accepts a link for each session of the target, serves all of them at once, each to its own end, and hands back every link that was
/// made, in the order of making, whatever it answers. The net has to listen. It waits for all peers. The answer is the tally of the
/// target, of which only takes played frames.
///
/// `LinkFault::Failed` comes only where the net or a link failed: of several sessions with a fault the least one's is told.
/// `LinkFault::NoMemory` comes only for want of memory.
pub fn replay<N: Net, R: Threads + Wait + Sync>(
    rt: &R,
    alloc: Global,
    net: &mut N,
    target: Target,
    sessions: u32,
) -> Result<Tally, LinkFault>
where
    N::Link: Send,
    requires fresh { (target.played ≡ 0) × (target.takes ≡ []) }
    requires sessions { (length target.desks ≡ sessions) × (1 ≤ sessions) }
    ensures ok { IfOk result (λ tally. Replayed (telling N.Link.Link.state N.Link.Link.faults) target.tape target.pace sessions
        (net_at (N.state net.old) (N.faults net.old)) (net_at (N.state net.new) (N.faults net.new)) tally) }
    ensures err { IfErr result (λ fault. Unreplayed (telling N.Link.Link.state N.Link.Link.faults) target.tape target.pace sessions
        (net_at (N.state net.old) (N.faults net.old)) (net_at (N.state net.new) (N.faults net.new)) fault) }
{
    let links = match accept_all(alloc, net, sessions) {
        Ok(links) => links,
        Err(fault) => return Err(fault),
    };
    let parts = sessions as u64;
    let Played { links, told } = serve_links::<Brand, Brand, Brand, Brand, N::Link, R>(
        rt,
        alloc,
        target,
        Blank::new(parts),
        Blank::new(parts),
        Blank::new(parts),
        links,
    );
    let Ok(()) = hang_up_all(net, links) else {
        return Err(LinkFault::NoMemory);
    };
    told
}
