//! Serving links that were made.
ghost use Rattle.std.specs.Prelude.{◌≡◌, ◌<◌, ◌^◌, ℕ, [], length, get_or, vec_len, IfOk, IfErr, Some, None, Option, sum_by};
ghost use Rattle.cov_links.specs.Together.{telling};
ghost use Rattle.cov_serve.specs.Seats.{new_seats};
ghost use Rattle.cov_serve.specs.Serving.{Ends};
ghost use Rattle.cov_session.specs.Machine.{State, tally_of};
ghost use Rattle.cov_sessions.specs.Seating.{SeatsTell, links_in, seats_in};
ghost use Rattle.cov_sessions.specs.Sessions.{Plays};

use crate::seating::{Parted, least_fault, seated, unseated};
use cov_io::{Link, LinkFault};
use cov_serve::{Seat, Session, SharedTarget, Show, close, serve_sessions};
use cov_session::{Tally, Target};
use std::alloc::Global;
use std::sync::Wait;
use std::sync::ledger::{Blank, Ledger};
use std::thread::Threads;

/// What became of links that were to be served: the links, and the tally of their target or why there is none.
#[derive(Drop)]
pub struct Played<L: Drop> {
    pub links: Vec<L>,
    pub told: Result<Tally, LinkFault>,
}

/// Serves each link at once, each to its own end. The links come back in their order, whatever comes of them.
pub fn serve_links<
    N: Show + Send + Sync,
    A: Ledger + Send + Sync,
    B: Ledger + Send + Sync,
    C: Ledger + Send + Sync,
    L: Link + Drop + Send,
    R: Threads + Wait + Sync,
>(
    rt: &R,
    alloc: Global,
    target: Target,
    takes: Blank,
    frames: Blank,
    starts: Blank,
    links: Vec<L>,
) -> Played<L>
    requires named { (target.tape ≡ N.tape) × (target.pace ≡ N.pace) × (length target.desks ≡ N.sessions) }
    requires fresh { (target.played ≡ 0) × (target.takes ≡ []) }
    requires each { length links.items ≡ N.sessions }
    requires some { 0 < N.sessions }
    requires few { N.sessions < 2 ^ 32 }
    requires takes { (takes.name ≡ A.name) × (takes.parts ≡ A.parts) × (takes.parts ≡ N.sessions) }
    requires frames { (frames.name ≡ B.name) × (frames.parts ≡ B.parts) × (frames.parts ≡ N.sessions) }
    requires starts { (starts.name ≡ C.name) × (starts.parts ≡ C.parts) × (starts.parts ≡ N.sessions) }
    ensures { Plays (telling L.state L.faults) N.tape N.pace N.sessions links.items result.links.items result.told }
{
    let Ok((shared, seats)) = SharedTarget::<N, A, B, C>::new(alloc, target, takes, frames, starts)
    else {
        return unserved(links);
    };
    let Ok(room) = Vec::with_capacity(alloc, links.len()) else {
        return unserved(links);
    };
    let Ok(room_for_links) = Vec::with_capacity(alloc, links.len()) else {
        return unserved(links);
    };
    let Ok(room_for_seats) = Vec::with_capacity(alloc, links.len()) else {
        return unserved(links);
    };
    let sessions = serve_seated(rt, alloc, &shared, seated(links, seats, room));
    let fault = least_fault(sessions.as_slice());
    let Parted { links, seats } = unseated(sessions, room_for_links, room_for_seats);
    let told = told_of(shared, seats, fault);
    Played { links, told }
}

// There was no memory to serve these links.
fn unserved<L: Drop>(links: Vec<L>) -> Played<L>
    ensures links { result.links.items ≡ links.items }
    ensures told { result.told ≡ Err LinkFault.NoMemory }
{
    Played {
        links,
        told: Err(LinkFault::NoMemory),
    }
}

// Serves sessions, each in its place.
fn serve_seated<
    N: Show + Send + Sync,
    A: Ledger + Send + Sync,
    B: Ledger + Send + Sync,
    C: Ledger + Send + Sync,
    L: Link + Drop + Send,
    R: Threads + Wait + Sync,
>(
    rt: &R,
    alloc: Global,
    shared: &SharedTarget<N, A, B, C>,
    sessions: Vec<Session<N, A, B, C, L>>,
) -> Vec<Session<N, A, B, C, L>>
    ensures len { length result.items ≡ length sessions.items }
    ensures ends { (i : ℕ) (d : Session N A B C L) → i < length sessions.items
        → Ends N.tape N.pace (L.state (get_or sessions.items i d).link) (L.state (get_or result.items i d).link)
        (L.faults (get_or sessions.items i d).link) (L.faults (get_or result.items i d).link)
        (get_or sessions.items i d).seat (get_or result.items i d).seat (get_or result.items i d).takes }
{
    let mut sessions = sessions;
    serve_sessions(rt, alloc, shared, sessions.as_mut_slice());
    sessions
}

// The tally, once all seats are back, unless a session has a fault.
fn told_of<N: Show, A: Ledger, B: Ledger, C: Ledger>(
    shared: SharedTarget<N, A, B, C>,
    seats: Vec<Seat<N, A, B, C>>,
    fault: Option<LinkFault>,
) -> Result<Tally, LinkFault>
    requires all { (vec_len seats ≡ A.parts) × (vec_len seats ≡ B.parts) × (vec_len seats ≡ C.parts) }
    requires some { 0 < vec_len seats }
    ensures ok { IfOk result (λ tally. (fault ≡ None) × SeatsTell N.tape N.pace N.sessions seats.items tally) }
    ensures err { IfErr result (λ told. fault ≡ Some told) }
{
    match fault {
        Some(fault) => Err(fault),
        None => {
            let target = close(shared, seats);
            let _ = target.takes();
            Ok(target.tally())
        }
    }
}
