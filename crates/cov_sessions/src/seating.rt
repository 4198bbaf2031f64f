//! Sessions: links beside seats, before and after they are served.
ghost use Rattle.std.specs.Prelude.{◌≡◌, ◌∷◌, ◌≤◌, [], length, vec_len};
ghost use Rattle.std.specs.Vec.{vec_capacity};
ghost use Rattle.cov_sessions.specs.Seating.{links_in, seats_in, outcomes_in, outcome_of};
ghost use Rattle.cov_sessions.specs.Sessions as sessions;

use cov_io::{Link, LinkFault};
use cov_model::Items;
use cov_serve::{Seat, Session, Show};
use cov_session::Take;
use std::sync::ledger::Ledger;

/// Links and seats that belonged together, each in the order of the sessions.
#[derive(Drop)]
pub struct Parted<N: Show, A: Ledger, B: Ledger, C: Ledger, L: Link + Drop> {
    pub links: Vec<L>,
    pub seats: Vec<Seat<N, A, B, C>>,
}

/// Each link with the seat of its place, in a list that has room for all.
pub fn seated<N: Show, A: Ledger, B: Ledger, C: Ledger, L: Link + Drop>(
    links: Vec<L>,
    seats: Vec<Seat<N, A, B, C>>,
    room: Vec<Session<N, A, B, C, L>>,
) -> Vec<Session<N, A, B, C, L>>
    requires each { vec_len seats ≡ vec_len links }
    requires empty { vec_len room ≡ 0 }
    requires room { vec_len links ≤ vec_capacity room }
    ensures links { links_in result.items ≡ links.items }
    ensures seats { seats_in result.items ≡ seats.items }
{
    let mut sessions = room;
    let mut seats = seats.into_iter();
    for link in links {
        let Some(seat) = seats.next() else {
            return sessions;
        };
        sessions.push_reserved(Session {
            link,
            seat,
            takes: None,
        });
    }
    sessions
}

/// The links and the seats of sessions, in lists that have room for all.
pub fn unseated<N: Show, A: Ledger, B: Ledger, C: Ledger, L: Link + Drop>(
    sessions: Vec<Session<N, A, B, C, L>>,
    links: Vec<L>,
    seats: Vec<Seat<N, A, B, C>>,
) -> Parted<N, A, B, C, L>
    requires links { (vec_len links ≡ 0) × (vec_len sessions ≤ vec_capacity links) }
    requires seats { (vec_len seats ≡ 0) × (vec_len sessions ≤ vec_capacity seats) }
    ensures links { result.links.items ≡ links_in sessions.items }
    ensures seats { result.seats.items ≡ seats_in sessions.items }
{
    let mut links = links;
    let mut seats = seats;
    for session in sessions {
        let Session {
            link,
            seat,
            takes: _,
        } = session;
        links.push_reserved(link);
        seats.push_reserved(seat);
    }
    Parted { links, seats }
}

/// The fault of the least session that has one.
pub fn least_fault<N: Show, A: Ledger, B: Ledger, C: Ledger, L: Link + Drop>(
    all: &[Session<N, A, B, C, L>],
) -> Option<LinkFault>
    ensures { result ≡ sessions.least_fault (outcomes_in all.now) }
{
    for session in all {
        if let Some(fault) = fault_in(&session.takes) {
            return Some(fault);
        }
    }
    None
}

// The fault of a session, where it has one.
fn fault_in(takes: &Option<Result<Items<Take>, LinkFault>>) -> Option<LinkFault>
    ensures { result ≡ sessions.least_fault (outcome_of takes.now ∷ []) }
{
    match takes {
        Some(Ok(_)) => None,
        Some(Err(fault)) => Some(*fault),
        None => Some(LinkFault::NoMemory),
    }
}
