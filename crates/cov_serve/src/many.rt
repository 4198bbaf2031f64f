//! Several sessions at once.
ghost use Rattle.std.specs.Prelude.{◌≡◌, ◌<◌, ℕ, length, get_or};
ghost use Rattle.cov_serve.specs.Serving.{Ends};

use crate::{Seat, SharedTarget, Show, serve_session};
use cov_io::{Link, LinkFault};
use cov_model::Items;
use cov_session::Take;
use std::alloc::Global;
use std::sync::Wait;
use std::sync::ledger::Ledger;
use std::thread::{Threads, for_each_mut};

/// A session with its link, its seat, and what it came to, once it was served.
#[derive(Drop)]
pub struct Session<N: Show, A: Ledger, B: Ledger, C: Ledger, L: Link + Drop> {
    pub link: L,
    pub seat: Seat<N, A, B, C>,
    pub takes: Option<Result<Items<Take>, LinkFault>>,
}

/// Serves all sessions at once, each in a thread of its own. Each goes on to its end, whatever comes of the others.
pub fn serve_sessions<
    N: Show + Send + Sync,
    A: Ledger + Send + Sync,
    B: Ledger + Send + Sync,
    C: Ledger + Send + Sync,
    L: Link + Drop + Send,
    R: Threads + Wait + Sync,
>(rt: &R, alloc: Global, shared: &SharedTarget<N, A, B, C>, sessions: &mut [Session<N, A, B, C, L>])
    ensures len { length sessions.new ≡ length sessions.old }
    ensures ends { (i : ℕ) (d : Session N A B C L) → i < length sessions.old
        → Ends N.tape N.pace (L.state (get_or sessions.old i d).link) (L.state (get_or sessions.new i d).link)
        (L.faults (get_or sessions.old i d).link) (L.faults (get_or sessions.new i d).link)
        (get_or sessions.old i d).seat (get_or sessions.new i d).seat (get_or sessions.new i d).takes }
{
    if sessions.is_empty() {
        return;
    }
    let count = sessions.len();
    for_each_mut(
        rt,
        sessions,
        count,
        &|_: usize, session: &mut Session<N, A, B, C, L>|
            ensures { Ends N.tape N.pace (L.state session.entry.now.link) (L.state session.exit.now.link)
                (L.faults session.entry.now.link) (L.faults session.exit.now.link)
                session.entry.now.seat session.exit.now.seat session.exit.now.takes }
        { serve_one(rt, alloc, shared, session) },
    );
}

fn serve_one<N: Show, A: Ledger, B: Ledger, C: Ledger, L: Link + Drop, R: Wait>(
    rt: &R,
    alloc: Global,
    shared: &SharedTarget<N, A, B, C>,
    session: &mut Session<N, A, B, C, L>,
)
    ensures { Ends N.tape N.pace (L.state session.old.link) (L.state session.new.link)
        (L.faults session.old.link) (L.faults session.new.link)
        session.old.seat session.new.seat session.new.takes }
{
    let takes = serve_session(rt, alloc, &mut session.link, shared, &mut session.seat);
    session.takes = Some(takes);
}
