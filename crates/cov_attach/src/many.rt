//! Many live sessions at once.
ghost use Rattle.std.specs.Prelude.{◌≡◌, ◌+◌, ◌<◌, ◌^◌, ℕ, List, Result, length, vec_items};
ghost use Rattle.std.specs.Prelude.{◌++◌, ◌∷◌, [], Ok};
ghost use Rattle.std.specs.Thread.{IsSync};
ghost use Rattle.cov_model.specs.declared.snapshot.Snapshot.{Snapshot};
ghost use Rattle.cov_attach.specs.declared.fault.AttachFault.{AttachFault};
ghost use Rattle.cov_attach.specs.declared.fault.AttachFault.TheVariants.{NoMemory};
ghost use Rattle.cov_attach.specs.Gathered.{AllTell, AreRun, Gathers, TellsRuns};

use crate::{AttachAllFault, AttachFault, run_session};
use cov_io::Link;
use cov_model::{Items, Snapshot};
use std::alloc::Global;
use std::sync::Wait;
use std::thread::{Threads, join_mut};

// What sessions took, or the fault of the least that has one.
type Taken = Result<Vec<Items<Snapshot>>, AttachAllFault>;

/// Takes this many snapshots over each link, all links at once, and gives those of each link in the order of the links. It waits
/// for all peers.
///
/// `AttachAllFault` tells the fault of the least session that has one. Each session goes on to its own end, whatever another did.
pub fn attach_all<L: Link + Send, R: Threads + Wait + Sync>(
    rt: &R,
    alloc: Global,
    links: &mut [L],
    takes: u32,
) -> Result<Vec<Items<Snapshot>>, AttachAllFault>
    ensures sessions { AreRun L.state L.faults vec_items takes 0 links.old links.new result }
    ensures runs { (all : List (List (List ℕ))) → AllTell L.state links.old all → TellsRuns vec_items takes all result }
{
    let all = Part {
        alloc,
        first: 0,
        takes,
    };
    run_part(rt, &all, links)
}

// Sessions that are to take so many snapshots each. The first has this number.
#[derive(Clone, Copy)]
struct Part {
    alloc: Global,
    first: u64,
    takes: u32,
}

// The sessions over these links. Halves run in threads of their own.
fn run_part<L: Link + Send, R: Threads + Wait + Sync>(rt: &R, part: &Part, links: &mut [L]) -> Taken
    requires { part.now.first + length links.old < 2 ^ 64 }
    ensures { AreRun L.state L.faults vec_items part.now.takes part.now.first links.old links.new result }
{
    if links.is_empty() {
        return Ok(Vec::new(part.alloc));
    }
    if links.len() == 1 {
        return run_one(rt, part, &mut links[0]);
    }
    let half = links.len() / 2;
    let middle = part.first + half as u64;
    let rest = &Part {
        first: middle,
        ..*part
    };
    let (front, back) = links.split_at_mut(half);
    let (a, b) = join_mut(
        rt,
        &mut || -> Taken
            requires { IsSync R.row × (part.now.first + length front.now < 2 ^ 64) }
            ensures { AreRun L.state L.faults vec_items part.entry.now.takes part.entry.now.first front.entry.now front.exit.now result }
        { run_part(rt, part, front) },
        &mut || -> Taken
            requires { IsSync R.row × (rest.now.first + length back.now < 2 ^ 64) }
            ensures { AreRun L.state L.faults vec_items rest.entry.now.takes rest.entry.now.first back.entry.now back.exit.now result }
        { run_part(rt, rest, back) },
    );
    joined(a, b, middle)
}

// The session over one link, as a list of one.
fn run_one<L: Link, R: Wait>(rt: &R, part: &Part, link: &mut L) -> Taken
    ensures { AreRun L.state L.faults vec_items part.now.takes part.now.first (link.old ∷ []) (link.new ∷ []) result }
{
    match run_session(rt, part.alloc, link, part.takes) {
        Ok(taken) => alone(part.alloc, part.first, taken),
        Err(fault) => Err(AttachAllFault {
            session: part.first,
            fault,
        }),
    }
}

// What one session took, as a list of one.
fn alone(alloc: Global, session: u64, taken: Items<Snapshot>) -> Taken
    ensures { Gathers vec_items session (Ok taken ∷ []) result }
{
    let mut all = Vec::new(alloc);
    match all.push(taken) {
        Ok(()) => Ok(all),
        Err(_) => Err(without_memory(session)),
    }
}

// What two parts took, or the fault of the first that has one. The second part begins at this session.
fn joined(front: Taken, back: Taken, middle: u64) -> Taken
    ensures { (first : ℕ) (a b : List (Result (List Snapshot) AttachFault)) → first + length a ≡ middle
        → Gathers vec_items first a front → Gathers vec_items middle b back
        → Gathers vec_items first (a ++ b) result }
{
    let mut all = front?;
    let mut more = back?;
    match all.append(&mut more) {
        Ok(()) => Ok(all),
        Err(_) => Err(without_memory(middle)),
    }
}

// There was no memory to keep what this session took.
fn without_memory(session: u64) -> AttachAllFault
    ensures { result ≡ record { session = session; fault = NoMemory } }
{
    AttachAllFault {
        session,
        fault: AttachFault::NoMemory,
    }
}
