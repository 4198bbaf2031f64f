//! The command `attach PLACE.. --takes N`.
ghost use Rattle.std.specs.Prelude.{◌≡◌, ◌++◌, ◌||◌, ℕ, List, Ok, map, string_bytes, IfOk, OnOk};
ghost use Rattle.cov_links.specs.Together.{net_at, telling};
ghost use Rattle.cov_model.specs.declared.snapshot.Snapshot.{Snapshot as SnapshotValue};
ghost use Rattle.cov_model.specs.Outcome.{Reading, after, answer_to};
ghost use Rattle.cov_book.specs.Stands.{StandsFor};
ghost use Rattle.cov_commands.specs.Lines.{is_refusal};
ghost use Rattle.cov_commands.specs.Lines as lines;
ghost use Rattle.cov_commands.specs.Owed.{Gives, owed_of};
ghost use Rattle.cov_live.specs.Adding.{LeftOf, Sums};
ghost use Rattle.cov_live.specs.Attaching as attaching;
ghost use Rattle.cov_live.specs.Attaching.{attach_due, attach_duty, session_end, session_paths, take_path};

use cov_attach::{AttachAllFault, AttachFault, PlacesFault, attach_places};
use cov_book::Book;
use cov_commands::{Due, Ended, add, answer_line, file_of, refused_or_done};
use cov_io::Net;
use cov_model::{Answer, Items, Snapshot};
use cov_text::Text;
use std::alloc::{AllocError, Global};
use std::sync::Wait;
use std::thread::Threads;

/// What `attach PLACE.. --takes N` owes: dials all places in order, takes so many snapshots over each link, all links at once, and sums
/// them in the order of the sessions and of their takes. The one normal file of those that fit is for the output, and a line for each
/// other one, `refused session S take T: ..` with both from 0, for the error sink.
///
/// Every link that was made is handed back, in the order of making, whatever it answers. `Ended::LinkFault` tells that a place wasn't
/// reached, or that the link of the least session that has a fault failed or closed before its script's end. `Ended::PeerFault` tells
/// which text the peer of the least session that has a fault sent that a client refuses.
pub fn attach<N: Net, R: Threads + Wait + Sync>(
    rt: &R,
    alloc: Global,
    net: &mut N,
    places: &[Text],
    takes: u32,
) -> Result<Due, Ended>
where
    N::Link: Send,
    ensures { Gives (attach_duty (telling N.Link.Link.state N.Link.Link.faults) places.now takes)
        (net_at (N.state net.old) (N.faults net.old)) (net_at (N.state net.new) (N.faults net.new)) result }
{
    let taken = match attach_places(rt, alloc, net, places, takes) {
        Ok(taken) => taken,
        Err(fault) => return Err(ended_by(fault)),
    };
    match due_of(alloc, taken.as_slice()) {
        Ok(due) => Ok(due),
        Err(_) => Err(Ended::NoMemory),
    }
}

// How a fault ends the command.
fn ended_by(fault: PlacesFault) -> Ended
    ensures { result ≡ attaching.ended_by fault }
{
    match fault {
        PlacesFault::Unreached => Ended::LinkFault,
        PlacesFault::Session(told) => ended_by_session(told),
        PlacesFault::NoMemory => Ended::NoMemory,
    }
}

// How the fault of a session does.
fn ended_by_session(told: AttachAllFault) -> Ended
    ensures { result ≡ session_end told.session told.fault }
{
    match told.fault {
        AttachFault::Failed | AttachFault::Closed => Ended::LinkFault,
        AttachFault::Peer { message, .. } => Ended::PeerFault {
            session: told.session,
            message,
        },
        AttachFault::NoMemory => Ended::NoMemory,
    }
}

/// The snapshots that were refused.
#[derive(Drop)]
pub struct Refusals {
    /// Their lines, in order.
    lines: Items<u8>,
    /// Whether there is one.
    some: bool,
}

// What is due for the snapshots of each session.
fn due_of(alloc: Global, taken: &[Items<Snapshot>]) -> Result<Due, AllocError>
    ensures { IfOk result (λ due. owed_of due ≡ attach_due taken.now) }
{
    let mut book = Book::new(alloc);
    let mut refusals = Refusals {
        lines: Items::new(alloc),
        some: false,
    };
    for (session, snapshots) in taken.iter().enumerate() {
        add_session(
            alloc,
            &mut book,
            &mut refusals,
            session as u64,
            snapshots.as_slice(),
        )?;
    }
    let out = file_of(alloc, &book)?;
    Ok(Due {
        out,
        err: refusals.lines,
        ended: refused_or_done(refusals.some),
    })
}

// Adds the snapshots of a session.
fn add_session(
    alloc: Global,
    book: &mut Book,
    refusals: &mut Refusals,
    session: u64,
    snapshots: &[Snapshot],
) -> Result<(), AllocError>
    ensures { OnOk result ((all : Sums) (paths : List (List ℕ)) (readings : List Reading)
        → LeftOf all (session_paths (session, snapshots.now) ++ paths) (map Ok snapshots.now ++ readings) book.old refusals.old
        → LeftOf all paths readings book.new refusals.new) }
{
    for (number, snapshot) in snapshots.iter().enumerate() {
        add_take(alloc, book, refusals, session, number as u64, snapshot)?;
    }
    Ok(())
}

// Adds the snapshot of a take, or keeps its line.
fn add_take(
    alloc: Global,
    book: &mut Book,
    refusals: &mut Refusals,
    session: u64,
    number: u64,
    snapshot: &Snapshot,
) -> Result<(), AllocError>
    ensures book { OnOk result ((held : List SnapshotValue) → StandsFor book.old held
        → StandsFor book.new (after held (Ok snapshot.now))) }
    ensures lines { OnOk result ((held : List SnapshotValue) → StandsFor book.old held
        → refusals.new.lines ≡ refusals.old.lines ++ lines.answer_line (take_path session number) (answer_to held (Ok snapshot.now))) }
    ensures refused { OnOk result ((held : List SnapshotValue) → StandsFor book.old held
        → refusals.new.some ≡ (refusals.old.some || is_refusal (answer_to held (Ok snapshot.now)))) }
{
    let answer = add(book, snapshot)?;
    let path = path_of(alloc, session, number)?;
    let line = answer_line(alloc, path.as_str(), &answer)?;
    refusals.lines.extend_from_slice(line.as_slice())?;
    refusals.some |= !matches!(&answer, Answer::Taken);
    Ok(())
}

// What the snapshot of a take is called in a line.
fn path_of(alloc: Global, session: u64, number: u64) -> Result<String, AllocError>
    ensures { IfOk result (λ path. string_bytes path ≡ take_path session number) }
{
    format!(in alloc; "session {session} take {number}")
}
