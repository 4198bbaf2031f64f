//! The command `serve FOLDER --port P --sessions N --pace K`.
ghost use Rattle.std.specs.Prelude.{◌≡◌, ◌≤◌, [], length, IfOk, IfErr, IsTrue};
ghost use Rattle.cov_links.specs.Together.{net_at, telling};
ghost use Rattle.cov_model.specs.Sums.{fits};
ghost use Rattle.cov_commands.specs.Call.{Runs, moment};
ghost use Rattle.cov_commands.specs.Sinks.{sink_at};
ghost use Rattle.cov_commands.specs.Stores.{store_at};
ghost use Rattle.cov_replay.specs.Live.{live_net, live_world};
ghost use Rattle.cov_sessions.specs.Sessions as sessions;
ghost use Rattle.cov_replay.specs.Serving as serving;
ghost use Rattle.cov_replay.specs.Serving.{IsOpen, PlaysOut, Shut, playing, serve_duty};

use crate::tape_of;
use cov_commands::{Due, Ended, Output, put_due, put_output, refused_or_done};
use cov_io::{LinkFault, Net, Sink, Store};
use cov_model::{Items, Snapshot};
use cov_session::{Tally, Target, TargetFault};
use cov_sessions::replay;
use std::alloc::{AllocError, Global};
use std::sync::Wait;
use std::thread::Threads;

/// What is to be played, once the net listens.
#[derive(Drop)]
pub struct Opened {
    target: Target,
    /// The lines of the refused texts, in order.
    lines: Items<u8>,
    /// Whether a text was refused.
    refused: bool,
    /// The port that the net listens on.
    port: u16,
}

/// Runs `serve FOLDER --port P --sessions N --pace K`, without its last line: reads the folder's texts, at most the first 4,294,967,295
/// of them, listens, and writes `listening on 127.0.0.1:PORT` to `out`. Then it accepts so many links and serves all of them at once:
/// each take of a session plays the next frames of the tape, as many as the pace, and has them in its reply. The tape is that of the
/// accepted texts, in order. Once all links are closed and handed back, the tally is written to `out`, and a line for each refused text
/// to `err`.
///
/// Where a link fails, the others are served to their ends, and all are handed back; then the answer is `Ended::LinkFault`, and no
/// tally is written.
pub fn serve<S: Store, N: Net, O: Sink, E: Sink, R: Threads + Wait + Sync>(
    rt: &R,
    alloc: Global,
    store: &mut S,
    net: &mut N,
    out: &mut O,
    err: &mut E,
    folder: &str,
    port: u16,
    sessions: u32,
    pace: u32,
) -> Ended
where
    N::Link: Send,
    requires { 1 ≤ sessions }
    ensures { Runs (serve_duty (telling N.Link.Link.state N.Link.Link.faults) (playing folder.now port sessions pace))
        (moment
        (live_world (store_at store.old (S.files store.old) (S.folders store.old) (S.faults store.old))
        (live_net net.old (N.state net.old) (N.faults net.old)))
        (sink_at out.old (O.held out.old) (O.longest out.old) (O.faults out.old))
        (sink_at err.old (E.held err.old) (E.longest err.old) (E.faults err.old)))
        (moment
        (live_world (store_at store.new (S.files store.new) (S.folders store.new) (S.faults store.new))
        (live_net net.new (N.state net.new) (N.faults net.new)))
        (sink_at out.new (O.held out.new) (O.longest out.new) (O.faults out.new))
        (sink_at err.new (E.held err.new) (E.longest err.new) (E.faults err.new)))
        result }
{
    match prepare(alloc, store, net, folder, port, sessions, pace) {
        Ok(opened) => play(rt, alloc, net, out, err, opened, sessions),
        Err(ended) => ended,
    }
}

// Makes the target of a folder's tape, and listens.
fn prepare<S: Store, N: Net>(
    alloc: Global,
    store: &mut S,
    net: &mut N,
    folder: &str,
    port: u16,
    sessions: u32,
    pace: u32,
) -> Result<Opened, Ended>
    ensures ready { IfOk result (λ opened. IsOpen (playing folder.now port sessions pace)
        (live_world (store_at store.old (S.files store.old) (S.folders store.old) (S.faults store.old))
        (live_net net.old (N.state net.old) (N.faults net.old)))
        (live_world (store_at store.new (S.files store.new) (S.folders store.new) (S.faults store.new))
        (live_net net.new (N.state net.new) (N.faults net.new))) opened) }
    ensures shut { IfErr result (λ ended. Shut (playing folder.now port sessions pace)
        (live_world (store_at store.old (S.files store.old) (S.folders store.old) (S.faults store.old))
        (live_net net.old (N.state net.old) (N.faults net.old)))
        (live_world (store_at store.new (S.files store.new) (S.folders store.new) (S.faults store.new))
        (live_net net.new (N.state net.new) (N.faults net.new))) ended) }
{
    let tape = match tape_of(alloc, store, folder) {
        Ok(tape) => tape,
        Err(ended) => return Err(ended),
    };
    let target = match target_of(alloc, tape.snapshots, pace, sessions) {
        Ok(target) => target,
        Err(_) => return Err(Ended::NoMemory),
    };
    match net.listen(port) {
        Ok(port) => Ok(Opened {
            target,
            lines: tape.lines,
            refused: tape.refused,
            port,
        }),
        Err(fault) => Err(ended_by(fault)),
    }
}

// The target of a tape that fits.
fn target_of(
    alloc: Global,
    tape: Vec<Snapshot>,
    pace: u32,
    sessions: u32,
) -> Result<Target, AllocError>
    requires { IsTrue (fits tape.items) }
    ensures tape { IfOk result (λ target. target.tape ≡ tape.items) }
    ensures pace { IfOk result (λ target. target.pace ≡ pace) }
    ensures desks { IfOk result (λ target. length target.desks ≡ sessions) }
    ensures fresh { IfOk result (λ target. (target.played ≡ 0) × (target.takes ≡ [])) }
{
    match Target::new(alloc, tape, pace, sessions) {
        Ok(target) => Ok(target),
        Err(TargetFault::Sum(_)) => unreachable!(),
        Err(TargetFault::NoMemory) => Err(AllocError),
    }
}

// How a fault of the net or of a link ends the command.
fn ended_by(fault: LinkFault) -> Ended
    ensures { result ≡ serving.ended_by fault }
{
    match fault {
        LinkFault::Failed => Ended::LinkFault,
        LinkFault::NoMemory => Ended::NoMemory,
    }
}

// Writes the first line, plays the target to so many links, and writes what comes of it.
fn play<N: Net, O: Sink, E: Sink, R: Threads + Wait + Sync>(
    rt: &R,
    alloc: Global,
    net: &mut N,
    out: &mut O,
    err: &mut E,
    opened: Opened,
    sessions: u32,
) -> Ended
where
    N::Link: Send,
    requires fresh { (opened.target.played ≡ 0) × (opened.target.takes ≡ []) }
    requires sessions { (length opened.target.desks ≡ sessions) × (1 ≤ sessions) }
    ensures { PlaysOut (telling N.Link.Link.state N.Link.Link.faults) sessions opened
        (net_at (N.state net.old) (N.faults net.old)) (net_at (N.state net.new) (N.faults net.new))
        (sink_at out.old (O.held out.old) (O.longest out.old) (O.faults out.old))
        (sink_at out.new (O.held out.new) (O.longest out.new) (O.faults out.new))
        (sink_at err.old (E.held err.old) (E.longest err.old) (E.faults err.old))
        (sink_at err.new (E.held err.new) (E.longest err.new) (E.faults err.new)) result }
{
    let Opened {
        target,
        lines,
        refused,
        port,
    } = opened;
    let Ok(first) = listening_line(alloc, port) else {
        return Ended::NoMemory;
    };
    if let Err(ended) = put_output(alloc, out, &Output::Bytes(first)) {
        return ended;
    }
    let tally = match replay(rt, alloc, net, target, sessions) {
        Ok(tally) => tally,
        Err(fault) => return ended_by(fault),
    };
    let Ok(line) = tally_line(alloc, tally) else {
        return Ended::NoMemory;
    };
    let due = Due {
        out: Output::Bytes(line),
        err: lines,
        ended: refused_or_done(refused),
    };
    put_due(alloc, out, err, &due)
}

// The first line.
fn listening_line(alloc: Global, port: u16) -> Result<Items<u8>, AllocError>
    ensures { IfOk result (λ line. line ≡ serving.listening_line port) }
{
    let text = format!(in alloc; "listening on 127.0.0.1:{port}\n")?;
    Items::from_slice(alloc, text.as_bytes())
}

// The line of a tally.
fn tally_line(alloc: Global, tally: Tally) -> Result<Items<u8>, AllocError>
    ensures { IfOk result (λ line. line ≡ sessions.tally_line tally) }
{
    let text = format!(in alloc;
        "played {} replied {} discarded {} unwatched {} held {}\n",
        tally.played, tally.replied, tally.discarded, tally.unwatched, tally.held
    )?;
    Items::from_slice(alloc, text.as_bytes())
}
