//! The call of the commands that speak over links.
ghost use Rattle.std.specs.Prelude.{◌≡◌, map, string_bytes};
ghost use Rattle.cov_links.specs.Together.{net_at, telling};
ghost use Rattle.cov_words.specs.Live.{HasBounds, live_of};
ghost use Rattle.cov_commands.specs.Call.{Asks, Call, Runs, moment};
ghost use Rattle.cov_commands.specs.Sinks.{sink_at};
ghost use Rattle.cov_commands.specs.Stores.{store_at};
ghost use Rattle.cov_replay.specs.Live.{live_net, live_world};
ghost use Rattle.cov_live.specs.Attaching.{attach_duty};
ghost use Rattle.cov_live.specs.Commands.{live_duty};

use crate::attach::attach;
use cov_commands::{Ended, put_due, tell_end};
use cov_io::{Net, Sink, Store};
use cov_replay::serve;
use cov_text::Text;
use cov_words::{Live, WordsFault, read_live};
use std::alloc::Global;
use std::sync::Wait;
use std::thread::Threads;

/// Runs the command that the words ask for:
///
/// - `serve FOLDER --port P --sessions N --pace K` plays the folder's texts to so many clients, as `cov_replay` says;
/// - `attach PLACE.. --takes N` takes so many snapshots at each place, all places at once, and writes the one normal file of these to
///   `out`. A line for each snapshot whose sums don't fit goes to `err`, in the order of the places and of the takes. It doesn't call
///   the store.
///
/// It waits for its peers. Every link that was made is handed back before it answers, in the order of making.
pub fn run_live<S: Store, N: Net, O: Sink, E: Sink, R: Threads + Wait + Sync>(
    rt: &R,
    alloc: Global,
    words: &[String],
    store: &mut S,
    net: &mut N,
    out: &mut O,
    err: &mut E,
) -> Ended
where
    N::Link: Send,
    ensures { Call (live_duty (telling N.Link.Link.state N.Link.Link.faults)) (live_of (map string_bytes words.now))
        (moment
        (live_world (store_at store.old (S.files store.old) (S.folders store.old) (S.faults store.old))
        (live_net net.old (N.state net.old) (N.faults net.old)))
        (sink_at out.old (O.held out.old) (O.longest out.old) (O.faults out.old))
        (sink_at err.old (E.held err.old) (E.longest err.old) (E.faults err.old)))
        (moment
        (live_world (store_at store.new (S.files store.new) (S.folders store.new) (S.faults store.new))
        (live_net net.new (N.state net.new) (N.faults net.new)))
        (sink_at out.new (O.held out.new) (O.longest out.new) (O.faults out.new))
        (sink_at err.new (E.held err.new) (E.longest err.new) (E.faults err.new)))
        result }
{
    let ended = ask(rt, alloc, words, store, net, out, err);
    let _ = tell_end(alloc, err, ended);
    ended
}

/// Runs what the words ask for, without its last line.
fn ask<S: Store, N: Net, O: Sink, E: Sink, R: Threads + Wait + Sync>(
    rt: &R,
    alloc: Global,
    words: &[String],
    store: &mut S,
    net: &mut N,
    out: &mut O,
    err: &mut E,
) -> Ended
where
    N::Link: Send,
    ensures { Asks (live_duty (telling N.Link.Link.state N.Link.Link.faults)) (live_of (map string_bytes words.now))
        (moment
        (live_world (store_at store.old (S.files store.old) (S.folders store.old) (S.faults store.old))
        (live_net net.old (N.state net.old) (N.faults net.old)))
        (sink_at out.old (O.held out.old) (O.longest out.old) (O.faults out.old))
        (sink_at err.old (E.held err.old) (E.longest err.old) (E.faults err.old)))
        (moment
        (live_world (store_at store.new (S.files store.new) (S.folders store.new) (S.faults store.new))
        (live_net net.new (N.state net.new) (N.faults net.new)))
        (sink_at out.new (O.held out.new) (O.longest out.new) (O.faults out.new))
        (sink_at err.new (E.held err.new) (E.longest err.new) (E.faults err.new)))
        result }
{
    match read_live(alloc, words) {
        Ok(command) => put_out(rt, alloc, &command, store, net, out, err),
        Err(WordsFault::Usage) => Ended::Usage,
        Err(WordsFault::NoMemory) => Ended::NoMemory,
    }
}

/// The command after its words, without its last line.
fn put_out<S: Store, N: Net, O: Sink, E: Sink, R: Threads + Wait + Sync>(
    rt: &R,
    alloc: Global,
    command: &Live,
    store: &mut S,
    net: &mut N,
    out: &mut O,
    err: &mut E,
) -> Ended
where
    N::Link: Send,
    requires { HasBounds command.now }
    ensures { Runs (live_duty (telling N.Link.Link.state N.Link.Link.faults) command.now)
        (moment
        (live_world (store_at store.old (S.files store.old) (S.folders store.old) (S.faults store.old))
        (live_net net.old (N.state net.old) (N.faults net.old)))
        (sink_at out.old (O.held out.old) (O.longest out.old) (O.faults out.old))
        (sink_at err.old (E.held err.old) (E.longest err.old) (E.faults err.old)))
        (moment
        (live_world (store_at store.new (S.files store.new) (S.folders store.new) (S.faults store.new))
        (live_net net.new (N.state net.new) (N.faults net.new)))
        (sink_at out.new (O.held out.new) (O.longest out.new) (O.faults out.new))
        (sink_at err.new (E.held err.new) (E.longest err.new) (E.faults err.new)))
        result }
{
    match command {
        Live::Serve {
            folder,
            port,
            sessions,
            pace,
        } => serve(
            rt,
            alloc,
            store,
            net,
            out,
            err,
            folder.as_text(),
            *port,
            *sessions,
            *pace,
        ),
        Live::Attach { places, takes } => {
            attach_out(rt, alloc, places.as_slice(), *takes, net, out, err)
        }
    }
}

/// `attach`, without its last line.
fn attach_out<N: Net, O: Sink, E: Sink, R: Threads + Wait + Sync>(
    rt: &R,
    alloc: Global,
    places: &[Text],
    takes: u32,
    net: &mut N,
    out: &mut O,
    err: &mut E,
) -> Ended
where
    N::Link: Send,
    ensures { Runs (attach_duty (telling N.Link.Link.state N.Link.Link.faults) places.now takes)
        (moment (net_at (N.state net.old) (N.faults net.old))
        (sink_at out.old (O.held out.old) (O.longest out.old) (O.faults out.old))
        (sink_at err.old (E.held err.old) (E.longest err.old) (E.faults err.old)))
        (moment (net_at (N.state net.new) (N.faults net.new))
        (sink_at out.new (O.held out.new) (O.longest out.new) (O.faults out.new))
        (sink_at err.new (E.held err.new) (E.longest err.new) (E.faults err.new)))
        result }
{
    match attach(rt, alloc, net, places, takes) {
        Ok(due) => put_due(alloc, out, err, &due),
        Err(ended) => ended,
    }
}
