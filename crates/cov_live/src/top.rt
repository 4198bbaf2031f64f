//! The top call.
ghost use Rattle.std.specs.Prelude.{◌≡◌, map, string_bytes};
ghost use Rattle.cov_links.specs.Together.{telling};
ghost use Rattle.cov_commands.specs.Call.{moment};
ghost use Rattle.cov_commands.specs.Child.{spawner_at};
ghost use Rattle.cov_commands.specs.Sinks.{sink_at};
ghost use Rattle.cov_commands.specs.Stores.{store_at};
ghost use Rattle.cov_replay.specs.Live.{live_net};
ghost use Rattle.cov_live.specs.Top.{CallNamed, outside};

use crate::run_live;
use cov_commands::{Ended, run_child, run_collect, run_tool};
use cov_io::{Gate, Net, Sink, Spawner, Store};
use cov_words::{Group, group_of};
use std::alloc::Global;
use std::sync::Wait;
use std::thread::Threads;

/// Runs the command that the first word names: `collect` by `run_collect`, `serve` and `attach` by `run_live`, `run` by `run_child`, and
/// any other by `run_tool`, also words that name no command. It answers what that call answers.
pub fn run<
    S: Store,
    G: Gate + Sync,
    N: Net,
    P: Spawner,
    O: Sink,
    E: Sink,
    R: Threads + Wait + Sync,
>(
    rt: &R,
    alloc: Global,
    words: &[String],
    store: &mut S,
    gate: &G,
    net: &mut N,
    spawner: &mut P,
    out: &mut O,
    err: &mut E,
) -> Ended
where
    N::Link: Send,
    ensures { CallNamed (telling N.Link.Link.state N.Link.Link.faults) (map string_bytes words.now)
        (moment
        (outside
        (store_at store.old (S.files store.old) (S.folders store.old) (S.faults store.old))
        (live_net net.old (N.state net.old) (N.faults net.old))
        (spawner_at spawner.old (P.ran spawner.old) (P.last spawner.old) (P.faults spawner.old)))
        (sink_at out.old (O.held out.old) (O.longest out.old) (O.faults out.old))
        (sink_at err.old (E.held err.old) (E.longest err.old) (E.faults err.old)))
        (moment
        (outside
        (store_at store.new (S.files store.new) (S.folders store.new) (S.faults store.new))
        (live_net net.new (N.state net.new) (N.faults net.new))
        (spawner_at spawner.new (P.ran spawner.new) (P.last spawner.new) (P.faults spawner.new)))
        (sink_at out.new (O.held out.new) (O.longest out.new) (O.faults out.new))
        (sink_at err.new (E.held err.new) (E.longest err.new) (E.faults err.new)))
        result }
{
    match group_of(words) {
        Group::Readers => run_tool(alloc, words, store, out, err),
        Group::Workers => run_collect(rt, alloc, words, store, gate, out, err),
        Group::Live => run_live(rt, alloc, words, store, net, out, err),
        Group::Child => run_child(alloc, words, store, spawner, out, err),
    }
}
