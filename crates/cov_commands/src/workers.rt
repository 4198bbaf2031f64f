//! The command whose texts are taken by workers.
ghost use Rattle.std.specs.Prelude.{◌≡◌, ◌≤◌, [], map, string_bytes};
ghost use Rattle.cov_words.specs.Groups.{HasWorkers, collect_of};
ghost use Rattle.cov_commands.specs.Call.{Asks, Call, Runs, moment};
ghost use Rattle.cov_commands.specs.Collect.{collect_duty};
ghost use Rattle.cov_commands.specs.Sinks.{sink_at};
ghost use Rattle.cov_commands.specs.Stores.{store_at};

use crate::Ended;
use crate::collect::collect;
use crate::put::put_due;
use crate::tool::tell_end;
use cov_io::{Gate, Sink, Store};
use cov_words::{Collect, WordsFault, read_collect};
use std::alloc::Global;
use std::sync::Wait;
use std::thread::Threads;

/// Runs `collect FOLDER --workers N`: reads the folder's texts in byte order of their names, batch after batch, has each batch
/// taken by so many workers, from 1 to 16 and 4 where no number is given, and writes the one normal file of the texts that are
/// snapshots and fit to `out`. A line for each refused text goes to `err`, in the order of the texts.
///
/// A batch ends at 256 texts, or where it holds 33,554,432 bytes or more. Where sums come near the limit, the order in which
/// workers take the texts of a batch may decide which of them fit. Where all fit, `out` gets what `merge` writes.
///
/// The gate is called with the place of a text in its batch.
pub fn run_collect<S: Store, G: Gate + Sync, O: Sink, E: Sink, R: Threads + Wait + Sync>(
    rt: &R,
    alloc: Global,
    words: &[String],
    store: &mut S,
    gate: &G,
    out: &mut O,
    err: &mut E,
) -> Ended
    ensures { Call collect_duty (collect_of (map string_bytes words.now))
        (moment
        (store_at store.old (S.files store.old) (S.folders store.old) (S.faults store.old))
        (sink_at out.old (O.held out.old) (O.longest out.old) (O.faults out.old))
        (sink_at err.old (E.held err.old) (E.longest err.old) (E.faults err.old)))
        (moment (store_at store.new (S.files store.new) (S.folders store.new) (S.faults store.new))
        (sink_at out.new (O.held out.new) (O.longest out.new) (O.faults out.new))
        (sink_at err.new (E.held err.new) (E.longest err.new) (E.faults err.new)))
        result }
{
    let ended = ask(rt, alloc, words, store, gate, out, err);
    let _ = tell_end(alloc, err, ended);
    ended
}

/// Runs what the words ask for, without its last line.
fn ask<S: Store, G: Gate + Sync, O: Sink, E: Sink, R: Threads + Wait + Sync>(
    rt: &R,
    alloc: Global,
    words: &[String],
    store: &mut S,
    gate: &G,
    out: &mut O,
    err: &mut E,
) -> Ended
    ensures { Asks collect_duty (collect_of (map string_bytes words.now))
        (moment
        (store_at store.old (S.files store.old) (S.folders store.old) (S.faults store.old))
        (sink_at out.old (O.held out.old) (O.longest out.old) (O.faults out.old))
        (sink_at err.old (E.held err.old) (E.longest err.old) (E.faults err.old)))
        (moment (store_at store.new (S.files store.new) (S.folders store.new) (S.faults store.new))
        (sink_at out.new (O.held out.new) (O.longest out.new) (O.faults out.new))
        (sink_at err.new (E.held err.new) (E.longest err.new) (E.faults err.new)))
        result }
{
    match read_collect(alloc, words) {
        Ok(command) => put_out(rt, alloc, &command, store, gate, out, err),
        Err(WordsFault::Usage) => Ended::Usage,
        Err(WordsFault::NoMemory) => Ended::NoMemory,
    }
}

/// The command after its words, without its last line.
fn put_out<S: Store, G: Gate + Sync, O: Sink, E: Sink, R: Threads + Wait + Sync>(
    rt: &R,
    alloc: Global,
    command: &Collect,
    store: &mut S,
    gate: &G,
    out: &mut O,
    err: &mut E,
) -> Ended
    requires { HasWorkers command.now }
    ensures { Runs (collect_duty command.now)
        (moment
        (store_at store.old (S.files store.old) (S.folders store.old) (S.faults store.old))
        (sink_at out.old (O.held out.old) (O.longest out.old) (O.faults out.old))
        (sink_at err.old (E.held err.old) (E.longest err.old) (E.faults err.old)))
        (moment (store_at store.new (S.files store.new) (S.folders store.new) (S.faults store.new))
        (sink_at out.new (O.held out.new) (O.longest out.new) (O.faults out.new))
        (sink_at err.new (E.held err.new) (E.longest err.new) (E.faults err.new)))
        result }
{
    match collect(
        rt,
        alloc,
        store,
        command.folder.as_text(),
        command.workers,
        gate,
    ) {
        Ok(due) => put_due(alloc, out, err, &due),
        Err(ended) => ended,
    }
}
