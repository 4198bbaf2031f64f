//! The command that runs a program and reports what it left.
ghost use Rattle.std.specs.Prelude.{◌≡◌, map, string_bytes, IfOk, IfErr};
ghost use Rattle.cov_words.specs.Child.{run_of};
ghost use Rattle.cov_commands.specs.Call.{Asks, Call, Runs, moment};
ghost use Rattle.cov_commands.specs.Child.{HasNotRun, HasRun, child_duty, child_end, child_words, child_world, spawner_at};
ghost use Rattle.cov_commands.specs.Owed.{Gives};
ghost use Rattle.cov_commands.specs.Sinks.{sink_at};
ghost use Rattle.cov_commands.specs.Stores.{store_at};

use crate::Ended;
use crate::due::Due;
use crate::put::put_due;
use crate::report::report;
use crate::tool::tell_end;
use cov_io::{Sink, SpawnFault, Spawner, Store};
use cov_words::{Run, WordsFault, read_run};
use std::alloc::{AllocError, Global};

/// Runs `run --dir FOLDER --as FORM -- WORD..`: starts the program that the words name, with `NODE_V8_COVERAGE` set to the folder, waits
/// for its end, and then does what `report FOLDER --as FORM` does, whatever the program's status is. Where the status isn't 0 and
/// the report came to its end, the answer is this status. What stands in the folder from before is reported as well.
///
/// The store is not called before the program's end, and not at all where it wasn't run to its end.
pub fn run_child<S: Store, P: Spawner, O: Sink, E: Sink>(
    alloc: Global,
    words: &[String],
    store: &mut S,
    spawner: &mut P,
    out: &mut O,
    err: &mut E,
) -> Ended
    ensures { Call child_duty (run_of (map string_bytes words.now))
        (moment
        (child_world
        (store_at store.old (S.files store.old) (S.folders store.old) (S.faults store.old))
        (spawner_at spawner.old (P.ran spawner.old) (P.last spawner.old) (P.faults spawner.old)))
        (sink_at out.old (O.held out.old) (O.longest out.old) (O.faults out.old))
        (sink_at err.old (E.held err.old) (E.longest err.old) (E.faults err.old)))
        (moment
        (child_world
        (store_at store.new (S.files store.new) (S.folders store.new) (S.faults store.new))
        (spawner_at spawner.new (P.ran spawner.new) (P.last spawner.new) (P.faults spawner.new)))
        (sink_at out.new (O.held out.new) (O.longest out.new) (O.faults out.new))
        (sink_at err.new (E.held err.new) (E.longest err.new) (E.faults err.new)))
        result }
{
    let ended = ask(alloc, words, store, spawner, out, err);
    let _ = tell_end(alloc, err, ended);
    ended
}

/// Runs what the words ask for, without its last line.
fn ask<S: Store, P: Spawner, O: Sink, E: Sink>(
    alloc: Global,
    words: &[String],
    store: &mut S,
    spawner: &mut P,
    out: &mut O,
    err: &mut E,
) -> Ended
    ensures { Asks child_duty (run_of (map string_bytes words.now))
        (moment
        (child_world
        (store_at store.old (S.files store.old) (S.folders store.old) (S.faults store.old))
        (spawner_at spawner.old (P.ran spawner.old) (P.last spawner.old) (P.faults spawner.old)))
        (sink_at out.old (O.held out.old) (O.longest out.old) (O.faults out.old))
        (sink_at err.old (E.held err.old) (E.longest err.old) (E.faults err.old)))
        (moment
        (child_world
        (store_at store.new (S.files store.new) (S.folders store.new) (S.faults store.new))
        (spawner_at spawner.new (P.ran spawner.new) (P.last spawner.new) (P.faults spawner.new)))
        (sink_at out.new (O.held out.new) (O.longest out.new) (O.faults out.new))
        (sink_at err.new (E.held err.new) (E.longest err.new) (E.faults err.new)))
        result }
{
    match read_run(alloc, words) {
        Ok(command) => put_out(alloc, &command, store, spawner, out, err),
        Err(WordsFault::Usage) => Ended::Usage,
        Err(WordsFault::NoMemory) => Ended::NoMemory,
    }
}

/// The command after its words, without its last line.
fn put_out<S: Store, P: Spawner, O: Sink, E: Sink>(
    alloc: Global,
    command: &Run,
    store: &mut S,
    spawner: &mut P,
    out: &mut O,
    err: &mut E,
) -> Ended
    ensures { Runs (child_duty command.now)
        (moment
        (child_world
        (store_at store.old (S.files store.old) (S.folders store.old) (S.faults store.old))
        (spawner_at spawner.old (P.ran spawner.old) (P.last spawner.old) (P.faults spawner.old)))
        (sink_at out.old (O.held out.old) (O.longest out.old) (O.faults out.old))
        (sink_at err.old (E.held err.old) (E.longest err.old) (E.faults err.old)))
        (moment
        (child_world
        (store_at store.new (S.files store.new) (S.folders store.new) (S.faults store.new))
        (spawner_at spawner.new (P.ran spawner.new) (P.last spawner.new) (P.faults spawner.new)))
        (sink_at out.new (O.held out.new) (O.longest out.new) (O.faults out.new))
        (sink_at err.new (E.held err.new) (E.longest err.new) (E.faults err.new)))
        result }
{
    match report_left(alloc, command, store, spawner) {
        Ok(due) => put_due(alloc, out, err, &due),
        Err(ended) => ended,
    }
}

/// What it owes: runs the program to its end, and then makes the report of what it left.
fn report_left<S: Store, P: Spawner>(
    alloc: Global,
    command: &Run,
    store: &mut S,
    spawner: &mut P,
) -> Result<Due, Ended>
    ensures { Gives (child_duty command.now)
        (child_world
        (store_at store.old (S.files store.old) (S.folders store.old) (S.faults store.old))
        (spawner_at spawner.old (P.ran spawner.old) (P.last spawner.old) (P.faults spawner.old)))
        (child_world
        (store_at store.new (S.files store.new) (S.folders store.new) (S.faults store.new))
        (spawner_at spawner.new (P.ran spawner.new) (P.last spawner.new) (P.faults spawner.new))) result }
{
    let status = match start(alloc, command, spawner) {
        Ok(status) => status,
        Err(ended) => return Err(ended),
    };
    match report(alloc, store, command.folder.as_text(), command.form) {
        Ok(due) => Ok(Due {
            out: due.out,
            err: due.err,
            ended: child_end(status, due.ended),
        }),
        Err(ended) => Err(child_end(status, ended)),
    }
}

/// Runs the program to its end, and answers its status.
fn start<P: Spawner>(alloc: Global, command: &Run, spawner: &mut P) -> Result<u8, Ended>
    ensures ok { IfOk result (λ status. HasRun (child_words command.now)
        (spawner_at spawner.old (P.ran spawner.old) (P.last spawner.old) (P.faults spawner.old))
        (spawner_at spawner.new (P.ran spawner.new) (P.last spawner.new) (P.faults spawner.new)) status) }
    ensures err { IfErr result (λ ended. HasNotRun (child_words command.now)
        (spawner_at spawner.old (P.ran spawner.old) (P.last spawner.old) (P.faults spawner.old))
        (spawner_at spawner.new (P.ran spawner.new) (P.last spawner.new) (P.faults spawner.new)) ended) }
{
    let Ok(words) = words_of(alloc, command) else {
        return Err(Ended::NoMemory);
    };
    match spawner.run(alloc, words.as_slice()) {
        Ok(status) => Ok(status),
        Err(SpawnFault::Failed) => Err(Ended::SpawnFault),
        Err(SpawnFault::NoMemory) => Err(Ended::NoMemory),
    }
}

/// The words that start the program, with the variable that names the folder.
fn words_of(alloc: Global, command: &Run) -> Result<Vec<String>, AllocError>
    ensures { IfOk result (λ words. map string_bytes words.items ≡ child_words command.now) }
{
    let folder = command.folder.as_text();
    let mut words = Vec::new(alloc);
    words.push(String::from_str(alloc, "env")?)?;
    words.push(format!(in alloc; "NODE_V8_COVERAGE={folder}")?)?;
    for word in command.words.as_slice() {
        words.push(String::from_str(alloc, word.as_text())?)?;
    }
    Ok(words)
}

/// How the command ends after a program of this status, where its report ends so.
fn child_end(status: u8, ended: Ended) -> Ended
    ensures { result ≡ child_end status ended }
{
    if status == 0 {
        return ended;
    }
    match ended {
        Ended::Done | Ended::SomeRefused => Ended::Child(status),
        _ => ended,
    }
}
