//! The commands that read folders and files.
ghost use Rattle.std.specs.Prelude.{◌≡◌, ◌≤◌, [], map, string_bytes, IfOk, OnOk};
ghost use Rattle.cov_words.specs.Asked.{command_of};
ghost use Rattle.cov_commands.specs.Call.{Asks, Call, Runs, moment};
ghost use Rattle.cov_commands.specs.Owed.{Gives};
ghost use Rattle.cov_commands.specs.Sinks.{Gains, GainsLine, HasHanded, sink_at};
ghost use Rattle.cov_commands.specs.Stores.{store_at};
ghost use Rattle.cov_commands.specs.Sure.{GivesDue};
ghost use Rattle.cov_commands.specs.Ends.{fixed_line, last_line, made_line};
ghost use Rattle.cov_commands.specs.Tool.{tool_duty};

use crate::Ended;
use crate::check::check;
use crate::due::Due;
use crate::make::make;
use crate::merge::merge;
use crate::normal::normal;
use crate::put::{put_bytes, put_due};
use crate::report::report;
use crate::same::same;
use crate::upgrade::upgrade;
use cov_io::{Sink, Store, SureSink, SureStore};
use cov_words::{Command, WordsFault, read_words};
use std::alloc::{AllocError, Global};

/// Runs the command that the words ask for:
///
/// - `merge FOLDER` reads the folder's texts in byte order of their names, sums those that are snapshots and fit, and
///   writes the one normal file of these to `out`;
/// - `same ONE OTHER` reads the texts of both folders so, and writes `same` or `different`, as their sums are;
/// - `normal FILE` writes `normal` where the file is a normal file;
/// - `upgrade FILE` writes the normal file of what a flat file says, as older files are;
/// - `report FOLDER --as FORM` reads the texts as `merge` does, with what they say of the maps of their scripts, and writes the
///   coverage of the files behind them as `json` (coverage files of Istanbul), `lcov` or `text` (a table);
/// - `check FOLDER --lines N --branches N --functions N` writes a line for each of these shares of that report that is below its
///   percentage;
/// - `make SEED COUNT` makes so many snapshots of a seed, takes each as `merge` takes a text, and writes a line of what they come to.
///
/// Each writes a line for each refused text, or for the file that it refused, to `err`. `report` and `check` then write a line for each
/// script or source that the report leaves out.
pub fn run_tool<S: Store, O: Sink, E: Sink>(
    alloc: Global,
    words: &[String],
    store: &mut S,
    out: &mut O,
    err: &mut E,
) -> Ended
    ensures { Call tool_duty (command_of (map string_bytes words.now))
        (moment
        (store_at store.old (S.files store.old) (S.folders store.old) (S.faults store.old))
        (sink_at out.old (O.held out.old) (O.longest out.old) (O.faults out.old))
        (sink_at err.old (E.held err.old) (E.longest err.old) (E.faults err.old)))
        (moment (store_at store.new (S.files store.new) (S.folders store.new) (S.faults store.new))
        (sink_at out.new (O.held out.new) (O.longest out.new) (O.faults out.new))
        (sink_at err.new (E.held err.new) (E.longest err.new) (E.faults err.new)))
        result }
{
    let ended = ask(alloc, words, store, out, err);
    let _ = tell_end(alloc, err, ended);
    ended
}

/// Runs the command that the words ask for, without its last line.
fn ask<S: Store, O: Sink, E: Sink>(
    alloc: Global,
    words: &[String],
    store: &mut S,
    out: &mut O,
    err: &mut E,
) -> Ended
    ensures { Asks tool_duty (command_of (map string_bytes words.now))
        (moment
        (store_at store.old (S.files store.old) (S.folders store.old) (S.faults store.old))
        (sink_at out.old (O.held out.old) (O.longest out.old) (O.faults out.old))
        (sink_at err.old (E.held err.old) (E.longest err.old) (E.faults err.old)))
        (moment (store_at store.new (S.files store.new) (S.folders store.new) (S.faults store.new))
        (sink_at out.new (O.held out.new) (O.longest out.new) (O.faults out.new))
        (sink_at err.new (E.held err.new) (E.longest err.new) (E.faults err.new)))
        result }
{
    match read_words(alloc, words) {
        Ok(command) => run(alloc, &command, store, out, err),
        Err(WordsFault::Usage) => Ended::Usage,
        Err(WordsFault::NoMemory) => Ended::NoMemory,
    }
}

/// Runs a command over a store and sinks that never fail: it ends as it is due, with what is due, or wants memory.
pub fn run_sure(
    alloc: Global,
    words: &[String],
    store: &mut SureStore,
    out: &mut SureSink,
    err: &mut SureSink,
) -> Ended
    ensures { GivesDue (map string_bytes words.now) store.old out.old out.new err.old err.new result }
{
    run_tool(alloc, words, store, out, err)
}

/// Writes the last line of a command that did not come to its end, or says why it isn't whole. That changes no answer.
/// `NoMemory` comes only where there is no memory for the line of a peer's fault, or where the sink wants it.
pub fn tell_end<E: Sink>(alloc: Global, err: &mut E, ended: Ended) -> Result<(), Ended>
    ensures whole { OnOk result (Gains
        (sink_at err.old (E.held err.old) (E.longest err.old) (E.faults err.old)) (sink_at err.new (E.held err.new) (E.longest err.new) (E.faults err.new))
        (last_line ended)) }
    ensures gains { GainsLine
        (sink_at err.old (E.held err.old) (E.longest err.old) (E.faults err.old)) (sink_at err.new (E.held err.new) (E.longest err.new) (E.faults err.new))
        [] (last_line ended) }
    ensures handed { HasHanded (E.longest err.new) (fixed_line ended) }
    ensures nothing { last_line ended ≡ [] → err.new ≡ err.old }
    ensures later { E.faults err.old ≤ E.faults err.new }
{
    let line = fixed_line(ended);
    if !line.is_empty() {
        return put_bytes(err, line.as_bytes());
    }
    let Ok(line) = made_line(alloc, ended) else {
        return Err(Ended::NoMemory);
    };
    if line.is_empty() {
        Ok(())
    } else {
        put_bytes(err, line.as_bytes())
    }
}

/// The last line where it is a fixed text.
fn fixed_line(ended: Ended) -> &'static str
    ensures { result.now ≡ fixed_line ended }
{
    match ended {
        Ended::Done
        | Ended::Different
        | Ended::Below
        | Ended::SomeRefused
        | Ended::PeerFault { .. }
        | Ended::Child(_) => "",
        Ended::Usage =>
            "usage: merge same normal report check make collect serve attach run upgrade\n",
        Ended::ReadFault => "fault: read\n",
        Ended::WriteFault => "fault: write\n",
        Ended::SpawnFault => "fault: child\n",
        Ended::LinkFault => "fault: link\n",
        Ended::NoMemory => "fault: memory\n",
    }
}

/// The last line where it isn't one: that of a peer's fault.
fn made_line(alloc: Global, ended: Ended) -> Result<String, AllocError>
    ensures { IfOk result (λ line. string_bytes line ≡ made_line ended) }
{
    match ended {
        Ended::PeerFault { session, message } => {
            format!(in alloc; "fault: peer, session {session} message {message}\n")
        }
        _ => Ok(String::new(alloc)),
    }
}

/// The command after its words, without its last line.
fn run<S: Store, O: Sink, E: Sink>(
    alloc: Global,
    command: &Command,
    store: &mut S,
    out: &mut O,
    err: &mut E,
) -> Ended
    ensures { Runs (tool_duty command.now)
        (moment
        (store_at store.old (S.files store.old) (S.folders store.old) (S.faults store.old))
        (sink_at out.old (O.held out.old) (O.longest out.old) (O.faults out.old))
        (sink_at err.old (E.held err.old) (E.longest err.old) (E.faults err.old)))
        (moment (store_at store.new (S.files store.new) (S.folders store.new) (S.faults store.new))
        (sink_at out.new (O.held out.new) (O.longest out.new) (O.faults out.new))
        (sink_at err.new (E.held err.new) (E.longest err.new) (E.faults err.new)))
        result }
{
    match look(alloc, command, store) {
        Ok(due) => put_due(alloc, out, err, &due),
        Err(ended) => ended,
    }
}

/// What the command owes, by what the store gives.
#[tactic(auto, using(crate::proofs::Makes::gives_made_or_short))]
fn look<S: Store>(alloc: Global, command: &Command, store: &mut S) -> Result<Due, Ended>
    ensures { Gives (tool_duty command.now)
        (store_at store.old (S.files store.old) (S.folders store.old) (S.faults store.old))
        (store_at store.new (S.files store.new) (S.folders store.new) (S.faults store.new)) result }
{
    match command {
        Command::Merge { folder } => merge(alloc, store, folder.as_text()),
        Command::Same { one, other } => same(alloc, store, one.as_text(), other.as_text()),
        Command::Normal { file } => normal(alloc, store, file.as_text()),
        Command::Upgrade { file } => upgrade(alloc, store, file.as_text()),
        Command::Report { folder, form } => report(alloc, store, folder.as_text(), *form),
        Command::Check {
            folder,
            lines,
            branches,
            functions,
        } => check(
            alloc,
            store,
            folder.as_text(),
            *lines,
            *branches,
            *functions,
        ),
        Command::Make { seed, count } => make(alloc, *seed, *count),
    }
}
