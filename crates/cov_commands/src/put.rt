//! Writing what is due.
ghost use Rattle.std.specs.Prelude.{◌≡◌, ◌≤◌, [], IfErr, OnOk};
ghost use Rattle.std.specs.Io.KnownBytes.{Appends};
ghost use Rattle.cov_io.specs.Causes.{Rose};
ghost use Rattle.cov_io.specs.Grows.{AppendsPart, longest_after};
ghost use Rattle.json_pieces.specs.Pieces.{IsWithin, Writes, out_at, piece};
ghost use Rattle.cov_commands.specs.Owed.{owed_of, text_of};
ghost use Rattle.cov_commands.specs.Sinks.{GainsLine, Puts, sink_at};
ghost use Rattle.cov_commands.specs.Ends.{HasWriteCause, IsFinished};

use crate::Ended;
use crate::due::{Due, Output};
use cov_io::{Sink, SinkFault};
use coverage_text::write_files;
use json_pieces::finish;
use scripts_text::write_scripts;
use std::alloc::Global;

/// Writes bytes, or says how that ends the command.
pub fn put_bytes<O: Sink>(out: &mut O, bytes: &[u8]) -> Result<(), Ended>
    ensures ok { OnOk result (Appends (O.held out.old) (O.held out.new) bytes.now) }
    ensures part { AppendsPart (O.held out.old) (O.held out.new) bytes.now }
    ensures line { GainsLine
        (sink_at out.old (O.held out.old) (O.longest out.old) (O.faults out.old)) (sink_at out.new (O.held out.new) (O.longest out.new) (O.faults out.new))
        [] bytes.now }
    ensures longest { O.longest out.new ≡ longest_after bytes.now (O.longest out.old) }
    ensures cause { IfErr result (HasWriteCause (O.faults out.old) (O.faults out.new)) }
    ensures later { O.faults out.old ≤ O.faults out.new }
    ensures kept { OnOk result (O.faults out.new ≡ O.faults out.old) }
{
    match out.write(bytes) {
        Ok(()) => Ok(()),
        Err(SinkFault::Failed) => Err(Ended::WriteFault),
        Err(SinkFault::NoMemory) => Err(Ended::NoMemory),
    }
}

/// Writes what is due for the output in pieces of at most 65,536 bytes.
fn write_output<O: Sink>(alloc: Global, out: &mut O, output: &Output) -> Result<(), SinkFault>
    ensures { Writes (text_of output.now) (out_at (O.held out.old) (O.longest out.old) (O.faults out.old))
        (out_at (O.held out.new) (O.longest out.new) (O.faults out.new)) result }
{
    match output {
        Output::Bytes(bytes) => finish(out, bytes.as_slice()),
        Output::Scripts(scripts) => write_scripts(alloc, scripts.scripts(), out),
        Output::Coverage(files) => write_files(alloc, files, out),
    }
}

/// Writes what is due for the output in pieces of at most 65,536 bytes, or says how that ends the command.
pub fn put_output<O: Sink>(alloc: Global, out: &mut O, output: &Output) -> Result<(), Ended>
    ensures ok { OnOk result (Appends (O.held out.old) (O.held out.new) (text_of output.now)) }
    ensures part { AppendsPart (O.held out.old) (O.held out.new) (text_of output.now) }
    ensures within { IsWithin piece (O.longest out.old) (O.longest out.new) }
    ensures cause { IfErr result (HasWriteCause (O.faults out.old) (O.faults out.new)) }
    ensures later { O.faults out.old ≤ O.faults out.new }
    ensures kept { OnOk result (O.faults out.new ≡ O.faults out.old) }
{
    match write_output(alloc, out, output) {
        Ok(()) => Ok(()),
        Err(SinkFault::Failed) => Err(Ended::WriteFault),
        Err(SinkFault::NoMemory) => Err(Ended::NoMemory),
    }
}

/// Writes what is due, the output whole before the lines, and says how that ends the command.
pub fn put_due<O: Sink, E: Sink>(alloc: Global, out: &mut O, err: &mut E, due: &Due) -> Ended
    requires { IsFinished due.now.ended }
    ensures { Puts (owed_of due.now)
        (sink_at out.old (O.held out.old) (O.longest out.old) (O.faults out.old)) (sink_at out.new (O.held out.new) (O.longest out.new) (O.faults out.new))
        (sink_at err.old (E.held err.old) (E.longest err.old) (E.faults err.old)) (sink_at err.new (E.held err.new) (E.longest err.new) (E.faults err.new))
        result }
{
    if let Err(ended) = put_output(alloc, out, &due.out) {
        return ended;
    }
    if let Err(ended) = put_bytes(err, due.err.as_slice()) {
        return ended;
    }
    due.ended
}
