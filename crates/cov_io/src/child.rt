//! The real programs: children of this process.
ghost use Rattle.std.specs.Prelude.{◌≡◌, ◌∷◌, None, IfOk, map, option_map, pos, string_bytes};
ghost use Rattle.std.specs.IoError.{error_kind};
ghost use Rattle.std.specs.Process.{exit_code, command_program, command_args};
ghost use Rattle.cov_io.specs.Spawns.{spawn_fault};
ghost use Rattle.cov_io.specs.Real.{child_faults, child_last};

use crate::{SpawnFault, Spawner};
use std::alloc::Global;
use std::io;
use std::io::ErrorKind;
use std::process::{Command, ExitStatus, Processes};

/// A spawner of children of this process, which have its standard streams. It tells no words; each error raises its
/// count.
#[derive(Drop)]
pub struct ChildSpawner<R: Drop> {
    rt: R,
    last: Option<u8>,
    faults: u64,
}

impl<R: Drop> ChildSpawner<R> {
    /// A spawner that has run nothing yet.
    pub fn new(rt: R) -> ChildSpawner<R>
        ensures faults { child_faults result ≡ 0 }
        ensures last { child_last result ≡ None }
    {
        ChildSpawner {
            rt,
            last: None,
            faults: 0,
        }
    }
}

impl<R: Processes + Drop> Spawner for ChildSpawner<R> {
    ghost ran = { λ _. None };

    ghost last = { λ s. s.last };

    ghost faults = { λ s. s.faults };

    fn run(&mut self, alloc: Global, words: &[String]) -> Result<u8, SpawnFault> {
        match run_child(&self.rt, alloc, words) {
            Ok(status) => {
                self.last = Some(status);
                Ok(status)
            }
            Err(fault) => {
                self.faults = self.faults.saturating_add(1);
                Err(fault)
            }
        }
    }
}

fn run_child<R: Processes>(rt: &R, alloc: Global, words: &[String]) -> Result<u8, SpawnFault> {
    let mut command = command_of(alloc, words)?;
    match command.status(rt) {
        Ok(ended) => status_of(ended).ok_or(SpawnFault::Failed),
        Err(error) => Err(fault_of(error)),
    }
}

// The program of the first word, with the other words. No words name no program.
fn command_of(alloc: Global, words: &[String]) -> Result<Command, SpawnFault>
    ensures { IfOk result (λ command. command_program command ∷ command_args command ≡ map string_bytes words.now) }
{
    let Some((program, others)) = words.split_first() else {
        return Err(SpawnFault::Failed);
    };
    let mut command = Command::new(alloc, program.as_str())?;
    for word in others {
        command.arg(word.as_str())?;
    }
    Ok(command)
}

// The status of a child's end: none where a signal ended it.
fn status_of(ended: ExitStatus) -> Option<u8>
    ensures { option_map pos result ≡ exit_code ended }
{
    let code = ended.code()?;
    u8::try_from(code).ok()
}

// What an error means of a child that wasn't started.
fn fault_of(error: io::Error) -> SpawnFault
    ensures { result ≡ spawn_fault (error_kind error) }
{
    match error.kind() {
        ErrorKind::OutOfMemory => SpawnFault::NoMemory,
        _ => SpawnFault::Failed,
    }
}
