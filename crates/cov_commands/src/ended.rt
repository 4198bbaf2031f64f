//! How a command ends.
ghost use Rattle.std.specs.Prelude.{◌≡◌};
ghost use Rattle.std.specs.Process.{exit_status};
ghost use Rattle.cov_commands.specs.Code.{code_of};
ghost use Rattle.cov_commands.specs.Due.{refused_or_done};

use std::process::ExitCode;

/// The answer of a command.
#[derive(Clone, Copy, Debug, PartialEq, Eq)]
pub enum Ended {
    /// It came to its end, and every text was accepted.
    Done,
    /// It came to its end, and what was compared differs.
    Different,
    /// It came to its end, and a share is below its threshold.
    Below,
    /// The words are no command.
    Usage,
    /// It came to its end, and a text was refused.
    SomeRefused,
    /// The store failed, or a folder that the words name is absent.
    ReadFault,
    /// The output or the error sink failed.
    WriteFault,
    /// The program wasn't run to its end.
    SpawnFault,
    /// The net failed, or a link did, or it closed before its session's end.
    LinkFault,
    /// The peer of this session, from 0, sent a text that its session refuses: the one of this number, from 0.
    PeerFault { session: u64, message: u64 },
    /// The command came to its end, and the program that it ran ended with this status, which isn't 0.
    Child(u8),
    /// There was no memory.
    NoMemory,
}

impl Ended {
    /// The number that the program ends with.
    pub fn code(&self) -> u8
        ensures { result ≡ code_of self.now }
    {
        match self {
            Ended::Done => 0,
            Ended::Different => 1,
            Ended::Below => 1,
            Ended::Usage => 2,
            Ended::SomeRefused => 3,
            Ended::ReadFault => 4,
            Ended::WriteFault => 5,
            Ended::NoMemory => 6,
            Ended::LinkFault => 7,
            Ended::PeerFault { .. } => 8,
            Ended::SpawnFault => 9,
            Ended::Child(status) => *status,
        }
    }

    /// The status that `main` hands to the system: this number, and no other.
    pub fn status(&self) -> ExitCode
        ensures { exit_status result ≡ code_of self.now }
    {
        ExitCode::from(self.code())
    }
}

/// How a command ends that has come to its end, where a text was refused, or none.
pub fn refused_or_done(refused: bool) -> Ended
    ensures { result ≡ refused_or_done refused }
{
    if refused {
        Ended::SomeRefused
    } else {
        Ended::Done
    }
}
