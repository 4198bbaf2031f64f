//! The command `c8_command`: the real folder, streams and net, handed to the commands.
#![tactic(auto)]

use cov_commands::Ended;
use cov_io::{ChildSpawner, FolderStore, NoGate, Sink, StreamSink};
use cov_live::run;
use cov_net::TcpNet;
use std::io::ErrorKind;
use std::process::ExitCode;
use std::rt::Runtime;
use std::{env, io};

fn main(rt: HostRuntime) -> ExitCode {
    let mut err = StreamSink::new(rt.stderr());
    let words = match words_of(&rt) {
        Ok(words) => words,
        Err(error) if error.kind() == ErrorKind::OutOfMemory => {
            let _ = err.write("fault: memory\n".as_bytes());
            return Ended::NoMemory.status();
        }
        // Words that are no text are taken for none.
        Err(_) => Vec::new(rt.alloc()),
    };
    let mut store = FolderStore::new(rt);
    let mut net = TcpNet::new(rt);
    let mut spawner = ChildSpawner::new(rt);
    let mut out = StreamSink::new(rt.stdout());
    let ended = run(
        &rt,
        rt.alloc(),
        words.as_slice(),
        &mut store,
        &NoGate,
        &mut net,
        &mut spawner,
        &mut out,
        &mut err,
    );
    ended.status()
}

// The words after the program's name.
fn words_of<R: Runtime + AllocGlobal>(rt: &R) -> io::Result<Vec<String>> {
    let words = env::args(rt)?.skip(1).collect(rt.alloc())?;
    Ok(words)
}
