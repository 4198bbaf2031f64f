//! The top call over a folder in memory.
use crate::memory::store_of;
use cov_commands::Ended;
use cov_io::{MemSink, Net, NoGate, Sink, SureSpawner};
use cov_live::run;
use cov_text::Items;
use std::alloc::{AllocError, Global};
use std::sync::Wait;
use std::thread::Threads;

/// How a call has ended, and what it has told.
#[derive(Drop)]
pub(crate) struct Called {
    pub(crate) ended: Ended,
    pub(crate) err: MemSink,
}

/// Calls what these words ask for, over a folder `cov` with these files.
pub(crate) fn call<N: Net, O: Sink, R: Threads + Wait + Sync>(
    rt: &R,
    alloc: Global,
    words: &[&str],
    files: &[(&str, &str)],
    net: &mut N,
    out: &mut O,
) -> Result<Called, AllocError>
where
    N::Link: Send,
{
    let mut given = Vec::new(alloc);
    for word in words {
        given.push(String::from_str(alloc, word)?)?;
    }
    let mut store = store_of(alloc, files)?;
    let mut spawner = SureSpawner::new(alloc, 0);
    let mut err = MemSink::new(alloc, Items::new(alloc));
    let ended = run(
        rt,
        alloc,
        given.as_slice(),
        &mut store,
        &NoGate,
        net,
        &mut spawner,
        out,
        &mut err,
    );
    Ok(Called { ended, err })
}
