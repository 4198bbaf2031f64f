//! Workers that run at once.
use crate::memory::store_of;
use cov_commands::{Ended, run_collect};
use cov_io::{Gate, MemNet, MemSink, NoGate, SureSpawner};
use cov_live::run;
use cov_text::Items;
use std::alloc::{AllocError, Global};
use std::process::Abort;
use std::sync::Wait;
use std::sync::atomic::{AtomicU64, Ordering};
use std::test::Fail;
use std::thread::Threads;

/// How often a gate looks before it gives up.
const TURNS: u64 = 100_000_000;

const GREATEST: &str =
    "{\"result\":[{\"functions\":[{\"functionName\":\"\",\"isBlockCoverage\":true,\"ranges\":[{\"count\":18446744073709551615,\"endOffset\":10,\"startOffset\":0}]}],\"scriptId\":\"0\",\"url\":\"file:///a.js\"}]}";

const ONE: &str =
    "{\"result\":[{\"functions\":[{\"functionName\":\"\",\"isBlockCoverage\":true,\"ranges\":[{\"count\":1,\"endOffset\":10,\"startOffset\":0}]}],\"scriptId\":\"0\",\"url\":\"file:///a.js\"}]}";

const NONE: &str =
    "{\"result\":[{\"functions\":[{\"functionName\":\"\",\"isBlockCoverage\":true,\"ranges\":[{\"count\":0,\"endOffset\":10,\"startOffset\":0}]}],\"scriptId\":\"0\",\"url\":\"file:///a.js\"}]}";

const ONE_IS_PAST: &str =
    "refused cov/b.json: sum of (anonymous) 0..10 in file:///a.js at root: 18446744073709551615 and 1\n";

const GREATEST_IS_PAST: &str =
    "refused cov/a.json: sum of (anonymous) 0..10 in file:///a.js at root: 1 and 18446744073709551615\n";

/// A gate whose first place waits until the second was taken.
#[derive(Drop)]
struct Waits {
    taken: AtomicU64,
    turns: AtomicU64,
}

impl Gate for Waits {
    fn before(&self, place: u32) {
        if place != 0 {
            return;
        }
        for turn in 0..TURNS {
            if self.taken.load(Ordering::SeqCst) == 1 {
                self.turns.store(turn, Ordering::SeqCst);
                return;
            }
        }
        self.turns.store(TURNS, Ordering::SeqCst);
    }

    fn after(&self, place: u32) {
        if place == 1 {
            self.taken.store(1, Ordering::SeqCst);
        }
    }
}

fn words(alloc: Global, workers: &str) -> Result<Vec<String>, AllocError> {
    let mut words = Vec::new(alloc);
    for word in ["collect", "cov", "--workers", workers] {
        words.push(String::from_str(alloc, word)?)?;
    }
    Ok(words)
}

#[test]
fn the_second_text_is_taken_while_the_first_waits(rt: HostRuntime) -> Result<(), Fail> {
    let alloc = rt.alloc();
    let words = words(alloc, "2")?;
    let files = [("cov/a.json", GREATEST), ("cov/b.json", ONE)];
    let mut store = store_of(alloc, files.as_slice())?;
    let gate = Waits {
        taken: AtomicU64::new(0),
        turns: AtomicU64::new(0),
    };
    let mut out = MemSink::new(alloc, Items::new(alloc));
    let mut err = MemSink::new(alloc, Items::new(alloc));
    let ended = run_collect(
        &rt,
        alloc,
        words.as_slice(),
        &mut store,
        &gate,
        &mut out,
        &mut err,
    );
    assert_eq!(rt; ended, Ended::SomeRefused);
    assert!(rt; gate.turns.load(Ordering::SeqCst) < TURNS);
    assert!(rt; out.inner.bytes.as_slice() == ONE.as_bytes());
    assert!(rt; err.inner.bytes.as_slice() == GREATEST_IS_PAST.as_bytes());
    Ok(())
}

#[test]
fn near_the_limit_there_are_two_outcomes(rt: HostRuntime) -> Result<(), Fail> {
    let alloc = rt.alloc();
    let words = words(alloc, "4")?;
    let files = [
        ("cov/a.json", GREATEST),
        ("cov/b.json", ONE),
        ("cov/c.json", NONE),
    ];
    let mut store = store_of(alloc, files.as_slice())?;
    let mut net = MemNet::new(alloc, Vec::new(alloc), Items::new(alloc));
    let mut spawner = SureSpawner::new(alloc, 0);
    let mut out = MemSink::new(alloc, Items::new(alloc));
    let mut err = MemSink::new(alloc, Items::new(alloc));
    let ended = run(
        &rt,
        alloc,
        words.as_slice(),
        &mut store,
        &NoGate,
        &mut net,
        &mut spawner,
        &mut out,
        &mut err,
    );
    assert_eq!(rt; ended, Ended::SomeRefused);
    let (out, err) = (out.inner.bytes.as_slice(), err.inner.bytes.as_slice());
    let greatest_first = out == GREATEST.as_bytes() && err == ONE_IS_PAST.as_bytes();
    let one_first = out == ONE.as_bytes() && err == GREATEST_IS_PAST.as_bytes();
    assert!(rt; greatest_first || one_first);
    Ok(())
}
