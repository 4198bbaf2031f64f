use cov_book::Book;
use cov_collect::collect_batch;
use cov_io::{Gate, NoGate};
use cov_model::{Answer, At};
use std::alloc::Global;
use std::process::Abort;
use std::sync::Wait;
use std::sync::atomic::{AtomicU64, Ordering};
use std::test::*;
use std::thread::Threads;

/// How often a gate looks before it gives up.
const TURNS: u64 = 100_000_000;

/// The text of a script with one function over the offsets 0 to 10.
fn one_range(alloc: Global, count: &str) -> Result<Vec<u8>, Fail> {
    let text = format!(in alloc;
        "{{\"result\":[{{\"scriptId\":\"0\",\"url\":\"file:///a.js\",\"functions\":[{{\"functionName\":\"\",\"isBlockCoverage\":true,\"ranges\":[{{\"startOffset\":0,\"endOffset\":10,\"count\":{count}}}]}}]}}]}}"
    )?;
    Ok(Vec::from_slice(alloc, text.as_bytes())?)
}

#[test]
fn one_worker_goes_by_the_places(rt: HostRuntime) -> Result<(), Fail> {
    let alloc = rt.alloc();
    let mut texts = Vec::new(alloc);
    texts.push(one_range(alloc, "18446744073709551615")?)?;
    texts.push(one_range(alloc, "1")?)?;
    texts.push(one_range(alloc, "0")?)?;
    let batch = collect_batch(&rt, alloc, Book::new(alloc), texts.as_slice(), 1, &NoGate)?;
    assert_eq!(rt; batch.order.as_slice(), &[0, 1, 2][..]);
    let answers = batch.answers.as_slice();
    assert_eq!(rt; answers.len(), 3);
    assert!(rt; matches!(&answers[0], Answer::Taken));
    assert!(rt; matches!(&answers[2], Answer::Taken));
    let Answer::Past(fault) = &answers[1] else {
        return Err("the second text passes the limit".into());
    };
    assert!(rt; fault.at == At::Root);
    assert_eq!(rt; fault.held, 18446744073709551615);
    assert_eq!(rt; fault.added, 1);
    Ok(())
}

/// A gate whose first place waits until the second was taken.
#[derive(Drop)]
struct Waits {
    taken: AtomicU64,
    turns: AtomicU64,
}

impl Gate for Waits {
    fn before(&self, place: u32) {
        if place != 0 {
            return;
        }
        for turn in 0..TURNS {
            if self.taken.load(Ordering::SeqCst) == 1 {
                self.turns.store(turn, Ordering::SeqCst);
                return;
            }
        }
        self.turns.store(TURNS, Ordering::SeqCst);
    }

    fn after(&self, place: u32) {
        if place == 1 {
            self.taken.store(1, Ordering::SeqCst);
        }
    }
}

#[test]
fn two_workers_run_at_once(rt: HostRuntime) -> Result<(), Fail> {
    let alloc = rt.alloc();
    let mut texts = Vec::new(alloc);
    texts.push(one_range(alloc, "1")?)?;
    texts.push(one_range(alloc, "2")?)?;
    let gate = Waits {
        taken: AtomicU64::new(0),
        turns: AtomicU64::new(0),
    };
    let batch = collect_batch(&rt, alloc, Book::new(alloc), texts.as_slice(), 2, &gate)?;
    assert_eq!(rt; batch.order.as_slice(), &[1, 0][..]);
    let answers = batch.answers.as_slice();
    assert!(rt;
        answers.len() == 2
            && matches!(&answers[0], Answer::Taken)
            && matches!(&answers[1], Answer::Taken)
    );
    assert!(rt; gate.turns.load(Ordering::SeqCst) < TURNS);
    Ok(())
}
