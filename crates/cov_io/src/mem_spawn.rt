//! Spawners in memory, which tell the words that they ran.
ghost use Rattle.std.specs.Prelude.{◌≡◌, [], IfOk, None, Some, map, string_bytes};
ghost use Rattle.cov_io.specs.Fails.{failing_at};

use crate::{Failing, SpawnFault, Spawner};
use cov_text::{Items, Text};
use std::alloc::{AllocError, Global};

/// A spawner in memory that never fails: each program ends with the same status.
#[derive(Debug, Drop)]
pub struct SureSpawner {
    pub ran: Items<Items<Text>>,
    pub status: u8,
    pub last: Option<u8>,
}

/// A spawner in memory whose calls fail by a list of their numbers, from 0. A call that fails runs nothing.
#[derive(Debug, Drop)]
pub struct MemSpawner {
    pub inner: SureSpawner,
    pub failing: Failing,
}

impl SureSpawner {
    /// A spawner that has run nothing yet, whose programs will end with this status.
    pub fn new(alloc: Global, status: u8) -> SureSpawner
        ensures ran { result.ran ≡ [] }
        ensures status { result.status ≡ status }
        ensures last { result.last ≡ None }
    {
        SureSpawner {
            ran: Items::new(alloc),
            status,
            last: None,
        }
    }
}

impl MemSpawner {
    /// The same, where these calls fail.
    pub fn new(alloc: Global, status: u8, numbers: Items<u64>) -> MemSpawner
        ensures ran { result.inner.ran ≡ [] }
        ensures status { result.inner.status ≡ status }
        ensures last { result.inner.last ≡ None }
        ensures failing { result.failing ≡ failing_at numbers }
    {
        MemSpawner {
            inner: SureSpawner::new(alloc, status),
            failing: Failing::new(numbers),
        }
    }
}

impl Spawner for SureSpawner {
    ghost ran = { λ s. Some s.ran };

    ghost last = { λ s. s.last };

    ghost faults = { λ _. 0 };

    fn run(&mut self, alloc: Global, words: &[String]) -> Result<u8, SpawnFault> {
        let words = copied(alloc, words)?;
        self.ran.push(words)?;
        self.last = Some(self.status);
        Ok(self.status)
    }
}

impl Spawner for MemSpawner {
    ghost ran = { λ s. Some s.inner.ran };

    ghost last = { λ s. s.inner.last };

    ghost faults = { λ s. s.failing.faults };

    fn run(&mut self, alloc: Global, words: &[String]) -> Result<u8, SpawnFault> {
        if self.failing.fails_now() {
            return Err(SpawnFault::Failed);
        }
        self.inner.run(alloc, words)
    }
}

fn copied(alloc: Global, words: &[String]) -> Result<Items<Text>, AllocError>
    ensures { IfOk result (λ texts. texts ≡ map string_bytes words.now) }
{
    let mut texts = Items::new(alloc);
    for word in words {
        texts.push(Text::from_text(alloc, word.as_str())?)?;
    }
    Ok(texts)
}
