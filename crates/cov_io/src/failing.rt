//! Calls that fail as a test asks.
ghost use Rattle.std.specs.Prelude.{◌≡◌, ◌≤◌, IsTrue, IsFalse};
ghost use Rattle.cov_io.specs.Causes.{Rose};
ghost use Rattle.cov_io.specs.Fails.{failing_at};

use cov_text::Items;

/// Which calls of an object in memory fail, by their numbers from 0, and how many calls there were and failed.
#[derive(Debug, Drop)]
pub struct Failing {
    pub numbers: Items<u64>,
    pub calls: u64,
    pub faults: u64,
}

impl Failing {
    /// No call yet, of which these will fail.
    pub fn new(numbers: Items<u64>) -> Failing
        ensures { result ≡ failing_at numbers }
    {
        Failing {
            numbers,
            calls: 0,
            faults: 0,
        }
    }

    /// Counts a call, and says whether it is one that fails.
    pub(crate) fn fails_now(&mut self) -> bool
        ensures rose { IsTrue result → Rose self.old.faults self.new.faults }
        ensures later { self.old.faults ≤ self.new.faults }
        ensures kept { IsFalse result → self.new.faults ≡ self.old.faults }
    {
        let call = self.calls;
        self.calls = call.saturating_add(1);
        let fails = is_listed(self.numbers.as_slice(), call);
        if fails {
            self.fail();
        }
        fails
    }

    /// Counts a failure.
    pub(crate) fn fail(&mut self)
        ensures rose { Rose self.old.faults self.new.faults }
        ensures later { self.old.faults ≤ self.new.faults }
    {
        self.faults = self.faults.saturating_add(1);
    }
}

fn is_listed(numbers: &[u64], number: u64) -> bool {
    numbers.iter().any(|n| *n == number)
}
