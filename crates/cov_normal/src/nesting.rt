//! Nested ranges that grow with the runs of a function.
ghost use Rattle.std.specs.Prelude.{◌≡◌, ℕ, ◌++◌, ◌∷◌, [], ◌<◌, Some, suc, length, take, OnOk, IfOk};
ghost use Rattle.cov_normal.specs.Stack.{root_ended};
ghost use Rattle.cov_normal.specs.Read.{HasRead, Reads, height_at, height_told, EndsAt, IsPut, OthersStay};

use cov_model::Range;
use std::alloc::{AllocError, Global};
use std::collections::BTreeMap;

// The ranges of one root, each ahead of those inside it, as far as its runs were read.
#[derive(Drop)]
pub(crate) struct Nesting {
    ranges: Vec<Range>,
    // The places in `ranges` of those that may go on, the root's first and each inside the one before it.
    stack: Vec<usize>,
    // For each count that came, where in `stack` a range with it was put last.
    heights: BTreeMap<u64, usize>,
}

impl Nesting {
    // A root where nothing was read: it ends where it starts.
    pub(crate) fn new(alloc: Global, start: u32, count: u64) -> Result<Nesting, AllocError>
        ensures { IfOk result (λ nesting. (f : ℕ → ℕ) → HasRead f start count start nesting) }
    {
        let mut ranges = Vec::new(alloc);
        ranges.push(Range {
            start,
            end: start,
            count,
        })?;
        let mut stack = Vec::new(alloc);
        stack.push(0)?;
        let mut heights = BTreeMap::new(alloc);
        heights.insert(count, 0)?;
        Ok(Nesting {
            ranges,
            stack,
            heights,
        })
    }

    // Reads one run more. A range with its count that may go on does, and those above it on the stack are over; where
    // there is none, a range begins.
    pub(crate) fn go_on(&mut self, run: Range) -> Result<(), AllocError>
        ensures { OnOk result (Reads run self.old self.new) }
    {
        match self.height_of(run.count) {
            Some(height) => self.grow(height, run.end),
            None => self.begin(run)?,
        }
        Ok(())
    }

    // How high on the stack the range with this count is, if there is one.
    fn height_of(&self, count: u64) -> Option<usize>
        ensures { result ≡ height_at self.now count }
    {
        let height = self.heights.get(&count).copied()?;
        let place = self.stack.get(height).copied()?;
        let range = self.ranges.get(place).copied()?;
        if range.count == count {
            Some(height)
        } else {
            None
        }
    }

    // Lets the range at this height go on up to an end.
    fn grow(&mut self, height: usize, end: u32)
        requires { height < length self.old.stack.items }
        ensures heights { self.new.heights ≡ self.old.heights }
        ensures kept { self.new.stack.items ≡ take (suc height) self.old.stack.items }
        ensures ended { EndsAt height end self.old self.new.ranges.items }
    {
        let place = self.stack[height];
        self.stack.truncate(height + 1);
        if let Some(range) = self.ranges.get_mut(place) {
            range.end = end;
        }
    }

    // Lists a range that goes on from the run.
    fn begin(&mut self, run: Range) -> Result<(), AllocError>
        ensures ranges { OnOk result (self.new.ranges.items ≡ self.old.ranges.items ++ run ∷ []) }
        ensures stack { OnOk result (IsPut self.old self.new.stack.items) }
        ensures here { OnOk result (height_told self.new run.count ≡ Some (length self.old.stack.items)) }
        ensures others { OnOk result (OthersStay run.count self.old self.new) }
    {
        self.heights.insert(run.count, self.stack.len())?;
        self.stack.push(self.ranges.len())?;
        self.ranges.push(run)?;
        Ok(())
    }

    // The ranges, with the root's end.
    pub(crate) fn finish(self, end: u32) -> Vec<Range>
        ensures { result.items ≡ root_ended end self.ranges.items }
    {
        let Nesting { mut ranges, .. } = self;
        if let Some(root) = ranges.first_mut() {
            root.end = end;
        }
        ranges
    }
}
