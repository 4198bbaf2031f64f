//! Where a worker may be made to wait.

/// What a worker calls before and after it takes a text, with the text's place. Each call may wait: a gate that does
/// so keeps the handle by which it waits.
pub trait Gate {
    /// Called before the text is taken, outside the lock.
    fn before(&self, place: u32);

    /// Called after it was taken, outside the lock.
    fn after(&self, place: u32);
}

/// A gate that does nothing.
#[derive(Clone, Copy, Debug)]
pub struct NoGate;

impl Gate for NoGate {
    fn before(&self, _place: u32) {}

    fn after(&self, _place: u32) {}
}
