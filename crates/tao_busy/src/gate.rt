//! `Gate`, what a load tells of its reads while it runs.

/// What is told of the reads of a load while it runs, by the threads that make them. None of them holds a lock at either call.
pub trait Gate {
    /// An answer of a leader or of a store to the read of this number is on its way to the follower.
    fn store_read(&self, call: u64);

    /// The read of this number was answered from what its follower kept: with no hops, and kept.
    fn hit(&self, call: u64);
}

/// A gate to which nothing matters.
#[derive(Clone, Copy)]
pub struct NoGate;

impl Gate for NoGate {
    fn store_read(&self, _call: u64) {}

    fn hit(&self, _call: u64) {}
}
