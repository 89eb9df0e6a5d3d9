//! What is done on a thread of its own.
use std::sync::Wait;

/// Work for a thread of its own.
pub trait Job: Drop {
    /// What all threads share.
    type Shared: Sync;

    /// What comes of it.
    type Done: Drop + Send;

    /// What may come of a job.
    ghost comes: { Self → Self.Done → Type 0 };

    /// Does it.
    fn run<H: Wait>(self, rt: &H, shared: &Self::Shared) -> Self::Done
        ensures { comes self result };
}

/// What comes of jobs that were to run beside each other.
#[derive(Drop)]
pub enum Beside<J, D> {
    /// What came of each, in their order.
    Ran(Vec<D>),
    /// No job has run: a thread or memory was refused. All are back, in their order.
    NotRun(Vec<J>),
}
