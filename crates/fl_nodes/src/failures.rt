//! Whether a node of a run has failed.
use std::sync::atomic::{AtomicBool, Ordering};

/// Whether one of the nodes of a run has failed, which all of them note and look up. Once it is noted it stays.
///
/// No clause rests on it: it only lets nodes that read outside break off, where what they read would be thrown away.
#[derive(Debug, Drop)]
pub struct AnyFailure {
    noted: AtomicBool,
}

impl AnyFailure {
    /// None has failed yet.
    pub(crate) fn new() -> AnyFailure {
        AnyFailure {
            noted: AtomicBool::new(false),
        }
    }

    /// Notes whether one has failed by now.
    pub(crate) fn note(&self, has_failed: bool) {
        if has_failed {
            self.noted.store(true, Ordering::SeqCst);
        }
    }

    /// Whether one has been noted.
    pub(crate) fn is_noted(&self) -> bool {
        self.noted.load(Ordering::SeqCst)
    }
}
