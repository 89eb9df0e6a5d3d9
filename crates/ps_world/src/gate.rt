//! Where a running node makes itself known.

/// The places of a node's run at which it passes the gate.
#[derive(Clone, Copy, Debug, PartialEq, Eq)]
pub enum Reach {
    /// Before its first act.
    First,
    /// After its last act.
    Last,
}

/// A gate that each node of a running graph passes before its first act and after its last one.
///
/// It changes nothing. A test's gate may hold nodes until they have met.
pub trait Gate: Sync {
    /// Node `node`, counted from 0, has come to this place.
    fn reach(&self, node: u32, at: Reach);
}
