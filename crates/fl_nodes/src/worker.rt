//! What a thread works with.

use fl_relay::{EdgeGiver, EdgeTaker};
use ps_world::WorldErr;

/// A node at work: its machine, the halves of its edges, its end, and why it has failed, where it has.
#[derive(Drop)]
pub struct Worker<M, E> {
    pub machine: M,
    pub takers: Vec<EdgeTaker>,
    pub givers: Vec<EdgeGiver>,
    pub own: E,
    pub failure: Option<WorldErr>,
}
