//! The engine of threads: each node of a graph on a thread of its own.
//!
//! `run_on_threads` runs a graph over lists of its nodes' ends. Each node has its machine, the halves of its edges and its end, and the ends are
//! back in their lists once all nodes have run to their stops. Where a thread or memory is refused before any node has begun, the graph runs
//! on the caller's thread.
//!
//! `specs/Lent.antt` says which ends are with their nodes, `specs/Starts.antt` what a node begins with, and `specs/Told.antt` what nodes tell.
#![tactic(auto)]

mod jobs;
mod kept;
mod lending;
mod owns;
mod prepared;
mod rooms;
mod runs;
mod starts;
mod telling;

pub use runs::run_on_threads;
