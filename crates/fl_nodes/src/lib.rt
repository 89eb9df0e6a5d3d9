//! A node on a thread of its own: its machine, the halves of its edges, and its end outside.
//!
//! `NodeJob` is what a thread gets, and `NodeDone` what it gives back. The thread does what the machine does next until that has stopped: it
//! takes from its relays and puts on them, and where the node has an end outside, a source's in comes from there and the first out of a
//! node that writes goes there. Where its end fails, or memory is refused, it puts Broken on its outs and takes its ins to their ends. The
//! nodes that read outside break off then too: each looks before a read whether a node of its run has failed.
//!
//! `run_nodes` runs nodes beside each other. `make_edge`, `halves_at` and `settle_at` deal out the halves of edges before a run, and put them
//! together again behind it.
//!
//! `specs/Work.antt` says how far a node has come, and `specs/Came.antt` what came of it. Nothing here knows what a node does: the machine
//! is any machine, and the end any end.
#![tactic(auto)]

mod beside;
mod came;
mod edges;
mod ends;
mod failures;
mod inlets;
mod job;
pub mod laws;
mod machines;
mod nodes;
mod own;
mod ports;
mod settling;
mod stashes;
mod streams;
mod work;
mod worker;

pub use beside::run_nodes;
pub use edges::{Edge, make_edge};
pub use ends::OwnEnd;
pub use inlets::Inlet;
pub use nodes::{NodeDone, NodeJob};
pub use own::Own;
pub use settling::{settle_at, settle_ins};
pub use stashes::{EdgeHalf, half_at, halves_at};
