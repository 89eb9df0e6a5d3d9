//! The edges of a graph, dealt out to its nodes for a run on threads, and settled behind it.
//!
//! `make_halves` makes the two halves of each edge, and `deal` gives each node those of its own edges. Once each node has run to its stop,
//! `settle_edges` puts the two halves of each edge together again: what was taken from it is what was put on it.
//!
//! `specs/Halves.antt` says what a node has of its edges, and `specs/Settled.antt` what went over the edges. Nothing here runs a node.
#![tactic(auto)]

mod dealing;
mod making;
mod returning;
mod settling;

pub use dealing::{NodeHalves, deal};
pub use making::{Halves, make_halves};
pub use settling::settle_edges;
