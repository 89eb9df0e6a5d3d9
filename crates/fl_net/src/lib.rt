//! Networks: the machines of a graph's nodes and the pieces on its edges, one step at a time.
//!
//! What a machine does is its own: all here is said over any (`fl_graph::Machine`). `Net::of_graph` makes the network of a graph over its
//! nodes' ends, and `Net::run` gives the nodes their turns until no piece moves; `Net::new` makes one over texts, and `Net::step` one step of
//! it, in an order of the caller's own. `laws` say what holds in every order of steps, also where nodes break off, so that engines of every
//! kind can stand on them.
//!
//! `specs/Laws.antt` and `specs/Carried.antt` say what the pieces on a graph's edges carry, `specs/Steps.antt` what comes of a step,
//! `specs/Calls.antt` what the calls on a network leave, `specs/NodeEnds.antt` what those on its nodes' ends do, `specs/Runs.antt` and
//! `specs/Points.antt` how far a network has run, `specs/Ends.antt` what is left at its ends, `specs/Inputs.antt` what a network over texts
//! is, `specs/Stuck.antt` where no piece can move, and `specs/Moves.antt` how many pieces its steps move.
#![tactic(auto)]

mod ends;
mod finish;
mod graph_nets;
mod inputs;
pub mod laws;
mod nets;
mod outside;
mod steps;
mod wires;

pub use ends::NodeEnds;
pub use graph_nets::{edge_count, rooms_of};
pub use nets::{Net, Ports};
pub use outside::Halt;
pub use steps::Progress;
pub use wires::Wire;
