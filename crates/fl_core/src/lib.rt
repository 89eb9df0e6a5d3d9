//! The engine of one thread.
//!
//! `run_in_turn` runs a graph over lists of its nodes' ends, and `run_over_ends` over whatever reads and writes by the number of a node.
//! Each node is a machine (`node_machine`), and the machines run as a network (`fl_net`), in which the nodes have their turns in order until
//! no piece moves. `net_over_texts` is such a network over texts.
//!
//! `specs/EndLists.antt` says which end of the lists each node has, and `specs/GraphRuns.antt` what comes of a run, whichever way it goes.
//! Which nodes have a machine stands in fl_classes.
#![tactic(auto)]

mod end_lists;
mod engine;
mod graph_nets;
mod kinds;
mod machines;
mod numbered_ends;
mod roles;

pub use end_lists::{Ends, Ran, run_in_turn};
pub use engine::{Ending, run_over_ends};
pub use graph_nets::{machine_of, net_of, net_over_texts};
pub use kinds::{are_run, is_run};
pub use machines::{NodeMachine, node_machine};
pub use roles::{Role, have_ends, roles_of};
