//! The classes of commands, their laws, and the flow of graphs.
//!
//! `specs/Utilities.antt` says what a utility writes for whole inputs, `specs/Aggregates.antt` what its map and aggregator are,
//! `specs/Flow.antt` which text each edge of a graph has and what the graph leaves, and `specs/Laws.antt` what a class says. The laws
//! themselves are the contracts of the functions in `laws`, one a row of the table of classes.
#![tactic(auto)]

pub mod laws;

pub use ut_args::{Class, Seam, class, keeps_closed};
