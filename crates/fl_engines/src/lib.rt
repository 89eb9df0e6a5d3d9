//! Engines: what a caller is given to run graphs on.
//!
//! `specs/Engines.antt` says what comes of a graph that an engine runs, and `specs/Logs.antt` what an engine tells of itself. `run_own` runs
//! a graph over the ends of its own nodes, by `specs/OwnEnds.antt`.
#![tactic(auto)]

mod engines;
mod in_turn;
mod journals;
mod on_threads;
mod own_ends;
mod words;

pub use engines::Engine;
pub use in_turn::InTurn;
pub use on_threads::OnThreads;
pub use own_ends::{Came, Over, number_ends, run_own};
