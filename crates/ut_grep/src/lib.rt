//! `grep` (XCU grep) as a stream: the lines of an input that have a pattern.
//!
//! `Grep` is the stream of an input of any invocation, and `GrepSeries` that of all its inputs, for which the expression is compiled once;
//! `check` and `first_faulty` tell why its patterns are no expressions. `specs/Patterns.antt` says which lines are selected and what is
//! written for a text, `specs/Output.antt` how lines, numbers, counts and names are written, `specs/Faults.antt` what is wrong with
//! patterns, and `specs/Grep.antt` what is written for all inputs. All patterns are sought together, in whole pieces, and what stands
//! before a line that is found is taken as a whole.
#![tactic(auto)]

mod greps;
pub mod laws;
mod patterns;
mod selection;
mod tally;

pub use greps::{Grep, GrepSeries};
pub use patterns::{Faulty, check, first_faulty};
