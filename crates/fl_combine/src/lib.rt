//! Rewrites that join the work of several nodes.
//!
//! `map_aggregate` puts a map for each part, an aggregate over the maps, and a finish where the command has one, in the place of a whole, and
//! `fan_in` a tree of aggregates of two ins each in the place of one of more. Each keeps the flow (`fl_rewrites/specs/Keeps.antt`), and
//! answers exactly the graph of `specs/Aggregating.antt` or `specs/Fanning.antt`, where there is one.
#![tactic(auto)]

mod aggregating;
mod fanning;

pub use aggregating::map_aggregate;
pub use fanning::fan_in;
