//! Rewrites that split work among more nodes.
//!
//! `insert_split` puts a split, and a Cat that joins its parts again, before a node, `commute_cat` a map for each part in the place of a whole,
//! and `group_operands` groups of its files in the place of a Cat. Each keeps the flow (`fl_rewrites/specs/Keeps.antt`), and answers exactly
//! the graph of `specs/Inserting.antt`, `specs/Commuting.antt` or `specs/Grouping.antt`, where there is one.
#![tactic(auto)]

mod commuting;
mod grouping;
mod inserting;

pub use commuting::commute_cat;
pub use grouping::group_operands;
pub use inserting::{MAX_PARTS, insert_split};
