//! The machines of the nodes that join and split: a text given, a split, inputs joined in order, closed or not, an aggregate (the sum of
//! counts, groups joined where they meet, bytes squeezed there, texts in order merged), one that writes a file and hands on, and a drain.
//!
//! A joint is a machine: what it has still to put is always its node's equation on what may still come at its ins. `joint` gives the
//! one of a node at its beginning, where all of the equation is due; the contract of `Machine` keeps it so, piece by piece.
//!
//! `specs/Joints.antt` says which nodes have a joint.
#![tactic(auto)]

mod fixed;
mod gathered;
mod in_order;
mod joints;
mod makers;
mod readings;
mod splits;
mod sums;
mod tees;

pub use joints::Joint;
pub use makers::joint;
