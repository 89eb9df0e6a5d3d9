//! Objects in memory for the outside, which fail where a test wants it.
//!
//! Each keeps its trait's contract and tells its content. Its calls that answer a Result have numbers from 0: a call fails where its
//! number is on the object's list, and the count of faults rises there. A number past the last call changes nothing. The `NoFail` objects
//! are the same ones without such a list: their count is the constant 0. `DelayGate` lets others run where nodes begin and end, as a seed gives;
//! so do the calls of a source or a tree that was told to `delay`, and the reads of what such a tree lends.
//!
//! `specs/` has the words that callers' contracts cite: `Trees` for what a tree is made of, `Standing` and `Bounded` for what its maker
//! owes, `Reads` for how the readers of a path give their bytes.
#![tactic(auto)]

mod delays;
mod gates;
mod listing;
mod meet_gate;
mod no_fail;
mod plan;
mod reads;
mod rows;
mod sink;
mod source;
mod standing;
mod stored;
mod tree;

pub use delays::DelayGate;
pub use gates::OpenGate;
pub use meet_gate::MeetGate;
pub use no_fail::{NoFailSink, NoFailSource, NoFailTree, are_bounded};
pub use sink::MemSink;
pub use source::MemSource;
pub use standing::is_tree;
pub use tree::MemTree;
