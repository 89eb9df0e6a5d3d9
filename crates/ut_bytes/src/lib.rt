//! `tr`, and what `tee` means: utilities that take a byte at a time (XCU tr, tee).
//!
//! `specs/Steps.antt` says what is done to a text, `specs/Tr.antt` what that makes of tr, and `specs/Tee.antt` what tee writes.
//! The stream goes over whole pieces, a step at a time, and looks each byte up in a table.
#![tactic(auto)]

mod edits;
pub mod laws;
mod steps;
mod tables;
mod trs;

pub use trs::Tr;
