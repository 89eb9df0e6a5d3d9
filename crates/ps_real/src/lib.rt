//! The machine's files and standard streams behind the traits of the outside.
//!
//! Each object keeps a count of its failures, from 0, and tells no content: what a file or a stream holds is the machine's
//! affair. This is the trusted edge; nothing else in the program touches the machine.
#![tactic(auto)]

mod names;
mod reading;
mod tree;
mod writing;

pub use reading::{Reading, RealInput};
pub use tree::RealTree;
pub use writing::{RealError, RealOutput, Writing};
