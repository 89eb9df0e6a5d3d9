//! The outside as `pash` sees it: sources, sinks, a tree of files and a gate, and how a path is resolved.
//!
//! Each trait's contract says what its calls give and leave where the object tells its content, and that a failure is told only where
//! the object's count of faults rose. All that the program does to the outside goes through these traits, so that it is
//! proved over every object that keeps them.
//!
//! `specs/` has the words that callers' contracts cite: `Told` for content, `Counts` for faults, `Paths`, `Files`, `TreeState`
//! and `Places` for files. `laws` has what holds of files whatever is called.
#![tactic(auto)]

mod components;
mod error;
mod gate;
pub mod laws;
mod lines;
mod path;
mod places;
mod sink;
mod source;
mod streams;
mod tree;

pub use error::WorldErr;
pub use gate::{Gate, Reach};
pub use lines::read_line;
pub use path::Path;
pub use places::{Place, look};
pub use sink::Sink;
pub use source::Source;
pub use streams::{read_all, read_front, write_all};
pub use tree::{Kind, Mode, Tree};
