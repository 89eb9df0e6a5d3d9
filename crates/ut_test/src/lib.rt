//! The shell's utilities that need no stream: `echo`, `test`, and the fields that `read` gives to its names.
//!
//! Words and texts are lists of bytes, in the C locale: one byte is one character. `test` takes the words behind its name, without the
//! `]` of `[`, and looks at one place of the tree at most. No call keeps memory but that of its result.
//!
//! `specs/Tests.antt` says what `test` answers, `specs/Fields.antt` which fields a line has, and `specs/Echo.antt` what `echo` writes.
#![tactic(auto)]

mod evaluation;
mod fields;
pub mod laws;
mod operators;
mod outcomes;
mod questions;
mod writing;

pub use evaluation::test;
pub use fields::read_fields;
pub use outcomes::Tested;
pub use writing::echo;
