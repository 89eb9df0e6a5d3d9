//! Printed graphs that are to run: what the text of a graph comes to over the files of a tree.
//!
//! `check` reads a text (`fl_text`), and finds out whether its graph can run: whether its patterns are read, and whether its files are there or
//! can be made (`fl_commands`, whose `execute` runs it then). Nothing is made or changed before that is known.
//!
//! `specs/Checks.antt` says what each text comes to.
#![tactic(auto)]

mod checks;

pub use checks::{Unfit, check};
