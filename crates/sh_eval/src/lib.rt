//! What a script of the profile means (XCU 2.9), and its evaluation.
//!
//! `specs/Meaning.antt` gives the meaning of a script by its structure, from a state to how the script goes on and the state then; each
//! form of command has a definition of its own over meanings (`Commands`, `Simple`, `Redirections`, `Utilities`, `Builtins`).
//! `specs/States.antt` says what a state is. No graph, no piece, no width and no call of the outside occurs in it.
//!
//! `specs/Contract.antt` is the one clause of every function that evaluates: the state that is meant, or where it stopped, output and
//! errors grown by prefixes of what is meant; and why. `run_script` evaluates a whole script; `specs/Scripts.antt` says what it leaves.
//!
//! Lists, pipelines, groups, subshells, `if`, loops, command substitutions, redirections and simple commands are evaluated. A utility runs
//! by `fl_commands`, as a graph of its own; the files of `tee` are begun before (`teeing`).
//!
//! Stages of a pipeline that follow one another and are utilities but `tee`, and nothing more, are gathered to a segment and run as one graph,
//! through which their bytes stream (`gathering`, `segments`; `specs/Segments.antt` says what it does, which is what its stages mean one after
//! the other). Every other stage runs by itself (`staging`), and what a stage or a segment writes is kept for the next.
#![tactic(auto)]

mod builtins;
mod busy;
mod expanding;
mod files;
mod flows;
mod gathered;
mod gathering;
pub mod laws;
mod leading;
mod lines;
mod lists;
mod newlines;
mod opening;
mod outcomes;
mod patterns;
mod reading;
mod redirections;
mod refusals;
mod rests;
mod segments;
mod session;
mod shell;
mod simple;
mod skipping;
mod staging;
mod stops;
mod streams;
mod targets;
mod teeing;
mod top;
mod utilities;
mod writing;

pub use busy::Use;
pub use flows::Flow;
pub use outcomes::{How, Played, Position};
pub use refusals::Refusal;
pub use rests::Rest;
pub use session::{Pipes, Session};
pub use shell::Shell;
pub use streams::{From, Held, HeldPaths, Streams, To};
pub use targets::Target;
pub use top::run_script;
