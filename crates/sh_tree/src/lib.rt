//! The syntax tree of a script (XCU 2.10, narrowed).
//!
//! Plain data: a script is a list of and-or lists, these are of pipelines, and so on down to the parts of a word. Byte
//! strings are texts, which contracts see as lists of bytes. No call is here: the parser makes trees, and expansion and
//! evaluation read them.
//!
//! `specs/` has what contracts see of a tree: `Trees.antt` the trees without their memory, and `Views.antt` the tree that a
//! value stands for.
#![tactic(auto)]

mod commands;
mod words;

pub use commands::{AndOr, Command, How, Join, List, Pipeline, Redir, Script, Simple, Tail, Words};
pub use words::{Form, Param, Part, Word};
