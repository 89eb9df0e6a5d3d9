//! Graphs as texts: a graph is printed as JSON, and read from it.
//!
//! `print` gives the compact text of a graph's JSON value, and `read` the graph that a text is, or why it is none. What was printed is read
//! back as the same graph (`laws`). Whether a graph that is read is valid is told by tables in memory, so that reading takes a time linear in
//! the text, but for the files of the graph, which are looked up in an order.
//!
//! `specs/Values.antt` has the JSON value of a graph, over `Names` and `Parts`, and `specs/Texts.antt` what a text of a graph is and what
//! each answer of `read` means.
#![tactic(auto)]

mod checking;
mod fields;
mod files;
mod kinds;
pub mod laws;
mod names;
mod nodes;
mod parts;
mod ports;
mod printing;
mod reading;
mod shown;
mod values;
mod wiring;

pub use names::Name;
pub use parts::Parts;
pub use printing::print;
pub use reading::{TextFault, read};
