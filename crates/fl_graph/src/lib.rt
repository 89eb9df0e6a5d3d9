//! Dataflow graphs: their nodes and edges, when a graph is valid, and what a node's machine is.
//!
//! A graph's nodes stand in an order in which each edge leads to a later node. Edges have numbers; a node has its ins and its outs
//! as lists of them. What comes along an edge is a text, in pieces, and an end.
//!
//! `specs/Net.antt` has a fold over any network of nodes, of which validity and later the flow are instances, `specs/Valid.antt`
//! the conditions of validity, and `specs/Runs.antt` what a node's machine has put and taken.
#![tactic(auto)]

mod edges;
mod graphs;
mod kinds;
pub mod laws;
mod machines;
mod makers;
mod paths;
mod pieces;
mod ports;
mod runs;
mod seqs;
mod status;
mod validity;

pub use graphs::{Cell, Graph, Node, StatusRule};
pub use kinds::{From, NodeKind, To};
pub use machines::Machine;
pub use paths::{path_read, path_written};
pub use pieces::{Act, Bytes, MAX_PIECE, Piece, first_piece};
pub use runs::{break_machine, put_piece, take_piece};
pub use seqs::Seq;
pub use validity::validate;
