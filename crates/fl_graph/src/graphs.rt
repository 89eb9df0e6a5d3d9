//! Graphs.

use crate::kinds::NodeKind;
use crate::seqs::Seq;

/// A dataflow graph: its nodes, numbered from 0 in their order, and how its exit status comes about.
///
/// The edges are numbered from 0 too. `validate` tells whether a graph is valid.
#[derive(Debug, Drop)]
pub struct Graph {
    pub nodes: Seq<Node>,
    pub status: StatusRule,
}

/// A node of a graph.
pub type Node = Cell<NodeKind>;

/// A node over what it does. Definitions number the sources beside it, or leave it open.
#[derive(Debug, Drop)]
pub struct Cell<Kind> {
    /// What it does.
    pub kind: Kind,
    /// The numbers of the edges that lead to it, in the order in which it reads them.
    pub ins: Seq<u32>,
    /// The numbers of the edges that lead from it, in order.
    pub outs: Seq<u32>,
    /// The number of the stage that it belongs to, counted from 0 in the pipeline.
    pub stage: u32,
}

/// How a graph's exit status comes about.
#[derive(Debug, Drop)]
pub enum StatusRule {
    /// It is this one.
    Fixed(u8),
    /// It is `some` where one of the named nodes, by number, has selected a line, and else `none` (XCU grep, EXIT STATUS).
    Selected { nodes: Seq<u32>, some: u8, none: u8 },
}
