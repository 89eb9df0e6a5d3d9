//! What a rewrite answers.
use fl_graph::Graph;

/// What a rewrite answers.
#[derive(Debug, Drop)]
pub enum Rewritten {
    /// The new graph.
    Done(Graph),
    /// The graph that was given, to which the rewrite doesn't apply.
    NotApplicable(Graph),
    /// Memory was wanted and refused; the graph is dropped.
    Memory,
}
