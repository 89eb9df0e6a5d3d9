//! Streams between the parts of a graph.
ghost use Rattle.std.specs.Prelude.{◌≡◌};
ghost use Rattle.fl_segments.specs.Inner.Steps.{parts_on as parts_on_def};

use crate::stages::First;
use fl_graph::Seq;

/// A stream on one edge or on several: their texts, joined, are it.
#[derive(Drop)]
pub(crate) struct Parts {
    /// The edges, in order.
    pub(crate) edges: Seq<u32>,
    /// Their texts are known to be a cut list.
    pub(crate) cut: bool,
}

/// What comes to a stage.
#[derive(Drop)]
pub(crate) enum Coming<'from> {
    /// What the segment begins with: the stage is its first.
    Begins(&'from First),
    /// A stream.
    On(Parts),
    /// No stream: the output of the stage before goes elsewhere, and this stage reads none.
    Nothing,
}

/// The stream on these edges.
pub(crate) fn parts_on(edges: Vec<u32>, cut: bool) -> Parts
    ensures { result ≡ parts_on_def edges.items cut }
{
    Parts {
        edges: Seq::from_vec(edges),
        cut,
    }
}
