//! What texts of graphs are, in laws: each is the contract of a function that does nothing.
ghost use Rattle.std.specs.Prelude.{◌≡◌, ℕ, List, false, true, Some, IsUtf8};
ghost use Rattle.fl_graph.specs.declared.graphs.Graph.{Graph as Graphs};
ghost use Rattle.fl_text.specs.Readings.{IsReadAs, Reading, reading};
ghost use Rattle.fl_text.specs.Texts.{has_other_version, IsGraph, IsGraphText, IsNoGraph, IsNoJson, IsOfOtherVersion};
ghost use Rattle.fl_text.specs.Values.{graph_value, is_held};

/// A text is that of one graph at most.
#[tactic(auto, using(crate::proofs::GraphLemmas::one_graph))]
pub fn a_text_is_of_one_graph()
    ensures { (text : List ℕ) (one other : Graphs) → IsGraph one → IsGraph other → IsGraphText text one → IsGraphText text other → one ≡ other }
{}

/// The text of a valid graph that the code can hold has none of the three faults. So `read` gives the graph, or wants memory.
#[tactic(auto, using(crate::proofs::GraphLemmas::no_fault))]
pub fn a_graph_text_has_no_fault()
    ensures json { (text : List ℕ) (graph : Graphs) → IsGraphText text graph → IsNoJson text → ⊥ }
    ensures version { (text : List ℕ) (graph : Graphs) → IsGraphText text graph → IsOfOtherVersion text → ⊥ }
    ensures graph { (text : List ℕ) (graph : Graphs) → IsGraph graph → IsGraphText text graph → IsNoGraph text → ⊥ }
{}

/// A text has one of the three faults at most. So each is told exactly where it holds, or memory is wanted.
#[tactic(auto, using(crate::proofs::GraphLemmas::one_fault))]
pub fn a_text_has_one_fault_at_most()
    ensures version { (text : List ℕ) → IsNoJson text → IsOfOtherVersion text → ⊥ }
    ensures graph { (text : List ℕ) → IsNoJson text → IsNoGraph text → ⊥ }
    ensures both { (text : List ℕ) → IsOfOtherVersion text → IsNoGraph text → ⊥ }
{}

/// Each text has one reading: it is a graph's, or has one of the three faults.
#[tactic(auto, using(crate::proofs::ReadingLemmas::reading_is, crate::proofs::ReadingLemmas::one_reading))]
pub fn a_text_has_one_reading()
    ensures is { (text : List ℕ) → IsReadAs text (reading text) }
    ensures only { (text : List ℕ) (one other : Reading) → IsReadAs text one → IsReadAs text other → one ≡ other }
{}
