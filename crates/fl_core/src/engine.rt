//! The engine of one thread.
ghost use Rattle.std.specs.Prelude.{◌≡◌, ◌<◌, ◌≤◌, ℕ, List, true, length, slice_get, Some, IfOk};
ghost use Rattle.ps_world.specs.Counts.{Rose};
ghost use Rattle.fl_graph.specs.declared.graphs.Cell.{Cell};
ghost use Rattle.fl_graph.specs.Valid.{Valid};
ghost use Rattle.fl_graph.specs.declared.kinds.NodeKind.{NodeKind};
ghost use Rattle.fl_graph.specs.declared.pieces.TheConstants.{MAX_PIECE};
ghost use Rattle.fl_classes.specs.Flow.{is_source, outcome};
ghost use Rattle.fl_core.specs.Endings.{OnDone};
ghost use Rattle.fl_net.specs.Ends.{HasRead, HasWritten, HasWrittenFronts};
ghost use Rattle.fl_classes.specs.Kinds.{are_run, is_writer};
ghost use Rattle.fl_net.specs.Plans.{AreTold};

use crate::graph_nets::{ROOM, net_of};
use fl_graph::{Graph, MAX_PIECE};
use fl_net::{Halt, NodeEnds};
use ps_lines::Memory;
use std::alloc::Global;

/// What came of a run.
#[derive(Clone, Copy, Debug, PartialEq, Eq)]
pub enum Ending {
    /// The graph has run to its end, with this exit status.
    Done(u8),
    /// The end of this node failed.
    Fault(u32),
    /// Memory was refused.
    Memory,
}

/// Runs a graph to its end on this thread, its nodes in turn.
///
/// Done comes where each node has stopped: the end of each that writes has grown by its text of the graph's flow, each source's end is read
/// to its end, and the status is the graph's. A node's end that fails ends the run at once, so no other has failed then. After a fault and after
/// Memory the end of each node that writes has grown by a front of its text. A graph of 2^32 nodes or more wants memory.
pub fn run_over_ends<E: NodeEnds>(alloc: Global, graph: &Graph, ends: &mut E) -> Ending
    requires valid { Valid graph.now.nodes graph.now.status }
    requires kinds { are_run graph.now.nodes ≡ true }
    requires reads { (node : ℕ) (cell : Cell NodeKind) → slice_get graph.now.nodes node ≡ Some cell → is_source cell.kind ≡ true → E.reads ends.old node ≡ true }
    requires writes { (node : ℕ) (cell : Cell NodeKind) → slice_get graph.now.nodes node ≡ Some cell → is_writer cell.kind ≡ true → E.writes ends.old node ≡ true }
    ensures written { OnDone result (λ _. HasWritten graph.now.nodes (E.left ends.old) (E.taken ends.old) (E.taken ends.new)) }
    ensures read { OnDone result (λ _. HasRead graph.now.nodes (E.left ends.old) (E.left ends.new)) }
    ensures status { OnDone result (λ status. (sources : List (List ℕ)) → AreTold sources graph.now.nodes (E.left ends.old) →
        status ≡ (outcome graph.now sources).status) }
    ensures front { HasWrittenFronts graph.now.nodes (E.left ends.old) (E.taken ends.old) (E.taken ends.new) }
    ensures fault { (node : ℕ) → result ≡ Ending.Fault node → Rose (E.faults ends.old node) (E.faults ends.new node) }
    ensures others { (node : ℕ) → (result ≡ Ending.Fault node → ⊥) → E.faults ends.new node ≡ E.faults ends.old node }
    ensures later { (node : ℕ) → E.faults ends.old node ≤ E.faults ends.new node }
    ensures borrows { E.borrows ends.new ≡ E.borrows ends.old }
{
    // A node's number has 32 bits.
    if graph.nodes.len() > u32::MAX as usize {
        return Ending::Memory;
    }
    let mut net = match net_of(alloc, graph, Some(ROOM)) {
        Ok(net) => net,
        Err(_refused) => return Ending::Memory,
    };
    let mut buffer = match piece_buffer(alloc) {
        Ok(buffer) => buffer,
        Err(_refused) => return Ending::Memory,
    };
    match net.run(alloc, ends, buffer.as_mut_slice()) {
        // A valid graph is never stuck: where no piece moves any more, each machine has stopped.
        Ok(()) => Ending::Done(net.status(&graph.status)),
        Err(Halt::Fault(node)) => Ending::Fault(node),
        Err(Halt::Memory) => Ending::Memory,
    }
}

/// Room for one piece.
fn piece_buffer(alloc: Global) -> Result<Vec<u8>, Memory>
    ensures { IfOk result (λ buffer. (0 < length buffer.items) × (length buffer.items ≤ MAX_PIECE)) }
{
    Ok(vec![in alloc; 0; MAX_PIECE]?)
}
