//! What the pieces on a graph's edges carry, in laws: each is the contract of a function that does nothing.
#![tactic(auto, using(crate::proofs::LawLemmas::net_laws))]

ghost use Rattle.std.specs.Prelude.{◌≡◌, ◌<◌, ◌≤◌, ℕ, Bool, List, Option, length, map, slice_get, IfSome, Some, true, false};
ghost use Rattle.std.specs.List.{flat_map, sum_by};
ghost use Rattle.fl_graph.specs.Net.{gives};
ghost use Rattle.fl_graph.specs.declared.graphs.Cell.{Cell};
ghost use Rattle.fl_graph.specs.Machines.{State};
ghost use Rattle.fl_graph.specs.Runs.{text_of, Run, Stopped};
ghost use Rattle.fl_graph.specs.Valid.{Valid};
ghost use Rattle.fl_graph.specs.declared.kinds.NodeKind.{NodeKind};
ghost use Rattle.fl_graph.specs.declared.pieces.Piece.{Piece};
ghost use Rattle.fl_classes.specs.Flow.{flow, is_source, only, writes, writes_of, selections, selects};
ghost use Rattle.fl_classes.specs.Nodes.{Begins};
ghost use Rattle.fl_net.specs.Inputs.{RunsOver};
ghost use Rattle.fl_classes.specs.Kinds.{is_writer};
ghost use Rattle.fl_net.specs.Carried.{CarriedText, CarriesFlow, CarriesText};
ghost use Rattle.fl_net.specs.Laws.{given, Carries, NetKeeps, NetRan, NodeRan};
ghost use Rattle.fl_net.specs.Moves.{edges_of, moves_over, most_moves, most_over_edges};
ghost use Rattle.fl_net.specs.Plans.{outer_edge, AreTold, HasRooms, IsPlanOf};
ghost use Rattle.fl_net.specs.Runs.{Goes};
ghost use Rattle.fl_net.specs.Steps.{waiting_on};
ghost use Rattle.fl_net.specs.Stuck.{IsStill, IsStuck};

use crate::nets::Net;
use fl_graph::{Act, Graph, Machine};

/// Where what each node of a valid graph took and put meets its equation, each edge carries its flow: what was put on it, or taken from
/// it, is a front of the flow's text, and all of it once the end is there.
///
/// `taken` and `put` are the pieces of each edge in order. A node that is broken puts its brokenness, which carries no text: then the
/// front is all that is said.
pub fn edges_carry_the_flow(graph: &Graph)
    requires { Valid graph.now.nodes graph.now.status }
    ensures { (sources : List (List ℕ)) (taken put : ℕ → List Piece) → NetKeeps sources graph.now.nodes taken put →
        (edge : ℕ) → edge < length (gives graph.now.nodes) → CarriesText (flow graph.now.nodes sources edge) (taken edge) (put edge) }
{}

/// Where each node of a valid graph has run to its stop, in whatever order the nodes did, and what was given on each edge is what was taken
/// from it: each edge carries a front of its flow, and all of it where no Broken stands on it; and none stands on any edge where no node has
/// failed.
pub fn net_ran(graph: &Graph)
    requires { Valid graph.now.nodes graph.now.status }
    ensures { (sources : List (List ℕ)) (pieces : ℕ → List Piece) (failed : ℕ → Bool) → NetRan sources graph.now.nodes pieces failed →
        (edge : ℕ) → edge < length (gives graph.now.nodes) → CarriedText (flow graph.now.nodes sources edge) (pieces edge) failed }
{}

/// A node that is no source, whose machine has run from its beginning to its stop, ran as `NetRan` asks of each node: what it put is of its
/// equation on what it took, each of its outs was closed, and a Broken was put only where one was taken or the node has failed.
pub fn a_node_that_has_stopped_ran()
    ensures { (sources : List (List ℕ)) (number : ℕ) (node : NodeKind) (ins outs : ℕ) (start now : State) (taken put : ℕ → List Piece) (failed : Bool) →
        is_source node ≡ false → Begins node ins outs start → Run start now taken put failed → Stopped start now taken put →
        NodeRan (given sources (number, node) ins outs) outs taken put failed }
{}

/// What a valid graph leaves is said of its flow: each node writes, and tells whether it selects, what its kind does with the texts of
/// its ins, in the order of the nodes.
pub fn what_a_graph_leaves_is_of_the_flow(graph: &Graph)
    requires { Valid graph.now.nodes graph.now.status }
    ensures writes { (sources : List (List ℕ)) → writes graph.now.nodes sources ≡
        flat_map (λ cell. writes_of cell.kind (map (flow graph.now.nodes sources) cell.ins)) graph.now.nodes }
    ensures selections { (sources : List (List ℕ)) → selections graph.now.nodes sources ≡
        map (λ cell. selects cell.kind (map (flow graph.now.nodes sources) cell.ins)) graph.now.nodes }
{}

/// In a network over texts that are there from the beginning, what waits for the outside behind a node that writes is of the flow at any
/// time: a front of its text, all of it where its end waits too, and all of it once each machine has stopped, where none has failed.
pub fn what_waits_for_the_outside_is_of_the_flow<M: Machine>(graph: &Graph, net: &Net<M>)
    requires { Valid graph.now.nodes graph.now.status }
    ensures carries { (inputs : ℕ → List ℕ) (moves : ℕ) (failed : ℕ → Bool) → RunsOver M.state graph.now.nodes inputs moves failed net.now.ports.items net.now.machines.items net.now.wires.items →
        (sources : List (List ℕ)) → AreTold sources graph.now.nodes (λ node. Some (inputs node)) →
        (node : ℕ) (cell : Cell NodeKind) → slice_get graph.now.nodes node ≡ Some cell → is_writer cell.kind ≡ true →
        Carries (waiting_on net.now.wires.items (outer_edge graph.now.nodes node)) (only (map (flow graph.now.nodes sources) cell.ins)) }
    ensures whole { (inputs : ℕ → List ℕ) (moves : ℕ) (failed : ℕ → Bool) → RunsOver M.state graph.now.nodes inputs moves failed net.now.ports.items net.now.machines.items net.now.wires.items →
        ((number : ℕ) → failed number ≡ false) →
        ((number : ℕ) (machine : M) → slice_get net.now.machines.items number ≡ Some machine → ((port : ℕ) → (M.state machine).takes port ≡ false) × ((port : ℕ) → (M.state machine).puts port ≡ false)) →
        (sources : List (List ℕ)) → AreTold sources graph.now.nodes (λ node. Some (inputs node)) →
        (node : ℕ) (cell : Cell NodeKind) → slice_get graph.now.nodes node ≡ Some cell → is_writer cell.kind ≡ true →
        only (map (flow graph.now.nodes sources) cell.ins) ≡ text_of (waiting_on net.now.wires.items (outer_edge graph.now.nodes node)) }
{}

/// In a network over texts, in whatever order its nodes had their turns: what was put on an edge carries a front of the edge's flow, and all of
/// it where an end was put; nothing was put behind an end or a Broken; and what was put and not taken waits. Where no node has failed and each
/// machine has stopped, each node has taken all of the flow of its ins.
pub fn what_was_put_on_an_edge_is_of_its_flow<M: Machine>(graph: &Graph, net: &Net<M>)
    requires { Valid graph.now.nodes graph.now.status }
    ensures carries { (inputs : ℕ → List ℕ) (moves : ℕ) (failed : ℕ → Bool)
        (runs : RunsOver M.state graph.now.nodes inputs moves failed net.now.ports.items net.now.machines.items net.now.wires.items) →
        CarriesFlow graph.now.nodes inputs runs.goes.reached.took runs.goes.reached.put (waiting_on net.now.wires.items) }
    ensures whole { (inputs : ℕ → List ℕ) (moves : ℕ) (failed : ℕ → Bool)
        (runs : RunsOver M.state graph.now.nodes inputs moves failed net.now.ports.items net.now.machines.items net.now.wires.items) →
        (sources : List (List ℕ)) → AreTold sources graph.now.nodes (λ node. Some (inputs node)) →
        ((number : ℕ) → failed number ≡ false) →
        ((number : ℕ) (machine : M) → slice_get net.now.machines.items number ≡ Some machine → ((port : ℕ) → (M.state machine).takes port ≡ false) × ((port : ℕ) → (M.state machine).puts port ≡ false)) →
        (node : ℕ) (cell : Cell NodeKind) → slice_get graph.now.nodes node ≡ Some cell → is_source cell.kind ≡ false →
        (port edge : ℕ) → slice_get cell.ins port ≡ Some edge → flow graph.now.nodes sources edge ≡ text_of (runs.goes.reached.took edge) }
{}

/// A network of a valid graph is never stuck, in whatever order its nodes had their turns: where no node can move a piece, and none starves for what
/// it could read from outside, each machine has stopped. Edges into nodes of many ins have no bound, and the others room for one piece or more.
pub fn a_network_is_never_stuck<M: Machine>(graph: &Graph, net: &Net<M>)
    requires { Valid graph.now.nodes graph.now.status }
    ensures { (left taken : ℕ → Option (List ℕ)) (goes : Goes M.state net.now.ports.items net.now.machines.items net.now.wires.items left taken) →
        IsPlanOf graph.now.nodes goes.plan →
        length net.now.ports.items ≡ length graph.now.nodes → length net.now.machines.items ≡ length graph.now.nodes →
        (cap : Option ℕ) → HasRooms graph.now.nodes cap net.now.rooms.items → IfSome cap (λ room. 1 ≤ room) →
        IsStuck M.state net.now.ports.items net.now.machines.items net.now.rooms.items net.now.wires.items →
        (node : ℕ) (machine : M) → slice_get net.now.machines.items node ≡ Some machine → (M.state machine).act ≡ Act.Stop }
{}

/// A network over texts that are there from the beginning is never stuck, whatever steps it has made: where no node's step moves a piece, each
/// machine has stopped.
pub fn a_network_over_texts_is_never_stuck<M: Machine>(graph: &Graph, net: &Net<M>)
    requires { Valid graph.now.nodes graph.now.status }
    ensures { (inputs : ℕ → List ℕ) (moves : ℕ) (failed : ℕ → Bool) → RunsOver M.state graph.now.nodes inputs moves failed net.now.ports.items net.now.machines.items net.now.wires.items →
        length net.now.ports.items ≡ length graph.now.nodes →
        (cap : Option ℕ) → HasRooms graph.now.nodes cap net.now.rooms.items → IfSome cap (λ room. 1 ≤ room) →
        IsStill M.state net.now.ports.items net.now.machines.items net.now.rooms.items net.now.wires.items →
        (node : ℕ) (machine : M) → slice_get net.now.machines.items node ≡ Some machine → (M.state machine).act ≡ Act.Stop }
{}

/// A run over texts that are there from the beginning makes few moves, in whatever order its nodes have their turns: over an edge go no more
/// pieces than its flow has bytes, and an end. Each is put by one step and taken by another, so what is put on the graph's edges and taken from
/// them is at most twice that; a source with a sink behind it moves two pieces over the empty text. Those that came from outside are only taken,
/// and those for the outside only put.
pub fn a_run_makes_few_moves<M: Machine>(graph: &Graph, net: &Net<M>)
    requires { Valid graph.now.nodes graph.now.status }
    ensures all { (inputs : ℕ → List ℕ) (moves : ℕ) (failed : ℕ → Bool) → RunsOver M.state graph.now.nodes inputs moves failed net.now.ports.items net.now.machines.items net.now.wires.items →
        (sources : List (List ℕ)) → AreTold sources graph.now.nodes (λ node. Some (inputs node)) →
        moves ≤ most_moves graph.now.nodes sources }
    ensures edges { (inputs : ℕ → List ℕ) (moves : ℕ) (failed : ℕ → Bool)
        (runs : RunsOver M.state graph.now.nodes inputs moves failed net.now.ports.items net.now.machines.items net.now.wires.items) →
        (sources : List (List ℕ)) → AreTold sources graph.now.nodes (λ node. Some (inputs node)) →
        sum_by (moves_over runs.goes.reached.took runs.goes.reached.put) (edges_of graph.now.nodes) ≤ most_over_edges graph.now.nodes sources }
{}
