//! Networks over texts that are there from the beginning.
ghost use Rattle.std.specs.Prelude.{◌≡◌, ◌<◌, ◌≤◌, ◌+◌, ◌^◌, [], ℕ, true, false, length, IfOk, IfSome, OnOk};
ghost use Rattle.fl_graph.specs.Net.{gives};
ghost use Rattle.fl_graph.specs.Valid.{Valid};
ghost use Rattle.fl_classes.specs.Flow.{is_source as is_source_def};
ghost use Rattle.fl_net.specs.Inputs.{input_of as input_of_def, AreWhole, BeginsOver, IsLoaded, RunsOver};
ghost use Rattle.fl_net.specs.Plans.{HasRooms};
ghost use Rattle.fl_net.specs.Starts.{BeginsAs, NodesHave};
ghost use Rattle.fl_net.specs.Steps.{waiting_on};

use crate::graph_nets::{edge_count, is_source};
use crate::nets::Net;
use crate::wires::Wire;
use fl_graph::{Graph, Machine, Node, NodeKind, Piece, first_piece};
use ps_lines::Memory;
use std::alloc::Global;

impl<M: Machine> Net<M> {
    /// The network of a graph over the machines of its nodes and the texts of its sources, by node number: the first of a number counts, and a
    /// source that has none reads the empty text.
    ///
    /// Each text waits on its source's edge from outside, in pieces, and its end behind it; what the nodes that write give will wait on
    /// theirs. So `step` needs no ends. An edge that leads into a node of one in has room for `cap` pieces, and no other has a bound.
    pub fn new(
        alloc: Global,
        graph: &Graph,
        machines: Vec<M>,
        inputs: Vec<(u32, Vec<u8>)>,
        cap: Option<u32>,
    ) -> Result<Net<M>, Memory>
        requires valid { Valid graph.now.nodes graph.now.status }
        requires all { length machines.items ≡ length graph.now.nodes }
        requires each { NodesHave (λ node cell machine. BeginsAs (M.state machine) cell) graph.now.nodes machines.items }
        requires some { IfSome cap (λ room. 1 ≤ room) }
        ensures begins { IfOk result (λ net. BeginsOver M.state graph.now.nodes (input_of_def inputs.items) net.ports.items net.machines.items net.wires.items) }
        ensures runs { IfOk result (λ net. RunsOver M.state graph.now.nodes (input_of_def inputs.items) 0 (λ _. false) net.ports.items net.machines.items net.wires.items) }
        ensures rooms { IfOk result (λ net. HasRooms graph.now.nodes cap net.rooms.items) }
        ensures few { IfOk result (λ net. length net.machines.items < 2 ^ 32) }
    {
        let mut net = Net::of_graph(alloc, graph, machines, cap)?;
        let nodes = graph.nodes.as_slice();
        let edges = edge_count(nodes)?;
        let wires = net.wires.as_mut_slice();
        load(alloc, wires, nodes, edges, inputs.as_slice())?;
        Ok(net)
    }
}

/// Puts the sources' texts on their edges from outside, which are numbered behind the graph's own, of which there are so many.
fn load(
    alloc: Global,
    wires: &mut [Wire],
    nodes: &[Node],
    edges: usize,
    inputs: &[(u32, Vec<u8>)],
) -> Result<(), Memory>
    requires counted { edges ≡ length (gives nodes.now) }
    requires wired { length wires.old ≡ edges + length nodes.now }
    requires few { length nodes.now < 2 ^ 32 }
    requires none { (edge : ℕ) → waiting_on wires.old edge ≡ [] }
    ensures width { length wires.new ≡ length wires.old }
    ensures loaded { OnOk result (IsLoaded nodes.now (input_of_def inputs.now) wires.new) }
{
    for node in 0..nodes.len() {
        let text = input_of(inputs, node as u32);
        load_node(alloc, &mut wires[edges + node], &nodes[node].kind, text)?;
    }
    Ok(())
}

/// Puts a node's text on its edge from outside, where it is a source.
fn load_node(alloc: Global, wire: &mut Wire, kind: &NodeKind, text: &[u8]) -> Result<(), Memory>
    requires empty { wire.old ≡ [] }
    ensures source { OnOk result (is_source_def kind.now ≡ true → AreWhole wire.new text.now) }
    ensures other { is_source_def kind.now ≡ false → wire.new ≡ wire.old }
{
    if is_source(kind) {
        fill(alloc, wire, text)
    } else {
        Ok(())
    }
}

/// Puts a text on an edge on which nothing waits, in pieces, and its end behind it.
fn fill(alloc: Global, wire: &mut Wire, text: &[u8]) -> Result<(), Memory>
    requires empty { wire.old ≡ [] }
    ensures { OnOk result (AreWhole wire.new text.now) }
{
    let mut left = text;
    while !left.is_empty() {
        let bytes = first_piece(alloc, left)?;
        left = &left[bytes.as_slice().len()..];
        wire.push(Piece::Bytes(bytes))?;
    }
    wire.push(Piece::End)
}

/// The text of a node among texts by node number: the first of that number, and where there is none the empty text.
fn input_of(inputs: &[(u32, Vec<u8>)], node: u32) -> &[u8]
    ensures { result.now ≡ input_of_def inputs.now node }
{
    for (other, text) in inputs {
        if *other == node {
            return text.as_slice();
        }
    }
    &[]
}
