//! The machines of a graph's nodes, and their networks.
ghost use Rattle.std.specs.Prelude.{◌≡◌, ◌<◌, ◌≤◌, ◌^◌, ℕ, true, false, length, IfOk, IfSome};
ghost use Rattle.std.specs.List.{list_all};
ghost use Rattle.fl_graph.specs.Kinds.{has_its_ports, reads_one_input, runs_what_is_built};
ghost use Rattle.fl_graph.specs.Valid.{Valid};
ghost use Rattle.fl_classes.specs.Kinds.{are_run, is_run};
ghost use Rattle.fl_net.specs.Inputs.{input_of, BeginsOver, RunsOver};
ghost use Rattle.fl_net.specs.Plans.{HasRooms, IsNetOf};
ghost use Rattle.fl_net.specs.Starts.{BeginsAs, NodesHave};

use crate::machines::{NodeMachine, node_machine};
use fl_graph::{Graph, Machine, Node};
use fl_net::Net;
use ps_lines::Memory;
use std::alloc::Global;

/// How many pieces the engine lets wait on an edge that is bounded.
pub(crate) const ROOM: u32 = 8;

/// The network of a graph, before anything has moved (`Net::of_graph`). Memory is also the answer where edges and nodes together are too
/// many for numbers of 32 bits.
pub fn net_of(alloc: Global, graph: &Graph, cap: Option<u32>) -> Result<Net<NodeMachine>, Memory>
    requires valid { Valid graph.now.nodes graph.now.status }
    requires kinds { are_run graph.now.nodes ≡ true }
    ensures net { IfOk result (λ net. IsNetOf ⟦<NodeMachine as Machine>⟧.state graph.now.nodes net.ports.items net.machines.items net.wires.items) }
    ensures rooms { IfOk result (λ net. HasRooms graph.now.nodes cap net.rooms.items) }
    ensures few { IfOk result (λ net. length net.machines.items < 2 ^ 32) }
{
    let machines = machines_of(alloc, graph.nodes.as_slice())?;
    Net::of_graph(alloc, graph, machines, cap)
}

/// The network of a graph over the texts of its sources, by node number (`Net::new`): `step` needs no ends then.
pub fn net_over_texts(
    alloc: Global,
    graph: &Graph,
    inputs: Vec<(u32, Vec<u8>)>,
    cap: Option<u32>,
) -> Result<Net<NodeMachine>, Memory>
    requires valid { Valid graph.now.nodes graph.now.status }
    requires kinds { are_run graph.now.nodes ≡ true }
    requires some { IfSome cap (λ room. 1 ≤ room) }
    ensures begins { IfOk result (λ net. BeginsOver ⟦<NodeMachine as Machine>⟧.state graph.now.nodes (input_of inputs.items) net.ports.items net.machines.items net.wires.items) }
    ensures runs { IfOk result (λ net. RunsOver ⟦<NodeMachine as Machine>⟧.state graph.now.nodes (input_of inputs.items) 0 (λ _. false) net.ports.items net.machines.items net.wires.items) }
    ensures rooms { IfOk result (λ net. HasRooms graph.now.nodes cap net.rooms.items) }
    ensures few { IfOk result (λ net. length net.machines.items < 2 ^ 32) }
{
    let machines = machines_of(alloc, graph.nodes.as_slice())?;
    Net::new(alloc, graph, machines, inputs, cap)
}

/// The machines of all nodes, at their beginning.
fn machines_of(alloc: Global, nodes: &[Node]) -> Result<Vec<NodeMachine>, Memory>
    requires ports { list_all has_its_ports nodes.now ≡ true }
    requires inputs { list_all (λ cell. reads_one_input cell.kind) nodes.now ≡ true }
    requires built { list_all (λ cell. runs_what_is_built cell.kind) nodes.now ≡ true }
    requires kinds { are_run nodes.now ≡ true }
    ensures all { IfOk result (λ machines. length machines.items ≡ length nodes.now) }
    ensures each { IfOk result (λ machines. NodesHave (λ node cell machine. BeginsAs (⟦<NodeMachine as Machine>⟧.state machine) cell) nodes.now machines.items) }
{
    let mut machines = Vec::new(alloc);
    for node in 0..nodes.len() {
        machines.push(machine_of(alloc, &nodes[node])?)?;
    }
    Ok(machines)
}

/// The machine of a node, at its beginning.
pub fn machine_of(alloc: Global, node: &Node) -> Result<NodeMachine, Memory>
    requires ports { has_its_ports node.now ≡ true }
    requires inputs { reads_one_input node.now.kind ≡ true }
    requires built { runs_what_is_built node.now.kind ≡ true }
    requires kind { is_run node.now.kind ≡ true }
    ensures { IfOk result (λ machine. BeginsAs (⟦<NodeMachine as Machine>⟧.state machine) node.now) }
{
    let ins = port_count(node.ins.as_slice())?;
    let outs = port_count(node.outs.as_slice())?;
    node_machine(alloc, &node.kind, ins, outs)
}

/// The number of a node's edges on one side.
fn port_count(edges: &[u32]) -> Result<u32, Memory>
    ensures { IfOk result (λ count. count ≡ length edges.now) }
{
    if edges.len() > u32::MAX as usize {
        return Err(Memory);
    }
    Ok(edges.len() as u32)
}
