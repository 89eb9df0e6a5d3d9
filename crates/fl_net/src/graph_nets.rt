//! Networks of graphs.
ghost use Rattle.std.specs.Prelude.{◌≡◌, ◌<◌, ◌+◌, ◌^◌, ◌∷◌, [], ℕ, if◌then◌else◌, length, None, IfOk};
ghost use Rattle.fl_graph.specs.Net.{gives};
ghost use Rattle.fl_graph.specs.Valid.{Valid};
ghost use Rattle.fl_classes.specs.Flow.{is_source as is_source_def};
ghost use Rattle.fl_classes.specs.Kinds.{is_writer as is_writer_def};
ghost use Rattle.fl_net.specs.Plans.{HasRooms, IsNetOf, is_sole, room_of};
ghost use Rattle.fl_net.specs.Starts.{BeginsAs, HasPorts, NodesHave};
ghost use Rattle.fl_net.specs.Steps.{room_on, waiting_on};

use crate::nets::{Net, Ports};
use crate::wires::Wire;
use fl_graph::{Graph, Machine, Node, NodeKind};
use ps_lines::Memory;
use std::alloc::Global;

impl<M: Machine> Net<M> {
    /// The network of a graph over the machines of its nodes, before anything has moved.
    ///
    /// An edge that leads into a node of one in has room for `cap` pieces, and no other has a bound: a node of many ins reads them in an order
    /// of its own, so what comes at a later one may not hold up its giver, on which an earlier one may wait; and what goes to the outside is
    /// held up by no node. On Memory nothing is left; it is also the answer where edges and nodes together are too many for numbers of 32 bits.
    pub fn of_graph(
        alloc: Global,
        graph: &Graph,
        machines: Vec<M>,
        cap: Option<u32>,
    ) -> Result<Net<M>, Memory>
        requires valid { Valid graph.now.nodes graph.now.status }
        requires all { length machines.items ≡ length graph.now.nodes }
        requires each { NodesHave (λ node cell machine. BeginsAs (M.state machine) cell) graph.now.nodes machines.items }
        ensures net { IfOk result (λ net. IsNetOf M.state graph.now.nodes net.ports.items net.machines.items net.wires.items) }
        ensures rooms { IfOk result (λ net. HasRooms graph.now.nodes cap net.rooms.items) }
        ensures few { IfOk result (λ net. length net.machines.items < 2 ^ 32) }
    {
        let nodes = graph.nodes.as_slice();
        let edges = edge_count(nodes)?;
        let count = wire_count(nodes, edges)?;
        let ports = ports_of(alloc, nodes, edges)?;
        let wires = wires_of(alloc, count)?;
        let rooms = rooms_of(alloc, nodes, edges, cap)?;
        Ok(Net {
            ports,
            machines,
            wires,
            rooms,
        })
    }
}

/// The number of edges, which is that of outs.
pub fn edge_count(nodes: &[Node]) -> Result<usize, Memory>
    ensures { IfOk result (λ count. count ≡ length (gives nodes.now)) }
{
    let mut count: usize = 0;
    for node in nodes {
        count = count.checked_add(node.outs.len()).ok_or(Memory)?;
    }
    Ok(count)
}

/// The number of wires: one for each edge, and one for each node that may have an edge to the outside. Each has a number of 32 bits.
fn wire_count(nodes: &[Node], edges: usize) -> Result<usize, Memory>
    ensures sum { IfOk result (λ count. count ≡ edges + length nodes.now) }
    ensures few { IfOk result (λ count. count < 2 ^ 32) }
{
    match edges.checked_add(nodes.len()) {
        Some(count) if count <= u32::MAX as usize => Ok(count),
        _ => Err(Memory),
    }
}

/// The ports of all nodes.
fn ports_of(alloc: Global, nodes: &[Node], edges: usize) -> Result<Vec<Ports>, Memory>
    requires counted { edges ≡ length (gives nodes.now) }
    requires few { edges + length nodes.now < 2 ^ 32 }
    ensures all { IfOk result (λ ports. length ports.items ≡ length nodes.now) }
    ensures each { IfOk result (λ ports. NodesHave (HasPorts nodes.now) nodes.now ports.items) }
{
    let mut ports = Vec::new(alloc);
    for node in 0..nodes.len() {
        ports.push(ports_of_node(alloc, &nodes[node], (edges + node) as u32)?)?;
    }
    Ok(ports)
}

/// The ports of a node, whose edge from outside or to the outside is this one where it is an end.
fn ports_of_node(alloc: Global, node: &Node, outer: u32) -> Result<Ports, Memory>
    ensures ins { IfOk result (λ own. own.ins.items ≡ (if is_source_def node.now.kind then outer ∷ [] else node.now.ins)) }
    ensures outs { IfOk result (λ own. own.outs.items ≡ (if is_writer_def node.now.kind then outer ∷ node.now.outs else node.now.outs)) }
    ensures reads { IfOk result (λ own. own.reads ≡ is_source_def node.now.kind) }
    ensures writes { IfOk result (λ own. own.writes ≡ is_writer_def node.now.kind) }
{
    let reads = is_source(&node.kind);
    let writes = is_writer(&node.kind);
    let ins = ins_of(alloc, reads, node.ins.as_slice(), outer)?;
    let outs = outs_of(alloc, writes, node.outs.as_slice(), outer)?;
    Ok(Ports {
        ins,
        outs,
        reads,
        writes,
    })
}

/// The edges that lead to a node: from outside its outer edge, and else its own.
fn ins_of(alloc: Global, reads: bool, own: &[u32], outer: u32) -> Result<Vec<u32>, Memory>
    ensures { IfOk result (λ edges. edges.items ≡ (if reads then outer ∷ [] else own.now)) }
{
    if reads {
        Ok(Vec::from_slice(alloc, &[outer])?)
    } else {
        Ok(Vec::from_slice(alloc, own)?)
    }
}

/// The edges that lead from a node: where it writes, its outer edge and then its own.
fn outs_of(alloc: Global, writes: bool, own: &[u32], outer: u32) -> Result<Vec<u32>, Memory>
    ensures { IfOk result (λ edges. edges.items ≡ (if writes then outer ∷ own.now else own.now)) }
{
    if !writes {
        return Ok(Vec::from_slice(alloc, own)?);
    }
    let mut edges = Vec::from_slice(alloc, &[outer])?;
    edges.extend_from_slice(own)?;
    Ok(edges)
}

/// Whether the node is a source.
pub(crate) fn is_source(kind: &NodeKind) -> bool
    ensures { result ≡ is_source_def kind.now }
{
    matches!(kind, NodeKind::Source(_))
}

/// Whether the node writes to the outside.
fn is_writer(kind: &NodeKind) -> bool
    ensures { result ≡ is_writer_def kind.now }
{
    matches!(kind, NodeKind::Sink(_) | NodeKind::TeeFile(..))
}

/// So many wires on which nothing waits.
fn wires_of(alloc: Global, count: usize) -> Result<Vec<Wire>, Memory>
    ensures all { IfOk result (λ wires. length wires.items ≡ count) }
    ensures none { IfOk result (λ wires. (edge : ℕ) → waiting_on wires.items edge ≡ []) }
{
    let mut wires = Vec::new(alloc);
    for _ in 0..count {
        wires.push(Wire::new(alloc))?;
    }
    Ok(wires)
}

/// The rooms on the edges of a graph, of which there are so many.
pub fn rooms_of(
    alloc: Global,
    nodes: &[Node],
    edges: usize,
    cap: Option<u32>,
) -> Result<Vec<Option<u32>>, Memory>
    ensures all { IfOk result (λ rooms. length rooms.items ≡ edges) }
    ensures each { IfOk result (λ rooms. (edge : ℕ) → edge < edges → room_on rooms.items edge ≡ room_of nodes.now cap edge) }
{
    let mut rooms = unbounded(alloc, edges)?;
    for node in nodes {
        bound_sole(rooms.as_mut_slice(), node.ins.as_slice(), cap);
    }
    Ok(rooms)
}

/// So many rooms without a bound.
fn unbounded(alloc: Global, edges: usize) -> Result<Vec<Option<u32>>, Memory>
    ensures all { IfOk result (λ rooms. length rooms.items ≡ edges) }
    ensures each { IfOk result (λ rooms. (edge : ℕ) → room_on rooms.items edge ≡ None) }
{
    let mut rooms = Vec::new(alloc);
    for _ in 0..edges {
        rooms.push(None)?;
    }
    Ok(rooms)
}

/// Gives the edge of a node of one in its room.
fn bound_sole(rooms: &mut [Option<u32>], ins: &[u32], cap: Option<u32>)
    ensures all { length rooms.new ≡ length rooms.old }
    ensures each { (edge : ℕ) → edge < length rooms.old → room_on rooms.new edge ≡ (if is_sole edge ins.now then cap else room_on rooms.old edge) }
{
    if let [edge] = ins {
        if (*edge as usize) < rooms.len() {
            rooms[*edge as usize] = cap;
        }
    }
}
