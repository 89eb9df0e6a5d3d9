//! A split before a node.
ghost use Rattle.std.specs.Prelude.{◌≡◌, ◌∷◌, [], ◌+◌, ◌^◌, ◌<◌, ◌≤◌, length, map, IfOk, IfSome, OnOk};
ghost use Rattle.std.specs.List.{insert, range_with_len};
ghost use Rattle.fl_graph.specs.Net.{gives};
ghost use Rattle.fl_graph.specs.Valid.{Valid};
ghost use Rattle.fl_rewrites.specs.Keeps.{Answers, KeepsFlow};
ghost use Rattle.fl_rewrites.specs.Places.{replaced};
ghost use Rattle.fl_split.specs.Inserting.{may_be_split as may_be_split_def, may_have_parts as may_have_parts_def, may_take_parts as may_take_parts_def, moved as moved_def, moved_status as moved_status_def, site_of as site_of_def, split_cells, split_graph, turned as turned_def, turned_cell, with_split};

use fl_graph::{Graph, Node, NodeKind, Seq, StatusRule};
use fl_rewrites::{Rewritten, edge_count, number, row, taker_of};
use ps_lines::Memory;
use std::alloc::Global;

/// The most parts of a split.
pub const MAX_PARTS: u32 = 16;

/// Puts a split of an edge's text in so many parts, and a Cat that joins them, before the node that takes the edge.
///
/// It applies where the edge is there, its taker joins no maps (it is no aggregate and no finish), and there are 1 to 16 parts. Its time is
/// linear in the graph. A graph of 2^32 edges or more wants memory.
#[tactic(auto, using(crate::proofs::InsertLemmas::insert_laws))]
pub fn insert_split(alloc: Global, graph: Graph, edge: u32, parts: u32) -> Rewritten
    requires { Valid graph.nodes graph.status }
    ensures answer { Answers (with_split edge parts graph) graph result }
    ensures kept { KeepsFlow graph result }
{
    let Some(place) = site_of(graph.nodes.as_slice(), edge, parts) else {
        return Rewritten::NotApplicable(graph);
    };
    match split(alloc, graph, edge, parts, place) {
        Ok(new) => Rewritten::Done(new),
        Err(_) => Rewritten::Memory,
    }
}

/// The number of the node before which a split of the edge may stand.
fn site_of(nodes: &[Node], edge: u32, parts: u32) -> Option<usize>
    ensures { result ≡ site_of_def edge parts nodes.now }
{
    if !may_have_parts(parts) {
        return None;
    }
    match taker_of(nodes, edge) {
        Some(place) if may_be_split(nodes, place) => Some(place),
        _ => None,
    }
}

/// Whether a split has so many parts.
fn may_have_parts(parts: u32) -> bool
    ensures { result ≡ may_have_parts_def parts }
{
    1 <= parts && parts <= MAX_PARTS
}

/// Whether the node with this number may take parts that are joined.
fn may_be_split(nodes: &[Node], place: usize) -> bool
    ensures { result ≡ may_be_split_def nodes.now place }
{
    match nodes.get(place) {
        Some(node) => may_take_parts(&node.kind),
        None => false,
    }
}

/// Whether this is a node that joins no maps.
fn may_take_parts(kind: &NodeKind) -> bool
    ensures { result ≡ may_take_parts_def kind.now }
{
    match kind {
        NodeKind::Agg(_) | NodeKind::Finish(_) => false,
        _ => true,
    }
}

/// The graph with a split before the node with this number.
fn split(alloc: Global, graph: Graph, edge: u32, parts: u32, place: usize) -> Result<Graph, Memory>
    requires { place < length graph.nodes }
    ensures { IfOk result (λ new. new ≡ split_graph edge parts graph place) }
{
    let Graph { nodes, status } = graph;
    let status = moved_status(alloc, status, place)?;
    let nodes = put_split(alloc, nodes.into_vec(), edge, parts, place)?;
    let nodes = number(alloc, nodes)?;
    Ok(Graph {
        nodes: Seq::from_vec(nodes),
        status,
    })
}

/// The nodes with a split before the one with this number, with edges that no other node has.
#[tactic(auto, using(crate::proofs::InsertLemmas::insert_laws))]
fn put_split(
    alloc: Global,
    nodes: Vec<Node>,
    edge: u32,
    parts: u32,
    place: usize,
) -> Result<Vec<Node>, Memory>
    requires { place < length nodes.items }
    ensures { IfOk result (λ new. new.items ≡ replaced (split_cells (length (gives nodes.items)) edge parts) place nodes.items) }
{
    let mut nodes = nodes;
    let Some(next) = edge_count(nodes.as_slice()) else {
        return Err(Memory);
    };
    let Some(joined) = next.checked_add(parts) else {
        return Err(Memory);
    };
    let stage = nodes[place].stage;
    let joins = join_edges(alloc, next, parts, joined)?;
    let splits = split_edges(alloc, edge, next, parts)?;
    turn(alloc, &mut nodes[place], edge, joined)?;
    put(
        &mut nodes,
        place,
        NodeKind::Cat { close: false },
        joins,
        stage,
    )?;
    put(&mut nodes, place, NodeKind::Split, splits, stage)?;
    Ok(nodes)
}

/// The edges of a node that is to come. They are made before the node's kind, so that few exits have a kind to let go.
#[derive(Drop)]
struct Edges {
    ins: Seq<u32>,
    outs: Seq<u32>,
}

/// Puts a node before the one with this number. On Memory the nodes are as they were.
fn put(
    nodes: &mut Vec<Node>,
    place: usize,
    kind: NodeKind,
    edges: Edges,
    stage: u32,
) -> Result<(), Memory>
    requires { place ≤ length nodes.old.items }
    ensures { OnOk result (nodes.new.items ≡ insert nodes.old.items place record { kind = kind; ins = edges.ins; outs = edges.outs; stage = stage }) }
{
    let Edges { ins, outs } = edges;
    nodes.insert(
        place,
        Node {
            kind,
            ins,
            outs,
            stage,
        },
    )?;
    Ok(())
}

/// The edges of a split of this edge, which gives so many from `next` on.
fn split_edges(alloc: Global, edge: u32, next: u32, parts: u32) -> Result<Edges, Memory>
    requires { next + parts < 2 ^ 32 }
    ensures ins { IfOk result (λ edges. edges.ins ≡ edge ∷ []) }
    ensures outs { IfOk result (λ edges. edges.outs ≡ range_with_len next parts) }
{
    let ins = Seq::from_vec(Vec::from_slice(alloc, &[edge])?);
    let outs = Seq::from_vec(row(alloc, next, parts)?);
    Ok(Edges { ins, outs })
}

/// The edges of a Cat of so many edges from `next` on, which gives this one.
fn join_edges(alloc: Global, next: u32, parts: u32, joined: u32) -> Result<Edges, Memory>
    requires { next + parts < 2 ^ 32 }
    ensures ins { IfOk result (λ edges. edges.ins ≡ range_with_len next parts) }
    ensures outs { IfOk result (λ edges. edges.outs ≡ joined ∷ []) }
{
    let ins = Seq::from_vec(row(alloc, next, parts)?);
    let outs = Seq::from_vec(Vec::from_slice(alloc, &[joined])?);
    Ok(Edges { ins, outs })
}

/// Gives a node the new edge in place of the old. On Memory the node is as it was.
fn turn(alloc: Global, node: &mut Node, old: u32, new: u32) -> Result<(), Memory>
    ensures { OnOk result (node.new ≡ turned_cell old new node.old) }
{
    let ins = turned_all(alloc, node.ins.as_slice(), old, new)?;
    node.ins = Seq::from_vec(ins);
    Ok(())
}

/// These edges, with the new one in place of the old.
fn turned_all(alloc: Global, edges: &[u32], old: u32, new: u32) -> Result<Vec<u32>, Memory>
    ensures { IfOk result (λ edges_new. edges_new.items ≡ map (turned_def old new) edges.now) }
{
    let mut all = Vec::new(alloc);
    for edge in edges {
        all.push(turned(*edge, old, new))?;
    }
    Ok(all)
}

/// The edge, or the new one in place of the old.
fn turned(edge: u32, old: u32, new: u32) -> u32
    ensures { result ≡ turned_def old new edge }
{
    if edge == old { new } else { edge }
}

/// The status rule, where nodes from this number on have numbers that are higher by two.
fn moved_status(alloc: Global, status: StatusRule, place: usize) -> Result<StatusRule, Memory>
    ensures { IfOk result (λ new. new ≡ moved_status_def place status) }
{
    match status {
        StatusRule::Fixed(code) => Ok(StatusRule::Fixed(code)),
        StatusRule::Selected { nodes, some, none } => {
            let nodes = Seq::from_vec(moved_all(alloc, nodes.as_slice(), place)?);
            Ok(StatusRule::Selected { nodes, some, none })
        }
    }
}

/// These numbers of nodes, where those from this one on are higher by two.
fn moved_all(alloc: Global, nodes: &[u32], place: usize) -> Result<Vec<u32>, Memory>
    ensures { IfOk result (λ new. new.items ≡ map (moved_def place) nodes.now) }
{
    let mut all = Vec::new(alloc);
    for node in nodes {
        let Some(new) = moved(*node, place) else {
            return Err(Memory);
        };
        all.push(new)?;
    }
    Ok(all)
}

/// The number of a node behind the rewrite, where it has 32 bits.
fn moved(node: u32, place: usize) -> Option<u32>
    ensures { IfSome result (λ new. new ≡ moved_def place node) }
{
    if (node as usize) < place {
        Some(node)
    } else {
        node.checked_add(2)
    }
}
