//! A Whole behind a Cat, and maps in its place.
ghost use Rattle.std.specs.Prelude.{◌≡◌, ◌∷◌, [], ◌+◌, ◌++◌, ◌^◌, ◌<◌, ◌≤◌, length, None, Some, IfNone, IfOk, IfSome, OnOk};
ghost use Rattle.std.specs.Option.{option_and_then, option_map};
ghost use Rattle.fl_graph.specs.declared.kinds.NodeKind.TheVariants as kind;
ghost use Rattle.fl_rewrites.specs.Keeps.{Answers};
ghost use Rattle.fl_rewrites.specs.Joined.{joined_at as joined_at_def, joined_behind as joined_behind_def, joined_node as joined_node_def, map_cells, unjoined as unjoined_def};
ghost use Rattle.fl_rewrites.specs.Places.{giver_of as giver_of_def};

use crate::answers::Rewritten;
use crate::known::joins_plainly;
use crate::places::giver_of;
use crate::replacing::{in_order, with_nodes};
use fl_graph::{Graph, Node, NodeKind, Seq};
use ps_lines::Memory;
use std::alloc::Global;
use ut_args::Inv;

/// A Whole with one input, which a Cat that doesn't close gives.
#[derive(Drop)]
pub struct JoinedNodes<'nodes> {
    /// The number of the Cat.
    pub cat: usize,
    /// The Cat's ins.
    pub parts: &'nodes [u32],
    /// What the Whole runs.
    pub inv: &'nodes Inv,
    /// The Whole's outs.
    pub outs: &'nodes [u32],
    /// The Whole's stage.
    pub stage: u32,
}

/// What comes in the place of a Whole behind a Cat.
#[derive(Debug, Drop)]
pub struct Unjoined {
    /// The number of the Cat, which goes.
    pub cat: usize,
    /// How many of the nodes, from the first one on, the status names in place of the Whole.
    pub named: u32,
    pub nodes: Seq<Node>,
}

/// The Whole with this number, where it stands behind a Cat.
pub fn joined_at(nodes: &[Node], node: u32) -> Option<JoinedNodes<'_>>
    ensures some { IfSome result (λ at. joined_at_def nodes.now node ≡ Some (record { cat = at.cat; parts = at.parts.now; inv = at.inv.now; outs = at.outs.now; stage = at.stage })) }
    ensures none { IfNone result (joined_at_def nodes.now node ≡ None) }
{
    let Some(whole) = nodes.get(node as usize) else {
        return None;
    };
    joined_node(nodes, whole)
}

/// This node, where it is a Whole behind a Cat.
fn joined_node<'nodes>(nodes: &'nodes [Node], whole: &'nodes Node) -> Option<JoinedNodes<'nodes>>
    ensures some { IfSome result (λ at. joined_node_def nodes.now whole.now ≡ Some (record { cat = at.cat; parts = at.parts.now; inv = at.inv.now; outs = at.outs.now; stage = at.stage })) }
    ensures none { IfNone result (joined_node_def nodes.now whole.now ≡ None) }
{
    match &whole.kind {
        NodeKind::Whole(inv) => match whole.ins.as_slice() {
            [edge] => joined_behind(nodes, whole, inv, *edge),
            _ => None,
        },
        _ => None,
    }
}

/// A Whole of this edge, where a Cat that doesn't close gives it.
fn joined_behind<'nodes>(
    nodes: &'nodes [Node],
    whole: &'nodes Node,
    inv: &'nodes Inv,
    edge: u32,
) -> Option<JoinedNodes<'nodes>>
    ensures some { IfSome result (λ at. option_and_then (joined_behind_def nodes.now whole.now inv.now) (giver_of_def edge nodes.now) ≡ Some (record { cat = at.cat; parts = at.parts.now; inv = at.inv.now; outs = at.outs.now; stage = at.stage })) }
    ensures none { IfNone result (option_and_then (joined_behind_def nodes.now whole.now inv.now) (giver_of_def edge nodes.now) ≡ None) }
{
    let Some(place) = giver_of(nodes, edge) else {
        return None;
    };
    let Some(cat) = nodes.get(place) else {
        return None;
    };
    if !joins_plainly(&cat.kind) {
        return None;
    }
    Some(JoinedNodes {
        cat: place,
        parts: cat.ins.as_slice(),
        inv,
        outs: whole.outs.as_slice(),
        stage: whole.stage,
    })
}

/// A map for each edge, the first of which gives this number.
pub fn map_nodes(
    alloc: Global,
    inv: &Inv,
    stage: u32,
    edges: &[u32],
    next: u32,
) -> Result<Vec<Node>, Memory>
    requires { next + length edges.now < 2 ^ 32 }
    ensures { IfOk result (λ nodes. nodes.items ≡ map_cells inv.now stage next edges.now) }
{
    let mut nodes = Vec::new(alloc);
    let mut out = next;
    for edge in edges {
        push_map(alloc, &mut nodes, inv, stage, *edge, out)?;
        out += 1;
    }
    Ok(nodes)
}

/// Puts a map behind these nodes.
fn push_map(
    alloc: Global,
    nodes: &mut Vec<Node>,
    inv: &Inv,
    stage: u32,
    edge: u32,
    out: u32,
) -> Result<(), Memory>
    ensures { OnOk result (nodes.new.items ≡ nodes.old.items ++ record { kind = kind.Map inv.now; ins = edge ∷ []; outs = out ∷ []; stage = stage } ∷ []) }
{
    let node = map_node(alloc, inv, stage, edge, out)?;
    nodes.push(node)?;
    Ok(())
}

/// A map of this edge.
fn map_node(alloc: Global, inv: &Inv, stage: u32, edge: u32, out: u32) -> Result<Node, Memory>
    ensures { IfOk result (λ node. node ≡ record { kind = kind.Map inv.now; ins = edge ∷ []; outs = out ∷ []; stage = stage }) }
{
    let ins = Seq::from_vec(Vec::from_slice(alloc, &[edge])?);
    let outs = Seq::from_vec(Vec::from_slice(alloc, &[out])?);
    let inv = inv.copy()?;
    Ok(Node {
        kind: NodeKind::Map(inv),
        ins,
        outs,
        stage,
    })
}

/// The graph with what was found in the place of the Whole with this number, if that is anything.
pub fn exchange(alloc: Global, graph: Graph, node: u32, found: Option<Unjoined>) -> Rewritten
    requires whole { IfSome found (λ new. node < length graph.nodes) }
    requires cat { IfSome found (λ new. new.cat < node) }
    ensures { Answers (option_map (unjoined_def graph node) found) graph result }
{
    let Some(new) = found else {
        return Rewritten::NotApplicable(graph);
    };
    match unjoin(alloc, graph, node, new) {
        Ok(made) => Rewritten::Done(made),
        Err(_) => Rewritten::Memory,
    }
}

/// The graph with these nodes in the place of the Whole with this number, and without the Cat.
#[tactic(auto, using(crate::proofs::PlaceLemmas::place_laws))]
fn unjoin(alloc: Global, graph: Graph, node: u32, new: Unjoined) -> Result<Graph, Memory>
    requires whole { node < length graph.nodes }
    requires cat { new.cat < node }
    ensures { IfOk result (λ made. made ≡ unjoined_def graph node new) }
{
    let Unjoined { cat, named, nodes } = new;
    let graph = with_nodes(alloc, graph, node as usize, nodes.into_vec(), named)?;
    let graph = with_nodes(alloc, graph, cat, Vec::new(alloc), 0)?;
    in_order(alloc, graph)
}
