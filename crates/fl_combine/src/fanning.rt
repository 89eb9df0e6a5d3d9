//! A tree of aggregates in place of one.
ghost use Rattle.std.specs.Prelude.{◌≡◌, ◌∷◌, [], ◌+◌, ◌-◌, ◌/◌, ◌++◌, ◌^◌, ◌<◌, ◌≤◌, get_or, length, IfOk, IfSome, OnOk};
ghost use Rattle.fl_graph.specs.Net.{gives};
ghost use Rattle.fl_graph.specs.Valid.{Valid};
ghost use Rattle.fl_rewrites.specs.Keeps.{Answers, KeepsFlow};
ghost use Rattle.fl_segments.specs.Inner.Steps.{tree_over};
ghost use Rattle.fl_combine.specs.Aggregating.{agg_cell};
ghost use Rattle.fl_combine.specs.Fanning.{fanned, root as root_def, tree_at as tree_at_def, tree_cells, tree_for as tree_for_def};

use crate::aggregating::push_agg;
use fl_graph::{Graph, Node, NodeKind, Seq};
use fl_rewrites::{Rewritten, edge_count, replace};
use ps_lines::Memory;
use std::alloc::Global;
use ut_args::Inv;

/// Puts a tree of aggregates of two ins each in the place of the aggregate with this number.
///
/// It applies where the node is an aggregate of more than two ins, which are halved, with the greater half left, until all have two. Its
/// time is linear in the graph. A graph of 2^32 edges or nodes or more wants memory.
#[tactic(auto, using(crate::proofs::FanLemmas::fan_laws))]
pub fn fan_in(alloc: Global, graph: Graph, node: u32) -> Rewritten
    requires { Valid graph.nodes graph.status }
    ensures answer { Answers (fanned node graph) graph result }
    ensures kept { KeepsFlow graph result }
{
    match tree_at(alloc, graph.nodes.as_slice(), node) {
        Ok(found) => replace(alloc, graph, node, found),
        Err(_) => Rewritten::Memory,
    }
}

/// What comes in the place of the aggregate with this number, where it may.
fn tree_at(alloc: Global, nodes: &[Node], node: u32) -> Result<Option<Seq<Node>>, Memory>
    ensures { IfOk result (λ new. new ≡ tree_at_def nodes.now node) }
{
    let Some(cell) = nodes.get(node as usize) else {
        return Ok(None);
    };
    tree_for(alloc, nodes, cell)
}

/// What comes in the place of this node, where it may.
fn tree_for(alloc: Global, nodes: &[Node], cell: &Node) -> Result<Option<Seq<Node>>, Memory>
    ensures { IfOk result (λ new. new ≡ tree_for_def (length (gives nodes.now)) cell.now cell.now.kind) }
{
    match &cell.kind {
        NodeKind::Agg(inv) => {
            if cell.ins.len() <= 2 {
                return Ok(None);
            }
            let Some(next) = edge_count(nodes) else {
                return Err(Memory);
            };
            let new = tree(alloc, inv, cell, next)?;
            Ok(Some(Seq::from_vec(new)))
        }
        _ => Ok(None),
    }
}

/// The tree over the ins of a node, where the edges of its own have the numbers from this one on.
fn tree(alloc: Global, inv: &Inv, cell: &Node, next: u32) -> Result<Vec<Node>, Memory>
    requires { 2 < length cell.now.ins }
    ensures { IfOk result (λ nodes. nodes.items ≡ tree_cells inv.now cell.now.stage (tree_over cell.now.ins) cell.now.outs next) }
{
    let Ok(count) = u32::try_from(cell.ins.len()) else {
        return Err(Memory);
    };
    let Some(_) = next.checked_add(count) else {
        return Err(Memory);
    };
    let mut nodes = Vec::new(alloc);
    put_tree(
        alloc,
        &mut nodes,
        inv,
        cell.stage,
        cell.ins.as_slice(),
        cell.outs.as_slice(),
        next,
    )?;
    Ok(nodes)
}

/// Puts the tree over these edges behind the nodes, each half by itself, with the greater half left.
#[tactic(auto, using(crate::proofs::TreeLemmas::put_laws))]
fn put_tree(
    alloc: Global,
    nodes: &mut Vec<Node>,
    inv: &Inv,
    stage: u32,
    edges: &[u32],
    outs: &[u32],
    next: u32,
) -> Result<(), Memory>
    requires some { 1 ≤ length edges.now }
    requires bounded { next + length edges.now < 2 ^ 32 }
    ensures { OnOk result (nodes.new.items ≡ nodes.old.items ++ tree_cells inv.now stage (tree_over edges.now) outs.now next) }
{
    let count = edges.len();
    if count < 2 {
        return Ok(());
    }
    let half = count - count / 2;
    let (left, right) = edges.split_at(half);
    let Ok(joins) = u32::try_from(half - 1) else {
        return Err(Memory);
    };
    let behind = next + joins;
    put_tree(alloc, nodes, inv, stage, left, &[next], next + 1)?;
    put_tree(alloc, nodes, inv, stage, right, &[behind], behind + 1)?;
    let ins = Vec::from_slice(alloc, &[root(left, next), root(right, behind)])?;
    push_agg(alloc, nodes, inv, stage, ins, outs)
}

/// The edge that the tree over these edges gives, where the edges of its own have the numbers from this one on.
#[tactic(auto, using(crate::proofs::TreeLemmas::root_laws))]
fn root(edges: &[u32], next: u32) -> u32
    ensures { result ≡ root_def (tree_over edges.now) next }
{
    if edges.len() < 2 {
        first_of(edges)
    } else {
        next
    }
}

/// The first edge, or 0.
fn first_of(edges: &[u32]) -> u32
    ensures { result ≡ get_or edges.now 0 0 }
{
    match edges {
        [] => 0,
        [edge, ..] => *edge,
    }
}
