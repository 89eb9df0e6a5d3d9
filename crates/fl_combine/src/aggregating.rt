//! Maps and an aggregate in place of a whole.
ghost use Rattle.std.specs.Prelude.{◌≡◌, ◌∷◌, [], ◌+◌, ◌++◌, ◌^◌, ◌<◌, length, ℕ, IfOk, OnOk};
ghost use Rattle.std.specs.List.{range_with_len};
ghost use Rattle.fl_graph.specs.Net.{gives};
ghost use Rattle.fl_graph.specs.Valid.{Valid};
ghost use Rattle.fl_rewrites.specs.Joined.{map_cells};
ghost use Rattle.fl_rewrites.specs.Keeps.{Answers, KeepsFlow};
ghost use Rattle.fl_rewrites.specs.Known.{is_known as is_known_def};
ghost use Rattle.fl_segments.specs.Stages.{has_finish as has_finish_def};
ghost use Rattle.fl_combine.specs.Aggregating.{agg_cell, aggregate_at as aggregate_at_def, aggregated, behind_maps, finish_cell, may_aggregate as may_aggregate_def};

use fl_graph::{Graph, Node, NodeKind, Seq};
use fl_rewrites::{
    JoinedNodes, Rewritten, Unjoined, edge_count, exchange, is_known, joined_at, map_nodes, row,
};
use ps_lines::Memory;
use std::alloc::Global;
use ut_args::{Class, Groups, Inv, class};

/// Puts a map for each in of the Cat before it, an aggregate over the maps, and a finish where the command has one, in the place of the Whole
/// with this number; the Cat goes.
///
/// It applies where the node is a Whole of class P with one input, which a Cat that doesn't close gives, and the ins of that, two or more, are
/// known to be a cut list. Its time is linear in the graph. A graph of 2^32 edges or nodes or more wants memory.
#[tactic(auto, using(crate::proofs::AggregateLemmas::aggregate_laws))]
pub fn map_aggregate(alloc: Global, graph: Graph, node: u32) -> Rewritten
    requires { Valid graph.nodes graph.status }
    ensures answer { Answers (aggregated node graph) graph result }
    ensures kept { KeepsFlow graph result }
{
    match aggregate_at(alloc, graph.nodes.as_slice(), node) {
        Ok(found) => exchange(alloc, graph, node, found),
        Err(_) => Rewritten::Memory,
    }
}

/// What comes in the place of the Whole with this number, where it may.
fn aggregate_at(alloc: Global, nodes: &[Node], node: u32) -> Result<Option<Unjoined>, Memory>
    ensures { IfOk result (λ new. new ≡ aggregate_at_def nodes.now node) }
{
    let Some(at) = joined_at(nodes, node) else {
        return Ok(None);
    };
    if !may_aggregate(alloc, nodes, at.inv, at.parts)? {
        return Ok(None);
    }
    let new = aggregate(alloc, nodes, &at)?;
    Ok(Some(new))
}

/// Whether the maps of these parts may be aggregated.
fn may_aggregate(alloc: Global, nodes: &[Node], inv: &Inv, parts: &[u32]) -> Result<bool, Memory>
    ensures { IfOk result (λ may. may ≡ may_aggregate_def inv.now parts.now (is_known_def nodes.now parts.now)) }
{
    match class(inv) {
        Class::P => {
            if parts.len() < 2 {
                return Ok(false);
            }
            is_known(alloc, nodes, parts)
        }
        Class::S(_) | Class::N | Class::E => Ok(false),
    }
}

/// The maps and what stands behind them.
fn aggregate(alloc: Global, nodes: &[Node], at: &JoinedNodes) -> Result<Unjoined, Memory>
    ensures { IfOk result (λ new. new ≡ record {
      cat = at.now.cat;
      named = length at.now.parts.now;
      nodes = map_cells at.now.inv.now at.now.stage (length (gives nodes.now)) at.now.parts.now
          ++ behind_maps (has_finish_def at.now.inv.now) at.now.inv.now at.now.stage (length (gives nodes.now)) (length at.now.parts.now) at.now.outs.now;
    }) }
{
    let Some(next) = edge_count(nodes) else {
        return Err(Memory);
    };
    let Ok(count) = u32::try_from(at.parts.len()) else {
        return Err(Memory);
    };
    let Some(last) = next.checked_add(count) else {
        return Err(Memory);
    };
    let mut new = map_nodes(alloc, at.inv, at.stage, at.parts, next)?;
    let ins = row(alloc, next, count)?;
    put_behind(alloc, &mut new, at.inv, at.stage, ins, last, at.outs)?;
    Ok(Unjoined {
        cat: at.cat,
        named: count,
        nodes: Seq::from_vec(new),
    })
}

/// Puts the aggregate of these edges, and the finish of that where there is one, behind the nodes.
fn put_behind(
    alloc: Global,
    nodes: &mut Vec<Node>,
    inv: &Inv,
    stage: u32,
    ins: Vec<u32>,
    last: u32,
    outs: &[u32],
) -> Result<(), Memory>
    ensures { (next count : ℕ) → ins.items ≡ range_with_len next count → last ≡ next + count →
        OnOk result (nodes.new.items ≡ nodes.old.items ++ behind_maps (has_finish_def inv.now) inv.now stage next count outs.now) }
{
    if has_finish(inv) {
        push_agg(alloc, nodes, inv, stage, ins, &[last])?;
        return push_finish(alloc, nodes, inv, stage, last, outs);
    }
    push_agg(alloc, nodes, inv, stage, ins, outs)
}

/// Whether the output isn't the map of the whole input: of wc with an operand, and of uniq with `-d` or `-u`.
fn has_finish(inv: &Inv) -> bool
    ensures { result ≡ has_finish_def inv.now }
{
    match inv {
        Inv::Wc(wc) => !wc.args.operands.as_slice().is_empty(),
        Inv::Uniq(uniq) => matches!(uniq.args.groups, Groups::Repeated | Groups::Single),
        _ => false,
    }
}

/// Puts an aggregate behind the nodes.
pub(crate) fn push_agg(
    alloc: Global,
    nodes: &mut Vec<Node>,
    inv: &Inv,
    stage: u32,
    ins: Vec<u32>,
    outs: &[u32],
) -> Result<(), Memory>
    ensures { OnOk result (nodes.new.items ≡ nodes.old.items ++ agg_cell inv.now ins.items outs.now stage ∷ []) }
{
    let node = agg_node(alloc, inv, stage, ins, outs)?;
    nodes.push(node)?;
    Ok(())
}

/// An aggregate.
fn agg_node(
    alloc: Global,
    inv: &Inv,
    stage: u32,
    ins: Vec<u32>,
    outs: &[u32],
) -> Result<Node, Memory>
    ensures { IfOk result (λ node. node ≡ agg_cell inv.now ins.items outs.now stage) }
{
    let outs = Seq::from_vec(Vec::from_slice(alloc, outs)?);
    let ins = Seq::from_vec(ins);
    let inv = inv.copy()?;
    Ok(Node {
        kind: NodeKind::Agg(inv),
        ins,
        outs,
        stage,
    })
}

/// Puts a finish of this edge behind the nodes.
fn push_finish(
    alloc: Global,
    nodes: &mut Vec<Node>,
    inv: &Inv,
    stage: u32,
    edge: u32,
    outs: &[u32],
) -> Result<(), Memory>
    ensures { OnOk result (nodes.new.items ≡ nodes.old.items ++ finish_cell inv.now (edge ∷ []) outs.now stage ∷ []) }
{
    let node = finish_node(alloc, inv, stage, edge, outs)?;
    nodes.push(node)?;
    Ok(())
}

/// A finish of this edge.
fn finish_node(
    alloc: Global,
    inv: &Inv,
    stage: u32,
    edge: u32,
    outs: &[u32],
) -> Result<Node, Memory>
    ensures { IfOk result (λ node. node ≡ finish_cell inv.now (edge ∷ []) outs.now stage) }
{
    let ins = Seq::from_vec(Vec::from_slice(alloc, &[edge])?);
    let outs = Seq::from_vec(Vec::from_slice(alloc, outs)?);
    let inv = inv.copy()?;
    Ok(Node {
        kind: NodeKind::Finish(inv),
        ins,
        outs,
        stage,
    })
}
