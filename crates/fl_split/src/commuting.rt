//! A map for each part in place of a whole.
ghost use Rattle.std.specs.Prelude.{◌≡◌, ◌∷◌, [], false, ◌+◌, ◌++◌, ◌^◌, ◌<◌, length, IfOk, IfSome, OnOk};
ghost use Rattle.std.specs.List.{range_with_len};
ghost use Rattle.std.specs.Option.{option_and_then};
ghost use Rattle.ut_args.specs.Classes.{class_of};
ghost use Rattle.fl_graph.specs.Net.{gives};
ghost use Rattle.fl_graph.specs.Valid.{Valid};
ghost use Rattle.fl_graph.specs.declared.kinds.NodeKind.TheVariants as kind;
ghost use Rattle.fl_rewrites.specs.Joined.{map_cells};
ghost use Rattle.fl_rewrites.specs.Keeps.{Answers, KeepsFlow};
ghost use Rattle.fl_rewrites.specs.Known.{is_known as is_known_def};
ghost use Rattle.fl_split.specs.Commuting.{commuted, may_spread, spread_at as spread_at_def};

use fl_graph::{Graph, Node, NodeKind, Seq};
use fl_rewrites::{
    JoinedNodes, Rewritten, Unjoined, edge_count, exchange, is_known, joined_at, map_nodes, row,
};
use ps_lines::Memory;
use std::alloc::Global;
use ut_args::{Class, Inv, Seam, class};

/// Puts a map for each in of the Cat before it, and a Cat that joins them, in the place of the Whole with this number; the Cat before goes.
///
/// It applies where the node is a Whole of class S with one input, which a Cat that doesn't close gives; for S(Lines) where the ins of that
/// are known to be a cut list. Its time is linear in the graph. A graph of 2^32 edges or nodes or more wants memory.
#[tactic(auto, using(crate::proofs::CommuteLemmas::commute_laws))]
pub fn commute_cat(alloc: Global, graph: Graph, node: u32) -> Rewritten
    requires { Valid graph.nodes graph.status }
    ensures answer { Answers (commuted node graph) graph result }
    ensures kept { KeepsFlow graph result }
{
    match spread_at(alloc, graph.nodes.as_slice(), node) {
        Ok(found) => exchange(alloc, graph, node, found),
        Err(_) => Rewritten::Memory,
    }
}

/// What comes in the place of the Whole with this number, where it may.
fn spread_at(alloc: Global, nodes: &[Node], node: u32) -> Result<Option<Unjoined>, Memory>
    ensures { IfOk result (λ new. new ≡ spread_at_def nodes.now node) }
{
    let Some(at) = joined_at(nodes, node) else {
        return Ok(None);
    };
    if !may_be_spread(alloc, nodes, at.inv, at.parts)? {
        return Ok(None);
    }
    let new = spread(alloc, nodes, &at)?;
    Ok(Some(new))
}

/// Whether the maps of these parts, joined, are that of the whole.
fn may_be_spread(alloc: Global, nodes: &[Node], inv: &Inv, parts: &[u32]) -> Result<bool, Memory>
    ensures { IfOk result (λ may. may ≡ may_spread (class_of inv.now) (is_known_def nodes.now parts.now)) }
{
    match class(inv) {
        Class::S(Seam::Bytes) => Ok(true),
        Class::S(Seam::Lines) => is_known(alloc, nodes, parts),
        Class::P | Class::N | Class::E => Ok(false),
    }
}

/// The maps and the Cat that joins them.
fn spread(alloc: Global, nodes: &[Node], at: &JoinedNodes) -> Result<Unjoined, Memory>
    ensures { IfOk result (λ new. new ≡ record {
      cat = at.now.cat;
      named = length at.now.parts.now;
      nodes = map_cells at.now.inv.now at.now.stage (length (gives nodes.now)) at.now.parts.now
          ++ record { kind = kind.Cat false; ins = range_with_len (length (gives nodes.now)) (length at.now.parts.now); outs = at.now.outs.now; stage = at.now.stage } ∷ [];
    }) }
{
    let Some(next) = edge_count(nodes) else {
        return Err(Memory);
    };
    let Ok(count) = u32::try_from(at.parts.len()) else {
        return Err(Memory);
    };
    let Some(_) = next.checked_add(count) else {
        return Err(Memory);
    };
    let mut new = map_nodes(alloc, at.inv, at.stage, at.parts, next)?;
    let ins = row(alloc, next, count)?;
    join(alloc, &mut new, ins, at.outs, at.stage)?;
    Ok(Unjoined {
        cat: at.cat,
        named: count,
        nodes: Seq::from_vec(new),
    })
}

/// Puts a Cat of these edges behind the nodes.
fn join(
    alloc: Global,
    nodes: &mut Vec<Node>,
    ins: Vec<u32>,
    outs: &[u32],
    stage: u32,
) -> Result<(), Memory>
    ensures { OnOk result (nodes.new.items ≡ nodes.old.items ++ record { kind = kind.Cat false; ins = ins.items; outs = outs.now; stage = stage } ∷ []) }
{
    let outs = Seq::from_vec(Vec::from_slice(alloc, outs)?);
    let ins = Seq::from_vec(ins);
    nodes.push(Node {
        kind: NodeKind::Cat { close: false },
        ins,
        outs,
        stage,
    })?;
    Ok(())
}
