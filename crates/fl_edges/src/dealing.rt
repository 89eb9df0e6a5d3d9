//! The halves of edges, dealt out to nodes.
ghost use Rattle.std.specs.Prelude.{◌≡◌, ℕ, Some, IfOk};
ghost use Rattle.fl_edges.specs.Halves.{AreDealt, AreLaid, HasHalves, no_pieces};
ghost use Rattle.fl_nodes.specs.Stashes.{LayBefore, Lie};
ghost use Rattle.fl_relay.specs.Edges.{EdgeId, gives_over, takes_over, put_on, taken_from};

use crate::making::Halves;
use fl_graph::Node;
use fl_nodes::{EdgeHalf, halves_at};
use fl_relay::{EdgeGiver, EdgeTaker};
use ps_lines::Memory;
use std::alloc::Global;

/// The halves of a node's edges: those of its ins and those of its outs, in order.
#[derive(Drop)]
pub struct NodeHalves {
    pub takers: Vec<EdgeTaker>,
    pub givers: Vec<EdgeGiver>,
}

/// Gives each node the halves of its edges. Where a half is missing, which is so in no valid graph, it wants memory.
pub fn deal(alloc: Global, nodes: &[Node], halves: Halves) -> Result<Vec<NodeHalves>, Memory>
    requires { AreLaid halves.givers.items halves.takers.items }
    ensures { IfOk result (λ dealt. AreDealt nodes.now dealt.items) }
{
    let Halves {
        mut givers,
        mut takers,
    } = halves;
    deal_each(alloc, nodes, &mut givers, &mut takers)
}

fn deal_each(
    alloc: Global,
    nodes: &[Node],
    givers: &mut Vec<Option<EdgeGiver>>,
    takers: &mut Vec<Option<EdgeTaker>>,
) -> Result<Vec<NodeHalves>, Memory>
    requires { AreLaid givers.old.items takers.old.items }
    ensures { IfOk result (λ dealt. AreDealt nodes.now dealt.items) }
{
    let mut dealt = Vec::new(alloc);
    for node in 0..nodes.len() {
        let own = deal_to(alloc, &nodes[node], givers, takers)?;
        dealt.push(own)?;
    }
    Ok(dealt)
}

/// Takes out the halves of a node's edges.
fn deal_to(
    alloc: Global,
    node: &Node,
    givers: &mut Vec<Option<EdgeGiver>>,
    takers: &mut Vec<Option<EdgeTaker>>,
) -> Result<NodeHalves, Memory>
    ensures halves { IfOk result (λ own. (ids : ℕ → EdgeId) → Lie gives_over put_on ids no_pieces givers.old.items → Lie takes_over taken_from ids no_pieces takers.old.items →
        HasHalves ids node.now own) }
    ensures givers { IfOk result (λ _. LayBefore givers.old.items givers.new.items) }
    ensures takers { IfOk result (λ _. LayBefore takers.old.items takers.new.items) }
{
    let takers = found(halves_at(alloc, takers, node.ins.as_slice())?)?;
    let givers = found(halves_at(alloc, givers, node.outs.as_slice())?)?;
    Ok(NodeHalves { takers, givers })
}

/// The halves that were found, where none was missing.
fn found<T: EdgeHalf>(halves: Option<Vec<T>>) -> Result<Vec<T>, Memory>
    ensures { IfOk result (λ all. halves ≡ Some all) }
{
    match halves {
        Some(halves) => Ok(halves),
        None => Err(Memory),
    }
}
