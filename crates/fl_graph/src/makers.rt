//! The maps that aggregates and finishes join.
ghost use Rattle.std.specs.Prelude.{◌≡◌, ◌≤◌, [], false, if◌then◌else◌, length};
ghost use Rattle.ut_args.specs.Invocations.{words_of};
ghost use Rattle.fl_graph.specs.Checks.{are_mapped as are_mapped_def, comes_mapped, each_after, joins_its_maps as joins_its_maps_def};
ghost use Rattle.fl_graph.specs.Makers.{is_mapped as is_mapped_def, made_by, same_words};
ghost use Rattle.fl_graph.specs.Net.{has};

use crate::graphs::Node;
use crate::kinds::NodeKind;
use ut_args::Inv;

/// Whether the ins of each aggregate and of each finish come from maps or aggregates of the same words.
pub fn joins_maps(nodes: &[Node]) -> bool
    ensures { result ≡ each_after joins_its_maps_def [] nodes.now }
{
    for place in 0..nodes.len() {
        if !joins_its_maps(&nodes[..place], &nodes[place]) {
            return false;
        }
    }
    true
}

/// Whether the node's ins do, if it joins maps.
fn joins_its_maps(earlier: &[Node], node: &Node) -> bool
    ensures { result ≡ joins_its_maps_def earlier.now node.now }
{
    match &node.kind {
        NodeKind::Agg(inv) | NodeKind::Finish(inv) => are_mapped(earlier, node.ins.as_slice(), inv),
        _ => true,
    }
}

/// Whether these edges come from maps or aggregates of the invocation.
fn are_mapped(earlier: &[Node], edges: &[u32], inv: &Inv) -> bool
    ensures { result ≡ are_mapped_def (words_of inv.now) earlier.now edges.now }
{
    edges.iter().all(|edge| is_mapped(earlier, *edge, inv))
}

/// Whether the edge comes from a map or an aggregate of the invocation.
fn is_mapped(earlier: &[Node], edge: u32, inv: &Inv) -> bool
    ensures { result ≡ comes_mapped (words_of inv.now) edge false earlier.now }
{
    let mut mapped = false;
    for node in earlier {
        mapped = is_mapped_behind(node, edge, inv, mapped);
    }
    mapped
}

/// Whether the edge comes from a map or an aggregate of the invocation, where `before` says so of the nodes before this one.
fn is_mapped_behind(node: &Node, edge: u32, inv: &Inv, before: bool) -> bool
    ensures { result ≡ (if has edge node.now.outs then is_mapped_def (words_of inv.now) (made_by node.now.kind) else before) }
{
    if node.outs.as_slice().contains(&edge) {
        maps(&node.kind, inv)
    } else {
        before
    }
}

/// Whether this is a map or an aggregate of the invocation.
fn maps(kind: &NodeKind, inv: &Inv) -> bool
    ensures { result ≡ is_mapped_def (words_of inv.now) (made_by kind.now) }
{
    match kind {
        NodeKind::Map(other) | NodeKind::Agg(other) => are_same(inv, other),
        _ => false,
    }
}

/// Whether two invocations have the same words.
fn are_same(one: &Inv, other: &Inv) -> bool
    ensures { result ≡ same_words (words_of one.now) (words_of other.now) }
{
    one.is(other)
}
