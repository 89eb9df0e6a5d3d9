//! Edges: each leads from one node to one later node.
ghost use Rattle.std.specs.Prelude.{◌≡◌, ◌≤◌, ◌+◌, [], length, min};
ghost use Rattle.std.specs.List.{list_all};
ghost use Rattle.fl_graph.specs.Checks.{each_after, gives_below as gives_below_def, has_edges as has_edges_def, has_single_edges as has_single_edges_def, is_below as is_below_def, is_single as is_single_def, takes_given as takes_given_def};
ghost use Rattle.fl_graph.specs.Net.{count, gives, has, takes};

use crate::graphs::Node;

/// Whether each edge leads from one node to one later node, and the edges are numbered from 0.
pub fn has_edges(nodes: &[Node]) -> bool
    ensures { result ≡ has_edges_def nodes.now }
{
    are_all_single(nodes) && are_all_below(nodes) && lead_on(nodes)
}

/// Whether each edge is given once and taken once.
fn are_all_single(nodes: &[Node]) -> bool
    ensures { result ≡ list_all (has_single_edges_def nodes.now) nodes.now }
{
    nodes.iter().all(|node| has_single_edges(nodes, node))
}

/// Whether each edge of a node is given once and taken once.
fn has_single_edges(nodes: &[Node], node: &Node) -> bool
    ensures { result ≡ has_single_edges_def nodes.now node.now }
{
    are_single(nodes, node.ins.as_slice()) && are_single(nodes, node.outs.as_slice())
}

/// Whether each of these edges is given once and taken once.
fn are_single(nodes: &[Node], edges: &[u32]) -> bool
    ensures { result ≡ list_all (is_single_def nodes.now) edges.now }
{
    edges.iter().all(|edge| is_single(nodes, *edge))
}

/// Whether the edge is given once and taken once.
fn is_single(nodes: &[Node], edge: u32) -> bool
    ensures { result ≡ is_single_def nodes.now edge }
{
    times_given(nodes, edge) == 1 && times_taken(nodes, edge) == 1
}

/// How often the edge is given, counted up to two.
fn times_given(nodes: &[Node], edge: u32) -> u8
    ensures { result ≡ min 2 (count edge (gives nodes.now)) }
{
    let mut times = 0;
    for node in nodes {
        times = times_in(node.outs.as_slice(), edge, times);
    }
    times
}

/// How often the edge is taken, counted up to two.
fn times_taken(nodes: &[Node], edge: u32) -> u8
    ensures { result ≡ min 2 (count edge (takes nodes.now)) }
{
    let mut times = 0;
    for node in nodes {
        times = times_in(node.ins.as_slice(), edge, times);
    }
    times
}

/// How often the edge is among these and was before, counted up to two.
fn times_in(edges: &[u32], edge: u32, before: u8) -> u8
    requires { before ≤ 2 }
    ensures { result ≡ min 2 (before + count edge edges.now) }
{
    let mut times = before;
    for other in edges {
        times = (times + u8::from(*other == edge)).min(2);
    }
    times
}

/// Whether the edges' numbers are below the number of edges.
fn are_all_below(nodes: &[Node]) -> bool
    ensures { result ≡ list_all (gives_below_def nodes.now) nodes.now }
{
    nodes.iter().all(|node| gives_below(nodes, node))
}

/// Whether the numbers of those that the node gives are.
fn gives_below(nodes: &[Node], node: &Node) -> bool
    ensures { result ≡ gives_below_def nodes.now node.now }
{
    let outs = node.outs.as_slice();
    outs.iter().all(|edge| is_below(nodes, *edge))
}

/// Whether the edge's number is below the number of outs. No sum of lengths can be too large for this.
fn is_below(nodes: &[Node], edge: u32) -> bool
    ensures { result ≡ is_below_def nodes.now edge }
{
    let mut left = edge as usize;
    for node in nodes {
        if left < node.outs.len() {
            return true;
        }
        left -= node.outs.len();
    }
    false
}

/// Whether each edge is taken behind the node that gives it.
fn lead_on(nodes: &[Node]) -> bool
    ensures { result ≡ each_after takes_given_def [] nodes.now }
{
    for place in 0..nodes.len() {
        if !takes_given(&nodes[..place], &nodes[place]) {
            return false;
        }
    }
    true
}

/// Whether the node takes edges alone that earlier ones give.
fn takes_given(earlier: &[Node], node: &Node) -> bool
    ensures { result ≡ takes_given_def earlier.now node.now }
{
    let ins = node.ins.as_slice();
    ins.iter().all(|edge| is_given(earlier, *edge))
}

/// Whether one of the nodes gives the edge.
fn is_given(nodes: &[Node], edge: u32) -> bool
    ensures { result ≡ has edge (gives nodes.now) }
{
    for node in nodes {
        if node.outs.as_slice().contains(&edge) {
            return true;
        }
    }
    false
}
