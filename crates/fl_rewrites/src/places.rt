//! Where edges lead from and to, and how many there are.
ghost use Rattle.std.specs.Prelude.{◌≡◌, ◌≤◌, ◌^◌, length, IfSome, IfNone};
ghost use Rattle.fl_graph.specs.Net.{gives};
ghost use Rattle.fl_rewrites.specs.Places.{giver_of as giver_of_def, taker_of as taker_of_def};

use fl_graph::Node;

/// The number of the first node that gives the edge.
pub fn giver_of(nodes: &[Node], edge: u32) -> Option<usize>
    ensures { result ≡ giver_of_def edge nodes.now }
{
    nodes
        .iter()
        .position(|node| node.outs.as_slice().contains(&edge))
}

/// The number of the first node that takes the edge.
pub fn taker_of(nodes: &[Node], edge: u32) -> Option<usize>
    ensures { result ≡ taker_of_def edge nodes.now }
{
    nodes
        .iter()
        .position(|node| node.ins.as_slice().contains(&edge))
}

/// The number of edges, where it has 32 bits.
pub fn edge_count(nodes: &[Node]) -> Option<u32>
    ensures some { IfSome result (λ count. count ≡ length (gives nodes.now)) }
    ensures none { IfNone result (2 ^ 32 ≤ length (gives nodes.now)) }
{
    let mut count: u32 = 0;
    for node in nodes {
        let Ok(outs) = u32::try_from(node.outs.len()) else {
            return None;
        };
        match count.checked_add(outs) {
            Some(sum) => count = sum,
            None => return None,
        }
    }
    Some(count)
}
