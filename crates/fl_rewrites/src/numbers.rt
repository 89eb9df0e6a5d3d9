//! Edges numbered anew.
ghost use Rattle.std.specs.Prelude.{◌≡◌, ◌<◌, ℕ, length, map, get_or, IfOk, OnOk};
ghost use Rattle.fl_graph.specs.Net.{gives};
ghost use Rattle.fl_rewrites.specs.Numbering.{numbered, place, renamed};
ghost use Rattle.fl_rewrites.specs.Inner.Tables.{bound, looked_up as looked_up_def};

use fl_graph::{Node, Seq};
use ps_lines::Memory;
use std::alloc::Global;

/// Nodes with their edges numbered in the order in which they are given.
///
/// Its time is linear in the number of nodes and edges and in the highest number of an edge. A graph of 2^32 edges or more wants memory.
pub fn number(alloc: Global, nodes: Vec<Node>) -> Result<Vec<Node>, Memory>
    ensures { IfOk result (λ new. new.items ≡ numbered nodes.items) }
{
    let mut nodes = nodes;
    let given = given_edges(alloc, nodes.as_slice())?;
    let Ok(count) = u32::try_from(given.len()) else {
        return Err(Memory);
    };
    let places = places_of(alloc, given.as_slice(), count)?;
    renumber_all(alloc, &mut nodes, places.as_slice(), count)?;
    Ok(nodes)
}

/// The edges in the order in which they are given.
pub(crate) fn given_edges(alloc: Global, nodes: &[Node]) -> Result<Vec<u32>, Memory>
    ensures { IfOk result (λ edges. edges.items ≡ gives nodes.now) }
{
    let mut edges = Vec::new(alloc);
    for node in nodes {
        edges.extend_from_slice(node.outs.as_slice())?;
    }
    Ok(edges)
}

/// The place of each edge among these, by its number. An edge that has none has the place `count` behind all.
#[tactic(auto, using(crate::proofs::TableLemmas::table_laws))]
fn places_of(alloc: Global, edges: &[u32], count: u32) -> Result<Vec<u32>, Memory>
    requires { count ≡ length edges.now }
    ensures { IfOk result (λ places. looked_up_def places.items count ≡ place edges.now) }
{
    let mut places = vec![in alloc; count; bound_of(edges)]?;
    let mut left = count;
    // From the last one on, so that an edge that stands there twice has its first place.
    while left > 0 {
        left -= 1;
        places[edges[left as usize] as usize] = left;
    }
    Ok(places)
}

/// The least number above these.
pub(crate) fn bound_of(edges: &[u32]) -> usize
    ensures { result ≡ bound edges.now }
{
    let mut above = 0;
    for edge in edges {
        above = above.max(*edge as usize + 1);
    }
    above
}

/// Gives the edges of all nodes their new numbers. On Memory some nodes have new ones and others don't.
#[tactic(auto, using(crate::proofs::TableLemmas::table_laws))]
fn renumber_all(
    alloc: Global,
    nodes: &mut Vec<Node>,
    places: &[u32],
    count: u32,
) -> Result<(), Memory>
    ensures { OnOk result (nodes.new.items ≡ map (renamed (looked_up_def places.now count)) nodes.old.items) }
{
    for node in 0..nodes.len() {
        renumber(alloc, &mut nodes[node], places, count)?;
    }
    Ok(())
}

/// Gives the edges of a node their new numbers.
fn renumber(alloc: Global, node: &mut Node, places: &[u32], count: u32) -> Result<(), Memory>
    ensures { OnOk result (node.new ≡ renamed (looked_up_def places.now count) node.old) }
{
    let ins = looked_up(alloc, node.ins.as_slice(), places, count)?;
    let outs = looked_up(alloc, node.outs.as_slice(), places, count)?;
    node.ins = Seq::from_vec(ins);
    node.outs = Seq::from_vec(outs);
    Ok(())
}

/// The places of these edges.
fn looked_up(alloc: Global, edges: &[u32], places: &[u32], count: u32) -> Result<Vec<u32>, Memory>
    ensures { IfOk result (λ new. new.items ≡ map (looked_up_def places.now count) edges.now) }
{
    let mut new = Vec::new(alloc);
    for edge in edges {
        new.push(look_up(places, *edge, count))?;
    }
    Ok(new)
}

/// The place of an edge.
fn look_up(places: &[u32], edge: u32, count: u32) -> u32
    ensures { result ≡ looked_up_def places.now count edge }
{
    match places.get(edge as usize) {
        Some(place) => *place,
        None => count,
    }
}
