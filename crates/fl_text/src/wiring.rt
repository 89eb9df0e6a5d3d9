//! The edges of a graph, and who has made them, looked up in tables.
ghost use Rattle.std.specs.Prelude.{◌≡◌, ◌&&◌, [], false, Some, None, set, replicate, IfOk};
ghost use Rattle.std.specs.Option.{option_copied};
ghost use Rattle.std.specs.List.{list_all};
ghost use Rattle.ut_args.specs.Invocations.{words_of};
ghost use Rattle.fl_graph.specs.Checks.{each_after, has_edges, joins_its_maps as joins_its_maps_def};
ghost use Rattle.fl_graph.specs.Makers.{is_given as is_given_def, is_mapped as is_mapped_def, made_by, same_words};
ghost use Rattle.fl_graph.specs.Net.{gives, takes};
ghost use Rattle.fl_text.specs.Inner.Wirings.{are_free, each_joins, is_free as is_free_def, joins as joins_def, made_in, maker_in, may_join, set_all};

use fl_graph::{Node, NodeKind};
use ps_lines::Memory;
use std::alloc::Global;
use ut_args::Inv;

/// Whether each edge leads from one node to one later node, the edges are numbered from 0, and aggregates and finishes join maps of their own
/// words.
///
/// Its time is linear in the number of nodes and edges, and in the words of the nodes that aggregates and finishes join.
#[tactic(auto, using(crate::proofs::WiringLemmas::wired))]
pub fn is_wired(alloc: Global, nodes: &[Node]) -> Result<bool, Memory>
    ensures { IfOk result (λ is. is ≡ (has_edges nodes.now && each_after joins_its_maps_def [] nodes.now)) }
{
    let given = all_outs(alloc, nodes)?;
    let taken = all_ins(alloc, nodes)?;
    let edges = given.len();
    let are_given = are_numbered(alloc, edges, given.as_slice())?;
    let are_taken = are_numbered(alloc, edges, taken.as_slice())?;
    let are_joined = are_all_joined(alloc, edges, nodes)?;
    Ok(are_given & are_taken & are_joined)
}

/// The edges that the nodes give, in order.
fn all_outs(alloc: Global, nodes: &[Node]) -> Result<Vec<u32>, Memory>
    ensures { IfOk result (λ edges. edges.items ≡ gives nodes.now) }
{
    let mut edges = Vec::new(alloc);
    for node in nodes {
        edges.extend_from_slice(node.outs.as_slice())?;
    }
    Ok(edges)
}

/// The edges that the nodes take, in order.
fn all_ins(alloc: Global, nodes: &[Node]) -> Result<Vec<u32>, Memory>
    ensures { IfOk result (λ edges. edges.items ≡ takes nodes.now) }
{
    let mut edges = Vec::new(alloc);
    for node in nodes {
        edges.extend_from_slice(node.ins.as_slice())?;
    }
    Ok(edges)
}

/// Whether each number below the size is among these once, and no other number is.
fn are_numbered(alloc: Global, size: usize, numbers: &[u32]) -> Result<bool, Memory>
    ensures { IfOk result (λ are. are ≡ are_free (replicate size false) numbers.now) }
{
    let mut marks = vec![in alloc; false; size]?;
    for number in numbers {
        if !is_free(marks.as_slice(), *number) {
            return Ok(false);
        }
        marks[*number as usize] = true;
    }
    Ok(are_all_set(marks.as_slice()))
}

/// Whether all marks are set.
fn are_all_set(marks: &[bool]) -> bool
    ensures { result ≡ list_all (λ mark. mark) marks.now }
{
    marks.iter().all(|mark| *mark)
}

/// Whether the number has a mark, which isn't set.
fn is_free(marks: &[bool], number: u32) -> bool
    ensures { result ≡ is_free_def marks.now number }
{
    match marks.get(number as usize) {
        Some(mark) => !*mark,
        None => false,
    }
}

/// Whether each node takes edges alone that earlier ones give, and joins maps of its own words, if it joins maps.
fn are_all_joined(alloc: Global, edges: usize, nodes: &[Node]) -> Result<bool, Memory>
    ensures { IfOk result (λ are. are ≡ each_joins nodes.now (replicate edges None) 0 nodes.now) }
{
    let mut makers = vec![in alloc; None; edges]?;
    for place in 0..nodes.len() {
        let node = &nodes[place];
        if !joins(nodes, makers.as_slice(), node) {
            return Ok(false);
        }
        set_makers(&mut makers, node.outs.as_slice(), place);
    }
    Ok(true)
}

/// Makes this node, by number, the maker of all of these edges.
fn set_makers(makers: &mut Vec<Option<usize>>, edges: &[u32], node: usize)
    ensures { makers.new.items ≡ set_all makers.old.items edges.now node }
{
    for edge in edges {
        set_maker(makers, *edge, node);
    }
}

/// Makes this node, by number, the maker of the edge, if the table has the edge.
fn set_maker(makers: &mut Vec<Option<usize>>, edge: u32, node: usize)
    ensures { makers.new.items ≡ set makers.old.items edge (Some node) }
{
    if (edge as usize) < makers.len() {
        makers[edge as usize] = Some(node);
    }
}

/// Whether the node takes edges alone that have makers, and joins maps of its own words, if it joins maps.
fn joins(nodes: &[Node], makers: &[Option<usize>], node: &Node) -> bool
    ensures { result ≡ joins_def (made_in nodes.now makers.now) node.now }
{
    are_given(nodes, makers, node.ins.as_slice()) && joins_its_maps(nodes, makers, node)
}

/// Whether these edges have makers.
fn are_given(nodes: &[Node], makers: &[Option<usize>], edges: &[u32]) -> bool
    ensures { result ≡ list_all (λ edge. is_given_def (made_in nodes.now makers.now edge)) edges.now }
{
    edges.iter().all(|edge| is_given(nodes, makers, *edge))
}

/// Whether the edge has a maker.
#[tactic(auto, using(crate::proofs::WiringLemmas::has_maker))]
fn is_given(nodes: &[Node], makers: &[Option<usize>], edge: u32) -> bool
    ensures { result ≡ is_given_def (made_in nodes.now makers.now edge) }
{
    maker_of(nodes, makers, edge).is_some()
}

/// Whether the node's ins are maps of its own words, if it joins maps.
fn joins_its_maps(nodes: &[Node], makers: &[Option<usize>], node: &Node) -> bool
    ensures { result ≡ may_join node.now.kind (made_in nodes.now makers.now) node.now.ins }
{
    match &node.kind {
        NodeKind::Agg(inv) | NodeKind::Finish(inv) => {
            are_mapped(nodes, makers, node.ins.as_slice(), inv)
        }
        _ => true,
    }
}

/// Whether these edges come from maps or aggregates of the invocation.
fn are_mapped(nodes: &[Node], makers: &[Option<usize>], edges: &[u32], inv: &Inv) -> bool
    ensures { result ≡ list_all (λ edge. is_mapped_def (words_of inv.now) (made_in nodes.now makers.now edge)) edges.now }
{
    edges
        .iter()
        .all(|edge| is_mapped(nodes, makers, *edge, inv))
}

/// Whether the edge comes from a map or an aggregate of the invocation.
fn is_mapped(nodes: &[Node], makers: &[Option<usize>], edge: u32, inv: &Inv) -> bool
    ensures { result ≡ is_mapped_def (words_of inv.now) (made_in nodes.now makers.now edge) }
{
    match maker_of(nodes, makers, edge) {
        Some(maker) => maps(&maker.kind, inv),
        None => false,
    }
}

/// The node that has made the edge.
fn maker_of<'a>(nodes: &'a [Node], makers: &[Option<usize>], edge: u32) -> Option<&'a Node>
    ensures { option_copied result ≡ maker_in nodes.now makers.now edge }
{
    match makers.get(edge as usize) {
        Some(Some(maker)) => nodes.get(*maker),
        _ => None,
    }
}

/// Whether this is a map or an aggregate of the invocation.
fn maps(kind: &NodeKind, inv: &Inv) -> bool
    ensures { result ≡ is_mapped_def (words_of inv.now) (made_by kind.now) }
{
    match kind {
        NodeKind::Map(other) | NodeKind::Agg(other) => are_same(inv, other),
        _ => false,
    }
}

/// Whether two invocations have the same words.
fn are_same(one: &Inv, other: &Inv) -> bool
    ensures { result ≡ same_words (words_of one.now) (words_of other.now) }
{
    one.is(other)
}
