//! Nodes in the place of one.
ghost use Rattle.std.specs.Prelude.{◌≡◌, ◌++◌, ◌<◌, length, IfOk, IfSome, OnOk};
ghost use Rattle.std.specs.List.{flat_map, range_with_len};
ghost use Rattle.std.specs.Option.{option_map};
ghost use Rattle.fl_rewrites.specs.Keeps.{Answers};
ghost use Rattle.fl_rewrites.specs.Places.{replaced};
ghost use Rattle.fl_rewrites.specs.Replacing.{exchanged as exchanged_def, in_order as in_order_def, renamed_status as renamed_status_def, stand_for, with_nodes as with_nodes_def};

use crate::answers::Rewritten;
use crate::numbers::number;
use crate::rows::row;
use fl_graph::{Graph, Node, Seq, StatusRule};
use ps_lines::Memory;
use std::alloc::Global;

/// The graph with what was found in the place of the node with this number, which the status doesn't name, if that is anything.
pub fn replace(alloc: Global, graph: Graph, node: u32, found: Option<Seq<Node>>) -> Rewritten
    requires { IfSome found (λ nodes. node < length graph.nodes) }
    ensures { Answers (option_map (exchanged_def node graph) found) graph result }
{
    let Some(nodes) = found else {
        return Rewritten::NotApplicable(graph);
    };
    match exchanged(alloc, graph, node, nodes) {
        Ok(made) => Rewritten::Done(made),
        Err(_) => Rewritten::Memory,
    }
}

/// The graph with these nodes in the place of the one with this number.
fn exchanged(alloc: Global, graph: Graph, node: u32, nodes: Seq<Node>) -> Result<Graph, Memory>
    requires { node < length graph.nodes }
    ensures { IfOk result (λ made. made ≡ exchanged_def node graph nodes) }
{
    let graph = with_nodes(alloc, graph, node as usize, nodes.into_vec(), 0)?;
    in_order(alloc, graph)
}

/// The graph with its edges numbered in the order in which they are given.
pub(crate) fn in_order(alloc: Global, graph: Graph) -> Result<Graph, Memory>
    ensures { IfOk result (λ made. made ≡ in_order_def graph) }
{
    let Graph { nodes, status } = graph;
    let nodes = number(alloc, nodes.into_vec())?;
    Ok(Graph {
        nodes: Seq::from_vec(nodes),
        status,
    })
}

/// The graph with these nodes in the place of the one with this number. The status names so many of them, from the first one on, in its place.
///
/// Its time is linear in the graph. Numbers of nodes of 2^32 or more want memory.
pub fn with_nodes(
    alloc: Global,
    graph: Graph,
    place: usize,
    nodes: Vec<Node>,
    named: u32,
) -> Result<Graph, Memory>
    requires { place < length graph.nodes }
    ensures { IfOk result (λ new. new ≡ with_nodes_def place nodes.items named graph) }
{
    let Graph { nodes: old, status } = graph;
    let status = renamed_status(alloc, status, place, nodes.len(), named)?;
    let nodes = replace_node(old.into_vec(), place, nodes)?;
    Ok(Graph {
        nodes: Seq::from_vec(nodes),
        status,
    })
}

/// The nodes with these in the place of the one with this number.
#[tactic(auto, using(crate::proofs::PlaceLemmas::replaced_taken))]
fn replace_node(nodes: Vec<Node>, place: usize, news: Vec<Node>) -> Result<Vec<Node>, Memory>
    requires { place < length nodes.items }
    ensures { IfOk result (λ all. all.items ≡ replaced (λ cell. news.items) place nodes.items) }
{
    let mut nodes = nodes;
    let mut news = news;
    let mut back = nodes.split_off(place + 1)?;
    nodes.truncate(place);
    nodes.append(&mut news)?;
    nodes.append(&mut back)?;
    Ok(nodes)
}

/// The status rule by the numbers that stand for those of nodes.
fn renamed_status(
    alloc: Global,
    status: StatusRule,
    place: usize,
    size: usize,
    named: u32,
) -> Result<StatusRule, Memory>
    ensures { IfOk result (λ new. new ≡ renamed_status_def place size named status) }
{
    match status {
        StatusRule::Fixed(code) => Ok(StatusRule::Fixed(code)),
        StatusRule::Selected { nodes, some, none } => {
            let nodes = Seq::from_vec(standing(alloc, nodes.as_slice(), place, size, named)?);
            Ok(StatusRule::Selected { nodes, some, none })
        }
    }
}

/// The numbers that stand for these.
fn standing(
    alloc: Global,
    nodes: &[u32],
    place: usize,
    size: usize,
    named: u32,
) -> Result<Vec<u32>, Memory>
    ensures { IfOk result (λ new. new.items ≡ flat_map (stand_for place size named) nodes.now) }
{
    let mut all = Vec::new(alloc);
    for node in nodes {
        stand(alloc, &mut all, *node, place, size, named)?;
    }
    Ok(all)
}

/// Puts the numbers that stand for this one behind the others.
fn stand(
    alloc: Global,
    all: &mut Vec<u32>,
    node: u32,
    place: usize,
    size: usize,
    named: u32,
) -> Result<(), Memory>
    ensures { OnOk result (all.new.items ≡ all.old.items ++ stand_for place size named node) }
{
    let number = node as usize;
    if number < place {
        all.push(node)?;
        return Ok(());
    }
    if number == place {
        return stand_in(alloc, all, node, named);
    }
    let Some(sum) = number.checked_add(size) else {
        return Err(Memory);
    };
    let Ok(moved) = u32::try_from(sum - 1) else {
        return Err(Memory);
    };
    all.push(moved)?;
    Ok(())
}

/// Puts so many numbers from this one on behind the others.
fn stand_in(alloc: Global, all: &mut Vec<u32>, from: u32, count: u32) -> Result<(), Memory>
    ensures { OnOk result (all.new.items ≡ all.old.items ++ range_with_len from count) }
{
    let Some(_) = from.checked_add(count) else {
        return Err(Memory);
    };
    let mut row = row(alloc, from, count)?;
    all.append(&mut row)?;
    Ok(())
}
