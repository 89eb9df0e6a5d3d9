//! Small graphs that are rewritten, by the table of rewrites in docs/GRAPHS.md.
//!
//! A graph is written as in `graph`, and a new one as its nodes, parted by bars, each as the name of its kind, its ins and its outs. The
//! numbers of the nodes that its status names stand behind.
use crate::graph::graph;
use fl_combine::{fan_in, map_aggregate};
use fl_graph::{Graph, NodeKind, StatusRule, validate};
use fl_rewrites::Rewritten;
use fl_split::{commute_cat, group_operands, insert_split};
use ps_lines::{Memory, decimal};
use std::alloc::Global;
use std::test::Fail;

/// The name of a kind, without its details.
fn name(kind: &NodeKind) -> &'static str {
    match kind {
        NodeKind::Source(_) => "source",
        NodeKind::Text(_) => "text",
        NodeKind::Split => "split",
        NodeKind::Map(_) => "map",
        NodeKind::Whole(_) => "whole",
        NodeKind::Cat { close } => { if *close { "closing_cat" } else { "cat" } }
        NodeKind::Agg(_) => "agg",
        NodeKind::Finish(_) => "finish",
        NodeKind::TeeFile(_, _) => "tee",
        NodeKind::Drain => "drain",
        NodeKind::Sink(_) => "sink",
    }
}

/// Writes numbers one behind the other, or a hyphen for none.
fn write_numbers(text: &mut Vec<u8>, numbers: &[u32]) -> Result<(), Memory> {
    text.push(b' ')?;
    if numbers.is_empty() {
        text.push(b'-')?;
    }
    for number in numbers {
        decimal(u64::from(*number), text)?;
    }
    Ok(())
}

/// A graph's nodes, and those that its status names.
fn printed(alloc: Global, graph: &Graph) -> Result<Vec<u8>, Memory> {
    let mut text = Vec::new(alloc);
    for node in graph.nodes.as_slice() {
        text.extend_from_slice(name(&node.kind).as_bytes())?;
        write_numbers(&mut text, node.ins.as_slice())?;
        write_numbers(&mut text, node.outs.as_slice())?;
        text.push(b'|')?;
    }
    match &graph.status {
        StatusRule::Fixed(_) => text.push(b'-')?,
        StatusRule::Selected { nodes, .. } => write_numbers(&mut text, nodes.as_slice())?,
    }
    Ok(text)
}

/// What a graph becomes with a split, printed; None where no split applies, or where the graph isn't valid.
fn split_graph(
    alloc: Global,
    text: &str,
    names: &str,
    edge: u32,
    parts: u32,
) -> Result<Option<Vec<u8>>, Fail> {
    let graph = graph(alloc, text, names)?;
    if !validate(&graph) {
        return Ok(None);
    }
    new_printed(alloc, insert_split(alloc, graph, edge, parts))
}

fn new_printed(alloc: Global, rewritten: Rewritten) -> Result<Option<Vec<u8>>, Fail> {
    match rewritten {
        Rewritten::Done(new) => Ok(Some(printed(alloc, &new)?)),
        Rewritten::NotApplicable(_) => Ok(None),
        Rewritten::Memory => Err(Fail::new("memory")),
    }
}

/// Graphs, the nodes that the status names, the edge that is split and in how many parts, and the new graph.
static SPLITS: [(&str, &str, u32, u32, &str); 7] = [
    (
        "input - 0|output 0 -",
        "-",
        0,
        1,
        "source - 0|split 0 1|cat 1 2|sink 2 -|-",
    ),
    (
        "input - 0|output 0 -",
        "-",
        0,
        3,
        "source - 0|split 0 123|cat 123 4|sink 4 -|-",
    ),
    (
        "input - 0|whole=grep,-F,w 0 1|output 1 -",
        "1",
        0,
        2,
        "source - 0|split 0 12|cat 12 3|whole 3 4|sink 4 -| 3",
    ),
    (
        "input - 0|whole=grep,-F,w 0 1|output 1 -",
        "1",
        1,
        2,
        "source - 0|whole 0 1|split 1 23|cat 23 4|sink 4 -| 1",
    ),
    (
        "read=/f - 0|read=/g - 1|closing_cat 01 2|output 2 -",
        "-",
        0,
        2,
        "source - 0|source - 1|split 0 23|cat 23 4|closing_cat 41 5|sink 5 -|-",
    ),
    (
        "input - 0|tee=/f 0 1|output 1 -",
        "-",
        0,
        2,
        "source - 0|split 0 12|cat 12 3|tee 3 4|sink 4 -|-",
    ),
    (
        "input - 0|split 0 12|map=wc,-l 1 3|map=wc,-l 2 4|agg=wc,-l 34 5|finish=wc,-l 5 6|output 6 -",
        "-",
        1,
        2,
        "source - 0|split 0 12|split 1 34|cat 34 5|map 5 6|map 2 7|agg 67 8|finish 8 9|sink 9 -|-",
    ),
];

#[test]
fn a_split_and_a_cat_stand_before_the_node(rt: HostRuntime) -> Result<(), Fail> {
    for &(text, names, edge, parts, wanted) in SPLITS.iter() {
        let new = split_graph(rt.alloc(), text, names, edge, parts)?.ok_or("no split")?;
        assert_eq!(rt; new.as_slice(), wanted.as_bytes(), "{text}, edge {edge}");
    }
    Ok(())
}

/// Edges and numbers of parts, and whether a split applies to `SUMS`.
static SITES: [(u32, u32, bool); 9] = [
    (0, 1, true),
    (0, 16, true),
    (2, 2, true),
    (6, 2, true),
    (0, 0, false),
    (0, 17, false),
    // No such edge, the one of an aggregate, and the one of a finish.
    (7, 2, false),
    (3, 2, false),
    (5, 2, false),
];

/// A graph in which maps are joined.
static SUMS: &str =
    "input - 0|split 0 12|map=wc,-l 1 3|map=wc,-l 2 4|agg=wc,-l 34 5|finish=wc,-l 5 6|output 6 -";

#[test]
fn a_split_applies_where_no_maps_are_joined(rt: HostRuntime) -> Result<(), Fail> {
    for &(edge, parts, applies) in SITES.iter() {
        let new = split_graph(rt.alloc(), SUMS, "-", edge, parts)?;
        assert_eq!(rt; new.is_some(), applies, "edge {edge}, {parts} parts");
    }
    Ok(())
}

/// What a graph becomes where maps stand for a whole, printed; None where none may, or where the graph isn't valid.
fn commuted_graph(
    alloc: Global,
    text: &str,
    names: &str,
    node: u32,
) -> Result<Option<Vec<u8>>, Fail> {
    let graph = graph(alloc, text, names)?;
    if !validate(&graph) {
        return Ok(None);
    }
    new_printed(alloc, commute_cat(alloc, graph, node))
}

/// Graphs, the nodes that the status names, the whole, and the new graph: of a split, of files that any command by bytes takes in parts, and of
/// groups.
static COMMUTED: [(&str, &str, u32, &str); 4] = [
    (
        "input - 0|split 0 12|cat 12 3|whole=tr,a,b 3 4|output 4 -",
        "-",
        3,
        "source - 0|split 0 12|map 1 3|map 2 4|cat 34 5|sink 5 -|-",
    ),
    (
        "input - 0|split 0 12|cat 12 3|whole=grep,-F,w 3 4|output 4 -",
        "3",
        3,
        "source - 0|split 0 12|map 1 3|map 2 4|cat 34 5|sink 5 -| 23",
    ),
    (
        "read=/f - 0|read=/g - 1|cat 01 2|whole=tr,a,b 2 3|output 3 -",
        "-",
        3,
        "source - 0|source - 1|map 0 2|map 1 3|cat 23 4|sink 4 -|-",
    ),
    (
        "read=/f - 0|cat 0 1|read=/g - 2|cat 2 3|cat 13 4|whole=grep,-F,w 4 5|output 5 -",
        "5",
        5,
        "source - 0|cat 0 1|source - 2|cat 2 3|map 1 4|map 3 5|cat 45 6|sink 6 -| 45",
    ),
];

#[test]
fn maps_of_the_parts_stand_for_a_whole(rt: HostRuntime) -> Result<(), Fail> {
    for &(text, names, node, wanted) in COMMUTED.iter() {
        let new = commuted_graph(rt.alloc(), text, names, node)?.ok_or("no maps")?;
        assert_eq!(rt; new.as_slice(), wanted.as_bytes(), "{text}, node {node}");
    }
    Ok(())
}

/// Graphs in which no maps may stand for the node: grep over plain files, over a Cat that closes, a command that is no S, and no whole.
static NOT_COMMUTED: [(&str, u32); 4] = [
    (
        "read=/f - 0|read=/g - 1|cat 01 2|whole=grep,-F,w 2 3|output 3 -",
        3,
    ),
    (
        "input - 0|split 0 12|closing_cat 12 3|whole=tr,a,b 3 4|output 4 -",
        3,
    ),
    (
        "input - 0|split 0 12|cat 12 3|whole=wc,-l 3 4|output 4 -",
        3,
    ),
    (
        "input - 0|split 0 12|cat 12 3|whole=tr,a,b 3 4|output 4 -",
        2,
    ),
];

#[test]
fn no_maps_stand_for_other_nodes(rt: HostRuntime) -> Result<(), Fail> {
    for &(text, node) in NOT_COMMUTED.iter() {
        let new = commuted_graph(rt.alloc(), text, "-", node)?;
        assert!(rt; new.is_none(), "{text}, node {node}");
    }
    Ok(())
}

/// What a graph becomes where maps and an aggregate stand for a whole, printed; None where none may, or where the graph isn't valid.
fn aggregated_graph(alloc: Global, text: &str, node: u32) -> Result<Option<Vec<u8>>, Fail> {
    let graph = graph(alloc, text, "-")?;
    if !validate(&graph) {
        return Ok(None);
    }
    new_printed(alloc, map_aggregate(alloc, graph, node))
}

/// Graphs, the whole, and the new graph, without a finish and with one.
static AGGREGATED: [(&str, u32, &str); 3] = [
    (
        "input - 0|split 0 12|cat 12 3|whole=wc,-l 3 4|output 4 -",
        3,
        "source - 0|split 0 12|map 1 3|map 2 4|agg 34 5|sink 5 -|-",
    ),
    (
        "input - 0|split 0 123|cat 123 4|whole=sort 4 5|output 5 -",
        3,
        "source - 0|split 0 123|map 1 4|map 2 5|map 3 6|agg 456 7|sink 7 -|-",
    ),
    (
        "input - 0|split 0 12|cat 12 3|whole=uniq,-d 3 4|output 4 -",
        3,
        "source - 0|split 0 12|map 1 3|map 2 4|agg 34 5|finish 5 6|sink 6 -|-",
    ),
];

#[test]
fn maps_and_an_aggregate_stand_for_a_whole(rt: HostRuntime) -> Result<(), Fail> {
    for &(text, node, wanted) in AGGREGATED.iter() {
        let new = aggregated_graph(rt.alloc(), text, node)?.ok_or("no aggregate")?;
        assert_eq!(rt; new.as_slice(), wanted.as_bytes(), "{text}, node {node}");
    }
    Ok(())
}

/// Graphs in which no aggregate may stand for the node: of one part, over plain files, and of commands that aren't P.
static NOT_AGGREGATED: [(&str, u32); 4] = [
    ("input - 0|split 0 1|cat 1 2|whole=wc,-l 2 3|output 3 -", 3),
    (
        "read=/f - 0|read=/g - 1|cat 01 2|whole=sort 2 3|output 3 -",
        3,
    ),
    (
        "input - 0|split 0 12|cat 12 3|whole=tail,-n,+2 3 4|output 4 -",
        3,
    ),
    (
        "input - 0|split 0 12|cat 12 3|whole=tee,g 3 4|output 4 -",
        3,
    ),
];

#[test]
fn no_aggregate_stands_for_other_nodes(rt: HostRuntime) -> Result<(), Fail> {
    for &(text, node) in NOT_AGGREGATED.iter() {
        let new = aggregated_graph(rt.alloc(), text, node)?;
        assert!(rt; new.is_none(), "{text}, node {node}");
    }
    Ok(())
}

/// Marks, written as digits.
fn marks(alloc: Global, text: &str) -> Result<Vec<bool>, Fail> {
    let mut marks = Vec::new(alloc);
    for byte in text.as_bytes() {
        marks.push(*byte == b'1')?;
    }
    Ok(marks)
}

/// What a graph becomes with groups of files, printed; None where there may be none, or where the graph isn't valid.
fn grouped_graph(
    alloc: Global,
    text: &str,
    node: u32,
    closed: &str,
    groups: u32,
) -> Result<Option<Vec<u8>>, Fail> {
    let graph = graph(alloc, text, "-")?;
    if !validate(&graph) {
        return Ok(None);
    }
    let closed = marks(alloc, closed)?;
    new_printed(
        alloc,
        group_operands(alloc, graph, node, closed.as_slice(), groups),
    )
}

/// A graph in which four files are joined.
static FILES: &str = "read=/a - 0|read=/b - 1|read=/c - 2|read=/d - 3|cat 0123 4|output 4 -";

/// Which of the files are closed, the number of groups, and the new graph behind its sources.
static GROUPED: [(&str, u32, &str); 4] = [
    ("1111", 2, "cat 01 4|cat 23 5|cat 45 6|sink 6 -|-"),
    ("1100", 2, "cat 01 4|cat 23 5|cat 45 6|sink 6 -|-"),
    ("1111", 3, "cat 0 4|cat 1 5|cat 23 6|cat 456 7|sink 7 -|-"),
    ("0000", 1, "cat 0123 4|cat 4 5|sink 5 -|-"),
];

#[test]
fn groups_of_files_stand_for_a_cat(rt: HostRuntime) -> Result<(), Fail> {
    let sources = b"source - 0|source - 1|source - 2|source - 3|";
    for &(closed, groups, wanted) in GROUPED.iter() {
        let new = grouped_graph(rt.alloc(), FILES, 4, closed, groups)?.ok_or("no groups")?;
        let nodes = new.as_slice().strip_prefix(sources.as_slice());
        let behind = nodes.ok_or("other sources")?;
        assert_eq!(rt; behind, wanted.as_bytes(), "{closed}, {groups} groups");
    }
    Ok(())
}

/// Nodes of `FILES`, marks, and numbers of groups that there may not be: a file before the last group isn't marked, a mark too few, no group and
/// a group too many, and no Cat.
static UNGROUPED: [(u32, &str, u32); 5] = [
    (4, "1011", 2),
    (4, "111", 2),
    (4, "1111", 0),
    (4, "1111", 5),
    (5, "1", 1),
];

/// Graphs in which the node has no groups: the input is among its files, and it closes.
static UNGROUPED_GRAPHS: [&str; 2] = [
    "input - 0|read=/b - 1|cat 01 2|output 2 -",
    "read=/a - 0|read=/b - 1|closing_cat 01 2|output 2 -",
];

#[test]
fn no_groups_stand_for_other_nodes(rt: HostRuntime) -> Result<(), Fail> {
    for &(node, closed, groups) in UNGROUPED.iter() {
        let new = grouped_graph(rt.alloc(), FILES, node, closed, groups)?;
        assert!(rt; new.is_none(), "node {node}, {closed}, {groups} groups");
    }
    for &text in UNGROUPED_GRAPHS.iter() {
        let new = grouped_graph(rt.alloc(), text, 2, "11", 2)?;
        assert!(rt; new.is_none(), "{text}");
    }
    Ok(())
}

/// What a graph becomes with a tree of aggregates, printed; None where there may be none, or where the graph isn't valid.
fn fanned_graph(alloc: Global, text: &str, node: u32) -> Result<Option<Vec<u8>>, Fail> {
    let graph = graph(alloc, text, "-")?;
    if !validate(&graph) {
        return Ok(None);
    }
    new_printed(alloc, fan_in(alloc, graph, node))
}

/// Graphs, the aggregate, and the new graph.
static FANNED: [(&str, u32, &str); 2] = [
    (
        "input - 0|split 0 123|map=wc,-l 1 4|map=wc,-l 2 5|map=wc,-l 3 6|agg=wc,-l 456 7|output 7 -",
        5,
        "source - 0|split 0 123|map 1 4|map 2 5|map 3 6|agg 45 7|agg 76 8|sink 8 -|-",
    ),
    (
        "input - 0|split 0 1234|map=uniq 1 5|map=uniq 2 6|map=uniq 3 7|map=uniq 4 8|agg=uniq 5678 9|output 9 -",
        6,
        "source - 0|split 0 1234|map 1 5|map 2 6|map 3 7|map 4 8|agg 56 9|agg 78 10|agg 910 11|sink 11 -|-",
    ),
];

#[test]
fn a_tree_stands_for_an_aggregate(rt: HostRuntime) -> Result<(), Fail> {
    for &(text, node, wanted) in FANNED.iter() {
        let new = fanned_graph(rt.alloc(), text, node)?.ok_or("no tree")?;
        assert_eq!(rt; new.as_slice(), wanted.as_bytes(), "{text}, node {node}");
    }
    Ok(())
}

#[test]
fn no_tree_stands_for_two_ins_or_another_node(rt: HostRuntime) -> Result<(), Fail> {
    for node in [4, 3] {
        let new = fanned_graph(rt.alloc(), SUMS, node)?;
        assert!(rt; new.is_none(), "node {node}");
    }
    Ok(())
}
