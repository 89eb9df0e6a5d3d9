//! The graphs of pipelines, as they come to an engine: their nodes, stage by stage, and the status.
//!
//! A node is written as the number of its stage, its kind, and the edges that lead to it and from it. Which nodes there are, and in which
//! order, is that of the rules for the graph of a segment (docs/GRAPHS.md).
ghost use Rattle.std.specs.Prelude.{ℕ, List, Option, None};

use crate::pipelines::run;
use fl_engines::Engine;
use fl_graph::{From, Graph, Node, NodeKind, StatusRule, To};
use ps_lines::{Memory, Text};
use ps_world::{Path, WorldErr};
use std::alloc::{AllocError, Global};
use std::marker::PhantomData;
use std::process::Abort;
use std::sync::Wait;
use std::test::Fail;
use std::thread::Threads;

/// An engine that writes down the graphs that it runs.
#[derive(Drop)]
struct Noting<H> {
    width: u32,
    noted: String,
    alloc: Global,
    /// It has no threads, so no value of their host.
    host: PhantomData<H>,
}

impl<H: Threads + Wait + Sync> Engine for Noting<H> {
    type Host = H;

    ghost used = { λ engine. None };

    fn host(&self, _graph: &Graph) -> Option<&H> {
        None
    }

    fn width(&self) -> u32 {
        self.width
    }

    fn spread_over(&mut self, width: u32) {
        self.width = width;
    }

    fn note(&mut self, graph: &Graph) -> Result<(), Memory> {
        for node in graph.nodes.as_slice() {
            add_node(self.alloc, &mut self.noted, node)?;
        }
        add_status(self.alloc, &mut self.noted, &graph.status)?;
        Ok(())
    }
}

/// Writes down bytes.
fn add_bytes(noted: &mut String, bytes: &[u8]) -> Result<(), AllocError> {
    for byte in bytes {
        noted.push(char::from(*byte))?;
    }
    Ok(())
}

/// Writes down a node.
fn add_node(alloc: Global, noted: &mut String, node: &Node) -> Result<(), AllocError> {
    add_stage(alloc, noted, node.stage)?;
    add_kind(alloc, noted, &node.kind)?;
    add_edges(alloc, noted, node.ins.as_slice())?;
    add_edges(alloc, noted, node.outs.as_slice())?;
    noted.push_str("; ")
}

/// Writes down the number of a node's stage.
fn add_stage(alloc: Global, noted: &mut String, stage: u32) -> Result<(), AllocError> {
    let stage = format!(in alloc; "{stage} ")?;
    noted.push_str(stage.as_str())
}

/// Writes down the edges that lead to a node or from it.
fn add_edges(alloc: Global, noted: &mut String, edges: &[u32]) -> Result<(), AllocError> {
    let edges = format!(in alloc; " {edges:?}")?;
    noted.push_str(edges.as_str())
}

/// Writes down what a node does.
fn add_kind(alloc: Global, noted: &mut String, kind: &NodeKind) -> Result<(), AllocError> {
    match kind {
        NodeKind::Source(From::Input) => noted.push_str("Source"),
        NodeKind::Source(From::File(path)) => add_source(alloc, noted, path),
        NodeKind::Text(text) => add_text(noted, text),
        NodeKind::Whole(inv) => add_words(noted, "Whole", inv.words()),
        NodeKind::Map(inv) => add_words(noted, "Map", inv.words()),
        NodeKind::Agg(inv) => add_words(noted, "Agg", inv.words()),
        NodeKind::Finish(inv) => add_words(noted, "Finish", inv.words()),
        NodeKind::Split => noted.push_str("Split"),
        NodeKind::Cat { close: false } => noted.push_str("Cat"),
        NodeKind::Cat { close: true } => noted.push_str("Cat closing"),
        NodeKind::Drain => noted.push_str("Drain"),
        NodeKind::Sink(To::Output) => noted.push_str("Sink"),
        _ => noted.push_str("another"),
    }
}

/// Writes down a text.
fn add_text(noted: &mut String, text: &Text) -> Result<(), AllocError> {
    noted.push_str("Text")?;
    add_bytes(noted, text.as_slice())
}

/// Writes down a source of a file.
fn add_source(alloc: Global, noted: &mut String, path: &Path) -> Result<(), AllocError> {
    noted.push_str("Source ")?;
    add_bytes(noted, path.spell(alloc)?.as_slice())
}

/// Writes down a node of this kind with its words.
fn add_words(noted: &mut String, kind: &str, words: &[Vec<u8>]) -> Result<(), AllocError> {
    noted.push_str(kind)?;
    for word in words {
        noted.push(' ')?;
        add_bytes(noted, word.as_slice())?;
    }
    Ok(())
}

/// Writes down how the status comes about.
fn add_status(alloc: Global, noted: &mut String, status: &StatusRule) -> Result<(), AllocError> {
    let rule = match status {
        StatusRule::Fixed(status) => format!(in alloc; "status {status}")?,
        StatusRule::Selected { nodes, some, none } => {
            format!(in alloc; "status of {:?} {some} {none}", nodes.as_slice())?
        }
    };
    noted.push_str(rule.as_str())
}

/// The graph of a pipeline at a width.
fn graph_of<H: Abort + Threads + Wait + Sync>(
    rt: &H,
    alloc: Global,
    width: u32,
    pipeline: &str,
) -> Result<String, WorldErr> {
    let mut engine = Noting::<H> {
        width,
        noted: String::new(alloc),
        alloc,
        host: PhantomData,
    };
    run(rt, alloc, pipeline, &mut engine)?;
    Ok(engine.noted)
}

/// A pipeline, and its graph at width 1.
static GRAPHS: [(&str, &str); 14] = [
    ("cat", "0 Source [] [0]; 0 Sink [0] []; status 0"),
    (
        "grep x",
        "0 Source [] [0]; 0 Whole grep x [0] [1]; 0 Sink [1] []; status of [1] 0 1",
    ),
    (
        "grep -q x f no",
        "0 Source /w/f [] [0]; 0 Whole grep -q x f  [0] [1]; 0 Sink [1] []; status of [1] 0 2",
    ),
    (
        "grep -c x f no",
        "0 Source /w/f [] [0]; 0 Whole grep -c x f  [0] [1]; 0 Sink [1] []; status 2",
    ),
    (
        "cat f g | wc -l",
        "0 Source /w/f [] [0]; 0 Source /w/g [] [1]; 0 Cat [0, 1] [2]; 1 Whole wc -l [2] [3]; 1 Sink [3] []; status 0",
    ),
    (
        "grep x f | cut -b 1 | sort | uniq -c",
        "0 Source /w/f [] [0]; 0 Whole grep x f [0] [1]; 1 Whole cut -b 1 [1] [2]; 2 Whole sort [2] [3]; 3 Whole uniq -c [3] [4]; 3 Sink [4] []; status 0",
    ),
    (
        "cat | grep x f",
        "0 Source [] [0]; 1 Drain [0] []; 1 Source /w/f [] [1]; 1 Whole grep x f [1] [2]; 1 Sink [2] []; status of [3] 0 1",
    ),
    (
        "grep x | cat",
        "0 Source [] [0]; 0 Whole grep x [0] [1]; 1 Whole cat [1] [2]; 1 Sink [2] []; status 0",
    ),
    (
        "cat | grep -q x",
        "0 Source [] [0]; 1 Whole grep -q x [0] [1]; 1 Sink [1] []; status of [1] 0 1",
    ),
    (
        "cat /dev/null | uniq -c",
        "0 Text [] [0]; 1 Whole uniq -c [0] [1]; 1 Sink [1] []; status 0",
    ),
    (
        "tail -n +2 f | wc -c",
        "0 Source /w/f [] [0]; 0 Whole tail -n +2 f [0] [1]; 1 Whole wc -c [1] [2]; 1 Sink [2] []; status 0",
    ),
    (
        "cut -c 1 f | cat g | tail -n 1",
        "0 Source /w/f [] [0]; 0 Whole cut -c 1 f [0] [1]; 1 Drain [1] []; 1 Source /w/g [] [2]; 1 Whole cat g [2] [3]; 2 Whole tail -n 1 [3] [4]; 2 Sink [4] []; status 0",
    ),
    (
        "sort f - | cat g - | wc -l",
        "0 Source /w/f [] [0]; 0 Source [] [1]; 0 Cat closing [0, 1] [2]; 0 Whole sort f - [2] [3]; 1 Source /w/g [] [4]; 1 Cat [4, 3] [5]; 1 Whole cat g - [5] [6]; 2 Whole wc -l [6] [7]; 2 Sink [7] []; status 0",
    ),
    (
        "head -n 1 f g | cat | grep -F x - no",
        "0 Source /w/f [] [0]; 0 Source /w/g [] [1]; 0 Whole head -n 1 f g [0, 1] [2]; 1 Whole cat [2] [3]; 2 Whole grep -F x -  [3] [4]; 2 Sink [4] []; status 2",
    ),
];

#[test]
fn stages_have_their_nodes_in_order(rt: HostRuntime) -> Result<(), Fail> {
    for &(pipeline, graph) in GRAPHS.iter() {
        let noted = graph_of(&rt, rt.alloc(), 1, pipeline)?;
        let is_right = noted.as_str() == graph;
        assert!(rt; is_right, "{pipeline}: {noted}");
    }
    Ok(())
}

/// A width, a pipeline, and its graph at the width.
static SPREAD: [(u32, &str, &str); 39] = [
    (2, "cat", "0 Source [] [0]; 0 Sink [0] []; status 0"),
    (2, "cat f", "0 Source /w/f [] [0]; 0 Sink [0] []; status 0"),
    (
        2,
        "grep x f",
        "0 Source /w/f [] [0]; 0 Split [0] [1, 2]; 0 Map grep x f [1] [3]; 0 Map grep x f [2] [4]; 0 Cat [3, 4] [5]; 0 Sink [5] []; status of [2, 3] 0 1",
    ),
    (
        3,
        "wc f",
        "0 Source /w/f [] [0]; 0 Split [0] [1, 2, 3]; 0 Map wc f [1] [4]; 0 Map wc f [2] [5]; 0 Map wc f [3] [6]; 0 Agg wc f [4, 5] [7]; 0 Agg wc f [7, 6] [8]; 0 Finish wc f [8] [9]; 0 Sink [9] []; status 0",
    ),
    (
        2,
        "tr -s a",
        "0 Source [] [0]; 0 Split [0] [1, 2]; 0 Map tr -s a [1] [3]; 0 Map tr -s a [2] [4]; 0 Agg tr -s a [3, 4] [5]; 0 Sink [5] []; status 0",
    ),
    (
        3,
        "uniq -d f",
        "0 Source /w/f [] [0]; 0 Split [0] [1, 2, 3]; 0 Map uniq -d f [1] [4]; 0 Map uniq -d f [2] [5]; 0 Map uniq -d f [3] [6]; 0 Agg uniq -d f [4, 5] [7]; 0 Agg uniq -d f [7, 6] [8]; 0 Finish uniq -d f [8] [9]; 0 Sink [9] []; status 0",
    ),
    (
        2,
        "sort -u f g",
        "0 Source /w/f [] [0]; 0 Source /w/g [] [1]; 0 Cat closing [0, 1] [2]; 0 Split [2] [3, 4]; 0 Map sort -u f g [3] [5]; 0 Map sort -u f g [4] [6]; 0 Agg sort -u f g [5, 6] [7]; 0 Sink [7] []; status 0",
    ),
    (
        4,
        "head -n 1 f g",
        "0 Source /w/f [] [0]; 0 Source /w/g [] [1]; 0 Whole head -n 1 f g [0, 1] [2]; 0 Sink [2] []; status 0",
    ),
    (
        2,
        "cat f f | grep x",
        "0 Source /w/f [] [0]; 0 Source /w/f [] [1]; 0 Cat [0] [2]; 0 Cat [1] [3]; 1 Map grep x [2] [4]; 1 Map grep x [3] [5]; 1 Cat [4, 5] [6]; 1 Sink [6] []; status of [4, 5] 0 1",
    ),
    (
        2,
        "cat g f | grep x",
        "0 Source /w/g [] [0]; 0 Source /w/f [] [1]; 0 Cat [0, 1] [2]; 1 Split [2] [3, 4]; 1 Map grep x [3] [5]; 1 Map grep x [4] [6]; 1 Cat [5, 6] [7]; 1 Sink [7] []; status of [4, 5] 0 1",
    ),
    (
        2,
        "cat f f g | tr a b",
        "0 Source /w/f [] [0]; 0 Source /w/f [] [1]; 0 Source /w/g [] [2]; 0 Cat [0] [3]; 0 Cat [1, 2] [4]; 1 Map tr a b [3] [5]; 1 Map tr a b [4] [6]; 1 Cat [5, 6] [7]; 1 Sink [7] []; status 0",
    ),
    (
        2,
        "cat f - | sort",
        "0 Source /w/f [] [0]; 0 Source [] [1]; 0 Cat [0, 1] [2]; 1 Split [2] [3, 4]; 1 Map sort [3] [5]; 1 Map sort [4] [6]; 1 Agg sort [5, 6] [7]; 1 Sink [7] []; status 0",
    ),
    (
        2,
        "cat /dev/null | uniq -c",
        "0 Text [] [0]; 1 Split [0] [1, 2]; 1 Map uniq -c [1] [3]; 1 Map uniq -c [2] [4]; 1 Agg uniq -c [3, 4] [5]; 1 Sink [5] []; status 0",
    ),
    (
        2,
        "grep x f | cut -b 1 | sort | uniq -c",
        "0 Source /w/f [] [0]; 0 Split [0] [1, 2]; 0 Map grep x f [1] [3]; 0 Map grep x f [2] [4]; 1 Map cut -b 1 [3] [5]; 1 Map cut -b 1 [4] [6]; 2 Map sort [5] [7]; 2 Map sort [6] [8]; 2 Agg sort [7, 8] [9]; 3 Split [9] [10, 11]; 3 Map uniq -c [10] [12]; 3 Map uniq -c [11] [13]; 3 Agg uniq -c [12, 13] [14]; 3 Sink [14] []; status 0",
    ),
    (
        3,
        "tr a b | grep -c b",
        "0 Source [] [0]; 0 Split [0] [1, 2, 3]; 0 Map tr a b [1] [4]; 0 Map tr a b [2] [5]; 0 Map tr a b [3] [6]; 1 Map grep -c b [4] [7]; 1 Map grep -c b [5] [8]; 1 Map grep -c b [6] [9]; 1 Agg grep -c b [7, 8] [10]; 1 Agg grep -c b [10, 9] [11]; 1 Sink [11] []; status of [5, 6, 7] 0 1",
    ),
    (
        2,
        "sort -r | head -n 1",
        "0 Source [] [0]; 0 Split [0] [1, 2]; 0 Map sort -r [1] [3]; 0 Map sort -r [2] [4]; 0 Agg sort -r [3, 4] [5]; 1 Split [5] [6, 7]; 1 Map head -n 1 [6] [8]; 1 Map head -n 1 [7] [9]; 1 Agg head -n 1 [8, 9] [10]; 1 Sink [10] []; status 0",
    ),
    (
        2,
        "paste f -",
        "0 Source /w/f [] [0]; 0 Source [] [1]; 0 Whole paste f - [0, 1] [2]; 0 Sink [2] []; status 0",
    ),
    (
        2,
        "tail -n +2 f | wc -c",
        "0 Source /w/f [] [0]; 0 Whole tail -n +2 f [0] [1]; 1 Split [1] [2, 3]; 1 Map wc -c [2] [4]; 1 Map wc -c [3] [5]; 1 Agg wc -c [4, 5] [6]; 1 Sink [6] []; status 0",
    ),
    (
        2,
        "cat | grep x f",
        "0 Source [] [0]; 1 Drain [0] []; 1 Source /w/f [] [1]; 1 Split [1] [2, 3]; 1 Map grep x f [2] [4]; 1 Map grep x f [3] [5]; 1 Cat [4, 5] [6]; 1 Sink [6] []; status of [4, 5] 0 1",
    ),
    (
        2,
        "grep x | cat",
        "0 Source [] [0]; 0 Split [0] [1, 2]; 0 Map grep x [1] [3]; 0 Map grep x [2] [4]; 1 Map cat [3] [5]; 1 Map cat [4] [6]; 1 Cat [5, 6] [7]; 1 Sink [7] []; status 0",
    ),
    (
        2,
        "cat | grep -q x",
        "0 Source [] [0]; 1 Split [0] [1, 2]; 1 Map grep -q x [1] [3]; 1 Map grep -q x [2] [4]; 1 Cat [3, 4] [5]; 1 Sink [5] []; status of [2, 3] 0 1",
    ),
    // Parts that are closed go on to the next stage as they are.
    (
        2,
        "tr a b | grep x",
        "0 Source [] [0]; 0 Split [0] [1, 2]; 0 Map tr a b [1] [3]; 0 Map tr a b [2] [4]; 1 Map grep x [3] [5]; 1 Map grep x [4] [6]; 1 Cat [5, 6] [7]; 1 Sink [7] []; status of [4, 5] 0 1",
    ),
    (
        2,
        "cat f | cut -c 1 | sort",
        "0 Source /w/f [] [0]; 1 Split [0] [1, 2]; 1 Map cut -c 1 [1] [3]; 1 Map cut -c 1 [2] [4]; 2 Map sort [3] [5]; 2 Map sort [4] [6]; 2 Agg sort [5, 6] [7]; 2 Sink [7] []; status 0",
    ),
    // They are joined where the next stage isn't spread.
    (
        2,
        "cat f | cut -c 1 | paste -s -",
        "0 Source /w/f [] [0]; 1 Split [0] [1, 2]; 1 Map cut -c 1 [1] [3]; 1 Map cut -c 1 [2] [4]; 1 Cat [3, 4] [5]; 2 Whole paste -s - [5] [6]; 2 Sink [6] []; status 0",
    ),
    // Maps are aggregated two by two, the greater half first, and finished where their map isn't the output yet.
    (
        3,
        "grep x f | wc -l",
        "0 Source /w/f [] [0]; 0 Split [0] [1, 2, 3]; 0 Map grep x f [1] [4]; 0 Map grep x f [2] [5]; 0 Map grep x f [3] [6]; 1 Map wc -l [4] [7]; 1 Map wc -l [5] [8]; 1 Map wc -l [6] [9]; 1 Agg wc -l [7, 8] [10]; 1 Agg wc -l [10, 9] [11]; 1 Sink [11] []; status 0",
    ),
    (
        2,
        "wc -l f | cat",
        "0 Source /w/f [] [0]; 0 Split [0] [1, 2]; 0 Map wc -l f [1] [3]; 0 Map wc -l f [2] [4]; 0 Agg wc -l f [3, 4] [5]; 0 Finish wc -l f [5] [6]; 1 Split [6] [7, 8]; 1 Map cat [7] [9]; 1 Map cat [8] [10]; 1 Cat [9, 10] [11]; 1 Sink [11] []; status 0",
    ),
    (
        3,
        "tail -n 1 f",
        "0 Source /w/f [] [0]; 0 Split [0] [1, 2, 3]; 0 Map tail -n 1 f [1] [4]; 0 Map tail -n 1 f [2] [5]; 0 Map tail -n 1 f [3] [6]; 0 Agg tail -n 1 f [4, 5] [7]; 0 Agg tail -n 1 f [7, 6] [8]; 0 Sink [8] []; status 0",
    ),
    (
        2,
        "head -n 1 | tr -s a",
        "0 Source [] [0]; 0 Split [0] [1, 2]; 0 Map head -n 1 [1] [3]; 0 Map head -n 1 [2] [4]; 0 Agg head -n 1 [3, 4] [5]; 1 Split [5] [6, 7]; 1 Map tr -s a [6] [8]; 1 Map tr -s a [7] [9]; 1 Agg tr -s a [8, 9] [10]; 1 Sink [10] []; status 0",
    ),
    (
        2,
        "uniq -c | grep -c x",
        "0 Source [] [0]; 0 Split [0] [1, 2]; 0 Map uniq -c [1] [3]; 0 Map uniq -c [2] [4]; 0 Agg uniq -c [3, 4] [5]; 1 Split [5] [6, 7]; 1 Map grep -c x [6] [8]; 1 Map grep -c x [7] [9]; 1 Agg grep -c x [8, 9] [10]; 1 Sink [10] []; status of [6, 7] 0 1",
    ),
    (
        2,
        "uniq -d f",
        "0 Source /w/f [] [0]; 0 Split [0] [1, 2]; 0 Map uniq -d f [1] [3]; 0 Map uniq -d f [2] [4]; 0 Agg uniq -d f [3, 4] [5]; 0 Finish uniq -d f [5] [6]; 0 Sink [6] []; status 0",
    ),
    // Parts that need not end in a newline are joined for a utility that reads lines, and taken by one that reads bytes.
    (
        2,
        "tr -d '\\n' | grep x",
        "0 Source [] [0]; 0 Split [0] [1, 2]; 0 Map tr -d '\\n' [1] [3]; 0 Map tr -d '\\n' [2] [4]; 0 Cat [3, 4] [5]; 1 Split [5] [6, 7]; 1 Map grep x [6] [8]; 1 Map grep x [7] [9]; 1 Cat [8, 9] [10]; 1 Sink [10] []; status of [6, 7] 0 1",
    ),
    (
        2,
        "tr -d '\\n' | tr a b",
        "0 Source [] [0]; 0 Split [0] [1, 2]; 0 Map tr -d '\\n' [1] [3]; 0 Map tr -d '\\n' [2] [4]; 1 Map tr a b [3] [5]; 1 Map tr a b [4] [6]; 1 Cat [5, 6] [7]; 1 Sink [7] []; status 0",
    ),
    // The files of a cat go in groups where all before the last group are closed.
    (
        2,
        "cat f f g f | grep x",
        "0 Source /w/f [] [0]; 0 Source /w/f [] [1]; 0 Source /w/g [] [2]; 0 Source /w/f [] [3]; 0 Cat [0, 1] [4]; 0 Cat [2, 3] [5]; 1 Map grep x [4] [6]; 1 Map grep x [5] [7]; 1 Cat [6, 7] [8]; 1 Sink [8] []; status of [6, 7] 0 1",
    ),
    (
        3,
        "cat f f f f g | wc -l",
        "0 Source /w/f [] [0]; 0 Source /w/f [] [1]; 0 Source /w/f [] [2]; 0 Source /w/f [] [3]; 0 Source /w/g [] [4]; 0 Cat [0] [5]; 0 Cat [1, 2] [6]; 0 Cat [3, 4] [7]; 1 Map wc -l [5] [8]; 1 Map wc -l [6] [9]; 1 Map wc -l [7] [10]; 1 Agg wc -l [8, 9] [11]; 1 Agg wc -l [11, 10] [12]; 1 Sink [12] []; status 0",
    ),
    (
        2,
        "cat f g f f | grep x",
        "0 Source /w/f [] [0]; 0 Source /w/g [] [1]; 0 Source /w/f [] [2]; 0 Source /w/f [] [3]; 0 Cat [0, 1, 2, 3] [4]; 1 Split [4] [5, 6]; 1 Map grep x [5] [7]; 1 Map grep x [6] [8]; 1 Cat [7, 8] [9]; 1 Sink [9] []; status of [6, 7] 0 1",
    ),
    (
        2,
        "cat f - f | grep x",
        "0 Source /w/f [] [0]; 0 Source [] [1]; 0 Source /w/f [] [2]; 0 Cat [0, 1, 2] [3]; 1 Split [3] [4, 5]; 1 Map grep x [4] [6]; 1 Map grep x [5] [7]; 1 Cat [6, 7] [8]; 1 Sink [8] []; status of [5, 6] 0 1",
    ),
    (
        3,
        "cat f f | sort",
        "0 Source /w/f [] [0]; 0 Source /w/f [] [1]; 0 Cat [0, 1] [2]; 1 Split [2] [3, 4, 5]; 1 Map sort [3] [6]; 1 Map sort [4] [7]; 1 Map sort [5] [8]; 1 Agg sort [6, 7] [9]; 1 Agg sort [9, 8] [10]; 1 Sink [10] []; status 0",
    ),
    // Several inputs are not cut.
    (
        2,
        "grep x f g",
        "0 Source /w/f [] [0]; 0 Source /w/g [] [1]; 0 Whole grep x f g [0, 1] [2]; 0 Sink [2] []; status of [2] 0 1",
    ),
    // Nor is an input that a utility reads as a whole.
    (
        16,
        "tail -n +2",
        "0 Source [] [0]; 0 Whole tail -n +2 [0] [1]; 0 Sink [1] []; status 0",
    ),
];

#[test]
fn utilities_are_spread_over_parts(rt: HostRuntime) -> Result<(), Fail> {
    for &(width, pipeline, graph) in SPREAD.iter() {
        let noted = graph_of(&rt, rt.alloc(), width, pipeline)?;
        let is_right = noted.as_str() == graph;
        assert!(rt; is_right, "{pipeline}: {noted}");
    }
    Ok(())
}
