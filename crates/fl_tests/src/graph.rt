//! Small graphs, and whether they are valid by the conditions that `validate` names.
//!
//! A graph is written as its nodes, parted by bars, each as its kind, its ins and its outs; a node's edges are digits, and a hyphen
//! is none.
use fl_graph::laws::each_number_is_an_edge;
use fl_graph::{From, Graph, Node, NodeKind, Seq, StatusRule, To, validate};
use ps_lines::{Memory, Text};
use ps_world::{Mode, Path};
use std::alloc::{AllocError, Global};
use std::process::Abort;
use std::test::Fail;
use ut_args::{ArgFault, Inv, read_inv};

/// The parts of a text between these bytes.
fn parts(alloc: Global, text: &[u8], between: u8) -> Result<Vec<Vec<u8>>, AllocError> {
    let mut parts = Vec::new(alloc);
    for part in text.split(|byte| *byte == between) {
        parts.push(Vec::from_slice(alloc, part)?)?;
    }
    Ok(parts)
}

/// The numbers that a text's digits are.
fn numbers(alloc: Global, text: &[u8]) -> Result<Vec<u32>, AllocError> {
    let mut numbers = Vec::new(alloc);
    for byte in text {
        if *byte != b'-' {
            numbers.push(u32::from(byte.saturating_sub(b'0')))?;
        }
    }
    Ok(numbers)
}

/// The invocation whose words are parted by commas.
fn invocation(alloc: Global, text: &[u8]) -> Result<Option<Inv>, Memory> {
    let words = parts(alloc, text, b',')?;
    if words.is_empty() {
        return Ok(None);
    }
    match read_inv(alloc, words.as_slice()) {
        Ok(inv) => Ok(Some(inv)),
        Err(ArgFault::Memory) => Err(Memory),
        Err(_) => Ok(None),
    }
}

/// A kind without details.
fn plain_kind(alloc: Global, name: &[u8]) -> Result<Option<NodeKind>, Memory> {
    if name == b"input".as_slice() {
        return Ok(Some(NodeKind::Source(From::Input)));
    }
    if name == b"output".as_slice() {
        return Ok(Some(NodeKind::Sink(To::Output)));
    }
    if name == b"text".as_slice() {
        return Ok(Some(NodeKind::Text(Text::copy_of(alloc, b"a\nb")?)));
    }
    if name == b"split".as_slice() {
        return Ok(Some(NodeKind::Split));
    }
    if name == b"cat".as_slice() {
        return Ok(Some(NodeKind::Cat { close: false }));
    }
    if name == b"closing_cat".as_slice() {
        return Ok(Some(NodeKind::Cat { close: true }));
    }
    if name == b"drain".as_slice() {
        return Ok(Some(NodeKind::Drain));
    }
    Ok(None)
}

/// A kind with an invocation.
fn running_kind(name: &[u8], inv: Inv) -> Option<NodeKind> {
    if name == b"map".as_slice() {
        return Some(NodeKind::Map(inv));
    }
    if name == b"whole".as_slice() {
        return Some(NodeKind::Whole(inv));
    }
    if name == b"agg".as_slice() {
        return Some(NodeKind::Agg(inv));
    }
    if name == b"finish".as_slice() {
        return Some(NodeKind::Finish(inv));
    }
    // An invocation is let go by a call: going out of scope is proved a command at a time.
    drop(inv);
    None
}

/// A kind with a file.
fn file_kind(name: &[u8], path: Path) -> Option<NodeKind> {
    if name == b"read".as_slice() {
        return Some(NodeKind::Source(From::File(path)));
    }
    if name == b"write".as_slice() {
        return Some(NodeKind::Sink(To::File(path, Mode::Fresh)));
    }
    if name == b"tee".as_slice() {
        return Some(NodeKind::TeeFile(path, Mode::Append));
    }
    None
}

/// A kind, with its details after an equals sign.
fn kind(alloc: Global, text: &[u8]) -> Result<Option<NodeKind>, Memory> {
    let mut parts = text.split(|byte| *byte == b'=');
    let name = parts.next().unwrap_or(&[]);
    match parts.next() {
        None => plain_kind(alloc, name),
        Some(details) => detailed_kind(alloc, name, details),
    }
}

fn detailed_kind(alloc: Global, name: &[u8], details: &[u8]) -> Result<Option<NodeKind>, Memory> {
    match Path::read(alloc, details)? {
        Some(path) => Ok(file_kind(name, path)),
        None => invoked_kind(alloc, name, details),
    }
}

fn invoked_kind(alloc: Global, name: &[u8], details: &[u8]) -> Result<Option<NodeKind>, Memory> {
    match invocation(alloc, details)? {
        Some(inv) => Ok(running_kind(name, inv)),
        None => Ok(None),
    }
}

/// A node, in the stage 0.
fn node(alloc: Global, text: &[u8]) -> Result<Node, Fail> {
    let mut parts = text.split(|byte| *byte == b' ');
    let name = parts.next().unwrap_or(&[]);
    let ins = parts.next().unwrap_or(&[]);
    let outs = parts.next().unwrap_or(&[]);
    let kind = kind(alloc, name)?.ok_or("no kind of node")?;
    node_of(alloc, kind, ins, outs)
}

fn node_of(alloc: Global, kind: NodeKind, ins: &[u8], outs: &[u8]) -> Result<Node, Fail> {
    let ins = Seq::from_vec(numbers(alloc, ins)?);
    let outs = Seq::from_vec(numbers(alloc, outs)?);
    Ok(Node {
        kind,
        ins,
        outs,
        stage: 0,
    })
}

/// A graph whose status is 0, or where there are names that of the nodes named.
pub(crate) fn graph(alloc: Global, text: &str, names: &str) -> Result<Graph, Fail> {
    let status = status(alloc, names.as_bytes())?;
    let nodes = nodes(alloc, text.as_bytes())?;
    Ok(Graph {
        nodes: Seq::from_vec(nodes),
        status,
    })
}

fn status(alloc: Global, names: &[u8]) -> Result<StatusRule, Fail> {
    let named = numbers(alloc, names)?;
    if named.is_empty() {
        return Ok(StatusRule::Fixed(0));
    }
    Ok(StatusRule::Selected {
        nodes: Seq::from_vec(named),
        some: 0,
        none: 1,
    })
}

fn nodes(alloc: Global, text: &[u8]) -> Result<Vec<Node>, Fail> {
    let mut nodes = Vec::new(alloc);
    for part in text.split(|byte| *byte == b'|') {
        nodes.push(node(alloc, part)?)?;
    }
    Ok(nodes)
}

/// Whether each graph of a table, with the nodes that its status names, is valid or not.
fn expect_all(
    rt: &impl Abort,
    alloc: Global,
    cases: &[(&str, &str)],
    valid: bool,
) -> Result<(), Fail> {
    for (text, names) in cases {
        let graph = graph(alloc, text, names)?;
        let answer = validate(&graph);
        if answer {
            each_number_is_an_edge(&graph);
        }
        assert!(rt; answer == valid, "{text} {names}");
    }
    Ok(())
}

static VALID: [(&str, &str); 25] = [
    ("input - 0|output 0 -", "-"),
    ("read=/f - 0|write=/g 0 -", "-"),
    ("text - 0|drain 0 -", "-"),
    ("read=/f - 0|whole=grep,-F,w 0 1|output 1 -", "1"),
    ("input - 0|whole=wc,-l 0 1|output 1 -", "-"),
    ("input - 0|whole=wc,-w 0 1|output 1 -", "-"),
    ("input - 0|text - 1|whole=wc,a,b 01 2|output 2 -", "-"),
    ("input - 0|text - 1|whole=paste,a,b 01 2|output 2 -", "-"),
    ("input - 0|whole=paste,-,- 0 1|output 1 -", "-"),
    ("input - 0|text - 1|whole=paste,-s,-,- 01 2|output 2 -", "-"),
    ("input - 0|whole=tr,-s,a 0 1|output 1 -", "-"),
    ("input - 0|whole=grep,-n,w 0 1|output 1 -", "1"),
    ("input - 0|map=tail 0 1|output 1 -", "-"),
    ("whole=cat, - 0|output 0 -", "-"),
    ("input - 0|split 0 1|drain 1 -", "-"),
    ("input - 1|output 1 -|text - 0|drain 0 -", "-"),
    ("read=/f - 0|read=/g - 1|closing_cat 01 2|output 2 -", "-"),
    ("read=/f - 0|read=/f - 1|cat 10 2|output 2 -", "-"),
    (
        "input - 0|split 0 12|map=grep,-F,w 1 3|map=grep,-F,w 2 4|cat 34 5|output 5 -",
        "23",
    ),
    (
        "input - 0|split 0 12|map=wc,-l 1 3|map=wc,-l 2 4|agg=wc,-l 34 5|finish=wc,-l 5 6|output 6 -",
        "-",
    ),
    (
        "input - 0|split 0 123|map=wc,-l 1 4|map=wc,-l 2 5|agg=wc,-l 45 6|map=wc,-l 3 7|agg=wc,-l 67 8|output 8 -",
        "-",
    ),
    (
        "input - 0|split 0 12|map=wc,-w 1 3|map=wc,-w 2 4|agg=wc,-w 34 5|output 5 -",
        "-",
    ),
    (
        "input - 0|split 0 12|map=grep,-c,w 1 3|map=grep,-c,w 2 4|agg=grep,-c,w 34 5|output 5 -",
        "23",
    ),
    ("input - 0|tee=/f 0 1|tee=/g 1 2|output 2 -", "-"),
    ("input - 0|whole=tee 0 1|output 1 -", "-"),
];

#[test]
fn valid_graphs_are_valid(rt: HostRuntime) -> Result<(), Fail> {
    expect_all(&rt, rt.alloc(), VALID.as_slice(), true)
}

static EDGES: [(&str, &str); 13] = [
    // Never taken, and never given.
    ("input - 0", "-"),
    ("input - 01|output 0 -", "-"),
    ("output 0 -", "-"),
    ("input - 0|cat 01 2|output 2 -", "-"),
    // Taken twice, and given twice.
    ("input - 0|output 0 -|drain 0 -", "-"),
    ("input - 0|cat 00 1|output 1 -", "-"),
    ("input - 0|text - 0|cat 00 1|output 1 -", "-"),
    ("input - 0|text - 0|output 0 -", "-"),
    // Numbered past the number of edges.
    ("input - 1|output 1 -", "-"),
    ("input - 0|map=cat 0 2|output 2 -", "-"),
    // Taken by the node that gives it, and by an earlier one.
    ("cat 0 0", "-"),
    ("output 0 -|input - 0", "-"),
    ("input - 0|map=cat 2 1|map=cat 0 2|output 1 -", "-"),
];

#[test]
fn each_edge_leads_from_one_node_to_a_later_one(rt: HostRuntime) -> Result<(), Fail> {
    expect_all(&rt, rt.alloc(), EDGES.as_slice(), false)
}

static PORTS: [(&str, &str); 20] = [
    ("text - 0|read=/f 0 1|output 1 -", "-"),
    ("read=/f - 01|drain 0 -|drain 1 -", "-"),
    ("read=/f - 0|text 0 1|output 1 -", "-"),
    ("text - -", "-"),
    ("split - 0|output 0 -", "-"),
    ("input - 0|split 0 -", "-"),
    ("input - 0|text - 1|split 01 2|output 2 -", "-"),
    ("map=cat - 0|output 0 -", "-"),
    ("input - 0|map=cat 0 -", "-"),
    ("input - 0|text - 1|whole=cat 01 2|output 2 -", "-"),
    ("input - 0|whole=cat, 0 1|output 1 -", "-"),
    ("whole=wc,-l - 0|output 0 -", "-"),
    ("input - 0|whole=wc,-l 0 12|drain 1 -|drain 2 -", "-"),
    ("cat - 0|output 0 -", "-"),
    ("input - 0|cat 0 12|drain 1 -|drain 2 -", "-"),
    ("input - 0|map=wc,-l 0 1|agg=wc,-l 1 2|output 2 -", "-"),
    (
        "input - 0|text - 1|map=wc,-l 0 2|map=wc,-l 1 3|finish=wc,-l 23 4|output 4 -",
        "-",
    ),
    ("tee=/f - 0|output 0 -", "-"),
    ("input - 0|drain 0 1|drain 1 -", "-"),
    ("drain - -", "-"),
];

#[test]
fn each_kind_has_its_ports(rt: HostRuntime) -> Result<(), Fail> {
    expect_all(&rt, rt.alloc(), PORTS.as_slice(), false)
}

static ENDS: [(&str, &str); 6] = [
    ("output - -", "-"),
    ("input - 0|text - 1|output 01 -", "-"),
    ("input - 0|output 0 1|drain 1 -", "-"),
    ("input - 0|tee=/f 0 -", "-"),
    ("input - 0|input - 1|cat 01 2|output 2 -", "-"),
    ("input - 0|split 0 12|output 1 -|output 2 -", "-"),
];

#[test]
fn sinks_take_one_edge_and_each_end_has_one_node(rt: HostRuntime) -> Result<(), Fail> {
    expect_all(&rt, rt.alloc(), ENDS.as_slice(), false)
}

static CLASSES: [(&str, &str); 8] = [
    ("input - 0|map=cat, 0 1|output 1 -", "-"),
    (
        "input - 0|split 0 12|map=grep,-F,w 1 3|map=grep,-F,w 2 4|agg=grep,-F,w 34 5|output 5 -",
        "-",
    ),
    (
        "input - 0|split 0 12|map=cat 1 3|map=cat 2 4|agg=cat 34 5|output 5 -",
        "-",
    ),
    (
        "input - 0|split 0 12|map=cat, 1 3|map=cat, 2 4|agg=cat, 34 5|output 5 -",
        "-",
    ),
    ("input - 0|map=cat 0 1|finish=cat 1 2|output 2 -", "-"),
    ("input - 0|map=tail,-n,+2 0 1|output 1 -", "-"),
    ("input - 0|map=paste,- 0 1|output 1 -", "-"),
    (
        "input - 0|split 0 12|map=paste,- 1 3|map=paste,- 2 4|agg=paste,- 34 5|output 5 -",
        "-",
    ),
];

#[test]
fn invocations_read_one_input_and_have_their_class(rt: HostRuntime) -> Result<(), Fail> {
    expect_all(&rt, rt.alloc(), CLASSES.as_slice(), false)
}

static BUILT: [(&str, &str); 2] = [
    ("text - 0|drain 0 -|whole=echo - 1|output 1 -", "-"),
    ("text - 0|drain 0 -|whole=true - 1|output 1 -", "-"),
];

#[test]
fn invocations_are_built(rt: HostRuntime) -> Result<(), Fail> {
    expect_all(&rt, rt.alloc(), BUILT.as_slice(), false)
}

static AGGREGATES: [(&str, &str); 8] = [
    ("input - 0|split 0 12|agg=wc,-l 12 3|output 3 -", "-"),
    (
        "input - 0|split 0 12|map=wc,-l 1 3|agg=wc,-l 32 4|output 4 -",
        "-",
    ),
    (
        "input - 0|split 0 12|map=wc,-l 1 3|map=cat 2 4|agg=wc,-l 34 5|output 5 -",
        "-",
    ),
    (
        "input - 0|split 0 12|map=wc,-l 1 3|whole=wc,-l 2 4|agg=wc,-l 34 5|output 5 -",
        "-",
    ),
    ("input - 0|finish=wc,-l 0 1|output 1 -", "-"),
    ("input - 0|whole=wc,-l 0 1|finish=wc,-l 1 2|output 2 -", "-"),
    (
        "input - 0|map=grep,-F,w 0 1|finish=wc,-l 1 2|output 2 -",
        "-",
    ),
    (
        "input - 0|map=wc,-l 0 1|finish=wc,-l 1 2|finish=wc,-l 2 3|output 3 -",
        "-",
    ),
];

#[test]
fn aggregates_and_finishes_join_maps_of_their_words(rt: HostRuntime) -> Result<(), Fail> {
    expect_all(&rt, rt.alloc(), AGGREGATES.as_slice(), false)
}

static PATHS: [(&str, &str); 8] = [
    ("read=/f - 0|write=/f 0 -", "-"),
    ("read=/d/f - 0|tee=/d/f 0 1|output 1 -", "-"),
    ("input - 0|tee=/f 0 1|write=/f 1 -", "-"),
    ("input - 0|tee=/f 0 1|tee=/f 1 2|output 2 -", "-"),
    ("input - 0|write=/f 0 -|text - 1|write=/f 1 -", "-"),
    ("read=/dev/null - 0|output 0 -", "-"),
    ("input - 0|write=/dev/null 0 -", "-"),
    ("input - 0|tee=/dev/null 0 1|output 1 -", "-"),
];

#[test]
fn paths_are_apart(rt: HostRuntime) -> Result<(), Fail> {
    expect_all(&rt, rt.alloc(), PATHS.as_slice(), false)
}

static STATUSES: [(&str, &str); 6] = [
    ("read=/f - 0|whole=grep,-F,w 0 1|output 1 -", "0"),
    ("read=/f - 0|whole=grep,-F,w 0 1|output 1 -", "2"),
    ("read=/f - 0|whole=grep,-F,w 0 1|output 1 -", "3"),
    ("read=/f - 0|whole=grep,-F,w 0 1|output 1 -", "13"),
    ("read=/f - 0|whole=wc,-l 0 1|output 1 -", "1"),
    ("read=/f - 0|map=cat 0 1|output 1 -", "1"),
];

#[test]
fn the_status_names_maps_and_wholes_of_grep(rt: HostRuntime) -> Result<(), Fail> {
    expect_all(&rt, rt.alloc(), STATUSES.as_slice(), false)
}
