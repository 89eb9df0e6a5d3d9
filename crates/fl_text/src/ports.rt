//! What is asked of nodes one by one: their ports and their invocation, and what ends and the status rule ask.
ghost use Rattle.std.specs.Prelude.{◌≡◌, min};
ghost use Rattle.std.specs.List.{list_all, count_by};
ghost use Rattle.fl_graph.specs.Checks.{fits_alone as fits_alone_def, has_one_of_each_end as has_one_of_each_end_def};
ghost use Rattle.fl_graph.specs.Kinds.{has_aggregator as has_aggregator_def, has_map as has_map_def, is_grep as is_grep_def, is_input as is_input_def, is_output as is_output_def, selects_lines as selects_lines_def};
ghost use Rattle.fl_graph.specs.Valid.{names_selector as names_selector_def, nodes_named};

use fl_graph::{From, Node, NodeKind, StatusRule, To};
use ut_args::{Class, Inv, class, is_built};

/// Whether each node has the ports, the inputs and the class that its kind asks for, and runs what is built.
pub fn fit_alone(nodes: &[Node]) -> bool
    ensures { result ≡ list_all fits_alone_def nodes.now }
{
    nodes.iter().all(fits_alone)
}

fn fits_alone(node: &Node) -> bool
    ensures { result ≡ fits_alone_def node.now }
{
    let (ins, outs) = (node.ins.len(), node.outs.len());
    match &node.kind {
        NodeKind::Source(_) | NodeKind::Text(_) => ins == 0 && outs == 1,
        NodeKind::Split => ins == 1 && outs >= 1,
        NodeKind::Map(inv) => ins == 1
            && outs == 1
            && inv.inputs() == 1
            && has_map(class(inv))
            && is_built(inv),
        NodeKind::Whole(inv) => ins == inv.inputs() as usize && outs == 1 && is_built(inv),
        NodeKind::Cat { .. } => ins >= 1 && outs == 1,
        NodeKind::Agg(inv) => ins >= 2
            && outs == 1
            && inv.inputs() == 1
            && has_aggregator(class(inv))
            && is_built(inv),
        NodeKind::Finish(inv) => ins == 1
            && outs == 1
            && has_aggregator(class(inv))
            && is_built(inv),
        NodeKind::TeeFile(_, _) => ins == 1 && outs == 1,
        NodeKind::Drain | NodeKind::Sink(_) => ins == 1 && outs == 0,
    }
}

/// Whether commands of the class have a map.
fn has_map(class: Class) -> bool
    ensures { result ≡ has_map_def class }
{
    matches!(class, Class::S(_) | Class::P)
}

/// Whether commands of the class have an aggregator.
fn has_aggregator(class: Class) -> bool
    ensures { result ≡ has_aggregator_def class }
{
    matches!(class, Class::P)
}

/// Whether standard input is read by one node at most, and standard output written by one at most.
pub fn has_one_of_each_end(nodes: &[Node]) -> bool
    ensures { result ≡ has_one_of_each_end_def nodes.now }
{
    inputs(nodes) <= 1 && outputs(nodes) <= 1
}

/// How many nodes read standard input, counted up to two.
fn inputs(nodes: &[Node]) -> u8
    ensures { result ≡ min 2 (count_by (λ cell. is_input_def cell.kind) nodes.now) }
{
    let mut inputs = 0;
    for node in nodes {
        inputs = (inputs + u8::from(is_input(&node.kind))).min(2);
    }
    inputs
}

/// How many nodes write standard output, counted up to two.
fn outputs(nodes: &[Node]) -> u8
    ensures { result ≡ min 2 (count_by (λ cell. is_output_def cell.kind) nodes.now) }
{
    let mut outputs = 0;
    for node in nodes {
        outputs = (outputs + u8::from(is_output(&node.kind))).min(2);
    }
    outputs
}

/// Whether it reads standard input.
fn is_input(kind: &NodeKind) -> bool
    ensures { result ≡ is_input_def kind.now }
{
    matches!(kind, NodeKind::Source(From::Input))
}

/// Whether it writes standard output.
fn is_output(kind: &NodeKind) -> bool
    ensures { result ≡ is_output_def kind.now }
{
    matches!(kind, NodeKind::Sink(To::Output))
}

/// Whether the status names maps and wholes of grep alone.
pub fn names_selectors(nodes: &[Node], status: &StatusRule) -> bool
    ensures { result ≡ list_all (names_selector_def nodes.now) (nodes_named status.now) }
{
    match status {
        StatusRule::Fixed(_) => true,
        StatusRule::Selected { nodes: named, .. } => are_selectors(nodes, named.as_slice()),
    }
}

/// Whether these are the numbers of maps and wholes of grep.
fn are_selectors(nodes: &[Node], named: &[u32]) -> bool
    ensures { result ≡ list_all (names_selector_def nodes.now) named.now }
{
    named.iter().all(|node| names_selector(nodes, *node))
}

/// Whether this is the number of a map or a whole of grep.
fn names_selector(nodes: &[Node], node: u32) -> bool
    ensures { result ≡ names_selector_def nodes.now node }
{
    match nodes.get(node as usize) {
        Some(node) => selects_lines(&node.kind),
        None => false,
    }
}

/// Whether this is a map or a whole of grep.
fn selects_lines(kind: &NodeKind) -> bool
    ensures { result ≡ selects_lines_def kind.now }
{
    match kind {
        NodeKind::Map(inv) | NodeKind::Whole(inv) => is_grep(inv),
        _ => false,
    }
}

/// Whether the command is grep.
fn is_grep(inv: &Inv) -> bool
    ensures { result ≡ is_grep_def inv.now }
{
    matches!(inv, Inv::Grep(_))
}
