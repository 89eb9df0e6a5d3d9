//! What nodes ask of themselves: their ports and their invocation.
ghost use Rattle.std.specs.Prelude.{◌≡◌, ◌+◌, ◌≤◌, length, min};
ghost use Rattle.std.specs.List.{list_all, count_by};
ghost use Rattle.ut_args.specs.Classes.{class_of};
ghost use Rattle.fl_graph.specs.Checks.{fits_alone as fits_alone_def, has_one_of_each_end as has_one_of_each_end_def};
ghost use Rattle.fl_graph.specs.Kinds.{has_aggregator as has_aggregator_def, has_its_class as has_its_class_def, has_its_ports as has_its_ports_def, has_map as has_map_def, is_input as is_input_def, is_output as is_output_def, reads_one_input as reads_one_input_def, runs_what_is_built as runs_what_is_built_def};

use crate::graphs::Node;
use crate::kinds::{From, NodeKind, To};
use ut_args::{Class, class, is_built};

/// Whether each node has the ports, the inputs and the class that its kind asks for, and runs what is built.
pub fn fit_alone(nodes: &[Node]) -> bool
    ensures { result ≡ list_all fits_alone_def nodes.now }
{
    nodes.iter().all(fits_alone)
}

fn fits_alone(node: &Node) -> bool
    ensures { result ≡ fits_alone_def node.now }
{
    has_its_ports(node)
        && reads_one_input(&node.kind)
        && has_its_class(&node.kind)
        && runs_what_is_built(&node.kind)
}

/// Whether the node has as many ins and outs as its kind has.
fn has_its_ports(node: &Node) -> bool
    ensures { result ≡ has_its_ports_def node.now }
{
    let (ins, outs) = (node.ins.len(), node.outs.len());
    match &node.kind {
        NodeKind::Source(_) | NodeKind::Text(_) => ins == 0 && outs == 1,
        NodeKind::Split => ins == 1 && outs >= 1,
        NodeKind::Map(_) | NodeKind::Finish(_) | NodeKind::TeeFile(_, _) => ins == 1 && outs == 1,
        NodeKind::Whole(inv) => ins == inv.inputs() as usize && outs == 1,
        NodeKind::Cat { .. } => ins >= 1 && outs == 1,
        NodeKind::Agg(_) => ins >= 2 && outs == 1,
        NodeKind::Drain | NodeKind::Sink(_) => ins == 1 && outs == 0,
    }
}

/// Whether it is no map and no aggregate, or one of an invocation that reads one input.
fn reads_one_input(kind: &NodeKind) -> bool
    ensures { result ≡ reads_one_input_def kind.now }
{
    match kind {
        NodeKind::Map(inv) | NodeKind::Agg(inv) => inv.inputs() == 1,
        _ => true,
    }
}

/// Whether it is no map, no aggregate and no finish, or of a class that has one.
fn has_its_class(kind: &NodeKind) -> bool
    ensures { result ≡ has_its_class_def kind.now }
{
    match kind {
        NodeKind::Map(inv) => has_map(class(inv)),
        NodeKind::Agg(inv) | NodeKind::Finish(inv) => has_aggregator(class(inv)),
        _ => true,
    }
}

/// Whether commands of the class have a map.
fn has_map(class: Class) -> bool
    ensures { result ≡ has_map_def class }
{
    match class {
        Class::S(_) | Class::P => true,
        Class::N | Class::E => false,
    }
}

/// Whether commands of the class have an aggregator.
fn has_aggregator(class: Class) -> bool
    ensures { result ≡ has_aggregator_def class }
{
    match class {
        Class::P => true,
        Class::S(_) | Class::N | Class::E => false,
    }
}

/// Whether it runs no invocation, or one that is built.
fn runs_what_is_built(kind: &NodeKind) -> bool
    ensures { result ≡ runs_what_is_built_def kind.now }
{
    match kind {
        NodeKind::Map(inv) | NodeKind::Whole(inv) => is_built(inv),
        NodeKind::Agg(inv) | NodeKind::Finish(inv) => is_built(inv),
        _ => true,
    }
}

/// Whether standard input is read by one node at most, and standard output written by one at most.
pub fn has_one_of_each_end(nodes: &[Node]) -> bool
    ensures { result ≡ has_one_of_each_end_def nodes.now }
{
    inputs(nodes) <= 1 && outputs(nodes) <= 1
}

/// How many nodes read standard input, counted up to two.
fn inputs(nodes: &[Node]) -> u8
    ensures { result ≡ min 2 (count_by (λ cell. is_input_def cell.kind) nodes.now) }
{
    let mut inputs = 0;
    for node in nodes {
        inputs = (inputs + u8::from(is_input(&node.kind))).min(2);
    }
    inputs
}

/// How many nodes write standard output, counted up to two.
fn outputs(nodes: &[Node]) -> u8
    ensures { result ≡ min 2 (count_by (λ cell. is_output_def cell.kind) nodes.now) }
{
    let mut outputs = 0;
    for node in nodes {
        outputs = (outputs + u8::from(is_output(&node.kind))).min(2);
    }
    outputs
}

/// Whether it reads standard input.
fn is_input(kind: &NodeKind) -> bool
    ensures { result ≡ is_input_def kind.now }
{
    matches!(kind, NodeKind::Source(From::Input))
}

/// Whether it writes standard output.
fn is_output(kind: &NodeKind) -> bool
    ensures { result ≡ is_output_def kind.now }
{
    matches!(kind, NodeKind::Sink(To::Output))
}
