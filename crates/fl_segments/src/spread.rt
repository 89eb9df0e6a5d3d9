//! A utility that is spread over the parts of its input: a split of it, unless the parts are there, a map of each part, and what is made of these.
ghost use Rattle.std.specs.Prelude.{◌≡◌, ◌+◌, ◌++◌, [], ◌∷◌, length, get_or, IfOk, OnOk};
ghost use Rattle.std.specs.List.{range_with_len};
ghost use Rattle.ut_args.specs.Classes.{class_of};
ghost use Rattle.fl_graph.specs.Kinds.{has_aggregator};
ghost use Rattle.fl_segments.specs.Stages.{has_finish as has_finish_def, is_spread as is_spread_def, may_spread as may_spread_def};
ghost use Rattle.fl_segments.specs.Inner.Drawing.{behind, drawn, step};
ghost use Rattle.fl_segments.specs.Inner.Steps.{finish_edge, finish_steps, fold_parts, fold_steps, folded_edge, folded_steps, mapped_parts, mapped_steps, tree_edge, tree_over, tree_steps, hands_on as hands_on_def, is_lone as is_lone_def, is_next as is_next_def, map_steps, split_cut, split_edges, split_steps, spread_parts, spread_steps, stands as stands_def, takes_any as takes_any_def, takes_by, takes_parts as takes_parts_def};

use crate::commands::Written;
use crate::drawing::{Drawing, numbers_from};
use crate::inputs::is_stream;
use crate::nodes::one_part;
use crate::parts::{Parts, parts_on};
use crate::stages::{Does, In, Out, Stage};
use fl_graph::{NodeKind, Seq};
use ps_lines::Memory;
use std::alloc::Global;
use ut_args::{Class, Groups, Inv, Seam, class, keeps_closed};

/// Whether a utility is spread at a width.
pub(crate) fn is_spread(width: u32, inv: &Inv) -> bool
    ensures { result ≡ is_spread_def width inv.now }
{
    2 <= width && inv.inputs() == 1 && may_spread(class(inv))
}

/// Whether the class lets its input be cut.
fn may_spread(of: Class) -> bool
    ensures { result ≡ may_spread_def of }
{
    match of {
        Class::S(_) => true,
        Class::P => true,
        Class::N => false,
        Class::E => false,
    }
}

/// Whether its maps are aggregated.
fn folds(inv: &Inv) -> bool
    ensures { result ≡ has_aggregator (class_of inv.now) }
{
    match class(inv) {
        Class::S(_) => false,
        Class::P => true,
        Class::N => false,
        Class::E => false,
    }
}

/// Whether its output is made from the map of the whole.
fn has_finish(inv: &Inv) -> bool
    ensures { result ≡ has_finish_def inv.now }
{
    match inv {
        Inv::Wc(wc) => !wc.args.operands.as_slice().is_empty(),
        Inv::Uniq(uniq) => matches!(uniq.args.groups, Groups::Repeated | Groups::Single),
        _ => false,
    }
}

/// Whether parts that go there go on to this stage as they are.
pub(crate) fn hands_on(width: u32, out: &Out, following: &Stage, parts: &Parts) -> bool
    ensures { result ≡ hands_on_def width out.now following.now parts.now }
{
    is_next(out) && takes_parts(width, following, parts)
}

/// Whether an output goes to the next stage, or from the last one to the output.
fn is_next(out: &Out) -> bool
    ensures { result ≡ is_next_def out.now }
{
    matches!(out, Out::Next)
}

/// Whether a stage takes these parts as they are.
fn takes_parts(width: u32, stage: &Stage, parts: &Parts) -> bool
    ensures { result ≡ takes_parts_def width stage.now parts.now }
{
    match &stage.does {
        Does::Skip => false,
        Does::Util(inv) => takes(width, inv, stage.ins.as_slice(), parts),
    }
}

/// Whether a utility with these inputs takes these parts as they are.
fn takes(width: u32, inv: &Inv, ins: &[In], parts: &Parts) -> bool
    ensures { result ≡ takes_by width (Does.Util inv.now) ins.now (length parts.now.edges) parts.now.cut }
{
    is_spread(width, inv)
        && is_lone(ins)
        && stands(width, parts.edges.as_slice())
        && (parts.cut || takes_any(class(inv)))
}

/// Whether the stream is the one input.
fn is_lone(ins: &[In]) -> bool
    ensures { result ≡ is_lone_def ins.now }
{
    match ins {
        [it] => is_stream(it),
        _ => false,
    }
}

/// Whether the parts may be cut anywhere.
fn takes_any(of: Class) -> bool
    ensures { result ≡ takes_any_def of }
{
    match of {
        Class::S(Seam::Bytes) => true,
        Class::S(Seam::Lines) => false,
        Class::P => false,
        Class::N => false,
        Class::E => false,
    }
}

/// Whether there are as many parts as the width.
fn stands(width: u32, edges: &[u32]) -> bool
    ensures { result ≡ stands_def width edges.now }
{
    let Ok(count) = u32::try_from(edges.len()) else {
        return false;
    };
    count == width
}

/// Adds the nodes of a utility that is spread over these parts, or over those of a split.
pub(crate) fn add_spread(
    alloc: Global,
    drawing: &mut Drawing,
    width: u32,
    number: u32,
    inv: &Inv,
    taken: Parts,
) -> Result<Written, Memory>
    ensures nodes { OnOk result (drawing.new.nodes.items ≡ drawing.old.nodes.items ++ drawn drawing.old.next (spread_steps width number inv.now taken.edges drawing.old.next)) }
    ensures next { OnOk result (drawing.new.next ≡ behind drawing.old.next (spread_steps width number inv.now taken.edges drawing.old.next)) }
    ensures parts { IfOk result (λ written. written.parts ≡ spread_parts width number inv.now taken drawing.old.next) }
    ensures named { IfOk result (λ written. written.nodes ≡ range_with_len (length drawing.old.nodes.items + length (split_steps width number taken.edges)) width) }
{
    let mapped = add_mapped(alloc, drawing, width, number, inv, taken)?;
    let Written { parts: maps, nodes } = mapped;
    let parts = add_fold(alloc, drawing, number, inv, maps)?;
    Ok(Written { parts, nodes })
}

/// Adds the maps of these parts, or of those of a split.
fn add_mapped(
    alloc: Global,
    drawing: &mut Drawing,
    width: u32,
    number: u32,
    inv: &Inv,
    taken: Parts,
) -> Result<Written, Memory>
    ensures nodes { OnOk result (drawing.new.nodes.items ≡ drawing.old.nodes.items ++ drawn drawing.old.next (mapped_steps width number inv.now taken.edges drawing.old.next)) }
    ensures next { OnOk result (drawing.new.next ≡ behind drawing.old.next (mapped_steps width number inv.now taken.edges drawing.old.next)) }
    ensures parts { IfOk result (λ written. written.parts ≡ mapped_parts width number inv.now taken.edges drawing.old.next taken.cut) }
    ensures named { IfOk result (λ written. written.nodes ≡ range_with_len (length drawing.old.nodes.items + length (split_steps width number taken.edges)) width) }
{
    let split = add_split(alloc, drawing, width, number, taken)?;
    let node = drawing.next_node()?;
    let nodes = Seq::from_vec(numbers_from(alloc, node, width)?);
    let edges = numbers_from(alloc, drawing.next, width)?;
    add_maps(alloc, drawing, number, inv, split.edges.as_slice())?;
    let parts = parts_on(edges, split.cut && keeps_closed(inv));
    Ok(Written { parts, nodes })
}

/// Splits what these parts are, unless there are as many as the width.
fn add_split(
    alloc: Global,
    drawing: &mut Drawing,
    width: u32,
    number: u32,
    taken: Parts,
) -> Result<Parts, Memory>
    ensures nodes { OnOk result (drawing.new.nodes.items ≡ drawing.old.nodes.items ++ drawn drawing.old.next (split_steps width number taken.edges)) }
    ensures next { OnOk result (drawing.new.next ≡ behind drawing.old.next (split_steps width number taken.edges)) }
    ensures edges { IfOk result (λ parts. parts.edges ≡ split_edges width taken.edges drawing.old.next) }
    ensures cut { IfOk result (λ parts. parts.cut ≡ split_cut width taken.edges taken.cut) }
{
    if stands(width, taken.edges.as_slice()) {
        return Ok(taken);
    }
    let edges = numbers_from(alloc, drawing.next, width)?;
    let ports = drawing.giving_parts(alloc, taken.edges.as_slice(), width)?;
    drawing.add(NodeKind::Split, ports, number)?;
    Ok(parts_on(edges, true))
}

/// Adds a map of what is on each of these edges.
fn add_maps(
    alloc: Global,
    drawing: &mut Drawing,
    number: u32,
    inv: &Inv,
    edges: &[u32],
) -> Result<(), Memory>
    ensures nodes { OnOk result (drawing.new.nodes.items ≡ drawing.old.nodes.items ++ drawn drawing.old.next (map_steps number inv.now edges.now)) }
    ensures next { OnOk result (drawing.new.next ≡ behind drawing.old.next (map_steps number inv.now edges.now)) }
{
    for edge in edges {
        add_map(alloc, drawing, number, inv, *edge)?;
    }
    Ok(())
}

/// Adds a map of what is on this edge.
fn add_map(
    alloc: Global,
    drawing: &mut Drawing,
    number: u32,
    inv: &Inv,
    edge: u32,
) -> Result<(), Memory>
    ensures nodes { OnOk result (drawing.new.nodes.items ≡ drawing.old.nodes.items ++ drawn drawing.old.next (step (NodeKind.Map inv.now) (edge ∷ []) number ∷ [])) }
    ensures next { OnOk result (drawing.new.next ≡ drawing.old.next + 1) }
{
    let edges = drawing.giving(alloc, &[edge])?;
    let copy = inv.copy()?;
    drawing.add(NodeKind::Map(copy), edges, number)
}

/// Adds what is made of these maps: those of class S are the output.
fn add_fold(
    alloc: Global,
    drawing: &mut Drawing,
    number: u32,
    inv: &Inv,
    maps: Parts,
) -> Result<Parts, Memory>
    ensures nodes { OnOk result (drawing.new.nodes.items ≡ drawing.old.nodes.items ++ drawn drawing.old.next (fold_steps number inv.now maps.edges drawing.old.next)) }
    ensures next { OnOk result (drawing.new.next ≡ behind drawing.old.next (fold_steps number inv.now maps.edges drawing.old.next)) }
    ensures parts { IfOk result (λ parts. parts ≡ fold_parts number inv.now maps drawing.old.next) }
{
    if !folds(inv) {
        return Ok(maps);
    }
    let edge = add_folded(alloc, drawing, number, inv, maps.edges.as_slice())?;
    one_part(alloc, edge)
}

/// Adds the aggregates of the maps on these edges and what is behind them, and gives the edge with the output.
fn add_folded(
    alloc: Global,
    drawing: &mut Drawing,
    number: u32,
    inv: &Inv,
    edges: &[u32],
) -> Result<u32, Memory>
    ensures nodes { OnOk result (drawing.new.nodes.items ≡ drawing.old.nodes.items ++ drawn drawing.old.next (folded_steps number inv.now edges.now drawing.old.next)) }
    ensures next { OnOk result (drawing.new.next ≡ behind drawing.old.next (folded_steps number inv.now edges.now drawing.old.next)) }
    ensures edge { IfOk result (λ edge. edge ≡ folded_edge number inv.now edges.now drawing.old.next) }
{
    let edge = add_tree(alloc, drawing, number, inv, edges)?;
    add_finish(alloc, drawing, number, inv, edge)
}

/// Aggregates the maps on these edges two by two, each half by itself, with the greater half left, and gives the edge of the last one.
fn add_tree(
    alloc: Global,
    drawing: &mut Drawing,
    number: u32,
    inv: &Inv,
    edges: &[u32],
) -> Result<u32, Memory>
    ensures nodes { OnOk result (drawing.new.nodes.items ≡ drawing.old.nodes.items ++ drawn drawing.old.next (tree_steps number inv.now (tree_over edges.now) drawing.old.next)) }
    ensures next { OnOk result (drawing.new.next ≡ behind drawing.old.next (tree_steps number inv.now (tree_over edges.now) drawing.old.next)) }
    ensures edge { IfOk result (λ edge. edge ≡ tree_edge (tree_over edges.now) drawing.old.next) }
{
    let count = edges.len();
    if count < 2 {
        return Ok(first_of(edges));
    }
    let (left, right) = edges.split_at(count - count / 2);
    let first = add_tree(alloc, drawing, number, inv, left)?;
    let second = add_tree(alloc, drawing, number, inv, right)?;
    add_aggregate(alloc, drawing, number, inv, &[first, second])
}

/// The first edge, or 0.
fn first_of(edges: &[u32]) -> u32
    ensures { result ≡ get_or edges.now 0 0 }
{
    match edges {
        [] => 0,
        [edge, ..] => *edge,
    }
}

/// Adds an aggregate of what is on these edges, and gives its edge.
fn add_aggregate(
    alloc: Global,
    drawing: &mut Drawing,
    number: u32,
    inv: &Inv,
    edges: &[u32],
) -> Result<u32, Memory>
    ensures nodes { OnOk result (drawing.new.nodes.items ≡ drawing.old.nodes.items ++ drawn drawing.old.next (step (NodeKind.Agg inv.now) edges.now number ∷ [])) }
    ensures next { OnOk result (drawing.new.next ≡ drawing.old.next + 1) }
    ensures edge { IfOk result (λ edge. edge ≡ drawing.old.next) }
{
    let edge = drawing.next;
    let ports = drawing.giving(alloc, edges)?;
    let copy = inv.copy()?;
    drawing.add(NodeKind::Agg(copy), ports, number)?;
    Ok(edge)
}

/// Adds what makes the output from the map of the whole, if that isn't the output, and gives the edge with it.
fn add_finish(
    alloc: Global,
    drawing: &mut Drawing,
    number: u32,
    inv: &Inv,
    edge: u32,
) -> Result<u32, Memory>
    ensures nodes { OnOk result (drawing.new.nodes.items ≡ drawing.old.nodes.items ++ drawn drawing.old.next (finish_steps number inv.now edge)) }
    ensures next { OnOk result (drawing.new.next ≡ behind drawing.old.next (finish_steps number inv.now edge)) }
    ensures edge { IfOk result (λ last. last ≡ finish_edge inv.now edge drawing.old.next) }
{
    if !has_finish(inv) {
        return Ok(edge);
    }
    let last = drawing.next;
    let ports = drawing.giving(alloc, &[edge])?;
    let copy = inv.copy()?;
    drawing.add(NodeKind::Finish(copy), ports, number)?;
    Ok(last)
}
