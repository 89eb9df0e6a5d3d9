//! Nodes that several parts of a stage have: texts, and ends.
ghost use Rattle.std.specs.Prelude.{◌≡◌, ◌+◌, ◌++◌, [], ◌∷◌, IfOk, OnOk};
ghost use Rattle.ps_lines.specs.Lines.{is_empty as is_empty_def};
ghost use Rattle.fl_segments.specs.Inner.Drawing.{behind, drawn, step};
ghost use Rattle.fl_segments.specs.Inner.Steps.{one_part as one_part_def, whole_edge, whole_steps};

use crate::drawing::Drawing;
use crate::parts::{Parts, parts_on};
use fl_graph::NodeKind;
use ps_lines::{Memory, Text};
use std::alloc::Global;

/// Adds a text, and gives its edge.
pub(crate) fn add_text(
    alloc: Global,
    drawing: &mut Drawing,
    number: u32,
    text: &Text,
) -> Result<u32, Memory>
    ensures nodes { OnOk result (drawing.new.nodes.items ≡ drawing.old.nodes.items ++ drawn drawing.old.next (step (NodeKind.Text text.now) [] number ∷ [])) }
    ensures next { OnOk result (drawing.new.next ≡ drawing.old.next + 1) }
    ensures edge { IfOk result (λ edge. edge ≡ drawing.old.next) }
{
    let edge = drawing.next;
    let edges = drawing.giving(alloc, &[])?;
    let copy = Text::copy_of(alloc, text.as_slice())?;
    drawing.add(NodeKind::Text(copy), edges, number)?;
    Ok(edge)
}

/// Adds the empty text, and gives its edge.
pub(crate) fn add_nothing(alloc: Global, drawing: &mut Drawing, number: u32) -> Result<u32, Memory>
    ensures nodes { OnOk result (drawing.new.nodes.items ≡ drawing.old.nodes.items ++ drawn drawing.old.next (step (NodeKind.Text []) [] number ∷ [])) }
    ensures next { OnOk result (drawing.new.next ≡ drawing.old.next + 1) }
    ensures edge { IfOk result (λ edge. edge ≡ drawing.old.next) }
{
    let edge = drawing.next;
    let edges = drawing.giving(alloc, &[])?;
    let nothing = Text::from_vec(Vec::new(alloc));
    drawing.add(NodeKind::Text(nothing), edges, number)?;
    Ok(edge)
}

/// Adds the end of what is on this edge.
pub(crate) fn add_end(
    alloc: Global,
    drawing: &mut Drawing,
    number: u32,
    edge: u32,
) -> Result<(), Memory>
    ensures nodes { OnOk result (drawing.new.nodes.items ≡ drawing.old.nodes.items ++ drawn drawing.old.next (step NodeKind.Drain (edge ∷ []) number ∷ [])) }
    ensures next { OnOk result (drawing.new.next ≡ drawing.old.next) }
{
    let edges = drawing.ending(alloc, &[edge])?;
    drawing.add(NodeKind::Drain, edges, number)
}

/// Joins the parts on these edges, where there are several, and gives the edge with their text.
pub(crate) fn add_whole_stream(
    alloc: Global,
    drawing: &mut Drawing,
    number: u32,
    edges: &[u32],
) -> Result<u32, Memory>
    ensures nodes { OnOk result (drawing.new.nodes.items ≡ drawing.old.nodes.items ++ drawn drawing.old.next (whole_steps number edges.now)) }
    ensures next { OnOk result (drawing.new.next ≡ behind drawing.old.next (whole_steps number edges.now)) }
    ensures edge { IfOk result (λ edge. edge ≡ whole_edge edges.now drawing.old.next) }
{
    if 1 < edges.len() {
        return add_cat(alloc, drawing, number, false, edges);
    }
    match edges {
        [] => Ok(drawing.next),
        [edge, ..] => Ok(*edge),
    }
}

/// Joins what is on these edges, and gives the edge with the text.
pub(crate) fn add_cat(
    alloc: Global,
    drawing: &mut Drawing,
    number: u32,
    close: bool,
    edges: &[u32],
) -> Result<u32, Memory>
    ensures nodes { OnOk result (drawing.new.nodes.items ≡ drawing.old.nodes.items ++ drawn drawing.old.next (step (NodeKind.Cat close) edges.now number ∷ [])) }
    ensures next { OnOk result (drawing.new.next ≡ drawing.old.next + 1) }
    ensures edge { IfOk result (λ edge. edge ≡ drawing.old.next) }
{
    let edge = drawing.next;
    let ports = drawing.giving(alloc, edges)?;
    drawing.add(NodeKind::Cat { close }, ports, number)?;
    Ok(edge)
}

/// The stream on this edge.
pub(crate) fn one_part(alloc: Global, edge: u32) -> Result<Parts, Memory>
    ensures { IfOk result (λ parts. parts ≡ one_part_def edge) }
{
    Ok(parts_on(Vec::from_slice(alloc, &[edge])?, false))
}

/// Whether a text has no byte.
pub(crate) fn is_empty(text: &Text) -> bool
    ensures { result ≡ is_empty_def text.now }
{
    text.as_slice().is_empty()
}
