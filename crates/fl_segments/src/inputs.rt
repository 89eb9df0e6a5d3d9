//! What a stage reads: the nodes of its inputs, and one that joins them.
ghost use Rattle.std.specs.Prelude.{◌≡◌, ◌+◌, ◌++◌, [], ◌∷◌, ℕ, List, length, IfOk, OnOk};
ghost use Rattle.std.specs.List.{list_any};
ghost use Rattle.fl_segments.specs.Stages.{closes_before as closes_before_def, is_reader as is_reader_def, is_stream as is_stream_def, joins_before as joins_before_def};
ghost use Rattle.fl_segments.specs.Inner.Drawing.{behind, drawn, step};
ghost use Rattle.fl_segments.specs.Inner.Steps.{begins as begins_def, comes_cut as comes_cut_def, drain_steps, each_ended, front_edges, front_steps, in_edges, in_steps, input_edges, input_steps, is_joined as is_joined_def, is_leading_cat as is_leading_cat_def, join_steps, joined_edges, kind_first as kind_first_def, kind_in, kind_stream, parts_on as parts_on_def, read_edges, read_steps, stream_edges};

use crate::drawing::Drawing;
use crate::nodes::{add_cat, add_end, add_nothing, add_text};
use crate::parts::{Coming, Parts, parts_on};
use crate::stages::{Does, First, In, Stage};
use fl_graph::{From, NodeKind};
use ps_lines::Memory;
use ps_world::Path;
use std::alloc::Global;
use ut_args::Inv;

/// Whether the stage to which this comes is the segment's first.
pub(crate) fn begins(coming: &Coming<'_>) -> bool
    ensures { result ≡ begins_def coming.now }
{
    matches!(coming, Coming::Begins(_))
}

/// Whether the stream that comes is a cut list.
fn comes_cut(coming: &Coming<'_>) -> bool
    ensures { result ≡ comes_cut_def coming.now }
{
    match coming {
        Coming::Begins(_) => false,
        Coming::On(parts) => parts.cut,
        Coming::Nothing => false,
    }
}

/// Whether a stage reads the stream that comes to it.
pub(crate) fn is_reader(stage: &Stage) -> bool
    ensures { result ≡ is_reader_def stage.now }
{
    match &stage.does {
        Does::Skip => false,
        Does::Util(_) => reads_stream(stage.ins.as_slice()),
    }
}

/// Whether one of these inputs is the stream.
fn reads_stream(ins: &[In]) -> bool
    ensures { result ≡ list_any is_stream_def ins.now }
{
    ins.iter().any(|it| is_stream(it))
}

/// Whether this input is the stream.
pub(crate) fn is_stream(it: &In) -> bool
    ensures { result ≡ is_stream_def it.now }
{
    matches!(it, In::Stream)
}

/// Adds the nodes of what a stage reads, and gives the parts that its utility takes. The stream is let go if the stage doesn't read it.
pub(crate) fn add_front(
    alloc: Global,
    drawing: &mut Drawing,
    number: u32,
    stage: &Stage,
    coming: &Coming<'_>,
) -> Result<Parts, Memory>
    ensures nodes { OnOk result (drawing.new.nodes.items ≡ drawing.old.nodes.items ++ drawn drawing.old.next (front_steps number coming.now stage.now drawing.old.next)) }
    ensures next { OnOk result (drawing.new.next ≡ behind drawing.old.next (front_steps number coming.now stage.now drawing.old.next)) }
    ensures parts { IfOk result (λ parts. parts ≡ parts_on_def (front_edges number coming.now stage.now drawing.old.next) (comes_cut_def coming.now)) }
{
    add_drain(alloc, drawing, number, coming, is_reader(stage))?;
    let edges = add_read(alloc, drawing, number, stage, coming)?;
    Ok(parts_on(edges, comes_cut(coming)))
}

/// Adds the end of a stream that isn't read.
fn add_drain(
    alloc: Global,
    drawing: &mut Drawing,
    number: u32,
    coming: &Coming<'_>,
    is_read: bool,
) -> Result<(), Memory>
    ensures nodes { OnOk result (drawing.new.nodes.items ≡ drawing.old.nodes.items ++ drawn drawing.old.next (drain_steps number coming.now is_read)) }
    ensures next { OnOk result (drawing.new.next ≡ drawing.old.next) }
{
    if is_read {
        return Ok(());
    }
    match coming {
        Coming::Begins(_) => Ok(()),
        Coming::On(parts) => add_ends(alloc, drawing, number, parts.edges.as_slice()),
        Coming::Nothing => Ok(()),
    }
}

/// Adds the end of what is on each of these edges.
fn add_ends(alloc: Global, drawing: &mut Drawing, number: u32, edges: &[u32]) -> Result<(), Memory>
    ensures nodes { OnOk result (drawing.new.nodes.items ≡ drawing.old.nodes.items ++ drawn drawing.old.next (each_ended number edges.now)) }
    ensures next { OnOk result (drawing.new.next ≡ drawing.old.next) }
{
    for edge in edges {
        add_end(alloc, drawing, number, *edge)?;
    }
    Ok(())
}

/// Adds the nodes of the inputs of a stage, and one that joins them if its utility reads them joined. A stage that is skipped reads nothing.
fn add_read(
    alloc: Global,
    drawing: &mut Drawing,
    number: u32,
    stage: &Stage,
    coming: &Coming<'_>,
) -> Result<Vec<u32>, Memory>
    ensures nodes { OnOk result (drawing.new.nodes.items ≡ drawing.old.nodes.items ++ drawn drawing.old.next (read_steps number coming.now stage.now.does stage.now.ins drawing.old.next)) }
    ensures next { OnOk result (drawing.new.next ≡ behind drawing.old.next (read_steps number coming.now stage.now.does stage.now.ins drawing.old.next)) }
    ensures edges { IfOk result (λ edges. edges.items ≡ read_edges number coming.now stage.now.does stage.now.ins drawing.old.next) }
{
    match &stage.does {
        Does::Skip => Ok(Vec::new(alloc)),
        Does::Util(inv) => add_util_inputs(
            alloc,
            drawing,
            number,
            inv,
            stage.ins.as_slice(),
            coming,
        ),
    }
}

/// Adds the nodes of a utility's inputs, and one that joins them if it reads them joined.
fn add_util_inputs(
    alloc: Global,
    drawing: &mut Drawing,
    number: u32,
    inv: &Inv,
    ins: &[In],
    coming: &Coming<'_>,
) -> Result<Vec<u32>, Memory>
    ensures nodes { OnOk result (drawing.new.nodes.items ≡ drawing.old.nodes.items ++ drawn drawing.old.next (read_steps number coming.now (Does.Util inv.now) ins.now drawing.old.next)) }
    ensures next { OnOk result (drawing.new.next ≡ behind drawing.old.next (read_steps number coming.now (Does.Util inv.now) ins.now drawing.old.next)) }
    ensures edges { IfOk result (λ edges. edges.items ≡ read_edges number coming.now (Does.Util inv.now) ins.now drawing.old.next) }
{
    let edges = add_inputs(alloc, drawing, number, ins, coming)?;
    add_joined(alloc, drawing, number, begins(coming), inv, ins, edges)
}

/// Adds the nodes of inputs, and gives their edges.
fn add_inputs(
    alloc: Global,
    drawing: &mut Drawing,
    number: u32,
    ins: &[In],
    coming: &Coming<'_>,
) -> Result<Vec<u32>, Memory>
    ensures nodes { OnOk result (drawing.new.nodes.items ≡ drawing.old.nodes.items ++ drawn drawing.old.next (in_steps number coming.now ins.now)) }
    ensures next { OnOk result (drawing.new.next ≡ behind drawing.old.next (in_steps number coming.now ins.now)) }
    ensures edges { IfOk result (λ edges. edges.items ≡ in_edges number coming.now ins.now drawing.old.next) }
{
    let mut edges = Vec::new(alloc);
    for it in ins {
        let here = add_input(alloc, drawing, number, it, coming)?;
        edges.extend_from_slice(here.as_slice())?;
    }
    Ok(edges)
}

/// Adds the node of an input, if it isn't on edges already, and gives its edges.
fn add_input(
    alloc: Global,
    drawing: &mut Drawing,
    number: u32,
    it: &In,
    coming: &Coming<'_>,
) -> Result<Vec<u32>, Memory>
    ensures nodes { OnOk result (drawing.new.nodes.items ≡ drawing.old.nodes.items ++ drawn drawing.old.next (input_steps number (kind_in coming.now it.now))) }
    ensures next { OnOk result (drawing.new.next ≡ behind drawing.old.next (input_steps number (kind_in coming.now it.now))) }
    ensures edges { IfOk result (λ edges. edges.items ≡ input_edges coming.now it.now drawing.old.next) }
{
    match it {
        In::Stream => add_stream(alloc, drawing, number, coming),
        In::File(path, _) => one_edge(alloc, add_file(alloc, drawing, number, path)?),
        In::Empty => one_edge(alloc, add_nothing(alloc, drawing, number)?),
    }
}

/// This edge alone.
fn one_edge(alloc: Global, edge: u32) -> Result<Vec<u32>, Memory>
    ensures { IfOk result (λ edges. edges.items ≡ edge ∷ []) }
{
    Ok(Vec::from_slice(alloc, &[edge])?)
}

/// Adds the node of the stream, if it isn't on edges already, and gives its edges.
fn add_stream(
    alloc: Global,
    drawing: &mut Drawing,
    number: u32,
    coming: &Coming<'_>,
) -> Result<Vec<u32>, Memory>
    ensures nodes { OnOk result (drawing.new.nodes.items ≡ drawing.old.nodes.items ++ drawn drawing.old.next (input_steps number (kind_stream coming.now))) }
    ensures next { OnOk result (drawing.new.next ≡ behind drawing.old.next (input_steps number (kind_stream coming.now))) }
    ensures edges { IfOk result (λ edges. edges.items ≡ stream_edges coming.now drawing.old.next) }
{
    match coming {
        Coming::Begins(from) => one_edge(alloc, add_beginning(alloc, drawing, number, from)?),
        Coming::On(parts) => Ok(Vec::from_slice(alloc, parts.edges.as_slice())?),
        Coming::Nothing => one_edge(alloc, add_nothing(alloc, drawing, number)?),
    }
}

/// Adds the node of what the segment begins with.
fn add_beginning(
    alloc: Global,
    drawing: &mut Drawing,
    number: u32,
    from: &First,
) -> Result<u32, Memory>
    ensures nodes { OnOk result (drawing.new.nodes.items ≡ drawing.old.nodes.items ++ drawn drawing.old.next (step (kind_first_def from.now) [] number ∷ [])) }
    ensures next { OnOk result (drawing.new.next ≡ behind drawing.old.next (step (kind_first_def from.now) [] number ∷ [])) }
    ensures edge { IfOk result (λ edge. edge ≡ drawing.old.next) }
{
    match from {
        First::Input => add_shell_input(alloc, drawing, number),
        First::Text(text) => add_text(alloc, drawing, number, text),
    }
}

/// Adds the node of the shell's input.
fn add_shell_input(alloc: Global, drawing: &mut Drawing, number: u32) -> Result<u32, Memory>
    ensures nodes { OnOk result (drawing.new.nodes.items ≡ drawing.old.nodes.items ++ drawn drawing.old.next (step (NodeKind.Source From.Input) [] number ∷ [])) }
    ensures next { OnOk result (drawing.new.next ≡ drawing.old.next + 1) }
    ensures edge { IfOk result (λ edge. edge ≡ drawing.old.next) }
{
    let edge = drawing.next;
    let edges = drawing.giving(alloc, &[])?;
    drawing.add(NodeKind::Source(From::Input), edges, number)?;
    Ok(edge)
}

/// Adds the node of a file that is read.
fn add_file(alloc: Global, drawing: &mut Drawing, number: u32, path: &Path) -> Result<u32, Memory>
    ensures nodes { OnOk result (drawing.new.nodes.items ≡ drawing.old.nodes.items ++ drawn drawing.old.next (step (NodeKind.Source (From.File path.now)) [] number ∷ [])) }
    ensures next { OnOk result (drawing.new.next ≡ drawing.old.next + 1) }
    ensures edge { IfOk result (λ edge. edge ≡ drawing.old.next) }
{
    let edge = drawing.next;
    let edges = drawing.giving(alloc, &[])?;
    let copy = path.copy()?;
    drawing.add(NodeKind::Source(From::File(copy)), edges, number)?;
    Ok(edge)
}

/// Joins the inputs on these edges, where the utility reads them joined and has several, and gives the edges that it takes.
fn add_joined(
    alloc: Global,
    drawing: &mut Drawing,
    number: u32,
    leads: bool,
    inv: &Inv,
    ins: &[In],
    edges: Vec<u32>,
) -> Result<Vec<u32>, Memory>
    ensures nodes { OnOk result (drawing.new.nodes.items ≡ drawing.old.nodes.items ++ drawn drawing.old.next (join_steps number leads inv.now ins.now edges.items)) }
    ensures next { OnOk result (drawing.new.next ≡ behind drawing.old.next (join_steps number leads inv.now ins.now edges.items)) }
    ensures edges { IfOk result (λ joined. joined.items ≡ joined_edges leads inv.now ins.now edges.items drawing.old.next) }
{
    if !is_joined(leads, inv, ins) {
        return Ok(edges);
    }
    let edge = add_cat(alloc, drawing, number, closes_before(inv), edges.as_slice())?;
    one_edge(alloc, edge)
}

/// Whether these inputs are joined by a node of their own.
fn is_joined(leads: bool, inv: &Inv, ins: &[In]) -> bool
    ensures { result ≡ is_joined_def leads inv.now ins.now }
{
    joins_before(inv) && !is_leading_cat(leads, inv) && 1 < ins.len()
}

/// Whether this is a cat that leads the segment.
pub(crate) fn is_leading_cat(leads: bool, inv: &Inv) -> bool
    ensures { result ≡ is_leading_cat_def leads inv.now }
{
    matches!(inv, Inv::Cat(_)) && leads
}

/// Whether the operands of a command are joined before it reads them.
fn joins_before(inv: &Inv) -> bool
    ensures { result ≡ joins_before_def inv.now }
{
    matches!(inv, Inv::Cat(_) | Inv::Cut(_) | Inv::Sort(_))
}

/// Whether each of them but the last is closed then.
fn closes_before(inv: &Inv) -> bool
    ensures { result ≡ closes_before_def inv.now }
{
    matches!(inv, Inv::Cut(_) | Inv::Sort(_))
}
