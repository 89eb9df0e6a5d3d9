//! Where the output of a stage goes.
ghost use Rattle.std.specs.Prelude.{◌≡◌, ◌+◌, ◌++◌, [], ◌∷◌, IfOk, OnOk};
ghost use Rattle.fl_segments.specs.Inner.Drawing.{behind, drawn, step};
ghost use Rattle.fl_segments.specs.Inner.Steps.{comes_from, comes_on, ends_from, goes_from, on_steps, out_steps, piped_steps, stream_comes, stream_steps, whole_edge, whole_steps};

use crate::drawing::Drawing;
use crate::inputs::is_reader;
use crate::nodes::{add_end, add_text, add_whole_stream, is_empty, one_part};
use crate::parts::{Coming, Parts};
use crate::spread::hands_on;
use crate::stages::{Out, Stage};
use fl_graph::{NodeKind, To};
use ps_lines::{Memory, Text};
use ps_world::{Mode, Path};
use std::alloc::Global;

/// Adds where the last stage's output on these parts goes.
pub(crate) fn add_end_of(
    alloc: Global,
    drawing: &mut Drawing,
    number: u32,
    stage: &Stage,
    parts: &Parts,
) -> Result<(), Memory>
    ensures nodes { OnOk result (drawing.new.nodes.items ≡ drawing.old.nodes.items ++ drawn drawing.old.next (ends_from number stage.now parts.now drawing.old.next)) }
{
    let edge = add_whole_stream(alloc, drawing, number, parts.edges.as_slice())?;
    add_out(alloc, drawing, number, stage, edge)
}

/// Adds where an earlier stage's output on these parts goes, and gives what comes to this stage, which is the next one.
pub(crate) fn add_goes<'from>(
    alloc: Global,
    drawing: &mut Drawing,
    width: u32,
    number: u32,
    stage: &Stage,
    following: &Stage,
    parts: Parts,
) -> Result<Coming<'from>, Memory>
    ensures nodes { OnOk result (drawing.new.nodes.items ≡ drawing.old.nodes.items ++ drawn drawing.old.next (goes_from width number stage.now following.now parts drawing.old.next)) }
    ensures next { OnOk result (drawing.new.next ≡ behind drawing.old.next (goes_from width number stage.now following.now parts drawing.old.next)) }
    ensures coming { IfOk result (λ coming. coming ≡ comes_from width number stage.now following.now parts drawing.old.next) }
{
    if hands_on(width, &stage.out, following, &parts) {
        return Ok(Coming::On(parts));
    }
    add_whole_goes(alloc, drawing, number, stage, is_reader(following), &parts)
}

/// Adds where an earlier stage's output goes, which these parts are joined to, and gives what comes to the next stage, which reads its
/// stream or doesn't.
fn add_whole_goes<'from>(
    alloc: Global,
    drawing: &mut Drawing,
    number: u32,
    stage: &Stage,
    is_read: bool,
    parts: &Parts,
) -> Result<Coming<'from>, Memory>
    ensures nodes { OnOk result (drawing.new.nodes.items ≡ drawing.old.nodes.items ++ drawn drawing.old.next (whole_steps number parts.now.edges ++ on_steps number stage.now.out stage.now.piped is_read (whole_edge parts.now.edges drawing.old.next))) }
    ensures next { OnOk result (drawing.new.next ≡ behind drawing.old.next (whole_steps number parts.now.edges ++ on_steps number stage.now.out stage.now.piped is_read (whole_edge parts.now.edges drawing.old.next))) }
    ensures coming { IfOk result (λ coming. coming ≡ comes_on stage.now.out is_read (whole_edge parts.now.edges drawing.old.next) (behind drawing.old.next (whole_steps number parts.now.edges))) }
{
    let edge = add_whole_stream(alloc, drawing, number, parts.edges.as_slice())?;
    add_on(alloc, drawing, number, stage, is_read, edge)
}

/// Adds where the last stage's output on this edge goes, and what goes on in its place.
fn add_out(
    alloc: Global,
    drawing: &mut Drawing,
    number: u32,
    stage: &Stage,
    edge: u32,
) -> Result<(), Memory>
    ensures nodes { OnOk result (drawing.new.nodes.items ≡ drawing.old.nodes.items ++ drawn drawing.old.next (out_steps number stage.now.out stage.now.piped edge drawing.old.next)) }
{
    match &stage.out {
        Out::Next => add_sink(alloc, drawing, number, edge),
        Out::File(path, mode) => {
            add_file_sink(alloc, drawing, number, path, *mode, edge)?;
            add_piped(alloc, drawing, number, &stage.piped)
        }
        Out::Null => {
            add_end(alloc, drawing, number, edge)?;
            add_piped(alloc, drawing, number, &stage.piped)
        }
    }
}

/// Adds where an earlier stage's output on this edge goes, and gives what comes to the next stage, which reads its stream or doesn't.
fn add_on<'from>(
    alloc: Global,
    drawing: &mut Drawing,
    number: u32,
    stage: &Stage,
    is_read: bool,
    edge: u32,
) -> Result<Coming<'from>, Memory>
    ensures nodes { OnOk result (drawing.new.nodes.items ≡ drawing.old.nodes.items ++ drawn drawing.old.next (on_steps number stage.now.out stage.now.piped is_read edge)) }
    ensures next { OnOk result (drawing.new.next ≡ behind drawing.old.next (on_steps number stage.now.out stage.now.piped is_read edge)) }
    ensures coming { IfOk result (λ coming. coming ≡ comes_on stage.now.out is_read edge drawing.old.next) }
{
    match &stage.out {
        Out::Next => Ok(Coming::On(one_part(alloc, edge)?)),
        Out::File(path, mode) => {
            add_file_sink(alloc, drawing, number, path, *mode, edge)?;
            add_piped_stream(alloc, drawing, number, &stage.piped, is_read)
        }
        Out::Null => {
            add_end(alloc, drawing, number, edge)?;
            add_piped_stream(alloc, drawing, number, &stage.piped, is_read)
        }
    }
}

/// Adds the output, to which this edge leads.
fn add_sink(alloc: Global, drawing: &mut Drawing, number: u32, edge: u32) -> Result<(), Memory>
    ensures nodes { OnOk result (drawing.new.nodes.items ≡ drawing.old.nodes.items ++ drawn drawing.old.next (step (NodeKind.Sink To.Output) (edge ∷ []) number ∷ [])) }
    ensures next { OnOk result (drawing.new.next ≡ drawing.old.next) }
{
    let edges = drawing.ending(alloc, &[edge])?;
    drawing.add(NodeKind::Sink(To::Output), edges, number)
}

/// Adds a file that is written, to which this edge leads.
fn add_file_sink(
    alloc: Global,
    drawing: &mut Drawing,
    number: u32,
    path: &Path,
    mode: Mode,
    edge: u32,
) -> Result<(), Memory>
    ensures nodes { OnOk result (drawing.new.nodes.items ≡ drawing.old.nodes.items ++ drawn drawing.old.next (step (NodeKind.Sink (To.File path.now mode)) (edge ∷ []) number ∷ [])) }
    ensures next { OnOk result (drawing.new.next ≡ drawing.old.next) }
{
    let edges = drawing.ending(alloc, &[edge])?;
    let copy = path.copy()?;
    drawing.add(NodeKind::Sink(To::File(copy, mode)), edges, number)
}

/// Adds a text that goes to the output, if it has a byte.
fn add_piped(alloc: Global, drawing: &mut Drawing, number: u32, text: &Text) -> Result<(), Memory>
    ensures nodes { OnOk result (drawing.new.nodes.items ≡ drawing.old.nodes.items ++ drawn drawing.old.next (piped_steps number text.now drawing.old.next)) }
{
    if is_empty(text) {
        return Ok(());
    }
    let piped = add_text(alloc, drawing, number, text)?;
    add_sink(alloc, drawing, number, piped)
}

/// Adds a text as the stream of the next stage, if that one reads it. An empty text is one too.
fn add_piped_stream<'from>(
    alloc: Global,
    drawing: &mut Drawing,
    number: u32,
    text: &Text,
    is_read: bool,
) -> Result<Coming<'from>, Memory>
    ensures nodes { OnOk result (drawing.new.nodes.items ≡ drawing.old.nodes.items ++ drawn drawing.old.next (stream_steps number text.now is_read)) }
    ensures next { OnOk result (drawing.new.next ≡ behind drawing.old.next (stream_steps number text.now is_read)) }
    ensures coming { IfOk result (λ coming. coming ≡ stream_comes is_read drawing.old.next) }
{
    if !is_read {
        return Ok(Coming::Nothing);
    }
    let edge = add_text(alloc, drawing, number, text)?;
    Ok(Coming::On(one_part(alloc, edge)?))
}
