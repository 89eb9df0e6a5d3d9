//! What a stage does: its utility, the files that tee writes, and what comes before its output.
ghost use Rattle.std.specs.Prelude.{◌≡◌, ◌+◌, ◌++◌, [], ◌∷◌, false, if◌then◌else◌, length, IfOk, OnOk};
ghost use Rattle.fl_segments.specs.Chains.{tee_mode};
ghost use Rattle.fl_segments.specs.Stages.{is_none};
ghost use Rattle.fl_segments.specs.Inner.Drawing.{behind, drawn, step};
ghost use Rattle.fl_segments.specs.Inner.Steps.{before_parts, before_steps, beside_parts, beside_steps, does_nodes, does_parts, does_steps, files_parts, files_steps, first_parts, first_steps, group_parts, group_steps, main_nodes, main_parts, main_steps, stage_parts, stage_steps, tee_edge, tee_steps, teed_parts, teed_steps, util_nodes, util_parts, util_steps};

use crate::drawing::Drawing;
use crate::groups::{add_groups, is_grouped};
use crate::inputs::{add_front, begins, is_leading_cat};
use crate::nodes::{add_nothing, add_text, add_whole_stream, is_empty, one_part};
use crate::parts::{Coming, Parts, parts_on};
use crate::spread::{add_spread, is_spread};
use crate::stages::{Does, Stage};
use fl_graph::{NodeKind, Seq};
use ps_lines::{Memory, Text};
use ps_world::{Mode, Path};
use std::alloc::Global;
use ut_args::Inv;

/// What a stage writes, before it is led anywhere.
#[derive(Drop)]
pub(crate) struct Written {
    /// The stream that it is.
    pub(crate) parts: Parts,
    /// The numbers of the nodes of the stage's utility: of its maps, or of its whole.
    pub(crate) nodes: Seq<u32>,
}

/// Adds the nodes of a stage up to where its output goes.
pub(crate) fn add_main(
    alloc: Global,
    drawing: &mut Drawing,
    width: u32,
    number: u32,
    stage: &Stage,
    coming: &Coming<'_>,
) -> Result<Written, Memory>
    ensures nodes { OnOk result (drawing.new.nodes.items ≡ drawing.old.nodes.items ++ drawn drawing.old.next (main_steps width number coming.now stage.now drawing.old.next)) }
    ensures next { OnOk result (drawing.new.next ≡ behind drawing.old.next (main_steps width number coming.now stage.now drawing.old.next)) }
    ensures parts { IfOk result (λ written. written.parts ≡ main_parts width number coming.now stage.now drawing.old.next) }
    ensures named { IfOk result (λ written. written.nodes ≡ main_nodes width number coming.now stage.now drawing.old.next (length drawing.old.nodes.items)) }
{
    let taken = add_front(alloc, drawing, number, stage, coming)?;
    let done = add_done(alloc, drawing, width, number, begins(coming), stage, taken)?;
    let Written { parts, nodes } = done;
    let parts = add_beside(alloc, drawing, number, stage, parts)?;
    Ok(Written { parts, nodes })
}

/// Adds the nodes of what a stage does with these parts, which leads the segment or doesn't: the files of a cat may go in groups.
#[tactic(auto, using(crate::proofs::GroupLemmas::named))]
fn add_done(
    alloc: Global,
    drawing: &mut Drawing,
    width: u32,
    number: u32,
    leads: bool,
    stage: &Stage,
    taken: Parts,
) -> Result<Written, Memory>
    ensures nodes { OnOk result (drawing.new.nodes.items ≡ drawing.old.nodes.items ++ drawn drawing.old.next (stage_steps width number leads stage.now.does stage.now.ins stage.now.first taken.edges drawing.old.next)) }
    ensures next { OnOk result (drawing.new.next ≡ behind drawing.old.next (stage_steps width number leads stage.now.does stage.now.ins stage.now.first taken.edges drawing.old.next)) }
    ensures parts { IfOk result (λ written. written.parts ≡ stage_parts width number leads stage.now.does stage.now.ins taken drawing.old.next) }
    ensures named { IfOk result (λ written. written.nodes ≡ does_nodes width number leads stage.now.does taken.edges (length drawing.old.nodes.items)) }
{
    if is_grouped(width, leads, stage) {
        return add_grouped(alloc, drawing, width, number, taken.edges.as_slice());
    }
    add_does(alloc, drawing, width, number, leads, stage, taken)
}

/// Adds the groups of a cat that leads the segment and has its files on these edges.
fn add_grouped(
    alloc: Global,
    drawing: &mut Drawing,
    width: u32,
    number: u32,
    edges: &[u32],
) -> Result<Written, Memory>
    ensures nodes { OnOk result (drawing.new.nodes.items ≡ drawing.old.nodes.items ++ drawn drawing.old.next (group_steps width number edges.now)) }
    ensures next { OnOk result (drawing.new.next ≡ behind drawing.old.next (group_steps width number edges.now)) }
    ensures parts { IfOk result (λ written. written.parts ≡ group_parts width drawing.old.next) }
    ensures named { IfOk result (λ written. written.nodes ≡ []) }
{
    let nodes = Seq::from_vec(Vec::new(alloc));
    let parts = add_groups(alloc, drawing, width, number, edges)?;
    Ok(Written { parts, nodes })
}

/// Adds the nodes of what a stage does with these parts, which leads the segment or doesn't.
fn add_does(
    alloc: Global,
    drawing: &mut Drawing,
    width: u32,
    number: u32,
    leads: bool,
    stage: &Stage,
    taken: Parts,
) -> Result<Written, Memory>
    ensures nodes { OnOk result (drawing.new.nodes.items ≡ drawing.old.nodes.items ++ drawn drawing.old.next (does_steps width number leads stage.now.does stage.now.first taken.edges drawing.old.next)) }
    ensures next { OnOk result (drawing.new.next ≡ behind drawing.old.next (does_steps width number leads stage.now.does stage.now.first taken.edges drawing.old.next)) }
    ensures parts { IfOk result (λ written. written.parts ≡ does_parts width number leads stage.now.does taken drawing.old.next) }
    ensures named { IfOk result (λ written. written.nodes ≡ does_nodes width number leads stage.now.does taken.edges (length drawing.old.nodes.items)) }
{
    match &stage.does {
        Does::Skip => add_skip(alloc, drawing, number, &stage.first),
        Does::Util(inv) => add_util(alloc, drawing, width, number, leads, inv, taken),
    }
}

/// Adds a text, in place of a utility that is kept from running.
fn add_skip(
    alloc: Global,
    drawing: &mut Drawing,
    number: u32,
    text: &Text,
) -> Result<Written, Memory>
    ensures nodes { OnOk result (drawing.new.nodes.items ≡ drawing.old.nodes.items ++ drawn drawing.old.next (step (NodeKind.Text text.now) [] number ∷ [])) }
    ensures next { OnOk result (drawing.new.next ≡ drawing.old.next + 1) }
    ensures parts { IfOk result (λ written. written.parts ≡ record { edges = drawing.old.next ∷ []; cut = false }) }
    ensures named { IfOk result (λ written. written.nodes ≡ []) }
{
    let edge = add_text(alloc, drawing, number, text)?;
    Ok(Written {
        parts: one_part(alloc, edge)?,
        nodes: Seq::from_vec(Vec::new(alloc)),
    })
}

/// Adds the nodes of a utility that takes these parts. A cat that leads the segment has none: its inputs are its output.
fn add_util(
    alloc: Global,
    drawing: &mut Drawing,
    width: u32,
    number: u32,
    leads: bool,
    inv: &Inv,
    taken: Parts,
) -> Result<Written, Memory>
    ensures nodes { OnOk result (drawing.new.nodes.items ≡ drawing.old.nodes.items ++ drawn drawing.old.next (util_steps width number leads inv.now taken.edges drawing.old.next)) }
    ensures next { OnOk result (drawing.new.next ≡ behind drawing.old.next (util_steps width number leads inv.now taken.edges drawing.old.next)) }
    ensures parts { IfOk result (λ written. written.parts ≡ util_parts width number leads inv.now taken drawing.old.next) }
    ensures named { IfOk result (λ written. written.nodes ≡ util_nodes width number leads inv.now taken.edges (length drawing.old.nodes.items)) }
{
    if is_leading_cat(leads, inv) {
        return add_sources(alloc, drawing, number, taken);
    }
    if is_spread(width, inv) {
        return add_spread(alloc, drawing, width, number, inv, taken);
    }
    add_whole(alloc, drawing, number, inv, taken.edges.as_slice())
}

/// The output of a cat that leads the segment and has its inputs on these edges.
fn add_sources(
    alloc: Global,
    drawing: &mut Drawing,
    number: u32,
    taken: Parts,
) -> Result<Written, Memory>
    ensures nodes { OnOk result (drawing.new.nodes.items ≡ drawing.old.nodes.items ++ drawn drawing.old.next (if is_none taken.edges then step (NodeKind.Text []) [] number ∷ [] else [])) }
    ensures next { OnOk result (drawing.new.next ≡ behind drawing.old.next (if is_none taken.edges then step (NodeKind.Text []) [] number ∷ [] else [])) }
    ensures parts { IfOk result (λ written. written.parts ≡ record { edges = if is_none taken.edges then drawing.old.next ∷ [] else taken.edges; cut = false }) }
    ensures named { IfOk result (λ written. written.nodes ≡ []) }
{
    let nodes = Seq::from_vec(Vec::new(alloc));
    if taken.edges.as_slice().is_empty() {
        let edge = add_nothing(alloc, drawing, number)?;
        let parts = one_part(alloc, edge)?;
        return Ok(Written { parts, nodes });
    }
    let parts = parts_on(taken.edges.into_vec(), false);
    Ok(Written { parts, nodes })
}

/// Adds the node of a utility that takes these edges, and gives the edge with its output.
fn add_whole(
    alloc: Global,
    drawing: &mut Drawing,
    number: u32,
    inv: &Inv,
    ins: &[u32],
) -> Result<Written, Memory>
    ensures nodes { OnOk result (drawing.new.nodes.items ≡ drawing.old.nodes.items ++ drawn drawing.old.next (step (NodeKind.Whole inv.now) ins.now number ∷ [])) }
    ensures next { OnOk result (drawing.new.next ≡ drawing.old.next + 1) }
    ensures parts { IfOk result (λ written. written.parts ≡ record { edges = drawing.old.next ∷ []; cut = false }) }
    ensures named { IfOk result (λ written. written.nodes ≡ length drawing.old.nodes.items ∷ []) }
{
    let node = drawing.next_node()?;
    let parts = one_part(alloc, drawing.next)?;
    let nodes = Seq::from_vec(Vec::from_slice(alloc, &[node])?);
    let edges = drawing.giving(alloc, ins)?;
    let copy = inv.copy()?;
    drawing.add(NodeKind::Whole(copy), edges, number)?;
    Ok(Written { parts, nodes })
}

/// Adds the files that tee writes this output to, and what comes before it.
fn add_beside(
    alloc: Global,
    drawing: &mut Drawing,
    number: u32,
    stage: &Stage,
    parts: Parts,
) -> Result<Parts, Memory>
    ensures nodes { OnOk result (drawing.new.nodes.items ≡ drawing.old.nodes.items ++ drawn drawing.old.next (beside_steps number stage.now.does stage.now.tees stage.now.first parts drawing.old.next)) }
    ensures next { OnOk result (drawing.new.next ≡ behind drawing.old.next (beside_steps number stage.now.does stage.now.tees stage.now.first parts drawing.old.next)) }
    ensures parts { IfOk result (λ both. both ≡ beside_parts number stage.now.does stage.now.tees stage.now.first parts drawing.old.next) }
{
    let teed = add_files(alloc, drawing, number, stage, parts)?;
    add_first(alloc, drawing, number, stage, teed)
}

/// Adds the files that tee writes this output to, and gives what they hand on.
fn add_files(
    alloc: Global,
    drawing: &mut Drawing,
    number: u32,
    stage: &Stage,
    parts: Parts,
) -> Result<Parts, Memory>
    ensures nodes { OnOk result (drawing.new.nodes.items ≡ drawing.old.nodes.items ++ drawn drawing.old.next (files_steps number stage.now.does stage.now.tees parts.edges drawing.old.next)) }
    ensures next { OnOk result (drawing.new.next ≡ behind drawing.old.next (files_steps number stage.now.does stage.now.tees parts.edges drawing.old.next)) }
    ensures parts { IfOk result (λ teed. teed ≡ files_parts number stage.now.does stage.now.tees parts drawing.old.next) }
{
    match &stage.does {
        Does::Skip => Ok(parts),
        Does::Util(inv) => add_teed(
            alloc,
            drawing,
            number,
            mode_of(inv),
            stage.tees.as_slice(),
            parts,
        ),
    }
}

/// Adds the nodes of files that this output is written to, where there are any, and gives what they hand on.
fn add_teed(
    alloc: Global,
    drawing: &mut Drawing,
    number: u32,
    mode: Mode,
    paths: &[Path],
    parts: Parts,
) -> Result<Parts, Memory>
    ensures nodes { OnOk result (drawing.new.nodes.items ≡ drawing.old.nodes.items ++ drawn drawing.old.next (teed_steps number mode paths.now parts.edges drawing.old.next)) }
    ensures next { OnOk result (drawing.new.next ≡ behind drawing.old.next (teed_steps number mode paths.now parts.edges drawing.old.next)) }
    ensures parts { IfOk result (λ teed. teed ≡ teed_parts number paths.now parts drawing.old.next) }
{
    if paths.is_empty() {
        return Ok(parts);
    }
    let edge = add_whole_stream(alloc, drawing, number, parts.edges.as_slice())?;
    let last = add_tee_files(alloc, drawing, number, mode, paths, edge)?;
    one_part(alloc, last)
}

/// Adds the nodes of files, each of which gets what is on this edge and hands it on to the next, and gives the last one's edge.
fn add_tee_files(
    alloc: Global,
    drawing: &mut Drawing,
    number: u32,
    mode: Mode,
    paths: &[Path],
    edge: u32,
) -> Result<u32, Memory>
    ensures nodes { OnOk result (drawing.new.nodes.items ≡ drawing.old.nodes.items ++ drawn drawing.old.next (tee_steps number mode paths.now edge drawing.old.next)) }
    ensures next { OnOk result (drawing.new.next ≡ behind drawing.old.next (tee_steps number mode paths.now edge drawing.old.next)) }
    ensures edge { IfOk result (λ last. last ≡ tee_edge paths.now edge drawing.old.next) }
{
    let mut on = edge;
    for path in paths {
        on = add_tee_file(alloc, drawing, number, path, mode, on)?;
    }
    Ok(on)
}

/// Adds the node of a file that gets what is on this edge and hands it on, and gives the edge on which it does.
fn add_tee_file(
    alloc: Global,
    drawing: &mut Drawing,
    number: u32,
    path: &Path,
    mode: Mode,
    edge: u32,
) -> Result<u32, Memory>
    ensures nodes { OnOk result (drawing.new.nodes.items ≡ drawing.old.nodes.items ++ drawn drawing.old.next (step (NodeKind.TeeFile path.now mode) (edge ∷ []) number ∷ [])) }
    ensures next { OnOk result (drawing.new.next ≡ drawing.old.next + 1) }
    ensures edge { IfOk result (λ on. on ≡ drawing.old.next) }
{
    let next = drawing.next;
    let edges = drawing.giving(alloc, &[edge])?;
    let copy = path.copy()?;
    drawing.add(NodeKind::TeeFile(copy, mode), edges, number)?;
    Ok(next)
}

/// How tee begins the files that it writes (XCU tee): behind what they hold with `-a`, else anew.
fn mode_of(inv: &Inv) -> Mode
    ensures { result ≡ tee_mode inv.now }
{
    match inv {
        Inv::Tee(tee) => begun(tee.args.appends),
        _ => Mode::Fresh,
    }
}

/// How a file is begun that is written behind what it holds, or isn't.
fn begun(appends: bool) -> Mode
    ensures { result ≡ (if appends then Mode.Append else Mode.Fresh) }
{
    if appends { Mode::Append } else { Mode::Fresh }
}

/// Adds what comes first, as a part before the output, and gives both.
fn add_first(
    alloc: Global,
    drawing: &mut Drawing,
    number: u32,
    stage: &Stage,
    parts: Parts,
) -> Result<Parts, Memory>
    ensures nodes { OnOk result (drawing.new.nodes.items ≡ drawing.old.nodes.items ++ drawn drawing.old.next (first_steps number stage.now.does stage.now.first parts.edges)) }
    ensures next { OnOk result (drawing.new.next ≡ behind drawing.old.next (first_steps number stage.now.does stage.now.first parts.edges)) }
    ensures parts { IfOk result (λ both. both ≡ first_parts number stage.now.does stage.now.first parts drawing.old.next) }
{
    match &stage.does {
        Does::Skip => Ok(parts),
        Does::Util(_) => add_before(alloc, drawing, number, &stage.first, parts),
    }
}

/// Adds a text as a part before these, which are joined then, if the text has a byte.
fn add_before(
    alloc: Global,
    drawing: &mut Drawing,
    number: u32,
    text: &Text,
    parts: Parts,
) -> Result<Parts, Memory>
    ensures nodes { OnOk result (drawing.new.nodes.items ≡ drawing.old.nodes.items ++ drawn drawing.old.next (before_steps number text.now parts.edges)) }
    ensures next { OnOk result (drawing.new.next ≡ behind drawing.old.next (before_steps number text.now parts.edges)) }
    ensures parts { IfOk result (λ both. both ≡ before_parts number text.now parts drawing.old.next) }
{
    if is_empty(text) {
        return Ok(parts);
    }
    let output = add_whole_stream(alloc, drawing, number, parts.edges.as_slice())?;
    let first = add_text(alloc, drawing, number, text)?;
    Ok(parts_on(Vec::from_slice(alloc, &[first, output])?, false))
}
