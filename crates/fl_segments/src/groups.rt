//! Groups of the files of a cat that leads a segment.
ghost use Rattle.std.specs.Prelude.{◌≡◌, ◌<◌, ◌≤◌, ◌+◌, ◌++◌, [], ◌∷◌, false, length, IfOk, OnOk};
ghost use Rattle.std.specs.List.{list_all};
ghost use Rattle.fl_classes.specs.Parts.{slice};
ghost use Rattle.fl_segments.specs.Groups.{group_start as group_start_def, is_file as is_file_def, is_grouped as is_grouped_def, is_marked as is_marked_def, may_group as may_group_def};
ghost use Rattle.fl_segments.specs.Inner.Drawing.{behind, drawn, step};
ghost use Rattle.fl_segments.specs.Inner.Steps.{group_parts, group_steps};

use crate::drawing::{Drawing, numbers_from};
use crate::inputs::is_leading_cat;
use crate::nodes::add_cat;
use crate::parts::{Parts, parts_on};
use crate::stages::{Does, In, Stage};
use fl_graph::NodeKind;
use ps_lines::Memory;
use std::alloc::Global;

/// Whether the files of a stage go in groups, where it leads the segment or doesn't.
pub(crate) fn is_grouped(width: u32, leads: bool, stage: &Stage) -> bool
    ensures { result ≡ is_grouped_def width leads stage.now.does stage.now.ins }
{
    match &stage.does {
        Does::Skip => false,
        Does::Util(inv) => is_leading_cat(leads, inv) && may_group(width, stage.ins.as_slice()),
    }
}

/// Whether these inputs go in as many groups as the width.
fn may_group(width: u32, ins: &[In]) -> bool
    ensures { result ≡ may_group_def width ins.now }
{
    2 <= width
        && width as usize <= ins.len()
        && are_files(ins)
        && are_marked(&ins[..group_start(width, ins.len(), width - 1)])
}

/// Whether all of these inputs are files.
fn are_files(ins: &[In]) -> bool
    ensures { result ≡ list_all is_file_def ins.now }
{
    ins.iter().all(|it| matches!(it, In::File(_, _)))
}

/// Whether all of these inputs are files that are marked closed.
fn are_marked(ins: &[In]) -> bool
    ensures { result ≡ list_all is_marked_def ins.now }
{
    ins.iter().all(|it| matches!(it, In::File(_, true)))
}

/// The number of a group's first file, of so many groups of so many files.
#[tactic(auto, using(crate::proofs::GroupLemmas::starts))]
fn group_start(groups: u32, files: usize, group: u32) -> usize
    requires some { 0 < groups }
    requires counted { group ≤ groups }
    ensures start { result ≡ group_start_def groups files group }
    ensures within { result ≤ files }
{
    let product = u128::from(group) * files as u128;
    (product / u128::from(groups)) as usize
}

/// Joins the files on these edges in as many groups as the width, each by a node of its own.
pub(crate) fn add_groups(
    alloc: Global,
    drawing: &mut Drawing,
    width: u32,
    number: u32,
    edges: &[u32],
) -> Result<Parts, Memory>
    ensures nodes { OnOk result (drawing.new.nodes.items ≡ drawing.old.nodes.items ++ drawn drawing.old.next (group_steps width number edges.now)) }
    ensures next { OnOk result (drawing.new.next ≡ behind drawing.old.next (group_steps width number edges.now)) }
    ensures parts { IfOk result (λ parts. parts ≡ group_parts width drawing.old.next) }
{
    let parts = parts_on(numbers_from(alloc, drawing.next, width)?, true);
    for group in 0..width {
        add_group(alloc, drawing, width, number, edges, group)?;
    }
    Ok(parts)
}

/// Joins the files of a group, of so many on these edges.
fn add_group(
    alloc: Global,
    drawing: &mut Drawing,
    groups: u32,
    number: u32,
    edges: &[u32],
    group: u32,
) -> Result<(), Memory>
    requires counted { group < groups }
    ensures nodes { OnOk result (drawing.new.nodes.items ≡ drawing.old.nodes.items ++ drawn drawing.old.next
        (step (NodeKind.Cat false) (slice edges.now (group_start_def groups (length edges.now) group) (group_start_def groups (length edges.now) (group + 1))) number ∷ [])) }
    ensures next { OnOk result (drawing.new.next ≡ drawing.old.next + 1) }
{
    let from = group_start(groups, edges.len(), group);
    let end = group_start(groups, edges.len(), group + 1);
    add_cat(alloc, drawing, number, false, &edges[from..end])?;
    Ok(())
}
