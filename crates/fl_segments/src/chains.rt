//! The graph of a segment.
ghost use Rattle.std.specs.Prelude.{◌≡◌, ◌+◌, ◌++◌, ◌≤◌, [], ◌∷◌, ℕ, List, length, true, IfOk, OnOk};
ghost use Rattle.std.specs.List.{list_all, list_any};
ghost use Rattle.ps_world.specs.Paths.{Components};
ghost use Rattle.fl_graph.specs.Kinds.{is_grep as is_grep_def, is_input, is_output};
ghost use Rattle.fl_graph.specs.Paths.{ArePathsApart, paths_read, paths_written};
ghost use Rattle.fl_graph.specs.Valid.{Valid};
ghost use Rattle.fl_classes.specs.Flow.{outcome};
ghost use Rattle.fl_classes.specs.Kinds.{are_run};
ghost use Rattle.fl_classes.specs.Sources.{source_texts};
ghost use Rattle.fl_classes.specs.Used.{words_used};
ghost use Rattle.fl_segments.specs.Chains.{begins_with, chain_means, is_quiet as is_quiet_def};
ghost use Rattle.fl_segments.specs.Groups.{marks_hold};
ghost use Rattle.fl_segments.specs.Spread.{IsSpread};
ghost use Rattle.fl_segments.specs.Stages.{files_read, files_written, gives_output, is_stage, reads_input, words_at};
ghost use Rattle.fl_segments.specs.Inner.Drawing.{behind, drawn};
ghost use Rattle.fl_segments.specs.Inner.Steps.{chain_nodes, chain_rule, chain_steps, comes_behind, earlier_steps, grep_rule as grep_rule_def, last_steps, main_nodes, rule_by};

use crate::commands::{Written, add_main};
use crate::drawing::Drawing;
use crate::outputs::{add_end_of, add_goes};
use crate::parts::Coming;
use crate::stages::{Does, First, Stage};
use fl_graph::{Graph, Seq, StatusRule};
use ps_lines::Memory;
use std::alloc::Global;
use ut_args::{Inv, Report};

/// The most stages of a segment.
pub const MAX_STAGES: usize = 16;

/// The graph of a segment, with one node for each utility.
///
/// The graph is valid and is run by the engine, reads and writes the segment's files in their order, and leaves what the segment means:
/// the output, the texts for files and the status. The nodes stand in the order of the stages, and have their numbers. Those of a stage are
/// the end of a stream that it doesn't read, those of its inputs, a Cat that joins them for cat, cut and sort, the utility, a Text and a Cat
/// where something comes first, and where the output goes. A cat that leads the segment has no node of its own, since its inputs joined are
/// its output. A graph of 2^32 edges or more wants memory.
pub fn chain(alloc: Global, segment: &[Stage], from: &First) -> Result<Graph, Memory>
    requires some { 1 ≤ length segment.now }
    requires most { length segment.now ≤ MAX_STAGES }
    requires stages { list_all is_stage segment.now ≡ true }
    requires paths { ArePathsApart (files_read segment.now) (files_written segment.now) }
    ensures valid { IfOk result (λ graph. Valid graph.nodes graph.status) }
    ensures kinds { IfOk result (λ graph. are_run graph.nodes ≡ true) }
    ensures reads { IfOk result (λ graph. paths_read graph.nodes ≡ files_read segment.now) }
    ensures writes { IfOk result (λ graph. paths_written graph.nodes ≡ files_written segment.now) }
    ensures input { IfOk result (λ graph. list_any (λ cell. is_input cell.kind) graph.nodes ≡ reads_input segment.now from.now) }
    ensures output { IfOk result (λ graph. list_any (λ cell. is_output cell.kind) graph.nodes ≡ gives_output segment.now) }
    ensures outcome { IfOk result (λ graph. (input : List ℕ) (files : Components → List ℕ) →
        outcome graph (source_texts graph.nodes input files) ≡ chain_means segment.now (begins_with from.now input) files) }
    ensures used { IfOk result (λ graph. words_used graph.nodes ≡ words_at 1 segment.now) }
{
    chain_graph(alloc, segment, from, 1)
}

/// The graph of a segment at a width: a utility whose input may be cut is spread over so many parts of it.
///
/// It is as that of `chain`, but for the nodes of such utilities: a Split of the one input, unless it comes in as many parts as the width,
/// cut as the utility wants it, and a Map of each part. A cat that leads the segment may hand on its files in groups, and a Cat joins each:
/// where they are files alone, one at least for each group, and all before the last group are marked closed. The outcome is what the segment
/// means wherever the files that are marked closed are so. A stream that is on several edges is joined by a Cat where no utility takes it so.
/// At a width below 2 it is that of `chain`.
pub fn compile(alloc: Global, segment: &[Stage], from: &First, width: u32) -> Result<Graph, Memory>
    requires some { 1 ≤ length segment.now }
    requires most { length segment.now ≤ MAX_STAGES }
    requires stages { list_all is_stage segment.now ≡ true }
    requires paths { ArePathsApart (files_read segment.now) (files_written segment.now) }
    ensures valid { IfOk result (λ graph. Valid graph.nodes graph.status) }
    ensures kinds { IfOk result (λ graph. are_run graph.nodes ≡ true) }
    ensures reads { IfOk result (λ graph. paths_read graph.nodes ≡ files_read segment.now) }
    ensures writes { IfOk result (λ graph. paths_written graph.nodes ≡ files_written segment.now) }
    ensures input { IfOk result (λ graph. list_any (λ cell. is_input cell.kind) graph.nodes ≡ reads_input segment.now from.now) }
    ensures output { IfOk result (λ graph. list_any (λ cell. is_output cell.kind) graph.nodes ≡ gives_output segment.now) }
    ensures outcome { IfOk result (λ graph. (input : List ℕ) (files : Components → List ℕ) → marks_hold files segment.now ≡ true →
        outcome graph (source_texts graph.nodes input files) ≡ chain_means segment.now (begins_with from.now input) files) }
    ensures used { IfOk result (λ graph. words_used graph.nodes ≡ words_at width segment.now) }
    ensures spread { IfOk result (λ graph. IsSpread width segment.now graph.nodes) }
{
    chain_graph(alloc, segment, from, width)
}

/// The graph of stages at a width.
pub(crate) fn chain_graph(
    alloc: Global,
    segment: &[Stage],
    from: &First,
    width: u32,
) -> Result<Graph, Memory>
    requires some { 1 ≤ length segment.now }
    requires most { length segment.now ≤ MAX_STAGES }
    ensures nodes { IfOk result (λ graph. graph.nodes ≡ drawn 0 (chain_steps width 0 (Coming.Begins from.entry) segment.now 0)) }
    ensures status { IfOk result (λ graph. graph.status ≡ chain_rule segment.now (chain_nodes width 0 (Coming.Begins from.entry) segment.now 0 0)) }
{
    let mut drawing = Drawing::new(alloc);
    let status = add_stages(alloc, &mut drawing, width, segment, from)?;
    let Drawing { nodes, next: _next } = drawing;
    Ok(Graph {
        nodes: Seq::from_vec(nodes),
        status,
    })
}

/// Adds all stages, the first with what the segment begins with, and gives the status rule.
fn add_stages(
    alloc: Global,
    drawing: &mut Drawing,
    width: u32,
    segment: &[Stage],
    from: &First,
) -> Result<StatusRule, Memory>
    requires some { 1 ≤ length segment.now }
    requires most { length segment.now ≤ MAX_STAGES }
    ensures nodes { OnOk result (drawing.new.nodes.items ≡ drawing.old.nodes.items ++ drawn drawing.old.next (chain_steps width 0 (Coming.Begins from.entry) segment.now drawing.old.next)) }
    ensures status { IfOk result (λ status. status ≡ chain_rule segment.now (chain_nodes width 0 (Coming.Begins from.entry) segment.now drawing.old.next (length drawing.old.nodes.items))) }
{
    let [first, rest @ ..] = segment else {
        unreachable!()
    };
    let mut number = 0;
    let mut coming = Coming::Begins(from);
    let mut stage = first;
    let mut left = rest;
    while let [next, others @ ..] = left {
        coming = add_earlier(alloc, drawing, width, number, stage, &coming, next)?;
        number += 1;
        stage = next;
        left = others;
    }
    let nodes = add_last(alloc, drawing, width, number, stage, &coming)?;
    Ok(rule(stage, nodes))
}

/// Adds a stage that isn't the last, and gives what comes to the next one.
fn add_earlier<'from>(
    alloc: Global,
    drawing: &mut Drawing,
    width: u32,
    number: u32,
    stage: &Stage,
    coming: &Coming<'_>,
    following: &Stage,
) -> Result<Coming<'from>, Memory>
    ensures nodes { OnOk result (drawing.new.nodes.items ≡ drawing.old.nodes.items ++ drawn drawing.old.next (earlier_steps width number coming.now stage.now drawing.old.next following.now)) }
    ensures next { OnOk result (drawing.new.next ≡ behind drawing.old.next (earlier_steps width number coming.now stage.now drawing.old.next following.now)) }
    ensures coming { IfOk result (λ on. on ≡ comes_behind width number coming.now stage.now drawing.old.next following.now) }
{
    let written = add_main(alloc, drawing, width, number, stage, coming)?;
    let Written {
        parts,
        nodes: _nodes,
    } = written;
    add_goes(alloc, drawing, width, number, stage, following, parts)
}

/// Adds the last stage, and gives the numbers of the nodes of its utility.
fn add_last(
    alloc: Global,
    drawing: &mut Drawing,
    width: u32,
    number: u32,
    stage: &Stage,
    coming: &Coming<'_>,
) -> Result<Seq<u32>, Memory>
    ensures nodes { OnOk result (drawing.new.nodes.items ≡ drawing.old.nodes.items ++ drawn drawing.old.next (last_steps width number coming.now stage.now drawing.old.next)) }
    ensures named { IfOk result (λ nodes. nodes ≡ main_nodes width number coming.now stage.now drawing.old.next (length drawing.old.nodes.items)) }
{
    let written = add_main(alloc, drawing, width, number, stage, coming)?;
    let Written { parts, nodes } = written;
    add_end_of(alloc, drawing, number, stage, &parts)?;
    Ok(nodes)
}

/// The status rule, by the last stage and the numbers of the nodes of its utility.
fn rule(stage: &Stage, nodes: Seq<u32>) -> StatusRule
    ensures { result ≡ rule_by stage.now.does stage.now.status nodes }
{
    match &stage.does {
        Does::Skip => StatusRule::Fixed(stage.status),
        Does::Util(inv) => {
            if is_grep(inv) {
                return grep_rule(is_quiet(inv), stage.status, nodes);
            }
            StatusRule::Fixed(stage.status)
        }
    }
}

/// The status rule of grep, by the numbers of its nodes.
fn grep_rule(is_quiet: bool, status: u8, nodes: Seq<u32>) -> StatusRule
    ensures { result ≡ grep_rule_def is_quiet status nodes }
{
    if status == 0 {
        return selected(nodes, 1);
    }
    if is_quiet {
        return selected(nodes, status);
    }
    StatusRule::Fixed(status)
}

/// 0 where one of these nodes has selected a line, and else `none`.
fn selected(nodes: Seq<u32>, none: u8) -> StatusRule
    ensures { result ≡ StatusRule.Selected nodes 0 none }
{
    StatusRule::Selected {
        nodes,
        some: 0,
        none,
    }
}

/// Whether this is grep.
fn is_grep(inv: &Inv) -> bool
    ensures { result ≡ is_grep_def inv.now }
{
    matches!(inv, Inv::Grep(_))
}

/// Whether this is grep that writes nothing.
fn is_quiet(inv: &Inv) -> bool
    ensures { result ≡ is_quiet_def inv.now }
{
    match inv {
        Inv::Grep(grep) => matches!(grep.args.report, Report::Nothing),
        _ => false,
    }
}
