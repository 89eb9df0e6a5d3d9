//! Groups of files in place of a Cat.
ghost use Rattle.std.specs.Prelude.{◌≡◌, ◌∷◌, [], ◌+◌, ◌-◌, ◌*◌, ◌/◌, ◌++◌, ◌^◌, ◌<◌, ◌≤◌, ℕ, Bool, length, take, IfOk, IfSome, OnOk};
ghost use Rattle.std.specs.List.{list_all, range_with_len};
ghost use Rattle.fl_graph.specs.Net.{gives};
ghost use Rattle.fl_graph.specs.Valid.{Valid};
ghost use Rattle.fl_classes.specs.Parts.{slice};
ghost use Rattle.fl_rewrites.specs.Keeps.{Answers, KeepsFlowWhere};
ghost use Rattle.fl_split.specs.Grouping.{AreClosed, group_cells, group_start as group_start_def, grouped, grouped_cells, groups_at as groups_at_def, groups_by, groups_of, join_cell, may_group as may_group_def, may_have_groups as may_have_groups_def};

use fl_graph::{Graph, Node, NodeKind, Seq};
use fl_rewrites::{Rewritten, are_files, edge_count, joins_plainly, replace, row};
use ps_lines::Memory;
use std::alloc::Global;

/// Puts so many groups of its files, each a Cat that doesn't close, and a Cat that joins them, in the place of the Cat with this number.
///
/// It applies where the node is a Cat that doesn't close over files alone, none of them standard input; `closed` has a mark for each of
/// them; there are 1 group at least and as many as files at most; and all files before the last group are marked. The flow is kept
/// wherever the files that are marked are closed. Its time is linear in the graph. A graph of 2^32 edges or nodes or more wants memory.
#[tactic(auto, using(crate::proofs::GroupLemmas::group_laws))]
pub fn group_operands(
    alloc: Global,
    graph: Graph,
    node: u32,
    closed: &[bool],
    groups: u32,
) -> Rewritten
    requires { Valid graph.nodes graph.status }
    ensures answer { Answers (grouped node closed.now groups graph) graph result }
    ensures kept { KeepsFlowWhere (AreClosed closed.now node graph) graph result }
{
    match groups_at(alloc, graph.nodes.as_slice(), node, closed, groups) {
        Ok(found) => replace(alloc, graph, node, found),
        Err(_) => Rewritten::Memory,
    }
}

/// What comes in the place of the Cat with this number, where it may.
fn groups_at(
    alloc: Global,
    nodes: &[Node],
    node: u32,
    closed: &[bool],
    groups: u32,
) -> Result<Option<Seq<Node>>, Memory>
    ensures { IfOk result (λ new. new ≡ groups_at_def nodes.now closed.now groups node) }
{
    let Some(cell) = nodes.get(node as usize) else {
        return Ok(None);
    };
    groups_for(alloc, nodes, cell, closed, groups)
}

/// What comes in the place of this node, where it may.
fn groups_for(
    alloc: Global,
    nodes: &[Node],
    cell: &Node,
    closed: &[bool],
    groups: u32,
) -> Result<Option<Seq<Node>>, Memory>
    ensures { IfOk result (λ new. new ≡ groups_by nodes.now closed.now groups cell.now) }
{
    if !may_group(alloc, nodes, cell, closed, groups)? {
        return Ok(None);
    }
    let Some(next) = edge_count(nodes) else {
        return Err(Memory);
    };
    let new = grouped_nodes(alloc, cell, groups, next)?;
    Ok(Some(Seq::from_vec(new)))
}

/// Whether this node is a Cat that may have so many groups.
fn may_group(
    alloc: Global,
    nodes: &[Node],
    cell: &Node,
    closed: &[bool],
    groups: u32,
) -> Result<bool, Memory>
    ensures { IfOk result (λ may. may ≡ may_group_def nodes.now closed.now groups cell.now) }
{
    if !joins_plainly(&cell.kind) {
        return Ok(false);
    }
    if !may_have_groups(groups, cell.ins.len(), closed)? {
        return Ok(false);
    }
    are_files(alloc, nodes, cell.ins.as_slice())
}

/// Whether so many files may be in so many groups.
fn may_have_groups(groups: u32, files: usize, closed: &[bool]) -> Result<bool, Memory>
    ensures { IfOk result (λ may. may ≡ may_have_groups_def groups files closed.now) }
{
    if closed.len() != files {
        return Ok(false);
    }
    if groups < 1 {
        return Ok(false);
    }
    if groups as usize > files {
        return Ok(false);
    }
    let last = group_start(groups, files, groups - 1)?;
    Ok(are_marked(closed, last))
}

/// Whether so many of the first files are marked.
fn are_marked(closed: &[bool], files: usize) -> bool
    ensures { result ≡ list_all (λ it. it) (take files closed.now) }
{
    closed.iter().take(files).all(|marked| *marked)
}

/// The place of the first file of a group.
fn group_start(groups: u32, files: usize, group: u32) -> Result<usize, Memory>
    requires { 1 ≤ groups }
    ensures { IfOk result (λ start. start ≡ group_start_def groups files group) }
{
    match (group as usize).checked_mul(files) {
        Some(product) => Ok(product / groups as usize),
        None => Err(Memory),
    }
}

/// The groups of a Cat, the first of which gives this number, and the Cat that joins them.
fn grouped_nodes(alloc: Global, cell: &Node, groups: u32, next: u32) -> Result<Vec<Node>, Memory>
    requires { 1 ≤ groups }
    ensures { IfOk result (λ nodes. nodes.items ≡ grouped_cells groups next cell.now) }
{
    let Some(_) = next.checked_add(groups) else {
        return Err(Memory);
    };
    let mut nodes = group_nodes(alloc, cell.stage, cell.ins.as_slice(), groups, next)?;
    let ins = row(alloc, next, groups)?;
    let outs = Vec::from_slice(alloc, cell.outs.as_slice())?;
    push_join(&mut nodes, ins, outs, cell.stage)?;
    Ok(nodes)
}

/// A Cat of each group of these files, the first of which gives this number.
#[tactic(auto, using(crate::proofs::GroupLemmas::loop_laws))]
fn group_nodes(
    alloc: Global,
    stage: u32,
    files: &[u32],
    groups: u32,
    next: u32,
) -> Result<Vec<Node>, Memory>
    requires some { 1 ≤ groups }
    requires bounded { next + groups < 2 ^ 32 }
    ensures { IfOk result (λ nodes. nodes.items ≡ group_cells stage next (groups_of groups files.now)) }
{
    let mut nodes = Vec::new(alloc);
    for group in 0..groups {
        push_group(alloc, &mut nodes, stage, files, groups, group, next + group)?;
    }
    Ok(nodes)
}

/// Puts a Cat of the group with this number behind these nodes.
#[tactic(auto, using(crate::proofs::GroupLemmas::place_laws))]
fn push_group(
    alloc: Global,
    nodes: &mut Vec<Node>,
    stage: u32,
    files: &[u32],
    groups: u32,
    group: u32,
    out: u32,
) -> Result<(), Memory>
    requires some { group < groups }
    ensures { OnOk result (nodes.new.items ≡ nodes.old.items ++ join_cell (slice files.now (group_start_def groups (length files.now) group) (group_start_def groups (length files.now) (group + 1))) (out ∷ []) stage ∷ []) }
{
    let start = group_start(groups, files.len(), group)?;
    let end = group_start(groups, files.len(), group + 1)?;
    let ins = Vec::from_slice(alloc, between(files, start, end))?;
    let outs = Vec::from_slice(alloc, &[out])?;
    push_join(nodes, ins, outs, stage)
}

/// The files from one place to another.
fn between(files: &[u32], start: usize, end: usize) -> &[u32]
    requires ordered { start ≤ end }
    requires within { end ≤ length files.now }
    ensures { result.now ≡ slice files.now start end }
{
    &files[start..end]
}

/// Puts a Cat that doesn't close, with these edges, behind the nodes.
fn push_join(nodes: &mut Vec<Node>, ins: Vec<u32>, outs: Vec<u32>, stage: u32) -> Result<(), Memory>
    ensures { OnOk result (nodes.new.items ≡ nodes.old.items ++ join_cell ins.items outs.items stage ∷ []) }
{
    let ins = Seq::from_vec(ins);
    let outs = Seq::from_vec(outs);
    nodes.push(Node {
        kind: NodeKind::Cat { close: false },
        ins,
        outs,
        stage,
    })?;
    Ok(())
}
