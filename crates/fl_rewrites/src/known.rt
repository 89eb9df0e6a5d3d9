//! Edges that are known to carry texts cut at ends of lines.
ghost use Rattle.std.specs.Prelude.{◌≡◌, ◌≤◌, ◌++◌, [], get_or, length, map, if◌then◌else◌, IfOk, OnOk};
ghost use Rattle.std.specs.List.{list_all, list_any};
ghost use Rattle.fl_rewrites.specs.Inner.Tables.{all_at, bound, holds, marked, root_in as root_in_def};
ghost use Rattle.fl_rewrites.specs.Known.{are_files as are_files_def, are_parts as are_parts_def, files_given as files_given_def, groups_by, groups_given, is_group as is_group_def, is_known as is_known_def, is_split as is_split_def, joins_plainly as joins_plainly_def, keeps_ends as keeps_ends_def, root_behind, root_of, splits_into as splits_into_def};
ghost use Rattle.fl_rewrites.specs.Suits.{is_file as is_file_def};

use crate::numbers::{bound_of, given_edges};
use fl_graph::{From, Node, NodeKind};
use ps_lines::Memory;
use std::alloc::Global;
use ut_args::keeps_closed;

/// Whether the texts of these edges are known to be a cut list, in their order: each may have come through maps that keep closed, and before
/// these they are all outs of one split, or groups.
///
/// Its time is linear in the graph and in the highest number of an edge.
pub fn is_known(alloc: Global, nodes: &[Node], edges: &[u32]) -> Result<bool, Memory>
    ensures { IfOk result (λ known. known ≡ is_known_def nodes.now edges.now) }
{
    let table = roots_of(alloc, nodes)?;
    let roots = roots_at(alloc, table.as_slice(), edges)?;
    are_parts(alloc, nodes, roots.as_slice())
}

/// Whether the edges are all outs of one split, or groups.
fn are_parts(alloc: Global, nodes: &[Node], edges: &[u32]) -> Result<bool, Memory>
    ensures { IfOk result (λ are. are ≡ are_parts_def nodes.now edges.now) }
{
    if is_split_among(nodes, edges) {
        return Ok(true);
    }
    are_groups(alloc, nodes, edges)
}

/// Whether the edges are all outs of one of these nodes, a split.
fn is_split_among(nodes: &[Node], edges: &[u32]) -> bool
    ensures { result ≡ list_any (splits_into_def edges.now) nodes.now }
{
    nodes.iter().any(|node| splits_into(node, edges))
}

/// Whether the edges are all outs of this node, a split.
fn splits_into(node: &Node, edges: &[u32]) -> bool
    ensures { result ≡ splits_into_def edges.now node.now }
{
    is_split(&node.kind) && node.outs.as_slice() == edges
}

/// Whether this is a split.
fn is_split(kind: &NodeKind) -> bool
    ensures { result ≡ is_split_def kind.now }
{
    match kind {
        NodeKind::Split => true,
        _ => false,
    }
}

/// Whether each of the edges carries a group.
fn are_groups(alloc: Global, nodes: &[Node], edges: &[u32]) -> Result<bool, Memory>
    ensures { IfOk result (λ are. are ≡ list_all (holds (groups_given nodes.now)) edges.now) }
{
    let files = files_given(alloc, nodes)?;
    let file_marks = marks_of(alloc, files.as_slice())?;
    let groups = groups_given(alloc, nodes, file_marks.as_slice())?;
    let marks = marks_of(alloc, groups.as_slice())?;
    Ok(all_marked(marks.as_slice(), edges))
}

/// Whether files are read at all of these edges.
///
/// Its time is linear in the graph and in the highest number of an edge.
pub fn are_files(alloc: Global, nodes: &[Node], edges: &[u32]) -> Result<bool, Memory>
    ensures { IfOk result (λ are. are ≡ are_files_def nodes.now edges.now) }
{
    let files = files_given(alloc, nodes)?;
    let marks = marks_of(alloc, files.as_slice())?;
    Ok(all_marked(marks.as_slice(), edges))
}

/// The edges at which files are read.
fn files_given(alloc: Global, nodes: &[Node]) -> Result<Vec<u32>, Memory>
    ensures { IfOk result (λ edges. edges.items ≡ files_given_def nodes.now) }
{
    let mut edges = Vec::new(alloc);
    for node in nodes {
        add_outs(&mut edges, node, is_file(&node.kind))?;
    }
    Ok(edges)
}

/// The outs of the Cats that don't close, over marked edges alone.
fn groups_given(alloc: Global, nodes: &[Node], files: &[bool]) -> Result<Vec<u32>, Memory>
    ensures { IfOk result (λ edges. edges.items ≡ groups_by (marked files.now) nodes.now) }
{
    let mut edges = Vec::new(alloc);
    for node in nodes {
        add_outs(&mut edges, node, is_group(files, node))?;
    }
    Ok(edges)
}

/// Puts the node's outs behind these edges, if they are wanted.
fn add_outs(edges: &mut Vec<u32>, node: &Node, wanted: bool) -> Result<(), Memory>
    ensures { OnOk result (edges.new.items ≡ edges.old.items ++ (if wanted then node.now.outs else [])) }
{
    if wanted {
        edges.extend_from_slice(node.outs.as_slice())?;
    }
    Ok(())
}

/// Whether a file is read here.
fn is_file(kind: &NodeKind) -> bool
    ensures { result ≡ is_file_def kind.now }
{
    match kind {
        NodeKind::Source(From::File(_)) => true,
        _ => false,
    }
}

/// Whether this is a Cat that doesn't close, over marked edges alone.
fn is_group(files: &[bool], node: &Node) -> bool
    ensures { result ≡ is_group_def (marked files.now) node.now }
{
    joins_plainly(&node.kind) && all_marked(files, node.ins.as_slice())
}

/// Whether this is a Cat that doesn't close.
pub fn joins_plainly(kind: &NodeKind) -> bool
    ensures { result ≡ joins_plainly_def kind.now }
{
    match kind {
        NodeKind::Cat { close } => !*close,
        _ => false,
    }
}

/// Whether all of these edges are marked.
fn all_marked(marks: &[bool], edges: &[u32]) -> bool
    ensures { result ≡ list_all (marked marks.now) edges.now }
{
    edges.iter().all(|edge| is_marked(marks, *edge))
}

/// Whether the edge is marked.
fn is_marked(marks: &[bool], edge: u32) -> bool
    ensures { result ≡ marked marks.now edge }
{
    match marks.get(edge as usize) {
        Some(mark) => *mark,
        None => false,
    }
}

/// A mark for each of these edges.
#[tactic(auto, using(crate::proofs::MarkLemmas::mark_laws))]
fn marks_of(alloc: Global, edges: &[u32]) -> Result<Vec<bool>, Memory>
    ensures { IfOk result (λ marks. marked marks.items ≡ holds edges.now) }
{
    let mut marks = vec![in alloc; false; bound_of(edges)]?;
    for edge in edges {
        marks[*edge as usize] = true;
    }
    Ok(marks)
}

/// The edge that each edge comes from through maps that keep closed.
#[tactic(auto, using(crate::proofs::MarkLemmas::root_laws))]
fn roots_of(alloc: Global, nodes: &[Node]) -> Result<Vec<Option<u32>>, Memory>
    ensures { IfOk result (λ table. root_in_def table.items ≡ root_of nodes.now) }
{
    let given = given_edges(alloc, nodes)?;
    let mut table = vec![in alloc; None; bound_of(given.as_slice())]?;
    for node in nodes {
        pass_roots(&mut table, node);
    }
    Ok(table)
}

/// Where the outs of a node that keeps closed come from.
#[tactic(auto, using(crate::proofs::MarkLemmas::pass_laws))]
fn pass_roots(table: &mut Vec<Option<u32>>, node: &Node)
    requires { bound node.now.outs ≤ length table.old.items }
    ensures roots { root_in_def table.new.items ≡ root_behind node.now (root_in_def table.old.items) }
    ensures size { length table.new.items ≡ length table.old.items }
{
    if !keeps_ends(&node.kind) {
        return;
    }
    let [_, ..] = node.ins.as_slice() else {
        return;
    };
    let first = first_of(node.ins.as_slice());
    let root = root_in(table.as_slice(), first);
    set_roots(table, node.outs.as_slice(), root);
}

/// The first edge, or 0.
fn first_of(edges: &[u32]) -> u32
    ensures { result ≡ get_or edges.now 0 0 }
{
    match edges {
        [] => 0,
        [edge, ..] => *edge,
    }
}

/// Gives all of these edges one root.
#[tactic(auto, using(crate::proofs::MarkLemmas::mark_laws))]
fn set_roots(table: &mut Vec<Option<u32>>, edges: &[u32], root: u32)
    requires { bound edges.now ≤ length table.old.items }
    ensures roots { root_in_def table.new.items ≡ all_at root edges.now (root_in_def table.old.items) }
    ensures size { length table.new.items ≡ length table.old.items }
{
    for edge in edges {
        table[*edge as usize] = Some(root);
    }
}

/// Whether this is a map that keeps closed texts closed.
fn keeps_ends(kind: &NodeKind) -> bool
    ensures { result ≡ keeps_ends_def kind.now }
{
    match kind {
        NodeKind::Map(inv) => keeps_closed(inv),
        _ => false,
    }
}

/// The root of an edge: the edge itself where the table has none.
fn root_in(table: &[Option<u32>], edge: u32) -> u32
    ensures { result ≡ root_in_def table.now edge }
{
    match table.get(edge as usize) {
        Some(Some(root)) => *root,
        _ => edge,
    }
}

/// The roots of these edges.
fn roots_at(alloc: Global, table: &[Option<u32>], edges: &[u32]) -> Result<Vec<u32>, Memory>
    ensures { IfOk result (λ roots. roots.items ≡ map (root_in_def table.now) edges.now) }
{
    let mut roots = Vec::new(alloc);
    for edge in edges {
        roots.push(root_in(table, *edge))?;
    }
    Ok(roots)
}
