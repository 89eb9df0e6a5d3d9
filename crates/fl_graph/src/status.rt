//! The nodes that a status rule names.
ghost use Rattle.std.specs.Prelude.{◌≡◌};
ghost use Rattle.std.specs.List.{list_all};
ghost use Rattle.fl_graph.specs.Kinds.{is_grep as is_grep_def, selects_lines as selects_lines_def};
ghost use Rattle.fl_graph.specs.Valid.{names_selector as names_selector_def, nodes_named};

use crate::graphs::{Node, StatusRule};
use crate::kinds::NodeKind;
use ut_args::Inv;

/// Whether the status names maps and wholes of grep alone.
pub fn names_selectors(nodes: &[Node], status: &StatusRule) -> bool
    ensures { result ≡ list_all (names_selector_def nodes.now) (nodes_named status.now) }
{
    match status {
        StatusRule::Fixed(_) => true,
        StatusRule::Selected { nodes: named, .. } => are_selectors(nodes, named.as_slice()),
    }
}

/// Whether these are the numbers of maps and wholes of grep.
fn are_selectors(nodes: &[Node], named: &[u32]) -> bool
    ensures { result ≡ list_all (names_selector_def nodes.now) named.now }
{
    named.iter().all(|node| names_selector(nodes, *node))
}

/// Whether this is the number of a map or a whole of grep.
fn names_selector(nodes: &[Node], node: u32) -> bool
    ensures { result ≡ names_selector_def nodes.now node }
{
    match nodes.get(node as usize) {
        Some(node) => selects_lines(&node.kind),
        None => false,
    }
}

/// Whether this is a map or a whole of grep.
fn selects_lines(kind: &NodeKind) -> bool
    ensures { result ≡ selects_lines_def kind.now }
{
    match kind {
        NodeKind::Map(inv) | NodeKind::Whole(inv) => is_grep(inv),
        _ => false,
    }
}

/// Whether the command is grep.
fn is_grep(inv: &Inv) -> bool
    ensures { result ≡ is_grep_def inv.now }
{
    matches!(inv, Inv::Grep(_))
}
