//! The nodes of an expression that its program is made of.
ghost use Rattle.std.specs.Prelude.{◌≡◌, ◌+◌, ◌∷◌, ◌<◌, ◌≤◌, ◌^◌, List, [], true, drop, map, reverse, IfOk};
ghost use Rattle.ut_regex.specs.Tree.{Tree, empty, last_tree, with_node, with_nodes};
ghost use Rattle.ut_regex.specs.Inner.Program.{core, cores};

use crate::tree::Node;
use std::alloc::{AllocError, Global};

/// The nodes without the parts that a bound of 0 lets stand no time. Such a repetition is nothing at all, however large its part is.
pub(crate) fn needed_nodes(alloc: Global, nodes: &[Node]) -> Result<Vec<Node>, AllocError>
    ensures { IfOk result (λ needed. core (last_tree (with_nodes [] needed.items)) ≡ core (last_tree (with_nodes [] nodes.now))) }
{
    let mut needed = Vec::new(alloc);
    let mut dropped = 0usize;
    let mut left = nodes;
    while let Some((node, before)) = left.split_last() {
        dropped = add_if_needed(&mut needed, dropped, *node)?;
        left = before;
    }
    needed.reverse();
    Ok(needed)
}

/// Adds a node before those that are needed, where it isn't one of a part that is dropped; gives how many parts before it are dropped.
fn add_if_needed(needed: &mut Vec<Node>, dropped: usize, node: Node) -> Result<usize, AllocError>
    requires { dropped + 1 < 2 ^ 64 }
    ensures same { IfOk result (λ now. (trees : List Tree) → cores (with_nodes (drop now trees) (reverse needed.new.items))
        ≡ cores (with_nodes (drop dropped (with_node trees node)) (reverse needed.old.items))) }
    ensures few { IfOk result (λ now. now ≤ dropped + 1) }
{
    if dropped > 0 {
        return Ok(dropped_before(dropped, node));
    }
    if stands_no_time(node) {
        needed.push(Node::Empty)?;
        return Ok(1);
    }
    needed.push(node)?;
    Ok(0)
}

/// Whether a node is a repetition of a part that stands no time.
fn stands_no_time(node: Node) -> bool
    ensures { result ≡ true → (trees : List Tree) → cores (with_node trees node) ≡ cores (empty ∷ drop 1 trees) }
{
    let Node::Repetition(bounds) = node else {
        return false;
    };
    match bounds.high {
        Some(0) => true,
        Some(_) | None => false,
    }
}

/// How many parts before a node are dropped, of which it is the last or ends the last.
fn dropped_before(dropped: usize, node: Node) -> usize
    requires some { 0 < dropped }
    requires few { dropped + 1 < 2 ^ 64 }
    ensures same { (trees : List Tree) → drop result trees ≡ drop dropped (with_node trees node) }
    ensures few { result ≤ dropped + 1 }
{
    match node {
        Node::Leaf(_) | Node::Begin | Node::End | Node::Empty => dropped - 1,
        Node::Group => dropped,
        Node::Repetition(_) => dropped,
        Node::Sequence => dropped + 1,
        Node::Alternative => dropped + 1,
    }
}
