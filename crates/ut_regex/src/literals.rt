//! What every line with an expression has: bytes in a row, and bytes that it begins with.
ghost use Rattle.std.specs.Prelude.{◌≡◌, ℕ, Bool, List, [], IfOk, OnOk, reverse};
ghost use Rattle.ut_regex.specs.Inner.Fronts.{IsFront};
ghost use Rattle.ut_regex.specs.Several.{any_of, or_any, trees_of};
ghost use Rattle.ut_regex.specs.Tree.{Tree, leaf, line_begin, line_end, empty, group, sequence, alternative, repetition, last_tree, trees_before, tree, with_node, with_nodes};
ghost use Rattle.ut_regex.specs.Inner.Literals.{AreRequired, Contains, Requires};

use crate::front::Front;
use crate::tree::{Bounds, Leaf, Node, Regex};
use std::alloc::{AllocError, Global};

/// What is required of all that an expression spans.
#[derive(Drop)]
pub(crate) struct Required {
    /// Bytes in a row somewhere within it.
    pub inner: Vec<u8>,
    /// Bytes that it ends in.
    pub suffix: Vec<u8>,
    /// Whether the suffix is all of it.
    pub exact: bool,
    /// What it begins with.
    pub front: Front,
}

impl Required {
    /// Nothing is required, and nothing is known.
    fn nothing(alloc: Global) -> Required
        ensures { (fold : Bool) (re : Tree) → Requires fold re result }
    {
        Required {
            inner: Vec::new(alloc),
            suffix: Vec::new(alloc),
            exact: false,
            front: Front::unknown(alloc),
        }
    }

    /// Nothing but the front is known.
    fn of_front(alloc: Global, front: Front) -> Required
        ensures { (fold : Bool) (re : Tree) → IsFront fold re front → Requires fold re result }
    {
        Required {
            inner: Vec::new(alloc),
            suffix: Vec::new(alloc),
            exact: false,
            front,
        }
    }

    /// Nothing is spanned, as by an anchor.
    fn no_bytes(alloc: Global) -> Required
        ensures begin { (fold : Bool) → Requires fold line_begin result }
        ensures end { (fold : Bool) → Requires fold line_end result }
        ensures empty { (fold : Bool) → Requires fold empty result }
    {
        Required {
            inner: Vec::new(alloc),
            suffix: Vec::new(alloc),
            exact: true,
            front: Front::no_bytes(alloc),
        }
    }

    /// One byte.
    fn of_leaf(alloc: Global, one: Leaf) -> Result<Required, AllocError>
        ensures { IfOk result (λ required. (fold : Bool) → Requires fold (leaf one) required) }
    {
        let front = Front::of_leaf(alloc, one)?;
        match one {
            Leaf::Byte(byte) => Ok(Required {
                inner: Vec::new(alloc),
                suffix: vec![in alloc; byte]?,
                exact: true,
                front,
            }),
            Leaf::Any | Leaf::Among(_) | Leaf::NotAmong(_) => Ok(Required::of_front(alloc, front)),
        }
    }

    /// A part and another one behind it.
    fn followed_by(self, second: Required) -> Result<Required, AllocError>
        ensures { IfOk result (λ required. (fold : Bool) (re last : Tree) → Requires fold re self → Requires fold last second
            → Requires fold (sequence re last) required) }
    {
        let front = self.front.followed_by(second.front)?;
        if second.exact {
            let mut suffix = self.suffix;
            suffix.extend_from_slice(&second.suffix)?;
            return Ok(Required {
                inner: longer(self.inner, second.inner),
                suffix,
                exact: self.exact,
                front,
            });
        }
        let before = longer(self.inner, self.suffix);
        Ok(Required {
            inner: longer(before, second.inner),
            suffix: second.suffix,
            exact: false,
            front,
        })
    }

    /// A part or another one.
    fn or(self, alloc: Global, second: Required) -> Result<Required, AllocError>
        ensures { IfOk result (λ required. (fold : Bool) (re other : Tree) → Requires fold re self → Requires fold other second
            → Requires fold (alternative re other) required) }
    {
        let front = self.front.or(alloc, second.front)?;
        Ok(Required::of_front(alloc, front))
    }

    /// A part some number of times. Where it may be left out nothing is required.
    fn repeated(self, alloc: Global, bounds: Bounds) -> Required
        ensures { (fold : Bool) (re : Tree) → Requires fold re self → Requires fold (repetition bounds re) result }
    {
        if bounds.low == 0 {
            return Required::nothing(alloc);
        }
        Required {
            inner: self.inner,
            suffix: self.suffix,
            exact: false,
            front: self.front.repeated(),
        }
    }
}

/// The longer one of two literals.
pub(crate) fn longer(first: Vec<u8>, second: Vec<u8>) -> Vec<u8>
    ensures { (fold : Bool) (line : List ℕ) → Contains fold line first.items → Contains fold line second.items → Contains fold line result.items }
{
    if first.len() < second.len() {
        second
    } else {
        first
    }
}

/// What is required of all that one of several expressions spans.
pub(crate) fn required_of_any(alloc: Global, expressions: &[Regex]) -> Result<Required, AllocError>
    ensures { IfOk result (λ required. (fold : Bool) → Requires fold (any_of (trees_of expressions.now)) required) }
{
    match expressions {
        [] => Ok(Required::nothing(alloc)),
        [first, others @ ..] => {
            let required = required_of(alloc, &first.nodes)?;
            with_sides(alloc, required, others)
        }
    }
}

/// What is required of all that an expression or one of others spans.
fn with_sides(alloc: Global, first: Required, others: &[Regex]) -> Result<Required, AllocError>
    ensures { IfOk result (λ made. (fold : Bool) (re : Tree) → Requires fold re first → Requires fold (or_any re (trees_of others.now)) made) }
{
    let mut required = first;
    let mut left = others;
    while let [other, rest @ ..] = left {
        let side = required_of(alloc, &other.nodes)?;
        required = required.or(alloc, side)?;
        left = rest;
    }
    Ok(required)
}

/// What is required of all that the expression of these nodes spans.
pub(crate) fn required_of(alloc: Global, nodes: &[Node]) -> Result<Required, AllocError>
    ensures { IfOk result (λ required. (fold : Bool) → Requires fold (last_tree (with_nodes [] nodes.now)) required) }
{
    let mut parts = Vec::new(alloc);
    for node in nodes {
        add_node(alloc, &mut parts, *node)?;
    }
    Ok(last_part(alloc, &mut parts))
}

/// Makes one part of the last parts, as a node says.
fn add_node(alloc: Global, parts: &mut Vec<Required>, node: Node) -> Result<(), AllocError>
    ensures { OnOk result ((fold : Bool) (trees : List Tree) → AreRequired fold (reverse parts.old.items) trees
        → AreRequired fold (reverse parts.new.items) (with_node trees node)) }
{
    let made = part_of(alloc, parts, node)?;
    parts.push(made)?;
    Ok(())
}

/// What is required of a node's tree, whose parts are taken.
fn part_of(alloc: Global, parts: &mut Vec<Required>, node: Node) -> Result<Required, AllocError>
    ensures { IfOk result (λ made. (fold : Bool) (trees : List Tree) → AreRequired fold (reverse parts.old.items) trees
        → Requires fold (last_tree (with_node trees node)) made × AreRequired fold (reverse parts.new.items) (trees_before (with_node trees node))) }
{
    match node {
        Node::Leaf(one) => Required::of_leaf(alloc, one),
        Node::Begin | Node::End | Node::Empty => Ok(Required::no_bytes(alloc)),
        Node::Group => Ok(last_part(alloc, parts)),
        Node::Sequence => {
            let second = last_part(alloc, parts);
            last_part(alloc, parts).followed_by(second)
        }
        Node::Alternative => {
            let second = last_part(alloc, parts);
            last_part(alloc, parts).or(alloc, second)
        }
        Node::Repetition(bounds) => Ok(last_part(alloc, parts).repeated(alloc, bounds)),
    }
}

/// Takes what is required of the last part.
fn last_part(alloc: Global, parts: &mut Vec<Required>) -> Required
    ensures { (fold : Bool) (trees : List Tree) → AreRequired fold (reverse parts.old.items) trees
        → Requires fold (last_tree trees) result × AreRequired fold (reverse parts.new.items) (trees_before trees) }
{
    match parts.pop() {
        Some(part) => part,
        None => Required::nothing(alloc),
    }
}
