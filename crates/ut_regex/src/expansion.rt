//! The program of an expression.
ghost use Rattle.std.specs.Prelude.{◌≡◌, ℕ, List, [], ◌∷◌, ◌++◌, IfOk, OnOk};
ghost use Rattle.ut_regex.specs.Tree.{Tree, alternative, tree, last_tree, trees_before, with_node, with_nodes};
ghost use Rattle.ut_regex.specs.Several.{any_of, or_any, trees_of};
ghost use Rattle.ut_regex.specs.Inner.Program.{Core, core, copies, options, repeated, steps, parts_of, programs};

use crate::needed::needed_nodes;
use crate::program::Op;
use crate::tree::{Bounds, Leaf, Node, Regex};
use std::alloc::{AllocError, Global};

/// The steps of the expression that the nodes make.
pub(crate) fn program_of(alloc: Global, nodes: &[Node]) -> Result<Vec<Op>, AllocError>
    ensures { IfOk result (λ made. made.items ≡ steps (core (last_tree (with_nodes [] nodes.now)))) }
{
    let needed = needed_nodes(alloc, nodes)?;
    written_out(alloc, &needed)
}

/// The steps of the expression that the nodes make, each of them written out.
fn written_out(alloc: Global, nodes: &[Node]) -> Result<Vec<Op>, AllocError>
    ensures { IfOk result (λ made. made.items ≡ steps (core (last_tree (with_nodes [] nodes.now)))) }
{
    let mut parts = Vec::new(alloc);
    for node in nodes {
        add_node(alloc, &mut parts, *node)?;
    }
    last_part(alloc, &mut parts)
}

/// The steps of an expression that is one of several. Without an expression they are those of a byte behind the line's end.
pub(crate) fn program_of_any(alloc: Global, expressions: &[Regex]) -> Result<Vec<Op>, AllocError>
    ensures { IfOk result (λ made. made.items ≡ steps (core (any_of (trees_of expressions.now)))) }
{
    match expressions {
        [] => Ok(vec![in alloc; Op::End, Op::Point(Leaf::Any), Op::Both]?),
        [first, others @ ..] => {
            let steps = program_of(alloc, &first.nodes)?;
            with_sides(alloc, steps, others)
        }
    }
}

/// The steps of an expression or one of others.
fn with_sides(alloc: Global, first: Vec<Op>, others: &[Regex]) -> Result<Vec<Op>, AllocError>
    ensures { IfOk result (λ made. (re : Tree) → first.items ≡ steps (core re) → made.items ≡ steps (core (or_any re (trees_of others.now)))) }
{
    let mut steps = first;
    let mut left = others;
    while let [other, rest @ ..] = left {
        add_side(alloc, &mut steps, other)?;
        left = rest;
    }
    Ok(steps)
}

/// Adds an expression as another side of the one that the steps are of.
fn add_side(alloc: Global, first: &mut Vec<Op>, other: &Regex) -> Result<(), AllocError>
    ensures { OnOk result ((re : Tree) → first.old.items ≡ steps (core re) → first.new.items ≡ steps (core (alternative re (tree other.now)))) }
{
    let side = program_of(alloc, &other.nodes)?;
    first.extend_from_slice(&side)?;
    first.push(Op::Either)?;
    Ok(())
}

/// Makes one part of the last parts, as a node says.
fn add_node(alloc: Global, parts: &mut Vec<Vec<Op>>, node: Node) -> Result<(), AllocError>
    ensures { OnOk result ((trees : List Tree) → parts_of parts.old.items ≡ programs trees
        → parts_of parts.new.items ≡ programs (with_node trees node)) }
{
    let made = match node {
        Node::Leaf(leaf) => one_step(alloc, Op::Point(leaf))?,
        Node::Begin => one_step(alloc, Op::Begin)?,
        Node::End => one_step(alloc, Op::End)?,
        Node::Empty => one_step(alloc, Op::Empty)?,
        Node::Group => last_part(alloc, parts)?,
        Node::Sequence => joined(alloc, parts, Op::Both)?,
        Node::Alternative => joined(alloc, parts, Op::Either)?,
        Node::Repetition(bounds) => {
            let part = last_part(alloc, parts)?;
            repetition(alloc, part, bounds)?
        }
    };
    parts.push(made)?;
    Ok(())
}

/// A part of one step.
fn one_step(alloc: Global, step: Op) -> Result<Vec<Op>, AllocError>
    ensures { IfOk result (λ made. made.items ≡ step ∷ []) }
{
    Ok(vec![in alloc; step]?)
}

/// Takes the last part, which is empty where there is none.
fn last_part(alloc: Global, parts: &mut Vec<Vec<Op>>) -> Result<Vec<Op>, AllocError>
    ensures { IfOk result (λ made. (trees : List Tree) → parts_of parts.old.items ≡ programs trees
        → (made.items ≡ steps (core (last_tree trees))) × (parts_of parts.new.items ≡ programs (trees_before trees))) }
{
    match parts.pop() {
        Some(part) => Ok(part),
        None => one_step(alloc, Op::Empty),
    }
}

/// Takes the last two parts and joins them.
fn joined(alloc: Global, parts: &mut Vec<Vec<Op>>, step: Op) -> Result<Vec<Op>, AllocError>
    ensures { IfOk result (λ made. (trees : List Tree) → parts_of parts.old.items ≡ programs trees
        → (made.items ≡ steps (core (last_tree (trees_before trees))) ++ steps (core (last_tree trees)) ++ step ∷ [])
        × (parts_of parts.new.items ≡ programs (trees_before (trees_before trees)))) }
{
    let second = last_part(alloc, parts)?;
    let mut first = last_part(alloc, parts)?;
    first.extend_from_slice(&second)?;
    first.push(step)?;
    Ok(first)
}

/// A part as often as the bounds say. A part that stands once at most, or any number of times, isn't copied, so that such repetitions
/// behind one another cost a step each.
fn repetition(alloc: Global, part: Vec<Op>, bounds: Bounds) -> Result<Vec<Op>, AllocError>
    ensures { IfOk result (λ made. (whole : Core) → part.items ≡ steps whole
        → made.items ≡ steps (repeated bounds.high bounds.low whole)) }
{
    match bounds.high {
        None if bounds.low == 0 => {
            let mut made = part;
            made.push(Op::Many)?;
            Ok(made)
        }
        None => {
            let mut made = copies_of(alloc, &part, bounds.low)?;
            made.extend_from_slice(&part)?;
            made.push(Op::Many)?;
            made.push(Op::Both)?;
            Ok(made)
        }
        Some(1) => {
            let mut made = part;
            if bounds.low == 0 {
                made.push(Op::Maybe)?;
            }
            Ok(made)
        }
        Some(high) => {
            let mut made = copies_of(alloc, &part, bounds.low)?;
            add_options(&mut made, &part, high - bounds.low)?;
            Ok(made)
        }
    }
}

/// A part so many times.
fn copies_of(alloc: Global, part: &[Op], count: u8) -> Result<Vec<Op>, AllocError>
    ensures { IfOk result (λ made. (whole : Core) → part.now ≡ steps whole → made.items ≡ steps (copies whole count)) }
{
    let mut made = one_step(alloc, Op::Empty)?;
    for done in 0..count {
        made.extend_from_slice(part)?;
        made.push(Op::Both)?;
    }
    Ok(made)
}

/// Adds a part so many times, each of which may be left out.
fn add_options(made: &mut Vec<Op>, part: &[Op], count: u8) -> Result<(), AllocError>
    ensures { OnOk result ((front whole : Core) → made.old.items ≡ steps front → part.now ≡ steps whole
        → made.new.items ≡ steps (options front whole count)) }
{
    for done in 0..count {
        made.extend_from_slice(part)?;
        made.push(Op::Maybe)?;
        made.push(Op::Both)?;
    }
    Ok(())
}
