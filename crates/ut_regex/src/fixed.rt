//! Expressions of fixed strings: bytes as they stand.
ghost use Rattle.std.specs.Prelude.{◌≡◌, [], ◌∷◌, OnOk};
ghost use Rattle.ut_regex.specs.Tree.{Tree, leaf, sequence, with_nodes};
ghost use Rattle.ut_regex.specs.declared.tree.Leaf.TheVariants as leaves;

use crate::tree::{Leaf, Node, Regex};
use ps_lines::Memory;
use std::alloc::Global;

impl Regex {
    ghost use Rattle.std.specs.Prelude.{◌≡◌, IfOk};
    ghost use Rattle.ut_regex.specs.Several.{in_order};
    ghost use Rattle.ut_regex.specs.Tree.{tree};

    /// The expression of bytes as they stand, each an ordinary one (XCU grep, -F).
    pub fn of_bytes(alloc: Global, bytes: &[u8]) -> Result<Regex, Memory>
        ensures { IfOk result (λ re. tree re ≡ in_order bytes.now) }
    {
        let mut nodes = vec![in alloc; Node::Empty]?;
        let mut left = bytes;
        while let [byte, rest @ ..] = left {
            add_byte(&mut nodes, *byte)?;
            left = rest;
        }
        Ok(Regex { nodes })
    }
}

/// Adds a byte behind the one expression that there is.
#[tactic(auto, using(crate::proofs::NodeLemmas::with_nodes_one))]
fn add_byte(nodes: &mut Vec<Node>, byte: u8) -> Result<(), Memory>
    ensures { OnOk result ((re : Tree) → with_nodes [] nodes.old.items ≡ re ∷ [] → with_nodes [] nodes.new.items ≡ sequence re (leaf (leaves.Byte byte)) ∷ []) }
{
    nodes.push(Node::Leaf(Leaf::Byte(byte)))?;
    nodes.push(Node::Sequence)?;
    Ok(())
}
