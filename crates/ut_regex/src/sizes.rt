//! How large expressions are.
ghost use Rattle.std.specs.Prelude.{◌≡◌, List, [], MatchBool, IfOk, OnOk, reverse};
ghost use Rattle.ut_regex.specs.Tree.{Tree, sequence, alternative, group, repetition, last_tree, trees_before, with_node, with_nodes};
ghost use Rattle.ut_regex.specs.Sizes.{IsSmall, IsTooLarge};
ghost use Rattle.ut_regex.specs.Inner.Counted.{size_of, sizes_of};

use crate::tree::{Bounds, Node};
use std::alloc::{AllocError, Global};

/// The most places of an expression.
pub const MAX_PLACES: u32 = 65_536;

/// How deep groups may be nested.
pub const MAX_NESTING: u32 = 64;

/// How large an expression is, as far as 32 bits tell.
#[derive(Clone, Copy, Debug, PartialEq, Eq)]
pub(crate) struct Size {
    pub places: u32,
    pub nesting: u32,
    /// What a sequence that begins with the expression counts besides its parts: nothing where it goes on with one.
    pub row_place: u32,
    /// What an alternative that begins with the expression counts besides its sides.
    pub bar_place: u32,
}

impl Size {
    /// The size of a byte, an anchor or nothing.
    fn one() -> Size
        ensures { result ≡ record { places = 1; nesting = 0; row_place = 1; bar_place = 1 } }
    {
        Size {
            places: 1,
            nesting: 0,
            row_place: 1,
            bar_place: 1,
        }
    }

    /// The size of a group.
    #[tactic(auto, using(crate::proofs::SizeLemmas::capped))]
    fn in_group(self) -> Size
        ensures { (re : Tree) → self ≡ size_of re → result ≡ size_of (group re) }
    {
        Size {
            places: self.places,
            nesting: self.nesting.saturating_add(1),
            row_place: 1,
            bar_place: 1,
        }
    }

    /// The size of a sequence.
    #[tactic(auto, using(crate::proofs::SizeLemmas::capped))]
    fn followed_by(self, second: Size) -> Size
        ensures { (re last : Tree) → self ≡ size_of re → second ≡ size_of last → result ≡ size_of (sequence re last) }
    {
        Size {
            places: self
                .places
                .saturating_add(second.places)
                .saturating_add(self.row_place),
            nesting: self.nesting.max(second.nesting),
            row_place: 0,
            bar_place: 1,
        }
    }

    /// The size of an alternative.
    #[tactic(auto, using(crate::proofs::SizeLemmas::capped))]
    fn or_else(self, second: Size) -> Size
        ensures { (re last : Tree) → self ≡ size_of re → second ≡ size_of last → result ≡ size_of (alternative re last) }
    {
        Size {
            places: self
                .places
                .saturating_add(second.places)
                .saturating_add(self.bar_place),
            nesting: self.nesting.max(second.nesting),
            row_place: 1,
            bar_place: 0,
        }
    }

    /// The size of a repetition.
    #[tactic(auto, using(crate::proofs::SizeLemmas::capped))]
    fn repeated(self, bounds: Bounds) -> Size
        ensures { (re : Tree) → self ≡ size_of re → result ≡ size_of (repetition bounds re) }
    {
        let times = match bounds.high {
            None => bounds.low as u32 + 1,
            Some(high) => high as u32,
        };
        Size {
            places: self.places.saturating_mul(times).saturating_add(1),
            nesting: self.nesting,
            row_place: 1,
            bar_place: 1,
        }
    }
}

/// Whether the expression of these nodes is too large to be read.
pub(crate) fn is_too_large(alloc: Global, nodes: &[Node]) -> Result<bool, AllocError>
    ensures { IfOk result (λ large. MatchBool large (IsTooLarge (last_tree (with_nodes [] nodes.now))) (IsSmall (last_tree (with_nodes [] nodes.now)))) }
{
    let mut sizes = Vec::new(alloc);
    for node in nodes {
        add_node(&mut sizes, *node)?;
    }
    let size = last_size(&mut sizes);
    Ok(exceeds(size))
}

/// Whether the size is above the limits.
fn exceeds(size: Size) -> bool
    ensures { (re : Tree) → size ≡ size_of re → MatchBool result (IsTooLarge re) (IsSmall re) }
{
    MAX_PLACES < size.places || MAX_NESTING < size.nesting
}

/// Makes one size of the last ones, as a node says.
fn add_node(sizes: &mut Vec<Size>, node: Node) -> Result<(), AllocError>
    ensures { OnOk result ((trees : List Tree) → reverse sizes.old.items ≡ sizes_of trees → reverse sizes.new.items ≡ sizes_of (with_node trees node)) }
{
    let size = match node {
        Node::Leaf(_) | Node::Begin | Node::End | Node::Empty => Size::one(),
        Node::Group => last_size(sizes).in_group(),
        Node::Sequence => {
            let second = last_size(sizes);
            last_size(sizes).followed_by(second)
        }
        Node::Alternative => {
            let second = last_size(sizes);
            last_size(sizes).or_else(second)
        }
        Node::Repetition(bounds) => last_size(sizes).repeated(bounds),
    };
    sizes.push(size)?;
    Ok(())
}

/// Takes the last size, which is that of nothing where there is none.
fn last_size(sizes: &mut Vec<Size>) -> Size
    ensures { (trees : List Tree) → reverse sizes.old.items ≡ sizes_of trees
        → (result ≡ size_of (last_tree trees)) × (reverse sizes.new.items ≡ sizes_of (trees_before trees)) }
{
    sizes.pop().unwrap_or(Size::one())
}
