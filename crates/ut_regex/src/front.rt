//! The first bytes of all that an expression spans.
ghost use Rattle.std.specs.Prelude.{◌≡◌, ◌<◌, ◌≤◌, ℕ, Bool, true, IfOk, length};
ghost use Rattle.ps_lines.specs.ByteSet.{has_byte};
ghost use Rattle.ut_regex.specs.declared.tree.Leaf.TheVariants.{Among};
ghost use Rattle.ut_regex.specs.Inner.Fronts.{IsFront, IsJoined, IsWider};
ghost use Rattle.ut_regex.specs.Tree.{Tree, leaf, line_begin, line_end, empty, group, sequence, alternative, repetition};

use crate::tree::{Bounds, Leaf};
use ps_lines::ByteSet;
use std::alloc::{AllocError, Global};

/// The most bytes of which something is said: so many are looked at in a text.
pub(crate) const MAX_FRONT: usize = 4;

/// What is known of the first bytes of all that an expression spans.
#[derive(Drop)]
pub(crate) struct Front {
    /// What the first bytes are, one behind the other.
    pub leaves: Vec<Leaf>,
    /// Whether these are all bytes that are spanned.
    pub exact: bool,
}

impl Front {
    /// Nothing is known.
    pub(crate) fn unknown(alloc: Global) -> Front
        ensures { (fold : Bool) (re : Tree) → IsFront fold re result }
    {
        Front {
            leaves: Vec::new(alloc),
            exact: false,
        }
    }

    /// Nothing is spanned, as by an anchor.
    pub(crate) fn no_bytes(alloc: Global) -> Front
        ensures begin { (fold : Bool) → IsFront fold line_begin result }
        ensures end { (fold : Bool) → IsFront fold line_end result }
        ensures empty { (fold : Bool) → IsFront fold empty result }
    {
        Front {
            leaves: Vec::new(alloc),
            exact: true,
        }
    }

    /// One byte.
    pub(crate) fn of_leaf(alloc: Global, one: Leaf) -> Result<Front, AllocError>
        ensures { IfOk result (λ front. (fold : Bool) → IsFront fold (leaf one) front) }
    {
        Ok(Front {
            leaves: vec![in alloc; one]?,
            exact: true,
        })
    }

    /// A part and another one behind it.
    pub(crate) fn followed_by(self, second: Front) -> Result<Front, AllocError>
        ensures { IfOk result (λ front. (fold : Bool) (re last : Tree) → IsFront fold re self → IsFront fold last second
            → IsFront fold (sequence re last) front) }
    {
        if !self.exact {
            return Ok(self);
        }
        let room = MAX_FRONT.saturating_sub(self.leaves.len());
        let count = second.leaves.len().min(room);
        let mut leaves = self.leaves;
        leaves.extend_from_slice(&second.leaves[..count])?;
        Ok(Front {
            leaves,
            exact: second.exact & (count == second.leaves.len()),
        })
    }

    /// A part or another one.
    pub(crate) fn or(self, alloc: Global, second: Front) -> Result<Front, AllocError>
        ensures { IfOk result (λ front. (fold : Bool) (re other : Tree) → IsFront fold re self → IsFront fold other second
            → IsFront fold (alternative re other) front) }
    {
        let are_alike = self.leaves.len() == second.leaves.len();
        Ok(Front {
            leaves: joined(alloc, &self.leaves, &second.leaves)?,
            exact: self.exact & second.exact & are_alike,
        })
    }

    /// A part some number of times, and at least once.
    pub(crate) fn repeated(self) -> Front
        ensures { (fold : Bool) (bounds : Bounds) (re : Tree) → 0 < bounds.low → IsFront fold re self → IsFront fold (repetition bounds re) result }
    {
        Front {
            leaves: self.leaves,
            exact: false,
        }
    }
}

/// Leaves that fit what those of the one list fit at their places, and what those of the other fit, as far as there are both.
fn joined(alloc: Global, first: &[Leaf], second: &[Leaf]) -> Result<Vec<Leaf>, AllocError>
    ensures joined { IfOk result (λ made. IsJoined made.items first.now second.now (length made.items)) }
    ensures short { IfOk result (λ made. (length made.items ≤ length first.now) × (length made.items ≤ length second.now)) }
    ensures whole { IfOk result (λ made. length first.now ≡ length second.now → length made.items ≡ length first.now) }
{
    let count = first.len().min(second.len());
    let mut made = Vec::new(alloc);
    for place in 0..count {
        made.push(joined_leaf(first[place], second[place]))?;
    }
    Ok(made)
}

/// A leaf that fits what the one fits and what the other fits.
fn joined_leaf(first: Leaf, second: Leaf) -> Leaf
    ensures first { IsWider result first }
    ensures second { IsWider result second }
{
    let mut set = ByteSet::empty();
    if add_leaf(&mut set, first) && add_leaf(&mut set, second) {
        return Leaf::Among(set);
    }
    Leaf::Any
}

/// Adds the bytes that a leaf asks for, where it names these.
fn add_leaf(set: &mut ByteSet, one: Leaf) -> bool
    ensures added { result ≡ true → IsWider (Among set.new) one }
    ensures keeps { (byte : ℕ) → has_byte set.old byte ≡ true → has_byte set.new byte ≡ true }
{
    match one {
        Leaf::Byte(byte) => {
            set.add(byte);
            true
        }
        Leaf::Among(others) => {
            add_all(set, &others);
            true
        }
        Leaf::Any | Leaf::NotAmong(_) => false,
    }
}

/// Adds all bytes of another set.
fn add_all(set: &mut ByteSet, others: &ByteSet)
    ensures added { (byte : ℕ) → byte < 256 → has_byte others.now byte ≡ true → has_byte set.new byte ≡ true }
    ensures keeps { (byte : ℕ) → has_byte set.old byte ≡ true → has_byte set.new byte ≡ true }
{
    for code in 0..256u16 {
        let byte = code as u8;
        if others.has(byte) {
            set.add(byte);
        }
    }
}
