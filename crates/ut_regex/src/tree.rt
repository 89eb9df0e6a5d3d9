//! Expressions, in postfix.
ghost use Rattle.std.specs.Prelude.{◌≤◌};
ghost use Rattle.std.specs.Option.{ForSome};

use ps_lines::ByteSet;

/// What one byte of a line has to be.
#[derive(Clone, Copy, Debug, PartialEq, Eq)]
pub(crate) enum Leaf {
    /// This byte.
    Byte(u8),
    /// Any byte.
    Any,
    /// A byte that is listed in the brackets.
    Among(ByteSet),
    /// A byte that isn't listed in the brackets.
    NotAmong(ByteSet),
}

/// How often the repeated expression may stand: from `low` times up to `high` times, or without a limit.
#[derive(Clone, Copy, Debug, PartialEq, Eq)]
pub(crate) struct Bounds {
    pub low: u8,
    pub high: Option<u8>,
    ghost ordered: { ForSome high (λ most. low ≤ most) },
}

/// A node of an expression. It stands after its parts.
#[derive(Clone, Copy, Debug, PartialEq, Eq)]
pub(crate) enum Node {
    /// One byte.
    Leaf(Leaf),
    /// The line's beginning.
    Begin,
    /// The line's end.
    End,
    /// Nothing at all.
    Empty,
    /// A part in parentheses.
    Group,
    /// Two parts, one behind the other.
    Sequence,
    /// One part or the other.
    Alternative,
    /// A part some number of times.
    Repetition(Bounds),
}

/// An expression: its nodes in postfix, so that no walk over it has to go deep.
#[derive(Debug, Drop)]
pub struct Regex {
    pub(crate) nodes: Vec<Node>,
}
