//! What a matcher runs: an expression whose repetitions are written out, in postfix.

ghost use Rattle.std.specs.Prelude.{◌≡◌};
ghost use Rattle.ut_regex.specs.Spans.{fits, other_case};

use crate::tree::Leaf;

/// A step of a program. It stands after the steps of its parts.
#[derive(Clone, Copy, Debug, PartialEq, Eq)]
pub(crate) enum Op {
    /// One byte.
    Point(Leaf),
    /// The line's beginning.
    Begin,
    /// The line's end.
    End,
    /// Nothing at all.
    Empty,
    /// Two parts, one behind the other.
    Both,
    /// One part or the other.
    Either,
    /// A part any number of times.
    Many,
    /// A part or nothing.
    Maybe,
}

/// Whether `byte` is what the leaf asks for. With `fold` letters are compared in both cases.
pub(crate) fn fits(leaf: Leaf, fold: bool, byte: u8) -> bool
    ensures { result ≡ fits fold leaf byte }
{
    match leaf {
        Leaf::Byte(wanted) => byte == wanted || (fold && other_case(byte) == wanted),
        Leaf::Any => true,
        Leaf::Among(set) => set.has(byte) || (fold && set.has(other_case(byte))),
        Leaf::NotAmong(set) => !(set.has(byte) || (fold && set.has(other_case(byte)))),
    }
}

/// A letter in the other case, and any other byte as it is.
#[tactic(auto, using(std::proofs::lemmas::Bool::Decides::nat_tests), unfolding(crate::specs::Spans::other_case, crate::specs::Spans::is_from))]
pub(crate) fn other_case(byte: u8) -> u8
    ensures { result ≡ other_case byte }
{
    match byte {
        b'A'..=b'Z' => byte + 32,
        b'a'..=b'z' => byte - 32,
        _ => byte,
    }
}
