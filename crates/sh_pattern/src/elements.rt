//! A pattern as a list of elements, each of which fits one byte, or any bytes.

use ps_lines::Class;
use std::marker::Model;

/// What a bracket expression lists.
#[derive(Clone, Copy, Debug, PartialEq, Eq)]
pub enum Item {
    Byte(u8),
    /// From the first up to the second, both included. It holds nothing where the second is less.
    Range(u8, u8),
    Class(Class),
}

/// The list of a bracket expression.
#[derive(Debug, Drop)]
pub struct Items {
    pub(crate) items: Vec<Item>,
}

impl Model for Items {
    ghost use Rattle.std.specs.Prelude.{List};
    ghost use Rattle.sh_pattern.specs.declared.elements.Item.{Item};

    ghost Value = { List Item };

    ghost view = { λ list. list.items.items };
}

/// One part of a pattern (XCU 2.13.1, 2.13.2).
#[derive(Debug, Drop)]
pub enum Element {
    /// This byte.
    Byte(u8),
    /// `?`: any one byte.
    AnyByte,
    /// `*`: any bytes, none included.
    AnyString,
    /// `[..]`: a byte that is in the list.
    OneOf(Items),
    /// `[!..]`: a byte that isn't.
    NoneOf(Items),
}

/// A pattern, which contracts see as its elements.
#[derive(Debug, Drop)]
pub struct Pattern {
    pub(crate) elements: Vec<Element>,
}

impl Model for Pattern {
    ghost use Rattle.std.specs.Prelude.{List};
    ghost use Rattle.sh_pattern.specs.declared.elements.Element.{Element};

    ghost Value = { List Element };

    ghost view = { λ pattern. pattern.elements.items };
}
