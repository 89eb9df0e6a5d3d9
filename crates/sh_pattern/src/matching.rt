//! Matches a text against a pattern.

ghost use Rattle.std.specs.Prelude.{◌≡◌, ◌↔◌, IsTrue};
ghost use Rattle.std.specs.List.{list_any};
ghost use Rattle.sh_pattern.specs.Fits.{Fits, EndsIn, holds, takes};
ghost use Rattle.sh_pattern.specs.Walks.{WalkEnds};

use crate::elements::{Element, Item, Items, Pattern};

/// Whether the pattern fits the whole text.
///
/// Where a part between two stars doesn't fit, it goes on one byte after the place of the last star alone: if the earlier
/// parts fitted where they were first tried, trying them later gives the rest no more text.
pub fn matches(pattern: &Pattern, text: &[u8]) -> bool
    ensures { IsTrue result ↔ Fits pattern.now text.now }
{
    fits(pattern.elements.as_slice(), text)
}

fn fits(pattern: &[Element], text: &[u8]) -> bool
    ensures { IsTrue result ↔ Fits pattern.now text.now }
{
    match next_star(pattern, text) {
        Walk::AtStar(rest, left) => fits_an_ending(rest, left),
        Walk::AtEnd => true,
        Walk::Astray => false,
    }
}

/// Whether the pattern fits the text, or one of its endings.
fn fits_an_ending(pattern: &[Element], text: &[u8]) -> bool
    ensures { IsTrue result ↔ EndsIn (Fits pattern.now) text.now }
{
    let mut rest = pattern;
    let mut left = text;
    loop {
        match next_star(rest, left) {
            Walk::AtStar(others, after) => {
                rest = others;
                left = after;
            }
            Walk::AtEnd => return true,
            Walk::Astray => {
                let Some((_, after)) = left.split_first() else {
                    return false;
                };
                left = after;
            }
        }
    }
}

/// Where a walk along a pattern ends.
enum Walk<'a> {
    /// At a star: the pattern after it, and the text that is left.
    AtStar(&'a [Element], &'a [u8]),
    /// At the end of both.
    AtEnd,
    /// Where the text doesn't fit.
    Astray,
}

/// Goes along the pattern up to its next star.
fn next_star<'a>(pattern: &'a [Element], text: &'a [u8]) -> Walk<'a>
    ensures ends { WalkEnds pattern.now text.now result }
{
    let mut rest = pattern;
    let mut left = text;
    while let Some((element, others)) = rest.split_first() {
        if is_star(element) {
            return Walk::AtStar(others, left);
        }
        let Some((byte, after)) = left.split_first() else {
            return Walk::Astray;
        };
        if !takes(element, *byte) {
            return Walk::Astray;
        }
        rest = others;
        left = after;
    }
    if left.is_empty() {
        Walk::AtEnd
    } else {
        Walk::Astray
    }
}

fn is_star(element: &Element) -> bool
    ensures { IsTrue result ↔ (element.now ≡ Element.AnyString) }
{
    matches!(element, Element::AnyString)
}

/// Whether the element fits this byte alone.
pub(crate) fn takes(element: &Element, byte: u8) -> bool
    ensures { result ≡ takes element.now byte }
{
    match element {
        Element::Byte(listed) => *listed == byte,
        Element::AnyByte => true,
        Element::AnyString => false,
        Element::OneOf(list) => any_holds(list, byte),
        Element::NoneOf(list) => !any_holds(list, byte),
    }
}

fn any_holds(list: &Items, byte: u8) -> bool
    ensures { result ≡ list_any (λ item. holds item byte) list.now }
{
    list.items.iter().any(|item| holds(*item, byte))
}

fn holds(item: Item, byte: u8) -> bool
    ensures { result ≡ holds item byte }
{
    match item {
        Item::Byte(listed) => listed == byte,
        Item::Range(low, high) => low <= byte && byte <= high,
        Item::Class(class) => class.has(byte),
    }
}
