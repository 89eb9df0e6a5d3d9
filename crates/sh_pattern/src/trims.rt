//! Beginnings and endings of a text that fit a pattern (XCU 2.6.2: `%`, `%%`, `#`, `##`), found by one walk over the text.

ghost use Rattle.std.specs.Prelude.{◌≡◌, ◌↔◌, ◌≤◌, ◌<◌, ◌⊎◌, ◌&&◌, not, ◌∷◌, [], ℕ, List, IfOk, OnOk, IsTrue, MatchOption, length, get_or, drop, false};
ghost use Rattle.sh_pattern.specs.declared.elements.Element.{Element};
ghost use Rattle.sh_pattern.specs.Fits.{Fits, EndsIn};
ghost use Rattle.sh_pattern.specs.Trims.{IsNowhere, Cuts, left_of};
ghost use Rattle.sh_pattern.specs.Standing.{from_side, begins_with_star as begins_with_star_def, FitsFrom, FitsFirst, IsBestCount, later as later_def, place_of as place_of_def};

use crate::elements::{Element, Pattern};
use crate::matching::takes;
use ps_lines::Memory;
use std::alloc::Global;
use std::mem;

/// Where a text is cut off.
#[derive(Clone, Copy, Debug, PartialEq, Eq)]
pub enum Side {
    Prefix,
    Suffix,
}

/// The text without the shortest or longest beginning or ending that fits the pattern; the whole text where none does.
///
/// The text is gone over once, with the places at which the pattern may stand. So it costs the text's length times the pattern's at
/// worst, and memory for as many places as the pattern has elements, which is taken as the walk begins.
pub fn trimmed<'a>(
    alloc: Global,
    pattern: &Pattern,
    text: &'a [u8],
    side: Side,
    longest: bool,
) -> Result<&'a [u8], Memory>
    ensures { IfOk result (λ rest. Cuts side longest pattern.now text.now rest.now) }
{
    match best_count(alloc, pattern.elements.as_slice(), text, side, longest)? {
        Some(count) => Ok(left_of(text, side, place_of(side, count, text.len()))),
        None => Ok(text),
    }
}

/// What is left where the text is cut at this place.
pub(crate) fn left_of(text: &[u8], side: Side, place: usize) -> &[u8]
    requires { place ≤ length text.now }
    ensures { result.now ≡ left_of side place text.now }
{
    match side {
        Side::Prefix => &text[place..],
        Side::Suffix => &text[..place],
    }
}

/// The place behind so many bytes, counted from the side.
fn place_of(side: Side, count: usize, bytes: usize) -> usize
    requires { count ≤ bytes }
    ensures { result ≡ place_of_def side count bytes }
{
    match side {
        Side::Prefix => count,
        Side::Suffix => bytes - count,
    }
}

/// The least or the greatest number of bytes, counted from the side, that the pattern fits.
fn best_count(
    alloc: Global,
    elements: &[Element],
    text: &[u8],
    side: Side,
    longest: bool,
) -> Result<Option<usize>, Memory>
    ensures { IfOk result (λ found. MatchOption found
        (IsNowhere (FitsFirst (from_side side elements.now) (from_side side text.now)) (length text.now))
        (IsBestCount longest (FitsFirst (from_side side elements.now) (from_side side text.now)) (length text.now))) }
{
    let mut standing = Vec::with_capacity(alloc, elements.len() + 1)?;
    let mut next = Vec::with_capacity(alloc, elements.len() + 1)?;
    standing.push(0)?;
    let mut found = None;
    let mut count = 0;
    'bytes: loop {
        let ends = may_end(elements, side, standing.as_slice());
        if is_enough(ends, longest) {
            return Ok(Some(count));
        }
        found = later(ends, count, found);
        if is_over(count, text, standing.as_slice()) {
            return Ok(found);
        }
        let byte = *item_at(text, side, count);
        step(elements, side, standing.as_slice(), byte, &mut next)?;
        mem::swap(&mut standing, &mut next);
        count += 1;
    }
}

/// Whether no more bytes need be looked at.
fn is_enough(ends: bool, longest: bool) -> bool
    ensures { result ≡ (ends && not longest) }
{
    ends && !longest
}

/// Whether no more bytes are there, or none of them can fit.
fn is_over(count: usize, text: &[u8], standing: &[usize]) -> bool
    ensures { IsTrue result ↔ ((count ≡ length text.now) ⊎ (standing.now ≡ [])) }
{
    if count == text.len() {
        return true;
    }
    standing.is_empty()
}

/// The number of bytes found last.
fn later(ends: bool, count: usize, found: Option<usize>) -> Option<usize>
    ensures { result ≡ later_def ends count found }
{
    if ends { Some(count) } else { found }
}

/// Whether the pattern may end at one of these places.
fn may_end(elements: &[Element], side: Side, standing: &[usize]) -> bool
    ensures { IsTrue result ↔ FitsFrom (from_side side elements.now) standing.now [] }
{
    let mut left = standing;
    while let Some((place, rest)) = left.split_first() {
        if past_stars(elements, side, *place) >= elements.len() {
            return true;
        }
        left = rest;
    }
    false
}

/// The places at which the pattern may stand behind this byte, where it stands at these before.
fn step(
    elements: &[Element],
    side: Side,
    standing: &[usize],
    byte: u8,
    next: &mut Vec<usize>,
) -> Result<(), Memory>
    ensures { OnOk result ((more : List ℕ) → FitsFrom (from_side side elements.now) standing.now (byte ∷ more)
        ↔ FitsFrom (from_side side elements.now) next.new.items more) }
{
    next.clear();
    let mut left = standing;
    while let Some((place, rest)) = left.split_first() {
        step_from(elements, side, *place, byte, next)?;
        left = rest;
    }
    Ok(())
}

/// Adds those to which this place leads. A star stays where it is, and what is behind it may take the byte.
fn step_from(
    elements: &[Element],
    side: Side,
    place: usize,
    byte: u8,
    next: &mut Vec<usize>,
) -> Result<(), Memory>
    ensures { OnOk result ((more : List ℕ) → FitsFrom (from_side side elements.now) next.new.items more
        ↔ (FitsFrom (from_side side elements.now) next.old.items more ⊎ Fits (drop place (from_side side elements.now)) (byte ∷ more))) }
{
    if !is_star_at(elements, side, place) {
        return add_taken(elements, side, place, byte, next);
    }
    add(place, next)?;
    add_taken(
        elements,
        side,
        past_stars(elements, side, place + 1),
        byte,
        next,
    )
}

/// Adds the place behind this one, where its element takes the byte.
fn add_taken(
    elements: &[Element],
    side: Side,
    place: usize,
    byte: u8,
    next: &mut Vec<usize>,
) -> Result<(), Memory>
    requires no_star { begins_with_star_def (drop place (from_side side elements.now)) ≡ false }
    ensures { OnOk result ((more : List ℕ) → FitsFrom (from_side side elements.now) next.new.items more
        ↔ (FitsFrom (from_side side elements.now) next.old.items more ⊎ Fits (drop place (from_side side elements.now)) (byte ∷ more))) }
{
    if place >= elements.len() {
        return Ok(());
    }
    if !takes(item_at(elements, side, place), byte) {
        return Ok(());
    }
    add(place + 1, next)
}

/// Adds a place, unless it was added last.
fn add(place: usize, places: &mut Vec<usize>) -> Result<(), Memory>
    ensures { OnOk result ((pattern : List Element) (text : List ℕ) → FitsFrom pattern places.new.items text
        ↔ (FitsFrom pattern places.old.items text ⊎ Fits (drop place pattern) text)) }
{
    if let Some(last) = places.last() {
        if *last == place {
            return Ok(());
        }
    }
    Ok(places.push(place)?)
}

/// The first place from this one on at which no star stands.
fn past_stars(elements: &[Element], side: Side, place: usize) -> usize
    ensures no_star { begins_with_star_def (drop result (from_side side elements.now)) ≡ false }
    ensures same { (text : List ℕ) → EndsIn (Fits (drop place (from_side side elements.now))) text
        ↔ EndsIn (Fits (drop result (from_side side elements.now))) text }
{
    let mut at = place;
    'stars: while is_star_at(elements, side, at) {
        at += 1;
    }
    at
}

/// Whether a star stands at this place.
fn is_star_at(elements: &[Element], side: Side, place: usize) -> bool
    ensures star { result ≡ begins_with_star_def (drop place (from_side side elements.now)) }
{
    if place >= elements.len() {
        return false;
    }
    matches!(item_at(elements, side, place), Element::AnyString)
}

/// The item at this place, counted from the side.
fn item_at<T>(items: &[T], side: Side, place: usize) -> &T
    requires { place < length items.now }
    ensures { result.now ≡ get_or (from_side side items.now) place result.now }
{
    match side {
        Side::Prefix => &items[place],
        Side::Suffix => &items[items.len() - 1 - place],
    }
}
