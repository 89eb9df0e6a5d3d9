//! Reads a marked text as a pattern.

ghost use Rattle.std.specs.Prelude.{◌≡◌, ◌≤◌, ◌∷◌, List, length, IfSome, IfOk, MatchOption, true};
ghost use Rattle.sh_pattern.specs.declared.elements.Element.{Element};
ghost use Rattle.sh_pattern.specs.declared.marks.Mark.{Mark};
ghost use Rattle.sh_pattern.specs.Marks.{is_unquoted};
ghost use Rattle.sh_pattern.specs.Reading.{IsSet, IsNoSet, IsElement, Reads};
ghost use Rattle.sh_pattern.specs.Closings.{Knows};

use crate::brackets::read_list;
use crate::closings::learn;
use crate::elements::{Element, Items, Pattern};
use crate::marks::{Mark, front, is_unquoted, past};
use ps_lines::Memory;
use std::alloc::Global;

/// Reads a marked text as a pattern, in time and memory that grow as the text does.
///
/// A list that turns out not to be closed is walked to its end. What the first such walk costs is paid once more for a
/// table of the ends from which lists are closed, and by it each further `[` is known at once for what it is.
#[tactic(auto, using(crate::proofs::ClosingLemmas::knows_rest))]
pub fn read_pattern(alloc: Global, text: &[Mark]) -> Result<Pattern, Memory>
    ensures read { IfOk result (λ pattern. Reads text.now pattern) }
    ensures only { IfOk result (λ pattern.
        (other : List Element) → Reads text.now other → other ≡ pattern) }
{
    let mut elements = Vec::with_capacity(alloc, text.len())?;
    let mut closes = Vec::new(alloc);
    let mut rest = text;
    while let Some((first, left)) = front(rest) {
        let (element, after) = read_element(alloc, first, left, &mut closes)?;
        elements.push(element)?;
        rest = after;
    }
    Ok(Pattern { elements })
}

/// The element that begins with this mark, and what follows it. `closes` has what is known of the ends of the text.
#[tactic(auto, using(crate::proofs::ReadingLemmas::elements))]
fn read_element<'a>(
    alloc: Global,
    first: Mark,
    rest: &'a [Mark],
    closes: &mut Vec<bool>,
) -> Result<(Element, &'a [Mark]), Memory>
    requires { Knows closes.old.items rest.now }
    ensures element { IfOk result (λ r. IsElement (first ∷ rest.now) r.0 r.1.now) }
    ensures shorter { IfOk result (λ r. length r.1.now ≤ length rest.now) }
    ensures knows { IfOk result (λ r. Knows closes.new.items r.1.now) }
{
    if is_unquoted(first, b'*') {
        return Ok((Element::AnyString, rest));
    }
    if is_unquoted(first, b'?') {
        return Ok((Element::AnyByte, rest));
    }
    if is_unquoted(first, b'[') {
        return read_opened(alloc, first, rest, closes);
    }
    Ok((Element::Byte(first.byte), rest))
}

/// The element that begins with this `[`: a bracket expression, or the byte alone.
#[tactic(auto, using(crate::proofs::ReadingLemmas::elements, crate::proofs::ClosingLemmas::knows_after_set))]
fn read_opened<'a>(
    alloc: Global,
    first: Mark,
    rest: &'a [Mark],
    closes: &mut Vec<bool>,
) -> Result<(Element, &'a [Mark]), Memory>
    requires opened { is_unquoted 91 first ≡ true }
    requires knows { Knows closes.old.items rest.now }
    ensures element { IfOk result (λ r. IsElement (first ∷ rest.now) r.0 r.1.now) }
    ensures shorter { IfOk result (λ r. length r.1.now ≤ length rest.now) }
    ensures knows { IfOk result (λ r. Knows closes.new.items r.1.now) }
{
    match read_set(alloc, rest, closes.as_slice()) {
        Ok(Some((set, after))) => Ok((set, after)),
        Ok(None) => {
            learn(alloc, closes, rest)?;
            Ok((Element::Byte(first.byte), rest))
        }
        Err(refused) => Err(refused),
    }
}

/// The bracket expression whose `[` stands before this text, and what follows it.
#[tactic(auto, using(crate::proofs::ReadingLemmas::sets, crate::proofs::ClosingLemmas::knows_past))]
fn read_set<'a>(
    alloc: Global,
    text: &'a [Mark],
    closes: &[bool],
) -> Result<Option<(Element, &'a [Mark])>, Memory>
    requires { Knows closes.now text.now }
    ensures set { IfOk result (λ set. MatchOption set
        (IsNoSet text.now)
        (λ r. IsSet text.now r.0 r.1.now)) }
    ensures shorter { IfOk result (λ set. IfSome set (λ r. length r.1.now ≤ length text.now)) }
{
    let mut items = Vec::new(alloc);
    match past(b'!', text) {
        Some(list) => match read_list(list, closes, &mut items)? {
            Some(rest) => Ok(Some((Element::NoneOf(Items { items }), rest))),
            None => Ok(None),
        },
        None => match read_list(text, closes, &mut items)? {
            Some(rest) => Ok(Some((Element::OneOf(Items { items }), rest))),
            None => Ok(None),
        },
    }
}
