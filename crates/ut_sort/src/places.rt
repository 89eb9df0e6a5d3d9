//! The lines of a text by where they stand in it, each with its number, and their sorting.
ghost use Rattle.std.specs.Prelude.{◌≡◌, ◌+◌, ◌-◌, ◌*◌, ◌≤◌, ◌++◌, ◌∷◌, [], drop, length, take, IfOk, OnOk};
ghost use Rattle.ps_lines.specs.Lines.{lines as lines_def};
ghost use Rattle.ut_sort.specs.LineOrders.{sorted_by};
ghost use Rattle.ut_sort.specs.Places.{ArePlaces, RiseTo, first_line as first_line_def, line_in as line_in_def, lines_in, place_cmp, tie_cmp};

use crate::arranging::arrange;
use crate::keys::behind_bytes;
use crate::line_orders::LineOrder;
use ps_lines::{Memory, cut_line};
use std::alloc::Global;
use std::cmp::Ordering;

/// As many lengths of a line are told apart.
pub(crate) const SIZES: u64 = 65_536;

/// The length of a line that is as long or longer, which its newline ends.
pub(crate) const LONG: u64 = 65_535;

/// A text has fewer bytes: no machine of this kind has as many.
const MOST_BYTES: u64 = 281_474_976_710_656;

/// A line: 16 bytes, whatever it holds.
#[derive(Clone, Copy)]
pub(crate) struct LinePlace {
    /// What its first key begins with.
    pub(crate) number: u64,
    /// Where it begins, times `SIZES`, and its length or `LONG`.
    pub(crate) span: u64,
}

/// The places of the lines of a text, in order; with `-u` of equal lines that of the first.
pub(crate) fn sorted_places(
    order: &LineOrder,
    alloc: Global,
    text: &[u8],
) -> Result<Vec<LinePlace>, Memory>
    ensures { IfOk result (λ places. lines_in text.now places.items ≡ sorted_by order.now (lines_def text.now)) }
{
    let mut places = places_of(order, alloc, text)?;
    sort_places(order, text, &mut places);
    Ok(places)
}

/// The places of the lines of a text; a last line that no newline ends counts too.
fn places_of(order: &LineOrder, alloc: Global, text: &[u8]) -> Result<Vec<LinePlace>, Memory>
    ensures lines { IfOk result (λ places. lines_in text.now places.items ≡ lines_def text.now) }
    ensures places { IfOk result (λ places. ArePlaces order.now text.now places.items) }
    ensures rise { IfOk result (λ places. RiseTo (SIZES * (length text.now + 1)) places.items) }
{
    let mut places = Vec::new(alloc);
    let mut left = text;
    while let Some((line, rest)) = cut_line(left) {
        push_place(order, text, left, line, &mut places)?;
        left = rest;
    }
    if left.is_empty() {
        return Ok(places);
    }
    push_place(order, text, left, left, &mut places)?;
    Ok(places)
}

/// Appends the place of the line that the rest of a text begins with.
fn push_place(
    order: &LineOrder,
    text: &[u8],
    left: &[u8],
    line: &[u8],
    places: &mut Vec<LinePlace>,
) -> Result<(), Memory>
    requires within { length left.now ≤ length text.now }
    requires left { left.now ≡ drop (length text.now - length left.now) text.now }
    requires line { line.now ≡ first_line_def left.now }
    ensures lines { OnOk result (lines_in text.now places.new.items ≡ lines_in text.now places.old.items ++ line.now ∷ []) }
    ensures places { ArePlaces order.now text.now places.old.items → OnOk result (ArePlaces order.now text.now places.new.items) }
    ensures rise { RiseTo (SIZES * (length text.now - length left.now)) places.old.items
        → OnOk result (RiseTo (SIZES * ((length text.now - length left.now) + length line.now + 1)) places.new.items) }
{
    let at = (text.len() - left.len()) as u64;
    if at >= MOST_BYTES {
        return Err(Memory);
    }
    places.push(LinePlace {
        number: order.number_of(line),
        span: at * SIZES + (line.len() as u64).min(LONG),
    })?;
    Ok(())
}

/// Puts the places in the order of their lines; with `-u` of equal lines that of the first is kept.
fn sort_places(order: &LineOrder, text: &[u8], places: &mut Vec<LinePlace>)
    requires places { ArePlaces order.now text.now places.old.items }
    requires rise { RiseTo (SIZES * (length text.now + 1)) places.old.items }
    ensures { lines_in text.now places.new.items ≡ sorted_by order.now (lines_in text.now places.old.items) }
{
    arrange(order, text, places.as_mut_slice());
    places.sort_unstable_by(|one, other| compare_places(order, text, one, other));
    if order.unique {
        places.dedup_by(|one, first| compare_ties(order, text, one, first) == Ordering::Equal);
    }
}

/// The order of the lines at two places, and of equal lines of their places.
fn compare_places(order: &LineOrder, text: &[u8], one: &LinePlace, other: &LinePlace) -> Ordering
    ensures { result ≡ place_cmp order.now text.now one.now other.now }
{
    match compare_ties(order, text, one, other) {
        Ordering::Equal => one.span.cmp(&other.span),
        decided => decided,
    }
}

/// The order of the lines at two places: most are told apart by their numbers.
#[inline]
fn compare_ties(order: &LineOrder, text: &[u8], one: &LinePlace, other: &LinePlace) -> Ordering
    ensures { result ≡ tie_cmp order.now text.now one.now other.now }
{
    match one.number.cmp(&other.number) {
        Ordering::Equal => order.compare_tied(
            one.number,
            line_in(text, one.span),
            line_in(text, other.span),
        ),
        decided => decided,
    }
}

/// The line at a place.
pub(crate) fn line_in(text: &[u8], span: u64) -> &[u8]
    ensures { result.now ≡ line_in_def text.now span }
{
    let left = behind_bytes(span / SIZES, text);
    let size = span % SIZES;
    if size < LONG {
        first_bytes(size, left)
    } else {
        first_line(left)
    }
}

/// So many bytes, and at most all.
fn first_bytes(count: u64, text: &[u8]) -> &[u8]
    ensures { result.now ≡ take count text.now }
{
    if count < text.len() as u64 {
        &text[..count as usize]
    } else {
        text
    }
}

/// The bytes before the first newline; all where there is none.
#[tactic(auto, using(crate::proofs::PlaceLemmas::first_lines))]
fn first_line(text: &[u8]) -> &[u8]
    ensures { result.now ≡ first_line_def text.now }
{
    match cut_line(text) {
        Some((line, _)) => line,
        None => text,
    }
}
