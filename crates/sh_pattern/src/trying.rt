//! The plain program: beginnings and endings of a text that fit a pattern, each place tried by itself. [`trimmed`](crate::trimmed), which
//! goes over the text once, is held against it.

ghost use Rattle.std.specs.Prelude.{◌≡◌, ◌↔◌, ◌≤◌, ◌<◌, ℕ, length, IsTrue, MatchOption, IfSome, drop, take};
ghost use Rattle.sh_pattern.specs.Trims.{FitsAt, IsFirst, IsLast, IsNowhere, IsBest, Cuts};

use crate::elements::Pattern;
use crate::matching::matches;
use crate::trims::{Side, left_of};

/// What is left of the text where a beginning or an ending that the pattern fits is cut off, the shortest or the longest, and the whole
/// text where there is none (XCU 2.6.2).
///
/// It takes no memory, and is slow: each place is tried by itself, and costs a match of what is cut off there.
#[tactic(auto, using(crate::proofs::TrimLemmas::cuts))]
pub fn trimmed_by_trying<'a>(
    pattern: &Pattern,
    text: &'a [u8],
    side: Side,
    longest: bool,
) -> &'a [u8]
    ensures { Cuts side longest pattern.now text.now result.now }
{
    match best_place(pattern, text, side, longest) {
        Some(place) => left_of(text, side, place),
        None => text,
    }
}

/// Where the text is cut.
fn best_place(pattern: &Pattern, text: &[u8], side: Side, longest: bool) -> Option<usize>
    ensures within { IfSome result (λ place. place ≤ length text.now) }
    ensures best { MatchOption result
        (IsNowhere (FitsAt side pattern.now text.now) (length text.now))
        (IsBest side longest (FitsAt side pattern.now text.now) (length text.now)) }
{
    match (side, longest) {
        (Side::Prefix, false) => first_place(pattern, text, side),
        (Side::Prefix, true) => last_place(pattern, text, side),
        (Side::Suffix, false) => last_place(pattern, text, side),
        (Side::Suffix, true) => first_place(pattern, text, side),
    }
}

/// The first place at which what is cut off fits.
fn first_place(pattern: &Pattern, text: &[u8], side: Side) -> Option<usize>
    ensures { MatchOption result
        (IsNowhere (FitsAt side pattern.now text.now) (length text.now))
        (IsFirst (FitsAt side pattern.now text.now) (length text.now)) }
{
    for place in 0..text.len() {
        if fits_at(pattern, text, side, place) {
            return Some(place);
        }
    }
    if fits_at(pattern, text, side, text.len()) {
        return Some(text.len());
    }
    None
}

/// The last place at which what is cut off fits.
fn last_place(pattern: &Pattern, text: &[u8], side: Side) -> Option<usize>
    ensures { MatchOption result
        (IsNowhere (FitsAt side pattern.now text.now) (length text.now))
        (IsLast (FitsAt side pattern.now text.now) (length text.now)) }
{
    let mut place = text.len();
    'places: loop {
        if fits_at(pattern, text, side, place) {
            return Some(place);
        }
        if place == 0 {
            return None;
        }
        place -= 1;
    }
}

/// Whether what is cut off here fits.
fn fits_at(pattern: &Pattern, text: &[u8], side: Side, place: usize) -> bool
    requires { place ≤ length text.now }
    ensures { IsTrue result ↔ FitsAt side pattern.now text.now place }
{
    match side {
        Side::Prefix => matches(pattern, &text[..place]),
        Side::Suffix => matches(pattern, &text[place..]),
    }
}
