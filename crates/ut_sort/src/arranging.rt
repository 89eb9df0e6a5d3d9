//! Places that are put in order by numbers alone. A comparison of two lines seeks both keys, and a number of a line is found once.
//!
//! That the order is the right one isn't proved here: the sort behind it compares each line with the next one where it is, and mends it
//! where it isn't.
ghost use Rattle.std.specs.Prelude.{◌≡◌, ◌≤◌, ℕ, length, map, take};
ghost use Rattle.std.specs.List.Sorted.{IsPermutation};
ghost use Rattle.ut_sort.specs.Places.{with_number};

use crate::keys::{behind_bytes, key_in, letters_of};
use crate::line_orders::LineOrder;
use crate::places::{LinePlace, line_in};
use crate::prefixes::{directed_number, is_exact, letters_number};
use std::cmp::Ordering;
use ut_args::{Key, Ordering as Letters};

/// Lines are numbered anew at most this often.
const MOST_STAGES: u32 = 8;

/// Fewer lines are compared.
const FEW: usize = 8;

/// The bytes of a text that its number tells.
const TOLD: u64 = 7;

/// What tells lines apart that are equal so far: these keys, of the first of them what stands behind so many bytes. Behind the last key
/// the line itself does.
#[derive(Clone, Copy)]
struct Stage<'o> {
    keys: &'o [Key],
    passed: u64,
}

/// Puts places in the order of their lines, where keys have to be sought in them and the first isn't a number. With `-u` no line is looked
/// at where the number of its only key says all, so places are left as they are.
pub(crate) fn arrange(order: &LineOrder, text: &[u8], places: &mut [LinePlace])
    ensures { IsPermutation places.old places.new }
{
    if order.whole || order.letters.numeric || order.unique {
        return;
    }
    let first = Stage {
        keys: order.keys.as_slice(),
        passed: 0,
    };
    arrange_numbered(order, text, first, MOST_STAGES, places);
}

/// Puts places in order that have the numbers of a stage.
#[cycle(arranging)]
fn arrange_numbered(
    order: &LineOrder,
    text: &[u8],
    stage: Stage,
    stages: u32,
    places: &mut [LinePlace],
)
    ensures { IsPermutation places.old places.new }
{
    places.sort_unstable_by(|one, other| one.number.cmp(&other.number));
    let mut from = 0;
    while from < places.len() {
        let number = places[from].number;
        let to = from + 1 + count_numbered(number, &places[from + 1..]);
        arrange_equal(order, text, stage, stages, number, &mut places[from..to]);
        from = to;
    }
}

/// How many places in front have this number.
fn count_numbered(number: u64, places: &[LinePlace]) -> usize
    ensures within { result ≤ length places.now }
    ensures equal { map (with_number number) (take result places.now) ≡ take result places.now }
{
    let mut count = 0;
    while count < places.len() {
        if places[count].number != number {
            break;
        }
        count += 1;
    }
    count
}

/// Puts places in order that all have this number at a stage.
#[cycle(arranging)]
fn arrange_equal(
    order: &LineOrder,
    text: &[u8],
    stage: Stage,
    stages: u32,
    number: u64,
    places: &mut [LinePlace],
)
    requires { map (with_number number) places.old ≡ places.old }
    ensures { IsPermutation places.old places.new }
{
    if places.len() < 2 {
        return;
    }
    match next_stage(order, stage, number) {
        Some(next) if stages > 0 && places.len() >= FEW => {
            number_places(order, text, next, places);
            arrange_numbered(order, text, next, stages - 1, places);
            set_numbers(number, places);
        }
        _ => places.sort_unstable_by(|one, other| compare_lines(order, text, one, other)),
    }
}

/// What tells lines apart that have this number at a stage, if it is told by a number.
fn next_stage<'o>(order: &LineOrder, stage: Stage<'o>, number: u64) -> Option<Stage<'o>> {
    let letters = letters_at(order, stage);
    match stage.keys {
        [_, others @ ..] if is_exact(letters, number) => Some(Stage {
            keys: others,
            passed: 0,
        }),
        [] if is_exact(letters, number) => None,
        _ if letters.numeric => None,
        _ => Some(Stage {
            keys: stage.keys,
            passed: stage.passed.saturating_add(TOLD),
        }),
    }
}

/// The letters that count at a stage.
fn letters_at(order: &LineOrder, stage: Stage) -> Letters {
    match stage.keys {
        [key, ..] => letters_of(key),
        [] => Letters {
            blanks: false,
            fold: false,
            numeric: false,
            reverse: order.reverse,
        },
    }
}

/// The number of a line at a stage.
fn number_at(order: &LineOrder, stage: Stage, line: &[u8]) -> u64 {
    let letters = letters_at(order, stage);
    let text = match stage.keys {
        [key, ..] => key_in(order.separator, key, line),
        [] => line,
    };
    directed_number(
        letters.reverse,
        letters_number(letters, behind_bytes(stage.passed, text)),
    )
}

/// Gives places the numbers of a stage.
fn number_places(order: &LineOrder, text: &[u8], stage: Stage, places: &mut [LinePlace])
    ensures { (number : ℕ) → map (with_number number) places.new ≡ map (with_number number) places.old }
{
    for place in places.iter_mut() {
        place.number = number_at(order, stage, line_in(text, place.span));
    }
}

/// Gives places one number.
fn set_numbers(number: u64, places: &mut [LinePlace])
    ensures { places.new ≡ map (with_number number) places.old }
{
    for place in places.iter_mut() {
        place.number = number;
    }
}

/// The order of the lines at two places, and of equal lines of their places.
fn compare_lines(order: &LineOrder, text: &[u8], one: &LinePlace, other: &LinePlace) -> Ordering {
    match order.compare(line_in(text, one.span), line_in(text, other.span)) {
        Ordering::Equal => one.span.cmp(&other.span),
        decided => decided,
    }
}
