//! The items of a string.
ghost use Rattle.std.specs.Prelude.{◌≡◌, ◌++◌, ◌≤◌, length, Some, None, IfOk, IfSome, IfNone, OnOk};
ghost use Rattle.std.specs.List.{list_all};
ghost use Rattle.ps_lines.specs.Classes.{class_named};
ghost use Rattle.ut_strings.specs.Items.{behind_digits, begins_with as begins_with_def, bracket_with as bracket_with_def, bytes_of, class_item as class_item_def, closes as closes_def, count_before as count_before_def, digit_onto as digit_onto_def, digits_front, is_plain as is_plain_def, is_plain_digit as is_plain_digit_def, item_at as item_at_def, number_onto as number_onto_def, range_with as range_with_def, repeated as repeated_def, repetition_at as repetition_at_def, times as times_def};
ghost use Rattle.ut_strings.specs.Marked.{is_octal as is_octal_def};

use crate::marked::{Marked, is_octal};
use ps_lines::{Class, Memory};
use std::alloc::Global;

/// What a string is made of.
#[derive(Clone, Copy, Debug, PartialEq, Eq)]
pub(crate) enum Item {
    /// One byte.
    Byte(u8),
    /// The bytes from one to another.
    Range(u8, u8),
    /// The bytes of a class.
    Class(Class),
    /// A byte so many times.
    Repeat(u8, u32),
    /// A byte as many times as the first string is longer.
    Fill(u8),
    /// What no string may have.
    Fault,
}

/// An item, and how many marked bytes it has behind its first.
#[derive(Clone, Copy, Debug, PartialEq, Eq)]
pub(crate) struct Piece {
    pub item: Item,
    pub extra: usize,
}

/// The item that a byte and those behind it begin with. Repetitions stand in the second string alone.
pub(crate) fn item_at(
    alloc: Global,
    second: bool,
    one: Marked,
    rest: &[Marked],
) -> Result<Piece, Memory>
    ensures { IfOk result (λ piece. piece ≡ item_at_def second one rest.now) }
{
    if !is_plain(b'[', one) {
        return Ok(range_with(one.byte, rest));
    }
    if second {
        if let Some(piece) = repetition_at(alloc, rest)? {
            return Ok(piece);
        }
    }
    bracket_with(alloc, rest)
}

/// Whether it is this byte, and no backslash stood before it.
fn is_plain(byte: u8, one: Marked) -> bool
    ensures { result ≡ is_plain_def byte one }
{
    !one.escaped && one.byte == byte
}

/// Whether the first of the marked bytes is plainly this one.
fn begins_with(byte: u8, marked: &[Marked]) -> bool
    ensures { result ≡ begins_with_def byte marked.now }
{
    match marked {
        [] => false,
        [one, ..] => is_plain(byte, *one),
    }
}

/// A range from a byte before a hyphen to that behind it, or the byte alone.
fn range_with(from: u8, rest: &[Marked]) -> Piece
    ensures { result ≡ range_with_def from rest.now }
{
    match rest {
        [hyphen, last, ..] => {
            if !is_plain(b'-', *hyphen) {
                return alone(Item::Byte(from));
            }
            if from <= last.byte {
                return Piece {
                    item: Item::Range(from, last.byte),
                    extra: 2,
                };
            }
            alone(Item::Fault)
        }
        _ => alone(Item::Byte(from)),
    }
}

/// An item of one marked byte.
fn alone(item: Item) -> Piece
    ensures item { result.item ≡ item }
    ensures extra { result.extra ≡ 0 }
{
    Piece { item, extra: 0 }
}

/// What a plain `[` begins that begins no repetition.
fn bracket_with(alloc: Global, rest: &[Marked]) -> Result<Piece, Memory>
    ensures { IfOk result (λ piece. piece ≡ bracket_with_def rest.now) }
{
    match rest {
        [] => Ok(range_with(b'[', rest)),
        [one, behind @ ..] => {
            if is_plain(b':', *one) {
                return match count_before(b':', behind) {
                    Some(count) => Ok(Piece {
                        item: class_item(alloc, &behind[..count])?,
                        extra: count + 3,
                    }),
                    None => Ok(range_with(b'[', rest)),
                };
            }
            if is_plain(b'=', *one) {
                return match count_before(b'=', behind) {
                    Some(_) => Ok(alone(Item::Fault)),
                    None => Ok(range_with(b'[', rest)),
                };
            }
            Ok(range_with(b'[', rest))
        }
    }
}

/// How many bytes stand before the first that is plainly this one with a `]` behind it.
#[tactic(auto, using(crate::proofs::ItemLemmas::count_steps))]
fn count_before(mark: u8, marked: &[Marked]) -> Option<usize>
    ensures some { IfSome result (λ count. count_before_def mark marked.now ≡ Some count) }
    ensures none { IfNone result (count_before_def mark marked.now ≡ None) }
    ensures within { IfSome result (λ count. count ≤ length marked.now) }
{
    let mut count = 0;
    let mut left = marked;
    while let [one, rest @ ..] = left {
        if closes(mark, *one, rest) {
            return Some(count);
        }
        count += 1;
        left = rest;
    }
    None
}

/// Whether it is plainly this byte, with a `]` behind it.
#[tactic(auto, unfolding(crate::specs::Items::closes))]
fn closes(mark: u8, one: Marked, rest: &[Marked]) -> bool
    ensures { result ≡ closes_def mark one rest.now }
{
    is_plain(mark, one) && begins_with(b']', rest)
}

/// The class of a name.
fn class_item(alloc: Global, name: &[Marked]) -> Result<Item, Memory>
    ensures { IfOk result (λ item. item ≡ class_item_def (class_named (bytes_of name.now))) }
{
    let mut bytes = Vec::new(alloc);
    let mut left = name;
    while let [one, rest @ ..] = left {
        bytes.push(one.byte)?;
        left = rest;
    }
    match Class::named(bytes.as_slice()) {
        Some(class) => Ok(Item::Class(class)),
        None => Ok(Item::Fault),
    }
}

/// A repetition `[byte*digits]`, by what stands behind its `[`.
fn repetition_at(alloc: Global, rest: &[Marked]) -> Result<Option<Piece>, Memory>
    ensures { IfOk result (λ piece. piece ≡ repetition_at_def rest.now) }
{
    match rest {
        [one, star, behind @ ..] => {
            if !is_plain(b'*', *star) {
                return Ok(None);
            }
            let mut digits = Vec::new(alloc);
            let behind = read_digits(&mut digits, behind)?;
            if !begins_with(b']', behind) {
                return Ok(None);
            }
            Ok(Some(Piece {
                item: repeated(one.byte, digits.as_slice()),
                extra: digits.len() + 3,
            }))
        }
        _ => Ok(None),
    }
}

/// Appends the plain digits that marked bytes begin with, and answers what stands behind them.
fn read_digits<'m>(digits: &mut Vec<u8>, marked: &'m [Marked]) -> Result<&'m [Marked], Memory>
    ensures digits { OnOk result (digits.new.items ≡ digits.old.items ++ digits_front marked.now) }
    ensures behind { IfOk result (λ behind. behind.now ≡ behind_digits marked.now) }
{
    let mut left = marked;
    while let [one, rest @ ..] = left {
        if !is_plain_digit(*one) {
            break;
        }
        digits.push(one.byte)?;
        left = rest;
    }
    Ok(left)
}

/// Whether it is a digit, and no backslash stood before it.
fn is_plain_digit(one: Marked) -> bool
    ensures { result ≡ is_plain_digit_def one }
{
    !one.escaped && one.byte.is_ascii_digit()
}

/// A byte as often as digits say: none and 0 fill, and a first 0 means an octal number.
fn repeated(byte: u8, digits: &[u8]) -> Item
    ensures { result ≡ repeated_def byte digits.now }
{
    match digits {
        [] => Item::Fill(byte),
        [digit, rest @ ..] => {
            if *digit != b'0' {
                return times(byte, number_of(10, digits));
            }
            if !are_octal(rest) {
                return Item::Fault;
            }
            times(byte, number_of(8, rest))
        }
    }
}

/// So many times a byte.
fn times(byte: u8, number: u32) -> Item
    ensures { result ≡ times_def byte number }
{
    if number == 0 {
        return Item::Fill(byte);
    }
    if number <= 65536 {
        return Item::Repeat(byte, number);
    }
    Item::Fault
}

/// Whether each byte is an octal digit.
fn are_octal(digits: &[u8]) -> bool
    ensures { result ≡ list_all is_octal_def digits.now }
{
    let mut left = digits;
    while let [digit, rest @ ..] = left {
        if !is_octal(*digit) {
            return false;
        }
        left = rest;
    }
    true
}

/// The number of digits in a base of at most 10; 65,537 where it is above 65,536.
fn number_of(base: u32, digits: &[u8]) -> u32
    requires { base ≤ 10 }
    ensures { result ≡ number_onto_def base 0 digits.now }
{
    let mut number = 0;
    let mut left = digits;
    while let [digit, rest @ ..] = left {
        number = digit_onto(base, number, *digit);
        left = rest;
    }
    number
}

/// A number with one more digit.
fn digit_onto(base: u32, number: u32, digit: u8) -> u32
    requires base { base ≤ 10 }
    requires number { number ≤ 65537 }
    ensures value { result ≡ digit_onto_def base number digit }
    ensures most { result ≤ 65537 }
{
    let more = number * base + u32::from(digit.saturating_sub(b'0'));
    if more <= 65536 { more } else { 65537 }
}
