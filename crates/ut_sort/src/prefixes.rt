//! The number that is kept beside a line: what its first key begins with, or how large a number it is.
ghost use Rattle.std.specs.Prelude.{◌≡◌, ◌<◌, ◌≤◌, true, IfNone, IfSome};
ghost use Rattle.std.specs.List.{list_all};
ghost use Rattle.std.specs.Char.{is_ascii_digit};
ghost use Rattle.std.specs.Str.Parse.{digits_value};
ghost use Rattle.ut_sort.specs.Numbers.{behind_first};
ghost use Rattle.ut_sort.specs.Prefixes.{AreBytes, IsKey, compared, directed_number as directed_number_def, first_byte, is_exact as is_exact_def, key_number, letters_number as letters_number_def, packed, prefix as prefix_def, size_number as size_number_def, text_number as text_number_def, value_number as value_number_def};

use crate::keys::{key_in, letters_of};
use crate::numbers::{ZERO, above_sign, below_sign, fraction_behind, split_digits};
use ut_args::{Key, Ordering as Letters};
use ut_fields::behind_blanks;

/// A number whose whole isn't below this has none of its own.
pub(crate) const LEAST_LARGE: u64 = 8_796_093_022_208;

/// The size of all those, above every other: one that isn't exact.
pub(crate) const TOO_LARGE: u64 = 2_305_843_009_213_693_955;

/// The number of zero: numbers below zero have less.
pub(crate) const MIDDLE: u64 = 4_611_686_018_427_387_904;

/// The number of a line by a key.
pub(crate) fn number_of_key(separator: Option<u8>, key: &Key, line: &[u8]) -> u64
    ensures number { result ≡ key_number separator key.now line.now }
    ensures key { IsKey separator key.now line.now }
{
    let letters = letters_of(key);
    directed_number(
        letters.reverse,
        letters_number(letters, key_in(separator, key, line)),
    )
}

/// A number, or where the order is reversed the one as far from the other end.
pub(crate) fn directed_number(reverse: bool, number: u64) -> u64
    ensures { result ≡ directed_number_def reverse number }
{
    if reverse { u64::MAX - number } else { number }
}

/// The number of a key's text.
pub(crate) fn letters_number(letters: Letters, text: &[u8]) -> u64
    ensures number { result ≡ letters_number_def letters text.now }
    ensures bytes { AreBytes text.now }
{
    if letters.numeric {
        value_number(text)
    } else {
        text_number(letters.fold, text)
    }
}

/// The number of a text that is compared byte by byte: its first seven bytes, and how many it has.
#[tactic(auto, unfolding(crate::specs::Prefixes::prefix))]
fn text_number(fold: bool, text: &[u8]) -> u64
    ensures { result ≡ text_number_def (compared fold text.now) }
{
    let size = text.len().min(8) as u64;
    let (first, text) = split_first(fold, text);
    let (second, text) = split_first(fold, text);
    let (third, text) = split_first(fold, text);
    let (fourth, text) = split_first(fold, text);
    let (fifth, text) = split_first(fold, text);
    let (sixth, text) = split_first(fold, text);
    let (seventh, _) = split_first(fold, text);
    let upper = ((first * 256 + second) * 256 + third) * 256 + fourth;
    (((upper * 256 + fifth) * 256 + sixth) * 256 + seventh) * 256 + size
}

/// The first byte of a text, zero where there is none, and what stands behind it.
#[inline(always)]
fn split_first(fold: bool, text: &[u8]) -> (u64, &[u8])
    ensures byte { result.0 ≡ first_byte (compared fold text.now) }
    ensures rest { compared fold result.1.now ≡ behind_first (compared fold text.now) }
    ensures small { result.0 < 256 }
{
    match text {
        [] => (0, text),
        [byte, rest @ ..] => {
            if fold {
                (u64::from(byte.to_ascii_uppercase()), rest)
            } else {
                (u64::from(*byte), rest)
            }
        }
    }
}

/// The number of a text that is compared as a number.
fn value_number(text: &[u8]) -> u64
    ensures number { result ≡ value_number_def text.now }
{
    let text = behind_blanks(text);
    MIDDLE + size_number(above_sign(text)) - size_number(below_sign(text))
}

/// The number of a number without a sign.
fn size_number(text: &[u8]) -> u64
    ensures number { result ≡ size_number_def text.now }
    ensures small { result ≤ TOO_LARGE }
{
    let (digits, rest) = split_digits(text);
    match small_whole(digits) {
        Some(whole) => with_fraction(whole, fraction_behind(rest)),
        None => TOO_LARGE,
    }
}

/// The number that digits make, if it is small.
#[tactic(auto, using(crate::proofs::NumberLemmas::digits_least))]
fn small_whole(digits: &[u8]) -> Option<u64>
    requires { list_all is_ascii_digit digits.now ≡ true }
    ensures some { IfSome result (λ whole. whole ≡ digits_value 10 digits.now) }
    ensures small { IfSome result (λ whole. whole < LEAST_LARGE) }
    ensures none { IfNone result (LEAST_LARGE ≤ digits_value 10 digits.now) }
{
    let mut whole = 0;
    let mut left = digits;
    while let [digit, rest @ ..] = left {
        if whole >= LEAST_LARGE {
            return None;
        }
        whole = whole * 10 + u64::from(*digit - ZERO);
        left = rest;
    }
    if whole < LEAST_LARGE {
        Some(whole)
    } else {
        None
    }
}

/// A whole with two digits of a fraction behind it, and how many there are.
fn with_fraction(whole: u64, fraction: &[u8]) -> u64
    requires { whole < LEAST_LARGE }
    ensures number { result ≡ packed 2 4 whole fraction.now }
    ensures small { result ≤ TOO_LARGE }
{
    let size = fraction.len().min(3) as u64;
    let (first, rest) = split_first(false, fraction);
    let (second, _) = split_first(false, rest);
    ((whole * 256 + first) * 256 + second) * 4 + size
}

/// Whether a number says all of a key with these letters.
pub(crate) fn is_exact(letters: Letters, number: u64) -> bool
    ensures { result ≡ is_exact_def letters number }
{
    let number = directed_number(letters.reverse, number);
    if letters.numeric {
        number.abs_diff(MIDDLE) % 4 < 3
    } else {
        number % 256 < 8
    }
}
