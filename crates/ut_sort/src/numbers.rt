//! The numbers of `sort -n`, of any length.
ghost use Rattle.std.specs.Prelude.{◌≡◌, true, false};
ghost use Rattle.std.specs.List.{list_all};
ghost use Rattle.std.specs.Char.{is_ascii_digit};
ghost use Rattle.std.specs.Ordering.{nat_cmp};
ghost use Rattle.std.specs.Str.Parse.{digits_value};
ghost use Rattle.ut_args.specs.Keys.{behind_digits, digits_front};
ghost use Rattle.ut_sort.specs.Numbers.{above_sign as above_sign_def, begins as begins_def, behind_first as behind_first_def, below_sign as below_sign_def, fraction_behind as fraction_behind_def, numbers_cmp, sizes_cmp, without_end_zeros as without_end_zeros_def};

use std::cmp::Ordering;
use ut_fields::behind_blanks;

/// The sign of a number below zero.
pub(crate) const MINUS: u8 = b'-';

/// The byte between a number's whole and its fraction.
pub(crate) const POINT: u8 = b'.';

/// The digit that adds nothing in front of a whole, nor at a fraction's end.
pub(crate) const ZERO: u8 = b'0';

/// The order of the numbers that two texts begin with.
pub(crate) fn compare_numbers(one: &[u8], other: &[u8]) -> Ordering
    ensures { result ≡ numbers_cmp one.now other.now }
{
    let one = behind_blanks(one);
    let other = behind_blanks(other);
    match compare_sizes(above_sign(one), above_sign(other)) {
        Ordering::Equal => compare_sizes(below_sign(other), below_sign(one)),
        decided => decided,
    }
}

/// How far a number is above zero.
pub(crate) fn above_sign(text: &[u8]) -> &[u8]
    ensures { result.now ≡ above_sign_def text.now }
{
    if begins(MINUS, text) { &[] } else { text }
}

/// How far a number is below zero.
pub(crate) fn below_sign(text: &[u8]) -> &[u8]
    ensures { result.now ≡ below_sign_def text.now }
{
    if begins(MINUS, text) {
        behind_first(text)
    } else {
        &[]
    }
}

/// Whether the text begins with this byte.
fn begins(wanted: u8, text: &[u8]) -> bool
    ensures { result ≡ begins_def wanted text.now }
{
    match text {
        [] => false,
        [byte, ..] => *byte == wanted,
    }
}

/// The text behind its first byte.
fn behind_first(text: &[u8]) -> &[u8]
    ensures { result.now ≡ behind_first_def text.now }
{
    match text {
        [] => text,
        [_, rest @ ..] => rest,
    }
}

/// The order of numbers without a sign.
fn compare_sizes(one: &[u8], other: &[u8]) -> Ordering
    ensures { result ≡ sizes_cmp one.now other.now }
{
    let (one_whole, one_rest) = split_digits(one);
    let (other_whole, other_rest) = split_digits(other);
    match compare_wholes(one_whole, other_whole) {
        Ordering::Equal => fraction_behind(one_rest).cmp(fraction_behind(other_rest)),
        decided => decided,
    }
}

/// The digits that a text begins with, and what stands behind them.
pub(crate) fn split_digits(text: &[u8]) -> (&[u8], &[u8])
    ensures front { result.0.now ≡ digits_front text.now }
    ensures digits { list_all is_ascii_digit result.0.now ≡ true }
    ensures behind { result.1.now ≡ behind_digits text.now }
{
    let mut count = 0;
    let mut left = text;
    while let [byte, rest @ ..] = left {
        if !byte.is_ascii_digit() {
            break;
        }
        count += 1;
        left = rest;
    }
    (&text[..count], left)
}

/// The digits of a fraction behind a point, without zeros at their end.
pub(crate) fn fraction_behind(rest: &[u8]) -> &[u8]
    ensures { result.now ≡ fraction_behind_def rest.now }
{
    if begins(POINT, rest) {
        let (digits, _) = split_digits(behind_first(rest));
        without_end_zeros(digits)
    } else {
        &[]
    }
}

/// The digits without zeros at their end.
#[tactic(auto, using(crate::proofs::NumberLemmas::end_zeros))]
fn without_end_zeros(digits: &[u8]) -> &[u8]
    ensures { result.now ≡ without_end_zeros_def digits.now }
{
    let mut left = digits;
    while let Some((digit, front)) = left.split_last() {
        if *digit != ZERO {
            break;
        }
        left = front;
    }
    left
}

/// The digits without zeros in front.
fn without_front_zeros(digits: &[u8]) -> &[u8]
    requires { list_all is_ascii_digit digits.now ≡ true }
    ensures digits { list_all is_ascii_digit result.now ≡ true }
    ensures value { digits_value 10 result.now ≡ digits_value 10 digits.now }
    ensures first { begins_def ZERO result.now ≡ false }
{
    let mut left = digits;
    while let [digit, rest @ ..] = left {
        if *digit != ZERO {
            break;
        }
        left = rest;
    }
    left
}

/// The order of the numbers that digits make: of those without zeros in front, more digits make a greater one.
fn compare_wholes(one: &[u8], other: &[u8]) -> Ordering
    requires one { list_all is_ascii_digit one.now ≡ true }
    requires other { list_all is_ascii_digit other.now ≡ true }
    ensures { result ≡ nat_cmp (digits_value 10 one.now) (digits_value 10 other.now) }
{
    let one = without_front_zeros(one);
    let other = without_front_zeros(other);
    match one.len().cmp(&other.len()) {
        Ordering::Equal => one.cmp(other),
        decided => decided,
    }
}
