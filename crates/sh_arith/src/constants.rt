//! Constants: the numbers that words of an expression and texts of variables write.

ghost use Rattle.std.specs.Prelude.{◌≡◌, ◌⊎◌, ◌-◌, ◌^◌, ◌≤◌, min, option_map, MatchResult};
ghost use Rattle.sh_arith.specs.Constants.{digit, number, after_zero, constant, written, from_zero, constant_value, variable_value};
ghost use Rattle.sh_arith.specs.Operators.{in_range};

use crate::faults::ArithFault;
use ps_lines::Text;
use std::alloc::Global;

/// The value of a constant, which is never negative.
#[tactic(auto, using(crate::proofs::ConstantLemmas::from_zero_capped))]
pub(crate) fn constant_value(word: &[u8]) -> Result<i64, ArithFault>
    ensures { result ≡ constant_value word.now }
{
    match constant(word) {
        Some(number) => signed(false, number),
        None => Err(ArithFault::Syntax),
    }
}

/// The value of the variable of this name that has this text.
#[tactic(auto, using(crate::proofs::ConstantLemmas::from_zero_capped))]
pub(crate) fn variable_value(alloc: Global, name: &[u8], text: &[u8]) -> Result<i64, ArithFault>
    ensures { MatchResult result
        (λ value. variable_value name.now text.now ≡ Ok value)
        (λ fault. (fault ≡ ArithFault.Memory) ⊎ (variable_value name.now text.now ≡ Err fault)) }
{
    match written(text) {
        Some((negative, number)) => signed(negative, number),
        None => Err(ArithFault::NotANumber(Text::copy_of(alloc, name)?)),
    }
}

/// The number that a variable's text writes: whether it is negative, and how far it is from 0, capped as `number`.
fn written(text: &[u8]) -> Option<(bool, u64)>
    ensures { result ≡ option_map (λ w. (w.0, min w.1 (2 ^ 64 - 1))) (written text.now) }
{
    match text.split_first() {
        None => Some((false, 0)),
        Some((b'-', rest)) => constant(rest).map(|number| (true, number)),
        Some((b'+', rest)) => constant(rest).map(|number| (false, number)),
        Some(_) => constant(text).map(|number| (false, number)),
    }
}

/// The number that is this far from 0, where it has 64 bits with sign.
fn signed(negative: bool, number: u64) -> Result<i64, ArithFault>
    ensures { result ≡ in_range (from_zero negative number) }
{
    if negative {
        0i64.checked_sub_unsigned(number)
            .ok_or(ArithFault::Overflow)
    } else {
        0i64.checked_add_unsigned(number)
            .ok_or(ArithFault::Overflow)
    }
}

/// What a digit counts, or 16 for a byte that is none.
fn digit(byte: u8) -> u64
    ensures digit { result ≡ digit byte }
    ensures small { result ≤ 16 }
{
    match byte {
        b'0'..=b'9' => u64::from(byte - b'0'),
        b'a'..=b'f' => u64::from(byte - b'a') + 10,
        b'A'..=b'F' => u64::from(byte - b'A') + 10,
        _ => 16,
    }
}

/// The number that digits of this base write, at most the greatest of the type, or none where the text isn't one.
fn number(base: u64, digits: &[u8]) -> Option<u64>
    requires { 1 ≤ base }
    ensures { result ≡ option_map (λ n. min n (2 ^ 64 - 1)) (number base digits.now) }
{
    if digits.is_empty() {
        return None;
    }
    let mut value = 0u64;
    for byte in digits {
        let digit = digit(*byte);
        if digit >= base {
            return None;
        }
        value = value.saturating_mul(base).saturating_add(digit);
    }
    Some(value)
}

/// The number that a word writes as a constant, at most the greatest of the type, or none where it writes none.
pub(crate) fn constant(word: &[u8]) -> Option<u64>
    ensures { result ≡ option_map (λ n. min n (2 ^ 64 - 1)) (constant word.now) }
{
    match word.split_first() {
        Some((b'0', rest)) => after_zero(rest),
        Some(_) => number(10, word),
        None => None,
    }
}

/// The same after a leading `0`.
fn after_zero(rest: &[u8]) -> Option<u64>
    ensures { result ≡ option_map (λ n. min n (2 ^ 64 - 1)) (after_zero rest.now) }
{
    match rest.split_first() {
        Some((b'x' | b'X', digits)) => number(16, digits),
        Some(_) => number(8, rest),
        None => Some(0),
    }
}
