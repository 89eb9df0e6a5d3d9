//! Numbers in words.

ghost use Rattle.std.specs.Prelude.{◌≡◌, ◌≤◌, ◌^◌, ◌-◌, pos, neg_ℤ, Some};
ghost use Rattle.ut_options.specs.Numbers.{behind_minus, behind_plus, digits_up_to, number_of, option_number, with_one_more};

/// The greatest number of 64 bits with sign.
const MOST: u64 = 9_223_372_036_854_775_807;

/// How far the least of them is from 0.
const MOST_BELOW: u64 = 9_223_372_036_854_775_808;

/// The number that an option's argument spells: one or more digits of a number below 2^63 (own), leading zeros among them.
pub fn read_number(text: &[u8]) -> Option<u64>
    ensures { result ≡ option_number text.now }
{
    digits_up_to(text, MOST)
}

/// The number that a text spells: an optional sign, and digits, with nothing before, between or behind them; None where there is none,
/// and where it has more than 64 bits with sign.
pub fn number_of(text: &[u8]) -> Option<i64>
    ensures { result ≡ number_of text.now }
{
    match text.split_first() {
        Some((b'-', digits)) => behind_minus(digits),
        Some((b'+', digits)) => plain_number(digits),
        _ => plain_number(text),
    }
}

/// The number whose digits these are.
fn plain_number(text: &[u8]) -> Option<i64>
    ensures { result ≡ behind_plus text.now }
{
    match digits_up_to(text, MOST) {
        Some(number) => 0i64.checked_add_unsigned(number),
        None => None,
    }
}

/// The number behind a minus sign.
fn behind_minus(text: &[u8]) -> Option<i64>
    ensures { result ≡ behind_minus text.now }
{
    match digits_up_to(text, MOST_BELOW) {
        Some(number) => 0i64.checked_sub_unsigned(number),
        None => None,
    }
}

/// The number that one or more digits write, where it is at most this one.
#[tactic(auto, using(crate::proofs::DigitLemmas::digit_steps))]
pub fn digits_up_to(text: &[u8], most: u64) -> Option<u64>
    ensures { result ≡ digits_up_to most text.now }
{
    if text.is_empty() {
        return None;
    }
    let mut number = 0;
    for byte in text {
        number = with_digit(number, *byte, most)?;
    }
    Some(number)
}

/// The number with one more digit at its end, where `byte` is a digit and the number is at most this one.
fn with_digit(number: u64, byte: u8, most: u64) -> Option<u64>
    ensures { result ≡ with_one_more most number byte }
{
    if !byte.is_ascii_digit() {
        return None;
    }
    let more = number.checked_mul(10)?.checked_add(u64::from(byte - b'0'))?;
    if more <= most { Some(more) } else { None }
}
