//! Intervals (XBD 9.3.6, 9.4.6): how often a part may stand.
ghost use Rattle.std.specs.Prelude.{◌≡◌, ◌<◌, ◌≤◌, ◌∷◌, Bool, false, Some, None, IfOk, IfSome, MatchOption, MatchResult, length, min, option_map};
ghost use Rattle.ut_regex.specs.Intervals.{interval, behind_bound, bound_of, bounds, no_bounds, bound, no_bound, second_bound, ended, is_ordered, behind_brace, begins_digit, number_from, behind_digits};
ghost use Rattle.ut_regex.specs.Spans.{is_from};

use crate::fault::ReFault;
use crate::tree::Bounds;

/// Reads an interval from its first bound on, up to its closing brace, in front of which basic expressions have a
/// backslash. A bound above 255 is told where it stands; whatever else is wrong makes the text no expression.
pub(crate) fn read_interval(basic: bool, text: &[u8]) -> Result<(Bounds, &[u8]), ReFault>
    ensures interval { MatchResult result (λ r. interval basic text.now ≡ bounds r.0.low r.0.high r.1.now) (λ fault. interval basic text.now ≡ no_bounds fault) }
    ensures shorter { IfOk result (λ r. length r.1.now ≤ length text.now) }
{
    match read_bound(text) {
        Ok((low, rest)) => read_behind(basic, low, rest),
        Err(fault) => Err(fault),
    }
}

/// Reads the rest of an interval behind its first bound.
fn read_behind(basic: bool, low: u8, text: &[u8]) -> Result<(Bounds, &[u8]), ReFault>
    ensures interval { MatchResult result (λ r. behind_bound basic low text.now ≡ bounds r.0.low r.0.high r.1.now) (λ fault. behind_bound basic low text.now ≡ no_bounds fault) }
    ensures shorter { IfOk result (λ r. length r.1.now ≤ length text.now) }
{
    let Some((first, behind)) = text.split_first() else {
        return Err(ReFault::NotARegex);
    };
    if *first != b',' {
        return end_interval(low, Some(low), brace(basic, text));
    }
    if !is_digit_first(behind) {
        return end_interval(low, None, brace(basic, behind));
    }
    match read_bound(behind) {
        Ok((high, rest)) => end_interval(low, Some(high), brace(basic, rest)),
        Err(fault) => Err(fault),
    }
}

/// Ends an interval, whose closing brace is there or not.
fn end_interval(low: u8, high: Option<u8>, rest: Option<&[u8]>) -> Result<(Bounds, &[u8]), ReFault>
    ensures interval { MatchResult result (λ r. ended low high (option_map (λ left. left.now) rest.entry) ≡ bounds r.0.low r.0.high r.1.now) (λ fault. ended low high (option_map (λ left. left.now) rest.entry) ≡ no_bounds fault) }
    ensures shorter { IfOk result (λ r. IfSome rest.entry (λ left. length r.1.now ≤ length left.now)) }
{
    let Some(left) = rest else {
        return Err(ReFault::NotARegex);
    };
    match high {
        None => Ok((Bounds { low, high: None }, left)),
        Some(most) => {
            if low <= most {
                Ok((
                    Bounds {
                        low,
                        high: Some(most),
                    },
                    left,
                ))
            } else {
                Err(ReFault::NotARegex)
            }
        }
    }
}

/// What is behind the closing brace, in front of which basic expressions have a backslash.
fn brace(basic: bool, text: &[u8]) -> Option<&[u8]>
    ensures brace { option_map (λ rest. rest.now) result ≡ behind_brace basic text.now }
    ensures shorter { IfSome result (λ rest. length rest.now ≤ length text.now) }
{
    let (first, behind) = text.split_first()?;
    if !basic {
        return if *first == b'}' { Some(behind) } else { None };
    }
    let (second, rest) = behind.split_first()?;
    if *first == b'\\' && *second == b'}' {
        Some(rest)
    } else {
        None
    }
}

/// Whether the text begins with a digit.
fn is_digit_first(text: &[u8]) -> bool
    ensures { result ≡ begins_digit text.now }
{
    match text.first() {
        Some(first) => is_digit(*first),
        None => false,
    }
}

/// Whether the byte is a digit.
#[tactic(auto, unfolding(crate::specs::Spans::is_from))]
fn is_digit(byte: u8) -> bool
    ensures { result ≡ is_from 48 57 byte }
{
    b'0' <= byte && byte <= b'9'
}

/// Reads a bound.
fn read_bound(text: &[u8]) -> Result<(u8, &[u8]), ReFault>
    ensures bound { MatchResult result (λ r. bound_of text.now ≡ bound r.0 r.1.now) (λ fault. bound_of text.now ≡ no_bound fault) }
    ensures shorter { IfOk result (λ r. length r.1.now ≤ length text.now) }
{
    if !is_digit_first(text) {
        return Err(ReFault::NotARegex);
    }
    let (number, rest) = read_number(text);
    if number <= 255 {
        Ok((number as u8, rest))
    } else {
        Err(ReFault::RepeatTooLarge)
    }
}

/// The number that the digits at the text's beginning make, or 256 where it is greater, and what is behind them.
fn read_number(text: &[u8]) -> (u16, &[u8])
    ensures number { result.0 ≡ min (number_from 0 text.now) 256 }
    ensures behind { result.1.now ≡ behind_digits text.now }
    ensures shorter { length result.1.now ≤ length text.now }
{
    let mut number = 0u16;
    let mut left = text;
    while let Some((digit, rest)) = left.split_first()
        && is_digit(*digit)
    {
        number = (10 * number + (*digit - b'0') as u16).min(256);
        left = rest;
    }
    (number, left)
}
