//! The fields of a line.
ghost use Rattle.std.specs.Prelude.{◌≡◌, ◌<◌, ◌≤◌, IfNone, IfSome, length};
ghost use Rattle.ut_slices.specs.Cut.{fields, has_delimiter as has_delimiter_def};
ghost use Rattle.ut_slices.specs.Inner.Runs.{CutsAtDelimiter, CutsField};

use memchr::memchr;

/// The text before the delimiter of this number, counted from 1, and what stands behind it; None where there are fewer.
pub(crate) fn cut_at_delimiter(delimiter: u8, text: &[u8], count: u64) -> Option<(&[u8], &[u8])>
    requires { 0 < count }
    ensures cut { IfSome result (λ parts. CutsAtDelimiter delimiter count text.now parts.0.now parts.1.now) }
    ensures none { IfNone result (length (fields delimiter text.now) ≤ count) }
{
    let Some((_, mut rest)) = cut_field(delimiter, text) else {
        return None;
    };
    let mut left = count - 1;
    while left > 0 {
        let Some((_, behind)) = cut_field(delimiter, rest) else {
            return None;
        };
        rest = behind;
        left -= 1;
    }
    Some((&text[..text.len() - rest.len() - 1], rest))
}

/// The text before the first delimiter, and what stands behind it.
pub(crate) fn cut_field(delimiter: u8, text: &[u8]) -> Option<(&[u8], &[u8])>
    ensures cut { IfSome result (λ parts. CutsField delimiter text.now parts.0.now parts.1.now) }
    ensures none { IfNone result (length (fields delimiter text.now) ≡ 1) }
{
    match memchr(delimiter, text) {
        Some(end) => Some((&text[..end], &text[end + 1..])),
        None => None,
    }
}

/// Whether the delimiter is among the bytes.
pub(crate) fn has_delimiter(delimiter: u8, line: &[u8]) -> bool
    ensures { result ≡ has_delimiter_def delimiter line.now }
{
    memchr(delimiter, line).is_some()
}
