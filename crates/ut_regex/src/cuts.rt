//! Lines cut out of a text.
ghost use Rattle.std.specs.Prelude.{◌≡◌, ◌+◌, ◌<◌, ◌≤◌, ◌++◌, true, false, length, IfNone, IfSome};
ghost use Rattle.ps_lines.specs.Lines.{has_newline, is_closed};
ghost use Rattle.ut_regex.specs.Having.{CutsOut};

use memchr::{memchr, memrchr};
use ps_lines::{NEWLINE, cut_line};

/// A line of a text and what stands around it.
#[derive(Clone, Copy, Debug)]
pub struct Cut<'t> {
    /// The whole lines before it.
    pub before: &'t [u8],
    /// The line, without its newline.
    pub line: &'t [u8],
    /// What stands behind its newline.
    pub rest: &'t [u8],
}

/// The line in which a place stands; a newline stands in the line that it ends. None where no newline ends that line.
pub(crate) fn cut_around<'t>(text: &'t [u8], place: usize) -> Option<Cut<'t>>
    requires { place ≤ length text.now }
    ensures cut { IfSome result (λ cut. CutsOut text.now cut.before.now cut.line.now cut.rest.now) }
    ensures here { IfSome result (λ cut. length cut.before.now ≤ place) }
    ensures shorter { IfSome result (λ cut. length cut.rest.now < length text.now) }
    ensures none { IfNone result (is_closed text.now ≡ true → place ≡ length text.now) }
{
    let (before, begun) = cut_last_line(&text[..place]);
    let Some((ended, rest)) = cut_line(&text[place..]) else {
        return None;
    };
    let line = &text[before.len()..];
    Some(Cut {
        before,
        line: &line[..begun.len() + ended.len()],
        rest,
    })
}

/// The text up to its last newline, and the beginning of a line behind that.
fn cut_last_line(text: &[u8]) -> (&[u8], &[u8])
    ensures whole { text.now ≡ result.0.now ++ result.1.now }
    ensures ends { is_closed result.0.now ≡ true }
    ensures plain { has_newline result.1.now ≡ false }
    ensures sizes { length result.0.now + length result.1.now ≡ length text.now }
{
    match memrchr(NEWLINE, text) {
        Some(end) => (&text[..end + 1], &text[end + 1..]),
        None => (&[], text),
    }
}

/// The text up to the end of the line in which a place stands, and what stands behind that.
pub(crate) fn cut_at_line(text: &[u8], place: usize) -> (&[u8], &[u8])
    requires { place ≤ length text.now }
    ensures whole { text.now ≡ result.0.now ++ result.1.now }
    ensures closed { is_closed text.now ≡ true → (is_closed result.0.now ≡ true) × (is_closed result.1.now ≡ true) }
    ensures sizes { length result.0.now + length result.1.now ≡ length text.now }
{
    match memchr(NEWLINE, &text[place..]) {
        Some(offset) => {
            let end = place + offset + 1;
            (&text[..end], &text[end..])
        }
        None => (text, &[]),
    }
}
