//! Where lines begin and end, and the lines of a text.
ghost use Rattle.std.specs.Prelude.{◌≡◌, ◌<◌, ◌≤◌, ◌++◌, [], ◌∷◌, false, length, IfNone, IfOk, IfSome, OnOk};
ghost use Rattle.ps_lines.specs.Lines.{BeginsNextLine, CutsLine, HasNoNewline, closing, has_newline, is_closed, lines};
ghost use Rattle.ps_lines.specs.Texts.{texts_of};

use crate::memory::Memory;
use crate::seek::newline_in;
use std::alloc::Global;

/// The byte that ends a line (XBD 3.243).
pub const NEWLINE: u8 = b'\n';

/// Whether the text is empty or ends in a newline, so that each of its lines is whole (XBD 3.206).
#[tactic(auto, using(crate::proofs::NewlineLemmas::last_byte))]
pub fn is_closed(text: &[u8]) -> bool
    ensures { result ≡ is_closed text.now }
{
    match text.last() {
        Some(byte) => *byte == NEWLINE,
        None => true,
    }
}

/// The text with a newline added where it isn't closed.
pub fn closing(mut text: Vec<u8>) -> Result<Vec<u8>, Memory>
    ensures { IfOk result (λ closed. closed.items ≡ closing text.items) }
{
    if !is_closed(text.as_slice()) {
        text.push(NEWLINE)?;
    }
    Ok(text)
}

/// The place after the first newline at or after `from`, which is where the next line begins.
pub fn next_line(text: &[u8], from: usize) -> Option<usize>
    requires { from ≤ length text.now }
    ensures found { IfSome result (BeginsNextLine text.now from) }
    ensures none { IfNone result (HasNoNewline text.now from (length text.now)) }
{
    let offset = newline_in(&text[from..])?;
    Some(from + offset + 1)
}

/// The text's first line without its newline, and what stands after that newline; None where there is no newline.
pub fn cut_line(text: &[u8]) -> Option<(&[u8], &[u8])>
    ensures cut { IfSome result (λ parts. CutsLine text.now parts.0.now parts.1.now) }
    ensures none { IfNone result (has_newline text.now ≡ false) }
    ensures shorter { IfSome result (λ parts. length parts.1.now < length text.now) }
{
    match newline_in(text) {
        Some(end) => Some((&text[..end], &text[end + 1..])),
        None => None,
    }
}

/// The lines of the text, without their newlines (XBD 3.206). A last line that no newline ends counts too (XBD 3.195).
#[tactic(auto, using(crate::proofs::LineLemmas::line_steps))]
pub fn lines(alloc: Global, text: &[u8]) -> Result<Vec<Vec<u8>>, Memory>
    ensures { IfOk result (λ found. texts_of found.items ≡ lines text.now) }
{
    let mut found = Vec::new(alloc);
    let mut left = text;
    while let Some((line, rest)) = cut_line(left) {
        push_line(alloc, &mut found, line)?;
        left = rest;
    }
    if left.is_empty() {
        return Ok(found);
    }
    push_line(alloc, &mut found, left)?;
    Ok(found)
}

/// Appends a copy of the line.
fn push_line(alloc: Global, lines: &mut Vec<Vec<u8>>, line: &[u8]) -> Result<(), Memory>
    ensures { OnOk result (texts_of lines.new.items ≡ texts_of lines.old.items ++ line.now ∷ []) }
{
    lines.push(Vec::from_slice(alloc, line)?)?;
    Ok(())
}
