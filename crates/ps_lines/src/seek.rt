//! Where the first newline of a text stands.
ghost use Rattle.std.specs.Prelude.{◌≡◌, ◌<◌, ◌≤◌, ℕ, Option, length, MatchOption};
ghost use Rattle.std.specs.Int.{trailing_zeros};
ghost use mir.Syntax.{w64};
ghost use Rattle.memchr.specs.Find.{IsFirst, IsFirstByte, Passes, is_byte};

use crate::newlines::NEWLINE;
use memchr::memchr;
use std::simd::prelude::*;

/// How many bytes on a byte is read while a newline is sought.
const AHEAD: usize = 320;

/// The place of the first newline.
///
/// A walk from line to line can't begin a search before it knows where the last one ended. So lines of ordinary lengths, which end
/// within 80 bytes, are found by two comparisons here, of 16 bytes and of 64, and only longer ones by the library; and a byte of the
/// lines to come is read, so that their memory is there when the walk comes to them.
#[inline]
pub(crate) fn newline_in(text: &[u8]) -> Option<usize>
    ensures { IsFirstByte (is_byte NEWLINE) text.now result }
{
    let sought = up_to_newline_ahead(text);
    if sought.len() < 80 {
        return memchr(NEWLINE, sought);
    }
    if let Some(place) = newline_among_16(sought) {
        return Some(place);
    }
    if let Some(place) = newline_among_64(&sought[16..]) {
        return Some(16 + place);
    }
    match memchr(NEWLINE, &sought[80..]) {
        Some(place) => Some(80 + place),
        None => None,
    }
}

/// The text, or its front up to a newline that stands some lines on: its first newline is that of the text.
#[inline(always)]
fn up_to_newline_ahead(text: &[u8]) -> &[u8]
    ensures { (place : Option ℕ) → IsFirstByte (is_byte NEWLINE) result.now place → IsFirstByte (is_byte NEWLINE) text.now place }
{
    match text.get(AHEAD) {
        Some(byte) if *byte == NEWLINE => &text[..=AHEAD],
        Some(_) | None => text,
    }
}

/// The place of the first newline among the first 16 bytes.
#[inline(always)]
fn newline_among_16(text: &[u8]) -> Option<usize>
    requires { 16 ≤ length text.now }
    ensures { IsFirst (Passes (is_byte NEWLINE) text.now) 0 16 result }
{
    lowest(
        u8x16::from_slice(text)
            .simd_eq(u8x16::splat(NEWLINE))
            .to_bitmask(),
    )
}

/// The place of the first newline among the first 64 bytes.
#[inline(always)]
fn newline_among_64(text: &[u8]) -> Option<usize>
    requires { 64 ≤ length text.now }
    ensures { IsFirst (Passes (is_byte NEWLINE) text.now) 0 64 result }
{
    lowest(
        u8x64::from_slice(text)
            .simd_eq(u8x64::splat(NEWLINE))
            .to_bitmask(),
    )
}

/// The place of the lowest bit that is set.
#[inline(always)]
fn lowest(bits: u64) -> Option<usize>
    ensures { MatchOption result (bits ≡ 0) (λ place. (0 < bits) × (place ≡ trailing_zeros w64 bits)) }
{
    if bits == 0 {
        None
    } else {
        Some(bits.trailing_zeros() as usize)
    }
}
