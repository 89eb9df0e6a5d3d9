//! The text that is left, and the runs of bytes that end at one byte.
ghost use Rattle.std.specs.Prelude.{◌≡◌, ◌∷◌, [], ◌<◌, ◌≤◌, length, drop, MatchOption, IfSome, None, Some};
ghost use Rattle.sh_lex.specs.Texts.{unspliced, behind_quote, behind_comment, behind_backslash};

use crate::bytes::{BACKSLASH, CLOSE_BRACE, NEWLINE, QUOTE, is_quoted_escape};

/// The first byte of the text and what is left behind it, where a backslash-newline is removed (XCU 2.2.1).
#[inline]
#[tactic(auto, unfolding(crate::specs::Texts::unspliced, crate::specs::Texts::fronts))]
pub fn front(text: &[u8]) -> Option<(u8, &[u8])>
    ensures front { MatchOption result (unspliced text.now ≡ []) (λ r. unspliced text.now ≡ r.0 ∷ r.1.now) }
    ensures shorter { IfSome result (λ r. length r.1.now < length text.now) }
{
    let mut rest = text;
    while let Some((first, after)) = rest.split_first() {
        match spliced(*first, after) {
            Some(behind) => rest = behind,
            None => return Some((*first, after)),
        }
    }
    None
}

/// What is left behind a backslash-newline.
#[inline]
#[tactic(auto, unfolding(crate::specs::Texts::unspliced, crate::specs::Texts::fronts))]
fn spliced(first: u8, after: &[u8]) -> Option<&[u8]>
    ensures spliced { MatchOption result (unspliced (first ∷ after.now) ≡ first ∷ after.now)
        (λ behind. unspliced (first ∷ after.now) ≡ unspliced behind.now) }
    ensures shorter { IfSome result (λ behind. length behind.now < length after.now) }
{
    let (second, behind) = after.split_first()?;
    if first == BACKSLASH && *second == NEWLINE {
        Some(behind)
    } else {
        None
    }
}

/// What is left behind the next single quote (XCU 2.2.2).
pub fn behind_quote(text: &[u8]) -> Option<&[u8]>
    ensures quote { MatchOption result (behind_quote text.now ≡ None) (λ rest. behind_quote text.now ≡ Some rest.now) }
    ensures shorter { IfSome result (λ rest. length rest.now < length text.now) }
{
    let mut rest = text;
    while let Some((byte, after)) = rest.split_first() {
        if *byte == QUOTE {
            return Some(after);
        }
        rest = after;
    }
    None
}

/// What is left behind a comment: the newline that ends it is no part of it (XCU 2.3).
pub fn behind_comment(text: &[u8]) -> &[u8]
    ensures comment { result.now ≡ behind_comment text.now }
    ensures within { length result.now ≤ length text.now }
{
    let mut rest = text;
    while let Some((byte, after)) = rest.split_first() {
        if *byte == NEWLINE {
            return rest;
        }
        rest = after;
    }
    rest
}

/// What is left behind a backslash in double quotes and the byte that it quotes (XCU 2.2.3).
///
/// In a `${ }` in double quotes it quotes `}` too.
pub fn behind_backslash(braces: bool, after: &[u8]) -> &[u8]
    ensures quoted { result.now ≡ behind_backslash braces after.now }
    ensures within { length result.now ≤ length after.now }
{
    let Some((byte, behind)) = after.split_first() else {
        return after;
    };
    if is_quoted_escape(*byte) || (braces && *byte == CLOSE_BRACE) {
        behind
    } else {
        after
    }
}

/// What is left behind a byte that a backslash quotes (XCU 2.2.1); at the end of the text there is none.
pub fn behind_byte(text: &[u8]) -> &[u8]
    ensures { result.now ≡ drop 1 text.now }
{
    match text.split_first() {
        Some((_, rest)) => rest,
        None => text,
    }
}
