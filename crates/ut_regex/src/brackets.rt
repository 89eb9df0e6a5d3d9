//! Bracket expressions (XBD 9.3.5), in the C locale.
ghost use Rattle.std.specs.Prelude.{◌≡◌, ◌<◌, ℕ, ◌||◌, ◌∷◌, false, None, IfSome, IfNone, MatchOption, length, ◌==◌, ◌≤◌, position, option_map};
ghost use Rattle.ut_regex.specs.Brackets.{begins_with, holds, class_at, class_in, behind_close, is_special, item, range_end, IsListing, IsNoListing, IsBracket, IsNoBracket};
ghost use Rattle.ut_regex.specs.Spans.{is_from};
ghost use Rattle.ps_lines.specs.ByteSet.{has_byte};

use crate::tree::Leaf;
use ps_lines::{ByteSet, Class};

/// What is listed in brackets at once.
#[derive(Clone, Copy, Debug, PartialEq, Eq)]
pub(crate) enum Item {
    /// The bytes from the first to the last, which may be one.
    Range(u8, u8),
    /// The bytes of a class.
    Class(Class),
}

/// Reads what follows the opening bracket, up to the closing one.
pub(crate) fn bracket(text: &[u8]) -> Option<(Leaf, &[u8])>
    ensures read { IfSome result (λ r. IsBracket text.now r.0 r.1.now) }
    ensures none { IfNone result (IsNoBracket text.now) }
    ensures shorter { IfSome result (λ r. length r.1.now < length text.now) }
{
    match negated(text) {
        Some(listed) => match listing(listed) {
            Some((set, rest)) => Some((Leaf::NotAmong(set), rest)),
            None => None,
        },
        None => match listing(text) {
            Some((set, rest)) => Some((Leaf::Among(set), rest)),
            None => None,
        },
    }
}

/// What is behind a `^`, if the text begins with one.
fn negated(text: &[u8]) -> Option<&[u8]>
    ensures { MatchOption result (begins_with 94 text.now ≡ false) (λ rest. text.now ≡ 94 ∷ rest.now) }
{
    let (first, rest) = text.split_first()?;
    if *first == b'^' { Some(rest) } else { None }
}

/// What is behind a `]`, if the text begins with one.
fn closed(text: &[u8]) -> Option<&[u8]>
    ensures close { MatchOption result (begins_with 93 text.now ≡ false) (λ rest. text.now ≡ 93 ∷ rest.now) }
    ensures behind { option_map (λ rest. rest.now) result ≡ behind_close text.now }
{
    let (first, rest) = text.split_first()?;
    if *first == b']' { Some(rest) } else { None }
}

/// Reads what is listed. What stands first isn't the closing bracket.
fn listing(text: &[u8]) -> Option<(ByteSet, &[u8])>
    ensures read { IfSome result (λ r. IsListing text.now (has_byte r.0) r.1.now) }
    ensures none { IfNone result (IsNoListing text.now) }
    ensures shorter { IfSome result (λ r. length r.1.now < length text.now) }
{
    let mut set = ByteSet::empty();
    let (first, mut left) = next_item(text)?;
    add_item(&mut set, first);
    'items: loop {
        if let Some(rest) = closed(left) {
            return Some((set, rest));
        }
        let Some((item, rest)) = next_item(left) else {
            return None;
        };
        add_item(&mut set, item);
        left = rest;
    }
}

/// Adds the bytes of an item.
fn add_item(set: &mut ByteSet, item: Item)
    ensures { (byte : ℕ) → byte < 256 → has_byte set.new byte ≡ (holds item byte || has_byte set.old byte) }
{
    for code in 0..256u16 {
        let byte = code as u8;
        if item_holds(item, byte) {
            set.add(byte);
        }
    }
}

/// Whether the byte is one of those of an item.
fn item_holds(item: Item, byte: u8) -> bool
    ensures { result ≡ holds item byte }
{
    match item {
        Item::Range(first, last) => is_from(first, last, byte),
        Item::Class(class) => class.has(byte),
    }
}

/// Whether the byte is one of those from `low` up to `high`.
#[tactic(auto, unfolding(crate::specs::Spans::is_from))]
fn is_from(low: u8, high: u8, byte: u8) -> bool
    ensures { result ≡ is_from low high byte }
{
    low <= byte && byte <= high
}

/// Reads an item: a class, a range or a byte.
fn next_item(text: &[u8]) -> Option<(Item, &[u8])>
    ensures read { IfSome result (λ r. item text.now ≡ Some (r.0, r.1.now)) }
    ensures none { IfNone result (item text.now ≡ None) }
    ensures shorter { IfSome result (λ r. length r.1.now < length text.now) }
{
    let (first, rest) = text.split_first()?;
    if *first == b'[' && begins_special(rest) {
        return class_item(rest);
    }
    match ranged(rest) {
        Some((last, left)) => {
            if *first <= last && !(last == b'[' && begins_special(left)) {
                Some((Item::Range(*first, last), left))
            } else {
                None
            }
        }
        None => Some((Item::Range(*first, *first), rest)),
    }
}

/// Whether the text begins with what makes a bracket before it special: `:`, `.` or `=`.
fn begins_special(text: &[u8]) -> bool
    ensures { result ≡ is_special text.now }
{
    match text.first() {
        Some(first) => *first == b':' || *first == b'.' || *first == b'=',
        None => false,
    }
}

/// The last byte of a range, if the text goes on with a `-` and a byte other than the closing bracket.
fn ranged(text: &[u8]) -> Option<(u8, &[u8])>
    ensures end { MatchOption result (range_end text.now ≡ None) (λ r. range_end text.now ≡ Some (r.0, r.1.now)) }
    ensures shorter { IfSome result (λ r. length r.1.now < length text.now) }
{
    let (dash, behind) = text.split_first()?;
    let (last, rest) = behind.split_first()?;
    if *dash == b'-' && *last != b']' {
        Some((*last, rest))
    } else {
        None
    }
}

/// Reads a class from the colon on. The other special brackets aren't read.
fn class_item(text: &[u8]) -> Option<(Item, &[u8])>
    ensures class { MatchOption result (class_at text.now ≡ None) (λ r. class_at text.now ≡ Some (r.0, r.1.now)) }
    ensures shorter { IfSome result (λ r. length r.1.now < length text.now) }
{
    let (colon, behind) = text.split_first()?;
    if *colon != b':' {
        return None;
    }
    named_class(behind)
}

/// Reads a class from its name on. No range begins with it.
fn named_class(text: &[u8]) -> Option<(Item, &[u8])>
    ensures class { MatchOption result (class_in text.now (position (λ byte. byte == 58) text.now) ≡ None) (λ r. class_in text.now (position (λ byte. byte == 58) text.now) ≡ Some (r.0, r.1.now)) }
    ensures shorter { IfSome result (λ r. length r.1.now ≤ length text.now) }
{
    match colon_at(text) {
        None => None,
        Some(length) => match (Class::named(&text[..length]), closed(&text[length + 1..])) {
            (Some(class), Some(rest)) => match ranged(rest) {
                None => Some((Item::Class(class), rest)),
                Some(_) => None,
            },
            (Some(_), None) => None,
            (None, _) => None,
        },
    }
}

/// The place of the first colon.
fn colon_at(text: &[u8]) -> Option<usize>
    ensures place { result ≡ position (λ byte. byte == 58) text.now }
    ensures within { IfSome result (λ place. place < length text.now) }
{
    text.iter().position(|byte| *byte == b':')
}
