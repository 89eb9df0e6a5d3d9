//! Bytes at which what is sought may begin.
ghost use Rattle.std.specs.Prelude.{◌≡◌, ◌<◌, ◌≤◌, ℕ, false, true, length, slice_index, IfNone, IfSome};
ghost use Rattle.std.specs.Bool.{Decides};
ghost use Rattle.std.specs.Option.{ForSome};
ghost use Rattle.memchr.specs.Find.{IsFirstByte, Nowhere, Passes, is_byte3};
ghost use Rattle.ps_lines.specs.ByteSet.{has_byte};
ghost use Rattle.ut_regex.specs.Inner.Starts.{AreThese, IsNext};

use memchr::{memchr, memchr2, memchr3};
use ps_lines::ByteSet;

/// A search for the first byte of a set.
#[derive(Clone, Copy, Drop)]
pub(crate) struct Starts {
    pub set: ByteSet,
    /// The bytes of a set that holds one to three, with the last one again where there are fewer.
    few: Option<(u8, u8, u8)>,
    ghost all: { ForSome few (λ few. AreThese (λ byte. has_byte set byte) few.0 few.1 few.2) },
}

impl Starts {
    /// A search for the bytes of this set.
    pub(crate) fn of(set: ByteSet) -> Starts
        ensures { result.set ≡ set }
    {
        let few = few_of(&set);
        Starts { set, few }
    }

    /// The first place in the text where one of the bytes stands, or the text's length.
    pub(crate) fn first_place(&self, text: &[u8]) -> usize
        ensures within { result ≤ length text.now }
        ensures first { Nowhere (Passes (λ byte. has_byte self.now.set byte) text.now) 0 result }
        ensures stands { result < length text.now → has_byte self.now.set (slice_index text.now result) ≡ true }
    {
        match self.find(text) {
            Some(place) => place,
            None => text.len(),
        }
    }

    /// The place of the first of the bytes in the text.
    fn find(&self, text: &[u8]) -> Option<usize>
        ensures { IsFirstByte (λ byte. has_byte self.now.set byte) text.now result }
    {
        match self.few {
            Some((first, second, third)) => find_few(first, second, third, text),
            None => find_member(&self.set, text),
        }
    }
}

/// The bytes of a set that holds one to three, with the last one again where there are fewer.
fn few_of(set: &ByteSet) -> Option<(u8, u8, u8)>
    ensures few { ForSome result (λ few. AreThese (λ byte. has_byte set.now byte) few.0 few.1 few.2) }
    ensures none { IfNone result ((first second third : ℕ) → first < 256 → AreThese (λ byte. has_byte set.now byte) first second third → ⊥) }
{
    let first = member_from(set, 0)?;
    let second = member_behind(set, first);
    let third = member_behind(set, second);
    if are_all(set, first, second, third) {
        return Some((first, second, third));
    }
    None
}

/// The first byte of the set from a number on.
fn member_from(set: &ByteSet, from: u16) -> Option<u8>
    ensures none { IfNone result ((byte : ℕ) → from ≤ byte → byte < 256 → has_byte set.now byte ≡ false) }
    ensures member { IfSome result (λ member. (from ≤ member) × (has_byte set.now member ≡ true)) }
    ensures first { IfSome result (λ member. (byte : ℕ) → from ≤ byte → byte < member → has_byte set.now byte ≡ false) }
{
    for code in from..256 {
        if set.has(code as u8) {
            return Some(code as u8);
        }
    }
    None
}

/// The next byte of the set behind one, or that one where it is the last.
fn member_behind(set: &ByteSet, member: u8) -> u8
    requires { has_byte set.now member ≡ true }
    ensures { IsNext (λ byte. has_byte set.now byte) member result }
{
    member_from(set, member as u16 + 1).unwrap_or(member)
}

/// Whether the set holds these bytes and no other.
fn are_all(set: &ByteSet, first: u8, second: u8, third: u8) -> bool
    ensures { Decides result (AreThese (λ byte. has_byte set.now byte) first second third) }
{
    for code in 0..256u16 {
        let byte = code as u8;
        if set.has(byte) != (byte == first || byte == second || byte == third) {
            return false;
        }
    }
    true
}

/// The place of the first of three bytes, of which the last ones may be one.
fn find_few(first: u8, second: u8, third: u8, text: &[u8]) -> Option<usize>
    ensures { IsFirstByte (is_byte3 first second third) text.now result }
{
    if second != third {
        return memchr3(first, second, third, text);
    }
    if first != second {
        return memchr2(first, second, text);
    }
    memchr(first, text)
}

/// The place of the first byte of the set.
fn find_member(set: &ByteSet, text: &[u8]) -> Option<usize>
    ensures { IsFirstByte (λ byte. has_byte set.now byte) text.now result }
{
    for (place, byte) in text.iter().enumerate() {
        if set.has(*byte) {
            return Some(place);
        }
    }
    None
}
