//! Searches for bytes with letters in either case.
ghost use Rattle.std.specs.Prelude.{◌≡◌, ◌+◌, ◌<◌, ◌≤◌, true, false, length};
ghost use Rattle.memchr.specs.Find.{Nowhere};
ghost use Rattle.ut_regex.specs.Inner.Literals.{StandsAt};

use crate::program::{fits, other_case};
use crate::tree::Leaf;
use memchr::arch::all::packedpair::{DefaultFrequencyRank, HeuristicFrequencyRank};
use memchr::memchr2;

/// A search for bytes with letters in either case, which looks for one of the bytes first.
#[derive(Drop)]
pub(crate) struct Folded {
    pub bytes: Vec<u8>,
    /// The place among the bytes of the one that is looked for first.
    pub rare: usize,
    ghost within: { rare < length bytes.items },
}

impl Folded {
    /// A search for these bytes.
    pub(crate) fn of(bytes: Vec<u8>) -> Folded
        requires { 0 < length bytes.items }
        ensures { result.bytes.items ≡ bytes.items }
    {
        let rare = rarest(&bytes);
        Folded { bytes, rare }
    }

    /// The first place in the text where the bytes stand, or the text's length.
    pub(crate) fn first_place(&self, text: &[u8]) -> usize
        ensures within { result ≤ length text.now }
        ensures first { Nowhere (StandsAt true text.now self.now.bytes.items) 0 result }
        ensures stands { result < length text.now → StandsAt true text.now self.now.bytes.items result }
    {
        let byte = self.bytes[self.rare];
        let other = other_case(byte);
        let mut from = self.rare;
        while from < text.len() {
            let Some(offset) = memchr2(byte, other, &text[from..]) else {
                return text.len();
            };
            let place = from + offset - self.rare;
            if text.len() - place < self.bytes.len() {
                return text.len();
            }
            if stands_at(text, place, &self.bytes) {
                return place;
            }
            from += offset + 1;
        }
        text.len()
    }
}

/// Whether the bytes stand in the text from a place on, with letters in either case. Words that begin alike are told apart by their
/// last byte, so it is compared first.
fn stands_at(text: &[u8], place: usize, bytes: &[u8]) -> bool
    requires room { place + length bytes.now ≤ length text.now }
    requires some { 0 < length bytes.now }
    ensures stands { result ≡ true → StandsAt true text.now bytes.now place }
    ensures lacks { result ≡ false → ¬ StandsAt true text.now bytes.now place }
{
    let last = bytes.len() - 1;
    if !fits(Leaf::Byte(bytes[last]), true, text[place + last]) {
        return false;
    }
    for (offset, byte) in bytes.iter().enumerate() {
        if !fits(Leaf::Byte(*byte), true, text[place + offset]) {
            return false;
        }
    }
    true
}

/// The place of a byte that is believed to be rare in either case.
fn rarest(bytes: &[u8]) -> usize
    requires { 0 < length bytes.now }
    ensures { result < length bytes.now }
{
    let mut rare = 0;
    let mut least = u8::MAX;
    for (place, byte) in bytes.iter().enumerate() {
        let rank = rank_of(*byte);
        if rank < least {
            rare = place;
            least = rank;
        }
    }
    rare
}

/// How common a byte is believed to be in either case.
fn rank_of(byte: u8) -> u8 {
    let ranks = DefaultFrequencyRank;
    let own = ranks.rank(byte);
    let other = ranks.rank(other_case(byte));
    if own < other { other } else { own }
}
