//! Counts of 64 bits.
ghost use Rattle.std.specs.Prelude.{◌≡◌, ◌+◌, ◌≤◌, length};
ghost use Rattle.ut_groups.specs.Counting.{added, is_word as is_word_def, newlines as newlines_def, saturated, saturated_counts, word_begins as word_begins_def, words_behind};
ghost use Rattle.ut_groups.specs.Inner.Columns.{last_behind};

use ps_lines::{Class, NEWLINE};

/// The byte between the counts of a line.
pub(crate) const SPACE: u8 = b' ';

/// How many newlines, words and bytes there are.
#[derive(Clone, Copy, Debug, Default, PartialEq, Eq)]
pub struct Counts {
    pub lines: u64,
    pub words: u64,
    pub bytes: u64,
}

/// The sum of two counts, or 2^64-1 where it is more.
pub fn add_sat(one: u64, other: u64) -> u64
    ensures { result ≡ saturated (one + other) }
{
    one.saturating_add(other)
}

/// The sums of three counts each, each at most 2^64-1.
pub fn add_counts(one: Counts, other: Counts) -> Counts
    ensures { result ≡ saturated_counts (added one other) }
{
    Counts {
        lines: add_sat(one.lines, other.lines),
        words: add_sat(one.words, other.words),
        bytes: add_sat(one.bytes, other.bytes),
    }
}

/// How many bytes are counted in one byte: fewer than 256, and a whole number of the processor's vectors.
const BLOCK: usize = 192;

/// How many newlines the text has.
#[tactic(auto, using(crate::proofs::CountingLemmas::blocks))]
pub(crate) fn newlines(text: &[u8]) -> usize
    ensures { result ≡ newlines_def text.now }
{
    let mut count = 0;
    let mut rest = text;
    while BLOCK <= rest.len() {
        let (block, after) = rest.split_at(BLOCK);
        count += usize::from(newlines_of_block(block));
        rest = after;
    }
    count + usize::from(newlines_of_block(rest))
}

/// The same for at most 192 bytes. The count is a byte, so that each lane of a vector keeps one.
#[tactic(auto, using(crate::proofs::CountingLemmas::blocks))]
fn newlines_of_block(block: &[u8]) -> u8
    requires { length block.now ≤ BLOCK }
    ensures { result ≡ newlines_def block.now }
{
    let mut count = 0;
    for byte in block {
        count += u8::from(*byte == NEWLINE);
    }
    count
}

/// How many words begin in the text, which stands behind a byte.
#[tactic(auto, using(crate::proofs::CountingLemmas::word_blocks))]
pub(crate) fn words(before: u8, text: &[u8]) -> usize
    ensures { result ≡ words_behind before text.now }
{
    let mut count = 0;
    let mut last = before;
    let mut rest = text;
    while BLOCK <= rest.len() {
        let (block, after) = rest.split_at(BLOCK);
        count += usize::from(words_of_block(last, block));
        last = last_byte(last, block);
        rest = after;
    }
    count + usize::from(words_of_block(last, rest))
}

/// The same for at most 192 bytes.
#[tactic(auto, using(crate::proofs::CountingLemmas::word_bytes))]
fn words_of_block(before: u8, block: &[u8]) -> u8
    requires { length block.now ≤ BLOCK }
    ensures { result ≡ words_behind before block.now }
{
    let mut count = 0;
    let mut last = before;
    for byte in block {
        count += word_begins(last, *byte);
        last = *byte;
    }
    count
}

/// How many words begin at a byte behind another: one or none.
#[inline(always)]
fn word_begins(before: u8, byte: u8) -> u8
    ensures { result ≡ word_begins_def before byte }
{
    u8::from(is_word(byte) && !is_word(before))
}

/// Whether the byte stands in words.
#[inline(always)]
fn is_word(byte: u8) -> bool
    ensures { result ≡ is_word_def byte }
{
    !Class::Space.has(byte)
}

/// The last byte of a text, or the one before it where it is empty.
#[tactic(auto, using(crate::proofs::CountingLemmas::last_bytes))]
pub(crate) fn last_byte(before: u8, text: &[u8]) -> u8
    ensures { result ≡ last_behind before text.now }
{
    match text.last() {
        Some(byte) => *byte,
        None => before,
    }
}
