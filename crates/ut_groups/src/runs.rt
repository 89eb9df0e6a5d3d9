//! Runs of lines that are equal byte for byte.
ghost use Rattle.std.specs.Prelude.{◌≡◌, ◌<◌, ◌≤◌, ◌+◌, ◌*◌, ◌==◌, true, false, length, take, IfNone, IfSome, if◌then◌else◌};
ghost use Rattle.std.specs.Int.{trailing_zeros};
ghost use mir.Syntax.{w64};
ghost use Rattle.ps_lines.specs.Lines.{has_newline, is_closed};
ghost use Rattle.ut_groups.specs.Inner.Runs.{BeginsWithRun, common as common_def};

use crate::forms::Group;
use ps_lines::cut_line;
use std::simd::prelude::*;

/// A run of equal lines, with what stands behind the first and behind the last of them.
#[derive(Clone, Copy)]
pub(crate) struct Run<'t> {
    pub(crate) group: Group<'t>,
    pub(crate) behind_first: &'t [u8],
    pub(crate) behind: &'t [u8],
}

/// The longest run of equal lines that a closed text begins with.
///
/// A run of lines is the same text as itself one line on. So both are compared as texts, and only its first line is cut.
#[inline]
#[tactic(auto, using(crate::proofs::CommonLemmas::fronts))]
pub(crate) fn first_run(text: &[u8]) -> Option<Run<'_>>
    requires { is_closed text.now ≡ true }
    ensures run { IfSome result (λ run. BeginsWithRun text.now run.group.first.now run.group.count run.behind_first.now run.behind.now) }
    ensures none { IfNone result (has_newline text.now ≡ false) }
    ensures shorter { IfSome result (λ run. length run.behind.now < length text.now) }
{
    let (line, behind_first) = cut_line(text)?;
    let size = line.len() + 1;
    let repeats = times(size, common(behind_first, text));
    let (_, behind) = behind_first.split_at(repeats * size);
    Some(Run {
        group: Group {
            first: line,
            count: 1 + repeats as u64,
        },
        behind_first,
        behind,
    })
}

/// How often the size goes into a count. Most lines differ from the next one, and cost no division.
#[inline(always)]
#[tactic(auto, using(crate::proofs::CommonLemmas::sizes))]
fn times(size: usize, count: usize) -> usize
    requires { 0 < size }
    ensures low { result * size ≤ count }
    ensures high { count < (result + 1) * size }
    ensures few { result ≤ count }
{
    if count < size {
        return 0;
    }
    count / size
}

/// How many bytes two texts begin with in common.
///
/// Lines that differ do so soon, as a rule; those that are equal may go on to the end of the text.
#[inline]
#[tactic(auto, using(crate::proofs::CommonLemmas::cuts))]
fn common(one: &[u8], other: &[u8]) -> usize
    requires { length one.now ≤ length other.now }
    ensures { result ≡ common_def one.now other.now }
{
    if one.len() < 16 {
        return common_bytes(one, other);
    }
    let count = common_among_16(one, other);
    if count < 16 {
        return count;
    }
    let (_, one) = one.split_at(16);
    let (_, other) = other.split_at(16);
    16 + common_blocks(one, other)
}

/// The same, by blocks of 64 bytes.
#[tactic(auto, using(crate::proofs::CommonLemmas::cuts))]
fn common_blocks(one: &[u8], other: &[u8]) -> usize
    requires { length one.now ≤ length other.now }
    ensures { result ≡ common_def one.now other.now }
{
    let mut passed = 0;
    let mut rest = one;
    let mut others = other;
    while 64 <= rest.len() {
        let count = common_among_64(rest, others);
        if count < 64 {
            return passed + count;
        }
        passed += 64;
        let (_, behind) = rest.split_at(64);
        let (_, others_behind) = others.split_at(64);
        rest = behind;
        others = others_behind;
    }
    passed + common_bytes(rest, others)
}

/// The same, byte by byte.
#[tactic(auto, using(crate::proofs::CommonLemmas::bytes))]
fn common_bytes(one: &[u8], other: &[u8]) -> usize
    ensures { result ≡ common_def one.now other.now }
{
    let mut count = 0;
    let mut rest = one;
    let mut others = other;
    while let ([byte, behind @ ..], [first, others_behind @ ..]) = (rest, others) {
        if *byte != *first {
            break;
        }
        count += 1;
        rest = behind;
        others = others_behind;
    }
    count
}

/// How many of the first 16 bytes are the same.
#[inline(always)]
fn common_among_16(one: &[u8], other: &[u8]) -> usize
    requires one { 16 ≤ length one.now }
    requires other { 16 ≤ length other.now }
    ensures { result ≡ common_def (take 16 one.now) (take 16 other.now) }
{
    lowest_or(
        16,
        u8x16::from_slice(one)
            .simd_ne(u8x16::from_slice(other))
            .to_bitmask(),
    )
}

/// How many of the first 64 bytes are the same.
#[inline(always)]
fn common_among_64(one: &[u8], other: &[u8]) -> usize
    requires one { 64 ≤ length one.now }
    requires other { 64 ≤ length other.now }
    ensures { result ≡ common_def (take 64 one.now) (take 64 other.now) }
{
    lowest_or(
        64,
        u8x64::from_slice(one)
            .simd_ne(u8x64::from_slice(other))
            .to_bitmask(),
    )
}

/// The place of the lowest bit that is set, or this number where none is.
#[inline(always)]
fn lowest_or(none: usize, bits: u64) -> usize
    ensures { result ≡ (if bits == 0 then none else trailing_zeros w64 bits) }
{
    if bits == 0 {
        none
    } else {
        bits.trailing_zeros() as usize
    }
}
