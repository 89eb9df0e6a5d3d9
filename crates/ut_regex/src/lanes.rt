//! Tests of 16 bytes at a time.
ghost use Rattle.std.specs.Prelude.{◌≡◌, ◌+◌, ◌/◌, ◌%◌, ◌<◌, ◌≤◌, ℕ, true, length, slice_index, IfSome, bit_or};
ghost use Rattle.ut_regex.specs.Inner.Lanes.{Covers, HasLanes, lesser, shared};

use crate::program::fits;
use crate::tree::Leaf;
use std::simd::prelude::*;

/// The lanes of a vector.
pub(crate) const LANES: usize = 16;

/// A bit for each upper half of a byte. Those of the bytes above 127 are those of bytes below.
const UPPER: [u8; 16] = [1, 2, 4, 8, 16, 32, 64, 128, 1, 2, 4, 8, 16, 32, 64, 128];

/// A test of a byte by its halves: the entry of the lower half has the bits of the upper halves with which a byte passes.
#[derive(Clone, Copy, Drop)]
pub(crate) struct ByteTest {
    pub lower: [u8; 16],
}

impl ByteTest {
    /// A test that each byte passes that fits the leaf, and perhaps others above 127.
    pub(crate) fn of(one: Leaf, fold: bool) -> Option<ByteTest>
        ensures { IfSome result (λ test. Covers test.lower fold one) }
    {
        let test = ByteTest {
            lower: lower_halves_of(one, fold),
        };
        // It isn't proved that these bits are right, so that is asked.
        if test.covers(one, fold) {
            return Some(test);
        }
        None
    }

    /// Whether each byte that fits the leaf passes.
    fn covers(&self, one: Leaf, fold: bool) -> bool
        ensures { result ≡ true → Covers self.now.lower fold one }
    {
        for code in 0..256u16 {
            let byte = code as u8;
            if fits(one, fold, byte) && !self.passes(byte) {
                return false;
            }
        }
        true
    }

    /// Whether a byte passes.
    fn passes(&self, byte: u8) -> bool
        ensures { result ≡ true → 0 < shared self.now.lower byte }
    {
        self.lower[(byte % 16) as usize] & UPPER[(byte / 16) as usize] > 0
    }

    /// What the halves of each byte share: more than 0 where it passes.
    #[inline(always)]
    pub(crate) fn lanes(&self, bytes: u8x16) -> u8x16
        ensures { HasLanes result (λ lane. shared self.now.lower (slice_index bytes lane)) }
    {
        look_up(&self.lower, lower_halves(bytes)) & look_up(&UPPER, upper_halves(bytes))
    }
}

/// The bits with which bytes pass that fit the leaf.
fn lower_halves_of(one: Leaf, fold: bool) -> [u8; 16] {
    let mut lower = [0; 16];
    for code in 0..256u16 {
        let byte = code as u8;
        if fits(one, fold, byte) {
            lower[(byte % 16) as usize] |= UPPER[(byte / 16) as usize];
        }
    }
    lower
}

/// 16 bytes of a text from a place on.
#[inline(always)]
pub(crate) fn load(text: &[u8], place: usize) -> u8x16
    requires { place + 16 ≤ length text.now }
    ensures { HasLanes result (λ lane. slice_index text.now (place + lane)) }
{
    u8x16::from_slice(&text[place..])
}

/// The lower half of each byte.
#[inline(always)]
fn lower_halves(bytes: u8x16) -> u8x16
    ensures { HasLanes result (λ lane. slice_index bytes lane % 16) }
{
    bytes & u8x16::splat(15)
}

/// The upper half of each byte.
#[inline(always)]
fn upper_halves(bytes: u8x16) -> u8x16
    ensures { HasLanes result (λ lane. slice_index bytes lane / 16) }
{
    bytes >> u8x16::splat(4)
}

/// The entries of a table at these places.
#[inline(always)]
fn look_up(table: &[u8; 16], places: u8x16) -> u8x16
    requires { (lane : ℕ) → lane < 16 → slice_index places lane < 16 }
    ensures { HasLanes result (λ lane. slice_index table.now (slice_index places lane)) }
{
    u8x16::from_array(*table).swizzle_dyn_within::<16>(places)
}

/// The lesser of two values in each lane.
#[inline(always)]
pub(crate) fn lesser(first: u8x16, second: u8x16) -> u8x16
    ensures { HasLanes result (λ lane. lesser (slice_index first lane) (slice_index second lane)) }
{
    first.simd_min(second)
}

/// The bits of two values in each lane.
#[inline(always)]
pub(crate) fn either(first: u8x16, second: u8x16) -> u8x16
    ensures { HasLanes result (λ lane. bit_or (slice_index first lane) (slice_index second lane)) }
{
    first | second
}

/// How many lanes stand before the first that isn't 0.
#[inline(always)]
pub(crate) fn zero_lanes(lanes: u8x16) -> usize
    ensures within { result ≤ 16 }
    ensures zero { (lane : ℕ) → lane < result → slice_index lanes lane ≡ 0 }
{
    let bits = lanes.simd_ge(u8x16::splat(1)).to_bitmask();
    if bits == 0 {
        return LANES;
    }
    bits.trailing_zeros() as usize
}
