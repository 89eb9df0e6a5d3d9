//! Searches for places from which on bytes stand that an expression begins with.
ghost use Rattle.std.specs.Prelude.{◌≡◌, ◌+◌, ◌<◌, ◌≤◌, ℕ, true, length, slice_index_or, IfSome};
ghost use Rattle.memchr.specs.Find.{Nowhere};
ghost use Rattle.ut_regex.specs.declared.tree.Leaf.TheVariants.{Any};
ghost use Rattle.ut_regex.specs.Inner.Fronts.{FitAt};
ghost use Rattle.ut_regex.specs.Inner.Lanes.{Covers, HasLanes, least};

use crate::front::Front;
use crate::lanes::{ByteTest, LANES, either, lesser, load, zero_lanes};
use crate::tree::Leaf;
use std::simd::prelude::*;

/// The places that are tested at a time.
const BLOCK: usize = 64;

/// The bytes that a test of so many places reads.
const ROOM: usize = BLOCK + 3;

/// A search for places from which on bytes fit some leaves, of which it tests the first four. Where there are fewer, any byte passes the
/// other tests.
#[derive(Drop)]
pub(crate) struct FrontSearch {
    pub leaves: Vec<Leaf>,
    pub fold: bool,
    first: ByteTest,
    second: ByteTest,
    third: ByteTest,
    fourth: ByteTest,
    ghost first_covers: { Covers first.lower fold (slice_index_or leaves.items 0 Any) },
    ghost second_covers: { Covers second.lower fold (slice_index_or leaves.items 1 Any) },
    ghost third_covers: { Covers third.lower fold (slice_index_or leaves.items 2 Any) },
    ghost fourth_covers: { Covers fourth.lower fold (slice_index_or leaves.items 3 Any) },
}

impl FrontSearch {
    /// A search for what an expression begins with, if that is known.
    pub(crate) fn of(front: Front, fold: bool) -> Option<FrontSearch>
        ensures leaves { IfSome result (λ search. search.leaves.items ≡ front.leaves.items) }
        ensures fold { IfSome result (λ search. search.fold ≡ fold) }
        ensures some { IfSome result (λ search. 0 < length search.leaves.items) }
    {
        if front.leaves.is_empty() {
            return None;
        }
        let first = ByteTest::of(leaf_at(&front.leaves, 0), fold)?;
        let second = ByteTest::of(leaf_at(&front.leaves, 1), fold)?;
        let third = ByteTest::of(leaf_at(&front.leaves, 2), fold)?;
        let fourth = ByteTest::of(leaf_at(&front.leaves, 3), fold)?;
        Some(FrontSearch {
            leaves: front.leaves,
            fold,
            first,
            second,
            third,
            fourth,
        })
    }

    /// A place of the text before which there is none. The last places aren't looked at: the first of them is told.
    pub(crate) fn first_place(&self, text: &[u8]) -> usize
        ensures within { result ≤ length text.now }
        ensures first { Nowhere (FitAt self.now.fold text.now self.now.leaves.items) 0 result }
    {
        let mut place = 0;
        while text.len() - place >= ROOM {
            if self.passes_over(text, place) {
                place += BLOCK;
                continue;
            }
            let count = zero_lanes(self.least_lanes(text, place));
            if count < LANES {
                return place + count;
            }
            place += LANES;
        }
        place
    }

    /// Whether the bytes fit at none of so many places.
    #[inline(always)]
    fn passes_over(&self, text: &[u8], place: usize) -> bool
        requires { place + 67 ≤ length text.now }
        ensures { result ≡ true → (later : ℕ) → place ≤ later → later < place + 64
            → least self.now.first.lower self.now.second.lower self.now.third.lower self.now.fourth.lower text.now later ≡ 0 }
    {
        let first = self.least_lanes(text, place);
        let second = self.least_lanes(text, place + 16);
        let third = self.least_lanes(text, place + 32);
        let fourth = self.least_lanes(text, place + 48);
        let front = either(first, second);
        let back = either(third, fourth);
        zero_lanes(either(front, back)) == LANES
    }

    /// For each of 16 places the least of what the four tests tell from there on: 0 where the bytes don't fit.
    #[inline(always)]
    fn least_lanes(&self, text: &[u8], place: usize) -> u8x16
        requires { place + 19 ≤ length text.now }
        ensures { HasLanes result (λ lane. least self.now.first.lower self.now.second.lower self.now.third.lower self.now.fourth.lower text.now (place + lane)) }
    {
        let first = self.first.lanes(load(text, place));
        let second = self.second.lanes(load(text, place + 1));
        let third = self.third.lanes(load(text, place + 2));
        let fourth = self.fourth.lanes(load(text, place + 3));
        let front = lesser(first, second);
        let back = lesser(third, fourth);
        lesser(front, back)
    }
}

/// The leaf at a place, and behind the last one such that any byte fits.
fn leaf_at(leaves: &[Leaf], place: usize) -> Leaf
    ensures { result ≡ slice_index_or leaves.now place Any }
{
    match leaves.get(place) {
        Some(one) => *one,
        None => Leaf::Any,
    }
}
