//! A source in memory.
ghost use Rattle.std.specs.Prelude.{◌≡◌, ◌+◌, ◌-◌, ◌^◌, ◌≤◌, ◌++◌, drop, take, length, min, vec_len, Some};

use crate::plan::Plan;
use ps_world::{Source, WorldErr};

/// The most bytes that a source gives.
const MOST_GIVEN: usize = 1 << 40;

/// A source of the bytes that it was made with.
#[derive(Debug, Drop)]
pub struct MemSource {
    pub(crate) bytes: Vec<u8>,
    pub(crate) at: usize,
    pub(crate) most: usize,
    pub(crate) plan: Plan,
    ghost within: { at ≤ vec_len bytes },
    ghost bounded: { at ≤ 2 ^ 40 },
}

impl Source for MemSource {
    ghost use Rattle.std.specs.Prelude.{◌≢◌, ◌<◌, ◌||◌, ◌&&◌, [], Ok, Err, MatchResult, IfOk, is_err, not, nat_eq};
    ghost use Rattle.std.specs.Option.{option_map};
    ghost use Rattle.ps_world.specs.Counts.{Counts};
    ghost use Rattle.ps_world.specs.Told.{bytes_then};
    ghost use Rattle.ps_fakes.specs.Plans.{CountsCall, fails_next};
    ghost use Rattle.ps_fakes.specs.Streams.{left_of, given_into, is_stuck};

    ghost left = { left_of };

    ghost given = { λ source. source.at };

    ghost faults = { λ source. source.plan.faults };

    /// Fails exactly where it is planned, and where nothing can be given though bytes are left; but an empty buffer is answered
    /// with 0, and that call is counted.
    fn read(&mut self, buf: &mut [u8]) -> Result<usize, WorldErr>
        ensures bound { IfOk result (λ count. count ≤ length buf.new) }
        ensures bytes { MatchResult result
            (λ count. left_of self.old ≡ bytes_then (take count buf.new) (left_of self.new))
            (λ _. left_of self.new ≡ left_of self.old) }
        ensures end { result ≡ Ok 0 → 0 < length buf.new → left_of self.old ≡ option_map (λ _. []) (left_of self.old) }
        ensures empty { length buf.old ≡ 0 → result ≡ Ok 0 }
        ensures given { MatchResult result (λ count. self.new.at ≡ self.old.at + count) (λ _. self.new.at ≡ self.old.at) }
        ensures within { self.new.at ≤ 2 ^ 40 }
        ensures cause { Counts self.old.plan.faults self.new.plan.faults result }
        ensures no_memory { result ≢ Err WorldErr.Memory }
        ensures planned { is_err result ≡ (not (nat_eq (length buf.old) 0) && (fails_next self.old.plan || is_stuck self.old (length buf.old))) }
        ensures count { IfOk result (λ count. count ≡ given_into self.old (length buf.old)) }
        ensures call { CountsCall self.old.plan self.new.plan }
        ensures held { self.new.bytes ≡ self.old.bytes }
        ensures most { self.new.most ≡ self.old.most }
    {
        if buf.is_empty() {
            self.plan.count_call();
            return Ok(0);
        }
        if self.plan.fails_now() {
            return Err(WorldErr::Failed);
        }
        let count = self.ready(buf.len());
        if count == 0 && self.at < self.bytes.len() {
            self.plan.count_fault();
            return Err(WorldErr::Failed);
        }
        self.give(buf, count);
        Ok(count)
    }
}

impl MemSource {
    /// A source of these bytes, whose reads with the numbers of `fails`, counted from 0, fail.
    pub fn new(bytes: Vec<u8>, fails: Vec<u64>) -> MemSource
        ensures left { ⟦<MemSource as Source>⟧.left result ≡ Some bytes.items }
        ensures given { ⟦<MemSource as Source>⟧.given result ≡ 0 }
        ensures faults { ⟦<MemSource as Source>⟧.faults result ≡ 0 }
        ensures bytes { result.bytes ≡ bytes }
        ensures most { result.most ≡ usize.MAX }
        ensures fails { result.plan.fails ≡ fails }
    {
        MemSource::in_pieces(bytes, usize::MAX, fails)
    }

    /// The same, but a read gives at most `most` bytes. With 0 it gives nothing though bytes are left, which is a counted
    /// fault.
    pub fn in_pieces(bytes: Vec<u8>, most: usize, fails: Vec<u64>) -> MemSource
        ensures left { ⟦<MemSource as Source>⟧.left result ≡ Some bytes.items }
        ensures given { ⟦<MemSource as Source>⟧.given result ≡ 0 }
        ensures faults { ⟦<MemSource as Source>⟧.faults result ≡ 0 }
        ensures bytes { result.bytes ≡ bytes }
        ensures most { result.most ≡ most }
        ensures fails { result.plan.fails ≡ fails }
        ensures calls { result.plan.calls ≡ 0 }
    {
        MemSource {
            bytes,
            at: 0,
            most,
            plan: Plan::new(fails),
        }
    }

    /// From now on each read waits first, as long as this seed gives.
    pub fn delay(&mut self, seed: u64)
        ensures plan { self.new.plan ≡ record self.old.plan { seed = Some seed } }
        ensures bytes { self.new.bytes ≡ self.old.bytes }
        ensures at { self.new.at ≡ self.old.at }
        ensures most { self.new.most ≡ self.old.most }
    {
        self.plan.delay(seed);
    }

    /// How many of its reads have failed.
    pub fn faults(&self) -> u64
        ensures { result ≡ ⟦<MemSource as Source>⟧.faults self.now }
    {
        self.plan.faults
    }

    /// How many bytes a read gives into so much room.
    fn ready(&self, room: usize) -> usize
        ensures { result ≡ min (min room self.now.most) (min (vec_len self.now.bytes - self.now.at) (2 ^ 40 - self.now.at)) }
    {
        let left = self.bytes.len() - self.at;
        room.min(self.most).min(left.min(MOST_GIVEN - self.at))
    }

    /// Gives the next bytes into the front of `buf`.
    fn give(&mut self, buf: &mut [u8], count: usize)
        requires room { count ≤ length buf.old }
        requires left { self.old.at + count ≤ vec_len self.old.bytes }
        requires bounded { self.old.at + count ≤ 2 ^ 40 }
        ensures given { drop self.old.at self.old.bytes.items ≡ take count buf.new ++ drop self.new.at self.new.bytes.items }
        ensures at { self.new.at ≡ self.old.at + count }
        ensures bytes { self.new.bytes ≡ self.old.bytes }
        ensures most { self.new.most ≡ self.old.most }
        ensures plan { self.new.plan ≡ self.old.plan }
    {
        let end = self.at + count;
        copy_front(buf, &self.bytes[self.at..end]);
        self.at = end;
    }
}

/// Copies a piece into the front of a buffer.
fn copy_front(buffer: &mut [u8], piece: &[u8])
    requires { length piece.now ≤ length buffer.old }
    ensures { take (length piece.now) buffer.new ≡ piece.now }
{
    let (front, _) = buffer.split_at_mut(piece.len());
    front.copy_from_slice(piece);
}
