//! A sink in memory.
ghost use Rattle.std.specs.Prelude.{◌≡◌, ◌≤◌, [], take, vec_len, Some};

use crate::plan::Plan;
use ps_world::{Sink, WorldErr};
use std::alloc::Global;

/// A sink that keeps what it takes.
#[derive(Debug, Drop)]
pub struct MemSink {
    pub(crate) bytes: Vec<u8>,
    pub(crate) flushed: usize,
    pub(crate) most: usize,
    pub(crate) plan: Plan,
    ghost within: { flushed ≤ vec_len bytes },
}

impl Sink for MemSink {
    ghost use Rattle.std.specs.Prelude.{◌<◌, ◌||◌, ◌↔◌, length, take, MatchResult, IfOk, IsErrOf, IsTrue, is_err};
    ghost use Rattle.ps_world.specs.Counts.{Counts};
    ghost use Rattle.ps_world.specs.Told.{then_bytes};
    ghost use Rattle.ps_fakes.specs.Plans.{CountsCall, fails_next};
    ghost use Rattle.ps_fakes.specs.Streams.{taken_by, sent_by, taken_of, is_full};
    ghost use Rattle.ps_world.proofs.ToldLemmas.{begins-take};

    ghost taken = { taken_by };

    ghost sent = { sent_by };

    ghost faults = { λ sink. sink.plan.faults };

    ghost sent_first = { λ sink. begins-take sink.flushed sink.bytes.items };

    /// Fails exactly where it is planned, and where nothing can be taken of a piece that isn't empty.
    fn write(&mut self, bytes: &[u8]) -> Result<usize, WorldErr>
        ensures bound { IfOk result (λ count. count ≤ length bytes.now) }
        ensures some { 0 < length bytes.now → IfOk result (λ count. 0 < count) }
        ensures taken { MatchResult result
            (λ count. taken_by self.new ≡ then_bytes (taken_by self.old) (take count bytes.now))
            (λ _. taken_by self.new ≡ taken_by self.old) }
        ensures sent { sent_by self.new ≡ sent_by self.old }
        ensures cause { Counts self.old.plan.faults self.new.plan.faults result }
        ensures planned { IsErrOf result WorldErr.Failed ↔ IsTrue (fails_next self.old.plan || is_full self.old (length bytes.now)) }
        ensures count { IfOk result (λ count. count ≡ taken_of self.old (length bytes.now)) }
        ensures call { CountsCall self.old.plan self.new.plan }
        ensures most { self.new.most ≡ self.old.most }
    {
        if self.plan.fails_now() {
            return Err(WorldErr::Failed);
        }
        let count = bytes.len().min(self.most);
        if count == 0 && !bytes.is_empty() {
            self.plan.count_fault();
            return Err(WorldErr::Failed);
        }
        self.bytes.extend_from_slice(&bytes[..count])?;
        Ok(count)
    }

    /// Fails exactly where it is planned.
    fn flush(&mut self) -> Result<(), WorldErr>
        ensures taken { taken_by self.new ≡ taken_by self.old }
        ensures sent { MatchResult result (λ _. sent_by self.new ≡ taken_by self.old) (λ _. sent_by self.new ≡ sent_by self.old) }
        ensures cause { Counts self.old.plan.faults self.new.plan.faults result }
        ensures planned { is_err result ≡ fails_next self.old.plan }
        ensures call { CountsCall self.old.plan self.new.plan }
        ensures most { self.new.most ≡ self.old.most }
    {
        if self.plan.fails_now() {
            return Err(WorldErr::Failed);
        }
        self.flushed = self.bytes.len();
        Ok(())
    }
}

impl MemSink {
    ghost use Rattle.ps_fakes.specs.Streams.{NeverFails};

    /// A sink with nothing in it, which takes whole pieces; the calls with the numbers of `fails`, counted from 0 among
    /// writes and flushes together, fail.
    pub fn new(alloc: Global, fails: Vec<u64>) -> MemSink
        ensures taken { ⟦<MemSink as Sink>⟧.taken result ≡ Some [] }
        ensures sent { ⟦<MemSink as Sink>⟧.sent result ≡ Some [] }
        ensures faults { ⟦<MemSink as Sink>⟧.faults result ≡ 0 }
        ensures most { result.most ≡ usize.MAX }
        ensures fails { result.plan.fails ≡ fails }
    {
        MemSink::in_pieces(alloc, usize::MAX, fails)
    }

    /// The same, but a write takes at most `most` bytes. With 0 it takes nothing of a piece that isn't empty, which is a
    /// counted fault.
    pub fn in_pieces(alloc: Global, most: usize, fails: Vec<u64>) -> MemSink
        ensures taken { ⟦<MemSink as Sink>⟧.taken result ≡ Some [] }
        ensures sent { ⟦<MemSink as Sink>⟧.sent result ≡ Some [] }
        ensures faults { ⟦<MemSink as Sink>⟧.faults result ≡ 0 }
        ensures most { result.most ≡ most }
        ensures fails { result.plan.fails ≡ fails }
        ensures calls { result.plan.calls ≡ 0 }
    {
        MemSink {
            bytes: Vec::new(alloc),
            flushed: 0,
            most,
            plan: Plan::new(fails),
        }
    }

    /// A sink that has taken these bytes, and sent them on, before its first call.
    pub(crate) fn behind(alloc: Global, bytes: Vec<u8>) -> MemSink
        ensures taken { ⟦<MemSink as Sink>⟧.taken result ≡ Some bytes.items }
        ensures sent { ⟦<MemSink as Sink>⟧.sent result ≡ Some bytes.items }
        ensures faults { ⟦<MemSink as Sink>⟧.faults result ≡ 0 }
        ensures whole { NeverFails result }
        ensures calls { result.plan.calls ≡ 0 }
    {
        let flushed = bytes.len();
        MemSink {
            bytes,
            flushed,
            most: usize::MAX,
            plan: Plan::new(Vec::new(alloc)),
        }
    }

    /// What it has sent on, alone.
    pub(crate) fn into_sent(self) -> Vec<u8>
        ensures { Some result.items ≡ ⟦<MemSink as Sink>⟧.sent self }
    {
        let mut bytes = self.bytes;
        bytes.truncate(self.flushed);
        bytes
    }

    /// All that it has taken.
    pub fn taken(&self) -> &[u8]
        ensures { ⟦<MemSink as Sink>⟧.taken self.now ≡ Some result.now }
    {
        self.bytes.as_slice()
    }

    /// What of it a flush has sent on.
    pub fn sent(&self) -> &[u8]
        ensures { ⟦<MemSink as Sink>⟧.sent self.now ≡ Some result.now }
    {
        &self.bytes[..self.flushed]
    }

    /// How many of its calls have failed.
    pub fn faults(&self) -> u64
        ensures { result ≡ ⟦<MemSink as Sink>⟧.faults self.now }
    {
        self.plan.faults
    }
}
