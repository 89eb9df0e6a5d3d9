//! Sources over the machine's readers.
ghost use Rattle.std.specs.Prelude.{◌≡◌, ◌≢◌, ◌<◌, ◌≤◌, ◌^◌, ◌↔◌, None, Err, IfOk, IsTrue};
ghost use Rattle.ps_world.specs.Counts.{Counts, one_more};

use ps_world::{Source, WorldErr};
use std::io::{Read, Stdin};

/// The most bytes that a source gives.
const MOST_GIVEN: u64 = 1 << 40;

/// A reader of the machine's, with the counts that a source keeps.
#[derive(Drop)]
pub struct Reading<R> {
    reader: R,
    given: u64,
    faults: u64,
    ghost within: { given ≤ 2 ^ 40 },
}

/// Standard input.
pub type RealInput = Reading<Stdin>;

impl RealInput {
    /// Standard input, from where it stands.
    pub fn new(rt: &HostRuntime) -> RealInput
        ensures { (result.given ≡ 0) × (result.faults ≡ 0) }
    {
        Reading::over(rt.stdin())
    }
}

impl<R> Reading<R> {
    /// A source of what the reader gives from here on.
    pub fn over(reader: R) -> Reading<R>
        ensures { (result.given ≡ 0) × (result.faults ≡ 0) }
    {
        Reading {
            reader,
            given: 0,
            faults: 0,
        }
    }

    /// Whether a call has failed.
    pub fn has_failed(&self) -> bool
        ensures { IsTrue result ↔ (0 < self.now.faults) }
    {
        self.faults > 0
    }

    /// Counts a failure.
    fn fail(&mut self) -> WorldErr
        ensures failed { result ≡ WorldErr.Failed }
        ensures counted { self.new.faults ≡ one_more self.old.faults }
        ensures later { self.old.faults ≤ self.new.faults }
        ensures given { self.new.given ≡ self.old.given }
    {
        self.faults = self.faults.saturating_add(1);
        WorldErr::Failed
    }
}

impl<R: Read> Reading<R> {
    /// A reader that has given all that it may is at its end, or fails.
    fn read_past(&mut self) -> Result<usize, WorldErr>
        ensures end { IfOk result (λ count. count ≡ 0) }
        ensures given { self.new.given ≡ self.old.given }
        ensures cause { Counts self.old.faults self.new.faults result }
        ensures no_memory { result ≢ Err WorldErr.Memory }
    {
        let mut byte = [0u8; 1];
        match self.reader.read(&mut byte) {
            Ok(0) => Ok(0),
            _ => Err(self.fail()),
        }
    }
}

impl<R: Read> Source for Reading<R> {
    ghost left = { λ _. None };

    ghost given = { λ reading. reading.given };

    ghost faults = { λ reading. reading.faults };

    fn read(&mut self, buf: &mut [u8]) -> Result<usize, WorldErr> {
        if buf.is_empty() {
            return Ok(0);
        }
        if self.given == MOST_GIVEN {
            return self.read_past();
        }
        let room = buf.len().min((MOST_GIVEN - self.given) as usize);
        match self.reader.read(&mut buf[..room]) {
            Ok(count) => {
                self.given += count as u64;
                Ok(count)
            }
            Err(_) => Err(self.fail()),
        }
    }
}
