//! Sinks over the machine's writers.
ghost use Rattle.std.specs.Prelude.{◌≡◌, ◌<◌, ◌≤◌, ◌↔◌, None, IsTrue};
ghost use Rattle.ps_world.specs.Counts.{one_more};

use ps_world::{Sink, WorldErr};
use std::io::{Stderr, Stdout, Write};

/// A writer of the machine's, with the count that a sink keeps.
#[derive(Drop)]
pub struct Writing<W> {
    writer: W,
    faults: u64,
}

/// Standard output.
pub type RealOutput = Writing<Stdout>;

/// Standard error.
pub type RealError = Writing<Stderr>;

impl RealOutput {
    /// Standard output.
    pub fn new(rt: &HostRuntime) -> RealOutput
        ensures { result.faults ≡ 0 }
    {
        Writing::over(rt.stdout())
    }
}

impl RealError {
    /// Standard error.
    pub fn new(rt: &HostRuntime) -> RealError
        ensures { result.faults ≡ 0 }
    {
        Writing::over(rt.stderr())
    }
}

impl<W> Writing<W> {
    /// A sink of what goes to the writer.
    pub fn over(writer: W) -> Writing<W>
        ensures { result.faults ≡ 0 }
    {
        Writing { writer, faults: 0 }
    }

    /// Whether a call has failed.
    pub fn has_failed(&self) -> bool
        ensures { IsTrue result ↔ (0 < self.now.faults) }
    {
        self.faults > 0
    }

    /// Counts a failure.
    fn fail(&mut self) -> WorldErr
        ensures failed { result ≡ WorldErr.Failed }
        ensures counted { self.new.faults ≡ one_more self.old.faults }
        ensures later { self.old.faults ≤ self.new.faults }
    {
        self.faults = self.faults.saturating_add(1);
        WorldErr::Failed
    }
}

impl<W: Write> Sink for Writing<W> {
    ghost taken = { λ _. None };

    ghost sent = { λ _. None };

    ghost faults = { λ writing. writing.faults };

    fn write(&mut self, bytes: &[u8]) -> Result<usize, WorldErr> {
        match self.writer.write(bytes) {
            Ok(0) if !bytes.is_empty() => Err(self.fail()),
            Ok(count) => Ok(count),
            Err(_) => Err(self.fail()),
        }
    }

    fn flush(&mut self) -> Result<(), WorldErr> {
        match self.writer.flush() {
            Ok(()) => Ok(()),
            Err(_) => Err(self.fail()),
        }
    }

    ghost sent_first = { λ _. tt };
}
