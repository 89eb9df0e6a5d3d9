//! Texts that are gathered in memory as they are written.
ghost use Rattle.std.specs.Prelude.{◌≡◌, ◌≤◌, [], vec_len};

use ps_world::{Sink, WorldErr};
use std::alloc::Global;

/// What was written, for a place that takes it whole. It never fails.
pub(crate) struct Gathered {
    bytes: Vec<u8>,
    /// How many of them a flush has sent on.
    sent: usize,
    ghost within: { sent ≤ vec_len bytes },
}

impl Sink for Gathered {
    ghost use Rattle.std.specs.Prelude.{Some, take};
    ghost use Rattle.ps_world.proofs.ToldLemmas.{begins-take};

    ghost taken = { λ text. Some text.bytes.items };

    ghost sent = { λ text. Some (take text.sent text.bytes.items) };

    ghost faults = { λ text. 0 };

    ghost sent_first = { λ text. begins-take text.sent text.bytes.items };

    fn write(&mut self, bytes: &[u8]) -> Result<usize, WorldErr> {
        self.bytes.extend_from_slice(bytes)?;
        Ok(bytes.len())
    }

    fn flush(&mut self) -> Result<(), WorldErr> {
        self.sent = self.bytes.len();
        Ok(())
    }
}

impl Gathered {
    ghost use Rattle.std.specs.Prelude.{Some};

    /// Nothing so far.
    pub(crate) fn new(alloc: Global) -> Gathered
        ensures { ⟦<Gathered as Sink>⟧.taken result ≡ Some [] }
    {
        Gathered {
            bytes: Vec::new(alloc),
            sent: 0,
        }
    }

    /// All of it.
    pub(crate) fn into_bytes(self) -> Vec<u8>
        ensures { Some result.items ≡ ⟦<Gathered as Sink>⟧.taken self }
    {
        let Gathered { bytes, sent: _sent } = self;
        bytes
    }
}
