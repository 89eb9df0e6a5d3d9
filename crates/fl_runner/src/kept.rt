//! Ends that may not be dropped, on their way through threads.
//!
//! What a thread gives back has to be of a type that may be dropped, since its handle may be. The readers and writers of a tree aren't: each goes
//! back to the tree. So an end is kept in a value that may be dropped, and whoever drops that waits for good, with the end. No code here drops one.
ghost use Rattle.std.specs.Prelude.{◌≡◌};

use ps_world::{Sink, Source, WorldErr};
use std::marker::Model;
use std::sync::Wait;

/// An end that may not be dropped. Contracts see it as the end.
pub(crate) struct Kept<'a, End, H: Wait> {
    end: End,
    rt: &'a H,
}

impl<'a, End, H: Wait> Model for Kept<'a, End, H> {
    ghost Value = { End };

    ghost view = { λ kept. kept.end };
}

impl<'a, End, H: Wait> Kept<'a, End, H> {
    pub(crate) fn new(rt: &'a H, end: End) -> Kept<'a, End, H>
        ensures { result ≡ end }
    {
        Kept { end, rt }
    }

    /// The end.
    pub(crate) fn into_end(self) -> End
        ensures { result ≡ self.entry }
    {
        let Self { end, rt: _ } = self;
        end
    }
}

impl<'a, End, H: Wait> Drop for Kept<'a, End, H> {
    fn drop(self) {
        let Self { end, rt } = self;
        keep(rt, end)
    }
}

/// Keeps an end for good.
fn keep<End, H: Wait>(rt: &H, end: End) -> ! {
    for _ in rt.forever() {}
    let _kept = end;
    unreachable!()
}

impl<'a, S: Source, H: Wait> Source for Kept<'a, S, H> {
    ghost left = { λ kept. S.left kept };

    ghost given = { λ kept. S.given kept };

    ghost faults = { λ kept. S.faults kept };

    fn read(&mut self, buf: &mut [u8]) -> Result<usize, WorldErr> {
        self.end.read(buf)
    }
}

impl<'a, S: Sink, H: Wait> Sink for Kept<'a, S, H> {
    ghost taken = { λ kept. S.taken kept };

    ghost sent = { λ kept. S.sent kept };

    ghost faults = { λ kept. S.faults kept };

    fn write(&mut self, bytes: &[u8]) -> Result<usize, WorldErr> {
        self.end.write(bytes)
    }

    fn flush(&mut self) -> Result<(), WorldErr> {
        self.end.flush()
    }

    ghost sent_first = { λ kept. S.sent_first kept };
}
