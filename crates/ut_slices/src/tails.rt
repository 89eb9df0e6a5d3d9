//! The stream of an invocation of tail.
ghost use Rattle.std.specs.Prelude.{◌≡◌, ℕ, List, false, IfOk};
ghost use Rattle.ut_slices.specs.Tail.{tail_output};

use crate::behinds::Behind;
use crate::lasts::Last;
use ps_lines::Memory;
use std::alloc::Global;
use ut_args::{Origin, TailInv};
use ut_streams::Stream;

/// The end of one input.
#[derive(Drop)]
pub enum Tail {
    /// From some line or byte on.
    Behind(Behind),
    /// The last lines or bytes.
    Last(Last),
}

impl Tail {
    /// The stream of one invocation, from the beginning of its input.
    pub fn new(alloc: Global, inv: &TailInv) -> Result<Tail, Memory>
        ensures due { IfOk result (λ tail. (text : List ℕ) → ⟦<Tail as Stream>⟧.due tail text ≡ tail_output inv.now.args text) }
        ensures unspent { IfOk result (λ tail. ⟦<Tail as Stream>⟧.spent tail ≡ false) }
    {
        let unit = inv.args.part.unit;
        match inv.args.part.origin {
            Origin::Start(number) => Ok(Tail::Behind(Behind::new(unit, number.saturating_sub(1)))),
            Origin::End(number) => Ok(Tail::Last(Last::new(alloc, unit, number))),
        }
    }
}

impl Stream for Tail {
    ghost use Rattle.ut_slices.specs.declared.tails.Tail.TheVariants.{Behind, Last};

    ghost due = { λ tail more. elim tail [ Behind stream ↦ ⟦<Behind as Stream>⟧.due stream more | Last stream ↦ ⟦<Last as Stream>⟧.due stream more ] };

    ghost selects = { λ _ _. false };

    ghost selected = { λ _. false };

    ghost spent = { λ tail. elim tail [ Behind stream ↦ ⟦<Behind as Stream>⟧.spent stream | Last stream ↦ ⟦<Last as Stream>⟧.spent stream ] };

    fn feed(&mut self, piece: &[u8], out: &mut Vec<u8>) -> Result<(), Memory> {
        match self {
            Tail::Behind(stream) => stream.feed(piece, out),
            Tail::Last(stream) => stream.feed(piece, out),
        }
    }

    fn finish(&mut self, out: &mut Vec<u8>) -> Result<(), Memory> {
        match self {
            Tail::Behind(stream) => stream.finish(out),
            Tail::Last(stream) => stream.finish(out),
        }
    }

    fn has_selected(&self) -> bool {
        false
    }

    fn is_spent(&self) -> bool {
        match self {
            Tail::Behind(stream) => stream.is_spent(),
            Tail::Last(stream) => stream.is_spent(),
        }
    }
}
