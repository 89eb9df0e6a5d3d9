//! How a relay without bound is made, and what is put on it where memory may be refused.
ghost use Rattle.std.specs.Prelude.{◌≡◌, false, [], ◌∷◌, ◌++◌, IfOk, OnOk, OnErr};
ghost use Rattle.fl_graph.specs.Machines.{closes};
ghost use Rattle.fl_graph.specs.Runs.{are_closed};
ghost use Rattle.fl_relay.specs.Eager.{eager_gives_on, eager_takes_on, eager_given, eager_taken};

use crate::eager::{EagerGiver, EagerTaker, Line};
use crate::rule::{Halves, InOrder, View};
use crossbeam_queue::RuledSegQueue;
use fl_graph::Piece;
use ps_lines::Memory;
use std::alloc::Global;
use std::sync::{Arc, Wait};
use std::thread::Parker;

/// A relay in which any number of pieces may wait.
pub fn unbounded(alloc: Global) -> Result<(EagerGiver, EagerTaker), Memory>
    ensures same { IfOk result (λ halves. eager_takes_on halves.1 ≡ eager_gives_on halves.0) }
    ensures given { IfOk result (λ halves. eager_given halves.0 ≡ []) }
    ensures taken { IfOk result (λ halves. eager_taken halves.1 ≡ []) }
{
    let (queue, mut pass) = RuledSegQueue::<Piece, View, InOrder>::with_rule(alloc)?;
    let other = queue.another::<Halves>(&mut pass);
    let sleeper = Parker::new();
    let line = Arc::new(alloc, Line { queue, sleeper })?;
    let shared = Arc::try_clone(&line)?;
    let taker = EagerTaker {
        line: shared,
        pass: other,
    };
    Ok((EagerGiver { line, pass }, taker))
}

/// Puts a piece. Where memory is refused one that closes the relay comes at last, and any other is let go.
pub(crate) fn put_or_refuse<R: Wait>(
    rt: &R,
    giver: &mut EagerGiver,
    piece: Piece,
) -> Result<(), Memory>
    requires { are_closed (eager_given giver.old) ≡ false }
    ensures same { eager_gives_on giver.new ≡ eager_gives_on giver.old }
    ensures given { OnOk result (eager_given giver.new ≡ eager_given giver.old ++ piece ∷ []) }
    ensures refused { OnErr result (eager_given giver.new ≡ eager_given giver.old) }
    ensures closing { OnErr result (closes piece ≡ false) }
{
    match giver.put(rt, piece) {
        Ok(()) => Ok(()),
        Err(back) => put_if_closing(rt, giver, back),
    }
}

/// Puts a piece that closes the relay, as soon as there is memory, and no other.
fn put_if_closing<R: Wait>(rt: &R, giver: &mut EagerGiver, piece: Piece) -> Result<(), Memory>
    requires { are_closed (eager_given giver.old) ≡ false }
    ensures same { eager_gives_on giver.new ≡ eager_gives_on giver.old }
    ensures given { OnOk result (eager_given giver.new ≡ eager_given giver.old ++ piece ∷ []) }
    ensures refused { OnErr result (eager_given giver.new ≡ eager_given giver.old) }
    ensures closing { OnErr result (closes piece ≡ false) }
{
    if is_closing(&piece) {
        giver.put_at_last(rt, piece);
        return Ok(());
    }
    Err(Memory)
}

/// Whether nothing follows the piece.
fn is_closing(piece: &Piece) -> bool
    ensures { result ≡ closes piece.now }
{
    matches!(piece, Piece::End | Piece::Broken)
}
