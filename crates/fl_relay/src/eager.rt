//! The two halves of a relay without bound.
ghost use Rattle.std.specs.Prelude.{◌≡◌, true};
ghost use Rattle.std.specs.Arc.{arc_value};
ghost use Rattle.crossbeam_queue.specs.SegTies.{IsSegPassOf};

use crate::rule::{InOrder, Receives, Sends, View};
use crossbeam_queue::{RuledSegQueue, SegPass};
use fl_graph::Piece;
use std::alloc::Global;
use std::sync::{Arc, Wait};
use std::thread;
use std::thread::Parker;

/// What the two halves share: the pieces that wait, and where the taker sleeps.
pub(crate) struct Line {
    pub(crate) queue: RuledSegQueue<Piece, View, InOrder>,
    pub(crate) sleeper: Parker,
}

impl Drop for Line {
    fn drop(self) {
        let Self { queue, sleeper: _ } = self;
        queue.destroy();
    }
}

/// The half of a relay without bound into which pieces are put.
#[derive(Drop)]
pub struct EagerGiver {
    pub(crate) line: Arc<Line, Global>,
    pub(crate) pass: SegPass<Piece, View>,
    ghost seated: { IsSegPassOf (arc_value line).queue pass },
    ghost gives: { pass.me.view.client.gives ≡ true },
}

/// The half of a relay without bound out of which pieces are taken.
#[derive(Drop)]
pub struct EagerTaker {
    pub(crate) line: Arc<Line, Global>,
    pub(crate) pass: SegPass<Piece, View>,
    ghost seated: { IsSegPassOf (arc_value line).queue pass },
    ghost takes: { pass.me.view.client.takes ≡ true },
}

impl EagerGiver {
    ghost use Rattle.std.specs.Prelude.{◌≡◌, false, [], ◌∷◌, ◌++◌, OnOk, IfErr, OnErr};
    ghost use Rattle.fl_graph.specs.Machines.{closes};
    ghost use Rattle.fl_graph.specs.Runs.{are_closed};
    ghost use Rattle.fl_relay.specs.Eager.{eager_gives_on, eager_given};

    /// Puts a piece, and doesn't wait. Where memory is refused it gives the piece back, and nothing is put.
    #[tactic(auto, using(fl_graph::proofs::PieceLemmas::closed_by))]
    pub fn put<R: Wait>(&mut self, rt: &R, piece: Piece) -> Result<(), Piece>
        requires { are_closed (eager_given self.old) ≡ false }
        ensures same { eager_gives_on self.new ≡ eager_gives_on self.old }
        ensures given { OnOk result (eager_given self.new ≡ eager_given self.old ++ piece ∷ []) }
        ensures closed { OnOk result (are_closed (eager_given self.new) ≡ closes piece) }
        ensures back { IfErr result (λ back. back ≡ piece) }
        ensures refused { OnErr result (eager_given self.new ≡ eager_given self.old) }
    {
        let line = &*self.line;
        let pushed = line.queue.push_as::<Sends, R>(rt, &mut self.pass, piece);
        line.sleeper.unpark();
        pushed
    }

    /// Puts a piece, and tries again where memory is refused, until there is some; it yields between two tries and doesn't sleep.
    #[tactic(auto, using(fl_graph::proofs::PieceLemmas::closed_by))]
    pub fn put_at_last<R: Wait>(&mut self, rt: &R, piece: Piece)
        requires { are_closed (eager_given self.old) ≡ false }
        ensures same { eager_gives_on self.new ≡ eager_gives_on self.old }
        ensures given { eager_given self.new ≡ eager_given self.old ++ piece ∷ [] }
        ensures closed { are_closed (eager_given self.new) ≡ closes piece }
    {
        let mut piece = piece;
        for _ in rt.forever() {
            match self.put(rt, piece) {
                Ok(()) => return,
                Err(back) => piece = back,
            }
            thread::yield_now();
        }
        unreachable!()
    }
}

impl EagerTaker {
    ghost use Rattle.std.specs.Prelude.{◌≡◌, false, [], ◌∷◌, ◌++◌};
    ghost use Rattle.fl_graph.specs.Machines.{closes};
    ghost use Rattle.fl_graph.specs.Runs.{are_closed};
    ghost use Rattle.fl_relay.specs.Eager.{eager_takes_on, eager_taken};

    /// Takes a piece. While the relay is empty it sleeps.
    #[tactic(auto, using(fl_graph::proofs::PieceLemmas::closed_by))]
    pub fn take<R: Wait>(&mut self, rt: &R) -> Piece
        requires { are_closed (eager_taken self.old) ≡ false }
        ensures same { eager_takes_on self.new ≡ eager_takes_on self.old }
        ensures taken { eager_taken self.new ≡ eager_taken self.old ++ result ∷ [] }
        ensures closed { are_closed (eager_taken self.new) ≡ closes result }
    {
        for _ in rt.forever() {
            // a giver that puts behind this look wakes the sleeper, also before it sleeps
            if let Some(piece) = self.line.queue.pop_as::<Receives, R>(rt, &mut self.pass) {
                return piece;
            }
            self.line.sleeper.park(rt);
        }
        unreachable!()
    }
}
