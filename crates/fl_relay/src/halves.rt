//! The two halves of a relay.
ghost use Rattle.std.specs.Prelude.{◌≡◌, true, false};
ghost use Rattle.crossbeam_channel.specs.Claims.{view, IsSeatAt};
ghost use Rattle.crossbeam_channel.specs.Ends.{sends_on, receives_on};

use crate::rule::{InOrder, Receives, Sends, View};
use crossbeam_channel::{Pass, RuledReceiver, RuledSender};
use fl_graph::Piece;
use std::sync::Wait;
use std::thread::Parker;

/// The half of a relay into which pieces are put.
#[derive(Drop)]
pub struct Giver {
    pub(crate) end: RuledSender<Piece, View, InOrder>,
    pub(crate) pass: Pass<Piece, View>,
    ghost seated: { IsSeatAt (sends_on end) pass },
    ghost gives: { (view pass).gives ≡ true },
}

/// The half of a relay out of which pieces are taken.
#[derive(Drop)]
pub struct Taker {
    pub(crate) end: RuledReceiver<Piece, View, InOrder>,
    pub(crate) pass: Pass<Piece, View>,
    ghost seated: { IsSeatAt (receives_on end) pass },
    ghost takes: { (view pass).takes ≡ true },
}

impl Giver {
    ghost use Rattle.std.specs.Prelude.{◌≡◌, false, [], ◌∷◌, ◌++◌};
    ghost use Rattle.fl_graph.specs.Machines.{closes};
    ghost use Rattle.fl_graph.specs.Runs.{are_closed};
    ghost use Rattle.fl_relay.specs.Relays.{gives_on, room_of, given};

    /// Puts a piece. While the relay is full it sleeps.
    #[tactic(auto, using(fl_graph::proofs::PieceLemmas::closed_by))]
    pub fn put<R: Wait>(&mut self, rt: &R, piece: Piece)
        requires { are_closed (given self.old) ≡ false }
        ensures same { gives_on self.new ≡ gives_on self.old }
        ensures room { room_of self.new ≡ room_of self.old }
        ensures given { given self.new ≡ given self.old ++ piece ∷ [] }
        ensures closed { are_closed (given self.new) ≡ closes piece }
    {
        match self.end.send_as::<Sends, R>(rt, &mut self.pass, piece) {
            Ok(()) => {}
            Err(_refused) => sleep_for_good(rt),
        }
    }
}

impl Taker {
    ghost use Rattle.std.specs.Prelude.{◌≡◌, false, [], ◌∷◌, ◌++◌};
    ghost use Rattle.fl_graph.specs.Machines.{closes};
    ghost use Rattle.fl_graph.specs.Runs.{are_closed};
    ghost use Rattle.fl_relay.specs.Relays.{takes_on, taken};

    /// Takes a piece. While the relay is empty it sleeps.
    #[tactic(auto, using(fl_graph::proofs::PieceLemmas::closed_by))]
    pub fn take<R: Wait>(&mut self, rt: &R) -> Piece
        requires { are_closed (taken self.old) ≡ false }
        ensures same { takes_on self.new ≡ takes_on self.old }
        ensures taken { taken self.new ≡ taken self.old ++ result ∷ [] }
        ensures closed { are_closed (taken self.new) ≡ closes result }
    {
        match self.end.recv_as::<Receives, R>(rt, &mut self.pass) {
            Ok(piece) => piece,
            Err(_empty) => sleep_for_good(rt),
        }
    }
}

/// Sleeps for good. A half comes here where the other one was let go, so that nothing can come or go any more; it would try in vain.
fn sleep_for_good<R: Wait>(rt: &R) -> ! {
    let sleeper = Parker::new();
    for _ in rt.forever() {
        sleeper.park(rt);
    }
    unreachable!()
}
