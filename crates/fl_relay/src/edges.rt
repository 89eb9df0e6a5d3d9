//! The two halves of an edge between nodes, with a bound or without one.

use crate::eager::{EagerGiver, EagerTaker};
use crate::eager_calls::put_or_refuse;
use crate::halves::{Giver, Taker};
use fl_graph::Piece;
use ps_lines::Memory;
use std::sync::Wait;

/// The half of an edge into which a node puts.
#[derive(Drop)]
pub enum EdgeGiver {
    /// It waits for room.
    Bounded(Giver),
    /// It doesn't wait for room, and may want memory; with a piece that closes the edge it waits for memory.
    Unbounded(EagerGiver),
}

/// The half of an edge from which a node takes.
#[derive(Drop)]
pub enum EdgeTaker {
    /// That of a relay with a bound.
    Bounded(Taker),
    /// That of one without.
    Unbounded(EagerTaker),
}

impl EdgeGiver {
    ghost use Rattle.std.specs.Prelude.{◌≡◌, false, [], ◌∷◌, ◌++◌, None, OnOk, OnErr};
    ghost use Rattle.fl_graph.specs.Machines.{closes};
    ghost use Rattle.fl_graph.specs.Runs.{are_closed};
    ghost use Rattle.fl_relay.specs.Edges.{gives_over, put_on, room_on};

    /// Puts a piece, and waits for room where the edge has a bound. Where memory is refused, which it is on an edge without bound alone,
    /// nothing is put; a piece that closes the edge is never refused: it waits for memory.
    pub fn put<R: Wait>(&mut self, rt: &R, piece: Piece) -> Result<(), Memory>
        requires { are_closed (put_on self.old) ≡ false }
        ensures same { gives_over self.new ≡ gives_over self.old }
        ensures room { room_on self.new ≡ room_on self.old }
        ensures given { OnOk result (put_on self.new ≡ put_on self.old ++ piece ∷ []) }
        ensures refused { OnErr result (put_on self.new ≡ put_on self.old) }
        ensures bounded { OnErr result (room_on self.old ≡ None) }
        ensures closing { OnErr result (closes piece ≡ false) }
    {
        match self {
            EdgeGiver::Bounded(giver) => {
                giver.put(rt, piece);
                Ok(())
            }
            EdgeGiver::Unbounded(giver) => put_or_refuse(rt, giver, piece),
        }
    }
}

impl EdgeTaker {
    ghost use Rattle.std.specs.Prelude.{◌≡◌, false, [], ◌∷◌, ◌++◌};
    ghost use Rattle.fl_graph.specs.Runs.{are_closed};
    ghost use Rattle.fl_relay.specs.Edges.{takes_over, taken_from};

    /// Takes a piece. While the edge is empty it sleeps.
    pub fn take<R: Wait>(&mut self, rt: &R) -> Piece
        requires { are_closed (taken_from self.old) ≡ false }
        ensures same { takes_over self.new ≡ takes_over self.old }
        ensures taken { taken_from self.new ≡ taken_from self.old ++ result ∷ [] }
    {
        match self {
            EdgeTaker::Bounded(taker) => taker.take(rt),
            EdgeTaker::Unbounded(taker) => taker.take(rt),
        }
    }
}
