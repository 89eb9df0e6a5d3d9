//! What holds of a relay as a whole.
ghost use Rattle.std.specs.Prelude.{◌≡◌, ◌++◌, List, true};
ghost use Rattle.fl_graph.specs.Runs.{are_closed, is_clean};
ghost use Rattle.fl_graph.specs.declared.pieces.Piece.{Piece as Pieces};
ghost use Rattle.fl_relay.specs.Eager.{eager_gives_on, eager_takes_on, eager_given, eager_taken};
ghost use Rattle.fl_relay.specs.Edges.{gives_over, takes_over, put_on, taken_from};
ghost use Rattle.fl_relay.specs.Relays.{gives_on, takes_on, given, taken};
ghost use Rattle.fl_relay.specs.Rule.{TakenIsFront};

use crate::eager::{EagerGiver, EagerTaker};
use crate::edges::{EdgeGiver, EdgeTaker};
use crate::halves::{Giver, Taker};
use crate::rule::{Balance, Halves};
use std::sync::Wait;

/// At every moment, whatever the threads have done: what was taken, and then what waits in the relay, is what was given, and nothing follows
/// a piece that closes. This is the rule, which every atomic step keeps, said of the pass that gives and the pass that takes.
pub fn what_was_taken_is_a_front()
    ensures { TakenIsFront }
{}

/// The two halves of one relay, together again. What was taken is a front of what was given, and where the taker has come to the end it is all.
pub fn settle(giver: Giver, taker: Taker)
    requires same { takes_on taker ≡ gives_on giver }
    ensures front { (waiting : List Pieces) × (given giver ≡ taken taker ++ waiting) }
    ensures clean { is_clean (given giver) ≡ true }
    ensures all { are_closed (taken taker) ≡ true → given giver ≡ taken taker }
{
    let Giver { end, mut pass } = giver;
    let Taker {
        end: from,
        pass: other,
    } = taker;
    end.absorb::<Halves>(&mut pass, other);
    end.learn_as::<Balance>(&mut pass);
    drop(from);
}

/// As `settle`, of a relay without bound. The queue is looked at, which may have to wait for a thread that is within a put.
fn settle_eagerly<R: Wait>(rt: &R, giver: EagerGiver, taker: EagerTaker)
    requires same { eager_takes_on taker ≡ eager_gives_on giver }
    ensures front { (waiting : List Pieces) × (eager_given giver ≡ eager_taken taker ++ waiting) }
    ensures clean { is_clean (eager_given giver) ≡ true }
    ensures all { are_closed (eager_taken taker) ≡ true → eager_given giver ≡ eager_taken taker }
{
    let EagerGiver { line, mut pass } = giver;
    let EagerTaker {
        line: from,
        pass: other,
    } = taker;
    line.queue.absorb::<Halves>(&mut pass, other);
    line.queue.len_as::<Balance, R>(rt, &mut pass);
    drop(from);
}

/// As `settle`, of an edge with a bound or without one.
pub fn settle_edge<R: Wait>(rt: &R, giver: EdgeGiver, taker: EdgeTaker)
    requires same { takes_over taker ≡ gives_over giver }
    ensures front { (waiting : List Pieces) × (put_on giver ≡ taken_from taker ++ waiting) }
    ensures clean { is_clean (put_on giver) ≡ true }
    ensures all { are_closed (taken_from taker) ≡ true → put_on giver ≡ taken_from taker }
{
    match giver {
        EdgeGiver::Bounded(giver) => match taker {
            EdgeTaker::Bounded(taker) => settle(giver, taker),
            EdgeTaker::Unbounded(_) => unreachable!(),
        },
        EdgeGiver::Unbounded(giver) => match taker {
            EdgeTaker::Unbounded(taker) => settle_eagerly(rt, giver, taker),
            EdgeTaker::Bounded(_) => unreachable!(),
        },
    }
}
