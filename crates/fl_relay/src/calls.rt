//! How a relay is made.
ghost use Rattle.std.specs.Prelude.{◌≡◌, ◌<◌, [], IfOk};
ghost use Rattle.fl_relay.specs.Relays.{gives_on, takes_on, room_of, given, taken};

use crate::halves::{Giver, Taker};
use crate::rule::{Halves, InOrder, View};
use crossbeam_channel::bounded_with;
use fl_graph::Piece;
use ps_lines::Memory;
use std::alloc::Global;

/// A relay that holds at most so many pieces.
pub fn bounded(alloc: Global, capacity: u32) -> Result<(Giver, Taker), Memory>
    requires { 0 < capacity }
    ensures same { IfOk result (λ halves. takes_on halves.1 ≡ gives_on halves.0) }
    ensures room { IfOk result (λ halves. room_of halves.0 ≡ capacity) }
    ensures given { IfOk result (λ halves. given halves.0 ≡ []) }
    ensures taken { IfOk result (λ halves. taken halves.1 ≡ []) }
{
    let (end, from, mut pass) = bounded_with::<Piece, View, InOrder, Global>(
        alloc,
        capacity as usize,
    )?;
    let other = end.another::<Halves>(&mut pass);
    let taker = Taker {
        end: from,
        pass: other,
    };
    Ok((Giver { end, pass }, taker))
}
