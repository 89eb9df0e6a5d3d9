//! An edge before anything is put on it.
ghost use Rattle.std.specs.Prelude.{◌≡◌, ◌<◌, [], max, Some, None, IfOk};
ghost use Rattle.std.specs.Option.{option_map};
ghost use Rattle.fl_relay.specs.Edges.{gives_over, takes_over, room_on, put_on, taken_from};

use fl_relay::{EdgeGiver, EdgeTaker, bounded, unbounded};
use ps_lines::Memory;
use std::alloc::Global;

/// The two halves of an edge on which nothing was put.
#[derive(Drop)]
pub struct Edge {
    pub giver: EdgeGiver,
    pub taker: EdgeTaker,
    ghost same: { takes_over taker ≡ gives_over giver },
    ghost given: { put_on giver ≡ [] },
    ghost taken: { taken_from taker ≡ [] },
}

/// An edge with room for so many pieces, and for one at least where `room` is 0; or without a bound where there is none.
pub fn make_edge(alloc: Global, room: Option<u32>) -> Result<Edge, Memory>
    ensures { IfOk result (λ edge. room_on edge.giver ≡ option_map (λ pieces. max pieces 1) room) }
{
    match room {
        Some(room) => bounded_edge(alloc, room.max(1)),
        None => unbounded_edge(alloc),
    }
}

fn bounded_edge(alloc: Global, room: u32) -> Result<Edge, Memory>
    requires { 0 < room }
    ensures { IfOk result (λ edge. room_on edge.giver ≡ Some room) }
{
    let (giver, taker) = bounded(alloc, room)?;
    Ok(Edge {
        giver: EdgeGiver::Bounded(giver),
        taker: EdgeTaker::Bounded(taker),
    })
}

fn unbounded_edge(alloc: Global) -> Result<Edge, Memory>
    ensures { IfOk result (λ edge. room_on edge.giver ≡ None) }
{
    let (giver, taker) = unbounded(alloc)?;
    Ok(Edge {
        giver: EdgeGiver::Unbounded(giver),
        taker: EdgeTaker::Unbounded(taker),
    })
}
