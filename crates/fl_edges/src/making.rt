//! The halves of all edges, before a run.
ghost use Rattle.std.specs.Prelude.{◌≡◌, map, IfOk, Option, Some, ℕ, max};
ghost use Rattle.std.specs.Option.{option_map};
ghost use Rattle.fl_edges.specs.Halves.{AreLaid};
ghost use Rattle.fl_relay.specs.Edges.{room_on};

use fl_nodes::{Edge, make_edge};
use fl_relay::{EdgeGiver, EdgeTaker};
use ps_lines::Memory;
use std::alloc::Global;

/// The halves of edges, by the numbers of these.
#[derive(Drop)]
pub struct Halves {
    pub givers: Vec<Option<EdgeGiver>>,
    pub takers: Vec<Option<EdgeTaker>>,
}

/// The two halves of each edge, with these rooms by number: each has room for so many pieces, and for one at least, or has no bound.
pub fn make_halves(alloc: Global, rooms: &[Option<u32>]) -> Result<Halves, Memory>
    ensures laid { IfOk result (λ halves. AreLaid halves.givers.items halves.takers.items) }
    ensures rooms { IfOk result (λ halves. map (option_map room_on) halves.givers.items ≡ map (λ room. Some (option_map (λ pieces. max pieces 1) room)) rooms.now) }
{
    let mut givers = Vec::new(alloc);
    let mut takers = Vec::new(alloc);
    for place in 0..rooms.len() {
        let Edge { giver, taker } = make_edge(alloc, rooms[place])?;
        givers.push(Some(giver))?;
        takers.push(Some(taker))?;
    }
    Ok(Halves { givers, takers })
}
