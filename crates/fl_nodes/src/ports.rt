//! The halves of a node's edges, by port.
ghost use Rattle.std.specs.Prelude.{◌≡◌, ℕ, ◌<◌, [], false, map, get_or, vec_len, OnOk, OnErr};
ghost use Rattle.fl_graph.specs.Machines.{closes};
ghost use Rattle.fl_graph.specs.Runs.{add, are_closed};
ghost use Rattle.fl_nodes.specs.Work.{at};
ghost use Rattle.fl_relay.specs.Edges.{gives_over, takes_over, put_on, taken_from};

use fl_graph::Piece;
use fl_relay::{EdgeGiver, EdgeTaker};
use ps_lines::Memory;
use std::sync::Wait;

/// Takes a piece from the edge at a port.
pub(crate) fn take_at<H: Wait>(rt: &H, takers: &mut Vec<EdgeTaker>, port: u32) -> Piece
    requires known { port < vec_len takers.old }
    requires opened { are_closed (at (map taken_from takers.old.items) port) ≡ false }
    ensures same { map takes_over takers.new.items ≡ map takes_over takers.old.items }
    ensures taken { at (map taken_from takers.new.items) ≡ add port result (at (map taken_from takers.old.items)) }
{
    takers[port as usize].take(rt)
}

/// Puts a piece on the edge at a port. Where memory is refused nothing is put; a piece that closes the edge is never refused.
pub(crate) fn put_at<H: Wait>(
    rt: &H,
    givers: &mut Vec<EdgeGiver>,
    port: u32,
    piece: Piece,
) -> Result<(), Memory>
    requires known { port < vec_len givers.old }
    requires opened { are_closed (at (map put_on givers.old.items) port) ≡ false }
    ensures same { map gives_over givers.new.items ≡ map gives_over givers.old.items }
    ensures given { OnOk result (at (map put_on givers.new.items) ≡ add port piece (at (map put_on givers.old.items))) }
    ensures refused { OnErr result (map put_on givers.new.items ≡ map put_on givers.old.items) }
    ensures closing { OnErr result (closes piece ≡ false) }
{
    givers[port as usize].put(rt, piece)
}
