//! Room for all that a run on threads hands over and gets back, made before it begins, so that nothing that runs is lost to want of memory.
ghost use Rattle.std.specs.Prelude.{◌≡◌, ◌≤◌, [], IfOk, vec_len, vec_capacity};
ghost use Rattle.fl_edges.specs.Settled.{IsBare};
ghost use Rattle.fl_runner.specs.Rooms.{HasBackRooms, HasRooms};

use fl_core::Ends;
use fl_graph::{Graph, Node};
use fl_net::edge_count;
use fl_relay::{EdgeGiver, EdgeTaker};
use ps_lines::Memory;
use std::alloc::Global;

/// All room for a run.
#[derive(Drop)]
pub(crate) struct Rooms<R, W, Own> {
    pub(crate) out: EndRooms<R, W>,
    pub(crate) back: BackRooms<Own>,
}

/// Room for a run of this graph over these ends.
pub(crate) fn rooms_for<R: Drop, W: Drop, Own: Drop, Reader, Writer, I, O>(
    alloc: Global,
    graph: &Graph,
    ends: &Ends<Reader, Writer, I, O>,
) -> Result<Rooms<R, W, Own>, Memory>
    ensures { IfOk result (λ rooms. HasRooms graph.now.nodes ends.now rooms) }
{
    let out = end_rooms(alloc, ends.readers.len(), ends.writers.len())?;
    let back = back_rooms(alloc, graph.nodes.as_slice())?;
    Ok(Rooms { out, back })
}

/// Empty lists with room for the ends of readers and writers.
#[derive(Drop)]
pub(crate) struct EndRooms<R, W> {
    pub(crate) readers: Vec<(u32, Option<R>)>,
    pub(crate) writers: Vec<(u32, Option<W>)>,
}

/// Room for so many ends of readers and writers.
fn end_rooms<R: Drop, W: Drop>(
    alloc: Global,
    readers: usize,
    writers: usize,
) -> Result<EndRooms<R, W>, Memory>
    ensures readers { IfOk result (λ rooms. (rooms.readers.items ≡ []) × (readers ≤ vec_capacity rooms.readers)) }
    ensures writers { IfOk result (λ rooms. (rooms.writers.items ≡ []) × (writers ≤ vec_capacity rooms.writers)) }
{
    Ok(EndRooms {
        readers: Vec::with_capacity(alloc, readers)?,
        writers: Vec::with_capacity(alloc, writers)?,
    })
}

/// Empty lists with room for what nodes give back, and one with an empty place for each edge.
#[derive(Drop)]
pub(crate) struct BackRooms<Own> {
    pub(crate) givers: Vec<Vec<EdgeGiver>>,
    pub(crate) takers: Vec<Vec<EdgeTaker>>,
    pub(crate) owns: Vec<Own>,
    pub(crate) stash: Vec<Option<EdgeGiver>>,
}

/// Room for these nodes.
fn back_rooms<Own: Drop>(alloc: Global, nodes: &[Node]) -> Result<BackRooms<Own>, Memory>
    ensures { IfOk result (λ rooms. HasBackRooms nodes.now rooms) }
{
    let edges = edge_count(nodes)?;
    let count = nodes.len();
    let givers = Vec::with_capacity(alloc, count)?;
    let takers = Vec::with_capacity(alloc, count)?;
    let owns = Vec::with_capacity(alloc, count)?;
    let stash = bare_stash(alloc, edges)?;
    Ok(BackRooms {
        givers,
        takers,
        owns,
        stash,
    })
}

/// So many places with no giver.
fn bare_stash(alloc: Global, edges: usize) -> Result<Vec<Option<EdgeGiver>>, Memory>
    ensures len { IfOk result (λ stash. vec_len stash ≡ edges) }
    ensures bare { IfOk result (λ stash. IsBare stash.items) }
{
    let mut stash = Vec::with_capacity(alloc, edges)?;
    for _ in 0..edges {
        stash.push_reserved(None);
    }
    Ok(stash)
}
