//! The roles of nodes, and the room that a run wants before a node begins.
ghost use Rattle.std.specs.Prelude.{IfOk};
ghost use Rattle.fl_runner.specs.Prepared.{IsPrepared};

use crate::rooms::{Rooms, rooms_for};
use fl_core::{Ends, Role, roles_of};
use fl_graph::Graph;
use ps_lines::Memory;
use std::alloc::Global;

/// What a run on threads wants before a node begins, beside what its nodes begin with.
#[derive(Drop)]
pub(crate) struct Prepared<R, W, Own, Job> {
    /// Which end each node has.
    pub(crate) roles: Vec<Role>,
    /// Room for what is handed over and what comes back.
    pub(crate) rooms: Rooms<R, W, Own>,
    /// Room for the jobs.
    pub(crate) jobs: Vec<Job>,
}

/// What a run of this graph over these ends wants. A graph of 2^32 nodes or more wants memory.
pub(crate) fn prepare<R: Drop, W: Drop, Own: Drop, Job: Drop, Reader, Writer, I, O>(
    alloc: Global,
    graph: &Graph,
    ends: &Ends<Reader, Writer, I, O>,
) -> Result<Prepared<R, W, Own, Job>, Memory>
    ensures { IfOk result (λ prepared. IsPrepared graph.now.nodes ends.now prepared) }
{
    // A node's number has 32 bits.
    if graph.nodes.len() > u32::MAX as usize {
        return Err(Memory);
    }
    let roles = roles_of(alloc, graph, ends)?;
    let rooms = rooms_for(alloc, graph, ends)?;
    let jobs = Vec::with_capacity(alloc, graph.nodes.len())?;
    Ok(Prepared { roles, rooms, jobs })
}
