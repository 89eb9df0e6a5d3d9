//! The jobs of nodes.
ghost use Rattle.std.specs.Prelude.{◌≡◌, ◌<◌, ◌≤◌, ◌^◌, ℕ, [], false, length, map, vec_len, vec_capacity};
ghost use Rattle.fl_core.specs.EndLists.{numbers_of};
ghost use Rattle.fl_core.specs.Roles.{AreApart, is_used};
ghost use Rattle.fl_nodes.specs.Work.{IsReady};
ghost use Rattle.fl_runner.specs.Lent.{end_state, end_with, held_by};
ghost use Rattle.fl_runner.specs.Starts.{job_parts, start_parts};
ghost use Rattle.fl_threads.specs.Threads.{EachOf};

use crate::owns::take_own;
use crate::starts::NodeStart;
use fl_core::{Ends, Role};
use fl_edges::NodeHalves;
use fl_graph::Machine;
use fl_nodes::{NodeJob, Own, OwnEnd};
use ps_world::{Gate, Sink, Source};
use std::alloc::Global;

/// The job of each node: what it begins with, and the end of its role, which is taken from its place. `room` has room for all.
pub(crate) fn jobs_of<'a, M: Machine, R: Source, W: Sink, I: Source, O: Sink, G: Gate>(
    alloc: Global,
    starts: Vec<NodeStart<M>>,
    roles: &[Role],
    lent: &mut Ends<Option<R>, Option<W>, Option<I>, Option<O>>,
    gate: &'a G,
    room: Vec<NodeJob<'a, M, Own<R, W, I, O>, G>>,
) -> Vec<NodeJob<'a, M, Own<R, W, I, O>, G>>
    requires apart { AreApart roles.now }
    requires ready { EachOf (λ role start. IsReady (M.state start.machine)
        (end_state R.left W.taken I.left O.taken R.faults W.faults I.faults O.faults (held_by role lent.old))
        start.halves.takers.items start.halves.givers.items) roles.now starts.items }
    requires few { vec_len starts < 2 ^ 32 }
    requires none { room.items ≡ [] }
    requires fit { vec_len starts ≤ vec_capacity room }
    ensures starts { map job_parts result.items ≡ map start_parts starts.items }
    ensures owns { map (λ job. end_with job.own) result.items ≡ map (λ role. held_by role lent.old) roles.now }
    ensures others { (role : Role) → is_used roles.now role ≡ false → held_by role lent.new ≡ held_by role lent.old }
    ensures readers { numbers_of lent.new.readers.items ≡ numbers_of lent.old.readers.items }
    ensures writers { numbers_of lent.new.writers.items ≡ numbers_of lent.old.writers.items }
{
    let mut jobs = room;
    let mut node = 0;
    for start in starts {
        let own = take_own(lent, roles[node]);
        jobs.push_reserved(job_of(alloc, node as u32, start, own, gate));
        node += 1;
    }
    jobs
}

/// The job of a node with this number.
fn job_of<'a, M: Machine, E: OwnEnd, G>(
    alloc: Global,
    number: u32,
    start: NodeStart<M>,
    own: E,
    gate: &'a G,
) -> NodeJob<'a, M, E, G>
    requires { IsReady (M.state start.machine) (E.state own) start.halves.takers.items start.halves.givers.items }
    ensures machine { result.machine ≡ start.machine }
    ensures takers { result.takers ≡ start.halves.takers }
    ensures givers { result.givers ≡ start.halves.givers }
    ensures own { result.own ≡ own }
{
    let NodeStart { machine, halves } = start;
    let NodeHalves { takers, givers } = halves;
    NodeJob {
        number,
        machine,
        takers,
        givers,
        own,
        alloc,
        gate,
    }
}
