//! Graphs on threads.
ghost use Rattle.std.specs.Prelude.{◌≡◌, ◌≤◌, ◌<◌, ◌^◌, [], false, is_some, length, map, true, vec_len, vec_capacity, IfNone, IfSome};
ghost use Rattle.fl_classes.specs.Kinds.{are_run};
ghost use Rattle.fl_core.specs.EndLists.{HasItsEnds, numbers_of};
ghost use Rattle.fl_core.specs.GraphRuns.{HasRun};
ghost use Rattle.fl_core.specs.Roles.{AreApart, is_used};
ghost use Rattle.fl_core.specs.declared.roles.Role.{Role as Roles};
ghost use Rattle.fl_graph.specs.Valid.{Valid};
ghost use Rattle.fl_runner.specs.Lent.{end_with, fits, held_by, kind_with};
ghost use Rattle.fl_runner.specs.Prepared.{IsPrepared};
ghost use Rattle.fl_runner.specs.Rooms.{HasBackRooms};
ghost use Rattle.fl_runner.specs.Runs.{AreJobs, AreRun, ran_with};
ghost use Rattle.fl_runner.specs.Starts.{AreStarts};
ghost use Rattle.fl_threads.specs.Threads.{EachOf};

use crate::jobs::jobs_of;
use crate::kept::Kept;
use crate::lending::{give_back, lend};
use crate::owns::put_owns;
use crate::prepared::{Prepared, prepare};
use crate::rooms::{BackRooms, EndRooms, Rooms};
use crate::starts::{NodeStart, starts_of};
use crate::telling::{Told, tell};
use fl_core::{Ends, NodeMachine, Ran, Role, run_in_turn};
use fl_edges::settle_edges;
use fl_graph::{Graph, Machine};
use fl_nodes::{NodeDone, NodeJob, Own, OwnEnd, run_nodes};
use fl_relay::{EdgeGiver, EdgeTaker};
use fl_threads::Beside;
use ps_world::{Gate, Sink, Source};
use std::alloc::Global;
use std::sync::Wait;
use std::thread::Threads;

/// The end of a node, on its way through a thread.
type KeptOwn<'a, R, W, I, O, H> = Own<
    Kept<'a, R, H>,
    Kept<'a, W, H>,
    Kept<'a, I, H>,
    Kept<'a, O, H>,
>;

/// All that a run wants before a node begins.
type PreparedRun<'a, R, W, I, O, G, H> = Prepared<
    Kept<'a, R, H>,
    Kept<'a, W, H>,
    KeptOwn<'a, R, W, I, O, H>,
    NodeJob<'a, NodeMachine, KeptOwn<'a, R, W, I, O, H>, G>,
>;

/// Runs a graph to its end, each of its nodes on a thread of its own, and gives the ends back in their order.
///
/// What comes of it is what comes of `run_in_turn`, but that several ends may fail: the fault is that of the lowest node. Each node passes the
/// gate before its first act and behind its last one. Where a thread or memory is refused before any node has begun, the graph runs in turn
/// on the caller's thread, and no node passes the gate. `validate`, `are_run` and `have_ends` are the tests of what the caller owes.
pub fn run_on_threads<
    'a,
    R: Source + Send,
    W: Sink + Send,
    I: Source + Send,
    O: Sink + Send,
    G: Gate,
    H: Threads + Wait + Sync,
>(rt: &'a H, alloc: Global, graph: &Graph, ends: Ends<R, W, I, O>, gate: &'a G) -> Ran<R, W, I, O>
    requires valid { Valid graph.now.nodes graph.now.status }
    requires kinds { are_run graph.now.nodes ≡ true }
    requires ends { HasItsEnds graph.now.nodes ends }
    ensures { HasRun R.left I.left W.taken O.taken R.faults W.faults I.faults O.faults graph.now ends result }
{
    let Ok(starts) = starts_of(alloc, graph) else {
        return run_in_turn(alloc, graph, ends);
    };
    let prepared: Result<PreparedRun<'a, R, W, I, O, G, H>, _> = prepare(alloc, graph, &ends);
    match prepared {
        Ok(prepared) => run_prepared(rt, alloc, graph, ends, gate, starts, prepared),
        Err(_refused) => run_in_turn(alloc, graph, ends),
    }
}

/// Runs a graph on threads, where all that wants memory before a node begins is there.
fn run_prepared<
    'a,
    R: Source + Send,
    W: Sink + Send,
    I: Source + Send,
    O: Sink + Send,
    G: Gate,
    H: Threads + Wait + Sync,
>(
    rt: &'a H,
    alloc: Global,
    graph: &Graph,
    ends: Ends<R, W, I, O>,
    gate: &'a G,
    starts: Vec<NodeStart<NodeMachine>>,
    prepared: PreparedRun<'a, R, W, I, O, G, H>,
) -> Ran<R, W, I, O>
    requires valid { Valid graph.now.nodes graph.now.status }
    requires kinds { are_run graph.now.nodes ≡ true }
    requires ends { HasItsEnds graph.now.nodes ends }
    requires starts { AreStarts ⟦<NodeMachine as Machine>⟧.state graph.now.nodes starts.items }
    requires prepared { IsPrepared graph.now.nodes ends prepared }
    ensures { HasRun R.left I.left W.taken O.taken R.faults W.faults I.faults O.faults graph.now ends result }
{
    let Prepared { roles, rooms, jobs } = prepared;
    let Rooms { out, back } = rooms;
    let EndRooms { readers, writers } = out;
    let all_roles = roles.as_slice();
    let (mut lent, homes) = lend(rt, ends, readers, writers);
    let jobs = jobs_of(alloc, starts, all_roles, &mut lent, gate, jobs);
    let told = run_jobs(rt, alloc, graph, all_roles, &mut lent, jobs, back);
    let ends = give_back(lent, homes);
    match told {
        Some(told) => ran(told, ends),
        None => run_in_turn(alloc, graph, ends),
    }
}

/// Runs the jobs of all nodes of a graph, and puts the ends back into their places: what is told of the run, or none where no job has run.
fn run_jobs<
    'a,
    M: Machine + Send,
    R: Source + Drop + Send,
    W: Sink + Drop + Send,
    I: Source + Drop + Send,
    O: Sink + Drop + Send,
    G: Gate,
    H: Threads + Wait + Sync,
>(
    rt: &H,
    alloc: Global,
    graph: &Graph,
    roles: &[Role],
    lent: &mut Ends<Option<R>, Option<W>, Option<I>, Option<O>>,
    jobs: Vec<NodeJob<'a, M, Own<R, W, I, O>, G>>,
    back: BackRooms<Own<R, W, I, O>>,
) -> Option<Told>
    requires valid { Valid graph.now.nodes graph.now.status }
    requires few { length graph.now.nodes < 2 ^ 32 }
    requires jobs { AreJobs graph.now.nodes jobs.items }
    requires apart { AreApart roles.now }
    requires fit { EachOf (λ role job. fits (length lent.old.readers.items) (length lent.old.writers.items) role (kind_with job.own) ≡ true)
        roles.now jobs.items }
    requires back { HasBackRooms graph.now.nodes back }
    ensures ran { IfSome result (λ told. AreRun graph.now roles.now jobs.entry.items lent.new told) }
    ensures not_ran { IfNone result (map (λ role. held_by role lent.new) roles.now ≡ map (λ job. end_with job.own) jobs.entry.items) }
    ensures there { map (λ role. is_some (held_by role lent.new)) roles.now ≡ map (λ job. is_some (end_with job.own)) jobs.entry.items }
    ensures others { (role : Roles) → is_used roles.now role ≡ false → held_by role lent.new ≡ held_by role lent.old }
    ensures readers { numbers_of lent.new.readers.items ≡ numbers_of lent.old.readers.items }
    ensures writers { numbers_of lent.new.writers.items ≡ numbers_of lent.old.writers.items }
{
    let BackRooms {
        givers,
        takers,
        owns,
        stash,
    } = back;
    match run_nodes(rt, alloc, jobs) {
        Beside::Ran(done) => {
            let told = tell(&graph.status, done.as_slice());
            let (givers, takers, owns) = take_apart(done, givers, takers, owns);
            settle_edges(rt, stash, graph, givers, takers);
            put_owns(lent, roles, owns);
            Some(told)
        }
        Beside::NotRun(jobs) => {
            put_owns(lent, roles, owns_of(jobs, owns));
            None
        }
    }
}

/// What came of a run, with the ends.
fn ran<R, W, I, O>(told: Told, ends: Ends<R, W, I, O>) -> Ran<R, W, I, O>
    ensures { result ≡ ran_with told ends }
{
    match told {
        Told::Done(status) => Ran::Done(status, ends),
        Told::Fault(node) => Ran::Fault(node, ends),
        Told::Memory => Ran::Memory(ends),
    }
}

/// What nodes give back, apart: the givers, the takers and the ends, in the order of the nodes. The lists are empty, and have room for all.
fn take_apart<End: Drop>(
    done: Vec<NodeDone<End>>,
    givers_room: Vec<Vec<EdgeGiver>>,
    takers_room: Vec<Vec<EdgeTaker>>,
    owns_room: Vec<End>,
) -> (Vec<Vec<EdgeGiver>>, Vec<Vec<EdgeTaker>>, Vec<End>)
    requires no_givers { givers_room.items ≡ [] }
    requires no_takers { takers_room.items ≡ [] }
    requires no_owns { owns_room.items ≡ [] }
    requires givers_fit { vec_len done ≤ vec_capacity givers_room }
    requires takers_fit { vec_len done ≤ vec_capacity takers_room }
    requires owns_fit { vec_len done ≤ vec_capacity owns_room }
    ensures givers { result.0.items ≡ map (λ one. one.givers) done.items }
    ensures takers { result.1.items ≡ map (λ one. one.takers) done.items }
    ensures owns { result.2.items ≡ map (λ one. one.own) done.items }
{
    let mut all_givers = givers_room;
    let mut all_takers = takers_room;
    let mut owns = owns_room;
    for one in done {
        let NodeDone {
            number: _,
            takers,
            givers,
            own,
            failure: _,
            selected: _,
        } = one;
        all_givers.push_reserved(givers);
        all_takers.push_reserved(takers);
        owns.push_reserved(own);
    }
    (all_givers, all_takers, owns)
}

/// The ends of jobs that haven't run, in the order of the nodes. The list is empty, and has room for all.
fn owns_of<'a, M: Machine, End: OwnEnd + Drop, G>(
    jobs: Vec<NodeJob<'a, M, End, G>>,
    room: Vec<End>,
) -> Vec<End>
    requires none { room.items ≡ [] }
    requires fit { vec_len jobs ≤ vec_capacity room }
    ensures { result.items ≡ map (λ job. job.own) jobs.entry.items }
{
    let mut owns = room;
    for job in jobs {
        owns.push_reserved(own_of(job));
    }
    owns
}

/// The end of a job.
fn own_of<'a, M: Machine, End: OwnEnd + Drop, G>(job: NodeJob<'a, M, End, G>) -> End
    ensures { result ≡ job.entry.own }
{
    let NodeJob {
        number: _,
        machine: _machine,
        takers: _takers,
        givers: _givers,
        own,
        alloc: _,
        gate: _,
    } = job;
    own
}
