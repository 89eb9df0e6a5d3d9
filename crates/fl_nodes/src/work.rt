//! A node at work.
ghost use Rattle.std.specs.Prelude.{◌≡◌, true, false, Some, None};
ghost use Rattle.fl_graph.specs.Machines.{MayDo};
ghost use Rattle.fl_nodes.specs.Points.{point};
ghost use Rattle.fl_nodes.specs.Work.{edge_at as edge_at_def, IsHeld, IsUnderWay, Leads, Received, Sends};

use crate::ends::OwnEnd;
use crate::failures::AnyFailure;
use crate::machines::{draw, hand_in, shut_off, wanted};
use crate::ports::{put_at, take_at};
use crate::worker::Worker;
use fl_graph::{Act, Machine, Piece};
use ps_world::WorldErr;
use std::alloc::Global;
use std::sync::Wait;

/// Does what the machine does next, until it has stopped. Where the node fails, it notes that for all nodes of its run.
pub(crate) fn work<M: Machine, E: OwnEnd, H: Wait>(
    rt: &H,
    alloc: Global,
    in_run: &AnyFailure,
    worker: &mut Worker<M, E>,
)
    requires way { IsUnderWay (point M.state E.state worker.old) }
    ensures leads { Leads (point M.state E.state worker.old) (point M.state E.state worker.new) }
    ensures stop { (M.state worker.new.machine).act ≡ Act.Stop }
    ensures may { MayDo (M.state worker.new.machine) (M.state worker.new.machine).act }
{
    for _ in rt.forever() {
        if !step(rt, alloc, in_run, worker) {
            return;
        }
        in_run.note(worker.failure.is_some());
    }
    unreachable!()
}

/// Does what the machine does next, and answers whether it hadn't stopped.
fn step<M: Machine, E: OwnEnd, H: Wait>(
    rt: &H,
    alloc: Global,
    in_run: &AnyFailure,
    worker: &mut Worker<M, E>,
) -> bool
    requires way { IsUnderWay (point M.state E.state worker.old) }
    ensures leads { Leads (point M.state E.state worker.old) (point M.state E.state worker.new) }
    ensures stop { result ≡ false → (M.state worker.new.machine).act ≡ Act.Stop }
    ensures may { result ≡ false → MayDo (M.state worker.new.machine) (M.state worker.new.machine).act }
{
    match worker.machine.next() {
        Act::Take(port) => {
            take(rt, alloc, in_run, worker, port);
            true
        }
        Act::Put(port) => {
            put(rt, worker, port);
            true
        }
        Act::Stop => false,
    }
}

/// Takes the piece that the machine takes next.
fn take<M: Machine, E: OwnEnd, H: Wait>(
    rt: &H,
    alloc: Global,
    in_run: &AnyFailure,
    worker: &mut Worker<M, E>,
    port: u32,
)
    requires way { IsUnderWay (point M.state E.state worker.old) }
    requires turn { (M.state worker.old.machine).act ≡ Act.Take port }
    requires may { MayDo (M.state worker.old.machine) (M.state worker.old.machine).act }
    ensures { Leads (point M.state E.state worker.old) (point M.state E.state worker.new) }
{
    if worker.own.is_read() {
        take_from_outside(alloc, in_run, worker, port);
    } else {
        take_from_edge(rt, worker, port);
    }
}

/// Takes it from an edge.
fn take_from_edge<M: Machine, E: OwnEnd, H: Wait>(rt: &H, worker: &mut Worker<M, E>, port: u32)
    requires way { IsUnderWay (point M.state E.state worker.old) }
    requires turn { (M.state worker.old.machine).act ≡ Act.Take port }
    requires may { MayDo (M.state worker.old.machine) (M.state worker.old.machine).act }
    requires reads { (E.state worker.old.own).reads ≡ false }
    ensures { Leads (point M.state E.state worker.old) (point M.state E.state worker.new) }
{
    let piece = take_at(rt, &mut worker.takers, port);
    worker.failure = hand_in(&mut worker.machine, piece, worker.failure);
}

/// Takes it from the outside, where the one in of a node that reads is.
fn take_from_outside<M: Machine, E: OwnEnd>(
    alloc: Global,
    in_run: &AnyFailure,
    worker: &mut Worker<M, E>,
    port: u32,
)
    requires way { IsUnderWay (point M.state E.state worker.old) }
    requires turn { (M.state worker.old.machine).act ≡ Act.Take port }
    requires may { MayDo (M.state worker.old.machine) (M.state worker.old.machine).act }
    requires reads { (E.state worker.old.own).reads ≡ true }
    ensures { Leads (point M.state E.state worker.old) (point M.state E.state worker.new) }
{
    let (piece, failure) = receive(alloc, in_run, &mut worker.own, worker.failure);
    worker.failure = hand_in(&mut worker.machine, piece, failure);
}

/// Reads a piece, or gives Broken in its place: where the node has failed, where its end fails now, and where another node of the run has
/// failed. Nothing more is wanted of its end then, and it breaks off as one that is refused memory: the failure of the other one is told.
fn receive<E: OwnEnd>(
    alloc: Global,
    in_run: &AnyFailure,
    own: &mut E,
    failure: Option<WorldErr>,
) -> (Piece, Option<WorldErr>)
    requires { (E.state own.old).reads ≡ true }
    ensures { Received (E.state own.old) (E.state own.new) failure result.1 result.0 }
{
    if failure.is_some() {
        return (Piece::Broken, failure);
    }
    if in_run.is_noted() {
        return (Piece::Broken, Some(WorldErr::Memory));
    }
    match own.read_piece(alloc) {
        Ok(piece) => (piece, None),
        Err(error) => (Piece::Broken, Some(error)),
    }
}

/// Puts the piece that the machine puts next.
fn put<M: Machine, E: OwnEnd, H: Wait>(rt: &H, worker: &mut Worker<M, E>, port: u32)
    requires way { IsUnderWay (point M.state E.state worker.old) }
    requires turn { (M.state worker.old.machine).act ≡ Act.Put port }
    requires may { MayDo (M.state worker.old.machine) (M.state worker.old.machine).act }
    ensures { Leads (point M.state E.state worker.old) (point M.state E.state worker.new) }
{
    match draw(&mut worker.machine) {
        Ok(piece) => send(rt, worker, port, piece),
        Err(_memory) => worker.failure = wanted(worker.failure),
    }
}

/// Sends a piece on its way, from a port.
fn send<M: Machine, E: OwnEnd, H: Wait>(rt: &H, worker: &mut Worker<M, E>, port: u32, piece: Piece)
    requires { IsHeld (point M.state E.state worker.old) port piece }
    ensures { Sends (point M.state E.state worker.old) port piece (point M.state E.state worker.new) }
{
    match edge_at(worker.own.is_written(), port) {
        Some(edge) => send_to_edge(rt, worker, port, edge, piece),
        None => send_outside(worker, port, piece),
    }
}

/// The edge at a port; none, where the port leads outside.
fn edge_at(writes: bool, port: u32) -> Option<u32>
    ensures { result ≡ edge_at_def writes port }
{
    if writes {
        port.checked_sub(1)
    } else {
        Some(port)
    }
}

/// Puts it on an edge. Where memory is refused the machine is broken, and the piece is let go.
fn send_to_edge<M: Machine, E: OwnEnd, H: Wait>(
    rt: &H,
    worker: &mut Worker<M, E>,
    port: u32,
    edge: u32,
    piece: Piece,
)
    requires held { IsHeld (point M.state E.state worker.old) port piece }
    requires edge { edge_at_def (E.state worker.old.own).writes port ≡ Some edge }
    ensures { Sends (point M.state E.state worker.old) port piece (point M.state E.state worker.new) }
{
    match put_at(rt, &mut worker.givers, edge, piece) {
        Ok(()) => {}
        Err(_memory) => {
            shut_off(&mut worker.machine);
            worker.failure = wanted(worker.failure);
        }
    }
}

/// Writes it to the outside, or lets it go where the node has failed. Where its end fails now the machine is broken.
fn send_outside<M: Machine, E: OwnEnd>(worker: &mut Worker<M, E>, port: u32, piece: Piece)
    requires held { IsHeld (point M.state E.state worker.old) port piece }
    requires edge { edge_at_def (E.state worker.old.own).writes port ≡ None }
    ensures { Sends (point M.state E.state worker.old) port piece (point M.state E.state worker.new) }
{
    if worker.failure.is_some() {
        return;
    }
    match worker.own.write_piece(&piece) {
        Ok(()) => {}
        Err(error) => {
            shut_off(&mut worker.machine);
            worker.failure = Some(error);
        }
    }
}
