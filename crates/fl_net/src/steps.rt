//! A step of a node's machine.
ghost use Rattle.std.specs.Prelude.{◌≡◌, ℕ, true, false, [], if◌then◌else◌, length, Ok, IfOk, OnErr};
ghost use Rattle.std.specs.List.{list_all};
ghost use Rattle.fl_graph.specs.Machines.{is_take, MayDo};
ghost use Rattle.fl_net.specs.Steps.{is_empty, is_full, is_plain, progress_at, room_on as room_on_def, has_moved as has_moved_def, ArePlain, Broke, Fits, Gave, GaveLast, Starves, Took, TookFirst};

use crate::wires::Wire;
use fl_graph::{Act, Machine, take_piece};
use ps_lines::Memory;

/// What came of a step.
#[derive(Clone, Copy, Debug, PartialEq, Eq)]
pub enum Progress {
    /// A piece was taken.
    Took,
    /// A piece was put.
    Gave,
    /// Nothing: the next act takes from an edge on which nothing waits.
    Starves,
    /// Nothing: the next act puts on an edge that is full.
    Waits,
    /// Nothing: the machine has stopped.
    Ended,
}

impl Progress {
    /// Whether a piece has moved.
    pub fn has_moved(self) -> bool
        ensures { result ≡ has_moved_def self }
    {
        self == Progress::Took || self == Progress::Gave
    }
}

/// Does what a node's machine does next, where it can, over the wires of the node's edges.
///
/// `rooms` tells of each edge how many pieces may wait there before a giver has to. On Memory the machine is broken: the piece that it took
/// is gone, and where it was to put one nothing has changed on the wires.
pub fn step<M: Machine>(
    machine: &mut M,
    ins: &[u32],
    outs: &[u32],
    wires: &mut [Wire],
    rooms: &[Option<u32>],
) -> Result<Progress, Memory>
    requires plain { ArePlain wires.old }
    requires fits { Fits (M.state machine.old) ins.now outs.now (length wires.old) }
    ensures took { result ≡ Ok Progress.Took → Took (M.state machine.old) (M.state machine.new) ins.now false wires.old wires.new }
    ensures gave { result ≡ Ok Progress.Gave → Gave (M.state machine.old) (M.state machine.new) outs.now wires.old wires.new }
    ensures starves { result ≡ Ok Progress.Starves → Starves (M.state machine.new) ins.now wires.new }
    ensures same { IfOk result (λ step. has_moved_def step ≡ false → (machine.new ≡ machine.old) × (wires.new ≡ wires.old)) }
    ensures shut { result ≡ Ok Progress.Ended → ((port : ℕ) → (M.state machine.new).takes port ≡ false) × ((port : ℕ) → (M.state machine.new).puts port ≡ false) }
    ensures answer { IfOk result (λ step. step ≡ progress_at (M.state machine.old).act ins.now outs.now rooms.now wires.old) }
    ensures may { MayDo (M.state machine.old) (M.state machine.old).act }
    ensures memory { OnErr result (has_moved_def (progress_at (M.state machine.old).act ins.now outs.now rooms.now wires.old) ≡ true) }
    ensures refused_take { OnErr result (is_take (M.state machine.old).act ≡ true → Took (M.state machine.old) (M.state machine.new) ins.now true wires.old wires.new) }
    ensures refused_put { OnErr result (is_take (M.state machine.old).act ≡ false → Broke (M.state machine.old) (M.state machine.new) × (wires.new ≡ wires.old)) }
    ensures broken { OnErr result ((M.state machine.new).broken ≡ true) }
    ensures width { length wires.new ≡ length wires.old }
{
    match machine.next() {
        Act::Take(port) => take_first(machine, port, &mut wires[ins[port as usize] as usize]),
        Act::Put(port) => {
            let edge = outs[port as usize];
            let room = room_on(rooms, edge);
            give_last(machine, port, &mut wires[edge as usize], room)
        }
        Act::Stop => Ok(Progress::Ended),
    }
}

/// Takes the first piece that waits on the wire, where one does.
fn take_first<M: Machine>(machine: &mut M, port: u32, wire: &mut Wire) -> Result<Progress, Memory>
    requires turn { (M.state machine.old).act ≡ Act.Take port }
    requires plain { list_all is_plain wire.old ≡ true }
    ensures took { result ≡ Ok Progress.Took → TookFirst (M.state machine.old) (M.state machine.new) port false wire.old wire.new }
    ensures refused { OnErr result (TookFirst (M.state machine.old) (M.state machine.new) port true wire.old wire.new) }
    ensures broken { OnErr result ((M.state machine.new).broken ≡ true) }
    ensures starves { result ≡ Ok Progress.Starves → (wire.old ≡ []) × (wire.new ≡ []) × (machine.new ≡ machine.old) }
    ensures answer { IfOk result (λ step. step ≡ (if is_empty wire.old then Progress.Starves else Progress.Took)) }
    ensures memory { OnErr result (is_empty wire.old ≡ false) }
{
    let Some(piece) = wire.pop() else {
        return Ok(Progress::Starves);
    };
    match take_piece(machine, piece) {
        Ok(()) => Ok(Progress::Took),
        Err(memory) => Err(memory),
    }
}

/// How many pieces may wait on an edge, where that is bounded.
fn room_on(rooms: &[Option<u32>], edge: u32) -> Option<u32>
    ensures { result ≡ room_on_def rooms.now edge }
{
    match rooms.get(edge as usize) {
        Some(room) => *room,
        None => None,
    }
}

/// Puts a piece behind those that wait on the wire, where there is room for it.
fn give_last<M: Machine>(
    machine: &mut M,
    port: u32,
    wire: &mut Wire,
    room: Option<u32>,
) -> Result<Progress, Memory>
    requires turn { (M.state machine.old).act ≡ Act.Put port }
    requires may { MayDo (M.state machine.old) (M.state machine.old).act }
    requires plain { (M.state machine.old).numbered_outs port ≡ false }
    ensures gave { result ≡ Ok Progress.Gave → GaveLast (M.state machine.old) (M.state machine.new) port wire.old wire.new }
    ensures refused { OnErr result (Broke (M.state machine.old) (M.state machine.new) × (wire.new ≡ wire.old)) }
    ensures broken { OnErr result ((M.state machine.new).broken ≡ true) }
    ensures waits { result ≡ Ok Progress.Waits → (wire.new ≡ wire.old) × (machine.new ≡ machine.old) }
    ensures answer { IfOk result (λ step. step ≡ (if is_full room wire.old then Progress.Waits else Progress.Gave)) }
    ensures memory { OnErr result (is_full room wire.old ≡ false) }
{
    if wire.is_full(room) {
        return Ok(Progress::Waits);
    }
    match wire.push_from(machine) {
        Ok(()) => Ok(Progress::Gave),
        Err(memory) => Err(memory),
    }
}
