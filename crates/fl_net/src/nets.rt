//! Networks at work.
ghost use Rattle.std.specs.Prelude.{◌≡◌, ◌<◌, ◌≤◌, ◌^◌, not, length, slice_get, get_or, true, false, Ok, Some, IfOk, OnOk, OnErr};
ghost use Rattle.fl_graph.specs.declared.pieces.TheConstants.{MAX_PIECE};
ghost use Rattle.fl_net.specs.Causes.{Causes};
ghost use Rattle.fl_net.specs.Calls.{next_progress, one_more_if, KeepsWiring, OfNode, RunsOn};
ghost use Rattle.fl_net.specs.NodeEnds.{KeepsEnds};
ghost use Rattle.fl_net.specs.Points.{point, Advances, HaltsFrom, IsUnderWay};
ghost use Rattle.fl_net.specs.Runs.{AreDrained, Goes, Halts, HasEnds, Leads};

use crate::ends::NodeEnds;
use crate::outside::{Halt, read_piece, write_piece};
use crate::steps::{Progress, step};
use crate::wires::Wire;
use fl_graph::{MAX_PIECE, Machine, break_machine};
use ps_lines::Memory;
use std::alloc::Global;

/// The most steps that a node makes before the next has its turn.
const STEPS_OF_A_TURN: u32 = 1024;

/// The most steps of a turn of a node that reads from outside: it reads a piece, takes it and puts it. What it read further ahead would only
/// wait: an edge into a node of several ins has no bound.
const STEPS_OF_A_SOURCE: u32 = 3;

/// The edges of a node, in the order of its ports.
///
/// A node that reads has one in, on which the network puts what comes from outside, and one that writes has its first out to there.
#[derive(Drop)]
pub struct Ports {
    pub ins: Vec<u32>,
    pub outs: Vec<u32>,
    pub reads: bool,
    pub writes: bool,
}

/// A graph's machines, and the pieces that wait on its edges.
#[derive(Drop)]
pub struct Net<M: Machine> {
    pub ports: Vec<Ports>,
    pub machines: Vec<M>,
    pub wires: Vec<Wire>,
    /// How many pieces may wait on each edge before a giver has to: None, or no entry, where that has no bound.
    pub rooms: Vec<Option<u32>>,
}

impl<M: Machine> Net<M> {
    ghost use Rattle.std.specs.Prelude.{ℕ, List, Option};
    ghost use Rattle.fl_graph.specs.Machines.{is_take, MayDo};
    ghost use Rattle.fl_net.specs.Inputs.{marked};
    ghost use Rattle.fl_net.specs.Steps.{has_moved, ArePlain, CameTo, Fits, GaveTo, Starves, TookFrom, WentFrom};
    ghost use Rattle.fl_net.specs.Stuck.{is_stuck, IsStuck, IsStuckAt};
    ghost use Rattle.fl_net.specs.declared.nets.Ports.{Ports as Port};

    /// Does what the machine of a node does next, where it can: it starves, waits or has ended exactly where `progress_at` says so, and then
    /// nothing changes. Memory comes only where a piece was to move: the node is broken then, and no piece that was to be put is lost. A step
    /// may be asked for at any time, also of a node that is broken.
    pub fn step(&mut self, node: u32) -> Result<Progress, Memory>
        requires node { (node < length self.old.machines.items) × (node < length self.old.ports.items) }
        requires plain { ArePlain self.old.wires.items }
        requires fits { OfNode self.old node (λ machine own. Fits (M.state machine) own.ins.items own.outs.items (length self.old.wires.items)) }
        ensures leads { IfOk result (λ _. (left taken : ℕ → Option (List ℕ)) →
            Leads M.state self.old.ports.items self.old.machines.items self.new.machines.items self.old.wires.items self.new.wires.items left left taken taken) }
        ensures starves { result ≡ Ok Progress.Starves →
            OfNode self.new node (λ machine own. Starves (M.state machine) own.ins.items self.new.wires.items) }
        ensures over { IfOk result (λ step. RunsOn M.state self.old self.new (one_more_if (has_moved step)) (λ failed. failed)) }
        ensures over_refused { OnErr result ((machine : M) → slice_get self.old.machines.items node ≡ Some machine →
            RunsOn M.state self.old self.new (one_more_if (is_take (M.state machine).act)) (marked node)) }
        ensures broken { OnErr result ((machine : M) → slice_get self.new.machines.items node ≡ Some machine → (M.state machine).broken ≡ true) }
        ensures shut { result ≡ Ok Progress.Ended → (machine : M) → slice_get self.new.machines.items node ≡ Some machine →
            ((port : ℕ) → (M.state machine).takes port ≡ false) × ((port : ℕ) → (M.state machine).puts port ≡ false) }
        ensures answer { IfOk result (λ step. OfNode self.old node (λ machine own. step ≡ next_progress M.state self.old machine own)) }
        ensures may { (machine : M) → slice_get self.old.machines.items node ≡ Some machine → MayDo (M.state machine) (M.state machine).act }
        ensures took { result ≡ Ok Progress.Took → (own : Port) → slice_get self.old.ports.items node ≡ Some own →
            TookFrom own.ins.items self.old.wires.items self.new.wires.items }
        ensures gave { result ≡ Ok Progress.Gave → (own : Port) → slice_get self.old.ports.items node ≡ Some own →
            GaveTo own.outs.items self.old.wires.items self.new.wires.items }
        ensures memory { OnErr result (OfNode self.old node (λ machine own. has_moved (next_progress M.state self.old machine own) ≡ true)) }
        ensures same { IfOk result (λ step. has_moved step ≡ false → (self.new.machines.items ≡ self.old.machines.items) × (self.new.wires.items ≡ self.old.wires.items)) }
        ensures kept { KeepsWiring self.old self.new }
    {
        let ports = &self.ports[node as usize];
        step(
            &mut self.machines[node as usize],
            ports.ins.as_slice(),
            ports.outs.as_slice(),
            self.wires.as_mut_slice(),
            self.rooms.as_slice(),
        )
    }

    /// Breaks the machine of a node off, as where what the node reads or writes outside has failed: whatever comes, it puts no byte more, ends
    /// its outs by `Broken` and takes its ins to their ends.
    pub fn break_off(&mut self, node: u32)
        requires node { (node < length self.old.machines.items) × (node < length self.old.ports.items) }
        ensures over { RunsOn M.state self.old self.new (λ moves. moves) (marked node) }
        ensures broken { (machine : M) → slice_get self.new.machines.items node ≡ Some machine → (M.state machine).broken ≡ true }
        ensures kept { KeepsWiring self.old self.new }
        ensures wires { self.new.wires ≡ self.old.wires }
    {
        break_machine(&mut self.machines[node as usize]);
    }

    /// Reads a piece for a node whose in comes from outside, and puts it there. On a halt the piece is dropped.
    fn read<E: NodeEnds>(
        &mut self,
        alloc: Global,
        node: u32,
        ends: &mut E,
        buffer: &mut [u8],
    ) -> Result<(), Halt>
        requires node { node < length self.old.ports.items }
        requires port { (own : Port) → slice_get self.old.ports.items node ≡ Some own → (0 < length own.ins.items) × (get_or own.ins.items 0 0 < length self.old.wires.items) }
        requires reads { E.reads ends.old node ≡ true }
        requires room { (0 < length buffer.old) × (length buffer.old ≤ MAX_PIECE) }
        ensures leads { OnOk result ((own : Port) (machine : M) → slice_get self.old.ports.items node ≡ Some own → slice_get self.old.machines.items node ≡ Some machine → own.reads ≡ true →
            Starves (M.state machine) own.ins.items self.old.wires.items →
            Leads M.state self.old.ports.items self.old.machines.items self.new.machines.items self.old.wires.items self.new.wires.items
            (E.left ends.old) (E.left ends.new) (E.taken ends.old) (E.taken ends.new)) }
        ensures halts { OnErr result (Halts M.state self.old.ports.items self.old.machines.items self.old.wires.items (E.left ends.old) (E.taken ends.old) (E.taken ends.new)) }
        ensures came { OnOk result ((own : Port) → slice_get self.old.ports.items node ≡ Some own →
            CameTo (get_or own.ins.items 0 0) self.old.wires.items self.new.wires.items) }
        ensures kept { KeepsWiring self.old self.new }
        ensures kept_ends { KeepsEnds E.reads E.writes E.borrows ends.old ends.new }
        ensures cause { Causes (E.faults ends.old) (E.faults ends.new) result }
    {
        let edge = self.ports[node as usize].ins[0];
        let wire = &mut self.wires[edge as usize];
        let piece = match read_piece(alloc, node, ends, buffer) {
            Ok(piece) => piece,
            Err(halt) => return Err(halt),
        };
        match wire.push(piece) {
            Ok(()) => Ok(()),
            Err(_refused) => Err(Halt::Memory),
        }
    }

    /// Writes the piece that waits for the outside at a node whose out goes there, where one waits.
    fn write<E: NodeEnds>(&mut self, node: u32, ends: &mut E) -> Result<(), Halt>
        requires node { node < length self.old.ports.items }
        requires port { (own : Port) → slice_get self.old.ports.items node ≡ Some own → (0 < length own.outs.items) × (get_or own.outs.items 0 0 < length self.old.wires.items) }
        requires writes { E.writes ends.old node ≡ true }
        ensures leads { OnOk result ((own : Port) → slice_get self.old.ports.items node ≡ Some own → own.writes ≡ true →
            Leads M.state self.old.ports.items self.old.machines.items self.new.machines.items self.old.wires.items self.new.wires.items
            (E.left ends.old) (E.left ends.new) (E.taken ends.old) (E.taken ends.new)) }
        ensures halts { OnErr result ((own : Port) → slice_get self.old.ports.items node ≡ Some own → own.writes ≡ true →
            Halts M.state self.old.ports.items self.old.machines.items self.old.wires.items (E.left ends.old) (E.taken ends.old) (E.taken ends.new)) }
        ensures went { OnOk result ((own : Port) → slice_get self.old.ports.items node ≡ Some own →
            WentFrom (get_or own.outs.items 0 0) self.old.wires.items self.new.wires.items) }
        ensures kept { KeepsWiring self.old self.new }
        ensures kept_ends { KeepsEnds E.reads E.writes E.borrows ends.old ends.new }
        ensures cause { Causes (E.faults ends.old) (E.faults ends.new) result }
    {
        let edge = self.ports[node as usize].outs[0];
        let Some(piece) = self.wires[edge as usize].pop() else {
            return Ok(());
        };
        write_piece(node, ends, &piece)
    }

    /// Does one step of a node, and what it asks of the outside; answers whether the node could do anything, and where it couldn't, nothing has changed.
    pub fn turn<E: NodeEnds>(
        &mut self,
        alloc: Global,
        node: u32,
        ends: &mut E,
        buffer: &mut [u8],
    ) -> Result<bool, Halt>
        requires node { (node < length self.old.machines.items) × (node < length self.old.ports.items) }
        requires goes { Goes M.state self.old.ports.items self.old.machines.items self.old.wires.items (E.left ends.old) (E.taken ends.old) }
        requires ends { HasEnds self.old.ports.items (E.reads ends.old) (E.writes ends.old) }
        requires room { (0 < length buffer.old) × (length buffer.old ≤ MAX_PIECE) }
        ensures leads { OnOk result (Leads M.state self.old.ports.items self.old.machines.items self.new.machines.items self.old.wires.items self.new.wires.items
            (E.left ends.old) (E.left ends.new) (E.taken ends.old) (E.taken ends.new)) }
        ensures halts { OnErr result (Halts M.state self.old.ports.items self.old.machines.items self.old.wires.items (E.left ends.old) (E.taken ends.old) (E.taken ends.new)) }
        ensures same { result ≡ Ok false → (self.new.machines.items ≡ self.old.machines.items) × (self.new.wires.items ≡ self.old.wires.items) × (ends.new ≡ ends.old) }
        ensures drained { OnOk result (AreDrained self.old.ports.items self.old.wires.items → AreDrained self.new.ports.items self.new.wires.items) }
        ensures answer { IfOk result (λ moved.
            OfNode self.old node (λ machine own. moved ≡ not (is_stuck (next_progress M.state self.old machine own) own.reads))) }
        ensures stuck { result ≡ Ok false → IsStuckAt M.state self.old.ports.items self.old.machines.items self.old.rooms.items self.old.wires.items node }
        ensures kept { KeepsWiring self.old self.new }
        ensures buffer { length buffer.new ≡ length buffer.old }
        ensures kept_ends { KeepsEnds E.reads E.writes E.borrows ends.old ends.new }
        ensures cause { Causes (E.faults ends.old) (E.faults ends.new) result }
    {
        let progress = match self.step(node) {
            Ok(progress) => progress,
            Err(_refused) => return Err(Halt::Memory),
        };
        match progress {
            Progress::Starves if self.reads(node) => match self.read(alloc, node, ends, buffer) {
                Ok(()) => Ok(true),
                Err(halt) => Err(halt),
            },
            Progress::Gave if self.writes(node) => match self.write(node, ends) {
                Ok(()) => Ok(true),
                Err(halt) => Err(halt),
            },
            Progress::Took => Ok(true),
            Progress::Gave => Ok(true),
            Progress::Starves | Progress::Waits | Progress::Ended => Ok(false),
        }
    }

    /// Lets a node go on for as many steps at most as a turn has, as long as it can; answers whether it could do anything, and where it couldn't, nothing has
    /// changed.
    fn run_node<E: NodeEnds>(
        &mut self,
        alloc: Global,
        node: u32,
        ends: &mut E,
        buffer: &mut [u8],
    ) -> Result<bool, Halt>
        requires node { node < length self.old.machines.items }
        requires way { IsUnderWay M.state (point E.left E.taken E.reads E.writes E.faults self.old ends.old) }
        requires room { (0 < length buffer.old) × (length buffer.old ≤ MAX_PIECE) }
        ensures ok { OnOk result (Advances M.state (point E.left E.taken E.reads E.writes E.faults self.old ends.old)
            (point E.left E.taken E.reads E.writes E.faults self.new ends.new)) }
        ensures err { OnErr result (HaltsFrom M.state (point E.left E.taken E.reads E.writes E.faults self.old ends.old) (E.taken ends.new)) }
        ensures rooms { self.new.rooms ≡ self.old.rooms }
        ensures same { result ≡ Ok false → (self.new.machines.items ≡ self.old.machines.items) × (self.new.wires.items ≡ self.old.wires.items) × (ends.new ≡ ends.old) }
        ensures answer { IfOk result (λ moved.
            OfNode self.old node (λ machine own. moved ≡ not (is_stuck (next_progress M.state self.old machine own) own.reads))) }
        ensures stuck { result ≡ Ok false → IsStuckAt M.state self.old.ports.items self.old.machines.items self.old.rooms.items self.old.wires.items node }
        ensures buffer { length buffer.new ≡ length buffer.old }
        ensures borrows { E.borrows ends.new ≡ E.borrows ends.old }
        ensures cause { Causes (E.faults ends.old) (E.faults ends.new) result }
    {
        match self.turn(alloc, node, ends, buffer) {
            Ok(true) => {}
            Ok(false) => return Ok(false),
            Err(halt) => return Err(halt),
        }
        let steps = if self.reads(node) {
            STEPS_OF_A_SOURCE
        } else {
            STEPS_OF_A_TURN
        };
        for _ in 1..steps {
            match self.turn(alloc, node, ends, buffer) {
                Ok(true) => continue,
                Ok(false) => break,
                Err(halt) => return Err(halt),
            }
        }
        Ok(true)
    }

    /// Gives each node its turn, in order; answers whether a piece has moved, and where none has, nothing has changed.
    fn sweep<E: NodeEnds>(
        &mut self,
        alloc: Global,
        ends: &mut E,
        buffer: &mut [u8],
    ) -> Result<bool, Halt>
        requires few { length self.old.machines.items < 2 ^ 32 }
        requires way { IsUnderWay M.state (point E.left E.taken E.reads E.writes E.faults self.old ends.old) }
        requires room { (0 < length buffer.old) × (length buffer.old ≤ MAX_PIECE) }
        ensures ok { OnOk result (Advances M.state (point E.left E.taken E.reads E.writes E.faults self.old ends.old)
            (point E.left E.taken E.reads E.writes E.faults self.new ends.new)) }
        ensures err { OnErr result (HaltsFrom M.state (point E.left E.taken E.reads E.writes E.faults self.old ends.old) (E.taken ends.new)) }
        ensures rooms { self.new.rooms ≡ self.old.rooms }
        ensures same { result ≡ Ok false → (self.new.machines.items ≡ self.old.machines.items) × (self.new.wires.items ≡ self.old.wires.items) × (ends.new ≡ ends.old) }
        ensures stuck { result ≡ Ok false → IsStuck M.state self.old.ports.items self.old.machines.items self.old.rooms.items self.old.wires.items }
        ensures moved { result ≡ Ok true → IsStuck M.state self.old.ports.items self.old.machines.items self.old.rooms.items self.old.wires.items → ⊥ }
        ensures buffer { length buffer.new ≡ length buffer.old }
        ensures borrows { E.borrows ends.new ≡ E.borrows ends.old }
        ensures cause { Causes (E.faults ends.old) (E.faults ends.new) result }
    {
        let mut moved = false;
        for node in 0..self.machines.len() as u32 {
            match self.run_node(alloc, node, ends, buffer) {
                Ok(went_on) => moved |= went_on,
                Err(halt) => return Err(halt),
            }
        }
        Ok(moved)
    }

    /// Gives the nodes their turns until no piece moves any more. More than 2^64 turns want memory.
    pub fn run<E: NodeEnds>(
        &mut self,
        alloc: Global,
        ends: &mut E,
        buffer: &mut [u8],
    ) -> Result<(), Halt>
        requires few { length self.old.machines.items < 2 ^ 32 }
        requires way { IsUnderWay M.state (point E.left E.taken E.reads E.writes E.faults self.old ends.old) }
        requires room { (0 < length buffer.old) × (length buffer.old ≤ MAX_PIECE) }
        ensures ok { OnOk result (Advances M.state (point E.left E.taken E.reads E.writes E.faults self.old ends.old)
            (point E.left E.taken E.reads E.writes E.faults self.new ends.new)) }
        ensures err { OnErr result (HaltsFrom M.state (point E.left E.taken E.reads E.writes E.faults self.old ends.old) (E.taken ends.new)) }
        ensures stuck { OnOk result (IsStuck M.state self.new.ports.items self.new.machines.items self.new.rooms.items self.new.wires.items) }
        ensures rooms { self.new.rooms ≡ self.old.rooms }
        ensures buffer { length buffer.new ≡ length buffer.old }
        ensures borrows { E.borrows ends.new ≡ E.borrows ends.old }
        ensures cause { Causes (E.faults ends.old) (E.faults ends.new) result }
    {
        for _ in 0..u64::MAX {
            match self.sweep(alloc, ends, buffer) {
                Ok(true) => {}
                Ok(false) => return Ok(()),
                Err(halt) => return Err(halt),
            }
        }
        Err(Halt::Memory)
    }

    /// Whether a node reads from outside.
    fn reads(&self, node: u32) -> bool
        requires { node < length self.now.ports.items }
        ensures { (own : Port) → slice_get self.now.ports.items node ≡ Some own → result ≡ own.reads }
    {
        self.ports[node as usize].reads
    }

    /// Whether a node writes to the outside.
    fn writes(&self, node: u32) -> bool
        requires { node < length self.now.ports.items }
        ensures { (own : Port) → slice_get self.now.ports.items node ≡ Some own → result ≡ own.writes }
    {
        self.ports[node as usize].writes
    }
}
