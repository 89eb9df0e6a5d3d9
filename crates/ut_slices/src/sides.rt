//! A paste of lines side by side.
ghost use Rattle.std.specs.Prelude.{◌≡◌, ◌∷◌, ◌==◌, ℕ, List, [], take, nat_lt, slice_get, None, Some, true, false, IfOk, OnOk, if◌then◌else◌};
ghost use Rattle.std.specs.Result.{is_ok};
ghost use Rattle.ut_args.specs.Inputs.{shared_inputs};
ghost use Rattle.ut_streams.specs.Streams.{comes_before, ends_at, Wrote};
ghost use Rattle.ut_slices.specs.Paste.{column_inputs, side_by_side};
ghost use Rattle.ut_slices.specs.Inner.Ports.{is_open_at};
ghost use Rattle.ut_slices.specs.Inner.Rows.{due_of_walk, has_port, IsRead, IsSettled};

use crate::columns::{Columns, columns_of};
use crate::delimiters::behind_none;
use crate::ports::{end, hold, open_ports};
use crate::rows::advance;
use crate::waits::Port;
use crate::walks::{Plan, Walk};
use ps_lines::Memory;
use std::alloc::Global;
use ut_args::PasteArgs;
use ut_streams::PortStream;

/// Rows of lines side by side, each of the inputs at its port.
#[derive(Drop)]
pub struct Side {
    plan: Plan,
    walk: Walk,
    spent: bool,
    ghost read: { IsRead plan walk },
    ghost settled: { spent ≡ false → IsSettled plan walk },
}

impl Side {
    /// The stream of these arguments, from the beginning of its inputs.
    #[tactic(auto, using(crate::proofs::SideStepLemmas::begins))]
    pub fn new(alloc: Global, args: &PasteArgs) -> Result<Side, Memory>
        ensures due { IfOk result (λ side. (texts : ℕ → List ℕ) → ⟦<Side as PortStream>⟧.due side texts ≡ side_by_side args.now.delimiters (column_inputs args.now.operands) texts) }
        ensures opens { IfOk result (λ side. (port : ℕ) → ⟦<Side as PortStream>⟧.open_at side port ≡ has_port port (column_inputs args.now.operands)) }
        ensures ports { IfOk result (λ side. (port : ℕ) → ⟦<Side as PortStream>⟧.open_at side port ≡ nat_lt port (shared_inputs args.now.operands)) }
        ensures unspent { IfOk result (λ side. ⟦<Side as PortStream>⟧.spent side ≡ false) }
    {
        let Columns {
            inputs,
            next,
            standard: _,
        } = columns_of(alloc, args.operands.as_slice())?;
        let ports = open_ports(alloc, next)?;
        let delimiters = behind_none(alloc, args.delimiters.as_slice())?;
        let plan = plan_of(delimiters, inputs);
        let walk = walk_of(alloc, ports);
        Ok(Side {
            plan,
            walk,
            spent: false,
        })
    }
}

fn plan_of(delimiters: Vec<Option<u8>>, columns: Vec<u32>) -> Plan
    requires { take 1 delimiters.items ≡ None ∷ [] }
    ensures delimiters { result.delimiters.items ≡ delimiters.items }
    ensures columns { result.columns.items ≡ columns.items }
{
    Plan {
        delimiters,
        columns,
    }
}

/// A walk at the beginning of the first row.
fn walk_of(alloc: Global, ports: Vec<Port>) -> Walk
    ensures ports { result.ports.items ≡ ports.items }
    ensures column { result.column ≡ 0 }
    ensures delimiter { result.delimiter ≡ 0 }
    ensures front { result.front.items ≡ [] }
    ensures begun { result.begun ≡ false }
    ensures within { result.within ≡ false }
{
    Walk {
        ports,
        column: 0,
        delimiter: 0,
        front: Vec::new(alloc),
        begun: false,
        within: false,
    }
}

impl PortStream for Side {
    ghost due = { λ side. due_of_walk side.plan side.walk };

    ghost wanted = { λ side. slice_get side.plan.columns.items side.walk.column };

    ghost open_at = { λ side port. is_open_at side.walk.ports.items port };

    ghost spent = { λ side. side.spent };

    #[tactic(auto, using(crate::proofs::SideStepLemmas::needs))]
    fn needs(&self) -> Option<u32> {
        match column_at(self.plan.columns.as_slice(), self.walk.column) {
            Some(port) => Some(port),
            None => None,
        }
    }

    fn feed_port(&mut self, port: u32, piece: &[u8], out: &mut Vec<u8>) -> Result<(), Memory> {
        let fed = feed(&self.plan, &mut self.walk, port, piece, out);
        self.spent = fed.is_err();
        fed
    }

    fn end_port(&mut self, port: u32, out: &mut Vec<u8>) -> Result<(), Memory> {
        let ended = end_at(&self.plan, &mut self.walk, port, out);
        self.spent = ended.is_err();
        ended
    }

    fn is_spent(&self) -> bool {
        self.spent
    }
}

/// The port of the column at a place.
fn column_at(columns: &[u32], place: usize) -> Option<u32>
    ensures { result ≡ slice_get columns.now place }
{
    columns.get(place).copied()
}

/// Takes the next piece at a port, and writes what is determined by now.
#[tactic(auto, using(crate::proofs::SideStepLemmas::feeds))]
fn feed(
    plan: &Plan,
    walk: &mut Walk,
    port: u32,
    piece: &[u8],
    out: &mut Vec<u8>,
) -> Result<(), Memory>
    requires open { is_open_at walk.old.ports.items port ≡ true }
    ensures wrote { Wrote (λ texts. due_of_walk plan.now walk.old (comes_before port piece.now texts)) (due_of_walk plan.now walk.new) out.old.items out.new.items (is_ok result) }
    ensures opens { (other : ℕ) → is_open_at walk.new.ports.items other ≡ is_open_at walk.old.ports.items other }
    ensures reads { IsRead plan.now walk.old → IsRead plan.now walk.new }
    ensures settled { OnOk result (IsSettled plan.now walk.new) }
{
    match hold(&mut walk.ports, port, piece) {
        Ok(()) => advance(plan, walk, out),
        Err(memory) => Err(memory),
    }
}

/// A port has ended: writes what is determined by now.
#[tactic(auto, using(crate::proofs::SideStepLemmas::feeds))]
fn end_at(plan: &Plan, walk: &mut Walk, port: u32, out: &mut Vec<u8>) -> Result<(), Memory>
    ensures wrote { Wrote (λ texts. due_of_walk plan.now walk.old (ends_at port texts)) (due_of_walk plan.now walk.new) out.old.items out.new.items (is_ok result) }
    ensures opens { (other : ℕ) → is_open_at walk.new.ports.items other ≡ (if other == port then false else is_open_at walk.old.ports.items other) }
    ensures reads { IsRead plan.now walk.old → IsRead plan.now walk.new }
    ensures settled { OnOk result (IsSettled plan.now walk.new) }
{
    end(&mut walk.ports, port);
    advance(plan, walk, out)
}
