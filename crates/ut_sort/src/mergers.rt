//! The merge of texts in order, as a stream over its ports.
ghost use Rattle.std.specs.Prelude.{◌≡◌, ◌<◌, ◌≤◌, ◌^◌, ◌==◌, ℕ, List, length, vec_len, nat_lt, false, true, IfOk, OnOk, if◌then◌else◌};
ghost use Rattle.std.specs.Result.{is_ok};
ghost use Rattle.ut_streams.specs.Streams.{comes_before, ends_at, Wrote};
ghost use Rattle.ut_sort.specs.LineOrders.{cmp_by};
ghost use Rattle.ut_sort.specs.Merging.{merged_of};
ghost use Rattle.ut_sort.specs.Order.{order_of};
ghost use Rattle.ut_sort.specs.Sides.{due_of, first_waiting as first_waiting_def, is_open_at, total_held, Goes, IsSettled};

use crate::choices::{Choice, choose};
use crate::line_orders::LineOrder;
use crate::sides::{end, first_waiting, held_of, hold, open_sides, pass};
use crate::texts::Side;
use ps_lines::Memory;
use std::alloc::Global;
use ut_args::SortInv;
use ut_streams::{PortStream, put_line};

/// Merges texts in order that come at its ports: of equal lines that of the first port goes first, and with `-u` those of the later ports
/// are left out. A line goes on as soon as each port has one, or has ended; of a port that is waited for the beginning of a line is held.
///
/// With two ports it compares once for each line that is put or left out, at most.
#[derive(Drop)]
pub struct Merger {
    order: LineOrder,
    sides: Vec<Side>,
    spent: bool,
    ghost counted: { vec_len sides < 2 ^ 32 },
    ghost settled: { spent ≡ false → IsSettled sides.items },
}

impl Merger {
    /// The stream of one invocation with so many ports, from the beginning of its inputs.
    #[tactic(auto, using(crate::proofs::MergerLemmas::begins))]
    pub fn new(alloc: Global, inv: &SortInv, ports: u32) -> Result<Merger, Memory>
        ensures due { IfOk result (λ merger. (texts : ℕ → List ℕ) → ⟦<Merger as PortStream>⟧.due merger texts ≡ merged_of (order_of inv.now.args) inv.now.args.unique texts ports) }
        ensures opens { IfOk result (λ merger. (port : ℕ) → ⟦<Merger as PortStream>⟧.open_at merger port ≡ nat_lt port ports) }
        ensures unspent { IfOk result (λ merger. ⟦<Merger as PortStream>⟧.spent merger ≡ false) }
    {
        let order = LineOrder::new(alloc, &inv.args)?;
        let sides = open_sides(alloc, ports)?;
        Ok(Merger {
            order,
            sides,
            spent: false,
        })
    }
}

impl PortStream for Merger {
    ghost due = { λ merger. due_of (cmp_by merger.order) merger.order.unique merger.sides.items };

    ghost wanted = { λ merger. first_waiting_def 0 merger.sides.items };

    ghost open_at = { λ merger port. is_open_at merger.sides.items port };

    ghost spent = { λ merger. merger.spent };

    #[tactic(auto, using(crate::proofs::MergerLemmas::needs))]
    fn needs(&self) -> Option<u32> {
        match first_waiting(self.sides.as_slice()) {
            Some(port) => Some(port),
            None => None,
        }
    }

    fn feed_port(&mut self, port: u32, piece: &[u8], out: &mut Vec<u8>) -> Result<(), Memory> {
        let fed = feed(&self.order, &mut self.sides, port, piece, out);
        self.spent = fed.is_err();
        fed
    }

    fn end_port(&mut self, port: u32, out: &mut Vec<u8>) -> Result<(), Memory> {
        let ended = end_at(&self.order, &mut self.sides, port, out);
        self.spent = ended.is_err();
        ended
    }

    fn is_spent(&self) -> bool {
        self.spent
    }
}

/// Takes the next piece at a port, and writes what is determined by now.
#[tactic(auto, using(crate::proofs::MergerLemmas::feeds))]
fn feed(
    order: &LineOrder,
    sides: &mut Vec<Side>,
    port: u32,
    piece: &[u8],
    out: &mut Vec<u8>,
) -> Result<(), Memory>
    requires waiting { first_waiting_def 0 sides.old.items ≡ Some port }
    ensures wrote { Wrote (λ texts. due_of (cmp_by order.now) order.now.unique sides.old.items (comes_before port piece.now texts)) (due_of (cmp_by order.now) order.now.unique sides.new.items) out.old.items out.new.items (is_ok result) }
    ensures opens { (other : ℕ) → is_open_at sides.new.items other ≡ is_open_at sides.old.items other }
    ensures counted { length sides.new.items ≡ length sides.old.items }
    ensures settled { OnOk result (IsSettled sides.new.items) }
{
    match hold(sides, port, piece) {
        Ok(()) => advance(order, sides, out),
        Err(memory) => Err(memory),
    }
}

/// A port has ended: writes what is determined by now.
#[tactic(auto, using(crate::proofs::MergerLemmas::feeds))]
fn end_at(
    order: &LineOrder,
    sides: &mut Vec<Side>,
    port: u32,
    out: &mut Vec<u8>,
) -> Result<(), Memory>
    requires waiting { first_waiting_def 0 sides.old.items ≡ Some port }
    ensures wrote { Wrote (λ texts. due_of (cmp_by order.now) order.now.unique sides.old.items (ends_at port texts)) (due_of (cmp_by order.now) order.now.unique sides.new.items) out.old.items out.new.items (is_ok result) }
    ensures opens { (other : ℕ) → is_open_at sides.new.items other ≡ (if other == port then false else is_open_at sides.old.items other) }
    ensures counted { length sides.new.items ≡ length sides.old.items }
    ensures settled { OnOk result (IsSettled sides.new.items) }
{
    match end(sides, port) {
        Ok(()) => advance(order, sides, out),
        Err(memory) => Err(memory),
    }
}

/// Writes what is determined by now.
#[tactic(auto, using(crate::proofs::MergerLemmas::steps))]
fn advance(order: &LineOrder, sides: &mut Vec<Side>, out: &mut Vec<u8>) -> Result<(), Memory>
    ensures goes { Goes (cmp_by order.now) order.now.unique sides.old.items sides.new.items out.old.items out.new.items (is_ok result) }
    ensures settled { OnOk result (IsSettled sides.new.items) }
{
    let mut goes_on = true;
    while goes_on {
        match go_on(order, sides, out) {
            Ok(more) => goes_on = more,
            Err(memory) => return Err(memory),
        }
    }
    Ok(())
}

/// Puts the line that goes next, or leaves it out: whether there was one.
#[tactic(auto, using(crate::proofs::MergerLemmas::steps))]
fn go_on(order: &LineOrder, sides: &mut Vec<Side>, out: &mut Vec<u8>) -> Result<bool, Memory>
    ensures goes { Goes (cmp_by order.now) order.now.unique sides.old.items sides.new.items out.old.items out.new.items (is_ok result) }
    ensures no_longer { OnOk result (total_held sides.new.items ≤ total_held sides.old.items) }
    ensures shorter { IfOk result (λ more. more ≡ true → total_held sides.new.items < total_held sides.old.items) }
    ensures settled { IfOk result (λ more. more ≡ false → IsSettled sides.new.items) }
{
    match choose(order, sides.as_slice()) {
        Choice::Wait => Ok(false),
        Choice::Done => Ok(false),
        Choice::Put { port, size } => match put_line(
            &held_of(sides.as_slice(), port)[..size],
            out,
        ) {
            Ok(()) => {
                pass(sides, port, size + 1);
                Ok(true)
            }
            Err(memory) => Err(memory),
        },
        Choice::Leave { port, size } => {
            pass(sides, port, size + 1);
            Ok(true)
        }
    }
}
