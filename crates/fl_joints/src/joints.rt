//! The joints as one type.

use crate::fixed::Fixed;
use crate::gathered::Gathered;
use crate::in_order::InOrder;
use crate::splits::Split;
use crate::sums::CountSum;
use crate::tees::Tee;
use fl_graph::{Act, Machine, Piece};
use fl_machines::{AnyStream, AtPorts};
use ps_lines::Memory;
use ut_sort::Merger;

/// The machine of a node that joins or splits.
#[derive(Drop)]
pub enum Joint {
    /// Inputs joined in order, closed or not.
    InOrder(InOrder),
    /// A text that is given, or an input that nothing is done with.
    Fixed(Fixed),
    /// The sum of counts.
    CountSum(CountSum),
    /// What one stream makes of all inputs, in order.
    Gathered(Gathered<AnyStream>),
    /// Sorted inputs, merged.
    Merge(AtPorts<Merger>),
    /// An input in parts.
    Split(Split),
    /// An input that several outs get.
    Tee(Tee),
}

impl Machine for Joint {
    ghost use Rattle.fl_joints.specs.declared.joints.Joint.TheVariants as variant;

    ghost state = { λ joint. elim joint [
      | variant.InOrder machine ↦ ⟦<InOrder as Machine>⟧.state machine
      | variant.Fixed machine ↦ ⟦<Fixed as Machine>⟧.state machine
      | variant.CountSum machine ↦ ⟦<CountSum as Machine>⟧.state machine
      | variant.Gathered machine ↦ ⟦<Gathered<AnyStream> as Machine>⟧.state machine
      | variant.Merge machine ↦ ⟦<AtPorts<Merger> as Machine>⟧.state machine
      | variant.Split machine ↦ ⟦<Split as Machine>⟧.state machine
      | variant.Tee machine ↦ ⟦<Tee as Machine>⟧.state machine
    ] };

    fn next(&self) -> Act {
        match self {
            Joint::InOrder(machine) => machine.next(),
            Joint::Fixed(machine) => machine.next(),
            Joint::CountSum(machine) => machine.next(),
            Joint::Gathered(machine) => machine.next(),
            Joint::Merge(machine) => machine.next(),
            Joint::Split(machine) => machine.next(),
            Joint::Tee(machine) => machine.next(),
        }
    }

    fn take(&mut self, piece: Piece) -> Result<(), Memory> {
        match self {
            Joint::InOrder(machine) => machine.take(piece),
            Joint::Fixed(machine) => machine.take(piece),
            Joint::CountSum(machine) => machine.take(piece),
            Joint::Gathered(machine) => machine.take(piece),
            Joint::Merge(machine) => machine.take(piece),
            Joint::Split(machine) => machine.take(piece),
            Joint::Tee(machine) => machine.take(piece),
        }
    }

    fn put(&mut self) -> Result<Piece, Memory> {
        match self {
            Joint::InOrder(machine) => machine.put(),
            Joint::Fixed(machine) => machine.put(),
            Joint::CountSum(machine) => machine.put(),
            Joint::Gathered(machine) => machine.put(),
            Joint::Merge(machine) => machine.put(),
            Joint::Split(machine) => machine.put(),
            Joint::Tee(machine) => machine.put(),
        }
    }

    fn break_off(&mut self) {
        match self {
            Joint::InOrder(machine) => machine.break_off(),
            Joint::Fixed(machine) => machine.break_off(),
            Joint::CountSum(machine) => machine.break_off(),
            Joint::Gathered(machine) => machine.break_off(),
            Joint::Merge(machine) => machine.break_off(),
            Joint::Split(machine) => machine.break_off(),
            Joint::Tee(machine) => machine.break_off(),
        }
    }

    fn selected(&self) -> bool {
        match self {
            Joint::InOrder(machine) => machine.selected(),
            Joint::Fixed(machine) => machine.selected(),
            Joint::CountSum(machine) => machine.selected(),
            Joint::Gathered(machine) => machine.selected(),
            Joint::Merge(machine) => machine.selected(),
            Joint::Split(machine) => machine.selected(),
            Joint::Tee(machine) => machine.selected(),
        }
    }
}
