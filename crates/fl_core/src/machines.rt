//! The machine of any node.
ghost use Rattle.std.specs.Prelude.{◌≡◌, ◌||◌, true, false, IfOk};
ghost use Rattle.fl_graph.specs.Kinds.{may_have, reads_one_input, runs_what_is_built};
ghost use Rattle.fl_classes.specs.Nodes.{Begins};
ghost use Rattle.fl_classes.specs.Flow.{is_source};
ghost use Rattle.fl_classes.specs.Kinds.{is_run, is_sink, run_kind, run_ins, run_outs};
ghost use Rattle.fl_machines.specs.Kinds.{runs_utility as runs_utility_def};

use fl_graph::{Act, Machine, NodeKind, Piece};
use fl_joints::{Joint, joint};
use fl_machines::{UtilMachine, util_machine};
use ps_lines::Memory;
use std::alloc::Global;

/// The machine that runs a node.
#[derive(Drop)]
pub enum NodeMachine {
    /// That of a node which runs a utility.
    Util(UtilMachine),
    /// That of a node which joins, splits, or hands its input on.
    Joint(Joint),
}

/// The machine of a node of this kind with so many ins and outs, at its beginning.
///
/// A source and a sink hand on what comes: that of a source from outside, and that of a sink to the outside. A node that writes a file and
/// hands on does so on two outs, of which the first leads to the outside.
#[tactic(auto, using(crate::proofs::KindLemmas::joint_if_run))]
pub fn node_machine(
    alloc: Global,
    kind: &NodeKind,
    ins: u32,
    outs: u32,
) -> Result<NodeMachine, Memory>
    requires known { is_run kind.now ≡ true }
    requires ports { may_have kind.now ins outs ≡ true }
    requires inputs { reads_one_input kind.now ≡ true }
    requires built { runs_what_is_built kind.now ≡ true }
    ensures { IfOk result (λ machine. Begins (run_kind kind.now) (run_ins kind.now ins) (run_outs kind.now outs)
        (⟦<NodeMachine as Machine>⟧.state machine)) }
{
    if is_end(kind) {
        return hand_on(alloc);
    }
    if runs_utility(kind) {
        return Ok(NodeMachine::Util(util_machine(alloc, kind, ins, outs)?));
    }
    Ok(NodeMachine::Joint(joint(alloc, kind, ins, outs)?))
}

/// Whether this is a source or a sink.
fn is_end(kind: &NodeKind) -> bool
    ensures { result ≡ (is_source kind.now || is_sink kind.now) }
{
    matches!(kind, NodeKind::Source(_) | NodeKind::Sink(_))
}

/// Whether this is a map, a whole or a finish.
fn runs_utility(kind: &NodeKind) -> bool
    ensures { result ≡ runs_utility_def kind.now }
{
    matches!(
        kind,
        NodeKind::Map(_) | NodeKind::Whole(_) | NodeKind::Finish(_)
    )
}

/// The machine that hands on what comes.
fn hand_on(alloc: Global) -> Result<NodeMachine, Memory>
    ensures { IfOk result (λ machine. Begins (NodeKind.Cat false) 1 1
        (⟦<NodeMachine as Machine>⟧.state machine)) }
{
    match joint(alloc, &NodeKind::Cat { close: false }, 1, 1) {
        Ok(joint) => Ok(NodeMachine::Joint(joint)),
        Err(memory) => Err(memory),
    }
}

impl Machine for NodeMachine {
    ghost use Rattle.fl_core.specs.declared.machines.NodeMachine.TheVariants as variant;

    ghost state = { λ node. elim node [
      | variant.Util machine ↦ ⟦<UtilMachine as Machine>⟧.state machine
      | variant.Joint machine ↦ ⟦<Joint as Machine>⟧.state machine
    ] };

    fn next(&self) -> Act {
        match self {
            NodeMachine::Util(machine) => machine.next(),
            NodeMachine::Joint(machine) => machine.next(),
        }
    }

    fn take(&mut self, piece: Piece) -> Result<(), Memory> {
        match self {
            NodeMachine::Util(machine) => machine.take(piece),
            NodeMachine::Joint(machine) => machine.take(piece),
        }
    }

    fn put(&mut self) -> Result<Piece, Memory> {
        match self {
            NodeMachine::Util(machine) => machine.put(),
            NodeMachine::Joint(machine) => machine.put(),
        }
    }

    fn break_off(&mut self) {
        match self {
            NodeMachine::Util(machine) => machine.break_off(),
            NodeMachine::Joint(machine) => machine.break_off(),
        }
    }

    fn selected(&self) -> bool {
        match self {
            NodeMachine::Util(machine) => machine.selected(),
            NodeMachine::Joint(machine) => machine.selected(),
        }
    }
}
