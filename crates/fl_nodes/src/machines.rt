//! What a node's machine does, with the failure of its node.
ghost use Rattle.std.specs.Prelude.{◌≡◌, ℕ, List, Bool, true, false, is_some, Option, MatchResult, IfOk, OnErr};
ghost use Rattle.fl_graph.specs.Machines.{closes, is_mark as is_mark_def, is_put, is_take, port_put, port_taken, MayDo, State};
ghost use Rattle.fl_graph.specs.Runs.{add, Run};
ghost use Rattle.fl_graph.specs.declared.pieces.Piece.{Piece as Pieces};
ghost use Rattle.fl_nodes.specs.Work.{is_fault, wanted as wanted_def, SamePorts};

use fl_graph::{Machine, Piece, break_machine, take_piece};
use ps_lines::Memory;
use ps_world::WorldErr;

/// The failure of a node that is refused memory: that, where it hasn't failed before.
pub(crate) fn wanted(failure: Option<WorldErr>) -> Option<WorldErr>
    ensures { result ≡ wanted_def failure }
{
    match failure {
        Some(error) => Some(error),
        None => Some(WorldErr::Memory),
    }
}

/// Whether the piece is a mark.
fn is_mark(piece: &Piece) -> bool
    ensures { result ≡ is_mark_def piece.now }
{
    matches!(piece, Piece::Mark)
}

/// Hands a machine the piece that it is to take, and tells the failure of its node. No edge carries blocks yet, so a mark breaks the machine.
pub(crate) fn hand_in<M: Machine>(
    machine: &mut M,
    piece: Piece,
    failure: Option<WorldErr>,
) -> Option<WorldErr>
    requires turn { is_take (M.state machine.old).act ≡ true }
    ensures run { (start : State) (taken put : ℕ → List Pieces) → Run start (M.state machine.old) taken put (is_some failure) →
        Run start (M.state machine.new) (add (port_taken (M.state machine.old).act) piece taken) put (is_some result) }
    ensures fault { is_fault result ≡ is_fault failure }
    ensures some { is_some result ≡ false → is_some failure ≡ false }
{
    if is_mark(&piece) {
        break_machine(machine);
        return wanted(failure);
    }
    match take_piece(machine, piece) {
        Ok(()) => failure,
        Err(_memory) => wanted(failure),
    }
}

/// The piece that a machine puts next. One that closes nothing leaves all ports as they are.
pub(crate) fn draw<M: Machine>(machine: &mut M) -> Result<Piece, Memory>
    requires turn { is_put (M.state machine.old).act ≡ true }
    requires may { MayDo (M.state machine.old) (M.state machine.old).act }
    ensures run { (start : State) (taken put : ℕ → List Pieces) (failed : Bool) → Run start (M.state machine.old) taken put failed →
        MatchResult result (λ piece. Run start (M.state machine.new) taken (add (port_put (M.state machine.old).act) piece put) failed)
        (λ _. Run start (M.state machine.new) taken put true) }
    ensures plain { IfOk result (λ piece. (M.state machine.old).numbered_outs (port_put (M.state machine.old).act) ≡ false → is_mark_def piece ≡ false) }
    ensures same { IfOk result (λ piece. closes piece ≡ false → SamePorts (M.state machine.old) (M.state machine.new)) }
{
    machine.put()
}

/// Breaks a machine. The run that it has come through goes on.
pub(crate) fn shut_off<M: Machine>(machine: &mut M)
    ensures run { (start : State) (taken put : ℕ → List Pieces) (failed : Bool) → Run start (M.state machine.old) taken put failed →
        Run start (M.state machine.new) taken put true }
    ensures same { SamePorts (M.state machine.old) (M.state machine.new) }
    ensures broken { (M.state machine.new).broken ≡ true }
{
    machine.break_off();
}
