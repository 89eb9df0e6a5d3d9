//! A machine's steps, and what each makes of its run.
ghost use Rattle.std.specs.Prelude.{◌≡◌, ℕ, List, Bool, ◌||◌, false, true, IfOk, MatchResult, OnErr, OnOk};
ghost use Rattle.fl_graph.specs.Machines.{is_broken, is_mark, is_put, is_stray, is_take, port_put, port_taken, MayDo, State};
ghost use Rattle.fl_graph.specs.Runs.{add, Run};
ghost use Rattle.fl_graph.specs.declared.pieces.Piece.{Piece as Pieces};

use crate::machines::Machine;
use crate::pieces::Piece;
use ps_lines::Memory;

/// Takes a piece as `Machine::take` does. The run that the machine has come through goes on with it, also where memory is refused.
pub fn take_piece<M: Machine>(machine: &mut M, piece: Piece) -> Result<(), Memory>
    requires turn { is_take (M.state machine.old).act ≡ true }
    requires known { is_stray (M.state machine.old) piece ≡ false }
    ensures run { (start : State) (taken put : ℕ → List Pieces) (failed : Bool) → Run start (M.state machine.old) taken put failed →
        MatchResult result (λ _. Run start (M.state machine.new) (add (port_taken (M.state machine.old).act) piece taken) put failed)
        (λ _. Run start (M.state machine.new) (add (port_taken (M.state machine.old).act) piece taken) put true) }
    ensures broken { OnOk result ((M.state machine.new).broken ≡ ((M.state machine.old).broken || is_broken piece)) }
    ensures memory { OnErr result (((M.state machine.old).broken ≡ false) × ((M.state machine.new).broken ≡ true)) }
{
    machine.take(piece)
}

/// Gives the piece that `Machine::put` does. The run that the machine has come through goes on with it, and without one where memory is
/// refused.
pub fn put_piece<M: Machine>(machine: &mut M) -> Result<Piece, Memory>
    requires turn { is_put (M.state machine.old).act ≡ true }
    requires may { MayDo (M.state machine.old) (M.state machine.old).act }
    ensures run { (start : State) (taken put : ℕ → List Pieces) (failed : Bool) → Run start (M.state machine.old) taken put failed →
        MatchResult result (λ piece. Run start (M.state machine.new) taken (add (port_put (M.state machine.old).act) piece put) failed)
        (λ _. Run start (M.state machine.new) taken put true) }
    ensures plain { IfOk result (λ piece. (M.state machine.old).numbered_outs (port_put (M.state machine.old).act) ≡ false → is_mark piece ≡ false) }
    ensures sound { IfOk result (λ piece. (M.state machine.old).broken ≡ false → is_broken piece ≡ false) }
    ensures broken { OnOk result ((M.state machine.new).broken ≡ (M.state machine.old).broken) }
    ensures memory { OnErr result (((M.state machine.old).broken ≡ false) × ((M.state machine.new).broken ≡ true)) }
{
    machine.put()
}

/// Breaks a machine as `Machine::break_off` does. The run that it has come through goes on.
pub fn break_machine<M: Machine>(machine: &mut M)
    ensures run { (start : State) (taken put : ℕ → List Pieces) (failed : Bool) → Run start (M.state machine.old) taken put failed →
        Run start (M.state machine.new) taken put true }
    ensures broken { (M.state machine.new).broken ≡ true }
{
    machine.break_off();
}
