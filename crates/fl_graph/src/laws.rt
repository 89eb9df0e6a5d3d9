//! What valid graphs and the runs of machines are, in laws: each is the contract of a function that does nothing.
ghost use Rattle.std.specs.Prelude.{◌≡◌, ◌<◌, ℕ, List, [], Bool, false, length};
ghost use Rattle.fl_graph.specs.Machines.{MayDo, State};
ghost use Rattle.fl_graph.specs.Net.{count, gives, takes};
ghost use Rattle.fl_graph.specs.Runs.{has_broken, Run, Stopped};
ghost use Rattle.fl_graph.specs.Valid.{Valid};
ghost use Rattle.fl_graph.specs.declared.pieces.Piece.{Piece as Pieces};

use crate::graphs::Graph;
use crate::machines::Machine;
use crate::pieces::Act;

/// Each number below the number of edges is that of an edge which one node gives and one takes.
#[tactic(auto, using(crate::proofs::CheckLemmas::each_number))]
pub fn each_number_is_an_edge(graph: &Graph)
    requires { Valid graph.now.nodes graph.now.status }
    ensures { (edge : ℕ) → edge < length (gives graph.now.nodes) →
        (count edge (gives graph.now.nodes) ≡ 1) × (count edge (takes graph.now.nodes) ≡ 1) }
{}

/// A machine that isn't broken begins a run.
pub fn a_run_begins<M: Machine>(machine: &M)
    requires { (M.state machine.now).broken ≡ false }
    ensures { Run (M.state machine.now) (M.state machine.now) (λ _. []) (λ _. []) false }
{}

/// A machine that stops has taken all its ins to their ends and has closed all its outs. Where it isn't broken, each out has the whole
/// value of its equation and an end.
pub fn a_stop_ends_a_run<M: Machine>(machine: &M)
    requires stop { (M.state machine.now).act ≡ Act.Stop }
    requires may { MayDo (M.state machine.now) (M.state machine.now).act }
    ensures { (start : State) (taken put : ℕ → List Pieces) (failed : Bool) → Run start (M.state machine.now) taken put failed →
        Stopped start (M.state machine.now) taken put }
{}

/// A machine puts Broken only where a Broken was taken, or where it has failed.
pub fn a_break_has_its_cause()
    ensures { (start now : State) (taken put : ℕ → List Pieces) → Run start now taken put false →
        ((port : ℕ) → has_broken (taken port) ≡ false) → (port : ℕ) → has_broken (put port) ≡ false }
{}
