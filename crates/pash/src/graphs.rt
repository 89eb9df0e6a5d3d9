//! Graphs that are run.
ghost use Rattle.std.specs.Prelude.{◌≡◌, ℕ, List, Option, IfOk, IfSome};
ghost use Rattle.ps_world.specs.Files.{NoWriterOut};
ghost use Rattle.fl_printed.specs.Checks.{CanRun};
ghost use Rattle.sh_eval.specs.Contract.{drawn_of, faults_of, seen_of};
ghost use Rattle.pash.specs.Answers.{IsOfRun};
ghost use Rattle.pash.specs.Meaning.{run_of};
ghost use Rattle.pash.specs.Runs.{RunsAs, graph_came as graph_came_def, point_of};
ghost use Rattle.pash.specs.Starts.{executes};

use crate::answers::{Outcome, RunFault, Why};
use crate::run::Ran;
use fl_commands::{Commanded, Ended, execute};
use fl_engines::Engine;
use fl_graph::Graph;
use ps_world::{Gate, Sink, Source, Tree};
use std::alloc::Global;

/// Runs a graph over the files of a tree, the input and the output. Any errors stay as they are.
pub fn run_graph<T: Tree, I: Source + Send, O: Sink + Send, G: Gate, X: Engine>(
    alloc: Global,
    graph: &Graph,
    tree: &mut T,
    input: I,
    out: O,
    gate: &G,
    engine: &mut X,
) -> Ran<I, O>
    requires ready { CanRun (T.state tree.old) graph.now }
    requires whole { IfSome (T.state tree.old).held NoWriterOut }
    ensures runs { (errors : Option (List ℕ)) (faults : ℕ) → RunsAs (λ reads. run_of (executes graph.now))
        (point_of (T.state tree.old) (seen_of (drawn_of (I.left input) (X.used engine.old)) (O.taken out) errors)
        (faults_of (I.faults input) (O.faults out) faults (T.faults tree.old)))
        result.outcome
        (point_of (T.state tree.new) (seen_of (drawn_of (I.left result.input) (X.used engine.new)) (O.taken result.out) errors)
        (faults_of (I.faults result.input) (O.faults result.out) faults (T.faults tree.new))) }
    ensures ends { IfOk result.outcome (λ outcome. IsOfRun outcome.why) }
{
    let Commanded { ended, input, out } = execute(alloc, graph, tree, input, out, gate, engine);
    Ran {
        outcome: graph_came(ended),
        input,
        out,
    }
}

/// The answer of a graph that has run; or why it stopped.
fn graph_came(ended: Ended) -> Result<Outcome, RunFault>
    ensures { result ≡ graph_came_def ended }
{
    match ended {
        Ended::Done(status) => Ok(Outcome {
            status,
            why: Why::Finished,
        }),
        Ended::Input => Err(RunFault::Read),
        Ended::Output => Err(RunFault::Write),
        Ended::Tree => Err(RunFault::Tree),
        Ended::Memory => Err(RunFault::Memory),
    }
}
