//! A run, from the words of the command line to the line of its answer.
ghost use Rattle.std.specs.Prelude.{◌≡◌, ◌≤◌, ◌^◌, ℕ, List, Option, false, vec_len, IfOk, IfSome, IsErrOf, MatchOption, Ok, OnErr, OnOk};
ghost use Rattle.ps_world.specs.Files.{NoWriterOut};
ghost use Rattle.ps_world.specs.Told.{then_bytes, GrewByPrefix};
ghost use Rattle.ps_world.specs.TreeState.{OnlyLent};
ghost use Rattle.sh_parse.specs.Outcomes.{AreOutcomes, Readings};
ghost use Rattle.sh_eval.specs.Contract.{drawn_of, faults_of, seen_of};
ghost use Rattle.sh_tree.specs.Views.{script_tree};
ghost use Rattle.pash.specs.Answers.{IsOfRun, IsOfScript, IsWithoutScript, finished, line_of, refusing};
ghost use Rattle.pash.specs.Meaning.{meaning, run_of, told};
ghost use Rattle.pash.specs.Runs.{DrawsNothing, OnlyTold, RunsAs, Stops, TellsOnly, came_of as came_of_def, point_of};
ghost use Rattle.pash.specs.Starts.{EndsWith, IfAnswered, IsReady, RunsNothing, as_start, draws, text_of, tries, uses_tree};
ghost use Rattle.pash.specs.Words.{command_of, reads_input, texts, uses_files};

use crate::answers::{Outcome, RunFault, Why, answered, ended, of_sink};
use crate::command::Sample;
use crate::graphs::run_graph;
use crate::lines::answer_line;
use crate::samples::sample_text;
use crate::starts::{Setup, Start, begin};
use fl_engines::Engine;
use ps_fakes::NoFailSource;
use ps_world::{Gate, Sink, Source, Tree, write_all};
use sh_eval::{How, Played, run_script};
use sh_tree::Script;
use std::alloc::Global;

/// How a run came out, with the input and the output that it was handed.
pub struct Ran<I, O> {
    pub outcome: Result<Outcome, RunFault>,
    pub input: I,
    pub out: O,
}

/// Does what the words ask for, tells the line of the answer, and sends on all that was written.
pub fn run_words<T: Tree, I: Source + Send, O: Sink + Send, E: Sink, G: Gate, X: Engine>(
    alloc: Global,
    words: &[String],
    tree: &mut T,
    input: I,
    out: O,
    err: &mut E,
    gate: &G,
    engine: &mut X,
) -> Ran<I, O>
    requires whole { IfSome (T.state tree.old).held NoWriterOut }
    ensures runs { RunsAs (λ reads expansions. meaning reads expansions (texts words.now))
        (point_of (T.state tree.old) (seen_of (drawn_of (I.left input) (X.used engine.old)) (O.taken out) (E.taken err.old))
        (faults_of (I.faults input) (O.faults out) (E.faults err.old) (T.faults tree.old)))
        result.outcome
        (point_of (T.state tree.new) (seen_of (drawn_of (I.left result.input) (X.used engine.new)) (O.taken result.out) (E.taken err.new))
        (faults_of (I.faults result.input) (O.faults result.out) (E.faults err.new) (T.faults tree.new))) }
    ensures sent { OnOk result.outcome ((O.sent result.out ≡ O.taken result.out) × (E.sent err.new ≡ E.taken err.new)) }
    ensures why { IfOk result.outcome (λ outcome. MatchOption (command_of (texts words.now))
        (outcome.why ≡ Why.Usage) (λ _. IsOfScript outcome.why)) }
    ensures without { IfOk result.outcome (λ outcome. IsWithoutScript outcome.why → (result.input ≡ input) × OnlyLent (T.state tree.old) (T.state tree.new)
        × OnlyTold outcome.why outcome.status
        (seen_of (drawn_of (I.left input) (X.used engine.old)) (O.taken out) (E.taken err.old))
        (seen_of (drawn_of (I.left result.input) (X.used engine.new)) (O.taken result.out) (E.taken err.new))) }
    ensures nothing { (reads : Readings) → AreOutcomes reads → RunsNothing reads (T.state tree.old) (command_of (texts words.now)) →
        (result.input ≡ input) × OnlyLent (T.state tree.old) (T.state tree.new) × DrawsNothing
        (seen_of (drawn_of (I.left input) (X.used engine.old)) (O.taken out) (E.taken err.old))
        (seen_of (drawn_of (I.left result.input) (X.used engine.new)) (O.taken result.out) (E.taken err.new)) }
    ensures unread { reads_input (command_of (texts words.now)) ≡ false → (result.input ≡ input) × (IsErrOf result.outcome RunFault.Read → ⊥) }
    ensures unused { uses_files (command_of (texts words.now)) ≡ false → (tree.new ≡ tree.old) × (IsErrOf result.outcome RunFault.Tree → ⊥) }
{
    match begin(alloc, tree, words) {
        Ok(start) => run_and_tell(alloc, start, tree, input, out, err, gate, engine),
        Err(stop) => Ran {
            outcome: Err(stop),
            input,
            out,
        },
    }
}

/// Runs what there is to run, tells the line of the answer, and sends on all that was written.
fn run_and_tell<T: Tree, I: Source + Send, O: Sink + Send, E: Sink, G: Gate, X: Engine>(
    alloc: Global,
    start: Start,
    tree: &mut T,
    input: I,
    out: O,
    err: &mut E,
    gate: &G,
    engine: &mut X,
) -> Ran<I, O>
    requires whole { IfSome (T.state tree.old).held NoWriterOut }
    requires ready { IsReady (T.state tree.old) start }
    ensures runs { RunsAs (λ reads expansions outside. told (run_of (as_start start) expansions outside))
        (point_of (T.state tree.old) (seen_of (drawn_of (I.left input) (X.used engine.old)) (O.taken out) (E.taken err.old))
        (faults_of (I.faults input) (O.faults out) (E.faults err.old) (T.faults tree.old)))
        result.outcome
        (point_of (T.state tree.new) (seen_of (drawn_of (I.left result.input) (X.used engine.new)) (O.taken result.out) (E.taken err.new))
        (faults_of (I.faults result.input) (O.faults result.out) (E.faults err.new) (T.faults tree.new))) }
    ensures sent { OnOk result.outcome ((O.sent result.out ≡ O.taken result.out) × (E.sent err.new ≡ E.taken err.new)) }
    ensures ends { IfOk result.outcome (λ outcome. EndsWith start outcome.why) }
    ensures answered { IfAnswered start (λ answer. (result.input ≡ input) × (T.state tree.new ≡ T.state tree.old) × TellsOnly answer result.outcome
        (seen_of (drawn_of (I.left input) (X.used engine.old)) (O.taken out) (E.taken err.old))
        (seen_of (drawn_of (I.left result.input) (X.used engine.new)) (O.taken result.out) (E.taken err.new))) }
    ensures unread { draws start ≡ false → (result.input ≡ input) × (IsErrOf result.outcome RunFault.Read → ⊥) }
    ensures unused { uses_tree start ≡ false → (tree.new ≡ tree.old) × (IsErrOf result.outcome RunFault.Tree → ⊥) }
{
    let Ran {
        outcome,
        input,
        out,
    } = run_start(alloc, start, tree, input, out, err, gate, engine);
    match outcome {
        Ok(outcome) => {
            let mut out = out;
            let outcome = tell(alloc, outcome, &mut out, err);
            Ran {
                outcome,
                input,
                out,
            }
        }
        Err(stop) => Ran {
            outcome: Err(stop),
            input,
            out,
        },
    }
}

/// Runs the script or the graph, where there is one to run.
fn run_start<T: Tree, I: Source + Send, O: Sink + Send, E: Sink, G: Gate, X: Engine>(
    alloc: Global,
    start: Start,
    tree: &mut T,
    input: I,
    out: O,
    err: &mut E,
    gate: &G,
    engine: &mut X,
) -> Ran<I, O>
    requires whole { IfSome (T.state tree.old).held NoWriterOut }
    requires ready { IsReady (T.state tree.old) start }
    ensures runs { RunsAs (λ reads. run_of (as_start start))
        (point_of (T.state tree.old) (seen_of (drawn_of (I.left input) (X.used engine.old)) (O.taken out) (E.taken err.old))
        (faults_of (I.faults input) (O.faults out) (E.faults err.old) (T.faults tree.old)))
        result.outcome
        (point_of (T.state tree.new) (seen_of (drawn_of (I.left result.input) (X.used engine.new)) (O.taken result.out) (E.taken err.new))
        (faults_of (I.faults result.input) (O.faults result.out) (E.faults err.new) (T.faults tree.new))) }
    ensures ends { IfOk result.outcome (λ outcome. EndsWith start outcome.why) }
    ensures answered { IfAnswered start (λ answer. (result.input ≡ input) × (T.state tree.new ≡ T.state tree.old) × (result.outcome ≡ Ok (refusing answer))
        × (seen_of (drawn_of (I.left result.input) (X.used engine.new)) (O.taken result.out) (E.taken err.new)
        ≡ seen_of (drawn_of (I.left input) (X.used engine.old)) (O.taken out) (E.taken err.old))) }
    ensures unread { draws start ≡ false → (result.input ≡ input) × (IsErrOf result.outcome RunFault.Read → ⊥) }
    ensures unused { uses_tree start ≡ false → (tree.new ≡ tree.old) × (IsErrOf result.outcome RunFault.Tree → ⊥) }
{
    match start {
        Start::Answered(why) => Ran {
            outcome: Ok(answered(why)),
            input,
            out,
        },
        Start::Script(script, setup) => {
            let Setup { shell, width } = setup;
            let mut shell = shell;
            let Played { how, input, out } = run_script(
                alloc, &script, width, &mut shell, tree, input, out, err, gate, engine,
            );
            Ran {
                outcome: came_of(how, shell.status()),
                input,
                out,
            }
        }
        Start::Graph(graph) => {
            let ran = run_graph(alloc, &graph, tree, input, out, gate, engine);
            drop(graph);
            ran
        }
        Start::Text(sample) => {
            let mut out = out;
            let outcome = write_sample(alloc, sample, &mut out);
            Ran {
                outcome,
                input,
                out,
            }
        }
        Start::Trial(script, setup, sample) => {
            let Tried { outcome, out } = run_trial(
                alloc, &script, setup, sample, tree, out, err, gate, engine,
            );
            Ran {
                outcome,
                input,
                out,
            }
        }
    }
}

/// Writes the text that a seed gives.
#[tactic(auto, using(ps_world::proofs::ToldLemmas::grew_by_nothing))]
fn write_sample<O: Sink>(alloc: Global, sample: Sample, out: &mut O) -> Result<Outcome, RunFault>
    ensures outcome { IfOk result (λ outcome. outcome ≡ finished 0) }
    ensures ok { OnOk result (O.taken out.new ≡ then_bytes (O.taken out.old) (text_of sample)) }
    ensures part { OnErr result (GrewByPrefix (O.taken out.old) (O.taken out.new) (text_of sample)) }
    ensures own { (IsErrOf result RunFault.Read → ⊥) × (IsErrOf result RunFault.Tree → ⊥) }
    ensures cause { Stops (faults_of 0 (O.faults out.old) 0 0) (faults_of 0 (O.faults out.new) 0 0) result }
{
    let text = match sample_text(alloc, sample.seed, sample.lines) {
        Ok(text) => text,
        Err(_refused) => return Err(RunFault::Memory),
    };
    match write_all(out, text.as_slice()) {
        Ok(()) => Ok(Outcome {
            status: 0,
            why: Why::Finished,
        }),
        Err(error) => Err(of_sink(error)),
    }
}

/// How a trial came out, with the output that it was handed.
struct Tried<O> {
    outcome: Result<Outcome, RunFault>,
    out: O,
}

/// Runs a script over the text that a seed gives. Any input stays as it is.
fn run_trial<T: Tree, O: Sink + Send, E: Sink, G: Gate, X: Engine>(
    alloc: Global,
    script: &Script,
    setup: Setup,
    sample: Sample,
    tree: &mut T,
    out: O,
    err: &mut E,
    gate: &G,
    engine: &mut X,
) -> Tried<O>
    requires whole { IfSome (T.state tree.old).held NoWriterOut }
    ensures runs { (left : Option (List ℕ)) (faults : ℕ) → RunsAs (λ reads. run_of (tries (script_tree script.now) setup (text_of sample)))
        (point_of (T.state tree.old) (seen_of (drawn_of left (X.used engine.old)) (O.taken out) (E.taken err.old))
        (faults_of faults (O.faults out) (E.faults err.old) (T.faults tree.old)))
        result.outcome
        (point_of (T.state tree.new) (seen_of (drawn_of left (X.used engine.new)) (O.taken result.out) (E.taken err.new))
        (faults_of faults (O.faults result.out) (E.faults err.new) (T.faults tree.new))) }
    ensures ends { IfOk result.outcome (λ outcome. IsOfRun outcome.why) }
    ensures input { IsErrOf result.outcome RunFault.Read → ⊥ }
{
    match sample_text(alloc, sample.seed, sample.lines) {
        Ok(text) => run_over(alloc, script, setup, text, tree, out, err, gate, engine),
        Err(_refused) => Tried {
            outcome: Err(RunFault::Memory),
            out,
        },
    }
}

/// Runs a script over this text. Any input stays as it is.
fn run_over<T: Tree, O: Sink + Send, E: Sink, G: Gate, X: Engine>(
    alloc: Global,
    script: &Script,
    setup: Setup,
    text: Vec<u8>,
    tree: &mut T,
    out: O,
    err: &mut E,
    gate: &G,
    engine: &mut X,
) -> Tried<O>
    requires whole { IfSome (T.state tree.old).held NoWriterOut }
    requires most { vec_len text ≤ 2 ^ 40 }
    ensures runs { (left : Option (List ℕ)) (faults : ℕ) → RunsAs (λ reads. run_of (tries (script_tree script.now) setup text.items))
        (point_of (T.state tree.old) (seen_of (drawn_of left (X.used engine.old)) (O.taken out) (E.taken err.old))
        (faults_of faults (O.faults out) (E.faults err.old) (T.faults tree.old)))
        result.outcome
        (point_of (T.state tree.new) (seen_of (drawn_of left (X.used engine.new)) (O.taken result.out) (E.taken err.new))
        (faults_of faults (O.faults result.out) (E.faults err.new) (T.faults tree.new))) }
    ensures ends { IfOk result.outcome (λ outcome. IsOfRun outcome.why) }
    ensures input { IsErrOf result.outcome RunFault.Read → ⊥ }
{
    let source = NoFailSource::new(text);
    let Setup { shell, width } = setup;
    let mut shell = shell;
    let Played { how, input, out } = run_script(
        alloc, script, width, &mut shell, tree, source, out, err, gate, engine,
    );
    drop(input);
    let outcome = came_of(how, shell.status());
    Tried { outcome, out }
}

/// The answer of an evaluation that is over, where `status` is `$?`; or why it stopped.
fn came_of(how: How, status: u8) -> Result<Outcome, RunFault>
    ensures { result ≡ came_of_def how status }
{
    match how {
        How::Gone(flow) => Ok(ended(flow, status)),
        How::ReadFault => Err(RunFault::Read),
        How::WriteFault => Err(RunFault::Write),
        How::TreeFault => Err(RunFault::Tree),
        How::Memory => Err(RunFault::Memory),
    }
}

/// Tells the line of an answer, and sends on all that was written.
#[tactic(auto, using(ps_world::proofs::ToldLemmas::grew_by_nothing))]
fn tell<O: Sink, E: Sink>(
    alloc: Global,
    outcome: Outcome,
    out: &mut O,
    err: &mut E,
) -> Result<Outcome, RunFault>
    ensures outcome { IfOk result (λ same. same ≡ outcome) }
    ensures out { O.taken out.new ≡ O.taken out.old }
    ensures ok { OnOk result (E.taken err.new ≡ then_bytes (E.taken err.old) (line_of outcome.why)) }
    ensures part { OnErr result (GrewByPrefix (E.taken err.old) (E.taken err.new) (line_of outcome.why)) }
    ensures sent { OnOk result ((O.sent out.new ≡ O.taken out.new) × (E.sent err.new ≡ E.taken err.new)) }
    ensures own { (IsErrOf result RunFault.Read → ⊥) × (IsErrOf result RunFault.Tree → ⊥) }
    ensures cause { Stops (faults_of 0 (O.faults out.old) (E.faults err.old) 0) (faults_of 0 (O.faults out.new) (E.faults err.new) 0) result }
{
    match answer_line(alloc, &outcome.why) {
        Ok(line) => match send(line.as_slice(), out, err) {
            Ok(()) => Ok(outcome),
            Err(stop) => Err(stop),
        },
        Err(_refused) => Err(RunFault::Memory),
    }
}

/// Writes a line to the errors, and sends on all that was written.
#[tactic(auto, using(ps_world::proofs::ToldLemmas::grew_by_whole))]
fn send<O: Sink, E: Sink>(line: &[u8], out: &mut O, err: &mut E) -> Result<(), RunFault>
    ensures out { O.taken out.new ≡ O.taken out.old }
    ensures ok { OnOk result (E.taken err.new ≡ then_bytes (E.taken err.old) line.now) }
    ensures part { OnErr result (GrewByPrefix (E.taken err.old) (E.taken err.new) line.now) }
    ensures sent { OnOk result ((O.sent out.new ≡ O.taken out.new) × (E.sent err.new ≡ E.taken err.new)) }
    ensures own { (IsErrOf result RunFault.Read → ⊥) × (IsErrOf result RunFault.Tree → ⊥) }
    ensures cause { Stops (faults_of 0 (O.faults out.old) (E.faults err.old) 0) (faults_of 0 (O.faults out.new) (E.faults err.new) 0) result }
{
    match write_all(err, line) {
        Ok(()) => flush(out, err),
        Err(error) => Err(of_sink(error)),
    }
}

/// Sends on all that was written.
fn flush<O: Sink, E: Sink>(out: &mut O, err: &mut E) -> Result<(), RunFault>
    ensures taken { (O.taken out.new ≡ O.taken out.old) × (E.taken err.new ≡ E.taken err.old) }
    ensures sent { OnOk result ((O.sent out.new ≡ O.taken out.new) × (E.sent err.new ≡ E.taken err.new)) }
    ensures own { (IsErrOf result RunFault.Read → ⊥) × (IsErrOf result RunFault.Tree → ⊥) }
    ensures cause { Stops (faults_of 0 (O.faults out.old) (E.faults err.old) 0) (faults_of 0 (O.faults out.new) (E.faults err.new) 0) result }
{
    if let Err(error) = out.flush() {
        return Err(of_sink(error));
    }
    match err.flush() {
        Ok(()) => Ok(()),
        Err(error) => Err(of_sink(error)),
    }
}
