//! The top call.
ghost use Rattle.std.specs.Prelude.{◌≡◌, ◌^◌, ◌-◌, ◌<◌, ◌⊎◌, false, IfSome, IfNone, None};
ghost use Rattle.ps_world.specs.Counts.{Rose};
ghost use Rattle.ps_world.specs.Files.{NoWriterOut};
ghost use Rattle.ps_world.specs.TreeState.{Balanced, OnlyLent};
ghost use Rattle.sh_parse.specs.Outcomes.{AreOutcomes, Readings};
ghost use Rattle.sh_expand.specs.Outcomes.{AreExpansions, Expansions};
ghost use Rattle.fl_commands.specs.Writers.{ChangesOnly};
ghost use Rattle.sh_eval.specs.Contract.{drawn_of, faults_of, seen_of};
ghost use Rattle.sh_eval.specs.Scripts.{Stopped};
ghost use Rattle.pash.specs.Answers.{HasFaultStatus, IsAnswer, IsWithoutScript};
ghost use Rattle.pash.specs.Meaning.{meaning, outside_of};
ghost use Rattle.pash.specs.Runs.{DrawsNothing, Leaves, OnlyTold};
ghost use Rattle.pash.specs.Starts.{RunsNothing};
ghost use Rattle.pash.specs.Words.{command_of, reads_input, texts, uses_files};

use crate::answers::{End, Outcome, Why};
use crate::run::{Ran, run_words};
use fl_engines::Engine;
use ps_world::{Gate, Sink, Source, Tree};
use std::alloc::Global;

/// Does what the words of the command line ask for, over the objects that are handed in; `words` are those after the program's name.
///
/// `run W SCRIPT ARG*` runs a script: what it leaves is the script's meaning, byte for byte, at every width W. `$0` is SCRIPT, `$1` and on
/// are the ARGs. `exec GRAPH` runs the graph whose text stands in the file GRAPH: what it leaves is the graph's outcome, for the files and the
/// input as they were, and the input is read where a node reads it. `gen SEED LINES` writes the text that a seed gives, and uses no file.
/// `trial SEED LINES W` runs the trial's script over this text in the place of the input. The graphs of utilities run on the engine, whose
/// nodes pass the gate. The input and the output are given back, and `gen` and `trial` read no input.
///
/// `reads` is what each text is, one script or one refusal, and `expansions` is what words expand to. A script that isn't run, for its text,
/// and a graph that can't run are told by one line of error: nothing of the output, the tree or the input changes then. A script that is
/// refused in the middle is told so too, and what it did stays.
///
/// After every answer but the faults and Memory, output and errors have grown by exactly the meaning's and were flushed. ReadFault comes only
/// where the count of the input rose in this call, WriteFault only where that of the output or the errors rose, TreeFault only where the
/// tree's did; after these and Memory, output and errors have grown by prefixes of the meaning's. After any answer no path is changed that the
/// meaning never writes.
pub fn pash<T: Tree, I: Source + Send, O: Sink + Send, E: Sink, G: Gate, X: Engine>(
    alloc: Global,
    words: &[String],
    tree: &mut T,
    input: I,
    out: O,
    err: &mut E,
    gate: &G,
    engine: &mut X,
) -> End<I, O>
    requires whole { IfSome (T.state tree.old).held NoWriterOut }

    // What the command leaves.
    ensures meaning { (reads : Readings) → AreOutcomes reads → (expansions : Expansions) → AreExpansions expansions → IsAnswer result.why →
        IfSome (T.state tree.old).held (λ files. IfSome (I.left input) (λ text.
        Leaves (meaning reads expansions (texts words.now) (outside_of (T.state tree.old).home files text))
        (record { status = result.status; why = result.why }) (T.state tree.new).held
        (seen_of (drawn_of (I.left input) (X.used engine.old)) (O.taken out) (E.taken err.old))
        (seen_of (drawn_of (I.left result.input) (X.used engine.new)) (O.taken result.out) (E.taken err.new)))) }
    ensures prefixes { (reads : Readings) → AreOutcomes reads → (expansions : Expansions) → AreExpansions expansions →
        IfSome (T.state tree.old).held (λ files. IfSome (I.left input) (λ text. Stopped
        (seen_of (drawn_of (I.left input) (X.used engine.old)) (O.taken out) (E.taken err.old))
        (seen_of (drawn_of (I.left result.input) (X.used engine.new)) (O.taken result.out) (E.taken err.new))
        (meaning reads expansions (texts words.now) (outside_of (T.state tree.old).home files text)).world)) }
    ensures kept { (reads : Readings) → AreOutcomes reads → (expansions : Expansions) → AreExpansions expansions →
        IfSome (T.state tree.old).held (λ files. IfSome (I.left input) (λ text.
        ChangesOnly (meaning reads expansions (texts words.now) (outside_of (T.state tree.old).home files text)).world.written
        (T.state tree.old).held (T.state tree.new).held)) }
    ensures usage_only { result.why ≡ Why.Usage → command_of (texts words.now) ≡ None }
    ensures usage { IsAnswer result.why → IfNone (command_of (texts words.now)) (result.why ≡ Why.Usage) }
    ensures without_script { IsWithoutScript result.why → (result.input ≡ input) × OnlyLent (T.state tree.old) (T.state tree.new)
        × OnlyTold result.why result.status
        (seen_of (drawn_of (I.left input) (X.used engine.old)) (O.taken out) (E.taken err.old))
        (seen_of (drawn_of (I.left result.input) (X.used engine.new)) (O.taken result.out) (E.taken err.new)) }
    ensures nothing_run { (reads : Readings) → AreOutcomes reads → RunsNothing reads (T.state tree.old) (command_of (texts words.now)) →
        (result.input ≡ input) × OnlyLent (T.state tree.old) (T.state tree.new) × DrawsNothing
        (seen_of (drawn_of (I.left input) (X.used engine.old)) (O.taken out) (E.taken err.old))
        (seen_of (drawn_of (I.left result.input) (X.used engine.new)) (O.taken result.out) (E.taken err.new)) }
    ensures unread { reads_input (command_of (texts words.now)) ≡ false → result.input ≡ input }
    ensures unused { uses_files (command_of (texts words.now)) ≡ false → T.state tree.new ≡ T.state tree.old }
    ensures sent { IsAnswer result.why → (O.sent result.out ≡ O.taken result.out) × (E.sent err.new ≡ E.taken err.new) }
    ensures whole { IsAnswer result.why → IfSome (T.state tree.new).held NoWriterOut }
    ensures lent { Balanced (T.state tree.old) (T.state tree.new) }

    // When each answer comes.
    ensures calm { IsAnswer result.why → faults_of (I.faults result.input) (O.faults result.out) (E.faults err.new) (T.faults tree.new)
        ≡ faults_of (I.faults input) (O.faults out) (E.faults err.old) (T.faults tree.old) }
    ensures read_fault { result.why ≡ Why.ReadFault → Rose (I.faults input) (I.faults result.input) }
    ensures write_fault { result.why ≡ Why.WriteFault → Rose (O.faults out) (O.faults result.out) ⊎ Rose (E.faults err.old) (E.faults err.new) }
    ensures tree_fault { result.why ≡ Why.TreeFault → Rose (T.faults tree.old) (T.faults tree.new) }
    ensures no_read_fault { reads_input (command_of (texts words.now)) ≡ false → result.why ≡ Why.ReadFault → ⊥ }
    ensures no_tree_fault { uses_files (command_of (texts words.now)) ≡ false → result.why ≡ Why.TreeFault → ⊥ }
    ensures status { HasFaultStatus result.why result.status }
    ensures complete { I.faults result.input ≡ I.faults input → O.faults result.out ≡ O.faults out → E.faults err.new ≡ E.faults err.old
        → T.faults tree.new ≡ T.faults tree.old → I.faults input < 2 ^ 64 - 1 → O.faults out < 2 ^ 64 - 1 → E.faults err.old < 2 ^ 64 - 1
        → T.faults tree.old < 2 ^ 64 - 1 → IsAnswer result.why ⊎ (result.why ≡ Why.Memory) }
{
    let Ran {
        outcome,
        input,
        out,
    } = run_words(alloc, words, tree, input, out, err, gate, engine);
    match outcome {
        Ok(Outcome { status, why }) => End {
            status,
            why,
            input,
            out,
        },
        Err(stop) => End {
            status: stop.status(),
            why: stop.why(),
            input,
            out,
        },
    }
}
