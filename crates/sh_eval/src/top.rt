//! The evaluation of a script.
ghost use Rattle.std.specs.Prelude.{◌≡◌, Some, IfSome};
ghost use Rattle.ps_world.specs.Files.{NoWriterOut};
ghost use Rattle.ps_world.specs.TreeState.{Balanced};
ghost use Rattle.sh_tree.specs.Views.{script_tree};
ghost use Rattle.sh_expand.specs.Outcomes.{AreExpansions, Expansions};
ghost use Rattle.fl_commands.specs.Writers.{ChangesOnly};
ghost use Rattle.sh_eval.specs.Contract.{HasCause, IsGone, drawn_of, faults_of, seen_of, then_ran};
ghost use Rattle.sh_eval.specs.Meaning.{begun, script_means};
ghost use Rattle.sh_eval.specs.Scripts.{Leaves, ran_at};
ghost use Rattle.sh_eval.specs.Table.{pages};

use crate::flows::Flow;
use crate::lists::eval_list;
use crate::outcomes::{How, Played};
use crate::session::Session;
use crate::shell::Shell;
use fl_engines::Engine;
use ps_world::{Gate, Sink, Source, Tree};
use sh_tree::Script;
use std::alloc::Global;

/// Runs a script in this shell, over these files, this input, and this output and error output; its graphs are spread over `width` parts, 1 to 16.
///
/// Where it is over, all is as the script means it (`script_means`): how the shell goes on, the shell, the files, what is left of the
/// input, and what was written. The engine has run the utilities that the script runs, at this width, and spreads graphs as before. After a
/// fault, and where memory was refused, output and errors have grown by prefixes of what is meant. Whatever comes, no path is changed that the
/// script never writes. A fault is told only where the count of its object rose. The input and the output come back.
///
/// No writer may be out as the call begins.
pub fn run_script<T: Tree, I: Source + Send, O: Sink + Send, E: Sink, G: Gate, X: Engine>(
    alloc: Global,
    script: &Script,
    width: u32,
    shell: &mut Shell,
    tree: &mut T,
    input: I,
    out: O,
    err: &mut E,
    gate: &G,
    engine: &mut X,
) -> Played<I, O>
    requires whole { IfSome (T.state tree.old).held NoWriterOut }
    ensures meaning { (expansions : Expansions) → AreExpansions expansions → IfSome (T.state tree.old).held (λ files. IfSome (I.left input) (λ text.
        Leaves (ran_at width (X.used engine.old)) (seen_of (drawn_of (I.left input) (X.used engine.old)) (O.taken out) (E.taken err.old))
        result.how shell.new (T.state tree.new) (seen_of (drawn_of (I.left result.input) (X.used engine.new)) (O.taken result.out) (E.taken err.new))
        (script_means expansions pages (script_tree script.now) (begun shell.old (T.state tree.old).home files text)))) }
    ensures kept { (expansions : Expansions) → AreExpansions expansions → IfSome (T.state tree.old).held (λ files. IfSome (I.left input) (λ text.
        ChangesOnly (script_means expansions pages (script_tree script.now) (begun shell.old (T.state tree.old).home files text)).state.world.written
        (T.state tree.old).held (T.state tree.new).held)) }
    ensures whole { IsGone result.how → IfSome (T.state tree.new).held NoWriterOut }
    ensures cause { HasCause result.how
        (faults_of (I.faults input) (O.faults out) (E.faults err.old) (T.faults tree.old))
        (faults_of (I.faults result.input) (O.faults result.out) (E.faults err.new) (T.faults tree.new)) }
    ensures lent { Balanced (T.state tree.old) (T.state tree.new) }
{
    let before = engine.width();
    engine.spread_over(width);
    let played = run_begun(alloc, script, shell, tree, input, out, err, gate, engine);
    engine.spread_over(before);
    played
}

/// Runs a script as the engine spreads its graphs.
fn run_begun<T: Tree, I: Source + Send, O: Sink + Send, E: Sink, G: Gate, X: Engine>(
    alloc: Global,
    script: &Script,
    shell: &mut Shell,
    tree: &mut T,
    input: I,
    out: O,
    err: &mut E,
    gate: &G,
    engine: &mut X,
) -> Played<I, O>
    requires whole { IfSome (T.state tree.old).held NoWriterOut }
    ensures meaning { (expansions : Expansions) → AreExpansions expansions → IfSome (T.state tree.old).held (λ files. IfSome (I.left input) (λ text.
        Leaves (then_ran (X.used engine.old)) (seen_of (drawn_of (I.left input) (X.used engine.old)) (O.taken out) (E.taken err.old))
        result.how shell.new (T.state tree.new) (seen_of (drawn_of (I.left result.input) (X.used engine.new)) (O.taken result.out) (E.taken err.new))
        (script_means expansions pages (script_tree script.now) (begun shell.old (T.state tree.old).home files text)))) }
    ensures kept { (expansions : Expansions) → AreExpansions expansions → IfSome (T.state tree.old).held (λ files. IfSome (I.left input) (λ text.
        ChangesOnly (script_means expansions pages (script_tree script.now) (begun shell.old (T.state tree.old).home files text)).state.world.written
        (T.state tree.old).held (T.state tree.new).held)) }
    ensures whole { IsGone result.how → IfSome (T.state tree.new).held NoWriterOut }
    ensures cause { HasCause result.how
        (faults_of (I.faults input) (O.faults out) (E.faults err.old) (T.faults tree.old))
        (faults_of (I.faults result.input) (O.faults result.out) (E.faults err.new) (T.faults tree.new)) }
    ensures lent { Balanced (T.state tree.old) (T.state tree.new) }
{
    let mut session = Session::begun(alloc);
    match &script.body {
        Some(list) => eval_list(
            list,
            shell,
            &mut session,
            tree,
            input,
            out,
            err,
            gate,
            engine,
        ),
        None => Played {
            how: How::Gone(Flow::On),
            input,
            out,
        },
    }
}
