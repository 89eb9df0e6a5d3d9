//! Words on the way of a command.
ghost use Rattle.std.specs.Prelude.{◌≡◌, ℕ, List, map, Option, Some, IfErr, IfOk, OnOk};
ghost use Rattle.ps_lines.specs.Texts.{texts_of};
ghost use Rattle.ps_world.specs.Files.{Files};
ghost use Rattle.sh_tree.specs.Views.{redir_tree, word_tree};
ghost use Rattle.sh_expand.specs.Fields.{Asks, IsOfWords};
ghost use Rattle.sh_expand.specs.Outcomes.{AreExpansions, Expansions, Tells, told_fields, told_of};
ghost use Rattle.sh_eval.specs.Contract.{Drawn, Evaluates, IsSound, PassesOn, StopsAt, faults_of, point_of, seen_of};
ghost use Rattle.sh_eval.specs.Expanding.{assigning, ends_told, given_by, with_fields, with_targets};
ghost use Rattle.sh_eval.specs.Inner.Bodies.{assign_tree};
ghost use Rattle.sh_eval.specs.Inner.Faults.{EndsSo};
ghost use Rattle.sh_eval.specs.Shells.{with_env};
ghost use Rattle.sh_eval.specs.Simple.{restored};

use crate::builtins::leave;
use crate::flows::Flow;
use crate::lines::{arithmetic_line, unset_line};
use crate::outcomes::How;
use crate::refusals::Refusal;
use crate::session::Session;
use crate::shell::Shell;
use crate::targets::Target;
use crate::writing::tell;
use ps_lines::{Memory, Text};
use ps_world::{Sink, Tree};
use sh_arith::Env;
use sh_expand::{ExpandFault, Frame, expand, expand_one};
use sh_tree::{Redir, Word};
use std::alloc::Global;

/// The fields of words, by a shell's variables.
pub(crate) fn fields_of<T: Tree>(
    alloc: Global,
    words: &[Word],
    shell: &mut Shell,
    tree: &mut T,
) -> Result<Vec<Vec<u8>>, ExpandFault>
    ensures told { (expansions : Expansions) → AreExpansions expansions → (files : Files) → (T.state tree.old).held ≡ Some files →
        Tells (λ fields. texts_of fields.items) (told_fields (expansions.fields files (T.state tree.old).home (given_by shell.old) shell.old.variables (map word_tree words.now)))
        result shell.new.variables }
    ensures others { shell.new ≡ with_env shell.new.variables shell.old }
    ensures state { T.state tree.new ≡ T.state tree.old }
    ensures cause { Asks (T.faults tree.old) (T.faults tree.new) result }
{
    let mut frame = Frame {
        env: &mut shell.variables,
        zero: shell.zero.as_slice(),
        args: shell.arguments.as_slice(),
        status: shell.status,
        subs: shell.substituted.as_slice(),
    };
    expand(alloc, words, &mut frame, tree)
}

/// The text of a word of which nothing is split, by a shell's variables.
fn text_of(alloc: Global, word: &Word, shell: &mut Shell) -> Result<Vec<u8>, ExpandFault>
    ensures told { (expansions : Expansions) → AreExpansions expansions →
        Tells (λ text. text.items) (told_of (expansions.text (given_by shell.old) shell.old.variables (word_tree word.now))) result shell.new.variables }
    ensures others { shell.new ≡ with_env shell.new.variables shell.old }
    ensures of_words { IfErr result IsOfWords }
{
    let mut frame = Frame {
        env: &mut shell.variables,
        zero: shell.zero.as_slice(),
        args: shell.arguments.as_slice(),
        status: shell.status,
        subs: shell.substituted.as_slice(),
    };
    expand_one(alloc, word, &mut frame)
}

/// Expands the words of a command to fields. Where they have a fault, the shell ends or the run is refused, and the fault is told.
pub(crate) fn expand_words<T: Tree, O: Sink, E: Sink>(
    alloc: Global,
    words: &[Word],
    shell: &mut Shell,
    session: &mut Session,
    tree: &mut T,
    out: &mut O,
    err: &mut E,
) -> Result<Vec<Vec<u8>>, How>
    requires sound { IsSound session.old (T.state tree.old) }
    ensures ok { IfOk result (λ fields. (drawn : Drawn) (input : ℕ) →
        PassesOn (λ expansions. with_fields expansions (map word_tree words.now))
        (point_of shell.old session.old (T.state tree.old) (seen_of drawn (O.taken out.old) (E.taken err.old)) (faults_of input (O.faults out.old) (E.faults err.old) (T.faults tree.old)))
        (texts_of fields.items)
        (point_of shell.new session.new (T.state tree.new) (seen_of drawn (O.taken out.new) (E.taken err.new)) (faults_of input (O.faults out.new) (E.faults err.new) (T.faults tree.new)))) }
    ensures err { IfErr result (λ how. (drawn : Drawn) (input : ℕ) →
        StopsAt (λ expansions. with_fields expansions (map word_tree words.now))
        (point_of shell.old session.old (T.state tree.old) (seen_of drawn (O.taken out.old) (E.taken err.old)) (faults_of input (O.faults out.old) (E.faults err.old) (T.faults tree.old)))
        how
        (point_of shell.new session.new (T.state tree.new) (seen_of drawn (O.taken out.new) (E.taken err.new)) (faults_of input (O.faults out.new) (E.faults err.new) (T.faults tree.new)))) }
    ensures session { IfOk result (λ _. session.new ≡ session.old) }
    ensures state { IfOk result (λ _. T.state tree.new ≡ T.state tree.old) }
{
    match fields_of(alloc, words, shell, tree) {
        Ok(fields) => Ok(fields),
        Err(fault) => Err(stop_at(alloc, fault, shell, session, tree, out, err)),
    }
}

/// Ends at a fault of words: the shell with its line and status 1, or the run. Of the tree's failure, and of want of memory, nothing is told.
fn stop_at<T: Tree, O: Sink, E: Sink>(
    alloc: Global,
    fault: ExpandFault,
    shell: &mut Shell,
    session: &mut Session,
    tree: &mut T,
    out: &mut O,
    err: &mut E,
) -> How
    requires sound { IsSound session.old (T.state tree.old) }
    ensures { (drawn : Drawn) (input : ℕ) → EndsSo fault
        (point_of shell.old session.old (T.state tree.old) (seen_of drawn (O.taken out.old) (E.taken err.old)) (faults_of input (O.faults out.old) (E.faults err.old) (T.faults tree.old)))
        result
        (point_of shell.new session.new (T.state tree.new) (seen_of drawn (O.taken out.new) (E.taken err.new)) (faults_of input (O.faults out.new) (E.faults err.new) (T.faults tree.new))) }
{
    match fault {
        ExpandFault::Unset(name, text) => {
            let line = unset_line(alloc, name.as_slice(), text.as_slice());
            end_told(line, shell, session, tree, out, err)
        }
        ExpandFault::Arith(why) => {
            let line = arithmetic_line(alloc, &why);
            end_told(line, shell, session, tree, out, err)
        }
        ExpandFault::ArgsTooMany => How::Gone(Flow::Refused(Refusal::ArgsTooMany)),
        ExpandFault::Failed => How::TreeFault,
        ExpandFault::Memory => How::Memory,
    }
}

/// Ends the shell with status 1, behind a line (XCU 2.8.1), where there was memory for it.
fn end_told<T: Tree, O: Sink, E: Sink>(
    line: Result<Vec<u8>, Memory>,
    shell: &mut Shell,
    session: &mut Session,
    tree: &mut T,
    out: &mut O,
    err: &mut E,
) -> How
    requires sound { IsSound session.old (T.state tree.old) }
    ensures { (text : List ℕ) → IfOk line (λ line. line.items ≡ text) → (drawn : Drawn) (input : ℕ) → Evaluates (λ expansions. ends_told text)
        (point_of shell.old session.old (T.state tree.old) (seen_of drawn (O.taken out.old) (E.taken err.old)) (faults_of input (O.faults out.old) (E.faults err.old) (T.faults tree.old)))
        result
        (point_of shell.new session.new (T.state tree.new) (seen_of drawn (O.taken out.new) (E.taken err.new)) (faults_of input (O.faults out.new) (E.faults err.new) (T.faults tree.new))) }
{
    let Ok(line) = line else {
        return How::Memory;
    };
    let how = tell(line.as_slice(), session, tree, out, err);
    leave(how, Flow::Exit, 1, shell)
}

/// Expands the words of redirections, from the left. Where one has a fault, the shell ends or the run is refused, and the fault is told.
pub(crate) fn expand_targets<T: Tree, O: Sink, E: Sink>(
    alloc: Global,
    redirs: &[Redir],
    shell: &mut Shell,
    session: &mut Session,
    tree: &mut T,
    out: &mut O,
    err: &mut E,
) -> Result<Vec<Target>, How>
    requires sound { IsSound session.old (T.state tree.old) }
    ensures ok { IfOk result (λ targets. (drawn : Drawn) (input : ℕ) →
        PassesOn (λ expansions. with_targets expansions (map redir_tree redirs.now))
        (point_of shell.old session.old (T.state tree.old) (seen_of drawn (O.taken out.old) (E.taken err.old)) (faults_of input (O.faults out.old) (E.faults err.old) (T.faults tree.old)))
        targets.items
        (point_of shell.new session.new (T.state tree.new) (seen_of drawn (O.taken out.new) (E.taken err.new)) (faults_of input (O.faults out.new) (E.faults err.new) (T.faults tree.new)))) }
    ensures err { IfErr result (λ how. (drawn : Drawn) (input : ℕ) →
        StopsAt (λ expansions. with_targets expansions (map redir_tree redirs.now))
        (point_of shell.old session.old (T.state tree.old) (seen_of drawn (O.taken out.old) (E.taken err.old)) (faults_of input (O.faults out.old) (E.faults err.old) (T.faults tree.old)))
        how
        (point_of shell.new session.new (T.state tree.new) (seen_of drawn (O.taken out.new) (E.taken err.new)) (faults_of input (O.faults out.new) (E.faults err.new) (T.faults tree.new)))) }
    ensures session { IfOk result (λ _. session.new ≡ session.old) }
    ensures state { IfOk result (λ _. T.state tree.new ≡ T.state tree.old) }
{
    let mut targets = Vec::new(alloc);
    for redir in redirs {
        let text = match text_of(alloc, &redir.word, shell) {
            Ok(text) => Text::from_vec(text),
            Err(fault) => return Err(stop_at(alloc, fault, shell, session, tree, out, err)),
        };
        let Ok(()) = targets.push(Target {
            number: redir.number,
            how: redir.how,
            text,
        }) else {
            return Err(How::Memory);
        };
    }
    Ok(targets)
}

/// Does assignments, from the left. Where a word has a fault, the shell ends or the run is refused, and the fault is told.
pub(crate) fn assign_all<T: Tree, O: Sink, E: Sink>(
    alloc: Global,
    assigns: &[(Text, Word)],
    shell: &mut Shell,
    session: &mut Session,
    tree: &mut T,
    out: &mut O,
    err: &mut E,
) -> Result<(), How>
    requires sound { IsSound session.old (T.state tree.old) }
    ensures ok { OnOk result ((drawn : Drawn) (input : ℕ) →
        PassesOn (λ expansions next. assigning expansions (map assign_tree assigns.now) (next (tt {0})))
        (point_of shell.old session.old (T.state tree.old) (seen_of drawn (O.taken out.old) (E.taken err.old)) (faults_of input (O.faults out.old) (E.faults err.old) (T.faults tree.old)))
        (tt {0})
        (point_of shell.new session.new (T.state tree.new) (seen_of drawn (O.taken out.new) (E.taken err.new)) (faults_of input (O.faults out.new) (E.faults err.new) (T.faults tree.new)))) }
    ensures err { IfErr result (λ how. (drawn : Drawn) (input : ℕ) →
        StopsAt (λ expansions next. assigning expansions (map assign_tree assigns.now) (next (tt {0})))
        (point_of shell.old session.old (T.state tree.old) (seen_of drawn (O.taken out.old) (E.taken err.old)) (faults_of input (O.faults out.old) (E.faults err.old) (T.faults tree.old)))
        how
        (point_of shell.new session.new (T.state tree.new) (seen_of drawn (O.taken out.new) (E.taken err.new)) (faults_of input (O.faults out.new) (E.faults err.new) (T.faults tree.new)))) }
    ensures session { OnOk result (session.new ≡ session.old) }
    ensures state { OnOk result (T.state tree.new ≡ T.state tree.old) }
{
    for (name, word) in assigns {
        let text = match text_of(alloc, word, shell) {
            Ok(text) => text,
            Err(fault) => return Err(stop_at(alloc, fault, shell, session, tree, out, err)),
        };
        let Ok(()) = shell.variables.set(alloc, name.as_slice(), text.as_slice()) else {
            return Err(How::Memory);
        };
    }
    Ok(())
}

/// Gives the variables that were assigned their old values again, the last first.
#[tactic(auto, using(crate::proofs::ExpandingSteps::restored_steps))]
pub(crate) fn restore(
    alloc: Global,
    assigns: &[(Text, Word)],
    saved: &Env,
    shell: &mut Shell,
) -> Result<(), Memory>
    ensures { OnOk result (shell.new ≡ with_env (restored (map assign_tree assigns.now) saved.now shell.old.variables) shell.old) }
{
    let mut left = assigns;
    while let Some(((name, _), front)) = left.split_last() {
        match saved.get(name.as_slice()) {
            Some(text) => shell.variables.set(alloc, name.as_slice(), text)?,
            None => shell.variables.unset(name.as_slice()),
        }
        left = front;
    }
    Ok(())
}
