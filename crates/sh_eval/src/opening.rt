//! What stands around a command: its redirections are done before it, where no path is busy, and taken back behind it (XCU 2.7).
ghost use Rattle.std.specs.Prelude.{◌≡◌, ◌<◌, ◌++◌, [], ℕ, List, length, map, None, Option, IfErr, IfOk, OnOk};
ghost use Rattle.sh_expand.specs.Outcomes.{Expansions};
ghost use Rattle.sh_tree.specs.Views.{redir_tree};
ghost use Rattle.sh_eval.specs.Contract.{Drawn, Evaluates, IsSound, Seen, faults_of, point_of, seen_of};
ghost use Rattle.sh_eval.specs.Growth.{Adds};
ghost use Rattle.sh_eval.specs.Inner.Opening.{FindsUses, IsBusy, Opens, Shuts, closed, freed, held_opened, opened};
ghost use Rattle.sh_eval.specs.Meaning.{held_in};
ghost use Rattle.sh_eval.specs.Redirections.{first_busy as first_busy_def, in_redirections, uses_of};
ghost use Rattle.sh_eval.specs.States.{Means, State};
ghost use Rattle.sh_eval.specs.Table.{pages};
ghost use Rattle.sh_eval.specs.declared.shell.Shell.{Shell};

use crate::busy::{Use, add_targets, first_busy, hold};
use crate::expanding::expand_targets;
use crate::flows::Flow;
use crate::leading::Before;
use crate::outcomes::{How, how_of};
use crate::redirections::redirect_all;
use crate::refusals::Refusal;
use crate::session::Session;
use crate::shell::Shell;
use crate::skipping::skip;
use crate::targets::Target;
use ps_lines::Text;
use ps_world::{Sink, Tree};
use sh_tree::Redir;
use std::alloc::Global;

/// Does the redirections of a command, where none of the paths that it uses is busy, and gives where the descriptors led before.
///
/// `uses` are the paths of its operands. Where a redirection stops, the command is skipped, and the shell goes on in this way.
pub(crate) fn open<T: Tree, O: Sink, E: Sink>(
    alloc: Global,
    uses: Vec<Use>,
    targets: &[Target],
    way: Flow,
    shell: &mut Shell,
    session: &mut Session,
    tree: &mut T,
    out: &mut O,
    err: &mut E,
) -> Result<Option<Before>, How>
    requires sound { IsSound session.old (T.state tree.old) }
    ensures ok { IfOk result (λ before. (drawn : Drawn) (input : ℕ) (found : State → List Use) → FindsUses (T.state tree.old) uses.items found →
        Opens (λ expansions. opened way found targets.now)
        (point_of shell.old session.old (T.state tree.old) (seen_of drawn (O.taken out.old) (E.taken err.old)) (faults_of input (O.faults out.old) (E.faults err.old) (T.faults tree.old)))
        before
        (point_of shell.new session.new (T.state tree.new) (seen_of drawn (O.taken out.new) (E.taken err.new)) (faults_of input (O.faults out.new) (E.faults err.new) (T.faults tree.new)))) }
    ensures err { IfErr result (λ how. (drawn : Drawn) (input : ℕ) (found : State → List Use) → FindsUses (T.state tree.old) uses.items found →
        Shuts (λ expansions. opened way found targets.now)
        (point_of shell.old session.old (T.state tree.old) (seen_of drawn (O.taken out.old) (E.taken err.old)) (faults_of input (O.faults out.old) (E.faults err.old) (T.faults tree.old)))
        how
        (point_of shell.new session.new (T.state tree.new) (seen_of drawn (O.taken out.new) (E.taken err.new)) (faults_of input (O.faults out.new) (E.faults err.new) (T.faults tree.new)))) }
    ensures sound { IfOk result (λ _. IsSound session.new (T.state tree.new)) }
{
    let mut uses = uses;
    match look_up(alloc, targets, &mut uses, session, tree) {
        Ok(()) => {}
        Err(how) => return Err(how),
    }
    lead_all(alloc, targets, way, shell, session, tree, out, err)
}

/// Does the redirections behind a compound command, which holds their paths, and gives where the descriptors led before.
pub(crate) fn open_tail<T: Tree, O: Sink, E: Sink>(
    alloc: Global,
    redirs: &[Redir],
    shell: &mut Shell,
    session: &mut Session,
    tree: &mut T,
    out: &mut O,
    err: &mut E,
) -> Result<Option<Before>, How>
    requires sound { IsSound session.old (T.state tree.old) }
    ensures ok { IfOk result (λ before. (drawn : Drawn) (input : ℕ) → Opens (λ expansions. held_in expansions pages (map redir_tree redirs.now))
        (point_of shell.old session.old (T.state tree.old) (seen_of drawn (O.taken out.old) (E.taken err.old)) (faults_of input (O.faults out.old) (E.faults err.old) (T.faults tree.old)))
        before
        (point_of shell.new session.new (T.state tree.new) (seen_of drawn (O.taken out.new) (E.taken err.new)) (faults_of input (O.faults out.new) (E.faults err.new) (T.faults tree.new)))) }
    ensures err { IfErr result (λ how. (drawn : Drawn) (input : ℕ) → Shuts (λ expansions. held_in expansions pages (map redir_tree redirs.now))
        (point_of shell.old session.old (T.state tree.old) (seen_of drawn (O.taken out.old) (E.taken err.old)) (faults_of input (O.faults out.old) (E.faults err.old) (T.faults tree.old)))
        how
        (point_of shell.new session.new (T.state tree.new) (seen_of drawn (O.taken out.new) (E.taken err.new)) (faults_of input (O.faults out.new) (E.faults err.new) (T.faults tree.new)))) }
    ensures sound { IfOk result (λ _. IsSound session.new (T.state tree.new)) }
{
    let targets = match expand_targets(alloc, redirs, shell, session, tree, out, err) {
        Ok(targets) => targets,
        Err(how) => return Err(how),
    };
    open_held(alloc, targets.as_slice(), shell, session, tree, out, err)
}

/// Does the redirections of a compound command, where none of their paths is busy, and holds these.
fn open_held<T: Tree, O: Sink, E: Sink>(
    alloc: Global,
    targets: &[Target],
    shell: &mut Shell,
    session: &mut Session,
    tree: &mut T,
    out: &mut O,
    err: &mut E,
) -> Result<Option<Before>, How>
    requires sound { IsSound session.old (T.state tree.old) }
    ensures ok { IfOk result (λ before. (drawn : Drawn) (input : ℕ) → Opens (λ expansions. held_opened targets.now)
        (point_of shell.old session.old (T.state tree.old) (seen_of drawn (O.taken out.old) (E.taken err.old)) (faults_of input (O.faults out.old) (E.faults err.old) (T.faults tree.old)))
        before
        (point_of shell.new session.new (T.state tree.new) (seen_of drawn (O.taken out.new) (E.taken err.new)) (faults_of input (O.faults out.new) (E.faults err.new) (T.faults tree.new)))) }
    ensures err { IfErr result (λ how. (drawn : Drawn) (input : ℕ) → Shuts (λ expansions. held_opened targets.now)
        (point_of shell.old session.old (T.state tree.old) (seen_of drawn (O.taken out.old) (E.taken err.old)) (faults_of input (O.faults out.old) (E.faults err.old) (T.faults tree.old)))
        how
        (point_of shell.new session.new (T.state tree.new) (seen_of drawn (O.taken out.new) (E.taken err.new)) (faults_of input (O.faults out.new) (E.faults err.new) (T.faults tree.new)))) }
    ensures sound { IfOk result (λ _. IsSound session.new (T.state tree.new)) }
{
    let mut uses = Vec::new(alloc);
    match look_up(alloc, targets, &mut uses, session, tree) {
        Ok(()) => {}
        Err(how) => return Err(how),
    }
    let before = match lead_all(alloc, targets, Flow::On, shell, session, tree, out, err) {
        Ok(before) => before,
        Err(how) => return Err(how),
    };
    let Ok(()) = hold(uses.as_slice(), &mut session.streams.held) else {
        close(before, session);
        return Err(How::Memory);
    };
    Ok(before)
}

/// Has the descriptors lead where they led before a command's redirections.
pub(crate) fn close(before: Option<Before>, session: &mut Session)
    ensures { session.new ≡ closed before session.old }
{
    match before {
        Some(before) => before.lead_back(session),
        None => {}
    }
}

/// Looks up what redirections use, behind the uses that are known. The run is refused where a path of them is busy.
fn look_up<T: Tree>(
    alloc: Global,
    targets: &[Target],
    uses: &mut Vec<Use>,
    session: &Session,
    tree: &mut T,
) -> Result<(), How>
    ensures ok { OnOk result (FindsUses (T.state tree.old) uses.new.items (λ state. uses.old.items ++ uses_of state targets.now)) }
    ensures free { OnOk result (first_busy_def session.now.streams.held uses.new.items ≡ None) }
    ensures calm { OnOk result (T.faults tree.new ≡ T.faults tree.old) }
    ensures state { T.state tree.new ≡ T.state tree.old }
    ensures err { IfErr result (λ how. (shell : Shell) (seen : Seen) (input output errors : ℕ) (found : State → List Use) → FindsUses (T.state tree.old) uses.old.items found →
        (inner : Expansions → State → Means) → ((expansions : Expansions) (state : State) → Adds (inner expansions state)) →
        Evaluates (λ expansions. freed found targets.now (inner expansions))
        (point_of shell session.now (T.state tree.old) seen (faults_of input output errors (T.faults tree.old)))
        how
        (point_of shell session.now (T.state tree.new) seen (faults_of input output errors (T.faults tree.new)))) }
{
    match add_targets(alloc, targets, uses, tree) {
        Ok(()) => {}
        Err(error) => return Err(how_of(error)),
    }
    match first_busy(&session.streams.held, uses.as_slice()) {
        Some(text) => Err(refuse_busy(alloc, text)),
        None => Ok(()),
    }
}

/// Refuses the run, since this path is busy.
fn refuse_busy(alloc: Global, text: &[u8]) -> How
    ensures { IsBusy result text.now }
{
    match Text::copy_of(alloc, text) {
        Ok(text) => How::Gone(Flow::Refused(Refusal::PathBusy(text))),
        Err(_) => How::Memory,
    }
}

/// Does redirections, and gives where the descriptors led before: nothing where there are none. Where one stops, the command is skipped.
fn lead_all<T: Tree, O: Sink, E: Sink>(
    alloc: Global,
    targets: &[Target],
    way: Flow,
    shell: &mut Shell,
    session: &mut Session,
    tree: &mut T,
    out: &mut O,
    err: &mut E,
) -> Result<Option<Before>, How>
    requires sound { IsSound session.old (T.state tree.old) }
    ensures ok { IfOk result (λ before. (drawn : Drawn) (input : ℕ) → Opens (λ expansions. in_redirections way targets.now)
        (point_of shell.old session.old (T.state tree.old) (seen_of drawn (O.taken out.old) (E.taken err.old)) (faults_of input (O.faults out.old) (E.faults err.old) (T.faults tree.old)))
        before
        (point_of shell.new session.new (T.state tree.new) (seen_of drawn (O.taken out.new) (E.taken err.new)) (faults_of input (O.faults out.new) (E.faults err.new) (T.faults tree.new)))) }
    ensures err { IfErr result (λ how. (drawn : Drawn) (input : ℕ) → Shuts (λ expansions. in_redirections way targets.now)
        (point_of shell.old session.old (T.state tree.old) (seen_of drawn (O.taken out.old) (E.taken err.old)) (faults_of input (O.faults out.old) (E.faults err.old) (T.faults tree.old)))
        how
        (point_of shell.new session.new (T.state tree.new) (seen_of drawn (O.taken out.new) (E.taken err.new)) (faults_of input (O.faults out.new) (E.faults err.new) (T.faults tree.new)))) }
    ensures sound { IfOk result (λ _. IsSound session.new (T.state tree.new)) }
{
    let [] = targets else {
        return lead_some(alloc, targets, way, shell, session, tree, out, err);
    };
    Ok(None)
}

/// Does some redirections, and gives where the descriptors led before. Where one stops, the command is skipped.
fn lead_some<T: Tree, O: Sink, E: Sink>(
    alloc: Global,
    targets: &[Target],
    way: Flow,
    shell: &mut Shell,
    session: &mut Session,
    tree: &mut T,
    out: &mut O,
    err: &mut E,
) -> Result<Option<Before>, How>
    requires some { 0 < length targets.now }
    requires sound { IsSound session.old (T.state tree.old) }
    ensures ok { IfOk result (λ before. (drawn : Drawn) (input : ℕ) → Opens (λ expansions. in_redirections way targets.now)
        (point_of shell.old session.old (T.state tree.old) (seen_of drawn (O.taken out.old) (E.taken err.old)) (faults_of input (O.faults out.old) (E.faults err.old) (T.faults tree.old)))
        before
        (point_of shell.new session.new (T.state tree.new) (seen_of drawn (O.taken out.new) (E.taken err.new)) (faults_of input (O.faults out.new) (E.faults err.new) (T.faults tree.new)))) }
    ensures err { IfErr result (λ how. (drawn : Drawn) (input : ℕ) → Shuts (λ expansions. in_redirections way targets.now)
        (point_of shell.old session.old (T.state tree.old) (seen_of drawn (O.taken out.old) (E.taken err.old)) (faults_of input (O.faults out.old) (E.faults err.old) (T.faults tree.old)))
        how
        (point_of shell.new session.new (T.state tree.new) (seen_of drawn (O.taken out.new) (E.taken err.new)) (faults_of input (O.faults out.new) (E.faults err.new) (T.faults tree.new)))) }
    ensures sound { IfOk result (λ _. IsSound session.new (T.state tree.new)) }
{
    let Ok(mut before) = Before::of(alloc, &session.streams) else {
        return Err(How::Memory);
    };
    match redirect_all(alloc, targets, &mut before, session, tree) {
        Ok(()) => Ok(Some(before)),
        Err(stop) => {
            let how = skip(stop, way, shell, session, tree, out, err);
            before.lead_back(session);
            Err(how)
        }
    }
}
