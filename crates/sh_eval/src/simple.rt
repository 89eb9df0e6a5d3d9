//! Simple commands, behind their substitutions.
ghost use Rattle.std.specs.Prelude.{◌≡◌, ◌<◌, List, ℕ, length, map, true, Err, Result, IfErr, IfOk, OnOk};
ghost use Rattle.ps_lines.specs.Texts.{texts_of};
ghost use Rattle.sh_tree.specs.Views.{redir_tree, word_tree};
ghost use Rattle.ut_args.specs.Built.{is_built_of};
ghost use Rattle.ut_args.specs.Invocations.{command_of, words_of};
ghost use Rattle.ut_args.specs.Reading.{invocation};
ghost use Rattle.ut_args.specs.declared.commands.Command.{Command};
ghost use Rattle.fl_segments.specs.Stages.{is_tee as is_tee_def};
ghost use Rattle.sh_eval.specs.Asking.{asked_as, asked_by, at_fault, does, is_special as is_special_def, tee as tee_asked};
ghost use Rattle.sh_eval.specs.Contract.{Evaluates, IsSound, drawn_of, faults_of, point_of, seen_of};
ghost use Rattle.sh_eval.specs.Expanding.{assigning};
ghost use Rattle.sh_eval.specs.Inner.Bodies.{assign_tree};
ghost use Rattle.sh_eval.specs.Inner.Doing.{asked_of, can_be_done, is_own, own_means, stays_of, uses_own, way_of as way_of_def};
ghost use Rattle.sh_eval.specs.Inner.Inputs.{called_by};
ghost use Rattle.sh_eval.specs.Inner.Opening.{FindsUses, LooksInVain, opened};
ghost use Rattle.sh_eval.specs.Simple.{assigned_for, by_patterns, checked, runs_simple};
ghost use Rattle.sh_eval.specs.Table.{pages, patterns_of};
ghost use Rattle.sh_eval.specs.Teeing.{uses_by_files};
ghost use Rattle.sh_eval.specs.Utilities.{read, uses_by_operands};

use crate::builtins::{misuse, run_builtin};
use crate::busy::{Use, add_files, add_operands};
use crate::expanding::{assign_all, expand_targets, expand_words, restore};
use crate::flows::Flow;
use crate::opening::{close, open};
use crate::outcomes::{How, Played, how_of};
use crate::patterns::{Checked, check_patterns};
use crate::refusals::Refusal;
use crate::session::Session;
use crate::shell::Shell;
use crate::targets::Target;
use crate::teeing::{is_tee, run_tee};
use crate::utilities::run_utility;
use fl_engines::Engine;
use ps_lines::Text;
use ps_world::{Gate, Sink, Source, Tree};
use sh_tree::{Redir, Word};
use std::alloc::Global;
use ut_args::{ArgFault, Inv, read_inv};

/// The most operands of a utility.
pub(crate) const MAX_OPERANDS: usize = 256;

/// What a command does once its assignments are done.
#[derive(Clone, Copy)]
pub(crate) enum Doing<'name, 'inv> {
    /// Nothing more: it has no name.
    Nothing,
    /// One of the shell's own commands, by its name.
    Builtin(&'name [u8], &'inv Inv),
    /// The command of this name tells that its words can't be used.
    Misuse(&'name [u8]),
    /// The utility of this name tells that its patterns can't be read.
    WrongPatterns(&'name [u8]),
    /// tee, by its name.
    Tee(&'name [u8], &'inv Inv),
    /// Another utility, by its name.
    Utility(&'name [u8], &'inv Inv),
}

/// Whether this is one of the shell's own commands.
pub(crate) fn is_builtin(inv: &Inv) -> bool
    ensures { (name : List ℕ) (words : List (List ℕ)) → result ≡ is_own (does name words (command_of inv.now)) }
{
    matches!(
        inv,
        Inv::True(_)
            | Inv::False(_)
            | Inv::Colon(_)
            | Inv::Break(_)
            | Inv::Continue(_)
            | Inv::Exit(_)
            | Inv::Set(_)
            | Inv::Shift(_)
            | Inv::Unset(_)
            | Inv::Read(_)
            | Inv::Test(_)
            | Inv::Bracket(_)
            | Inv::Echo(_)
    )
}

/// Whether this name is that of a special built-in of the table (XCU 2.14).
fn is_special_name(name: &[u8]) -> bool
    ensures { result ≡ is_special_def name.now }
{
    name == b":".as_slice()
        || name == b"break".as_slice()
        || name == b"continue".as_slice()
        || name == b"exit".as_slice()
        || name == b"set".as_slice()
        || name == b"shift".as_slice()
        || name == b"unset".as_slice()
}

/// Whether its assignments stay (XCU 2.9.1, 2.14): those of a special built-in, and those of no command.
fn stays(doing: Doing<'_, '_>) -> bool
    ensures { result ≡ stays_of (asked_of doing.entry) }
{
    match doing {
        Doing::Nothing => true,
        Doing::Builtin(_, inv) => matches!(
            inv,
            Inv::Colon(_)
                | Inv::Break(_)
                | Inv::Continue(_)
                | Inv::Exit(_)
                | Inv::Set(_)
                | Inv::Shift(_)
                | Inv::Unset(_)
        ),
        Doing::Misuse(name) => is_special_name(name),
        Doing::WrongPatterns(_) | Doing::Tee(_, _) | Doing::Utility(_, _) => false,
    }
}

/// How the shell goes on where the command of this name can't be run (XCU 2.8.1).
fn flow_at_fault(name: &[u8]) -> Flow
    ensures { result ≡ at_fault (is_special_def name.now) }
{
    if is_special_name(name) {
        Flow::Exit
    } else {
        Flow::On
    }
}

/// How the shell goes on where a redirection of the command stops (XCU 2.8.1).
fn way_of(doing: Doing<'_, '_>) -> Flow
    ensures { result ≡ way_of_def (asked_of doing.entry) }
{
    match doing {
        Doing::Nothing | Doing::WrongPatterns(_) | Doing::Tee(_, _) | Doing::Utility(_, _) =>
            Flow::On,
        Doing::Builtin(_, _) | Doing::Misuse(_) => {
            if stays(doing) { Flow::Exit } else { Flow::On }
        }
    }
}

/// Runs a simple command.
pub(crate) fn run_simple<T: Tree, I: Source + Send, O: Sink + Send, E: Sink, G: Gate, X: Engine>(
    alloc: Global,
    assigns: &[(Text, Word)],
    words: &[Word],
    redirs: &[Redir],
    shell: &mut Shell,
    session: &mut Session,
    tree: &mut T,
    input: I,
    out: O,
    err: &mut E,
    gate: &G,
    engine: &mut X,
) -> Played<I, O>
    requires sound { IsSound session.old (T.state tree.old) }
    ensures { Evaluates (λ expansions. runs_simple expansions pages (map assign_tree assigns.now) (map word_tree words.now) (map redir_tree redirs.now))
        (point_of shell.old session.old (T.state tree.old) (seen_of (drawn_of (I.left input) (X.used engine.old)) (O.taken out) (E.taken err.old))
        (faults_of (I.faults input) (O.faults out) (E.faults err.old) (T.faults tree.old)))
        result.how
        (point_of shell.new session.new (T.state tree.new) (seen_of (drawn_of (I.left result.input) (X.used engine.new)) (O.taken result.out) (E.taken err.new))
        (faults_of (I.faults result.input) (O.faults result.out) (E.faults err.new) (T.faults tree.new))) }
{
    let mut out = out;
    let fields = match expand_words(alloc, words, shell, session, tree, &mut out, err) {
        Ok(fields) => fields,
        Err(how) => return Played { how, input, out },
    };
    let targets = match expand_targets(alloc, redirs, shell, session, tree, &mut out, err) {
        Ok(targets) => targets,
        Err(how) => return Played { how, input, out },
    };
    run_fields(
        alloc,
        assigns,
        targets.as_slice(),
        fields.as_slice(),
        shell,
        session,
        tree,
        input,
        out,
        err,
        gate,
        engine,
    )
}

/// Runs what the fields of a command ask for.
fn run_fields<T: Tree, I: Source + Send, O: Sink + Send, E: Sink, G: Gate, X: Engine>(
    alloc: Global,
    assigns: &[(Text, Word)],
    targets: &[Target],
    fields: &[Vec<u8>],
    shell: &mut Shell,
    session: &mut Session,
    tree: &mut T,
    input: I,
    out: O,
    err: &mut E,
    gate: &G,
    engine: &mut X,
) -> Played<I, O>
    requires sound { IsSound session.old (T.state tree.old) }
    ensures { Evaluates (λ expansions. checked expansions pages (map assign_tree assigns.now) targets.now (asked_by (texts_of fields.now)))
        (point_of shell.old session.old (T.state tree.old) (seen_of (drawn_of (I.left input) (X.used engine.old)) (O.taken out) (E.taken err.old))
        (faults_of (I.faults input) (O.faults out) (E.faults err.old) (T.faults tree.old)))
        result.how
        (point_of shell.new session.new (T.state tree.new) (seen_of (drawn_of (I.left result.input) (X.used engine.new)) (O.taken result.out) (E.taken err.new))
        (faults_of (I.faults result.input) (O.faults result.out) (E.faults err.new) (T.faults tree.new))) }
{
    match fields {
        [] => run_in_redirections(
            alloc,
            assigns,
            targets,
            Doing::Nothing,
            shell,
            session,
            tree,
            input,
            out,
            err,
            gate,
            engine,
        ),
        [name, ..] => run_named(
            alloc,
            assigns,
            targets,
            name.as_slice(),
            fields,
            shell,
            session,
            tree,
            input,
            out,
            err,
            gate,
            engine,
        ),
    }
}

/// Runs what the fields of a command ask for, of which this is the first.
fn run_named<T: Tree, I: Source + Send, O: Sink + Send, E: Sink, G: Gate, X: Engine>(
    alloc: Global,
    assigns: &[(Text, Word)],
    targets: &[Target],
    name: &[u8],
    fields: &[Vec<u8>],
    shell: &mut Shell,
    session: &mut Session,
    tree: &mut T,
    input: I,
    out: O,
    err: &mut E,
    gate: &G,
    engine: &mut X,
) -> Played<I, O>
    requires named { 0 < length fields.now }
    requires sound { IsSound session.old (T.state tree.old) }
    ensures { Evaluates (λ expansions. checked expansions pages (map assign_tree assigns.now) targets.now (asked_as name.now (texts_of fields.now) (invocation (texts_of fields.now))))
        (point_of shell.old session.old (T.state tree.old) (seen_of (drawn_of (I.left input) (X.used engine.old)) (O.taken out) (E.taken err.old))
        (faults_of (I.faults input) (O.faults out) (E.faults err.old) (T.faults tree.old)))
        result.how
        (point_of shell.new session.new (T.state tree.new) (seen_of (drawn_of (I.left result.input) (X.used engine.new)) (O.taken result.out) (E.taken err.new))
        (faults_of (I.faults result.input) (O.faults result.out) (E.faults err.new) (T.faults tree.new))) }
{
    match read_inv(alloc, fields) {
        Ok(inv) => {
            let played = run_inv(
                alloc, assigns, targets, name, &inv, shell, session, tree, input, out, err, gate,
                engine,
            );
            drop(inv);
            played
        }
        Err(fault) => run_fault(
            alloc, assigns, targets, fault, shell, session, tree, input, out, err, gate, engine,
        ),
    }
}

/// Runs an invocation in its redirections and behind its assignments.
fn run_inv<T: Tree, I: Source + Send, O: Sink + Send, E: Sink, G: Gate, X: Engine>(
    alloc: Global,
    assigns: &[(Text, Word)],
    targets: &[Target],
    name: &[u8],
    inv: &Inv,
    shell: &mut Shell,
    session: &mut Session,
    tree: &mut T,
    input: I,
    out: O,
    err: &mut E,
    gate: &G,
    engine: &mut X,
) -> Played<I, O>
    requires sound { IsSound session.old (T.state tree.old) }
    ensures { Evaluates (λ expansions. checked expansions pages (map assign_tree assigns.now) targets.now (does name.now (words_of inv.now) (command_of inv.now)))
        (point_of shell.old session.old (T.state tree.old) (seen_of (drawn_of (I.left input) (X.used engine.old)) (O.taken out) (E.taken err.old))
        (faults_of (I.faults input) (O.faults out) (E.faults err.old) (T.faults tree.old)))
        result.how
        (point_of shell.new session.new (T.state tree.new) (seen_of (drawn_of (I.left result.input) (X.used engine.new)) (O.taken result.out) (E.taken err.new))
        (faults_of (I.faults result.input) (O.faults result.out) (E.faults err.new) (T.faults tree.new))) }
{
    if is_builtin(inv) {
        return run_in_redirections(
            alloc,
            assigns,
            targets,
            Doing::Builtin(name, inv),
            shell,
            session,
            tree,
            input,
            out,
            err,
            gate,
            engine,
        );
    }
    if is_tee(inv) {
        return run_few_files(
            alloc, assigns, targets, name, inv, shell, session, tree, input, out, err, gate, engine,
        );
    }
    run_built(
        alloc, assigns, targets, name, inv, shell, session, tree, input, out, err, gate, engine,
    )
}

/// Runs tee in its redirections and behind its assignments, where it hasn't too many files.
fn run_few_files<T: Tree, I: Source + Send, O: Sink + Send, E: Sink, G: Gate, X: Engine>(
    alloc: Global,
    assigns: &[(Text, Word)],
    targets: &[Target],
    name: &[u8],
    inv: &Inv,
    shell: &mut Shell,
    session: &mut Session,
    tree: &mut T,
    input: I,
    out: O,
    err: &mut E,
    gate: &G,
    engine: &mut X,
) -> Played<I, O>
    requires tee { is_tee_def inv.now ≡ true }
    requires sound { IsSound session.old (T.state tree.old) }
    ensures { Evaluates (λ expansions. checked expansions pages (map assign_tree assigns.now) targets.now (tee_asked name.now (called_by inv.now)))
        (point_of shell.old session.old (T.state tree.old) (seen_of (drawn_of (I.left input) (X.used engine.old)) (O.taken out) (E.taken err.old))
        (faults_of (I.faults input) (O.faults out) (E.faults err.old) (T.faults tree.old)))
        result.how
        (point_of shell.new session.new (T.state tree.new) (seen_of (drawn_of (I.left result.input) (X.used engine.new)) (O.taken result.out) (E.taken err.new))
        (faults_of (I.faults result.input) (O.faults result.out) (E.faults err.new) (T.faults tree.new))) }
{
    if MAX_OPERANDS < inv.files_written().len() {
        return Played {
            how: How::Gone(Flow::Refused(Refusal::ArgsTooMany)),
            input,
            out,
        };
    }
    run_in_redirections(
        alloc,
        assigns,
        targets,
        Doing::Tee(name, inv),
        shell,
        session,
        tree,
        input,
        out,
        err,
        gate,
        engine,
    )
}

/// Runs a utility in its redirections and behind its assignments, where its patterns can be read.
fn run_built<T: Tree, I: Source + Send, O: Sink + Send, E: Sink, G: Gate, X: Engine>(
    alloc: Global,
    assigns: &[(Text, Word)],
    targets: &[Target],
    name: &[u8],
    inv: &Inv,
    shell: &mut Shell,
    session: &mut Session,
    tree: &mut T,
    input: I,
    out: O,
    err: &mut E,
    gate: &G,
    engine: &mut X,
) -> Played<I, O>
    requires built { is_built_of inv.now ≡ true }
    requires sound { IsSound session.old (T.state tree.old) }
    ensures { Evaluates (λ expansions. by_patterns expansions pages name.now (called_by inv.now) (map assign_tree assigns.now) targets.now (patterns_of (command_of inv.now)))
        (point_of shell.old session.old (T.state tree.old) (seen_of (drawn_of (I.left input) (X.used engine.old)) (O.taken out) (E.taken err.old))
        (faults_of (I.faults input) (O.faults out) (E.faults err.old) (T.faults tree.old)))
        result.how
        (point_of shell.new session.new (T.state tree.new) (seen_of (drawn_of (I.left result.input) (X.used engine.new)) (O.taken result.out) (E.taken err.new))
        (faults_of (I.faults result.input) (O.faults result.out) (E.faults err.new) (T.faults tree.new))) }
{
    let checked = match check_patterns(alloc, inv) {
        Ok(checked) => checked,
        Err(_) => {
            return Played {
                how: How::Memory,
                input,
                out,
            };
        }
    };
    match checked {
        Checked::Read => run_read(
            alloc, assigns, targets, name, inv, shell, session, tree, input, out, err, gate, engine,
        ),
        Checked::Wrong => run_in_redirections(
            alloc,
            assigns,
            targets,
            Doing::WrongPatterns(name),
            shell,
            session,
            tree,
            input,
            out,
            err,
            gate,
            engine,
        ),
        Checked::RefersBack(pattern) => Played {
            how: How::Gone(Flow::Refused(Refusal::UnsupportedPattern(pattern))),
            input,
            out,
        },
    }
}

/// Runs a utility in its redirections and behind its assignments, where it hasn't too many operands.
fn run_read<T: Tree, I: Source + Send, O: Sink + Send, E: Sink, G: Gate, X: Engine>(
    alloc: Global,
    assigns: &[(Text, Word)],
    targets: &[Target],
    name: &[u8],
    inv: &Inv,
    shell: &mut Shell,
    session: &mut Session,
    tree: &mut T,
    input: I,
    out: O,
    err: &mut E,
    gate: &G,
    engine: &mut X,
) -> Played<I, O>
    requires built { is_built_of inv.now ≡ true }
    requires sound { IsSound session.old (T.state tree.old) }
    ensures { Evaluates (λ expansions. by_patterns expansions pages name.now (called_by inv.now) (map assign_tree assigns.now) targets.now read)
        (point_of shell.old session.old (T.state tree.old) (seen_of (drawn_of (I.left input) (X.used engine.old)) (O.taken out) (E.taken err.old))
        (faults_of (I.faults input) (O.faults out) (E.faults err.old) (T.faults tree.old)))
        result.how
        (point_of shell.new session.new (T.state tree.new) (seen_of (drawn_of (I.left result.input) (X.used engine.new)) (O.taken result.out) (E.taken err.new))
        (faults_of (I.faults result.input) (O.faults result.out) (E.faults err.new) (T.faults tree.new))) }
{
    if MAX_OPERANDS < inv.operands().len() {
        return Played {
            how: How::Gone(Flow::Refused(Refusal::ArgsTooMany)),
            input,
            out,
        };
    }
    run_in_redirections(
        alloc,
        assigns,
        targets,
        Doing::Utility(name, inv),
        shell,
        session,
        tree,
        input,
        out,
        err,
        gate,
        engine,
    )
}

/// Refuses what is no invocation; words that can't be used are told.
fn run_fault<T: Tree, I: Source + Send, O: Sink + Send, E: Sink, G: Gate, X: Engine>(
    alloc: Global,
    assigns: &[(Text, Word)],
    targets: &[Target],
    fault: ArgFault,
    shell: &mut Shell,
    session: &mut Session,
    tree: &mut T,
    input: I,
    out: O,
    err: &mut E,
    gate: &G,
    engine: &mut X,
) -> Played<I, O>
    requires sound { IsSound session.old (T.state tree.old) }
    ensures { (name : List ℕ) (words : List (List ℕ)) (asked : Result Command ArgFault) → ((fault ≡ ArgFault.Memory → ⊥) → asked ≡ Err fault)
        → Evaluates (λ expansions. checked expansions pages (map assign_tree assigns.now) targets.now (asked_as name words asked))
        (point_of shell.old session.old (T.state tree.old) (seen_of (drawn_of (I.left input) (X.used engine.old)) (O.taken out) (E.taken err.old))
        (faults_of (I.faults input) (O.faults out) (E.faults err.old) (T.faults tree.old)))
        result.how
        (point_of shell.new session.new (T.state tree.new) (seen_of (drawn_of (I.left result.input) (X.used engine.new)) (O.taken result.out) (E.taken err.new))
        (faults_of (I.faults result.input) (O.faults result.out) (E.faults err.new) (T.faults tree.new))) }
{
    match fault {
        ArgFault::UnknownCommand(name) => Played {
            how: How::Gone(Flow::Refused(Refusal::UnknownCommand(name))),
            input,
            out,
        },
        ArgFault::UnsupportedFlag(name, letter) => Played {
            how: How::Gone(Flow::Refused(Refusal::UnsupportedFlag(name, letter))),
            input,
            out,
        },
        ArgFault::BadUsage(name) => run_in_redirections(
            alloc,
            assigns,
            targets,
            Doing::Misuse(name.as_slice()),
            shell,
            session,
            tree,
            input,
            out,
            err,
            gate,
            engine,
        ),
        ArgFault::Memory => Played {
            how: How::Memory,
            input,
            out,
        },
    }
}

/// Does something in its redirections, where no path of theirs is busy.
fn run_in_redirections<T: Tree, I: Source + Send, O: Sink + Send, E: Sink, G: Gate, X: Engine>(
    alloc: Global,
    assigns: &[(Text, Word)],
    targets: &[Target],
    doing: Doing<'_, '_>,
    shell: &mut Shell,
    session: &mut Session,
    tree: &mut T,
    input: I,
    out: O,
    err: &mut E,
    gate: &G,
    engine: &mut X,
) -> Played<I, O>
    requires own { can_be_done doing ≡ true }
    requires sound { IsSound session.old (T.state tree.old) }
    ensures { Evaluates (λ expansions. opened (way_of_def (asked_of doing.entry)) (uses_own (asked_of doing.entry)) targets.now
        (assigned_for expansions (stays_of (asked_of doing.entry)) (map assign_tree assigns.now) (own_means (asked_of doing.entry))))
        (point_of shell.old session.old (T.state tree.old) (seen_of (drawn_of (I.left input) (X.used engine.old)) (O.taken out) (E.taken err.old))
        (faults_of (I.faults input) (O.faults out) (E.faults err.old) (T.faults tree.old)))
        result.how
        (point_of shell.new session.new (T.state tree.new) (seen_of (drawn_of (I.left result.input) (X.used engine.new)) (O.taken result.out) (E.taken err.new))
        (faults_of (I.faults result.input) (O.faults result.out) (E.faults err.new) (T.faults tree.new))) }
{
    let way = way_of(doing);
    let uses = match uses_of(alloc, doing, tree) {
        Ok(uses) => uses,
        Err(how) => return Played { how, input, out },
    };
    let mut out = out;
    let before = match open(
        alloc, uses, targets, way, shell, session, tree, &mut out, err,
    ) {
        Ok(before) => before,
        Err(how) => return Played { how, input, out },
    };
    let Played { how, input, out } = run_doing(
        alloc, assigns, doing, shell, session, tree, input, out, err, gate, engine,
    );
    close(before, session);
    Played { how, input, out }
}

/// Looks up the paths that a command uses as its operands.
fn uses_of<T: Tree>(alloc: Global, doing: Doing<'_, '_>, tree: &mut T) -> Result<Vec<Use>, How>
    requires own { can_be_done doing ≡ true }
    ensures found { IfOk result (λ uses. FindsUses (T.state tree.old) uses.items (uses_own (asked_of doing.entry))) }
    ensures state { T.state tree.new ≡ T.state tree.old }
    ensures ok { OnOk result (T.faults tree.new ≡ T.faults tree.old) }
    ensures err { IfErr result (λ how. LooksInVain how (T.state tree.old) (T.state tree.new) (T.faults tree.old) (T.faults tree.new)) }
{
    match doing {
        Doing::Nothing | Doing::Builtin(_, _) | Doing::Misuse(_) | Doing::WrongPatterns(_) => {
            Ok(Vec::new(alloc))
        }
        Doing::Tee(_, inv) => uses_of_files(alloc, inv, tree),
        Doing::Utility(_, inv) => uses_of_operands(alloc, inv, tree),
    }
}

/// Looks up the paths of the files that tee writes.
fn uses_of_files<T: Tree>(alloc: Global, inv: &Inv, tree: &mut T) -> Result<Vec<Use>, How>
    ensures found { IfOk result (λ uses. FindsUses (T.state tree.old) uses.items (uses_by_files (called_by inv.now))) }
    ensures state { T.state tree.new ≡ T.state tree.old }
    ensures ok { OnOk result (T.faults tree.new ≡ T.faults tree.old) }
    ensures err { IfErr result (λ how. LooksInVain how (T.state tree.old) (T.state tree.new) (T.faults tree.old) (T.faults tree.new)) }
{
    let mut uses = Vec::new(alloc);
    match add_files(alloc, inv.files_written(), &mut uses, tree) {
        Ok(()) => Ok(uses),
        Err(error) => Err(how_of(error)),
    }
}

/// Looks up the paths of a utility's operands.
fn uses_of_operands<T: Tree>(alloc: Global, inv: &Inv, tree: &mut T) -> Result<Vec<Use>, How>
    ensures found { IfOk result (λ uses. FindsUses (T.state tree.old) uses.items (uses_by_operands pages (called_by inv.now))) }
    ensures state { T.state tree.new ≡ T.state tree.old }
    ensures ok { OnOk result (T.faults tree.new ≡ T.faults tree.old) }
    ensures err { IfErr result (λ how. LooksInVain how (T.state tree.old) (T.state tree.new) (T.faults tree.old) (T.faults tree.new)) }
{
    let mut uses = Vec::new(alloc);
    match add_operands(alloc, inv.operands(), &mut uses, tree) {
        Ok(()) => Ok(uses),
        Err(error) => Err(how_of(error)),
    }
}

/// Does something with the assignments before it, which stay or are undone behind it.
fn run_doing<T: Tree, I: Source + Send, O: Sink + Send, E: Sink, G: Gate, X: Engine>(
    alloc: Global,
    assigns: &[(Text, Word)],
    doing: Doing<'_, '_>,
    shell: &mut Shell,
    session: &mut Session,
    tree: &mut T,
    input: I,
    out: O,
    err: &mut E,
    gate: &G,
    engine: &mut X,
) -> Played<I, O>
    requires own { can_be_done doing ≡ true }
    requires sound { IsSound session.old (T.state tree.old) }
    ensures { Evaluates (λ expansions. assigned_for expansions (stays_of (asked_of doing.entry)) (map assign_tree assigns.now) (own_means (asked_of doing.entry)))
        (point_of shell.old session.old (T.state tree.old) (seen_of (drawn_of (I.left input) (X.used engine.old)) (O.taken out) (E.taken err.old))
        (faults_of (I.faults input) (O.faults out) (E.faults err.old) (T.faults tree.old)))
        result.how
        (point_of shell.new session.new (T.state tree.new) (seen_of (drawn_of (I.left result.input) (X.used engine.new)) (O.taken result.out) (E.taken err.new))
        (faults_of (I.faults result.input) (O.faults result.out) (E.faults err.new) (T.faults tree.new))) }
{
    if stays(doing) {
        return run_assigned(
            alloc, assigns, doing, shell, session, tree, input, out, err, gate, engine,
        );
    }
    if let [] = assigns {
        return run_assigned(
            alloc, assigns, doing, shell, session, tree, input, out, err, gate, engine,
        );
    }
    let Ok(saved) = shell.variables.copy(alloc) else {
        return Played {
            how: How::Memory,
            input,
            out,
        };
    };
    let Played { how, input, out } = run_assigned(
        alloc, assigns, doing, shell, session, tree, input, out, err, gate, engine,
    );
    let Ok(()) = restore(alloc, assigns, &saved, shell) else {
        return Played {
            how: How::Memory,
            input,
            out,
        };
    };
    Played { how, input, out }
}

/// Does something behind its assignments.
fn run_assigned<T: Tree, I: Source + Send, O: Sink + Send, E: Sink, G: Gate, X: Engine>(
    alloc: Global,
    assigns: &[(Text, Word)],
    doing: Doing<'_, '_>,
    shell: &mut Shell,
    session: &mut Session,
    tree: &mut T,
    input: I,
    out: O,
    err: &mut E,
    gate: &G,
    engine: &mut X,
) -> Played<I, O>
    requires own { can_be_done doing ≡ true }
    requires sound { IsSound session.old (T.state tree.old) }
    ensures { Evaluates (λ expansions. assigning expansions (map assign_tree assigns.now) (own_means (asked_of doing.entry)))
        (point_of shell.old session.old (T.state tree.old) (seen_of (drawn_of (I.left input) (X.used engine.old)) (O.taken out) (E.taken err.old))
        (faults_of (I.faults input) (O.faults out) (E.faults err.old) (T.faults tree.old)))
        result.how
        (point_of shell.new session.new (T.state tree.new) (seen_of (drawn_of (I.left result.input) (X.used engine.new)) (O.taken result.out) (E.taken err.new))
        (faults_of (I.faults result.input) (O.faults result.out) (E.faults err.new) (T.faults tree.new))) }
{
    let mut out = out;
    match assign_all(alloc, assigns, shell, session, tree, &mut out, err) {
        Ok(()) => {}
        Err(how) => return Played { how, input, out },
    }
    match doing {
        Doing::Nothing => {
            shell.status = shell.substitution_status;
            Played {
                how: How::Gone(Flow::On),
                input,
                out,
            }
        }
        Doing::Builtin(name, inv) => {
            run_builtin(alloc, name, inv, shell, session, tree, input, out, err)
        }
        Doing::Misuse(name) => {
            let flow = flow_at_fault(name);
            let how = misuse(alloc, name, flow, shell, session, tree, &mut out, err);
            Played { how, input, out }
        }
        Doing::WrongPatterns(name) => {
            let how = misuse(alloc, name, Flow::On, shell, session, tree, &mut out, err);
            Played { how, input, out }
        }
        Doing::Tee(name, inv) => run_tee(
            alloc, name, inv, shell, session, tree, input, out, err, gate, engine,
        ),
        Doing::Utility(name, inv) => run_utility(
            alloc, name, inv, shell, session, tree, input, out, err, gate, engine,
        ),
    }
}
