//! The shell's own commands (XCU 2.14, and the pages of true, false, echo, test and read).
ghost use Rattle.std.specs.Prelude.{◌≡◌, ◌≤◌, nat_le, ℕ, List, Bool, Option, drop, length};
ghost use Rattle.ps_lines.specs.Texts.{texts_of};
ghost use Rattle.ut_args.specs.Invocations.{command_of};
ghost use Rattle.fl_engines.specs.Logs.{Log};
ghost use Rattle.sh_eval.specs.Asking.{builtin, does};
ghost use Rattle.sh_eval.specs.Builtins.{answers, echoes, exits, fails, leaves_loops, misused, reads, sets, shifts, succeeds, tests, unset_all as unset_all_def, unsets};
ghost use Rattle.sh_eval.specs.Contract.{Drawn, Evaluates, IsSound, drawn_of, faults_of, point_of, seen_of};
ghost use Rattle.sh_eval.specs.States.{Means};
ghost use Rattle.sh_eval.specs.Ending.{InShell, how_behind, status_behind};

use crate::flows::Flow;
use crate::lines::bad_usage;
use crate::outcomes::{How, Played, goes_on};
use crate::reading::read_names;
use crate::session::Session;
use crate::shell::Shell;
use crate::writing::{put, tell};
use ps_world::{Sink, Source, Tree, WorldErr};
use sh_arith::Env;
use std::alloc::Global;
use ut_args::Inv;
use ut_options::Texts;
use ut_test::{Tested, echo, test};

/// Runs one of the shell's own commands. `name` is its name, as diagnostics tell it.
///
/// Another command isn't run, and wants memory.
pub(crate) fn run_builtin<T: Tree, I: Source, O: Sink, E: Sink>(
    alloc: Global,
    name: &[u8],
    inv: &Inv,
    shell: &mut Shell,
    session: &mut Session,
    tree: &mut T,
    input: I,
    out: O,
    err: &mut E,
) -> Played<I, O>
    requires sound { IsSound session.old (T.state tree.old) }
    ensures { (used : Option Log) (words : List (List ℕ)) (is_special : Bool) (means : Means) → does name.now words (command_of inv.now) ≡ builtin is_special means
        → Evaluates (λ expansions. means)
        (point_of shell.old session.old (T.state tree.old) (seen_of (drawn_of (I.left input) used) (O.taken out) (E.taken err.old))
        (faults_of (I.faults input) (O.faults out) (E.faults err.old) (T.faults tree.old)))
        result.how
        (point_of shell.new session.new (T.state tree.new) (seen_of (drawn_of (I.left result.input) used) (O.taken result.out) (E.taken err.new))
        (faults_of (I.faults result.input) (O.faults result.out) (E.faults err.new) (T.faults tree.new))) }
{
    let mut input = input;
    let mut out = out;
    let how = run(
        alloc, name, inv, shell, session, tree, &mut input, &mut out, err,
    );
    Played { how, input, out }
}

/// Runs one of the shell's own commands, where the standard input and output are lent.
fn run<T: Tree, I: Source, O: Sink, E: Sink>(
    alloc: Global,
    name: &[u8],
    inv: &Inv,
    shell: &mut Shell,
    session: &mut Session,
    tree: &mut T,
    input: &mut I,
    out: &mut O,
    err: &mut E,
) -> How
    requires sound { IsSound session.old (T.state tree.old) }
    ensures { (used : Option Log) (words : List (List ℕ)) (is_special : Bool) (means : Means) → does name.now words (command_of inv.now) ≡ builtin is_special means
        → Evaluates (λ expansions. means)
        (point_of shell.old session.old (T.state tree.old) (seen_of (drawn_of (I.left input.old) used) (O.taken out.old) (E.taken err.old))
        (faults_of (I.faults input.old) (O.faults out.old) (E.faults err.old) (T.faults tree.old)))
        result
        (point_of shell.new session.new (T.state tree.new) (seen_of (drawn_of (I.left input.new) used) (O.taken out.new) (E.taken err.new))
        (faults_of (I.faults input.new) (O.faults out.new) (E.faults err.new) (T.faults tree.new))) }
{
    match inv {
        Inv::True(_) => succeed(shell),
        Inv::False(_) => fail(shell),
        Inv::Colon(_) => succeed(shell),
        Inv::Break(inv) => break_loops(inv.args.depth.unwrap_or(1), shell),
        Inv::Continue(inv) => continue_loops(inv.args.depth.unwrap_or(1), shell),
        Inv::Exit(inv) => exit(inv.args.status, shell),
        Inv::Set(inv) => set(&inv.args.arguments, shell),
        Inv::Shift(inv) => shift(
            alloc,
            name,
            inv.args.count.unwrap_or(1),
            shell,
            session,
            tree,
            out,
            err,
        ),
        Inv::Unset(inv) => unset(&inv.args.names, shell),
        Inv::Read(inv) => read_names(alloc, &inv.args.names, shell, session, input),
        Inv::Test(inv) => run_test(
            alloc,
            name,
            &inv.args.arguments,
            shell,
            session,
            tree,
            out,
            err,
        ),
        Inv::Bracket(inv) => run_test(
            alloc,
            name,
            &inv.args.arguments,
            shell,
            session,
            tree,
            out,
            err,
        ),
        Inv::Echo(inv) => run_echo(alloc, &inv.args.operands, shell, session, tree, out, err),
        _ => How::Memory,
    }
}

/// `true` and `:`.
fn succeed(shell: &mut Shell) -> How
    ensures { InShell (λ expansions. succeeds) shell.old result shell.new }
{
    shell.status = 0;
    How::Gone(Flow::On)
}

/// `false`.
fn fail(shell: &mut Shell) -> How
    ensures { InShell (λ expansions. fails) shell.old result shell.new }
{
    shell.status = 1;
    How::Gone(Flow::On)
}

/// `break`.
fn break_loops(count: u64, shell: &mut Shell) -> How
    ensures { InShell (λ expansions. leaves_loops (λ loops. Flow.Break loops) count) shell.old result shell.new }
{
    shell.status = 0;
    if shell.loops == 0 {
        return How::Gone(Flow::On);
    }
    How::Gone(Flow::Break(count.min(shell.loops)))
}

/// `continue`.
fn continue_loops(count: u64, shell: &mut Shell) -> How
    ensures { InShell (λ expansions. leaves_loops (λ loops. Flow.Continue loops) count) shell.old result shell.new }
{
    shell.status = 0;
    if shell.loops == 0 {
        return How::Gone(Flow::On);
    }
    How::Gone(Flow::Continue(count.min(shell.loops)))
}

/// `exit`.
fn exit(status: Option<u8>, shell: &mut Shell) -> How
    ensures { InShell (λ expansions. exits status) shell.old result shell.new }
{
    shell.status = status.unwrap_or(shell.status);
    How::Gone(Flow::Exit)
}

/// `set`.
fn set(arguments: &Texts, shell: &mut Shell) -> How
    ensures { InShell (λ expansions. sets arguments.now) shell.old result shell.new }
{
    let Ok(arguments) = arguments.copy() else {
        return How::Memory;
    };
    shell.arguments = arguments;
    shell.status = 0;
    How::Gone(Flow::On)
}

/// `shift`.
fn shift<T: Tree, O: Sink, E: Sink>(
    alloc: Global,
    name: &[u8],
    count: u64,
    shell: &mut Shell,
    session: &mut Session,
    tree: &mut T,
    out: &mut O,
    err: &mut E,
) -> How
    requires sound { IsSound session.old (T.state tree.old) }
    ensures { (drawn : Drawn) (input : ℕ) → Evaluates (λ expansions. shifts name.now count)
        (point_of shell.old session.old (T.state tree.old) (seen_of drawn (O.taken out.old) (E.taken err.old))
        (faults_of input (O.faults out.old) (E.faults err.old) (T.faults tree.old)))
        result
        (point_of shell.new session.new (T.state tree.new) (seen_of drawn (O.taken out.new) (E.taken err.new))
        (faults_of input (O.faults out.new) (E.faults err.new) (T.faults tree.new))) }
{
    if !has_arguments(count, shell) {
        return misuse(alloc, name, Flow::Exit, shell, session, tree, out, err);
    }
    drop_arguments(alloc, count as usize, shell)
}

/// Whether a shell has so many arguments.
fn has_arguments(count: u64, shell: &Shell) -> bool
    ensures { result ≡ nat_le count (length shell.now.arguments) }
{
    count <= shell.arguments.as_slice().len() as u64
}

/// Goes on without the first so many arguments.
fn drop_arguments(alloc: Global, count: usize, shell: &mut Shell) -> How
    requires { count ≤ length shell.old.arguments }
    ensures { InShell (λ expansions. sets (drop count shell.old.arguments)) shell.old result shell.new }
{
    let Ok(arguments) = Texts::copy_of(alloc, &shell.arguments.as_slice()[count..]) else {
        return How::Memory;
    };
    shell.arguments = arguments;
    shell.status = 0;
    How::Gone(Flow::On)
}

/// `unset`.
fn unset(names: &Texts, shell: &mut Shell) -> How
    ensures { InShell (λ expansions. unsets names.now) shell.old result shell.new }
{
    unset_all(names.as_slice(), &mut shell.variables);
    shell.status = 0;
    How::Gone(Flow::On)
}

/// Unsets variables.
fn unset_all(names: &[Vec<u8>], variables: &mut Env)
    ensures { variables.new ≡ unset_all_def (texts_of names.now) variables.old }
{
    for name in names {
        variables.unset(name.as_slice());
    }
}

/// `test` and `[`.
fn run_test<T: Tree, O: Sink, E: Sink>(
    alloc: Global,
    name: &[u8],
    arguments: &Texts,
    shell: &mut Shell,
    session: &mut Session,
    tree: &mut T,
    out: &mut O,
    err: &mut E,
) -> How
    requires sound { IsSound session.old (T.state tree.old) }
    ensures { (drawn : Drawn) (input : ℕ) → Evaluates (λ expansions. tests name.now arguments.now)
        (point_of shell.old session.old (T.state tree.old) (seen_of drawn (O.taken out.old) (E.taken err.old))
        (faults_of input (O.faults out.old) (E.faults err.old) (T.faults tree.old)))
        result
        (point_of shell.new session.new (T.state tree.new) (seen_of drawn (O.taken out.new) (E.taken err.new))
        (faults_of input (O.faults out.new) (E.faults err.new) (T.faults tree.new))) }
{
    match test(alloc, arguments.as_slice(), tree) {
        Ok(tested) => answer(alloc, name, tested, shell, session, tree, out, err),
        Err(WorldErr::Failed) => How::TreeFault,
        Err(WorldErr::Memory) => How::Memory,
    }
}

/// Leaves the status of an answer of `test`, or tells that its words can't be used.
fn answer<T: Tree, O: Sink, E: Sink>(
    alloc: Global,
    name: &[u8],
    tested: Tested,
    shell: &mut Shell,
    session: &mut Session,
    tree: &mut T,
    out: &mut O,
    err: &mut E,
) -> How
    requires sound { IsSound session.old (T.state tree.old) }
    ensures { (drawn : Drawn) (input : ℕ) → Evaluates (λ expansions. answers name.now tested)
        (point_of shell.old session.old (T.state tree.old) (seen_of drawn (O.taken out.old) (E.taken err.old))
        (faults_of input (O.faults out.old) (E.faults err.old) (T.faults tree.old)))
        result
        (point_of shell.new session.new (T.state tree.new) (seen_of drawn (O.taken out.new) (E.taken err.new))
        (faults_of input (O.faults out.new) (E.faults err.new) (T.faults tree.new))) }
{
    match tested {
        Tested::Yes => succeed(shell),
        Tested::No => fail(shell),
        Tested::BadUsage => misuse(alloc, name, Flow::On, shell, session, tree, out, err),
    }
}

/// `echo`.
fn run_echo<T: Tree, O: Sink, E: Sink>(
    alloc: Global,
    operands: &Texts,
    shell: &mut Shell,
    session: &mut Session,
    tree: &mut T,
    out: &mut O,
    err: &mut E,
) -> How
    requires sound { IsSound session.old (T.state tree.old) }
    ensures { (drawn : Drawn) (input : ℕ) → Evaluates (λ expansions. echoes operands.now)
        (point_of shell.old session.old (T.state tree.old) (seen_of drawn (O.taken out.old) (E.taken err.old))
        (faults_of input (O.faults out.old) (E.faults err.old) (T.faults tree.old)))
        result
        (point_of shell.new session.new (T.state tree.new) (seen_of drawn (O.taken out.new) (E.taken err.new))
        (faults_of input (O.faults out.new) (E.faults err.new) (T.faults tree.new))) }
{
    let Ok(text) = echo(alloc, operands.as_slice()) else {
        return How::Memory;
    };
    let how = put(text.as_slice(), session, tree, out, err);
    leave(how, Flow::On, 0, shell)
}

/// Tells that a command's words can't be used, and goes on so: a special built-in ends the shell (XCU 2.8.1).
pub(crate) fn misuse<T: Tree, O: Sink, E: Sink>(
    alloc: Global,
    name: &[u8],
    flow: Flow,
    shell: &mut Shell,
    session: &mut Session,
    tree: &mut T,
    out: &mut O,
    err: &mut E,
) -> How
    requires sound { IsSound session.old (T.state tree.old) }
    ensures { (drawn : Drawn) (input : ℕ) → Evaluates (λ expansions. misused flow name.now)
        (point_of shell.old session.old (T.state tree.old) (seen_of drawn (O.taken out.old) (E.taken err.old))
        (faults_of input (O.faults out.old) (E.faults err.old) (T.faults tree.old)))
        result
        (point_of shell.new session.new (T.state tree.new) (seen_of drawn (O.taken out.new) (E.taken err.new))
        (faults_of input (O.faults out.new) (E.faults err.new) (T.faults tree.new))) }
{
    let Ok(line) = bad_usage(alloc, name) else {
        return How::Memory;
    };
    let how = tell(line.as_slice(), session, tree, out, err);
    leave(how, flow, 2, shell)
}

/// Leaves a status, and goes on so, where what was written before goes on.
pub(crate) fn leave(how: How, flow: Flow, status: u8, shell: &mut Shell) -> How
    ensures shell { shell.new ≡ status_behind how status shell.old }
    ensures how { result ≡ how_behind how flow }
{
    if !goes_on(&how) {
        return how;
    }
    shell.status = status;
    How::Gone(flow)
}
