//! The utilities, as a shell runs them (XCU 2.9.1, and each utility's page).
ghost use Rattle.std.specs.Prelude.{◌≡◌, ◌≤◌, ◌&&◌, ◌++◌, [], List, ℕ, false, length, true, IfErr, IfOk, IfSome, OnErr, OnOk};
ghost use Rattle.std.specs.List.{list_any};
ghost use Rattle.ps_lines.specs.Texts.{texts_of};
ghost use Rattle.ps_world.specs.Counts.{Counts};
ghost use Rattle.ps_world.specs.Files.{NoWriterOut};
ghost use Rattle.ps_world.specs.Paths.{Components};
ghost use Rattle.ps_world.specs.Places.{is_null_path};
ghost use Rattle.ut_args.specs.Built.{is_built_of};
ghost use Rattle.ut_args.specs.Inputs.{operands_of};
ghost use Rattle.ut_args.specs.Invocations.{command_of};
ghost use Rattle.fl_graph.specs.Paths.{are_distinct as are_distinct_def, is_among as is_among_def};
ghost use Rattle.fl_commands.specs.Inner.Stages.{some_lacks as some_lacks_def};
ghost use Rattle.fl_commands.specs.Inputs.{status_of};
ghost use Rattle.fl_commands.specs.Runs.{Runs, counts_of};
ghost use Rattle.fl_commands.specs.Writers.{AreWrittenApart};
ghost use Rattle.sh_eval.specs.Contract.{Drawn, Evaluates, IsSound, drawn_of, faults_of, point_of, seen_of};
ghost use Rattle.sh_eval.specs.Inner.Inputs.{IsLooked, TakesStream, called_by, how_ended as how_ended_def, is_stream_operand, line_at, line_of, lines_by, lines_of, reads_stream as reads_stream_def, runs_behind, shell_ended};
ghost use Rattle.sh_eval.specs.Inner.Opening.{LooksInVain};
ghost use Rattle.sh_eval.specs.Inner.Runs.{AreMeant, CanRun, CanRunTee, Does, asks_of, ended_with, reads_head, reads_of, takes, tee_asks};
ghost use Rattle.sh_eval.specs.Lines.{diagnostic as diagnostic_def};
ghost use Rattle.sh_eval.specs.Segments.{is_plain_place};
ghost use Rattle.sh_eval.specs.Simple.{most_operands};
ghost use Rattle.sh_eval.specs.States.{on};
ghost use Rattle.sh_eval.specs.Table.{pages};
ghost use Rattle.sh_eval.specs.Utilities.{is_silent as is_silent_def, needs_all as needs_all_def, runs_utility, takes_inputs, tells_some};

use crate::flows::Flow;
use crate::gathered::Gathered;
use crate::lines::{IS_A_DIRECTORY, NO_SUCH_FILE, diagnostic};
use crate::outcomes::{How, Played, goes_on, how_of};
use crate::session::Session;
use crate::shell::Shell;
use crate::streams::{From, To};
use crate::writing::{spread, tell};
use fl_commands::{Commanded, Ended, Member, Operand, lacks, look_at, run_command, run_pipeline};
use fl_engines::Engine;
use fl_segments::First;
use ps_lines::{Memory, Text};
use ps_world::{Gate, Path, Place, Sink, Source, Tree, WorldErr};
use std::alloc::Global;
use ut_args::Inv;

/// What is run over its inputs as one graph.
#[derive(Clone, Copy)]
pub(crate) enum Task<'task, 'operands> {
    /// A utility, with what its operands name.
    Utility(&'task Inv, &'operands [Operand]),
    /// tee, and the status that it leaves.
    Tee(&'task Inv, u8),
    /// The members of a pipeline, each over the output of the one before.
    Pipeline(&'task [Member]),
}

/// Runs a utility: what its operands lack is told, and its output for what can be read is written.
pub(crate) fn run_utility<T: Tree, I: Source + Send, O: Sink + Send, E: Sink, G: Gate, X: Engine>(
    alloc: Global,
    name: &[u8],
    inv: &Inv,
    shell: &mut Shell,
    session: &mut Session,
    tree: &mut T,
    input: I,
    out: O,
    err: &mut E,
    gate: &G,
    engine: &mut X,
) -> Played<I, O>
    requires built { is_built_of inv.now ≡ true }
    requires few { length (operands_of inv.now) ≤ most_operands }
    requires sound { IsSound session.old (T.state tree.old) }
    ensures { Evaluates (λ expansions. runs_utility pages name.now (called_by inv.now))
        (point_of shell.old session.old (T.state tree.old) (seen_of (drawn_of (I.left input) (X.used engine.old)) (O.taken out) (E.taken err.old))
        (faults_of (I.faults input) (O.faults out) (E.faults err.old) (T.faults tree.old)))
        result.how
        (point_of shell.new session.new (T.state tree.new) (seen_of (drawn_of (I.left result.input) (X.used engine.new)) (O.taken result.out) (E.taken err.new))
        (faults_of (I.faults result.input) (O.faults result.out) (E.faults err.new) (T.faults tree.new))) }
{
    match look_operands(alloc, inv, tree) {
        Ok(found) => run_looked(
            alloc, name, inv, found, shell, session, tree, input, out, err, gate, engine,
        ),
        Err(how) => Played { how, input, out },
    }
}

/// Looks up what the operands of an invocation name, as a part of a command.
fn look_operands<T: Tree>(alloc: Global, inv: &Inv, tree: &mut T) -> Result<Vec<Operand>, How>
    ensures looked { IfOk result (λ found. IsLooked (T.state tree.old) (operands_of inv.now) found.items) }
    ensures state { T.state tree.new ≡ T.state tree.old }
    ensures ok { OnOk result (T.faults tree.new ≡ T.faults tree.old) }
    ensures err { IfErr result (λ how. LooksInVain how (T.state tree.old) (T.state tree.new) (T.faults tree.old) (T.faults tree.new)) }
{
    match look_for_operands(alloc, inv, tree) {
        Ok(found) => Ok(found),
        Err(error) => Err(how_of(error)),
    }
}

/// Looks up what the operands of an invocation name. A fault is the tree's.
pub(crate) fn look_for_operands<T: Tree>(
    alloc: Global,
    inv: &Inv,
    tree: &mut T,
) -> Result<Vec<Operand>, WorldErr>
    ensures looked { IfOk result (λ found. IsLooked (T.state tree.old) (operands_of inv.now) found.items) }
    ensures state { T.state tree.new ≡ T.state tree.old }
    ensures cause { Counts (T.faults tree.old) (T.faults tree.new) result }
{
    let found = look_at(alloc, inv.operands(), tree)?;
    Ok(found)
}

/// Runs a utility whose operands name these.
fn run_looked<T: Tree, I: Source + Send, O: Sink + Send, E: Sink, G: Gate, X: Engine>(
    alloc: Global,
    name: &[u8],
    inv: &Inv,
    found: Vec<Operand>,
    shell: &mut Shell,
    session: &mut Session,
    tree: &mut T,
    input: I,
    out: O,
    err: &mut E,
    gate: &G,
    engine: &mut X,
) -> Played<I, O>
    requires built { is_built_of inv.now ≡ true }
    requires few { length (operands_of inv.now) ≤ most_operands }
    requires looked { IsLooked (T.state tree.old) (operands_of inv.now) found.items }
    requires sound { IsSound session.old (T.state tree.old) }
    ensures { Evaluates (λ expansions. runs_utility pages name.now (called_by inv.now))
        (point_of shell.old session.old (T.state tree.old) (seen_of (drawn_of (I.left input) (X.used engine.old)) (O.taken out) (E.taken err.old))
        (faults_of (I.faults input) (O.faults out) (E.faults err.old) (T.faults tree.old)))
        result.how
        (point_of shell.new session.new (T.state tree.new) (seen_of (drawn_of (I.left result.input) (X.used engine.new)) (O.taken result.out) (E.taken err.new))
        (faults_of (I.faults result.input) (O.faults result.out) (E.faults err.new) (T.faults tree.new))) }
{
    let Ok(lines) = lines_told(alloc, name, inv, found.as_slice()) else {
        return Played {
            how: How::Memory,
            input,
            out,
        };
    };
    let skips = skips(inv, found.as_slice());
    let mut out = out;
    let how = tell_some(lines.as_slice(), session, tree, &mut out, err);
    if !goes_on(&how) {
        return Played { how, input, out };
    }
    run_told(
        alloc,
        inv,
        skips,
        lines.as_slice(),
        found,
        shell,
        session,
        tree,
        input,
        out,
        err,
        gate,
        engine,
    )
}

/// Whether a utility does nothing, since one of these operands has no input.
pub(crate) fn skips(inv: &Inv, operands: &[Operand]) -> bool
    ensures { result ≡ (needs_all_def (command_of inv.now) && some_lacks_def operands.now) }
{
    needs_all(inv) && some_lacks(operands)
}

/// Runs a utility behind the lines of what its operands lack. Some do nothing where one lacks an input.
fn run_told<T: Tree, I: Source + Send, O: Sink + Send, E: Sink, G: Gate, X: Engine>(
    alloc: Global,
    inv: &Inv,
    skips: bool,
    lines: &[u8],
    found: Vec<Operand>,
    shell: &mut Shell,
    session: &mut Session,
    tree: &mut T,
    input: I,
    out: O,
    err: &mut E,
    gate: &G,
    engine: &mut X,
) -> Played<I, O>
    requires built { is_built_of inv.now ≡ true }
    requires few { length (operands_of inv.now) ≤ most_operands }
    requires looked { lines.now ≡ [] → IsLooked (T.state tree.old) (operands_of inv.now) found.items }
    requires needed { skips ≡ false → (needs_all_def (command_of inv.now) && some_lacks_def found.items) ≡ false }
    requires untold { skips ≡ false → needs_all_def (command_of inv.now) ≡ true → lines.now ≡ [] }
    requires sound { IsSound session.old (T.state tree.old) }
    ensures { (name : List ℕ) → Evaluates (λ expansions. runs_behind skips name inv.now)
        (point_of shell.old session.old (T.state tree.old) (seen_of (drawn_of (I.left input) (X.used engine.old)) (O.taken out) (E.taken err.old))
        (faults_of (I.faults input) (O.faults out) (E.faults err.old) (T.faults tree.old)))
        result.how
        (point_of shell.new session.new (T.state tree.new) (seen_of (drawn_of (I.left result.input) (X.used engine.new)) (O.taken result.out) (E.taken err.new))
        (faults_of (I.faults result.input) (O.faults result.out) (E.faults err.new) (T.faults tree.new))) }
{
    if skips {
        shell.status = lacking_status(inv);
        return Played {
            how: How::Gone(Flow::On),
            input,
            out,
        };
    }
    match look_again(alloc, inv, lines, found, tree) {
        Ok(found) => take_inputs(
            alloc,
            inv,
            found.as_slice(),
            shell,
            session,
            tree,
            input,
            out,
            err,
            gate,
            engine,
        ),
        Err(how) => Played { how, input, out },
    }
}

/// Looks up what the operands name once more, where a line was told since: it may have gone to a file.
fn look_again<T: Tree>(
    alloc: Global,
    inv: &Inv,
    lines: &[u8],
    found: Vec<Operand>,
    tree: &mut T,
) -> Result<Vec<Operand>, How>
    requires looked { lines.now ≡ [] → IsLooked (T.state tree.old) (operands_of inv.now) found.items }
    ensures looked { IfOk result (λ found. IsLooked (T.state tree.old) (operands_of inv.now) found.items) }
    ensures same { IfOk result (λ again. lines.now ≡ [] → again.items ≡ found.items) }
    ensures state { T.state tree.new ≡ T.state tree.old }
    ensures ok { OnOk result (T.faults tree.new ≡ T.faults tree.old) }
    ensures err { IfErr result (λ how. LooksInVain how (T.state tree.old) (T.state tree.new) (T.faults tree.old) (T.faults tree.new)) }
{
    let [] = lines else {
        return look_operands(alloc, inv, tree);
    };
    Ok(found)
}

/// Runs a utility over its inputs, and writes its output where descriptor 1 leads.
fn take_inputs<T: Tree, I: Source + Send, O: Sink + Send, E: Sink, G: Gate, X: Engine>(
    alloc: Global,
    inv: &Inv,
    operands: &[Operand],
    shell: &mut Shell,
    session: &mut Session,
    tree: &mut T,
    input: I,
    out: O,
    err: &mut E,
    gate: &G,
    engine: &mut X,
) -> Played<I, O>
    requires built { is_built_of inv.now ≡ true }
    requires few { length (operands_of inv.now) ≤ most_operands }
    requires looked { IsLooked (T.state tree.old) (operands_of inv.now) operands.now }
    requires needed { (needs_all_def (command_of inv.now) && some_lacks_def operands.now) ≡ false }
    requires sound { IsSound session.old (T.state tree.old) }
    ensures { (name : List ℕ) → Evaluates (λ expansions. takes_inputs pages name (called_by inv.now))
        (point_of shell.old session.old (T.state tree.old) (seen_of (drawn_of (I.left input) (X.used engine.old)) (O.taken out) (E.taken err.old))
        (faults_of (I.faults input) (O.faults out) (E.faults err.old) (T.faults tree.old)))
        result.how
        (point_of shell.new session.new (T.state tree.new) (seen_of (drawn_of (I.left result.input) (X.used engine.new)) (O.taken result.out) (E.taken err.new))
        (faults_of (I.faults result.input) (O.faults result.out) (E.faults err.new) (T.faults tree.new))) }
{
    run_task(
        alloc,
        Task::Utility(inv, operands),
        &[],
        shell,
        session,
        tree,
        input,
        out,
        err,
        gate,
        engine,
    )
}

/// Runs a task, and writes its output where descriptor 1 leads, and to these files.
///
/// Where that is the output of the run, and the files are apart, all is written as it comes; else the output is gathered, and written
/// once the task has run.
pub(crate) fn run_task<T: Tree, I: Source + Send, O: Sink + Send, E: Sink, G: Gate, X: Engine>(
    alloc: Global,
    task: Task<'_, '_>,
    files: &[Path],
    shell: &mut Shell,
    session: &mut Session,
    tree: &mut T,
    input: I,
    out: O,
    err: &mut E,
    gate: &G,
    engine: &mut X,
) -> Played<I, O>
    requires ready { CanRun task files.now (T.state tree.old) }
    requires sound { IsSound session.old (T.state tree.old) }
    ensures { (does : Does) → ((own : List Components) → AreMeant (asks_of task.entry own) (reads_of task.entry) does (T.state tree.old)) → Evaluates (λ expansions. takes files.now does)
        (point_of shell.old session.old (T.state tree.old) (seen_of (drawn_of (I.left input) (X.used engine.old)) (O.taken out) (E.taken err.old))
        (faults_of (I.faults input) (O.faults out) (E.faults err.old) (T.faults tree.old)))
        result.how
        (point_of shell.new session.new (T.state tree.new) (seen_of (drawn_of (I.left result.input) (X.used engine.new)) (O.taken result.out) (E.taken err.new))
        (faults_of (I.faults result.input) (O.faults result.out) (E.faults err.new) (T.faults tree.new))) }
{
    let Ok(first) = take_stream(alloc, reads_input(task), session) else {
        return Played {
            how: How::Memory,
            input,
            out,
        };
    };
    if can_stream(&session.streams.to, files) {
        let Commanded { ended, input, out } = run_asked(
            alloc, task, files, &first, tree, input, out, gate, engine,
        );
        let how = end(ended, shell);
        return Played { how, input, out };
    }
    let Commanded {
        ended,
        input,
        out: text,
    } = run_asked(
        alloc,
        task,
        &[],
        &first,
        tree,
        input,
        Gathered::new(alloc),
        gate,
        engine,
    );
    let text = text.into_bytes();
    let how = end(ended, shell);
    if !goes_on(&how) {
        return Played { how, input, out };
    }
    let mut out = out;
    let how = spread(files, text.as_slice(), session, tree, &mut out, err);
    Played { how, input, out }
}

/// Whether a graph can write all as it comes: the output of the run, and files that are apart.
fn can_stream(place: &To, files: &[Path]) -> bool
    ensures output { result ≡ true → place.now ≡ To.Output }
    ensures apart { result ≡ true → AreWrittenApart [] files.now }
{
    matches!(place, To::Output) && are_apart(files)
}

/// Whether files are apart: none stands there twice, and none is the null device.
fn are_apart(files: &[Path]) -> bool
    ensures { result ≡ true → AreWrittenApart [] files.now }
{
    are_distinct(files) && !has_null(files)
}

/// Whether the null device stands among these.
fn has_null(files: &[Path]) -> bool
    ensures { result ≡ list_any is_null_path files.now }
{
    files.iter().any(|file| file.is_null_device())
}

/// Whether no file stands there twice.
fn are_distinct(files: &[Path]) -> bool
    ensures { result ≡ are_distinct_def files.now }
{
    let mut left = files;
    while let [first, rest @ ..] = left {
        if is_among(rest, first) {
            return false;
        }
        left = rest;
    }
    true
}

/// Whether a file stands among these.
fn is_among(files: &[Path], file: &Path) -> bool
    ensures { result ≡ is_among_def files.now file.now }
{
    files.iter().any(|other| other == file)
}

/// Runs a task over its inputs, as a graph on the engine, and writes its output, and these files where it's tee.
fn run_asked<T: Tree, I: Source + Send, O: Sink + Send, G: Gate, X: Engine>(
    alloc: Global,
    task: Task<'_, '_>,
    files: &[Path],
    from: &First,
    tree: &mut T,
    input: I,
    out: O,
    gate: &G,
    engine: &mut X,
) -> Commanded<I, O>
    requires ready { CanRun task files.now (T.state tree.old) }
    requires apart { AreWrittenApart [] files.now }
    requires whole { IfSome (T.state tree.old).held NoWriterOut }
    ensures { Runs (asks_of task.entry files.now from.now) (T.state tree.old) (T.state tree.new) (I.left input) (I.left result.input) (O.taken out) (O.taken result.out)
        (counts_of (I.faults input) (O.faults out) (T.faults tree.old)) (counts_of (I.faults result.input) (O.faults result.out) (T.faults tree.new))
        (X.used engine.old) (X.used engine.new) result.ended }
{
    match task {
        Task::Utility(inv, operands) => {
            run_command(
                alloc,
                inv,
                operands,
                &[],
                from,
                tree,
                input,
                out,
                gate,
                engine,
            )
        }
        Task::Tee(inv, status) => run_copy(
            alloc, inv, status, files, from, tree, input, out, gate, engine,
        ),
        Task::Pipeline(members) => run_pipeline(
            alloc, members, from, tree, input, out, gate, engine,
        ),
    }
}

/// Runs tee as a graph on the engine, over what stands in the place of its input, with these files, and leaves this status.
fn run_copy<T: Tree, I: Source + Send, O: Sink + Send, G: Gate, X: Engine>(
    alloc: Global,
    inv: &Inv,
    status: u8,
    files: &[Path],
    from: &First,
    tree: &mut T,
    input: I,
    out: O,
    gate: &G,
    engine: &mut X,
) -> Commanded<I, O>
    requires ready { CanRunTee inv.now files.now (T.state tree.old) }
    requires apart { AreWrittenApart [] files.now }
    requires whole { IfSome (T.state tree.old).held NoWriterOut }
    ensures { Runs (tee_asks inv.now status files.now from.now) (T.state tree.old) (T.state tree.new) (I.left input) (I.left result.input) (O.taken out) (O.taken result.out)
        (counts_of (I.faults input) (O.faults out) (T.faults tree.old)) (counts_of (I.faults result.input) (O.faults result.out) (T.faults tree.new))
        (X.used engine.old) (X.used engine.new) result.ended }
{
    let Commanded { ended, input, out } = run_command(
        alloc,
        inv,
        &[],
        files,
        from,
        tree,
        input,
        out,
        gate,
        engine,
    );
    Commanded {
        ended: end_with(ended, status),
        input,
        out,
    }
}

/// How a run came out, with this status where it has come to its end.
fn end_with(ended: Ended, status: u8) -> Ended
    ensures { result ≡ ended_with status ended }
{
    match ended {
        Ended::Done(_) => Ended::Done(status),
        Ended::Input => Ended::Input,
        Ended::Output => Ended::Output,
        Ended::Tree => Ended::Tree,
        Ended::Memory => Ended::Memory,
    }
}

/// Whether a task reads the standard input.
fn reads_input(task: Task<'_, '_>) -> bool
    ensures { result ≡ reads_of task.entry }
{
    match task {
        Task::Utility(_, operands) => reads_stream(operands),
        Task::Tee(_, _) => true,
        Task::Pipeline(members) => head_reads(members),
    }
}

/// Whether the first member of a pipeline reads the standard input.
fn head_reads(members: &[Member]) -> bool
    ensures { result ≡ reads_head members.now }
{
    match members {
        [] => false,
        [first, ..] => reads_stream(first.operands.as_slice()),
    }
}

/// Leaves the status of a utility that has run, and gives how its command goes on.
fn end(ended: Ended, shell: &mut Shell) -> How
    ensures how { result ≡ how_ended_def ended }
    ensures shell { shell.new ≡ shell_ended ended shell.old }
{
    match ended {
        Ended::Done(status) => {
            shell.status = status;
            How::Gone(Flow::On)
        }
        Ended::Input => How::ReadFault,
        Ended::Output => How::WriteFault,
        Ended::Tree => How::TreeFault,
        Ended::Memory => How::Memory,
    }
}

/// What the stream of a utility begins with: what descriptor 0 gives, which is taken to its end where it is read.
fn take_stream(alloc: Global, reads: bool, session: &mut Session) -> Result<First, Memory>
    ensures ok { IfOk result (λ first. TakesStream reads session.old session.new first) }
    ensures err { OnErr result (session.new ≡ session.old) }
{
    if !reads {
        return Ok(First::Input);
    }
    match &mut session.streams.from {
        From::Standard => Ok(First::Input),
        From::Kept(rest) => Ok(First::Text(Text::from_vec(rest.take(alloc)?))),
    }
}

/// Whether the standard input is read: an operand names it, or there is none.
fn reads_stream(operands: &[Operand]) -> bool
    ensures { result ≡ reads_stream_def operands.now }
{
    match operands {
        [] => true,
        [_, ..] => names_stream(operands),
    }
}

/// Whether some operand is the standard input.
fn names_stream(operands: &[Operand]) -> bool
    ensures { result ≡ list_any is_stream_operand operands.now }
{
    operands.iter().any(is_stream)
}

/// Whether an operand is the standard input.
fn is_stream(operand: &Operand) -> bool
    ensures { result ≡ is_stream_operand operand.now }
{
    matches!(operand, Operand::Standard)
}

/// Whether some operand has no input.
fn some_lacks(operands: &[Operand]) -> bool
    ensures { result ≡ some_lacks_def operands.now }
{
    operands.iter().any(|operand| lacks(operand))
}

/// Whether nothing at all is done where an operand has no input (own).
fn needs_all(inv: &Inv) -> bool
    ensures { result ≡ needs_all_def (command_of inv.now) }
{
    matches!(
        inv,
        Inv::Sort(_) | Inv::Paste(_) | Inv::Tail(_) | Inv::Uniq(_)
    )
}

/// The status where an operand has no input, and nothing was done.
fn lacking_status(inv: &Inv) -> u8
    ensures { result ≡ status_of (command_of inv.now) true false }
{
    match inv {
        Inv::Grep(_) | Inv::Sort(_) => 2,
        _ => 1,
    }
}

/// Whether nothing is told of an operand that has no input (XCU grep).
fn is_silent(inv: &Inv) -> bool
    ensures { result ≡ is_silent_def (command_of inv.now) }
{
    match inv {
        Inv::Grep(grep) => grep.args.silent,
        _ => false,
    }
}

/// Tells lines, if there is one.
pub(crate) fn tell_some<T: Tree, O: Sink, E: Sink>(
    lines: &[u8],
    session: &mut Session,
    tree: &mut T,
    out: &mut O,
    err: &mut E,
) -> How
    requires sound { IsSound session.old (T.state tree.old) }
    ensures untouched { lines.now ≡ [] → T.state tree.new ≡ T.state tree.old }
    ensures aside { is_plain_place session.old.streams.errors_to ≡ true → T.state tree.new ≡ T.state tree.old }
    ensures evaluates { (shell : Shell) (drawn : Drawn) (input : ℕ) → Evaluates (λ expansions state. on (tells_some lines.now state))
        (point_of shell session.old (T.state tree.old) (seen_of drawn (O.taken out.old) (E.taken err.old))
        (faults_of input (O.faults out.old) (E.faults err.old) (T.faults tree.old)))
        result
        (point_of shell session.new (T.state tree.new) (seen_of drawn (O.taken out.new) (E.taken err.new))
        (faults_of input (O.faults out.new) (E.faults err.new) (T.faults tree.new))) }
{
    let [] = lines else {
        return tell(lines, session, tree, out, err);
    };
    How::Gone(Flow::On)
}

/// The lines of the operands of an invocation that have no input, where it tells them.
pub(crate) fn lines_told(
    alloc: Global,
    name: &[u8],
    inv: &Inv,
    operands: &[Operand],
) -> Result<Vec<u8>, Memory>
    ensures { IfOk result (λ lines. lines.items ≡ lines_by name.now inv.now operands.now) }
{
    if is_silent(inv) {
        return Ok(Vec::new(alloc));
    }
    complaints(alloc, name, inv.operands(), operands)
}

/// The lines of why operands have no input, in their order.
fn complaints(
    alloc: Global,
    name: &[u8],
    texts: &[Vec<u8>],
    operands: &[Operand],
) -> Result<Vec<u8>, Memory>
    ensures { IfOk result (λ lines. lines.items ≡ lines_of name.now (texts_of texts.now) operands.now) }
{
    let mut lines = Vec::new(alloc);
    let mut left = operands;
    for text in texts {
        let [operand, rest @ ..] = left else {
            return Ok(lines);
        };
        add_line(alloc, name, text.as_slice(), operand, &mut lines)?;
        left = rest;
    }
    Ok(lines)
}

/// Puts the line of why an operand has no input behind others, if it has none.
fn add_line(
    alloc: Global,
    name: &[u8],
    text: &[u8],
    operand: &Operand,
    lines: &mut Vec<u8>,
) -> Result<(), Memory>
    ensures { OnOk result (lines.new.items ≡ lines.old.items ++ line_of name.now text.now operand.now) }
{
    match operand {
        Operand::Standard => Ok(()),
        Operand::At(place) => add_line_at(alloc, name, text, place, lines),
    }
}

/// Puts the line of why nothing can be read at a place behind others, if nothing can.
fn add_line_at(
    alloc: Global,
    name: &[u8],
    text: &[u8],
    place: &Place,
    lines: &mut Vec<u8>,
) -> Result<(), Memory>
    ensures { OnOk result (lines.new.items ≡ lines.old.items ++ line_at name.now text.now place.now) }
{
    match place {
        Place::Missing => add_reason(alloc, name, text, NO_SUCH_FILE, lines),
        Place::Makeable(_) => add_reason(alloc, name, text, NO_SUCH_FILE, lines),
        Place::Dir(_) => add_reason(alloc, name, text, IS_A_DIRECTORY, lines),
        Place::File(_) => Ok(()),
        Place::Null => Ok(()),
    }
}

/// Puts the line of this reason behind others.
pub(crate) fn add_reason(
    alloc: Global,
    name: &[u8],
    text: &[u8],
    reason: &[u8],
    lines: &mut Vec<u8>,
) -> Result<(), Memory>
    ensures { OnOk result (lines.new.items ≡ lines.old.items ++ diagnostic_def name.now text.now reason.now) }
{
    let line = diagnostic(alloc, name, text, reason)?;
    lines.extend_from_slice(line.as_slice())?;
    Ok(())
}
