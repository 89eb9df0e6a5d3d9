//! The evaluation of lists, pipelines and compound commands.
ghost use Rattle.std.specs.Prelude.{◌≡◌, ◌<◌, ◌≤◌, ◌+◌, drop, false, length, true};
ghost use Rattle.ps_lines.specs.Texts.{texts_of};
ghost use Rattle.sh_tree.specs.Views.{list_tree, items_tree, and_or_tree, joined_tree, pipeline_tree, stages_tree, command_tree};
ghost use Rattle.sh_tree.specs.Views.{simple_tree, subs_tree};
ghost use Rattle.sh_tree.specs.declared.commands.Command.TheViews.{out-Tail};
ghost use Rattle.sh_eval.specs.Commands.{all_turns, in_loop, joined_by, noted, subshell, staged, some_command, substitution};
ghost use Rattle.sh_eval.specs.Inner.Bodies.{body_means, round_means, rounds_mean, subs_begun, turn_means};
ghost use Rattle.sh_eval.specs.Inner.Staging.{rest_means};
ghost use Rattle.sh_eval.specs.Contract.{Evaluates, IsSound, Point, drawn_of, faults_of, goes_on as goes_on_def, point_of, seen_of};
ghost use Rattle.sh_eval.specs.declared.outcomes.How.{How};
ghost use Rattle.sh_eval.specs.Meaning.{has_item, list_means, and_or_means, joined_means, pipeline_means, stages_means, command_means, simple_means, subs_mean};
ghost use Rattle.sh_eval.specs.Table.{pages};

use crate::expanding::expand_words;
use crate::flows::Flow;
use crate::gathering::gather;
use crate::opening::{close, open_tail};
use crate::outcomes::{
    Front, How, Played, Position, goes_on, goes_round, has_command, how_of, joins, leave_condition,
    left_by, negate, note_body, position_of, settled,
};
use crate::refusals::Refusal;
use crate::segments::run_part;
use crate::session::Session;
use crate::shell::Shell;
use crate::simple::run_simple;
use crate::staging::{enter_stage, leave_stage};
use fl_engines::Engine;
use ps_world::{Gate, Sink, Source, Tree};
use sh_tree::{AndOr, Command, Join, List, Pipeline, Simple, Tail};

/// The most turns of a run.
const MAX_TURNS: u64 = 1_000_000;

/// Evaluates a list.
#[cycle(evaluation)]
pub(crate) fn eval_list<T: Tree, I: Source + Send, O: Sink + Send, E: Sink, G: Gate, X: Engine>(
    list: &List,
    shell: &mut Shell,
    session: &mut Session,
    tree: &mut T,
    input: I,
    out: O,
    err: &mut E,
    gate: &G,
    engine: &mut X,
) -> Played<I, O>
    requires sound { IsSound session.old (T.state tree.old) }
    ensures { Evaluates (λ expansions. list_means expansions pages (list_tree list.now))
        (point_of shell.old session.old (T.state tree.old) (seen_of (drawn_of (I.left input) (X.used engine.old)) (O.taken out) (E.taken err.old))
        (faults_of (I.faults input) (O.faults out) (E.faults err.old) (T.faults tree.old)))
        result.how
        (point_of shell.new session.new (T.state tree.new) (seen_of (drawn_of (I.left result.input) (X.used engine.new)) (O.taken result.out) (E.taken err.new))
        (faults_of (I.faults result.input) (O.faults result.out) (E.faults err.new) (T.faults tree.new))) }
{
    eval_items(
        list.items.as_slice(),
        shell,
        session,
        tree,
        input,
        out,
        err,
        gate,
        engine,
    )
}

/// Evaluates and-or lists, one behind the other.
#[cycle(evaluation)]
fn eval_items<T: Tree, I: Source + Send, O: Sink + Send, E: Sink, G: Gate, X: Engine>(
    items: &[AndOr],
    shell: &mut Shell,
    session: &mut Session,
    tree: &mut T,
    input: I,
    out: O,
    err: &mut E,
    gate: &G,
    engine: &mut X,
) -> Played<I, O>
    requires sound { IsSound session.old (T.state tree.old) }
    ensures { Evaluates (λ expansions. list_means expansions pages (items_tree items.now))
        (point_of shell.old session.old (T.state tree.old) (seen_of (drawn_of (I.left input) (X.used engine.old)) (O.taken out) (E.taken err.old))
        (faults_of (I.faults input) (O.faults out) (E.faults err.old) (T.faults tree.old)))
        result.how
        (point_of shell.new session.new (T.state tree.new) (seen_of (drawn_of (I.left result.input) (X.used engine.new)) (O.taken result.out) (E.taken err.new))
        (faults_of (I.faults result.input) (O.faults result.out) (E.faults err.new) (T.faults tree.new))) }
{
    let mut input = input;
    let mut out = out;
    for item in items {
        let Played {
            how,
            input: left,
            out: sent,
        } = eval_and_or(item, shell, session, tree, input, out, err, gate, engine);
        input = left;
        out = sent;
        if !goes_on(&how) {
            return Played { how, input, out };
        }
    }
    Played {
        how: How::Gone(Flow::On),
        input,
        out,
    }
}

/// Evaluates an and-or list.
#[cycle(evaluation)]
fn eval_and_or<T: Tree, I: Source + Send, O: Sink + Send, E: Sink, G: Gate, X: Engine>(
    item: &AndOr,
    shell: &mut Shell,
    session: &mut Session,
    tree: &mut T,
    input: I,
    out: O,
    err: &mut E,
    gate: &G,
    engine: &mut X,
) -> Played<I, O>
    requires sound { IsSound session.old (T.state tree.old) }
    ensures { Evaluates (λ expansions. and_or_means expansions pages (and_or_tree item.now))
        (point_of shell.old session.old (T.state tree.old) (seen_of (drawn_of (I.left input) (X.used engine.old)) (O.taken out) (E.taken err.old))
        (faults_of (I.faults input) (O.faults out) (E.faults err.old) (T.faults tree.old)))
        result.how
        (point_of shell.new session.new (T.state tree.new) (seen_of (drawn_of (I.left result.input) (X.used engine.new)) (O.taken result.out) (E.taken err.new))
        (faults_of (I.faults result.input) (O.faults result.out) (E.faults err.new) (T.faults tree.new))) }
{
    let Played { how, input, out } = eval_pipeline(
        &item.first,
        shell,
        session,
        tree,
        input,
        out,
        err,
        gate,
        engine,
    );
    if !goes_on(&how) {
        return Played { how, input, out };
    }
    eval_joined(
        item.rest.as_slice(),
        shell,
        session,
        tree,
        input,
        out,
        err,
        gate,
        engine,
    )
}

/// Evaluates the pipelines behind the first of an and-or list.
#[cycle(evaluation)]
fn eval_joined<T: Tree, I: Source + Send, O: Sink + Send, E: Sink, G: Gate, X: Engine>(
    rest: &[(Join, Pipeline)],
    shell: &mut Shell,
    session: &mut Session,
    tree: &mut T,
    input: I,
    out: O,
    err: &mut E,
    gate: &G,
    engine: &mut X,
) -> Played<I, O>
    requires sound { IsSound session.old (T.state tree.old) }
    ensures { Evaluates (λ expansions. joined_means expansions pages (joined_tree rest.now))
        (point_of shell.old session.old (T.state tree.old) (seen_of (drawn_of (I.left input) (X.used engine.old)) (O.taken out) (E.taken err.old))
        (faults_of (I.faults input) (O.faults out) (E.faults err.old) (T.faults tree.old)))
        result.how
        (point_of shell.new session.new (T.state tree.new) (seen_of (drawn_of (I.left result.input) (X.used engine.new)) (O.taken result.out) (E.taken err.new))
        (faults_of (I.faults result.input) (O.faults result.out) (E.faults err.new) (T.faults tree.new))) }
{
    let mut input = input;
    let mut out = out;
    for (join, next) in rest {
        let Played {
            how,
            input: left,
            out: sent,
        } = eval_next(
            *join, next, shell, session, tree, input, out, err, gate, engine,
        );
        input = left;
        out = sent;
        if !goes_on(&how) {
            return Played { how, input, out };
        }
    }
    Played {
        how: How::Gone(Flow::On),
        input,
        out,
    }
}

/// Evaluates a pipeline where the operator before it has it run.
#[cycle(evaluation)]
fn eval_next<T: Tree, I: Source + Send, O: Sink + Send, E: Sink, G: Gate, X: Engine>(
    join: Join,
    next: &Pipeline,
    shell: &mut Shell,
    session: &mut Session,
    tree: &mut T,
    input: I,
    out: O,
    err: &mut E,
    gate: &G,
    engine: &mut X,
) -> Played<I, O>
    requires sound { IsSound session.old (T.state tree.old) }
    ensures { Evaluates (λ expansions. joined_by join (pipeline_means expansions pages (pipeline_tree next.now)))
        (point_of shell.old session.old (T.state tree.old) (seen_of (drawn_of (I.left input) (X.used engine.old)) (O.taken out) (E.taken err.old))
        (faults_of (I.faults input) (O.faults out) (E.faults err.old) (T.faults tree.old)))
        result.how
        (point_of shell.new session.new (T.state tree.new) (seen_of (drawn_of (I.left result.input) (X.used engine.new)) (O.taken result.out) (E.taken err.new))
        (faults_of (I.faults result.input) (O.faults result.out) (E.faults err.new) (T.faults tree.new))) }
{
    if joins(join, shell) {
        return eval_pipeline(next, shell, session, tree, input, out, err, gate, engine);
    }
    Played {
        how: How::Gone(Flow::On),
        input,
        out,
    }
}

/// Evaluates a pipeline.
#[cycle(evaluation)]
fn eval_pipeline<T: Tree, I: Source + Send, O: Sink + Send, E: Sink, G: Gate, X: Engine>(
    pipeline: &Pipeline,
    shell: &mut Shell,
    session: &mut Session,
    tree: &mut T,
    input: I,
    out: O,
    err: &mut E,
    gate: &G,
    engine: &mut X,
) -> Played<I, O>
    requires sound { IsSound session.old (T.state tree.old) }
    ensures { Evaluates (λ expansions. pipeline_means expansions pages (pipeline_tree pipeline.now))
        (point_of shell.old session.old (T.state tree.old) (seen_of (drawn_of (I.left input) (X.used engine.old)) (O.taken out) (E.taken err.old))
        (faults_of (I.faults input) (O.faults out) (E.faults err.old) (T.faults tree.old)))
        result.how
        (point_of shell.new session.new (T.state tree.new) (seen_of (drawn_of (I.left result.input) (X.used engine.new)) (O.taken result.out) (E.taken err.new))
        (faults_of (I.faults result.input) (O.faults result.out) (E.faults err.new) (T.faults tree.new))) }
{
    let Played { how, input, out } = eval_stages(
        pipeline.stages.as_slice(),
        shell,
        session,
        tree,
        input,
        out,
        err,
        gate,
        engine,
    );
    if !goes_on(&how) {
        return Played { how, input, out };
    }
    negate(pipeline.negated, shell);
    Played {
        how: How::Gone(Flow::On),
        input,
        out,
    }
}

/// Evaluates the commands of a pipeline: one alone in this shell, several each in a subshell.
#[cycle(evaluation)]
fn eval_stages<T: Tree, I: Source + Send, O: Sink + Send, E: Sink, G: Gate, X: Engine>(
    stages: &[Command],
    shell: &mut Shell,
    session: &mut Session,
    tree: &mut T,
    input: I,
    out: O,
    err: &mut E,
    gate: &G,
    engine: &mut X,
) -> Played<I, O>
    requires sound { IsSound session.old (T.state tree.old) }
    ensures { Evaluates (λ expansions. stages_means expansions pages (stages_tree stages.now))
        (point_of shell.old session.old (T.state tree.old) (seen_of (drawn_of (I.left input) (X.used engine.old)) (O.taken out) (E.taken err.old))
        (faults_of (I.faults input) (O.faults out) (E.faults err.old) (T.faults tree.old)))
        result.how
        (point_of shell.new session.new (T.state tree.new) (seen_of (drawn_of (I.left result.input) (X.used engine.new)) (O.taken result.out) (E.taken err.new))
        (faults_of (I.faults result.input) (O.faults result.out) (E.faults err.new) (T.faults tree.new))) }
{
    match stages {
        [only] => eval_command(only, shell, session, tree, input, out, err, gate, engine),
        _ => eval_several(stages, shell, session, tree, input, out, err, gate, engine),
    }
}

/// Evaluates the several commands of a pipeline, one after the other, but for utilities that can be gathered: these run as one graph.
#[cycle(evaluation)]
fn eval_several<T: Tree, I: Source + Send, O: Sink + Send, E: Sink, G: Gate, X: Engine>(
    stages: &[Command],
    shell: &mut Shell,
    session: &mut Session,
    tree: &mut T,
    input: I,
    out: O,
    err: &mut E,
    gate: &G,
    engine: &mut X,
) -> Played<I, O>
    requires several { length stages.now ≡ 1 → ⊥ }
    requires sound { IsSound session.old (T.state tree.old) }
    ensures { Evaluates (λ expansions. stages_means expansions pages (stages_tree stages.now))
        (point_of shell.old session.old (T.state tree.old) (seen_of (drawn_of (I.left input) (X.used engine.old)) (O.taken out) (E.taken err.old))
        (faults_of (I.faults input) (O.faults out) (E.faults err.old) (T.faults tree.old)))
        result.how
        (point_of shell.new session.new (T.state tree.new) (seen_of (drawn_of (I.left result.input) (X.used engine.new)) (O.taken result.out) (E.taken err.new))
        (faults_of (I.faults result.input) (O.faults result.out) (E.faults err.new) (T.faults tree.new))) }
{
    let mut input = input;
    let mut out = out;
    let mut place = 0;
    while place < stages.len() {
        let Front { played, taken } = eval_front(
            place, stages, shell, session, tree, input, out, err, gate, engine,
        );
        let Played {
            how,
            input: left,
            out: sent,
        } = played;
        place += taken;
        input = left;
        out = sent;
        if !goes_on(&how) {
            return Played { how, input, out };
        }
    }
    Played {
        how: How::Gone(Flow::On),
        input,
        out,
    }
}

/// Evaluates the several commands of a pipeline from a place on: as many as can be gathered as one graph, or else the first alone. Gives also
/// how many these were.
#[cycle(evaluation)]
fn eval_front<T: Tree, I: Source + Send, O: Sink + Send, E: Sink, G: Gate, X: Engine>(
    place: usize,
    stages: &[Command],
    shell: &mut Shell,
    session: &mut Session,
    tree: &mut T,
    input: I,
    out: O,
    err: &mut E,
    gate: &G,
    engine: &mut X,
) -> Front<I, O>
    requires below { place < length stages.now }
    requires several { length stages.now ≡ 1 → ⊥ }
    requires sound { IsSound session.old (T.state tree.old) }
    ensures taken { (1 ≤ result.taken) × (place + result.taken ≤ length stages.now) }
    ensures sound { goes_on_def result.played.how ≡ true → IsSound session.new (T.state tree.new) }
    ensures stopped { goes_on_def result.played.how ≡ false → Evaluates (λ expansions. rest_means expansions place (drop place stages.now))
        (point_of shell.old session.old (T.state tree.old) (seen_of (drawn_of (I.left input) (X.used engine.old)) (O.taken out) (E.taken err.old))
        (faults_of (I.faults input) (O.faults out) (E.faults err.old) (T.faults tree.old)))
        result.played.how
        (point_of shell.new session.new (T.state tree.new) (seen_of (drawn_of (I.left result.played.input) (X.used engine.new)) (O.taken result.played.out) (E.taken err.new))
        (faults_of (I.faults result.played.input) (O.faults result.played.out) (E.faults err.new) (T.faults tree.new))) }
    ensures followed { goes_on_def result.played.how ≡ true → (came : How) (last : Point)
        → Evaluates (λ expansions. rest_means expansions (place + result.taken) (drop (place + result.taken) stages.now))
        (point_of shell.new session.new (T.state tree.new) (seen_of (drawn_of (I.left result.played.input) (X.used engine.new)) (O.taken result.played.out) (E.taken err.new))
        (faults_of (I.faults result.played.input) (O.faults result.played.out) (E.faults err.new) (T.faults tree.new)))
        came last
        → Evaluates (λ expansions. rest_means expansions place (drop place stages.now))
        (point_of shell.old session.old (T.state tree.old) (seen_of (drawn_of (I.left input) (X.used engine.old)) (O.taken out) (E.taken err.old))
        (faults_of (I.faults input) (O.faults out) (E.faults err.old) (T.faults tree.old)))
        came last }
{
    let alloc = session.alloc();
    match gather(alloc, &stages[place..], shell, &session.streams, tree) {
        Ok(Some(segment)) => {
            let taken = segment.members.len();
            let behind = stages.len() - place - taken;
            let played = run_part(
                alloc, place, behind, segment, shell, session, tree, input, out, err, gate, engine,
            );
            Front { played, taken }
        }
        Ok(None) => {
            let position = position_of(place, stages.len() - place - 1);
            let played = eval_stage(
                position,
                &stages[place],
                shell,
                session,
                tree,
                input,
                out,
                err,
                gate,
                engine,
            );
            Front { played, taken: 1 }
        }
        Err(error) => Front {
            played: Played {
                how: how_of(error),
                input,
                out,
            },
            taken: 1,
        },
    }
}

/// Evaluates one of the several commands of a pipeline.
#[cycle(evaluation)]
fn eval_stage<T: Tree, I: Source + Send, O: Sink + Send, E: Sink, G: Gate, X: Engine>(
    position: Position,
    command: &Command,
    shell: &mut Shell,
    session: &mut Session,
    tree: &mut T,
    input: I,
    out: O,
    err: &mut E,
    gate: &G,
    engine: &mut X,
) -> Played<I, O>
    requires sound { IsSound session.old (T.state tree.old) }
    ensures { Evaluates (λ expansions. staged position (command_means expansions pages (command_tree command.now)))
        (point_of shell.old session.old (T.state tree.old) (seen_of (drawn_of (I.left input) (X.used engine.old)) (O.taken out) (E.taken err.old))
        (faults_of (I.faults input) (O.faults out) (E.faults err.old) (T.faults tree.old)))
        result.how
        (point_of shell.new session.new (T.state tree.new) (seen_of (drawn_of (I.left result.input) (X.used engine.new)) (O.taken result.out) (E.taken err.new))
        (faults_of (I.faults result.input) (O.faults result.out) (E.faults err.new) (T.faults tree.new))) }
{
    let alloc = session.alloc();
    let Ok((mut inner, aside)) = enter_stage(alloc, position, shell, session) else {
        return Played {
            how: How::Memory,
            input,
            out,
        };
    };
    let Played { how, input, out } = eval_command(
        command, &mut inner, session, tree, input, out, err, gate, engine,
    );
    leave_stage(alloc, aside, inner, shell, session);
    Played {
        how: settled(how),
        input,
        out,
    }
}

/// Evaluates a command.
#[cycle(evaluation)]
fn eval_command<T: Tree, I: Source + Send, O: Sink + Send, E: Sink, G: Gate, X: Engine>(
    command: &Command,
    shell: &mut Shell,
    session: &mut Session,
    tree: &mut T,
    input: I,
    out: O,
    err: &mut E,
    gate: &G,
    engine: &mut X,
) -> Played<I, O>
    requires sound { IsSound session.old (T.state tree.old) }
    ensures { Evaluates (λ expansions. command_means expansions pages (command_tree command.now))
        (point_of shell.old session.old (T.state tree.old) (seen_of (drawn_of (I.left input) (X.used engine.old)) (O.taken out) (E.taken err.old))
        (faults_of (I.faults input) (O.faults out) (E.faults err.old) (T.faults tree.old)))
        result.how
        (point_of shell.new session.new (T.state tree.new) (seen_of (drawn_of (I.left result.input) (X.used engine.new)) (O.taken result.out) (E.taken err.new))
        (faults_of (I.faults result.input) (O.faults result.out) (E.faults err.new) (T.faults tree.new))) }
{
    let alloc = session.alloc();
    match command {
        Command::Simple(simple) => {
            eval_simple(simple, shell, session, tree, input, out, err, gate, engine)
        }
        Command::Group(_, tail)
        | Command::Subshell(_, tail)
        | Command::If(_, _, tail)
        | Command::While(_, _, tail)
        | Command::Until(_, _, tail)
        | Command::For(_, _, _, tail) => {
            let Played { how, input, out } = eval_tail(
                tail, shell, session, tree, input, out, err, gate, engine,
            );
            if !goes_on(&how) {
                return Played { how, input, out };
            }
            let mut out = out;
            let before = match open_tail(
                alloc,
                tail.redirs.as_slice(),
                shell,
                session,
                tree,
                &mut out,
                err,
            ) {
                Ok(before) => before,
                Err(how) => return Played { how, input, out },
            };
            let Played { how, input, out } = eval_body(
                command, shell, session, tree, input, out, err, gate, engine,
            );
            close(before, session);
            Played { how, input, out }
        }
    }
}

/// Evaluates the substitutions of the redirections behind a compound command.
#[cycle(evaluation)]
fn eval_tail<T: Tree, I: Source + Send, O: Sink + Send, E: Sink, G: Gate, X: Engine>(
    tail: &Tail,
    shell: &mut Shell,
    session: &mut Session,
    tree: &mut T,
    input: I,
    out: O,
    err: &mut E,
    gate: &G,
    engine: &mut X,
) -> Played<I, O>
    requires sound { IsSound session.old (T.state tree.old) }
    ensures { Evaluates (λ expansions. subs_begun expansions pages (subs_tree (out-Tail tail.now).subs.items))
        (point_of shell.old session.old (T.state tree.old) (seen_of (drawn_of (I.left input) (X.used engine.old)) (O.taken out) (E.taken err.old))
        (faults_of (I.faults input) (O.faults out) (E.faults err.old) (T.faults tree.old)))
        result.how
        (point_of shell.new session.new (T.state tree.new) (seen_of (drawn_of (I.left result.input) (X.used engine.new)) (O.taken result.out) (E.taken err.new))
        (faults_of (I.faults result.input) (O.faults result.out) (E.faults err.new) (T.faults tree.new))) }
{
    let alloc = session.alloc();
    shell.begin_command(alloc);
    eval_subs(
        tail.subs.as_slice(),
        shell,
        session,
        tree,
        input,
        out,
        err,
        gate,
        engine,
    )
}

/// Evaluates what is in a compound command, behind its redirections.
#[cycle(evaluation)]
fn eval_body<T: Tree, I: Source + Send, O: Sink + Send, E: Sink, G: Gate, X: Engine>(
    command: &Command,
    shell: &mut Shell,
    session: &mut Session,
    tree: &mut T,
    input: I,
    out: O,
    err: &mut E,
    gate: &G,
    engine: &mut X,
) -> Played<I, O>
    requires sound { IsSound session.old (T.state tree.old) }
    ensures { Evaluates (λ expansions. body_means expansions pages (command_tree command.now))
        (point_of shell.old session.old (T.state tree.old) (seen_of (drawn_of (I.left input) (X.used engine.old)) (O.taken out) (E.taken err.old))
        (faults_of (I.faults input) (O.faults out) (E.faults err.old) (T.faults tree.old)))
        result.how
        (point_of shell.new session.new (T.state tree.new) (seen_of (drawn_of (I.left result.input) (X.used engine.new)) (O.taken result.out) (E.taken err.new))
        (faults_of (I.faults result.input) (O.faults result.out) (E.faults err.new) (T.faults tree.new))) }
{
    match command {
        Command::Group(list, _) => eval_list(
            list, shell, session, tree, input, out, err, gate, engine,
        ),
        Command::Subshell(list, _) => {
            eval_subshell(list, shell, session, tree, input, out, err, gate, engine)
        }
        Command::If(_, _, _) => eval_if(
            command, shell, session, tree, input, out, err, gate, engine,
        ),
        Command::While(_, _, _) => {
            eval_while(command, shell, session, tree, input, out, err, gate, engine)
        }
        Command::Until(_, _, _) => {
            eval_while(command, shell, session, tree, input, out, err, gate, engine)
        }
        Command::For(_, _, _, _) => {
            eval_for(command, shell, session, tree, input, out, err, gate, engine)
        }
        Command::Simple(_) => Played {
            how: How::Memory,
            input,
            out,
        },
    }
}

/// Evaluates what is in an `if`.
#[cycle(evaluation)]
fn eval_if<T: Tree, I: Source + Send, O: Sink + Send, E: Sink, G: Gate, X: Engine>(
    command: &Command,
    shell: &mut Shell,
    session: &mut Session,
    tree: &mut T,
    input: I,
    out: O,
    err: &mut E,
    gate: &G,
    engine: &mut X,
) -> Played<I, O>
    requires sound { IsSound session.old (T.state tree.old) }
    ensures { Evaluates (λ expansions. body_means expansions pages (command_tree command.now))
        (point_of shell.old session.old (T.state tree.old) (seen_of (drawn_of (I.left input) (X.used engine.old)) (O.taken out) (E.taken err.old))
        (faults_of (I.faults input) (O.faults out) (E.faults err.old) (T.faults tree.old)))
        result.how
        (point_of shell.new session.new (T.state tree.new) (seen_of (drawn_of (I.left result.input) (X.used engine.new)) (O.taken result.out) (E.taken err.new))
        (faults_of (I.faults result.input) (O.faults result.out) (E.faults err.new) (T.faults tree.new))) }
{
    let Command::If(branches, otherwise, _) = command else {
        return Played {
            how: How::Memory,
            input,
            out,
        };
    };
    let mut input = input;
    let mut out = out;
    for branch in branches.as_slice() {
        let Played {
            how,
            input: left,
            out: sent,
        } = eval_condition(branch, shell, session, tree, input, out, err, gate, engine);
        input = left;
        out = sent;
        if !goes_on(&how) {
            return Played { how, input, out };
        }
        if shell.status == 0 {
            return eval_branch(branch, shell, session, tree, input, out, err, gate, engine);
        }
    }
    match otherwise {
        Some(list) => eval_list(list, shell, session, tree, input, out, err, gate, engine),
        None => {
            shell.status = 0;
            Played {
                how: How::Gone(Flow::On),
                input,
                out,
            }
        }
    }
}

/// Evaluates the condition of a branch.
#[cycle(evaluation)]
fn eval_condition<T: Tree, I: Source + Send, O: Sink + Send, E: Sink, G: Gate, X: Engine>(
    branch: &(List, List),
    shell: &mut Shell,
    session: &mut Session,
    tree: &mut T,
    input: I,
    out: O,
    err: &mut E,
    gate: &G,
    engine: &mut X,
) -> Played<I, O>
    requires sound { IsSound session.old (T.state tree.old) }
    ensures { Evaluates (λ expansions. list_means expansions pages (list_tree branch.now.0))
        (point_of shell.old session.old (T.state tree.old) (seen_of (drawn_of (I.left input) (X.used engine.old)) (O.taken out) (E.taken err.old))
        (faults_of (I.faults input) (O.faults out) (E.faults err.old) (T.faults tree.old)))
        result.how
        (point_of shell.new session.new (T.state tree.new) (seen_of (drawn_of (I.left result.input) (X.used engine.new)) (O.taken result.out) (E.taken err.new))
        (faults_of (I.faults result.input) (O.faults result.out) (E.faults err.new) (T.faults tree.new))) }
{
    eval_list(
        &branch.0, shell, session, tree, input, out, err, gate, engine,
    )
}

/// Evaluates the commands of a branch.
#[cycle(evaluation)]
fn eval_branch<T: Tree, I: Source + Send, O: Sink + Send, E: Sink, G: Gate, X: Engine>(
    branch: &(List, List),
    shell: &mut Shell,
    session: &mut Session,
    tree: &mut T,
    input: I,
    out: O,
    err: &mut E,
    gate: &G,
    engine: &mut X,
) -> Played<I, O>
    requires sound { IsSound session.old (T.state tree.old) }
    ensures { Evaluates (λ expansions. list_means expansions pages (list_tree branch.now.1))
        (point_of shell.old session.old (T.state tree.old) (seen_of (drawn_of (I.left input) (X.used engine.old)) (O.taken out) (E.taken err.old))
        (faults_of (I.faults input) (O.faults out) (E.faults err.old) (T.faults tree.old)))
        result.how
        (point_of shell.new session.new (T.state tree.new) (seen_of (drawn_of (I.left result.input) (X.used engine.new)) (O.taken result.out) (E.taken err.new))
        (faults_of (I.faults result.input) (O.faults result.out) (E.faults err.new) (T.faults tree.new))) }
{
    eval_list(
        &branch.1, shell, session, tree, input, out, err, gate, engine,
    )
}

/// Evaluates a simple command.
#[cycle(evaluation)]
fn eval_simple<T: Tree, I: Source + Send, O: Sink + Send, E: Sink, G: Gate, X: Engine>(
    simple: &Simple,
    shell: &mut Shell,
    session: &mut Session,
    tree: &mut T,
    input: I,
    out: O,
    err: &mut E,
    gate: &G,
    engine: &mut X,
) -> Played<I, O>
    requires sound { IsSound session.old (T.state tree.old) }
    ensures { Evaluates (λ expansions. simple_means expansions pages (simple_tree simple.now))
        (point_of shell.old session.old (T.state tree.old) (seen_of (drawn_of (I.left input) (X.used engine.old)) (O.taken out) (E.taken err.old))
        (faults_of (I.faults input) (O.faults out) (E.faults err.old) (T.faults tree.old)))
        result.how
        (point_of shell.new session.new (T.state tree.new) (seen_of (drawn_of (I.left result.input) (X.used engine.new)) (O.taken result.out) (E.taken err.new))
        (faults_of (I.faults result.input) (O.faults result.out) (E.faults err.new) (T.faults tree.new))) }
{
    let alloc = session.alloc();
    shell.begin_command(alloc);
    let Played { how, input, out } = eval_subs(
        simple.subs.as_slice(),
        shell,
        session,
        tree,
        input,
        out,
        err,
        gate,
        engine,
    );
    if !goes_on(&how) {
        return Played { how, input, out };
    }
    run_simple(
        alloc,
        simple.assigns.as_slice(),
        simple.words.as_slice(),
        simple.redirs.as_slice(),
        shell,
        session,
        tree,
        input,
        out,
        err,
        gate,
        engine,
    )
}

/// Evaluates command substitutions, in text order.
#[cycle(evaluation)]
fn eval_subs<T: Tree, I: Source + Send, O: Sink + Send, E: Sink, G: Gate, X: Engine>(
    subs: &[List],
    shell: &mut Shell,
    session: &mut Session,
    tree: &mut T,
    input: I,
    out: O,
    err: &mut E,
    gate: &G,
    engine: &mut X,
) -> Played<I, O>
    requires sound { IsSound session.old (T.state tree.old) }
    ensures { Evaluates (λ expansions. subs_mean expansions pages (subs_tree subs.now))
        (point_of shell.old session.old (T.state tree.old) (seen_of (drawn_of (I.left input) (X.used engine.old)) (O.taken out) (E.taken err.old))
        (faults_of (I.faults input) (O.faults out) (E.faults err.old) (T.faults tree.old)))
        result.how
        (point_of shell.new session.new (T.state tree.new) (seen_of (drawn_of (I.left result.input) (X.used engine.new)) (O.taken result.out) (E.taken err.new))
        (faults_of (I.faults result.input) (O.faults result.out) (E.faults err.new) (T.faults tree.new))) }
{
    let mut input = input;
    let mut out = out;
    for list in subs {
        let Played {
            how,
            input: left,
            out: sent,
        } = eval_substitution(list, shell, session, tree, input, out, err, gate, engine);
        input = left;
        out = sent;
        if !goes_on(&how) {
            return Played { how, input, out };
        }
    }
    Played {
        how: How::Gone(Flow::On),
        input,
        out,
    }
}

/// Evaluates a command substitution: its output is gathered in a pipe, and kept without the newlines at its end.
#[cycle(evaluation)]
fn eval_substitution<T: Tree, I: Source + Send, O: Sink + Send, E: Sink, G: Gate, X: Engine>(
    list: &List,
    shell: &mut Shell,
    session: &mut Session,
    tree: &mut T,
    input: I,
    out: O,
    err: &mut E,
    gate: &G,
    engine: &mut X,
) -> Played<I, O>
    requires sound { IsSound session.old (T.state tree.old) }
    ensures { Evaluates (λ expansions. substitution (some_command (has_item (list_tree list.now)) (list_means expansions pages (list_tree list.now))))
        (point_of shell.old session.old (T.state tree.old) (seen_of (drawn_of (I.left input) (X.used engine.old)) (O.taken out) (E.taken err.old))
        (faults_of (I.faults input) (O.faults out) (E.faults err.old) (T.faults tree.old)))
        result.how
        (point_of shell.new session.new (T.state tree.new) (seen_of (drawn_of (I.left result.input) (X.used engine.new)) (O.taken result.out) (E.taken err.new))
        (faults_of (I.faults result.input) (O.faults result.out) (E.faults err.new) (T.faults tree.new))) }
{
    let alloc = session.alloc();
    let Ok(mut inner) = shell.inside(alloc) else {
        return Played {
            how: How::Memory,
            input,
            out,
        };
    };
    let Ok(to) = session.open_pipe(alloc) else {
        return Played {
            how: How::Memory,
            input,
            out,
        };
    };
    let Played { how, input, out } = eval_substituted(
        list, &mut inner, session, tree, input, out, err, gate, engine,
    );
    let text = session.close_pipe(alloc, to);
    let Ok(()) = shell.keep_text(alloc, text.as_slice(), inner.status) else {
        return Played {
            how: How::Memory,
            input,
            out,
        };
    };
    Played {
        how: settled(how),
        input,
        out,
    }
}

/// Evaluates the list of a command substitution, in its shell: one without a command succeeds.
#[cycle(evaluation)]
fn eval_substituted<T: Tree, I: Source + Send, O: Sink + Send, E: Sink, G: Gate, X: Engine>(
    list: &List,
    shell: &mut Shell,
    session: &mut Session,
    tree: &mut T,
    input: I,
    out: O,
    err: &mut E,
    gate: &G,
    engine: &mut X,
) -> Played<I, O>
    requires sound { IsSound session.old (T.state tree.old) }
    ensures { Evaluates (λ expansions. some_command (has_item (list_tree list.now)) (list_means expansions pages (list_tree list.now)))
        (point_of shell.old session.old (T.state tree.old) (seen_of (drawn_of (I.left input) (X.used engine.old)) (O.taken out) (E.taken err.old))
        (faults_of (I.faults input) (O.faults out) (E.faults err.old) (T.faults tree.old)))
        result.how
        (point_of shell.new session.new (T.state tree.new) (seen_of (drawn_of (I.left result.input) (X.used engine.new)) (O.taken result.out) (E.taken err.new))
        (faults_of (I.faults result.input) (O.faults result.out) (E.faults err.new) (T.faults tree.new))) }
{
    if !has_command(list) {
        shell.status = 0;
        return Played {
            how: How::Gone(Flow::On),
            input,
            out,
        };
    }
    eval_list(list, shell, session, tree, input, out, err, gate, engine)
}

/// Evaluates a `while` or an `until`.
#[cycle(evaluation)]
fn eval_while<T: Tree, I: Source + Send, O: Sink + Send, E: Sink, G: Gate, X: Engine>(
    command: &Command,
    shell: &mut Shell,
    session: &mut Session,
    tree: &mut T,
    input: I,
    out: O,
    err: &mut E,
    gate: &G,
    engine: &mut X,
) -> Played<I, O>
    requires sound { IsSound session.old (T.state tree.old) }
    ensures { Evaluates (λ expansions. in_loop (all_turns (turn_means expansions pages (command_tree command.now))))
        (point_of shell.old session.old (T.state tree.old) (seen_of (drawn_of (I.left input) (X.used engine.old)) (O.taken out) (E.taken err.old))
        (faults_of (I.faults input) (O.faults out) (E.faults err.old) (T.faults tree.old)))
        result.how
        (point_of shell.new session.new (T.state tree.new) (seen_of (drawn_of (I.left result.input) (X.used engine.new)) (O.taken result.out) (E.taken err.new))
        (faults_of (I.faults result.input) (O.faults result.out) (E.faults err.new) (T.faults tree.new))) }
{
    let Some(around) = shell.enter_loop() else {
        return Played {
            how: How::Memory,
            input,
            out,
        };
    };
    let Played { how, input, out } = eval_turns(
        command, shell, session, tree, input, out, err, gate, engine,
    );
    shell.leave_loop(around);
    Played { how, input, out }
}

/// Evaluates the turns of a `while` or an `until`, until one of them ends it, or all turns of the run are used.
#[cycle(evaluation)]
fn eval_turns<T: Tree, I: Source + Send, O: Sink + Send, E: Sink, G: Gate, X: Engine>(
    command: &Command,
    shell: &mut Shell,
    session: &mut Session,
    tree: &mut T,
    input: I,
    out: O,
    err: &mut E,
    gate: &G,
    engine: &mut X,
) -> Played<I, O>
    requires sound { IsSound session.old (T.state tree.old) }
    ensures { Evaluates (λ expansions. all_turns (turn_means expansions pages (command_tree command.now)))
        (point_of shell.old session.old (T.state tree.old) (seen_of (drawn_of (I.left input) (X.used engine.old)) (O.taken out) (E.taken err.old))
        (faults_of (I.faults input) (O.faults out) (E.faults err.old) (T.faults tree.old)))
        result.how
        (point_of shell.new session.new (T.state tree.new) (seen_of (drawn_of (I.left result.input) (X.used engine.new)) (O.taken result.out) (E.taken err.new))
        (faults_of (I.faults result.input) (O.faults result.out) (E.faults err.new) (T.faults tree.new))) }
{
    let mut input = input;
    let mut out = out;
    while session.turns < MAX_TURNS {
        session.turns += 1;
        let Played {
            how,
            input: left,
            out: sent,
        } = eval_turn(command, shell, session, tree, input, out, err, gate, engine);
        input = left;
        out = sent;
        if !goes_round(&how) {
            return Played {
                how: left_by(how),
                input,
                out,
            };
        }
    }
    Played {
        how: How::Gone(Flow::Refused(Refusal::TurnsOver)),
        input,
        out,
    }
}

/// Evaluates one turn of a `while` or an `until`.
#[cycle(evaluation)]
fn eval_turn<T: Tree, I: Source + Send, O: Sink + Send, E: Sink, G: Gate, X: Engine>(
    command: &Command,
    shell: &mut Shell,
    session: &mut Session,
    tree: &mut T,
    input: I,
    out: O,
    err: &mut E,
    gate: &G,
    engine: &mut X,
) -> Played<I, O>
    requires sound { IsSound session.old (T.state tree.old) }
    ensures { Evaluates (λ expansions. turn_means expansions pages (command_tree command.now))
        (point_of shell.old session.old (T.state tree.old) (seen_of (drawn_of (I.left input) (X.used engine.old)) (O.taken out) (E.taken err.old))
        (faults_of (I.faults input) (O.faults out) (E.faults err.old) (T.faults tree.old)))
        result.how
        (point_of shell.new session.new (T.state tree.new) (seen_of (drawn_of (I.left result.input) (X.used engine.new)) (O.taken result.out) (E.taken err.new))
        (faults_of (I.faults result.input) (O.faults result.out) (E.faults err.new) (T.faults tree.new))) }
{
    match command {
        Command::While(_, _, _) => {
            eval_while_turn(command, shell, session, tree, input, out, err, gate, engine)
        }
        Command::Until(_, _, _) => {
            eval_until_turn(command, shell, session, tree, input, out, err, gate, engine)
        }
        _ => Played {
            how: How::Memory,
            input,
            out,
        },
    }
}

/// Evaluates one turn of a `while`: its condition, and where that holds its body.
#[cycle(evaluation)]
fn eval_while_turn<T: Tree, I: Source + Send, O: Sink + Send, E: Sink, G: Gate, X: Engine>(
    command: &Command,
    shell: &mut Shell,
    session: &mut Session,
    tree: &mut T,
    input: I,
    out: O,
    err: &mut E,
    gate: &G,
    engine: &mut X,
) -> Played<I, O>
    requires sound { IsSound session.old (T.state tree.old) }
    ensures { Evaluates (λ expansions. turn_means expansions pages (command_tree command.now))
        (point_of shell.old session.old (T.state tree.old) (seen_of (drawn_of (I.left input) (X.used engine.old)) (O.taken out) (E.taken err.old))
        (faults_of (I.faults input) (O.faults out) (E.faults err.old) (T.faults tree.old)))
        result.how
        (point_of shell.new session.new (T.state tree.new) (seen_of (drawn_of (I.left result.input) (X.used engine.new)) (O.taken result.out) (E.taken err.new))
        (faults_of (I.faults result.input) (O.faults result.out) (E.faults err.new) (T.faults tree.new))) }
{
    let Command::While(condition, body, _) = command else {
        return Played {
            how: How::Memory,
            input,
            out,
        };
    };
    let Played { how, input, out } = eval_list(
        condition, shell, session, tree, input, out, err, gate, engine,
    );
    if !goes_on(&how) {
        leave_condition(&how, shell);
        return Played { how, input, out };
    }
    if shell.status != 0 {
        shell.status = shell.body_status;
        return Played {
            how: How::Gone(Flow::Break(1)),
            input,
            out,
        };
    }
    eval_loop_body(body, shell, session, tree, input, out, err, gate, engine)
}

/// Evaluates one turn of an `until`: its condition, and where that fails its body.
#[cycle(evaluation)]
fn eval_until_turn<T: Tree, I: Source + Send, O: Sink + Send, E: Sink, G: Gate, X: Engine>(
    command: &Command,
    shell: &mut Shell,
    session: &mut Session,
    tree: &mut T,
    input: I,
    out: O,
    err: &mut E,
    gate: &G,
    engine: &mut X,
) -> Played<I, O>
    requires sound { IsSound session.old (T.state tree.old) }
    ensures { Evaluates (λ expansions. turn_means expansions pages (command_tree command.now))
        (point_of shell.old session.old (T.state tree.old) (seen_of (drawn_of (I.left input) (X.used engine.old)) (O.taken out) (E.taken err.old))
        (faults_of (I.faults input) (O.faults out) (E.faults err.old) (T.faults tree.old)))
        result.how
        (point_of shell.new session.new (T.state tree.new) (seen_of (drawn_of (I.left result.input) (X.used engine.new)) (O.taken result.out) (E.taken err.new))
        (faults_of (I.faults result.input) (O.faults result.out) (E.faults err.new) (T.faults tree.new))) }
{
    let Command::Until(condition, body, _) = command else {
        return Played {
            how: How::Memory,
            input,
            out,
        };
    };
    let Played { how, input, out } = eval_list(
        condition, shell, session, tree, input, out, err, gate, engine,
    );
    if !goes_on(&how) {
        leave_condition(&how, shell);
        return Played { how, input, out };
    }
    if shell.status == 0 {
        shell.status = shell.body_status;
        return Played {
            how: How::Gone(Flow::Break(1)),
            input,
            out,
        };
    }
    eval_loop_body(body, shell, session, tree, input, out, err, gate, engine)
}

/// Evaluates the body of a loop, whose status is kept.
#[cycle(evaluation)]
fn eval_loop_body<T: Tree, I: Source + Send, O: Sink + Send, E: Sink, G: Gate, X: Engine>(
    body: &List,
    shell: &mut Shell,
    session: &mut Session,
    tree: &mut T,
    input: I,
    out: O,
    err: &mut E,
    gate: &G,
    engine: &mut X,
) -> Played<I, O>
    requires sound { IsSound session.old (T.state tree.old) }
    ensures { Evaluates (λ expansions state. noted (list_means expansions pages (list_tree body.now) state))
        (point_of shell.old session.old (T.state tree.old) (seen_of (drawn_of (I.left input) (X.used engine.old)) (O.taken out) (E.taken err.old))
        (faults_of (I.faults input) (O.faults out) (E.faults err.old) (T.faults tree.old)))
        result.how
        (point_of shell.new session.new (T.state tree.new) (seen_of (drawn_of (I.left result.input) (X.used engine.new)) (O.taken result.out) (E.taken err.new))
        (faults_of (I.faults result.input) (O.faults result.out) (E.faults err.new) (T.faults tree.new))) }
{
    let Played { how, input, out } = eval_list(
        body, shell, session, tree, input, out, err, gate, engine,
    );
    note_body(&how, shell);
    Played { how, input, out }
}

/// Evaluates a `for`: over what its words mean, or over the arguments.
#[cycle(evaluation)]
fn eval_for<T: Tree, I: Source + Send, O: Sink + Send, E: Sink, G: Gate, X: Engine>(
    command: &Command,
    shell: &mut Shell,
    session: &mut Session,
    tree: &mut T,
    input: I,
    out: O,
    err: &mut E,
    gate: &G,
    engine: &mut X,
) -> Played<I, O>
    requires sound { IsSound session.old (T.state tree.old) }
    ensures { Evaluates (λ expansions. body_means expansions pages (command_tree command.now))
        (point_of shell.old session.old (T.state tree.old) (seen_of (drawn_of (I.left input) (X.used engine.old)) (O.taken out) (E.taken err.old))
        (faults_of (I.faults input) (O.faults out) (E.faults err.old) (T.faults tree.old)))
        result.how
        (point_of shell.new session.new (T.state tree.new) (seen_of (drawn_of (I.left result.input) (X.used engine.new)) (O.taken result.out) (E.taken err.new))
        (faults_of (I.faults result.input) (O.faults result.out) (E.faults err.new) (T.faults tree.new))) }
{
    let alloc = session.alloc();
    let Command::For(_, words, _, _) = command else {
        return Played {
            how: How::Memory,
            input,
            out,
        };
    };
    match words {
        None => {
            let Ok(arguments) = shell.arguments.copy() else {
                return Played {
                    how: How::Memory,
                    input,
                    out,
                };
            };
            eval_for_over(
                command,
                arguments.as_slice(),
                shell,
                session,
                tree,
                input,
                out,
                err,
                gate,
                engine,
            )
        }
        Some(words) => {
            shell.begin_command(alloc);
            let Played { how, input, out } = eval_subs(
                words.subs.as_slice(),
                shell,
                session,
                tree,
                input,
                out,
                err,
                gate,
                engine,
            );
            if !goes_on(&how) {
                return Played { how, input, out };
            }
            let mut out = out;
            let fields = match expand_words(
                alloc,
                words.words.as_slice(),
                shell,
                session,
                tree,
                &mut out,
                err,
            ) {
                Ok(fields) => fields,
                Err(how) => return Played { how, input, out },
            };
            eval_for_over(
                command,
                fields.as_slice(),
                shell,
                session,
                tree,
                input,
                out,
                err,
                gate,
                engine,
            )
        }
    }
}

/// Evaluates a `for` over fields.
#[cycle(evaluation)]
fn eval_for_over<T: Tree, I: Source + Send, O: Sink + Send, E: Sink, G: Gate, X: Engine>(
    command: &Command,
    fields: &[Vec<u8>],
    shell: &mut Shell,
    session: &mut Session,
    tree: &mut T,
    input: I,
    out: O,
    err: &mut E,
    gate: &G,
    engine: &mut X,
) -> Played<I, O>
    requires sound { IsSound session.old (T.state tree.old) }
    ensures { Evaluates (λ expansions. in_loop (rounds_mean expansions pages (command_tree command.now) (texts_of fields.now)))
        (point_of shell.old session.old (T.state tree.old) (seen_of (drawn_of (I.left input) (X.used engine.old)) (O.taken out) (E.taken err.old))
        (faults_of (I.faults input) (O.faults out) (E.faults err.old) (T.faults tree.old)))
        result.how
        (point_of shell.new session.new (T.state tree.new) (seen_of (drawn_of (I.left result.input) (X.used engine.new)) (O.taken result.out) (E.taken err.new))
        (faults_of (I.faults result.input) (O.faults result.out) (E.faults err.new) (T.faults tree.new))) }
{
    let Some(around) = shell.enter_loop() else {
        return Played {
            how: How::Memory,
            input,
            out,
        };
    };
    let Played { how, input, out } = eval_rounds(
        command, fields, shell, session, tree, input, out, err, gate, engine,
    );
    shell.leave_loop(around);
    Played { how, input, out }
}

/// Evaluates the rounds of a `for`, one a field, until one of them ends it, or all turns of the run are used.
#[cycle(evaluation)]
fn eval_rounds<T: Tree, I: Source + Send, O: Sink + Send, E: Sink, G: Gate, X: Engine>(
    command: &Command,
    fields: &[Vec<u8>],
    shell: &mut Shell,
    session: &mut Session,
    tree: &mut T,
    input: I,
    out: O,
    err: &mut E,
    gate: &G,
    engine: &mut X,
) -> Played<I, O>
    requires sound { IsSound session.old (T.state tree.old) }
    ensures { Evaluates (λ expansions. rounds_mean expansions pages (command_tree command.now) (texts_of fields.now))
        (point_of shell.old session.old (T.state tree.old) (seen_of (drawn_of (I.left input) (X.used engine.old)) (O.taken out) (E.taken err.old))
        (faults_of (I.faults input) (O.faults out) (E.faults err.old) (T.faults tree.old)))
        result.how
        (point_of shell.new session.new (T.state tree.new) (seen_of (drawn_of (I.left result.input) (X.used engine.new)) (O.taken result.out) (E.taken err.new))
        (faults_of (I.faults result.input) (O.faults result.out) (E.faults err.new) (T.faults tree.new))) }
{
    let mut input = input;
    let mut out = out;
    for field in fields {
        if session.turns >= MAX_TURNS {
            return Played {
                how: How::Gone(Flow::Refused(Refusal::TurnsOver)),
                input,
                out,
            };
        }
        session.turns += 1;
        let Played {
            how,
            input: left,
            out: sent,
        } = eval_round(
            command,
            field.as_slice(),
            shell,
            session,
            tree,
            input,
            out,
            err,
            gate,
            engine,
        );
        input = left;
        out = sent;
        if !goes_round(&how) {
            return Played {
                how: left_by(how),
                input,
                out,
            };
        }
    }
    shell.status = shell.body_status;
    Played {
        how: How::Gone(Flow::On),
        input,
        out,
    }
}

/// Evaluates one round of a `for`, in which its name has this text.
#[cycle(evaluation)]
fn eval_round<T: Tree, I: Source + Send, O: Sink + Send, E: Sink, G: Gate, X: Engine>(
    command: &Command,
    field: &[u8],
    shell: &mut Shell,
    session: &mut Session,
    tree: &mut T,
    input: I,
    out: O,
    err: &mut E,
    gate: &G,
    engine: &mut X,
) -> Played<I, O>
    requires sound { IsSound session.old (T.state tree.old) }
    ensures { Evaluates (λ expansions. round_means expansions pages (command_tree command.now) field.now)
        (point_of shell.old session.old (T.state tree.old) (seen_of (drawn_of (I.left input) (X.used engine.old)) (O.taken out) (E.taken err.old))
        (faults_of (I.faults input) (O.faults out) (E.faults err.old) (T.faults tree.old)))
        result.how
        (point_of shell.new session.new (T.state tree.new) (seen_of (drawn_of (I.left result.input) (X.used engine.new)) (O.taken result.out) (E.taken err.new))
        (faults_of (I.faults result.input) (O.faults result.out) (E.faults err.new) (T.faults tree.new))) }
{
    let alloc = session.alloc();
    let Command::For(name, _, body, _) = command else {
        return Played {
            how: How::Memory,
            input,
            out,
        };
    };
    let Ok(()) = shell.variables.set(alloc, name.as_slice(), field) else {
        return Played {
            how: How::Memory,
            input,
            out,
        };
    };
    eval_loop_body(body, shell, session, tree, input, out, err, gate, engine)
}

/// Evaluates a list in a subshell.
#[cycle(evaluation)]
fn eval_subshell<T: Tree, I: Source + Send, O: Sink + Send, E: Sink, G: Gate, X: Engine>(
    list: &List,
    shell: &mut Shell,
    session: &mut Session,
    tree: &mut T,
    input: I,
    out: O,
    err: &mut E,
    gate: &G,
    engine: &mut X,
) -> Played<I, O>
    requires sound { IsSound session.old (T.state tree.old) }
    ensures { Evaluates (λ expansions. subshell (list_means expansions pages (list_tree list.now)))
        (point_of shell.old session.old (T.state tree.old) (seen_of (drawn_of (I.left input) (X.used engine.old)) (O.taken out) (E.taken err.old))
        (faults_of (I.faults input) (O.faults out) (E.faults err.old) (T.faults tree.old)))
        result.how
        (point_of shell.new session.new (T.state tree.new) (seen_of (drawn_of (I.left result.input) (X.used engine.new)) (O.taken result.out) (E.taken err.new))
        (faults_of (I.faults result.input) (O.faults result.out) (E.faults err.new) (T.faults tree.new))) }
{
    let alloc = session.alloc();
    let Ok(mut inner) = shell.inside(alloc) else {
        return Played {
            how: How::Memory,
            input,
            out,
        };
    };
    let Played { how, input, out } = eval_list(
        list, &mut inner, session, tree, input, out, err, gate, engine,
    );
    shell.take_status(inner);
    Played {
        how: settled(how),
        input,
        out,
    }
}
