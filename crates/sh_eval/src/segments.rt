//! Runs of utilities of a pipeline as one.
ghost use Rattle.sh_eval.specs.Contract.{Evaluates, IsSound, drawn_of, faults_of, point_of, seen_of};
ghost use Rattle.sh_eval.specs.Inner.Gathering.{IsRunnable};
ghost use Rattle.sh_eval.specs.Inner.Staging.{members_mean, part_means};

use crate::flows::Flow;
use crate::gathering::Segment;
use crate::outcomes::{How, Played, goes_on, position_of, settled};
use crate::session::Session;
use crate::shell::Shell;
use crate::staging::{enter_stage, leave_stage};
use crate::utilities::{Task, run_task, tell_some};
use fl_engines::Engine;
use ps_world::{Gate, Sink, Source, Tree};
use std::alloc::Global;

/// Runs the members of a segment as one graph, each over the output of the one before: what is told of their operands comes first.
pub(crate) fn run_segment<T: Tree, I: Source + Send, O: Sink + Send, E: Sink, G: Gate, X: Engine>(
    alloc: Global,
    segment: Segment,
    shell: &mut Shell,
    session: &mut Session,
    tree: &mut T,
    input: I,
    out: O,
    err: &mut E,
    gate: &G,
    engine: &mut X,
) -> Played<I, O>
    requires segment { IsRunnable segment session.old.streams (T.state tree.old) }
    requires sound { IsSound session.old (T.state tree.old) }
    ensures { Evaluates (members_mean segment.members.items)
        (point_of shell.old session.old (T.state tree.old) (seen_of (drawn_of (I.left input) (X.used engine.old)) (O.taken out) (E.taken err.old))
        (faults_of (I.faults input) (O.faults out) (E.faults err.old) (T.faults tree.old)))
        result.how
        (point_of shell.new session.new (T.state tree.new) (seen_of (drawn_of (I.left result.input) (X.used engine.new)) (O.taken result.out) (E.taken err.new))
        (faults_of (I.faults result.input) (O.faults result.out) (E.faults err.new) (T.faults tree.new))) }
{
    let mut out = out;
    let how = tell_some(segment.lines.as_slice(), session, tree, &mut out, err);
    if !goes_on(&how) {
        return Played { how, input, out };
    }
    let Played { how, input, out } = run_task(
        alloc,
        Task::Pipeline(segment.members.as_slice()),
        &[],
        shell,
        session,
        tree,
        input,
        out,
        err,
        gate,
        engine,
    );
    if !goes_on(&how) {
        return Played { how, input, out };
    }
    session.empty_pipe(alloc);
    Played {
        how: How::Gone(Flow::On),
        input,
        out,
    }
}

/// Runs a segment of a pipeline, with so many stages before it and behind it: as the whole pipeline, or as one of its stages.
pub(crate) fn run_part<T: Tree, I: Source + Send, O: Sink + Send, E: Sink, G: Gate, X: Engine>(
    alloc: Global,
    before: usize,
    behind: usize,
    segment: Segment,
    shell: &mut Shell,
    session: &mut Session,
    tree: &mut T,
    input: I,
    out: O,
    err: &mut E,
    gate: &G,
    engine: &mut X,
) -> Played<I, O>
    requires segment { IsRunnable segment session.old.streams (T.state tree.old) }
    requires sound { IsSound session.old (T.state tree.old) }
    ensures { Evaluates (λ expansions. part_means before behind (members_mean segment.members.items expansions))
        (point_of shell.old session.old (T.state tree.old) (seen_of (drawn_of (I.left input) (X.used engine.old)) (O.taken out) (E.taken err.old))
        (faults_of (I.faults input) (O.faults out) (E.faults err.old) (T.faults tree.old)))
        result.how
        (point_of shell.new session.new (T.state tree.new) (seen_of (drawn_of (I.left result.input) (X.used engine.new)) (O.taken result.out) (E.taken err.new))
        (faults_of (I.faults result.input) (O.faults result.out) (E.faults err.new) (T.faults tree.new))) }
{
    if before == 0 && behind == 0 {
        return run_segment(
            alloc, segment, shell, session, tree, input, out, err, gate, engine,
        );
    }
    let position = position_of(before, behind);
    let Ok((mut inner, aside)) = enter_stage(alloc, position, shell, session) else {
        return Played {
            how: How::Memory,
            input,
            out,
        };
    };
    let Played { how, input, out } = run_segment(
        alloc, segment, &mut inner, session, tree, input, out, err, gate, engine,
    );
    leave_stage(alloc, aside, inner, shell, session);
    Played {
        how: settled(how),
        input,
        out,
    }
}
