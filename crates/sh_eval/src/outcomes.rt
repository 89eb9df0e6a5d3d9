//! How the evaluation of a command came out.
ghost use Rattle.std.specs.Prelude.{◌≡◌, ◌<◌, [], false, true};
ghost use Rattle.sh_tree.specs.declared.commands.Command.TheViews.{out-List};
ghost use Rattle.sh_eval.specs.Commands.{goes_on_behind, goes_round as goes_round_def, kept_by, left_by as left_by_def, negated_status, position_at};
ghost use Rattle.sh_eval.specs.Contract.{changed_by, goes_on as goes_on_def, going, gone_by, settled_how};
ghost use Rattle.sh_eval.specs.Inner.Loops.{condition_left};
ghost use Rattle.sh_eval.specs.Inner.Opening.{how_of as how_of_def};
ghost use Rattle.sh_eval.specs.Shells.{with_status};

use crate::flows::Flow;
use crate::shell::Shell;
use ps_world::WorldErr;
use sh_tree::{Join, List};

/// How the evaluation of a command came out.
#[derive(Debug, Drop)]
pub enum How {
    /// It is over, and the shell goes on so.
    Gone(Flow),
    /// The standard input of the run failed.
    ReadFault,
    /// The standard output or error of the run failed.
    WriteFault,
    /// The tree failed.
    TreeFault,
    /// Memory was wanted and refused.
    Memory,
}

/// How an evaluation came out, with the standard input and output that it was handed.
pub struct Played<I, O> {
    pub how: How,
    pub input: I,
    pub out: O,
}

/// How the evaluation of stages of a pipeline came out, and how many these were.
pub(crate) struct Front<I, O> {
    pub(crate) played: Played<I, O>,
    pub(crate) taken: usize,
}

/// The place of stages among the several of a pipeline.
#[derive(Clone, Copy, Debug, PartialEq, Eq)]
pub enum Position {
    First,
    Middle,
    Last,
}

/// The place of stages that have so many before them and behind them.
pub(crate) fn position_of(before: usize, behind: usize) -> Position
    ensures { result ≡ position_at before behind }
{
    match (before, behind) {
        (0, _) => Position::First,
        (_, 0) => Position::Last,
        _ => Position::Middle,
    }
}

/// Whether the shell goes on with the next command.
pub(crate) fn goes_on(how: &How) -> bool
    ensures { result ≡ goes_on_def how.now }
{
    matches!(how, How::Gone(Flow::On))
}

/// How a command is over at which the tree failed, or memory was refused.
pub(crate) fn how_of(error: WorldErr) -> How
    ensures { result ≡ how_of_def error }
{
    match error {
        WorldErr::Failed => How::TreeFault,
        WorldErr::Memory => How::Memory,
    }
}

/// How the shell around goes on behind a subshell.
pub(crate) fn settled(how: How) -> How
    ensures { result ≡ settled_how how }
{
    match how {
        How::Gone(Flow::Break(_) | Flow::Continue(_) | Flow::Exit) => How::Gone(Flow::On),
        other => other,
    }
}

/// Whether the next pipeline of an and-or list runs.
pub(crate) fn joins(join: Join, shell: &Shell) -> bool
    ensures { result ≡ goes_on_behind join shell.now.status }
{
    match join {
        Join::And => shell.status == 0,
        Join::Or => shell.status != 0,
    }
}

/// Turns the status, where `!` stands before the pipeline.
pub(crate) fn negate(negated: bool, shell: &mut Shell)
    ensures { shell.new ≡ with_status (negated_status negated shell.old.status) shell.old }
{
    if negated {
        shell.status = u8::from(shell.status == 0);
    }
}

/// Whether a loop goes on with its next round behind this one.
pub(crate) fn goes_round(how: &How) -> bool
    ensures { result ≡ gone_by goes_round_def how.now }
{
    matches!(how, How::Gone(Flow::On | Flow::Continue(0 | 1)))
}

/// How the command behind a loop goes on, where a round has ended the loop.
pub(crate) fn left_by(how: How) -> How
    ensures { result ≡ going left_by_def how }
{
    match how {
        How::Gone(Flow::Break(0 | 1) | Flow::Continue(0 | 1)) => How::Gone(Flow::On),
        How::Gone(Flow::Break(count)) => How::Gone(Flow::Break(count - 1)),
        How::Gone(Flow::Continue(count)) => How::Gone(Flow::Continue(count - 1)),
        other => other,
    }
}

/// Keeps the status of a loop's body, which is the loop's if no other body runs.
pub(crate) fn note_body(how: &How, shell: &mut Shell)
    ensures { shell.new ≡ changed_by kept_by how.now shell.old }
{
    if matches!(
        how,
        How::Gone(Flow::On | Flow::Break(_) | Flow::Continue(_))
    ) {
        shell.body_status = shell.status;
    }
}

/// Gives a loop the status of its last body, where its condition has left it.
pub(crate) fn leave_condition(how: &How, shell: &mut Shell)
    ensures { shell.new ≡ changed_by condition_left how.now shell.old }
{
    match how {
        How::Gone(Flow::Continue(0 | 1)) => {}
        How::Gone(Flow::Break(_) | Flow::Continue(_)) => shell.status = shell.body_status,
        _ => {}
    }
}

/// Whether a list has a command.
pub(crate) fn has_command(list: &List) -> bool
    ensures some { result ≡ true → (out-List list.now).items.items ≡ [] → ⊥ }
    ensures none { result ≡ false → (out-List list.now).items.items ≡ [] }
{
    !list.items.is_empty()
}
