//! What a stage of a pipeline of several has for itself: a shell, and where it reads and writes (XCU 2.9.2).
ghost use Rattle.std.specs.Prelude.{◌≡◌, IfOk};
ghost use Rattle.sh_eval.specs.Inner.Staging.{IsAside, back_to, entering, status_kept};
ghost use Rattle.sh_eval.specs.Shells.{inside};

use crate::outcomes::Position;
use crate::session::Session;
use crate::shell::Shell;
use crate::streams::{From, To};
use ps_lines::Memory;
use std::alloc::Global;

/// Where the shell around a stage reads and writes, put aside while the stage runs.
#[derive(Debug, Drop)]
pub enum Aside {
    /// The first stage writes into a pipe.
    First(To),
    /// A stage between two reads what the one before has written, and writes into a pipe.
    Middle(From, To),
    /// The last stage reads what the one before has written.
    Last(From),
}

/// Enters a stage, and gives its shell and what is put aside.
pub(crate) fn enter_stage(
    alloc: Global,
    position: Position,
    shell: &Shell,
    session: &mut Session,
) -> Result<(Shell, Aside), Memory>
    ensures shell { IfOk result (λ entered. entered.0 ≡ inside shell.now) }
    ensures session { IfOk result (λ entered. session.new ≡ entering position session.old) }
    ensures aside { IfOk result (λ entered. IsAside position session.old entered.1) }
    ensures turns { session.new.turns ≡ session.old.turns }
{
    let inner = shell.inside(alloc)?;
    match turn_streams(alloc, position, session) {
        Ok(aside) => Ok((inner, aside)),
        Err(refused) => Err(refused),
    }
}

/// Turns the streams of a session to those of a stage.
fn turn_streams(alloc: Global, position: Position, session: &mut Session) -> Result<Aside, Memory>
    ensures session { IfOk result (λ aside. session.new ≡ entering position session.old) }
    ensures aside { IfOk result (IsAside position session.old) }
    ensures turns { session.new.turns ≡ session.old.turns }
{
    match position {
        Position::First => match session.open_pipe(alloc) {
            Ok(to) => Ok(Aside::First(to)),
            Err(refused) => Err(refused),
        },
        Position::Middle => {
            let from = session.read_piped(alloc);
            match session.open_pipe(alloc) {
                Ok(to) => Ok(Aside::Middle(from, to)),
                Err(refused) => Err(refused),
            }
        }
        Position::Last => Ok(Aside::Last(session.read_piped(alloc))),
    }
}

/// Leaves a stage: what was put aside is taken up again, a pipe is closed and kept for the next stage, and the status of the last stays.
pub(crate) fn leave_stage(
    alloc: Global,
    aside: Aside,
    inner: Shell,
    shell: &mut Shell,
    session: &mut Session,
)
    ensures shell { shell.new ≡ status_kept aside shell.old inner }
    ensures session { session.new ≡ back_to aside session.old }
{
    match aside {
        Aside::First(to) => session.hand_on(alloc, to),
        Aside::Middle(from, to) => {
            session.hand_on(alloc, to);
            session.read_from(from);
        }
        Aside::Last(from) => {
            session.read_from(from);
            shell.take_status(inner);
        }
    }
}
