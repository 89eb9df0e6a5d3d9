//! Commands that are skipped where a redirection of theirs stopped (XCU 2.8.1).
ghost use Rattle.std.specs.Prelude.{◌≡◌, ℕ, List, Option};
ghost use Rattle.sh_eval.specs.Contract.{Drawn, faults_of, point_of, seen_of};
ghost use Rattle.sh_eval.specs.Reaching.{CanSkip, Skips};

use crate::builtins::leave;
use crate::flows::Flow;
use crate::outcomes::How;
use crate::session::Session;
use crate::shell::Shell;
use crate::stops::RedirectionError;
use crate::writing::tell;
use ps_world::{Sink, Tree};

/// Skips a command where one of its redirections stopped: its line is told, and the shell goes on so with status 1.
///
/// Its descriptors still lead where they led up to that redirection.
pub(crate) fn skip<T: Tree, O: Sink, E: Sink>(
    stop: RedirectionError,
    way: Flow,
    shell: &mut Shell,
    session: &mut Session,
    tree: &mut T,
    out: &mut O,
    err: &mut E,
) -> How
    requires sound { CanSkip stop session.old (T.state tree.old) }
    ensures streams { session.new.streams ≡ session.old.streams }
    ensures skips { (drawn : Drawn) (input : ℕ) → Skips stop way
        (point_of shell.old session.old (T.state tree.old) (seen_of drawn (O.taken out.old) (E.taken err.old))
        (faults_of input (O.faults out.old) (E.faults err.old) (T.faults tree.old)))
        result
        (point_of shell.new session.new (T.state tree.new) (seen_of drawn (O.taken out.new) (E.taken err.new))
        (faults_of input (O.faults out.new) (E.faults err.new) (T.faults tree.new))) }
{
    match stop {
        RedirectionError::Line(line) => {
            let how = tell(line.as_slice(), session, tree, out, err);
            leave(how, way, 1, shell)
        }
        RedirectionError::Tree => How::TreeFault,
        RedirectionError::Memory => How::Memory,
    }
}
