//! What a shell writes, where its descriptors lead (XCU 2.7), and to files beside.
ghost use Rattle.std.specs.Prelude.{◌≡◌, ℕ, ◌≤◌, ◌∷◌, [], List, true, IfSome, IsErrOf, OnOk};
ghost use Rattle.std.specs.Option.{option_map};
ghost use Rattle.ps_world.specs.Counts.{Rose};
ghost use Rattle.ps_world.specs.Files.{IsFileAt};
ghost use Rattle.ps_world.specs.TreeState.{Balanced};
ghost use Rattle.fl_commands.specs.Writers.{AreFilesAt, ChangesOnly};
ghost use Rattle.sh_eval.specs.Contract.{CanTake, Drawn, Evaluates, IsSound, Seen, faults_of, point_of, seen_of};
ghost use Rattle.sh_eval.specs.Segments.{is_plain_place};
ghost use Rattle.sh_eval.specs.States.{on, puts, tells, write};
ghost use Rattle.sh_eval.specs.Teeing.{spreads, writes};
ghost use Rattle.sh_eval.specs.Writing.{added_to, kept as kept_def, written as written_def};
ghost use Rattle.sh_eval.specs.declared.session.Session.{Session};
ghost use Rattle.sh_eval.specs.declared.shell.Shell.{Shell};

use crate::flows::Flow;
use crate::outcomes::{How, goes_on};
use crate::session::{Pipes, Session};
use crate::streams::To;
use ps_world::{Mode, Path, Sink, Tree, WorldErr, write_all};

/// Writes a command's output.
pub(crate) fn put<T: Tree, O: Sink, E: Sink>(
    bytes: &[u8],
    session: &mut Session,
    tree: &mut T,
    out: &mut O,
    err: &mut E,
) -> How
    requires sound { IsSound session.old (T.state tree.old) }
    ensures streams { session.new.streams ≡ session.old.streams }
    ensures evaluates { (shell : Shell) (drawn : Drawn) (input : ℕ) → Evaluates (λ expansions state. on (puts bytes.now state))
        (point_of shell session.old (T.state tree.old) (seen_of drawn (O.taken out.old) (E.taken err.old))
        (faults_of input (O.faults out.old) (E.faults err.old) (T.faults tree.old)))
        result
        (point_of shell session.new (T.state tree.new) (seen_of drawn (O.taken out.new) (E.taken err.new))
        (faults_of input (O.faults out.new) (E.faults err.new) (T.faults tree.new))) }
{
    write_to(
        &session.streams.to,
        bytes,
        &mut session.pipes,
        tree,
        out,
        err,
    )
}

/// Writes a command's output, and the same behind what each of these files has.
pub(crate) fn spread<T: Tree, O: Sink, E: Sink>(
    files: &[Path],
    bytes: &[u8],
    session: &mut Session,
    tree: &mut T,
    out: &mut O,
    err: &mut E,
) -> How
    requires sound { IsSound session.old (T.state tree.old) }
    requires there { IfSome (T.state tree.old).held (λ held. AreFilesAt held files.now) }
    ensures { (shell : Shell) (drawn : Drawn) (input : ℕ) → Evaluates (λ expansions. spreads files.now bytes.now)
        (point_of shell session.old (T.state tree.old) (seen_of drawn (O.taken out.old) (E.taken err.old))
        (faults_of input (O.faults out.old) (E.faults err.old) (T.faults tree.old)))
        result
        (point_of shell session.new (T.state tree.new) (seen_of drawn (O.taken out.new) (E.taken err.new))
        (faults_of input (O.faults out.new) (E.faults err.new) (T.faults tree.new))) }
{
    let how = put(bytes, session, tree, out, err);
    if !goes_on(&how) {
        return how;
    }
    write_each(files, bytes, tree)
}

/// Writes bytes behind those of each of these files.
fn write_each<T: Tree>(files: &[Path], bytes: &[u8], tree: &mut T) -> How
    requires there { IfSome (T.state tree.old).held (λ held. AreFilesAt held files.now) }
    ensures { (shell : Shell) (session : Session) (seen : Seen) (input output errors : ℕ) → Evaluates (λ expansions state. on (writes files.now bytes.now state))
        (point_of shell session (T.state tree.old) seen (faults_of input output errors (T.faults tree.old)))
        result
        (point_of shell session (T.state tree.new) seen (faults_of input output errors (T.faults tree.new))) }
{
    for file in files {
        let how = kept(append_to(tree, file, bytes));
        if !goes_on(&how) {
            return how;
        }
    }
    How::Gone(Flow::On)
}

/// Writes a command's diagnostics.
pub(crate) fn tell<T: Tree, O: Sink, E: Sink>(
    line: &[u8],
    session: &mut Session,
    tree: &mut T,
    out: &mut O,
    err: &mut E,
) -> How
    requires sound { IsSound session.old (T.state tree.old) }
    ensures streams { session.new.streams ≡ session.old.streams }
    ensures aside { is_plain_place session.old.streams.errors_to ≡ true → T.state tree.new ≡ T.state tree.old }
    ensures evaluates { (shell : Shell) (drawn : Drawn) (input : ℕ) → Evaluates (λ expansions state. on (tells line.now state))
        (point_of shell session.old (T.state tree.old) (seen_of drawn (O.taken out.old) (E.taken err.old))
        (faults_of input (O.faults out.old) (E.faults err.old) (T.faults tree.old)))
        result
        (point_of shell session.new (T.state tree.new) (seen_of drawn (O.taken out.new) (E.taken err.new))
        (faults_of input (O.faults out.new) (E.faults err.new) (T.faults tree.new))) }
{
    write_to(
        &session.streams.errors_to,
        line,
        &mut session.pipes,
        tree,
        out,
        err,
    )
}

/// Writes bytes to a place.
pub(crate) fn write_to<T: Tree, O: Sink, E: Sink>(
    place: &To,
    bytes: &[u8],
    pipes: &mut Pipes,
    tree: &mut T,
    out: &mut O,
    err: &mut E,
) -> How
    requires there { IfSome (T.state tree.old).held (λ files. CanTake files place.now) }
    ensures aside { is_plain_place place.now ≡ true → T.state tree.new ≡ T.state tree.old }
    ensures evaluates { (shell : Shell) (session : Session) (drawn : Drawn) (input : ℕ) → session.pipes ≡ pipes.old
        → Evaluates (λ expansions state. on (write place.now bytes.now state))
        (point_of shell session (T.state tree.old) (seen_of drawn (O.taken out.old) (E.taken err.old))
        (faults_of input (O.faults out.old) (E.faults err.old) (T.faults tree.old)))
        result
        (point_of shell (record session { pipes = pipes.new }) (T.state tree.new) (seen_of drawn (O.taken out.new) (E.taken err.new))
        (faults_of input (O.faults out.new) (E.faults err.new) (T.faults tree.new))) }
{
    match place {
        To::Output => written(write_all(out, bytes)),
        To::Errors => written(write_all(err, bytes)),
        To::Pipe(number) => match pipes.append(*number, bytes) {
            Ok(()) => How::Gone(Flow::On),
            Err(_) => How::Memory,
        },
        To::File(path) => kept(append_to(tree, path, bytes)),
        To::Null => How::Gone(Flow::On),
    }
}

/// How a command goes on behind what it wrote to the standard output or error.
fn written(outcome: Result<(), WorldErr>) -> How
    ensures { result ≡ written_def outcome }
{
    match outcome {
        Ok(()) => How::Gone(Flow::On),
        Err(WorldErr::Failed) => How::WriteFault,
        Err(WorldErr::Memory) => How::Memory,
    }
}

/// How a command goes on behind what it wrote to a file.
fn kept(outcome: Result<(), WorldErr>) -> How
    ensures { result ≡ kept_def outcome }
{
    match outcome {
        Ok(()) => How::Gone(Flow::On),
        Err(WorldErr::Failed) => How::TreeFault,
        Err(WorldErr::Memory) => How::Memory,
    }
}

/// Writes bytes behind those of a file. The writer comes back on every way out.
fn append_to<T: Tree>(tree: &mut T, path: &Path, bytes: &[u8]) -> Result<(), WorldErr>
    requires there { IfSome (T.state tree.old).held (λ files. IsFileAt files path.now) }
    ensures held { OnOk result ((T.state tree.new).held ≡ option_map (added_to path.now bytes.now) (T.state tree.old).held) }
    ensures kept { ChangesOnly (path.now ∷ []) (T.state tree.old).held (T.state tree.new).held }
    ensures lent { Balanced (T.state tree.old) (T.state tree.new) }
    ensures later { T.faults tree.old ≤ T.faults tree.new }
    ensures ok { OnOk result (T.faults tree.new ≡ T.faults tree.old) }
    ensures failed { IsErrOf result WorldErr.Failed → Rose (T.faults tree.old) (T.faults tree.new) }
{
    let mut writer = tree.create(path, Mode::Append)?;
    match write_all(&mut writer, bytes) {
        Ok(()) => tree.end_write(path, writer),
        Err(error) => {
            let _ = tree.end_write(path, writer);
            Err(error)
        }
    }
}
