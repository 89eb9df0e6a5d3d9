//! tee (XCU tee): its input goes to its output, and to files that are begun before.
ghost use Rattle.std.specs.Prelude.{◌≡◌, true, IfErr, IfOk, IfSome, OnOk};
ghost use Rattle.ps_lines.specs.Texts.{texts_of};
ghost use Rattle.ps_world.specs.Files.{CanBeMade, NoWriterOut};
ghost use Rattle.ps_world.specs.Places.{StandsIn};
ghost use Rattle.ut_args.specs.Invocations.{command_of};
ghost use Rattle.fl_segments.specs.Stages.{is_tee as is_tee_def};
ghost use Rattle.fl_commands.specs.Writers.{AreFilesAt};
ghost use Rattle.sh_eval.specs.Contract.{Evaluates, IsSound, drawn_of, faults_of, point_of, seen_of};
ghost use Rattle.sh_eval.specs.Inner.Inputs.{called_by};
ghost use Rattle.sh_eval.specs.Inner.Teeing.{Begins, Fails, made_of};
ghost use Rattle.sh_eval.specs.Lines.{diagnostic as diagnostic_def};
ghost use Rattle.sh_eval.specs.Redirections.{file_begun};
ghost use Rattle.sh_eval.specs.States.{in_world};
ghost use Rattle.sh_eval.specs.Teeing.{begins_anew as begins_anew_def, copies, making, making_at, making_one, none_made, status_by, tees, tells_and_copies, with_file, without};

use crate::files::begin_file;
use crate::lines::{IS_A_DIRECTORY, NO_SUCH_FILE};
use crate::outcomes::{How, Played, goes_on, how_of};
use crate::session::Session;
use crate::shell::Shell;
use crate::utilities::{Task, add_reason, run_task, tell_some};
use fl_engines::Engine;
use ps_world::{Gate, Path, Place, Sink, Source, Tree, look};
use std::alloc::Global;
use ut_args::Inv;

/// The files of a tee that are begun.
#[derive(Drop)]
pub(crate) struct Begun {
    /// Where its input goes beside its output.
    pub(crate) files: Vec<Path>,
    /// The lines of the files that can't be made.
    pub(crate) lines: Vec<u8>,
    /// Whether all could be made.
    pub(crate) is_whole: bool,
}

/// Whether an invocation is that of tee.
pub(crate) fn is_tee(inv: &Inv) -> bool
    ensures { result ≡ is_tee_def inv.now }
{
    matches!(inv, Inv::Tee(_))
}

/// Runs tee. Its files are begun, in their order, before anything is read.
pub(crate) fn run_tee<T: Tree, I: Source + Send, O: Sink + Send, E: Sink, G: Gate, X: Engine>(
    alloc: Global,
    name: &[u8],
    inv: &Inv,
    shell: &mut Shell,
    session: &mut Session,
    tree: &mut T,
    input: I,
    out: O,
    err: &mut E,
    gate: &G,
    engine: &mut X,
) -> Played<I, O>
    requires tee { is_tee_def inv.now ≡ true }
    requires sound { IsSound session.old (T.state tree.old) }
    ensures { Evaluates (λ expansions. tees name.now (called_by inv.now))
        (point_of shell.old session.old (T.state tree.old) (seen_of (drawn_of (I.left input) (X.used engine.old)) (O.taken out) (E.taken err.old))
        (faults_of (I.faults input) (O.faults out) (E.faults err.old) (T.faults tree.old)))
        result.how
        (point_of shell.new session.new (T.state tree.new) (seen_of (drawn_of (I.left result.input) (X.used engine.new)) (O.taken result.out) (E.taken err.new))
        (faults_of (I.faults result.input) (O.faults result.out) (E.faults err.new) (T.faults tree.new))) }
{
    match begin_all(alloc, begins_anew(inv), name, inv.files_written(), tree) {
        Ok(begun) => tell_and_copy(
            alloc, inv, &begun, shell, session, tree, input, out, err, gate, engine,
        ),
        Err(how) => Played { how, input, out },
    }
}

/// Whether tee begins its files anew: not with -a.
fn begins_anew(inv: &Inv) -> bool
    ensures { result ≡ begins_anew_def (command_of inv.now) }
{
    match inv {
        Inv::Tee(tee) => !tee.args.appends,
        _ => true,
    }
}

/// Begins files, one after the other.
fn begin_all<T: Tree>(
    alloc: Global,
    anew: bool,
    name: &[u8],
    texts: &[Vec<u8>],
    tree: &mut T,
) -> Result<Begun, How>
    requires whole { IfSome (T.state tree.old).held NoWriterOut }
    ensures begins { IfOk result (λ begun.
        Begins (making anew name.now (texts_of texts.now) none_made) (λ next. next (made_of begun)) (T.state tree.old) (T.state tree.new)) }
    ensures there { IfOk result (λ begun. IfSome (T.state tree.new).held (λ held. AreFilesAt held begun.files.items)) }
    ensures calm { OnOk result (T.faults tree.new ≡ T.faults tree.old) }
    ensures err { IfErr result (λ how. Fails (making anew name.now (texts_of texts.now) none_made) how (T.state tree.old) (T.state tree.new) (T.faults tree.old) (T.faults tree.new)) }
{
    let mut begun = Begun {
        files: Vec::new(alloc),
        lines: Vec::new(alloc),
        is_whole: true,
    };
    for text in texts {
        match begin_one(alloc, anew, name, text.as_slice(), &mut begun, tree) {
            Ok(()) => {}
            Err(how) => return Err(how),
        }
    }
    Ok(begun)
}

/// Begins a file, or tells why it can't be made.
fn begin_one<T: Tree>(
    alloc: Global,
    anew: bool,
    name: &[u8],
    text: &[u8],
    begun: &mut Begun,
    tree: &mut T,
) -> Result<(), How>
    requires whole { IfSome (T.state tree.old).held NoWriterOut }
    ensures begins { OnOk result (Begins (making_one anew name.now text.now (made_of begun.old)) (λ next. next (made_of begun.new)) (T.state tree.old) (T.state tree.new)) }
    ensures there { OnOk result (IfSome (T.state tree.old).held (λ held. AreFilesAt held begun.old.files.items) → IfSome (T.state tree.new).held (λ held. AreFilesAt held begun.new.files.items)) }
    ensures calm { OnOk result (T.faults tree.new ≡ T.faults tree.old) }
    ensures err { IfErr result (λ how. Fails (making_one anew name.now text.now (made_of begun.old)) how (T.state tree.old) (T.state tree.new) (T.faults tree.old) (T.faults tree.new)) }
{
    match look(alloc, tree, text) {
        Ok(place) => begin_at(alloc, anew, name, text, place, begun, tree),
        Err(error) => Err(how_of(error)),
    }
}

/// Begins the file at a place, or tells why none can be made there.
fn begin_at<T: Tree>(
    alloc: Global,
    anew: bool,
    name: &[u8],
    text: &[u8],
    place: Place,
    begun: &mut Begun,
    tree: &mut T,
) -> Result<(), How>
    requires whole { IfSome (T.state tree.old).held NoWriterOut }
    requires stands { IfSome (T.state tree.old).held (λ files. StandsIn files place) }
    ensures begins { OnOk result (Begins (making_at anew name.now text.now place (made_of begun.old)) (λ next. next (made_of begun.new)) (T.state tree.old) (T.state tree.new)) }
    ensures there { OnOk result (IfSome (T.state tree.old).held (λ held. AreFilesAt held begun.old.files.items) → IfSome (T.state tree.new).held (λ held. AreFilesAt held begun.new.files.items)) }
    ensures calm { OnOk result (T.faults tree.new ≡ T.faults tree.old) }
    ensures err { IfErr result (λ how. Fails (making_at anew name.now text.now place (made_of begun.old)) how (T.state tree.old) (T.state tree.new) (T.faults tree.old) (T.faults tree.new)) }
{
    match place {
        Place::Missing => leave_out(alloc, name, text, NO_SUCH_FILE, begun),
        Place::Makeable(path) => begin_path(anew, path, begun, tree),
        Place::Dir(_) => leave_out(alloc, name, text, IS_A_DIRECTORY, begun),
        Place::File(path) => begin_path(anew, path, begun, tree),
        Place::Null => Ok(()),
    }
}

/// Begins the file at a path.
fn begin_path<T: Tree>(anew: bool, path: Path, begun: &mut Begun, tree: &mut T) -> Result<(), How>
    requires made { IfSome (T.state tree.old).held (λ files. CanBeMade files path) }
    ensures begins { OnOk result (Begins (λ next state. next (with_file path (made_of begun.old)) (in_world (file_begun anew path) state)) (λ next. next (made_of begun.new))
        (T.state tree.old) (T.state tree.new)) }
    ensures there { OnOk result (IfSome (T.state tree.old).held (λ held. AreFilesAt held begun.old.files.items) → IfSome (T.state tree.new).held (λ held. AreFilesAt held begun.new.files.items)) }
    ensures calm { OnOk result (T.faults tree.new ≡ T.faults tree.old) }
    ensures err { IfErr result (λ how. Fails (λ next state. next (with_file path (made_of begun.old)) (in_world (file_begun anew path) state)) how (T.state tree.old) (T.state tree.new) (T.faults tree.old) (T.faults tree.new)) }
{
    match begin_file(anew, &path, tree) {
        Ok(()) => add_file(path, begun),
        Err(error) => Err(how_of(error)),
    }
}

/// Puts a file behind the others.
fn add_file(path: Path, begun: &mut Begun) -> Result<(), How>
    ensures added { OnOk result (made_of begun.new ≡ with_file path (made_of begun.old)) }
    ensures memory { IfErr result (λ how. how ≡ How.Memory) }
{
    match begun.files.push(path) {
        Ok(()) => Ok(()),
        Err(_) => Err(How::Memory),
    }
}

/// Puts the line of why a file can't be made behind the others.
fn leave_out(
    alloc: Global,
    name: &[u8],
    text: &[u8],
    reason: &[u8],
    begun: &mut Begun,
) -> Result<(), How>
    ensures added { OnOk result (made_of begun.new ≡ without (diagnostic_def name.now text.now reason.now) (made_of begun.old)) }
    ensures memory { IfErr result (λ how. how ≡ How.Memory) }
{
    begun.is_whole = false;
    match add_reason(alloc, name, text, reason, &mut begun.lines) {
        Ok(()) => Ok(()),
        Err(_) => Err(How::Memory),
    }
}

/// Tells which files can't be made, and copies the input to the output and the others.
fn tell_and_copy<T: Tree, I: Source + Send, O: Sink + Send, E: Sink, G: Gate, X: Engine>(
    alloc: Global,
    inv: &Inv,
    begun: &Begun,
    shell: &mut Shell,
    session: &mut Session,
    tree: &mut T,
    input: I,
    out: O,
    err: &mut E,
    gate: &G,
    engine: &mut X,
) -> Played<I, O>
    requires tee { is_tee_def inv.now ≡ true }
    requires sound { IsSound session.old (T.state tree.old) }
    requires there { IfSome (T.state tree.old).held (λ held. AreFilesAt held begun.now.files.items) }
    ensures { Evaluates (λ expansions. tells_and_copies (called_by inv.now) (made_of begun.now))
        (point_of shell.old session.old (T.state tree.old) (seen_of (drawn_of (I.left input) (X.used engine.old)) (O.taken out) (E.taken err.old))
        (faults_of (I.faults input) (O.faults out) (E.faults err.old) (T.faults tree.old)))
        result.how
        (point_of shell.new session.new (T.state tree.new) (seen_of (drawn_of (I.left result.input) (X.used engine.new)) (O.taken result.out) (E.taken err.new))
        (faults_of (I.faults result.input) (O.faults result.out) (E.faults err.new) (T.faults tree.new))) }
{
    let mut out = out;
    let how = tell_some(begun.lines.as_slice(), session, tree, &mut out, err);
    if !goes_on(&how) {
        return Played { how, input, out };
    }
    copy(
        alloc,
        inv,
        begun.files.as_slice(),
        begun.is_whole,
        shell,
        session,
        tree,
        input,
        out,
        err,
        gate,
        engine,
    )
}

/// Copies the input to the output and to these files.
fn copy<T: Tree, I: Source + Send, O: Sink + Send, E: Sink, G: Gate, X: Engine>(
    alloc: Global,
    inv: &Inv,
    files: &[Path],
    is_whole: bool,
    shell: &mut Shell,
    session: &mut Session,
    tree: &mut T,
    input: I,
    out: O,
    err: &mut E,
    gate: &G,
    engine: &mut X,
) -> Played<I, O>
    requires tee { is_tee_def inv.now ≡ true }
    requires sound { IsSound session.old (T.state tree.old) }
    requires there { IfSome (T.state tree.old).held (λ held. AreFilesAt held files.now) }
    ensures { Evaluates (λ expansions. copies (called_by inv.now) files.now is_whole)
        (point_of shell.old session.old (T.state tree.old) (seen_of (drawn_of (I.left input) (X.used engine.old)) (O.taken out) (E.taken err.old))
        (faults_of (I.faults input) (O.faults out) (E.faults err.old) (T.faults tree.old)))
        result.how
        (point_of shell.new session.new (T.state tree.new) (seen_of (drawn_of (I.left result.input) (X.used engine.new)) (O.taken result.out) (E.taken err.new))
        (faults_of (I.faults result.input) (O.faults result.out) (E.faults err.new) (T.faults tree.new))) }
{
    run_task(
        alloc,
        Task::Tee(inv, status_of(is_whole)),
        files,
        shell,
        session,
        tree,
        input,
        out,
        err,
        gate,
        engine,
    )
}

/// The status of tee: 1 where a file couldn't be made.
fn status_of(is_whole: bool) -> u8
    ensures { result ≡ status_by is_whole }
{
    if is_whole { 0 } else { 1 }
}
