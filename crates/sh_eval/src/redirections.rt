//! Redirections, one after the other (XCU 2.7).
ghost use Rattle.std.specs.Prelude.{◌≡◌, ℕ, codes, false, IfOk, IfSome, OnErr, OnOk, None, Some, if◌then◌else◌};
ghost use Rattle.ps_world.specs.Files.{CanBeMade, NoWriterOut};
ghost use Rattle.ps_world.specs.Places.{StandsIn};
ghost use Rattle.sh_eval.specs.Contract.{Faults, Seen, faults_of, point_of};
ghost use Rattle.sh_eval.specs.Lines.{diagnostic as diagnostic_def};
ghost use Rattle.sh_eval.specs.Reaching.{DoesAll, Remembers, RemembersSome, has_read};
ghost use Rattle.sh_eval.specs.Redirecting.{Does, TellsLine, of_tree as of_tree_def};
ghost use Rattle.sh_eval.specs.Redirections.{file_begun, is_read, leading, led_to as led_to_def, named_by, reading_at, redirected, writing_at};
ghost use Rattle.sh_eval.specs.States.{in_world};
ghost use Rattle.ps_world.specs.TreeState.{TreeState};
ghost use Rattle.sh_eval.specs.declared.shell.Shell.{Shell};

use crate::files::{begin_file, read_file};
use crate::leading::{Before, lead, led_to, read_instead};
use crate::lines::{IS_A_DIRECTORY, NO_SUCH_FILE, diagnostic};
use crate::rests::Rest;
use crate::session::Session;
use crate::stops::RedirectionError;
use crate::streams::{From, To};
use crate::targets::Target;
use ps_lines::Text;
use ps_world::{Path, Place, Tree, WorldErr, look};
use sh_tree::How;
use std::alloc::Global;

/// Does redirections, one after the other, up to the first that stops. `before` keeps what descriptor 0 read.
pub(crate) fn redirect_all<T: Tree>(
    alloc: Global,
    targets: &[Target],
    before: &mut Before,
    session: &mut Session,
    tree: &mut T,
) -> Result<(), RedirectionError>
    requires whole { IfSome (T.state tree.old).held NoWriterOut }
    requires fresh { before.old.from ≡ None }
    ensures does { (shell : Shell) (seen : Seen) (input output errors : ℕ) → DoesAll targets.now
        (point_of shell session.old (T.state tree.old) seen (faults_of input output errors (T.faults tree.old)))
        (point_of shell session.new (T.state tree.new) seen (faults_of input output errors (T.faults tree.new))) result }
    ensures ok { OnOk result (Remembers (has_read targets.now) session.old.streams.from session.new.streams.from before.old before.new) }
    ensures err { OnErr result (RemembersSome targets.now session.old.streams.from session.new.streams.from before.old before.new) }
{
    for target in targets {
        match redirect(alloc, target, session, tree) {
            Ok(read) => before.keep_read(read),
            Err(stop) => return Err(stop),
        }
    }
    Ok(())
}

/// Does a redirection, and gives what descriptor 0 read where it reads something else now.
fn redirect<T: Tree>(
    alloc: Global,
    target: &Target,
    session: &mut Session,
    tree: &mut T,
) -> Result<Option<From>, RedirectionError>
    requires whole { IfSome (T.state tree.old).held NoWriterOut }
    ensures does { (shell : Shell) (seen : Seen) (input output errors : ℕ) → Does (λ state. redirected target.now target.now.how (named_by state target.now.text) state)
        (point_of shell session.old (T.state tree.old) seen (faults_of input output errors (T.faults tree.old)))
        (point_of shell session.new (T.state tree.new) seen (faults_of input output errors (T.faults tree.new))) result }
    ensures from { IfOk result (λ read. read ≡ (if is_read target.now.how then Some session.old.streams.from else None)) }
    ensures kept { OnOk result (is_read target.now.how ≡ false → session.new.streams.from ≡ session.old.streams.from) }
    ensures unchanged { OnErr result (session.new ≡ session.old) }
{
    let text = target.text.as_slice();
    match target.how {
        How::Read => read_from(alloc, text, session, tree),
        How::Write => write_to_file(alloc, true, target.number, text, session, tree),
        How::Append => write_to_file(alloc, false, target.number, text, session, tree),
        How::Copy => copy(target.number, text, session),
    }
}

/// Has descriptor 0 read a file, and gives what it read.
fn read_from<T: Tree>(
    alloc: Global,
    text: &[u8],
    session: &mut Session,
    tree: &mut T,
) -> Result<Option<From>, RedirectionError>
    requires whole { IfSome (T.state tree.old).held NoWriterOut }
    ensures does { (shell : Shell) (seen : Seen) (input output errors : ℕ) → Does (λ state. reading_at text.now (named_by state text.now) state)
        (point_of shell session.old (T.state tree.old) seen (faults_of input output errors (T.faults tree.old)))
        (point_of shell session.new (T.state tree.new) seen (faults_of input output errors (T.faults tree.new))) result }
    ensures from { IfOk result (λ read. read ≡ Some session.old.streams.from) }
    ensures unchanged { OnErr result (session.new ≡ session.old) }
{
    match look(alloc, tree, text) {
        Ok(place) => read_at(alloc, text, &place, session, tree),
        Err(error) => Err(of_tree(error)),
    }
}

/// Has descriptor 0 read what stands at a place.
fn read_at<T: Tree>(
    alloc: Global,
    text: &[u8],
    place: &Place,
    session: &mut Session,
    tree: &mut T,
) -> Result<Option<From>, RedirectionError>
    requires whole { IfSome (T.state tree.old).held NoWriterOut }
    requires stands { IfSome (T.state tree.old).held (λ files. StandsIn files place.now) }
    ensures does { (shell : Shell) (seen : Seen) (input output errors : ℕ) → Does (reading_at text.now place.now)
        (point_of shell session.old (T.state tree.old) seen (faults_of input output errors (T.faults tree.old)))
        (point_of shell session.new (T.state tree.new) seen (faults_of input output errors (T.faults tree.new))) result }
    ensures from { IfOk result (λ read. read ≡ Some session.old.streams.from) }
    ensures unchanged { OnErr result (session.new ≡ session.old) }
{
    match place {
        Place::Missing => Err(line_of(alloc, text, NO_SUCH_FILE)),
        Place::Makeable(_) => Err(line_of(alloc, text, NO_SUCH_FILE)),
        Place::Dir(_) => Err(line_of(alloc, text, IS_A_DIRECTORY)),
        Place::File(path) => match read_file(alloc, tree, path) {
            Ok(bytes) => Ok(Some(read_instead(Rest::of(bytes), session))),
            Err(error) => Err(of_tree(error)),
        },
        Place::Null => Ok(Some(read_instead(Rest::of(Vec::new(alloc)), session))),
    }
}

/// Has a descriptor write a file: anew, or behind the bytes that it has.
fn write_to_file<T: Tree>(
    alloc: Global,
    anew: bool,
    number: u8,
    text: &[u8],
    session: &mut Session,
    tree: &mut T,
) -> Result<Option<From>, RedirectionError>
    requires whole { IfSome (T.state tree.old).held NoWriterOut }
    ensures does { (shell : Shell) (seen : Seen) (input output errors : ℕ) → Does (λ state. writing_at anew number text.now (named_by state text.now) state)
        (point_of shell session.old (T.state tree.old) seen (faults_of input output errors (T.faults tree.old)))
        (point_of shell session.new (T.state tree.new) seen (faults_of input output errors (T.faults tree.new))) result }
    ensures from { IfOk result (λ read. read ≡ None) }
    ensures kept { OnOk result (session.new.streams.from ≡ session.old.streams.from) }
    ensures unchanged { OnErr result (session.new ≡ session.old) }
{
    match look(alloc, tree, text) {
        Ok(place) => write_at(alloc, anew, number, text, place, session, tree),
        Err(error) => Err(of_tree(error)),
    }
}

/// Has a descriptor write what stands at a place.
fn write_at<T: Tree>(
    alloc: Global,
    anew: bool,
    number: u8,
    text: &[u8],
    place: Place,
    session: &mut Session,
    tree: &mut T,
) -> Result<Option<From>, RedirectionError>
    requires whole { IfSome (T.state tree.old).held NoWriterOut }
    requires stands { IfSome (T.state tree.old).held (λ files. StandsIn files place) }
    ensures does { (shell : Shell) (seen : Seen) (input output errors : ℕ) → Does (writing_at anew number text.now place)
        (point_of shell session.old (T.state tree.old) seen (faults_of input output errors (T.faults tree.old)))
        (point_of shell session.new (T.state tree.new) seen (faults_of input output errors (T.faults tree.new))) result }
    ensures from { IfOk result (λ read. read ≡ None) }
    ensures kept { OnOk result (session.new.streams.from ≡ session.old.streams.from) }
    ensures unchanged { OnErr result (session.new ≡ session.old) }
{
    match place {
        Place::Missing => Err(line_of(alloc, text, NO_SUCH_FILE)),
        Place::Makeable(path) => lead_to_file(anew, number, path, session, tree),
        Place::Dir(_) => Err(line_of(alloc, text, IS_A_DIRECTORY)),
        Place::File(path) => lead_to_file(anew, number, path, session, tree),
        Place::Null => {
            lead(number, To::Null, session);
            Ok(None)
        }
    }
}

/// Begins a file, and has a descriptor lead to its end.
fn lead_to_file<T: Tree>(
    anew: bool,
    number: u8,
    path: Path,
    session: &mut Session,
    tree: &mut T,
) -> Result<Option<From>, RedirectionError>
    requires made { IfSome (T.state tree.old).held (λ files. CanBeMade files path) }
    ensures does { (shell : Shell) (seen : Seen) (input output errors : ℕ) → Does (λ state. leading number (To.File path) (in_world (file_begun anew path) state))
        (point_of shell session.old (T.state tree.old) seen (faults_of input output errors (T.faults tree.old)))
        (point_of shell session.new (T.state tree.new) seen (faults_of input output errors (T.faults tree.new))) result }
    ensures from { IfOk result (λ read. read ≡ None) }
    ensures kept { OnOk result (session.new.streams.from ≡ session.old.streams.from) }
    ensures unchanged { OnErr result (session.new ≡ session.old) }
{
    match begin_file(anew, &path, tree) {
        Ok(()) => {
            lead(number, To::File(path), session);
            Ok(None)
        }
        Err(error) => Err(of_tree(error)),
    }
}

/// Has a descriptor lead where another leads.
fn copy(number: u8, text: &[u8], session: &mut Session) -> Result<Option<From>, RedirectionError>
    ensures does { (shell : Shell) (tree : TreeState) (seen : Seen) (faults : Faults) → Does (λ state. leading number (led_to_def text.now state.session.streams) state)
        (point_of shell session.old tree seen faults) (point_of shell session.new tree seen faults) result }
    ensures from { IfOk result (λ read. read ≡ None) }
    ensures kept { OnOk result (session.new.streams.from ≡ session.old.streams.from) }
    ensures unchanged { OnErr result (session.new ≡ session.old) }
{
    match led_to(text, &session.streams) {
        Ok(place) => {
            lead(number, place, session);
            Ok(None)
        }
        Err(_) => Err(RedirectionError::Memory),
    }
}

/// The line of why a path can't be read or written.
fn line_of(alloc: Global, text: &[u8], reason: &[u8]) -> RedirectionError
    ensures { TellsLine result (diagnostic_def (codes "pash") text.now reason.now) }
{
    match diagnostic(alloc, b"pash", text, reason) {
        Ok(line) => RedirectionError::Line(Text::from_vec(line)),
        Err(_) => RedirectionError::Memory,
    }
}

/// Why a redirection isn't done where the tree failed.
fn of_tree(error: WorldErr) -> RedirectionError
    ensures { result ≡ of_tree_def error }
{
    match error {
        WorldErr::Failed => RedirectionError::Tree,
        WorldErr::Memory => RedirectionError::Memory,
    }
}
