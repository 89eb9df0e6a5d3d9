//! Paths that are busy: a command reads or writes one that it writes too, or that an enclosing redirection writes or holds.
ghost use Rattle.std.specs.Prelude.{◌≡◌, [], ◌∷◌, ◌++◌, map, Some, OnOk};
ghost use Rattle.std.specs.List.{flat_map, list_any};
ghost use Rattle.std.specs.Option.{option_copied};
ghost use Rattle.ps_lines.specs.Texts.{texts_of};
ghost use Rattle.ps_world.specs.Counts.{Counts};
ghost use Rattle.sh_eval.specs.Redirections.{clashes as clashes_def, first_busy as first_busy_def, held_at, held_by, is_busy as is_busy_def, named_by, path_at as path_at_def, uses_by, uses_of, writes_by as writes_by_def};
ghost use Rattle.sh_eval.specs.States.{State};
ghost use Rattle.sh_eval.specs.Teeing.{written_use};
ghost use Rattle.sh_eval.specs.Utilities.{read_use};

use crate::streams::{Held, HeldPaths};
use crate::targets::Target;
use ps_lines::{Memory, Text};
use ps_world::{Path, Place, Tree, WorldErr, look};
use sh_tree::How;
use std::alloc::Global;

/// A use of a path by a command: it reads or writes it.
#[derive(Debug, Drop)]
pub struct Use {
    /// The path as written.
    pub text: Text,
    /// What it names.
    pub place: Place,
    pub writes: bool,
}

/// Looks up what redirections use, from the left, behind the uses that are known.
pub(crate) fn add_targets<T: Tree>(
    alloc: Global,
    targets: &[Target],
    uses: &mut Vec<Use>,
    tree: &mut T,
) -> Result<(), WorldErr>
    ensures ok { (state : State) → (T.state tree.old).held ≡ Some state.world.files → (T.state tree.old).home ≡ state.world.home
        → OnOk result (uses.new.items ≡ uses.old.items ++ uses_of state targets.now) }
    ensures state { T.state tree.new ≡ T.state tree.old }
    ensures cause { Counts (T.faults tree.old) (T.faults tree.new) result }
{
    for target in targets {
        add_target(alloc, target, uses, tree)?;
    }
    Ok(())
}

/// Looks up what a redirection uses.
fn add_target<T: Tree>(
    alloc: Global,
    target: &Target,
    uses: &mut Vec<Use>,
    tree: &mut T,
) -> Result<(), WorldErr>
    ensures ok { (state : State) → (T.state tree.old).held ≡ Some state.world.files → (T.state tree.old).home ≡ state.world.home
        → OnOk result (uses.new.items ≡ uses.old.items ++ uses_by state target.now (writes_by_def target.now.how)) }
    ensures state { T.state tree.new ≡ T.state tree.old }
    ensures cause { Counts (T.faults tree.old) (T.faults tree.new) result }
{
    match writes_by(target.how) {
        Some(writes) => add_use(alloc, target.text.as_slice(), writes, uses, tree),
        None => Ok(()),
    }
}

/// Looks up what the operands of a utility use, from the left, behind the uses that are known: each but `-` is read.
pub(crate) fn add_operands<T: Tree>(
    alloc: Global,
    texts: &[Vec<u8>],
    uses: &mut Vec<Use>,
    tree: &mut T,
) -> Result<(), WorldErr>
    ensures ok { (state : State) → (T.state tree.old).held ≡ Some state.world.files → (T.state tree.old).home ≡ state.world.home
        → OnOk result (uses.new.items ≡ uses.old.items ++ flat_map (read_use state) (texts_of texts.now)) }
    ensures state { T.state tree.new ≡ T.state tree.old }
    ensures cause { Counts (T.faults tree.old) (T.faults tree.new) result }
{
    for text in texts {
        add_operand(alloc, text.as_slice(), uses, tree)?;
    }
    Ok(())
}

/// Looks up what an operand uses.
fn add_operand<T: Tree>(
    alloc: Global,
    text: &[u8],
    uses: &mut Vec<Use>,
    tree: &mut T,
) -> Result<(), WorldErr>
    ensures ok { (state : State) → (T.state tree.old).held ≡ Some state.world.files → (T.state tree.old).home ≡ state.world.home
        → OnOk result (uses.new.items ≡ uses.old.items ++ read_use state text.now) }
    ensures state { T.state tree.new ≡ T.state tree.old }
    ensures cause { Counts (T.faults tree.old) (T.faults tree.new) result }
{
    if text == b"-".as_slice() {
        return Ok(());
    }
    add_use(alloc, text, false, uses, tree)
}

/// Looks up what the files that tee writes use, from the left, behind the uses that are known.
pub(crate) fn add_files<T: Tree>(
    alloc: Global,
    texts: &[Vec<u8>],
    uses: &mut Vec<Use>,
    tree: &mut T,
) -> Result<(), WorldErr>
    ensures ok { (state : State) → (T.state tree.old).held ≡ Some state.world.files → (T.state tree.old).home ≡ state.world.home
        → OnOk result (uses.new.items ≡ uses.old.items ++ map (written_use state) (texts_of texts.now)) }
    ensures state { T.state tree.new ≡ T.state tree.old }
    ensures cause { Counts (T.faults tree.old) (T.faults tree.new) result }
{
    for text in texts {
        add_use(alloc, text.as_slice(), true, uses, tree)?;
    }
    Ok(())
}

/// Whether a redirection writes its path, if it uses one.
fn writes_by(how: How) -> Option<bool>
    ensures { result ≡ writes_by_def how }
{
    match how {
        How::Read => Some(false),
        How::Write | How::Append => Some(true),
        How::Copy => None,
    }
}

/// Looks up a path that a command reads or writes, behind the uses that are known.
pub(crate) fn add_use<T: Tree>(
    alloc: Global,
    text: &[u8],
    writes: bool,
    uses: &mut Vec<Use>,
    tree: &mut T,
) -> Result<(), WorldErr>
    ensures ok { (state : State) → (T.state tree.old).held ≡ Some state.world.files → (T.state tree.old).home ≡ state.world.home
        → OnOk result (uses.new.items ≡ uses.old.items ++ record { text = text.now; place = named_by state text.now; writes = writes } ∷ []) }
    ensures state { T.state tree.new ≡ T.state tree.old }
    ensures cause { Counts (T.faults tree.old) (T.faults tree.new) result }
{
    let place = look(alloc, tree, text)?;
    let text = Text::copy_of(alloc, text)?;
    uses.push(Use {
        text,
        place,
        writes,
    })?;
    Ok(())
}

/// The first use whose path is busy, as written.
pub(crate) fn first_busy<'a>(held: &HeldPaths, uses: &'a [Use]) -> Option<&'a [u8]>
    ensures { option_copied result ≡ first_busy_def held.now uses.now }
{
    let mut left = uses;
    while let [first, rest @ ..] = left {
        if is_busy(held, rest, first) {
            return Some(first.text.as_slice());
        }
        left = rest;
    }
    None
}

/// Whether the path of a use is held, or used again.
fn is_busy(held: &HeldPaths, uses: &[Use], this: &Use) -> bool
    ensures { result ≡ is_busy_def held.now uses.now this.now.writes (path_at_def this.now.place) }
{
    match path_at(&this.place) {
        Some(path) => is_held(held.as_slice(), this.writes, path)
            || is_used(uses, this.writes, path),
        None => false,
    }
}

/// The path of a place, whether or not a file is there.
fn path_at(place: &Place) -> Option<&Path>
    ensures { option_copied result ≡ path_at_def place.now }
{
    match place {
        Place::Makeable(path) => Some(path),
        Place::Dir(path) => Some(path),
        Place::File(path) => Some(path),
        Place::Missing => None,
        Place::Null => None,
    }
}

/// Whether the path is held, and is written here or there.
fn is_held(held: &[Held], writes: bool, path: &Path) -> bool
    ensures { result ≡ list_any (λ other. clashes_def writes path.now other.writes (Some other.path)) held.now }
{
    held.iter().any(|other| clashes(writes, path, other.writes, Some(&other.path)))
}

/// Whether the path is used, and is written here or there.
fn is_used(uses: &[Use], writes: bool, path: &Path) -> bool
    ensures { result ≡ list_any (λ other. clashes_def writes path.now other.writes (path_at_def other.place)) uses.now }
{
    uses.iter().any(|other| clashes(writes, path, other.writes, path_at(&other.place)))
}

/// Whether both are at the path, and one of them writes it.
fn clashes(writes: bool, path: &Path, also: bool, other: Option<&Path>) -> bool
    ensures { result ≡ clashes_def writes path.now also (option_copied other.entry) }
{
    match other {
        Some(other) => path == other && (writes || also),
        None => false,
    }
}

/// Has a compound command hold the paths that its redirections use.
pub(crate) fn hold(uses: &[Use], held: &mut HeldPaths) -> Result<(), Memory>
    ensures { OnOk result (held.new ≡ held.old ++ held_by uses.now) }
{
    for used in uses {
        hold_use(used, held)?;
    }
    Ok(())
}

/// Has a compound command hold the path of a use.
fn hold_use(used: &Use, held: &mut HeldPaths) -> Result<(), Memory>
    ensures { OnOk result (held.new ≡ held.old ++ held_at (path_at_def used.now.place) used.now.writes) }
{
    match path_at(&used.place) {
        Some(path) => held.push(path, used.writes),
        None => Ok(()),
    }
}
