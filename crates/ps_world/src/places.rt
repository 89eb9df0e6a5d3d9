//! What a path, as a script writes it, names.
ghost use Rattle.std.specs.Prelude.{◌≡◌, ◌<◌, false, length, position, IfOk, IfSome, IfNone, IsOk, Some, None};
ghost use Rattle.ps_world.specs.Counts.{Counts};
ghost use Rattle.ps_world.specs.Files.{Files, kind_at};
ghost use Rattle.ps_world.specs.Paths.{Components, components, is_slash, parent_of, stays, goes_up, has_slash};
ghost use Rattle.ps_world.specs.Places.{enter as enter_def, ending_at as ending_at_def, last_place as last_place_def, makeable as makeable_def, IsDirIfTold, IsNoNullPath, needs_files, resolve_from, nulled as nulled_def, start_of as start_of_def, resolve, StandsIn, IsLastComponent, BeginsWithComponent};

use crate::components::{is_going_up, is_staying, split_component};
use crate::error::WorldErr;
use crate::path::Path;
use crate::tree::{Kind, Tree};
use std::alloc::{AllocError, Global};

/// What a path names (XBD 4.13).
#[derive(Debug, PartialEq, Drop)]
pub enum Place {
    /// Nothing, and nothing can be made there.
    Missing,
    /// Nothing yet: a name that no file has, in a directory.
    Makeable(Path),
    Dir(Path),
    File(Path),
    /// The device `/dev/null`, which holds nothing and takes everything.
    Null,
}

/// Where a path has led, and whether the tree has told that a directory is there.
#[derive(Drop)]
struct Stand {
    path: Path,
    is_told: bool,
}

const NULL_DEVICE: &[u8] = b"/dev/null";

/// Resolves a path as a script writes it.
///
/// A text that begins with a slash starts at the root, another at the tree's working directory. `.` stays, `..` goes to the parent and
/// stays at the root, and every component but the last must name a directory; so a slash after a file's name leads nowhere.
/// The text `/dev/null`, and every other that leads to that path, is the null device.
///
/// The tree is asked what stands at the last place, and where nothing does what is above it. The empty text and `/dev/null` ask it
/// nothing.
pub fn look<T: Tree>(alloc: Global, tree: &mut T, text: &[u8]) -> Result<Place, WorldErr>
    ensures place { IfOk result (λ place. IfSome (T.state tree.old).held (λ files.
        place ≡ resolve files (T.state tree.old).home text.now)) }
    ensures stands { IfOk result (λ place. IfSome (T.state tree.old).held (λ files. StandsIn files place)) }
    ensures apart { IfOk result IsNoNullPath }
    ensures plain { needs_files text.now ≡ false → IfOk result (λ place.
        (files : Files) (home : Components) → place ≡ resolve files home text.now) }
    ensures told { needs_files text.now ≡ false → IsOk result }
    ensures unasked { needs_files text.now ≡ false → tree.new ≡ tree.old }
    ensures state { T.state tree.new ≡ T.state tree.old }
    ensures cause { Counts (T.faults tree.old) (T.faults tree.new) result }
{
    if text.is_empty() {
        return Ok(Place::Missing);
    }
    if text == NULL_DEVICE {
        return Ok(Place::Null);
    }
    let start = start_of(alloc, tree, text)?;
    let place = walk(alloc, tree, start, text)?;
    Ok(nulled(place))
}

/// Where the resolution of a text starts.
fn start_of<T: Tree>(alloc: Global, tree: &T, text: &[u8]) -> Result<Path, AllocError>
    ensures start { IfOk result (λ start. start ≡ start_of_def (T.state tree.now).home text.now) }
{
    match text {
        [b'/', ..] => Ok(Path::root(alloc)),
        _ => tree.home().copy(),
    }
}

/// Follows a text's components from a directory.
fn walk<T: Tree>(alloc: Global, tree: &mut T, start: Path, text: &[u8]) -> Result<Place, WorldErr>
    ensures place { IfOk result (λ place. IfSome (T.state tree.old).held (λ files.
        place ≡ resolve_from files start (components text.now))) }
    ensures state { T.state tree.new ≡ T.state tree.old }
    ensures cause { Counts (T.faults tree.old) (T.faults tree.new) result }
{
    let mut stand = Stand {
        path: start,
        is_told: false,
    };
    let mut left = text;
    while let Some((component, rest)) = split_component(left) {
        match enter(alloc, tree, stand, component)? {
            Some(inner) => stand = inner,
            None => return Ok(Place::Missing),
        }
        left = rest;
    }
    last_place(alloc, tree, stand, left)
}

/// The directory that a component leads to, where it leads to one.
fn enter<T: Tree>(
    alloc: Global,
    tree: &mut T,
    stand: Stand,
    component: &[u8],
) -> Result<Option<Stand>, WorldErr>
    requires part { has_slash component.now ≡ false }
    requires told { IsDirIfTold (T.state tree.old).held stand.is_told stand.path }
    ensures inner { IfOk result (λ inner. IfSome inner (λ next. IfSome (T.state tree.old).held (λ files.
        enter_def files stand.path component.now ≡ Some next.path))) }
    ensures none { IfOk result (λ inner. IfNone inner (IfSome (T.state tree.old).held (λ files.
        enter_def files stand.path component.now ≡ None))) }
    ensures told { IfOk result (λ inner. IfSome inner (λ next. IsDirIfTold (T.state tree.old).held next.is_told next.path)) }
    ensures state { T.state tree.new ≡ T.state tree.old }
    ensures cause { Counts (T.faults tree.old) (T.faults tree.new) result }
{
    let Stand { mut path, is_told } = stand;
    if is_staying(component) {
        return Ok(Some(Stand { path, is_told }));
    }
    if is_going_up(component) {
        path.pop();
        return Ok(Some(Stand {
            path,
            is_told: false,
        }));
    }
    path.push(alloc, component)?;
    match tree.kind(&path)? {
        Kind::Dir => Ok(Some(Stand {
            path,
            is_told: true,
        })),
        Kind::File | Kind::Missing => Ok(None),
    }
}

/// What the last component of a path names.
#[tactic(auto, using(crate::proofs::PlacesLemmas::parent_of_child))]
fn last_place<T: Tree>(
    alloc: Global,
    tree: &mut T,
    stand: Stand,
    component: &[u8],
) -> Result<Place, WorldErr>
    requires part { has_slash component.now ≡ false }
    requires told { IsDirIfTold (T.state tree.old).held stand.is_told stand.path }
    ensures place { IfOk result (λ place. IfSome (T.state tree.old).held (λ files.
        place ≡ last_place_def files stand.path component.now)) }
    ensures state { T.state tree.new ≡ T.state tree.old }
    ensures cause { Counts (T.faults tree.old) (T.faults tree.new) result }
{
    let Stand { mut path, is_told } = stand;
    if is_staying(component) {
        return ending_at(tree, path, is_told);
    }
    if is_going_up(component) {
        path.pop();
        return ending_at(tree, path, false);
    }
    path.push(alloc, component)?;
    match tree.kind(&path)? {
        Kind::Missing => makeable(tree, path, is_told),
        Kind::Dir => Ok(Place::Dir(path)),
        Kind::File => Ok(Place::File(path)),
    }
}

/// What is named where a path ends in a directory.
fn ending_at<T: Tree>(tree: &mut T, path: Path, is_told: bool) -> Result<Place, WorldErr>
    requires told { IsDirIfTold (T.state tree.old).held is_told path }
    ensures place { IfOk result (λ place. IfSome (T.state tree.old).held (λ files.
        place ≡ ending_at_def (kind_at files path) path)) }
    ensures state { T.state tree.new ≡ T.state tree.old }
    ensures cause { Counts (T.faults tree.old) (T.faults tree.new) result }
{
    if is_told {
        return Ok(Place::Dir(path));
    }
    match tree.kind(&path)? {
        Kind::Dir => Ok(Place::Dir(path)),
        Kind::File | Kind::Missing => Ok(Place::Missing),
    }
}

/// What a name is that nothing has.
fn makeable<T: Tree>(tree: &mut T, path: Path, is_told: bool) -> Result<Place, WorldErr>
    requires told { IsDirIfTold (T.state tree.old).held is_told (parent_of path) }
    ensures place { IfOk result (λ place. IfSome (T.state tree.old).held (λ files.
        place ≡ makeable_def (kind_at files (parent_of path)) path)) }
    ensures state { T.state tree.new ≡ T.state tree.old }
    ensures cause { Counts (T.faults tree.old) (T.faults tree.new) result }
{
    if is_told {
        return Ok(Place::Makeable(path));
    }
    let mut parent = path.copy()?;
    parent.pop();
    match tree.kind(&parent)? {
        Kind::Dir => Ok(Place::Makeable(path)),
        Kind::File | Kind::Missing => Ok(Place::Missing),
    }
}

/// The null device in place of what stands at its path.
fn nulled(place: Place) -> Place
    ensures value { result ≡ nulled_def place }
    ensures apart { IsNoNullPath result }
{
    match place {
        Place::Makeable(path) | Place::Dir(path) | Place::File(path) if path.is_null_device() =>
            Place::Null,
        other => other,
    }
}
