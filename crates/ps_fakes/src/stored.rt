//! What a tree in memory holds, as a list that is scanned from the front.
ghost use Rattle.std.specs.Prelude.{◌≡◌, ◌++◌, ℕ, length, map, Some, IfOk, OnErr, OnOk};
ghost use Rattle.std.specs.FinMap.{get, insert};
ghost use Rattle.std.specs.Global.{Vec};
ghost use Rattle.std.specs.Option.{option_copied, option_map};
ghost use Rattle.ps_world.specs.Files.{kind_at as kind_at_def, kind_of as kind_of_def, bytes_at as bytes_at_def, bytes_of as bytes_of_def};
ghost use Rattle.ps_fakes.specs.Trees.{above, entries_of, file_in as file_in_def, files_of, folder as folder_def, folders, named_path as named_path_def, node_at, node_in, node_of, placed, placed_of};

use ps_world::{Kind, Path};
use std::alloc::{AllocError, Global};

/// What is stored at a path.
#[derive(Debug, Drop)]
pub enum Content {
    /// A file of these bytes.
    File(Vec<u8>),
    Folder,
    /// A file whose writer is out.
    Out,
}

/// A path, and what is stored there.
#[derive(Debug, Drop)]
pub struct Stored {
    pub path: Path,
    pub content: Content,
}

/// What stands at a path.
#[tactic(auto, using(crate::proofs::FindLemmas::get_first))]
pub fn kind_at(stored: &[Stored], path: &Path) -> Kind
    ensures { result ≡ kind_at_def (files_of stored.now) path.now }
{
    match find(stored, path) {
        None => Kind::Missing,
        Some(found) => kind_of(found),
    }
}

/// What this is.
fn kind_of(stored: &Stored) -> Kind
    ensures { result ≡ kind_of_def (Some (placed_of stored.now).1) }
{
    match &stored.content {
        Content::File(_) | Content::Out => Kind::File,
        Content::Folder => Kind::Dir,
    }
}

/// The bytes of the file at a path, none where no file is in.
#[tactic(auto, using(crate::proofs::FindLemmas::get_first))]
pub fn bytes_at<'a>(stored: &'a [Stored], path: &Path) -> &'a [u8]
    ensures { result.now ≡ bytes_at_def (files_of stored.now) path.now }
{
    match find(stored, path) {
        None => &[],
        Some(found) => bytes_of(found),
    }
}

/// The bytes of this file, none where no file is in.
fn bytes_of(stored: &Stored) -> &[u8]
    ensures { result.now ≡ bytes_of_def (Some (placed_of stored.now).1) }
{
    match &stored.content {
        Content::File(bytes) => bytes.as_slice(),
        Content::Folder | Content::Out => &[],
    }
}

/// The bytes of the file at a path, where one is in.
#[tactic(auto, using(crate::proofs::FindLemmas::get_first))]
pub fn file_at<'a>(stored: &'a [Stored], path: &Path) -> Option<&'a [u8]>
    ensures { option_copied result ≡ file_in_def (get (files_of stored.now) path.now) }
{
    match find(stored, path) {
        None => None,
        Some(found) => file_in(found),
    }
}

/// The bytes of this, where it is a file that is in.
fn file_in(stored: &Stored) -> Option<&[u8]>
    ensures { option_copied result ≡ file_in_def (Some (placed_of stored.now).1) }
{
    match &stored.content {
        Content::File(bytes) => Some(bytes.as_slice()),
        Content::Folder | Content::Out => None,
    }
}

/// The first of these at a path.
fn find<'a>(stored: &'a [Stored], path: &Path) -> Option<&'a Stored>
    ensures { option_map (λ found. (placed_of found.now).1) result ≡ node_at (map placed_of stored.now) path.now }
{
    let mut left = stored;
    while let [first, rest @ ..] = left {
        if *path == first.path {
            return Some(first);
        }
        left = rest;
    }
    None
}

/// The entries of a caller, at the paths that they name.
pub fn place_all(
    alloc: Global,
    entries: Vec<(Vec<u8>, Option<Vec<u8>>)>,
) -> Result<Vec<Stored>, AllocError>
    ensures { IfOk result (λ stored. map placed_of stored.items ≡ map placed (entries_of entries.items)) }
{
    let mut stored = Vec::new(alloc);
    for (text, bytes) in entries {
        let path = named_path(alloc, text.as_slice())?;
        let content = content_of(bytes);
        stored.push(Stored { path, content })?;
    }
    Ok(stored)
}

/// A file of these bytes, or a directory.
fn content_of(bytes: Option<Vec<u8>>) -> Content
    ensures { node_in result ≡ node_of (option_map (λ (bytes : Vec ℕ). bytes.items) bytes) }
{
    match bytes {
        Some(bytes) => Content::File(bytes),
        None => Content::Folder,
    }
}

/// Puts this at a path, in place of what is there.
pub fn put(stored: &mut Vec<Stored>, path: &Path, content: Content) -> Result<(), AllocError>
    ensures ok { OnOk result (files_of stored.new.items ≡ insert (files_of stored.old.items) path.now (node_in content)) }
    ensures err { OnErr result (stored.new.items ≡ stored.old.items) }
{
    let path = path.copy()?;
    stored.insert(0, Stored { path, content })?;
    Ok(())
}

/// The path that a text spells; the root for a text that spells none.
pub fn named_path(alloc: Global, text: &[u8]) -> Result<Path, AllocError>
    ensures { IfOk result (λ path. path ≡ named_path_def text.now) }
{
    match Path::read(alloc, text)? {
        Some(path) => Ok(path),
        None => Ok(Path::root(alloc)),
    }
}

/// The directories above entries, and home with those above it.
pub fn folders_of(alloc: Global, home: &Path, entries: &[Stored]) -> Result<Vec<Stored>, AllocError>
    ensures { IfOk result (λ stored. map placed_of stored.items ≡ folders home.now (map placed_of entries.now)) }
{
    let mut stored = Vec::new(alloc);
    for entry in entries {
        push_above(&mut stored, &entry.path)?;
    }
    push_above(&mut stored, home)?;
    stored.push(folder(home.copy()?))?;
    Ok(stored)
}

/// Appends the directories above a path, its parent first.
fn push_above(stored: &mut Vec<Stored>, path: &Path) -> Result<(), AllocError>
    ensures { OnOk result (map placed_of stored.new.items ≡ map placed_of stored.old.items ++ map folder_def (above path.now)) }
{
    let mut dir = path.copy()?;
    'steps: for _ in 0..height(path) {
        dir.pop();
        stored.push(folder(dir.copy()?))?;
    }
    Ok(())
}

/// How many components a path has.
fn height(path: &Path) -> usize
    ensures { result ≡ length path.now }
{
    path.parts.len()
}

/// A directory.
fn folder(path: Path) -> Stored
    ensures { placed_of result ≡ folder_def path }
{
    Stored {
        path,
        content: Content::Folder,
    }
}
