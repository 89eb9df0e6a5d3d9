//! The names in a directory of a tree in memory.
ghost use Rattle.std.specs.Prelude.{◌≡◌, ℕ, List, [], IfOk, IfSome, IsTrue, OnOk};
ghost use Rattle.std.specs.Borrow.{Bor};
ghost use Rattle.std.specs.Global.{Vec};
ghost use Rattle.std.specs.List.{list_all, list_any};
ghost use Rattle.std.specs.Option.{option_map};
ghost use Rattle.std.specs.Str.{bytes_eq};
ghost use Rattle.ps_lines.specs.Texts.{texts_of};
ghost use Rattle.ps_world.specs.Paths.{is_name};
ghost use Rattle.ps_fakes.specs.Listing.{name_under, with_name, with_names};

use crate::stored::Stored;
use ps_world::Path;
use std::alloc::{AllocError, Global};

/// The names in a directory, each once.
pub fn names_in(alloc: Global, stored: &[Stored], dir: &Path) -> Result<Vec<Vec<u8>>, AllocError>
    ensures names { IfOk result (λ names. texts_of names.items ≡ with_names dir.now [] stored.now) }
    ensures each { IfOk result (λ names. IsTrue (list_all is_name (texts_of names.items))) }
{
    let mut names = Vec::new(alloc);
    let mut left = stored;
    while let [first, rest @ ..] = left {
        add_name(alloc, &mut names, dir, &first.path)?;
        left = rest;
    }
    Ok(names)
}

/// Adds the name of a path in a directory, where it has one there that isn't listed yet.
fn add_name(
    alloc: Global,
    names: &mut Vec<Vec<u8>>,
    dir: &Path,
    path: &Path,
) -> Result<(), AllocError>
    requires { IsTrue (list_all is_name (texts_of names.old.items)) }
    ensures names { OnOk result (texts_of names.new.items ≡ with_name (texts_of names.old.items) (name_under dir.now path.now)) }
    ensures each { OnOk result (IsTrue (list_all is_name (texts_of names.new.items))) }
{
    let Some(name) = name_in(dir, path) else {
        return Ok(());
    };
    if is_listed(names.as_slice(), name) {
        return Ok(());
    }
    names.push(Vec::from_slice(alloc, name)?)?;
    Ok(())
}

/// The name of a path in a directory, where the path stands right below it.
fn name_in<'a>(dir: &Path, path: &'a Path) -> Option<&'a [u8]>
    ensures name { option_map (λ (name : Bor (List ℕ)). name.now) result ≡ name_under dir.now path.now }
    ensures is_name { IfSome result (λ name. IsTrue (is_name name.now)) }
{
    let Some((name, above)) = path.parts.as_slice().split_last() else {
        return None;
    };
    if dir.parts.as_slice() == above {
        Some(name.as_slice())
    } else {
        None
    }
}

/// Whether a name is among these.
fn is_listed(names: &[Vec<u8>], name: &[u8]) -> bool
    ensures { result ≡ list_any (λ (other : Vec ℕ). bytes_eq name.now other.items) names.now }
{
    names.iter().any(|other| name == other.as_slice())
}
