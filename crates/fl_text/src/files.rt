//! The files of a graph: those that are written are kept in the order of their paths.
ghost use Rattle.std.specs.Prelude.{◌≡◌, true, IfOk};
ghost use Rattle.std.specs.List.{list_all};
ghost use Rattle.fl_graph.specs.Checks.{has_paths_apart as has_paths_apart_def};
ghost use Rattle.fl_graph.specs.Paths.{paths_read, paths_written};
ghost use Rattle.fl_text.specs.Inner.Writings.{are_new, is_kept, is_new, with_path, with_paths};

use fl_graph::{Node, path_read, path_written};
use ps_lines::Memory;
use ps_world::Path;
use std::alloc::Global;
use std::cmp::Ordering;
use std::collections::BTreeSet;
use std::marker::Model;

/// A file by its path, in the order of paths. Contracts see the path.
#[derive(Drop)]
struct File<'a> {
    path: &'a Path,
}

impl<'a> Model for File<'a> {
    ghost use Rattle.std.specs.Prelude.{ℕ, List};

    ghost Value = { List (List ℕ) };

    ghost view = { λ file. file.path.now };
}

impl<'a> PartialEq for File<'a> {
    ghost use Rattle.std.specs.Prelude.{nat_eq};
    ghost use Rattle.std.proofs.Common.{rules};
    ghost use Rattle.std.specs.Cmp.Lexicographic.{pointwise};
    ghost use Rattle.std.specs.Cmp.Rules.{comparing};

    ghost eq = { pointwise (pointwise nat_eq) };

    ghost laws = { Prim.search (comparing, rules) };

    fn eq(&self, other: &File<'a>) -> bool {
        self.path == other.path
    }
}

impl<'a> Eq for File<'a> {
    ghost use Rattle.std.proofs.Common.{rules};
    ghost use Rattle.std.specs.Cmp.Rules.{comparing};

    ghost laws = { Prim.search (comparing, rules) };
}

impl<'a> PartialOrd for File<'a> {
    ghost use Rattle.std.proofs.Common.{rules};
    ghost use Rattle.std.specs.Cmp.{partial_order_from_own_ties};
    ghost use Rattle.std.specs.Cmp.Lexicographic.{lists_ties, slice_cmp, texts_ties};
    ghost use Rattle.std.specs.Cmp.Rules.{comparing};
    ghost use Rattle.std.specs.Ordering.{as_partial_cmp, nat_cmp};
    ghost use Rattle.ps_world.specs.Paths.{path_cmp};

    ghost partial_cmp = { as_partial_cmp path_cmp };

    ghost laws = { partial_order_from_own_ties (Prim.search (comparing, rules)) (lists_ties (slice_cmp nat_cmp) texts_ties) };

    fn partial_cmp(&self, other: &File<'a>) -> Option<Ordering> {
        Some(self.cmp(other))
    }
}

impl<'a> Ord for File<'a> {
    ghost use Rattle.std.specs.Prelude.{refl};
    ghost use Rattle.std.specs.Cmp.Lexicographic.{lists_ties, slice_cmp, texts_ties};
    ghost use Rattle.std.specs.Ordering.{nat_cmp};
    ghost use Rattle.ps_world.specs.Paths.{path_cmp, path_cmp_total};

    ghost cmp = { path_cmp };

    ghost total = { path_cmp_total };

    ghost matches_partial_cmp = { λ path other. refl };

    ghost matches_eq = { lists_ties (slice_cmp nat_cmp) texts_ties };

    fn cmp(&self, other: &File<'a>) -> Ordering {
        let (path, other) = (self.path, other.path);
        path.parts.as_slice().cmp(other.parts.as_slice())
    }
}

/// Whether no file is both read and written, none is written twice, and none is the null device.
///
/// Each file is looked up among those that are written, by a number of comparisons that grows as the logarithm of their number.
pub fn has_paths_apart(alloc: Global, nodes: &[Node]) -> Result<bool, Memory>
    ensures { IfOk result (λ has. has ≡ has_paths_apart_def nodes.now) }
{
    let mut files = BTreeSet::new(alloc);
    if !keep_all(&mut files, nodes)? {
        return Ok(false);
    }
    Ok(read_others(&files, nodes))
}

/// Keeps the files that the nodes write, if none of them is kept, or written twice, or the null device.
fn keep_all<'a>(files: &mut BTreeSet<File<'a>>, nodes: &'a [Node]) -> Result<bool, Memory>
    ensures new { IfOk result (λ are. are ≡ are_new (is_kept files.old) (paths_written nodes.now)) }
    ensures kept { IfOk result (λ are. are ≡ true → is_kept files.new ≡ with_paths (paths_written nodes.now) (is_kept files.old)) }
{
    for node in nodes {
        if let Some(path) = path_written(&node.kind) {
            if !keep(files, path)? {
                return Ok(false);
            }
        }
    }
    Ok(true)
}

/// Keeps a file, if it isn't kept and isn't the null device.
fn keep<'a>(files: &mut BTreeSet<File<'a>>, path: &'a Path) -> Result<bool, Memory>
    ensures new { IfOk result (λ is. is ≡ is_new (is_kept files.old) path.now) }
    ensures kept { IfOk result (λ is. is ≡ true → is_kept files.new ≡ with_path path.now (is_kept files.old)) }
{
    if path.is_null_device() {
        return Ok(false);
    }
    Ok(files.insert(File { path })?)
}

/// Whether no node reads a file that is kept, or the null device.
fn read_others<'a>(files: &BTreeSet<File<'a>>, nodes: &'a [Node]) -> bool
    ensures { result ≡ list_all (is_new (is_kept files.now)) (paths_read nodes.now) }
{
    for node in nodes {
        if let Some(path) = path_read(&node.kind) {
            if !is_other(files, path) {
                return false;
            }
        }
    }
    true
}

/// Whether a file isn't kept, and isn't the null device.
fn is_other<'a>(files: &BTreeSet<File<'a>>, path: &'a Path) -> bool
    ensures { result ≡ is_new (is_kept files.now) path.now }
{
    !path.is_null_device() && !files.contains(&File { path })
}
