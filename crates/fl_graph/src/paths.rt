//! The files that a graph reads and writes.
ghost use Rattle.std.specs.Prelude.{◌≡◌, not};
ghost use Rattle.std.specs.List.{list_any};
ghost use Rattle.std.specs.Option.{option_copied};
ghost use Rattle.ps_world.specs.Places.{is_null_path};
ghost use Rattle.fl_graph.specs.Checks.{has_paths_apart as has_paths_apart_def};
ghost use Rattle.fl_graph.specs.Paths.{are_distinct as are_distinct_def, is_among, path_read as path_read_def, path_written as path_written_def, paths_read, paths_written};

use crate::graphs::Node;
use crate::kinds::{From, NodeKind, To};
use ps_world::Path;

/// Whether no file is both read and written, none is written twice, and none is the null device.
pub fn has_paths_apart(nodes: &[Node]) -> bool
    ensures { result ≡ has_paths_apart_def nodes.now }
{
    !read_null(nodes) && !write_null(nodes) && !write_what_is_read(nodes) && are_distinct(nodes)
}

/// Whether a node reads the null device as a file.
fn read_null(nodes: &[Node]) -> bool
    ensures { result ≡ list_any is_null_path (paths_read nodes.now) }
{
    for node in nodes {
        if let Some(path) = path_read(&node.kind) {
            if path.is_null_device() {
                return true;
            }
        }
    }
    false
}

/// Whether a node writes the null device as a file.
fn write_null(nodes: &[Node]) -> bool
    ensures { result ≡ list_any is_null_path (paths_written nodes.now) }
{
    for node in nodes {
        if let Some(path) = path_written(&node.kind) {
            if path.is_null_device() {
                return true;
            }
        }
    }
    false
}

/// Whether a file is both read and written.
fn write_what_is_read(nodes: &[Node]) -> bool
    ensures { result ≡ list_any (is_among (paths_read nodes.now)) (paths_written nodes.now) }
{
    for node in nodes {
        if let Some(path) = path_written(&node.kind) {
            if is_read(nodes, path) {
                return true;
            }
        }
    }
    false
}

/// Whether no file is written twice.
fn are_distinct(nodes: &[Node]) -> bool
    ensures { result ≡ are_distinct_def (paths_written nodes.now) }
{
    let mut left = nodes;
    while let [node, rest @ ..] = left {
        if let Some(path) = path_written(&node.kind) {
            if is_written(rest, path) {
                return false;
            }
        }
        left = rest;
    }
    true
}

/// Whether one of the nodes reads the file.
fn is_read(nodes: &[Node], path: &Path) -> bool
    ensures { result ≡ is_among (paths_read nodes.now) path.now }
{
    for node in nodes {
        if let Some(other) = path_read(&node.kind) {
            if other == path {
                return true;
            }
        }
    }
    false
}

/// Whether one of the nodes writes the file.
fn is_written(nodes: &[Node], path: &Path) -> bool
    ensures { result ≡ is_among (paths_written nodes.now) path.now }
{
    for node in nodes {
        if let Some(other) = path_written(&node.kind) {
            if other == path {
                return true;
            }
        }
    }
    false
}

/// The path of the file that a node of this kind reads, if it reads one.
pub fn path_read(kind: &NodeKind) -> Option<&Path>
    ensures { option_copied result ≡ path_read_def kind.now }
{
    match kind {
        NodeKind::Source(From::File(path)) => Some(path),
        _ => None,
    }
}

/// The path of the file that a node of this kind writes, if it writes one.
pub fn path_written(kind: &NodeKind) -> Option<&Path>
    ensures { option_copied result ≡ path_written_def kind.now }
{
    match kind {
        NodeKind::TeeFile(path, _) | NodeKind::Sink(To::File(path, _)) => Some(path),
        _ => None,
    }
}
