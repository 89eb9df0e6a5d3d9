//! The readers of the files that a graph reads.
ghost use Rattle.std.specs.Prelude.{◌≡◌, ℕ, ◌+◌, ◌≤◌, ◌∷◌, ◌++◌, [], false, true, length, map, Some, IfErr, IfOk, IfSome, OnErr, OnOk};
ghost use Rattle.std.specs.List.{cons_option};
ghost use Rattle.std.specs.Option.{option_copied};
ghost use Rattle.ps_world.specs.Counts.{Counts, Rose};
ghost use Rattle.ps_world.specs.Files.{Files, IsFileAt, bytes_at};
ghost use Rattle.ps_world.specs.TreeState.{AreOut, Balanced, TreeState};
ghost use Rattle.fl_engines.specs.OwnEnds.{each_of};
ghost use Rattle.fl_graph.specs.Paths.{paths_read};
ghost use Rattle.fl_commands.specs.Inner.Overs.{Opens};
ghost use Rattle.fl_commands.specs.Readers.{has_count};
ghost use Rattle.fl_commands.specs.Writers.{AreFilesAt};

use fl_graph::{Node, path_read};
use ps_world::{Path, Tree, WorldErr};
use std::alloc::Global;

/// Readers that a tree has lent, and the paths of their files, in order.
pub(crate) struct Opened<R> {
    /// The readers. Each gets its number with the graph that it is read by.
    pub(crate) readers: Vec<(u32, R)>,
    pub(crate) paths: Vec<Path>,
}

impl<R> Opened<R> {
    /// Puts a reader behind the others. It comes back where memory is refused.
    fn add(&mut self, path: Path, reader: R) -> Result<(), R>
        ensures ok { OnOk result (self.new.readers.items ≡ self.old.readers.items ++ (0, reader) ∷ []) }
        ensures err { IfErr result (λ back. (back ≡ reader) × (self.new.readers.items ≡ self.old.readers.items)) }
        ensures paths { length self.old.paths.items ≡ length self.old.readers.items → length self.new.paths.items ≡ length self.new.readers.items }
    {
        if self.paths.push(path).is_err() {
            return Err(reader);
        }
        match self.readers.push((0, reader)) {
            Ok(()) => Ok(()),
            Err(refused) => {
                let _ = self.paths.pop();
                Err(refused.value.1)
            }
        }
    }
}

/// Opens the files that nodes read, in their order.
///
/// An error leaves none out. A fault is the tree's.
pub(crate) fn open_files<T: Tree>(
    alloc: Global,
    nodes: &[Node],
    tree: &mut T,
) -> Result<Opened<T::Reader>, WorldErr>
    requires there { IfSome (T.state tree.old).held (λ files. AreFilesAt files (paths_read nodes.now)) }
    ensures opens { IfOk result (λ opened. Opens T.Reader.left T.Reader.faults (paths_read nodes.now) (T.state tree.old) (T.state tree.new) opened.readers.items) }
    ensures paths { IfOk result (λ opened. length opened.paths.items ≡ length opened.readers.items) }
    ensures back { OnErr result (Balanced (T.state tree.old) (T.state tree.new)) }
    ensures held { (T.state tree.new).held ≡ (T.state tree.old).held }
    ensures cause { Counts (T.faults tree.old) (T.faults tree.new) result }
{
    let mut opened = Opened {
        readers: Vec::new(alloc),
        paths: Vec::new(alloc),
    };
    match open_nodes(nodes, &mut opened, tree) {
        Ok(()) => Ok(opened),
        Err(error) => {
            let Opened { readers, paths } = opened;
            give_back(readers, paths, tree);
            Err(error)
        }
    }
}

/// Opens the files that nodes read, behind those that are open.
fn open_nodes<T: Tree>(
    nodes: &[Node],
    opened: &mut Opened<T::Reader>,
    tree: &mut T,
) -> Result<(), WorldErr>
    requires there { IfSome (T.state tree.old).held (λ files. AreFilesAt files (paths_read nodes.now)) }
    ensures texts { (files : Files) → (T.state tree.old).held ≡ Some files
        → OnOk result (each_of T.Reader.left opened.new.readers.items ≡ each_of T.Reader.left opened.old.readers.items ++ map (λ path. Some (bytes_at files path)) (paths_read nodes.now)) }
    ensures count { OnOk result (length opened.new.readers.items ≡ length opened.old.readers.items + length (paths_read nodes.now)) }
    ensures fresh { has_count (each_of T.Reader.faults opened.old.readers.items) ≡ false → has_count (each_of T.Reader.faults opened.new.readers.items) ≡ false }
    ensures out { (first : TreeState) → AreOut (length opened.old.readers.items) first (T.state tree.old) → AreOut (length opened.new.readers.items) first (T.state tree.new) }
    ensures paths { length opened.old.paths.items ≡ length opened.old.readers.items → length opened.new.paths.items ≡ length opened.new.readers.items }
    ensures held { (T.state tree.new).held ≡ (T.state tree.old).held }
    ensures cause { Counts (T.faults tree.old) (T.faults tree.new) result }
{
    let mut left = nodes;
    while let [node, rest @ ..] = left {
        open_at(path_read(&node.kind), opened, tree)?;
        left = rest;
    }
    Ok(())
}

/// Opens the file at a path, if there is one, behind those that are open.
#[tactic(auto, using(crate::proofs::ReaderLemmas::reader_steps))]
fn open_at<T: Tree>(
    path: Option<&Path>,
    opened: &mut Opened<T::Reader>,
    tree: &mut T,
) -> Result<(), WorldErr>
    requires there { IfSome (T.state tree.old).held (λ files. IfSome (option_copied path) (λ it. IsFileAt files it)) }
    ensures texts { (files : Files) → (T.state tree.old).held ≡ Some files
        → OnOk result (each_of T.Reader.left opened.new.readers.items ≡ each_of T.Reader.left opened.old.readers.items ++ map (λ path. Some (bytes_at files path)) (cons_option (option_copied path.entry) [])) }
    ensures count { OnOk result (length opened.new.readers.items ≡ length opened.old.readers.items + length (cons_option (option_copied path.entry) [])) }
    ensures fresh { has_count (each_of T.Reader.faults opened.old.readers.items) ≡ false → has_count (each_of T.Reader.faults opened.new.readers.items) ≡ false }
    ensures out { (first : TreeState) → AreOut (length opened.old.readers.items) first (T.state tree.old) → AreOut (length opened.new.readers.items) first (T.state tree.new) }
    ensures paths { length opened.old.paths.items ≡ length opened.old.readers.items → length opened.new.paths.items ≡ length opened.new.readers.items }
    ensures held { (T.state tree.new).held ≡ (T.state tree.old).held }
    ensures cause { Counts (T.faults tree.old) (T.faults tree.new) result }
{
    match path {
        Some(path) => open_file(path, opened, tree),
        None => Ok(()),
    }
}

/// Opens a file, behind those that are open.
#[tactic(auto, using(crate::proofs::ReaderLemmas::reader_steps))]
fn open_file<T: Tree>(
    path: &Path,
    opened: &mut Opened<T::Reader>,
    tree: &mut T,
) -> Result<(), WorldErr>
    requires there { IfSome (T.state tree.old).held (λ files. IsFileAt files path.now) }
    ensures texts { (files : Files) → (T.state tree.old).held ≡ Some files
        → OnOk result (each_of T.Reader.left opened.new.readers.items ≡ each_of T.Reader.left opened.old.readers.items ++ Some (bytes_at files path.now) ∷ []) }
    ensures count { OnOk result (length opened.new.readers.items ≡ length opened.old.readers.items + 1) }
    ensures fresh { has_count (each_of T.Reader.faults opened.old.readers.items) ≡ false → has_count (each_of T.Reader.faults opened.new.readers.items) ≡ false }
    ensures out { (first : TreeState) → AreOut (length opened.old.readers.items) first (T.state tree.old) → AreOut (length opened.new.readers.items) first (T.state tree.new) }
    ensures paths { length opened.old.paths.items ≡ length opened.old.readers.items → length opened.new.paths.items ≡ length opened.new.readers.items }
    ensures held { (T.state tree.new).held ≡ (T.state tree.old).held }
    ensures cause { Counts (T.faults tree.old) (T.faults tree.new) result }
{
    let copy = path.copy()?;
    let reader = tree.open(path)?;
    match opened.add(copy, reader) {
        Ok(()) => Ok(()),
        Err(reader) => {
            tree.end_read(path, reader);
            Err(WorldErr::Memory)
        }
    }
}

/// Gives readers back. The tree's count rises exactly where that of one of them is above 0.
pub(crate) fn give_back<T: Tree>(readers: Vec<(u32, T::Reader)>, paths: Vec<Path>, tree: &mut T)
    requires paths { length paths.items ≡ length readers.items }
    ensures out { (first : TreeState) → AreOut (length readers.items) first (T.state tree.old) → Balanced first (T.state tree.new) }
    ensures held { (T.state tree.new).held ≡ (T.state tree.old).held }
    ensures later { T.faults tree.old ≤ T.faults tree.new }
    ensures calm { has_count (each_of T.Reader.faults readers.items) ≡ false → T.faults tree.new ≡ T.faults tree.old }
    ensures cause { has_count (each_of T.Reader.faults readers.items) ≡ true → Rose (T.faults tree.old) (T.faults tree.new) }
{
    let mut readers = readers;
    let mut paths = paths;
    while let Some((_number, reader)) = readers.pop() {
        match paths.pop() {
            Some(path) => tree.end_read(&path, reader),
            None => unreachable!(),
        }
    }
    readers.destroy_empty();
}
