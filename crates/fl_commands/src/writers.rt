//! The writers of the files that a graph writes.
ghost use Rattle.std.specs.Prelude.{◌≡◌, ℕ, List, ◌+◌, ◌≤◌, ◌∷◌, ◌++◌, [], false, length, map, Some, IfErr, IfOk, IfSome, IsErrOf, OnErr, OnOk};
ghost use Rattle.std.specs.List.{cons_option};
ghost use Rattle.std.specs.Option.{option_copied, option_map};
ghost use Rattle.ps_world.specs.Counts.{Rose};
ghost use Rattle.ps_world.specs.Files.{Files, IsFileAt, bytes_at};
ghost use Rattle.ps_world.specs.TreeState.{AreOut, TreeState};
ghost use Rattle.fl_engines.specs.OwnEnds.{each_of};
ghost use Rattle.fl_graph.specs.Paths.{paths_written as paths_written_def};
ghost use Rattle.fl_commands.specs.Inner.Writing.{AreAmong, AreApart, Begins, Returns, earlier, out_at};
ghost use Rattle.fl_commands.specs.Readers.{has_count};
ghost use Rattle.fl_commands.specs.Writers.{AreFilesAt, ChangesOnly};

use fl_graph::{Node, path_written};
use ps_lines::Memory;
use ps_world::{Mode, Path, Tree, WorldErr};
use std::alloc::Global;

/// Writers that a tree has lent, and the paths of their files, in order.
pub(crate) struct Begun<W> {
    /// The writers. Each gets its number with the graph that writes them.
    pub(crate) writers: Vec<(u32, W)>,
    pub(crate) paths: Vec<Path>,
}

impl<W> Begun<W> {
    /// Puts a writer behind the others. It comes back where memory is refused.
    fn add(&mut self, path: Path, writer: W) -> Result<(), W>
        ensures ok { OnOk result (self.new.writers.items ≡ self.old.writers.items ++ (0, writer) ∷ []) }
        ensures paths { OnOk result (self.new.paths.items ≡ self.old.paths.items ++ path ∷ []) }
        ensures err { IfErr result (λ back. (back ≡ writer) × (self.new.writers.items ≡ self.old.writers.items)) }
        ensures among { AreAmong self.new.paths.items (self.old.paths.items ++ path ∷ []) }
        ensures count { length self.old.writers.items ≡ length self.old.paths.items → length self.new.writers.items ≡ length self.new.paths.items }
    {
        if self.paths.push(path).is_err() {
            return Err(writer);
        }
        match self.writers.push((0, writer)) {
            Ok(()) => Ok(()),
            Err(refused) => {
                let _ = self.paths.pop();
                Err(refused.value.1)
            }
        }
    }
}

/// The paths of the files that nodes write, in their order.
pub(crate) fn paths_written(alloc: Global, nodes: &[Node]) -> Result<Vec<Path>, Memory>
    ensures { IfOk result (λ paths. paths.items ≡ paths_written_def nodes.now) }
{
    let mut paths = Vec::new(alloc);
    let mut left = nodes;
    while let [node, rest @ ..] = left {
        add_copy(path_written(&node.kind), &mut paths)?;
        left = rest;
    }
    Ok(paths)
}

/// Puts a copy of a path behind others, if there is one.
fn add_copy(path: Option<&Path>, paths: &mut Vec<Path>) -> Result<(), Memory>
    ensures { OnOk result (paths.new.items ≡ paths.old.items ++ cons_option (option_copied path.entry) []) }
{
    match path {
        Some(path) => {
            let copy = path.copy()?;
            paths.push(copy)?;
            Ok(())
        }
        None => Ok(()),
    }
}

/// Copies of paths.
pub(crate) fn copies_of(alloc: Global, copied: &[Path]) -> Result<Vec<Path>, Memory>
    ensures { IfOk result (λ paths. paths.items ≡ copied.now) }
{
    let mut paths = Vec::new(alloc);
    add_copies(copied, &mut paths)?;
    Ok(paths)
}

/// Puts copies of paths behind others.
fn add_copies(copied: &[Path], paths: &mut Vec<Path>) -> Result<(), Memory>
    ensures { OnOk result (paths.new.items ≡ paths.old.items ++ copied.now) }
{
    for path in copied {
        let copy = path.copy()?;
        paths.push(copy)?;
    }
    Ok(())
}

/// Opens files, in their order, to write behind what they hold.
///
/// An error leaves none out. A fault is the tree's.
pub(crate) fn open_writers<T: Tree>(
    alloc: Global,
    paths: &[Path],
    tree: &mut T,
) -> Result<Begun<T::Writer>, WorldErr>
    requires there { IfSome (T.state tree.old).held (λ files. AreFilesAt files paths.now) }
    requires apart { AreApart paths.now }
    ensures begins { IfOk result (λ begun. Begins T.Writer.taken T.Writer.faults paths.now (T.state tree.old) (T.state tree.new) begun.writers.items) }
    ensures paths { IfOk result (λ begun. begun.paths.items ≡ paths.now) }
    ensures back { (first : TreeState) (count : ℕ) → AreOut count first (T.state tree.old) → OnErr result (AreOut count first (T.state tree.new)) }
    ensures none { paths.now ≡ [] → OnErr result ((T.state tree.new).held ≡ (T.state tree.old).held) }
    ensures kept { OnErr result (ChangesOnly paths.now (T.state tree.old).held (T.state tree.new).held) }
    ensures later { T.faults tree.old ≤ T.faults tree.new }
    ensures ok { OnOk result (T.faults tree.new ≡ T.faults tree.old) }
    ensures failed { IsErrOf result WorldErr.Failed → Rose (T.faults tree.old) (T.faults tree.new) }
{
    let mut begun = Begun {
        writers: Vec::new(alloc),
        paths: Vec::new(alloc),
    };
    match open_each(paths, &mut begun, tree) {
        Ok(()) => Ok(begun),
        Err(error) => {
            let Begun { writers, paths } = begun;
            let _ = end_writers(writers, paths, tree);
            Err(error)
        }
    }
}

/// Opens files behind those that are open.
fn open_each<T: Tree>(
    paths: &[Path],
    begun: &mut Begun<T::Writer>,
    tree: &mut T,
) -> Result<(), WorldErr>
    requires there { IfSome (T.state tree.old).held (λ files. AreFilesAt files paths.now) }
    requires apart { AreApart paths.now }
    ensures texts { (files : Files) → (T.state tree.old).held ≡ Some files
        → OnOk result (each_of T.Writer.taken begun.new.writers.items ≡ each_of T.Writer.taken begun.old.writers.items ++ map (λ path. Some (bytes_at files path)) paths.now) }
    ensures paths { OnOk result (begun.new.paths.items ≡ begun.old.paths.items ++ paths.now) }
    ensures count { length begun.old.writers.items ≡ length begun.old.paths.items → length begun.new.writers.items ≡ length begun.new.paths.items }
    ensures fresh { has_count (each_of T.Writer.faults begun.old.writers.items) ≡ false → has_count (each_of T.Writer.faults begun.new.writers.items) ≡ false }
    ensures out { (first : TreeState) (count : ℕ) → AreOut (length begun.old.writers.items + count) first (T.state tree.old)
        → AreOut (length begun.new.writers.items + count) first (T.state tree.new) }
    ensures held { OnOk result ((T.state tree.new).held ≡ option_map (out_at paths.now) (T.state tree.old).held) }
    ensures kept { ChangesOnly paths.now (T.state tree.old).held (T.state tree.new).held }
    ensures among { AreAmong begun.new.paths.items (begun.old.paths.items ++ paths.now) }
    ensures none { paths.now ≡ [] → (begun.new.writers.items ≡ begun.old.writers.items) × (T.state tree.new ≡ T.state tree.old) }
    ensures later { T.faults tree.old ≤ T.faults tree.new }
    ensures ok { OnOk result (T.faults tree.new ≡ T.faults tree.old) }
    ensures failed { IsErrOf result WorldErr.Failed → Rose (T.faults tree.old) (T.faults tree.new) }
{
    let mut left = paths;
    while let [path, rest @ ..] = left {
        open_file(path, begun, tree)?;
        left = rest;
    }
    Ok(())
}

/// Opens a file behind those that are open.
#[tactic(auto, using(crate::proofs::WriterLemmas::writer_steps))]
fn open_file<T: Tree>(
    path: &Path,
    begun: &mut Begun<T::Writer>,
    tree: &mut T,
) -> Result<(), WorldErr>
    requires there { IfSome (T.state tree.old).held (λ files. IsFileAt files path.now) }
    ensures texts { (files : Files) → (T.state tree.old).held ≡ Some files
        → OnOk result (each_of T.Writer.taken begun.new.writers.items ≡ each_of T.Writer.taken begun.old.writers.items ++ Some (bytes_at files path.now) ∷ []) }
    ensures paths { OnOk result (begun.new.paths.items ≡ begun.old.paths.items ++ path.now ∷ []) }
    ensures count { length begun.old.writers.items ≡ length begun.old.paths.items → length begun.new.writers.items ≡ length begun.new.paths.items }
    ensures fresh { has_count (each_of T.Writer.faults begun.old.writers.items) ≡ false → has_count (each_of T.Writer.faults begun.new.writers.items) ≡ false }
    ensures out { (first : TreeState) (count : ℕ) → AreOut (length begun.old.writers.items + count) first (T.state tree.old)
        → AreOut (length begun.new.writers.items + count) first (T.state tree.new) }
    ensures held { OnOk result ((T.state tree.new).held ≡ option_map (out_at (path.now ∷ [])) (T.state tree.old).held) }
    ensures kept { ChangesOnly (path.now ∷ []) (T.state tree.old).held (T.state tree.new).held }
    ensures among { AreAmong begun.new.paths.items (begun.old.paths.items ++ path.now ∷ []) }
    ensures later { T.faults tree.old ≤ T.faults tree.new }
    ensures ok { OnOk result (T.faults tree.new ≡ T.faults tree.old) }
    ensures failed { IsErrOf result WorldErr.Failed → Rose (T.faults tree.old) (T.faults tree.new) }
{
    let copy = path.copy()?;
    let writer = tree.create(path, Mode::Append)?;
    match begun.add(copy, writer) {
        Ok(()) => Ok(()),
        Err(writer) => {
            let _ = tree.end_write(path, writer);
            Err(WorldErr::Memory)
        }
    }
}

/// Ends writers, the last first: what each has taken is its file then.
///
/// All are given back, whatever comes. The answer is the first error.
pub(crate) fn end_writers<T: Tree>(
    writers: Vec<(u32, T::Writer)>,
    paths: Vec<Path>,
    tree: &mut T,
) -> Result<(), WorldErr>
    requires paths { length writers.items ≡ length paths.items }
    ensures { Returns T.Writer.taken T.Writer.faults paths.items writers.items (T.state tree.old) (T.state tree.new) (T.faults tree.old) (T.faults tree.new) result }
{
    let mut writers = writers;
    let mut paths = paths;
    let mut ended = Ok(());
    while let Some((_number, writer)) = writers.pop() {
        match paths.pop() {
            Some(path) => ended = first_error(ended, tree.end_write(&path, writer)),
            None => unreachable!(),
        }
    }
    writers.destroy_empty();
    ended
}

/// The first error of two answers, if there is one.
fn first_error(one: Result<(), WorldErr>, other: Result<(), WorldErr>) -> Result<(), WorldErr>
    ensures { result ≡ earlier one other }
{
    match one {
        Ok(()) => other,
        Err(error) => Err(error),
    }
}
