//! The readers and writers of the files of a graph.
ghost use Rattle.std.specs.Prelude.{◌≡◌, ◌≤◌, [], length, IfOk, IfSome, IsErrOf, OnErr, OnOk};
ghost use Rattle.ps_world.specs.Counts.{Rose};
ghost use Rattle.ps_world.specs.TreeState.{Balanced};
ghost use Rattle.fl_graph.specs.Paths.{paths_read, paths_written as paths_written_def};
ghost use Rattle.fl_commands.specs.Inner.Overs.{Lends};
ghost use Rattle.fl_commands.specs.Inner.Writing.{AreApart};
ghost use Rattle.fl_commands.specs.Writers.{AreFilesAt, ChangesOnly};

use crate::readers::{Opened, give_back, open_files};
use crate::writers::{Begun, open_writers, paths_written};
use fl_graph::Node;
use ps_world::{Path, Tree, WorldErr};
use std::alloc::Global;

/// What a tree has lent for the files of a graph's nodes.
pub(crate) struct Lent<R, W> {
    /// The readers of those that are read, in the order of the nodes.
    pub(crate) readers: Vec<(u32, R)>,
    /// Their paths.
    pub(crate) paths: Vec<Path>,
    /// The writers of those that are written, in the order of the nodes.
    pub(crate) writers: Vec<(u32, W)>,
    /// Their paths.
    pub(crate) written: Vec<Path>,
}

/// Opens the files of nodes, those that are written behind what they hold.
///
/// An error leaves none out. A fault is the tree's.
pub(crate) fn lend<T: Tree>(
    alloc: Global,
    nodes: &[Node],
    tree: &mut T,
) -> Result<Lent<T::Reader, T::Writer>, WorldErr>
    requires there { IfSome (T.state tree.old).held (λ files. AreFilesAt files (paths_read nodes.now)) }
    requires begun { IfSome (T.state tree.old).held (λ files. AreFilesAt files (paths_written_def nodes.now)) }
    requires apart { AreApart (paths_written_def nodes.now) }
    ensures lends { IfOk result (λ lent. Lends T.Reader.left T.Reader.faults T.Writer.taken T.Writer.faults (paths_read nodes.now) (paths_written_def nodes.now) (T.state tree.old) (T.state tree.new) lent.readers.items lent.writers.items) }
    ensures paths { IfOk result (λ lent. length lent.paths.items ≡ length lent.readers.items) }
    ensures written { IfOk result (λ lent. lent.written.items ≡ paths_written_def nodes.now) }
    ensures back { OnErr result (Balanced (T.state tree.old) (T.state tree.new)) }
    ensures kept { OnErr result (ChangesOnly (paths_written_def nodes.now) (T.state tree.old).held (T.state tree.new).held) }
    ensures held { paths_written_def nodes.now ≡ [] → OnErr result ((T.state tree.new).held ≡ (T.state tree.old).held) }
    ensures later { T.faults tree.old ≤ T.faults tree.new }
    ensures ok { OnOk result (T.faults tree.new ≡ T.faults tree.old) }
    ensures failed { IsErrOf result WorldErr.Failed → Rose (T.faults tree.old) (T.faults tree.new) }
{
    let written = paths_written(alloc, nodes)?;
    let opened = open_files(alloc, nodes, tree)?;
    let Opened { readers, paths } = opened;
    match open_writers(alloc, written.as_slice(), tree) {
        Ok(begun) => {
            let Begun {
                writers,
                paths: written,
            } = begun;
            Ok(Lent {
                readers,
                paths,
                writers,
                written,
            })
        }
        Err(error) => {
            give_back(readers, paths, tree);
            Err(error)
        }
    }
}
