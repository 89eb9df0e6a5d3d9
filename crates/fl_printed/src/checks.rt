//! Texts of graphs that are to run.
ghost use Rattle.std.specs.Prelude.{◌≡◌, Ok, IfOk, IfSome};
ghost use Rattle.ps_world.specs.Counts.{Counts};
ghost use Rattle.fl_graph.specs.Valid.{Valid};
ghost use Rattle.fl_text.specs.Readings.{of_graph, reading};
ghost use Rattle.fl_printed.specs.Checks.{CanRun, checked_over, unfit_over};

use fl_commands::{first_lacking, read_all_patterns};
use fl_graph::Graph;
use fl_text::{TextFault, read};
use ps_lines::Text;
use ps_world::{Tree, WorldErr};
use std::alloc::Global;

/// Why a text isn't that of a graph that can run.
#[derive(Debug, PartialEq, Eq, Drop)]
pub enum Unfit {
    /// It is no JSON.
    NotJson,
    /// It is a JSON object of another version.
    BadVersion,
    /// It is JSON, but not that of a valid graph, or one of the graph's patterns can't be read.
    NotGraph,
    /// A file isn't there to be read, or neither is there nor can be made to be written: the text of its path, from the root.
    NoFile(Text),
}

/// The graph of a text, where it can run over the files of a tree, or why it can't.
///
/// The faults of the text are told first, as `fl_text::read` tells them, then that a pattern can't be read, and then the first file that is
/// lacking, in the order of the nodes. The tree is as it was. A fault is the tree's.
pub fn check<T: Tree>(
    alloc: Global,
    text: &[u8],
    tree: &mut T,
) -> Result<Result<Graph, Unfit>, WorldErr>
    ensures checked { IfOk result (λ checked. IfSome (T.state tree.old).held (λ files.
        checked ≡ checked_over files (T.state tree.old).home (reading text.now))) }
    ensures runs { IfOk result (λ checked. IfOk checked (CanRun (T.state tree.old))) }
    ensures state { T.state tree.new ≡ T.state tree.old }
    ensures cause { Counts (T.faults tree.old) (T.faults tree.new) result }
{
    match read(alloc, text) {
        Ok(graph) => check_graph(alloc, graph, tree),
        Err(TextFault::NotJson) => Ok(Err(Unfit::NotJson)),
        Err(TextFault::BadVersion) => Ok(Err(Unfit::BadVersion)),
        Err(TextFault::NotGraph) => Ok(Err(Unfit::NotGraph)),
        Err(TextFault::Memory) => Err(WorldErr::Memory),
    }
}

/// The graph, where it can run, or why it can't.
fn check_graph<T: Tree>(
    alloc: Global,
    graph: Graph,
    tree: &mut T,
) -> Result<Result<Graph, Unfit>, WorldErr>
    requires valid { Valid graph.nodes graph.status }
    ensures checked { IfOk result (λ checked. IfSome (T.state tree.old).held (λ files.
        checked ≡ checked_over files (T.state tree.old).home (of_graph graph))) }
    ensures runs { IfOk result (λ checked. IfOk checked (CanRun (T.state tree.old))) }
    ensures state { T.state tree.new ≡ T.state tree.old }
    ensures cause { Counts (T.faults tree.old) (T.faults tree.new) result }
{
    match find_cause(alloc, &graph, tree) {
        Ok(None) => Ok(Ok(graph)),
        Ok(Some(cause)) => {
            drop(graph);
            Ok(Err(cause))
        }
        Err(error) => {
            drop(graph);
            Err(error)
        }
    }
}

/// Why a graph can't run.
fn find_cause<T: Tree>(
    alloc: Global,
    graph: &Graph,
    tree: &mut T,
) -> Result<Option<Unfit>, WorldErr>
    ensures found { IfOk result (λ found. IfSome (T.state tree.old).held (λ files. found ≡ unfit_over files (T.state tree.old).home graph.now)) }
    ensures state { T.state tree.new ≡ T.state tree.old }
    ensures cause { Counts (T.faults tree.old) (T.faults tree.new) result }
{
    if !read_all_patterns(alloc, graph.nodes.as_slice())? {
        return Ok(Some(Unfit::NotGraph));
    }
    match first_lacking(alloc, graph.nodes.as_slice(), tree)? {
        Some(path) => {
            let text = path.spell(alloc)?;
            Ok(Some(Unfit::NoFile(Text::from_vec(text))))
        }
        None => Ok(None),
    }
}
