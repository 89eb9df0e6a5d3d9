//! Graphs that are run as they are.
ghost use Rattle.std.specs.Prelude.{◌≡◌, ◌≤◌, [], ◌∷◌, None, IfOk, IfSome, IsErrOf, OnOk};
ghost use Rattle.std.specs.Option.{option_copied, option_map};
ghost use Rattle.ps_world.specs.Counts.{Counts, Rose};
ghost use Rattle.ps_world.specs.Files.{CanBeMade, NoWriterOut};
ghost use Rattle.ps_world.specs.Paths.{spelled};
ghost use Rattle.ps_world.specs.Places.{resolve};
ghost use Rattle.ps_world.specs.TreeState.{Balanced, TreeState};
ghost use Rattle.fl_graph.specs.Paths.{paths_written};
ghost use Rattle.fl_graph.specs.Valid.{Valid};
ghost use Rattle.fl_commands.specs.Graphs.{Executes, begun_at, begun_for, files_begun, first_lacking as first_lacking_def, has_patterns as has_patterns_def, is_file as is_file_def, is_target as is_target_def, lacking as lacking_def, read_all_patterns as read_all_patterns_def, reads_patterns as reads_patterns_def, target as target_def, unless as unless_def};
ghost use Rattle.fl_commands.specs.Inner.Begun.{AllCanBegin, CanBegin, aimed_at};
ghost use Rattle.fl_commands.specs.Runs.{counts_of};
ghost use Rattle.fl_commands.specs.Writers.{ChangesOnly};

use crate::runs::{Commanded, of_tree, run_graph};
use fl_engines::Engine;
use fl_graph::{Graph, Node, NodeKind, To, path_read, path_written};
use ps_lines::Memory;
use ps_world::{Gate, Mode, Path, Place, Sink, Source, Tree, WorldErr, look};
use std::alloc::Global;
use ut_args::Inv;
use ut_grep::first_faulty;

/// Whether all patterns of a graph's maps and wholes of `grep` are read. Of one that isn't no stream can be made.
pub fn read_all_patterns(alloc: Global, nodes: &[Node]) -> Result<bool, Memory>
    ensures { IfOk result (λ all. all ≡ read_all_patterns_def nodes.now) }
{
    for node in nodes {
        if !reads_patterns(alloc, &node.kind)? {
            return Ok(false);
        }
    }
    Ok(true)
}

/// Whether the patterns of a node of this kind are read, where it has some.
fn reads_patterns(alloc: Global, kind: &NodeKind) -> Result<bool, Memory>
    ensures { IfOk result (λ all. all ≡ reads_patterns_def kind.now) }
{
    match kind {
        NodeKind::Map(inv) => has_patterns(alloc, inv),
        NodeKind::Whole(inv) => has_patterns(alloc, inv),
        _ => Ok(true),
    }
}

/// Whether the patterns of an invocation are read, where it has some.
fn has_patterns(alloc: Global, inv: &Inv) -> Result<bool, Memory>
    ensures { IfOk result (λ all. all ≡ has_patterns_def inv.now) }
{
    match inv {
        Inv::Grep(grep) => Ok(first_faulty(alloc, grep)?.is_none()),
        _ => Ok(true),
    }
}

/// The path of the first node whose file isn't there to be read, or neither is there nor can be made to be written.
///
/// Each path is looked up by its text, so that what is behind a file isn't asked. The tree is as it was. A fault is the tree's.
pub fn first_lacking<'graph, T: Tree>(
    alloc: Global,
    nodes: &'graph [Node],
    tree: &mut T,
) -> Result<Option<&'graph Path>, WorldErr>
    ensures lacking { IfOk result (λ found. IfSome (T.state tree.old).held (λ files. option_copied found ≡ first_lacking_def files (T.state tree.old).home nodes.now)) }
    ensures state { T.state tree.new ≡ T.state tree.old }
    ensures cause { Counts (T.faults tree.old) (T.faults tree.new) result }
{
    let mut left = nodes;
    while let [node, rest @ ..] = left {
        if let Some(path) = lacking(alloc, &node.kind, tree)? {
            return Ok(Some(path));
        }
        left = rest;
    }
    Ok(None)
}

/// The path of a node's file, where it isn't there to be read, or can't be written.
fn lacking<'graph, T: Tree>(
    alloc: Global,
    kind: &'graph NodeKind,
    tree: &mut T,
) -> Result<Option<&'graph Path>, WorldErr>
    ensures lacking { IfOk result (λ found. IfSome (T.state tree.old).held (λ files. option_copied found ≡ lacking_def files (T.state tree.old).home kind.now)) }
    ensures state { T.state tree.new ≡ T.state tree.old }
    ensures cause { Counts (T.faults tree.old) (T.faults tree.new) result }
{
    match path_read(kind) {
        Some(path) => unread(alloc, path, tree),
        None => match path_written(kind) {
            Some(path) => unmade(alloc, path, tree),
            None => Ok(None),
        },
    }
}

/// The path, where no file is there.
fn unread<'graph, T: Tree>(
    alloc: Global,
    path: &'graph Path,
    tree: &mut T,
) -> Result<Option<&'graph Path>, WorldErr>
    ensures unread { IfOk result (λ found. IfSome (T.state tree.old).held (λ files.
        option_copied found ≡ unless_def (is_file_def path.now (resolve files (T.state tree.old).home (spelled path.now))) path.now)) }
    ensures state { T.state tree.new ≡ T.state tree.old }
    ensures cause { Counts (T.faults tree.old) (T.faults tree.new) result }
{
    let place = named(alloc, path, tree)?;
    Ok(unless(is_file(path, &place), path))
}

/// The path, where neither a file is there nor one can be made.
fn unmade<'graph, T: Tree>(
    alloc: Global,
    path: &'graph Path,
    tree: &mut T,
) -> Result<Option<&'graph Path>, WorldErr>
    ensures unmade { IfOk result (λ found. IfSome (T.state tree.old).held (λ files.
        option_copied found ≡ unless_def (is_target_def path.now (resolve files (T.state tree.old).home (spelled path.now))) path.now)) }
    ensures state { T.state tree.new ≡ T.state tree.old }
    ensures cause { Counts (T.faults tree.old) (T.faults tree.new) result }
{
    let place = named(alloc, path, tree)?;
    Ok(unless(is_target(path, &place), path))
}

/// What the text of a path names.
fn named<T: Tree>(alloc: Global, path: &Path, tree: &mut T) -> Result<Place, WorldErr>
    ensures place { IfOk result (λ place. IfSome (T.state tree.old).held (λ files. place ≡ resolve files (T.state tree.old).home (spelled path.now))) }
    ensures state { T.state tree.new ≡ T.state tree.old }
    ensures cause { Counts (T.faults tree.old) (T.faults tree.new) result }
{
    let text = path.spell(alloc)?;
    look(alloc, tree, text.as_slice())
}

/// Whether what the text of a path names is the file at this path.
fn is_file(path: &Path, place: &Place) -> bool
    ensures { result ≡ is_file_def path.now place.now }
{
    match place {
        Place::File(found) => found == path,
        Place::Missing | Place::Makeable(_) | Place::Dir(_) | Place::Null => false,
    }
}

/// Whether it is, or one can be made there.
fn is_target(path: &Path, place: &Place) -> bool
    ensures { result ≡ is_target_def path.now place.now }
{
    match place {
        Place::Makeable(found) => found == path,
        Place::File(found) => found == path,
        Place::Missing | Place::Dir(_) | Place::Null => false,
    }
}

/// The path, where the test fails.
fn unless<'graph>(passes: bool, path: &'graph Path) -> Option<&'graph Path>
    ensures { option_copied result ≡ unless_def passes path.now }
{
    if passes { None } else { Some(path) }
}

/// Runs a graph over the files of a tree, the input and the output.
///
/// Each file that it writes is begun before anything is read: anew, or behind what it holds, by its node's mode. Done leaves the graph's outcome,
/// for the texts of the input and of the files as they were, and its words behind those that the engine has noted; after any other answer a
/// front of the output is written. The input is read to its end where a node reads it, and is left as it is elsewhere. Each reader and writer
/// that the tree lent has gone back to it. A fault is told only where the count of its object rose.
///
/// `first_lacking` tells whether all files are there or can be made, and `read_all_patterns` whether each stream can be made. Where one can't,
/// the answer is want of memory.
pub fn execute<T: Tree, I: Source + Send, O: Sink + Send, G: Gate, X: Engine>(
    alloc: Global,
    graph: &Graph,
    tree: &mut T,
    input: I,
    out: O,
    gate: &G,
    engine: &mut X,
) -> Commanded<I, O>
    requires valid { Valid graph.now.nodes graph.now.status }
    requires there { IfSome (T.state tree.old).held (λ files. first_lacking_def files (T.state tree.old).home graph.now.nodes ≡ None) }
    requires whole { IfSome (T.state tree.old).held NoWriterOut }
    ensures { Executes graph.now (T.state tree.old) (T.state tree.new) (I.left input) (I.left result.input) (O.taken out) (O.taken result.out)
        (counts_of (I.faults input) (O.faults out) (T.faults tree.old)) (counts_of (I.faults result.input) (O.faults result.out) (T.faults tree.new))
        (X.used engine.old) (X.used engine.new) result.ended }
{
    match begin_files(graph.nodes.as_slice(), tree) {
        Ok(()) => run_graph(alloc, graph, tree, input, out, gate, engine),
        Err(error) => Commanded {
            ended: of_tree(error),
            input,
            out,
        },
    }
}

/// Begins the files that nodes write, in their order.
fn begin_files<T: Tree>(nodes: &[Node], tree: &mut T) -> Result<(), WorldErr>
    requires made { IfSome (T.state tree.old).held (λ files. AllCanBegin files nodes.now) }
    ensures held { OnOk result ((T.state tree.new).held ≡ option_map (files_begun nodes.now) (T.state tree.old).held) }
    ensures kept { ChangesOnly (paths_written nodes.now) (T.state tree.old).held (T.state tree.new).held }
    ensures lent { (first : TreeState) → Balanced first (T.state tree.old) → Balanced first (T.state tree.new) }
    ensures later { T.faults tree.old ≤ T.faults tree.new }
    ensures ok { OnOk result (T.faults tree.new ≡ T.faults tree.old) }
    ensures failed { IsErrOf result WorldErr.Failed → Rose (T.faults tree.old) (T.faults tree.new) }
{
    let mut left = nodes;
    while let [node, rest @ ..] = left {
        begin_for(target(&node.kind), tree)?;
        left = rest;
    }
    Ok(())
}

/// The file that a node of this kind writes, and how.
fn target(kind: &NodeKind) -> Option<(&Path, Mode)>
    ensures { option_map (λ aim. (aim.0.now, aim.1)) result ≡ target_def kind.now }
{
    match kind {
        NodeKind::TeeFile(path, mode) => Some((path, *mode)),
        NodeKind::Sink(To::File(path, mode)) => Some((path, *mode)),
        _ => None,
    }
}

/// Begins a file that is written so, if there is one.
fn begin_for<T: Tree>(aim: Option<(&Path, Mode)>, tree: &mut T) -> Result<(), WorldErr>
    requires made { IfSome (T.state tree.old).held (λ files. CanBegin files (option_map (λ it. (it.0.now, it.1)) aim)) }
    ensures held { OnOk result ((T.state tree.new).held ≡ option_map (begun_for (option_map (λ it. (it.0.now, it.1)) aim.entry)) (T.state tree.old).held) }
    ensures kept { ChangesOnly (aimed_at (option_map (λ it. (it.0.now, it.1)) aim.entry)) (T.state tree.old).held (T.state tree.new).held }
    ensures lent { (first : TreeState) → Balanced first (T.state tree.old) → Balanced first (T.state tree.new) }
    ensures later { T.faults tree.old ≤ T.faults tree.new }
    ensures ok { OnOk result (T.faults tree.new ≡ T.faults tree.old) }
    ensures failed { IsErrOf result WorldErr.Failed → Rose (T.faults tree.old) (T.faults tree.new) }
{
    match aim {
        Some((path, mode)) => begin_file(path, mode, tree),
        None => Ok(()),
    }
}

/// Makes a file, or begins one that is there: anew, or behind the bytes that it has.
#[tactic(auto, using(crate::proofs::WriterLemmas::writer_steps))]
fn begin_file<T: Tree>(path: &Path, mode: Mode, tree: &mut T) -> Result<(), WorldErr>
    requires made { IfSome (T.state tree.old).held (λ files. CanBeMade files path.now) }
    ensures held { OnOk result ((T.state tree.new).held ≡ option_map (begun_at path.now mode) (T.state tree.old).held) }
    ensures kept { ChangesOnly (path.now ∷ []) (T.state tree.old).held (T.state tree.new).held }
    ensures lent { (first : TreeState) → Balanced first (T.state tree.old) → Balanced first (T.state tree.new) }
    ensures later { T.faults tree.old ≤ T.faults tree.new }
    ensures ok { OnOk result (T.faults tree.new ≡ T.faults tree.old) }
    ensures failed { IsErrOf result WorldErr.Failed → Rose (T.faults tree.old) (T.faults tree.new) }
{
    let writer = tree.create(path, mode)?;
    tree.end_write(path, writer)
}
