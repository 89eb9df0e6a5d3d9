//! Runs over a graph's own ends.
ghost use Rattle.std.specs.Prelude.{◌≡◌, ◌<◌, ◌+◌, ◌++◌, [], ◌∷◌, true, length, map, take, IfOk};
ghost use Rattle.fl_graph.specs.Valid.{Valid};
ghost use Rattle.fl_classes.specs.Kinds.{are_run};
ghost use Rattle.fl_core.specs.EndLists.{file_nodes, file_sources, given_back, has_file as has_file_def, numbers_of, numbers_where};
ghost use Rattle.fl_engines.specs.OwnEnds.{HasOwnEnds, RunsOwn, came_at, came_by, came_of};

use crate::engines::Engine;
use fl_core::{Ends, Ran};
use fl_graph::{From, Graph, Node, NodeKind, To};
use ps_lines::Memory;
use ps_world::{Gate, Sink, Source};
use std::alloc::Global;

/// How a run came out, by the kind of the end that failed where one did.
#[derive(Clone, Copy, Debug, PartialEq, Eq)]
pub enum Came {
    /// The graph has run to its end, with this exit status.
    Done(u8),
    /// Standard input failed.
    Input,
    /// Standard output failed.
    Output,
    /// The reader of a file failed.
    Reader,
    /// The writer of a file failed.
    Writer,
    /// Memory was refused.
    Memory,
}

/// What came of a run over a graph's own ends, and these.
#[derive(Debug, Drop)]
pub struct Over<R, W, I, O> {
    pub came: Came,
    pub ends: Ends<R, W, I, O>,
}

/// Runs a graph on an engine over its own ends, and gives them back in their order.
///
/// The ends of files are those of the graph's nodes, numbered and in order: one for each node that reads a file among the readers, one for
/// each that writes a file among the writers. Done leaves what the graph leaves, by its outcome. After another answer each end has taken a
/// front of it. A fault comes only where the count of an end of its kind rose; on threads other ends may have failed too. Where none comes no
/// count has changed.
pub fn run_own<
    X: Engine,
    R: Source + Send,
    W: Sink + Send,
    I: Source + Send,
    O: Sink + Send,
    G: Gate,
>(
    alloc: Global,
    engine: &mut X,
    graph: &Graph,
    ends: Ends<R, W, I, O>,
    gate: &G,
) -> Over<R, W, I, O>
    requires valid { Valid graph.now.nodes graph.now.status }
    requires kinds { are_run graph.now.nodes ≡ true }
    requires ends { HasOwnEnds graph.now.nodes ends }
    ensures { RunsOwn R.left I.left W.taken O.taken R.faults W.faults I.faults O.faults graph.now ends (X.used engine.old) (X.used engine.new) result.came result.ends }
{
    let ran = engine.run_graph(alloc, graph, ends, gate);
    came_out(graph, ran)
}

/// What came of a run, by its end that failed.
fn came_out<R: Source, W: Sink, I: Source, O: Sink>(
    graph: &Graph,
    ran: Ran<R, W, I, O>,
) -> Over<R, W, I, O>
    ensures came { result.came ≡ came_of graph.now.nodes ran }
    ensures ends { result.ends ≡ given_back ran }
{
    match ran {
        Ran::Done(status, ends) => Over {
            came: Came::Done(status),
            ends,
        },
        Ran::Fault(node, ends) => Over {
            came: failed_at(graph, node),
            ends,
        },
        Ran::Memory(ends) => Over {
            came: Came::Memory,
            ends,
        },
    }
}

/// What the fault of a node is: that of its end. A node without an end has none.
fn failed_at(graph: &Graph, node: u32) -> Came
    ensures { result ≡ came_at graph.now.nodes node }
{
    match graph.nodes.as_slice().get(node as usize) {
        Some(node) => failed_end(&node.kind),
        None => Came::Memory,
    }
}

/// What the fault of a node of this kind is.
fn failed_end(kind: &NodeKind) -> Came
    ensures { result ≡ came_by kind.now }
{
    match kind {
        NodeKind::Source(From::Input) => Came::Input,
        NodeKind::Source(From::File(_)) => Came::Reader,
        NodeKind::Sink(To::Output) => Came::Output,
        NodeKind::Sink(To::File(..)) => Came::Writer,
        NodeKind::TeeFile(..) => Came::Writer,
        _ => Came::Memory,
    }
}

/// Numbers the ends of files by the nodes of a graph, in order: the readers by those that read a file, the writers by those that write one.
/// The answer is whether there are as many ends as nodes, of each kind; then these are the graph's own ends. Ends stay in their order. A
/// node without a number of 32 bits wants memory.
pub fn number_ends<R, W, I, O>(graph: &Graph, ends: &mut Ends<R, W, I, O>) -> Result<bool, Memory>
    ensures own { IfOk result (λ fit. fit ≡ true → HasOwnEnds graph.now.nodes ends.new) }
    ensures fit { IfOk result (λ fit. length ends.old.readers.items ≡ length (file_sources 0 graph.now.nodes) →
        length ends.old.writers.items ≡ length (file_nodes 0 graph.now.nodes) → fit ≡ true) }
    ensures readers { map (λ entry. entry.1) ends.new.readers.items ≡ map (λ entry. entry.1) ends.old.readers.items }
    ensures writers { map (λ entry. entry.1) ends.new.writers.items ≡ map (λ entry. entry.1) ends.old.writers.items }
    ensures input { ends.new.input ≡ ends.old.input }
    ensures out { ends.new.out ≡ ends.old.out }
{
    let nodes = graph.nodes.as_slice();
    let readers = number_entries(nodes, ends.readers.as_mut_slice(), false)?;
    let writers = number_entries(nodes, ends.writers.as_mut_slice(), true)?;
    Ok(readers && writers)
}

/// Numbers these ends by the nodes that read a file, or by those that write one, and answers whether there are as many.
fn number_entries<End>(
    nodes: &[Node],
    entries: &mut [(u32, End)],
    written: bool,
) -> Result<bool, Memory>
    ensures own { IfOk result (λ fit. fit ≡ true → numbers_of entries.new ≡ numbers_where (has_file_def written) 0 nodes.now) }
    ensures fit { IfOk result (λ fit. length entries.old ≡ length (numbers_where (has_file_def written) 0 nodes.now) → fit ≡ true) }
    ensures ends { map (λ entry. entry.1) entries.new ≡ map (λ entry. entry.1) entries.old }
{
    let mut place = 0;
    for number in 0..nodes.len() {
        if has_file(&nodes[number].kind, written) {
            if place == entries.len() {
                return Ok(false);
            }
            let Ok(narrow) = u32::try_from(number) else {
                return Err(Memory);
            };
            set_number(entries, place, narrow);
            place += 1;
        }
    }
    Ok(place == entries.len())
}

/// Numbers the end at a place.
fn set_number<End>(entries: &mut [(u32, End)], place: usize, number: u32)
    requires { place < length entries.old }
    ensures ends { map (λ entry. entry.1) entries.new ≡ map (λ entry. entry.1) entries.old }
    ensures front { numbers_of (take (place + 1) entries.new) ≡ numbers_of (take place entries.old) ++ number ∷ [] }
{
    entries[place].0 = number;
}

/// Whether a node of this kind writes a file, or reads one.
fn has_file(kind: &NodeKind, written: bool) -> bool
    ensures { result ≡ has_file_def written kind.now }
{
    if written {
        matches!(kind, NodeKind::Sink(To::File(..)) | NodeKind::TeeFile(..))
    } else {
        matches!(kind, NodeKind::Source(From::File(_)))
    }
}
