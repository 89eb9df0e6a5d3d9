//! The engine over lists of ends.
ghost use Rattle.std.specs.Prelude.{◌≡◌, true};
ghost use Rattle.fl_graph.specs.Valid.{Valid};
ghost use Rattle.fl_classes.specs.Kinds.{are_run};
ghost use Rattle.fl_core.specs.EndLists.{HasItsEnds};
ghost use Rattle.fl_core.specs.GraphRuns.{HasRun};

use crate::engine::{Ending, run_over_ends};
use crate::numbered_ends::NumberedEnds;
use crate::roles::roles_of;
use fl_graph::Graph;
use ps_world::{Sink, Source};
use std::alloc::Global;

/// The ends of a graph's nodes: what its sources read, and what those write that write outside.
///
/// A node that reads or writes a file has the first end with its number.
#[derive(Debug, Drop)]
pub struct Ends<R, W, I, O> {
    /// What the sources of files read, each with the number of its node.
    pub readers: Vec<(u32, R)>,
    /// What the nodes that write files do, each with the number of its node.
    pub writers: Vec<(u32, W)>,
    /// What the source of standard input reads, where there is one.
    pub input: I,
    /// What the sink of standard output writes, where there is one.
    pub out: O,
}

/// What came of a run, and the ends.
#[derive(Debug, Drop)]
pub enum Ran<R, W, I, O> {
    /// The graph has run to its end, with this exit status.
    Done(u8, Ends<R, W, I, O>),
    /// The end of this node failed.
    Fault(u32, Ends<R, W, I, O>),
    /// Memory was refused.
    Memory(Ends<R, W, I, O>),
}

/// Runs a graph to its end on this thread, its nodes in turn, and gives the ends back in their order.
///
/// Done comes where each node has stopped: the output and each file's writer have grown by their texts of the graph's outcome, and so the
/// end of each node that writes by its text of the graph's flow, each source's end is read to its end, and the status is the graph's. A
/// fault is that of the lowest node whose end failed. After a fault and after Memory the end of each node that writes has grown by a
/// front of its text. `validate`, `are_run` and `have_ends` are the tests of what the caller owes.
pub fn run_in_turn<R: Source, W: Sink, I: Source, O: Sink>(
    alloc: Global,
    graph: &Graph,
    ends: Ends<R, W, I, O>,
) -> Ran<R, W, I, O>
    requires valid { Valid graph.now.nodes graph.now.status }
    requires kinds { are_run graph.now.nodes ≡ true }
    requires ends { HasItsEnds graph.now.nodes ends }
    ensures { HasRun R.left I.left W.taken O.taken R.faults W.faults I.faults O.faults graph.now ends result }
{
    let roles = match roles_of(alloc, graph, &ends) {
        Ok(roles) => roles,
        Err(_refused) => return Ran::Memory(ends),
    };
    let mut numbered = NumberedEnds { ends, roles };
    let ending = run_over_ends(alloc, graph, &mut numbered);
    let NumberedEnds {
        ends,
        roles: _roles,
    } = numbered;
    match ending {
        Ending::Done(status) => Ran::Done(status, ends),
        Ending::Fault(node) => Ran::Fault(node, ends),
        Ending::Memory => Ran::Memory(ends),
    }
}
