//! What nodes begin with.
ghost use Rattle.std.specs.Prelude.{◌≡◌, true, IfOk};
ghost use Rattle.std.specs.List.{list_all};
ghost use Rattle.fl_classes.specs.Kinds.{are_run};
ghost use Rattle.fl_edges.specs.Halves.{AreDealt};
ghost use Rattle.fl_graph.specs.Kinds.{has_its_ports, reads_one_input, runs_what_is_built};
ghost use Rattle.fl_graph.specs.Valid.{Valid};
ghost use Rattle.fl_runner.specs.Starts.{AreStarts};

use fl_core::{NodeMachine, machine_of};
use fl_edges::{NodeHalves, deal, make_halves};
use fl_graph::{Graph, Machine, Node};
use fl_net::{edge_count, rooms_of};
use ps_lines::Memory;
use std::alloc::Global;

/// How many pieces may wait on an edge that is bounded.
const ROOM: u32 = 8;

/// What a node begins with: its machine, and the halves of its edges.
#[derive(Drop)]
pub(crate) struct NodeStart<M> {
    pub(crate) machine: M,
    pub(crate) halves: NodeHalves,
}

/// What each node of a graph begins with.
///
/// An edge that leads into a node of one in has room for some pieces, and no other has a bound: a node of many ins reads them in an order of its
/// own, so its giver may not have to wait at a later one while it waits at an earlier one.
pub(crate) fn starts_of(alloc: Global, graph: &Graph) -> Result<Vec<NodeStart<NodeMachine>>, Memory>
    requires valid { Valid graph.now.nodes graph.now.status }
    requires kinds { are_run graph.now.nodes ≡ true }
    ensures { IfOk result (λ starts. AreStarts ⟦<NodeMachine as Machine>⟧.state graph.now.nodes starts.items) }
{
    let nodes = graph.nodes.as_slice();
    let edges = edge_count(nodes)?;
    let rooms = rooms_of(alloc, nodes, edges, Some(ROOM))?;
    let halves = make_halves(alloc, rooms.as_slice())?;
    let dealt = deal(alloc, nodes, halves)?;
    start_each(alloc, nodes, dealt)
}

/// What each of these nodes begins with, where it has these halves.
fn start_each(
    alloc: Global,
    nodes: &[Node],
    dealt: Vec<NodeHalves>,
) -> Result<Vec<NodeStart<NodeMachine>>, Memory>
    requires ports { list_all has_its_ports nodes.now ≡ true }
    requires inputs { list_all (λ cell. reads_one_input cell.kind) nodes.now ≡ true }
    requires built { list_all (λ cell. runs_what_is_built cell.kind) nodes.now ≡ true }
    requires kinds { are_run nodes.now ≡ true }
    requires dealt { AreDealt nodes.now dealt.items }
    ensures { IfOk result (λ starts. AreStarts ⟦<NodeMachine as Machine>⟧.state nodes.now starts.items) }
{
    let mut starts = Vec::new(alloc);
    let mut node = 0;
    for halves in dealt {
        let machine = machine_of(alloc, &nodes[node])?;
        starts.push(NodeStart { machine, halves })?;
        node += 1;
    }
    Ok(starts)
}
