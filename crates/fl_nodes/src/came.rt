//! A node on its thread.
ghost use Rattle.fl_nodes.specs.Came.{NodeCame};

use crate::ends::OwnEnd;
use crate::failures::AnyFailure;
use crate::nodes::{NodeDone, NodeJob};
use crate::work::work;
use crate::worker::Worker;
use fl_graph::Machine;
use std::sync::Wait;

/// Runs a node to its stop, among the nodes of a run.
pub(crate) fn run_node<'a, M: Machine, E: OwnEnd, G, H: Wait>(
    rt: &H,
    in_run: &AnyFailure,
    job: NodeJob<'a, M, E, G>,
) -> NodeDone<E>
    ensures { NodeCame job.entry result }
{
    let NodeJob {
        number,
        machine,
        takers,
        givers,
        own,
        alloc,
        gate: _,
    } = job;
    let mut worker = Worker {
        machine,
        takers,
        givers,
        own,
        failure: None,
    };
    work(rt, alloc, in_run, &mut worker);
    let Worker {
        machine,
        takers,
        givers,
        own,
        failure,
    } = worker;
    let selected = machine.selected();
    NodeDone {
        number,
        takers,
        givers,
        own,
        failure,
        selected,
    }
}
