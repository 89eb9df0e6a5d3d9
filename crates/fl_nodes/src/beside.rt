//! Nodes beside each other.
ghost use Rattle.fl_nodes.specs.Came.{NodeCame};
ghost use Rattle.fl_threads.specs.Threads.{BesideIs};

use crate::ends::OwnEnd;
use crate::failures::AnyFailure;
use crate::nodes::{NodeDone, NodeJob};
use fl_graph::Machine;
use fl_threads::{Beside, run_beside};
use ps_world::Gate;
use std::alloc::Global;
use std::sync::Wait;
use std::thread::Threads;

/// Runs each node on a thread of its own. All of them have passed the gate and run to their stops; or none has, and all are back. Where one has
/// failed, those that read outside break off before their next read.
pub fn run_nodes<'a, M: Machine + Send, E: OwnEnd + Drop + Send, G: Gate, H: Threads + Wait + Sync>(
    rt: &H,
    alloc: Global,
    jobs: Vec<NodeJob<'a, M, E, G>>,
) -> Beside<NodeJob<'a, M, E, G>, NodeDone<E>>
    ensures { BesideIs (λ job done. NodeCame job done) jobs.entry.items result }
{
    run_beside(rt, alloc, &AnyFailure::new(), jobs)
}
