//! The job of a node's thread, and what it gives back.

use crate::came::run_node;
use crate::ends::OwnEnd;
use crate::failures::AnyFailure;
use crate::nodes::{NodeDone, NodeJob};
use fl_graph::Machine;
use fl_threads::Job;
use ps_world::{Gate, Reach};
use std::sync::Wait;

impl<'a, M: Machine, E: OwnEnd + Drop + Send, G: Gate> Job for NodeJob<'a, M, E, G> {
    ghost use Rattle.fl_nodes.specs.Came.{NodeCame};

    type Shared = AnyFailure;

    type Done = NodeDone<E>;

    ghost comes = { λ job done. NodeCame job done };

    fn run<H: Wait>(self, rt: &H, in_run: &AnyFailure) -> NodeDone<E> {
        let (number, gate) = (self.number, self.gate);
        gate.reach(number, Reach::First);
        let done = run_node(rt, in_run, self);
        gate.reach(number, Reach::Last);
        done
    }
}
