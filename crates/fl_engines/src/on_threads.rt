//! The engine of threads.
ghost use Rattle.std.specs.Prelude.{◌≡◌, [], Some};
ghost use Rattle.fl_engines.specs.Logs.{Log, log_of};

use crate::engines::Engine;
use crate::journals::Journal;
use fl_graph::{Graph, NodeKind};
use ps_lines::Memory;
use std::alloc::Global;
use std::marker::Model;
use std::sync::Wait;
use std::thread::Threads;
use ut_options::Texts;

/// An engine that runs each node of a graph on a thread of its own, where two of them can work at the same time. It tells its width and the
/// words of the utilities that it has run, which is what contracts see of it.
#[derive(Drop)]
pub struct OnThreads<'a, H> {
    journal: Journal,
    host: &'a H,
}

impl<'a, H> Model for OnThreads<'a, H> {
    ghost Value = { Log };

    ghost view = { λ engine. engine.journal };
}

impl<'a, H: Threads + Wait + Sync> Engine for OnThreads<'a, H> {
    type Host = H;

    ghost used = { λ engine. Some engine };

    fn host(&self, graph: &Graph) -> Option<&H> {
        if works_at_once(graph) {
            Some(self.host)
        } else {
            None
        }
    }

    fn width(&self) -> u32 {
        self.journal.width()
    }

    fn spread_over(&mut self, width: u32) {
        self.journal.spread_over(width);
    }

    fn note(&mut self, graph: &Graph) -> Result<(), Memory> {
        self.journal.note(graph)
    }
}

impl<'a, H> OnThreads<'a, H> {
    /// An engine that starts its threads by this host, has run nothing, and spreads no graph.
    pub fn new(host: &'a H, alloc: Global) -> OnThreads<'a, H>
        ensures { result ≡ log_of 1 [] }
    {
        OnThreads {
            journal: Journal::new(alloc),
            host,
        }
    }

    /// The words of the utilities that its graphs have run, in the order of the runs.
    pub fn used(&self) -> &[Texts]
        ensures { result.now ≡ self.now.words }
    {
        self.journal.words()
    }
}

/// Whether two nodes have work of their own. Where one alone has, what threads cost is more than what they gain: its sources and its sink only
/// hand bytes on.
fn works_at_once(graph: &Graph) -> bool {
    let mut one_works = false;
    for node in graph.nodes.as_slice() {
        if is_worker(&node.kind) {
            if one_works {
                return true;
            }
            one_works = true;
        }
    }
    false
}

/// Whether a node of this kind makes new bytes of what it takes.
fn is_worker(kind: &NodeKind) -> bool {
    matches!(
        kind,
        NodeKind::Map(_) | NodeKind::Whole(_) | NodeKind::Agg(_) | NodeKind::Finish(_)
    )
}
