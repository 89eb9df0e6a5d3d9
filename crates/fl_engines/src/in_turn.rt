//! The engine of one thread.
ghost use Rattle.std.specs.Prelude.{◌≡◌, [], Some};
ghost use Rattle.fl_engines.specs.Logs.{Log, log_of};

use crate::engines::Engine;
use crate::journals::Journal;
use fl_graph::Graph;
use ps_lines::Memory;
use std::alloc::Global;
use std::marker::{Model, PhantomData};
use std::sync::Wait;
use std::thread::Threads;
use ut_options::Texts;

/// An engine that runs each graph on the caller's thread, its nodes in turn. It tells its width and the words of the utilities that it has
/// run, which is what contracts see of it.
#[derive(Debug, Drop)]
pub struct InTurn<H> {
    journal: Journal,
    /// It has no threads, so no value of their host.
    host: PhantomData<H>,
}

impl<H> Model for InTurn<H> {
    ghost Value = { Log };

    ghost view = { λ engine. engine.journal };
}

impl<H: Threads + Wait + Sync> Engine for InTurn<H> {
    type Host = H;

    ghost used = { λ engine. Some engine };

    fn host(&self, _graph: &Graph) -> Option<&H> {
        None
    }

    fn width(&self) -> u32 {
        self.journal.width()
    }

    fn spread_over(&mut self, width: u32) {
        self.journal.spread_over(width);
    }

    fn note(&mut self, graph: &Graph) -> Result<(), Memory> {
        self.journal.note(graph)
    }
}

impl<H> InTurn<H> {
    /// An engine that has run nothing, and spreads no graph.
    pub fn new(alloc: Global) -> InTurn<H>
        ensures { result ≡ log_of 1 [] }
    {
        InTurn {
            journal: Journal::new(alloc),
            host: PhantomData,
        }
    }

    /// The words of the utilities that its graphs have run, in the order of the runs.
    pub fn used(&self) -> &[Texts]
        ensures { result.now ≡ self.now.words }
    {
        self.journal.words()
    }
}
