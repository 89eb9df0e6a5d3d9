//! What runs graphs.
ghost use Rattle.std.specs.Prelude.{◌≡◌, Option, IfSome, OnOk, OnErr, true};
ghost use Rattle.std.specs.Option.{option_map};
ghost use Rattle.fl_graph.specs.Valid.{Valid};
ghost use Rattle.fl_classes.specs.Kinds.{are_run};
ghost use Rattle.fl_core.specs.EndLists.{HasItsEnds};
ghost use Rattle.fl_engines.specs.Engines.{RunsGraph, then_used};
ghost use Rattle.fl_engines.specs.Logs.{Log, at_width};

use fl_core::{Ends, Ran, run_in_turn};
use fl_graph::Graph;
use fl_runner::run_on_threads;
use ps_lines::Memory;
use ps_world::{Gate, Sink, Source};
use std::alloc::Global;
use std::sync::Wait;
use std::thread::Threads;

/// What runs graphs.
///
/// It says over how many parts it wants the graphs spread that it is given, and may tell that and which utilities its graphs have run: their
/// words, in the order of the runs.
pub trait Engine {
    /// What its threads are started by.
    type Host: Threads + Wait + Sync;
    /// How it spreads graphs, and the words of the utilities that its graphs have run, where it tells them.
    ghost used: { Self → Option Log };

    /// What starts the threads of this graph's nodes; None: they run on the caller's thread.
    fn host(&self, graph: &Graph) -> Option<&Self::Host>;

    /// Over how many parts graphs are to be spread.
    fn width(&self) -> u32
        ensures { IfSome (used self.now) (λ log. result ≡ log.width) };

    /// Has graphs spread over so many parts from now on.
    fn spread_over(&mut self, width: u32)
        ensures { used self.new ≡ option_map (at_width width) (used self.old) };

    /// Puts the words of a graph's utilities behind those that it has run, where it tells them.
    fn note(&mut self, graph: &Graph) -> Result<(), Memory>
        ensures ok { OnOk result (used self.new ≡ then_used (used self.old) graph.now) }
        ensures err { OnErr result (used self.new ≡ used self.old) };

    /// Runs a graph to its end over its nodes' ends, and gives the ends back in their order.
    ///
    /// What comes of it is what comes of `run_in_turn`, but that several ends may fail where the nodes have threads: the fault is that of the
    /// lowest node. `used` has grown by the words of the graph's utilities; after another answer than Done it may be as it was. `validate`,
    /// `are_run` and `have_ends` are the tests of what the caller owes. Each node is to pass the gate before its first act and after its last
    /// one, where it has a thread of its own.
    final fn run_graph<R: Source + Send, W: Sink + Send, I: Source + Send, O: Sink + Send, G: Gate>(
        &mut self,
        alloc: Global,
        graph: &Graph,
        ends: Ends<R, W, I, O>,
        gate: &G,
    ) -> Ran<R, W, I, O>
        requires valid { Valid graph.now.nodes graph.now.status }
        requires kinds { are_run graph.now.nodes ≡ true }
        requires ends { HasItsEnds graph.now.nodes ends }
        ensures { RunsGraph R.left I.left W.taken O.taken R.faults W.faults I.faults O.faults graph.now ends (used self.old) (used self.new) result }
    {
        // The room for the words is made first, so that Done never comes without them.
        match self.note(graph) {
            Ok(()) => match self.host(graph) {
                Some(host) => run_on_threads(host, alloc, graph, ends, gate),
                None => run_in_turn(alloc, graph, ends),
            },
            Err(_refused) => Ran::Memory(ends),
        }
    }
}
