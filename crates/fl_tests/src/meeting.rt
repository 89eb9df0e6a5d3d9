//! Two nodes of a graph on threads that are at work at the same time.
use crate::graph::graph;
use fl_core::{Ends, Ran, are_run, have_ends};
use fl_graph::{Graph, validate};
use fl_runner::run_on_threads;
use ps_fakes::{MeetGate, MemSink, MemSource, OpenGate};
use ps_lines::Memory;
use ps_world::{Gate, Reach, Source, WorldErr};
use std::alloc::Global;
use std::process::Abort;
use std::sync::Wait;
use std::test::Fail;
use std::thread::Threads;

/// A source in memory that comes to a gate before its first read, as its node.
#[derive(Drop)]
struct Comer<'a> {
    source: MemSource,
    node: u32,
    gate: &'a MeetGate,
    has_come: bool,
}

impl<'a> Source for Comer<'a> {
    ghost left = { λ comer. ⟦<MemSource as Source>⟧.left comer.source };

    ghost given = { λ comer. ⟦<MemSource as Source>⟧.given comer.source };

    ghost faults = { λ comer. ⟦<MemSource as Source>⟧.faults comer.source };

    fn read(&mut self, buf: &mut [u8]) -> Result<usize, WorldErr> {
        if !self.has_come {
            self.has_come = true;
            self.gate.reach(self.node, Reach::First);
        }
        self.source.read(buf)
    }
}

/// The source of this node, with this text.
fn source_of<'a>(
    alloc: Global,
    text: &[u8],
    node: u32,
    gate: &'a MeetGate,
) -> Result<(u32, Comer<'a>), Memory> {
    let bytes = Vec::from_slice(alloc, text)?;
    let source = MemSource::new(bytes, Vec::new(alloc));
    let comer = Comer {
        source,
        node,
        gate,
        has_come: false,
    };
    Ok((node, comer))
}

type ComersEnds<'a> = Ends<Comer<'a>, MemSink, MemSource, MemSink>;

/// The ends of a graph that reads two files, by its first two nodes.
fn ends<'a>(alloc: Global, gate: &'a MeetGate) -> Result<ComersEnds<'a>, Memory> {
    let mut readers = Vec::new(alloc);
    readers.push(source_of(alloc, b"x1", 0, gate)?)?;
    readers.push(source_of(alloc, b"x2\ny\n", 1, gate)?)?;
    Ok(Ends {
        readers,
        writers: Vec::new(alloc),
        input: MemSource::new(Vec::new(alloc), Vec::new(alloc)),
        out: MemSink::new(alloc, Vec::new(alloc)),
    })
}

/// What the output has taken once the graph has run, each of its nodes on a thread of its own.
fn output_of<H: Abort + Threads + Wait + Sync>(
    rt: &H,
    alloc: Global,
    graph: &Graph,
    ends: ComersEnds,
) -> MemSink {
    assert!(rt; validate(graph));
    assert!(rt; are_run(graph.nodes.as_slice()));
    assert!(rt; have_ends(graph, &ends));
    match run_on_threads(rt, alloc, graph, ends, &OpenGate) {
        Ran::Done(_, ends) | Ran::Fault(_, ends) | Ran::Memory(ends) => ends.out,
    }
}

/// A graph that runs node by node has no second source at work while the first one waits in its read.
#[test]
fn two_sources_meet(rt: HostRuntime) -> Result<(), Fail> {
    let alloc = rt.alloc();
    let gate = MeetGate::new(0, 1);
    let ends = ends(alloc, &gate)?;
    let paste = "read=/a - 0|read=/b - 1|whole=paste,a,b 01 2|output 2 -";
    let graph = graph(alloc, paste, "-")?;
    let out = output_of(&rt, alloc, &graph, ends);
    drop(graph);
    assert_eq!(rt; out.taken(), b"x1\tx2\n\ty\n".as_slice());
    assert!(rt; gate.met(), "both sources are in their first read");
    Ok(())
}
