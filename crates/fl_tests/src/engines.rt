//! Graphs on an engine.
use crate::graph::graph;
use fl_core::{Ends, are_run};
use fl_engines::{Came, Engine, InTurn, Over, number_ends, run_own};
use fl_graph::{Graph, validate};
use ps_fakes::{MemSink, MemSource, OpenGate};
use std::alloc::{AllocError, Global};
use std::process::Abort;
use std::sync::Wait;
use std::test::Fail;
use std::thread::Threads;
use ut_options::Texts;

/// An engine that has run nothing, for the host that a test has.
pub(crate) fn in_turn<H: Threads + Wait + Sync>(_rt: &H, alloc: Global) -> InTurn<H> {
    InTurn::new(alloc)
}

/// The graph in which grep takes standard input, and cat the file `/f`, which it puts into the file `/g`; its status is that of grep.
static GREP_AND_CAT: &str =
    "input - 0|read=/f - 1|whole=grep,-F,b 0 2|whole=cat 1 3|write=/g 3 -|output 2 -";

/// Which end fails at its first call.
#[derive(Clone, Copy, PartialEq, Eq)]
enum Failing {
    None,
    Input,
    Output,
    Reader,
    Writer,
}

/// Calls that fail: none, or the first.
fn fails(alloc: Global, first: bool) -> Result<Vec<u64>, AllocError> {
    let mut fails = Vec::new(alloc);
    if first {
        fails.push(0)?;
    }
    Ok(fails)
}

/// A source of this text.
fn source(alloc: Global, text: &[u8], fail: bool) -> Result<MemSource, AllocError> {
    let text = Vec::from_slice(alloc, text)?;
    Ok(MemSource::new(text, fails(alloc, fail)?))
}

/// The reader of the one file.
fn readers(alloc: Global, fail: bool) -> Result<Vec<(u32, MemSource)>, AllocError> {
    let mut readers = Vec::new(alloc);
    readers.push((0, source(alloc, b"in a file", fail)?))?;
    Ok(readers)
}

/// The writer of the other.
fn writers(alloc: Global, fail: bool) -> Result<Vec<(u32, MemSink)>, AllocError> {
    let mut writers = Vec::new(alloc);
    writers.push((0, MemSink::new(alloc, fails(alloc, fail)?)))?;
    Ok(writers)
}

/// The ends of the graph, of which one may fail.
fn ends(
    alloc: Global,
    failing: Failing,
) -> Result<Ends<MemSource, MemSink, MemSource, MemSink>, AllocError> {
    Ok(Ends {
        readers: readers(alloc, failing == Failing::Reader)?,
        writers: writers(alloc, failing == Failing::Writer)?,
        input: source(alloc, b"a\nab\nb\nc", failing == Failing::Input)?,
        out: MemSink::new(alloc, fails(alloc, failing == Failing::Output)?),
    })
}

/// What comes of the graph on an engine.
fn run_on<X: Engine>(
    rt: &(impl Abort + AllocGlobal),
    engine: &mut X,
    failing: Failing,
) -> Result<Over<MemSource, MemSink, MemSource, MemSink>, Fail> {
    let graph = graph(rt.alloc(), GREP_AND_CAT, "2")?;
    let ends = ends(rt.alloc(), failing)?;
    run_graph(rt, engine, &graph, ends)
}

pub(crate) fn run_graph<X: Engine>(
    rt: &(impl Abort + AllocGlobal),
    engine: &mut X,
    graph: &Graph,
    ends: Ends<MemSource, MemSink, MemSource, MemSink>,
) -> Result<Over<MemSource, MemSink, MemSource, MemSink>, Fail> {
    let mut ends = ends;
    assert!(rt; validate(graph));
    assert!(rt; are_run(graph.nodes.as_slice()));
    let fit = number_ends(graph, &mut ends).expect(rt, "numbers of 32 bits");
    assert!(rt; fit);
    Ok(run_own(rt.alloc(), engine, graph, ends, &OpenGate))
}

/// What the ends have taken.
fn expect_taken(rt: &impl Abort, ends: &Ends<MemSource, MemSink, MemSource, MemSink>) {
    assert_eq!(rt; ends.out.taken(), b"ab\nb\n".as_slice());
    for (_number, writer) in &ends.writers {
        assert_eq!(rt; writer.taken(), b"in a file".as_slice());
    }
}

/// The words of grep are told, and not those of cat.
fn expect_used(rt: &impl Abort, used: &[Texts]) {
    assert_eq!(rt; used.len(), 1);
    for texts in used {
        assert_eq!(rt; texts.as_slice().len(), 3);
        assert_eq!(rt; texts.as_slice()[0].as_slice(), b"grep".as_slice());
    }
}

#[test]
fn an_engine_runs_a_graph_over_its_own_ends(rt: HostRuntime) -> Result<(), Fail> {
    let mut engine = in_turn(&rt, rt.alloc());
    let over = run_on(&rt, &mut engine, Failing::None)?;
    assert_eq!(rt; over.came, Came::Done(0));
    expect_taken(&rt, &over.ends);
    expect_used(&rt, engine.used());
    Ok(())
}

/// Which end fails, and what is told.
static FAILED: [(Failing, Came); 4] = [
    (Failing::Input, Came::Input),
    (Failing::Output, Came::Output),
    (Failing::Reader, Came::Reader),
    (Failing::Writer, Came::Writer),
];

#[test]
fn a_failed_end_is_told_by_its_kind(rt: HostRuntime) -> Result<(), Fail> {
    for &(failing, came) in FAILED.iter() {
        let mut engine = in_turn(&rt, rt.alloc());
        let over = run_on(&rt, &mut engine, failing)?;
        assert_eq!(rt; over.came, came);
    }
    Ok(())
}
