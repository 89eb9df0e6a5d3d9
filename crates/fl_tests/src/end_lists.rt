//! A small graph over lists of ends.
use crate::graph::graph;
use fl_core::{Ends, Ran, are_run, have_ends, run_in_turn};
use fl_graph::{Graph, StatusRule, validate};
use ps_fakes::{MemSink, MemSource};
use std::alloc::{AllocError, Global};
use std::process::Abort;
use std::test::Fail;

type TestEnds = Ends<MemSource, MemSink, MemSource, MemSink>;

type TestRan = Ran<MemSource, MemSink, MemSource, MemSink>;

/// Calls that fail: none, or the first.
fn failing(alloc: Global, first: bool) -> Result<Vec<u64>, AllocError> {
    let mut fails = Vec::new(alloc);
    if first {
        fails.push(0)?;
    }
    Ok(fails)
}

/// A source of this text, whose first call fails or doesn't.
fn source(alloc: Global, text: &[u8], fails: bool) -> Result<MemSource, AllocError> {
    let text = Vec::from_slice(alloc, text)?;
    Ok(MemSource::new(text, failing(alloc, fails)?))
}

/// A sink whose first call fails or doesn't.
fn sink(alloc: Global, fails: bool) -> Result<MemSink, AllocError> {
    Ok(MemSink::new(alloc, failing(alloc, fails)?))
}

/// The reader of this node alone.
fn readers(
    alloc: Global,
    node: u32,
    text: &[u8],
    fails: bool,
) -> Result<Vec<(u32, MemSource)>, AllocError> {
    let mut readers = Vec::new(alloc);
    readers.push((node, source(alloc, text, fails)?))?;
    Ok(readers)
}

/// The writer of this node alone.
fn writers(alloc: Global, node: u32, fails: bool) -> Result<Vec<(u32, MemSink)>, AllocError> {
    let mut writers = Vec::new(alloc);
    writers.push((node, sink(alloc, fails)?))?;
    Ok(writers)
}

/// Runs a graph over ends.
fn run(rt: &(impl Abort + AllocGlobal), graph: &Graph, ends: TestEnds) -> TestRan {
    assert!(rt; validate(graph));
    assert!(rt; are_run(graph.nodes.as_slice()));
    assert!(rt; have_ends(graph, &ends));
    run_in_turn(rt.alloc(), graph, ends)
}

/// The status and the ends of a run that is done.
fn done(ran: TestRan) -> Result<(u8, TestEnds), Fail> {
    match ran {
        Ran::Done(status, ends) => Ok((status, ends)),
        Ran::Fault(..) | Ran::Memory(..) => Err(Fail::new("it is not done")),
    }
}

/// The node whose fault is told, and the ends.
fn fault(ran: TestRan) -> Result<(u32, TestEnds), Fail> {
    match ran {
        Ran::Fault(node, ends) => Ok((node, ends)),
        Ran::Done(..) | Ran::Memory(..) => Err(Fail::new("it tells no fault")),
    }
}

/// How many calls have failed: of the readers, of the writers, of the input and of the output, in this order.
fn faults(alloc: Global, ends: &TestEnds) -> Result<Vec<u64>, AllocError> {
    let mut faults = Vec::new(alloc);
    for (_number, reader) in &ends.readers {
        faults.push(reader.faults())?;
    }
    for (_number, writer) in &ends.writers {
        faults.push(writer.faults())?;
    }
    faults.push(ends.input.faults())?;
    faults.push(ends.out.faults())?;
    Ok(faults)
}

/// The graph that hands standard input to the output, and the file `/f` to the file `/g`. Its status is 3.
fn two_ways(alloc: Global) -> Result<Graph, Fail> {
    let text = "input - 0|read=/f - 1|cat 0 2|output 2 -|write=/g 1 -";
    let mut graph = graph(alloc, text, "-")?;
    graph.status = StatusRule::Fixed(3);
    Ok(graph)
}

/// Its ends, of which the one of the node `fails_at` fails at its first call. Beside them stand ends that no node has.
fn two_ends(alloc: Global, fails_at: u32) -> Result<TestEnds, AllocError> {
    let mut readers = readers(alloc, 1, b"file", fails_at == 1)?;
    readers.push((1, source(alloc, b"spare", true)?))?;
    let mut writers = writers(alloc, 2, true)?;
    writers.push((4, sink(alloc, fails_at == 4)?))?;
    Ok(Ends {
        readers,
        writers,
        input: source(alloc, b"input", fails_at == 0)?,
        out: sink(alloc, fails_at == 3)?,
    })
}

/// What comes of it.
fn run_two(rt: &(impl Abort + AllocGlobal), fails_at: u32) -> Result<TestRan, Fail> {
    let graph = two_ways(rt.alloc())?;
    let ends = two_ends(rt.alloc(), fails_at)?;
    Ok(run(rt, &graph, ends))
}

/// So many calls of the ends have failed.
fn expect_faults(
    rt: &(impl Abort + AllocGlobal),
    ends: &TestEnds,
    wanted: &[u64],
) -> Result<(), Fail> {
    let found = faults(rt.alloc(), ends)?;
    assert_eq!(rt; found.as_slice(), wanted);
    Ok(())
}

/// Each writer has taken this text where it is that of this node, and else nothing.
fn expect_written(rt: &impl Abort, ends: &TestEnds, node: u32, wanted: &[u8]) {
    for (number, writer) in &ends.writers {
        let text: &[u8] = if *number == node { wanted } else { b"" };
        assert_eq!(rt; writer.taken(), text, "writer {number}");
    }
}

/// The output has taken this text.
fn expect_output(rt: &impl Abort, ends: &TestEnds, wanted: &[u8]) {
    assert_eq!(rt; ends.out.taken(), wanted);
}

#[test]
fn each_sink_gets_its_text(rt: HostRuntime) -> Result<(), Fail> {
    let (status, ends) = done(run_two(&rt, u32::MAX)?)?;
    assert_eq!(rt; status, 3);
    expect_output(&rt, &ends, b"input");
    expect_written(&rt, &ends, 4, b"file");
    expect_faults(&rt, &ends, &[0; 6])
}

/// The node whose end fails at its first call, and how many calls have failed then.
static FAILED: [(u32, [u64; 6]); 4] = [
    (0, [0, 0, 0, 0, 1, 0]),
    (1, [1, 0, 0, 0, 0, 0]),
    (3, [0, 0, 0, 0, 0, 1]),
    (4, [0, 0, 0, 1, 0, 0]),
];

/// A node's end that fails at its first call is the fault of that node, and of no other end.
#[test]
fn a_failed_end_is_that_of_its_node(rt: HostRuntime) -> Result<(), Fail> {
    for &(fails_at, failed) in FAILED.iter() {
        let (node, ends) = fault(run_two(&rt, fails_at)?)?;
        assert_eq!(rt; node, fails_at);
        expect_faults(&rt, &ends, failed.as_slice())?;
    }
    Ok(())
}

/// What the graph that joins standard input and, behind it, the file `/f`, the input closed, leaves at the output.
fn run_joined(rt: &(impl Abort + AllocGlobal), input: &[u8], file: &[u8]) -> Result<TestRan, Fail> {
    let alloc = rt.alloc();
    let text = "input - 0|read=/f - 1|closing_cat 01 2|output 2 -";
    let graph = graph(alloc, text, "-")?;
    let ends = Ends {
        readers: readers(alloc, 1, file, false)?,
        writers: Vec::new(alloc),
        input: source(alloc, input, false)?,
        out: sink(alloc, false)?,
    };
    Ok(run(rt, &graph, ends))
}

/// The input, the file, and the output.
static JOINED: [(&str, &str, &str); 4] = [
    ("a", "b\n", "a\nb\n"),
    ("a\n", "b", "a\nb"),
    ("", "b", "b"),
    ("a", "", "a\n"),
];

#[test]
fn inputs_are_closed_where_they_are_joined(rt: HostRuntime) -> Result<(), Fail> {
    for &(input, file, wanted) in JOINED.iter() {
        let (_status, ends) = done(run_joined(&rt, input.as_bytes(), file.as_bytes())?)?;
        expect_output(&rt, &ends, wanted.as_bytes());
    }
    Ok(())
}

/// What comes of the graph that hands standard input to the file `/g` and on to the output, with a writer that fails at its first call or
/// at none. Its status is 0.
fn run_handed_on(
    rt: &(impl Abort + AllocGlobal),
    text: &[u8],
    fails: bool,
) -> Result<TestRan, Fail> {
    let alloc = rt.alloc();
    let graph = graph(alloc, "input - 0|tee=/g 0 1|output 1 -", "-")?;
    let ends = Ends {
        readers: Vec::new(alloc),
        writers: writers(alloc, 1, fails)?,
        input: source(alloc, text, false)?,
        out: sink(alloc, false)?,
    };
    Ok(run(rt, &graph, ends))
}

#[test]
fn a_file_gets_what_is_handed_on(rt: HostRuntime) -> Result<(), Fail> {
    for text in ["", "a\nb"] {
        let (status, ends) = done(run_handed_on(&rt, text.as_bytes(), false)?)?;
        assert_eq!(rt; status, 0);
        expect_output(&rt, &ends, text.as_bytes());
        expect_written(&rt, &ends, 1, text.as_bytes());
    }
    let (node, _ends) = fault(run_handed_on(&rt, b"a", true)?)?;
    assert_eq!(rt; node, 1);
    Ok(())
}
