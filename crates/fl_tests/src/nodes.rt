//! Nodes on threads, and the halves of their edges.
ghost use Rattle.std.specs.Prelude.{◌≡◌, []};
ghost use Rattle.fl_relay.specs.Edges.{put_on, taken_from};

use crate::hand_on::HandOn;
use fl_graph::Piece;
use fl_nodes::{
    Edge, Inlet, NodeDone, NodeJob, Own, half_at, halves_at, make_edge, run_nodes, settle_at,
    settle_ins,
};
use fl_relay::{EdgeGiver, EdgeTaker};
use fl_threads::Beside;
use ps_fakes::{MemSink, MemSource, OpenGate};
use ps_lines::Memory;
use std::alloc::Global;
use std::sync::Wait;
use std::test::Fail;
use std::thread::Threads;

type End = Own<MemSource, MemSink, MemSource, MemSink>;

type Job<'a> = NodeJob<'a, HandOn, End, OpenGate>;

/// The node that reads this text, three bytes at a time, and puts it on an edge.
fn reader<'a>(
    alloc: Global,
    giver: EdgeGiver,
    text: &[u8],
    gate: &'a OpenGate,
) -> Result<Job<'a>, Memory>
    requires { put_on giver ≡ [] }
{
    let bytes = Vec::from_slice(alloc, text)?;
    let source = MemSource::in_pieces(bytes, 3, Vec::new(alloc));
    let givers = vec![in alloc; giver]?;
    Ok(NodeJob {
        number: 0,
        machine: HandOn::new(),
        takers: Vec::new(alloc),
        givers,
        own: Own::Reader(Inlet::new(source)),
        alloc,
        gate,
    })
}

/// The node that takes from an edge, and writes what it takes.
fn writer<'a>(alloc: Global, taker: EdgeTaker, gate: &'a OpenGate) -> Result<Job<'a>, Memory>
    requires { taken_from taker ≡ [] }
{
    let takers = vec![in alloc; taker]?;
    Ok(NodeJob {
        number: 1,
        machine: HandOn::new(),
        takers,
        givers: Vec::new(alloc),
        own: Own::Writer(MemSink::new(alloc, Vec::new(alloc))),
        alloc,
        gate,
    })
}

/// What the nodes have written; `!` where one has failed.
fn written(alloc: Global, nodes: &[NodeDone<End>]) -> Result<Vec<u8>, Memory> {
    let mut text = Vec::new(alloc);
    for node in nodes {
        if node.failure.is_some() {
            text.push(b'!')?;
        }
        if let Own::Writer(sink) = &node.own {
            text.extend_from_slice(sink.taken())?;
        }
    }
    Ok(text)
}

/// What the second of two nodes writes, where the first reads this text and an edge with such room joins them; none where they haven't run.
fn written_by_second<H: Threads + Wait + Sync>(
    rt: &H,
    alloc: Global,
    room: Option<u32>,
    text: &[u8],
) -> Result<Option<Vec<u8>>, Memory> {
    let gate = OpenGate;
    let Edge { giver, taker } = make_edge(alloc, room)?;
    let first = reader(alloc, giver, text, &gate)?;
    let second = writer(alloc, taker, &gate)?;
    let mut jobs = Vec::with_capacity(alloc, 2)?;
    jobs.push(first)?;
    jobs.push(second)?;
    match run_nodes(rt, alloc, jobs) {
        Beside::Ran(done) => Ok(Some(written(alloc, done.as_slice())?)),
        Beside::NotRun(_) => Ok(None),
    }
}

#[test]
fn the_second_node_writes_what_the_first_reads(rt: HostRuntime) -> Result<(), Fail> {
    let texts = [b"".as_slice(), b"ab", b"one line\nand another, not closed"];
    for room in [Some(1), Some(0), Some(8), None] {
        for text in texts {
            let copy = written_by_second(&rt, rt.alloc(), room, text)?;
            assert_eq!(rt; copy.as_deref(), Some(text), "with room for {room:?}");
        }
    }
    Ok(())
}

/// Whether the halves of an edge that has ended are found by its number, and settled.
fn are_found_and_settled<H: Wait>(
    rt: &H,
    alloc: Global,
    room: Option<u32>,
) -> Result<bool, Memory> {
    let Edge {
        mut giver,
        mut taker,
    } = make_edge(alloc, room)?;
    giver.put(rt, Piece::End)?;
    let _end = taker.take(rt);
    let mut givers = vec![in alloc; None, Some(giver)]?;
    let mut takers = vec![in alloc; None, Some(taker)]?;
    match halves_at(alloc, &mut takers, [1].as_slice())? {
        Some(found) => Ok(settle_ins(rt, &mut givers, [1].as_slice(), found)),
        None => Ok(false),
    }
}

/// Whether a taker is settled with the giver that lies at its edge, and none lies there any more.
fn is_settled_once<H: Wait>(rt: &H, alloc: Global, room: Option<u32>) -> Result<bool, Memory> {
    let Edge {
        mut giver,
        mut taker,
    } = make_edge(alloc, room)?;
    giver.put(rt, Piece::End)?;
    let _end = taker.take(rt);
    let mut givers = vec![in alloc; Some(giver)]?;
    let settled = settle_at(rt, &mut givers, 0, taker);
    Ok(settled && half_at(&mut givers, 0).is_none())
}

/// Whether a half that is wanted twice is told as missing, and so is one of an edge that has none.
fn are_told_as_missing(alloc: Global) -> Result<bool, Memory> {
    let Edge { giver, taker } = make_edge(alloc, None)?;
    let mut givers = vec![in alloc; Some(giver), None]?;
    let mut takers = vec![in alloc; Some(taker), None]?;
    let twice = halves_at(alloc, &mut givers, [0, 0].as_slice())?.is_none();
    let never = halves_at(alloc, &mut takers, [0, 1].as_slice())?.is_none();
    Ok(twice && never)
}

#[test]
fn halves_are_found_by_their_numbers_once(rt: HostRuntime) -> Result<(), Fail> {
    for room in [Some(1), None] {
        let settled = are_found_and_settled(&rt, rt.alloc(), room)?;
        assert!(rt; settled, "all of its node, with room for {room:?}");
        let settled = is_settled_once(&rt, rt.alloc(), room)?;
        assert!(rt; settled, "one, with room for {room:?}");
    }
    assert!(rt; are_told_as_missing(rt.alloc())?, "missing");
    Ok(())
}
