//! The network of a small graph.
ghost use Rattle.std.specs.Prelude.{◌≡◌, ◌<◌, ◌^◌, true, length, IfOk};
ghost use Rattle.fl_graph.specs.Valid.{Valid};
ghost use Rattle.fl_net.specs.Inputs.{CanStep};
ghost use Rattle.fl_classes.specs.Kinds.{are_run as are_run_def};

use crate::graph::graph;
use fl_core::{NodeMachine, are_run, net_of, net_over_texts};
use fl_graph::{Graph, Machine, Piece, validate};
use fl_net::{Net, Wire};
use ps_lines::Memory;
use std::alloc::Global;
use std::test::Fail;

/// A source whose text is split, each part handed on, and both joined again for the output.
static SPLIT_AND_JOINED: &str = "input - 0|split 0 12|cat 1 3|cat 2 4|cat 34 5|output 5 -";

#[test]
fn edges_into_nodes_of_many_ins_have_no_bound(rt: HostRuntime) -> Result<(), Fail> {
    let alloc = rt.alloc();
    let graph = graph(alloc, SPLIT_AND_JOINED, "-")?;
    assert!(rt; validate(&graph));
    assert!(rt; are_run(graph.nodes.as_slice()));
    let net = net_of(alloc, &graph, Some(8))?;
    assert_eq!(rt;
        net.rooms.as_slice(),
        [Some(8), Some(8), Some(8), None, None, Some(8)].as_slice()
    );
    Ok(())
}

/// One step of each node, in order; answers whether a piece has moved.
fn step_each(net: &mut Net<NodeMachine>) -> Result<bool, Memory>
    requires few { length net.old.machines.items < 2 ^ 32 }
    requires ready { CanStep ⟦<NodeMachine as Machine>⟧.state net.old.ports.items net.old.machines.items net.old.wires.items }
    ensures same { IfOk result (λ _. length net.new.machines.items ≡ length net.old.machines.items) }
    ensures ready { IfOk result (λ _. CanStep ⟦<NodeMachine as Machine>⟧.state net.new.ports.items net.new.machines.items net.new.wires.items) }
{
    let mut moved = false;
    for node in 0..net.machines.len() as u32 {
        match net.step(node) {
            Ok(progress) => moved |= progress.has_moved(),
            Err(memory) => return Err(memory),
        }
    }
    Ok(moved)
}

/// The network of a graph over a text of its first node, once no step moves a piece, or after 100 steps of each node.
fn run_over(alloc: Global, graph: &Graph, text: &[u8]) -> Result<Net<NodeMachine>, Memory>
    requires valid { Valid graph.now.nodes graph.now.status }
    requires kinds { are_run_def graph.now.nodes ≡ true }
{
    let mut inputs = Vec::new(alloc);
    inputs.push((0, Vec::from_slice(alloc, text)?))?;
    let mut net = net_over_texts(alloc, graph, inputs, Some(1))?;
    for _ in 0..100 {
        match step_each(&mut net) {
            Ok(true) => {}
            Ok(false) => return Ok(net),
            Err(memory) => return Err(memory),
        }
    }
    Ok(net)
}

#[test]
fn a_graph_runs_over_a_text_step_by_step(rt: HostRuntime) -> Result<(), Fail> {
    let alloc = rt.alloc();
    let graph = graph(alloc, SPLIT_AND_JOINED, "-")?;
    assert!(rt; validate(&graph));
    assert!(rt; are_run(graph.nodes.as_slice()));
    let mut net = run_over(alloc, &graph, b"a\nb\nc\nd")?;
    // The last wire is that from the sink, which is the last node, to the outside.
    let mut wire = net.wires.pop().ok_or("no wire")?;
    let text = shown(alloc, &mut wire)?;
    assert_eq!(rt; text.as_slice(), b"a\nb\nc\nd.".as_slice());
    Ok(())
}

/// What waits on a wire: its bytes, `.` for an end, and `!` for anything else.
fn shown(alloc: Global, wire: &mut Wire) -> Result<Vec<u8>, Memory> {
    let mut text = Vec::new(alloc);
    for _ in 0..20 {
        if let Some(piece) = wire.pop() {
            show(&piece, &mut text)?;
        }
    }
    Ok(text)
}

fn show(piece: &Piece, text: &mut Vec<u8>) -> Result<(), Memory> {
    match piece {
        Piece::Bytes(bytes) => Ok(text.extend_from_slice(bytes.as_slice())?),
        Piece::End => Ok(text.push(b'.')?),
        Piece::Mark | Piece::Broken => Ok(text.push(b'!')?),
    }
}
