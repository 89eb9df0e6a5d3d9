//! Two nodes of a script's graph that are at work at the same time.
use super::{Entry, Failing, finished, in_turn, run_through};
use fl_engines::{Engine, OnThreads};
use ps_fakes::{MeetGate, MemTree};
use std::alloc::Global;
use std::process::Abort;
use std::test::Fail;

/// Whether the two maps of a script's graph at the width 2 meet where this engine runs it. They are its nodes 2 and 3, behind the source of the
/// file and its split.
fn maps_meet<X: Engine>(rt: &impl Abort, alloc: Global, engine: &mut X) -> Result<bool, Fail> {
    let entries: [Entry; 2] = [(b"/w/s", Some(b"grep b f")), (b"/w/f", Some(b"a\nb\nab\n"))];
    let tree = MemTree::of_table(alloc, b"/w", &entries, Vec::new(alloc))?;
    let tree = tree.expect(rt, "the entries make a tree");
    let gate = MeetGate::new(2, 3);
    let words = ["run", "2", "s"];
    let ran = run_through(alloc, &words, tree, Failing::Nothing, &gate, engine)?;
    assert!(rt; ran.is(&finished(b"b\nab\n", b"", 0)), "{:?}", ran.why);
    Ok(gate.met())
}

/// That they do on threads no contract says.
#[test]
fn two_nodes_meet(rt: HostRuntime) -> Result<(), Fail> {
    let alloc = rt.alloc();
    let meet = maps_meet(&rt, alloc, &mut OnThreads::new(&rt, alloc))?;
    assert!(rt; meet, "on threads");
    let meet = maps_meet(&rt, alloc, &mut in_turn(&rt, alloc))?;
    assert!(rt; !meet, "in turn");
    Ok(())
}
