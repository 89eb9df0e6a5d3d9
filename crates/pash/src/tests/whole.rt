//! Runs over objects that never fail, from whose contracts it follows that no fault is answered.
ghost use Rattle.std.specs.Prelude.{◌≡◌, ◌⊎◌, IfOk, IfSome};
ghost use Rattle.ps_world.specs.Files.{NoWriterOut};
ghost use Rattle.pash.specs.Answers.{IsAnswer};

use super::{Entry, Reply, WIDTHS, finished, in_turn, owned_words};
use crate::answers::Why;
use crate::top::pash;
use fl_engines::{Engine, OnThreads};
use ps_fakes::{NoFailSink, NoFailSource, NoFailTree, OpenGate};
use ps_world::Tree;
use std::alloc::{AllocError, Global};
use std::process::Abort;
use std::sync::Wait;
use std::test::Fail;
use std::thread::Threads;

/// What a run answered, and where it wrote.
#[derive(Drop)]
struct Ran {
    out: NoFailSink,
    err: NoFailSink,
    status: u8,
    why: Why,
}

/// Does what the words ask for over a tree. No fault is answered, since no count can rise.
fn run_on<X: Engine>(
    alloc: Global,
    words: &[&str],
    tree: NoFailTree,
    engine: &mut X,
) -> Result<Ran, AllocError>
    requires whole { IfSome (⟦<NoFailTree as Tree>⟧.state tree).held NoWriterOut }
    ensures { IfOk result (λ ran. IsAnswer ran.why ⊎ (ran.why ≡ Why.Memory)) }
{
    let words = owned_words(alloc, words)?;
    let mut tree = tree;
    let mut err = NoFailSink::new(alloc);
    let end = pash(
        alloc,
        words.as_slice(),
        &mut tree,
        NoFailSource::new(Vec::new(alloc)),
        NoFailSink::new(alloc),
        &mut err,
        &OpenGate,
        engine,
    );
    Ok(Ran {
        out: end.out,
        err,
        status: end.status,
        why: end.why,
    })
}

/// The script `s` tells this, in turn and on threads.
fn tells<R: Abort + AllocGlobal + Threads + Wait + Sync>(
    rt: &R,
    entries: &[Entry],
    reply: &Reply,
) -> Result<(), Fail> {
    let alloc = rt.alloc();
    tells_on(rt, alloc, "2", entries, reply, &mut in_turn(rt, alloc))?;
    for width in WIDTHS {
        tells_on(
            rt,
            alloc,
            width,
            entries,
            reply,
            &mut OnThreads::new(rt, alloc),
        )?;
    }
    Ok(())
}

/// It does so at a width, on an engine.
fn tells_on<X: Engine>(
    rt: &impl Abort,
    alloc: Global,
    width: &str,
    entries: &[Entry],
    reply: &Reply,
    engine: &mut X,
) -> Result<(), Fail> {
    let tree = NoFailTree::of_table(alloc, b"/w", entries)?;
    let tree = tree.expect(rt, "the entries make a tree");
    let ran = run_on(alloc, &["run", width, "s"], tree, engine)?;
    assert!(rt; ran.out.sent() == reply.output, "{:?}", ran.why);
    assert!(rt; ran.err.sent() == reply.errors, "{:?}", ran.why);
    assert!(rt; ran.why == reply.why && ran.status == reply.status);
    Ok(())
}

#[test]
fn a_script_runs_over_objects_that_never_fail(rt: HostRuntime) -> Result<(), Fail> {
    tells(
        &rt,
        &[
            (b"/w/s", Some(b"cat a missing b")),
            (b"/w/a", Some(b"x1")),
            (b"/w/b", Some(b"x2\ny\n")),
        ],
        &finished(
            b"x1x2\ny\n",
            b"cat: missing: No such file or directory\n",
            1,
        ),
    )?;
    tells(
        &rt,
        &[(b"/w/s", Some(b"cat a")), (b"/w/a", Some(b"x1\n"))],
        &finished(b"x1\n", b"", 0),
    )?;
    tells(
        &rt,
        &[
            (
                b"/w/s",
                Some(b"paste -s -d , f; cat f | paste - -; paste f f"),
            ),
            (b"/w/f", Some(b"a\nb\n")),
        ],
        &finished(b"a,b\na\tb\na\ta\nb\tb\n", b"", 0),
    )?;
    tells(
        &rt,
        &[(b"/w/s", Some(b"echo a | tee f; cat f"))],
        &finished(b"a\na\n", b"", 0),
    )
}
