//! Pipelines over a tree in memory: what the last member writes, the status that it leaves, and what is left of the input.
//!
//! A pipeline stands in its row as a shell reads it. What is written and left is that of dash with GNU coreutils and grep under `LC_ALL=C`, over
//! the same files and the same input.
ghost use Rattle.std.specs.Prelude.{◌≡◌, [], IfOk, IfSome};
ghost use Rattle.fl_commands.specs.Members.{AllCanRun, AllNamesStand, CanRun, files_teed};
ghost use Rattle.fl_commands.specs.Operands.{AllStand};
ghost use Rattle.ps_world.specs.Files.{NoWriterOut};

use crate::commands::left_of;
use fl_commands::{Commanded, Ended, Member, look_at, run_pipeline};
use fl_engines::{Engine, InTurn, OnThreads};
use fl_segments::{First, MAX_STAGES};
use ps_fakes::{MemSink, MemSource, MemTree, OpenGate};
use ps_lines::Memory;
use ps_world::{Tree, WorldErr};
use std::alloc::{AllocError, Global};
use std::process::Abort;
use std::sync::Wait;
use std::test::Fail;
use std::thread::Threads;
use ut_args::{is_built, read_inv};

/// The parts of a text with these bytes between them, but for the empty ones.
pub(crate) fn parts(alloc: Global, text: &[u8], between: u8) -> Result<Vec<Vec<u8>>, AllocError> {
    let mut parts = Vec::new(alloc);
    for part in text.split(|byte| *byte == between) {
        if !part.is_empty() {
            parts.push(Vec::from_slice(alloc, part)?)?;
        }
    }
    Ok(parts)
}

/// The member of a pipeline with these words. It stops where there is none: a way out past an invocation costs minutes of proof.
fn member<T: Tree>(rt: &impl Abort, alloc: Global, text: &[u8], tree: &mut T) -> Member
    ensures ready { CanRun result }
    ensures stand { IfSome (T.state tree.old).held (λ files. AllStand files result.operands.items) }
    ensures teeless { result.tees.items ≡ [] }
    ensures state { T.state tree.new ≡ T.state tree.old }
{
    let words = parts(alloc, text, b' ').expect(rt, "words");
    assert!(rt; !words.is_empty());
    let inv = read_inv(alloc, words.as_slice()).expect(rt, "an invocation");
    let operands = look_at(alloc, inv.operands(), tree).expect(rt, "operands");
    assert!(rt; operands.len() < 9 && is_built(&inv));
    Member {
        inv,
        operands,
        tees: Vec::new(alloc),
    }
}

/// The members of a pipeline with bars between them.
#[tactic(auto, using(crate::proofs::MemberLemmas::member_steps))]
fn members<T: Tree>(
    rt: &impl Abort,
    alloc: Global,
    pipeline: &[u8],
    tree: &mut T,
) -> Result<Vec<Member>, AllocError>
    ensures ready { IfOk result (λ members. AllCanRun members.items) }
    ensures stand { IfOk result (λ members. IfSome (T.state tree.old).held (λ files. AllNamesStand files members.items)) }
    ensures teeless { IfOk result (λ members. files_teed members.items ≡ []) }
    ensures state { T.state tree.new ≡ T.state tree.old }
{
    let texts = parts(alloc, pipeline, b'|')?;
    let mut members = Vec::new(alloc);
    let mut left = texts.as_slice();
    while let [text, rest @ ..] = left {
        let member = member(rt, alloc, text.as_slice(), tree);
        members.push(member).expect(rt, "room for a member");
        left = rest;
    }
    drop(texts);
    Ok(members)
}

/// The tree of the rows: `f` and `g` are files, `d` is a directory, and `no` is missing.
pub(crate) fn tree(alloc: Global) -> Result<Option<MemTree>, Memory>
    ensures { IfOk result (λ tree. IfSome tree (λ tree. IfSome (⟦<MemTree as Tree>⟧.state tree).held NoWriterOut)) }
{
    MemTree::of_table(
        alloc,
        b"/w",
        &[
            (b"/w/f", Some(b"a\nb\n")),
            (b"/w/g", Some(b"b\nc")),
            (b"/w/d", None),
        ],
        Vec::new(alloc),
    )
}

/// What came of a pipeline.
#[derive(Drop)]
pub(crate) struct Ran {
    ended: Ended,
    output: Vec<u8>,
    /// The bytes of the input that it has left.
    left: Vec<u8>,
}

/// Runs a pipeline over an input of two lines on an engine. It has no way out past what it holds, and lets go of that by calls.
pub(crate) fn run<X: Engine>(
    rt: &impl Abort,
    alloc: Global,
    pipeline: &str,
    engine: &mut X,
) -> Result<Ran, WorldErr> {
    let mut tree = tree(alloc)?.expect(rt, "a tree");
    let members = members(rt, alloc, pipeline.as_bytes(), &mut tree).expect(rt, "members");
    let ran = run_members(rt, alloc, members.as_slice(), &mut tree, engine);
    drop(members);
    drop(tree);
    ran
}

/// Runs the members of a pipeline so.
fn run_members<X: Engine>(
    rt: &impl Abort,
    alloc: Global,
    members: &[Member],
    tree: &mut MemTree,
    engine: &mut X,
) -> Result<Ran, WorldErr>
    requires ready { AllCanRun members.now }
    requires stand { IfSome (⟦<MemTree as Tree>⟧.state tree.old).held (λ files. AllNamesStand files members.now) }
    requires whole { IfSome (⟦<MemTree as Tree>⟧.state tree.old).held NoWriterOut }
    requires teeless { files_teed members.now ≡ [] }
{
    assert!(rt; !members.is_empty() && members.len() <= MAX_STAGES);
    let input = Vec::from_slice(alloc, b"in\nb\n")?;
    let commanded = run_pipeline(
        alloc,
        members,
        &First::Input,
        tree,
        MemSource::new(input, Vec::new(alloc)),
        MemSink::new(alloc, Vec::new(alloc)),
        &OpenGate,
        engine,
    );
    what_came(alloc, commanded)
}

/// What came of a run.
fn what_came(alloc: Global, commanded: Commanded<MemSource, MemSink>) -> Result<Ran, WorldErr> {
    let Commanded {
        ended,
        mut input,
        out,
    } = commanded;
    let output = Vec::from_slice(alloc, out.taken());
    let left = left_of(alloc, &mut input);
    drop(out);
    drop(input);
    Ok(Ran {
        ended,
        output: output?,
        left: left?,
    })
}

/// Whether a pipeline on an engine writes this, and leaves this status and this of the input.
fn runs_so<X: Engine>(
    rt: &impl Abort,
    alloc: Global,
    engine: &mut X,
    (pipeline, output, status, left): (&str, &str, u8, &str),
) -> Result<bool, WorldErr> {
    let ran = run(rt, alloc, pipeline, engine)?;
    Ok(
        ran.ended == Ended::Done(status)
            && ran.output.as_slice() == output.as_bytes()
            && ran.left.as_slice() == left.as_bytes(),
    )
}

/// Whether a pipeline at a width does so on the caller's thread.
fn runs_in_turn<H: Abort + Threads + Wait + Sync>(
    rt: &H,
    alloc: Global,
    width: u32,
    row: (&str, &str, u8, &str),
) -> Result<bool, WorldErr> {
    let mut engine = InTurn::<H>::new(alloc);
    engine.spread_over(width);
    runs_so(rt, alloc, &mut engine, row)
}

/// Whether a pipeline at a width does so with each node on a thread of its own.
fn runs_on_threads<H: Abort + Threads + Wait + Sync>(
    rt: &H,
    alloc: Global,
    width: u32,
    row: (&str, &str, u8, &str),
) -> Result<bool, WorldErr> {
    let mut engine = OnThreads::new(rt, alloc);
    engine.spread_over(width);
    runs_so(rt, alloc, &mut engine, row)
}

/// A pipeline, what it writes, the status that it leaves, and what it leaves of the input.
static PIPELINES: [(&str, &str, u8, &str); 26] = [
    ("grep -F b", "b\n", 0, ""),
    ("cat f - | wc -l", "4\n", 0, ""),
    ("tail -n 1 f | wc -c", "2\n", 0, "in\nb\n"),
    ("cat f g - | wc", "5 5 12\n", 0, ""),
    ("wc f", "2 2 4 f\n", 0, "in\nb\n"),
    ("cat f g | grep -F -c b", "2\n", 0, "in\nb\n"),
    ("cat f g | sort | uniq -d", "b\n", 0, "in\nb\n"),
    ("cat f - | head -n 3 | tail -n 1", "in\n", 0, ""),
    // A later member reads files in the place of the stream that comes to it, or beside it.
    ("cat | grep -F b f", "b\n", 0, ""),
    ("cat f | cat g -", "b\nca\nb\n", 0, "in\nb\n"),
    (
        "cat f | wc f g",
        "2 2 4 f\n1 2 3 g\n3 4 7 total\n",
        0,
        "in\nb\n",
    ),
    ("cut -c 1 f | cat g | tail -n 1", "c", 0, "in\nb\n"),
    // The status is the last one's.
    ("grep -F x | wc -l", "0\n", 0, ""),
    ("cat f | grep -F x", "", 1, "in\nb\n"),
    ("cat f | grep -F b g no", "g:b\n", 2, "in\nb\n"),
    ("cat no | sort - f", "a\nb\n", 0, "in\nb\n"),
    ("cat d | sort | uniq", "", 0, "in\nb\n"),
    (
        "head -n 1 f g | tr a-c A-C",
        "==> f <==\nA\n\n==> g <==\nB\n",
        0,
        "in\nb\n",
    ),
    ("cat f g | grep -F b | wc -l", "2\n", 0, "in\nb\n"),
    ("sort g f - | uniq | cut -c 1", "a\nb\nc\ni\n", 0, ""),
    (
        "grep -F b f | grep -F -c x | cat - g",
        "0\nb\nc",
        0,
        "in\nb\n",
    ),
    // Files that go in groups, and files that don't since one ends within a line.
    ("cat f f g f | grep -F c", "ca\n", 0, "in\nb\n"),
    ("cat f g f f | grep -F c", "ca\n", 0, "in\nb\n"),
    // As many members as there may be.
    (
        "cat - f g | tr a x | tr b y | tr c z | sort | uniq | grep -F -v q | cut -c 1 | head -n 9 | tail -n 3 | cat | tr x a | tr y b | tr z c | sort -r | tr -s b",
        "c\nb\na\n",
        0,
        "",
    ),
    (
        "cat - f g | tr a x | tr b y | tr c z | sort | uniq | grep -F -v q | cut -c 1 | head -n 9 | tail -n 3 | cat | tr x a | tr y b | tr z c | sort -r | cat f - g",
        "a\nb\nc\nb\na\nb\nc",
        0,
        "",
    ),
    (
        "cat | cat | cat | cat | cat | cat | cat | cat | cat | cat | cat | cat | cat | cat | cat | grep -F x",
        "",
        1,
        "",
    ),
];

#[test]
fn members_run_over_what_the_ones_before_write(rt: HostRuntime) -> Result<(), Fail> {
    for &row in PIPELINES.iter() {
        for width in [1, 2, 16] {
            let is_right = runs_in_turn(&rt, rt.alloc(), width, row)?;
            assert!(rt; is_right, "{} at {width}", row.0);
        }
    }
    Ok(())
}

#[test]
fn members_on_threads_write_what_they_write_in_turn(rt: HostRuntime) -> Result<(), Fail> {
    for &row in PIPELINES.iter() {
        for width in [1, 2, 4, 16] {
            let is_right = runs_on_threads(&rt, rt.alloc(), width, row)?;
            assert!(rt; is_right, "{} at {width}", row.0);
        }
    }
    Ok(())
}
