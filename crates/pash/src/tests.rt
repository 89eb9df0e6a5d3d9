//! Runs over objects in memory: what scripts and words tell, and what is told where a call of an object fails.
ghost use Rattle.std.specs.Prelude.{IfSome};
ghost use Rattle.ps_world.specs.Files.{NoWriterOut};

mod delays;
mod faults;
mod files;
mod graphs;
mod meeting;
mod refusals;
mod rows;
mod whole;

use crate::answers::Why;
use crate::top::pash;
use fl_engines::{Engine, InTurn, OnThreads};
use ps_fakes::{MemSink, MemSource, MemTree, OpenGate};
use ps_world::{Gate, Source, Tree};
use sh_eval::Refusal;
use std::alloc::{AllocError, Global};
use std::process::Abort;
use std::sync::Wait;
use std::test::Fail;
use std::thread::Threads;

/// The widths at which rows are run, as words.
static WIDTHS: [&str; 5] = ["1", "2", "3", "4", "16"];

/// A path of the tree, and a file's bytes.
type Entry<'a> = (&'a [u8], Option<&'a [u8]>);

/// What a run is to tell, its answer and its status.
#[derive(Drop)]
struct Reply<'a> {
    output: &'a [u8],
    errors: &'a [u8],
    status: u8,
    why: Why,
}

/// What a script tells that runs to its end with this status.
fn finished<'a>(output: &'a [u8], errors: &'a [u8], status: u8) -> Reply<'a> {
    Reply {
        output,
        errors,
        status,
        why: Why::Finished,
    }
}

/// What a script tells that is refused, behind this output.
fn refused<'a>(output: &'a [u8], line: &'a [u8], cause: Refusal) -> Reply<'a> {
    Reply {
        output,
        errors: line,
        status: 2,
        why: Why::Refused(cause),
    }
}

/// The object of which a call fails, and that call's number, counted from 0.
#[derive(Clone, Copy, Debug)]
enum Failing {
    Nothing,
    Tree(u64),
    Input(u64),
    Output(u64),
    Errors(u64),
}

impl Failing {
    /// The calls of the tree that fail.
    fn of_tree(self, alloc: Global) -> Result<Vec<u64>, AllocError> {
        match self {
            Failing::Tree(call) => Vec::from_slice(alloc, &[call]),
            _ => Ok(Vec::new(alloc)),
        }
    }

    /// The calls of the input that fail.
    fn of_input(self, alloc: Global) -> Result<Vec<u64>, AllocError> {
        match self {
            Failing::Input(call) => Vec::from_slice(alloc, &[call]),
            _ => Ok(Vec::new(alloc)),
        }
    }

    /// The calls of the output that fail.
    fn of_output(self, alloc: Global) -> Result<Vec<u64>, AllocError> {
        match self {
            Failing::Output(call) => Vec::from_slice(alloc, &[call]),
            _ => Ok(Vec::new(alloc)),
        }
    }

    /// The calls of the errors that fail.
    fn of_errors(self, alloc: Global) -> Result<Vec<u64>, AllocError> {
        match self {
            Failing::Errors(call) => Vec::from_slice(alloc, &[call]),
            _ => Ok(Vec::new(alloc)),
        }
    }
}

/// The input of every run.
const INPUT: &[u8] = b"in\n";

/// What a run answered, and the objects as it left them.
#[derive(Drop)]
struct Ran {
    tree: MemTree,
    input: MemSource,
    out: MemSink,
    err: MemSink,
    status: u8,
    why: Why,
}

impl Ran {
    /// Whether the run told exactly this, and sent it on.
    fn is(&self, reply: &Reply) -> bool {
        has_sent_all(&self.out, reply.output)
            && has_sent_all(&self.err, reply.errors)
            && self.ended_with(&reply.why, reply.status)
    }

    /// Whether output and errors are prefixes of these.
    fn has_part_of(&self, reply: &Reply) -> bool {
        reply.output.starts_with(self.out.taken()) && reply.errors.starts_with(self.err.taken())
    }

    /// Whether this is left of the input.
    fn has_left(&mut self, text: &[u8]) -> bool {
        let mut bytes = [0; 8];
        match self.input.read(&mut bytes) {
            Ok(count) => count == text.len() && bytes.starts_with(text),
            Err(_) => false,
        }
    }

    /// Whether the run ended so.
    fn ended_with(&self, why: &Why, status: u8) -> bool {
        self.why == *why && self.status == status
    }

    /// Whether a call failed, or a reader came back of which one had.
    fn has_fault(&self) -> bool {
        self.tree.faults() > 0
            || self.input.faults() > 0
            || self.out.faults() > 0
            || self.err.faults() > 0
    }
}

/// Whether a sink has taken this text, and sent all of it on.
fn has_sent_all(sink: &MemSink, text: &[u8]) -> bool {
    sink.taken() == text && sink.sent() == text
}

fn owned_words(alloc: Global, words: &[&str]) -> Result<Vec<String>, AllocError> {
    let mut owned = Vec::new(alloc);
    for word in words {
        owned.push(String::from_str(alloc, word)?)?;
    }
    Ok(owned)
}

/// An engine that has run nothing, for the host that a test has.
fn in_turn<H: Threads + Wait + Sync>(_rt: &H, alloc: Global) -> InTurn<H> {
    InTurn::new(alloc)
}

/// Does what the words ask for over a tree, with objects of which calls may fail, on an engine.
fn run_on<X: Engine>(
    alloc: Global,
    words: &[&str],
    tree: MemTree,
    failing: Failing,
    engine: &mut X,
) -> Result<Ran, AllocError>
    requires whole { IfSome (⟦<MemTree as Tree>⟧.state tree).held NoWriterOut }
{
    run_through(alloc, words, tree, failing, &OpenGate, engine)
}

/// Likewise, with a gate that the nodes of graphs pass.
fn run_through<G: Gate, X: Engine>(
    alloc: Global,
    words: &[&str],
    tree: MemTree,
    failing: Failing,
    gate: &G,
    engine: &mut X,
) -> Result<Ran, AllocError>
    requires whole { IfSome (⟦<MemTree as Tree>⟧.state tree).held NoWriterOut }
{
    let words = owned_words(alloc, words)?;
    let input = MemSource::new(Vec::from_slice(alloc, INPUT)?, failing.of_input(alloc)?);
    let out = MemSink::new(alloc, failing.of_output(alloc)?);
    let mut err = MemSink::new(alloc, failing.of_errors(alloc)?);
    let mut tree = tree;
    let end = pash(
        alloc,
        words.as_slice(),
        &mut tree,
        input,
        out,
        &mut err,
        gate,
        engine,
    );
    Ok(Ran {
        tree,
        input: end.input,
        out: end.out,
        err,
        status: end.status,
        why: end.why,
    })
}

/// Does what the words ask for in the working directory `/w`, over a tree with these entries: on threads, as the program does; but what is to
/// fail runs in turn, since which call comes before which is fixed there alone.
fn run<R: Abort + AllocGlobal + Threads + Wait + Sync>(
    rt: &R,
    words: &[&str],
    entries: &[Entry],
    failing: Failing,
) -> Result<Ran, Fail> {
    let alloc = rt.alloc();
    let tree = MemTree::of_table(alloc, b"/w", entries, failing.of_tree(alloc)?)?;
    let tree = tree.expect(rt, "the entries make a tree");
    let ran = match failing {
        Failing::Nothing => run_on(alloc, words, tree, failing, &mut OnThreads::new(rt, alloc)),
        _ => run_on(alloc, words, tree, failing, &mut in_turn(rt, alloc)),
    };
    Ok(ran?)
}

/// A text so often.
fn repeated(alloc: Global, text: &[u8], times: usize) -> Result<Vec<u8>, AllocError> {
    let mut all = Vec::new(alloc);
    for _ in 0..times {
        all.extend_from_slice(text)?;
    }
    Ok(all)
}
