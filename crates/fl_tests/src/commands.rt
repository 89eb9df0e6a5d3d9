//! Commands over a tree in memory: what each writes, the status that it leaves, what it leaves of the input, and what is noted of it.
//!
//! What is written and the status are those of GNU coreutils and grep under `LC_ALL=C`.
ghost use Rattle.std.specs.Prelude.{IfSome};
ghost use Rattle.fl_commands.specs.Operands.{AllStand, AreNamed};
ghost use Rattle.ps_world.specs.Files.{NoWriterOut};
ghost use Rattle.ut_args.specs.Inputs.{operands_of};

use crate::pipelines::tree;
use fl_commands::{Commanded, Ended, Operand, look_at, run_command};
use fl_engines::InTurn;
use fl_segments::First;
use ps_fakes::{MemSink, MemSource, MemTree, OpenGate};
use ps_lines::{Memory, Text};
use ps_world::{Source, Tree, WorldErr};
use std::alloc::{AllocError, Global};
use std::process::Abort;
use std::sync::Wait;
use std::test::Fail;
use std::thread::Threads;
use ut_args::{Inv, is_built, read_inv};
use ut_options::Texts;

/// What came of a command.
#[derive(Drop)]
struct Ran {
    ended: Ended,
    output: Vec<u8>,
    /// The bytes of the input that it has left.
    left: Vec<u8>,
    /// The words that the engine has noted, each behind a bar.
    noted: Vec<u8>,
}

/// The invocation of words, each behind a bar, if it is one.
fn invocation(alloc: Global, text: &str) -> Result<Option<Inv>, Memory> {
    let mut words = Vec::new(alloc);
    for word in text.as_bytes().split(|byte| *byte == b'|').skip(1) {
        words.push(Vec::from_slice(alloc, word)?)?;
    }
    if words.is_empty() {
        return Ok(None);
    }
    Ok(read_inv(alloc, words.as_slice()).ok())
}

/// The words that an engine has noted, each behind a bar.
fn noted_words(alloc: Global, used: &[Texts]) -> Result<Vec<u8>, AllocError> {
    let mut noted = Vec::new(alloc);
    for words in used {
        for word in words.as_slice() {
            noted.push(b'|')?;
            noted.extend_from_slice(word.as_slice())?;
        }
    }
    Ok(noted)
}

/// The bytes that are left of a short input.
pub(crate) fn left_of(alloc: Global, input: &mut MemSource) -> Result<Vec<u8>, WorldErr> {
    let mut buffer = [0; 16];
    let count = input.read(&mut buffer)?;
    Ok(Vec::from_slice(alloc, &buffer[..count])?)
}

/// Runs an invocation over an input of two lines, in a tree where `f` and `g` are files, `d` a directory, and `no` missing.
fn run<H: Threads + Wait + Sync>(
    rt: &H,
    alloc: Global,
    inv: &Inv,
    from: &First,
) -> Result<Option<Ran>, WorldErr> {
    match tree(alloc)? {
        Some(mut tree) => {
            // What is large is let go by calls, past which there is no way out: going out of scope is proved a part at a time.
            let ran = run_in(rt, alloc, inv, from, &mut tree);
            drop(tree);
            ran
        }
        None => Ok(None),
    }
}

/// Runs an invocation over what its operands name in a tree.
fn run_in<H: Threads + Wait + Sync>(
    rt: &H,
    alloc: Global,
    inv: &Inv,
    from: &First,
    tree: &mut MemTree,
) -> Result<Option<Ran>, WorldErr>
    requires whole { IfSome (⟦<MemTree as Tree>⟧.state tree.old).held NoWriterOut }
{
    let operands = look_at(alloc, inv.operands(), tree)?;
    let ran = run_over(rt, alloc, inv, operands.as_slice(), from, tree);
    drop(operands);
    ran
}

/// Runs an invocation over these operands.
fn run_over<H: Threads + Wait + Sync>(
    _rt: &H,
    alloc: Global,
    inv: &Inv,
    operands: &[Operand],
    from: &First,
    tree: &mut MemTree,
) -> Result<Option<Ran>, WorldErr>
    requires named { AreNamed (operands_of inv.now) operands.now }
    requires stand { IfSome (⟦<MemTree as Tree>⟧.state tree.old).held (λ files. AllStand files operands.now) }
    requires whole { IfSome (⟦<MemTree as Tree>⟧.state tree.old).held NoWriterOut }
{
    if operands.len() > 8 || !is_built(inv) {
        return Ok(None);
    }
    let input = Vec::from_slice(alloc, b"in\nb\n")?;
    let mut engine = InTurn::<H>::new(alloc);
    let commanded = run_command(
        alloc,
        inv,
        operands,
        &[],
        from,
        tree,
        MemSource::new(input, Vec::new(alloc)),
        MemSink::new(alloc, Vec::new(alloc)),
        &OpenGate,
        &mut engine,
    );
    let noted = noted_words(alloc, engine.used());
    drop(engine);
    what_came(alloc, commanded, noted)
}

/// What came of a run, with the words that were noted of it.
fn what_came(
    alloc: Global,
    commanded: Commanded<MemSource, MemSink>,
    noted: Result<Vec<u8>, AllocError>,
) -> Result<Option<Ran>, WorldErr> {
    let Commanded {
        ended,
        mut input,
        out,
    } = commanded;
    let output = Vec::from_slice(alloc, out.taken());
    let left = left_of(alloc, &mut input);
    drop(out);
    drop(input);
    Ok(Some(Ran {
        ended,
        output: output?,
        left: left?,
        noted: noted?,
    }))
}

/// Runs the invocation of these words so.
fn run_words(
    rt: &(impl Abort + Threads + Wait + Sync),
    alloc: Global,
    words: &str,
    from: &First,
) -> Result<Ran, Fail> {
    let inv = invocation(alloc, words)?.expect(rt, words);
    let ran = run(rt, alloc, &inv, from);
    // An invocation is let go by a call: going out of scope is proved a command at a time.
    drop(inv);
    Ok(ran?.expect(rt, words))
}

/// Whether a command came to its end so.
fn is_as(ran: &Ran, output: &str, status: u8, left: &str, noted: &str) -> bool {
    ran.ended == Ended::Done(status)
        && ran.output.as_slice() == output.as_bytes()
        && ran.left.as_slice() == left.as_bytes()
        && ran.noted.as_slice() == noted.as_bytes()
}

/// A command over the input writes this, leaves this status and this of the input, and these words are noted of it.
fn expect(
    rt: &(impl Abort + Threads + Wait + Sync),
    alloc: Global,
    words: &str,
    output: &str,
    status: u8,
    left: &str,
    noted: &str,
) -> Result<(), Fail> {
    let ran = run_words(rt, alloc, words, &First::Input)?;
    let is_right = is_as(&ran, output, status, left, noted);
    assert!(rt;
        is_right,
        "{words}: {:?}, wrote {:?}, left {:?}, noted {:?}",
        ran.ended, ran.output, ran.left, ran.noted
    );
    Ok(())
}

/// The words of a command, each behind a bar, what it writes, the status that it leaves, what it leaves of the input, and the words
/// that are noted of it.
static COMMANDS: [(&str, &str, u8, &str, &str); 17] = [
    ("|cat|f|-|g", "a\nb\nin\nb\nb\nc", 0, "", ""),
    ("|cat|f|no|g", "a\nb\nb\nc", 1, "in\nb\n", ""),
    ("|cat|-|f|-", "in\nb\na\nb\n", 0, "", ""),
    ("|cat", "in\nb\n", 0, "", ""),
    ("|cat|d|/dev/null", "", 1, "in\nb\n", ""),
    ("|cut|-c|1|f|no|-", "a\nb\ni\nb\n", 1, "", "|cut|-c|1|f||-"),
    ("|sort|f|g", "a\nb\nb\nc\n", 0, "in\nb\n", "|sort|f|g"),
    ("|grep|-F|b|f", "b\n", 0, "in\nb\n", "|grep|-F|b|f"),
    ("|grep|-F|x|f", "", 1, "in\nb\n", "|grep|-F|x|f"),
    ("|grep|-F|b|no", "", 2, "in\nb\n", ""),
    ("|tail|-n|+2|f", "b\n", 0, "in\nb\n", "|tail|-n|+2|f"),
    ("|wc|-l", "2\n", 0, "", "|wc|-l"),
    (
        "|grep|-F|b|f|g",
        "f:b\ng:b\n",
        0,
        "in\nb\n",
        "|grep|-F|b|f|g",
    ),
    ("|grep|-F|b|f|no", "f:b\n", 2, "in\nb\n", "|grep|-F|b|f|"),
    (
        "|head|-n|1|f|-",
        "==> f <==\na\n\n==> standard input <==\nin\n",
        0,
        "",
        "|head|-n|1|f|-",
    ),
    (
        "|wc|f|g",
        "2 2 4 f\n1 2 3 g\n3 4 7 total\n",
        0,
        "in\nb\n",
        "|wc|f|g",
    ),
    ("|wc|no|d", "0 0 0 total\n", 1, "in\nb\n", ""),
];

#[test]
fn commands_run_over_what_their_operands_name(rt: HostRuntime) -> Result<(), Fail> {
    for &(words, output, status, left, noted) in COMMANDS.iter() {
        expect(&rt, rt.alloc(), words, output, status, left, noted)?;
    }
    Ok(())
}

#[test]
fn a_text_is_read_in_place_of_the_input(rt: HostRuntime) -> Result<(), Fail> {
    let from = First::Text(Text::copy_of(rt.alloc(), b"t\n")?);
    let ran = run_words(&rt, rt.alloc(), "|cat|f|-", &from)?;
    let is_right = is_as(&ran, "a\nb\nt\n", 0, "in\nb\n", "");
    assert!(rt; is_right, "wrote {:?}, left {:?}", ran.output, ran.left);
    Ok(())
}
