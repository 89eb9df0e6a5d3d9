//! Joints over cuttings of small inputs: what they put, part by part, by the outs in order.
//!
//! What an out has got is shown with a full stop where it was ended, and a bang where it was broken. A number sign says that the joint
//! has stopped.

ghost use Rattle.std.specs.Prelude.{◌≡◌, true, IfOk, IfSome};
ghost use Rattle.ut_args.specs.Built.{is_built_of};
ghost use Rattle.fl_graph.specs.Kinds.{may_have, runs_what_is_built};
ghost use Rattle.fl_joints.specs.Joints.{is_joint};

use fl_graph::{Act, Bytes, MAX_PIECE, Machine, NodeKind, Piece};
use fl_joints::{Joint, joint};
use ps_lines::{Memory, Text};
use ps_world::{Mode, Path};
use std::alloc::Global;
use std::process::Abort;
use std::test::Fail;
use ut_args::{ArgFault, Inv, Origin, Report, is_built, read_inv};
use ut_streams::cut_behind;

/// Adds the bytes of a piece to a text, or how it ends.
fn show(piece: &Piece, text: &mut Vec<u8>) -> Result<(), Memory> {
    match piece {
        Piece::Bytes(bytes) => text.extend_from_slice(bytes.as_slice())?,
        Piece::Mark => text.push(b'|')?,
        Piece::End => text.push(b'.')?,
        Piece::Broken => text.push(b'!')?,
    }
    Ok(())
}

/// One act of a machine: it takes the last piece of an input, or its piece is shown behind an output. False once it stops or waits.
fn step<M: Machine>(
    machine: &mut M,
    inputs: &mut Vec<Vec<Piece>>,
    outputs: &mut Vec<Vec<u8>>,
) -> Result<bool, Memory> {
    match machine.next() {
        Act::Take(port) => {
            let Some(input) = inputs.get_mut(port as usize) else {
                return Ok(false);
            };
            match input.pop() {
                None | Some(Piece::Mark) => return Ok(false),
                Some(piece) => machine.take(piece)?,
            }
            Ok(true)
        }
        Act::Put(port) => {
            let piece = machine.put()?;
            let Some(output) = outputs.get_mut(port as usize) else {
                return Ok(false);
            };
            show(&piece, output)?;
            Ok(true)
        }
        Act::Stop => Ok(false),
    }
}

/// What a joint with so many outs puts for these inputs, each with its last piece first.
fn put_for(
    alloc: Global,
    start: Joint,
    inputs: Vec<Vec<Piece>>,
    outs: u32,
) -> Result<Vec<u8>, Memory> {
    let mut joint = start;
    let outputs = outputs_of(alloc, &mut joint, inputs, outs)?;
    let mut text = joined(alloc, outputs.as_slice())?;
    if joint.next() == Act::Stop && !joint.selected() {
        text.push(b'#')?;
    }
    Ok(text)
}

/// What a machine with so many outs puts on each for these inputs, each with its last piece first.
pub(crate) fn outputs_of<M: Machine>(
    alloc: Global,
    machine: &mut M,
    inputs: Vec<Vec<Piece>>,
    outs: u32,
) -> Result<Vec<Vec<u8>>, Memory> {
    let mut left = inputs;
    let mut outputs = nothing_on(alloc, outs)?;
    for _ in 0..400 {
        if !step(machine, &mut left, &mut outputs)? {
            return Ok(outputs);
        }
    }
    Ok(outputs)
}

/// An empty text for each out.
fn nothing_on(alloc: Global, outs: u32) -> Result<Vec<Vec<u8>>, Memory> {
    let mut outputs = Vec::new(alloc);
    for _ in 0..outs {
        outputs.push(Vec::new(alloc))?;
    }
    Ok(outputs)
}

/// Texts, one behind the other.
fn joined(alloc: Global, texts: &[Vec<u8>]) -> Result<Vec<u8>, Memory> {
    let mut whole = Vec::new(alloc);
    for text in texts {
        whole.extend_from_slice(text.as_slice())?;
    }
    Ok(whole)
}

/// A joint of so many ins and outs puts this for these inputs.
fn expect_put(
    rt: &impl Abort,
    alloc: Global,
    start: Joint,
    inputs: Vec<Vec<Piece>>,
    outs: u32,
    wanted: &str,
) -> Result<(), Fail> {
    let text = put_for(alloc, start, inputs, outs)?;
    assert_eq!(rt; text.as_slice(), wanted.as_bytes());
    Ok(())
}

/// The pieces of a text that is cut behind some bytes, and how it ends: the last first.
pub(crate) fn pieces_of(
    alloc: Global,
    text: &[u8],
    cuts: u64,
    end: Piece,
) -> Result<Vec<Piece>, Memory> {
    let mut cut = cut_behind(alloc, text, cuts)?;
    let mut pieces = Vec::new(alloc);
    pieces.push(end)?;
    for _ in 0..cut.len() {
        if let Some(bytes) = cut.pop() {
            if !bytes.is_empty() && bytes.len() <= MAX_PIECE {
                pieces.push(Piece::Bytes(Bytes::new(bytes)))?;
            }
        }
    }
    Ok(pieces)
}

/// The only input of a node.
fn one_input(alloc: Global, text: &str, cuts: u64, end: Piece) -> Result<Vec<Vec<Piece>>, Memory> {
    let mut inputs = Vec::new(alloc);
    inputs.push(pieces_of(alloc, text.as_bytes(), cuts, end)?)?;
    Ok(inputs)
}

/// Three texts.
type Three = (&'static str, &'static str, &'static str);

/// Three inputs, and how the second ends.
fn three_inputs(
    alloc: Global,
    texts: Three,
    cuts: u64,
    second: Piece,
) -> Result<Vec<Vec<Piece>>, Memory> {
    let mut inputs = Vec::new(alloc);
    inputs.push(pieces_of(alloc, texts.0.as_bytes(), cuts, Piece::End)?)?;
    inputs.push(pieces_of(alloc, texts.1.as_bytes(), cuts, second)?)?;
    inputs.push(pieces_of(alloc, texts.2.as_bytes(), cuts, Piece::End)?)?;
    Ok(inputs)
}

/// Into how many parts a text is split, and the parts.
static PARTS: [(u32, &str); 4] = [
    (1, "b a\nab\nc\nxa.#"),
    (2, "b a\nab\n.c\nxa.#"),
    (3, "b a\n.ab\nc\n.xa.#"),
    (16, "b a\n.....ab\n.....c\n...xa...#"),
];

/// A text that is cut so is split into these parts.
fn expect_parts(
    rt: &impl Abort,
    alloc: Global,
    parts: u32,
    cuts: u64,
    wanted: &str,
) -> Result<(), Fail> {
    if 1 <= parts {
        let split = joint(alloc, &NodeKind::Split, 1, parts)?;
        let inputs = one_input(alloc, "b a\nab\nc\nxa", cuts, Piece::End)?;
        return expect_put(rt, alloc, split, inputs, parts, wanted);
    }
    Err(Fail::new("no parts"))
}

#[test]
fn parts_end_at_ends_of_lines(rt: HostRuntime) -> Result<(), Fail> {
    for &(parts, wanted) in PARTS.iter() {
        for cuts in 0..1024 {
            expect_parts(&rt, rt.alloc(), parts, cuts, wanted)?;
        }
    }
    Ok(())
}

/// Whether the inputs but the last are closed, three inputs, what they are joined to, and what where the second breaks off.
static JOINED: [(bool, Three, &str, &str); 12] = [
    (false, ("a\nb", "", "c\n"), "a\nbc\n.#", "a\nb!#"),
    (true, ("a", "b", "c"), "a\nb\nc.#", "a\nb!#"),
    (true, ("a\n", "b\n", "c\n"), "a\nb\nc\n.#", "a\nb\n!#"),
    (
        true,
        ("a\nb", "c\n\n", "\n"),
        "a\nb\nc\n\n\n.#",
        "a\nb\nc\n\n!#",
    ),
    (true, ("\n", "\nab", "\n"), "\n\nab\n\n.#", "\n\nab!#"),
    (true, ("", "a", "b"), "a\nb.#", "a!#"),
    (true, ("a", "", "b\n"), "a\nb\n.#", "a\n!#"),
    (true, ("a\n", "", "b"), "a\nb.#", "a\n!#"),
    (true, ("a", "bc", ""), "a\nbc\n.#", "a\nbc!#"),
    (true, ("", "", "ab"), "ab.#", "!#"),
    (true, ("ab", "", ""), "ab\n.#", "ab\n!#"),
    (true, ("", "", ""), ".#", "!#"),
];

/// Three inputs that are cut so, of which the second ends so, are joined to this.
fn expect_joined(
    rt: &impl Abort,
    alloc: Global,
    close: bool,
    texts: Three,
    cuts: u64,
    second: Piece,
    wanted: &str,
) -> Result<(), Fail> {
    let cat = joint(alloc, &NodeKind::Cat { close }, 3, 1)?;
    let inputs = three_inputs(alloc, texts, cuts, second)?;
    expect_put(rt, alloc, cat, inputs, 1, wanted)
}

#[test]
fn inputs_are_joined_in_order(rt: HostRuntime) -> Result<(), Fail> {
    for &(close, texts, whole, broken) in JOINED.iter() {
        for cuts in 0..8 {
            expect_joined(&rt, rt.alloc(), close, texts, cuts, Piece::End, whole)?;
            expect_joined(&rt, rt.alloc(), close, texts, cuts, Piece::Broken, broken)?;
        }
    }
    Ok(())
}

/// One input, and what is put for it.
static ALONE: [(&str, &str); 3] = [("a\nb", "a\nb.#"), ("a\nb\n", "a\nb\n.#"), ("", ".#")];

/// One input that is cut so stays as it is.
fn expect_alone(
    rt: &impl Abort,
    alloc: Global,
    text: &str,
    cuts: u64,
    wanted: &str,
) -> Result<(), Fail> {
    let cat = joint(alloc, &NodeKind::Cat { close: true }, 1, 1)?;
    let inputs = one_input(alloc, text, cuts, Piece::End)?;
    expect_put(rt, alloc, cat, inputs, 1, wanted)
}

#[test]
fn an_input_alone_stays_as_it_is(rt: HostRuntime) -> Result<(), Fail> {
    for &(text, wanted) in ALONE.iter() {
        for cuts in 0..8 {
            expect_alone(&rt, rt.alloc(), text, cuts, wanted)?;
        }
    }
    Ok(())
}

/// The invocation of the words of a line, if they are one that is built.
fn read_words(alloc: Global, line: &str) -> Result<Option<Inv>, Memory>
    ensures { IfOk result (λ read. IfSome read (λ inv. is_built_of inv ≡ true)) }
{
    let mut words = Vec::new(alloc);
    for word in line.split(' ') {
        words.push(Vec::from_slice(alloc, word.as_bytes())?)?;
    }
    built_of(alloc, words.as_slice())
}

/// The invocation of these words, if they are one that is built.
pub(crate) fn built_of(alloc: Global, words: &[Vec<u8>]) -> Result<Option<Inv>, Memory>
    ensures { IfOk result (λ read. IfSome read (λ inv. is_built_of inv ≡ true)) }
{
    if words.is_empty() {
        return Ok(None);
    }
    match read_inv(alloc, words) {
        Ok(inv) => {
            if is_built(&inv) {
                return Ok(Some(inv));
            }
            // An invocation is let go by a call: going out of scope is proved a command at a time.
            drop(inv);
            Ok(None)
        }
        Err(ArgFault::Memory) => Err(Memory),
        Err(_) => Ok(None),
    }
}

/// An aggregate of three maps that are cut so puts this.
fn expect_aggregate(
    rt: &impl Abort,
    alloc: Global,
    inv: Inv,
    texts: Three,
    cuts: u64,
    wanted: &str,
) -> Result<(), Fail>
    requires { is_built_of inv ≡ true }
{
    let Some(kind) = aggregate_of(inv) else {
        return Err(Fail::new("no aggregate"));
    };
    let started = joint(alloc, &kind, 3, 1);
    drop(kind);
    let inputs = three_inputs(alloc, texts, cuts, Piece::End)?;
    expect_put(rt, alloc, started?, inputs, 1, wanted)
}

/// The node that aggregates the maps of an invocation, where such a node has a joint.
pub(crate) fn aggregate_of(inv: Inv) -> Option<NodeKind>
    requires { is_built_of inv ≡ true }
    ensures joint { IfSome result (λ kind. is_joint kind ≡ true) }
    ensures two { IfSome result (λ kind. may_have kind 2 1 ≡ true) }
    ensures three { IfSome result (λ kind. may_have kind 3 1 ≡ true) }
    ensures built { IfSome result (λ kind. runs_what_is_built kind ≡ true) }
{
    match inv {
        Inv::Wc(inv) => Some(NodeKind::Agg(Inv::Wc(inv))),
        Inv::Grep(inv) => match inv.args.report {
            Report::Count => Some(NodeKind::Agg(Inv::Grep(inv))),
            Report::Lines | Report::Path | Report::Nothing => None,
        },
        Inv::Uniq(inv) => Some(NodeKind::Agg(Inv::Uniq(inv))),
        Inv::Tr(inv) => Some(NodeKind::Agg(Inv::Tr(inv))),
        Inv::Head(inv) => Some(NodeKind::Agg(Inv::Head(inv))),
        Inv::Tail(inv) => match inv.args.part.origin {
            Origin::End(_) => Some(NodeKind::Agg(Inv::Tail(inv))),
            Origin::Start(_) => None,
        },
        Inv::Sort(inv) => Some(NodeKind::Agg(Inv::Sort(inv))),
        other => {
            drop(other);
            None
        }
    }
}

/// The words of `wc` or `grep -c`, three lines of counts, and their sum.
static SUMS: [(&str, Three, &str); 9] = [
    ("grep -c a", ("2\n", "3\n", "40\n"), "45\n.#"),
    (
        "grep -c a",
        ("1\n", "18446744073709551615\n", "0\n"),
        "18446744073709551615\n.#",
    ),
    ("wc -l", ("2\n", "3\n", "40\n"), "45\n.#"),
    (
        "wc -l",
        ("18446744073709551615\n", "1\n", "0\n"),
        "18446744073709551615\n.#",
    ),
    (
        "wc -l",
        ("18446744073709551614\n", "1\n", "0\n"),
        "18446744073709551615\n.#",
    ),
    ("wc -l", ("x\n", "7\n", "000000000000000000001\n"), "7\n.#"),
    ("wc -l", ("00000000000000000001\n", "7\n", ""), "8\n.#"),
    ("wc f", ("1 2 4\n", "0 1 1\n", "1 1 2\n"), "2 4 7\n.#"),
    ("wc -wc", ("2 4\n", "1 1\n", "0 0\n"), "3 5\n.#"),
];

#[test]
fn counts_are_summed(rt: HostRuntime) -> Result<(), Fail> {
    for &(words, texts, wanted) in SUMS.iter() {
        for cuts in 0..8 {
            let inv = read_words(rt.alloc(), words)?.ok_or("no invocation")?;
            expect_aggregate(&rt, rt.alloc(), inv, texts, cuts, wanted)?;
        }
    }
    Ok(())
}

/// The words of a command, the maps of three parts, and their aggregate.
static AGGREGATES: [(&str, Three, &str); 22] = [
    ("uniq", ("a\nb\n", "b\nb\nc\n", "c\n"), "a\nb\nc\n.#"),
    ("uniq", ("a\n", "", "a\nb"), "a\nb\n.#"),
    ("uniq -c", ("1 a\n2 b\n", "3 b\n", ""), "1 a\n5 b\n.#"),
    ("uniq -c", ("2 b\n", "3 b\n", "4 b\n1 a\n"), "9 b\n1 a\n.#"),
    (
        "uniq -c",
        ("18446744073709551615 a\n", "1 a\n", ""),
        "18446744073709551615 a\n.#",
    ),
    ("uniq -d", ("1 a\n2 b\n", "3 b\n", ""), "1 a\n5 b\n.#"),
    (
        "uniq -u -f 1",
        ("1 x a\n", "1 y a\n1 z b\n", ""),
        "2 x a\n1 z b\n.#",
    ),
    ("tr -s a", ("ba", "ac", ""), "bac.#"),
    ("tr -s a", ("", "aa", "ab"), "ab.#"),
    ("tr -s a b", ("ab", "b", "ba"), "aba.#"),
    ("head -n 2", ("a\n", "b\nc\n", "d\n"), "a\nb\n.#"),
    ("head -n 3", ("a", "b\nc\n", "d"), "ab\nc\nd.#"),
    ("head -n 0", ("a\n", "b\n", ""), ".#"),
    ("tail -n 2", ("a\nb\n", "c\n", "d"), "c\nd.#"),
    ("tail -n 2", ("a\nb", "c\nd", ""), "bc\nd.#"),
    ("tail -c 3", ("ab", "c", "de"), "cde.#"),
    ("sort -u -f", ("a\n", "A\nb\n", ""), "a\nb\n.#"),
    ("sort -u -f", ("A\n", "a\nb\n", "B\nc\n"), "A\nb\nc\n.#"),
    (
        "sort",
        ("a\nc\n", "b\nd\n", "a\ne\n"),
        "a\na\nb\nc\nd\ne\n.#",
    ),
    (
        "sort -n",
        ("9\n10\n", "1\n010", "2\n"),
        "1\n2\n9\n010\n10\n.#",
    ),
    ("sort -r", ("c\na\n", "", "b\n"), "c\nb\na\n.#"),
    ("sort -u", ("", "", "b"), "b\n.#"),
];

#[test]
fn parts_are_joined_where_they_meet(rt: HostRuntime) -> Result<(), Fail> {
    for &(words, texts, wanted) in AGGREGATES.iter() {
        for cuts in [0, 1, 2, 5, 21, 18446744073709551615] {
            let inv = read_words(rt.alloc(), words)?.ok_or("no invocation")?;
            expect_aggregate(&rt, rt.alloc(), inv, texts, cuts, wanted)?;
        }
    }
    Ok(())
}

#[test]
fn texts_are_given_and_drained(rt: HostRuntime) -> Result<(), Fail> {
    let alloc = rt.alloc();
    let text = Text::copy_of(alloc, b"a\nb")?;
    let fixed = joint(alloc, &NodeKind::Text(text), 0, 1)?;
    expect_put(&rt, alloc, fixed, Vec::new(alloc), 1, "a\nb.#")?;
    let drain = joint(alloc, &NodeKind::Drain, 1, 0)?;
    let inputs = one_input(alloc, "a\nb", 1, Piece::End)?;
    expect_put(&rt, alloc, drain, inputs, 0, "#")
}

/// An input that is cut so, ends so, and goes to a file and on.
fn expect_handed_on(
    rt: &(impl Abort + AllocGlobal),
    cuts: u64,
    end: Piece,
    wanted: &str,
) -> Result<(), Fail> {
    let alloc = rt.alloc();
    let path = Path::read(alloc, b"/g")?.ok_or("no path")?;
    let tee = joint(alloc, &NodeKind::TeeFile(path, Mode::Fresh), 1, 1)?;
    let inputs = one_input(alloc, "a\nb", cuts, end)?;
    expect_put(rt, alloc, tee, inputs, 2, wanted)
}

#[test]
fn each_out_has_the_input(rt: HostRuntime) -> Result<(), Fail> {
    for cuts in 0..8 {
        expect_handed_on(&rt, cuts, Piece::End, "a\nb.a\nb.#")?;
        expect_handed_on(&rt, cuts, Piece::Broken, "a\nb!a\nb!#")?;
    }
    Ok(())
}
