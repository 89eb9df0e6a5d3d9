//! Machines of nodes, from their first piece to their end.

use fl_graph::{Act, Bytes, Machine, NodeKind, Piece, first_piece};
use fl_machines::{UtilMachine, is_utility_node, util_machine};
use ps_lines::Memory;
use std::alloc::Global;
use std::process::Abort;
use std::test::Fail;
use ut_args::{Inv, read_inv};

/// The invocation of these words.
fn invocation(alloc: Global, words: &[&str]) -> Result<Option<Inv>, Fail> {
    let mut read = Vec::new(alloc);
    for word in words {
        read.push(Vec::from_slice(alloc, word.as_bytes())?)?;
    }
    if read.is_empty() {
        return Ok(None);
    }
    match read_inv(alloc, read.as_slice()) {
        Ok(inv) => Ok(Some(inv)),
        Err(_) => Ok(None),
    }
}

/// What a machine puts that takes these pieces and then an end: its bytes, and `.` for an end; None where it puts anything else.
fn run(
    alloc: Global,
    machine: &mut UtilMachine,
    pieces: &[&str],
) -> Result<Option<Vec<u8>>, Memory> {
    let mut out = Vec::new(alloc);
    let mut left = pieces;
    for _ in 0..1000 {
        match machine.next() {
            Act::Stop => return Ok(Some(out)),
            Act::Take(_) => match left {
                [piece, rest @ ..] if !piece.is_empty() && piece.len() < 100 => {
                    machine.take(Piece::Bytes(Bytes::new(Vec::from_slice(
                        alloc,
                        piece.as_bytes(),
                    )?)))?;
                    left = rest;
                }
                _ => machine.take(Piece::End)?,
            },
            Act::Put(_) => match machine.put()? {
                Piece::Bytes(bytes) => out.extend_from_slice(bytes.as_slice())?,
                Piece::End => out.push(b'.')?,
                _ => return Ok(None),
            },
        }
    }
    Ok(None)
}

/// The whole of these words, or their map.
fn node_of(alloc: Global, words: &[&str], is_map: bool) -> Result<NodeKind, Fail> {
    let inv = invocation(alloc, words)?.ok_or("no invocation")?;
    if is_map {
        return Ok(NodeKind::Map(inv));
    }
    Ok(NodeKind::Whole(inv))
}

/// What a node of this kind puts for these pieces, with `.` for an end, and whether it has selected a line.
fn put_by(
    alloc: Global,
    kind: &NodeKind,
    pieces: &[&str],
) -> Result<(Option<Vec<u8>>, bool), Fail> {
    if !is_utility_node(kind, 1, 1) {
        return Err(Fail::new("no node"));
    }
    let mut machine = util_machine(alloc, kind, 1, 1)?;
    let out = run(alloc, &mut machine, pieces);
    let selected = machine.selected();
    // A machine, as an invocation, is let go by a call: going out of scope is proved a utility at a time.
    drop(machine);
    Ok((out?, selected))
}

/// A node of this kind puts what is wanted for these pieces, and selects a line or doesn't.
fn expect_put(
    rt: &impl Abort,
    alloc: Global,
    kind: &NodeKind,
    pieces: &[&str],
    wanted: &str,
    selects: bool,
) -> Result<(), Fail> {
    let (out, selected) = put_by(alloc, kind, pieces)?;
    let out = out.ok_or("another piece")?;
    assert_eq!(rt; out.as_slice(), wanted.as_bytes());
    assert_eq!(rt; selected, selects);
    Ok(())
}

/// The words, what a node of them puts, and whether it selects a line.
static RUNS: [(&[&str], &str, bool); 8] = [
    (&["grep", "-F", "a"], "b a\nab\nxa\n.", true),
    (&["grep", "-F", "q"], ".", false),
    (&["wc", "-l"], "3\n.", false),
    (&["cat", "f"], "b a\nab\nc\nxa.", false),
    (&["sort", "-r"], "xa\nc\nb a\nab\n.", false),
    (&["paste"], "b a\nab\nc\nxa\n.", false),
    (&["paste", "-", "-"], "b a\tab\nc\txa\n.", false),
    (&["paste", "-s", "-d", ",;"], "b a,ab;c,xa\n.", false),
];

#[test]
fn nodes_put_what_their_utility_writes(rt: HostRuntime) -> Result<(), Fail> {
    for &(words, wanted, selects) in RUNS.iter() {
        for is_map in [false, true] {
            let kind = node_of(rt.alloc(), words, is_map)?;
            let pieces = ["b a\na", "b\nc\n", "xa"];
            let told = expect_put(&rt, rt.alloc(), &kind, &pieces, wanted, selects);
            drop(kind);
            told?;
        }
    }
    Ok(())
}

/// What a node of this kind puts, which has no input.
fn put_by_none(alloc: Global, kind: &NodeKind) -> Result<Option<Vec<u8>>, Fail> {
    if is_utility_node(kind, 1, 1) || !is_utility_node(kind, 0, 1) {
        return Err(Fail::new("another node"));
    }
    let mut machine = util_machine(alloc, kind, 0, 1)?;
    let out = run(alloc, &mut machine, [].as_slice());
    drop(machine);
    Ok(out?)
}

#[test]
fn a_whole_of_no_input_puts_nothing_and_ends(rt: HostRuntime) -> Result<(), Fail> {
    let kind = node_of(rt.alloc(), &["cat", ""], false)?;
    let told = put_by_none(rt.alloc(), &kind);
    drop(kind);
    let out = told?.ok_or("another piece")?;
    assert_eq!(rt; out.as_slice(), b".".as_slice());
    Ok(())
}

/// A line of 40,000 of this letter.
fn long_line(alloc: Global, letter: u8) -> Result<Bytes, Memory> {
    let mut line = Vec::new(alloc);
    for _ in 0..40_000 {
        line.push(letter)?;
    }
    line.push(b'\n')?;
    first_piece(alloc, line.as_slice())
}

/// How many bytes each piece has that a machine puts which takes long lines of these letters and then this end; None where it doesn't put the
/// same end.
fn sizes_put(
    alloc: Global,
    machine: &mut UtilMachine,
    letters: &[u8],
    is_whole: bool,
) -> Result<Option<Vec<usize>>, Memory> {
    let mut sizes = Vec::new(alloc);
    let mut left = letters;
    for _ in 0..1000 {
        match machine.next() {
            Act::Stop => return Ok(None),
            Act::Take(_) => match left {
                [letter, rest @ ..] => {
                    machine.take(Piece::Bytes(long_line(alloc, *letter)?))?;
                    left = rest;
                }
                [] => machine.take(if is_whole { Piece::End } else { Piece::Broken })?,
            },
            Act::Put(_) => match machine.put()? {
                Piece::Bytes(bytes) => sizes.push(bytes.as_slice().len())?,
                Piece::End if is_whole => return Ok(Some(sizes)),
                Piece::Broken if !is_whole => return Ok(Some(sizes)),
                _ => return Ok(None),
            },
        }
    }
    Ok(None)
}

/// The sizes of the pieces that the whole of `sort` puts for long lines of these letters.
fn sizes_sorted(alloc: Global, letters: &[u8], is_whole: bool) -> Result<Option<Vec<usize>>, Fail> {
    let kind = node_of(alloc, &["sort"], false)?;
    if !is_utility_node(&kind, 1, 1) {
        drop(kind);
        return Ok(None);
    }
    let machine = util_machine(alloc, &kind, 1, 1);
    drop(kind);
    let mut machine = machine?;
    let sizes = sizes_put(alloc, &mut machine, letters, is_whole);
    drop(machine);
    Ok(sizes?)
}

#[test]
fn sorted_lines_are_put_in_pieces_once_all_have_come(rt: HostRuntime) -> Result<(), Fail> {
    let sizes = sizes_sorted(rt.alloc(), b"cab", true)?.ok_or("another end")?;
    assert_eq!(rt; sizes.as_slice(), [65_536, 14_466, 40_001].as_slice());
    let sizes = sizes_sorted(rt.alloc(), b"cab", false)?.ok_or("another end")?;
    assert_eq!(rt; sizes.is_empty(), true);
    Ok(())
}
