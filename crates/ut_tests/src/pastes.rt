//! Pastes of short texts over every cutting; what is wanted is what GNU's tool writes in the C locale.

use crate::cuttings::{CUTS, gives_at_ports};
use crate::invocations::read_words;
use ps_lines::Memory;
use std::alloc::Global;
use std::test::Fail;
use ut_args::{Inv, PasteInv};
use ut_slices::{Serial, Side};
use ut_streams::{Series, cut_behind, feed_inputs};

/// The list of delimiters, three operands, of which the empty ones name no input, the texts of the inputs, and what is written.
static SIDES: [(&str, [&str; 3], [&str; 3], &str); 14] = [
    (
        "\\t",
        ["f", "g", ""],
        ["1\n2\n3\n", "x\ny\n", ""],
        "1\tx\n2\ty\n3\t\n",
    ),
    (":", ["f", "g", ""], ["a", "b\nc", ""], "a:b\n:c\n"),
    (
        ",;",
        ["f", "g", "h"],
        ["1\n2\n", "a\n", "x\ny\nz"],
        "1,a;x\n2,;y\n,;z\n",
    ),
    ("\\0", ["f", "g", ""], ["p\nq\n", "r\n", ""], "pr\nq\n"),
    (
        "+\\n",
        ["f", "g", "h"],
        ["p\nq\n", "r\n", "s\n"],
        "p+r\ns\nq+\n\n",
    ),
    (
        "+\\0",
        ["f", "g", "h"],
        ["p\nq\n", "r\n", "s\n"],
        "p+rs\nq+\n",
    ),
    (
        "-",
        ["-", "-", "-"],
        ["a\nb\nc\nd\ne", "", ""],
        "a-b-c\nd-e-\n",
    ),
    (
        "\\t",
        ["-", "f", "-"],
        ["1\n2\n3\n", "u\nv\nw\n", ""],
        "1\tu\t2\n3\tv\t\n\tw\t\n",
    ),
    (
        ",",
        ["f", "-", "-"],
        ["u\n", "1\n2\n3\n4\n", ""],
        "u,1,2\n,3,4\n",
    ),
    (",", ["f", "g", ""], ["", "", ""], ""),
    (",", ["f", "g", ""], ["\n", "", ""], ",\n"),
    (",", ["", "f", "g"], ["", "k\n\nl", ""], ",k\n,\n,l\n"),
    (
        ".",
        ["f", "g", ""],
        ["one\ntwo", "three\n", ""],
        "one.three\ntwo.\n",
    ),
    (",", ["-", "", ""], ["a\nb", "", ""], "a\nb\n"),
];

/// Whether these words are a paste that writes this of the texts of its inputs side by side, however they are cut.
fn side_writes(
    alloc: Global,
    words: &[&[u8]],
    texts: &[&str; 3],
    wanted: &str,
) -> Result<bool, Memory> {
    match read_words(alloc, words)? {
        Some(Inv::Paste(inv)) => {
            let told = side(alloc, &inv, texts, wanted);
            drop(inv);
            told
        }
        other => {
            drop(other);
            Ok(false)
        }
    }
}

fn side(alloc: Global, inv: &PasteInv, texts: &[&str; 3], wanted: &str) -> Result<bool, Memory> {
    for cuts in CUTS.iter() {
        if !side_cut(alloc, inv, texts, *cuts, wanted)? {
            return Ok(false);
        }
    }
    Ok(true)
}

fn side_cut(
    alloc: Global,
    inv: &PasteInv,
    texts: &[&str; 3],
    cuts: u64,
    wanted: &str,
) -> Result<bool, Memory> {
    let mut side = Side::new(alloc, &inv.args)?;
    let holds = gives_at_ports(alloc, &mut side, texts, cuts, wanted);
    drop(side);
    holds
}

#[test]
fn lines_are_set_side_by_side_over_every_cutting(rt: HostRuntime) -> Result<(), Fail> {
    for &(delimiters, operands, texts, wanted) in SIDES.iter() {
        let [first, second, third] = operands;
        let words = [
            b"paste".as_slice(),
            b"-d",
            delimiters.as_bytes(),
            first.as_bytes(),
            second.as_bytes(),
            third.as_bytes(),
        ];
        let holds = side_writes(rt.alloc(), &words, &texts, wanted)?;
        assert!(rt; holds, "{wanted}");
    }
    Ok(())
}

/// The list of delimiters, the texts of the inputs between bars, and what is written.
static SERIALS: [(&str, &str, &str); 9] = [
    (",", "1\n2\n3\n|x\ny", "1,2,3\nx,y\n"),
    ("+*", "a\nb\nc\nd\n|p\nq\n", "a+b*c+d\np+q\n"),
    ("\\0", "a\nb\n", "ab\n"),
    ("+\\0-", "a\nb\nc\nd\ne\n", "a+bc-d+e\n"),
    ("\\t", "|a\n", "\na\n"),
    (",", "\n|\n\n|a\n\nb\n", "\n,\na,,b\n"),
    ("+\\n", "a\nb\nc\nd|e", "a+b\nc+d\ne\n"),
    (",", "a", "a\n"),
    ("\\t", "one\ntwo", "one\ttwo\n"),
];

/// Whether a serial paste with these delimiters writes this of the texts of its inputs, however they are cut.
fn serial_writes(
    alloc: Global,
    delimiters: &str,
    texts: &str,
    wanted: &str,
) -> Result<bool, Memory> {
    let words = [b"paste".as_slice(), b"-s", b"-d", delimiters.as_bytes()];
    match read_words(alloc, &words)? {
        Some(Inv::Paste(inv)) => {
            let told = serial(alloc, &inv, texts, wanted);
            drop(inv);
            told
        }
        other => {
            drop(other);
            Ok(false)
        }
    }
}

fn serial(alloc: Global, inv: &PasteInv, texts: &str, wanted: &str) -> Result<bool, Memory> {
    for cuts in 0..256 {
        let inputs = cut_inputs(alloc, texts, cuts)?;
        if !serial_cut(alloc, inv, inputs.as_slice(), wanted)? {
            return Ok(false);
        }
    }
    Ok(true)
}

/// The pieces of texts that stand between bars.
fn cut_inputs(alloc: Global, texts: &str, cuts: u64) -> Result<Vec<Vec<Vec<u8>>>, Memory> {
    let mut inputs = Vec::new(alloc);
    for text in texts.as_bytes().split(|byte: &u8| *byte == b'|') {
        inputs.push(cut_behind(alloc, text, cuts)?)?;
    }
    Ok(inputs)
}

fn serial_cut(
    alloc: Global,
    inv: &PasteInv,
    inputs: &[Vec<Vec<u8>>],
    wanted: &str,
) -> Result<bool, Memory> {
    let mut serial = Serial::new(alloc, &inv.args)?;
    let mut out = Vec::new(alloc);
    let fed = feed_inputs(&mut serial, inputs, &mut out);
    let whole = out.as_slice() == wanted.as_bytes() && !serial.is_spent();
    drop(serial);
    fed?;
    Ok(whole)
}

#[test]
fn lines_of_each_input_are_one_row_over_every_cutting(rt: HostRuntime) -> Result<(), Fail> {
    for &(delimiters, texts, wanted) in SERIALS.iter() {
        let holds = serial_writes(rt.alloc(), delimiters, texts, wanted)?;
        assert!(rt; holds, "{wanted}");
    }
    Ok(())
}
