//! `grep` over cuttings of short texts; what is wanted is what GNU grep writes in the C locale, each line with a newline.
//!
//! A row is a line of a table. Its columns have `;` between them, and are written as the module `columns` says.

use crate::columns::items_of;
use crate::invocations::invocation_of;
use ps_lines::Memory;
use std::alloc::Global;
use std::test::Fail;
use ut_args::{GrepInv, Inv};
use ut_grep::{Grep, check};
use ut_regex::ReFault;
use ut_streams::{cut_behind, feed_all};

/// Rows: the words, the inputs, each its name, `=` and its text, and what is written.
static ROWS: &str = r"grep a ; =ab\nb\nca\n ; ab\nca\n
grep a ; =b\n ; \e
grep a ; =a ; a\n
grep \e ; =a\n\n ; a\n\n
grep \e ; = ; \e
grep -v a ; =ab\nb\nca\n ; b\n
grep -v \e ; =a\n ; \e
grep -x a ; =a\nab\n ; a\n
grep -i a ; =A\nb\n ; A\n
grep -vx a ; =a\nab\n ; ab\n
grep -vi a ; =A\nb\n ; b\n
grep -F a.c ; =abc\na.c\n ; a.c\n
grep -E a|b ; =a\nb\nc\n ; a\nb\n
grep a\nc ; =a\nb\nc\n ; a\nc\n
grep -e a -e c ; =a\nb\nc\n ; a\nc\n
grep -v -e a -e c ; =a\nb\nc\n ; b\n
grep a\n ; =b\n ; b\n
grep -F a\nb ; =xb\n ; xb\n
grep -E ^(a|b){2}$ ; =ab\nabc\nba\n ; ab\nba\n
grep *a ; =*a\na\n ; *a\n
grep -n a ; =b\na\na\n ; 2:a\n3:a\n
grep -n -v a ; =b\na\n\nc ; 1:b\n3:\n4:c\n
grep -c a ; =a\nb\na\n ; 2\n
grep -c a ; =b\n ; 0\n
grep -cv a ; =b\nb\na\nb ; 3\n
grep -l a ; =a\na\n ; (standard\x20input)\n
grep -l a ; =b\n ; \e
grep -lv a f ; f=b\n ; f\n
grep -q a ; =a\n ; \e
grep -nq a ; =a\n ; \e
grep -cn a ; =a\n ; 1\n
grep -ln a f ; f=a\n ; f\n
grep a f g ; f=a1\nb\n g=a2\n ; f:a1\ng:a2\n
grep -n a f g ; f=b\na1\n g=a2\n ; f:2:a1\ng:1:a2\n
grep -c a f g ; f=a\na\n g=b\n ; f:2\ng:0\n
grep -l a f g ; f=b\n g=a\n ; g\n
grep -q a f g ; f=b\n g=a\n ; \e
grep a f - ; f=a\n -=ba\n ; f:a\n(standard\x20input):ba\n
grep -c a - ; -=a\n ; 1\n
grep a f f ; f=a\n f=a\n ; f:a\nf:a\n
grep a f none ; f=a ; f:a\n
grep -c a f none ; f=a\n ; f:1\n
grep ab f g ; f=x\na g=b\nab ; g:ab\n
grep -Fi aB ; =xAby\nab\nb ; xAby\nab\n
grep -Fx a* ; =a*\naa\na*a ; a*\n
grep -F \xc3\xa9 ; =e\n\xc3\xa9\n ; \xc3\xa9\n";

/// The items of a column of a row, from 0.
fn column(alloc: Global, row: &str, place: usize) -> Result<Vec<Vec<u8>>, Memory> {
    let mut columns = row.as_bytes().split(|byte| *byte == b';').skip(place);
    items_of(alloc, columns.next().unwrap_or(&[]))
}

/// The invocation of a row's words, if it is one of grep.
fn grep_in(alloc: Global, row: &str) -> Result<Option<GrepInv>, Memory> {
    let words = column(alloc, row, 0)?;
    match invocation_of(alloc, words.as_slice())? {
        Some(Inv::Grep(inv)) => Ok(Some(inv)),
        other => {
            drop(other);
            Ok(None)
        }
    }
}

/// Whether what a row's grep writes is what the row says, however the inputs are cut.
fn holds(alloc: Global, row: &str) -> Result<bool, Memory> {
    match grep_in(alloc, row)? {
        Some(inv) => {
            let holds = writes_row(alloc, &inv, row);
            drop(inv);
            holds
        }
        None => Ok(false),
    }
}

fn writes_row(alloc: Global, inv: &GrepInv, row: &str) -> Result<bool, Memory> {
    let inputs = column(alloc, row, 1)?;
    let wanted = column(alloc, row, 2)?;
    let mut same = true;
    for cuts in [0, 1, 2, 12, 85, 255] {
        same &= writes(alloc, inv, inputs.as_slice(), cuts, wanted.as_slice())?;
    }
    Ok(same)
}

/// Whether the invocation writes the one item that is wanted for its inputs, which are cut.
fn writes(
    alloc: Global,
    inv: &GrepInv,
    inputs: &[Vec<u8>],
    cuts: u64,
    wanted: &[Vec<u8>],
) -> Result<bool, Memory> {
    let mut out = Vec::new(alloc);
    let mut read = true;
    for input in inputs {
        read &= run_over(alloc, inv, input.as_slice(), cuts, &mut out)?;
    }
    Ok(read && is_one(wanted, out.as_slice()))
}

/// Whether this is the only item.
fn is_one(items: &[Vec<u8>], item: &[u8]) -> bool {
    match items {
        [only] => only.as_slice() == item,
        _ => false,
    }
}

/// Appends what the invocation writes for an input that is cut, where its patterns are read.
fn run_over(
    alloc: Global,
    inv: &GrepInv,
    input: &[u8],
    cuts: u64,
    out: &mut Vec<u8>,
) -> Result<bool, Memory> {
    if check(alloc, inv).is_err() {
        return Ok(false);
    }
    let (label, text) = parted(input);
    let pieces = cut_behind(alloc, text, cuts)?;
    let mut grep = Grep::new(alloc, inv, label)?;
    let fed = feed_all(&mut grep, pieces.as_slice(), out);
    drop(grep);
    fed?;
    Ok(true)
}

/// What stands before the first `=`, and behind it.
fn parted(input: &[u8]) -> (&[u8], &[u8]) {
    match input.iter().position(|byte| *byte == b'=') {
        Some(place) => (&input[..place], &input[place + 1..]),
        None => (input, b""),
    }
}

#[test]
fn lines_are_selected_however_the_input_is_cut(rt: HostRuntime) -> Result<(), Fail> {
    for row in ROWS.lines() {
        assert!(rt; holds(rt.alloc(), row)?, "{row}");
    }
    Ok(())
}

/// Rows: the words, and the first fault of the patterns.
static FAULTS: &str = r"grep -F [ ; none
grep a\n[a] ; none
grep [ ; NotARegex
grep \\(a\\)\\1 ; BackReference
grep -e a -e \\1 -e [ ; BackReference
grep -e [ -e \\1 ; NotARegex
grep -E (a ; NotARegex
grep a\\{256\\} ; RepeatTooLarge
grep -E ((a{255}){255}){2} ; TooLarge";

/// Whether the first fault of the patterns of a row's grep is the one that it tells.
fn has_fault(alloc: Global, row: &str) -> Result<bool, Memory> {
    match grep_in(alloc, row)? {
        Some(inv) => {
            let fault = check(alloc, &inv).err();
            drop(inv);
            let wanted = column(alloc, row, 1)?;
            Ok(is_one(wanted.as_slice(), name_of(fault)))
        }
        None => Ok(false),
    }
}

fn name_of(fault: Option<ReFault>) -> &'static [u8] {
    match fault {
        None => b"none",
        Some(ReFault::NotARegex) => b"NotARegex",
        Some(ReFault::BackReference) => b"BackReference",
        Some(ReFault::RepeatTooLarge) => b"RepeatTooLarge",
        Some(ReFault::TooLarge) => b"TooLarge",
        Some(ReFault::Memory) => b"Memory",
    }
}

#[test]
fn the_first_fault_of_the_patterns_is_told(rt: HostRuntime) -> Result<(), Fail> {
    for row in FAULTS.lines() {
        assert!(rt; has_fault(rt.alloc(), row)?, "{row}");
    }
    Ok(())
}
