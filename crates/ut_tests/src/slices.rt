//! Slices of short texts over every cutting; what is wanted is what the standard says, and GNU's tools write in the C locale.

use crate::cuttings::gives;
use crate::invocations::read_words;
use ps_lines::Memory;
use std::alloc::Global;
use std::test::Fail;
use ut_args::{CutInv, HeadInv, Inv, TailInv};
use ut_slices::{Cut, Head, Tail};

/// How many lines, text, and what is written.
static HEADS: [(&str, &str, &str); 7] = [
    ("2", "a\nb\nc\n", "a\nb\n"),
    ("2", "a\nb", "a\nb"),
    ("0", "a\n", ""),
    ("3", "\n\n\n\n", "\n\n\n"),
    ("1", "", ""),
    ("1", "abcdef\nghi\n", "abcdef\n"),
    ("9", "a\nb\nc", "a\nb\nc"),
];

/// Whether these words are an invocation of head that writes this of a text, however it is cut.
fn head_writes(alloc: Global, words: &[&[u8]], text: &[u8], wanted: &[u8]) -> Result<bool, Memory> {
    match read_words(alloc, words)? {
        Some(Inv::Head(inv)) => {
            let told = head(alloc, &inv, text, wanted);
            drop(inv);
            told
        }
        other => {
            drop(other);
            Ok(false)
        }
    }
}

/// Whether head, without operands, writes this of a text, however it is cut.
fn head(alloc: Global, inv: &HeadInv, text: &[u8], wanted: &[u8]) -> Result<bool, Memory> {
    if !inv.args.operands.as_slice().is_empty() {
        return Ok(false);
    }
    for cuts in 0..2048 {
        let mut stream = Head::of(inv.args.count);
        if !gives(alloc, &mut stream, text, cuts, wanted, false)? {
            return Ok(false);
        }
    }
    Ok(true)
}

#[test]
fn first_lines_are_written_over_every_cutting(rt: HostRuntime) -> Result<(), Fail> {
    for &(count, text, wanted) in HEADS.iter() {
        let words = [b"head".as_slice(), b"-n", count.as_bytes()];
        let holds = head_writes(rt.alloc(), &words, text.as_bytes(), wanted.as_bytes())?;
        assert!(rt; holds, "{count} {text}");
    }
    Ok(())
}

/// Option, its argument, text, and what is written.
static TAILS: [(&str, &str, &str, &str); 17] = [
    ("-n", "2", "a\nb\nc\n", "b\nc\n"),
    ("-n", "2", "a\nb\nc", "b\nc"),
    ("-n", "-1", "a\nb\n", "b\n"),
    ("-n", "0", "a\n", ""),
    ("-n", "5", "a\nb", "a\nb"),
    ("-n", "1", "a\n\n", "\n"),
    ("-n", "1", "", ""),
    ("-n", "+2", "a\nb\nc\n", "b\nc\n"),
    ("-n", "+1", "a\nb", "a\nb"),
    ("-n", "+0", "a\nb", "a\nb"),
    ("-n", "+4", "a\nb\n", ""),
    ("-n", "+2", "a\nb", "b"),
    ("-c", "3", "abcdef", "def"),
    ("-c", "9", "ab", "ab"),
    ("-c", "0", "ab", ""),
    ("-c", "+3", "abcdef", "cdef"),
    ("-c", "+9", "ab", ""),
];

/// Whether these words are an invocation of tail that writes this of a text, however it is cut.
fn tail_writes(alloc: Global, words: &[&[u8]], text: &[u8], wanted: &[u8]) -> Result<bool, Memory> {
    match read_words(alloc, words)? {
        Some(Inv::Tail(inv)) => {
            let told = tail(alloc, &inv, text, wanted);
            drop(inv);
            told
        }
        other => {
            drop(other);
            Ok(false)
        }
    }
}

/// Whether tail writes this of a text, however it is cut.
fn tail(alloc: Global, inv: &TailInv, text: &[u8], wanted: &[u8]) -> Result<bool, Memory> {
    for cuts in 0..128 {
        if !tail_cut(alloc, inv, text, cuts, wanted)? {
            return Ok(false);
        }
    }
    Ok(true)
}

fn tail_cut(
    alloc: Global,
    inv: &TailInv,
    text: &[u8],
    cuts: u64,
    wanted: &[u8],
) -> Result<bool, Memory> {
    let mut stream = Tail::new(alloc, inv)?;
    let told = gives(alloc, &mut stream, text, cuts, wanted, false);
    drop(stream);
    told
}

#[test]
fn ends_are_written_over_every_cutting(rt: HostRuntime) -> Result<(), Fail> {
    for &(option, count, text, wanted) in TAILS.iter() {
        let words = [b"tail".as_slice(), option.as_bytes(), count.as_bytes()];
        let holds = tail_writes(rt.alloc(), &words, text.as_bytes(), wanted.as_bytes())?;
        assert!(rt; holds, "{option} {count} {text}");
    }
    Ok(())
}

/// Option with its list, another option or the end of options, text, and what is written.
static CUTS: [(&str, &str, &str, &str); 18] = [
    ("-b1", "--", "abc\nd\n\nef", "a\nd\n\ne\n"),
    ("-c2-3", "--", "abcd\na\n", "bc\n\n"),
    ("-b-2,4-", "--", "abcde\n", "abde\n"),
    ("-b3,1", "--", "abc\n", "ac\n"),
    ("-b1,1,1-2", "--", "abc\n", "ab\n"),
    ("-b2-", "--", "abc", "bc\n"),
    ("-b9", "--", "abc\n", "\n"),
    ("-b1", "--", "", ""),
    ("-b1-3,2-5", "--", "abcdefg\n", "abcde\n"),
    ("-f2-", "-d:", "a:b:c\n:x\na:\n", "b:c\nx\n\n"),
    ("-f1", "-d:", ":x\n::\n\n", "\n\n\n"),
    ("-f5", "-d:", "a:b\n", "\n"),
    ("-f1", "-s", "a b\n", ""),
    ("-f2", "-s", "a\tb\tc\nd\n", "b\n"),
    ("-f2,4", "-d ", "a b c d\n", "b d\n"),
    ("-f1,3", "-d:", "a:b:c:d\nx:y\nz\n", "a:c\nx\nz\n"),
    ("-f2,1", "-d:", "a:b:c\n", "a:b\n"),
    ("-f2", "-dx", "axbxc\n", "b\n"),
];

/// Whether these words are an invocation of cut that writes this of a text, however it is cut.
fn cut_writes(alloc: Global, words: &[&[u8]], text: &[u8], wanted: &[u8]) -> Result<bool, Memory> {
    match read_words(alloc, words)? {
        Some(Inv::Cut(inv)) => {
            let told = cut(alloc, &inv, text, wanted);
            drop(inv);
            told
        }
        other => {
            drop(other);
            Ok(false)
        }
    }
}

/// Whether cut writes this of a text, however it is cut.
fn cut(alloc: Global, inv: &CutInv, text: &[u8], wanted: &[u8]) -> Result<bool, Memory> {
    for cuts in 0..256 {
        if !cut_cut(alloc, inv, text, cuts, wanted)? {
            return Ok(false);
        }
    }
    Ok(true)
}

fn cut_cut(
    alloc: Global,
    inv: &CutInv,
    text: &[u8],
    cuts: u64,
    wanted: &[u8],
) -> Result<bool, Memory> {
    let mut stream = Cut::new(alloc, inv)?;
    let told = gives(alloc, &mut stream, text, cuts, wanted, false);
    drop(stream);
    told
}

#[test]
fn selected_parts_are_written_over_every_cutting(rt: HostRuntime) -> Result<(), Fail> {
    for &(list, option, text, wanted) in CUTS.iter() {
        let words = [b"cut".as_slice(), list.as_bytes(), option.as_bytes()];
        let holds = cut_writes(rt.alloc(), &words, text.as_bytes(), wanted.as_bytes())?;
        assert!(rt; holds, "{list} {option} {text}");
    }
    Ok(())
}
