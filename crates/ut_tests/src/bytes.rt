//! `tr` over every cutting of short texts; what is wanted is what the standard says, and GNU tr writes in the C locale.

use crate::cuttings::gives;
use crate::invocations::{invocation_of, words_of};
use ps_lines::Memory;
use std::alloc::Global;
use std::test::Fail;
use ut_args::{Inv, TrInv};
use ut_bytes::Tr;

/// The invocation of these words, where they are one of tr.
fn read_words(alloc: Global, words: &[&[u8]]) -> Result<Option<TrInv>, Memory> {
    let texts = words_of(alloc, words)?;
    match invocation_of(alloc, texts.as_slice())? {
        Some(Inv::Tr(inv)) => Ok(Some(inv)),
        other => {
            drop(other);
            Ok(None)
        }
    }
}

/// Whether these words are an invocation of tr that writes this of a text, however it is cut.
fn translates(alloc: Global, words: &[&[u8]], text: &[u8], wanted: &[u8]) -> Result<bool, Memory> {
    match read_words(alloc, words)? {
        Some(inv) => {
            let told = writes(alloc, &inv, text, wanted);
            drop(inv);
            told
        }
        None => Ok(false),
    }
}

/// Whether tr writes this of a text, however it is cut.
fn writes(alloc: Global, inv: &TrInv, text: &[u8], wanted: &[u8]) -> Result<bool, Memory> {
    for cuts in 0..2048 {
        if !writes_cut(alloc, inv, text, cuts, wanted)? {
            return Ok(false);
        }
    }
    Ok(true)
}

fn writes_cut(
    alloc: Global,
    inv: &TrInv,
    text: &[u8],
    cuts: u64,
    wanted: &[u8],
) -> Result<bool, Memory> {
    let mut stream = Tr::new(alloc, inv)?;
    let told = gives(alloc, &mut stream, text, cuts, wanted, false);
    drop(stream);
    told
}

/// Option or first string, first or second string, text, and what is written.
static TRANSLATIONS: [(&[u8], &[u8], &[u8], &[u8]); 12] = [
    (b"abc", b"xyz", b"cabd\n", b"zxyd\n"),
    (b"a-z", b"A-Z", b"Hello, World", b"HELLO, WORLD"),
    (b"abc", b"xy", b"abcd", b"xyyd"),
    (b"a", b"xy", b"aab", b"xxb"),
    (b"aba", b"xyz", b"ab", b"zy"),
    (b"\\n", b":", b"a\nb\n", b"a:b:"),
    (b"\\0", b"x", b"a\x00b", b"axb"),
    (b"\xe9", b"x", b"a\xe9\xc3", b"ax\xc3"),
    (b"[:digit:]", b"x", b"a1b22", b"axbxx"),
    (b"-d", b"a", b"banana", b"bnn"),
    (b"-s", b"ab", b"aabbab", b"abab"),
    (b"-s", b"\\n", b"a\n\n\nb\n\n", b"a\nb\n"),
];

/// Options, first string, second string, text, and what is written.
static OPTIONS: [(&[u8], &[u8], &[u8], &[u8], &[u8]); 8] = [
    (b"-c", b"a-z", b"x", b"ab1 c\n", b"abxxcx"),
    (b"-s", b"a", b"b", b"aab", b"b"),
    (b"-s", b"ab", b"xx", b"abba", b"x"),
    (b"-s", b"ab", b"x", b"abccx", b"xccx"),
    (b"-cs", b"A-Za-z", b"\\n", b"b a  c1d", b"b\na\nc\nd"),
    (b"-ds", b"a", b"b", b"abbabb", b"b"),
    (b"-ds", b"b", b"a", b"abaca", b"aca"),
    (b"-cds", b"ab", b"a", b"a1a2bb", b"abb"),
];

#[test]
fn bytes_are_replaced_deleted_and_squeezed_over_every_cutting(rt: HostRuntime) -> Result<(), Fail> {
    for &(first, second, text, wanted) in TRANSLATIONS.iter() {
        let holds = translates(rt.alloc(), &[b"tr", first, second], text, wanted)?;
        assert!(rt; holds, "{first:?} {second:?} {text:?}");
    }
    Ok(())
}

#[test]
fn two_strings_with_options_over_every_cutting(rt: HostRuntime) -> Result<(), Fail> {
    for &(options, first, second, text, wanted) in OPTIONS.iter() {
        let holds = translates(rt.alloc(), &[b"tr", options, first, second], text, wanted)?;
        assert!(rt; holds, "{options:?} {first:?} {second:?} {text:?}");
    }
    Ok(())
}
