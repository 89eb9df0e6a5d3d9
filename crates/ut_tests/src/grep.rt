//! `grep -F` over every cutting of short texts; what is wanted is what GNU grep writes in the C locale.

ghost use Rattle.std.specs.Prelude.{◌≡◌, true, IfOk, IfSome};
ghost use Rattle.ut_args.specs.Built.{is_built_of};

use crate::cuttings::gives;
use crate::invocations::{built_of, words_of};
use ps_lines::Memory;
use std::alloc::Global;
use std::test::Fail;
use ut_args::{GrepInv, Inv};
use ut_grep::Grep;

/// The invocation `grep -F PATTERN`, where it is one that is built.
fn fixed(alloc: Global, pattern: &[u8]) -> Result<Option<Inv>, Memory>
    ensures { IfOk result (λ read. IfSome read (λ inv. is_built_of inv ≡ true)) }
{
    let words = words_of(alloc, &[b"grep", b"-F", pattern])?;
    built_of(alloc, words.as_slice())
}

/// Pattern, text, and what is written.
static CASES: [(&[u8], &[u8], &[u8]); 9] = [
    (b"a", b"b a\nab\nc\nxa", b"b a\nab\nxa\n"),
    (b"aab", b"aaab\naab\naba", b"aaab\naab\n"),
    (b"xy", b"x\ny\nxy\nyx\nx", b"xy\n"),
    (b"q", b"b a\nab\nc\nxa", b""),
    (b"ab", b"", b""),
    (b"b", b"b\nb\n\nb\nab\nb", b"b\nb\nb\nab\nb\n"),
    (b"aa", b"aaaaaaaaaaa", b"aaaaaaaaaaa\n"),
    (b"[a]", b"[a]\na\n[b]\n\n", b"[a]\n"),
    (b"\xff\x00", b"a\n\xff\x00\n\x00\xff\n\n", b"\xff\x00\n"),
];

/// Whether the invocation writes the lines of a text with the pattern, however it is cut.
fn grep_writes(alloc: Global, pattern: &[u8], text: &[u8], wanted: &[u8]) -> Result<bool, Memory> {
    match fixed(alloc, pattern)? {
        Some(Inv::Grep(inv)) => {
            let told = grep(alloc, &inv, text, wanted);
            drop(inv);
            told
        }
        other => {
            drop(other);
            Ok(false)
        }
    }
}

fn grep(alloc: Global, inv: &GrepInv, text: &[u8], wanted: &[u8]) -> Result<bool, Memory> {
    for cuts in 0..2048 {
        if !grep_cut(alloc, inv, text, cuts, wanted)? {
            return Ok(false);
        }
    }
    Ok(true)
}

fn grep_cut(
    alloc: Global,
    inv: &GrepInv,
    text: &[u8],
    cuts: u64,
    wanted: &[u8],
) -> Result<bool, Memory> {
    let mut grep = Grep::new(alloc, inv, b"")?;
    let told = gives(alloc, &mut grep, text, cuts, wanted, !wanted.is_empty());
    let selected = grep.selected();
    drop(grep);
    Ok(told? && selected == !wanted.is_empty())
}

#[test]
fn lines_with_the_pattern_are_written_over_every_cutting(rt: HostRuntime) -> Result<(), Fail> {
    for &(pattern, text, wanted) in CASES.iter() {
        let holds = grep_writes(rt.alloc(), pattern, text, wanted)?;
        assert!(rt; holds, "{pattern:?} {text:?}");
    }
    Ok(())
}
