//! Counts and groups of short texts over every cutting; what is wanted is what the standard says, and where it leaves the layout open what
//! docs/UTILITIES.md does.

ghost use Rattle.std.specs.Prelude.{◌≡◌, true, IfOk, IfSome};
ghost use Rattle.ut_args.specs.Built.{is_built_of};

use crate::cuttings::gives;
use crate::invocations::built_of;
use ps_lines::Memory;
use std::alloc::Global;
use std::test::Fail;
use ut_args::{Groups, Inv, UniqInv, WcInv};
use ut_groups::{
    Columns, Counts, Kept, Named, Uniq, Wc, WcSeries, add_counts, add_sat, put_counts, read_counts,
};
use ut_streams::{Series, Stream, cut_behind, feed_all, feed_inputs};

/// The invocation of these words, if they are one that is built.
fn read_words(alloc: Global, words: &str) -> Result<Option<Inv>, Memory>
    ensures { IfOk result (λ read. IfSome read (λ inv. is_built_of inv ≡ true)) }
{
    let mut texts = Vec::new(alloc);
    for word in words.split(' ') {
        texts.push(Vec::from_slice(alloc, word.as_bytes())?)?;
    }
    built_of(alloc, texts.as_slice())
}

/// Words, text, and what is written for the one input.
static COUNTS: [(&str, &str, &str); 17] = [
    ("wc -l", "b a\nab\nc\nxa", "3\n"),
    ("wc -l", "", "0\n"),
    ("wc -l", "\n\n\n\n\n\n\n\n\n\n\n\n", "12\n"),
    ("wc -l", "abcdefghijkl", "0\n"),
    ("wc", "", "0 0 0\n"),
    ("wc", "a b\nc", "1 3 5\n"),
    ("wc", " a  b \n\n", "2 2 8\n"),
    ("wc f", "x1", "0 1 2 f\n"),
    ("wc -", "a\n", "1 1 2 -\n"),
    ("wc -w", "a\x0bb\x0cc\rd\te", "5\n"),
    ("wc -w", "a\x1cb\x00c d", "2\n"),
    ("wc -c", "ab\n", "3\n"),
    ("wc -m", "ab\n", "3\n"),
    ("wc -cl", "ab\n", "1 3\n"),
    ("wc -wc f", "a b\n", "2 4 f\n"),
    ("wc -lw", "a b\nc\n", "2 3\n"),
    ("wc -mwl f", "a b\n", "1 2 4 f\n"),
];

/// The invocation of these words, if they are one of wc that is built.
fn read_wc(alloc: Global, words: &str) -> Result<Option<WcInv>, Memory> {
    match read_words(alloc, words)? {
        Some(Inv::Wc(inv)) => Ok(Some(inv)),
        other => {
            drop(other);
            Ok(None)
        }
    }
}

/// Whether wc writes this of a text that is cut so.
fn counts_cut(
    alloc: Global,
    inv: &WcInv,
    text: &[u8],
    cuts: u64,
    wanted: &[u8],
) -> Result<bool, Memory> {
    let pieces = cut_behind(alloc, text, cuts)?;
    let mut out = Vec::new(alloc);
    let mut wc = WcSeries::new(alloc, inv)?;
    let fed = feed_inputs(&mut wc, &[pieces], &mut out);
    let plain = !wc.is_spent() && !wc.has_selected();
    drop(wc);
    fed?;
    Ok(out.as_slice() == wanted && plain)
}

/// Whether the counts of a part, cut so, are written as this.
fn names_cut(
    alloc: Global,
    inv: &WcInv,
    part: &[u8],
    cuts: u64,
    wanted: &[u8],
) -> Result<bool, Memory> {
    let mut named = Named::new(alloc, inv)?;
    let told = gives(alloc, &mut named, part, cuts, wanted, false);
    drop(named);
    told
}

/// The counts of a part.
fn part_of(alloc: Global, inv: &WcInv, text: &[u8]) -> Result<Vec<u8>, Memory> {
    let text = Vec::from_slice(alloc, text)?;
    let mut part = Vec::new(alloc);
    feed_all(&mut Wc::of_part(inv), &[text], &mut part)?;
    Ok(part)
}

/// Whether wc writes this of a text, however it or the counts of the text as a part are cut.
fn counts(alloc: Global, inv: &WcInv, text: &[u8], wanted: &[u8]) -> Result<bool, Memory> {
    for cuts in 0..2048 {
        if !counts_cut(alloc, inv, text, cuts, wanted)? {
            return Ok(false);
        }
    }
    let part = part_of(alloc, inv, text)?;
    names(alloc, inv, part.as_slice(), wanted)
}

fn names(alloc: Global, inv: &WcInv, part: &[u8], wanted: &[u8]) -> Result<bool, Memory> {
    for cuts in 0..64 {
        if !names_cut(alloc, inv, part, cuts, wanted)? {
            return Ok(false);
        }
    }
    Ok(true)
}

/// Whether the words are an invocation of wc that writes this of a text, however it is cut.
fn wc_writes(alloc: Global, words: &str, text: &str, wanted: &str) -> Result<bool, Memory> {
    match read_wc(alloc, words)? {
        Some(inv) => {
            let told = counts(alloc, &inv, text.as_bytes(), wanted.as_bytes());
            drop(inv);
            told
        }
        None => Ok(false),
    }
}

#[test]
fn counts_are_the_same_over_every_cutting(rt: HostRuntime) -> Result<(), Fail> {
    for &(words, text, wanted) in COUNTS.iter() {
        let holds = wc_writes(rt.alloc(), words, text, wanted)?;
        assert!(rt; holds, "{words}: {text}");
    }
    Ok(())
}

/// Whether the words of the text of 400 bytes, of which the one at this place is a space, are two.
fn counts_two(alloc: Global, inv: &WcInv, place: usize) -> Result<bool, Memory> {
    let mut text = Vec::new(alloc);
    for at in 0..400 {
        text.push(if at == place { b' ' } else { b'a' })?;
    }
    Ok(part_of(alloc, inv, text.as_slice())?.as_slice() == b"2\n".as_slice())
}

/// The first place of the space, of those inside, at which the words aren't two; 399 where they always are.
fn first_other(alloc: Global, inv: &WcInv) -> Result<usize, Memory> {
    for place in 1..399 {
        if !counts_two(alloc, inv, place)? {
            return Ok(place);
        }
    }
    Ok(399)
}

/// Words that begin and end in blocks of 192 bytes and beside them: of the text of so many bytes, one is a space.
#[test]
fn words_are_counted_across_blocks(rt: HostRuntime) -> Result<(), Fail> {
    match read_wc(rt.alloc(), "wc -w")? {
        Some(inv) => {
            let other = first_other(rt.alloc(), &inv);
            drop(inv);
            assert!(rt; other? == 399);
        }
        None => assert!(rt; false, "no invocation that is built"),
    }
    Ok(())
}

/// Words, text, and what is written for the one input.
static GROUPS: [(&str, &str, &str); 27] = [
    ("uniq", "a\na\nb\na\n", "a\nb\na\n"),
    ("uniq", "a\na", "a\n"),
    ("uniq", "\n\na\n", "\na\n"),
    ("uniq", "", ""),
    ("uniq", "a\nA\na \n", "a\nA\na \n"),
    ("uniq -c", "a\na\nb\n", "2 a\n1 b\n"),
    ("uniq -c", "\n\n", "2 \n"),
    ("uniq -c", "", ""),
    ("uniq -d", "a\na\nb\nc\nc\nc", "a\nc\n"),
    ("uniq -u", "a\na\nb\nc\nc\nd", "b\nd\n"),
    ("uniq -f 1", "1 a\n2 a\n3 b\n", "1 a\n3 b\n"),
    ("uniq -c -f 1", "1 a\n2 a\n3 b\n", "2 1 a\n1 3 b\n"),
    ("uniq -f 1", "1 a\n2  a\n3\ta\n", "1 a\n2  a\n3\ta\n"),
    ("uniq -f 1", " 1 a\n2 a\n", " 1 a\n"),
    ("uniq -f 2", "a b\nc\nd e\n", "a b\n"),
    ("uniq -s 1", "xab\nyab\nzac\n", "xab\nzac\n"),
    ("uniq -s 9", "a\nb\n", "a\n"),
    ("uniq -f 1 -s 1", "a xb\nc yb\n", "a xb\nc yb\n"),
    ("uniq -f 1 -s 2", "a xb\nc yb\n", "a xb\n"),
    ("uniq -d -f 1", "1 a\n2 a\n3 b\n", "1 a\n"),
    ("uniq -u -s 1", "1a\n2a\n3b\n", "3b\n"),
    ("uniq", "a\nb\nb\nc\nd\nd\nd\ne\n", "a\nb\nc\nd\ne\n"),
    ("uniq -c", "a\na\nab\na\n", "2 a\n1 ab\n1 a\n"),
    (
        "uniq",
        "sixteen bytes: abc\nsixteen bytes: abd\nsixteen bytes: abd\n",
        "sixteen bytes: abc\nsixteen bytes: abd\n",
    ),
    (
        "uniq -c",
        "a\na\na\na\na\na\na\na\na\na\na\na\na\na\na\na\na\na\na\na\na\na\na\na\na\na\na\na\na\na\na\na\na\na\na\na\na\na\na\na\na\na\na\na\na\na\na\na\nb\n",
        "48 a\n1 b\n",
    ),
    (
        "uniq -d",
        "bcd\nabc\nabc\nabc\nabc\nabc\nabc\nabc\nabc\nabc\nabc\nabc\nabc\nabc\nabc\nabc\nabc\nabc\nabc\nabc\nabc\nabc\nabc\nabc\nabc\nabc\nabc\nabd",
        "abc\n",
    ),
    ("uniq f", "a\na\n", "a\n"),
];

/// The invocation of these words, if they are one of uniq that is built.
fn read_uniq(alloc: Global, words: &str) -> Result<Option<UniqInv>, Memory> {
    match read_words(alloc, words)? {
        Some(Inv::Uniq(inv)) => Ok(Some(inv)),
        other => {
            drop(other);
            Ok(None)
        }
    }
}

fn groups_cut(
    alloc: Global,
    inv: &UniqInv,
    text: &[u8],
    cuts: u64,
    wanted: &[u8],
) -> Result<bool, Memory> {
    let mut uniq = Uniq::new(alloc, inv);
    let told = gives(alloc, &mut uniq, text, cuts, wanted, false);
    drop(uniq);
    told
}

fn groups(alloc: Global, inv: &UniqInv, text: &[u8], wanted: &[u8]) -> Result<bool, Memory> {
    for cuts in 0..2048 {
        if !groups_cut(alloc, inv, text, cuts, wanted)? {
            return Ok(false);
        }
    }
    Ok(true)
}

/// Whether the words are an invocation of uniq that writes this of a text, however it is cut.
fn uniq_writes(alloc: Global, words: &str, text: &str, wanted: &str) -> Result<bool, Memory> {
    match read_uniq(alloc, words)? {
        Some(inv) => {
            let told = groups(alloc, &inv, text.as_bytes(), wanted.as_bytes());
            drop(inv);
            told
        }
        None => Ok(false),
    }
}

#[test]
fn groups_are_the_same_over_every_cutting(rt: HostRuntime) -> Result<(), Fail> {
    for &(words, text, wanted) in GROUPS.iter() {
        let holds = uniq_writes(rt.alloc(), words, text, wanted)?;
        assert!(rt; holds, "{words}: {text}");
    }
    Ok(())
}

/// Words, the texts of two parts, their maps joined, and what that is at last.
static PARTS: [(&str, &str, &str, &str, &str); 9] = [
    ("uniq", "a\nb\n", "b\nc\n", "a\nb\nc\n", "a\nb\nc\n"),
    ("uniq", "a\n", "", "a\n", "a\n"),
    (
        "uniq -c",
        "a\nb\n",
        "b\nb\nc\n",
        "1 a\n3 b\n1 c\n",
        "1 a\n3 b\n1 c\n",
    ),
    ("uniq -c", "2 a\n", "2 a\n", "2 2 a\n", "2 2 a\n"),
    ("uniq -c -f 1", "1 a\n", "2 a\n", "2 1 a\n", "2 1 a\n"),
    (
        "uniq -d",
        "a\nb\n",
        "b\nc\nc\n",
        "1 a\n2 b\n2 c\n",
        "b\nc\n",
    ),
    ("uniq -d", "a\n", "b\n", "1 a\n1 b\n", ""),
    ("uniq -u", "a\nb\n", "b\nc\n", "1 a\n2 b\n1 c\n", "a\nc\n"),
    (
        "uniq -u -f 1 f",
        "1 a\n",
        "2 a\n3 b\n",
        "2 1 a\n1 3 b\n",
        "3 b\n",
    ),
];

/// What a part is mapped to.
fn map_of(alloc: Global, inv: &UniqInv, text: &str) -> Result<Vec<u8>, Memory> {
    let text = Vec::from_slice(alloc, text.as_bytes())?;
    let mut part = Vec::new(alloc);
    let mut uniq = Uniq::of_part(alloc, inv);
    let fed = feed_all(&mut uniq, &[text], &mut part);
    drop(uniq);
    fed?;
    Ok(part)
}

/// The maps of two parts joined.
fn joined_of(alloc: Global, inv: &UniqInv, first: &str, second: &str) -> Result<Vec<u8>, Memory> {
    let parts = [map_of(alloc, inv, first)?, map_of(alloc, inv, second)?];
    let mut out = Vec::new(alloc);
    let mut uniq = Uniq::of_parts(alloc, inv);
    let fed = feed_all(&mut uniq, &parts, &mut out);
    drop(uniq);
    fed?;
    Ok(out)
}

/// What is kept of joined maps at last is this: as it is, where all groups are.
fn keeps(alloc: Global, of: Groups, joined: &[u8], wanted: &[u8]) -> Result<bool, Memory> {
    if !matches!(of, Groups::Repeated | Groups::Single) {
        return Ok(joined == wanted);
    }
    let mut kept = Kept::new(alloc, of);
    let told = gives(alloc, &mut kept, joined, 0, wanted, false);
    drop(kept);
    told
}

fn joins(
    alloc: Global,
    inv: &UniqInv,
    texts: (&str, &str),
    joined: &str,
    wanted: &str,
) -> Result<bool, Memory> {
    let out = joined_of(alloc, inv, texts.0, texts.1)?;
    let holds = keeps(alloc, inv.args.groups, out.as_slice(), wanted.as_bytes())?;
    Ok(out.as_slice() == joined.as_bytes() && holds)
}

/// Whether the words are an invocation of uniq whose maps of two parts are joined so, and are this at last.
fn uniq_joins(
    alloc: Global,
    words: &str,
    texts: (&str, &str),
    joined: &str,
    wanted: &str,
) -> Result<bool, Memory> {
    match read_uniq(alloc, words)? {
        Some(inv) => {
            let told = joins(alloc, &inv, texts, joined, wanted);
            drop(inv);
            told
        }
        None => Ok(false),
    }
}

#[test]
fn groups_of_parts_are_joined(rt: HostRuntime) -> Result<(), Fail> {
    for &(words, first, second, joined, wanted) in PARTS.iter() {
        let holds = uniq_joins(rt.alloc(), words, (first, second), joined, wanted)?;
        assert!(rt; holds, "{words}: {first} and {second}");
    }
    Ok(())
}

/// Columns of lines and bytes.
static COLUMNS: Columns = Columns {
    lines: true,
    words: false,
    bytes: true,
};

/// Counts of lines and bytes.
static COUNTED: Counts = Counts {
    lines: 12,
    words: 0,
    bytes: 18446744073709551615,
};

/// Whether the counts are written so, and read again.
fn are_written(
    alloc: Global,
    columns: Columns,
    counts: Counts,
    wanted: &[u8],
) -> Result<bool, Memory> {
    let mut line = Vec::new(alloc);
    put_counts(columns, counts, b"", &mut line)?;
    Ok(line.as_slice() == wanted && read_counts(columns, line.as_slice()) == counts)
}

#[test]
fn counts_are_read_from_their_line(rt: HostRuntime) -> Result<(), Fail> {
    assert!(rt; are_written(rt.alloc(), COLUMNS, COUNTED, b"12 18446744073709551615\n")?);
    assert!(rt; read_counts(COLUMNS, &[b'1'; 64]) == Counts::default());
    let sum = add_counts(COUNTED, COUNTED);
    assert!(rt; sum.lines == 24 && sum.bytes == 18446744073709551615);
    Ok(())
}

#[test]
fn sums_stand_at_their_end(rt: HostRuntime) {
    assert!(rt; add_sat(2, 3) == 5);
    assert!(rt; add_sat(18446744073709551615, 1) == 18446744073709551615);
    assert!(rt; add_sat(18446744073709551614, 1) == 18446744073709551615);
}
