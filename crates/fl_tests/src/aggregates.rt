//! Two parts of an input, by rows: the map of each, the aggregate of the maps, and what the finish makes of that.
//!
//! A row is a line of the table, with bars between its columns: the words of a command, the two parts, their maps, the aggregate, and the
//! finished text where the command has a finish; where it has none, its finish changes nothing. In a text `/` stands for a newline, and in a
//! word `_` for a space. A map is what GNU's tools write for the part in the C locale, without the blanks before counts, and of `wc` without
//! the name; that of `uniq` with `-d` or `-u` is that with `-c`. What is made of the maps is as the comments among the rows say.
use crate::joints::{aggregate_of, built_of, outputs_of, pieces_of};
use fl_graph::{Machine, NodeKind, Piece};
use fl_joints::joint;
use fl_machines::{is_utility_node, util_machine};
use ps_lines::Memory;
use std::alloc::Global;
use std::test::Fail;

/// A text with one byte in the place of another.
fn replaced(alloc: Global, text: &[u8], mark: u8, meant: u8) -> Result<Vec<u8>, Memory> {
    let mut bytes = Vec::new(alloc);
    for &byte in text {
        bytes.push(if byte == mark { meant } else { byte })?;
    }
    Ok(bytes)
}

/// The words of a column.
fn words_of(alloc: Global, column: &[u8]) -> Result<Vec<Vec<u8>>, Memory> {
    let mut words = Vec::new(alloc);
    for word in column.split(|byte| *byte == b' ') {
        words.push(replaced(alloc, word, b'_', b' ')?)?;
    }
    Ok(words)
}

/// The texts of columns.
fn texts_of(alloc: Global, columns: &[&[u8]]) -> Result<Vec<Vec<u8>>, Memory> {
    let mut texts = Vec::new(alloc);
    for column in columns {
        texts.push(replaced(alloc, column, b'/', b'\n')?)?;
    }
    Ok(texts)
}

/// Whether a machine of one out puts this text for these inputs, which are cut so, and ends it.
fn puts<M: Machine>(
    alloc: Global,
    machine: &mut M,
    inputs: &[&[u8]],
    cuts: u64,
    wanted: &[u8],
) -> Result<bool, Memory> {
    let mut left = Vec::new(alloc);
    for input in inputs {
        left.push(pieces_of(alloc, input, cuts, Piece::End)?)?;
    }
    let outputs = outputs_of(alloc, machine, left, 1)?;
    Ok(is_whole(outputs.as_slice(), wanted))
}

/// Whether the one output is this text, with its end behind it.
fn is_whole(outputs: &[Vec<u8>], wanted: &[u8]) -> bool {
    match outputs {
        [output] => output.as_slice().strip_prefix(wanted) == Some(b".".as_slice()),
        _ => false,
    }
}

/// Whether a node of a utility puts this text for an input that is cut so.
fn utility_puts(
    alloc: Global,
    kind: NodeKind,
    input: &[u8],
    cuts: u64,
    wanted: &[u8],
) -> Result<bool, Memory> {
    if !is_utility_node(&kind, 1, 1) {
        drop(kind);
        return Ok(false);
    }
    let machine = util_machine(alloc, &kind, 1, 1);
    // What is large is let go by calls, past which there is no way out: going out of scope is proved a part at a time.
    drop(kind);
    match machine {
        Ok(mut machine) => {
            let told = puts(alloc, &mut machine, &[input], cuts, wanted);
            drop(machine);
            told
        }
        Err(memory) => Err(memory),
    }
}

/// Whether the map of a command is this text for a part that is cut so.
fn is_map(
    alloc: Global,
    words: &[Vec<u8>],
    part: &[u8],
    cuts: u64,
    wanted: &[u8],
) -> Result<bool, Memory> {
    match built_of(alloc, words)? {
        Some(inv) => utility_puts(alloc, NodeKind::Map(inv), part, cuts, wanted),
        None => Ok(false),
    }
}

/// Whether the finish of a command is this text for the map of the whole, which is cut so.
fn is_finish(
    alloc: Global,
    words: &[Vec<u8>],
    map: &[u8],
    cuts: u64,
    wanted: &[u8],
) -> Result<bool, Memory> {
    match built_of(alloc, words)? {
        Some(inv) => utility_puts(alloc, NodeKind::Finish(inv), map, cuts, wanted),
        None => Ok(false),
    }
}

/// Whether the aggregate of a command is this text for two maps that are cut so.
fn is_aggregate(
    alloc: Global,
    words: &[Vec<u8>],
    maps: &[&[u8]; 2],
    cuts: u64,
    wanted: &[u8],
) -> Result<bool, Memory> {
    let Some(inv) = built_of(alloc, words)? else {
        return Ok(false);
    };
    let Some(kind) = aggregate_of(inv) else {
        return Ok(false);
    };
    let machine = joint(alloc, &kind, 2, 1);
    drop(kind);
    match machine {
        Ok(mut machine) => {
            let told = puts(alloc, &mut machine, maps, cuts, wanted);
            drop(machine);
            told
        }
        Err(memory) => Err(memory),
    }
}

/// Whether what is made of the parts of a command is as these texts say, where all that comes is cut so.
fn are_made(
    alloc: Global,
    words: &[Vec<u8>],
    texts: &[Vec<u8>],
    cuts: u64,
) -> Result<bool, Memory> {
    let [left, right, left_map, right_map, aggregate, finished @ ..] = texts else {
        return Ok(false);
    };
    let finished = finished.first().unwrap_or(aggregate);
    let maps = [left_map.as_slice(), right_map.as_slice()];
    let mut all = is_map(alloc, words, left.as_slice(), cuts, left_map.as_slice())?;
    all &= is_map(alloc, words, right.as_slice(), cuts, right_map.as_slice())?;
    all &= is_aggregate(alloc, words, &maps, cuts, aggregate.as_slice())?;
    all &= is_finish(
        alloc,
        words,
        aggregate.as_slice(),
        cuts,
        finished.as_slice(),
    )?;
    Ok(all)
}

/// Whether what is made of the parts of a row is as it says, where all comes whole, and where it comes a byte at a time; so is a line that
/// begins with `//`, which is a comment.
fn is_as_told(alloc: Global, row: &str) -> Result<bool, Memory> {
    if row.starts_with("//") {
        return Ok(true);
    }
    let columns: Vec<&[u8]> = row.as_bytes().split(|byte| *byte == b'|').collect(alloc)?;
    let [words, texts @ ..] = columns.as_slice() else {
        return Ok(false);
    };
    let words = words_of(alloc, words)?;
    let texts = texts_of(alloc, texts)?;
    let whole = are_made(alloc, words.as_slice(), texts.as_slice(), 0)?;
    let by_bytes = are_made(alloc, words.as_slice(), texts.as_slice(), u64::MAX)?;
    Ok(whole && by_bytes)
}

/// Rows of each command that has an aggregate.
static PARTS: &str =
    r"// tr -s: of the two bytes at which the maps meet one is left, where they are the same and squeezed.
tr -s a|ba|ac|ba|ac|bac
tr -s a|ba|bc|ba|bc|babc
tr -s b|ba|ac|ba|ac|baac
tr -s a|ba||ba||ba
tr -s a||ac||ac|ac
tr -s a|||||
tr -s a|aaa|aab|a|ab|ab
tr -s \n|a//|/b|a/|/b|a/b
tr -s a b|xa|by|xb|by|xby
tr -s ab cc|a|b|c|c|c
tr -cs a-z \n|a1|2b|a/|/b|a/b
tr -ds x a|ax|xab|a|ab|ab
tr -s a|a 1/||a 1/||a 1/
tr -s ab b|b 1/b 1/b/aab/b 1/|aab/|b 1/b 1/b/b/b 1/|b/|b 1/b 1/b/b/b 1/b/
tr -ds b a|b/b 1/|a 1/a 2/|/ 1/|a 1/a 2/|/ 1/a 1/a 2/
tr -cs a \n|A/|A/b 1|/|/|/
tr -s a|b/||b/||b/
tr -s ab b||a 2///A/aab/a 1||b 2///A/b/b 1|b 2///A/b/b 1
tr -ds b a|A/A/a/a 1/|a 2/a/|A/A/a/a 1/|a 2/a/|A/A/a/a 1/a 2/a/
tr -cs a \n|aab/a 2/|b|aa/a/|/|aa/a/
tr -s a|a 1/a/a 1//|a 1|a 1/a/a 1//|a 1|a 1/a/a 1//a 1
tr -s ab b||aab/b/b/||b/b/b/|b/b/b/
tr -ds b a|a 1/a 1/b/A/|aab/|a 1/a 1//A/|a/|a 1/a 1//A/a/
tr -cs a \n|b/a 2/|b/a 2|/a/|/a/|/a/a/
tr -s a||a 1||a 1|a 1
tr -s ab b||a/||b/|b/
tr -ds b a|a/|a 2/|a/|a 2/|a/a 2/
tr -cs a \n||/a/aab/a||/a/aa/a|/a/aa/a
tr -s a|a 1//b 1/|/|a 1//b 1/|/|a 1//b 1//
tr -s ab b|b/||b/||b/
// grep -c: the counts are added.
grep -c a|a/b/|a/a/|1/|2/|3/
grep -c a|b/||0/|0/|0/
grep -cv a f|b/|b/|1/|1/|2/
grep -c |||0/|0/|0/
grep -cv b|b/||0/|0/|0/
grep -c a||b/b//b/a/A|0/|1/|1/
grep -cv b|b 1/a/A/|/A/a/|2/|3/|5/
grep -c a|b/a 2/|a/aab|1/|2/|3/
grep -cv b||/|0/|1/|1/
grep -c a||/|0/|0/|0/
grep -cv b||A/|0/|1/|1/
// head: what it writes for the maps joined.
head -n 2|1/|2/3/|1/|2/3/|1/2/
head -n 1|1/|2/|1/|2/|1/
head -n 0|1/|2|||
head -n 2 f||1/2/3||1/2/|1/2/
head|1/2/3/4/5/6/|7/8/9/10/11/|1/2/3/4/5/6/|7/8/9/10/11/|1/2/3/4/5/6/7/8/9/10/
head -n 2|//||//||//
head -n 3||b/b/a 2/A/||b/b/a 2/|b/b/a 2/
head -n 2|a/|b 1/b/b 1|a/|b 1/b/|a/b 1/
head -n 3||a/a 1/a/a 2/b/||a/a 1/a/|a/a 1/a/
head -n 2||a 2/||a 2/|a 2/
head -n 3|a/A/|b//|a/A/|b//|a/A/b/
head -n 2||a/||a/|a/
head -n 3|a 2/A/a 1/|b 1/b 1/aab|a 2/A/a 1/|b 1/b 1/aab|a 2/A/a 1/
// tail: what it writes for the maps joined.
tail -n 2|1/2/|3|1/2/|3|2/3
tail -n 2|1/2/||1/2/||1/2/
tail -n 1|1/|2/|1/|2/|2/
tail -c 3|ab/|c|ab/|c|b/c
tail -c 2 f|ab/||b/||b/
tail -n 0|1/|2/|||
tail -n 2|a 1/b 1/aab/|a 1/|b 1/aab/|a 1/|aab/a 1/
tail -c 3|b 1/b/|b/b/b 1|/b/|b 1|b 1
tail -n 2|b 1/a 2/|a 2/a|b 1/a 2/|a 2/a|a 2/a
tail -c 3|b 1/a 1/aab/|a/b/|ab/|/b/|/b/
tail -n 2|/A/||/A/||/A/
tail -c 3|/|b 1/a 1/b 1/a 1/|/| 1/| 1/
tail -n 2|a 1/A/|aab/a 1/|a 1/A/|aab/a 1/|aab/a 1/
tail -c 3|a/b/||/b/||/b/
// wc: the counts are added, column by column; the finish writes the operand behind them.
wc|a b/|c|1 2 4/|0 1 1/|1 3 5/
wc|||0 0 0/|0 0 0/|0 0 0/
wc -l|a/|b/c/|1/|2/|3/
wc -wc|a b/|c|2 4/|1 1/|3 5/
wc f|a/|b|1 1 2/|0 1 1/|1 2 3/|1 2 3 f/
wc -c f|a/|b|2/|1/|3/|3 f/
wc -|a/|b|1 1 2/|0 1 1/|1 2 3/|1 2 3 -/
wc -l a_b|a/|b/|1/|1/|2/|2 a b/
wc|/b/||2 1 3/|0 0 0/|2 1 3/
wc -lw f|b//aab/|A//|3 2/|2 1/|5 3/|5 3 f/
wc -c|//b/|b 1/|4/|4/|8/
wc||/b 1//a 1/|0 0 0/|4 4 10/|4 4 10/
wc -lw f|aab/|a 1//b/a 1/a 1|1 1/|4 7/|5 8/|5 8 f/
wc -c||a 1/|0/|4/|4/
wc|b/|b 1/a 1/a/a 1/A/|1 1 2/|5 8 16/|6 9 18/
wc -lw f||a 1|0 0/|0 2/|0 2/|0 2 f/
wc -c|b 1/|a/b 1/a 1/a 1/a 2|4/|17/|21/
wc|a 2/aab/A/A/||4 5 12/|0 0 0/|4 5 12/
wc -lw f||/a 2/b 1//a 2|0 0/|4 6/|4 6/|4 6 f/
// uniq: of the two lines at which the maps meet the first is left, where they are the same.
uniq|a/b/|b/c/|a/b/|b/c/|a/b/c/
uniq|a/|b/|a/|b/|a/b/
uniq|a/||a/||a/
uniq||a||a/|a/
uniq|a/|a|a/|a/|a/
uniq -f 1|1 a/|2 a/3 b/|1 a/|2 a/3 b/|1 a/3 b/
uniq -s 1 f|xa/|ya/|xa/|ya/|xa/
uniq|aab/b/|A/aab/|aab/b/|A/aab/|aab/b/A/aab/
uniq|a/|a/a 1/b 1//aab/|a/|a/a 1/b 1//aab/|a/a 1/b 1//aab/
uniq|A/a/|/|A/a/|/|A/a//
uniq||a 2/||a 2/|a 2/
// uniq -c: so too, with the sum of their counts.
uniq -c|a/b/|b/b/c/|1 a/1 b/|2 b/1 c/|1 a/3 b/1 c/
uniq -c|a/|b/|1 a/|1 b/|1 a/1 b/
uniq -c|||||
uniq -c|a/a/|a/|2 a/|1 a/|3 a/
uniq -c -f 1|1 a/|2 a/|1 1 a/|1 2 a/|2 1 a/
uniq -c|2 a/|2 a/|1 2 a/|1 2 a/|2 2 a/
uniq -c|/||1 /||1 /
uniq -cf 1||b 1/b//b||1 b 1/3 b/|1 b 1/3 b/
uniq -c||b/||1 b/|1 b/
uniq -cf 1|b 1/|aab/|1 b 1/|1 aab/|1 b 1/1 aab/
uniq -c|a 1/a/aab/|A|1 a 1/1 a/1 aab/|1 A/|1 a 1/1 a/1 aab/1 A/
uniq -cf 1|a/a 2/b/|a 1/A/a 1|1 a/1 a 2/1 b/|1 a 1/1 A/1 a 1/|1 a/1 a 2/1 b/1 a 1/1 A/1 a 1/
uniq -c|a 2/|aab/|1 a 2/|1 aab/|1 a 2/1 aab/
uniq -cf 1|b/b 1/|b 1/|1 b/1 b 1/|1 b 1/|1 b/2 b 1/
// uniq -d, -u: the maps are those of -c; the finish picks lines by their counts, and writes them without.
uniq -d|a/b/|b/c/c/|1 a/1 b/|1 b/2 c/|1 a/2 b/2 c/|b/c/
uniq -d|a/|a/|1 a/|1 a/|2 a/|a/
uniq -d|a/|b/|1 a/|1 b/|1 a/1 b/|
uniq -u|a/b/|b/c/|1 a/1 b/|1 b/1 c/|1 a/2 b/1 c/|a/c/
uniq -u|a/|a/|1 a/|1 a/|2 a/|
uniq -u -f 1 f|1 a/|2 a/3 b/|1 1 a/|1 2 a/1 3 b/|2 1 a/1 3 b/|3 b/
uniq -d||||||
uniq -d|a 2/||1 a 2/||1 a 2/|
uniq -u||b 1/a 2/b 1/a 1/||1 b 1/1 a 2/1 b 1/1 a 1/|1 b 1/1 a 2/1 b 1/1 a 1/|b 1/a 2/b 1/a 1/
uniq -d -s 1|a/||1 a/||1 a/|
uniq -d|a 1//b/|a 2|1 a 1/1 /1 b/|1 a 2/|1 a 1/1 /1 b/1 a 2/|
uniq -u|a 2/a 2/aab/b 1/|a/A/|2 a 2/1 aab/1 b 1/|1 a/1 A/|2 a 2/1 aab/1 b 1/1 a/1 A/|aab/b 1/a/A/
uniq -d -s 1|a/a/||2 a/||2 a/|a/
uniq -d||b 1/a 1/b 1/b/aab//||1 b 1/1 a 1/1 b 1/1 b/1 aab/1 /|1 b 1/1 a 1/1 b 1/1 b/1 aab/1 /|
uniq -u|a 2//a 2/b 1/|a 2|1 a 2/1 /1 a 2/1 b 1/|1 a 2/|1 a 2/1 /1 a 2/1 b 1/1 a 2/|a 2//a 2/b 1/a 2/
uniq -d -s 1|//a//||4 /||4 /|/
uniq -d|A/|a 2//a 1/b/|1 A/|1 a 2/1 /1 a 1/1 b/|1 A/1 a 2/1 /1 a 1/1 b/|
uniq -u|//a 1/b 1/b/||2 /1 a 1/1 b 1/1 b/||2 /1 a 1/1 b 1/1 b/|a 1/b 1/b/
uniq -d -s 1||a/aab/||1 a/1 aab/|1 a/1 aab/|
// sort: the maps are merged, with equal lines of the first part before those of the second; with -u the first of equal lines is left.
sort|b/d/|c/a/|b/d/|a/c/|a/b/c/d/
sort|a/|a|a/|a/|a/a/
sort||b/a||a/b/|a/b/
sort -r|a/c/|b/|c/a/|b/|c/b/a/
sort -n|10/9/|1/|9/10/|1/|1/9/10/
sort -u|b/a/|b/c/|a/b/|b/c/|a/b/c/
sort -u -f|a/|A/b/|a/|A/b/|a/b/
sort -f|a/|A/b/|a/|A/b/|A/a/b/
sort -nu|1 a/|01 b/0/|1 a/|0/01 b/|0/1 a/
sort -k 2,2 -u|a 1/c 2/|b 1/|a 1/c 2/|b 1/|a 1/c 2/
sort -k 2,2|b 1/c 2/|a 1/|b 1/c 2/|a 1/|a 1/b 1/c 2/
sort -t : -k 2n -r f|a:1/|b:2/c:1/|a:1/|c:1/b:2/|c:1/a:1/b:2/
sort|a 2/|b 1/b/a/A|a 2/|A/a/b/b 1/|A/a/a 2/b/b 1/
sort -r|b 1/|A/a 1/|b 1/|a 1/A/|b 1/a 1/A/
sort -u|b 1/|a 2/a/|b 1/|a/a 2/|a/a 2/b 1/
sort -fu|a 2/|aab|a 2/|aab/|a 2/aab/
sort -n|a 2/aab/a/|a 1/|a/a 2/aab/|a 1/|a/a 1/a 2/aab/
sort -k 2|b/|b 1/b|b/|b/b 1/|b/b/b 1/
sort -uk 2,2|A/a 1/b 1/aab/|aab/A/|A/a 1/|aab/|A/a 1/
sort|aab/a 2/|b 1/|a 2/aab/|b 1/|a 2/aab/b 1/
sort -r|A/A/a/a 1/|b/A|a 1/a/A/A/|b/A/|b/a 1/a/A/A/A/
sort -u|/|aab/a 2/|/|a 2/aab/|/a 2/aab/
sort -fu||a 2/a 2//b/a/||/a/a 2/b/|/a/a 2/b/
sort -n|A/|b 1/a 1|A/|a 1/b 1/|A/a 1/b 1/
sort -k 2|a 1//b 1/aab/b//||//aab/b/a 1/b 1/||//aab/b/a 1/b 1/
sort -uk 2,2||aab/||aab/|aab/
sort||b/b 1/||b/b 1/|b/b 1/
sort -r|a 1/aab/|/aab/a 2/|aab/a 1/|aab/a 2//|aab/aab/a 2/a 1//
sort -u|aab/|b 1//b 1/a 2|aab/|/a 2/b 1/|/a 2/aab/b 1/
sort -fu|b 1/b/aab/|aab/a/a 1/|aab/b/b 1/|a/a 1/aab/|a/a 1/aab/b/b 1/
sort -n|A/||A/||A/
sort -k 2|A/a 1/|A//a/a 1|A/a 1/|/A/a/a 1/|/A/A/a/a 1/a 1/
sort -uk 2,2|a 2/||a 2/||a 2/
sort|/||/||/
sort -r|b/a 2/|b/|b/a 2/|b/|b/b/a 2/
sort -u||b 1/a 1/||a 1/b 1/|a 1/b 1/
sort -fu|aab/a/|b 1/b 1/b 1/A/|a/aab/|A/b 1/|a/aab/b 1/
sort -n|b 1/b 1/aab/|b/b/aab/|aab/b 1/b 1/|aab/b/b/|aab/aab/b/b/b 1/b 1/
sort -k 2|a/b 1/|/|a/b 1/|/|/a/b 1/
sort -uk 2,2|A/A/b/b 1/A/a 1/||A/b 1/||A/b 1/";

#[test]
fn parts_are_mapped_aggregated_and_finished(rt: HostRuntime) -> Result<(), Fail> {
    for row in PARTS.lines() {
        assert!(rt; is_as_told(rt.alloc(), row)?, "{row}");
    }
    Ok(())
}
