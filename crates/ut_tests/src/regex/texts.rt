//! Lines of texts that have an expression; what is wanted is what GNU grep prints in the C locale.

use crate::columns::unescaped;
use ps_lines::{Memory, cut_line, is_closed};
use std::alloc::{AllocError, Global};
use std::test::Fail;
use ut_regex::{Matcher, ReFault, Regex, compile, compile_any, read_bre, read_ere};

/// A row a line: options (`E` for an extended expression, `i` for both cases, `x` for the whole line), expression, text, and what is
/// printed of it, with `;` between them. The last two are written as the module `columns` says.
static TEXTS: &str = r"-;b;a\nb\n\nab\nc\n;b\nab\n
-;^a*$;a\nb\n\naa\nab\n;a\n\naa\n
-;q;a\nb\n;\e
-;a;\e;\e
-;^$;\n\na\n\n;\n\n\n
-;;a\n\nb\n;a\n\nb\n
-;b$;ba\nab\nb\n;ab\nb\n
-;a.b;a\nb\nacb\na\n;acb\n
-;a[^c]b;a\nbb\nacb\nab\n;\e
-;x[^a]*y;x\ny\nxy\nxby\nxay\n;xy\nxby\n
E;a|bc;b\nc\nbc\nca\n;bc\nca\n
E;(ab){2};ab\nab\nabab\n;abab\n
i;lazy;LAZY\nlaz\nxlAzYx\n;LAZY\nxlAzYx\n
i;zoo;zo\nzoo\nZOo\nxZo\noZOO\n;zoo\nZOo\noZOO\n
i;a.*Z9;z9A\nAz9\naZ\n;Az9\n
i;[a]b;xB\nAB\nb\n;AB\n
x;ab*;a\nabc\nabb\n;a\nabb\n
-;[^a];a\n\xc3\xa9\na!\n;\xc3\xa9\na!\n
E;a[ab]{9}c;abababababc\nabababababac\nbbababababc\nbabababababc\n;abababababc\nbabababababc\n
x;a*b\{1,2\}c\{0,150\};ab\nabbcc\naabbbc\n\nbd\nb\n;ab\nabbcc\nb\n
E;(a{0,9}b{200}){0}c|d(e{0}f){1};abc\nd\nxdfx\nef\n;abc\nxdfx\n";

/// What is read of an expression.
fn read(alloc: Global, options: &str, expression: &str) -> Result<Regex, ReFault> {
    if options == "E" {
        read_ere(alloc, expression.as_bytes())
    } else {
        read_bre(alloc, expression.as_bytes())
    }
}

/// The matcher of an expression.
fn matcher_of(alloc: Global, options: &str, expression: &str) -> Result<Matcher, Fail> {
    let re = read(alloc, options, expression)?;
    let matcher = compile(alloc, &re, options == "i", options == "x");
    drop(re);
    Ok(matcher?)
}

/// The lines of a text that have what is sought, each with a newline.
fn printed(alloc: Global, matcher: &mut Matcher, text: &[u8]) -> Result<Vec<u8>, AllocError> {
    let mut out = Vec::new(alloc);
    let mut left = text;
    for _ in 0..text.len() {
        if !is_closed(left) {
            break;
        }
        let Some(cut) = matcher.first_having(left) else {
            break;
        };
        out.extend_from_slice(cut.line)?;
        out.push(b'\n')?;
        left = cut.rest;
    }
    Ok(out)
}

/// Whether exactly these lines are printed.
fn prints(
    alloc: Global,
    matcher: &mut Matcher,
    text: &[u8],
    wanted: &[u8],
) -> Result<bool, AllocError> {
    let found = printed(alloc, matcher, text)?;
    Ok(found.as_slice() == wanted)
}

/// Whether exactly these lines are printed of those that have the expression.
fn finds(
    alloc: Global,
    options: &str,
    expression: &str,
    text: &[u8],
    wanted: &[u8],
) -> Result<bool, Fail> {
    let mut matcher = matcher_of(alloc, options, expression)?;
    let holds = prints(alloc, &mut matcher, text, wanted);
    drop(matcher);
    Ok(holds?)
}

/// The lines, each behind so many others, of which none has an expression of a row.
fn spread(alloc: Global, lines: &[u8], distance: usize) -> Result<Vec<u8>, Fail> {
    let mut text = Vec::new(alloc);
    let mut begins = true;
    for byte in lines.iter() {
        if begins {
            for _ in 0..distance {
                text.extend_from_slice(b"aaa bbb ccc ddd\n")?;
            }
        }
        text.push(*byte)?;
        begins = *byte == b'\n';
    }
    Ok(text)
}

/// Whether exactly what a row wants is printed of its lines, each behind so many others.
fn holds(alloc: Global, row: &str, distance: usize) -> Result<bool, Fail> {
    let mut columns = row.split(';');
    let options = columns.next().unwrap_or("");
    let expression = columns.next().unwrap_or("");
    let lines = unescaped(alloc, columns.next().unwrap_or("").as_bytes())?;
    let wanted = unescaped(alloc, columns.next().unwrap_or("").as_bytes())?;
    let text = spread(alloc, lines.as_slice(), distance)?;
    finds(
        alloc,
        options,
        expression,
        text.as_slice(),
        wanted.as_slice(),
    )
}

#[test]
fn lines_that_have_an_expression_are_found_in_order(rt: HostRuntime) -> Result<(), Fail> {
    for row in TEXTS.lines() {
        assert!(rt; holds(rt.alloc(), row, 0)?, "{row}");
    }
    Ok(())
}

/// The first so many of three expressions.
fn expressions(alloc: Global, count: usize) -> Result<Vec<Regex>, Memory> {
    let mut all = Vec::new(alloc);
    for bytes in [b"a.".as_slice(), b"B*", b""] {
        if all.len() < count {
            all.push(Regex::of_bytes(alloc, bytes)?)?;
        }
    }
    Ok(all)
}

/// Whether exactly these lines are printed of those that have one of the first so many expressions, in both cases and as whole lines
/// where that is asked for.
fn finds_any(
    alloc: Global,
    count: usize,
    whole: bool,
    text: &[u8],
    wanted: &[u8],
) -> Result<bool, Fail> {
    let all = expressions(alloc, count)?;
    let mut matcher = compile_any(alloc, all.as_slice(), whole, whole)?;
    let holds = prints(alloc, &mut matcher, text, wanted);
    drop(matcher);
    Ok(holds?)
}

/// Whether no expression at all is found in a text.
fn finds_none(alloc: Global, text: &[u8]) -> Result<bool, Fail> {
    let mut none = compile_any(alloc, &[], false, false)?;
    let found = none.has(text);
    drop(none);
    Ok(!found)
}

#[test]
fn several_expressions_are_sought_together(rt: HostRuntime) -> Result<(), Fail> {
    let alloc = rt.alloc();
    assert!(rt; finds_none(alloc, b"")? && finds_none(alloc, b"a")?);
    let text: &[u8] = b"a.\nab\nb*\n\nB*\na.b\nA.\n";
    assert!(rt; finds_any(alloc, 3, true, text, b"a.\nb*\n\nB*\nA.\n")?);
    let text: &[u8] = b"xa.x\nab\nb*\n\nxB*\nA.\n";
    assert!(rt; finds_any(alloc, 2, false, text, b"xa.x\nxB*\n")?);
    Ok(())
}

/// The same of lines that are far apart: so far that the next byte at which an expression may begin is looked for.
static SPREAD: &str = r"-;[xyz]fo*;xfoo\nfoo\nyxf\nx\nz f\n;xfoo\nyxf\n
-;[x][12];x\nax1\nx 1\nxx2\n;ax1\nxx2\n
E;x1|y2;x2y1\ny2\nx1y2\nx\n;y2\nx1y2\n
E;x1|y2|z3;z2x\nz3\n3z\nyx1\n;z3\nyx1\n
-;[vwxyz][1-3];v\nv1\n1v\n zz3\n;v1\n zz3\n
-;^[xyz]f;axf\nxf\nfx\nyfx\n;xf\nyfx\n
-;[xyz]$;xa\nax\n\nz\n;ax\nz\n
-;^[xyz]$;x\nxx\nzx\ny\n;x\ny\n
-;^xb*c;xbbc\nxbbd\nxbc1\naxbc\n;xbbc\nxbc1\n
-;^x.*[12]$;x\nx1\nx12 \n1x1\n x2\nx x2\n;x1\nx x2\n
-;^$;x\n\ny\n\n;\n\n
E;^x?$;x\n\nxx\n;x\n\n
i;[xyz]q*[12];X1\nx\nyQq2\nq1\n;X1\nyQq2\n
x;[xyz]b*;axb\nxb\nxbx\ny\n;xb\ny\n
-;[^ -~]1*;x\n\t\nx1\n\xc3\xa91\n;\t\n\xc3\xa91\n
-;[^a-d ]e*f;af\nf\nef\nxeef\n;ef\nxeef\n";

/// The same of several words, which are sought by the bytes at their first places.
static WORDS: &str = r"E;q|xyz|wv;xy\nq\nxyz\nw\nzwv\nxq\nx y z\n;q\nxyz\nzwv\nxq\n
E;fo|foot|fool;fo\nf\noo\nfoot\nxxfoolxx\nof\n;fo\nfoot\nxxfoolxx\n
E;foot|fool|for;foo\nfoot\nxfor\nfo\nroof\n;foot\nxfor\n
E;one|three|seventeen;xone\nthre\n  three\nseventee\nseventeen\non\ne\n;xone\n  three\nseventeen\n
E;(x|yz)f|w[12]g*;xf\nyf\nyzf\nw\nw3\n w1\nzf\n;xf\nyzf\n w1\n
E;(xy){2,3}z|[vw]+f;xyz\nxyxyz\nv\nwvf\nf\n xyxyxyz\n;xyxyz\nwvf\n xyxyxyz\n
E;x..y|v.w;x\nvw\nv w\nxy\nx  y\nx y\n;v w\nx  y\n
E;^xy|yz$;xyz\n xy\nyzx\nyz\n;xyz\nyz\n
i;[xy]Of[12];xof1\nOf1\nYoF2x\nzof1\nxof\n;xof1\nYoF2x\n
x;[xy]f[12]*;xf\nxf12\nxfx\nzxf\nyf3\n;xf\nxf12\n
-;[^ -~][^ -~]t;\xc3\xa9t\n\xe9t\nxc3\n\xc3\xa9\n \xc3\xa9\xa9t\n;\xc3\xa9t\n \xc3\xa9\xa9t\n
-;[pq][pq][pq]f;pqp\n\xf0\xf1\xf0f\npqpf\nqf\n qqqqf\n;pqpf\n qqqqf\n";

/// Whether exactly what a row wants is printed of its lines, behind some numbers of others.
fn holds_at(alloc: Global, row: &str) -> Result<bool, Fail> {
    let mut all = true;
    for distance in [0, 1, 2, 3, 4, 5, 9, 100] {
        all &= holds(alloc, row, distance)?;
    }
    Ok(all)
}

#[test]
fn one_of_several_words_is_found(rt: HostRuntime) -> Result<(), Fail> {
    for row in WORDS.lines() {
        assert!(rt; holds_at(rt.alloc(), row)?, "{row}");
    }
    Ok(())
}

/// A text in which a word stands behind so many other bytes of its line, with other lines behind it.
fn text_around(alloc: Global, word: &[u8], before: usize) -> Result<Vec<u8>, AllocError> {
    let mut text = Vec::new(alloc);
    for _ in 0..before {
        text.push(b'-')?;
    }
    text.extend_from_slice(word)?;
    for _ in 0..5 {
        text.extend_from_slice(b"\n---------------")?;
    }
    text.push(b'\n')?;
    Ok(text)
}

/// Whether this is the first line of a text, with its newline.
fn is_first_line(found: &[u8], text: &[u8]) -> bool {
    match (cut_line(found), cut_line(text)) {
        (Some((line, rest)), Some((first, _))) => line == first && rest.is_empty(),
        _ => false,
    }
}

/// Whether the line of a word behind so many bytes is printed alone.
fn finds_behind(
    alloc: Global,
    matcher: &mut Matcher,
    word: &[u8],
    before: usize,
) -> Result<bool, AllocError> {
    let text = text_around(alloc, word, before)?;
    let found = printed(alloc, matcher, text.as_slice())?;
    Ok(is_first_line(found.as_slice(), text.as_slice()))
}

/// Whether words are found behind any number of bytes up to two blocks.
fn finds_anywhere(alloc: Global, matcher: &mut Matcher) -> Result<bool, AllocError> {
    let mut all = true;
    for before in 0..140 {
        for word in [b"q".as_slice(), b"foot", b"xyz"] {
            all &= finds_behind(alloc, matcher, word, before)?;
        }
    }
    Ok(all)
}

#[test]
fn words_are_found_at_each_place_of_a_block(rt: HostRuntime) -> Result<(), Fail> {
    let mut matcher = matcher_of(rt.alloc(), "E", "q|foot|xyz")?;
    let holds = finds_anywhere(rt.alloc(), &mut matcher);
    drop(matcher);
    assert!(rt; holds?);
    Ok(())
}

#[test]
fn lines_far_apart_are_found(rt: HostRuntime) -> Result<(), Fail> {
    for row in SPREAD.lines() {
        assert!(rt; holds(rt.alloc(), row, 100)?, "{row}");
    }
    Ok(())
}

/// The literal of the expression stands in each of forty lines, so that the search for it is given up.
#[test]
fn a_line_behind_many_candidates_is_found(rt: HostRuntime) -> Result<(), Fail> {
    let mut text = Vec::new(rt.alloc());
    for _ in 0..40 {
        text.extend_from_slice(b"aab\n")?;
    }
    text.extend_from_slice(b"abb\naab\nab\n")?;
    assert!(rt; finds(rt.alloc(), "-", "^ab", text.as_slice(), b"abb\nab\n")?);
    Ok(())
}

/// A matcher may go to another thread.
fn sends<T: Send>(value: T) -> T {
    value
}

#[test]
fn a_matcher_may_be_sent(rt: HostRuntime) -> Result<(), Fail> {
    let mut sent = sends(matcher_of(rt.alloc(), "-", "a")?);
    let found = sent.has(b"a");
    drop(sent);
    assert!(rt; found);
    Ok(())
}
