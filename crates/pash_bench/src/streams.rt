//! Streams over the pieces of a file, between two looks at the clock.
ghost use Rattle.std.specs.Prelude.{◌≡◌, [], false, true, IfOk, IfSome};
ghost use Rattle.ut_args.specs.Built.{is_built_of};

use crate::clock::Timed;
use ps_lines::Memory;
use std::alloc::Global;
use std::io;
use std::io::{ErrorKind, Read};
use std::rt::Clock;
use std::time::Instant;
use ut_args::{ArgFault, Inv, is_built, read_inv};
use ut_bytes::Tr;
use ut_grep::{Grep, check};
use ut_groups::{Uniq, Wc};
use ut_regex::{Matcher, Regex, compile, read_bre, read_ere};
use ut_slices::{Cut, Head, Tail};
use ut_streams::{LineStream, Lines, Stream};

/// The bytes that are read at a time.
const PIECE: usize = 65_536;

/// The stream of `grep -F` with this word, which finds bytes of output.
pub fn time_grep<R: Read + Drop>(
    rt: &(impl AllocGlobal + Clock),
    mut reader: R,
    word: &str,
) -> io::Result<Timed> {
    let Some(Inv::Grep(inv)) = read_words(rt.alloc(), &["grep", "-F", word])? else {
        return Err(io::Error::from(ErrorKind::InvalidInput));
    };
    match Grep::new(rt.alloc(), &inv, b"") {
        Ok(mut grep) => time_stream(rt, &mut reader, &mut grep),
        Err(Memory) => Err(io::Error::from(ErrorKind::OutOfMemory)),
    }
}

/// The lines of a file that have an expression; what `compile` takes counts too. The options are `E` for an extended
/// expression and `i` for both cases.
pub fn time_has<R: Read + Drop>(
    rt: &(impl AllocGlobal + Clock),
    mut reader: R,
    options: &str,
    expression: &str,
) -> io::Result<Timed> {
    let re = read_expression(rt, options, expression)?;
    let fold = options == "i" || options == "Ei";
    let mut piece = vec![in rt.alloc(); 0; PIECE]?;
    let mut out = Vec::new(rt.alloc());
    let start = Instant::now(rt)?;
    let Ok(matcher) = compile(rt.alloc(), &re, fold, false) else {
        return Err(io::Error::from(ErrorKind::OutOfMemory));
    };
    let counting = Counting { matcher, count: 0 };
    let mut lines = Lines::new(rt.alloc(), counting);
    let Some(_) = feed(&mut reader, &mut lines, &mut piece, &mut out)? else {
        return Err(io::Error::from(ErrorKind::OutOfMemory));
    };
    let nanoseconds = start.elapsed(rt)?.as_nanos();
    Ok(Timed {
        count: lines.each.count,
        nanoseconds,
    })
}

/// The expression that a text reads as.
fn read_expression(rt: &impl AllocGlobal, options: &str, expression: &str) -> io::Result<Regex> {
    let read = if options == "E" || options == "Ei" {
        read_ere(rt.alloc(), expression.as_bytes())
    } else {
        read_bre(rt.alloc(), expression.as_bytes())
    };
    match read {
        Ok(re) => Ok(re),
        Err(_) => Err(io::Error::from(ErrorKind::InvalidData)),
    }
}

/// Counts the lines that have what a matcher seeks, and writes nothing.
#[derive(Drop)]
struct Counting {
    matcher: Matcher,
    count: usize,
}

impl LineStream for Counting {
    ghost line_due = { λ _ _. [] };

    ghost line_selects = { λ _ _. false };

    ghost line_selected = { λ _. false };

    ghost line_test = { λ _ _. false };

    fn line(&mut self, line: &[u8], _out: &mut Vec<u8>) -> Result<(), Memory> {
        if self.matcher.has(line) {
            self.count = self.count.saturating_add(1);
        }
        Ok(())
    }

    fn whole_lines(&mut self, text: &[u8], _out: &mut Vec<u8>) -> Result<(), Memory> {
        let mut left = text;
        while let Some(cut) = self.matcher.first_having(left) {
            self.count = self.count.saturating_add(1);
            left = cut.rest;
        }
        Ok(())
    }

    fn end(&mut self, _out: &mut Vec<u8>) -> Result<(), Memory> {
        Ok(())
    }

    fn has_selected(&self) -> bool {
        false
    }
}

/// The stream of `wc -l`, which finds bytes of output.
pub fn time_wc<R: Read + Drop>(
    rt: &(impl AllocGlobal + Clock),
    mut reader: R,
) -> io::Result<Timed> {
    let Some(Inv::Wc(inv)) = read_words(rt.alloc(), &["wc", "-l"])? else {
        return Err(io::Error::from(ErrorKind::InvalidInput));
    };
    time_stream(rt, &mut reader, &mut Wc::of_part(&inv))
}

/// The stream of the invocation of these words, which finds bytes of output.
pub fn time_utility<R: Read + Drop>(
    rt: &(impl AllocGlobal + Clock),
    mut reader: R,
    words: &[Vec<u8>],
) -> io::Result<Timed> {
    if words.is_empty() {
        return Err(io::Error::from(ErrorKind::InvalidInput));
    }
    match read_inv(rt.alloc(), words) {
        Ok(inv) => time_inv(rt, &mut reader, &inv),
        Err(ArgFault::Memory) => Err(io::Error::from(ErrorKind::OutOfMemory)),
        Err(_) => Err(io::Error::from(ErrorKind::InvalidInput)),
    }
}

/// The stream of an invocation of a utility that has one here.
fn time_inv<R: Read>(
    rt: &(impl AllocGlobal + Clock),
    reader: &mut R,
    inv: &Inv,
) -> io::Result<Timed> {
    match inv {
        Inv::Grep(inv) => match check(rt.alloc(), inv) {
            Ok(()) => time_made(rt, reader, Grep::new(rt.alloc(), inv, b"")),
            Err(_) => Err(io::Error::from(ErrorKind::InvalidInput)),
        },
        Inv::Tr(inv) => time_made(rt, reader, Tr::new(rt.alloc(), inv)),
        Inv::Cut(inv) => time_made(rt, reader, Cut::new(rt.alloc(), inv)),
        Inv::Head(inv) => time_stream(rt, reader, &mut Head::of(inv.args.count)),
        Inv::Tail(inv) => time_made(rt, reader, Tail::new(rt.alloc(), inv)),
        Inv::Wc(inv) => time_stream(rt, reader, &mut Wc::of_part(inv)),
        Inv::Uniq(inv) => time_stream(rt, reader, &mut Uniq::new(rt.alloc(), inv)),
        _ => Err(io::Error::from(ErrorKind::InvalidInput)),
    }
}

/// A stream, if memory was there to make it.
fn time_made<R: Read, S: Stream>(
    rt: &(impl AllocGlobal + Clock),
    reader: &mut R,
    made: Result<S, Memory>,
) -> io::Result<Timed>
    requires { IfOk made (λ stream. S.spent stream ≡ false) }
{
    match made {
        Ok(mut stream) => time_stream(rt, reader, &mut stream),
        Err(Memory) => Err(io::Error::from(ErrorKind::OutOfMemory)),
    }
}

/// The invocation of these words, if they are one that is built.
fn read_words(alloc: Global, words: &[&str]) -> io::Result<Option<Inv>>
    ensures { IfOk result (λ read. IfSome read (λ inv. is_built_of inv ≡ true)) }
{
    let mut texts = Vec::new(alloc);
    for word in words {
        texts.push(Vec::from_slice(alloc, word.as_bytes())?)?;
    }
    if texts.is_empty() {
        return Ok(None);
    }
    match read_inv(alloc, texts.as_slice()) {
        Ok(inv) => {
            if is_built(&inv) {
                return Ok(Some(inv));
            }
            Ok(None)
        }
        Err(ArgFault::Memory) => Err(io::Error::from(ErrorKind::OutOfMemory)),
        Err(_) => Ok(None),
    }
}

/// A stream over the whole of a reader; what it writes is counted and dropped.
fn time_stream<R: Read, S: Stream>(
    rt: &(impl AllocGlobal + Clock),
    reader: &mut R,
    stream: &mut S,
) -> io::Result<Timed>
    requires { S.spent stream.old ≡ false }
{
    let mut piece = vec![in rt.alloc(); 0; PIECE]?;
    let mut out = Vec::new(rt.alloc());
    let start = Instant::now(rt)?;
    let Some(count) = feed(reader, stream, &mut piece, &mut out)? else {
        return Err(io::Error::from(ErrorKind::OutOfMemory));
    };
    let nanoseconds = start.elapsed(rt)?.as_nanos();
    Ok(Timed { count, nanoseconds })
}

/// Feeds a stream all that a reader gives, and finishes it; the number of bytes that it writes, or None where memory is wanted.
fn feed<R: Read, S: Stream>(
    reader: &mut R,
    stream: &mut S,
    piece: &mut [u8],
    out: &mut Vec<u8>,
) -> io::Result<Option<usize>>
    requires { S.spent stream.old ≡ false }
{
    let mut count: usize = 0;
    for _ in 0..u64::MAX {
        let size = reader.read(piece)?;
        if size == 0 {
            break;
        }
        out.clear();
        match stream.feed(&piece[..size], out) {
            Ok(()) => count = count.saturating_add(out.len()),
            Err(Memory) => return Ok(None),
        }
    }
    out.clear();
    match stream.finish(out) {
        Ok(()) => Ok(Some(count.saturating_add(out.len()))),
        Err(Memory) => Ok(None),
    }
}
