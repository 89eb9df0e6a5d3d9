//! Calls between two looks at the clock.

use crate::calls::count_newlines;
use ps_lines::lines;
use ps_real::Reading;
use ps_world::{WorldErr, read_all};
use sh_arith::{ArithFault, Env, arith};
use sh_pattern::{Mark, Pattern, matches, read_pattern};
use std::io;
use std::io::{ErrorKind, Read};
use std::rt::Clock;
use std::time::Instant;

/// How often an arithmetic text is evaluated.
const EVALUATIONS: usize = 1_000_000;

/// What a call found, and the time that it took.
#[derive(Clone, Copy, Debug)]
pub struct Timed {
    pub count: usize,
    pub nanoseconds: u128,
}

/// `next_line` from line to line, which finds newlines.
pub fn time_next_line(rt: &impl Clock, text: &[u8]) -> io::Result<Timed> {
    let start = Instant::now(rt)?;
    let count = count_newlines(text);
    let nanoseconds = start.elapsed(rt)?.as_nanos();
    Ok(Timed { count, nanoseconds })
}

/// `lines` of the whole text.
pub fn time_lines(rt: &(impl AllocGlobal + Clock), text: &[u8]) -> io::Result<Timed> {
    let start = Instant::now(rt)?;
    let Ok(found) = lines(rt.alloc(), text) else {
        return Err(io::Error::from(ErrorKind::OutOfMemory));
    };
    let nanoseconds = start.elapsed(rt)?.as_nanos();
    Ok(Timed {
        count: found.len(),
        nanoseconds,
    })
}

/// `read_all` of a reader, which finds bytes.
pub fn time_read_all<R: Read + Drop>(
    rt: &(impl AllocGlobal + Clock),
    reader: R,
) -> io::Result<Timed> {
    let mut source = Reading::over(reader);
    let start = Instant::now(rt)?;
    let text = match read_all(rt.alloc(), &mut source) {
        Ok(text) => text,
        Err(WorldErr::Memory) => return Err(io::Error::from(ErrorKind::OutOfMemory)),
        Err(WorldErr::Failed) => return Err(io::Error::from(ErrorKind::Other)),
    };
    let nanoseconds = start.elapsed(rt)?.as_nanos();
    Ok(Timed {
        count: text.len(),
        nanoseconds,
    })
}

/// `arith` of the text, again and again over the same variables, which finds its last value.
pub fn time_arith(rt: &(impl AllocGlobal + Clock), text: &[u8]) -> io::Result<Timed> {
    let mut env = Env::new(rt.alloc());
    if env.set(rt.alloc(), b"i", b"41").is_err() {
        return Err(io::Error::from(ErrorKind::OutOfMemory));
    }
    let mut value = 0;
    let start = Instant::now(rt)?;
    for _ in 0..EVALUATIONS {
        value = match arith(rt.alloc(), text, &mut env) {
            Ok(value) => value,
            Err(ArithFault::Memory) => return Err(io::Error::from(ErrorKind::OutOfMemory)),
            Err(_) => return Err(io::Error::from(ErrorKind::InvalidData)),
        };
    }
    let nanoseconds = start.elapsed(rt)?.as_nanos();
    match usize::try_from(value) {
        Ok(count) => Ok(Timed { count, nanoseconds }),
        Err(_) => Err(io::Error::from(ErrorKind::InvalidData)),
    }
}

/// `matches` of each line of the text, which finds those that fit `*a*b*c*`.
pub fn time_matches(rt: &(impl AllocGlobal + Clock), text: &[u8]) -> io::Result<Timed> {
    let Ok(names) = lines(rt.alloc(), text) else {
        return Err(io::Error::from(ErrorKind::OutOfMemory));
    };
    let pattern = unquoted_pattern(rt, b"*a*b*c*")?;
    let start = Instant::now(rt)?;
    let count = names
        .iter()
        .filter(|name| matches(&pattern, name.as_slice()))
        .count();
    let nanoseconds = start.elapsed(rt)?.as_nanos();
    Ok(Timed { count, nanoseconds })
}

/// The pattern that a text without quotes reads as.
fn unquoted_pattern(rt: &impl AllocGlobal, text: &[u8]) -> io::Result<Pattern> {
    let mut marks = Vec::new(rt.alloc());
    for byte in text {
        let mark = Mark {
            byte: *byte,
            quoted: false,
        };
        if marks.push(mark).is_err() {
            return Err(io::Error::from(ErrorKind::OutOfMemory));
        }
    }
    match read_pattern(rt.alloc(), marks.as_slice()) {
        Ok(pattern) => Ok(pattern),
        Err(_) => Err(io::Error::from(ErrorKind::OutOfMemory)),
    }
}
