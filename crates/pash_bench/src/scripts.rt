//! Readings of a whole script, between two looks at the clock.
use crate::clock::Timed;
use sh_lex::{LexRefusal, lex};
use sh_parse::{ParseRefusal, parse};
use std::io;
use std::io::ErrorKind;
use std::rt::Clock;
use std::time::Instant;

/// `lex` of the whole script, which finds tokens.
pub fn time_lex(rt: &(impl AllocGlobal + Clock), script: &[u8]) -> io::Result<Timed> {
    let start = Instant::now(rt)?;
    let tokens = match lex(rt.alloc(), script) {
        Ok(tokens) => tokens,
        Err(LexRefusal::Memory) => return Err(io::Error::from(ErrorKind::OutOfMemory)),
        Err(LexRefusal::Refused(_)) => return Err(io::Error::from(ErrorKind::InvalidData)),
    };
    let nanoseconds = start.elapsed(rt)?.as_nanos();
    Ok(Timed {
        count: tokens.len(),
        nanoseconds,
    })
}

/// `lex` and `parse` of the whole script, which find and-or lists that stand in no other.
pub fn time_parse(rt: &(impl AllocGlobal + Clock), script: &[u8]) -> io::Result<Timed> {
    let start = Instant::now(rt)?;
    let tokens = match lex(rt.alloc(), script) {
        Ok(tokens) => tokens,
        Err(LexRefusal::Memory) => return Err(io::Error::from(ErrorKind::OutOfMemory)),
        Err(LexRefusal::Refused(_)) => return Err(io::Error::from(ErrorKind::InvalidData)),
    };
    let script = match parse(rt.alloc(), script, tokens.as_slice()) {
        Ok(script) => script,
        Err(ParseRefusal::Memory) => return Err(io::Error::from(ErrorKind::OutOfMemory)),
        Err(ParseRefusal::Refused(_)) => return Err(io::Error::from(ErrorKind::InvalidData)),
    };
    let nanoseconds = start.elapsed(rt)?.as_nanos();
    let count = match &script.body {
        Some(list) => list.items.len(),
        None => 0,
    };
    Ok(Timed { count, nanoseconds })
}
