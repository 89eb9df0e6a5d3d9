//! Times one call of a crate on one file: `pash_bench CALL FILE`, where CALL is `next_line`, `lines`, `read_all`, `lex`, `parse`,
//! `arith`, `matches`, `expand`, `expand_many`, `cut_prefix`, `cut_suffix` or `wc`, or `pash_bench has FILE OPTIONS EXPRESSION`, or
//! `pash_bench grep FILE WORD`, `pash_bench stream FILE UTILITY WORD..` or `pash_bench sort FILE OPTION..`.
//!
//! What the call finds, a count or a value, goes to the output, and the time of the call alone, in nanoseconds, to the error
//! output: what a call takes is ready before the clock starts, and what it gives is dropped after the clock stopped.
//! The scripts in bench/ run the built program on large files, beside other tools.
#![tactic(auto)]

mod calls;
mod clock;
mod scripts;
mod sorting;
mod streams;
mod words;

use calls::Call;
use sh_pattern::Side;
use std::io::ErrorKind;
use std::{env, fs, io};

/// The words of the call `expand_many`.
const MANY_WORDS: usize = 4_000;

fn main(rt: HostRuntime) -> io::Result<()> {
    let mut words = env::args(&rt)?.skip(1);
    let (Some(name), Some(path)) = (words.next(), words.next()) else {
        return Err(io::Error::from(ErrorKind::InvalidInput));
    };
    let Some(call) = Call::named(name.as_str()) else {
        return Err(io::Error::from(ErrorKind::InvalidInput));
    };
    let timed = match call {
        Call::NextLine => clock::time_next_line(&rt, fs::read(&rt, path)?.as_slice())?,
        Call::Lines => clock::time_lines(&rt, fs::read(&rt, path)?.as_slice())?,
        Call::Lex => scripts::time_lex(&rt, fs::read(&rt, path)?.as_slice())?,
        Call::Has => {
            let (Some(options), Some(expression)) = (words.next(), words.next()) else {
                return Err(io::Error::from(ErrorKind::InvalidInput));
            };
            let reader = fs::open(&rt, path)?;
            streams::time_has(&rt, reader, options.as_str(), expression.as_str())?
        }
        Call::Arith => clock::time_arith(&rt, fs::read(&rt, path)?.as_slice())?,
        Call::Matches => clock::time_matches(&rt, fs::read(&rt, path)?.as_slice())?,
        Call::Expand => words::time_expand(&rt, fs::read(&rt, path)?.as_slice(), 1)?,
        Call::ExpandMany => words::time_expand(&rt, fs::read(&rt, path)?.as_slice(), MANY_WORDS)?,
        Call::CutPrefix => words::time_cut(&rt, fs::read(&rt, path)?.as_slice(), Side::Prefix)?,
        Call::CutSuffix => words::time_cut(&rt, fs::read(&rt, path)?.as_slice(), Side::Suffix)?,
        Call::Parse => scripts::time_parse(&rt, fs::read(&rt, path)?.as_slice())?,
        Call::Grep => {
            let Some(word) = words.next() else {
                return Err(io::Error::from(ErrorKind::InvalidInput));
            };
            streams::time_grep(&rt, fs::open(&rt, path)?, word.as_str())?
        }
        Call::Wc => streams::time_wc(&rt, fs::open(&rt, path)?)?,
        Call::Stream => {
            let mut texts = Vec::new(rt.alloc());
            for word in words {
                texts.push(Vec::from_slice(rt.alloc(), word.as_bytes())?)?;
            }
            streams::time_utility(&rt, fs::open(&rt, path)?, texts.as_slice())?
        }
        Call::Sort => {
            let mut options = Vec::new(rt.alloc());
            for word in words {
                options.push(word)?;
            }
            sorting::time_sort(&rt, fs::open(&rt, path)?, options.as_slice())?
        }
        Call::ReadAll => clock::time_read_all(&rt, fs::open(&rt, path)?)?,
    };
    eprintln!(rt; "{}", timed.nanoseconds)?;
    println!(rt; "{}", timed.count)
}
