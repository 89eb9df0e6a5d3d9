//! Words over a variable's value, between two looks at the clock.
use crate::clock::Timed;
use ps_fakes::MemTree;
use ps_lines::{Memory, Text};
use sh_arith::Env;
use sh_expand::{ExpandFault, Frame, MAX_FIELDS, expand, expand_one};
use sh_pattern::Side;
use sh_tree::{Form, Param, Part, Word};
use std::alloc::Global;
use std::io;
use std::io::ErrorKind;
use std::rt::Clock;
use std::time::Instant;

/// `expand` of so many words `$x`, with the text as the value, which finds fields; where there are too many of them, one more than
/// there may be. No field may have a pattern in it.
pub fn time_expand(
    rt: &(impl AllocGlobal + Clock),
    text: &[u8],
    count: usize,
) -> io::Result<Timed> {
    let alloc = rt.alloc();
    let (Ok(words), Ok(mut env), Ok(Some(mut tree))) = (
        words_of(alloc, count),
        env_of(alloc, text),
        MemTree::of_table(alloc, b"/", &[], Vec::new(alloc)),
    ) else {
        return Err(io::Error::from(ErrorKind::OutOfMemory));
    };
    time_fields(rt, words.as_slice(), &mut env, &mut tree)
}

/// `expand` of the words over these variables and this tree.
fn time_fields(
    rt: &(impl AllocGlobal + Clock),
    words: &[Word],
    env: &mut Env,
    tree: &mut MemTree,
) -> io::Result<Timed> {
    let mut frame = Frame {
        env,
        zero: b"pash",
        args: &[],
        status: 0,
        subs: &[],
    };
    let start = Instant::now(rt)?;
    let found = expand(rt.alloc(), words, &mut frame, tree);
    let nanoseconds = start.elapsed(rt)?.as_nanos();
    match found {
        Ok(fields) => Ok(Timed {
            count: fields.len(),
            nanoseconds,
        }),
        Err(fault) => time_fault(fault, nanoseconds),
    }
}

/// The time after which there were too many fields; any other fault is an error.
fn time_fault(fault: ExpandFault, nanoseconds: u128) -> io::Result<Timed> {
    match fault {
        ExpandFault::ArgsTooMany => Ok(Timed {
            count: MAX_FIELDS + 1,
            nanoseconds,
        }),
        ExpandFault::Memory => Err(io::Error::from(ErrorKind::OutOfMemory)),
        _ => Err(io::Error::from(ErrorKind::InvalidData)),
    }
}

/// `expand_one` of `${x##*/}` or `${x%%*[! ]}`, with the text as the value of `x`, which finds bytes.
pub fn time_cut(rt: &(impl AllocGlobal + Clock), text: &[u8], side: Side) -> io::Result<Timed> {
    let alloc = rt.alloc();
    let (Ok(form), Ok(mut env)) = (cut_form(alloc, side), env_of(alloc, text)) else {
        return Err(io::Error::from(ErrorKind::OutOfMemory));
    };
    let Ok(word) = x_by(alloc, form) else {
        return Err(io::Error::from(ErrorKind::OutOfMemory));
    };
    let mut frame = Frame {
        env: &mut env,
        zero: b"pash",
        args: &[],
        status: 0,
        subs: &[],
    };
    let start = Instant::now(rt)?;
    let bytes = match expand_one(alloc, &word, &mut frame) {
        Ok(bytes) => bytes,
        Err(ExpandFault::Memory) => return Err(io::Error::from(ErrorKind::OutOfMemory)),
        Err(_) => return Err(io::Error::from(ErrorKind::InvalidData)),
    };
    let nanoseconds = start.elapsed(rt)?.as_nanos();
    Ok(Timed {
        count: bytes.len(),
        nanoseconds,
    })
}

/// So many words `$x`.
fn words_of(alloc: Global, count: usize) -> Result<Vec<Word>, Memory> {
    let mut words = Vec::new(alloc);
    for _ in 0..count {
        words.push(x_by(alloc, Form::Plain)?)?;
    }
    Ok(words)
}

/// The form `##*/` or `%%*[! ]`.
fn cut_form(alloc: Global, side: Side) -> Result<Form, Memory> {
    match side {
        Side::Prefix => Ok(Form::CutPrefix {
            longest: true,
            word: plain_word(alloc, b"*/")?,
        }),
        Side::Suffix => Ok(Form::CutSuffix {
            longest: true,
            word: plain_word(alloc, b"*[! ]")?,
        }),
    }
}

/// The word of these bytes, of which none is quoted.
fn plain_word(alloc: Global, bytes: &[u8]) -> Result<Word, Memory> {
    let part = Part::Plain(Text::copy_of(alloc, bytes)?);
    let parts = Vec::from_array(alloc, [part])?;
    Ok(Word { parts })
}

/// The expansion of `x` in this form.
fn x_by(alloc: Global, form: Form) -> Result<Word, Memory> {
    let what = Param::Name(Text::copy_of(alloc, b"x")?);
    let part = Part::Param {
        what,
        form,
        quoted: false,
    };
    let parts = Vec::from_array(alloc, [part])?;
    Ok(Word { parts })
}

/// The variables, of which `x` is the text.
fn env_of(alloc: Global, text: &[u8]) -> Result<Env, Memory> {
    let mut env = Env::new(alloc);
    env.set(alloc, b"x", text)?;
    Ok(env)
}
