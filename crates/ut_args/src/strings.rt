//! What the words of tr ask for, and whether it keeps newlines.
ghost use Rattle.std.specs.Prelude.{◌≡◌, IfOk};
ghost use Rattle.ps_lines.specs.Texts.{texts_of};
ghost use Rattle.ut_args.specs.Strings.{image as image_def, is_one_of as is_one_of_def, keeps_newline as keeps_newline_def, tr as tr_def, tr_by as tr_by_def, tr_one as tr_one_def, tr_two as tr_two_def};

use crate::commands::{Command, TrArgs};
use ps_lines::{Memory, NEWLINE, Text};
use std::alloc::Global;
use ut_options::{Options, Texts};
use ut_strings::{expand_first, expand_second};

/// `tr`.
pub(crate) fn tr(
    alloc: Global,
    options: &Options,
    operands: &Texts,
) -> Result<Option<Command>, Memory>
    ensures { IfOk result (λ read. read ≡ tr_def options.now operands.now) }
{
    let complements = options.has(b'c') || options.has(b'C');
    tr_by(
        alloc,
        complements,
        options.has(b'd'),
        options.has(b's'),
        operands.as_slice(),
    )
}

/// `tr` with these strings: deleting alone takes one, squeezing alone one or two, all else two.
fn tr_by(
    alloc: Global,
    complements: bool,
    deletes: bool,
    squeezes: bool,
    strings: &[Vec<u8>],
) -> Result<Option<Command>, Memory>
    ensures { IfOk result (λ read. read ≡ tr_by_def complements deletes squeezes (texts_of strings.now)) }
{
    match strings {
        [first] => {
            if !is_one_of(deletes, squeezes) {
                return Ok(None);
            }
            tr_one(alloc, complements, deletes, squeezes, first.as_slice())
        }
        [first, second] => {
            if deletes && !squeezes {
                return Ok(None);
            }
            tr_two(
                alloc,
                complements,
                deletes,
                squeezes,
                first.as_slice(),
                second.as_slice(),
            )
        }
        _ => Ok(None),
    }
}

/// One of two, and not both.
fn is_one_of(one: bool, other: bool) -> bool
    ensures { result ≡ is_one_of_def one other }
{
    (one || other) && !(one && other)
}

/// `tr` with one string.
fn tr_one(
    alloc: Global,
    complements: bool,
    deletes: bool,
    squeezes: bool,
    first: &[u8],
) -> Result<Option<Command>, Memory>
    ensures { IfOk result (λ read. read ≡ tr_one_def complements deletes squeezes first.now) }
{
    let Some(from) = expand_first(alloc, first, complements)? else {
        return Ok(None);
    };
    Ok(Some(Command::Tr(TrArgs {
        complements,
        deletes,
        squeezes,
        first: Text::copy_of(alloc, first)?,
        second: None,
        from,
        to: None,
    })))
}

/// `tr` with two strings.
fn tr_two(
    alloc: Global,
    complements: bool,
    deletes: bool,
    squeezes: bool,
    first: &[u8],
    second: &[u8],
) -> Result<Option<Command>, Memory>
    ensures { IfOk result (λ read. read ≡ tr_two_def complements deletes squeezes first.now second.now) }
{
    let Some(from) = expand_first(alloc, first, complements)? else {
        return Ok(None);
    };
    let Some(to) = expand_second(alloc, second, from.as_slice().len())? else {
        return Ok(None);
    };
    Ok(Some(Command::Tr(TrArgs {
        complements,
        deletes,
        squeezes,
        first: Text::copy_of(alloc, first)?,
        second: Some(Text::copy_of(alloc, second)?),
        from,
        to: Some(to),
    })))
}

/// Whether a newline of the input is a newline of the output.
pub(crate) fn keeps_newline(args: &TrArgs) -> bool
    ensures { result ≡ keeps_newline_def args.now }
{
    if args.deletes {
        return !args.from.as_slice().contains(&NEWLINE);
    }
    match &args.to {
        None => true,
        Some(to) => image(NEWLINE, args.from.as_slice(), to.as_slice()) == NEWLINE,
    }
}

/// The byte that a byte becomes: that at the last place at which it stands, where the second string goes on with its last byte.
fn image(byte: u8, from: &[u8], to: &[u8]) -> u8
    ensures { result ≡ image_def byte byte byte from.now to.now }
{
    let mut current = byte;
    let mut last = byte;
    let mut others = to;
    let mut left = from;
    while let [one, rest @ ..] = left {
        if let [other, behind @ ..] = others {
            last = *other;
            others = behind;
        }
        if *one == byte {
            current = last;
        }
        left = rest;
    }
    current
}
