//! What the words of cut and paste ask for: parts of lines, and what stands between lines.
ghost use Rattle.std.specs.Prelude.{◌≡◌, [], ◌∷◌, codes, IfOk};
ghost use Rattle.ut_options.specs.Given.{last_by};
ghost use Rattle.ut_args.specs.Utilities.{letter};
ghost use Rattle.ut_args.specs.Lists.{bytes_or_fields as bytes_or_fields_def, cut as cut_def, delimiters_of as delimiters_of_def, escaped as escaped_def, list_of as list_of_def, paste as paste_def, place_of as place_of_def, range_between as range_between_def, range_of as range_of_def};

use crate::commands::{Command, CutArgs, Parts, PasteArgs};
use crate::lists::{Delimiters, Range, Ranges};
use crate::pieces::cut_at;
use ps_lines::{Memory, NEWLINE};
use std::alloc::Global;
use ut_options::{Given, Options, Texts, read_number};

/// The byte between two fields of cut, and between two lines of paste, where none is given.
const TAB: u8 = b'\t';

/// `cut`: one list, of bytes or of fields.
pub(crate) fn cut(
    alloc: Global,
    options: &Options,
    operands: Texts,
) -> Result<Option<Command>, Memory>
    ensures { IfOk result (λ read. read ≡ cut_def options.now operands) }
{
    let Some(delimiter) = options.byte(b'd', None) else {
        return Ok(None);
    };
    let Some(list) = options.only_of(b"bcf") else {
        return Ok(None);
    };
    let Some(parts) = bytes_or_fields(list.letter != b'f', options.has(b's'), delimiter) else {
        return Ok(None);
    };
    match list_of(alloc, list.argument.as_slice())? {
        Some(ranges) => Ok(Some(Command::Cut(CutArgs {
            parts,
            ranges,
            operands,
        }))),
        None => Ok(None),
    }
}

/// The parts that are counted; None where bytes are, and there is an option of fields.
fn bytes_or_fields(bytes: bool, only_delimited: bool, delimiter: Option<u8>) -> Option<Parts>
    ensures { result ≡ bytes_or_fields_def bytes only_delimited delimiter }
{
    match (bytes, delimiter) {
        (true, None) => {
            if only_delimited {
                return None;
            }
            Some(Parts::Bytes)
        }
        (true, Some(_)) => None,
        (false, None) => Some(Parts::Fields {
            delimiter: TAB,
            only_delimited,
        }),
        (false, Some(delimiter)) => Some(Parts::Fields {
            delimiter,
            only_delimited,
        }),
    }
}

/// The ranges of a list, which commas and blanks part.
#[tactic(auto, using(crate::proofs::ListLemmas::list_steps))]
fn list_of(alloc: Global, list: &[u8]) -> Result<Option<Ranges>, Memory>
    ensures { IfOk result (λ read. read ≡ list_of_def list.now) }
{
    let mut ranges = Ranges::new(alloc);
    let mut left = list;
    while let Some((part, rest)) = cut_at(b", \t", left) {
        let Some(range) = range_of(part) else {
            return Ok(None);
        };
        ranges.push(range)?;
        left = rest;
    }
    let Some(range) = range_of(left) else {
        return Ok(None);
    };
    ranges.push(range)?;
    Ok(Some(ranges))
}

/// The range of one part: `N`, `N-M`, `N-` or `-M`.
#[tactic(auto, unfolding(crate::specs::Lists::range_of))]
fn range_of(part: &[u8]) -> Option<Range>
    ensures { result ≡ range_of_def part.now }
{
    match cut_at(b"-", part) {
        None => {
            let place = place_of(part)?;
            Some(Range {
                from: place,
                to: Some(place),
            })
        }
        Some(([], [])) => None,
        Some(([], to)) => {
            let to = place_of(to)?;
            Some(Range {
                from: 1,
                to: Some(to),
            })
        }
        Some((from, [])) => {
            let from = place_of(from)?;
            Some(Range { from, to: None })
        }
        Some((from, to)) => {
            let from = place_of(from)?;
            let to = place_of(to)?;
            range_between(from, to)
        }
    }
}

/// The range from one place up to another; None where that is before it.
fn range_between(from: u64, to: u64) -> Option<Range>
    ensures { result ≡ range_between_def from to }
{
    if from <= to {
        Some(Range { from, to: Some(to) })
    } else {
        None
    }
}

/// A number from 1.
pub(crate) fn place_of(text: &[u8]) -> Option<u64>
    ensures { result ≡ place_of_def text.now }
{
    let number = read_number(text)?;
    if 1 <= number { Some(number) } else { None }
}

/// `paste`.
pub(crate) fn paste(
    alloc: Global,
    options: &Options,
    operands: Texts,
) -> Result<Option<Command>, Memory>
    ensures { IfOk result (λ read. read ≡ paste_def options.now operands) }
{
    match delimiters_among(alloc, options.as_slice())? {
        Some(delimiters) => Ok(Some(Command::Paste(PasteArgs {
            serial: options.has(b's'),
            delimiters,
            operands,
        }))),
        None => Ok(None),
    }
}

/// The delimiters that the last list gives, or a tab; None where a list has a fault.
fn delimiters_among(alloc: Global, options: &[Given]) -> Result<Option<Delimiters>, Memory>
    ensures { IfOk result (λ read. read ≡ last_by delimiters_of_def (letter (codes "d")) (Some 9 ∷ []) options.now) }
{
    let mut delimiters = Delimiters::new(alloc);
    delimiters.push(Some(TAB))?;
    let mut left = options;
    while let [given, rest @ ..] = left {
        if given.letter == b'd' {
            let Some(read) = delimiters_of(alloc, given.argument.as_slice())? else {
                return Ok(None);
            };
            delimiters = read;
        }
        left = rest;
    }
    Ok(Some(delimiters))
}

/// The delimiters of a list: its bytes, with `\n`, `\t`, `\\` and `\0` for a newline, a tab, a backslash and the empty one.
#[tactic(auto, using(crate::proofs::ListLemmas::key_steps))]
fn delimiters_of(alloc: Global, list: &[u8]) -> Result<Option<Delimiters>, Memory>
    ensures { IfOk result (λ read. read ≡ delimiters_of_def list.now) }
{
    if list.is_empty() {
        return Ok(None);
    }
    let mut delimiters = Delimiters::new(alloc);
    let mut behind_backslash = false;
    let mut left = list;
    while let [byte, rest @ ..] = left {
        if behind_backslash {
            let Some(delimiter) = escaped(*byte) else {
                return Ok(None);
            };
            delimiters.push(delimiter)?;
            behind_backslash = false;
        } else if *byte == b'\\' {
            behind_backslash = true;
        } else {
            delimiters.push(Some(*byte))?;
        }
        left = rest;
    }
    if behind_backslash {
        return Ok(None);
    }
    Ok(Some(delimiters))
}

/// The delimiter that an escape stands for.
#[tactic(auto, unfolding(crate::specs::Lists::escaped))]
fn escaped(byte: u8) -> Option<Option<u8>>
    ensures { result ≡ escaped_def byte }
{
    if byte == b'n' {
        return Some(Some(NEWLINE));
    }
    if byte == b't' {
        return Some(Some(TAB));
    }
    if byte == b'\\' {
        return Some(Some(b'\\'));
    }
    if byte == b'0' {
        return Some(None);
    }
    None
}
