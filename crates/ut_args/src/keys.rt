//! What the words of sort ask for.
ghost use Rattle.std.specs.Prelude.{◌≡◌, codes, IfOk};
ghost use Rattle.std.specs.List.{list_all};
ghost use Rattle.ut_options.specs.Rows.{is_among as is_among_def};
ghost use Rattle.ps_lines.specs.Texts.{texts_of};
ghost use Rattle.ut_args.specs.Keys.{behind_digits, digits_front, end_of as end_of_def, end_with as end_with_def, if_at_least as if_at_least_def, key_of as key_of_def, keys_of as keys_of_def, ordering_of as ordering_of_def, sort as sort_def};

use crate::commands::{Command, SortArgs};
use crate::lists::{Key, KeyEnd, Keys, Ordering};
use crate::pieces::cut_at;
use ps_lines::Memory;
use std::alloc::Global;
use ut_options::{Options, Texts, read_number};

/// `sort`.
pub(crate) fn sort(
    alloc: Global,
    options: &Options,
    operands: Texts,
) -> Result<Option<Command>, Memory>
    ensures { IfOk result (λ read. read ≡ sort_def options.now operands) }
{
    let Some(separator) = options.byte(b't', None) else {
        return Ok(None);
    };
    let arguments = options.arguments(alloc, b'k')?;
    match keys_of(alloc, arguments.as_slice())? {
        Some(keys) => Ok(Some(Command::Sort(SortArgs {
            ordering: Ordering {
                blanks: options.has(b'b'),
                fold: options.has(b'f'),
                numeric: options.has(b'n'),
                reverse: options.has(b'r'),
            },
            unique: options.has(b'u'),
            separator,
            keys,
            operands,
        }))),
        None => Ok(None),
    }
}

/// The keys that texts are; None where one is none.
#[tactic(auto, using(crate::proofs::ListLemmas::key_steps))]
fn keys_of(alloc: Global, texts: &[Vec<u8>]) -> Result<Option<Keys>, Memory>
    ensures { IfOk result (λ read. read ≡ keys_of_def (texts_of texts.now)) }
{
    let mut keys = Keys::new(alloc);
    let mut left = texts;
    while let [text, rest @ ..] = left {
        let Some(key) = key_of(text.as_slice()) else {
            return Ok(None);
        };
        keys.push(key)?;
        left = rest;
    }
    Ok(Some(keys))
}

/// A key: `START` or `START,END`.
#[tactic(auto, unfolding(crate::specs::Keys::key_of))]
fn key_of(text: &[u8]) -> Option<Key>
    ensures { result ≡ key_of_def text.now }
{
    match cut_at(b",", text) {
        None => {
            let start = end_of(1, text)?;
            Some(Key { start, end: None })
        }
        Some((start, end)) => {
            let start = end_of(1, start)?;
            let end = end_of(0, end)?;
            Some(Key {
                start,
                end: Some(end),
            })
        }
    }
}

/// One end of a key: `F[.C][bfnr]`, with C from `least`, which it is where it is absent.
fn end_of(least: u64, text: &[u8]) -> Option<KeyEnd>
    ensures { result ≡ end_of_def least text.now }
{
    let (field, behind) = split_digits(text);
    match behind {
        [] => end_with(least, read_number(field), Some(least), behind),
        [byte, rest @ ..] => {
            if *byte != b'.' {
                return end_with(least, read_number(field), Some(least), behind);
            }
            let (byte, letters) = split_digits(rest);
            end_with(least, read_number(field), read_number(byte), letters)
        }
    }
}

/// One end of a key, of its numbers and letters.
fn end_with(least: u64, field: Option<u64>, byte: Option<u64>, letters: &[u8]) -> Option<KeyEnd>
    ensures { result ≡ end_with_def least field byte letters.now }
{
    let field = if_at_least(1, field)?;
    let byte = if_at_least(least, byte)?;
    let letters = ordering_of(letters)?;
    Some(KeyEnd {
        field,
        byte,
        letters,
    })
}

/// A number that is at least this one.
fn if_at_least(least: u64, number: Option<u64>) -> Option<u64>
    ensures { result ≡ if_at_least_def least number }
{
    let number = number?;
    if least <= number { Some(number) } else { None }
}

/// The letters of one end of a key.
fn ordering_of(letters: &[u8]) -> Option<Ordering>
    ensures { result ≡ ordering_of_def letters.now }
{
    if !are_key_letters(letters) {
        return None;
    }
    Some(Ordering {
        blanks: letters.contains(&b'b'),
        fold: letters.contains(&b'f'),
        numeric: letters.contains(&b'n'),
        reverse: letters.contains(&b'r'),
    })
}

/// Whether all bytes are letters that a key may have.
fn are_key_letters(letters: &[u8]) -> bool
    ensures { result ≡ list_all (is_among_def (codes "bfnr")) letters.now }
{
    let mut left = letters;
    while let [letter, rest @ ..] = left {
        if !is_key_letter(*letter) {
            return false;
        }
        left = rest;
    }
    true
}

/// Whether a key may have the letter.
fn is_key_letter(letter: u8) -> bool
    ensures { result ≡ is_among_def (codes "bfnr") letter }
{
    b"bfnr".contains(&letter)
}

/// The digits that a text begins with, and what stands behind them.
fn split_digits(text: &[u8]) -> (&[u8], &[u8])
    ensures front { result.0.now ≡ digits_front text.now }
    ensures behind { result.1.now ≡ behind_digits text.now }
{
    let mut count = 0;
    let mut left = text;
    while let [byte, rest @ ..] = left {
        if !byte.is_ascii_digit() {
            break;
        }
        count += 1;
        left = rest;
    }
    (&text[..count], left)
}
