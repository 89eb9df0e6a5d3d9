//! Rows of tables: a text, and what `parse` answers.
//!
//! A row is a line of a table: a text, ` => `, and its script as `shown` writes it, or the name of the refusal with its offset.
//! In the text `\n`, `\t`, `\\` and `\xNN` are bytes, and `\e` is nothing.
use super::shown::shown;
use ps_lines::{Memory, decimal};
use sh_lex::{LexRefusal, Static, lex};
use sh_parse::{ParseRefusal, parse};
use std::alloc::Global;
use std::process::Abort;
use std::test::Fail;

/// Where the bytes of a text have come to.
#[derive(Clone, Copy)]
enum At {
    Byte,
    Backslash,
    FirstDigit,
    SecondDigit(u8),
}

/// Expects of each row that `parse` answers what it says.
pub(super) fn expect_rows(rt: &impl Abort, alloc: Global, rows: &str) -> Result<(), Fail> {
    for row in rows.lines() {
        assert!(rt; is_answered(alloc, row)?, "{row}");
    }
    Ok(())
}

fn is_answered(alloc: Global, row: &str) -> Result<bool, Memory> {
    let (text, wanted) = row.split_once(" => ").unwrap_or((row, ""));
    let text = unescaped(alloc, text.as_bytes())?;
    let answer = answer(alloc, text.as_slice())?;
    Ok(answer.as_slice() == wanted.as_bytes())
}

/// What `parse` answers to a text, as a row writes it.
pub(super) fn answer(alloc: Global, text: &[u8]) -> Result<Vec<u8>, Memory> {
    match lex(alloc, text) {
        Ok(tokens) => match parse(alloc, text, tokens.as_slice()) {
            Ok(script) => shown(alloc, &script),
            Err(ParseRefusal::Refused(refusal)) => refusal_shown(alloc, &refusal),
            Err(ParseRefusal::Memory) => Err(Memory),
        },
        Err(LexRefusal::Refused(refusal)) => refusal_shown(alloc, &refusal),
        Err(LexRefusal::Memory) => Err(Memory),
    }
}

fn refusal_shown(alloc: Global, refusal: &Static) -> Result<Vec<u8>, Memory> {
    match refusal {
        Static::BadSyntax => Ok(Vec::from_slice(alloc, b"BadSyntax")?),
        Static::TooDeep(offset) => at_offset(alloc, b"TooDeep ", *offset),
        Static::SubstitutionMix(offset) => at_offset(alloc, b"SubstitutionMix ", *offset),
        Static::ParameterForm(offset) => at_offset(alloc, b"ParameterForm ", *offset),
        Static::UnclosedQuote(_)
        | Static::UnclosedBrace(_)
        | Static::OutOfProfile(..)
        | Static::ScriptTooLong => Ok(Vec::from_slice(alloc, b"a refusal of the tokens")?),
    }
}

fn at_offset(alloc: Global, name: &[u8], offset: u32) -> Result<Vec<u8>, Memory> {
    let mut out = Vec::from_slice(alloc, name)?;
    decimal(u64::from(offset), &mut out)?;
    Ok(out)
}

/// The bytes of a text.
fn unescaped(alloc: Global, text: &[u8]) -> Result<Vec<u8>, Memory> {
    let mut bytes = Vec::new(alloc);
    let mut at = At::Byte;
    for &byte in text {
        let (next, done) = after(at, byte);
        at = next;
        if let Some(byte) = done {
            bytes.push(byte)?;
        }
    }
    Ok(bytes)
}

/// Where a byte leads to, and the byte that it ends.
fn after(at: At, byte: u8) -> (At, Option<u8>) {
    match (at, byte) {
        (At::Byte, b'\\') => (At::Backslash, None),
        (At::Byte, byte) => (At::Byte, Some(byte)),
        (At::Backslash, b'n') => (At::Byte, Some(b'\n')),
        (At::Backslash, b't') => (At::Byte, Some(b'\t')),
        (At::Backslash, b'x') => (At::FirstDigit, None),
        (At::Backslash, b'e') => (At::Byte, None),
        (At::Backslash, byte) => (At::Byte, Some(byte)),
        (At::FirstDigit, digit) => (At::SecondDigit(digit_of(digit)), None),
        (At::SecondDigit(first), digit) => (At::Byte, Some((first << 4) | digit_of(digit))),
    }
}

fn digit_of(byte: u8) -> u8 {
    match byte {
        b'0'..=b'9' => byte - b'0',
        b'a'..=b'f' => byte - b'a' + 10,
        _ => 0,
    }
}
