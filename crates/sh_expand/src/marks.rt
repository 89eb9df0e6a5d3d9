//! Marked bytes: what a word's parts give, before it is cut into fields.

ghost use Rattle.std.specs.Prelude.{◌≡◌, ◌++◌, ◌∷◌, [], map, IfOk, OnOk, take, drop};
ghost use Rattle.sh_expand.specs.Marks.{bare, byte_of as byte_of_def, has_pattern as has_pattern_def, is_pattern, mark as mark_def, marked, or_empty, pattern_mark, pattern_of as pattern_of_def, value};

use ps_lines::Memory;
use sh_pattern::Mark;
use std::alloc::Global;

/// A byte of a word with its mark, or a mark that stands between bytes.
#[derive(Clone, Copy, Debug, PartialEq, Eq)]
pub(crate) enum Marked {
    /// A byte as it is written, outside quotes.
    Written(u8),
    /// A byte that is quoted: it is neither split nor part of a pattern.
    Quoted(u8),
    /// A byte that an expansion outside quotes gave: it may be split.
    Loose(u8),
    /// A quoted part without bytes, which makes a field nevertheless.
    EmptyPart,
    /// The end of a field, between two arguments of `$@` or `$*`.
    FieldEnd,
}

/// How a byte is marked.
#[derive(Clone, Copy, Debug, PartialEq, Eq)]
pub(crate) enum Manner {
    Written,
    Quoted,
    Loose,
}

/// The byte, marked so.
fn mark(manner: Manner, byte: u8) -> Marked
    ensures { result ≡ mark_def manner byte }
{
    match manner {
        Manner::Written => Marked::Written(byte),
        Manner::Quoted => Marked::Quoted(byte),
        Manner::Loose => Marked::Loose(byte),
    }
}

/// Appends the bytes, marked so.
pub(crate) fn add_bytes(out: &mut Vec<Marked>, manner: Manner, bytes: &[u8]) -> Result<(), Memory>
    ensures { OnOk result (out.new.items ≡ out.old.items ++ marked manner bytes.now) }
{
    let mut left = bytes;
    while let [byte, rest @ ..] = left {
        out.push(mark(manner, *byte))?;
        left = rest;
    }
    Ok(())
}

/// Appends the text that an expansion gave.
pub(crate) fn add_value(out: &mut Vec<Marked>, quoted: bool, text: &[u8]) -> Result<(), Memory>
    ensures { OnOk result (out.new.items ≡ out.old.items ++ value quoted text.now) }
{
    if !quoted {
        return add_bytes(out, Manner::Loose, text);
    }
    if text.is_empty() {
        return Ok(out.push(Marked::EmptyPart)?);
    }
    add_bytes(out, Manner::Quoted, text)
}

/// The byte, where the mark is one.
fn byte_of(mark: Marked) -> Option<u8>
    ensures { result ≡ byte_of_def mark }
{
    match mark {
        Marked::Written(byte) | Marked::Quoted(byte) | Marked::Loose(byte) => Some(byte),
        Marked::EmptyPart | Marked::FieldEnd => None,
    }
}

/// Removes the marks (XCU 2.6.7: quote removal).
pub(crate) fn bare(alloc: Global, marks: &[Marked]) -> Result<Vec<u8>, Memory>
    ensures { IfOk result (λ bytes. bytes.items ≡ bare marks.now) }
{
    let mut bytes = Vec::with_capacity(alloc, marks.len())?;
    let mut left = marks;
    while let [mark, rest @ ..] = left {
        if let Some(byte) = byte_of(*mark) {
            bytes.push(byte)?;
        }
        left = rest;
    }
    Ok(bytes)
}

/// The byte as patterns see it: quoted, or not.
fn pattern_mark(mark: Marked) -> Option<Mark>
    ensures { result ≡ pattern_mark mark }
{
    match mark {
        Marked::Written(byte) | Marked::Loose(byte) => Some(Mark {
            byte,
            quoted: false,
        }),
        Marked::Quoted(byte) => Some(Mark { byte, quoted: true }),
        Marked::EmptyPart | Marked::FieldEnd => None,
    }
}

/// The bytes as patterns see them.
pub(crate) fn pattern_of(alloc: Global, marks: &[Marked]) -> Result<Vec<Mark>, Memory>
    ensures { IfOk result (λ text. text.items ≡ pattern_of_def marks.now) }
{
    let mut text = Vec::with_capacity(alloc, marks.len())?;
    let mut left = marks;
    while let [mark, rest @ ..] = left {
        if let Some(mark) = pattern_mark(*mark) {
            text.push(mark)?;
        }
        left = rest;
    }
    Ok(text)
}

/// Whether an unquoted `*`, `?` or `[` is among them.
pub(crate) fn has_pattern(marks: &[Marked]) -> bool
    ensures { result ≡ has_pattern_def marks.now }
{
    marks.iter().any(|mark| is_pattern(*mark))
}

/// Whether the mark is an unquoted `*`, `?` or `[`.
pub(crate) fn is_pattern(mark: Marked) -> bool
    ensures { result ≡ is_pattern mark }
{
    match mark {
        Marked::Written(byte) | Marked::Loose(byte) => {
            byte == b'*' || byte == b'?' || byte == b'['
        }
        Marked::Quoted(_) | Marked::EmptyPart | Marked::FieldEnd => false,
    }
}
