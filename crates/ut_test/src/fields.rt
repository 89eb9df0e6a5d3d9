//! The fields that `read` gives to its names (XCU read, 2.6.5).

ghost use Rattle.std.specs.Prelude.{◌≡◌, ◌≤◌, ◌++◌, ◌∷◌, [], ℕ, length, IfOk, OnOk};
ghost use Rattle.ps_lines.specs.ByteSet.{has_byte};
ghost use Rattle.ps_lines.specs.Texts.{texts_of};
ghost use Rattle.ut_test.specs.Fields.{before_white, field_of, fields_by as fields_by_def, fields_read, from_end, is_in, is_white as is_white_def, past_ender, past_white};

use ps_lines::{ByteSet, Memory, is_white_space};
use std::alloc::Global;

/// The fields that `read` gives to so many names: exactly that many texts.
///
/// Spaces, tabs and newlines that are in IFS separate fields and are dropped at the ends of the line; each other byte of IFS ends a field,
/// with the white space beside it. The last name gets what is left, without white space of IFS at its end, and names that are left over
/// get the empty text. No byte quotes another, as with `-r`.
pub fn read_fields(
    alloc: Global,
    line: &[u8],
    ifs: &[u8],
    names: u32,
) -> Result<Vec<Vec<u8>>, Memory>
    requires { 1 ≤ names }
    ensures { IfOk result (λ fields. texts_of fields.items ≡ fields_read ifs.now line.now names) }
{
    fields_by(alloc, line, &set_of(ifs), names)
}

/// The set of these bytes.
fn set_of(ifs: &[u8]) -> ByteSet
    ensures { (byte : ℕ) → has_byte result byte ≡ is_in ifs.now byte }
{
    let mut set = ByteSet::empty();
    let mut left = ifs;
    while let Some((byte, rest)) = left.split_first() {
        set.add(*byte);
        left = rest;
    }
    set
}

/// The fields for so many names, where the set has the bytes of IFS.
fn fields_by(
    alloc: Global,
    line: &[u8],
    separators: &ByteSet,
    names: u32,
) -> Result<Vec<Vec<u8>>, Memory>
    requires { 1 ≤ names }
    ensures { IfOk result (λ fields. texts_of fields.items ≡ fields_by_def (has_byte separators.now) line.now names) }
{
    let mut fields = Vec::with_capacity(alloc, names as usize)?;
    let mut left = past_white(line, separators);
    let mut more = names - 1;
    while more > 0 {
        let (field, rest) = cut_field(left, separators);
        push_field(alloc, &mut fields, field)?;
        left = next_field(rest, separators);
        more -= 1;
    }
    push_field(alloc, &mut fields, before_white(left, separators))?;
    Ok(fields)
}

/// Appends a copy of the field.
fn push_field(alloc: Global, fields: &mut Vec<Vec<u8>>, field: &[u8]) -> Result<(), Memory>
    ensures { OnOk result (texts_of fields.new.items ≡ texts_of fields.old.items ++ field.now ∷ []) }
{
    fields.push(Vec::from_slice(alloc, field)?)?;
    Ok(())
}

/// The field that the text begins with, and the text from its end on.
fn cut_field<'a>(text: &'a [u8], separators: &ByteSet) -> (&'a [u8], &'a [u8])
    ensures field { result.0.now ≡ field_of (has_byte separators.now) text.now }
    ensures rest { result.1.now ≡ from_end (has_byte separators.now) text.now }
{
    let rest = from_end(text, separators);
    (&text[..text.len() - rest.len()], rest)
}

/// The text from the first byte of IFS on.
fn from_end<'a>(text: &'a [u8], separators: &ByteSet) -> &'a [u8]
    ensures rest { result.now ≡ from_end (has_byte separators.now) text.now }
    ensures within { length result.now ≤ length text.now }
{
    let mut left = text;
    while let Some((byte, rest)) = left.split_first() {
        if separators.has(*byte) {
            return left;
        }
        left = rest;
    }
    left
}

/// Where the next field begins, in the text from the end of a field on.
fn next_field<'a>(rest: &'a [u8], separators: &ByteSet) -> &'a [u8]
    ensures { result.now ≡ past_ender (has_byte separators.now) (past_white (has_byte separators.now) rest.now) }
{
    let left = past_white(rest, separators);
    match left.split_first() {
        Some((byte, behind)) if separators.has(*byte) => past_white(behind, separators),
        _ => left,
    }
}

/// The text without the white space of IFS at its beginning.
fn past_white<'a>(text: &'a [u8], separators: &ByteSet) -> &'a [u8]
    ensures { result.now ≡ past_white (has_byte separators.now) text.now }
{
    let mut left = text;
    while let Some((byte, rest)) = left.split_first() {
        if !is_white(*byte, separators) {
            return left;
        }
        left = rest;
    }
    left
}

/// The text without the white space of IFS at its end.
#[tactic(auto, using(crate::proofs::FieldLemmas::white_steps))]
fn before_white<'a>(text: &'a [u8], separators: &ByteSet) -> &'a [u8]
    ensures { result.now ≡ before_white (has_byte separators.now) text.now }
{
    let mut left = text;
    while let Some((byte, front)) = left.split_last() {
        if !is_white(*byte, separators) {
            return left;
        }
        left = front;
    }
    left
}

/// Whether the byte is white space of IFS.
fn is_white(byte: u8, separators: &ByteSet) -> bool
    ensures { result ≡ is_white_def (has_byte separators.now) byte }
{
    separators.has(byte) && is_white_space(byte)
}
