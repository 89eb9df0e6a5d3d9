//! Field splitting (XCU 2.6.5).

ghost use Rattle.std.specs.Prelude.{◌≡◌, ◌<◌, ◌++◌, ◌∷◌, [], List, IfOk, IfSome, OnOk, MatchOption, length, ◌==◌};
ghost use Rattle.std.specs.List.{list_any};
ghost use Rattle.sh_expand.specs.Marks.{has_pattern};
ghost use Rattle.sh_expand.specs.Splitting.{AreUpTo, keeps_pattern, class_of, class_of_byte, act_at as act_def, after as after_def, split as split_def, fields_of, spliced, at_mark, at_end, held, IsHeld};
ghost use Rattle.sh_expand.specs.declared.marks.Marked.{Marked};

use crate::marks::{Marked, is_pattern};
use ps_lines::{Memory, is_white_space};
use std::alloc::Global;
use std::mem;

/// What a mark is to field splitting.
#[derive(Clone, Copy, Debug, PartialEq, Eq)]
pub(crate) enum Class {
    /// It stays in its field.
    Content,
    /// IFS white space that an expansion gave.
    White,
    /// Another byte of IFS that an expansion gave.
    Ender,
    /// The end of an argument of `$@` or `$*`.
    ArgumentEnd,
}

/// What stands before a mark.
#[derive(Clone, Copy, Debug, PartialEq, Eq)]
pub(crate) enum Before {
    /// The beginning, or the end of a field.
    Start,
    /// A field.
    Field,
    /// White space that ended a field.
    White,
}

/// What is done at a mark.
#[derive(Clone, Copy, Debug, PartialEq, Eq)]
pub(crate) enum Act {
    /// It becomes part of the field.
    Keep,
    /// It is dropped.
    Skip,
    /// It ends the field, which may be empty.
    End,
}

/// Whether an unquoted pattern byte is left in a field of the marks.
pub(crate) fn is_pattern_left(marks: &[Marked], ifs: &[u8]) -> bool
    ensures { result ≡ list_any has_pattern (split_def ifs.now marks.now) }
{
    let mut before = Before::Start;
    let mut left = marks;
    while let Some((mark, rest)) = front(left) {
        let class = class_of(mark, ifs);
        if keeps_pattern(act_at(class, before), mark) {
            return true;
        }
        before = after(class, before);
        left = rest;
    }
    false
}

/// Whether the mark stays in its field, and is an unquoted pattern byte.
fn keeps_pattern(act: Act, mark: Marked) -> bool
    ensures { result ≡ keeps_pattern act mark }
{
    match act {
        Act::Keep => is_pattern(mark),
        Act::Skip | Act::End => false,
    }
}

/// Cuts marked bytes into fields, by the bytes of IFS. Where there are more than `most`, it makes only the first of them.
pub(crate) fn split(
    alloc: Global,
    marks: &[Marked],
    ifs: &[u8],
    most: usize,
) -> Result<Vec<Vec<Marked>>, Memory>
    ensures { IfOk result (λ fields. AreUpTo most (split_def ifs.now marks.now) (fields_of fields.items)) }
{
    let mut fields = Vec::new(alloc);
    let mut field = Vec::new(alloc);
    let mut before = Before::Start;
    let mut left = marks;
    while let Some((mark, rest)) = front(left) {
        let class = class_of(mark, ifs);
        put_mark(alloc, act_at(class, before), mark, &mut fields, &mut field)?;
        if fields.len() > most {
            return Ok(fields);
        }
        before = after(class, before);
        left = rest;
    }
    end_fields(fields, field, before)
}

/// The first mark, and those behind it.
fn front(marks: &[Marked]) -> Option<(Marked, &[Marked])>
    ensures first { MatchOption result (marks.now ≡ []) (λ r. marks.now ≡ r.0 ∷ r.1.now) }
    ensures shorter { IfSome result (λ r. length r.1.now < length marks.now) }
{
    match marks {
        [] => None,
        [first, rest @ ..] => Some((*first, rest)),
    }
}

/// Does this with the mark, in the field that has begun.
#[tactic(auto, using(crate::proofs::SplitLemmas::puts))]
fn put_mark(
    alloc: Global,
    act: Act,
    mark: Marked,
    fields: &mut Vec<Vec<Marked>>,
    field: &mut Vec<Marked>,
) -> Result<(), Memory>
    ensures fields { OnOk result ((more : List (List Marked)) → fields_of fields.new.items ++ spliced field.new.items more
        ≡ fields_of fields.old.items ++ spliced field.old.items (at_mark act mark more)) }
    ensures field { OnOk result (field.new.items ≡ held act mark field.old.items) }
{
    match act {
        Act::Keep => Ok(field.push(mark)?),
        Act::Skip => Ok(()),
        Act::End => {
            let ended = mem::replace(field, Vec::new(alloc));
            push_field(fields, ended)
        }
    }
}

/// Appends a field.
#[tactic(auto, using(crate::proofs::SplitLemmas::puts))]
fn push_field(fields: &mut Vec<Vec<Marked>>, field: Vec<Marked>) -> Result<(), Memory>
    ensures { OnOk result (fields_of fields.new.items ≡ fields_of fields.old.items ++ field.items ∷ []) }
{
    Ok(fields.push(field)?)
}

/// Ends the field that has begun, where one has.
#[tactic(auto, using(crate::proofs::SplitLemmas::puts))]
fn end_fields(
    mut fields: Vec<Vec<Marked>>,
    field: Vec<Marked>,
    before: Before,
) -> Result<Vec<Vec<Marked>>, Memory>
    requires { IsHeld before field.items }
    ensures { IfOk result (λ all. fields_of all.items ≡ fields_of fields.items ++ spliced field.items (at_end before)) }
{
    match before {
        Before::Field => {
            push_field(&mut fields, field)?;
            Ok(fields)
        }
        Before::Start | Before::White => Ok(fields),
    }
}

/// What the mark is to field splitting.
fn class_of(mark: Marked, ifs: &[u8]) -> Class
    ensures { result ≡ class_of ifs.now mark }
{
    match mark {
        Marked::Loose(byte) => class_of_byte(byte, ifs),
        Marked::FieldEnd => Class::ArgumentEnd,
        Marked::Written(_) | Marked::Quoted(_) | Marked::EmptyPart => Class::Content,
    }
}

/// What a byte is that an expansion outside quotes gave.
fn class_of_byte(byte: u8, ifs: &[u8]) -> Class
    ensures { result ≡ class_of_byte ifs.now byte }
{
    if !is_among(byte, ifs) {
        return Class::Content;
    }
    if is_white_space(byte) {
        Class::White
    } else {
        Class::Ender
    }
}

fn is_among(byte: u8, bytes: &[u8]) -> bool
    ensures { result ≡ list_any (λ one. one == byte) bytes.now }
{
    bytes.iter().any(|one| *one == byte)
}

/// What is done at a mark, by what stands before it.
fn act_at(class: Class, before: Before) -> Act
    ensures { result ≡ act_def class before }
{
    match (class, before) {
        (Class::Content, _) => Act::Keep,
        (Class::White | Class::ArgumentEnd, Before::Field) => Act::End,
        (Class::White | Class::ArgumentEnd, Before::Start | Before::White) => Act::Skip,
        (Class::Ender, Before::Start | Before::Field) => Act::End,
        (Class::Ender, Before::White) => Act::Skip,
    }
}

/// What stands before the next mark.
fn after(class: Class, before: Before) -> Before
    ensures { result ≡ after_def class before }
{
    match (class, before) {
        (Class::Content, _) => Before::Field,
        (Class::White, Before::Start) => Before::Start,
        (Class::White, Before::Field | Before::White) => Before::White,
        (Class::Ender | Class::ArgumentEnd, _) => Before::Start,
    }
}
