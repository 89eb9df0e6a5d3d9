//! The bytes that strings stand for.
ghost use Rattle.std.specs.Prelude.{◌≡◌, ◌∷◌, ◌++◌, ◌≤◌, [], if◌then◌else◌, replicate, true, false, Some, None, IfOk, OnOk};
ghost use Rattle.ut_strings.specs.Strings.{add_bytes as add_bytes_def, added, all_added, filled as filled_def, first_of, is_other as is_other_def, item_has as item_has_def, no_sides, passing, second_of, sides_of as sides_of_def};

use crate::items::{Item, item_at};
use crate::marked::{Marked, marked_of};
use ps_lines::{Memory, Text};
use std::alloc::Global;
use std::marker::Model;

/// The most bytes of a string (own).
const MOST_BYTES: usize = 65_536;

/// What a string stands for, before and behind the place that is filled.
#[derive(Debug, Drop)]
struct Expansion {
    front: Vec<u8>,
    fill: Option<u8>,
    back: Vec<u8>,
}

impl Model for Expansion {
    ghost use Rattle.ut_strings.specs.Sides.{Sides};

    ghost Value = { Sides };

    ghost view = { λ sides. record { front = sides.front.items; fill = sides.fill; back = sides.back.items } };
}

/// The bytes of the first string of tr, or their complement, ascending; None where the string has a fault.
pub fn expand_first(alloc: Global, text: &[u8], complements: bool) -> Result<Option<Text>, Memory>
    ensures { IfOk result (λ bytes. bytes ≡ first_of complements text.now) }
{
    let Some(expansion) = sides_of(alloc, false, text)? else {
        return Ok(None);
    };
    let Expansion { front, .. } = expansion;
    if !complements {
        return Ok(Some(Text::from_vec(front)));
    }
    let mut others = Vec::new(alloc);
    push_others(&mut others, front.as_slice(), 256)?;
    Ok(Some(Text::from_vec(others)))
}

/// The bytes of the second string of tr, filled to so many; None where the string has a fault, and where there is no byte.
pub fn expand_second(alloc: Global, text: &[u8], wanted: usize) -> Result<Option<Text>, Memory>
    ensures { IfOk result (λ bytes. bytes ≡ second_of text.now wanted) }
{
    let Some(expansion) = sides_of(alloc, true, text)? else {
        return Ok(None);
    };
    let bytes = filled(expansion, wanted)?;
    if bytes.is_empty() {
        return Ok(None);
    }
    Ok(Some(Text::from_vec(bytes)))
}

/// The bytes of an expansion, filled to so many.
fn filled(expansion: Expansion, wanted: usize) -> Result<Vec<u8>, Memory>
    ensures { IfOk result (λ bytes. bytes.items ≡ filled_def expansion.fill expansion.front expansion.back wanted) }
{
    let Expansion {
        front: mut bytes,
        fill,
        back,
    } = expansion;
    let Some(byte) = fill else {
        return Ok(bytes);
    };
    let rest = wanted
        .saturating_sub(bytes.len())
        .saturating_sub(back.len());
    push_times(&mut bytes, byte, rest)?;
    bytes.extend_from_slice(back.as_slice())?;
    Ok(bytes)
}

/// The items of a string; None where it has a fault.
fn sides_of(alloc: Global, second: bool, text: &[u8]) -> Result<Option<Expansion>, Memory>
    ensures { IfOk result (λ sides. sides ≡ sides_of_def second text.now) }
{
    match marked_of(alloc, text)? {
        Some(marked) => add_all(alloc, second, marked.as_slice()),
        None => Ok(None),
    }
}

/// All items of marked bytes; None where there are too many bytes, at a second filling, and at a fault.
fn add_all(alloc: Global, second: bool, marked: &[Marked]) -> Result<Option<Expansion>, Memory>
    ensures { IfOk result (λ sides. sides ≡ all_added second 0 no_sides marked.now) }
{
    let mut sides = Expansion {
        front: Vec::new(alloc),
        fill: None,
        back: Vec::new(alloc),
    };
    let mut skipped = 0;
    let mut left = marked;
    while let [one, rest @ ..] = left {
        if skipped > 0 {
            skipped -= 1;
        } else {
            let piece = item_at(alloc, second, *one, rest)?;
            if !add(alloc, &mut sides, piece.item)? {
                return Ok(None);
            }
            skipped = piece.extra;
        }
        left = rest;
    }
    Ok(Some(sides))
}

/// Adds an item; false where there are too many bytes, at a second filling, and at a fault.
fn add(alloc: Global, sides: &mut Expansion, item: Item) -> Result<bool, Memory>
    ensures fits { IfOk result (λ fits. fits ≡ true → added sides.old item ≡ Some sides.new) }
    ensures none { IfOk result (λ fits. fits ≡ false → added sides.old item ≡ None) }
{
    match item {
        Item::Fault => Ok(false),
        Item::Fill(byte) => {
            if sides.fill.is_some() {
                return Ok(false);
            }
            sides.fill = Some(byte);
            sides.back.clear();
            Ok(true)
        }
        Item::Byte(byte) => add_bytes(sides, &[byte]),
        Item::Repeat(byte, count) => {
            let mut bytes = Vec::new(alloc);
            push_times(&mut bytes, byte, count as usize)?;
            add_bytes(sides, bytes.as_slice())
        }
        Item::Range(..) | Item::Class(_) => {
            let mut bytes = Vec::new(alloc);
            push_members(&mut bytes, item, 256)?;
            add_bytes(sides, bytes.as_slice())
        }
    }
}

/// Adds bytes where the filling leaves off, if there is one; false where there are too many then.
fn add_bytes(sides: &mut Expansion, bytes: &[u8]) -> Result<bool, Memory>
    ensures fits { IfOk result (λ fits. fits ≡ true → add_bytes_def sides.old bytes.now ≡ Some sides.new) }
    ensures none { IfOk result (λ fits. fits ≡ false → add_bytes_def sides.old bytes.now ≡ None) }
{
    match sides.fill {
        None => sides.front.extend_from_slice(bytes)?,
        Some(_) => sides.back.extend_from_slice(bytes)?,
    }
    Ok(sides.front.len() + sides.back.len() <= MOST_BYTES)
}

/// Appends a byte so many times.
fn push_times(bytes: &mut Vec<u8>, byte: u8, count: usize) -> Result<(), Memory>
    ensures { OnOk result (bytes.new.items ≡ bytes.old.items ++ replicate count byte) }
{
    for number in 0..count {
        bytes.push(byte)?;
    }
    Ok(())
}

/// Appends the numbers below one that a range or a class has.
fn push_members(bytes: &mut Vec<u8>, item: Item, below: u32) -> Result<(), Memory>
    requires { below ≤ 256 }
    ensures { OnOk result (bytes.new.items ≡ bytes.old.items ++ passing (item_has_def item) below) }
{
    for number in 0..below {
        let byte = number as u8;
        push_if(bytes, item_has(item, byte), byte)?;
    }
    Ok(())
}

/// Appends a byte where it is wanted.
fn push_if(bytes: &mut Vec<u8>, wanted: bool, byte: u8) -> Result<(), Memory>
    ensures { OnOk result (bytes.new.items ≡ bytes.old.items ++ (if wanted then byte ∷ [] else [])) }
{
    if wanted {
        bytes.push(byte)?;
    }
    Ok(())
}

/// Whether a range or a class has the byte.
fn item_has(item: Item, byte: u8) -> bool
    ensures { result ≡ item_has_def item byte }
{
    match item {
        Item::Range(from, to) => from <= byte && byte <= to,
        Item::Class(class) => class.has(byte),
        Item::Byte(_) | Item::Repeat(..) | Item::Fill(_) | Item::Fault => false,
    }
}

/// Appends the numbers below one that aren't among these.
fn push_others(others: &mut Vec<u8>, bytes: &[u8], below: u32) -> Result<(), Memory>
    requires { below ≤ 256 }
    ensures { OnOk result (others.new.items ≡ others.old.items ++ passing (is_other_def bytes.now) below) }
{
    for number in 0..below {
        let byte = number as u8;
        push_if(others, is_other(bytes, byte), byte)?;
    }
    Ok(())
}

/// Whether the byte isn't among these.
fn is_other(bytes: &[u8], byte: u8) -> bool
    ensures { result ≡ is_other_def bytes.now byte }
{
    !bytes.contains(&byte)
}
