//! Rows of tables: words, and what is read of them.
//!
//! A row is a line of a table. It has columns with `|` between them: the words; `ok` or the fault with its details; the options that
//! hold; the operands; how many inputs there are. The module `columns` says how a column is written.
use super::shown::{operands_of, options_of};
use crate::columns::items_of;
use crate::invocations::invocation_of;
use ps_lines::{Memory, decimal};
use std::alloc::Global;
use ut_args::{ArgFault, Class, Inv, Seam, class, keeps_closed, read_inv};

/// The columns of a row behind its words.
#[derive(Drop)]
struct Told {
    /// `ok`, or the fault with its details.
    outcome: Items,
    options: Items,
    operands: Items,
    inputs: Items,
}

/// Items of a column.
type Items = Vec<Vec<u8>>;

/// A column of a row, from 0.
fn column(alloc: Global, row: &str, place: usize) -> Result<Items, Memory> {
    let mut columns = row.as_bytes().split(|byte| *byte == b'|').skip(place);
    items_of(alloc, columns.next().unwrap_or(&[]))
}

fn told_in(alloc: Global, row: &str) -> Result<Told, Memory> {
    let outcome = column(alloc, row, 1)?;
    let options = column(alloc, row, 2)?;
    let operands = column(alloc, row, 3)?;
    let inputs = column(alloc, row, 4)?;
    Ok(Told {
        outcome,
        options,
        operands,
        inputs,
    })
}

/// Whether the words of a row are read as it says.
pub(super) fn is_read(alloc: Global, row: &str) -> Result<bool, Memory> {
    let words = column(alloc, row, 0)?;
    let told = told_in(alloc, row)?;
    is_as_told(alloc, words.as_slice(), &told)
}

fn is_as_told(alloc: Global, words: &[Vec<u8>], told: &Told) -> Result<bool, Memory> {
    if words.is_empty() {
        return Ok(false);
    }
    match read_inv(alloc, words) {
        Ok(inv) => {
            let holds = has_all(alloc, &inv, words, told);
            // An invocation is let go by a call: going out of scope is proved a command at a time.
            drop(inv);
            holds
        }
        Err(fault) => {
            let holds = is_fault(alloc, &fault, told.outcome.as_slice());
            drop(fault);
            holds
        }
    }
}

/// Whether the invocation has the options, the operands and the number of inputs.
fn has_all(alloc: Global, inv: &Inv, words: &[Vec<u8>], told: &Told) -> Result<bool, Memory> {
    let options = has_options(alloc, inv, told.options.as_slice())?;
    let inputs = has_inputs(alloc, inv, told.inputs.as_slice())?;
    let copied = is_copied(inv, words)?;
    let operands = told.operands.as_slice() == operands_of(inv);
    Ok(is_ok(told.outcome.as_slice()) && options && inputs && copied && operands)
}

fn has_options(alloc: Global, inv: &Inv, wanted: &[Vec<u8>]) -> Result<bool, Memory> {
    let options = options_of(alloc, inv)?;
    Ok(options.as_slice() == wanted)
}

fn has_inputs(alloc: Global, inv: &Inv, wanted: &[Vec<u8>]) -> Result<bool, Memory> {
    let inputs = inputs_of(alloc, inv)?;
    Ok(inputs.as_slice() == wanted)
}

fn is_ok(outcome: &[Vec<u8>]) -> bool {
    match outcome {
        [only] => only.as_slice() == b"ok".as_slice(),
        _ => false,
    }
}

/// Whether a copy is the same, and has the words.
fn is_copied(inv: &Inv, words: &[Vec<u8>]) -> Result<bool, Memory> {
    let copy = inv.copy()?;
    let holds = copy.is(inv) && copy.words() == words;
    drop(copy);
    Ok(holds)
}

/// Whether an invocation without the operands that a row marks has the words, the operands and the number of inputs that it says.
pub(super) fn is_without(alloc: Global, row: &str) -> Result<bool, Memory> {
    let words = column(alloc, row, 0)?;
    match invocation_of(alloc, words.as_slice())? {
        Some(inv) => {
            let holds = lacks(alloc, &inv, row);
            drop(inv);
            holds
        }
        None => Ok(false),
    }
}

fn lacks(alloc: Global, inv: &Inv, row: &str) -> Result<bool, Memory> {
    let mut columns = row.as_bytes().split(|byte| *byte == b'|').skip(1);
    let lacking = flags_of(alloc, columns.next().unwrap_or(&[]))?;
    let without = inv.without(alloc, lacking.as_slice())?;
    let holds = is_left(alloc, &without, row);
    drop(without);
    holds
}

fn is_left(alloc: Global, without: &Inv, row: &str) -> Result<bool, Memory> {
    let words = has_items(alloc, row, 2, without.words())?;
    let operands = has_items(alloc, row, 3, operands_of(without))?;
    let inputs = column(alloc, row, 4)?;
    Ok(words && operands && has_inputs(alloc, without, inputs.as_slice())?)
}

/// Whether a column of a row, from 0, has these items.
fn has_items(alloc: Global, row: &str, place: usize, items: &[Vec<u8>]) -> Result<bool, Memory> {
    let wanted = column(alloc, row, place)?;
    Ok(wanted.as_slice() == items)
}

/// The flags of a column: `1` is one that is set.
fn flags_of(alloc: Global, column: &[u8]) -> Result<Vec<bool>, Memory> {
    let mut flags = Vec::new(alloc);
    for &byte in column {
        if byte != b' ' {
            flags.push(byte == b'1')?;
        }
    }
    Ok(flags)
}

/// Whether the words of a row have the class that it says, and keep texts closed where it says so.
pub(super) fn has_class(alloc: Global, row: &str) -> Result<bool, Memory> {
    let words = column(alloc, row, 0)?;
    match invocation_of(alloc, words.as_slice())? {
        Some(inv) => {
            let class = name_of(class(&inv));
            let keeps: &[u8] = if keeps_closed(&inv) { b"yes" } else { b"no" };
            drop(inv);
            is_classed(alloc, row, class, keeps)
        }
        None => Ok(false),
    }
}

fn is_classed(alloc: Global, row: &str, class: &[u8], keeps: &[u8]) -> Result<bool, Memory> {
    let of = is_item(alloc, row, 1, class)?;
    let kept = is_item(alloc, row, 2, keeps)?;
    Ok(of && kept)
}

/// Whether a column of a row, from 0, is this item.
fn is_item(alloc: Global, row: &str, place: usize, item: &[u8]) -> Result<bool, Memory> {
    let items = told_of(alloc, item, b"")?;
    has_items(alloc, row, place, items.as_slice())
}

fn name_of(class: Class) -> &'static [u8] {
    match class {
        Class::S(Seam::Bytes) => b"S(Bytes)",
        Class::S(Seam::Lines) => b"S(Lines)",
        Class::P => b"P",
        Class::N => b"N",
        Class::E => b"E",
    }
}

/// How many inputs there are, as an item.
fn inputs_of(alloc: Global, inv: &Inv) -> Result<Vec<Vec<u8>>, Memory> {
    let mut digits = Vec::new(alloc);
    decimal(u64::from(inv.inputs()), &mut digits)?;
    let mut items = Vec::new(alloc);
    items.push(digits)?;
    Ok(items)
}

/// Whether the fault with its details is told so.
fn is_fault(alloc: Global, fault: &ArgFault, wanted: &[Vec<u8>]) -> Result<bool, Memory> {
    let told = fault_of(alloc, fault)?;
    Ok(told.as_slice() == wanted)
}

/// A fault with its details.
fn fault_of(alloc: Global, fault: &ArgFault) -> Result<Vec<Vec<u8>>, Memory> {
    match fault {
        ArgFault::UnknownCommand(name) => told_two(alloc, b"UnknownCommand", name.as_slice(), None),
        ArgFault::UnsupportedFlag(name, letter) => {
            told_two(alloc, b"UnsupportedFlag", name.as_slice(), Some(*letter))
        }
        ArgFault::BadUsage(name) => told_two(alloc, b"BadUsage", name.as_slice(), None),
        ArgFault::Memory => Err(Memory),
    }
}

fn told_two(
    alloc: Global,
    kind: &[u8],
    name: &[u8],
    letter: Option<u8>,
) -> Result<Vec<Vec<u8>>, Memory> {
    let mut items = Vec::new(alloc);
    items.push(Vec::from_slice(alloc, kind)?)?;
    items.push(Vec::from_slice(alloc, name)?)?;
    if let Some(letter) = letter {
        items.push(Vec::from_slice(alloc, &[letter])?)?;
    }
    Ok(items)
}

/// One item, of a front and its rest.
fn told_of(alloc: Global, front: &[u8], rest: &[u8]) -> Result<Vec<Vec<u8>>, Memory> {
    let mut item = Vec::from_slice(alloc, front)?;
    item.extend_from_slice(rest)?;
    let mut items = Vec::new(alloc);
    items.push(item)?;
    Ok(items)
}
