//! Rows of tables: an invocation of sort, and what it does.
//!
//! A row is a line of a table. It has columns with `|` between them, written as the module `columns` says. The first one has the words.
use crate::columns::{items_of, unescaped};
use crate::cuttings::gives;
use crate::invocations::invocation_of;
use ps_lines::{Memory, is_closed};
use std::alloc::Global;
use std::cmp::Ordering;
use ut_args::{Inv, SortInv};
use ut_sort::{Sorter, merge, order};

/// Whether two lines have the order that the row says: words, one line, another, `Less`, `Equal` or `Greater`.
pub(super) fn has_order(alloc: Global, row: &str) -> Result<bool, Memory> {
    match sort_in(alloc, row)? {
        Some(inv) => {
            let holds = compares(alloc, &inv, row);
            drop(inv);
            holds
        }
        None => Ok(false),
    }
}

fn compares(alloc: Global, inv: &SortInv, row: &str) -> Result<bool, Memory> {
    let columns = columns_of(alloc, row)?;
    Ok(match columns.as_slice() {
        [_, one, other, told] => {
            name_of(order(inv, one.as_slice(), other.as_slice())) == told.as_slice()
        }
        _ => false,
    })
}

fn name_of(order: Ordering) -> &'static [u8] {
    match order {
        Ordering::Less => b"Less",
        Ordering::Equal => b"Equal",
        Ordering::Greater => b"Greater",
    }
}

/// Whether a text is sorted as the row says, over some cuttings: words, the text, what is written.
pub(super) fn sorts(alloc: Global, row: &str) -> Result<bool, Memory> {
    match sort_in(alloc, row)? {
        Some(inv) => {
            let holds = writes_row(alloc, &inv, row);
            drop(inv);
            holds
        }
        None => Ok(false),
    }
}

fn writes_row(alloc: Global, inv: &SortInv, row: &str) -> Result<bool, Memory> {
    let columns = columns_of(alloc, row)?;
    match columns.as_slice() {
        [_, text, wanted] => writes(alloc, inv, text.as_slice(), wanted.as_slice()),
        _ => Ok(false),
    }
}

/// Whether two texts are sorted and merged as the row says: words, one text, another, each sorted, both merged.
pub(super) fn merges(alloc: Global, row: &str) -> Result<bool, Memory> {
    match sort_in(alloc, row)? {
        Some(inv) => {
            let holds = merges_row(alloc, &inv, row);
            drop(inv);
            holds
        }
        None => Ok(false),
    }
}

fn merges_row(alloc: Global, inv: &SortInv, row: &str) -> Result<bool, Memory> {
    let columns = columns_of(alloc, row)?;
    match columns.as_slice() {
        [_, texts @ .., wanted] => merges_as(alloc, inv, texts, wanted.as_slice()),
        _ => Ok(false),
    }
}

fn merges_as(
    alloc: Global,
    inv: &SortInv,
    texts: &[Vec<u8>],
    wanted: &[u8],
) -> Result<bool, Memory> {
    match texts {
        [one, other, left, right] => {
            let sorted = writes(alloc, inv, one.as_slice(), left.as_slice())?
                && writes(alloc, inv, other.as_slice(), right.as_slice())?;
            Ok(sorted && writes_merged(alloc, inv, left.as_slice(), right.as_slice(), wanted)?)
        }
        _ => Ok(false),
    }
}

fn writes_merged(
    alloc: Global,
    inv: &SortInv,
    left: &[u8],
    right: &[u8],
    wanted: &[u8],
) -> Result<bool, Memory> {
    if !is_closed(left) || !is_closed(right) {
        return Ok(false);
    }
    let mut out = Vec::new(alloc);
    merge(inv, left, right, &mut out)?;
    Ok(out.as_slice() == wanted)
}

fn writes(alloc: Global, inv: &SortInv, text: &[u8], wanted: &[u8]) -> Result<bool, Memory> {
    let mut same = writes_pieces(alloc, inv, text, wanted)?;
    for cuts in [0, 6148914691236517205, 18446744073709551615] {
        same &= writes_cut(alloc, inv, text, cuts, wanted)?;
    }
    Ok(same)
}

fn writes_cut(
    alloc: Global,
    inv: &SortInv,
    text: &[u8],
    cuts: u64,
    wanted: &[u8],
) -> Result<bool, Memory> {
    let mut sorter = Sorter::new(alloc, inv)?;
    let holds = gives(alloc, &mut sorter, text, cuts, wanted, false);
    drop(sorter);
    holds
}

/// Whether the sorted lines, written piece by piece, are what is wanted.
fn writes_pieces(alloc: Global, inv: &SortInv, text: &[u8], wanted: &[u8]) -> Result<bool, Memory> {
    let mut sorter = Sorter::new(alloc, inv)?;
    sorter.gather(text)?;
    let mut lines = sorter.sort()?;
    let mut out = Vec::new(alloc);
    for _ in 0..1000 {
        if lines.is_done() {
            break;
        }
        lines.put_piece(&mut out)?;
    }
    Ok(out.as_slice() == wanted)
}

/// The invocation of a row's words, if it is one of sort.
pub(super) fn sort_in(alloc: Global, row: &str) -> Result<Option<SortInv>, Memory> {
    match invocation_in(alloc, row)? {
        Some(Inv::Sort(inv)) => Ok(Some(inv)),
        other => {
            drop(other);
            Ok(None)
        }
    }
}

/// The invocation of a row's words, if there is one.
fn invocation_in(alloc: Global, row: &str) -> Result<Option<Inv>, Memory> {
    let words = items_of(
        alloc,
        row.as_bytes()
            .split(|byte| *byte == b'|')
            .next()
            .unwrap_or(&[]),
    )?;
    invocation_of(alloc, words.as_slice())
}

/// The bytes of each column.
fn columns_of(alloc: Global, row: &str) -> Result<Vec<Vec<u8>>, Memory> {
    let mut columns = Vec::new(alloc);
    for column in row.as_bytes().split(|byte| *byte == b'|') {
        columns.push(unescaped(alloc, column)?)?;
    }
    Ok(columns)
}
