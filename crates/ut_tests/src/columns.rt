//! Columns of rows.
//!
//! Items of a column have spaces between them. In an item `\n`, `\t`, `\\` and `\xNN` are bytes, and `\e` is nothing, so that an item may
//! be empty.
use ps_lines::Memory;
use std::alloc::Global;

/// Where the bytes of an item have come to.
#[derive(Clone, Copy)]
enum At {
    Byte,
    Backslash,
    FirstDigit,
    SecondDigit(u8),
}

/// The items of a column.
pub(super) fn items_of(alloc: Global, column: &[u8]) -> Result<Vec<Vec<u8>>, Memory> {
    let mut items = Vec::new(alloc);
    for item in column.split(|byte| *byte == b' ') {
        if !item.is_empty() {
            items.push(unescaped(alloc, item)?)?;
        }
    }
    Ok(items)
}

/// The bytes of an item.
pub(super) fn unescaped(alloc: Global, item: &[u8]) -> Result<Vec<u8>, Memory> {
    let mut bytes = Vec::new(alloc);
    let mut at = At::Byte;
    for &byte in item {
        let (next, done) = after(at, byte);
        at = next;
        if let Some(byte) = done {
            bytes.push(byte)?;
        }
    }
    Ok(bytes)
}

/// Where a byte leads to, and the byte that it ends.
fn after(at: At, byte: u8) -> (At, Option<u8>) {
    match (at, byte) {
        (At::Byte, b'\\') => (At::Backslash, None),
        (At::Byte, byte) => (At::Byte, Some(byte)),
        (At::Backslash, b'n') => (At::Byte, Some(b'\n')),
        (At::Backslash, b't') => (At::Byte, Some(b'\t')),
        (At::Backslash, b'x') => (At::FirstDigit, None),
        (At::Backslash, b'e') => (At::Byte, None),
        (At::Backslash, byte) => (At::Byte, Some(byte)),
        (At::FirstDigit, digit) => (At::SecondDigit(digit_of(digit)), None),
        (At::SecondDigit(first), digit) => (At::Byte, Some((first << 4) | digit_of(digit))),
    }
}

fn digit_of(byte: u8) -> u8 {
    match byte {
        b'0'..=b'9' => byte - b'0',
        b'a'..=b'f' => byte - b'a' + 10,
        _ => 0,
    }
}
