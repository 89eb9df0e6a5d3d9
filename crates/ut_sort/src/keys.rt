//! The keys of lines, and how two are compared.
ghost use Rattle.std.specs.Prelude.{◌≡◌, ◌-◌, drop};
ghost use Rattle.ut_sort.specs.Keys.{bytes_cmp, counted_in as counted_in_def, end_in_field, end_with as end_with_def, end_with_if as end_with_if_def, folded, has_letters as has_letters_def, key_cmp, key_in as key_in_def, keys_cmp, letters_of as letters_of_def, texts_cmp, whole_line as whole_line_def, with_global as with_global_def};

use crate::numbers::compare_numbers;
use std::cmp::Ordering;
use ut_args::{Key, KeyEnd, Ordering as Letters};
use ut_fields::{behind_blanks, behind_fields, field_end, up_to};

/// The letters of a key: those at both its ends.
pub(crate) fn letters_of(key: &Key) -> Letters
    ensures { result ≡ letters_of_def key.now }
{
    let start = key.start.letters;
    match key.end {
        None => start,
        Some(end) => Letters {
            blanks: start.blanks || end.letters.blanks,
            fold: start.fold || end.letters.fold,
            numeric: start.numeric || end.letters.numeric,
            reverse: start.reverse || end.letters.reverse,
        },
    }
}

/// Whether there are letters.
fn has_letters(letters: Letters) -> bool
    ensures { result ≡ has_letters_def letters }
{
    letters.blanks || letters.fold || letters.numeric || letters.reverse
}

/// The key with the global letters where it has none.
pub(crate) fn with_global(global: Letters, key: &Key) -> Key
    ensures { result ≡ with_global_def global key.now }
{
    if has_letters(letters_of(key)) {
        *key
    } else {
        Key {
            start: end_with(global, key.start),
            end: end_with_if(global, key.end),
        }
    }
}

/// An end of a key with these letters.
fn end_with(letters: Letters, place: KeyEnd) -> KeyEnd
    ensures { result ≡ end_with_def letters place }
{
    KeyEnd {
        field: place.field,
        byte: place.byte,
        letters,
    }
}

/// The same, where a key has an end.
fn end_with_if(letters: Letters, place: Option<KeyEnd>) -> Option<KeyEnd>
    ensures { result ≡ end_with_if_def letters place }
{
    match place {
        None => None,
        Some(place) => Some(end_with(letters, place)),
    }
}

/// The key that a whole line is, with the blanks that it begins with.
pub(crate) fn whole_line(global: Letters) -> Key
    ensures { result ≡ whole_line_def global }
{
    Key {
        start: KeyEnd {
            field: 1,
            byte: 1,
            letters: Letters {
                blanks: false,
                fold: global.fold,
                numeric: global.numeric,
                reverse: global.reverse,
            },
        },
        end: None,
    }
}

/// Where one end of a key counts its bytes from, in its field.
fn counted_in<'t>(place: &KeyEnd, field: &'t [u8]) -> &'t [u8]
    ensures { result.now ≡ counted_in_def place.now field.now }
{
    if place.letters.blanks {
        behind_blanks(field)
    } else {
        field
    }
}

/// Behind so many bytes, and at most at the text's end.
pub(crate) fn behind_bytes(count: u64, text: &[u8]) -> &[u8]
    ensures { result.now ≡ drop count text.now }
{
    if count < text.len() as u64 {
        &text[count as usize..]
    } else {
        &[]
    }
}

/// Where a key begins, in its field.
fn start_in<'t>(start: &KeyEnd, field: &'t [u8]) -> &'t [u8]
    ensures { result.now ≡ drop (start.now.byte - 1) (counted_in_def start.now field.now) }
{
    behind_bytes(start.byte.saturating_sub(1), counted_in(start, field))
}

/// Where a key ends, in the field that its end counts from.
fn end_in<'t>(separator: Option<u8>, end: &KeyEnd, field: &'t [u8]) -> &'t [u8]
    ensures { result.now ≡ end_in_field separator end.now field.now }
{
    if end.byte == 0 {
        field_end(separator, field)
    } else {
        behind_bytes(end.byte, counted_in(end, field))
    }
}

/// The bytes of a key in a line; none where its first field isn't there. A field that both ends count from is sought once.
pub(crate) fn key_in<'t>(separator: Option<u8>, key: &Key, line: &'t [u8]) -> &'t [u8]
    ensures { result.now ≡ key_in_def separator key.now line.now }
{
    let field = behind_fields(separator, key.start.field.saturating_sub(1), line);
    let start = start_in(&key.start, field);
    match &key.end {
        None => start,
        Some(end) => {
            if end.field == key.start.field {
                up_to(start, end_in(separator, end, field))
            } else {
                up_to(
                    start,
                    end_in(
                        separator,
                        end,
                        behind_fields(separator, end.field.saturating_sub(1), line),
                    ),
                )
            }
        }
    }
}

/// The order of two texts by letters, but for `r`.
fn compare_texts(letters: Letters, one: &[u8], other: &[u8]) -> Ordering
    ensures { result ≡ texts_cmp letters one.now other.now }
{
    if letters.numeric {
        return compare_numbers(one, other);
    }
    if letters.fold {
        return compare_folded(one, other);
    }
    one.cmp(other)
}

/// The order of two texts with their lower case letters as upper case.
fn compare_folded(one: &[u8], other: &[u8]) -> Ordering
    ensures { result ≡ bytes_cmp (folded one.now) (folded other.now) }
{
    let mut one = one;
    let mut other = other;
    while let [first, one_rest @ ..] = one {
        let [second, other_rest @ ..] = other else {
            return Ordering::Greater;
        };
        match first.to_ascii_uppercase().cmp(&second.to_ascii_uppercase()) {
            Ordering::Equal => {
                one = one_rest;
                other = other_rest;
            }
            decided => return decided,
        }
    }
    if other.is_empty() {
        Ordering::Equal
    } else {
        Ordering::Less
    }
}

/// The order of two lines by one key.
pub(crate) fn compare_key(separator: Option<u8>, key: &Key, one: &[u8], other: &[u8]) -> Ordering
    ensures { result ≡ key_cmp separator key.now one.now other.now }
{
    let letters = letters_of(key);
    let one = key_in(separator, key, one);
    let other = key_in(separator, key, other);
    if letters.reverse {
        compare_texts(letters, other, one)
    } else {
        compare_texts(letters, one, other)
    }
}

/// The order of two lines by the first key that tells them apart.
pub(crate) fn compare_keys(
    separator: Option<u8>,
    keys: &[Key],
    one: &[u8],
    other: &[u8],
) -> Ordering
    ensures { result ≡ keys_cmp separator keys.now one.now other.now }
{
    let mut left = keys;
    while let [key, rest @ ..] = left {
        match compare_key(separator, key, one, other) {
            Ordering::Equal => left = rest,
            decided => return decided,
        }
    }
    Ordering::Equal
}
