//! Lines of texts, closing, numbers, comparison, and classes of bytes.
ghost use Rattle.std.specs.Prelude.{◌<◌};

use memchr::memchr;
use ps_lines::{
    ByteSet, Class, Memory, NEWLINE, Text, closing, cut_line, decimal, is_closed, is_name_byte,
    is_name_start, is_white_space, lines, next_line, read_decimal,
};
use std::alloc::Global;
use std::test::Fail;

/// Texts, their lines with a newline behind each, how many lines there are, and whether the text is closed.
static TEXTS: [(&[u8], &[u8], usize, bool); 7] = [
    (b"", b"", 0, true),
    (b"\n", b"\n", 1, true),
    (b"a", b"a\n", 1, false),
    (b"a\n", b"a\n", 1, true),
    (b"\n\na", b"\n\na\n", 3, false),
    (b"one\ntwo\n\n", b"one\ntwo\n\n", 3, true),
    (b"a\r\nb\0\xff", b"a\r\nb\0\xff\n", 2, false),
];

/// Whether the text has so many lines, and with a newline behind each they are `joined`.
fn has_lines(alloc: Global, text: &[u8], joined: &[u8], count: usize) -> Result<bool, Memory> {
    let mut out = Vec::new(alloc);
    let found = lines(alloc, text)?;
    for line in &found {
        out.extend_from_slice(line.as_slice())?;
        out.push(NEWLINE)?;
    }
    Ok(found.len() == count && out.as_slice() == joined)
}

/// What the definition of a line says of small texts, and what `wc -l` and `grep -c ''` count in them.
#[test]
fn lines_of_small_texts(rt: HostRuntime) -> Result<(), Fail> {
    for &(text, joined, count, closed) in TEXTS.iter() {
        assert!(rt; has_lines(rt.alloc(), text, joined, count)?, "{text:?}");
        assert!(rt; is_closed(text) == closed, "{text:?}");
    }
    Ok(())
}

/// Whether the closed text is the one wanted.
fn closes_as(alloc: Global, text: &[u8], wanted: &[u8]) -> Result<bool, Memory> {
    let closed = closing(Vec::from_slice(alloc, text)?)?;
    Ok(closed.as_slice() == wanted)
}

#[test]
fn closes_a_text_and_finds_its_next_line(rt: HostRuntime) -> Result<(), Fail> {
    assert!(rt; closes_as(rt.alloc(), b"one\ntwo", b"one\ntwo\n")?);
    assert!(rt; next_line(b"one\ntwo\n", 0) == Some(4));
    assert!(rt; next_line(b"one\ntwo", 4) == None);
    assert!(rt; cut_line(b"one\ntwo") == Some((b"one".as_slice(), b"two".as_slice())));
    Ok(())
}

/// Texts, and the number that each is, if it is one: the largest is 2^64 - 1, and the digits are counted, zeros too.
static NUMBERS: [(&[u8], Option<u64>); 11] = [
    (b"", None),
    (b"0", Some(0)),
    (b"007", Some(7)),
    (b"-1", None),
    (b"+1", None),
    (b" 1", None),
    (b"1a", None),
    (b"18446744073709551615", Some(u64::MAX)),
    (b"18446744073709551616", None),
    (b"00000000000000000001", Some(1)),
    (b"000000000000000000001", None),
];

#[test]
fn reads_numbers(rt: HostRuntime) {
    for &(text, wanted) in NUMBERS.iter() {
        assert!(rt; read_decimal(text) == wanted, "{text:?}");
    }
}

/// Whether the number is written so behind what the vector has.
fn writes(alloc: Global, number: u64, wanted: &[u8]) -> Result<bool, Memory> {
    let mut out = Vec::from_slice(alloc, b"n=")?;
    decimal(number, &mut out)?;
    Ok(out.as_slice() == wanted)
}

#[test]
fn writes_numbers(rt: HostRuntime) -> Result<(), Fail> {
    assert!(rt; writes(rt.alloc(), u64::MAX, b"n=18446744073709551615")?);
    Ok(())
}

/// Whether a copy of the bytes has them, and is the same as one of the others where it has to be.
fn compares(alloc: Global, bytes: &[u8], others: &[u8], same: bool) -> Result<bool, Memory> {
    let text = Text::copy_of(alloc, bytes)?;
    let other = Text::copy_of(alloc, others)?;
    Ok(text.as_slice() == bytes && (text == other) == same && (text != other) != same)
}

#[test]
fn compares_texts(rt: HostRuntime) -> Result<(), Fail> {
    assert!(rt; compares(rt.alloc(), b"a\0b", b"a\0b", true)?);
    assert!(rt; compares(rt.alloc(), b"a\0b", b"a\0c", false)?);
    Ok(())
}

/// The bytes that begin a name.
static STARTS: &[u8] = b"ABCDEFGHIJKLMNOPQRSTUVWXYZ_abcdefghijklmnopqrstuvwxyz";

/// Whether the byte is white space, and begins and goes on a name, where the lists have it.
fn is_classed(byte: u8) -> bool {
    let starts = STARTS.contains(&byte);
    is_white_space(byte) == b"\t\n ".contains(&byte)
        && is_name_start(byte) == starts
        && is_name_byte(byte) == (starts || b"0123456789".contains(&byte))
}

/// Which of all bytes are white space and begin or go on a name.
#[test]
fn classes_of_bytes(rt: HostRuntime) {
    for byte in 0..=u8::MAX {
        assert!(rt; is_classed(byte), "{byte}");
    }
}

/// Classes by their names, how many bytes they have, some of them, and some that they haven't, as `isalnum` and its like tell them in
/// the C locale.
static CLASSES: [(&[u8], usize, &[u8], &[u8]); 12] = [
    (b"alnum", 62, b"0Az", b"_ \x80"),
    (b"alpha", 52, b"AZaz", b"09@[`{"),
    (b"blank", 2, b"\t ", b"\n\r"),
    (b"cntrl", 33, b"\0\x1f\x7f", b" \x80"),
    (b"digit", 10, b"09", b"/:"),
    (b"graph", 94, b"!~", b" \x7f"),
    (b"lower", 26, b"az", b"AZ`{"),
    (b"print", 95, b" ~", b"\t\x7f"),
    (b"punct", 32, b"!/:@[`{~", b"0Aa "),
    (b"space", 6, b"\t\n\x0b\x0c\r ", b"\x08\x0e"),
    (b"upper", 26, b"AZ", b"az@["),
    (b"xdigit", 22, b"09AFaf", b"GgXx"),
];

/// Whether the class has the name, and so many bytes.
fn is_class(class: Class, name: &[u8], count: usize) -> bool {
    let held = (0..=u8::MAX).filter(|byte| class.has(*byte)).count();
    class.name() == name && Class::named(name) == Some(class) && held == count
}

/// Whether the class has each of the bytes, or none of them.
fn has_all(class: Class, bytes: &[u8], held: bool) -> bool {
    for byte in bytes {
        if class.has(*byte) != held {
            return false;
        }
    }
    true
}

/// The bytes of each class, and each class by its name.
#[test]
fn character_classes(rt: HostRuntime) {
    for (&(name, count, within, without), class) in CLASSES.iter().zip(Class::ALL) {
        assert!(rt; is_class(class, name, count), "{name:?}");
        assert!(rt;
            has_all(class, within, true) && has_all(class, without, false),
            "{name:?}"
        );
    }
}

/// What is no name of a class.
static NO_CLASSES: [&[u8]; 5] = [b"", b"digi", b"digits", b"Digit", b":digit:"];

#[test]
fn other_names_are_no_classes(rt: HostRuntime) {
    for &name in NO_CLASSES.iter() {
        assert!(rt; Class::named(name) == None, "{name:?}");
    }
}

/// Whether a text that takes a vector of the bytes over has them, and gives them back.
fn goes_over(alloc: Global, bytes: &[u8]) -> Result<bool, Memory> {
    let text = Text::from_vec(Vec::from_slice(alloc, bytes)?);
    let had = text.as_slice() == bytes;
    Ok(had && text.into_vec().as_slice() == bytes)
}

/// A text takes a vector over, and gives it back.
#[test]
fn takes_a_vector_over(rt: HostRuntime) -> Result<(), Fail> {
    assert!(rt; goes_over(rt.alloc(), b"a\nb")?);
    Ok(())
}

/// How far ahead of itself a search for a newline reads a byte.
const AHEAD: usize = 320;

/// Whether the first line of a text ends where the library finds the first newline.
fn ends_alike(text: &[u8]) -> bool {
    match cut_line(text) {
        Some((line, _)) => memchr(NEWLINE, text) == Some(line.len()),
        None => memchr(NEWLINE, text).is_none(),
    }
}

/// The same with a newline put at a place of a text, which ends there, behind it, or where it did.
fn ends_alike_at(text: &mut [u8; 400], place: usize) -> bool
    requires { place < 400 }
{
    let before = text[place];
    text[place] = NEWLINE;
    let mut alike = ends_alike(&text[..place]);
    alike &= ends_alike(&text[..=place]);
    alike &= ends_alike(text.as_slice());
    text[place] = before;
    alike & ends_alike(&text[..place])
}

/// In texts of every length with a newline at every place, and with one ahead or none.
#[test]
fn finds_what_the_library_finds(rt: HostRuntime) {
    for ahead in [b'a', NEWLINE] {
        let mut text = [b'a'; 400];
        text[AHEAD] = ahead;
        for place in 0..400 {
            assert!(rt; ends_alike_at(&mut text, place), "{place}");
        }
    }
}

/// Bytes, and whether the set has them.
static HELD: [(u8, bool); 6] = [
    (0, true),
    (1, false),
    (63, true),
    (64, true),
    (128, false),
    (255, true),
];

#[test]
fn a_set_holds_what_was_added_and_its_complement_the_rest(rt: HostRuntime) {
    let mut set = ByteSet::empty();
    for byte in [0, 63, 64, 255] {
        set.add(byte);
    }
    let rest = set.complement();
    for &(byte, held) in HELD.iter() {
        assert!(rt; set.has(byte) == held && rest.has(byte) != held, "{byte}");
    }
}
