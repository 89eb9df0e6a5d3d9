//! Lines, bytes of IFS, numbers of names and the fields that `read` gives to them, as `dash` does where the rule isn't our own.
use std::alloc::{AllocError, Global};
use std::process::Abort;
use std::test::Fail;
use ut_test::read_fields;

/// The fields with bars between them.
fn joined(alloc: Global, fields: &[Vec<u8>]) -> Result<Vec<u8>, AllocError> {
    let mut text = Vec::new(alloc);
    for (place, field) in fields.iter().enumerate() {
        if place > 0 {
            text.push(b'|')?;
        }
        text.extend_from_slice(field.as_slice())?;
    }
    Ok(text)
}

/// Reads each row's line. A row has the line, the bytes of IFS, the number of names, and the fields with bars between them.
fn reads<R: Abort + AllocGlobal>(rt: &R, rows: &[(&str, &str, u32, &str)]) -> Result<(), Fail> {
    let alloc = rt.alloc();
    for &(line, ifs, names, wanted) in rows {
        assert!(rt; names > 0, "a row has a name");
        let fields = read_fields(alloc, line.as_bytes(), ifs.as_bytes(), names)?;
        let found = joined(alloc, fields.as_slice())?;
        assert!(rt;
            found.as_slice() == wanted.as_bytes(),
            "{line} {ifs} {names}"
        );
    }
    Ok(())
}

/// White space of IFS separates fields, and no byte quotes another.
static WHITE: [(&str, &str, u32, &str); 23] = [
    ("a", " \t\n", 1, "a"),
    ("a b", " \t\n", 1, "a b"),
    (" a b ", " \t\n", 1, "a b"),
    ("a b", " \t\n", 2, "a|b"),
    ("a b c", " \t\n", 2, "a|b c"),
    ("a  b  c", " \t\n", 2, "a|b  c"),
    (" a\tb \t c ", " \t\n", 3, "a|b|c"),
    ("a", " \t\n", 2, "a|"),
    ("a b", " \t\n", 4, "a|b||"),
    ("", " \t\n", 1, ""),
    ("", " \t\n", 3, "||"),
    ("  ", " \t\n", 2, "|"),
    ("a ", " \t\n", 2, "a|"),
    ("a:b", " \t\n", 2, "a:b|"),
    ("a\\b c", " \t\n", 2, "a\\b|c"),
    ("a\\ b", " \t\n", 2, "a\\|b"),
    ("\"a b\" c", " \t\n", 2, "\"a|b\" c"),
    ("*", " \t\n", 1, "*"),
    ("a\x0bb c", " \t\n", 2, "a\x0bb|c"),
    ("a\x0d", " \t\n", 1, "a\x0d"),
    ("a\tb", " ", 2, "a\tb|"),
    ("\ta \t", " ", 1, "\ta \t"),
    ("a  b", " ", 2, "a|b"),
];

/// Each other byte of IFS ends a field.
static ENDERS: [(&str, &str, u32, &str); 16] = [
    ("a:b", ":", 2, "a|b"),
    ("a:b:c", ":", 2, "a|b:c"),
    ("a:b:c", ":", 3, "a|b|c"),
    ("a::c", ":", 3, "a||c"),
    (":a", ":", 2, "|a"),
    ("a:", ":", 2, "a|"),
    (":", ":", 2, "|"),
    ("::", ":", 3, "||"),
    (":::", ":", 2, "|::"),
    ("a b", ":", 2, "a b|"),
    (" a : b ", ":", 2, " a | b "),
    ("a:b", ":", 1, "a:b"),
    ("a,b;c", ",;", 3, "a|b|c"),
    ("a,;b", ",;", 3, "a||b"),
    ("aXbXc", "X", 2, "a|bXc"),
    ("a\\b", "\\", 2, "a|b"),
];

/// White space beside such a byte belongs to it.
static BOTH: [(&str, &str, u32, &str); 11] = [
    ("a : b", " :", 2, "a|b"),
    ("a: :b", " :", 3, "a||b"),
    ("a : : b", " :", 3, "a||b"),
    (" : a", " :", 2, "|a"),
    ("a b:c", " :", 3, "a|b|c"),
    ("a b : c", " :", 3, "a|b|c"),
    ("a  b", " :", 3, "a|b|"),
    (" a:b ", " :", 2, "a|b"),
    ("a:b c", " :", 2, "a|b c"),
    ("a \t:\t b", ": \t", 2, "a|b"),
    ("a \t: b", ": ", 2, "a|\t: b"),
];

/// The last name gets the rest, without white space of IFS at its end.
static LAST: [(&str, &str, u32, &str); 12] = [
    ("a b  c ", " \t\n", 2, "a|b  c"),
    ("a b :", " :", 2, "a|b :"),
    ("a:b:", ":", 2, "a|b:"),
    ("a:b::", ":", 2, "a|b::"),
    ("a:", ":", 1, "a:"),
    ("a: ", ":", 1, "a: "),
    ("a:b ", " :", 2, "a|b"),
    ("a : b : ", " :", 2, "a|b :"),
    ("a:b:c:", ":", 3, "a|b|c:"),
    ("a:::", ":", 2, "a|::"),
    ("a: b", ":", 2, "a| b"),
    ("a:b \t", ":\t", 2, "a|b "),
];

/// An empty IFS splits nothing.
static EMPTY: [(&str, &str, u32, &str); 4] = [
    (" a b ", "", 1, " a b "),
    (" a b ", "", 2, " a b |"),
    ("", "", 2, "|"),
    ("a:b", "", 3, "a:b||"),
];

/// IFS may hold a newline.
static NEWLINES: [(&str, &str, u32, &str); 2] = [("a\nb", "\n", 2, "a|b"), ("\na\n", "\n", 1, "a")];

/// All rules together.
static MIXED: [(&str, &str, u32, &str); 40] = [
    ("\t:\t\t ", " :", 2, "\t|\t\t"),
    ("\t: ", ": \t", 2, "|"),
    ("  ", ":", 1, "  "),
    ("\t::a: ", " :", 2, "\t|:a:"),
    ("a\t:aaa", ":", 2, "a\t|aaa"),
    ("a\t   :", ":", 2, "a\t   |"),
    ("  a:a :", " :", 4, "a|a||"),
    ("\ta:  \t", ":", 3, "\ta|  \t|"),
    ("a:", " \t\n", 4, "a:|||"),
    ("\t ", " :", 1, "\t"),
    ("\t:", " \t\n", 2, ":|"),
    ("a  ", " :", 4, "a|||"),
    ("a  a", " :", 1, "a  a"),
    ("b:a", " \t\n", 1, "b:a"),
    ("\t b::", ":", 4, "\t b|||"),
    ("b:\tb :", " :", 1, "b:\tb :"),
    (" ba \t", ": \t", 3, "ba||"),
    ("bb", " :", 1, "bb"),
    ("bb", " :", 3, "bb||"),
    ("\t:", " :", 3, "\t||"),
    ("aaab:", ":", 1, "aaab:"),
    ("  : b:", " :", 2, "|b:"),
    (" b:b b\t:", ":", 2, " b|b b\t:"),
    (":::", ":", 4, "|||"),
    (":a aa", " \t\n", 1, ":a aa"),
    (" b::  ", " :", 4, "b|||"),
    (":b:a", ":", 2, "|b:a"),
    ("::\t::", " \t\n", 3, "::|::|"),
    ("b:a", " \t\n", 3, "b:a||"),
    (" baab", " :", 3, "baab||"),
    (":ba b ", " :", 2, "|ba b"),
    ("aa  : ", " \t\n", 1, "aa  :"),
    (":a a: ", " :", 2, "|a a:"),
    ("a ", ": \t", 3, "a||"),
    ("a:::b\t ", " :", 1, "a:::b\t"),
    (" a\t\t \ta", " :", 1, "a\t\t \ta"),
    (":  :a:", " \t\n", 1, ":  :a:"),
    (":a", " :", 4, "|a||"),
    ("  :::  ", " :", 1, ":::"),
    ("\t:a :a", " :", 1, "\t:a :a"),
];

/// The same.
static MORE_MIXED: [(&str, &str, u32, &str); 40] = [
    (":a ", ": \t", 4, "|a||"),
    ("a  b", ": \t", 2, "a|b"),
    ("b\t :  ", ":", 3, "b\t |  |"),
    (": b: ", ":", 2, "| b: "),
    ("b: bb", ":", 4, "b| bb||"),
    ("\t\ta:", " \t\n", 3, "a:||"),
    ("ba   b\t ", " :", 4, "ba|b\t||"),
    (" :\t\t:  ", " \t\n", 1, ":\t\t:"),
    ("\t:a:", " :", 3, "\t|a|"),
    (":\t:a", ":", 4, "|\t|a|"),
    ("ba\t\t ", ":", 2, "ba\t\t |"),
    ("a:a a:::", " :", 1, "a:a a:::"),
    ("bb\t  b:", " \t\n", 4, "bb|b:||"),
    (":abb \t", " :", 2, "|abb \t"),
    ("\t\t:ba", " :", 4, "\t\t|ba||"),
    ("  b", " \t\n", 4, "b|||"),
    (":::\t\t ", " :", 3, "||:\t\t"),
    ("ba:\t\t\t:", " \t\n", 2, "ba:|:"),
    (" a ", ": \t", 3, "a||"),
    (":\ta ", ": \t", 1, ":\ta"),
    ("  ", ": \t", 4, "|||"),
    ("  ab\t\ta ", " \t\n", 2, "ab|a"),
    (" :\tb b", ": \t", 4, "|b|b|"),
    ("::a\tb", " :", 3, "||a\tb"),
    (":::b::\t:", " :", 3, "||:b::\t:"),
    (" \t\t:b \t", ":", 3, " \t\t|b \t|"),
    (" b :a:", " \t\n", 4, "b|:a:||"),
    (":a", ": \t", 4, "|a||"),
    ("\t:a a:", ":", 1, "\t:a a:"),
    ("  \t  b", " :", 4, "\t|b||"),
    ("  \t", " :", 3, "\t||"),
    ("b ", ": \t", 1, "b"),
    ("b:\ta", " \t\n", 2, "b:|a"),
    ("ba:", " :", 3, "ba||"),
    (" b: a :", ": \t", 1, "b: a :"),
    (":: :b:: ", " \t\n", 4, "::|:b::||"),
    (" \t::b:b", ": \t", 2, "|:b:b"),
    ("b\t:::\t", ":", 2, "b\t|::\t"),
    (":\t b : ", ":", 2, "|\t b : "),
    ("babbb:a ", " :", 1, "babbb:a"),
];

#[test]
fn white_space_separates(rt: HostRuntime) -> Result<(), Fail> {
    reads(&rt, WHITE.as_slice())?;
    reads(&rt, NEWLINES.as_slice())?;
    reads(&rt, EMPTY.as_slice())
}

#[test]
fn other_bytes_end_fields(rt: HostRuntime) -> Result<(), Fail> {
    reads(&rt, ENDERS.as_slice())?;
    reads(&rt, BOTH.as_slice())
}

#[test]
fn the_last_name_gets_the_rest(rt: HostRuntime) -> Result<(), Fail> {
    reads(&rt, LAST.as_slice())
}

#[test]
fn all_rules_hold_together(rt: HostRuntime) -> Result<(), Fail> {
    reads(&rt, MIXED.as_slice())?;
    reads(&rt, MORE_MIXED.as_slice())
}

#[test]
fn a_byte_is_one_character(rt: HostRuntime) -> Result<(), Fail> {
    let line = [b'a', 0xff, b'b'];
    let fields = read_fields(rt.alloc(), line.as_slice(), [0xff].as_slice(), 2)?;
    let found = joined(rt.alloc(), fields.as_slice())?;
    assert!(rt; found.as_slice() == b"a|b".as_slice());
    Ok(())
}
