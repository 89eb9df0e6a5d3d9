//! Calls and what they answer, in tables.
mod answers;
mod lines;

use std::alloc::{AllocError, Global};
use std::test::Fail;
use ut_test::echo;

/// Words, each behind a bar.
fn words_of(alloc: Global, text: &str) -> Result<Vec<Vec<u8>>, AllocError> {
    let mut words = Vec::new(alloc);
    for word in text.as_bytes().split(|byte| *byte == b'|').skip(1) {
        words.push(Vec::from_slice(alloc, word)?)?;
    }
    Ok(words)
}

/// Operands, each behind a bar, and what `echo` writes.
static ECHOES: [(&str, &str); 8] = [
    ("", "\n"),
    ("|", "\n"),
    ("||", " \n"),
    ("|a", "a\n"),
    ("|a||b c", "a  b c\n"),
    ("|-e|\\n", "-e \\n\n"),
    ("|--|a", "-- a\n"),
    ("|a\n|\\c", "a\n \\c\n"),
];

#[test]
fn echo_writes_its_operands_as_they_are(rt: HostRuntime) -> Result<(), Fail> {
    for &(operands, wanted) in ECHOES.iter() {
        let operands = words_of(rt.alloc(), operands)?;
        let out = echo(rt.alloc(), operands.as_slice())?;
        assert!(rt; out.as_slice() == wanted.as_bytes(), "{wanted}");
    }
    Ok(())
}
