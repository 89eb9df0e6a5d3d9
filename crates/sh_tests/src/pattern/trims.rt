//! The walk that cuts a text beside its plain form, over all short texts.
use super::marked;
use ps_lines::Memory;
use sh_pattern::trying::trimmed_by_trying;
use sh_pattern::{Pattern, Side, read_pattern, trimmed};
use std::alloc::Global;
use std::test::Fail;

/// Patterns, with stars and sets at their ends and between.
static PATTERNS: [&str; 16] = [
    "", "*", "?", "a", "ab", "*a", "a*", "**", "a**b", "*/", "*[! ]", "[! ]*", "?*", "*?a", "a*b*",
    "*a?*b",
];

/// The bytes of the texts.
static BYTES: [u8; 4] = [b'a', b'b', b' ', b'/'];

/// Whether the walk leaves the same of a text as trying all cuts at this side.
fn cuts_alike(
    alloc: Global,
    pattern: &Pattern,
    text: &[u8],
    side: Side,
    longest: bool,
) -> Result<bool, Memory> {
    let left = trimmed(alloc, pattern, text, side, longest)?;
    Ok(left == trimmed_by_trying(pattern, text, side, longest))
}

/// The same at both sides, for the shortest and the longest.
fn cuts_all_alike(alloc: Global, spelled: &str, text: &[u8]) -> Result<bool, Memory> {
    let marks = marked(alloc, spelled.as_bytes(), b"uuuuuuuu")?;
    let pattern = read_pattern(alloc, marks.as_slice())?;
    Ok(
        cuts_alike(alloc, &pattern, text, Side::Prefix, false)?
            && cuts_alike(alloc, &pattern, text, Side::Prefix, true)?
            && cuts_alike(alloc, &pattern, text, Side::Suffix, false)?
            && cuts_alike(alloc, &pattern, text, Side::Suffix, true)?,
    )
}

/// Three of the bytes, by the number of the text, and the first once more.
fn text_of(number: usize) -> [u8; 4] {
    let first = BYTES[number / 16 % 4];
    [first, BYTES[number / 4 % 4], BYTES[number % 4], first]
}

#[test]
fn a_walk_cuts_as_trying_does(rt: HostRuntime) -> Result<(), Fail> {
    let alloc = rt.alloc();
    for spelled in PATTERNS.iter() {
        assert!(rt; cuts_all_alike(alloc, spelled, b"")?, "{spelled}");
        for number in 0..64 {
            let text = text_of(number);
            assert!(rt;
                cuts_all_alike(alloc, spelled, &text[..3])?,
                "{spelled} {number}"
            );
            assert!(rt;
                cuts_all_alike(alloc, spelled, &text)?,
                "{spelled} {number}"
            );
        }
    }
    Ok(())
}
