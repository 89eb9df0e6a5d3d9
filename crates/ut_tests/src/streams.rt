//! A utility of lines over every cutting of a text.

use crate::cuttings::gives;
use ps_lines::Memory;
use std::alloc::Global;
use std::test::Fail;
use ut_streams::{EachLine, Lines, PerLine, put, put_line};

/// Writes each line behind a mark.
#[derive(Drop)]
struct Marked {
    mark: u8,
}

impl PerLine for Marked {
    ghost use Rattle.std.specs.Prelude.{◌∷◌, ◌++◌, []};

    ghost of = { λ marked line. (marked.mark ∷ []) ++ (line ++ 10 ∷ []) };

    #[tactic(auto, using(ut_streams::proofs::StreamLemmas::puts))]
    fn one(&self, line: &[u8], out: &mut Vec<u8>) -> Result<(), Memory> {
        match put(&[self.mark], out) {
            Ok(()) => put_line(line, out),
            Err(memory) => Err(memory),
        }
    }
}

/// Texts, and what is written.
static TEXTS: [(&[u8], &[u8]); 3] = [
    (b"ab\n\ncd\nefghi", b">ab\n>\n>cd\n>efghi\n"),
    (b"\n\n\nabcdefgh\n", b">\n>\n>\n>abcdefgh\n"),
    (b"", b""),
];

fn writes_cut(alloc: Global, text: &[u8], cuts: u64, wanted: &[u8]) -> Result<bool, Memory> {
    let by = Marked { mark: b'>' };
    let mut stream = Lines::new(alloc, EachLine { by });
    let told = gives(alloc, &mut stream, text, cuts, wanted, false);
    drop(stream);
    told
}

/// Whether this is written of a text, however it is cut.
fn writes(alloc: Global, text: &[u8], wanted: &[u8]) -> Result<bool, Memory> {
    for cuts in 0..2048 {
        if !writes_cut(alloc, text, cuts, wanted)? {
            return Ok(false);
        }
    }
    Ok(true)
}

#[test]
fn lines_are_the_same_over_every_cutting(rt: HostRuntime) -> Result<(), Fail> {
    for &(text, wanted) in TEXTS.iter() {
        assert!(rt; writes(rt.alloc(), text, wanted)?, "{text:?}");
    }
    Ok(())
}
