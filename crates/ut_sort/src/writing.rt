//! Sorted lines that are written in pieces.
ghost use Rattle.std.specs.Prelude.{◌≡◌, ◌<◌, ◌≤◌, [], length, true, false, IfOk, OnErr, OnOk};
ghost use Rattle.std.specs.Bool.{Decides};
ghost use Rattle.std.specs.Result.{is_ok};
ghost use Rattle.ps_lines.specs.Lines.{text_of_lines};
ghost use Rattle.ut_streams.specs.Streams.{Put};
ghost use Rattle.ut_sort.specs.Places.{lines_in};
ghost use Rattle.ut_sort.specs.Writing.{PutSome, left_behind, left_of};

use crate::places::{LinePlace, SIZES, line_in};
use ps_lines::Memory;
use std::alloc::Global;
use ut_streams::put_line;

/// A piece has this many bytes or more, but for the last.
const PIECE: u64 = 65_536;

/// The lines of a text in order, of which some are written: what is left is written piece by piece, so that no second copy of the text is
/// held.
#[derive(Drop)]
pub struct SortedLines {
    text: Vec<u8>,
    places: Vec<LinePlace>,
    /// How many lines are written.
    given: usize,
}

impl SortedLines {
    /// No lines.
    pub fn none(alloc: Global) -> SortedLines
        ensures { left_of result ≡ [] }
    {
        SortedLines {
            text: Vec::new(alloc),
            places: Vec::new(alloc),
            given: 0,
        }
    }

    /// These places of a text, of which nothing is written yet.
    pub(crate) fn new(text: Vec<u8>, places: Vec<LinePlace>) -> SortedLines
        ensures { left_of result ≡ text_of_lines (lines_in text.items places.items) }
    {
        SortedLines {
            text,
            places,
            given: 0,
        }
    }

    /// Appends the next lines, as many as make a piece; where any is left, one at least.
    pub fn put_piece(&mut self, out: &mut Vec<u8>) -> Result<(), Memory>
        ensures wrote { PutSome (left_of self.old) (left_of self.new) out.old.items out.new.items (is_ok result) }
        ensures some { 0 < length (left_of self.old) → OnOk result (length out.old.items < length out.new.items) }
    {
        match put_next(
            self.text.as_slice(),
            self.places.as_slice(),
            self.given,
            out,
        ) {
            Ok(given) => {
                self.given = given;
                Ok(())
            }
            Err(memory) => Err(memory),
        }
    }

    /// Whether all lines are written.
    pub fn is_done(&self) -> bool
        ensures { Decides result (left_of self.now ≡ []) }
    {
        self.given >= self.places.len()
    }
}

/// Appends the lines behind so many, as many as make a piece; the number of lines that are written then.
fn put_next(
    text: &[u8],
    places: &[LinePlace],
    given: usize,
    out: &mut Vec<u8>,
) -> Result<usize, Memory>
    ensures ok { IfOk result (λ next. PutSome (left_behind text.now places.now given) (left_behind text.now places.now next) out.old.items out.new.items true) }
    ensures err { OnErr result (PutSome (left_behind text.now places.now given) (left_behind text.now places.now given) out.old.items out.new.items false) }
    ensures some { 0 < length (left_behind text.now places.now given) → OnOk result (length out.old.items < length out.new.items) }
{
    let from = given.min(places.len());
    let left = &places[from..];
    let count = piece_of(left);
    match put_lines(text, &left[..count], out) {
        Ok(()) => Ok(from + count),
        Err(memory) => Err(memory),
    }
}

/// How many lines make a piece. It looks at none.
fn piece_of(places: &[LinePlace]) -> usize
    ensures within { result ≤ length places.now }
    ensures some { 0 < length places.now → 0 < result }
{
    let mut left = places;
    let mut bytes = 0;
    while let [place, rest @ ..] = left {
        left = rest;
        bytes += place.span % SIZES + 1;
        if bytes >= PIECE {
            break;
        }
    }
    places.len() - left.len()
}

/// Appends the lines at these places, each with a newline.
pub(crate) fn put_lines(text: &[u8], places: &[LinePlace], out: &mut Vec<u8>) -> Result<(), Memory>
    ensures { Put (text_of_lines (lines_in text.now places.now)) out.old.items out.new.items (is_ok result) }
{
    for place in places {
        match put_line(line_in(text, place.span), out) {
            Ok(()) => {}
            Err(memory) => return Err(memory),
        }
    }
    Ok(())
}
