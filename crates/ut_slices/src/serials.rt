//! A paste of the lines of each input, in a row of its own.
ghost use Rattle.std.specs.Prelude.{◌≡◌, ◌∷◌, ◌++◌, ℕ, List, [], drop, take, None, false, true, if◌then◌else◌, IfOk, OnOk};
ghost use Rattle.std.specs.List.{flat_map};
ghost use Rattle.std.specs.Result.{is_ok};
ghost use Rattle.ps_lines.specs.Lines.{has_newline, lines};
ghost use Rattle.ut_streams.specs.Streams.{Put, Wrote};
ghost use Rattle.ut_slices.specs.Paste.{first_delimiter, row as row_def};
ghost use Rattle.ut_slices.specs.Inner.Serials.{delimiters_behind, row_left};

use crate::delimiters::{behind_none, next_place, put_delimiter};
use ps_lines::{Memory, NEWLINE, cut_line};
use std::alloc::Global;
use ut_args::PasteArgs;
use ut_streams::{Series, put};

/// How far the row of an input is written.
#[derive(Drop)]
struct Row {
    /// The place of the delimiter that stands before the next line.
    delimiter: usize,
    /// A line is begun, and hasn't ended.
    within: bool,
}

/// A row for each input: its lines, with the delimiters between them.
#[derive(Drop)]
pub struct Serial {
    /// What stands before lines: nothing before the first, and then the delimiters, in a cycle that leaves the first out.
    delimiters: Vec<Option<u8>>,
    row: Row,
    spent: bool,
    ghost first: { take 1 delimiters.items ≡ None ∷ [] },
}

impl Serial {
    /// The series of these arguments, from the beginning of its inputs.
    #[tactic(auto, using(crate::proofs::SerialLemmas::begins))]
    pub fn new(alloc: Global, args: &PasteArgs) -> Result<Serial, Memory>
        ensures due { IfOk result (λ serial. (texts : List (List ℕ)) → ⟦<Serial as Series>⟧.due serial texts ≡ flat_map (λ text. row_def args.now.delimiters (lines text)) texts) }
        ensures selects { IfOk result (λ serial. (texts : List (List ℕ)) → ⟦<Serial as Series>⟧.selects serial texts ≡ false) }
        ensures unspent { IfOk result (λ serial. ⟦<Serial as Series>⟧.spent serial ≡ false) }
    {
        match behind_none(alloc, args.delimiters.as_slice()) {
            Ok(delimiters) => Ok(serial_of(delimiters)),
            Err(memory) => Err(memory),
        }
    }
}

/// The series at the beginning of its first input.
fn serial_of(delimiters: Vec<Option<u8>>) -> Serial
    requires { take 1 delimiters.items ≡ None ∷ [] }
    ensures delimiters { result.delimiters.items ≡ delimiters.items }
    ensures place { result.row.delimiter ≡ 0 }
    ensures within { result.row.within ≡ false }
    ensures unspent { result.spent ≡ false }
{
    Serial {
        delimiters,
        row: Row {
            delimiter: 0,
            within: false,
        },
        spent: false,
    }
}

impl Series for Serial {
    ghost use Rattle.ut_slices.specs.Inner.Serials.{due_of_rows};

    ghost due = { λ serial texts. due_of_rows (drop 1 serial.delimiters.items) (drop serial.row.delimiter serial.delimiters.items) serial.row.within texts };

    ghost selects = { λ _ _. false };

    ghost selected = { λ _. false };

    ghost spent = { λ serial. serial.spent };

    fn feed(&mut self, piece: &[u8], out: &mut Vec<u8>) -> Result<(), Memory> {
        let fed = write_piece(self.delimiters.as_slice(), &mut self.row, piece, out);
        self.spent = fed.is_err();
        fed
    }

    /// An input without a byte has a row too.
    fn end_input(&mut self, out: &mut Vec<u8>) -> Result<(), Memory> {
        self.row.delimiter = 0;
        self.row.within = false;
        let ended = put(&[NEWLINE], out);
        self.spent = ended.is_err();
        ended
    }

    /// Takes no memory, and so never answers Memory.
    #[tactic(auto, using(ut_streams::proofs::StreamLemmas::puts))]
    fn finish(&mut self, _out: &mut Vec<u8>) -> Result<(), Memory> {
        Ok(())
    }

    fn has_selected(&self) -> bool {
        false
    }

    fn is_spent(&self) -> bool {
        self.spent
    }
}

/// Writes the lines that end in a piece, and what it has of the one behind them.
fn write_piece(
    delimiters: &[Option<u8>],
    row: &mut Row,
    piece: &[u8],
    out: &mut Vec<u8>,
) -> Result<(), Memory>
    ensures { Wrote (λ more. row_left (drop 1 delimiters.now) (drop row.old.delimiter delimiters.now) row.old.within (lines (piece.now ++ more)))
        (λ more. row_left (drop 1 delimiters.now) (drop row.new.delimiter delimiters.now) row.new.within (lines more)) out.old.items out.new.items (is_ok result) }
{
    let mut left = piece;
    while let Some((line, rest)) = cut_line(left) {
        match write_line(delimiters, row, line, out) {
            Ok(()) => left = rest,
            Err(memory) => return Err(memory),
        }
    }
    write_front(delimiters, row, left, out)
}

/// Writes a line to its end, or what is left of it. What stands behind it is written once something comes.
fn write_line(
    delimiters: &[Option<u8>],
    row: &mut Row,
    line: &[u8],
    out: &mut Vec<u8>,
) -> Result<(), Memory>
    ensures { Wrote (λ others. row_left (drop 1 delimiters.now) (drop row.old.delimiter delimiters.now) row.old.within (line.now ∷ others))
        (row_left (drop 1 delimiters.now) (drop row.new.delimiter delimiters.now) row.new.within) out.old.items out.new.items (is_ok result) }
{
    match write_part(delimiters, row, line, out) {
        Ok(()) => {
            row.within = false;
            Ok(())
        }
        Err(memory) => Err(memory),
    }
}

/// Writes what has come of a line that goes on.
fn write_front(
    delimiters: &[Option<u8>],
    row: &mut Row,
    front: &[u8],
    out: &mut Vec<u8>,
) -> Result<(), Memory>
    requires { has_newline front.now ≡ false }
    ensures { Wrote (λ more. row_left (drop 1 delimiters.now) (drop row.old.delimiter delimiters.now) row.old.within (lines (front.now ++ more)))
        (λ more. row_left (drop 1 delimiters.now) (drop row.new.delimiter delimiters.now) row.new.within (lines more)) out.old.items out.new.items (is_ok result) }
{
    if front.is_empty() {
        return Ok(());
    }
    match write_part(delimiters, row, front, out) {
        Ok(()) => Ok(()),
        Err(memory) => Err(memory),
    }
}

/// Writes a part of a line, behind the delimiter before the line where it isn't begun.
#[tactic(auto, using(crate::proofs::PutLemmas::puts))]
fn write_part(
    delimiters: &[Option<u8>],
    row: &mut Row,
    part: &[u8],
    out: &mut Vec<u8>,
) -> Result<(), Memory>
    ensures put { Put ((if row.old.within then [] else first_delimiter (drop row.old.delimiter delimiters.now)) ++ part.now) out.old.items out.new.items (is_ok result) }
    ensures place { OnOk result (drop row.new.delimiter delimiters.now ≡ delimiters_behind (drop 1 delimiters.now) (drop row.old.delimiter delimiters.now) row.old.within) }
    ensures within { OnOk result (row.new.within ≡ true) }
{
    match begin_line(delimiters, row, out) {
        Ok(()) => put(part, out),
        Err(memory) => Err(memory),
    }
}

/// Begins a line, unless it is begun.
#[tactic(auto, using(crate::proofs::PutLemmas::puts))]
fn begin_line(delimiters: &[Option<u8>], row: &mut Row, out: &mut Vec<u8>) -> Result<(), Memory>
    ensures put { Put (if row.old.within then [] else first_delimiter (drop row.old.delimiter delimiters.now)) out.old.items out.new.items (is_ok result) }
    ensures place { OnOk result (drop row.new.delimiter delimiters.now ≡ delimiters_behind (drop 1 delimiters.now) (drop row.old.delimiter delimiters.now) row.old.within) }
    ensures within { OnOk result (row.new.within ≡ true) }
{
    if row.within {
        return Ok(());
    }
    match put_delimiter(delimiters, row.delimiter, out) {
        Ok(()) => {
            row.delimiter = next_place(delimiters, row.delimiter);
            row.within = true;
            Ok(())
        }
        Err(memory) => Err(memory),
    }
}
