//! The stream of an invocation of cut.
ghost use Rattle.std.specs.Prelude.{◌≡◌, ◌++◌, ℕ, List, [], ◌∷◌, false, take, drop, IfOk, if◌then◌else◌};
ghost use Rattle.std.specs.List.{join_with_byte};
ghost use Rattle.std.specs.Result.{is_ok};
ghost use Rattle.ut_slices.specs.Cut.{cut_line, cut_output, fields, selected, whole_or_none};
ghost use Rattle.ut_slices.specs.Inner.Runs.{in_runs};
ghost use Rattle.ut_slices.specs.Inner.Begun.{behind_fields};
ghost use Rattle.ut_streams.specs.Streams.{Put};

use crate::fields::{cut_at_delimiter, has_delimiter};
use crate::runs::runs_of;
use crate::selections::{Run, Runs};
use ps_lines::{Memory, NEWLINE};
use std::alloc::Global;
use ut_args::{CutInv, Parts};
use ut_streams::{EachLine, Lines, PerLine, Stream, put, put_line};

/// Parts of each line of one input.
#[derive(Drop)]
pub struct Cut {
    lines: Lines<EachLine<CutLine>>,
}

/// Parts of a line.
#[derive(Drop)]
pub struct CutLine {
    parts: Parts,
    runs: Runs,
}

impl Cut {
    /// The stream of one invocation, from the beginning of its input.
    pub fn new(alloc: Global, inv: &CutInv) -> Result<Cut, Memory>
        ensures due { IfOk result (λ cut. (text : List ℕ) → ⟦<Cut as Stream>⟧.due cut text ≡ cut_output inv.now.args text) }
        ensures unspent { IfOk result (λ cut. ⟦<Cut as Stream>⟧.spent cut ≡ false) }
    {
        let runs = runs_of(alloc, inv.args.ranges.as_slice())?;
        let parts = inv.args.parts;
        Ok(Cut {
            lines: Lines::new(
                alloc,
                EachLine {
                    by: CutLine { parts, runs },
                },
            ),
        })
    }
}

impl Stream for Cut {
    ghost due = { λ cut. ⟦<Lines<EachLine<CutLine>> as Stream>⟧.due cut.lines };

    ghost selects = { λ cut. ⟦<Lines<EachLine<CutLine>> as Stream>⟧.selects cut.lines };

    ghost selected = { λ cut. ⟦<Lines<EachLine<CutLine>> as Stream>⟧.selected cut.lines };

    ghost spent = { λ cut. ⟦<Lines<EachLine<CutLine>> as Stream>⟧.spent cut.lines };

    fn feed(&mut self, piece: &[u8], out: &mut Vec<u8>) -> Result<(), Memory> {
        self.lines.feed(piece, out)
    }

    fn finish(&mut self, out: &mut Vec<u8>) -> Result<(), Memory> {
        self.lines.finish(out)
    }

    fn has_selected(&self) -> bool {
        self.lines.has_selected()
    }

    fn is_spent(&self) -> bool {
        self.lines.is_spent()
    }
}

impl PerLine for CutLine {
    ghost of = { λ cut line. cut_line cut.parts (in_runs cut.runs.runs.items cut.runs.rest) line };

    fn one(&self, line: &[u8], out: &mut Vec<u8>) -> Result<(), Memory> {
        match self.parts {
            Parts::Bytes => put_bytes(&self.runs, line, out),
            Parts::Fields {
                delimiter,
                only_delimited,
            } => {
                if has_delimiter(delimiter, line) {
                    return put_fields(&self.runs, delimiter, line, out);
                }
                put_whole(only_delimited, line, out)
            }
        }
    }
}

/// Appends a line without a delimiter, where such lines pass.
#[tactic(auto, using(crate::proofs::PutLemmas::puts))]
fn put_whole(only_delimited: bool, line: &[u8], out: &mut Vec<u8>) -> Result<(), Memory>
    ensures { Put (whole_or_none only_delimited line.now) out.old.items out.new.items (is_ok result) }
{
    if only_delimited {
        return Ok(());
    }
    put_line(line, out)
}

/// Appends the selected bytes of a line, and a newline.
#[tactic(auto, using(crate::proofs::PutLemmas::puts))]
fn put_bytes(runs: &Runs, line: &[u8], out: &mut Vec<u8>) -> Result<(), Memory>
    ensures { Put (selected (in_runs runs.now.runs.items runs.now.rest) 0 line.now ++ NEWLINE ∷ []) out.old.items out.new.items (is_ok result) }
{
    match put_runs(runs.runs.as_slice(), runs.rest, line, out) {
        Ok(()) => put(&[NEWLINE], out),
        Err(memory) => Err(memory),
    }
}

/// Appends the selected fields of a line, and a newline.
#[tactic(auto, using(crate::proofs::PutLemmas::puts))]
fn put_fields(runs: &Runs, delimiter: u8, line: &[u8], out: &mut Vec<u8>) -> Result<(), Memory>
    ensures { Put (join_with_byte delimiter (selected (in_runs runs.now.runs.items runs.now.rest) 0 (fields delimiter line.now)) ++ NEWLINE ∷ []) out.old.items out.new.items (is_ok result) }
{
    match put_field_runs(runs.runs.as_slice(), runs.rest, delimiter, line, out) {
        Ok(()) => put(&[NEWLINE], out),
        Err(memory) => Err(memory),
    }
}

/// Appends the bytes of a line that stand in selected runs; `rest_selected` says whether those behind the runs are selected.
fn put_runs(runs: &[Run], rest_selected: bool, line: &[u8], out: &mut Vec<u8>) -> Result<(), Memory>
    ensures { Put (selected (in_runs runs.now rest_selected) 0 line.now) out.old.items out.new.items (is_ok result) }
{
    let mut left = runs;
    let mut rest = line;
    while let Some((run, others)) = left.split_first() {
        let (front, behind) = cut_behind_bytes(rest, run.count);
        match put_if(run.selected, front, out) {
            Ok(()) => {}
            Err(memory) => return Err(memory),
        }
        rest = behind;
        left = others;
    }
    put_if(rest_selected, rest, out)
}

/// The first bytes, so many or all, and those behind them.
fn cut_behind_bytes(text: &[u8], count: u64) -> (&[u8], &[u8])
    ensures front { result.0.now ≡ take count text.now }
    ensures behind { result.1.now ≡ drop count text.now }
{
    if count >= text.len() as u64 {
        return (text, &[]);
    }
    text.split_at(count as usize)
}

/// Appends the text where it is wanted.
#[tactic(auto, using(crate::proofs::PutLemmas::puts))]
fn put_if(wanted: bool, text: &[u8], out: &mut Vec<u8>) -> Result<(), Memory>
    ensures { Put (if wanted then text.now else []) out.old.items out.new.items (is_ok result) }
{
    if !wanted {
        return Ok(());
    }
    put(text, out)
}

/// Appends the fields of a line that stand in selected runs, with a delimiter between two.
fn put_field_runs(
    runs: &[Run],
    rest_selected: bool,
    delimiter: u8,
    line: &[u8],
    out: &mut Vec<u8>,
) -> Result<(), Memory>
    ensures { Put (join_with_byte delimiter (selected (in_runs runs.now rest_selected) 0 (fields delimiter line.now))) out.old.items out.new.items (is_ok result) }
{
    let mut left = runs;
    let mut rest = line;
    let mut begun = false;
    while let Some((run, others)) = left.split_first() {
        let Some((front, behind)) = cut_at_delimiter(delimiter, rest, run.count) else {
            return put_more(run.selected, begun, delimiter, rest, out);
        };
        match put_more(run.selected, begun, delimiter, front, out) {
            Ok(()) => {}
            Err(memory) => return Err(memory),
        }
        begun |= run.selected;
        rest = behind;
        left = others;
    }
    put_more(rest_selected, begun, delimiter, rest, out)
}

/// Appends the text where it is wanted, with a delimiter before it where a field was written before.
#[tactic(auto, using(crate::proofs::PutLemmas::puts))]
fn put_more(
    wanted: bool,
    begun: bool,
    delimiter: u8,
    text: &[u8],
    out: &mut Vec<u8>,
) -> Result<(), Memory>
    ensures { Put (if wanted then behind_fields begun delimiter text.now else []) out.old.items out.new.items (is_ok result) }
{
    if !wanted {
        return Ok(());
    }
    if !begun {
        return put(text, out);
    }
    match put(&[delimiter], out) {
        Ok(()) => put(text, out),
        Err(memory) => Err(memory),
    }
}
