//! The streams of `wc`.
ghost use Rattle.std.specs.Prelude.{◌≡◌, ◌+◌, ◌++◌, ◌∷◌, ℕ, List, [], Ok, true, false, not, codes, IfOk, OnOk};
ghost use Rattle.std.specs.List.{filter};
ghost use Rattle.std.specs.Result.{is_ok};
ghost use Rattle.ut_args.specs.Inputs.{is_named};
ghost use Rattle.ut_streams.specs.Streams.{Put, Wrote};
ghost use Rattle.ut_streams.specs.Utilities.{labelled};
ghost use Rattle.ut_groups.specs.Counting.{counts_of, newlines as newlines_def, saturated, words_behind};
ghost use Rattle.ut_groups.specs.Columns.{counts_line};
ghost use Rattle.ut_groups.specs.Inner.Columns.{counts_behind, last_behind};
ghost use Rattle.ut_groups.specs.Inner.Series.{PrintAlike, total_line, wc_due};
ghost use Rattle.ut_groups.specs.Wc.{name_in as name_in_def, wc_line, wc_output};

use crate::columns::{Columns, put_counts};
use crate::counting::{Counts, SPACE, add_counts, add_sat, last_byte, newlines, words};
use ps_lines::Memory;
use std::alloc::Global;
use ut_args::{Labels, WcArgs, WcInv, first_name, has_at_most_one};
use ut_streams::{Series, Stream};

/// The counts of one input, without its name: the map of `wc`.
#[derive(Drop)]
pub struct Wc {
    columns: Columns,
    /// The counts so far of those that are asked for.
    counts: Counts,
    /// The byte before what comes next: a space at the beginning.
    before: u8,
    spent: bool,
}

impl Wc {
    /// The stream of the map of one invocation, from the beginning of its input.
    #[tactic(auto, using(crate::proofs::ColumnLemmas::begins))]
    pub fn of_part(inv: &WcInv) -> Wc
        ensures due { (text : List ℕ) → ⟦<Wc as Stream>⟧.due result text ≡ wc_line inv.now.args [] text }
        ensures unspent { ⟦<Wc as Stream>⟧.spent result ≡ false }
    {
        Wc {
            columns: Columns::of(&inv.args),
            counts: Counts::default(),
            before: SPACE,
            spent: false,
        }
    }
}

impl Stream for Wc {
    ghost due = { λ wc more. counts_line wc.columns (counts_behind wc.counts wc.before more) [] };

    ghost selects = { λ _ _. false };

    ghost selected = { λ _. false };

    ghost spent = { λ wc. wc.spent };

    /// Takes no memory, and so never answers Memory.
    fn feed(&mut self, piece: &[u8], out: &mut Vec<u8>) -> Result<(), Memory>
        requires { self.old.spent ≡ false }
        ensures wrote { Wrote (λ more. counts_line self.old.columns (counts_behind self.old.counts self.old.before (piece.now ++ more)) [])
            (λ more. counts_line self.new.columns (counts_behind self.new.counts self.new.before more) []) out.old.items out.new.items (is_ok result) }
        ensures selects { OnOk result (List ℕ → false ≡ false) }
        ensures spent { self.new.spent ≡ not (is_ok result) }
        ensures no_memory { result ≡ Ok tt }
    {
        count_piece(self.columns, &mut self.counts, &mut self.before, piece);
        Ok(())
    }

    fn finish(&mut self, out: &mut Vec<u8>) -> Result<(), Memory> {
        let finished = put_counts(self.columns, self.counts, &[], out);
        self.spent = finished.is_err();
        finished
    }

    fn has_selected(&self) -> bool {
        false
    }

    fn is_spent(&self) -> bool {
        self.spent
    }
}

/// The counts of each of the inputs of an invocation, and behind two operands or more the sums of all.
#[derive(Drop)]
pub struct WcSeries {
    columns: Columns,
    /// Whether a line of sums stands behind those of the inputs.
    has_total: bool,
    /// The sums of the inputs that have ended.
    sums: Counts,
    /// The names of the inputs to come, of which the first is that of the input whose turn it is.
    labels: Labels,
    /// The counts so far of that input, of those that are asked for.
    counts: Counts,
    /// The byte before what comes next of it: a space at its beginning.
    before: u8,
    spent: bool,
}

impl WcSeries {
    /// The series of one invocation, from the beginning of its inputs.
    #[tactic(auto, using(crate::proofs::SeriesLemmas::begins))]
    pub fn new(alloc: Global, inv: &WcInv) -> Result<WcSeries, Memory>
        ensures due { IfOk result (λ series. (texts : List (List ℕ)) → ⟦<WcSeries as Series>⟧.due series texts ≡ wc_output inv.now.args (labelled (filter is_named inv.now.args.operands) texts)) }
        ensures selects { IfOk result (λ series. (texts : List (List ℕ)) → ⟦<WcSeries as Series>⟧.selects series texts ≡ false) }
        ensures unspent { IfOk result (λ series. ⟦<WcSeries as Series>⟧.spent series ≡ false) }
    {
        let labels = Labels::of(alloc, &inv.args.operands)?;
        Ok(WcSeries {
            columns: Columns::of(&inv.args),
            has_total: !has_at_most_one(&inv.args.operands),
            sums: Counts::default(),
            labels,
            counts: Counts::default(),
            before: SPACE,
            spent: false,
        })
    }
}

impl Series for WcSeries {
    ghost due = { λ series texts. wc_due series.has_total series.columns series.sums series.counts series.before series.labels texts };

    ghost selects = { λ _ _. false };

    ghost selected = { λ _. false };

    ghost spent = { λ series. series.spent };

    /// Takes no memory, and so never answers Memory.
    fn feed(&mut self, piece: &[u8], out: &mut Vec<u8>) -> Result<(), Memory>
        requires { self.old.spent ≡ false }
        ensures wrote { (others : List (List ℕ)) → Wrote
            (λ more. wc_due self.old.has_total self.old.columns self.old.sums self.old.counts self.old.before self.old.labels ((piece.now ++ more) ∷ others))
            (λ more. wc_due self.new.has_total self.new.columns self.new.sums self.new.counts self.new.before self.new.labels (more ∷ others))
            out.old.items out.new.items (is_ok result) }
        ensures selects { OnOk result (List ℕ → List (List ℕ) → false ≡ false) }
        ensures spent { self.new.spent ≡ not (is_ok result) }
        ensures no_memory { result ≡ Ok tt }
    {
        count_piece(self.columns, &mut self.counts, &mut self.before, piece);
        Ok(())
    }

    fn end_input(&mut self, out: &mut Vec<u8>) -> Result<(), Memory> {
        let ended = put_counts(self.columns, self.counts, self.labels.first(), out);
        self.labels.pass();
        self.sums = add_counts(self.sums, self.counts);
        self.counts = Counts::default();
        self.before = SPACE;
        self.spent = ended.is_err();
        ended
    }

    fn finish(&mut self, out: &mut Vec<u8>) -> Result<(), Memory> {
        let finished = put_total(self.has_total, self.columns, self.sums, out);
        self.spent = finished.is_err();
        finished
    }

    fn has_selected(&self) -> bool {
        false
    }

    fn is_spent(&self) -> bool {
        self.spent
    }
}

/// Appends the line of the sums, where there is one.
#[tactic(auto, using(ut_streams::proofs::StreamLemmas::puts))]
fn put_total(
    has_total: bool,
    columns: Columns,
    sums: Counts,
    out: &mut Vec<u8>,
) -> Result<(), Memory>
    ensures { Put (total_line has_total columns sums) out.old.items out.new.items (is_ok result) }
{
    if !has_total {
        return Ok(());
    }
    put_counts(columns, sums, b"total", out)
}

/// A copy of the name of the one input of an invocation with at most one operand, where it has one.
pub(crate) fn name_of(alloc: Global, args: &WcArgs) -> Result<Vec<u8>, Memory>
    ensures { IfOk result (λ name. name.items ≡ name_in_def args.now.operands) }
{
    Ok(Vec::from_slice(alloc, first_name(&args.operands))?)
}

/// Counts a piece, which stands behind this byte, and keeps its last one.
fn count_piece(columns: Columns, counts: &mut Counts, before: &mut u8, piece: &[u8])
    ensures { (more : List ℕ) → PrintAlike columns (counts_behind counts.new before.new more) (counts_behind counts.old before.old (piece.now ++ more)) }
{
    *counts = counted(columns, *counts, *before, piece);
    *before = last_byte(*before, piece);
}

/// The counts with those of a piece, which stands behind this byte: of those that are asked for.
#[tactic(auto, using(crate::proofs::ColumnLemmas::counted))]
fn counted(columns: Columns, counts: Counts, before: u8, piece: &[u8]) -> Counts
    ensures { (more : List ℕ) → PrintAlike columns (counts_behind result (last_behind before piece.now) more) (counts_behind counts before (piece.now ++ more)) }
{
    Counts {
        lines: lines_with(columns.lines, counts.lines, piece),
        words: words_with(columns.words, counts.words, before, piece),
        bytes: add_sat(counts.bytes, piece.len() as u64),
    }
}

/// The newlines with those of a piece, where they are asked for.
fn lines_with(asked: bool, count: u64, piece: &[u8]) -> u64
    ensures { asked ≡ true → result ≡ saturated (count + newlines_def piece.now) }
{
    if asked {
        return add_sat(count, newlines(piece) as u64);
    }
    count
}

/// The words with those that begin in a piece, where they are asked for.
fn words_with(asked: bool, count: u64, before: u8, piece: &[u8]) -> u64
    ensures { asked ≡ true → result ≡ saturated (count + words_behind before piece.now) }
{
    if asked {
        return add_sat(count, words(before, piece) as u64);
    }
    count
}
