//! The streams of any invocation of grep.
ghost use Rattle.std.specs.Prelude.{◌≡◌, ◌∷◌, ◌&&◌, ℕ, List, [], false, IfOk, OnOk};
ghost use Rattle.std.specs.List.{filter, flat_map, list_any};
ghost use Rattle.std.specs.Result.{is_ok};
ghost use Rattle.ut_args.specs.Inputs.{is_named};
ghost use Rattle.ut_regex.specs.Answers.{answers};
ghost use Rattle.ut_streams.specs.Streams.{Wrote};
ghost use Rattle.ut_streams.specs.Utilities.{labelled};
ghost use Rattle.ut_grep.specs.Grep.{label_in};
ghost use Rattle.ut_grep.specs.Output.{picked_by};
ghost use Rattle.ut_grep.specs.Patterns.{first_number as first_number_def, head_by as head_by_def, head_of as head_of_def, is_selected, name_of as name_of_def, selects, written};
ghost use Rattle.ut_grep.specs.Series.{is_silent};

use crate::patterns::read_patterns;
use crate::selection::Selection;
use crate::tally::Tally;
use ps_lines::{Memory, NEWLINE};
use std::alloc::Global;
use ut_args::{GrepArgs, GrepInv, Labels, Report, first_name, has_at_most_one};
use ut_regex::compile_any;
use ut_streams::{Lines, Series, Stream};

/// What `grep` writes of one of its inputs.
#[derive(Drop)]
pub struct Grep {
    lines: Lines<Selection>,
}

impl Grep {
    /// The stream of an input of an invocation, from its beginning.
    ///
    /// `label` is the operand that names the input; it is empty where standard input is read without one. Where a pattern is none that can
    /// be read there is no stream, and `Memory` is told: `check` says before whether that is so.
    pub fn new(alloc: Global, inv: &GrepInv, label: &[u8]) -> Result<Grep, Memory>
        ensures due { IfOk result (λ grep. (text : List ℕ) → ⟦<Grep as Stream>⟧.due grep text ≡ written inv.now.args label.now text) }
        ensures selects { IfOk result (λ grep. (text : List ℕ) → ⟦<Grep as Stream>⟧.selects grep text ≡ selects inv.now.args text) }
        ensures unspent { IfOk result (λ grep. ⟦<Grep as Stream>⟧.spent grep ≡ false) }
    {
        match selection_of(alloc, &inv.args, label) {
            Ok(selection) => Ok(Grep {
                lines: Lines::new(alloc, selection),
            }),
            Err(memory) => Err(memory),
        }
    }

    /// The stream of the map of an invocation, from the beginning of its one input.
    pub fn of_part(alloc: Global, inv: &GrepInv) -> Result<Grep, Memory>
        ensures due { IfOk result (λ grep. (text : List ℕ) → ⟦<Grep as Stream>⟧.due grep text ≡ written inv.now.args (label_in inv.now.args.operands) text) }
        ensures selects { IfOk result (λ grep. (text : List ℕ) → ⟦<Grep as Stream>⟧.selects grep text ≡ selects inv.now.args text) }
        ensures unspent { IfOk result (λ grep. ⟦<Grep as Stream>⟧.spent grep ≡ false) }
    {
        Grep::new(alloc, inv, first_name(&inv.args.operands))
    }

    /// Whether a line was selected; after `finish` this is whether the input has such a line.
    pub fn selected(&self) -> bool
        ensures { result ≡ ⟦<Grep as Stream>⟧.selected self.now }
    {
        self.lines.has_selected()
    }
}

/// The lines that an invocation selects, before the first line of an input with this name.
fn selection_of(alloc: Global, args: &GrepArgs, label: &[u8]) -> Result<Selection, Memory>
    ensures test { IfOk result (λ selection. picked_by selection.inverts (answers selection.matcher) ≡ is_selected args.now) }
    ensures report { IfOk result (λ selection. selection.tally.report ≡ args.now.report) }
    ensures head { IfOk result (λ selection. selection.tally.head.items ≡ head_of_def args.now label.now) }
    ensures number { IfOk result (λ selection. selection.tally.number ≡ first_number_def args.now) }
    ensures count { IfOk result (λ selection. selection.tally.count ≡ 0) }
    ensures selected { IfOk result (λ selection. selection.tally.selected ≡ false) }
{
    let Ok(expressions) = read_patterns(alloc, args.syntax, args.patterns.as_slice()) else {
        return Err(Memory);
    };
    let matcher = compile_any(
        alloc,
        expressions.as_slice(),
        args.ignores_case,
        args.whole_lines,
    )?;
    let head = head_by(alloc, args.report, has_at_most_one(&args.operands), label)?;
    let tally = Tally {
        report: args.report,
        head,
        number: first_number(args),
        count: 0,
        selected: false,
    };
    Ok(Selection {
        matcher,
        inverts: args.inverts,
        tally,
    })
}

/// The number of the first line, where lines are numbered.
fn first_number(args: &GrepArgs) -> Option<u64>
    ensures { result ≡ first_number_def args.now }
{
    if args.numbers { Some(1) } else { None }
}

/// What stands before the lines and counts of an input, or what is written of one that has a selected line.
///
/// `alone` says that no name stands before lines and counts, as with at most one operand.
fn head_by(alloc: Global, report: Report, alone: bool, label: &[u8]) -> Result<Vec<u8>, Memory>
    ensures { IfOk result (λ head. head.items ≡ head_by_def report alone (name_of_def label.now)) }
{
    let mut head = Vec::new(alloc);
    match report {
        Report::Lines | Report::Count => {
            if !alone {
                head.extend_from_slice(name_of(label))?;
                head.push(b':')?;
            }
        }
        Report::Path => {
            head.extend_from_slice(name_of(label))?;
            head.push(NEWLINE)?;
        }
        Report::Nothing => {}
    }
    Ok(head)
}

/// The name of an input as it is written.
fn name_of(label: &[u8]) -> &[u8]
    ensures { result.now ≡ name_of_def label.now }
{
    if label.is_empty() || label == b"-".as_slice() {
        return b"(standard input)".as_slice();
    }
    label
}

impl Stream for Grep {
    ghost due = { λ grep. ⟦<Lines<Selection> as Stream>⟧.due grep.lines };

    ghost selects = { λ grep. ⟦<Lines<Selection> as Stream>⟧.selects grep.lines };

    ghost selected = { λ grep. ⟦<Lines<Selection> as Stream>⟧.selected grep.lines };

    ghost spent = { λ grep. ⟦<Lines<Selection> as Stream>⟧.spent grep.lines };

    fn feed(&mut self, piece: &[u8], out: &mut Vec<u8>) -> Result<(), Memory> {
        self.lines.feed(piece, out)
    }

    fn finish(&mut self, out: &mut Vec<u8>) -> Result<(), Memory> {
        self.lines.finish(out)
    }

    fn has_selected(&self) -> bool {
        self.lines.has_selected()
    }

    fn is_spent(&self) -> bool {
        self.lines.is_spent()
    }
}

/// What `grep` writes of its inputs, one after another. The expression is compiled once.
#[derive(Drop)]
pub struct GrepSeries {
    alloc: Global,
    lines: Lines<Selection>,
    /// The names of the inputs to come, of which the first is that of the input whose turn it is.
    labels: Labels,
    report: Report,
    /// Whether no name stands before lines and counts, as with at most one operand.
    alone: bool,
    /// The number of an input's first line, where lines are numbered.
    first: Option<u64>,
    /// Whether a line of an input that has ended is selected.
    selected: bool,
    spent: bool,
    ghost usable: { spent ≡ false → lines.spent ≡ false },
}

impl GrepSeries {
    /// The series of an invocation, from the beginning of its inputs.
    ///
    /// Where a pattern is none that can be read there is no series, and `Memory` is told: `check` says before whether that is so.
    pub fn new(alloc: Global, inv: &GrepInv) -> Result<GrepSeries, Memory>
        ensures due { IfOk result (λ series. (texts : List (List ℕ)) → ⟦<GrepSeries as Series>⟧.due series texts
            ≡ flat_map (λ input. written inv.now.args input.label input.text) (labelled (filter is_named inv.now.args.operands) texts)) }
        ensures selects { IfOk result (λ series. (texts : List (List ℕ)) → ⟦<GrepSeries as Series>⟧.selects series texts
            ≡ list_any (λ input. selects inv.now.args input.text) (labelled (filter is_named inv.now.args.operands) texts)) }
        ensures unspent { IfOk result (λ series. ⟦<GrepSeries as Series>⟧.spent series ≡ false) }
    {
        let labels = match Labels::of(alloc, &inv.args.operands) {
            Ok(labels) => labels,
            Err(memory) => return Err(memory),
        };
        let selection = match selection_of(alloc, &inv.args, labels.first()) {
            Ok(selection) => selection,
            Err(memory) => return Err(memory),
        };
        Ok(GrepSeries {
            alloc,
            lines: Lines::new(alloc, selection),
            labels,
            report: inv.args.report,
            alone: has_at_most_one(&inv.args.operands),
            first: first_number(&inv.args),
            selected: false,
            spent: false,
        })
    }

    /// Ends the lines of an input, and begins the next.
    #[tactic(auto, using(crate::proofs::SeriesLemmas::ends))]
    fn end_lines(&mut self, out: &mut Vec<u8>) -> Result<(), Memory>
        requires { ⟦<GrepSeries as Series>⟧.spent self.old ≡ false }
        ensures wrote { Wrote (λ others. ⟦<GrepSeries as Series>⟧.due self.old ([] ∷ others)) (⟦<GrepSeries as Series>⟧.due self.new) out.old.items out.new.items (is_ok result) }
        ensures selects { OnOk result ((others : List (List ℕ)) → ⟦<GrepSeries as Series>⟧.selects self.new others ≡ ⟦<GrepSeries as Series>⟧.selects self.old ([] ∷ others)) }
        ensures usable { OnOk result (self.new.lines.spent ≡ false) }
    {
        match self.lines.end(out) {
            Ok(()) => {}
            Err(memory) => {
                self.spent = true;
                return Err(memory);
            }
        }
        self.labels.pass();
        let head = match head_by(self.alloc, self.report, self.alone, self.labels.first()) {
            Ok(head) => head,
            Err(memory) => return Err(memory),
        };
        self.selected |= self.lines.each.tally.selected;
        begin_next(&mut self.lines, self.report, head, self.first);
        Ok(())
    }
}

/// The lines of the next input begin, with this report and head, and this number of its first line.
fn begin_next(lines: &mut Lines<Selection>, report: Report, head: Vec<u8>, number: Option<u64>)
    ensures test { picked_by lines.new.each.inverts (answers lines.new.each.matcher) ≡ picked_by lines.old.each.inverts (answers lines.old.each.matcher) }
    ensures report { lines.new.each.tally.report ≡ report }
    ensures head { lines.new.each.tally.head.items ≡ head.items }
    ensures number { lines.new.each.tally.number ≡ number }
    ensures count { lines.new.each.tally.count ≡ 0 }
    ensures selected { lines.new.each.tally.selected ≡ (is_silent report && lines.old.each.tally.selected) }
    ensures held { lines.new.held.items ≡ [] }
    ensures spent { lines.new.spent ≡ false }
{
    lines.each.tally.begin_next(report, head, number);
    lines.begin_anew();
}

impl Series for GrepSeries {
    ghost use Rattle.ut_regex.specs.Answers.{answers};
    ghost use Rattle.ut_grep.specs.Output.{picked_by};
    ghost use Rattle.ut_grep.specs.Series.{due_in_order, has_selected, selects_in_order, written_by};

    ghost due = { λ series texts. due_in_order (⟦<Lines<Selection> as Stream>⟧.due series.lines)
        (written_by series.report series.alone series.first (picked_by series.lines.each.inverts (answers series.lines.each.matcher))) series.labels texts };

    ghost selects = { λ series texts. selects_in_order series.selected (⟦<Lines<Selection> as Stream>⟧.selects series.lines)
        (has_selected (picked_by series.lines.each.inverts (answers series.lines.each.matcher))) series.labels texts };

    ghost selected = { λ series. series.selected };

    ghost spent = { λ series. series.spent };

    /// An input isn't looked at any more once nothing is written of it whatever comes.
    #[tactic(auto, using(crate::proofs::SeriesLemmas::feeds))]
    fn feed(&mut self, piece: &[u8], out: &mut Vec<u8>) -> Result<(), Memory> {
        if self.lines.each.tally.is_done() {
            return Ok(());
        }
        let fed = self.lines.take_piece(piece, out);
        self.spent = fed.is_err();
        fed
    }

    fn end_input(&mut self, out: &mut Vec<u8>) -> Result<(), Memory> {
        let ended = self.end_lines(out);
        self.spent = ended.is_err();
        ended
    }

    /// Takes no memory, and so never answers Memory.
    #[tactic(auto, using(ut_streams::proofs::StreamLemmas::puts))]
    fn finish(&mut self, _out: &mut Vec<u8>) -> Result<(), Memory> {
        Ok(())
    }

    fn has_selected(&self) -> bool {
        self.selected
    }

    fn is_spent(&self) -> bool {
        self.spent
    }
}
