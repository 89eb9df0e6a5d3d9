//! What grep writes of lines that are selected.
ghost use Rattle.std.specs.Prelude.{◌≡◌, ◌+◌, ◌∷◌, ◌++◌, if◌then◌else◌, ℕ, Bool, List, [], length, true, decimal as decimal_def};
ghost use Rattle.std.specs.Result.{is_ok};
ghost use Rattle.ps_lines.specs.Lines.{is_closed, lines};
ghost use Rattle.ut_streams.specs.Streams.{Put, Wrote};
ghost use Rattle.ut_grep.specs.Output.{AllAre, count_shown, number_behind as number_behind_def, number_shown, is_plain, saturated, selected_from, shown};

use memchr::memchr_iter;
use ps_lines::{Memory, NEWLINE, cut_line, decimal};
use ut_args::Report;
use ut_streams::{put, put_line};

/// What was selected of an input so far, as far as the output hangs on it.
#[derive(Drop)]
pub(crate) struct Tally {
    pub report: Report,
    /// What stands before each line that is written, or before the count; or what is written of an input that has a selected line.
    pub head: Vec<u8>,
    /// The number of the next line, where lines are numbered.
    pub number: Option<u64>,
    /// How many lines were selected, where they are counted.
    pub count: u64,
    /// Whether a line was selected.
    pub selected: bool,
}

impl Tally {
    ghost use Rattle.std.specs.Prelude.{◌≡◌, ◌∷◌, ◌++◌, ◌&&◌, ℕ, Bool, List, [], true, OnOk};
    ghost use Rattle.std.specs.Result.{is_ok};
    ghost use Rattle.ps_lines.specs.Lines.{is_closed, lines};
    ghost use Rattle.ut_streams.specs.Streams.{Put, Wrote};
    ghost use Rattle.ut_grep.specs.Output.{AllAre, is_brief};
    ghost use Rattle.ut_grep.specs.Series.{is_silent};
    ghost use Rattle.ut_grep.specs.Tallies.{due_of, selects_of};

    /// Takes the lines of a closed text, which are all selected, or all not.
    pub(crate) fn take(
        &mut self,
        block: &[u8],
        picked: bool,
        out: &mut Vec<u8>,
    ) -> Result<(), Memory>
        requires closed { is_closed block.now ≡ true }
        ensures wrote { (test : List ℕ → Bool) → AllAre test picked (lines block.now)
            → Wrote (λ more. due_of self.old test (lines block.now ++ more)) (due_of self.new test) out.old.items out.new.items (is_ok result) }
        ensures selects { OnOk result ((test : List ℕ → Bool) → AllAre test picked (lines block.now)
            → (more : List (List ℕ)) → selects_of self.new test more ≡ selects_of self.old test (lines block.now ++ more)) }
    {
        if block.is_empty() {
            return Ok(());
        }
        if !picked {
            self.number = number_behind(self.number, block);
            return Ok(());
        }
        match self.report {
            Report::Lines => {
                self.selected = true;
                put_block(&self.head, &mut self.number, block, out)
            }
            Report::Count => {
                self.selected = true;
                self.count = with_more(self.count, line_count(block));
                Ok(())
            }
            Report::Path => put_first(&self.head, &mut self.selected, out),
            Report::Nothing => {
                self.selected = true;
                Ok(())
            }
        }
    }

    /// Takes one line, which is selected or not.
    pub(crate) fn take_line(
        &mut self,
        line: &[u8],
        picked: bool,
        out: &mut Vec<u8>,
    ) -> Result<(), Memory>
        ensures wrote { (test : List ℕ → Bool) → test line.now ≡ picked
            → Wrote (λ more. due_of self.old test (line.now ∷ more)) (due_of self.new test) out.old.items out.new.items (is_ok result) }
        ensures selects { OnOk result ((test : List ℕ → Bool) → test line.now ≡ picked
            → (more : List (List ℕ)) → selects_of self.new test more ≡ selects_of self.old test (line.now ∷ more)) }
    {
        if !picked {
            self.number = next_number(self.number);
            return Ok(());
        }
        match self.report {
            Report::Lines => {
                self.selected = true;
                put_shown(&self.head, &mut self.number, line, out)
            }
            Report::Count => {
                self.selected = true;
                self.count = with_more(self.count, 1);
                Ok(())
            }
            Report::Path => put_first(&self.head, &mut self.selected, out),
            Report::Nothing => {
                self.selected = true;
                Ok(())
            }
        }
    }

    /// There are no more lines: appends their number where they are counted.
    pub(crate) fn end(&mut self, out: &mut Vec<u8>) -> Result<(), Memory>
        ensures wrote { (test : List ℕ → Bool) → Put (due_of self.old test []) out.old.items out.new.items (is_ok result) }
        ensures selected { self.new.selected ≡ self.old.selected }
    {
        match self.report {
            Report::Count => put_count(&self.head, self.count, out),
            Report::Lines | Report::Path | Report::Nothing => Ok(()),
        }
    }

    /// The next input begins, with this report and head, and this number of its first line. Where nothing is written one selected line is enough, and
    /// stays selected.
    pub(crate) fn begin_next(&mut self, report: Report, head: Vec<u8>, number: Option<u64>)
        ensures report { self.new.report ≡ report }
        ensures head { self.new.head.items ≡ head.items }
        ensures number { self.new.number ≡ number }
        ensures count { self.new.count ≡ 0 }
        ensures selected { self.new.selected ≡ (is_silent report && self.old.selected) }
    {
        self.report = report;
        self.selected = matches!(report, Report::Nothing) && self.selected;
        self.head = head;
        self.number = number;
        self.count = 0;
    }

    /// Whether a line is selected, and nothing is written whatever comes.
    pub(crate) fn is_done(&self) -> bool
        ensures { result ≡ (self.now.selected && is_brief self.now.report) }
    {
        self.selected && matches!(self.report, Report::Path | Report::Nothing)
    }
}

/// The number of the line behind this one.
fn next_number(number: Option<u64>) -> Option<u64>
    ensures { result ≡ number_behind_def 1 number }
{
    match number {
        Some(number) => Some(number.saturating_add(1)),
        None => None,
    }
}

/// The number of the line behind those of a closed text.
fn number_behind(number: Option<u64>, block: &[u8]) -> Option<u64>
    requires { is_closed block.now ≡ true }
    ensures { result ≡ number_behind_def (length (lines block.now)) number }
{
    match number {
        Some(number) => Some(number.saturating_add(line_count(block) as u64)),
        None => None,
    }
}

/// How many lines a closed text has.
fn line_count(block: &[u8]) -> usize
    requires { is_closed block.now ≡ true }
    ensures { result ≡ length (lines block.now) }
{
    memchr_iter(NEWLINE, block).count()
}

/// A count and so many more, as far as 64 bits count.
fn with_more(count: u64, more: usize) -> u64
    ensures { result ≡ saturated (count + more) }
{
    count.saturating_add(more as u64)
}

/// Appends a head, unless something was selected before.
#[tactic(auto, using(ut_streams::proofs::StreamLemmas::puts))]
fn put_first(head: &[u8], selected: &mut bool, out: &mut Vec<u8>) -> Result<(), Memory>
    ensures wrote { Put (if selected.old then [] else head.now) out.old.items out.new.items (is_ok result) }
    ensures selected { selected.new ≡ true }
{
    if *selected {
        return Ok(());
    }
    *selected = true;
    put(head, out)
}

/// Whether nothing stands before a line.
fn is_plain(head: &[u8], number: Option<u64>) -> bool
    ensures { result ≡ is_plain head.now number }
{
    match number {
        Some(_) => false,
        None => head.is_empty(),
    }
}

/// Appends the lines of a closed text, all of which are selected.
fn put_block(
    head: &[u8],
    number: &mut Option<u64>,
    block: &[u8],
    out: &mut Vec<u8>,
) -> Result<(), Memory>
    requires closed { is_closed block.now ≡ true }
    ensures wrote { (test : List ℕ → Bool) → AllAre test true (lines block.now)
        → Wrote (λ more. selected_from test head.now number.old (lines block.now ++ more)) (selected_from test head.now number.new) out.old.items out.new.items (is_ok result) }
{
    if is_plain(head, *number) {
        return put(block, out);
    }
    put_lines(head, number, block, out)
}

/// The same, line by line.
fn put_lines(
    head: &[u8],
    number: &mut Option<u64>,
    block: &[u8],
    out: &mut Vec<u8>,
) -> Result<(), Memory>
    requires closed { is_closed block.now ≡ true }
    ensures wrote { (test : List ℕ → Bool) → AllAre test true (lines block.now)
        → Wrote (λ more. selected_from test head.now number.old (lines block.now ++ more)) (selected_from test head.now number.new) out.old.items out.new.items (is_ok result) }
{
    let mut left = block;
    while let Some((line, rest)) = cut_line(left) {
        match put_shown(head, number, line, out) {
            Ok(()) => left = rest,
            Err(memory) => return Err(memory),
        }
    }
    Ok(())
}

/// Appends a selected line behind a head and its number, which goes on.
#[tactic(auto, using(ut_streams::proofs::StreamLemmas::puts))]
fn put_shown(
    head: &[u8],
    number: &mut Option<u64>,
    line: &[u8],
    out: &mut Vec<u8>,
) -> Result<(), Memory>
    ensures wrote { Put (shown head.now number.old line.now) out.old.items out.new.items (is_ok result) }
    ensures number { number.new ≡ number_behind_def 1 number.old }
{
    let here = *number;
    *number = next_number(here);
    match put(head, out) {
        Ok(()) => put_numbered(here, line, out),
        Err(memory) => Err(memory),
    }
}

/// Appends a line behind its number.
#[tactic(auto, using(ut_streams::proofs::StreamLemmas::puts))]
fn put_numbered(number: Option<u64>, line: &[u8], out: &mut Vec<u8>) -> Result<(), Memory>
    ensures { Put (number_shown number ++ (line.now ++ NEWLINE ∷ [])) out.old.items out.new.items (is_ok result) }
{
    match put_number(number, out) {
        Ok(()) => put_line(line, out),
        Err(memory) => Err(memory),
    }
}

/// Appends the number of a line, where lines are numbered.
#[tactic(auto, using(ut_streams::proofs::StreamLemmas::puts))]
fn put_number(number: Option<u64>, out: &mut Vec<u8>) -> Result<(), Memory>
    ensures { Put (number_shown number) out.old.items out.new.items (is_ok result) }
{
    match number {
        Some(number) => put_decimal(number, b':', out),
        None => Ok(()),
    }
}

/// Appends a number and a byte.
#[tactic(auto, using(ut_streams::proofs::StreamLemmas::puts))]
fn put_decimal(number: u64, end: u8, out: &mut Vec<u8>) -> Result<(), Memory>
    ensures { Put (decimal_def number ++ end ∷ []) out.old.items out.new.items (is_ok result) }
{
    match decimal(number, out) {
        Ok(()) => put(&[end], out),
        Err(memory) => Err(memory),
    }
}

/// Appends a count on a line of its own, behind a head.
#[tactic(auto, using(crate::proofs::TallyLemmas::counts))]
fn put_count(head: &[u8], count: u64, out: &mut Vec<u8>) -> Result<(), Memory>
    ensures { Put (count_shown head.now count) out.old.items out.new.items (is_ok result) }
{
    match put(head, out) {
        Ok(()) => put_decimal(count, NEWLINE, out),
        Err(memory) => Err(memory),
    }
}
