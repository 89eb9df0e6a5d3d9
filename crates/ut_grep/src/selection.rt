//! The lines of an input that grep selects.
ghost use Rattle.std.specs.Prelude.{◌≡◌, ◌∷◌, ◌++◌, ℕ, Bool, List, OnOk, not, true};
ghost use Rattle.std.specs.Result.{is_ok};
ghost use Rattle.ps_lines.specs.Lines.{is_closed, lines};
ghost use Rattle.ut_streams.specs.Streams.{Wrote};
ghost use Rattle.ut_regex.specs.Answers.{answers};
ghost use Rattle.ut_grep.specs.Output.{AllAre, picked, picked_by};
ghost use Rattle.ut_grep.specs.Tallies.{due_of, selects_of};

use crate::tally::Tally;
use ps_lines::Memory;
use ut_regex::Matcher;
use ut_streams::LineStream;

/// The lines in which a matcher finds something, or the others, and what is written of them.
#[derive(Drop)]
pub(crate) struct Selection {
    pub matcher: Matcher,
    /// Whether the other lines are selected.
    pub inverts: bool,
    pub tally: Tally,
}

impl LineStream for Selection {
    ghost line_due = { λ selection coming. due_of selection.tally (picked_by selection.inverts (answers selection.matcher)) coming };

    ghost line_selects = { λ selection coming. selects_of selection.tally (picked_by selection.inverts (answers selection.matcher)) coming };

    ghost line_selected = { λ selection. selection.tally.selected };

    ghost line_test = { λ selection. picked_by selection.inverts (answers selection.matcher) };

    fn line(&mut self, line: &[u8], out: &mut Vec<u8>) -> Result<(), Memory> {
        take_line(&mut self.matcher, self.inverts, &mut self.tally, line, out)
    }

    fn whole_lines(&mut self, text: &[u8], out: &mut Vec<u8>) -> Result<(), Memory> {
        take_lines(&mut self.matcher, self.inverts, &mut self.tally, text, out)
    }

    fn end(&mut self, out: &mut Vec<u8>) -> Result<(), Memory> {
        self.tally.end(out)
    }

    fn has_selected(&self) -> bool {
        self.tally.selected
    }
}

/// Whether a line is selected, by whether something was found in it.
fn is_picked(inverts: bool, found: bool) -> bool
    ensures { result ≡ picked inverts found }
{
    if inverts { !found } else { found }
}

/// Takes one line.
fn take_line(
    matcher: &mut Matcher,
    inverts: bool,
    tally: &mut Tally,
    line: &[u8],
    out: &mut Vec<u8>,
) -> Result<(), Memory>
    ensures wrote { Wrote (λ more. due_of tally.old (picked_by inverts (answers matcher.old)) (line.now ∷ more)) (due_of tally.new (picked_by inverts (answers matcher.new)))
        out.old.items out.new.items (is_ok result) }
    ensures selects { OnOk result ((more : List (List ℕ)) → selects_of tally.new (picked_by inverts (answers matcher.new)) more
        ≡ selects_of tally.old (picked_by inverts (answers matcher.old)) (line.now ∷ more)) }
    ensures tested { (other : List ℕ) → answers matcher.new other ≡ answers matcher.old other }
{
    let found = matcher.has(line);
    tally.take_line(line, is_picked(inverts, found), out)
}

/// Takes the lines of a closed text: what stands before a line in which something is found goes as a whole.
fn take_lines(
    matcher: &mut Matcher,
    inverts: bool,
    tally: &mut Tally,
    text: &[u8],
    out: &mut Vec<u8>,
) -> Result<(), Memory>
    requires closed { is_closed text.now ≡ true }
    ensures wrote { Wrote (λ more. due_of tally.old (picked_by inverts (answers matcher.old)) (lines text.now ++ more)) (due_of tally.new (picked_by inverts (answers matcher.new)))
        out.old.items out.new.items (is_ok result) }
    ensures selects { OnOk result ((more : List (List ℕ)) → selects_of tally.new (picked_by inverts (answers matcher.new)) more
        ≡ selects_of tally.old (picked_by inverts (answers matcher.old)) (lines text.now ++ more)) }
    ensures tested { (other : List ℕ) → answers matcher.new other ≡ answers matcher.old other }
{
    let mut left = text;
    while !tally.is_done() {
        let Some(cut) = matcher.first_having(left) else {
            return tally.take(left, inverts, out);
        };
        match take_found(tally, inverts, cut.before, cut.line, out) {
            Ok(()) => left = cut.rest,
            Err(memory) => return Err(memory),
        }
    }
    Ok(())
}

/// Takes the lines of a closed text in which nothing is found, and then one in which something is.
fn take_found(
    tally: &mut Tally,
    inverts: bool,
    before: &[u8],
    line: &[u8],
    out: &mut Vec<u8>,
) -> Result<(), Memory>
    requires closed { is_closed before.now ≡ true }
    ensures wrote { (test : List ℕ → Bool) → AllAre test inverts (lines before.now) → test line.now ≡ not inverts
        → Wrote (λ more. due_of tally.old test (lines before.now ++ line.now ∷ more)) (due_of tally.new test) out.old.items out.new.items (is_ok result) }
    ensures selects { OnOk result ((test : List ℕ → Bool) → AllAre test inverts (lines before.now) → test line.now ≡ not inverts
        → (more : List (List ℕ)) → selects_of tally.new test more ≡ selects_of tally.old test (lines before.now ++ line.now ∷ more)) }
{
    match tally.take(before, inverts, out) {
        Ok(()) => tally.take_line(line, !inverts, out),
        Err(memory) => Err(memory),
    }
}
