//! Streams of lines.
ghost use Rattle.std.specs.Prelude.{◌≡◌, ◌+◌, ℕ, length, ◌∷◌, ◌++◌, List, [], Bool, false, true, not, OnOk, OnErr};
ghost use Rattle.std.specs.List.{flat_map};
ghost use Rattle.std.specs.Result.{is_ok};
ghost use Rattle.ps_lines.specs.Lines.{has_newline, is_closed, lines};
ghost use Rattle.ut_streams.specs.Streams.{CutsLastLine, Put, Wrote};

use crate::streams::Stream;
use memchr::memrchr;
use ps_lines::{Memory, NEWLINE, cut_line};
use std::alloc::Global;

/// A utility of one input that goes by its lines, without their newlines; an unclosed last line is a line like others.
pub trait LineStream: Drop {
    /// What is still to be written, if these lines and no others come.
    ghost line_due: { Self → List (List ℕ) → List ℕ };
    /// Whether something will have been selected, if these lines and no others come.
    ghost line_selects: { Self → List (List ℕ) → Bool };
    /// Whether something has been selected.
    ghost line_selected: { Self → Bool };
    /// Whether a line is selected, taken by itself: no call changes that.
    ghost line_test: { Self → List ℕ → Bool };

    /// Takes the next line, and appends what is determined by now.
    fn line(&mut self, line: &[u8], out: &mut Vec<u8>) -> Result<(), Memory>
        ensures wrote { Wrote (λ more. line_due self.old (line.now ∷ more)) (line_due self.new) out.old.items out.new.items (is_ok result) }
        ensures selects { OnOk result ((more : List (List ℕ)) → line_selects self.new more ≡ line_selects self.old (line.now ∷ more)) }
        ensures tested { (other : List ℕ) → line_test self.new other ≡ line_test self.old other };

    /// Takes the lines of a closed text, one after another. A utility that can look for what it wants without going from line to
    /// line has a body of its own here.
    fn whole_lines(&mut self, text: &[u8], out: &mut Vec<u8>) -> Result<(), Memory>
        requires { is_closed text.now ≡ true }
        ensures wrote { Wrote (λ more. line_due self.old (lines text.now ++ more)) (line_due self.new) out.old.items out.new.items (is_ok result) }
        ensures selects { OnOk result ((more : List (List ℕ)) → line_selects self.new more ≡ line_selects self.old (lines text.now ++ more)) }
        ensures tested { (other : List ℕ) → line_test self.new other ≡ line_test self.old other }
    {
        let mut left = text;
        while let Some((line, rest)) = cut_line(left) {
            match self.line(line, out) {
                Ok(()) => left = rest,
                Err(memory) => return Err(memory),
            }
        }
        Ok(())
    }

    /// There are no more lines: appends the rest of the output.
    fn end(&mut self, out: &mut Vec<u8>) -> Result<(), Memory>
        ensures wrote { Put (line_due self.old []) out.old.items out.new.items (is_ok result) }
        ensures selected { OnOk result (line_selected self.new ≡ line_selects self.old []) }
        ensures tested { (other : List ℕ) → line_test self.new other ≡ line_test self.old other };

    /// Whether something has been selected.
    fn has_selected(&self) -> bool
        ensures { result ≡ line_selected self.now };
}

/// A utility that does each line by itself.
pub trait PerLine: Drop {
    /// What it writes for a line.
    ghost of: { Self → List ℕ → List ℕ };

    /// Appends what is written for this line.
    fn one(&self, line: &[u8], out: &mut Vec<u8>) -> Result<(), Memory>
        ensures { Put (of self.now line.now) out.old.items out.new.items (is_ok result) };
}

/// Lines that are done each by itself, one after another.
#[derive(Drop)]
pub struct EachLine<P> {
    pub by: P,
}

impl<P: PerLine> LineStream for EachLine<P> {
    ghost line_due = { λ each coming. flat_map (P.of each.by) coming };

    ghost line_selects = { λ _ _. false };

    ghost line_selected = { λ _. false };

    ghost line_test = { λ _ _. false };

    #[tactic(auto, using(crate::proofs::StreamLemmas::each_line))]
    fn line(&mut self, line: &[u8], out: &mut Vec<u8>) -> Result<(), Memory> {
        self.by.one(line, out)
    }

    #[tactic(auto, using(crate::proofs::StreamLemmas::puts))]
    fn end(&mut self, _out: &mut Vec<u8>) -> Result<(), Memory> {
        Ok(())
    }

    fn has_selected(&self) -> bool {
        false
    }
}

/// A stream of bytes over a stream of lines: it holds the bytes of a line that hasn't ended.
#[derive(Drop)]
pub struct Lines<L> {
    pub each: L,
    held: Vec<u8>,
    spent: bool,
    ghost plain: { has_newline held.items ≡ false },
}

impl<L: LineStream> Lines<L> {
    /// The lines of an input, from its beginning.
    pub fn new(alloc: Global, each: L) -> Lines<L>
        ensures each { result.each ≡ each }
        ensures held { result.held.items ≡ [] }
        ensures spent { result.spent ≡ false }
    {
        Lines {
            each,
            held: Vec::new(alloc),
            spent: false,
        }
    }

    /// Takes the next piece as `feed` does. A line is selected as before.
    pub fn take_piece(&mut self, piece: &[u8], out: &mut Vec<u8>) -> Result<(), Memory>
        ensures wrote { Wrote (λ more. L.line_due self.old.each (lines (self.old.held.items ++ (piece.now ++ more))))
            (λ more. L.line_due self.new.each (lines (self.new.held.items ++ more))) out.old.items out.new.items (is_ok result) }
        ensures selects { OnOk result ((more : List ℕ) → L.line_selects self.new.each (lines (self.new.held.items ++ more)) ≡ L.line_selects self.old.each (lines (self.old.held.items ++ (piece.now ++ more)))) }
        ensures spent { self.new.spent ≡ not (is_ok result) }
        ensures tested { (line : List ℕ) → L.line_test self.new.each line ≡ L.line_test self.old.each line }
    {
        let fed = feed_lines(&mut self.each, &mut self.held, piece, out);
        self.spent = fed.is_err();
        fed
    }

    /// Ends the lines as `finish` does. A line is selected as before.
    pub fn end(&mut self, out: &mut Vec<u8>) -> Result<(), Memory>
        ensures wrote { Put (L.line_due self.old.each (lines (self.old.held.items ++ []))) out.old.items out.new.items (is_ok result) }
        ensures selected { OnOk result (L.line_selected self.new.each ≡ L.line_selects self.old.each (lines (self.old.held.items ++ []))) }
        ensures spent { self.new.spent ≡ not (is_ok result) }
        ensures tested { (line : List ℕ) → L.line_test self.new.each line ≡ L.line_test self.old.each line }
    {
        let ended = finish_lines(&mut self.each, self.held.as_slice(), out);
        self.spent = ended.is_err();
        ended
    }

    /// Begins anew with another input: what is held of a line goes.
    pub fn begin_anew(&mut self)
        ensures each { self.new.each ≡ self.old.each }
        ensures held { self.new.held.items ≡ [] }
        ensures spent { self.new.spent ≡ false }
    {
        self.held.clear();
        self.spent = false;
    }
}

impl<L: LineStream> Stream for Lines<L> {
    ghost due = { λ stream more. L.line_due stream.each (lines (stream.held.items ++ more)) };

    ghost selects = { λ stream more. L.line_selects stream.each (lines (stream.held.items ++ more)) };

    ghost selected = { λ stream. L.line_selected stream.each };

    ghost spent = { λ stream. stream.spent };

    fn feed(&mut self, piece: &[u8], out: &mut Vec<u8>) -> Result<(), Memory> {
        self.take_piece(piece, out)
    }

    fn finish(&mut self, out: &mut Vec<u8>) -> Result<(), Memory> {
        self.end(out)
    }

    fn has_selected(&self) -> bool {
        self.each.has_selected()
    }

    fn is_spent(&self) -> bool {
        self.spent
    }
}

/// Feeds a piece, of whose first line `held` has the beginning; then `held` has the beginning of the line after the piece's last newline.
fn feed_lines<L: LineStream>(
    each: &mut L,
    held: &mut Vec<u8>,
    piece: &[u8],
    out: &mut Vec<u8>,
) -> Result<(), Memory>
    requires { has_newline held.old.items ≡ false }
    ensures wrote { Wrote (λ more. L.line_due each.old (lines (held.old.items ++ (piece.now ++ more))))
        (λ more. L.line_due each.new (lines (held.new.items ++ more))) out.old.items out.new.items (is_ok result) }
    ensures selects { OnOk result ((more : List ℕ) → L.line_selects each.new (lines (held.new.items ++ more)) ≡ L.line_selects each.old (lines (held.old.items ++ (piece.now ++ more)))) }
    ensures plain { has_newline held.new.items ≡ false }
    ensures tested { (other : List ℕ) → L.line_test each.new other ≡ L.line_test each.old other }
{
    let Some((line, rest)) = cut_line(piece) else {
        return hold(held, piece);
    };
    match end_line(each, held, line, out) {
        Ok(()) => feed_whole_lines(each, held, rest, out),
        Err(memory) => Err(memory),
    }
}

/// Keeps the bytes of a line that hasn't ended.
fn hold(held: &mut Vec<u8>, bytes: &[u8]) -> Result<(), Memory>
    requires plain { has_newline held.old.items ≡ false }
    requires no_newline { has_newline bytes.now ≡ false }
    ensures ok { OnOk result (held.new.items ≡ held.old.items ++ bytes.now) }
    ensures err { OnErr result (held.new.items ≡ held.old.items) }
    ensures plain { has_newline held.new.items ≡ false }
{
    held.extend_from_slice(bytes)?;
    Ok(())
}

/// Does the line whose beginning is held and whose end is `line`.
fn end_line<L: LineStream>(
    each: &mut L,
    held: &mut Vec<u8>,
    line: &[u8],
    out: &mut Vec<u8>,
) -> Result<(), Memory>
    requires plain { has_newline held.old.items ≡ false }
    requires no_newline { has_newline line.now ≡ false }
    ensures wrote { Wrote (λ more. L.line_due each.old ((held.old.items ++ line.now) ∷ more)) (L.line_due each.new) out.old.items out.new.items (is_ok result) }
    ensures selects { OnOk result ((more : List (List ℕ)) → L.line_selects each.new more ≡ L.line_selects each.old ((held.old.items ++ line.now) ∷ more)) }
    ensures empty { OnOk result (held.new.items ≡ []) }
    ensures plain { has_newline held.new.items ≡ false }
    ensures tested { (other : List ℕ) → L.line_test each.new other ≡ L.line_test each.old other }
{
    if held.is_empty() {
        return each.line(line, out);
    }
    match hold(held, line) {
        Ok(()) => {}
        Err(memory) => return Err(memory),
    }
    let done = each.line(held.as_slice(), out);
    held.clear();
    done
}

/// Feeds a text with nothing held before it.
fn feed_whole_lines<L: LineStream>(
    each: &mut L,
    held: &mut Vec<u8>,
    text: &[u8],
    out: &mut Vec<u8>,
) -> Result<(), Memory>
    requires { held.old.items ≡ [] }
    ensures wrote { Wrote (λ more. L.line_due each.old (lines (text.now ++ more)))
        (λ more. L.line_due each.new (lines (held.new.items ++ more))) out.old.items out.new.items (is_ok result) }
    ensures selects { OnOk result ((more : List ℕ) → L.line_selects each.new (lines (held.new.items ++ more)) ≡ L.line_selects each.old (lines (text.now ++ more))) }
    ensures plain { has_newline held.new.items ≡ false }
    ensures tested { (other : List ℕ) → L.line_test each.new other ≡ L.line_test each.old other }
{
    let (whole, rest) = cut_last_line(text);
    match each.whole_lines(whole, out) {
        Ok(()) => hold(held, rest),
        Err(memory) => Err(memory),
    }
}

/// The text up to its last newline, and the beginning of a line after that.
pub fn cut_last_line(text: &[u8]) -> (&[u8], &[u8])
    ensures cut { CutsLastLine text.now result.0.now result.1.now }
    ensures sizes { length result.0.now + length result.1.now ≡ length text.now }
{
    match memrchr(NEWLINE, text) {
        Some(end) => (&text[..end + 1], &text[end + 1..]),
        None => (&[], text),
    }
}

/// Does a last line that no newline ends, where there is one, and ends the lines.
fn finish_lines<L: LineStream>(each: &mut L, held: &[u8], out: &mut Vec<u8>) -> Result<(), Memory>
    requires { has_newline held.now ≡ false }
    ensures wrote { Put (L.line_due each.old (lines (held.now ++ []))) out.old.items out.new.items (is_ok result) }
    ensures selected { OnOk result (L.line_selected each.new ≡ L.line_selects each.old (lines (held.now ++ []))) }
    ensures tested { (other : List ℕ) → L.line_test each.new other ≡ L.line_test each.old other }
{
    if held.is_empty() {
        return each.end(out);
    }
    match each.line(held, out) {
        Ok(()) => each.end(out),
        Err(memory) => Err(memory),
    }
}
