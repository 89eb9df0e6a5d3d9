//! Streams of several inputs, one after another.
ghost use Rattle.std.specs.Prelude.{◌≡◌, ℕ, ◌∷◌, ◌++◌, List, [], Bool, false, not, OnOk};
ghost use Rattle.std.specs.List.{concat};
ghost use Rattle.std.specs.Result.{is_ok};
ghost use Rattle.ps_lines.specs.Texts.{texts_of};
ghost use Rattle.ut_streams.specs.Streams.{Put, whole_texts, Wrote};

use ps_lines::Memory;

/// A utility of several inputs, which are fed to it one after another, each in pieces.
///
/// What is due hangs on the texts of the inputs that are still to come; while an input is fed, the first of these is what is left of it.
/// Want of memory is the only refusal: the output has then grown by a front of what was due, and the series is spent.
pub trait Series: Drop {
    /// What is still to be written, if these inputs and no others come.
    ghost due: { Self → List (List ℕ) → List ℕ };
    /// Whether something will have been selected, if these inputs and no others come.
    ghost selects: { Self → List (List ℕ) → Bool };
    /// Whether something has been selected.
    ghost selected: { Self → Bool };
    /// Whether a call has answered Memory.
    ghost spent: { Self → Bool };

    /// Takes the next piece of an input, and appends what is determined by now.
    fn feed(&mut self, piece: &[u8], out: &mut Vec<u8>) -> Result<(), Memory>
        requires { spent self.old ≡ false }
        ensures wrote { (others : List (List ℕ)) → Wrote (λ more. due self.old ((piece.now ++ more) ∷ others)) (λ more. due self.new (more ∷ others))
            out.old.items out.new.items (is_ok result) }
        ensures selects { OnOk result ((more : List ℕ) (others : List (List ℕ)) → selects self.new (more ∷ others) ≡ selects self.old ((piece.now ++ more) ∷ others)) }
        ensures spent { spent self.new ≡ not (is_ok result) };

    /// The input has ended, and another may come: appends the rest of what is written for it.
    fn end_input(&mut self, out: &mut Vec<u8>) -> Result<(), Memory>
        requires { spent self.old ≡ false }
        ensures wrote { Wrote (λ others. due self.old ([] ∷ others)) (due self.new) out.old.items out.new.items (is_ok result) }
        ensures selects { OnOk result ((others : List (List ℕ)) → selects self.new others ≡ selects self.old ([] ∷ others)) }
        ensures spent { spent self.new ≡ not (is_ok result) };

    /// All inputs have ended: appends the rest of the output.
    fn finish(&mut self, out: &mut Vec<u8>) -> Result<(), Memory>
        requires { spent self.old ≡ false }
        ensures wrote { Put (due self.old []) out.old.items out.new.items (is_ok result) }
        ensures selected { OnOk result (selected self.new ≡ selects self.old []) }
        ensures spent { spent self.new ≡ not (is_ok result) };

    /// Whether something has been selected. After `finish` this tells whether something is selected in any of the inputs.
    fn has_selected(&self) -> bool
        ensures { result ≡ selected self.now };

    /// Whether a call has answered Memory. No other call is allowed then.
    fn is_spent(&self) -> bool
        ensures { result ≡ spent self.now };
}

/// Feeds a series all of these inputs, each in its pieces, and finishes it: however they are cut, the output is that for the whole inputs.
pub fn feed_inputs<S: Series>(
    series: &mut S,
    inputs: &[Vec<Vec<u8>>],
    out: &mut Vec<u8>,
) -> Result<(), Memory>
    requires { S.spent series.old ≡ false }
    ensures wrote { Put (S.due series.old (whole_texts inputs.now)) out.old.items out.new.items (is_ok result) }
    ensures selected { OnOk result (S.selected series.new ≡ S.selects series.old (whole_texts inputs.now)) }
{
    match feed_each(series, inputs, out) {
        Ok(()) => series.finish(out),
        Err(memory) => Err(memory),
    }
}

/// Feeds a series all of these inputs, to the end of each.
fn feed_each<S: Series>(
    series: &mut S,
    inputs: &[Vec<Vec<u8>>],
    out: &mut Vec<u8>,
) -> Result<(), Memory>
    requires { S.spent series.old ≡ false }
    ensures wrote { Wrote (λ more. S.due series.old (whole_texts inputs.now ++ more)) (S.due series.new) out.old.items out.new.items (is_ok result) }
    ensures selects { OnOk result ((more : List (List ℕ)) → S.selects series.new more ≡ S.selects series.old (whole_texts inputs.now ++ more)) }
    ensures spent { S.spent series.new ≡ not (is_ok result) }
{
    let mut left = inputs;
    while let [input, rest @ ..] = left {
        match feed_input(series, input.as_slice(), out) {
            Ok(()) => left = rest,
            Err(memory) => return Err(memory),
        }
    }
    Ok(())
}

/// Feeds a series the pieces of one input, to its end.
fn feed_input<S: Series>(
    series: &mut S,
    pieces: &[Vec<u8>],
    out: &mut Vec<u8>,
) -> Result<(), Memory>
    requires { S.spent series.old ≡ false }
    ensures wrote { Wrote (λ others. S.due series.old (concat (texts_of pieces.now) ∷ others)) (S.due series.new) out.old.items out.new.items (is_ok result) }
    ensures selects { OnOk result ((others : List (List ℕ)) → S.selects series.new others ≡ S.selects series.old (concat (texts_of pieces.now) ∷ others)) }
    ensures spent { S.spent series.new ≡ not (is_ok result) }
{
    match feed_input_pieces(series, pieces, out) {
        Ok(()) => series.end_input(out),
        Err(memory) => Err(memory),
    }
}

/// Feeds a series all of these pieces of one input.
fn feed_input_pieces<S: Series>(
    series: &mut S,
    pieces: &[Vec<u8>],
    out: &mut Vec<u8>,
) -> Result<(), Memory>
    requires { S.spent series.old ≡ false }
    ensures wrote { (others : List (List ℕ)) → Wrote (λ more. S.due series.old ((concat (texts_of pieces.now) ++ more) ∷ others)) (λ more. S.due series.new (more ∷ others))
        out.old.items out.new.items (is_ok result) }
    ensures selects { OnOk result ((more : List ℕ) (others : List (List ℕ)) → S.selects series.new (more ∷ others) ≡ S.selects series.old ((concat (texts_of pieces.now) ++ more) ∷ others)) }
    ensures spent { S.spent series.new ≡ not (is_ok result) }
{
    let mut left = pieces;
    while let [piece, rest @ ..] = left {
        match series.feed(piece.as_slice(), out) {
            Ok(()) => left = rest,
            Err(memory) => return Err(memory),
        }
    }
    Ok(())
}
