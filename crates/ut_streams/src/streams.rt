//! Streams of bytes.
ghost use Rattle.std.specs.Prelude.{◌≡◌, ℕ, ◌++◌, List, [], Bool, false, not, OnOk};
ghost use Rattle.std.specs.List.{concat};
ghost use Rattle.std.specs.Result.{is_ok};
ghost use Rattle.ps_lines.specs.Texts.{texts_of};
ghost use Rattle.ut_streams.specs.Streams.{Put, Wrote};

use ps_lines::Memory;

/// A utility of one input, which is fed to it in pieces.
///
/// Want of memory is the only refusal: the output has then grown by a front of what was due, and the stream is spent.
pub trait Stream: Drop {
    /// What is still to be written, if these bytes and no others come.
    ghost due: { Self → List ℕ → List ℕ };
    /// Whether something will have been selected, if these bytes and no others come.
    ghost selects: { Self → List ℕ → Bool };
    /// Whether something has been selected.
    ghost selected: { Self → Bool };
    /// Whether a call has answered Memory.
    ghost spent: { Self → Bool };

    /// Takes the next piece of the input, and appends what is determined by now.
    fn feed(&mut self, piece: &[u8], out: &mut Vec<u8>) -> Result<(), Memory>
        requires { spent self.old ≡ false }
        ensures wrote { Wrote (λ more. due self.old (piece.now ++ more)) (due self.new) out.old.items out.new.items (is_ok result) }
        ensures selects { OnOk result ((more : List ℕ) → selects self.new more ≡ selects self.old (piece.now ++ more)) }
        ensures spent { spent self.new ≡ not (is_ok result) };

    /// The input has ended: appends the rest of the output.
    fn finish(&mut self, out: &mut Vec<u8>) -> Result<(), Memory>
        requires { spent self.old ≡ false }
        ensures wrote { Put (due self.old []) out.old.items out.new.items (is_ok result) }
        ensures selected { OnOk result (selected self.new ≡ selects self.old []) }
        ensures spent { spent self.new ≡ not (is_ok result) };

    /// Whether something has been selected; after `finish` this is whether the input has something that is.
    ///
    /// Only `grep` selects: lines.
    fn has_selected(&self) -> bool
        ensures { result ≡ selected self.now };

    /// Whether a call has answered Memory. No other call is allowed then.
    fn is_spent(&self) -> bool
        ensures { result ≡ spent self.now };
}

/// Feeds a stream all of these pieces, and finishes it: however the input is cut, the output is that for the whole.
pub fn feed_all<S: Stream>(
    stream: &mut S,
    pieces: &[Vec<u8>],
    out: &mut Vec<u8>,
) -> Result<(), Memory>
    requires { S.spent stream.old ≡ false }
    ensures wrote { Put (S.due stream.old (concat (texts_of pieces.now))) out.old.items out.new.items (is_ok result) }
    ensures selected { OnOk result (S.selected stream.new ≡ S.selects stream.old (concat (texts_of pieces.now))) }
{
    match feed_pieces(stream, pieces, out) {
        Ok(()) => stream.finish(out),
        Err(memory) => Err(memory),
    }
}

/// Feeds a stream all of these pieces.
fn feed_pieces<S: Stream>(
    stream: &mut S,
    pieces: &[Vec<u8>],
    out: &mut Vec<u8>,
) -> Result<(), Memory>
    requires { S.spent stream.old ≡ false }
    ensures wrote { Wrote (λ more. S.due stream.old (concat (texts_of pieces.now) ++ more)) (S.due stream.new) out.old.items out.new.items (is_ok result) }
    ensures selects { OnOk result ((more : List ℕ) → S.selects stream.new more ≡ S.selects stream.old (concat (texts_of pieces.now) ++ more)) }
    ensures spent { S.spent stream.new ≡ not (is_ok result) }
{
    let mut left = pieces;
    while let [piece, rest @ ..] = left {
        match stream.feed(piece.as_slice(), out) {
            Ok(()) => left = rest,
            Err(memory) => return Err(memory),
        }
    }
    Ok(())
}
