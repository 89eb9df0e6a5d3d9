//! What stands behind the first lines or bytes of an input.
ghost use Rattle.std.specs.Prelude.{◌≡◌, ◌++◌, ℕ, List, false, drop};
ghost use Rattle.ut_slices.specs.Ends.{behind};

use crate::ends::pass_lines;
use ps_lines::Memory;
use ut_args::Unit;
use ut_streams::{Stream, put};

/// What stands behind the first lines or bytes of one input.
#[derive(Drop)]
pub struct Behind {
    unit: Unit,
    /// How many of these are still to come.
    left: u64,
    spent: bool,
}

impl Behind {
    /// The stream behind so many lines or bytes.
    pub fn new(unit: Unit, count: u64) -> Behind
        ensures due { (text : List ℕ) → ⟦<Behind as Stream>⟧.due result text ≡ behind unit count text }
        ensures unspent { ⟦<Behind as Stream>⟧.spent result ≡ false }
    {
        Behind {
            unit,
            left: count,
            spent: false,
        }
    }
}

impl Stream for Behind {
    ghost due = { λ stream more. behind stream.unit stream.left more };

    ghost selects = { λ _ _. false };

    ghost selected = { λ _. false };

    ghost spent = { λ stream. stream.spent };

    #[tactic(auto, using(crate::proofs::EndLemmas::steps))]
    fn feed(&mut self, piece: &[u8], out: &mut Vec<u8>) -> Result<(), Memory> {
        let (rest, left) = pass(self.unit, self.left, piece);
        self.left = left;
        let fed = put(rest, out);
        self.spent = fed.is_err();
        fed
    }

    /// Takes no memory, and so never answers Memory.
    #[tactic(auto, using(crate::proofs::EndLemmas::steps))]
    fn finish(&mut self, _out: &mut Vec<u8>) -> Result<(), Memory> {
        Ok(())
    }

    fn has_selected(&self) -> bool {
        false
    }

    fn is_spent(&self) -> bool {
        self.spent
    }
}

/// What of a piece stands behind so many lines or bytes, and how many are still to come.
#[tactic(auto, using(crate::proofs::EndLemmas::steps))]
fn pass(unit: Unit, count: u64, piece: &[u8]) -> (&[u8], u64)
    ensures { (more : List ℕ) → behind unit count (piece.now ++ more) ≡ result.0.now ++ behind unit result.1 more }
{
    match unit {
        Unit::Lines => {
            let passed = pass_lines(piece, count);
            (passed.rest, passed.left)
        }
        Unit::Bytes => pass_bytes(count, piece),
    }
}

/// The same for bytes.
fn pass_bytes(count: u64, piece: &[u8]) -> (&[u8], u64)
    ensures { (more : List ℕ) → drop count (piece.now ++ more) ≡ result.0.now ++ drop result.1 more }
{
    if count >= piece.len() as u64 {
        return (&[], count - piece.len() as u64);
    }
    (&piece[count as usize..], 0)
}
