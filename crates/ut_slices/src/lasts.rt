//! The last lines or bytes of an input.
ghost use Rattle.std.specs.Prelude.{◌≡◌, ◌++◌, ℕ, List, [], false, length, drop, ◌≤◌, OnOk};
ghost use Rattle.std.specs.Result.{is_ok};
ghost use Rattle.ut_slices.specs.Ends.{last};
ghost use Rattle.ut_streams.specs.Streams.{Put};

use crate::ends::last_at;
use ps_lines::Memory;
use std::alloc::Global;
use ut_args::Unit;
use ut_streams::{Stream, put};

/// How many bytes are held before any is dropped.
const HELD: usize = 65_536;

/// The last lines or bytes of one input.
#[derive(Drop)]
pub struct Last {
    unit: Unit,
    count: u64,
    /// The end of what came, and maybe some bytes before it.
    held: Vec<u8>,
    /// How many bytes may be held: twice the end as it was last looked for, and `HELD`.
    most: usize,
    spent: bool,
}

impl Last {
    /// The stream of the last lines or bytes, so many.
    pub fn new(alloc: Global, unit: Unit, count: u64) -> Last
        ensures due { (text : List ℕ) → ⟦<Last as Stream>⟧.due result text ≡ last unit count text }
        ensures unspent { ⟦<Last as Stream>⟧.spent result ≡ false }
    {
        Last {
            unit,
            count,
            held: Vec::new(alloc),
            most: HELD,
            spent: false,
        }
    }
}

impl Stream for Last {
    ghost due = { λ stream more. last stream.unit stream.count (stream.held.items ++ more) };

    ghost selects = { λ _ _. false };

    ghost selected = { λ _. false };

    ghost spent = { λ stream. stream.spent };

    #[tactic(auto, using(crate::proofs::EndLemmas::steps))]
    fn feed(&mut self, piece: &[u8], _out: &mut Vec<u8>) -> Result<(), Memory> {
        let held = hold(self.unit, self.count, &mut self.held, self.most, piece);
        self.spent = held.is_err();
        match held {
            Ok(most) => {
                self.most = most;
                Ok(())
            }
            Err(memory) => Err(memory),
        }
    }

    fn finish(&mut self, out: &mut Vec<u8>) -> Result<(), Memory> {
        let finished = put_last(self.unit, self.count, self.held.as_slice(), out);
        self.spent = finished.is_err();
        finished
    }

    fn has_selected(&self) -> bool {
        false
    }

    fn is_spent(&self) -> bool {
        self.spent
    }
}

/// Holds a piece, and drops what stands before the end where more is held than may be; answers how much may be held from now on.
fn hold(
    unit: Unit,
    count: u64,
    held: &mut Vec<u8>,
    most: usize,
    piece: &[u8],
) -> Result<usize, Memory>
    ensures ok { OnOk result ((more : List ℕ) → last unit count (held.new.items ++ more) ≡ last unit count (held.old.items ++ (piece.now ++ more))) }
{
    held.extend_from_slice(piece)?;
    if held.len() <= most {
        return Ok(most);
    }
    let at = last_at(unit, count, held.as_slice());
    drop_front(held, at);
    Ok(held.len().saturating_mul(2).saturating_add(HELD))
}

/// Drops the bytes before a place.
fn drop_front(held: &mut Vec<u8>, at: usize)
    requires { at ≤ length held.old.items }
    ensures { held.new.items ≡ drop at held.old.items }
{
    let left = held.len() - at;
    held.as_mut_slice().copy_within(at.., 0);
    held.truncate(left);
}

/// Appends the end of what is held.
fn put_last(unit: Unit, count: u64, held: &[u8], out: &mut Vec<u8>) -> Result<(), Memory>
    ensures { Put (last unit count (held.now ++ [])) out.old.items out.new.items (is_ok result) }
{
    let at = last_at(unit, count, held);
    put(&held[at..], out)
}
