//! The stream of an invocation of tr.
ghost use Rattle.std.specs.Prelude.{◌≡◌, ◌++◌, ◌≤◌, ℕ, List, false, true, length, take, drop, IfOk, OnOk, OnErr};
ghost use Rattle.ut_streams.specs.Streams.{Wrote};
ghost use Rattle.ut_bytes.specs.Inner.Edits.{edited_by, squeezed_by};
ghost use Rattle.ut_bytes.specs.Tr.{edited, squeezed, tr_output};

use crate::edits::Edit;
use crate::steps::{NO_BYTE, append, put_deleted, put_translated, squeeze_behind};
use crate::tables::{Images, Marks};
use ps_lines::Memory;
use std::alloc::Global;
use ut_args::{TrArgs, TrInv};
use ut_streams::Stream;

/// One input with bytes deleted, replaced and squeezed.
#[derive(Drop)]
pub struct Tr {
    edit: Edit,
    squeezed: Option<Marks>,
    /// The last byte that came to squeezing, or 256 at the beginning.
    last: u16,
    spent: bool,
}

impl Tr {
    /// The stream of one invocation, from the beginning of its input.
    pub fn new(alloc: Global, inv: &TrInv) -> Result<Tr, Memory>
        ensures due { IfOk result (λ tr. (text : List ℕ) → ⟦<Tr as Stream>⟧.due tr text ≡ tr_output inv.now.args text) }
        ensures unspent { IfOk result (λ tr. ⟦<Tr as Stream>⟧.spent tr ≡ false) }
    {
        let edit = edit_of(alloc, &inv.args)?;
        let squeezed = squeezed_of(alloc, &inv.args)?;
        Ok(Tr {
            edit,
            squeezed,
            last: NO_BYTE,
            spent: false,
        })
    }

    /// The stream of its aggregate, which is fed the outputs for the parts of an input, one after another: they are squeezed where they meet.
    pub fn of_parts(alloc: Global, inv: &TrInv) -> Result<Tr, Memory>
        ensures due { IfOk result (λ tr. (text : List ℕ) → ⟦<Tr as Stream>⟧.due tr text ≡ squeezed inv.now.args text) }
        ensures unspent { IfOk result (λ tr. ⟦<Tr as Stream>⟧.spent tr ≡ false) }
    {
        let squeezed = squeezed_of(alloc, &inv.args)?;
        Ok(Tr {
            edit: Edit::Nothing,
            squeezed,
            last: NO_BYTE,
            spent: false,
        })
    }
}

/// What is done to each byte: those of the first string are deleted, or become those of the second, if there is one.
fn edit_of(alloc: Global, args: &TrArgs) -> Result<Edit, Memory>
    ensures { IfOk result (λ edit. (text : List ℕ) → edited_by edit text ≡ edited args.now text) }
{
    let from = args.from.as_slice();
    if args.deletes {
        return Ok(Edit::Delete(Marks::of(alloc, from)?));
    }
    match &args.to {
        None => Ok(Edit::Nothing),
        Some(to) => Ok(Edit::Translate(Images::of(alloc, from, to.as_slice())?)),
    }
}

/// The bytes that are squeezed, where some are: those of the last string.
fn squeezed_of(alloc: Global, args: &TrArgs) -> Result<Option<Marks>, Memory>
    ensures { IfOk result (λ set. (text : List ℕ) → squeezed_by set NO_BYTE text ≡ squeezed args.now text) }
{
    if !args.squeezes {
        return Ok(None);
    }
    match &args.to {
        None => Ok(Some(Marks::of(alloc, args.from.as_slice())?)),
        Some(to) => Ok(Some(Marks::of(alloc, to.as_slice())?)),
    }
}

impl Stream for Tr {
    ghost due = { λ tr more. squeezed_by tr.squeezed tr.last (edited_by tr.edit more) };

    ghost selects = { λ _ _. false };

    ghost selected = { λ _. false };

    ghost spent = { λ tr. tr.spent };

    fn feed(&mut self, piece: &[u8], out: &mut Vec<u8>) -> Result<(), Memory> {
        let from = out.len();
        match put_edited(&self.edit, piece, out) {
            Ok(()) => {
                self.last = squeeze(&self.squeezed, self.last, from, out);
                Ok(())
            }
            Err(memory) => {
                self.spent = true;
                Err(memory)
            }
        }
    }

    /// Takes no memory, and so never answers Memory.
    fn finish(&mut self, _out: &mut Vec<u8>) -> Result<(), Memory> {
        Ok(())
    }

    fn has_selected(&self) -> bool {
        false
    }

    fn is_spent(&self) -> bool {
        self.spent
    }
}

/// Appends the piece, with its bytes deleted or replaced.
fn put_edited(edit: &Edit, piece: &[u8], out: &mut Vec<u8>) -> Result<(), Memory>
    ensures ok { OnOk result (out.new.items ≡ out.old.items ++ edited_by edit.now piece.now) }
    ensures err { OnErr result (out.new.items ≡ out.old.items) }
{
    match edit {
        Edit::Nothing => append(piece, out),
        Edit::Delete(set) => put_deleted(set, piece, out),
        Edit::Translate(images) => put_translated(images, piece, out),
    }
}

/// Squeezes what stands from the place `from` on, and answers the byte that is then the last one.
#[tactic(auto, using(crate::proofs::StepLemmas::as_is))]
fn squeeze(squeezed: &Option<Marks>, last: u16, from: usize, out: &mut Vec<u8>) -> u16
    requires { from ≤ length out.old.items }
    ensures { Wrote (λ more. squeezed_by squeezed.now last (drop from out.old.items ++ more)) (squeezed_by squeezed.now result) (take from out.old.items) out.new.items true }
{
    match squeezed {
        None => last,
        Some(set) => squeeze_behind(set, last, from, out),
    }
}
