//! The stream of `sort`.
ghost use Rattle.std.specs.Prelude.{◌≡◌, ◌++◌, ℕ, List, [], false, not, IfOk, OnOk};
ghost use Rattle.std.specs.Result.{is_ok};
ghost use Rattle.ps_lines.specs.Lines.{lines as lines_def, text_of_lines};
ghost use Rattle.ut_streams.specs.Streams.{Put};
ghost use Rattle.ut_sort.specs.LineOrders.{sorted_by};
ghost use Rattle.ut_sort.specs.Order.{sorted_text};
ghost use Rattle.ut_sort.specs.Writing.{left_of};

use crate::line_orders::LineOrder;
use crate::places::sorted_places;
use crate::writing::{SortedLines, put_lines};
use ps_lines::Memory;
use std::alloc::Global;
use std::mem;
use ut_args::SortInv;
use ut_streams::Stream;

/// Gathers the lines of its input, and writes them in order at its end.
///
/// The input is that of all operands one after the other, each but the last closed. The text is held once.
#[derive(Drop)]
pub struct Sorter {
    order: LineOrder,
    text: Vec<u8>,
    spent: bool,
}

impl Sorter {
    /// The stream of one invocation, from the beginning of its input.
    pub fn new(alloc: Global, inv: &SortInv) -> Result<Sorter, Memory>
        ensures due { IfOk result (λ sorter. (text : List ℕ) → ⟦<Sorter as Stream>⟧.due sorter text ≡ sorted_text inv.now.args text) }
        ensures unspent { IfOk result (λ sorter. ⟦<Sorter as Stream>⟧.spent sorter ≡ false) }
    {
        Ok(Sorter {
            order: LineOrder::new(alloc, &inv.args)?,
            text: Vec::new(alloc),
            spent: false,
        })
    }

    /// Takes the next piece of the input. `feed` does the same, and writes nothing.
    #[tactic(auto, using(crate::proofs::LineLemmas::gathers))]
    pub fn gather(&mut self, piece: &[u8]) -> Result<(), Memory>
        requires { ⟦<Sorter as Stream>⟧.spent self.old ≡ false }
        ensures due { OnOk result ((more : List ℕ) → ⟦<Sorter as Stream>⟧.due self.new more ≡ ⟦<Sorter as Stream>⟧.due self.old (piece.now ++ more)) }
        ensures spent { ⟦<Sorter as Stream>⟧.spent self.new ≡ not (is_ok result) }
    {
        let held = hold(&mut self.text, piece);
        self.spent = held.is_err();
        held
    }

    /// The input has ended: its lines in order, for writing them in pieces; the sorter is empty then. `finish` writes them at once.
    ///
    /// Where memory is wanted, the text is dropped.
    pub fn sort(&mut self) -> Result<SortedLines, Memory>
        ensures lines { IfOk result (λ lines. left_of lines ≡ ⟦<Sorter as Stream>⟧.due self.old []) }
        ensures spent { ⟦<Sorter as Stream>⟧.spent self.new ≡ ⟦<Sorter as Stream>⟧.spent self.old }
    {
        let alloc = *self.text.allocator();
        let text = mem::replace(&mut self.text, Vec::new(alloc));
        let places = sorted_places(&self.order, alloc, text.as_slice())?;
        Ok(SortedLines::new(text, places))
    }
}

impl Stream for Sorter {
    ghost due = { λ sorter more. text_of_lines (sorted_by sorter.order (lines_def (sorter.text.items ++ more))) };

    ghost selects = { λ _ _. false };

    ghost selected = { λ _. false };

    ghost spent = { λ sorter. sorter.spent };

    #[tactic(auto, using(crate::proofs::LineLemmas::gathers))]
    fn feed(&mut self, piece: &[u8], _out: &mut Vec<u8>) -> Result<(), Memory> {
        let fed = hold(&mut self.text, piece);
        self.spent = fed.is_err();
        fed
    }

    fn finish(&mut self, out: &mut Vec<u8>) -> Result<(), Memory> {
        let finished = put_sorted(&self.order, self.text.as_slice(), out);
        self.spent = finished.is_err();
        finished
    }

    fn has_selected(&self) -> bool {
        false
    }

    fn is_spent(&self) -> bool {
        self.spent
    }
}

/// Appends a piece to what is held.
fn hold(held: &mut Vec<u8>, piece: &[u8]) -> Result<(), Memory>
    ensures { OnOk result (held.new.items ≡ held.old.items ++ piece.now) }
{
    held.extend_from_slice(piece)?;
    Ok(())
}

/// Appends the lines of a text in order.
#[tactic(auto, using(crate::proofs::LineLemmas::line_puts))]
fn put_sorted(order: &LineOrder, text: &[u8], out: &mut Vec<u8>) -> Result<(), Memory>
    ensures { Put (text_of_lines (sorted_by order.now (lines_def text.now))) out.old.items out.new.items (is_ok result) }
{
    match sorted_places(order, *out.allocator(), text) {
        Ok(places) => put_lines(text, places.as_slice(), out),
        Err(memory) => Err(memory),
    }
}
