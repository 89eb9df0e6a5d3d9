//! The series of any utility that reads its inputs in order.
ghost use Rattle.std.specs.Prelude.{◌≡◌, ℕ, List, true, false, IfOk};
ghost use Rattle.fl_classes.specs.Utilities.{output_of, selects_of};
ghost use Rattle.fl_machines.specs.Kinds.{reads_apart, reads_at_once};

use ps_lines::Memory;
use std::alloc::Global;
use ut_args::Inv;
use ut_grep::GrepSeries;
use ut_groups::WcSeries;
use ut_slices::{HeadSeries, Serial};
use ut_streams::Series;

/// The series of a utility that reads its inputs one after another, whichever it is.
#[derive(Drop)]
pub enum AnySeries {
    Grep(GrepSeries),
    Head(HeadSeries),
    Paste(Serial),
    Wc(WcSeries),
}

impl AnySeries {
    /// The series of an invocation of such a utility, at the beginning of its inputs. There is none of a `grep` whose patterns can't be read,
    /// and `Memory` is told.
    pub fn of_inv(alloc: Global, inv: &Inv) -> Result<AnySeries, Memory>
        requires apart { reads_apart inv.now ≡ true }
        requires in_order { reads_at_once inv.now ≡ false }
        ensures due { IfOk result (λ series. (texts : List (List ℕ)) → ⟦<AnySeries as Series>⟧.due series texts ≡ output_of inv.now texts) }
        ensures selects { IfOk result (λ series. (texts : List (List ℕ)) → ⟦<AnySeries as Series>⟧.selects series texts ≡ selects_of inv.now texts) }
        ensures unspent { IfOk result (λ series. ⟦<AnySeries as Series>⟧.spent series ≡ false) }
    {
        match inv {
            Inv::Grep(grep) => match GrepSeries::new(alloc, grep) {
                Ok(grep) => Ok(AnySeries::Grep(grep)),
                Err(memory) => Err(memory),
            },
            Inv::Head(head) => match HeadSeries::new(alloc, head) {
                Ok(head) => Ok(AnySeries::Head(head)),
                Err(memory) => Err(memory),
            },
            Inv::Paste(paste) => match Serial::new(alloc, &paste.args) {
                Ok(serial) => Ok(AnySeries::Paste(serial)),
                Err(memory) => Err(memory),
            },
            Inv::Wc(wc) => match WcSeries::new(alloc, wc) {
                Ok(wc) => Ok(AnySeries::Wc(wc)),
                Err(memory) => Err(memory),
            },
            _ => unreachable!(),
        }
    }
}

impl Series for AnySeries {
    ghost use Rattle.fl_machines.specs.declared.any_series.AnySeries.TheVariants.{Grep, Head, Paste, Wc};

    ghost due = { λ series texts. elim series [
      | Grep grep ↦ ⟦<GrepSeries as Series>⟧.due grep texts
      | Head head ↦ ⟦<HeadSeries as Series>⟧.due head texts
      | Paste serial ↦ ⟦<Serial as Series>⟧.due serial texts
      | Wc wc ↦ ⟦<WcSeries as Series>⟧.due wc texts
    ] };

    ghost selects = { λ series texts. elim series [
      | Grep grep ↦ ⟦<GrepSeries as Series>⟧.selects grep texts
      | Head head ↦ ⟦<HeadSeries as Series>⟧.selects head texts
      | Paste serial ↦ ⟦<Serial as Series>⟧.selects serial texts
      | Wc wc ↦ ⟦<WcSeries as Series>⟧.selects wc texts
    ] };

    ghost selected = { λ series. elim series [
      | Grep grep ↦ ⟦<GrepSeries as Series>⟧.selected grep
      | Head head ↦ ⟦<HeadSeries as Series>⟧.selected head
      | Paste serial ↦ ⟦<Serial as Series>⟧.selected serial
      | Wc wc ↦ ⟦<WcSeries as Series>⟧.selected wc
    ] };

    ghost spent = { λ series. elim series [
      | Grep grep ↦ ⟦<GrepSeries as Series>⟧.spent grep
      | Head head ↦ ⟦<HeadSeries as Series>⟧.spent head
      | Paste serial ↦ ⟦<Serial as Series>⟧.spent serial
      | Wc wc ↦ ⟦<WcSeries as Series>⟧.spent wc
    ] };

    fn feed(&mut self, piece: &[u8], out: &mut Vec<u8>) -> Result<(), Memory> {
        match self {
            AnySeries::Grep(grep) => grep.feed(piece, out),
            AnySeries::Head(head) => head.feed(piece, out),
            AnySeries::Paste(serial) => serial.feed(piece, out),
            AnySeries::Wc(wc) => wc.feed(piece, out),
        }
    }

    fn end_input(&mut self, out: &mut Vec<u8>) -> Result<(), Memory> {
        match self {
            AnySeries::Grep(grep) => grep.end_input(out),
            AnySeries::Head(head) => head.end_input(out),
            AnySeries::Paste(serial) => serial.end_input(out),
            AnySeries::Wc(wc) => wc.end_input(out),
        }
    }

    fn finish(&mut self, out: &mut Vec<u8>) -> Result<(), Memory> {
        match self {
            AnySeries::Grep(grep) => grep.finish(out),
            AnySeries::Head(head) => head.finish(out),
            AnySeries::Paste(serial) => serial.finish(out),
            AnySeries::Wc(wc) => wc.finish(out),
        }
    }

    fn has_selected(&self) -> bool {
        match self {
            AnySeries::Grep(grep) => grep.has_selected(),
            AnySeries::Head(head) => head.has_selected(),
            AnySeries::Paste(serial) => serial.has_selected(),
            AnySeries::Wc(wc) => wc.has_selected(),
        }
    }

    fn is_spent(&self) -> bool {
        match self {
            AnySeries::Grep(grep) => grep.is_spent(),
            AnySeries::Head(head) => head.is_spent(),
            AnySeries::Paste(serial) => serial.is_spent(),
            AnySeries::Wc(wc) => wc.is_spent(),
        }
    }
}
