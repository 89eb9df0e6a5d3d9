//! A machine with a series in it.
ghost use Rattle.std.specs.Prelude.{◌≡◌, ◌≤◌, ◌<◌, ◌∷◌, ℕ, List, [], true, false, not, IfOk, OnOk};
ghost use Rattle.std.specs.Result.{is_ok};
ghost use Rattle.ut_streams.specs.Streams.{Put, Wrote};

use crate::waiting::Waiting;
use fl_graph::{Act, Machine, Piece};
use ps_lines::Memory;
use std::alloc::Global;
use ut_streams::Series;

/// The machine of a node with one out that puts what a series makes of its inputs: it takes its ins in order, each to its end.
#[derive(Drop)]
pub struct InSeries<S: Series> {
    series: S,
    waiting: Waiting,
    ins: u32,
    /// The in whose turn it is.
    at: u32,
    putting: bool,
    broken: bool,
    ghost counted: { at ≤ ins },
    ghost usable: { broken ≡ false → at < ins → S.spent series ≡ false },
    ghost ended: { putting ≡ false → broken ≡ false → ins ≤ at },
    ghost empty: { putting ≡ false → broken ≡ false → waiting ≡ [] },
}

impl<S: Series> InSeries<S> {
    /// The machine of a node with so many ins, of a series that is at its beginning.
    pub fn new(alloc: Global, series: S, ins: u32) -> InSeries<S>
        requires { S.spent series ≡ false }
        ensures series { result.series ≡ series }
        ensures waiting { result.waiting ≡ [] }
        ensures ins { result.ins ≡ ins }
        ensures at { result.at ≡ 0 }
        ensures putting { result.putting ≡ true }
        ensures broken { result.broken ≡ false }
    {
        InSeries {
            series,
            waiting: Waiting::nothing(alloc),
            ins,
            at: 0,
            putting: true,
            broken: false,
        }
    }

    /// The machine of a node without an in: what the series writes where no input comes waits.
    pub fn of_nothing(alloc: Global, mut series: S) -> Result<InSeries<S>, Memory>
        requires { S.spent series ≡ false }
        ensures waiting { IfOk result (λ machine. machine.waiting ≡ S.due series []) }
        ensures selected { IfOk result (λ machine. S.selected machine.series ≡ S.selects series []) }
        ensures ins { IfOk result (λ machine. machine.ins ≡ 0) }
        ensures at { IfOk result (λ machine. machine.at ≡ 0) }
        ensures putting { IfOk result (λ machine. machine.putting ≡ true) }
        ensures broken { IfOk result (λ machine. machine.broken ≡ false) }
    {
        let mut waiting = Waiting::nothing(alloc);
        let mut out = waiting.buffer();
        match series.finish(&mut out) {
            Ok(()) => {
                waiting.hold(out);
                Ok(InSeries {
                    series,
                    waiting,
                    ins: 0,
                    at: 0,
                    putting: true,
                    broken: false,
                })
            }
            Err(memory) => Err(memory),
        }
    }
}

/// Ends an input of a series, and where it is the last, all of them.
fn end_input<S: Series>(series: &mut S, is_last: bool, out: &mut Vec<u8>) -> Result<(), Memory>
    requires { S.spent series.old ≡ false }
    ensures more { is_last ≡ false → Wrote (λ others. S.due series.old ([] ∷ others)) (S.due series.new) out.old.items out.new.items (is_ok result) }
    ensures selects { is_last ≡ false → OnOk result ((others : List (List ℕ)) → S.selects series.new others ≡ S.selects series.old ([] ∷ others)) }
    ensures last { is_last ≡ true → Put (S.due series.old ([] ∷ [])) out.old.items out.new.items (is_ok result) }
    ensures selected { is_last ≡ true → OnOk result (S.selected series.new ≡ S.selects series.old ([] ∷ [])) }
    ensures spent { S.spent series.new ≡ not (is_ok result) }
{
    if !is_last {
        return series.end_input(out);
    }
    match series.end_input(out) {
        Ok(()) => series.finish(out),
        Err(memory) => Err(memory),
    }
}

impl<S: Series> Machine for InSeries<S> {
    ghost use Rattle.std.specs.Prelude.{◌||◌};
    ghost use Rattle.fl_machines.specs.InSeries.{due_in_series, next_in_order, ports_from, selects_in_series};
    ghost use Rattle.fl_machines.specs.Through.{only_port};
    ghost use Rattle.fl_machines.specs.Waiting.{is_worth_putting};

    ghost state = { λ machine. record {
      act = next_in_order (machine.broken || is_worth_putting machine.waiting) machine.at machine.ins machine.putting;
      takes = ports_from machine.at machine.ins;
      puts = only_port machine.putting;
      numbered_ins = λ port. false;
      numbered_outs = λ port. false;
      broken = machine.broken;
      due = due_in_series machine.waiting machine.at machine.ins (S.due machine.series);
      selects = selects_in_series machine.at machine.ins (S.selects machine.series) (S.selected machine.series);
    } };

    fn next(&self) -> Act {
        if self.putting && (self.broken || self.waiting.is_worth_putting()) {
            return Act::Put(0);
        }
        if self.at < self.ins {
            return Act::Take(self.at);
        }
        if self.putting { Act::Put(0) } else { Act::Stop }
    }

    #[tactic(auto, using(crate::proofs::SeriesLemmas::takes))]
    fn take(&mut self, piece: Piece) -> Result<(), Memory> {
        match piece {
            Piece::Bytes(bytes) => {
                if self.broken {
                    return Ok(());
                }
                let mut out = self.waiting.buffer();
                let fed = self.series.feed(bytes.as_slice(), &mut out);
                self.waiting.hold(out);
                self.waiting.keep(bytes);
                self.broken = fed.is_err();
                fed
            }
            Piece::Mark => Ok(()),
            Piece::End => {
                self.at += 1;
                if self.broken {
                    return Ok(());
                }
                let mut out = self.waiting.buffer();
                let ended = end_input(&mut self.series, self.at == self.ins, &mut out);
                self.waiting.hold(out);
                self.broken = ended.is_err();
                ended
            }
            Piece::Broken => {
                self.at += 1;
                self.broken = true;
                Ok(())
            }
        }
    }

    fn put(&mut self) -> Result<Piece, Memory> {
        if self.broken {
            self.putting = false;
            return Ok(Piece::Broken);
        }
        if self.waiting.is_empty() {
            self.putting = false;
            return Ok(Piece::End);
        }
        match self.waiting.next() {
            Ok(bytes) => Ok(Piece::Bytes(bytes)),
            Err(memory) => {
                self.broken = true;
                Err(memory)
            }
        }
    }

    fn break_off(&mut self) {
        self.broken = true;
    }

    fn selected(&self) -> bool {
        self.series.has_selected()
    }
}
