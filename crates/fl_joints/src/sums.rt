//! A node that aggregates counts.
ghost use Rattle.std.specs.Prelude.{◌≡◌, ◌≤◌, ◌++◌, ℕ, List, [], true, false, IfOk, OnOk};
ghost use Rattle.ut_groups.specs.Columns.{counts_line};
ghost use Rattle.ut_groups.specs.Counting.{no_counts};
ghost use Rattle.fl_joints.specs.Joints.{counts_by};
ghost use Rattle.fl_joints.specs.declared.readings.Reading.{Reading};

use crate::readings::{Reading, columns_by, read_by};
use fl_graph::{Act, Bytes, Machine, Piece};
use ps_lines::Memory;
use std::alloc::Global;
use ut_groups::{Columns, Counts, MOST_BYTES, add_counts, put_counts};

/// The machine of an aggregate of `wc` or of `grep -c`: the sums of the counts that its ins bring, each on a line, column by column.
///
/// Of the text of an in it holds no more than tells whether it is a line of counts.
#[derive(Drop)]
pub struct CountSum {
    alloc: Global,
    reading: Reading,
    ins: u32,
    /// The in whose turn it is.
    at: u32,
    /// The beginning of its text.
    line: Vec<u8>,
    /// The sums of the counts of the ins before.
    sum: Counts,
    given: bool,
    putting: bool,
    broken: bool,
    ghost within: { at ≤ ins },
}

impl CountSum {
    /// The machine of a node with so many ins, before its first piece.
    pub(crate) fn new(alloc: Global, reading: Reading, ins: u32) -> CountSum
        ensures reading { result.reading ≡ reading }
        ensures ins { result.ins ≡ ins }
        ensures at { result.at ≡ 0 }
        ensures line { result.line.items ≡ [] }
        ensures sum { result.sum ≡ no_counts }
        ensures given { result.given ≡ false }
        ensures putting { result.putting ≡ true }
        ensures broken { result.broken ≡ false }
    {
        CountSum {
            alloc,
            reading,
            ins,
            at: 0,
            line: Vec::new(alloc),
            sum: Counts::default(),
            given: false,
            putting: true,
            broken: false,
        }
    }
}

impl Machine for CountSum {
    ghost use Rattle.std.specs.Prelude.{◌+◌, ◌-◌, ◌==◌, ◌&&◌, nat_le, nat_lt, if◌then◌else◌};
    ghost use Rattle.fl_graph.specs.declared.pieces.Act.TheVariants.{Take, Put, Stop};
    ghost use Rattle.ut_groups.specs.Counting.{added};
    ghost use Rattle.fl_joints.specs.Joints.{columns_by as columns_by_def, counts_from};

    ghost state = { λ machine. record {
      act =
          if machine.putting && machine.broken then Put 0
          else if nat_lt machine.at machine.ins then Take machine.at
          else if machine.putting then Put 0 else Stop;
      takes = λ port. nat_le machine.at port && nat_lt port machine.ins;
      puts = λ port. if port == 0 then machine.putting else false;
      numbered_ins = λ port. false;
      numbered_outs = λ port. false;
      broken = machine.broken;
      due = λ texts port.
          if port == 0 then (if machine.given then [] else
          counts_line (columns_by_def machine.reading) (added machine.sum (counts_from machine.reading machine.line.items texts machine.at (machine.ins - machine.at))) []) else [];
      selects = λ texts. false;
    } };

    fn next(&self) -> Act {
        if self.putting && self.broken {
            return Act::Put(0);
        }
        if self.at < self.ins {
            return Act::Take(self.at);
        }
        if self.putting { Act::Put(0) } else { Act::Stop }
    }

    fn take(&mut self, piece: Piece) -> Result<(), Memory> {
        match piece {
            Piece::Bytes(bytes) => {
                if self.broken {
                    return Ok(());
                }
                let held = hold(bytes.as_slice(), &mut self.line);
                self.broken = held.is_err();
                held
            }
            Piece::Mark => Ok(()),
            Piece::End => {
                self.sum = add_counts(self.sum, read_by(self.reading, self.line.as_slice()));
                self.line.clear();
                self.at += 1;
                Ok(())
            }
            Piece::Broken => {
                self.at += 1;
                self.broken = true;
                Ok(())
            }
        }
    }

    #[tactic(auto, using(crate::proofs::SumLemmas::puts))]
    fn put(&mut self) -> Result<Piece, Memory> {
        if self.broken {
            self.putting = false;
            return Ok(Piece::Broken);
        }
        if self.given {
            self.putting = false;
            return Ok(Piece::End);
        }
        match count_piece(self.alloc, columns_by(self.reading), self.sum) {
            Ok(bytes) => {
                self.given = true;
                Ok(Piece::Bytes(bytes))
            }
            Err(memory) => {
                self.broken = true;
                Err(memory)
            }
        }
    }

    fn break_off(&mut self) {
        self.broken = true;
    }

    fn selected(&self) -> bool {
        false
    }
}

/// Adds the piece to the beginning of a text, as far as that tells which counts the text has.
#[tactic(auto, using(crate::proofs::SumLemmas::holds))]
fn hold(piece: &[u8], line: &mut Vec<u8>) -> Result<(), Memory>
    ensures { OnOk result ((reading : Reading) (rest : List ℕ) → counts_by reading (line.new.items ++ rest) ≡ counts_by reading (line.old.items ++ (piece.now ++ rest))) }
{
    if line.len() > MOST_BYTES {
        return Ok(());
    }
    line.extend_from_slice(&piece[..piece.len().min(MOST_BYTES + 1)])?;
    Ok(())
}

/// The counts on a line of their own, as a piece.
#[tactic(auto, using(crate::proofs::SumLemmas::lines))]
fn count_piece(alloc: Global, columns: Columns, counts: Counts) -> Result<Bytes, Memory>
    ensures { IfOk result (λ bytes. bytes ≡ counts_line columns counts []) }
{
    let mut line = Vec::new(alloc);
    put_counts(columns, counts, b"", &mut line)?;
    Ok(Bytes::new(line))
}
