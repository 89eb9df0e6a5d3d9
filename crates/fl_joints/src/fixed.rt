//! A node whose out doesn't depend on its in.
ghost use Rattle.std.specs.Prelude.{◌≡◌, ◌≤◌, ℕ, List, [], true, false, length, IfOk};

use fl_graph::{Act, Machine, Piece, first_piece};
use ps_lines::{Memory, Text};
use std::alloc::Global;

/// The machine of a node whose out has this text, whatever comes at its in: a text that is given, which has no in, and a drain, which
/// has no out.
#[derive(Drop)]
pub struct Fixed {
    alloc: Global,
    text: Text,
    /// How many of its bytes were put.
    given: usize,
    taking: bool,
    putting: bool,
    broken: bool,
    ghost within: { given ≤ length text },
}

impl Fixed {
    /// The machine that gives a copy of the text, before its first piece.
    pub fn giving(alloc: Global, text: &Text) -> Result<Fixed, Memory>
        ensures text { IfOk result (λ machine. machine.text ≡ text.now) }
        ensures given { IfOk result (λ machine. machine.given ≡ 0) }
        ensures taking { IfOk result (λ machine. machine.taking ≡ false) }
        ensures putting { IfOk result (λ machine. machine.putting ≡ true) }
        ensures broken { IfOk result (λ machine. machine.broken ≡ false) }
    {
        let text = Text::copy_of(alloc, text.as_slice())?;
        Ok(Fixed {
            alloc,
            text,
            given: 0,
            taking: false,
            putting: true,
            broken: false,
        })
    }

    /// The machine that takes its input and does nothing with it, before its first piece.
    pub fn draining(alloc: Global) -> Result<Fixed, Memory>
        ensures taking { IfOk result (λ machine. machine.taking ≡ true) }
        ensures putting { IfOk result (λ machine. machine.putting ≡ false) }
        ensures broken { IfOk result (λ machine. machine.broken ≡ false) }
    {
        let text = Text::copy_of(alloc, &[])?;
        Ok(Fixed {
            alloc,
            text,
            given: 0,
            taking: true,
            putting: false,
            broken: false,
        })
    }
}

impl Machine for Fixed {
    ghost use Rattle.std.specs.Prelude.{◌==◌, drop, if◌then◌else◌};
    ghost use Rattle.fl_graph.specs.declared.pieces.Act.TheVariants.{Put, Stop, Take};

    ghost state = { λ machine. record {
      act = if machine.putting then Put 0 else if machine.taking then Take 0 else Stop;
      takes = λ port. if port == 0 then machine.taking else false;
      puts = λ port. if port == 0 then machine.putting else false;
      numbered_ins = λ port. false;
      numbered_outs = λ port. false;
      broken = machine.broken;
      due = λ texts port. if port == 0 then (if machine.putting then drop machine.given machine.text else []) else [];
      selects = λ texts. false;
    } };

    fn next(&self) -> Act {
        if self.putting {
            return Act::Put(0);
        }
        if self.taking { Act::Take(0) } else { Act::Stop }
    }

    fn take(&mut self, piece: Piece) -> Result<(), Memory> {
        match piece {
            Piece::Bytes(_) | Piece::Mark => {}
            Piece::End => self.taking = false,
            Piece::Broken => {
                self.taking = false;
                self.broken = true;
            }
        }
        Ok(())
    }

    #[tactic(auto, using(crate::proofs::FrontLemmas::fronts))]
    fn put(&mut self) -> Result<Piece, Memory> {
        if self.broken {
            self.putting = false;
            return Ok(Piece::Broken);
        }
        let waiting = &self.text.as_slice()[self.given..];
        if waiting.is_empty() {
            self.putting = false;
            return Ok(Piece::End);
        }
        match first_piece(self.alloc, waiting) {
            Ok(bytes) => {
                self.given += bytes.as_slice().len();
                Ok(Piece::Bytes(bytes))
            }
            Err(memory) => {
                self.broken = true;
                Err(memory)
            }
        }
    }

    fn break_off(&mut self) {
        self.broken = true;
    }

    fn selected(&self) -> bool {
        false
    }
}
