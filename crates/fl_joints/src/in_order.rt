//! A node that joins its inputs in order.
ghost use Rattle.std.specs.Prelude.{◌≡◌, ◌≤◌, ◌<◌, ◌-◌, ◌&&◌, ℕ, List, [], None, true, false, is_some, nat_lt};

use fl_graph::{Act, Bytes, Machine, Piece, first_piece};
use ps_lines::{Memory, NEWLINE, is_closed};
use std::alloc::Global;

/// The machine of a node that joins its inputs in order: pieces are handed on as they come, those of an in only once the one before has
/// ended. Where it closes them, a newline is put behind each but the last that ends within a line.
#[derive(Drop)]
pub struct InOrder {
    alloc: Global,
    ins: u32,
    /// Whether each text but the last is closed.
    close: bool,
    /// The in whose turn it is.
    at: u32,
    /// What has come of its text ends within a line.
    within_line: bool,
    held: Option<Bytes>,
    putting: bool,
    broken: bool,
    ghost within: { at ≤ ins },
    ghost whole: { broken ≡ true → is_some held ≡ false },
    ghost ended: { putting ≡ false → is_some held ≡ false },
    ghost last: { putting ≡ false → broken ≡ false → at ≡ ins },
}

impl InOrder {
    /// The machine of a node with so many ins, before its first piece.
    pub fn new(alloc: Global, ins: u32, close: bool) -> InOrder
        ensures ins { result.ins ≡ ins }
        ensures close { result.close ≡ close }
        ensures at { result.at ≡ 0 }
        ensures within_line { result.within_line ≡ false }
        ensures held { result.held ≡ None }
        ensures putting { result.putting ≡ true }
        ensures broken { result.broken ≡ false }
    {
        InOrder {
            alloc,
            ins,
            close,
            at: 0,
            within_line: false,
            held: None,
            putting: true,
            broken: false,
        }
    }

    /// Whether the text whose turn it is wants a newline, if nothing more of it comes.
    fn lacks_newline(&self) -> bool
        requires { self.now.at < self.now.ins }
        ensures { result ≡ (self.now.close && (self.now.within_line && nat_lt 1 (self.now.ins - self.now.at))) }
    {
        self.close && self.within_line && self.ins - self.at > 1
    }
}

impl Machine for InOrder {
    ghost use Rattle.std.specs.Prelude.{◌++◌, ◌==◌, ◌||◌, nat_le, if◌then◌else◌};
    ghost use Rattle.std.specs.Option.{option_map_or};
    ghost use Rattle.fl_graph.specs.declared.pieces.Act.TheVariants.{Take, Put, Stop};
    ghost use Rattle.fl_joints.specs.Joints.{joined_by};

    ghost state = { λ machine. record {
      act =
          if machine.putting && (machine.broken || is_some machine.held) then Put 0
          else if nat_lt machine.at machine.ins then Take machine.at
          else if machine.putting then Put 0 else Stop;
      takes = λ port. nat_le machine.at port && nat_lt port machine.ins;
      puts = λ port. if port == 0 then machine.putting else false;
      numbered_ins = λ port. false;
      numbered_outs = λ port. false;
      broken = machine.broken;
      due = λ texts port.
          if port == 0 then option_map_or (λ bytes. bytes) machine.held [] ++ joined_by machine.close machine.within_line texts machine.at (machine.ins - machine.at) else [];
      selects = λ texts. false;
    } };

    fn next(&self) -> Act {
        if self.putting && (self.broken || self.held.is_some()) {
            return Act::Put(0);
        }
        if self.at < self.ins {
            return Act::Take(self.at);
        }
        if self.putting { Act::Put(0) } else { Act::Stop }
    }

    #[tactic(auto, using(crate::proofs::ClosingLemmas::joins))]
    fn take(&mut self, piece: Piece) -> Result<(), Memory> {
        match piece {
            Piece::Bytes(bytes) => {
                if !self.broken {
                    self.within_line = !is_closed(bytes.as_slice());
                    self.held = Some(bytes);
                }
                Ok(())
            }
            Piece::Mark => Ok(()),
            Piece::End => {
                let lacks_newline = !self.broken && self.lacks_newline();
                self.at += 1;
                self.within_line = false;
                if !lacks_newline {
                    return Ok(());
                }
                match first_piece(self.alloc, &[NEWLINE]) {
                    Ok(newline) => {
                        self.held = Some(newline);
                        Ok(())
                    }
                    Err(memory) => {
                        self.broken = true;
                        Err(memory)
                    }
                }
            }
            Piece::Broken => {
                self.at += 1;
                self.broken = true;
                Ok(())
            }
        }
    }

    fn put(&mut self) -> Result<Piece, Memory> {
        if let Some(bytes) = self.held.take() {
            return Ok(Piece::Bytes(bytes));
        }
        self.putting = false;
        if self.broken {
            Ok(Piece::Broken)
        } else {
            Ok(Piece::End)
        }
    }

    fn break_off(&mut self) {
        self.held = None;
        self.broken = true;
    }

    fn selected(&self) -> bool {
        false
    }
}
