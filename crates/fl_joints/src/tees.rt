//! A node that hands its input on to several outs.
ghost use Rattle.std.specs.Prelude.{◌≡◌, ◌≤◌, ◌<◌, ℕ, List, [], None, true, false, is_some, IfOk};

use fl_graph::{Act, Bytes, Machine, Piece};
use ps_lines::Memory;
use std::alloc::Global;

/// The machine of a node each of whose outs has the text of its one in: each piece is put on them in turn, and the next is taken once all
/// have it.
#[derive(Drop)]
pub struct Tee {
    alloc: Global,
    outs: u32,
    held: Option<Bytes>,
    /// How many outs have the piece that is held.
    given: u32,
    /// How many outs have ended.
    ended: u32,
    taking: bool,
    broken: bool,
    ghost inside: { given < outs },
    ghost counted: { ended ≤ outs },
    ghost whole: { broken ≡ true → is_some held ≡ false },
    ghost first: { taking ≡ true → broken ≡ false → ended ≡ 0 },
    ghost open: { is_some held ≡ true → ended ≡ 0 },
}

impl Tee {
    /// The machine of a node with so many outs, before its first piece.
    pub fn new(alloc: Global, outs: u32) -> Tee
        requires { 0 < outs }
        ensures outs { result.outs ≡ outs }
        ensures held { result.held ≡ None }
        ensures given { result.given ≡ 0 }
        ensures ended { result.ended ≡ 0 }
        ensures taking { result.taking ≡ true }
        ensures broken { result.broken ≡ false }
    {
        Tee {
            alloc,
            outs,
            held: None,
            given: 0,
            ended: 0,
            taking: true,
            broken: false,
        }
    }
}

impl Machine for Tee {
    ghost use Rattle.std.specs.Prelude.{◌==◌, ◌&&◌, ◌||◌, not, nat_le, nat_lt, if◌then◌else◌};
    ghost use Rattle.std.specs.Option.{option_map_or};
    ghost use Rattle.fl_graph.specs.declared.pieces.Act.TheVariants.{Take, Put, Stop};
    ghost use Rattle.fl_joints.specs.Joints.{left_for};

    ghost state = { λ machine. record {
      act =
          if is_some machine.held then Put machine.given
          else if nat_lt machine.ended machine.outs && (machine.broken || not machine.taking) then Put machine.ended
          else if machine.taking then Take 0 else Stop;
      takes = λ port. if port == 0 then machine.taking else false;
      puts = λ port. nat_le machine.ended port && nat_lt port machine.outs;
      numbered_ins = λ port. false;
      numbered_outs = λ port. false;
      broken = machine.broken;
      due = λ texts port. left_for machine.outs machine.given (option_map_or (λ bytes. bytes) machine.held []) (if machine.taking then texts 0 else []) port;
      selects = λ texts. false;
    } };

    fn next(&self) -> Act {
        if self.held.is_some() {
            return Act::Put(self.given);
        }
        if self.ended < self.outs && (self.broken || !self.taking) {
            return Act::Put(self.ended);
        }
        if self.taking { Act::Take(0) } else { Act::Stop }
    }

    #[tactic(auto, using(crate::proofs::TeeLemmas::takes))]
    fn take(&mut self, piece: Piece) -> Result<(), Memory> {
        match piece {
            Piece::Bytes(bytes) => {
                if !self.broken {
                    self.given = 0;
                    self.held = Some(bytes);
                }
            }
            Piece::Mark => {}
            Piece::End => self.taking = false,
            Piece::Broken => {
                self.taking = false;
                self.broken = true;
            }
        }
        Ok(())
    }

    #[tactic(auto, using(crate::proofs::TeeLemmas::puts))]
    fn put(&mut self) -> Result<Piece, Memory> {
        let Some(bytes) = self.held.take() else {
            self.ended += 1;
            return Ok(if self.broken {
                Piece::Broken
            } else {
                Piece::End
            });
        };
        // The last out has the piece itself.
        if self.outs - self.given == 1 {
            return Ok(Piece::Bytes(bytes));
        }
        match copy_of(self.alloc, &bytes) {
            Ok(copy) => {
                self.given += 1;
                self.held = Some(bytes);
                Ok(Piece::Bytes(copy))
            }
            Err(memory) => {
                self.broken = true;
                Err(memory)
            }
        }
    }

    fn break_off(&mut self) {
        self.held = None;
        self.broken = true;
    }

    fn selected(&self) -> bool {
        false
    }
}

/// A copy of a piece's bytes.
fn copy_of(alloc: Global, bytes: &Bytes) -> Result<Bytes, Memory>
    ensures { IfOk result (λ copy. copy ≡ bytes.now) }
{
    Ok(Bytes::new(Vec::from_slice(alloc, bytes.as_slice())?))
}
