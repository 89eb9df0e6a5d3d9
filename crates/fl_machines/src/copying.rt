//! The machine of a node that writes its input as it is.
ghost use Rattle.std.specs.Prelude.{◌≡◌, None, true, false, is_some};

use fl_graph::{Act, Bytes, Machine, Piece};
use ps_lines::Memory;

/// The machine of a node with one in or none that writes what it takes: `cat` of one input, and every finish that changes nothing. Each piece is put
/// as it came.
#[derive(Drop)]
pub struct Copying {
    held: Option<Bytes>,
    taking: bool,
    putting: bool,
    broken: bool,
    ghost whole: { broken ≡ true → is_some held ≡ false },
    ghost last: { putting ≡ false → is_some held ≡ false },
    ghost ended: { putting ≡ false → broken ≡ false → taking ≡ false },
}

impl Copying {
    /// The machine before its first piece, of a node with an in or without one.
    pub fn new(has_in: bool) -> Copying
        ensures held { result.held ≡ None }
        ensures taking { result.taking ≡ has_in }
        ensures putting { result.putting ≡ true }
        ensures broken { result.broken ≡ false }
    {
        Copying {
            held: None,
            taking: has_in,
            putting: true,
            broken: false,
        }
    }
}

impl Machine for Copying {
    ghost use Rattle.std.specs.Prelude.{◌||◌, []};
    ghost use Rattle.std.specs.Option.{option_map_or};
    ghost use Rattle.fl_machines.specs.Through.{due_through, next_act, only_port};

    ghost state = { λ machine. record {
      act = next_act (machine.broken || is_some machine.held) machine.taking machine.putting;
      takes = only_port machine.taking;
      puts = only_port machine.putting;
      numbered_ins = λ port. false;
      numbered_outs = λ port. false;
      broken = machine.broken;
      due = due_through (option_map_or (λ bytes. bytes) machine.held []) machine.taking (λ text. text);
      selects = λ texts. false;
    } };

    fn next(&self) -> Act {
        if self.putting && (self.broken || self.held.is_some()) {
            return Act::Put(0);
        }
        if self.taking {
            return Act::Take(0);
        }
        if self.putting { Act::Put(0) } else { Act::Stop }
    }

    fn take(&mut self, piece: Piece) -> Result<(), Memory> {
        match piece {
            Piece::Bytes(bytes) => {
                if !self.broken {
                    self.held = Some(bytes);
                }
            }
            Piece::Mark => {}
            Piece::End => self.taking = false,
            Piece::Broken => {
                self.taking = false;
                self.broken = true;
            }
        }
        Ok(())
    }

    fn put(&mut self) -> Result<Piece, Memory> {
        if let Some(bytes) = self.held.take() {
            return Ok(Piece::Bytes(bytes));
        }
        self.putting = false;
        if self.broken {
            Ok(Piece::Broken)
        } else {
            Ok(Piece::End)
        }
    }

    fn break_off(&mut self) {
        self.held = None;
        self.broken = true;
    }

    fn selected(&self) -> bool {
        false
    }
}
