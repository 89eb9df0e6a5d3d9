//! A machine with a stream in it.
ghost use Rattle.std.specs.Prelude.{◌≡◌, [], true, false};

use crate::waiting::Waiting;
use fl_graph::{Act, Machine, Piece};
use ps_lines::Memory;
use std::alloc::Global;
use ut_streams::Stream;

/// The machine of a node with one in and one out that puts what a stream makes of what it takes.
#[derive(Drop)]
pub struct Through<S: Stream> {
    stream: S,
    waiting: Waiting,
    taking: bool,
    putting: bool,
    broken: bool,
    ghost usable: { broken ≡ false → taking ≡ true → S.spent stream ≡ false },
    ghost ended: { putting ≡ false → broken ≡ false → taking ≡ false },
    ghost empty: { putting ≡ false → broken ≡ false → waiting ≡ [] },
}

impl<S: Stream> Through<S> {
    /// The machine of a stream that is at its beginning.
    pub fn new(alloc: Global, stream: S) -> Through<S>
        requires { S.spent stream ≡ false }
        ensures stream { result.stream ≡ stream }
        ensures waiting { result.waiting ≡ [] }
        ensures taking { result.taking ≡ true }
        ensures putting { result.putting ≡ true }
        ensures broken { result.broken ≡ false }
    {
        Through {
            stream,
            waiting: Waiting::nothing(alloc),
            taking: true,
            putting: true,
            broken: false,
        }
    }
}

impl<S: Stream> Machine for Through<S> {
    ghost use Rattle.std.specs.Prelude.{◌||◌};
    ghost use Rattle.fl_machines.specs.Through.{due_through, next_act, only_port, selects_through};
    ghost use Rattle.fl_machines.specs.Waiting.{is_worth_putting};

    ghost state = { λ machine. record {
      act = next_act (machine.broken || is_worth_putting machine.waiting) machine.taking machine.putting;
      takes = only_port machine.taking;
      puts = only_port machine.putting;
      numbered_ins = λ port. false;
      numbered_outs = λ port. false;
      broken = machine.broken;
      due = due_through machine.waiting machine.taking (S.due machine.stream);
      selects = selects_through machine.taking (S.selects machine.stream) (S.selected machine.stream);
    } };

    fn next(&self) -> Act {
        if self.putting && (self.broken || self.waiting.is_worth_putting()) {
            return Act::Put(0);
        }
        if self.taking {
            return Act::Take(0);
        }
        if self.putting { Act::Put(0) } else { Act::Stop }
    }

    #[tactic(auto, using(crate::proofs::WaitingLemmas::waits))]
    fn take(&mut self, piece: Piece) -> Result<(), Memory> {
        match piece {
            Piece::Bytes(bytes) => {
                if self.broken {
                    return Ok(());
                }
                let mut out = self.waiting.buffer();
                let fed = self.stream.feed(bytes.as_slice(), &mut out);
                self.waiting.hold(out);
                self.waiting.keep(bytes);
                self.broken = fed.is_err();
                fed
            }
            Piece::Mark => Ok(()),
            Piece::End => {
                self.taking = false;
                if self.broken {
                    return Ok(());
                }
                let mut out = self.waiting.buffer();
                let finished = self.stream.finish(&mut out);
                self.waiting.hold(out);
                self.broken = finished.is_err();
                finished
            }
            Piece::Broken => {
                self.taking = false;
                self.broken = true;
                Ok(())
            }
        }
    }

    fn put(&mut self) -> Result<Piece, Memory> {
        if self.broken {
            self.putting = false;
            return Ok(Piece::Broken);
        }
        if self.waiting.is_empty() {
            self.putting = false;
            return Ok(Piece::End);
        }
        match self.waiting.next() {
            Ok(bytes) => Ok(Piece::Bytes(bytes)),
            Err(memory) => {
                self.broken = true;
                Err(memory)
            }
        }
    }

    fn break_off(&mut self) {
        self.broken = true;
    }

    fn selected(&self) -> bool {
        self.stream.has_selected()
    }
}
