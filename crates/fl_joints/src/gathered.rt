//! A node whose aggregate is a stream over its ins.
ghost use Rattle.std.specs.Prelude.{◌≡◌, ◌≤◌, ◌<◌, ◌-◌, ◌∷◌, ◌++◌, ◌&&◌, ℕ, List, [], true, false, not, nat_lt, OnOk};
ghost use Rattle.std.specs.Result.{is_ok};

use fl_graph::{Act, Machine, Piece};
use fl_machines::Waiting;
use ps_lines::{Memory, NEWLINE, is_closed};
use std::alloc::Global;
use ut_streams::Stream;

/// The machine of an aggregate that is what a stream makes of the texts of its ins, joined in order: each but the last closed, or as they are.
#[derive(Drop)]
pub struct Gathered<S: Stream> {
    stream: S,
    ins: u32,
    /// Whether each text but the last is closed.
    close: bool,
    /// The in whose turn it is.
    at: u32,
    /// What has come of its text ends within a line.
    within_line: bool,
    waiting: Waiting,
    putting: bool,
    broken: bool,
    ghost within: { at ≤ ins },
    ghost usable: { broken ≡ false → at < ins → S.spent stream ≡ false },
    ghost ended: { putting ≡ false → broken ≡ false → at ≡ ins },
    ghost empty: { putting ≡ false → broken ≡ false → waiting ≡ [] },
}

impl<S: Stream> Gathered<S> {
    /// The machine of a stream at its beginning, with so many ins.
    pub fn new(alloc: Global, stream: S, ins: u32, close: bool) -> Gathered<S>
        requires { S.spent stream ≡ false }
        ensures stream { result.stream ≡ stream }
        ensures ins { result.ins ≡ ins }
        ensures close { result.close ≡ close }
        ensures at { result.at ≡ 0 }
        ensures within_line { result.within_line ≡ false }
        ensures waiting { result.waiting ≡ [] }
        ensures putting { result.putting ≡ true }
        ensures broken { result.broken ≡ false }
    {
        Gathered {
            stream,
            ins,
            close,
            at: 0,
            within_line: false,
            waiting: Waiting::nothing(alloc),
            putting: true,
            broken: false,
        }
    }

    /// Whether the text whose turn it is wants a newline, if nothing more of it comes.
    fn lacks_newline(&self) -> bool
        requires { self.now.at < self.now.ins }
        ensures { result ≡ (self.now.close && (self.now.within_line && nat_lt 1 (self.now.ins - self.now.at))) }
    {
        self.close && self.within_line && self.ins - self.at > 1
    }
}

/// Feeds a stream what the end of a text brings: the newline that it lacks, and where it is the last text, the end of all.
fn end_text<S: Stream>(
    stream: &mut S,
    lacks_newline: bool,
    is_last: bool,
    out: &mut Vec<u8>,
) -> Result<(), Memory>
    requires unspent { S.spent stream.old ≡ false }
    requires apart { lacks_newline ≡ true → is_last ≡ false }
    ensures newline { OnOk result (lacks_newline ≡ true → (more : List ℕ) →
        out.new.items ++ S.due stream.new more ≡ out.old.items ++ S.due stream.old (NEWLINE ∷ more)) }
    ensures end { OnOk result (is_last ≡ true → out.new.items ≡ out.old.items ++ S.due stream.old []) }
    ensures nothing { OnOk result (lacks_newline ≡ false → is_last ≡ false → (out.new.items ≡ out.old.items) × (stream.new ≡ stream.old)) }
    ensures spent { S.spent stream.new ≡ not (is_ok result) }
{
    if lacks_newline {
        return stream.feed(&[NEWLINE], out);
    }
    if is_last {
        return stream.finish(out);
    }
    Ok(())
}

impl<S: Stream> Machine for Gathered<S> {
    ghost use Rattle.std.specs.Prelude.{◌==◌, ◌||◌, nat_le, if◌then◌else◌};
    ghost use Rattle.fl_graph.specs.declared.pieces.Act.TheVariants.{Take, Put, Stop};
    ghost use Rattle.fl_machines.specs.Waiting.{is_worth_putting};
    ghost use Rattle.fl_joints.specs.Joints.{gathered_on};

    ghost state = { λ machine. record {
      act =
          if machine.putting && (machine.broken || is_worth_putting machine.waiting) then Put 0
          else if nat_lt machine.at machine.ins then Take machine.at
          else if machine.putting then Put 0 else Stop;
      takes = λ port. nat_le machine.at port && nat_lt port machine.ins;
      puts = λ port. if port == 0 then machine.putting else false;
      numbered_ins = λ port. false;
      numbered_outs = λ port. false;
      broken = machine.broken;
      due = λ texts port.
          gathered_on machine.waiting (S.due machine.stream) machine.close machine.within_line texts machine.at machine.ins port;
      selects = λ texts. false;
    } };

    fn next(&self) -> Act {
        if self.putting && (self.broken || self.waiting.is_worth_putting()) {
            return Act::Put(0);
        }
        if self.at < self.ins {
            return Act::Take(self.at);
        }
        if self.putting { Act::Put(0) } else { Act::Stop }
    }

    fn take(&mut self, piece: Piece) -> Result<(), Memory> {
        match piece {
            Piece::Bytes(bytes) => {
                if self.broken {
                    return Ok(());
                }
                self.within_line = !is_closed(bytes.as_slice());
                let mut out = self.waiting.buffer();
                let fed = self.stream.feed(bytes.as_slice(), &mut out);
                self.waiting.hold(out);
                self.waiting.keep(bytes);
                self.broken = fed.is_err();
                fed
            }
            Piece::Mark => Ok(()),
            Piece::End => {
                let lacks_newline = self.lacks_newline();
                self.at += 1;
                self.within_line = false;
                if self.broken {
                    return Ok(());
                }
                let mut out = self.waiting.buffer();
                let fed = end_text(
                    &mut self.stream,
                    lacks_newline,
                    self.at == self.ins,
                    &mut out,
                );
                self.waiting.hold(out);
                self.broken = fed.is_err();
                fed
            }
            Piece::Broken => {
                self.at += 1;
                self.broken = true;
                Ok(())
            }
        }
    }

    fn put(&mut self) -> Result<Piece, Memory> {
        if self.broken {
            self.putting = false;
            return Ok(Piece::Broken);
        }
        if self.waiting.is_empty() {
            self.putting = false;
            return Ok(Piece::End);
        }
        match self.waiting.next() {
            Ok(bytes) => Ok(Piece::Bytes(bytes)),
            Err(memory) => {
                self.broken = true;
                Err(memory)
            }
        }
    }

    fn break_off(&mut self) {
        self.broken = true;
    }

    fn selected(&self) -> bool {
        false
    }
}
