//! A node that splits its input at ends of lines.
ghost use Rattle.std.specs.Prelude.{◌≡◌, ◌≤◌, ◌<◌, ◌+◌, ℕ, List, [], true, false, length};
ghost use Rattle.fl_classes.specs.Parts.{next_end, part_end, share};

use fl_graph::{Act, Machine, Piece, first_piece};
use ps_lines::{Memory, next_line};
use std::alloc::Global;

/// The machine of a split: its input in as many parts as it has outs, each ended at the end of a line, and as even as that allows.
///
/// It holds all of its input, since the shares depend on its length.
#[derive(Drop)]
pub struct Split {
    alloc: Global,
    outs: u32,
    text: Vec<u8>,
    taking: bool,
    /// The part that is put.
    part: u32,
    /// How many bytes of the text were put.
    given: usize,
    /// Where the part ends.
    end: usize,
    broken: bool,
    ghost some: { 0 < outs },
    ghost counted: { part ≤ outs },
    ghost within: { given ≤ end },
    ghost inside: { end ≤ length text.items },
    ghost first: { taking ≡ true → broken ≡ false → part ≡ 0 },
    ghost start: { taking ≡ true → given ≡ 0 },
    ghost placed: { taking ≡ false → broken ≡ false → part < outs → end ≡ part_end text.items outs (part + 1) },
}

impl Split {
    /// The machine of a node with so many outs, before its first piece.
    pub fn new(alloc: Global, outs: u32) -> Split
        requires { 0 < outs }
        ensures outs { result.outs ≡ outs }
        ensures text { result.text.items ≡ [] }
        ensures taking { result.taking ≡ true }
        ensures part { result.part ≡ 0 }
        ensures broken { result.broken ≡ false }
    {
        Split {
            alloc,
            outs,
            text: Vec::new(alloc),
            taking: true,
            part: 0,
            given: 0,
            end: 0,
            broken: false,
        }
    }
}

impl Machine for Split {
    ghost use Rattle.std.specs.Prelude.{◌++◌, ◌==◌, ◌&&◌, ◌||◌, not, nat_le, nat_lt, get_or, if◌then◌else◌};
    ghost use Rattle.fl_graph.specs.declared.pieces.Act.TheVariants.{Take, Put, Stop};
    ghost use Rattle.fl_classes.specs.Parts.{parts_of};
    ghost use Rattle.fl_joints.specs.Joints.{parts_left};

    ghost state = { λ machine. record {
      act =
          if nat_lt machine.part machine.outs && (machine.broken || not machine.taking) then Put machine.part
          else if machine.taking then Take 0 else Stop;
      takes = λ port. if port == 0 then machine.taking else false;
      puts = λ port. nat_le machine.part port && nat_lt port machine.outs;
      numbered_ins = λ port. false;
      numbered_outs = λ port. false;
      broken = machine.broken;
      due = λ texts port.
          if machine.taking then get_or (parts_of (machine.text.items ++ texts 0) machine.outs) port []
          else parts_left machine.text.items machine.outs machine.part machine.given machine.end port;
      selects = λ texts. false;
    } };

    fn next(&self) -> Act {
        if self.part < self.outs && (self.broken || !self.taking) {
            return Act::Put(self.part);
        }
        if self.taking { Act::Take(0) } else { Act::Stop }
    }

    #[tactic(auto, using(crate::proofs::SplitLemmas::takes))]
    fn take(&mut self, piece: Piece) -> Result<(), Memory> {
        match piece {
            Piece::Bytes(bytes) => {
                if self.broken {
                    return Ok(());
                }
                match self.text.extend_from_slice(bytes.as_slice()) {
                    Ok(()) => Ok(()),
                    Err(_) => {
                        self.broken = true;
                        Err(Memory)
                    }
                }
            }
            Piece::Mark => Ok(()),
            Piece::End => {
                self.taking = false;
                if self.broken {
                    return Ok(());
                }
                self.end = end_of_part(self.text.as_slice(), self.part + 1, self.outs);
                Ok(())
            }
            Piece::Broken => {
                self.taking = false;
                self.broken = true;
                Ok(())
            }
        }
    }

    #[tactic(auto, using(crate::proofs::SplitLemmas::puts))]
    fn put(&mut self) -> Result<Piece, Memory> {
        if self.broken {
            self.part += 1;
            return Ok(Piece::Broken);
        }
        if self.given == self.end {
            self.end = end_behind(self.text.as_slice(), self.part, self.outs, self.end);
            self.part += 1;
            return Ok(Piece::End);
        }
        match first_piece(self.alloc, &self.text.as_slice()[self.given..self.end]) {
            Ok(bytes) => {
                self.given += bytes.as_slice().len();
                Ok(Piece::Bytes(bytes))
            }
            Err(memory) => {
                self.broken = true;
                Err(memory)
            }
        }
    }

    fn break_off(&mut self) {
        self.broken = true;
    }

    fn selected(&self) -> bool {
        false
    }
}

/// Where the part behind this one ends, if it isn't the last. `end` is where this one ends.
#[tactic(auto, using(crate::proofs::PartLemmas::behind))]
fn end_behind(text: &[u8], part: u32, parts: u32, end: usize) -> usize
    requires counted { part < parts }
    requires ended { end ≡ part_end text.now parts (part + 1) }
    requires inside { end ≤ length text.now }
    ensures behind { part + 1 < parts → result ≡ part_end text.now parts (part + 1 + 1) }
    ensures last { parts ≤ part + 1 → result ≡ end }
    ensures later { end ≤ result }
    ensures within { result ≤ length text.now }
{
    let next = part + 1;
    if next < parts {
        end_of_part(text, next + 1, parts)
    } else {
        end
    }
}

/// Where the part with this number ends, counted from 1, of so many.
fn end_of_part(text: &[u8], part: u32, parts: u32) -> usize
    requires some { 0 < parts }
    requires counted { part ≤ parts }
    ensures end { result ≡ part_end text.now parts part }
    ensures within { result ≤ length text.now }
{
    end_from(text, share_of(part, parts, text.len()))
}

/// The least end at or after this place at which a part may end.
#[tactic(auto, using(crate::proofs::PartLemmas::ends))]
fn end_from(text: &[u8], place: usize) -> usize
    requires { place ≤ length text.now }
    ensures end { result ≡ next_end text.now place }
    ensures within { result ≤ length text.now }
{
    if place == 0 {
        return 0;
    }
    match next_line(text, place - 1) {
        Some(end) => end,
        None => text.len(),
    }
}

/// Where the part with this number ends at the earliest, in a text of this length.
#[tactic(auto, using(crate::proofs::PartLemmas::shares))]
fn share_of(part: u32, parts: u32, size: usize) -> usize
    requires some { 0 < parts }
    requires counted { part ≤ parts }
    ensures share { result ≡ share part parts size }
    ensures within { result ≤ size }
{
    let product = u128::from(part) * size as u128;
    let rounded = product + u128::from(parts - 1);
    (rounded / u128::from(parts)) as usize
}
