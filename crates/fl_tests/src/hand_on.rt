//! A machine for tests, which hands the text of its one in on to its one out.
ghost use Rattle.std.specs.Prelude.{◌≡◌, true, false, is_some};

use fl_graph::laws::{a_run_begins, a_stop_ends_a_run};
use fl_graph::{Act, Bytes, Machine, Piece, break_machine, first_piece, put_piece, take_piece};
use ps_lines::Memory;
use std::alloc::Global;
use std::test::Fail;

/// The machine of a node with one in and one out that gives what it takes, as one that joins one input does.
#[derive(Drop)]
pub struct HandOn {
    held: Option<Bytes>,
    taking: bool,
    putting: bool,
    broken: bool,
    ghost last: { putting ≡ false → broken ≡ false → taking ≡ false },
}

impl HandOn {
    ghost use Rattle.std.specs.Prelude.{◌≡◌, ◌<◌, ℕ, true, false};

    /// The machine before its first piece.
    pub fn new() -> HandOn
        ensures whole { (⟦<HandOn as Machine>⟧.state result).broken ≡ false }
        ensures ins { (port : ℕ) → (⟦<HandOn as Machine>⟧.state result).takes port ≡ true → port < 1 }
        ensures outs { (port : ℕ) → (⟦<HandOn as Machine>⟧.state result).puts port ≡ true → port < 1 }
        ensures plain { (port : ℕ) → (⟦<HandOn as Machine>⟧.state result).numbered_outs port ≡ false }
    {
        HandOn {
            held: None,
            taking: true,
            putting: true,
            broken: false,
        }
    }
}

impl Machine for HandOn {
    ghost use Rattle.std.specs.Prelude.{[], ◌++◌, ◌==◌, ◌&&◌, ◌||◌, if◌then◌else◌};
    ghost use Rattle.std.specs.Option.{option_map_or};
    ghost use Rattle.fl_graph.specs.declared.pieces.Act.TheVariants.{Take, Put, Stop};

    ghost state = { λ machine. record {
      act =
          if machine.putting && (machine.broken || is_some machine.held) then Put 0 else
          if machine.taking then Take 0 else if machine.putting then Put 0 else Stop;
      takes = λ port. if port == 0 then machine.taking else false;
      puts = λ port. if port == 0 then machine.putting else false;
      numbered_ins = λ port. false;
      numbered_outs = λ port. false;
      broken = machine.broken;
      due = λ values port.
          if port == 0 then option_map_or (λ bytes. bytes) machine.held [] ++ (if machine.taking then values port else []) else [];
      selects = λ values. false;
    } };

    fn next(&self) -> Act {
        if self.putting && (self.broken || self.held.is_some()) {
            return Act::Put(0);
        }
        if self.taking {
            return Act::Take(0);
        }
        if self.putting { Act::Put(0) } else { Act::Stop }
    }

    fn take(&mut self, piece: Piece) -> Result<(), Memory> {
        match piece {
            Piece::Bytes(bytes) => {
                if !self.broken {
                    self.held = Some(bytes);
                }
            }
            Piece::Mark => {}
            Piece::End => self.taking = false,
            Piece::Broken => {
                self.taking = false;
                self.broken = true;
            }
        }
        Ok(())
    }

    fn put(&mut self) -> Result<Piece, Memory> {
        if self.broken {
            self.putting = false;
            return Ok(Piece::Broken);
        }
        if let Some(bytes) = self.held.take() {
            return Ok(Piece::Bytes(bytes));
        }
        self.putting = false;
        Ok(Piece::End)
    }

    fn break_off(&mut self) {
        self.broken = true;
    }

    fn selected(&self) -> bool {
        false
    }
}

/// One act of a machine: it takes the last of `input`, or puts behind `output`. False once it stops or waits for an input.
fn step<M: Machine>(
    machine: &mut M,
    input: &mut Vec<Piece>,
    output: &mut Vec<Piece>,
) -> Result<bool, Memory> {
    match machine.next() {
        Act::Take(_) => {
            match input.pop() {
                None | Some(Piece::Mark) => return Ok(false),
                Some(piece) => take_piece(machine, piece)?,
            }
            Ok(true)
        }
        Act::Put(_) => {
            let piece = put_piece(machine)?;
            output.push(piece)?;
            Ok(true)
        }
        Act::Stop => {
            a_stop_ends_a_run(machine);
            Ok(false)
        }
    }
}

/// Adds the bytes of a piece to a text, and how it ends.
fn show(piece: &Piece, text: &mut Vec<u8>) -> Result<(), Memory> {
    match piece {
        Piece::Bytes(bytes) => text.extend_from_slice(bytes.as_slice())?,
        Piece::Mark => text.push(b'|')?,
        Piece::End => text.push(b'.')?,
        Piece::Broken => text.push(b'!')?,
    }
    Ok(())
}

/// What a machine puts for these pieces, the last of them first, where it is broken off behind so many acts.
fn put_for(alloc: Global, input: Vec<Piece>, whole_for: u32) -> Result<Vec<u8>, Memory> {
    let mut machine = HandOn::new();
    a_run_begins(&machine);
    let mut left = input;
    let mut output = Vec::new(alloc);
    for acts in 0..12 {
        if acts == whole_for {
            break_machine(&mut machine);
        }
        if !step(&mut machine, &mut left, &mut output)? {
            break;
        }
    }
    let mut text = Vec::new(alloc);
    for piece in &output {
        show(piece, &mut text)?;
    }
    if machine.next() == Act::Stop && !machine.selected() {
        text.push(b'#')?;
    }
    Ok(text)
}

/// The piece that a word stands for: `.` is an end, `!` a break, and any other its bytes.
fn piece_of(alloc: Global, word: &[u8]) -> Result<Piece, Memory> {
    match word {
        [] | [b'.'] => Ok(Piece::End),
        [b'!'] => Ok(Piece::Broken),
        bytes => Ok(Piece::Bytes(first_piece(alloc, bytes)?)),
    }
}

/// The pieces that words stand for.
fn pieces_of(alloc: Global, words: &str) -> Result<Vec<Piece>, Memory> {
    let mut pieces = Vec::new(alloc);
    for word in words.as_bytes().split(|byte| *byte == b' ') {
        pieces.push(piece_of(alloc, word)?)?;
    }
    Ok(pieces)
}

/// Whether a machine puts this for these pieces.
fn puts_so(alloc: Global, words: &str, whole_for: u32, wanted: &str) -> Result<bool, Memory> {
    let put = put_for(alloc, pieces_of(alloc, words)?, whole_for)?;
    Ok(put.as_slice() == wanted.as_bytes())
}

/// The pieces that a machine takes, the last of them first, the acts behind which it is broken off, and what it puts.
static ROWS: [(&str, u32, &str); 4] = [
    (". c ab", 12, "abc.#"),
    ("! a", 12, "a!#"),
    ("a", 12, "a"),
    (". c ab", 3, "ab!#"),
];

#[test]
fn a_text_is_handed_on_to_its_end(rt: HostRuntime) -> Result<(), Fail> {
    for &(words, whole_for, wanted) in ROWS.iter() {
        let is_right = puts_so(rt.alloc(), words, whole_for, wanted)?;
        assert!(rt; is_right, "{words}, broken off behind {whole_for} acts");
    }
    Ok(())
}
