//! The machine of `sort`.
ghost use Rattle.std.specs.Prelude.{◌≡◌, ◌≤◌, ◌<◌, ◌++◌, [], drop, vec_len, true, false, IfNone, IfOk, IfSome, OnOk};
ghost use Rattle.ut_sort.specs.Writing.{left_of};

use crate::waiting::copy_front;
use fl_graph::{Act, Bytes, Machine, Piece};
use ps_lines::Memory;
use std::alloc::Global;
use std::marker::Model;
use ut_sort::{SortedLines, Sorter};
use ut_streams::Stream;

/// The machine of a node with one in and one out that sorts.
///
/// It gathers what it takes. At the end of its in it sorts, and what it puts from then on is written piece by piece: the text is held once,
/// where a stream would write the whole of its output beside it.
#[derive(Drop)]
pub struct Sorting {
    sorter: Sorter,
    pieces: Pieces,
    alloc: Global,
    taking: bool,
    putting: bool,
    broken: bool,
    ghost usable: { broken ≡ false → taking ≡ true → ⟦<Sorter as Stream>⟧.spent sorter ≡ false },
    ghost ended: { putting ≡ false → broken ≡ false → taking ≡ false },
    ghost gathers: { taking ≡ true → pieces ≡ [] },
}

impl Sorting {
    /// The machine of a sorter that is at its beginning.
    pub fn new(alloc: Global, sorter: Sorter) -> Sorting
        requires { ⟦<Sorter as Stream>⟧.spent sorter ≡ false }
        ensures sorter { result.sorter ≡ sorter }
        ensures pieces { result.pieces ≡ [] }
        ensures taking { result.taking ≡ true }
        ensures putting { result.putting ≡ true }
        ensures broken { result.broken ≡ false }
    {
        Sorting {
            sorter,
            pieces: Pieces::new(alloc, SortedLines::none(alloc)),
            alloc,
            taking: true,
            putting: true,
            broken: false,
        }
    }
}

impl Machine for Sorting {
    ghost use Rattle.fl_machines.specs.Through.{due_through, next_act, only_port};

    ghost state = { λ machine. record {
      act = next_act machine.broken machine.taking machine.putting;
      takes = only_port machine.taking;
      puts = only_port machine.putting;
      numbered_ins = λ port. false;
      numbered_outs = λ port. false;
      broken = machine.broken;
      due = due_through machine.pieces machine.taking (⟦<Sorter as Stream>⟧.due machine.sorter);
      selects = λ texts. false;
    } };

    fn next(&self) -> Act {
        if self.putting && self.broken {
            return Act::Put(0);
        }
        if self.taking {
            return Act::Take(0);
        }
        if self.putting { Act::Put(0) } else { Act::Stop }
    }

    fn take(&mut self, piece: Piece) -> Result<(), Memory> {
        match piece {
            Piece::Bytes(bytes) => {
                if self.broken {
                    return Ok(());
                }
                let gathered = self.sorter.gather(bytes.as_slice());
                self.broken = gathered.is_err();
                gathered
            }
            Piece::Mark => Ok(()),
            Piece::End => {
                self.taking = false;
                if self.broken {
                    return Ok(());
                }
                match self.sorter.sort() {
                    Ok(lines) => {
                        self.pieces = Pieces::new(self.alloc, lines);
                        Ok(())
                    }
                    Err(memory) => {
                        self.broken = true;
                        Err(memory)
                    }
                }
            }
            Piece::Broken => {
                self.taking = false;
                self.broken = true;
                Ok(())
            }
        }
    }

    fn put(&mut self) -> Result<Piece, Memory> {
        if self.broken {
            self.putting = false;
            return Ok(Piece::Broken);
        }
        match self.pieces.next(self.alloc) {
            Ok(Some(bytes)) => Ok(Piece::Bytes(bytes)),
            Ok(None) => {
                self.putting = false;
                Ok(Piece::End)
            }
            Err(memory) => {
                self.broken = true;
                Err(memory)
            }
        }
    }

    fn break_off(&mut self) {
        self.broken = true;
    }

    fn selected(&self) -> bool {
        false
    }
}

/// Lines in order on their way out: what is written of them and isn't handed on yet waits in `out`, from `given` on. Contracts see what is
/// left of their text.
#[derive(Drop)]
struct Pieces {
    lines: SortedLines,
    out: Vec<u8>,
    given: usize,
}

impl Model for Pieces {
    ghost use Rattle.std.specs.Prelude.{◌≤◌, ◌++◌, ℕ, List, drop, vec_len};
    ghost use Rattle.ut_sort.specs.Writing.{left_of};

    ghost Value = { List ℕ };

    ghost view = { λ pieces. drop pieces.given pieces.out.items ++ left_of pieces.lines };

    ghost invariant = { λ pieces. pieces.given ≤ vec_len pieces.out };
}

impl Pieces {
    /// Lines of which nothing is handed on yet.
    fn new(alloc: Global, lines: SortedLines) -> Pieces
        ensures { result ≡ left_of lines }
    {
        Pieces {
            lines,
            out: Vec::new(alloc),
            given: 0,
        }
    }

    /// The next bytes, as many as a piece can have of those that wait; None where nothing is left.
    fn next(&mut self, alloc: Global) -> Result<Option<Bytes>, Memory>
        ensures some { IfOk result (λ next. IfSome next (λ bytes. self.old ≡ bytes ++ self.new)) }
        ensures none { IfOk result (λ next. IfNone next ((self.old ≡ []) × (self.new ≡ []))) }
    {
        refill(&mut self.lines, &mut self.out, &mut self.given)?;
        if self.given == self.out.len() {
            return Ok(None);
        }
        let bytes = copy_front(alloc, self.out.as_slice(), &mut self.given)?;
        Ok(Some(bytes))
    }
}

/// Writes the next lines where no byte waits from `given` on, and lets these wait.
fn refill(lines: &mut SortedLines, out: &mut Vec<u8>, given: &mut usize) -> Result<(), Memory>
    requires { given.old ≤ vec_len out.old }
    ensures left { OnOk result (drop given.new out.new.items ++ left_of lines.new ≡ drop given.old out.old.items ++ left_of lines.old) }
    ensures within { given.new ≤ vec_len out.new }
    ensures some { OnOk result (given.new ≡ vec_len out.new → left_of lines.new ≡ []) }
{
    if *given < out.len() {
        return Ok(());
    }
    out.clear();
    *given = 0;
    lines.put_piece(out)
}
