//! The machine of an expression.
ghost use Rattle.std.specs.Prelude.{◌≡◌, ◌+◌, ◌*◌, ◌≤◌, ◌↔◌, ◌||◌, Bool, IfOk, OnOk, IsTrue, not, vec_len};

use crate::bits::Bits;
use crate::program::Op;
use crate::sweep::{sweep_back, sweep_up};
use std::alloc::{AllocError, Global};

/// Seeks one expression in lines. It carries along the line which bytes of the expression may have been the last one
/// read, and goes over the expression twice for each byte.
#[derive(Drop)]
pub(crate) struct Machine {
    pub steps: Vec<Op>,
    pub fold: bool,
    pub whole: bool,
    values: Bits,
    kept: Bits,
    entries: Bits,
    marks: Bits,
    ghost values_room: { 2 * vec_len steps + 2 ≤ values.capacity },
    ghost kept_room: { 2 * vec_len steps + 2 ≤ kept.capacity },
    ghost entries_room: { 2 * vec_len steps + 2 ≤ entries.capacity },
    ghost marks_room: { 2 * vec_len steps + 2 ≤ marks.capacity },
}

/// A state of a machine: whether it stands at the line's beginning, and its marks, of which the first comes last.
#[derive(Drop)]
pub(crate) struct Row {
    pub begins: bool,
    pub marks: Vec<bool>,
}

impl Machine {
    ghost use Rattle.ut_regex.specs.Inner.Seeks.{Seeks, Same, swept, leads_on, marked};
    ghost use Rattle.ut_regex.specs.Spans.{Has};
    ghost use Rattle.ut_regex.specs.Tree.{Tree};
    ghost use Rattle.ut_regex.specs.Inner.Tables.{state_of, after, leads_at};

    /// A machine that runs a program.
    pub(crate) fn running(
        alloc: Global,
        steps: Vec<Op>,
        fold: bool,
        whole: bool,
    ) -> Result<Machine, AllocError>
        ensures { IfOk result (λ machine. (machine.steps.items ≡ steps.items) × (machine.fold ≡ fold) × (machine.whole ≡ whole)) }
    {
        let room = match steps
            .len()
            .checked_mul(2)
            .and_then(|twice| twice.checked_add(2))
        {
            Some(room) => room,
            None => return Err(AllocError),
        };
        let values = Bits::with_capacity(alloc, room)?;
        let kept = Bits::with_capacity(alloc, room)?;
        let entries = Bits::with_capacity(alloc, room)?;
        let marks = Bits::with_capacity(alloc, room)?;
        Ok(Machine {
            steps,
            fold,
            whole,
            values,
            kept,
            entries,
            marks,
        })
    }

    /// Whether the line has the expression. It takes no memory, and ends at the first place where the answer is known.
    pub(crate) fn has(&mut self, line: &[u8]) -> bool
        ensures has { (fold whole : Bool) (re : Tree) → Seeks self.old fold whole re → (IsTrue result ↔ Has fold whole line.now re) }
        ensures same { Same self.old self.new }
    {
        self.marks.clear();
        for (place, byte) in line.iter().enumerate() {
            let led = self.leads_on(place == 0, false);
            if led && !self.whole {
                return true;
            }
            self.read(place == 0, *byte);
        }
        self.leads_on(line.is_empty(), true)
    }

    /// Whether the expression may end at a place that is or isn't the line's beginning and end. What is kept of the marks
    /// is enough to read the next byte.
    fn leads_on(&mut self, begins: bool, ends: bool) -> bool
        ensures leads { result ≡ leads_on (begins || not self.old.whole) (swept begins ends self.old.steps.items self.old.marks.bits) }
        ensures kept { self.new.kept.bits ≡ (swept begins ends self.old.steps.items self.old.marks.bits).kept }
        ensures same { Same self.old self.new }
    {
        self.values.clear();
        self.kept.clear();
        sweep_up(
            &self.steps,
            begins,
            ends,
            &mut self.values,
            &mut self.marks,
            &mut self.kept,
        );
        let skips = self.values.pop();
        let closes = self.values.pop();
        closes || (skips && (begins || !self.whole))
    }

    /// Reads the next byte, at a place that is or isn't the line's beginning.
    fn read(&mut self, begins: bool, byte: u8)
        ensures marks { self.new.marks.bits ≡ marked self.old.fold byte (begins || not self.old.whole) self.old.steps.items self.old.kept.bits }
        ensures same { Same self.old self.new }
    {
        self.entries.clear();
        self.entries.push(begins || !self.whole);
        self.marks.clear();
        sweep_back(
            &self.steps,
            self.fold,
            byte,
            &mut self.entries,
            &mut self.kept,
            &mut self.marks,
        );
    }

    /// The state behind a byte.
    pub(crate) fn step(&mut self, alloc: Global, row: &Row, byte: u8) -> Result<Row, AllocError>
        ensures next { IfOk result (λ next. state_of next ≡ after self.old.steps.items self.old.fold self.old.whole (state_of row.now) byte) }
        ensures same { Same self.old self.new }
    {
        let mut next = Row {
            begins: false,
            marks: Vec::new(alloc),
        };
        self.step_to(row, byte, &mut next)?;
        Ok(next)
    }

    /// Makes of a row the state behind a byte. It takes no memory where the row has room for its marks.
    pub(crate) fn step_to(&mut self, row: &Row, byte: u8, next: &mut Row) -> Result<(), AllocError>
        ensures next { OnOk result (state_of next.new ≡ after self.old.steps.items self.old.fold self.old.whole (state_of row.now) byte) }
        ensures same { Same self.old self.new }
    {
        self.marks.load(&row.marks)?;
        let _ = self.leads_on(row.begins, false);
        self.read(row.begins, byte);
        next.begins = false;
        self.marks.copy_to(&mut next.marks)
    }

    /// Whether the expression may end in a state, at a place that is or isn't the line's end.
    pub(crate) fn leads(&mut self, row: &Row, ends: bool) -> Result<bool, AllocError>
        ensures leads { IfOk result (λ led. led ≡ leads_at self.old.steps.items self.old.whole ends (state_of row.now)) }
        ensures same { Same self.old self.new }
    {
        self.marks.load(&row.marks)?;
        Ok(self.leads_on(row.begins, ends))
    }
}
