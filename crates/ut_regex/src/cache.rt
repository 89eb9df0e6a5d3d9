//! Tables that are filled as texts are run over, for machines that have too many steps or states for a whole table.
ghost use Rattle.std.specs.Prelude.{◌≡◌, ◌==◌, ◌*◌, ◌<◌, ◌≤◌, length, IfOk, IfSome};
ghost use Rattle.ut_regex.specs.Inner.Filled.{shows};
ghost use Rattle.ut_regex.specs.Inner.Seeks.{Same};
ghost use Rattle.ut_regex.specs.Inner.Tables.{state_at, state_of, states_of};

use crate::machine::{Machine, Row};
use crate::table::{FOUND, place_of};
use ps_lines::NEWLINE;
use std::alloc::{AllocError, Global};

/// An entry that isn't worked out.
pub(crate) const UNKNOWN: u16 = 65_534;

/// The most states that are held at a time, beside the one before a line.
const MAX_HELD: usize = 4096;

/// The most marks that these states have room for, all together.
const MAX_MARKS: usize = 16_777_216;

/// The states to which a machine came, and which of them follows which in a text of lines.
#[derive(Drop)]
pub(crate) struct Cache {
    /// The states, of which the first stands before a line.
    rows: Vec<Row>,
    /// Room for other states. It is made once.
    spare: Vec<Row>,
    /// 256 entries for each state that there is room for.
    next: Vec<u16>,
    ghost some: { 0 < length rows.items },
    ghost room: { 256 * length rows.items ≤ length next.items },
}

impl Cache {
    ghost use Rattle.std.specs.Prelude.{◌≡◌, ◌≤◌, ◌<◌, ℕ, Bool, List, length, IfOk, IfSome};
    ghost use Rattle.ut_regex.specs.declared.program.Op.{Op};
    ghost use Rattle.ut_regex.specs.Answers.{answered};
    ghost use Rattle.ut_regex.specs.Inner.Filled.{IsFilled, IsQuiet, IsRight};
    ghost use Rattle.ut_regex.specs.Inner.Caches.{Serves};
    ghost use Rattle.ut_regex.specs.Inner.Seeks.{Same};
    ghost use Rattle.ut_regex.specs.Inner.Tables.{first_state, state_at, states_of, Keeps};

    /// A table in which nothing is worked out, for a machine of so many steps.
    pub(crate) fn of(alloc: Global, steps: usize) -> Result<Cache, AllocError>
        ensures { IfOk result (λ cache. (ops : List Op) (fold whole : Bool) → IsFilled ops fold whole (states_of cache.rows.items) cache.next.items) }
    {
        let count = MAX_HELD.min(MAX_MARKS / (steps / 2 + 1));
        let mut rows = Vec::with_capacity(alloc, count + 1)?;
        rows.push(Row {
            begins: true,
            marks: Vec::new(alloc),
        })?;
        let spare = spare_rows(alloc, count, steps / 2 + 1)?;
        let next = vec![in alloc; UNKNOWN; 256 * (count + 1)]?;
        Ok(Cache { rows, spare, next })
    }

    /// Whether the line has the expression. It isn't told of a line with a newline in it, nor where there is no more room.
    pub(crate) fn has(&mut self, machine: &mut Machine, line: &[u8]) -> Option<bool>
        requires serves { Serves machine.old self.old }
        ensures has { IfSome result (λ has. has ≡ answered machine.old.steps.items machine.old.fold machine.old.whole first_state line.now) }
        ensures serves { Serves machine.new self.new }
        ensures same { Same machine.old machine.new }
    {
        self.make_room();
        let mut state = 0u16;
        let mut left = line;
        while let [byte, rest @ ..] = left {
            if *byte == NEWLINE {
                return None;
            }
            let entry = self.entry(machine, state, *byte);
            if entry >= UNKNOWN {
                return told_by(entry);
            }
            state = entry;
            left = rest;
        }
        told_by(self.entry(machine, state, NEWLINE))
    }

    /// How far a text is known to have no line with the expression: lines that end before this place lack it.
    pub(crate) fn passed(&mut self, machine: &mut Machine, text: &[u8]) -> usize
        requires serves { Serves machine.old self.old }
        ensures within { result ≤ length text.now }
        ensures quiet { IsQuiet machine.old.steps.items machine.old.fold machine.old.whole first_state text.now result }
        ensures serves { Serves machine.new self.new }
        ensures same { Same machine.old machine.new }
    {
        self.make_room();
        let mut state = 0u16;
        for (place, byte) in text.iter().enumerate() {
            let entry = self.entry(machine, state, *byte);
            if entry >= UNKNOWN {
                return place;
            }
            state = entry;
        }
        text.len()
    }

    /// Begins anew where there is no room for another state.
    fn make_room(&mut self)
        ensures { (ops : List Op) (fold whole : Bool) → IsFilled ops fold whole (states_of self.old.rows.items) self.old.next.items
            → IsFilled ops fold whole (states_of self.new.rows.items) self.new.next.items }
    {
        if !self.spare.is_empty() {
            return;
        }
        self.next.fill(UNKNOWN);
        keep_first(&mut self.rows, &mut self.spare);
    }

    /// The entry of a state for a byte, which is worked out where it isn't. It stays unknown where there is no room.
    #[inline(always)]
    fn entry(&mut self, machine: &mut Machine, state: u16, byte: u8) -> u16
        requires here { state < length self.old.rows.items }
        requires serves { Serves machine.old self.old }
        ensures right { IsRight machine.old.steps.items machine.old.fold machine.old.whole (states_of self.new.rows.items) (state_at (states_of self.old.rows.items) state) byte result }
        ensures serves { Serves machine.new self.new }
        ensures same { Same machine.old machine.new }
    {
        let entry = self.next[256 * state as usize + byte as usize];
        if entry != UNKNOWN {
            return entry;
        }
        self.fill(machine, state, byte)
    }

    /// Works out the entry of a state for a byte.
    #[inline(never)]
    fn fill(&mut self, machine: &mut Machine, state: u16, byte: u8) -> u16
        requires here { state < length self.old.rows.items }
        requires serves { Serves machine.old self.old }
        ensures right { IsRight machine.old.steps.items machine.old.fold machine.old.whole (states_of self.new.rows.items) (state_at (states_of self.old.rows.items) state) byte result }
        ensures serves { Serves machine.new self.new }
        ensures same { Same machine.old machine.new }
    {
        match self.entry_to(machine, state, byte) {
            Ok(entry) => {
                self.next[256 * state as usize + byte as usize] = entry;
                entry
            }
            Err(_) => UNKNOWN,
        }
    }

    /// The entry that a state should have for a byte. The state to which it leads is added where it is new.
    fn entry_to(&mut self, machine: &mut Machine, state: u16, byte: u8) -> Result<u16, AllocError>
        requires here { state < length self.old.rows.items }
        requires first { state_at (states_of self.old.rows.items) 0 ≡ first_state }
        ensures right { IfOk result (λ entry. IsRight machine.old.steps.items machine.old.fold machine.old.whole (states_of self.new.rows.items)
            (state_at (states_of self.old.rows.items) state) byte entry) }
        ensures keeps { Keeps (states_of self.old.rows.items) (states_of self.new.rows.items) }
        ensures next { self.new.next.items ≡ self.old.next.items }
        ensures same { Same machine.old machine.new }
    {
        if does_show(machine, &self.rows[state as usize], byte)? {
            return Ok(FOUND);
        }
        if byte == NEWLINE {
            return Ok(0);
        }
        let Some(mut row) = self.spare.pop() else {
            return Err(AllocError);
        };
        machine.step_to(&self.rows[state as usize], byte, &mut row)?;
        self.place(row)
    }

    /// The place of a state, which is added where it is new.
    fn place(&mut self, row: Row) -> Result<u16, AllocError>
        ensures known { IfOk result (λ place. (place < UNKNOWN) × (place < length self.new.rows.items)) }
        ensures place { IfOk result (λ place. state_at (states_of self.new.rows.items) place ≡ state_of row) }
        ensures keeps { Keeps (states_of self.old.rows.items) (states_of self.new.rows.items) }
        ensures next { self.new.next.items ≡ self.old.next.items }
    {
        let count = self.rows.len();
        if count > MAX_HELD || self.next.len() / 256 <= count {
            return Err(AllocError);
        }
        if let Some(place) = place_of(&self.rows, &row) {
            self.spare.push(row)?;
            return Ok(place as u16);
        }
        self.rows.push(row)?;
        Ok(count as u16)
    }
}

/// So many rows, each with room for so many marks.
fn spare_rows(alloc: Global, count: usize, marks: usize) -> Result<Vec<Row>, AllocError> {
    let mut rows = Vec::with_capacity(alloc, count)?;
    for _ in 0..count {
        rows.push(Row {
            begins: false,
            marks: Vec::with_capacity(alloc, marks)?,
        })?;
    }
    Ok(rows)
}

/// Leaves the first row, and spares the others.
fn keep_first(rows: &mut Vec<Row>, spare: &mut Vec<Row>)
    requires { 0 < length rows.old.items }
    ensures some { 0 < length rows.new.items }
    ensures fewer { length rows.new.items ≤ length rows.old.items }
    ensures first { state_at (states_of rows.new.items) 0 ≡ state_at (states_of rows.old.items) 0 }
{
    while rows.len() > 1 {
        if let Some(row) = rows.pop() {
            let _ = spare.push(row);
        }
    }
}

/// Whether a byte of a text, behind this state, shows that a line has the expression.
fn does_show(machine: &mut Machine, row: &Row, byte: u8) -> Result<bool, AllocError>
    ensures shows { IfOk result (λ shown. shown ≡ shows machine.old.steps.items machine.old.whole (state_of row.now) byte) }
    ensures same { Same machine.old machine.new }
{
    if byte == NEWLINE {
        return machine.leads(row, true);
    }
    if machine.whole {
        return Ok(false);
    }
    machine.leads(row, false)
}

/// Whether a line has the expression, by an entry that leads to no state or stands at its end.
fn told_by(entry: u16) -> Option<bool>
    ensures { IfSome result (λ told. (told ≡ (entry == FOUND)) × (entry ≡ UNKNOWN → ⊥)) }
{
    if entry == UNKNOWN {
        return None;
    }
    Some(entry == FOUND)
}
