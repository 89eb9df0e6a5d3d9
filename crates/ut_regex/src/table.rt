//! Tables of a machine's states.
ghost use Rattle.std.specs.Prelude.{◌≡◌, ◌+◌, ◌-◌, ◌*◌, ◌<◌, ◌≤◌, ◌++◌, ◌∷◌, ℕ, [], Some, None, IfNone, IfOk, IfSome, OnOk, length, false, true, slice_index_or};
ghost use Rattle.std.specs.Bool.{Decides};
ghost use Rattle.std.specs.Option.{ForSome};
ghost use Rattle.ut_regex.specs.Inner.Seeks.{Same};
ghost use Rattle.ut_regex.specs.Inner.Twins.{AreTwins, HasTwins};
ghost use Rattle.ut_regex.specs.Inner.Tables.{runs, state_of, states_of, state_at, IsEntry, IsForTexts, Entered, Keeps};
ghost use Rattle.ut_regex.specs.Inner.Reached.{AreReached, GoesOn, Reaches};
ghost use Rattle.ut_regex.specs.Inner.Idling.{IsStuck};

use crate::machine::{Machine, Row};
use crate::texts::TextTable;
use crate::twins::twins_of;
use std::alloc::{AllocError, Global};

/// The most states for which a table is made.
const MAX_STATES: usize = 256;

/// The most steps of a machine for which a table is made: each entry takes two sweeps over them.
const MAX_STEPS: usize = 256;

/// An entry of a table that says that the line has the expression.
pub(crate) const FOUND: u16 = 65_535;

/// Which state follows which: 256 entries for each, and whether the expression may end there at the line's end.
#[derive(Drop)]
pub(crate) struct Table {
    next: Vec<u16>,
    ends: Vec<bool>,
    /// The same for texts of lines.
    pub texts: TextTable,
    ghost for_texts: { IsForTexts next.items ends.items texts.next.items },
    ghost sticks: { ForSome texts.stuck (λ state. IsStuck next.items ends.items state) },
}

impl Table {
    ghost use Rattle.std.specs.Prelude.{◌≡◌, ◌≤◌, IfNone, IfOk, IfSome, length};
    ghost use Rattle.ut_regex.specs.Inner.Made.{IsMade};
    ghost use Rattle.ut_regex.specs.Inner.Reached.{HasNoTable};
    ghost use Rattle.ut_regex.specs.Inner.Seeks.{Same};
    ghost use Rattle.ut_regex.specs.Inner.Tables.{runs};

    /// The table of a machine, unless it has too many states or finds the expression at the beginning of every line.
    #[tactic(auto, using(crate::proofs::ReachLemmas::reached_first))]
    pub(crate) fn of(alloc: Global, machine: &mut Machine) -> Result<Option<Table>, AllocError>
        ensures table { IfOk result (λ made. IfSome made (λ table. IsMade machine.old.steps.items machine.old.fold machine.old.whole table)) }
        ensures none { IfOk result (λ made. IfNone made (HasNoTable machine.old.steps.items machine.old.fold machine.old.whole)) }
        ensures same { Same machine.old machine.new }
    {
        let first = Row {
            begins: true,
            marks: Vec::new(alloc),
        };
        if machine.steps.len() > MAX_STEPS {
            return Ok(None);
        }
        if !machine.whole && machine.leads(&first, false)? {
            return Ok(None);
        }
        let twins = twins_of(alloc, &machine.steps, machine.fold)?;
        let mut rows = Vec::new(alloc);
        rows.push(first)?;
        let mut next = Vec::new(alloc);
        let mut ends = Vec::new(alloc);
        let mut state = 0;
        'states: while state < rows.len() {
            if rows.len() > MAX_STATES {
                return Ok(None);
            }
            ends.push(machine.leads(&rows[state], true)?)?;
            add_entries(alloc, machine, &twins, &mut rows, &mut next, state)?;
            state += 1;
        }
        let texts = TextTable::of(alloc, &next, &ends)?;
        Ok(Some(Table { next, ends, texts }))
    }

    /// Runs over the line from the first state, as far as the answer isn't known.
    pub(crate) fn has(&self, line: &[u8]) -> bool
        ensures { result ≡ runs self.now.next.items self.now.ends.items 0 line.now }
    {
        let stuck = self.texts.stuck.unwrap_or(FOUND);
        let mut state = 0u16;
        let mut left = line;
        while let [byte, rest @ ..] = left {
            let entry = entry_of(&self.next, state, *byte);
            if entry == FOUND {
                return true;
            }
            if entry == stuck {
                return false;
            }
            state = entry;
            left = rest;
        }
        ends_at(&self.ends, state)
    }
}

/// The entry of a state for a byte.
pub(crate) fn entry_of(next: &[u16], state: u16, byte: u8) -> u16
    ensures { result ≡ slice_index_or next.now (256 * state + byte) FOUND }
{
    match next.get(256 * state as usize + byte as usize) {
        Some(entry) => *entry,
        None => FOUND,
    }
}

/// Whether the expression may end at the line's end in a state; it does in one that isn't known.
pub(crate) fn ends_at(ends: &[bool], state: u16) -> bool
    ensures { result ≡ slice_index_or ends.now state true }
{
    match ends.get(state as usize) {
        Some(ends) => *ends,
        None => true,
    }
}

/// Adds the entries of a state. A byte has that of its twin.
fn add_entries(
    alloc: Global,
    machine: &mut Machine,
    twins: &[u8],
    rows: &mut Vec<Row>,
    next: &mut Vec<u16>,
    state: usize,
) -> Result<(), AllocError>
    requires here { state < length rows.old.items }
    requires few { length rows.old.items ≤ 256 }
    requires before { length next.old.items ≡ 256 * state }
    requires twins { HasTwins machine.old.fold machine.old.steps.items twins.now 256 }
    ensures entered { OnOk result (Entered machine.old.steps.items machine.old.fold machine.old.whole (states_of rows.old.items) next.old.items
        → Entered machine.old.steps.items machine.old.fold machine.old.whole (states_of rows.new.items) next.new.items) }
    ensures reached { OnOk result (AreReached machine.old.steps.items machine.old.fold machine.old.whole (states_of rows.old.items)
        → AreReached machine.old.steps.items machine.old.fold machine.old.whole (states_of rows.new.items)) }
    ensures keeps { Keeps (states_of rows.old.items) (states_of rows.new.items) }
    ensures more { length rows.new.items ≤ length rows.old.items + 256 }
    ensures all { OnOk result (length next.new.items ≡ 256 * (state + 1)) }
    ensures same { Same machine.old machine.new }
{
    for code in 0..256u16 {
        add_entry(
            alloc,
            machine,
            twins[code as usize],
            rows,
            next,
            state,
            code as u8,
        )?;
    }
    Ok(())
}

/// Adds the entry that stands at an earlier place.
fn copy_entry(next: &mut Vec<u16>, place: usize) -> Result<(), AllocError>
    requires { place < length next.old.items }
    ensures { OnOk result (next.new.items ≡ next.old.items ++ slice_index_or next.old.items place FOUND ∷ []) }
{
    let entry = next[place];
    next.push(entry)?;
    Ok(())
}

/// Adds the entry of a state for a byte, which is that of the byte's twin where there is an earlier one.
fn add_entry(
    alloc: Global,
    machine: &mut Machine,
    twin: u8,
    rows: &mut Vec<Row>,
    next: &mut Vec<u16>,
    state: usize,
    byte: u8,
) -> Result<(), AllocError>
    requires here { state < length rows.old.items }
    requires few { length rows.old.items ≤ 600 }
    requires before { length next.old.items ≡ 256 * state + byte }
    requires twin { AreTwins machine.old.fold twin byte machine.old.steps.items }
    ensures entered { OnOk result (Entered machine.old.steps.items machine.old.fold machine.old.whole (states_of rows.old.items) next.old.items
        → Entered machine.old.steps.items machine.old.fold machine.old.whole (states_of rows.new.items) next.new.items) }
    ensures reached { OnOk result (AreReached machine.old.steps.items machine.old.fold machine.old.whole (states_of rows.old.items)
        → AreReached machine.old.steps.items machine.old.fold machine.old.whole (states_of rows.new.items)) }
    ensures keeps { Keeps (states_of rows.old.items) (states_of rows.new.items) }
    ensures more { length rows.new.items ≤ length rows.old.items + 1 }
    ensures all { OnOk result (length next.new.items ≡ length next.old.items + 1) }
    ensures same { Same machine.old machine.new }
{
    if twin < byte {
        copy_entry(next, 256 * state + twin as usize)?;
        return Ok(());
    }
    let row = machine.step(alloc, &rows[state], byte)?;
    let entry = entry_to(machine, rows, row)?;
    next.push(entry)?;
    Ok(())
}

/// The entry that leads to a state, which is added to the others where it is new.
fn entry_to(machine: &mut Machine, rows: &mut Vec<Row>, row: Row) -> Result<u16, AllocError>
    requires few { length rows.old.items ≤ 600 }
    ensures entry { IfOk result (λ entry. IsEntry machine.old.steps.items machine.old.whole (states_of rows.new.items) entry (state_of row)) }
    ensures reached { OnOk result ((GoesOn machine.old.steps.items machine.old.whole (state_of row) → Reaches machine.old.steps.items machine.old.fold machine.old.whole (state_of row))
        → AreReached machine.old.steps.items machine.old.fold machine.old.whole (states_of rows.old.items)
        → AreReached machine.old.steps.items machine.old.fold machine.old.whole (states_of rows.new.items)) }
    ensures known { (place : ℕ) → place < length rows.old.items → state_at (states_of rows.old.items) place ≡ state_of row → rows.new.items ≡ rows.old.items }
    ensures keeps { Keeps (states_of rows.old.items) (states_of rows.new.items) }
    ensures more { length rows.new.items ≤ length rows.old.items + 1 }
    ensures same { Same machine.old machine.new }
{
    if !machine.whole && machine.leads(&row, false)? {
        return Ok(FOUND);
    }
    if let Some(place) = place_of(rows, &row) {
        return Ok(place as u16);
    }
    let place = rows.len();
    rows.push(row)?;
    Ok(place as u16)
}

/// The place of a state, if it is there.
pub(crate) fn place_of(rows: &[Row], row: &Row) -> Option<usize>
    ensures none { IfNone result ((place : ℕ) → place < length rows.now → state_at (states_of rows.now) place ≡ state_of row.now → ⊥) }
    ensures place { IfSome result (λ place. (place < length rows.now) × (state_at (states_of rows.now) place ≡ state_of row.now)) }
{
    for (place, other) in rows.iter().enumerate() {
        if is_same(other, row) {
            return Some(place);
        }
    }
    None
}

/// Whether two states are one.
fn is_same(row: &Row, other: &Row) -> bool
    ensures { Decides result (state_of row.now ≡ state_of other.now) }
{
    row.begins == other.begins && row.marks.as_slice() == other.marks.as_slice()
}
