//! Rows of lines side by side, which are written as the lines come.
ghost use Rattle.std.specs.Prelude.{◌≡◌, ◌≤◌, ◌<◌, ◌+◌, ◌*◌, ◌∷◌, ◌++◌, ◌==◌, ℕ, List, [], length, drop, slice_get, Some, None, true, false, not, IfOk, OnOk, if◌then◌else◌};
ghost use Rattle.std.specs.Result.{is_ok};
ghost use Rattle.ut_slices.specs.Paste.{first_delimiter, following};
ghost use Rattle.ut_slices.specs.Inner.Ports.{is_open_at, waiting_at};
ghost use Rattle.ut_slices.specs.Inner.Rows.{weight, CutsWaiting, Goes, IsSettled};
ghost use Rattle.ut_streams.specs.Streams.{Put};

use crate::delimiters::{next_place, put_delimiter};
use crate::ports::{is_open, pass, waiting};
use crate::walks::{Plan, Walk};
use ps_lines::{Memory, cut_line};
use ut_streams::{put, put_line};

/// Writes what is determined by now.
#[tactic(auto, using(crate::proofs::WalkLemmas::walk_steps))]
pub(crate) fn advance(plan: &Plan, walk: &mut Walk, out: &mut Vec<u8>) -> Result<(), Memory>
    ensures goes { Goes plan.now walk.old walk.new out.old.items out.new.items (is_ok result) }
    ensures settled { OnOk result (IsSettled plan.now walk.new) }
{
    let mut goes_on = true;
    while goes_on {
        match write_row(plan, walk, out) {
            Ok(more) => goes_on = more,
            Err(memory) => return Err(memory),
        }
    }
    Ok(())
}

/// Writes the rest of a row, as far as it is determined: whether it is written to its end, and the next one is to begin.
#[tactic(auto, using(crate::proofs::WalkLemmas::walk_steps))]
fn write_row(plan: &Plan, walk: &mut Walk, out: &mut Vec<u8>) -> Result<bool, Memory>
    ensures goes { Goes plan.now walk.old walk.new out.old.items out.new.items (is_ok result) }
    ensures no_heavier { OnOk result (weight walk.new ≤ weight walk.old) }
    ensures lighter { IfOk result (λ more. more ≡ true → weight walk.new < weight walk.old) }
    ensures settled { IfOk result (λ more. more ≡ false → IsSettled plan.now walk.new) }
{
    while let Some(port) = plan.columns.get(walk.column) {
        match write_cell(plan, walk, *port, out) {
            Ok(true) => {}
            Ok(false) => return Ok(false),
            Err(memory) => return Err(memory),
        }
    }
    if !walk.begun {
        return Ok(false);
    }
    match end_row(plan, walk, out) {
        Ok(()) => Ok(true),
        Err(memory) => Err(memory),
    }
}

/// Ends a row in which some column has had a line.
fn end_row(plan: &Plan, walk: &mut Walk, out: &mut Vec<u8>) -> Result<(), Memory>
    requires behind { slice_get plan.now.columns.items walk.old.column ≡ None }
    requires begun { walk.old.begun ≡ true }
    ensures goes { Goes plan.now walk.old walk.new out.old.items out.new.items (is_ok result) }
    ensures lighter { OnOk result (weight walk.new < weight walk.old) }
{
    match put_line(walk.front.as_slice(), out) {
        Ok(()) => {
            walk.column = 0;
            walk.delimiter = 0;
            walk.front.clear();
            walk.begun = false;
            walk.within = false;
            Ok(())
        }
        Err(memory) => Err(memory),
    }
}

/// Writes what is determined of the column's line: whether it is written to its end, and the next column is to come.
#[tactic(auto, using(crate::proofs::WalkLemmas::walk_steps))]
fn write_cell(plan: &Plan, walk: &mut Walk, port: u32, out: &mut Vec<u8>) -> Result<bool, Memory>
    requires here { slice_get plan.now.columns.items walk.old.column ≡ Some port }
    ensures goes { Goes plan.now walk.old walk.new out.old.items out.new.items (is_ok result) }
    ensures lighter { OnOk result (weight walk.new ≤ weight walk.old) }
    ensures next { IfOk result (λ more. more ≡ true → walk.new.column ≡ walk.old.column + 1) }
    ensures waits { IfOk result (λ more. more ≡ false → (walk.new.column ≡ walk.old.column) × (is_open_at walk.new.ports.items port ≡ true)) }
{
    if !waiting(walk.ports.as_slice(), port).is_empty() {
        match write_waiting(plan, walk, port, out) {
            Ok(true) => return Ok(true),
            Ok(false) => {}
            Err(memory) => return Err(memory),
        }
    }
    if is_open(walk.ports.as_slice(), port) {
        return Ok(false);
    }
    match leave_column(plan, walk, port) {
        Ok(()) => Ok(true),
        Err(memory) => Err(memory),
    }
}

/// Writes what waits of the column's line: whether the line ends there, and the next column is to come.
#[tactic(auto, using(crate::proofs::WalkLemmas::walk_steps))]
fn write_waiting(plan: &Plan, walk: &mut Walk, port: u32, out: &mut Vec<u8>) -> Result<bool, Memory>
    requires here { slice_get plan.now.columns.items walk.old.column ≡ Some port }
    requires some { 0 < length (waiting_at walk.old.ports.items port) }
    ensures goes { Goes plan.now walk.old walk.new out.old.items out.new.items (is_ok result) }
    ensures lighter { OnOk result (weight walk.new ≤ weight walk.old) }
    ensures next { IfOk result (λ more. more ≡ true → walk.new.column ≡ walk.old.column + 1) }
    ensures waits { IfOk result (λ more. more ≡ false → (walk.new.column ≡ walk.old.column) × (waiting_at walk.new.ports.items port ≡ [])) }
{
    match begin_line(plan, walk, port, out) {
        Ok(()) => go_on(plan, walk, port, out),
        Err(memory) => Err(memory),
    }
}

/// Begins the column's line, where it isn't begun: writes what stands before it.
fn begin_line(plan: &Plan, walk: &mut Walk, port: u32, out: &mut Vec<u8>) -> Result<(), Memory>
    requires here { slice_get plan.now.columns.items walk.old.column ≡ Some port }
    requires some { 0 < length (waiting_at walk.old.ports.items port) }
    ensures goes { Goes plan.now walk.old walk.new out.old.items out.new.items (is_ok result) }
    ensures column { OnOk result (walk.new.column ≡ walk.old.column) }
    ensures ports { OnOk result (walk.new.ports.items ≡ walk.old.ports.items) }
    ensures begun { OnOk result (walk.new.begun ≡ true) }
    ensures within { OnOk result (walk.new.within ≡ true) }
{
    match put_opening(
        walk.within,
        walk.front.as_slice(),
        plan.delimiters.as_slice(),
        walk.delimiter,
        out,
    ) {
        Ok(()) => {
            walk.front.clear();
            walk.begun = true;
            walk.within = true;
            Ok(())
        }
        Err(memory) => Err(memory),
    }
}

/// Writes what stands before a line that isn't begun.
#[tactic(auto, using(crate::proofs::PutLemmas::puts))]
fn put_opening(
    within: bool,
    front: &[u8],
    delimiters: &[Option<u8>],
    place: usize,
    out: &mut Vec<u8>,
) -> Result<(), Memory>
    ensures { Put (if within then [] else front.now ++ first_delimiter (drop place delimiters.now)) out.old.items out.new.items (is_ok result) }
{
    if within {
        return Ok(());
    }
    match put(front, out) {
        Ok(()) => put_delimiter(delimiters, place, out),
        Err(memory) => Err(memory),
    }
}

/// Goes on in a line that is begun.
fn go_on(plan: &Plan, walk: &mut Walk, port: u32, out: &mut Vec<u8>) -> Result<bool, Memory>
    requires here { slice_get plan.now.columns.items walk.old.column ≡ Some port }
    requires some { 0 < length (waiting_at walk.old.ports.items port) }
    requires within { walk.old.within ≡ true }
    ensures goes { Goes plan.now walk.old walk.new out.old.items out.new.items (is_ok result) }
    ensures lighter { OnOk result (2 + weight walk.new ≤ weight walk.old) }
    ensures next { IfOk result (λ more. more ≡ true → walk.new.column ≡ walk.old.column + 1) }
    ensures waits { IfOk result (λ more. more ≡ false → (walk.new.column ≡ walk.old.column) × (waiting_at walk.new.ports.items port ≡ [])) }
{
    let front = cut_front(waiting(walk.ports.as_slice(), port));
    let count = front.count;
    let ends = front.ends;
    match put(front.text, out) {
        Ok(()) => {
            pass(&mut walk.ports, port, count);
            if !ends {
                return Ok(false);
            }
            walk.front.clear();
            next_column(plan, walk);
            Ok(true)
        }
        Err(memory) => Err(memory),
    }
}

/// Leaves a column whose input has ended.
fn leave_column(plan: &Plan, walk: &mut Walk, port: u32) -> Result<(), Memory>
    requires here { slice_get plan.now.columns.items walk.old.column ≡ Some port }
    requires none { waiting_at walk.old.ports.items port ≡ [] }
    requires ended { is_open_at walk.old.ports.items port ≡ false }
    ensures goes { (out : List ℕ) → Goes plan.now walk.old walk.new out out (is_ok result) }
    ensures lighter { OnOk result (weight walk.new ≤ weight walk.old) }
    ensures next { OnOk result (walk.new.column ≡ walk.old.column + 1) }
{
    if walk.within {
        walk.front.clear();
        next_column(plan, walk);
        return Ok(());
    }
    match put_delimiter(plan.delimiters.as_slice(), walk.delimiter, &mut walk.front) {
        Ok(()) => {
            next_column(plan, walk);
            Ok(())
        }
        Err(memory) => Err(memory),
    }
}

/// Goes on to the next column.
fn next_column(plan: &Plan, walk: &mut Walk)
    requires here { walk.old.column < length plan.now.columns.items }
    ensures column { walk.new.column ≡ walk.old.column + 1 }
    ensures delimiter { drop walk.new.delimiter plan.now.delimiters.items ≡ following (drop 1 plan.now.delimiters.items) (drop walk.old.delimiter plan.now.delimiters.items) }
    ensures outside { walk.new.within ≡ false }
    ensures begun { walk.new.begun ≡ walk.old.begun }
    ensures front { walk.new.front.items ≡ walk.old.front.items }
    ensures ports { walk.new.ports.items ≡ walk.old.ports.items }
{
    walk.within = false;
    walk.column += 1;
    walk.delimiter = next_place(plan.delimiters.as_slice(), walk.delimiter);
}

/// A piece's first line, or the piece where it doesn't end in it.
#[derive(Drop)]
struct Front<'text> {
    text: &'text [u8],
    /// How many bytes it has with its newline.
    count: usize,
    /// Whether the line ends.
    ends: bool,
}

#[tactic(auto, using(crate::proofs::SideLemmas::cuts))]
fn cut_front(text: &[u8]) -> Front<'_>
    ensures cut { CutsWaiting text.now result.text.now result.count result.ends }
    ensures within { result.count ≤ length text.now }
    ensures all { result.ends ≡ false → drop result.count text.now ≡ [] }
    ensures some { 0 < length text.now → 0 < result.count }
{
    match cut_line(text) {
        Some((line, _)) => Front {
            text: line,
            count: line.len() + 1,
            ends: true,
        },
        None => Front {
            text,
            count: text.len(),
            ends: false,
        },
    }
}
