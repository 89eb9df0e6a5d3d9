//! What has come of the texts that a merge takes at its ports, and hasn't gone on.
ghost use Rattle.std.specs.Prelude.{◌≡◌, ◌≤◌, ◌<◌, ◌+◌, ◌^◌, ◌++◌, ◌==◌, ℕ, [], length, drop, nat_lt, false, true, IfOk, IfSome, IfNone, OnOk, if◌then◌else◌};
ghost use Rattle.ps_lines.specs.Lines.{closing, has_newline};
ghost use Rattle.ut_sort.specs.Choices.{EndsFirstLine};
ghost use Rattle.ut_sort.specs.Sides.{first_waiting as first_waiting_def, held, held_at, is_open_at, total_held, waits as waits_def};

use crate::texts::Side;
use ps_lines::{Memory, NEWLINE, cut_line, is_closed};
use std::alloc::Global;

/// So many sides, open, of which nothing is held.
#[tactic(auto, using(crate::proofs::SideLemmas::fresh))]
pub(crate) fn open_sides(alloc: Global, count: u32) -> Result<Vec<Side>, Memory>
    ensures empty { IfOk result (λ sides. (port : ℕ) → held_at sides.items port ≡ []) }
    ensures all_open { IfOk result (λ sides. (port : ℕ) → is_open_at sides.items port ≡ nat_lt port count) }
    ensures counted { IfOk result (λ sides. length sides.items ≡ count) }
{
    let mut sides = Vec::new(alloc);
    let mut left = count;
    while left > 0 {
        sides.push(Side {
            text: Vec::new(alloc),
            at: 0,
            is_open: true,
        })?;
        left -= 1;
    }
    Ok(sides)
}

/// Whether a side waits for its text.
fn waits(side: &Side) -> bool
    ensures { result ≡ waits_def side.now }
{
    side.is_open && !has_line(&side.text[side.at..])
}

/// Whether a whole line stands at the beginning of a text.
fn has_line(text: &[u8]) -> bool
    ensures { result ≡ has_newline text.now }
{
    match cut_line(text) {
        Some(_) => true,
        None => false,
    }
}

/// The first side that waits for its text.
pub(crate) fn first_waiting(sides: &[Side]) -> Option<u32>
    requires { length sides.now < 2 ^ 32 }
    ensures { result ≡ first_waiting_def 0 sides.now }
{
    let mut at = 0;
    let mut left = sides;
    while let Some((side, rest)) = left.split_first() {
        if waits(side) {
            return Some(at);
        }
        at += 1;
        left = rest;
    }
    None
}

/// What is held at a port.
pub(crate) fn held_of(sides: &[Side], port: usize) -> &[u8]
    ensures { result.now ≡ held_at sides.now port }
{
    match sides.get(port) {
        Some(side) => &side.text[side.at..],
        None => &[],
    }
}

/// Whether more may come at a port.
pub(crate) fn is_open(sides: &[Side], port: usize) -> bool
    ensures { result ≡ is_open_at sides.now port }
{
    match sides.get(port) {
        Some(side) => side.is_open,
        None => false,
    }
}

/// How many bytes the first line at a port has, where it is held whole.
#[tactic(auto, using(crate::proofs::SideLemmas::cuts))]
pub(crate) fn first_line(sides: &[Side], port: usize) -> Option<usize>
    ensures some { IfSome result (λ size. EndsFirstLine (held_at sides.now port) size) }
    ensures none { IfNone result (has_newline (held_at sides.now port) ≡ false) }
    ensures empty { IfNone result (is_open_at sides.now port ≡ false → held_at sides.now port ≡ []) }
{
    match cut_line(held_of(sides, port)) {
        Some((line, _)) => Some(line.len()),
        None => None,
    }
}

/// Holds the next piece of a side that is open.
pub(crate) fn hold(sides: &mut Vec<Side>, port: u32, piece: &[u8]) -> Result<(), Memory>
    requires open { is_open_at sides.old.items port ≡ true }
    ensures held { OnOk result ((other : ℕ) → held_at sides.new.items other ≡ (if other == port then held_at sides.old.items port ++ piece.now else held_at sides.old.items other)) }
    ensures open { (other : ℕ) → is_open_at sides.new.items other ≡ is_open_at sides.old.items other }
    ensures counted { length sides.new.items ≡ length sides.old.items }
{
    let place = port as usize;
    if place < sides.len() {
        return take_in(&mut sides[place], piece);
    }
    Ok(())
}

/// Puts a piece behind what is held.
fn take_in(side: &mut Side, piece: &[u8]) -> Result<(), Memory>
    requires { side.old.is_open ≡ true }
    ensures held { OnOk result (held side.new ≡ held side.old ++ piece.now) }
    ensures open { side.new.is_open ≡ true }
{
    make_room(side);
    side.text.extend_from_slice(piece)?;
    Ok(())
}

/// Lets go of what has gone on: of a side that waits that is all but the beginning of a line.
fn make_room(side: &mut Side)
    requires { side.old.is_open ≡ true }
    ensures held { held side.new ≡ held side.old }
    ensures open { side.new.is_open ≡ true }
{
    let at = side.at;
    side.at = 0;
    drop_front(&mut side.text, at);
}

/// Drops the bytes before a place.
fn drop_front(text: &mut Vec<u8>, at: usize)
    requires { at ≤ length text.old.items }
    ensures { text.new.items ≡ drop at text.old.items }
{
    let left = text.len() - at;
    text.as_mut_slice().copy_within(at.., 0);
    text.truncate(left);
}

/// Ends a side: its last line is whole then. Where memory is wanted for that, what is held of it goes.
pub(crate) fn end(sides: &mut Vec<Side>, port: u32) -> Result<(), Memory>
    requires open { is_open_at sides.old.items port ≡ true }
    ensures held { OnOk result ((other : ℕ) → held_at sides.new.items other ≡ (if other == port then closing (held_at sides.old.items port) else held_at sides.old.items other)) }
    ensures open { (other : ℕ) → is_open_at sides.new.items other ≡ (if other == port then false else is_open_at sides.old.items other) }
    ensures counted { length sides.new.items ≡ length sides.old.items }
{
    let place = port as usize;
    if place < sides.len() {
        return close(&mut sides[place]);
    }
    Ok(())
}

/// Puts a newline behind a last line that lacks one.
#[tactic(auto, using(crate::proofs::SideLemmas::closes))]
fn close(side: &mut Side) -> Result<(), Memory>
    ensures held { OnOk result (held side.new ≡ closing (held side.old)) }
    ensures open { side.new.is_open ≡ false }
{
    if is_closed(&side.text[side.at..]) {
        side.is_open = false;
        return Ok(());
    }
    match side.text.push(NEWLINE) {
        Ok(()) => {
            side.is_open = false;
            Ok(())
        }
        Err(_) => {
            side.text.clear();
            side.at = 0;
            side.is_open = false;
            Err(Memory)
        }
    }
}

/// Lets the first bytes, so many, of the side at a place go.
pub(crate) fn pass(sides: &mut Vec<Side>, place: usize, count: usize)
    requires within { place < length sides.old.items }
    requires enough { count ≤ length (held_at sides.old.items place) }
    ensures held { (other : ℕ) → held_at sides.new.items other ≡ (if other == place then drop count (held_at sides.old.items place) else held_at sides.old.items other) }
    ensures open { (other : ℕ) → is_open_at sides.new.items other ≡ is_open_at sides.old.items other }
    ensures counted { length sides.new.items ≡ length sides.old.items }
    ensures total { total_held sides.new.items + count ≡ total_held sides.old.items }
{
    let_go(&mut sides[place], count);
}

/// Lets the first bytes, so many, of a side go.
#[tactic(auto, using(crate::proofs::SideLemmas::goes))]
fn let_go(side: &mut Side, count: usize)
    requires { count ≤ length (held side.old) }
    ensures held { held side.new ≡ drop count (held side.old) }
    ensures open { side.new.is_open ≡ side.old.is_open }
{
    side.at += count;
}
