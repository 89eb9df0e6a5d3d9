//! The two sweeps over the steps of a program.
ghost use Rattle.std.specs.Prelude.{◌≡◌, ◌∷◌, [], ◌+◌, ◌*◌, ◌≤◌, ◌<◌, length, reverse};
ghost use Rattle.ut_regex.specs.Inner.Sweeps.{rise, risen, sink, sunk};
ghost use Rattle.ut_regex.specs.Inner.Held.{rising, sinking};

use crate::bits::Bits;
use crate::program::{Op, fits};

/// Goes over the steps in order, and leaves on `values` whether the whole program closes and skips at a place that is or
/// isn't the line's beginning and end.
pub(crate) fn sweep_up(
    steps: &[Op],
    begins: bool,
    ends: bool,
    values: &mut Bits,
    marks: &mut Bits,
    kept: &mut Bits,
)
    requires values { length values.old.bits + 2 * length steps.now ≤ values.old.capacity }
    requires kept { length kept.old.bits + 2 * length steps.now ≤ kept.old.capacity }
    ensures risen { rising values.new marks.new kept.new ≡ risen begins ends steps.now (rising values.old marks.old kept.old) }
    ensures room { (values.new.capacity ≡ values.old.capacity) × (marks.new.capacity ≡ marks.old.capacity) × (kept.new.capacity ≡ kept.old.capacity) }
{
    for step in steps {
        rise_over(*step, begins, ends, values, marks, kept);
    }
}

/// One step of the sweep up.
fn rise_over(
    step: Op,
    begins: bool,
    ends: bool,
    values: &mut Bits,
    marks: &mut Bits,
    kept: &mut Bits,
)
    requires values { length values.old.bits + 2 ≤ values.old.capacity }
    requires kept { length kept.old.bits + 2 ≤ kept.old.capacity }
    ensures more { (length values.new.bits ≤ length values.old.bits + 2) × (length kept.new.bits ≤ length kept.old.bits + 2) }
    ensures risen { rising values.new marks.new kept.new ≡ rise begins ends step (rising values.old marks.old kept.old) }
    ensures room { (values.new.capacity ≡ values.old.capacity) × (marks.new.capacity ≡ marks.old.capacity) × (kept.new.capacity ≡ kept.old.capacity) }
{
    match step {
        Op::Point(_) => {
            let mark = marks.pop();
            open_part(values, mark, false);
        }
        Op::Begin => open_part(values, false, begins),
        Op::End => open_part(values, false, ends),
        Op::Empty => open_part(values, false, true),
        Op::Both => {
            let second_skips = values.pop();
            let second_closes = values.pop();
            let first_skips = values.pop();
            let first_closes = values.pop();
            kept.push(first_closes);
            kept.push(first_skips);
            values.push(second_closes || (second_skips && first_closes));
            values.push(first_skips && second_skips);
        }
        Op::Either => {
            let second_skips = values.pop();
            let second_closes = values.pop();
            let first_skips = values.pop();
            let first_closes = values.pop();
            values.push(first_closes || second_closes);
            values.push(first_skips || second_skips);
        }
        Op::Many => {
            let _ = values.pop();
            let closes = values.pop();
            kept.push(closes);
            values.push(closes);
            values.push(true);
        }
        Op::Maybe => {
            let _ = values.pop();
            values.push(true);
        }
    }
}

/// Puts the two values of a part that has no parts.
fn open_part(values: &mut Bits, closes: bool, skips: bool)
    requires { length values.old.bits + 2 ≤ values.old.capacity }
    ensures { values.new ≡ record { bits = skips ∷ closes ∷ values.old.bits; capacity = values.old.capacity } }
{
    values.push(closes);
    values.push(skips);
}

/// Goes over the steps from the last to the first, and puts the marks that are there behind the next byte.
pub(crate) fn sweep_back(
    steps: &[Op],
    fold: bool,
    byte: u8,
    entries: &mut Bits,
    kept: &mut Bits,
    marks: &mut Bits,
)
    requires entries { length entries.old.bits + 2 * length steps.now ≤ entries.old.capacity }
    requires marks { length marks.old.bits + length steps.now ≤ marks.old.capacity }
    ensures sunk { sinking entries.new kept.new marks.new ≡ sunk fold byte (reverse steps.now) (sinking entries.old kept.old marks.old) }
    ensures room { (entries.new.capacity ≡ entries.old.capacity) × (kept.new.capacity ≡ kept.old.capacity) × (marks.new.capacity ≡ marks.old.capacity) }
{
    let mut left = steps;
    while let Some((last, front)) = left.split_last() {
        sink_over(*last, fold, byte, entries, kept, marks);
        left = front;
    }
}

/// One step of the sweep back.
fn sink_over(step: Op, fold: bool, byte: u8, entries: &mut Bits, kept: &mut Bits, marks: &mut Bits)
    requires entries { length entries.old.bits + 2 ≤ entries.old.capacity }
    requires marks { length marks.old.bits + 1 ≤ marks.old.capacity }
    ensures more { (length entries.new.bits ≤ length entries.old.bits + 2) × (length marks.new.bits ≤ length marks.old.bits + 1) }
    ensures sunk { sinking entries.new kept.new marks.new ≡ sink fold byte step (sinking entries.old kept.old marks.old) }
    ensures room { (entries.new.capacity ≡ entries.old.capacity) × (kept.new.capacity ≡ kept.old.capacity) × (marks.new.capacity ≡ marks.old.capacity) }
{
    match step {
        Op::Point(leaf) => {
            let entered = entries.pop();
            marks.push(entered && fits(leaf, fold, byte));
        }
        Op::Begin | Op::End | Op::Empty => {
            let _ = entries.pop();
        }
        Op::Both => {
            let entered = entries.pop();
            let first_skips = kept.pop();
            let first_closes = kept.pop();
            entries.push(entered);
            entries.push(first_closes || (first_skips && entered));
        }
        Op::Either => {
            let entered = entries.pop();
            entries.push(entered);
            entries.push(entered);
        }
        Op::Many => {
            let entered = entries.pop();
            let closes = kept.pop();
            entries.push(closes || entered);
        }
        Op::Maybe => {}
    }
}
