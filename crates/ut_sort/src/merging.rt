//! The merge of two texts in order.
ghost use Rattle.std.specs.Prelude.{◌≡◌, ◌++◌, ◌⊎◌, List, [], ℕ, true, false, IfOk, MatchResult};
ghost use Rattle.std.specs.Result.{is_ok};
ghost use Rattle.ps_lines.specs.Lines.{has_newline, is_closed};
ghost use Rattle.ut_streams.specs.Streams.{Put, Wrote};
ghost use Rattle.ut_sort.specs.LineOrders.{cmp_by};
ghost use Rattle.ut_sort.specs.Merging.{merged_texts, merged_with, step_of as step_of_def};
ghost use Rattle.ut_sort.specs.Order.{order_of};

use crate::line_orders::LineOrder;
use crate::orders::order;
use ps_lines::{Memory, cut_line};
use std::cmp::Ordering;
use ut_args::SortInv;
use ut_streams::{put, put_line};

/// What a merge does with the first line of each side.
#[derive(Clone, Copy, Debug, PartialEq, Eq)]
pub(crate) enum Step {
    /// The left's is put.
    PutLeft,
    /// The right's is left out.
    DropRight,
    /// The right's is put.
    PutRight,
}

/// Merges two closed texts whose lines are in order: the left's lines go first among equal ones, and with `-u` the right's are dropped
/// where the left has an equal one.
///
/// It compares once for each line that is put or dropped, at most.
pub fn merge(inv: &SortInv, left: &[u8], right: &[u8], out: &mut Vec<u8>) -> Result<(), Memory>
    requires left { is_closed left.now ≡ true }
    requires right { is_closed right.now ≡ true }
    ensures { Put (merged_texts (order_of inv.now.args) inv.now.args.unique left.now right.now) out.old.items out.new.items (is_ok result) }
{
    match merge_some(inv, left, right, out) {
        Ok((left, right)) => put_rests(left, right, out),
        Err(memory) => Err(memory),
    }
}

/// Merges two texts in order as far as both have a line that has ended, and gives what is left of each. So texts that come in pieces
/// are merged as they come: what is left is held, and the next piece goes behind it.
pub fn merge_some<'t>(
    inv: &SortInv,
    left: &'t [u8],
    right: &'t [u8],
    out: &mut Vec<u8>,
) -> Result<(&'t [u8], &'t [u8]), Memory>
    ensures wrote { MatchResult result
        (λ rests. Wrote (merged_with (order_of inv.now.args) inv.now.args.unique left.now right.now)
        (merged_with (order_of inv.now.args) inv.now.args.unique rests.0.now rests.1.now) out.old.items out.new.items true)
        (λ _. Wrote (merged_with (order_of inv.now.args) inv.now.args.unique left.now right.now) (λ _. []) out.old.items out.new.items false) }
    ensures left { IfOk result (λ rests. is_closed left.now ≡ true → is_closed rests.0.now ≡ true) }
    ensures right { IfOk result (λ rests. is_closed right.now ≡ true → is_closed rests.1.now ≡ true) }
    ensures plain { IfOk result (λ rests. (has_newline rests.0.now ≡ false) ⊎ (has_newline rests.1.now ≡ false)) }
{
    let mut lefts = left;
    let mut rights = right;
    while let Some((line, left_rest)) = cut_line(lefts) {
        let Some((other, right_rest)) = cut_line(rights) else {
            return Ok((lefts, rights));
        };
        match step_of(inv, line, other) {
            Step::PutLeft => match put_line(line, out) {
                Ok(()) => lefts = left_rest,
                Err(memory) => return Err(memory),
            },
            Step::DropRight => rights = right_rest,
            Step::PutRight => match put_line(other, out) {
                Ok(()) => rights = right_rest,
                Err(memory) => return Err(memory),
            },
        }
    }
    Ok((lefts, rights))
}

/// What is done with the first line of each side.
fn step_of(inv: &SortInv, line: &[u8], other: &[u8]) -> Step
    ensures { result ≡ step_of_def inv.now.args.unique (order_of inv.now.args line.now other.now) }
{
    step_for(inv.args.unique, order(inv, line, other))
}

/// The same, in an order that is kept.
pub(crate) fn step_by(order: &LineOrder, line: &[u8], other: &[u8]) -> Step
    ensures { result ≡ step_of_def order.now.unique (cmp_by order.now line.now other.now) }
{
    step_for(order.unique, order.compare(line, other))
}

/// What is done with two first lines of this order.
fn step_for(unique: bool, order: Ordering) -> Step
    ensures { result ≡ step_of_def unique order }
{
    match order {
        Ordering::Less => Step::PutLeft,
        Ordering::Equal => {
            if unique {
                Step::DropRight
            } else {
                Step::PutLeft
            }
        }
        Ordering::Greater => Step::PutRight,
    }
}

/// Appends what is left of both, of which one is empty.
#[tactic(auto, using(crate::proofs::LineLemmas::line_puts))]
fn put_rests(left: &[u8], right: &[u8], out: &mut Vec<u8>) -> Result<(), Memory>
    ensures { Put (left.now ++ right.now) out.old.items out.new.items (is_ok result) }
{
    match put(left, out) {
        Ok(()) => put(right, out),
        Err(memory) => Err(memory),
    }
}
