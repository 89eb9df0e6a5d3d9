//! Bytes that a machine doesn't tell apart.
ghost use Rattle.std.specs.Prelude.{◌≡◌, ◌<◌, ◌≤◌, ℕ, IfOk, length};
ghost use Rattle.std.specs.Bool.{Decides};
ghost use Rattle.ut_regex.specs.Inner.Twins.{AreFirst, AreTwins, HasTwins, tells};

use crate::program::{Op, fits};
use std::alloc::{AllocError, Global};

/// For each byte the first one that the steps don't tell from it.
pub(crate) fn twins_of(alloc: Global, steps: &[Op], fold: bool) -> Result<Vec<u8>, AllocError>
    ensures twins { IfOk result (λ twins. HasTwins fold steps.now twins.items 256) }
    ensures first { IfOk result (λ twins. AreFirst fold steps.now twins.items 256) }
{
    let mut twins = Vec::new(alloc);
    for code in 0..256u16 {
        twins.push(twin_of(steps, fold, code as u8))?;
    }
    Ok(twins)
}

/// The first byte that the steps don't tell from this one.
fn twin_of(steps: &[Op], fold: bool, byte: u8) -> u8
    ensures before { result ≤ byte }
    ensures twin { AreTwins fold result byte steps.now }
    ensures first { (earlier : ℕ) → earlier < result → AreTwins fold earlier byte steps.now → ⊥ }
{
    for first in 0..byte {
        if are_twins(steps, fold, first, byte) {
            return first;
        }
    }
    byte
}

/// Whether no step tells the bytes apart.
fn are_twins(steps: &[Op], fold: bool, first: u8, byte: u8) -> bool
    ensures { Decides result (AreTwins fold first byte steps.now) }
{
    let mut left = steps;
    while let [step, rest @ ..] = left {
        if tells_apart(*step, fold, first, byte) {
            return false;
        }
        left = rest;
    }
    true
}

/// Whether the step tells the bytes apart.
fn tells_apart(step: Op, fold: bool, first: u8, byte: u8) -> bool
    ensures { result ≡ tells fold first byte step }
{
    match step {
        Op::Point(leaf) => fits(leaf, fold, first) != fits(leaf, fold, byte),
        Op::Begin | Op::End | Op::Empty | Op::Both | Op::Either | Op::Many | Op::Maybe => false,
    }
}
