//! Which ends of a text close a list that stands open before them: a table by the length of the end.

ghost use Rattle.std.specs.Prelude.{◌≡◌, ◌≤◌, true, false, length, IfOk, OnOk};
ghost use Rattle.sh_pattern.specs.Closings.{EndsWith, IsUnclosed, Knows};

use crate::brackets::next_item;
use crate::marks::{Mark, past};
use ps_lines::Memory;
use std::alloc::Global;

/// Makes the table for this text, where there is none yet.
pub(crate) fn learn(alloc: Global, closes: &mut Vec<bool>, text: &[Mark]) -> Result<(), Memory>
    requires { Knows closes.old.items text.now }
    ensures { OnOk result (Knows closes.new.items text.now) }
{
    if !closes.is_empty() {
        return Ok(());
    }
    *closes = closings(alloc, text)?;
    Ok(())
}

/// Whether the table has it that no list which stands open before this text is closed.
#[tactic(auto, using(crate::proofs::ClosingLemmas::knows_itself))]
pub(crate) fn is_unclosed(closes: &[bool], text: &[Mark]) -> bool
    requires { Knows closes.now text.now }
    ensures { result ≡ true → IsUnclosed text.now }
{
    match closes.get(text.len()) {
        Some(closed) => !*closed,
        None => false,
    }
}

/// The table for a text: from its end to its beginning, each answer by those before it.
#[tactic(auto, using(crate::proofs::ClosingLemmas::growing))]
fn closings(alloc: Global, text: &[Mark]) -> Result<Vec<bool>, Memory>
    ensures { IfOk result (λ closes. Knows closes.items text.now) }
{
    let mut closes = Vec::with_capacity(alloc, text.len())?;
    while closes.len() <= text.len() {
        let end = end_of(text, closes.len());
        closes.push(is_closed(closes.as_slice(), end))?;
    }
    Ok(closes)
}

/// The end of a text that has this length.
#[tactic(auto, using(crate::proofs::ClosingLemmas::ends_from))]
fn end_of(text: &[Mark], size: usize) -> &[Mark]
    requires { size ≤ length text.now }
    ensures end { EndsWith text.now result.now }
    ensures size { length result.now ≡ size }
{
    &text[text.len() - size..]
}

/// Whether a list that stands open before this text is closed in it, where the table has every shorter end.
#[tactic(auto, using(crate::proofs::ClosingLemmas::closed))]
fn is_closed(shorter: &[bool], text: &[Mark]) -> bool
    requires { Knows shorter.now text.now }
    ensures { result ≡ false → IsUnclosed text.now }
{
    match next_item(text) {
        Some((_, rest)) => !is_unclosed(shorter, rest),
        None => past(b']', text).is_some(),
    }
}
