//! The plain check of a list of items: one pass, with a stack of what is still owed.
ghost use Rattle.std.specs.Prelude.{◌≡◌, ◌∷◌, [], ◌++◌, ◌<◌, ◌≤◌, length, MatchOption, IfOk, IfErr, OnOk};
ghost use Rattle.sh_parse.specs.Pieces.{WordViews};
ghost use Rattle.sh_parse.specs.Inner.Owed.{again, verdict, fine, levels, may_end};
ghost use Rattle.sh_parse.specs.Inner.Moves.{parts_of, stacked, Tells, StepsTo, StopsStep};
ghost use Rattle.sh_parse.specs.declared.checking.Stop.TheVariants as stop_kind;
ghost use Rattle.sh_parse.specs.Stops.{IsSomeScript, Refuses, offset_of, offset_left};

use crate::items::{Item, MAX_LEVELS};
use crate::parts::{Move, Parts, Pending, is_level, is_option, move_at};
use crate::refusals::{GrammarRefusal, SyntaxRefusal};
use std::alloc::Global;

/// Whether the items are a script, and if not why: one pass over them.
///
/// The refusal is told at the first item that no script goes on with, or that opens the 65th level.
pub fn check(alloc: Global, items: &[Item]) -> Result<(), GrammarRefusal>
    ensures script { OnOk result ((views : WordViews) → IsSomeScript views items.now) }
    ensures refusal { IfErr result (λ refusal. (views : WordViews) → Refuses views items.now refusal) }
{
    match judge(alloc, items) {
        Ok(()) => Ok(()),
        Err(Stop::Bad(_)) => Err(GrammarRefusal::Refused(SyntaxRefusal::BadSyntax)),
        Err(Stop::Deep(left)) => {
            Err(GrammarRefusal::Refused(SyntaxRefusal::TooDeep(offset_left(items, left))))
        }
        Err(Stop::Memory) => Err(GrammarRefusal::Memory),
    }
}

/// Why the items aren't read on. The number is how many of them are left at the first that isn't.
#[derive(Clone, Copy, Debug)]
pub enum Stop {
    /// No script goes on with it.
    Bad(usize),
    /// It opens a level too many.
    Deep(usize),
    /// Memory was wanted and refused.
    Memory,
}

/// The verdict on the items.
fn judge(alloc: Global, items: &[Item]) -> Result<(), Stop>
    ensures fine { OnOk result (verdict MAX_LEVELS items.now (again ∷ []) ≡ fine) }
    ensures stop { IfErr result (λ stop. Tells stop (verdict MAX_LEVELS items.now (again ∷ []))) }
{
    let mut stack = owe(Vec::new(alloc), Pending::Again)?;
    let mut rest = items;
    while let Some((first, left)) = front(rest) {
        stack = step(stack, first, rest.len())?;
        rest = left;
    }
    if may_end(stack.as_slice()) {
        Ok(())
    } else {
        Err(Stop::Bad(0))
    }
}

/// The first item, and what is left behind it.
pub fn front(items: &[Item]) -> Option<(Item, &[Item])>
    ensures { MatchOption result (items.now ≡ []) (λ r. items.now ≡ r.0 ∷ r.1.now) }
{
    let (first, rest) = items.split_first()?;
    Some((*first, rest))
}

/// What is owed behind an item, at which so many are left.
fn step(stack: Vec<Pending>, first: Item, left: usize) -> Result<Vec<Pending>, Stop>
    ensures steps { IfOk result (λ behind. StepsTo first (stacked stack.items) (stacked behind.items)) }
    ensures stop { IfErr result (λ stop. StopsStep first (stacked stack.items) left stop) }
{
    let mut stack = stack;
    while let Some(part) = stack.pop() {
        let owing = move_at(part, first);
        match owing.what {
            Move::Push(parts) => {
                let pushed = owe_all(stack, parts, owing.behind)?;
                return Ok(pushed);
            }
            Move::Opens(parts) => {
                let deeper = owe_all(stack, parts, owing.behind)?;
                if levels(deeper.as_slice()) > MAX_LEVELS as usize {
                    return Err(Stop::Deep(left));
                }
                return Ok(deeper);
            }
            Move::Skip => {}
            Move::Stuck => return Err(Stop::Bad(left)),
        }
    }
    Err(Stop::Bad(left))
}

/// The stack with more on top: these parts, and the others behind them.
pub fn owe_all(stack: Vec<Pending>, parts: Parts, behind: Parts) -> Result<Vec<Pending>, Stop>
    ensures owed { IfOk result (λ r. stacked r.items ≡ (parts_of parts ++ parts_of behind) ++ stacked stack.items) }
    ensures memory { IfErr result (λ stop. stop ≡ stop_kind.Memory) }
{
    let stack = owe_parts(stack, behind)?;
    owe_parts(stack, parts)
}

/// The stack with these parts on top.
fn owe_parts(stack: Vec<Pending>, parts: Parts) -> Result<Vec<Pending>, Stop>
    ensures owed { IfOk result (λ r. stacked r.items ≡ parts_of parts ++ stacked stack.items) }
    ensures memory { IfErr result (λ stop. stop ≡ stop_kind.Memory) }
{
    match parts {
        Parts::Empty => Ok(stack),
        Parts::One(first) => owe(stack, first),
        Parts::Two(first, second) => owe(owe(stack, second)?, first),
        Parts::Three(first, second, third) => owe(owe(owe(stack, third)?, second)?, first),
    }
}

/// The stack with this part on top.
#[tactic(auto, using(crate::proofs::Movings::stacked_last))]
pub fn owe(stack: Vec<Pending>, part: Pending) -> Result<Vec<Pending>, Stop>
    ensures owed { IfOk result (λ r. stacked r.items ≡ part ∷ stacked stack.items) }
    ensures memory { IfErr result (λ stop. stop ≡ stop_kind.Memory) }
{
    let mut stack = stack;
    let Ok(()) = stack.push(part) else {
        return Err(Stop::Memory);
    };
    Ok(stack)
}

/// How many levels are open.
#[tactic(auto, using(crate::proofs::Movings::levels_stacked))]
fn levels(stack: &[Pending]) -> usize
    ensures { result ≡ levels (stacked stack.now) }
{
    let mut count = 0;
    let mut rest = stack;
    while let Some((first, left)) = rest.split_first() {
        if is_level(*first) {
            count += 1;
        }
        rest = left;
    }
    count
}

/// Whether all that is owed may be left out.
#[tactic(auto, using(crate::proofs::Movings::may_end_stacked))]
fn may_end(stack: &[Pending]) -> bool
    ensures { result ≡ may_end (stacked stack.now) }
{
    let mut rest = stack;
    while let Some((first, left)) = rest.split_first() {
        if !is_option(*first) {
            return false;
        }
        rest = left;
    }
    true
}

/// The offset of the item at which so many are left.
fn offset_left(items: &[Item], left: usize) -> u32
    ensures { result ≡ offset_left items.now left }
{
    let mut rest = items;
    while let Some((first, behind)) = front(rest) {
        if rest.len() == left {
            return offset_of(first);
        }
        rest = behind;
    }
    0
}

/// The offset of an item that begins a command or opens a level.
pub fn offset_of(item: Item) -> u32
    ensures { result ≡ offset_of item }
{
    match item {
        Item::Word(_, at) => at.from,
        Item::IoNumber(_, from) => from,
        Item::Redirect(_, from) => from,
        Item::Open(at) => at,
        Item::SubOpen(at) => at,
        _ => 0,
    }
}
