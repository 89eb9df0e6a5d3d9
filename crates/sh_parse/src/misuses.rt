//! What is refused of items that are a script: expansions without a form, and command substitutions beside assigning expansions.
ghost use Rattle.std.specs.Prelude.{◌≡◌, ◌∷◌, [], ◌<◌, ◌^◌, IfOk};
ghost use Rattle.sh_parse.specs.Inner.Owed.{again, step};
ghost use Rattle.sh_parse.specs.Misuses.{FirstMisuse, own_items, substitutes, item_assigns, assigns};
ghost use Rattle.sh_parse.specs.Inner.Moves.{stacked};
ghost use Rattle.sh_parse.specs.Places.{begins_piece};
ghost use Rattle.sh_parse.specs.Inner.Seeking.{earliest, form_at, first_form, may_open, owed_behind, mix_at, first_mix, earlier, stays, inside_behind};
ghost use Rattle.sh_parse.specs.declared.pieces.Slot.TheVariants as place;

use crate::checking::{front, offset_of, owe, owe_all};
use crate::items::{Item, WordKind};
use crate::parts::{Move, Pending, move_at};
use crate::readers::WordReader;
use ps_lines::Memory;
use std::alloc::Global;

/// What is wrong with a word or a command of a script.
#[derive(Clone, Copy, Debug, PartialEq, Eq)]
pub enum Misuse {
    /// The `${` at this offset has none of the forms of an expansion.
    Form(u32),
    /// The simple command at this offset has a command substitution beside an assigning expansion.
    Mix(u32),
}

/// The first misuse in the items, by its offset; of two at one offset the form.
pub fn first_misuse<W: WordReader>(
    alloc: Global,
    reader: &W,
    items: &[Item],
) -> Result<Option<Misuse>, Memory>
    ensures { IfOk result (λ found. FirstMisuse (W.views reader.now) items.now found) }
{
    let form = first_form(alloc, reader, items)?;
    let mix = first_mix(alloc, reader, items)?;
    Ok(earlier(form, mix))
}

/// The earlier of the two; the form at one offset.
fn earlier(form: Option<u32>, mix: Option<u32>) -> Option<Misuse>
    ensures { result ≡ earlier form mix }
{
    match form {
        None => match mix {
            None => None,
            Some(mix) => Some(Misuse::Mix(mix)),
        },
        Some(form) => match mix {
            None => Some(Misuse::Form(form)),
            Some(mix) => {
                if mix < form {
                    Some(Misuse::Mix(mix))
                } else {
                    Some(Misuse::Form(form))
                }
            }
        },
    }
}

/// The lesser of two offsets, where there are any.
fn earliest(one: Option<u32>, other: Option<u32>) -> Option<u32>
    ensures { result ≡ earliest one other }
{
    match one {
        None => other,
        Some(first) => match other {
            None => Some(first),
            Some(second) => Some(first.min(second)),
        },
    }
}

/// The least offset of an expansion without a form.
fn first_form<W: WordReader>(
    alloc: Global,
    reader: &W,
    items: &[Item],
) -> Result<Option<u32>, Memory>
    ensures { IfOk result (λ found. found ≡ first_form (W.views reader.now) items.now) }
{
    let mut found = None;
    let mut rest = items;
    while let Some((first, left)) = front(rest) {
        found = earliest(found, form_at(alloc, reader, first)?);
        rest = left;
    }
    Ok(found)
}

/// The expansion without a form in an item.
fn form_at<W: WordReader>(alloc: Global, reader: &W, first: Item) -> Result<Option<u32>, Memory>
    ensures { IfOk result (λ found. found ≡ form_at (W.views reader.now) first) }
{
    match first {
        Item::Word(_, at) => {
            let look = reader.look(alloc, at)?;
            Ok(look.fault)
        }
        _ => Ok(None),
    }
}

/// The least offset of a simple command that mixes.
fn first_mix<W: WordReader>(
    alloc: Global,
    reader: &W,
    items: &[Item],
) -> Result<Option<u32>, Memory>
    ensures { IfOk result (λ found. found ≡ first_mix (W.views reader.now) items.now (again ∷ [])) }
{
    let Ok(owed) = owe(Vec::new(alloc), Pending::Again) else {
        return Err(Memory);
    };
    let mut stack = owed;
    let mut found = None;
    let mut rest = items;
    while let Some((first, left)) = front(rest) {
        found = earliest(found, mix_at(alloc, reader, stack.as_slice(), rest)?);
        stack = step(stack, first)?;
        rest = left;
    }
    Ok(found)
}

/// What is owed behind an item: nothing where no rule goes on with it. How many levels are open doesn't matter here.
fn step(stack: Vec<Pending>, first: Item) -> Result<Vec<Pending>, Memory>
    ensures { IfOk result (λ behind. stacked behind.items ≡ owed_behind (step (stacked stack.items) first)) }
{
    let mut stack = stack;
    while let Some(part) = stack.pop() {
        let owing = move_at(part, first);
        match owing.what {
            Move::Push(parts) | Move::Opens(parts) => {
                let Ok(behind) = owe_all(stack, parts, owing.behind) else {
                    return Err(Memory);
                };
                return Ok(behind);
            }
            Move::Skip => {}
            Move::Stuck => {
                stack.clear();
                return Ok(stack);
            }
        }
    }
    Ok(stack)
}

/// The offset of the simple command that begins with the first of the items, where one does and mixes.
fn mix_at<W: WordReader>(
    alloc: Global,
    reader: &W,
    stack: &[Pending],
    items: &[Item],
) -> Result<Option<u32>, Memory>
    ensures { IfOk result (λ found. found ≡ mix_at (W.views reader.now) (stacked stack.now) items.now) }
{
    let Some((first, _)) = front(items) else {
        return Ok(None);
    };
    // What costs least is asked first: words are looked at only where a command substitutes.
    if !begins_piece(first) || !may_open(stack) || !substitutes(items) {
        return Ok(None);
    }
    if assigns(alloc, reader, items)? {
        Ok(Some(offset_of(first)))
    } else {
        Ok(None)
    }
}

/// Whether a simple command may begin with the item.
fn begins_piece(first: Item) -> bool
    ensures { result ≡ begins_piece place.First first }
{
    match first {
        Item::Word(WordKind::Reserved(_), _) => false,
        Item::Word(..) | Item::IoNumber(..) | Item::Redirect(..) => true,
        _ => false,
    }
}

/// Whether a `(` may stand where so much is owed: a command may begin there.
fn may_open(stack: &[Pending]) -> bool
    ensures { result ≡ may_open (stacked stack.now) }
{
    let mut rest = stack;
    while let Some((part, below)) = rest.split_last() {
        match move_at(*part, Item::Open(0)).what {
            Move::Push(_) | Move::Opens(_) => return true,
            Move::Skip => rest = below,
            Move::Stuck => return false,
        }
    }
    false
}

/// Whether the simple command that begins here has a command substitution.
fn substitutes(items: &[Item]) -> bool
    ensures { result ≡ substitutes (own_items 0 items.now) }
{
    let mut rest = items;
    while let Some((first, left)) = front(rest) {
        match first {
            Item::SubOpen(_) => return true,
            Item::Word(..) | Item::IoNumber(..) | Item::Redirect(..) => rest = left,
            _ => return false,
        }
    }
    false
}

/// Whether an expansion assigns a variable in the simple command that begins here, outside its command substitutions.
fn assigns<W: WordReader>(alloc: Global, reader: &W, items: &[Item]) -> Result<bool, Memory>
    ensures { IfOk result (λ found. found ≡ assigns (W.views reader.now) (own_items 0 items.now)) }
{
    let mut inside = 0;
    let mut rest = items;
    while let Some((first, left)) = front(rest) {
        if inside == 0 {
            if !stays(first) {
                return Ok(false);
            }
            if item_assigns(alloc, reader, first)? {
                return Ok(true);
            }
        }
        inside = inside_behind(inside, first);
        rest = left;
    }
    Ok(false)
}

/// Whether a simple command goes on with the item, or a command substitution in it opens.
fn stays(first: Item) -> bool
    ensures { result ≡ stays first }
{
    matches!(
        first,
        Item::Word(..) | Item::IoNumber(..) | Item::Redirect(..) | Item::SubOpen(_)
    )
}

/// How many command substitutions are open behind an item.
fn inside_behind(inside: usize, first: Item) -> usize
    requires { inside < 2 ^ 63 }
    ensures { result ≡ inside_behind inside first }
{
    match first {
        Item::SubOpen(_) => inside + 1,
        Item::SubClose => inside.saturating_sub(1),
        _ => inside,
    }
}

/// Whether an expansion in the item assigns a variable.
fn item_assigns<W: WordReader>(alloc: Global, reader: &W, first: Item) -> Result<bool, Memory>
    ensures { IfOk result (λ found. found ≡ item_assigns (W.views reader.now) first) }
{
    match first {
        Item::Word(_, at) => {
            let look = reader.look(alloc, at)?;
            Ok(look.assigns)
        }
        _ => Ok(false),
    }
}
