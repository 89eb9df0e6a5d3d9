//! Bracket expressions: what stands between a `[` and the `]` that ends it.

ghost use Rattle.std.specs.Prelude.{◌≡◌, ◌<◌, ◌≤◌, [], List, length, Some, None, MatchOption, IfSome, IfOk};
ghost use Rattle.sh_pattern.specs.declared.elements.Item.{Item};
ghost use Rattle.sh_pattern.specs.declared.marks.Mark.{Mark};
ghost use Rattle.sh_pattern.specs.Marks.{is_unquoted, past};
ghost use Rattle.sh_pattern.specs.Brackets.{begins_symbol, range_end, byte_or_range, first_item, next_item, IsList, HasNoList};
ghost use Rattle.sh_pattern.specs.Closings.{Knows};

use crate::classes::class_at;
use crate::closings::is_unclosed;
use crate::elements::Item;
use crate::marks::{Mark, front, is_unquoted, past};
use ps_lines::Memory;

/// Whether a `[.` or a `[=` begins here, a collating symbol or an equivalence class.
fn begins_symbol(first: Mark, rest: &[Mark]) -> bool
    ensures { result ≡ begins_symbol first rest.now }
{
    match front(rest) {
        Some((second, _)) => {
            is_unquoted(first, b'[') && (is_unquoted(second, b'.') || is_unquoted(second, b'='))
        }
        None => false,
    }
}

/// The last mark of a range, and what follows it, where a range goes on here after its first mark.
fn range_end(text: &[Mark]) -> Option<(Mark, &[Mark])>
    ensures end { MatchOption result
        (range_end text.now ≡ None)
        (λ r. range_end text.now ≡ Some (r.0, r.1.now)) }
    ensures shorter { IfSome result (λ r. length r.1.now ≤ length text.now) }
{
    let (dash, after_dash) = front(text)?;
    let (last, rest) = front(after_dash)?;
    if is_unquoted(dash, b'-') && !is_unquoted(last, b']') {
        Some((last, rest))
    } else {
        None
    }
}

/// A byte or a range that begins with this mark, and what follows it.
fn byte_or_range(first: Mark, rest: &[Mark]) -> Option<(Item, &[Mark])>
    ensures item { MatchOption result
        (byte_or_range first rest.now ≡ None)
        (λ r. byte_or_range first rest.now ≡ Some (r.0, r.1.now)) }
    ensures shorter { IfSome result (λ r. length r.1.now ≤ length rest.now) }
{
    match range_end(rest) {
        Some((last, after)) => {
            if begins_symbol(last, after) {
                None
            } else {
                Some((Item::Range(first.byte, last.byte), after))
            }
        }
        None => Some((Item::Byte(first.byte), rest)),
    }
}

/// The first item of a list, and what follows it. A `]` is ordinary here.
fn first_item(text: &[Mark]) -> Option<(Item, &[Mark])>
    ensures item { MatchOption result
        (first_item text.now ≡ None)
        (λ r. first_item text.now ≡ Some (r.0, r.1.now)) }
    ensures shorter { IfSome result (λ r. length r.1.now < length text.now) }
{
    let (first, rest) = front(text)?;
    if let Some((class, after)) = class_at(text) {
        return Some((Item::Class(class), after));
    }
    if begins_symbol(first, rest) {
        return None;
    }
    byte_or_range(first, rest)
}

/// A further item, and what follows it. There is none at the `]` that ends the list.
pub(crate) fn next_item(text: &[Mark]) -> Option<(Item, &[Mark])>
    ensures item { MatchOption result
        (next_item text.now ≡ None)
        (λ r. next_item text.now ≡ Some (r.0, r.1.now)) }
    ensures shorter { IfSome result (λ r. length r.1.now < length text.now) }
{
    let (first, _) = front(text)?;
    if is_unquoted(first, b']') {
        None
    } else {
        first_item(text)
    }
}

/// The first item of a list, unless the table has it that the list isn't closed, and what follows it.
#[tactic(auto, using(crate::proofs::ClosingLemmas::lists))]
fn begin_list<'a>(text: &'a [Mark], closes: &[bool]) -> Option<(Item, &'a [Mark])>
    requires { Knows closes.now text.now }
    ensures item { MatchOption result
        (HasNoList text.now)
        (λ r. first_item text.now ≡ Some (r.0, r.1.now)) }
    ensures shorter { IfSome result (λ r. length r.1.now < length text.now) }
{
    let (first, rest) = first_item(text)?;
    if is_unclosed(closes, rest) {
        None
    } else {
        Some((first, rest))
    }
}

/// Reads the list of a bracket expression into `items`, which is empty, and gives what follows its `]`.
///
/// Without a list there is no bracket expression here, and what `items` holds then says nothing. `closes` has what is
/// known of the ends of the text.
pub(crate) fn read_list<'a>(
    text: &'a [Mark],
    closes: &[bool],
    items: &mut Vec<Item>,
) -> Result<Option<&'a [Mark]>, Memory>
    requires empty { items.old.items ≡ [] }
    requires knows { Knows closes.now text.now }
    ensures list { IfOk result (λ rest. MatchOption rest
        (HasNoList text.now)
        (λ after. IsList text.now items.new.items after.now)) }
    ensures shorter { IfOk result (λ rest. IfSome rest (λ after. length after.now ≤ length text.now)) }
{
    let Some((first, mut rest)) = begin_list(text, closes) else {
        return Ok(None);
    };
    items.push(first)?;
    while let Some((item, left)) = next_item(rest) {
        items.push(item)?;
        rest = left;
    }
    Ok(past(b']', rest))
}
