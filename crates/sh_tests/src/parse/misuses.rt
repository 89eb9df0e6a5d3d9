//! The first misuse in rows of items.
use super::{item_of, word};
use ps_lines::{Memory, Text};
use sh_parse::{Item, Look, Misuse, Span, WordKind, WordReader, first_misuse};
use sh_tree::Word;
use std::alloc::{AllocError, Global};
use std::test::Fail;

/// The ends of the words' spans tell what they are: this one has no form at its offset, `ASSIGNS` assigns, others are plain.
const ILL_FORMED: u32 = 1;

const ASSIGNS: u32 = 2;

/// A reader that knows words by the ends of their spans.
struct Marked;

impl WordReader for Marked {
    ghost use Rattle.std.specs.Prelude.{◌==◌, ◌∷◌, [], if◌then◌else◌, false, None, Some};
    ghost use Rattle.sh_tree.specs.Trees.{part, substitution, no_part};

    ghost views = { λ _. record {
      word = λ at first. part (substitution at.from false) (part (substitution first false) no_part);
      assign = λ at first. ([], part (substitution at.from false) (part (substitution first false) no_part));
      name = λ _. [];
      fault = λ at. if at.to == 1 then Some at.from else None;
      assigns = λ at. at.to == 2;
    } };

    fn word(&self, alloc: Global, at: Span, first: usize) -> Result<Word, Memory> {
        word(alloc, at.from, first)
    }

    fn assign(&self, alloc: Global, at: Span, first: usize) -> Result<(Text, Word), Memory> {
        Ok((Text::copy_of(alloc, &[])?, word(alloc, at.from, first)?))
    }

    fn name(&self, alloc: Global, at: Span) -> Result<Text, Memory> {
        let _ = at;
        Text::copy_of(alloc, &[])
    }

    fn look(&self, alloc: Global, at: Span) -> Result<Look, Memory> {
        let _ = alloc;
        let fault = if at.to == ILL_FORMED {
            Some(at.from)
        } else {
            None
        };
        Ok(Look {
            fault,
            assigns: at.to == ASSIGNS,
        })
    }
}

/// The items of a row, each at its number: as in the tables of scripts, and `?` is a word that has no form, `=` one that assigns,
/// and `=$(` one that assigns and has a command substitution.
fn items_of(alloc: Global, row: &[u8]) -> Result<Vec<Item>, AllocError> {
    let mut items = Vec::new(alloc);
    for piece in row.split(|byte| *byte == b' ') {
        let place = u32::try_from(items.len()).unwrap_or(0);
        if piece == b"$(".as_slice() {
            items.push(word_at(place, 0))?;
            items.push(Item::SubOpen(0))?;
        } else if piece == b"=$(".as_slice() {
            items.push(word_at(place, ASSIGNS))?;
            items.push(Item::SubOpen(0))?;
        } else if piece == b"?".as_slice() {
            items.push(word_at(place, ILL_FORMED))?;
        } else if piece == b"=".as_slice() {
            items.push(word_at(place, ASSIGNS))?;
        } else if !piece.is_empty() {
            items.push(placed(item_of(piece, Span { from: place, to: 0 }), place))?;
        }
    }
    Ok(items)
}

fn word_at(place: u32, mark: u32) -> Item {
    Item::Word(
        WordKind::Other,
        Span {
            from: place,
            to: mark,
        },
    )
}

/// The item at this place.
fn placed(item: Item, place: u32) -> Item {
    match item {
        Item::IoNumber(number, _) => Item::IoNumber(number, place),
        Item::Redirect(how, _) => Item::Redirect(how, place),
        Item::Open(_) => Item::Open(place),
        other => other,
    }
}

/// Rows without a misuse.
static UNMISUSED: [&str; 7] = [
    "",
    "a b ; c $( d $) | > f",
    "a = ; b $( c $)",
    "a $( b = $)",
    "for i in = $( a $) ; do b ; done",
    "{ a ; } > = > $( b $)",
    "a ; ) b = $( c $)",
];

/// Rows whose first misuse is an expansion without a form, with its offset.
static FORMS: [(&str, u32); 6] = [
    ("a ? b", 1),
    ("a ; b ? ; ? c", 3),
    ("a $( b ? $)", 4),
    ("? ; b = $( c $)", 0),
    ("? = $( b $)", 0),
    ("for i in ? ; do b ; done > ?", 3),
];

/// Rows whose first misuse is a command that mixes, with its offset.
static MIXES: [(&str, u32); 18] = [
    ("a = $( b $)", 0),
    ("a $( b ; c $) =", 0),
    ("a =$( b $)", 0),
    ("x=1 > = a $( b $)", 0),
    ("a $( b = $( c $) $)", 3),
    ("a = $( b = $( c $) $)", 0),
    ("a = $( b $) ; ?", 0),
    ("a ? = $( b $)", 0),
    ("a ; > = $( b $)", 2),
    ("a ; #2 > = $( b $)", 2),
    ("if a ; then b = $( c $) ; fi", 4),
    ("while a ; do b = $( c $) ; done", 4),
    ("for i do a = $( b $) ; done", 3),
    ("a | b = $( c $)", 2),
    ("! a = $( b $)", 1),
    ("a && NL b = $( c $)", 3),
    ("( a = $( b $) )", 1),
    ("{ a ; } NL b = $( c $)", 5),
];

/// Whether this is the first misuse in the row.
fn is_first(alloc: Global, row: &str, wanted: Option<Misuse>) -> Result<bool, Fail> {
    let items = items_of(alloc, row.as_bytes())?;
    Ok(first_misuse(alloc, &Marked, items.as_slice())? == wanted)
}

#[test]
fn no_misuse_is_told_where_there_is_none(rt: HostRuntime) -> Result<(), Fail> {
    for row in UNMISUSED.iter() {
        assert!(rt; is_first(rt.alloc(), row, None)?, "{row:?}");
    }
    Ok(())
}

#[test]
fn the_first_expansion_without_a_form_is_told(rt: HostRuntime) -> Result<(), Fail> {
    for &(row, offset) in FORMS.iter() {
        assert!(rt;
            is_first(rt.alloc(), row, Some(Misuse::Form(offset)))?,
            "{row:?}"
        );
    }
    Ok(())
}

#[test]
fn the_first_command_that_mixes_is_told(rt: HostRuntime) -> Result<(), Fail> {
    for &(row, offset) in MIXES.iter() {
        assert!(rt;
            is_first(rt.alloc(), row, Some(Misuse::Mix(offset)))?,
            "{row:?}"
        );
    }
    Ok(())
}

#[test]
fn the_least_offset_is_told_and_not_the_first_met(rt: HostRuntime) -> Result<(), Fail> {
    let items = [word_at(9, ILL_FORMED), word_at(4, ILL_FORMED)];
    let found = first_misuse(rt.alloc(), &Marked, &items)?;
    assert_eq!(rt; found, Some(Misuse::Form(4)));
    Ok(())
}
