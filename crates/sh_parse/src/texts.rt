//! The items of a text.
ghost use Rattle.std.specs.Prelude.{◌≡◌, ◌∷◌, [], ℕ, List, drop, reverse, IfOk, IfErr, OnOk};
ghost use Rattle.std.specs.List.{between};
ghost use Rattle.sh_lex.specs.Lexes.{Refuses};
ghost use Rattle.sh_lex.specs.declared.lexing.marks.Mark.{Mark};
ghost use Rattle.sh_parse.specs.Texts.{word_item, word_end, digit_at, operator_item, token_item, items_of, HasItems};
ghost use Rattle.sh_parse.specs.Inner.Behind.{open_ends, IsBehind};

use crate::items::{Item, Span};
use crate::kinds::word_kind;
use ps_lines::Memory;
use sh_lex::{LexRefusal, Mark, Op, Token, TokenKind, read_marks};
use sh_tree::{How, Join};
use std::alloc::Global;

/// The items of a text, in order.
///
/// What is refused is what `sh_lex::lex` refuses.
pub fn read_items(alloc: Global, text: &[u8]) -> Result<Vec<Item>, LexRefusal>
    ensures items { IfOk result (λ items. HasItems text.now items.items) }
    ensures refusal { IfErr result (λ refusal. Refuses text.now refusal) }
{
    match read_marks(alloc, text) {
        Ok(marks) => match items_of(alloc, text, marks.as_slice()) {
            Ok(items) => Ok(items),
            Err(Memory) => Err(LexRefusal::Memory),
        },
        Err(refusal) => Err(refusal),
    }
}

/// The items that the marks of a text stand for, in order.
///
/// A word's item has the end of the word, which is known behind its substitutions: so the walk begins at the last mark.
pub fn items_of(alloc: Global, text: &[u8], marks: &[Mark]) -> Result<Vec<Item>, Memory>
    ensures { IfOk result (λ items. items.items ≡ items_of text.now marks.now) }
{
    let mut behind = Behind::nothing(alloc);
    let mut rest = marks;
    while let Some((last, before)) = rest.split_last() {
        behind.pass(alloc, text, *last)?;
        rest = before;
    }
    Ok(behind.into_items())
}

/// What is known of the marks behind a place.
#[derive(Drop)]
pub struct Behind {
    /// The ends of the words that are open there, from the outermost.
    pub ends: Vec<u32>,
    /// The items, from the last.
    pub items: Vec<Item>,
}

impl Behind {
    /// What is known where no mark is behind.
    fn nothing(alloc: Global) -> Behind
        ensures { (text : List ℕ) → IsBehind text [] result }
    {
        Behind {
            ends: Vec::new(alloc),
            items: Vec::new(alloc),
        }
    }

    /// Passes over a mark.
    fn pass(&mut self, alloc: Global, text: &[u8], mark: Mark) -> Result<(), Memory>
        ensures { OnOk result ((marks : List Mark) → IsBehind text.now marks self.old → IsBehind text.now (mark ∷ marks) self.new) }
    {
        match mark {
            Mark::WordBegin(from) => {
                let to = take_end(&mut self.ends);
                let word = word_item(alloc, text, from, to)?;
                self.items.push(word)?;
            }
            Mark::WordEnd(to) => self.ends.push(to)?,
            Mark::Token(token) => {
                let item = token_item(alloc, text, token)?;
                self.items.push(item)?;
            }
            Mark::SubOpen(at) => self.items.push(Item::SubOpen(at))?,
            Mark::SubClose => self.items.push(Item::SubClose)?,
            Mark::Close => self.items.push(Item::Close)?,
        }
        Ok(())
    }

    /// The items, from the first.
    fn into_items(self) -> Vec<Item>
        ensures { (text : List ℕ) (marks : List Mark) → IsBehind text marks self → result.items ≡ items_of text marks }
    {
        let mut items = self.items;
        items.reverse();
        items
    }
}

/// Takes the end of the innermost of the words that are open; 0 where none is.
fn take_end(ends: &mut Vec<u32>) -> u32
    ensures end { (marks : List Mark) → reverse ends.old.items ≡ open_ends marks → result ≡ word_end marks 0 }
    ensures left { (marks : List Mark) → reverse ends.old.items ≡ open_ends marks → reverse ends.new.items ≡ drop 1 (open_ends marks) }
{
    ends.pop().unwrap_or(0)
}

/// The item of a token.
fn token_item(alloc: Global, text: &[u8], token: Token) -> Result<Item, Memory>
    ensures { IfOk result (λ item. item ≡ token_item text.now token) }
{
    match token.kind {
        TokenKind::Word => word_item(alloc, text, token.from, token.to),
        TokenKind::IoNumber => Ok(Item::IoNumber(digit_at(text, token.from), token.from)),
        TokenKind::Newline => Ok(Item::Newline),
        TokenKind::Op(operator) => Ok(operator_item(operator, token.from)),
    }
}

/// The item of a word.
fn word_item(alloc: Global, text: &[u8], from: u32, to: u32) -> Result<Item, Memory>
    ensures { IfOk result (λ item. item ≡ word_item text.now from to) }
{
    let kind = word_kind(alloc, between(text, from as usize, to as usize))?;
    Ok(Item::Word(kind, Span { from, to }))
}

/// The bytes of a text between two offsets, as far as the text has them.
pub fn between(text: &[u8], from: usize, to: usize) -> &[u8]
    ensures { result.now ≡ between from to text.now }
{
    let behind = text.get(from..).unwrap_or(&[]);
    behind.get(..to.saturating_sub(from)).unwrap_or(behind)
}

/// The value of the digit at an offset.
fn digit_at(text: &[u8], at: u32) -> u8
    ensures { result ≡ digit_at text.now at }
{
    match text.get(at as usize) {
        Some(byte) => byte.saturating_sub(b'0'),
        None => 0,
    }
}

/// The item of an operator.
fn operator_item(operator: Op, from: u32) -> Item
    ensures { result ≡ operator_item operator from }
{
    match operator {
        Op::AndIf => Item::Join(Join::And),
        Op::OrIf => Item::Join(Join::Or),
        Op::Semi => Item::Semi,
        Op::Pipe => Item::Pipe,
        Op::Open => Item::Open(from),
        Op::Close => Item::Close,
        Op::Less => Item::Redirect(How::Read, from),
        Op::Great => Item::Redirect(How::Write, from),
        Op::DGreat => Item::Redirect(How::Append, from),
        Op::GreatAnd => Item::Redirect(How::Copy, from),
    }
}
