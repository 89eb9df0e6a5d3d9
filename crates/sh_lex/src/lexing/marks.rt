//! The tokens of a script with those of its command substitutions at their place.
ghost use Rattle.std.specs.Prelude.{◌≡◌, ◌-◌, ◌≤◌, ◌++◌, length, IfOk, IfErr};
ghost use Rattle.sh_lex.specs.Texts.{unspliced};
ghost use Rattle.sh_lex.specs.Lexes.{one_word, token_between};
ghost use Rattle.sh_lex.specs.Operators.{lexeme};
ghost use Rattle.sh_lex.specs.Reads.{StopsReading};
ghost use Rattle.sh_lex.specs.Marks.{entry_of, entry_in, opening, closing, begun, behind_word, seen_at, seen, Marked, Marks, HasMarks};
ghost use Rattle.sh_lex.specs.Inner.Lexing.{StopsAt};
ghost use Rattle.sh_lex.specs.Lexes.{Refuses};
ghost use Rattle.sh_lex.specs.Inner.Marking.{marks_of, word_marks, LeadsOn};
ghost use Rattle.sh_lex.specs.declared.lexing.marks.Mark.TheVariants as mark;
ghost use Rattle.sh_lex.specs.declared.reading.ScanStop.TheVariants as stop_kind;

use super::{MAX_SCRIPT, ONE_WORD, token_between, told};
use crate::acts::{Lexeme, Step};
use crate::bytes::ends_word;
use crate::operators::lexeme;
use crate::parts::{Construct, Spot};
use crate::reading::{ScanStop, step};
use crate::refusals::{LexRefusal, Static};
use crate::texts::front;
use crate::tokens::{Op, Token, TokenKind};
use std::alloc::Global;

/// A place in a script. Offsets count its bytes.
#[derive(Clone, Copy, Debug, PartialEq, Eq)]
pub enum Mark {
    /// A word begins at this offset.
    WordBegin(u32),
    /// The innermost open word ends at this offset.
    WordEnd(u32),
    /// A token that is no word.
    Token(Token),
    /// A `$(` begins at this offset.
    SubOpen(u32),
    /// The `)` of a `$(`.
    SubClose,
    /// The `)` of a `(` inside a `$( )`.
    Close,
}

/// How a construct opens in another.
#[derive(Clone, Copy, Debug)]
pub enum Entry {
    /// As a `(` among the tokens of a `$( )`.
    Parenthesis,
    /// As a `$(`, where so many bytes are left.
    Substitution(usize),
    /// Otherwise.
    Other,
}

/// How the first construct opens in the second one.
fn entry_of(inner: Construct, outer: Construct) -> Entry
    ensures { result ≡ entry_of inner outer }
{
    match inner {
        Construct::Commands(_, Some(left), _) => entry_in(left, outer),
        _ => Entry::Other,
    }
}

fn entry_in(left: usize, outer: Construct) -> Entry
    ensures { result ≡ entry_in left outer }
{
    match outer {
        Construct::Commands(_, _, Spot::Between) => Entry::Parenthesis,
        _ => Entry::Substitution(left),
    }
}

/// The offset at which so many bytes of a script of `total` bytes are left.
fn offset(total: usize, left: usize) -> u32
    requires { total ≤ MAX_SCRIPT }
    ensures { result ≡ total - left }
{
    total.saturating_sub(left) as u32
}

/// The offset of the first byte of what is left.
fn begin(total: usize, text: &[u8]) -> u32
    requires { total ≤ MAX_SCRIPT }
    ensures { result ≡ total - length (unspliced text.now) }
{
    token_between(total, TokenKind::Word, text, text).from
}

/// Where a construct opens.
fn opening(total: usize, text: &[u8], rest: &[u8], entry: Entry) -> Option<Mark>
    requires { total ≤ MAX_SCRIPT }
    ensures { marks_of result ≡ opening total text.now rest.now entry }
{
    match entry {
        Entry::Parenthesis => Some(Mark::Token(token_between(
            total,
            TokenKind::Op(Op::Open),
            text,
            rest,
        ))),
        Entry::Substitution(left) => Some(Mark::SubOpen(offset(total, left))),
        Entry::Other => None,
    }
}

/// Where a construct has ended.
fn closing(entry: Entry) -> Option<Mark>
    ensures { marks_of result ≡ closing entry }
{
    match entry {
        Entry::Parenthesis => Some(Mark::Close),
        Entry::Substitution(_) => Some(Mark::SubClose),
        Entry::Other => None,
    }
}

/// What begins among the tokens of a `$( )`.
fn begun(total: usize, text: &[u8]) -> Option<Mark>
    requires { total ≤ MAX_SCRIPT }
    ensures { marks_of result ≡ begun total text.now (lexeme text.now) }
{
    match lexeme(text) {
        Lexeme::Word => Some(Mark::WordBegin(begin(total, text))),
        Lexeme::Token(kind, rest) => Some(Mark::Token(token_between(total, kind, text, rest))),
        Lexeme::Nothing
        | Lexeme::Gap(_)
        | Lexeme::Open(_)
        | Lexeme::Close(_)
        | Lexeme::Offence(_) => None,
    }
}

/// The marks at one step of a construct.
fn seen(total: usize, part: Construct, text: &[u8]) -> (Option<Mark>, Option<Mark>)
    requires { total ≤ MAX_SCRIPT }
    ensures { marks_of result.0 ++ marks_of result.1 ≡ seen total part text.now }
{
    match part {
        Construct::Commands(_, Some(_), spot) => seen_at(total, spot, text),
        _ => (None, None),
    }
}

fn seen_at(total: usize, spot: Spot, text: &[u8]) -> (Option<Mark>, Option<Mark>)
    requires { total ≤ MAX_SCRIPT }
    ensures { marks_of result.0 ++ marks_of result.1 ≡ seen_at total spot text.now }
{
    match spot {
        Spot::Between => (None, begun(total, text)),
        Spot::Begin | Spot::Name | Spot::ValueBegin | Spot::Value | Spot::Elsewhere => {
            behind_word(total, text)
        }
    }
}

fn behind_word(total: usize, text: &[u8]) -> (Option<Mark>, Option<Mark>)
    requires { total ≤ MAX_SCRIPT }
    ensures { marks_of result.0 ++ marks_of result.1 ≡ behind_word total text.now (unspliced text.now) }
{
    let end = Some(Mark::WordEnd(offset(total, text.len())));
    match front(text) {
        Some((byte, _)) => {
            if ends_word(byte) {
                (end, begun(total, text))
            } else {
                (None, None)
            }
        }
        None => (end, begun(total, text)),
    }
}

/// The marks with one more, where there is one.
fn with_mark(marks: Vec<Mark>, more: Option<Mark>) -> Result<Vec<Mark>, ScanStop>
    ensures marks { IfOk result (λ all. all.items ≡ marks.items ++ marks_of more) }
    ensures memory { IfErr result (λ stop. stop ≡ stop_kind.Memory) }
{
    let mut marks = marks;
    match more {
        None => Ok(marks),
        Some(mark) => match marks.push(mark) {
            Ok(()) => Ok(marks),
            Err(_) => Err(ScanStop::Memory),
        },
    }
}

/// The marks with those of one step.
fn with_seen(
    marks: Vec<Mark>,
    total: usize,
    part: Construct,
    text: &[u8],
) -> Result<Vec<Mark>, ScanStop>
    requires { total ≤ MAX_SCRIPT }
    ensures marks { IfOk result (λ all. all.items ≡ marks.items ++ seen total part text.now) }
    ensures memory { IfErr result (λ stop. stop ≡ stop_kind.Memory) }
{
    let (first, second) = seen(total, part, text);
    match with_mark(marks, first) {
        Ok(marks) => with_mark(marks, second),
        Err(stop) => Err(stop),
    }
}

/// The marks in the word that begins at the text, and what is left behind it.
fn walk(alloc: Global, total: usize, text: &[u8]) -> Result<(Vec<Mark>, &[u8]), ScanStop>
    requires { total ≤ MAX_SCRIPT }
    ensures marked { IfOk result (λ found. Marked total one_word text.now found.0.items found.1.now) }
    ensures refused { IfErr result (λ stop. StopsReading one_word text.now stop) }
{
    let mut marks = Vec::new(alloc);
    let mut open = Vec::new(alloc);
    let mut part = ONE_WORD;
    let mut rest = text;
    loop {
        match with_seen(marks, total, part, rest) {
            Ok(more) => marks = more,
            Err(_) => return Err(ScanStop::Memory),
        }
        match step(part, rest) {
            Step::Goes(next, after) => {
                part = next;
                rest = after;
            }
            Step::Enters(inner, outer, after) => {
                let entry = entry_of(inner, outer);
                match with_mark(marks, opening(total, rest, after, entry)) {
                    Ok(more) => marks = more,
                    Err(_) => return Err(ScanStop::Memory),
                }
                let Ok(()) = open.push((entry, outer)) else {
                    return Err(ScanStop::Memory);
                };
                part = inner;
                rest = after;
            }
            Step::Ends(after) => {
                match open.pop() {
                    Some((entry, outer)) => {
                        match with_mark(marks, closing(entry)) {
                            Ok(more) => marks = more,
                            Err(_) => return Err(ScanStop::Memory),
                        }
                        part = outer;
                    }
                    None => return Ok((marks, after)),
                }
                rest = after;
            }
            Step::Offends(fault) => return Err(ScanStop::Refused(fault)),
        }
    }
}

/// The marks of a script, in order: its tokens, with those of its command substitutions at their place (XCU 2.6.3).
///
/// What is refused is what `lex` refuses.
pub fn read_marks(alloc: Global, text: &[u8]) -> Result<Vec<Mark>, LexRefusal>
    ensures marks { IfOk result (λ marks. HasMarks text.now marks.items) }
    ensures refusal { IfErr result (λ refusal. Refuses text.now refusal) }
{
    if text.len() > MAX_SCRIPT {
        return Err(LexRefusal::Refused(Static::ScriptTooLong));
    }
    match all_marks(alloc, text) {
        Ok(marks) => Ok(marks),
        Err(ScanStop::Refused(fault)) => match told(alloc, text, fault) {
            Ok(refusal) => Err(LexRefusal::Refused(refusal)),
            Err(_) => Err(LexRefusal::Memory),
        },
        Err(ScanStop::Memory) => Err(LexRefusal::Memory),
    }
}

/// The marks of a script that isn't too long.
fn all_marks(alloc: Global, text: &[u8]) -> Result<Vec<Mark>, ScanStop>
    requires { length text.now ≤ MAX_SCRIPT }
    ensures marks { IfOk result (λ marks. Marks (length text.now) text.now marks.items) }
    ensures refused { IfErr result (λ stop. StopsAt (length text.now) text.now stop) }
{
    let mut marks = Vec::new(alloc);
    let mut rest = text;
    loop {
        match next(alloc, text.len(), rest) {
            Ok(Found::End) => return Ok(marks),
            Ok(Found::Gap(after)) => rest = after,
            Ok(Found::Token(mark, after)) => {
                match with_mark(marks, Some(mark)) {
                    Ok(more) => marks = more,
                    Err(_) => return Err(ScanStop::Memory),
                }
                rest = after;
            }
            Ok(Found::Word(inside, after)) => {
                match with_word(marks, text.len(), rest, inside, after) {
                    Ok(more) => marks = more,
                    Err(_) => return Err(ScanStop::Memory),
                }
                rest = after;
            }
            Err(stop) => return Err(stop),
        }
    }
}

/// What begins at a place of the script. The slice is what is left of the script behind it.
#[derive(Drop)]
enum Found<'a> {
    /// Nothing is left.
    End,
    /// A blank or a comment.
    Gap(&'a [u8]),
    /// A token that is no word.
    Token(Mark, &'a [u8]),
    /// A word, with the marks inside it.
    Word(Vec<Mark>, &'a [u8]),
}

/// What begins at the text.
fn next(alloc: Global, total: usize, text: &[u8]) -> Result<Found<'_>, ScanStop>
    requires { total ≤ MAX_SCRIPT }
    ensures leads { IfOk result (λ found. LeadsOn total text.now found) }
    ensures refused { IfErr result (λ stop. StopsAt total text.now stop) }
{
    match lexeme(text) {
        Lexeme::Nothing => Ok(Found::End),
        Lexeme::Gap(rest) => Ok(Found::Gap(rest)),
        Lexeme::Open(rest) => {
            let mark = token(total, TokenKind::Op(Op::Open), text, rest);
            Ok(Found::Token(mark, rest))
        }
        Lexeme::Close(rest) => {
            let mark = token(total, TokenKind::Op(Op::Close), text, rest);
            Ok(Found::Token(mark, rest))
        }
        Lexeme::Token(kind, rest) => {
            let mark = token(total, kind, text, rest);
            Ok(Found::Token(mark, rest))
        }
        Lexeme::Word => match walk(alloc, total, text) {
            Ok((inside, rest)) => Ok(Found::Word(inside, rest)),
            Err(stop) => Err(stop),
        },
        Lexeme::Offence(fault) => Err(ScanStop::Refused(fault)),
    }
}

/// The mark of a token that is no word.
fn token(total: usize, kind: TokenKind, before: &[u8], behind: &[u8]) -> Mark
    requires { total ≤ MAX_SCRIPT }
    ensures { result ≡ mark.Token (token_between total kind before.now behind.now) }
{
    Mark::Token(token_between(total, kind, before, behind))
}

/// The marks with those of a word behind them, `before` being what is left of the script at it and `behind` what is left behind it.
fn with_word(
    marks: Vec<Mark>,
    total: usize,
    before: &[u8],
    inside: Vec<Mark>,
    behind: &[u8],
) -> Result<Vec<Mark>, ScanStop>
    requires { total ≤ MAX_SCRIPT }
    ensures marks { IfOk result (λ all. all.items ≡ marks.items ++ word_marks total before.now inside.items behind.now) }
    ensures memory { IfErr result (λ stop. stop ≡ stop_kind.Memory) }
{
    let begun = Mark::WordBegin(begin(total, before));
    let ended = Mark::WordEnd(offset(total, behind.len()));
    match with_mark(marks, Some(begun)) {
        Ok(marks) => match with_marks(marks, inside) {
            Ok(marks) => with_mark(marks, Some(ended)),
            Err(stop) => Err(stop),
        },
        Err(stop) => Err(stop),
    }
}

/// The marks with more behind them.
fn with_marks(marks: Vec<Mark>, more: Vec<Mark>) -> Result<Vec<Mark>, ScanStop>
    ensures marks { IfOk result (λ all. all.items ≡ marks.items ++ more.items) }
    ensures memory { IfErr result (λ stop. stop ≡ stop_kind.Memory) }
{
    let mut marks = marks;
    match marks.extend_from_slice(more.as_slice()) {
        Ok(()) => Ok(marks),
        Err(_) => Err(ScanStop::Memory),
    }
}
