//! What begins where a token may begin: operators, gaps, IoNumbers (XCU 2.3, 2.10.2).
ghost use Rattle.std.specs.Prelude.{◌≡◌, ◌≤◌, length};
ghost use Rattle.sh_lex.specs.Texts.{unspliced};
ghost use Rattle.sh_lex.specs.Operators.{and_at, pipe_at, semi_at, less_at, great_at, delimiter, has_no_word, is_number_or_target, is_target, lexeme};
ghost use Rattle.sh_lex.specs.Inner.Lexing.{found_of};

use crate::acts::Lexeme;
use crate::bytes::{
    AND, CLOSE, DASH, GREAT, HASH, LESS, NEWLINE, ONE, OPEN, PIPE, SEMI, TWO, ends_word,
};
use crate::numbers::{after_digit, begins_with};
use crate::parts::{Fault, Spelling};
use crate::runs::{Class, behind_run};
use crate::texts::{behind_comment, front};
use crate::tokens::{Op, TokenKind};

/// What begins at a text where a token may begin.
pub fn lexeme(text: &[u8]) -> Lexeme<'_>
    ensures found { found_of result ≡ lexeme text.now }
{
    let Some((byte, rest)) = front(text) else {
        return Lexeme::Nothing;
    };
    if ends_word(byte) {
        delimiter(byte, rest)
    } else if byte == HASH {
        Lexeme::Gap(behind_comment(rest))
    } else if byte.is_ascii_digit() {
        after_digit(byte, rest)
    } else {
        Lexeme::Word
    }
}

/// What begins with a byte that ends a word: an operator, a newline or a blank.
fn delimiter(byte: u8, rest: &[u8]) -> Lexeme<'_>
    ensures { found_of result ≡ delimiter byte rest.now }
{
    let left = rest.len() + 1;
    match byte {
        NEWLINE => Lexeme::Token(TokenKind::Newline, rest),
        AND => and_at(left, rest),
        PIPE => pipe_at(rest),
        SEMI => semi_at(left, rest),
        OPEN => Lexeme::Open(rest),
        CLOSE => Lexeme::Close(rest),
        LESS => less_at(left, rest),
        GREAT => great_at(left, rest),
        _ => Lexeme::Gap(rest),
    }
}

/// Behind a `&`, at which `left` bytes are left.
fn and_at(left: usize, text: &[u8]) -> Lexeme<'_>
    ensures { found_of result ≡ and_at left (unspliced text.now) }
{
    match front(text) {
        Some((AND, rest)) => Lexeme::Token(TokenKind::Op(Op::AndIf), rest),
        _ => Lexeme::Offence(Fault::Spelled(Spelling::And, left)),
    }
}

/// Behind a `|`.
fn pipe_at(text: &[u8]) -> Lexeme<'_>
    ensures { found_of result ≡ pipe_at text.now (unspliced text.now) }
{
    match front(text) {
        Some((PIPE, rest)) => Lexeme::Token(TokenKind::Op(Op::OrIf), rest),
        _ => Lexeme::Token(TokenKind::Op(Op::Pipe), text),
    }
}

/// Behind a `;`, at which `left` bytes are left.
fn semi_at(left: usize, text: &[u8]) -> Lexeme<'_>
    ensures { found_of result ≡ semi_at left text.now (unspliced text.now) }
{
    if begins_with(SEMI, text) {
        Lexeme::Offence(Fault::Spelled(Spelling::DoubleSemi, left))
    } else {
        Lexeme::Token(TokenKind::Op(Op::Semi), text)
    }
}

/// Behind a `<`, at which `left` bytes are left.
fn less_at(left: usize, text: &[u8]) -> Lexeme<'_>
    ensures { found_of result ≡ less_at left text.now (unspliced text.now) }
{
    let Some((byte, rest)) = front(text) else {
        return Lexeme::Token(TokenKind::Op(Op::Less), text);
    };
    match byte {
        LESS if begins_with(DASH, rest) => Lexeme::Offence(Fault::Spelled(
            Spelling::DoubleLessDash,
            left,
        )),
        LESS => Lexeme::Offence(Fault::Spelled(Spelling::DoubleLess, left)),
        AND => Lexeme::Offence(Fault::Spelled(Spelling::LessAnd, left)),
        GREAT => Lexeme::Offence(Fault::Spelled(Spelling::LessGreat, left)),
        _ => Lexeme::Token(TokenKind::Op(Op::Less), text),
    }
}

/// Behind a `>`, at which `left` bytes are left.
fn great_at(left: usize, text: &[u8]) -> Lexeme<'_>
    ensures { found_of result ≡ great_at left text.now (unspliced text.now) }
{
    let Some((byte, rest)) = front(text) else {
        return Lexeme::Token(TokenKind::Op(Op::Great), text);
    };
    match byte {
        GREAT => Lexeme::Token(TokenKind::Op(Op::DGreat), rest),
        PIPE => Lexeme::Offence(Fault::Spelled(Spelling::GreatPipe, left)),
        AND if is_target(behind_run(Class::Blank, rest)) => Lexeme::Token(
            TokenKind::Op(Op::GreatAnd),
            rest,
        ),
        AND => Lexeme::Offence(Fault::Spelled(Spelling::GreatAnd, left)),
        _ => Lexeme::Token(TokenKind::Op(Op::Great), text),
    }
}

/// Whether no word stands at the text, or the word `1` or `2`.
fn is_target(text: &[u8]) -> bool
    ensures { result ≡ is_target (unspliced text.now) }
{
    match front(text) {
        None => true,
        Some((byte, rest)) => {
            ends_word(byte)
                || byte == HASH
                || (byte.is_ascii_digit() && is_number_or_target(byte, rest))
        }
    }
}

/// Whether digits that begin with this one are an IoNumber, or the word `1` or `2`.
fn is_number_or_target(digit: u8, rest: &[u8]) -> bool
    ensures { result ≡ is_number_or_target digit rest.now }
{
    let end = behind_run(Class::Digit, rest);
    begins_with(LESS, end)
        || begins_with(GREAT, end)
        || ((digit == ONE || digit == TWO) && has_no_word(rest))
}

/// Whether no word goes on at the text.
fn has_no_word(text: &[u8]) -> bool
    ensures { result ≡ has_no_word (unspliced text.now) }
{
    match front(text) {
        Some((byte, _)) => ends_word(byte),
        None => true,
    }
}
