//! Arithmetic expansions (XCU 2.6.4).
ghost use Rattle.std.specs.Prelude.{◌≡◌};
ghost use Rattle.sh_lex.specs.Acts.{act_of};
ghost use Rattle.sh_lex.specs.Texts.{unspliced};
ghost use Rattle.sh_lex.specs.Arithmetic.{expression_at, closing_at, in_arithmetic, in_parentheses};

use crate::acts::Step;
use crate::bytes::{BACKQUOTE, BACKSLASH, CLOSE, DOLLAR, OPEN};
use crate::dollars::after_dollar;
use crate::parts::{Construct, Fault, Nest, Spelling};
use crate::texts::{behind_backslash, front};

/// In a `$(( ))` that opened where `left` bytes were left.
pub fn in_arithmetic(nest: Nest, left: usize, text: &[u8]) -> Step<'_>
    ensures { act_of result ≡ in_arithmetic nest left text.now }
{
    match front(text) {
        None => Step::Offends(Fault::UnclosedBrace(left)),
        Some((CLOSE, rest)) => closing(nest, left, rest),
        Some((byte, rest)) => expression(nest, left, Construct::Arithmetic(nest, left), byte, rest),
    }
}

/// In parentheses of a `$(( ))` that opened where `left` bytes were left.
pub fn in_parentheses(nest: Nest, left: usize, text: &[u8]) -> Step<'_>
    ensures { act_of result ≡ in_parentheses nest left text.now }
{
    match front(text) {
        None => Step::Offends(Fault::UnclosedBrace(left)),
        Some((CLOSE, rest)) => Step::Ends(rest),
        Some((byte, rest)) => expression(
            nest,
            left,
            Construct::Parentheses(nest, left),
            byte,
            rest,
        ),
    }
}

/// Behind a `)` outside inner parentheses.
fn closing(nest: Nest, left: usize, text: &[u8]) -> Step<'_>
    ensures { act_of result ≡ closing_at nest left text.now (unspliced text.now) }
{
    match front(text) {
        Some((CLOSE, rest)) => Step::Ends(rest),
        _ => Step::Goes(Construct::Arithmetic(nest, left), text),
    }
}

/// At a byte of an expression; `part` is the construct itself.
fn expression(nest: Nest, left: usize, part: Construct, byte: u8, rest: &[u8]) -> Step<'_>
    ensures { act_of result ≡ expression_at nest left part byte rest.now }
{
    match byte {
        OPEN => Step::Enters(Construct::Parentheses(nest, left), part, rest),
        BACKQUOTE => Step::Offends(Fault::Spelled(Spelling::Backquote, rest.len() + 1)),
        DOLLAR => after_dollar(nest, true, rest.len() + 1, part, rest),
        BACKSLASH => Step::Goes(part, behind_backslash(false, rest)),
        _ => Step::Goes(part, rest),
    }
}
