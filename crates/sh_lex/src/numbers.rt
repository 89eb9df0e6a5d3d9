//! IoNumbers: digits directly before `<` or `>` (XCU 2.10.1 rule 2).
ghost use Rattle.std.specs.Prelude.{◌≡◌, ◌≤◌, ◌<◌, length, Bool, MatchOption, IfOk};
ghost use Rattle.sh_lex.specs.Texts.{unspliced};
ghost use Rattle.sh_lex.specs.Numbers.{begins_with, fits_less, fits_great, number_at, after_digit};
ghost use Rattle.sh_lex.specs.Inner.Lexing.{found_of};

use crate::acts::Lexeme;
use crate::bytes::{AND, GREAT, LESS, ONE, PIPE, TWO, ZERO};
use crate::parts::Fault;
use crate::runs::{Class, behind_run};
use crate::texts::front;
use crate::tokens::TokenKind;

/// Whether the first byte of the text, behind removed backslash-newlines, is this one.
pub fn begins_with(wanted: u8, text: &[u8]) -> bool
    ensures { result ≡ begins_with wanted (unspliced text.now) }
{
    match front(text) {
        Some((byte, _)) => byte == wanted,
        None => false,
    }
}

/// Whether digits fit an operator that begins with `<`, `behind` being what is left behind that byte.
fn fits_less(digit: u8, single: bool, behind: &[u8]) -> bool
    ensures { result ≡ fits_less digit single (unspliced behind.now) }
{
    begins_with(LESS, behind)
        || begins_with(AND, behind)
        || begins_with(GREAT, behind)
        || (single && digit == ZERO)
}

/// Whether digits fit an operator that begins with `>`, `behind` being what is left behind that byte.
fn fits_great(digit: u8, single: bool, behind: &[u8]) -> bool
    ensures { result ≡ fits_great digit single (unspliced behind.now) }
{
    begins_with(PIPE, behind) || (single && (digit == ONE || digit == TWO))
}

/// What begins with a digit: an IoNumber or a word. `rest` is what is left behind the digit.
pub fn after_digit(digit: u8, rest: &[u8]) -> Lexeme<'_>
    ensures found { found_of result ≡ after_digit digit rest.now }
{
    let end = behind_run(Class::Digit, rest);
    let single = end.len() == rest.len();
    let left = rest.len() + 1;
    let Some((byte, behind)) = front(end) else {
        return Lexeme::Word;
    };
    let fits = match byte {
        LESS => fits_less(digit, single, behind),
        GREAT => fits_great(digit, single, behind),
        _ => return Lexeme::Word,
    };
    if fits {
        Lexeme::Token(TokenKind::IoNumber, end)
    } else {
        Lexeme::Offence(Fault::Number(left))
    }
}
