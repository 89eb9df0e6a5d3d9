//! Words, and the tokens of a command substitution (XCU 2.3, 2.6.3).
ghost use Rattle.std.specs.Prelude.{◌≡◌};
ghost use Rattle.sh_lex.specs.Texts.{unspliced};
ghost use Rattle.sh_lex.specs.Acts.{act_of};
ghost use Rattle.sh_lex.specs.Operators.{lexeme};
ghost use Rattle.sh_lex.specs.Commands.{is_tilde_spot, spot_behind, spot_past, word_at, word_begin, between_at, word_end, in_word, in_commands};

use crate::acts::{Lexeme, Step};
use crate::bytes::{
    BACKQUOTE, BACKSLASH, COLON, DOLLAR, DOUBLE_QUOTE, EQUALS, QUOTE, TILDE, ends_word,
};
use crate::dollars::after_dollar;
use crate::operators::lexeme;
use crate::parts::{Construct, Fault, Nest, Spelling, Spot};
use crate::quotes::single_quotes;
use crate::texts::{behind_byte, front};
use ps_lines::{is_name_byte, is_name_start};

/// In the tokens of a `$( )` that opened where `opened` bytes were left; with `None` in the word of one token.
pub fn in_commands(nest: Nest, opened: Option<usize>, spot: Spot, text: &[u8]) -> Step<'_>
    ensures { act_of result ≡ in_commands nest opened spot text.now }
{
    match spot {
        Spot::Between => word_end(nest, opened, text),
        Spot::Begin | Spot::Name | Spot::ValueBegin | Spot::Value | Spot::Elsewhere => {
            in_word(nest, opened, spot, text)
        }
    }
}

/// In a word.
fn in_word(nest: Nest, opened: Option<usize>, spot: Spot, text: &[u8]) -> Step<'_>
    ensures { act_of result ≡ in_word nest opened spot text.now (unspliced text.now) }
{
    match front(text) {
        Some((byte, rest)) if !ends_word(byte) => word_at(nest, opened, spot, byte, rest),
        _ => word_end(nest, opened, text),
    }
}

/// Behind the last byte of a word.
fn word_end(nest: Nest, opened: Option<usize>, text: &[u8]) -> Step<'_>
    ensures { act_of result ≡ word_end nest opened text.now }
{
    match opened {
        Some(left) => between(nest, left, text),
        None => Step::Ends(text),
    }
}

/// Between two tokens of a `$( )`.
fn between(nest: Nest, opened: usize, text: &[u8]) -> Step<'_>
    ensures { act_of result ≡ between_at nest opened text.now (lexeme text.now) }
{
    let part = Construct::Commands(nest, Some(opened), Spot::Between);
    match lexeme(text) {
        Lexeme::Nothing => Step::Offends(Fault::UnclosedBrace(opened)),
        Lexeme::Gap(rest) | Lexeme::Token(_, rest) => Step::Goes(part, rest),
        Lexeme::Open(rest) => Step::Enters(part, part, rest),
        Lexeme::Close(rest) => Step::Ends(rest),
        Lexeme::Word => word_begin(nest, opened, text),
        Lexeme::Offence(fault) => Step::Offends(fault),
    }
}

/// At the first byte of a word in a `$( )`.
fn word_begin(nest: Nest, opened: usize, text: &[u8]) -> Step<'_>
    ensures { act_of result ≡ word_begin nest opened (unspliced text.now) }
{
    match front(text) {
        Some((byte, rest)) => word_at(nest, Some(opened), Spot::Begin, byte, rest),
        None => Step::Offends(Fault::UnclosedBrace(opened)),
    }
}

/// At a byte of a word.
fn word_at(nest: Nest, opened: Option<usize>, spot: Spot, byte: u8, rest: &[u8]) -> Step<'_>
    ensures { act_of result ≡ word_at nest opened spot byte rest.now }
{
    let past = Construct::Commands(nest, opened, spot_past(spot));
    match byte {
        QUOTE => single_quotes(rest.len() + 1, past, rest),
        DOUBLE_QUOTE => Step::Enters(Construct::DoubleQuotes(nest, rest.len() + 1), past, rest),
        BACKSLASH => Step::Goes(past, behind_byte(rest)),
        BACKQUOTE => Step::Offends(Fault::Spelled(Spelling::Backquote, rest.len() + 1)),
        DOLLAR => after_dollar(nest, false, rest.len() + 1, past, rest),
        TILDE if is_tilde_spot(spot) => Step::Offends(Fault::Spelled(
            Spelling::Tilde,
            rest.len() + 1,
        )),
        _ => Step::Goes(
            Construct::Commands(nest, opened, spot_behind(spot, byte)),
            rest,
        ),
    }
}

/// Whether a `~` at this spot begins a tilde-prefix.
fn is_tilde_spot(spot: Spot) -> bool
    ensures { result ≡ is_tilde_spot spot }
{
    match spot {
        Spot::Begin | Spot::ValueBegin => true,
        Spot::Between | Spot::Name | Spot::Value | Spot::Elsewhere => false,
    }
}

/// The spot behind an ordinary byte.
fn spot_behind(spot: Spot, byte: u8) -> Spot
    ensures { result ≡ spot_behind spot byte }
{
    match spot {
        Spot::Begin if is_name_start(byte) => Spot::Name,
        Spot::Name if byte == EQUALS => Spot::ValueBegin,
        Spot::Name if is_name_byte(byte) => Spot::Name,
        Spot::ValueBegin | Spot::Value if byte == COLON => Spot::ValueBegin,
        Spot::ValueBegin | Spot::Value => Spot::Value,
        Spot::Begin | Spot::Name | Spot::Elsewhere | Spot::Between => Spot::Elsewhere,
    }
}

/// The spot behind quotes, a quoted byte or an expansion.
fn spot_past(spot: Spot) -> Spot
    ensures { result ≡ spot_past spot }
{
    match spot {
        Spot::ValueBegin | Spot::Value => Spot::Value,
        Spot::Begin | Spot::Name | Spot::Elsewhere | Spot::Between => Spot::Elsewhere,
    }
}
