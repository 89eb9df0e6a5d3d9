//! Tokens of an expression (XCU 2.6.4), each as long as it can be.

ghost use Rattle.std.specs.Prelude.{◌≡◌, ◌⊎◌, ◌<◌, ◌≤◌, List, length, map, Some, None, option_map, MatchOption, IfSome, IfOk, IfErr};
ghost use Rattle.sh_arith.specs.Tokens as tokens;
ghost use Rattle.sh_arith.specs.Tokens.{meaning, past_word, past_blanks, double, single, symbol_at, word, worded, next_token, Lexes};

use crate::constants::constant;
use crate::faults::ArithFault;
use crate::operators::Operator;
use ps_lines::{is_name_byte, is_white_space};
use std::alloc::Global;

/// A token that is no word.
#[derive(Clone, Copy, Debug, PartialEq, Eq)]
pub(crate) enum Symbol {
    /// A binary operator. `+` and `-` are unary ones too, where they stand before an operand.
    Operator(Operator),
    Complement,
    Not,
    Question,
    Colon,
    Assign,
    OpenParen,
    CloseParen,
}

/// A token. Words are the bytes of the text.
#[derive(Clone, Copy, Debug)]
pub(crate) enum Token<'a> {
    Number(&'a [u8]),
    Name(&'a [u8]),
    Symbol(Symbol),
}

/// The tokens of a text, or Syntax where it isn't made of tokens.
pub(crate) fn tokens<'a>(alloc: Global, text: &'a [u8]) -> Result<Vec<Token<'a>>, ArithFault>
    ensures read { IfOk result (λ found. Lexes text.now (map meaning found.items)) }
    ensures refused { IfErr result (λ fault. (fault ≡ ArithFault.Memory)
        ⊎ ((fault ≡ ArithFault.Syntax) × ((list : List tokens.Token) → Lexes text.now list → ⊥))) }
{
    let mut found = Vec::new(alloc);
    let mut rest = past_blanks(text);
    while !rest.is_empty() {
        let Some((token, left)) = next_token(rest) else {
            return Err(ArithFault::Syntax);
        };
        found.push(token)?;
        rest = past_blanks(left);
    }
    Ok(found)
}

/// What follows the white space that the text begins with.
fn past_blanks(text: &[u8]) -> &[u8]
    ensures past { result.now ≡ past_blanks text.now }
    ensures shorter { length result.now ≤ length text.now }
{
    let mut rest = text;
    while let Some((byte, left)) = rest.split_first() {
        if !is_white_space(*byte) {
            return rest;
        }
        rest = left;
    }
    rest
}

/// The token that the text begins with, and what follows it.
fn next_token(text: &[u8]) -> Option<(Token<'_>, &[u8])>
    ensures token { MatchOption result
        (next_token text.now ≡ None)
        (λ r. next_token text.now ≡ Some (meaning r.0, r.1.now)) }
    ensures shorter { IfSome result (λ r. length r.1.now < length text.now) }
{
    let (first, rest) = text.split_first()?;
    if is_name_byte(*first) {
        let (word, left) = split_word(text);
        return word_token(word, left);
    }
    let (symbol, left) = symbol_at(*first, rest)?;
    Some((Token::Symbol(symbol), left))
}

/// Two bytes that are one token.
#[tactic(auto, unfolding(crate::specs::Tokens::double))]
fn double(first: u8, second: u8) -> Option<Symbol>
    ensures { result ≡ double first second }
{
    match first {
        b'<' if second == b'<' => Some(Symbol::Operator(Operator::ShiftLeft)),
        b'>' if second == b'>' => Some(Symbol::Operator(Operator::ShiftRight)),
        b'<' if second == b'=' => Some(Symbol::Operator(Operator::LessOrEqual)),
        b'>' if second == b'=' => Some(Symbol::Operator(Operator::GreaterOrEqual)),
        b'=' if second == b'=' => Some(Symbol::Operator(Operator::Equal)),
        b'!' if second == b'=' => Some(Symbol::Operator(Operator::NotEqual)),
        b'&' if second == b'&' => Some(Symbol::Operator(Operator::And)),
        b'|' if second == b'|' => Some(Symbol::Operator(Operator::Or)),
        _ => None,
    }
}

/// A byte that is a token.
#[tactic(auto, unfolding(crate::specs::Tokens::single))]
fn single(byte: u8) -> Option<Symbol>
    ensures { result ≡ single byte }
{
    match byte {
        b'*' => Some(Symbol::Operator(Operator::Multiply)),
        b'/' => Some(Symbol::Operator(Operator::Divide)),
        b'%' => Some(Symbol::Operator(Operator::Remainder)),
        b'+' => Some(Symbol::Operator(Operator::Add)),
        b'-' => Some(Symbol::Operator(Operator::Subtract)),
        b'<' => Some(Symbol::Operator(Operator::Less)),
        b'>' => Some(Symbol::Operator(Operator::Greater)),
        b'&' => Some(Symbol::Operator(Operator::BitAnd)),
        b'^' => Some(Symbol::Operator(Operator::BitXor)),
        b'|' => Some(Symbol::Operator(Operator::BitOr)),
        b'~' => Some(Symbol::Complement),
        b'!' => Some(Symbol::Not),
        b'?' => Some(Symbol::Question),
        b':' => Some(Symbol::Colon),
        b'=' => Some(Symbol::Assign),
        b'(' => Some(Symbol::OpenParen),
        b')' => Some(Symbol::CloseParen),
        _ => None,
    }
}

/// The operator or parenthesis that begins with this byte, and what follows it.
fn symbol_at(first: u8, rest: &[u8]) -> Option<(Symbol, &[u8])>
    ensures symbol { MatchOption result
        (symbol_at first rest.now ≡ None)
        (λ r. symbol_at first rest.now ≡ Some (r.0, r.1.now)) }
    ensures shorter { IfSome result (λ r. length r.1.now ≤ length rest.now) }
{
    if let Some((second, left)) = rest.split_first() {
        if let Some(symbol) = double(first, *second) {
            return Some((symbol, left));
        }
    }
    let symbol = single(first)?;
    Some((symbol, rest))
}

/// The token that a word is, with what follows the word.
fn word_token<'a>(word: &'a [u8], rest: &'a [u8]) -> Option<(Token<'a>, &'a [u8])>
    ensures token { MatchOption result
        (worded word.now rest.now ≡ None)
        (λ r. worded word.now rest.now ≡ Some (meaning r.0, r.1.now)) }
    ensures rest { IfSome result (λ r. r.1.now ≡ rest.now) }
{
    match word.split_first() {
        None => None,
        Some((first, _)) => {
            if !first.is_ascii_digit() {
                return Some((Token::Name(word), rest));
            }
            match constant(word) {
                Some(_) => Some((Token::Number(word), rest)),
                None => None,
            }
        }
    }
}

/// The longest word that the text begins with, and what follows it.
fn split_word(text: &[u8]) -> (&[u8], &[u8])
    ensures word { result.0.now ≡ word text.now }
    ensures past { result.1.now ≡ past_word text.now }
{
    let rest = past_word(text);
    (&text[..text.len() - rest.len()], rest)
}

/// What follows the longest word that the text begins with.
fn past_word(text: &[u8]) -> &[u8]
    ensures past { result.now ≡ past_word text.now }
    ensures shorter { length result.now ≤ length text.now }
{
    let mut rest = text;
    while let Some((byte, left)) = rest.split_first() {
        if !is_name_byte(*byte) {
            return rest;
        }
        rest = left;
    }
    rest
}
