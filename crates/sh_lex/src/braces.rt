//! Parameter expansions in braces (XCU 2.6.2).
ghost use Rattle.std.specs.Prelude.{◌≡◌, ◌∷◌};
ghost use Rattle.sh_lex.specs.Acts.{act_of};
ghost use Rattle.sh_lex.specs.Texts.{unspliced};
ghost use Rattle.sh_lex.specs.Braces.{quote_in_braces, backslash_in_braces, braces_at, in_braces, braces_word_at, in_brace_head};

use crate::acts::Step;
use crate::bytes::{BACKQUOTE, BACKSLASH, CLOSE_BRACE, DOLLAR, DOUBLE_QUOTE, QUOTE, TILDE};
use crate::dollars::after_dollar;
use crate::heads::{Head, brace_head};
use crate::parts::{Construct, Fault, Nest, Spelling};
use crate::quotes::single_quotes;
use crate::texts::{behind_backslash, behind_byte, front};

/// At the beginning of a `${ }` that opened where `left` bytes were left.
pub fn in_brace_head(nest: Nest, left: usize, quoted: bool, text: &[u8]) -> Step<'_>
    ensures { act_of result ≡ in_brace_head nest left quoted text.now }
{
    match brace_head(text) {
        Head::Whole(_, _, rest) => Step::Ends(rest),
        Head::WithWord(_, by, rest) => in_word(nest, left, quoted && !by.trims(), rest),
        Head::NoForm => in_braces(nest, left, quoted, text),
    }
}

/// In a `${ }` that opened where `left` bytes were left, behind its beginning.
pub fn in_braces(nest: Nest, left: usize, quoted: bool, text: &[u8]) -> Step<'_>
    ensures { act_of result ≡ in_braces nest left quoted text.now }
{
    match front(text) {
        Some((byte, rest)) => braces_at(nest, left, quoted, byte, rest),
        None => Step::Offends(Fault::UnclosedBrace(left)),
    }
}

/// At the word behind an operator.
fn in_word(nest: Nest, left: usize, quoted: bool, text: &[u8]) -> Step<'_>
    ensures { act_of result ≡ braces_word_at nest left quoted (unspliced text.now) }
{
    match front(text) {
        Some((byte, rest)) => word_at(nest, left, quoted, byte, rest),
        None => Step::Offends(Fault::UnclosedBrace(left)),
    }
}

/// At the first byte of that word.
fn word_at(nest: Nest, left: usize, quoted: bool, byte: u8, rest: &[u8]) -> Step<'_>
    ensures { act_of result ≡ braces_word_at nest left quoted (byte ∷ rest.now) }
{
    if byte == TILDE && !quoted {
        return Step::Offends(Fault::Spelled(Spelling::Tilde, rest.len() + 1));
    }
    braces_at(nest, left, quoted, byte, rest)
}

/// At a byte behind the beginning.
fn braces_at(nest: Nest, left: usize, quoted: bool, byte: u8, rest: &[u8]) -> Step<'_>
    ensures { act_of result ≡ braces_at nest left quoted (byte ∷ rest.now) }
{
    let part = Construct::Braces(nest, left, quoted);
    match byte {
        CLOSE_BRACE => Step::Ends(rest),
        BACKQUOTE => Step::Offends(Fault::Spelled(Spelling::Backquote, rest.len() + 1)),
        DOLLAR => after_dollar(nest, quoted, rest.len() + 1, part, rest),
        DOUBLE_QUOTE => Step::Enters(Construct::DoubleQuotes(nest, rest.len() + 1), part, rest),
        QUOTE => quote(nest, left, quoted, rest),
        BACKSLASH => backslash(nest, left, quoted, rest),
        _ => Step::Goes(part, rest),
    }
}

/// Behind a single quote.
fn quote(nest: Nest, left: usize, quoted: bool, rest: &[u8]) -> Step<'_>
    ensures { act_of result ≡ quote_in_braces nest left quoted rest.now }
{
    let part = Construct::Braces(nest, left, quoted);
    if quoted {
        Step::Goes(part, rest)
    } else {
        single_quotes(rest.len() + 1, part, rest)
    }
}

/// Behind a backslash.
fn backslash(nest: Nest, left: usize, quoted: bool, rest: &[u8]) -> Step<'_>
    ensures { act_of result ≡ backslash_in_braces nest left quoted rest.now }
{
    let part = Construct::Braces(nest, left, quoted);
    if quoted {
        Step::Goes(part, behind_backslash(true, rest))
    } else {
        Step::Goes(part, behind_byte(rest))
    }
}
