//! The scan over a script.
ghost use Rattle.std.specs.Prelude.{◌≡◌, ℕ, ◌≤◌, ◌-◌, length, Ok, IfOk, IfErr};
ghost use Rattle.sh_lex.specs.Texts.{unspliced};
ghost use Rattle.sh_lex.specs.Lexes.{HasTokens, Tokens, token_between, spelled, told};
ghost use Rattle.sh_lex.specs.Inner.Lexing.{Advances, StopsAt};
ghost use Rattle.sh_lex.specs.Lexes.{Refuses};

mod marks;

use crate::acts::Lexeme;
use crate::operators::lexeme;
use crate::parts::{Construct, Fault, Nest, Spelling, Spot};
use crate::reading::{ScanStop, past_construct};
use crate::refusals::{LexRefusal, Static};
use crate::runs::{Class, run};
use crate::texts::front;
use crate::tokens::{Op, Token, TokenKind};
pub use marks::{Mark, read_marks};
use ps_lines::{Memory, Text};
use std::alloc::Global;

/// The most bytes that a script may have.
pub const MAX_SCRIPT: usize = 1_048_576;

/// The tokens of a script, in order.
///
/// A script that is too long is refused first, and else what is met at the least place. A construct that isn't closed is met
/// at the end of the script and told with the offset at which it opened, of several the innermost.
pub fn lex(alloc: Global, text: &[u8]) -> Result<Vec<Token>, LexRefusal>
    ensures tokens { IfOk result (λ tokens. HasTokens text.now tokens.items) }
    ensures refusal { IfErr result (λ refusal. Refuses text.now refusal) }
{
    if text.len() > MAX_SCRIPT {
        return Err(LexRefusal::Refused(Static::ScriptTooLong));
    }
    match tokens_of(alloc, text) {
        Ok(tokens) => Ok(tokens),
        Err(ScanStop::Refused(fault)) => match told(alloc, text, fault) {
            Ok(refusal) => Err(LexRefusal::Refused(refusal)),
            Err(_) => Err(LexRefusal::Memory),
        },
        Err(ScanStop::Memory) => Err(LexRefusal::Memory),
    }
}

/// The tokens of a script that isn't too long.
fn tokens_of(alloc: Global, text: &[u8]) -> Result<Vec<Token>, ScanStop>
    requires { length text.now ≤ MAX_SCRIPT }
    ensures tokens { IfOk result (λ tokens. Tokens (length text.now) text.now (Ok tokens.items)) }
    ensures refused { IfErr result (λ stop. StopsAt (length text.now) text.now stop) }
{
    let mut tokens = Vec::new(alloc);
    let mut rest = text;
    loop {
        match next_token(alloc, rest) {
            Ok(Next::End) => return Ok(tokens),
            Ok(Next::Gap(after)) => rest = after,
            Ok(Next::Token(kind, after)) => {
                let Ok(()) = tokens.push(token_between(text.len(), kind, rest, after)) else {
                    return Err(ScanStop::Memory);
                };
                rest = after;
            }
            Err(stop) => return Err(stop),
        }
    }
}

/// What begins at a place of the script. The slice is what is left of the script behind it.
enum Next<'a> {
    /// Nothing is left.
    End,
    /// A blank or a comment.
    Gap(&'a [u8]),
    /// A token.
    Token(TokenKind, &'a [u8]),
}

/// What begins at the text.
fn next_token(alloc: Global, text: &[u8]) -> Result<Next<'_>, ScanStop>
    ensures advances { IfOk result (λ next. Advances text.now next) }
    ensures refused { IfErr result (λ stop. (total : ℕ) → StopsAt total text.now stop) }
{
    match lexeme(text) {
        Lexeme::Nothing => Ok(Next::End),
        Lexeme::Gap(rest) => Ok(Next::Gap(rest)),
        Lexeme::Open(rest) => Ok(Next::Token(TokenKind::Op(Op::Open), rest)),
        Lexeme::Close(rest) => Ok(Next::Token(TokenKind::Op(Op::Close), rest)),
        Lexeme::Token(kind, rest) => Ok(Next::Token(kind, rest)),
        Lexeme::Word => match past_construct(alloc, ONE_WORD, text) {
            Ok(rest) => Ok(Next::Token(TokenKind::Word, rest)),
            Err(stop) => Err(stop),
        },
        Lexeme::Offence(fault) => Err(ScanStop::Refused(fault)),
    }
}

/// The word of one token, where no level is open.
const ONE_WORD: Construct = Construct::Commands(
    Nest {
        levels: 0,
        in_braces: false,
    },
    None,
    Spot::Begin,
);

/// The token from `before` up to `behind`, which are what is left of a script of `total` bytes.
fn token_between(total: usize, kind: TokenKind, before: &[u8], behind: &[u8]) -> Token
    requires { total ≤ MAX_SCRIPT }
    ensures { result ≡ token_between total kind before.now behind.now }
{
    let begun = match front(before) {
        Some((_, rest)) => rest.len() + 1,
        None => 0,
    };
    Token {
        kind,
        from: total.saturating_sub(begun) as u32,
        to: total.saturating_sub(behind.len()) as u32,
    }
}

/// How a fault is told to people: with its offset, and its spelling.
fn told(alloc: Global, text: &[u8], fault: Fault) -> Result<Static, Memory>
    requires { length text.now ≤ MAX_SCRIPT }
    ensures { IfOk result (λ refusal. refusal ≡ told text.now fault) }
{
    match fault {
        Fault::UnclosedQuote(left) => Ok(Static::UnclosedQuote(offset(text, left))),
        Fault::UnclosedBrace(left) => Ok(Static::UnclosedBrace(offset(text, left))),
        Fault::TooDeep(left) => Ok(Static::TooDeep(offset(text, left))),
        Fault::Spelled(spelling, left) => {
            let spelled = Text::copy_of(alloc, spelled(spelling))?;
            Ok(Static::OutOfProfile(spelled, offset(text, left)))
        }
        Fault::Number(left) => {
            let digits = run(
                alloc,
                Class::Digit,
                &text[text.len().saturating_sub(left)..],
            )?;
            let spelled = Text::copy_of(alloc, digits.as_slice())?;
            Ok(Static::OutOfProfile(spelled, offset(text, left)))
        }
    }
}

/// The offset at which `left` bytes of the script are left.
fn offset(text: &[u8], left: usize) -> u32
    requires { length text.now ≤ MAX_SCRIPT }
    ensures { result ≡ length text.now - left }
{
    text.len().saturating_sub(left) as u32
}

/// The bytes of a spelling that isn't in the profile.
fn spelled(spelling: Spelling) -> &'static [u8]
    ensures { result.now ≡ spelled spelling }
{
    match spelling {
        Spelling::And => b"&",
        Spelling::DoubleSemi => b";;",
        Spelling::DoubleLess => b"<<",
        Spelling::DoubleLessDash => b"<<-",
        Spelling::LessAnd => b"<&",
        Spelling::LessGreat => b"<>",
        Spelling::GreatPipe => b">|",
        Spelling::GreatAnd => b">&",
        Spelling::DollarDollar => b"$$",
        Spelling::DollarBang => b"$!",
        Spelling::DollarDash => b"$-",
        Spelling::Backquote => b"`",
        Spelling::Substitution => b"$(",
        Spelling::Tilde => b"~",
    }
}
