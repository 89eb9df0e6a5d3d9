//! What the text at a place does to the construct that is open there.
use crate::parts::{Construct, Fault};
use crate::tokens::TokenKind;

/// One step of a construct. The slice is what is left of the text behind it.
#[derive(Clone, Copy, Debug)]
pub enum Step<'a> {
    /// The construct goes on as this part.
    Goes(Construct, &'a [u8]),
    /// The first part opens in the construct, which goes on as the second one.
    Enters(Construct, Construct, &'a [u8]),
    /// The construct has ended.
    Ends(&'a [u8]),
    /// The text is refused.
    Offends(Fault),
}

/// What begins at a place where a token may begin. The slice is what is left of the text behind it.
#[derive(Clone, Copy, Debug)]
pub enum Lexeme<'a> {
    /// Nothing is left.
    Nothing,
    /// A blank or a comment.
    Gap(&'a [u8]),
    /// A `(`.
    Open(&'a [u8]),
    /// A `)`.
    Close(&'a [u8]),
    /// Another token that isn't a word.
    Token(TokenKind, &'a [u8]),
    /// A word.
    Word,
    /// The text is refused.
    Offence(Fault),
}
