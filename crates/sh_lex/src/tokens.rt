//! Tokens and their kinds.

/// A control or redirection operator (XCU 2.10.2, narrowed).
#[derive(Clone, Copy, Debug, PartialEq, Eq)]
pub enum Op {
    /// `&&`
    AndIf,
    /// `||`
    OrIf,
    /// `;`
    Semi,
    /// `|`
    Pipe,
    /// `(`
    Open,
    /// `)`
    Close,
    /// `<`
    Less,
    /// `>`
    Great,
    /// `>>`
    DGreat,
    /// `>&`
    GreatAnd,
}

/// What a token is.
#[derive(Clone, Copy, Debug, PartialEq, Eq)]
pub enum TokenKind {
    /// Bytes that are neither of the others, with the quotes and expansions among them.
    Word,
    /// Digits directly before `<` or `>` (XCU 2.10.1).
    IoNumber,
    /// A newline.
    Newline,
    /// An operator.
    Op(Op),
}

/// A token, and where it stands in the script.
///
/// A token begins at its first byte and ends after its last byte that isn't part of a removed backslash-newline.
#[derive(Clone, Copy, Debug, PartialEq, Eq)]
pub struct Token {
    /// What it is.
    pub kind: TokenKind,
    /// The offset of its first byte.
    pub from: u32,
    /// The offset after its last byte.
    pub to: u32,
}
