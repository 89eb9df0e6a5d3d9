//! What the grammar reads: tokens, with those of command substitutions at their place.
use sh_tree::{How, Join};

/// The levels of nesting that may be open at once: each compound command and each command substitution opens one.
pub const MAX_LEVELS: u32 = 64;

/// Where a token stands in the text.
#[derive(Clone, Copy, Debug, PartialEq, Eq)]
pub struct Span {
    /// The offset of its first byte.
    pub from: u32,
    /// The offset after its last byte.
    pub to: u32,
}

/// A reserved word (XCU 2.4). `case` and `esac` begin no command of the profile.
#[derive(Clone, Copy, Debug, PartialEq, Eq)]
pub enum Reserved {
    /// `!`
    Bang,
    /// `{`
    OpenBrace,
    /// `}`
    CloseBrace,
    /// `if`
    If,
    /// `then`
    Then,
    /// `elif`
    Elif,
    /// `else`
    Else,
    /// `fi`
    Fi,
    /// `while`
    While,
    /// `until`
    Until,
    /// `do`
    Do,
    /// `done`
    Done,
    /// `for`
    For,
    /// `case`
    Case,
    /// `esac`
    Esac,
}

/// What the bytes of a word allow it to be (XCU 2.10.2 rules 1, 5 to 7); where it stands decides what it is.
#[derive(Clone, Copy, Debug, PartialEq, Eq)]
pub enum WordKind {
    /// A reserved word without quotes.
    Reserved(Reserved),
    /// `in` without quotes.
    In,
    /// Another name without quotes.
    Name,
    /// A word that begins with an unquoted `NAME=`.
    Assign,
    /// Any other word.
    Other,
}

/// An item: a token, or an end of a command substitution. A word is followed by its substitutions, in text order, each
/// with its items between `SubOpen` and `SubClose`.
#[derive(Clone, Copy, Debug, PartialEq, Eq)]
pub enum Item {
    /// A word.
    Word(WordKind, Span),
    /// The number of a descriptor before a redirection operator, with its offset.
    IoNumber(u8, u32),
    /// A redirection operator, with its offset.
    Redirect(How, u32),
    /// A newline.
    Newline,
    /// `;`
    Semi,
    /// `&&` or `||`
    Join(Join),
    /// `|`
    Pipe,
    /// `(`, with its offset.
    Open(u32),
    /// `)`
    Close,
    /// The `$(` of a command substitution, with its offset.
    SubOpen(u32),
    /// The `)` of a command substitution.
    SubClose,
}
