//! Words and their parts (XCU 2.6).
use ps_lines::Text;

/// A word: its parts, in order.
///
/// Bytes that follow one another with the same quoting are one part, whatever quotes they come from. An empty quoted part
/// stands only where no other quoted part is beside it.
#[derive(Debug, Drop)]
#[cycle(word)]
pub struct Word {
    /// The parts.
    pub parts: Vec<Part>,
}

/// A part of a word.
#[derive(Debug, Drop)]
#[cycle(word)]
pub enum Part {
    /// Bytes that aren't quoted.
    Plain(Text),
    /// Bytes that are quoted.
    Quoted(Text),
    /// A parameter expansion (XCU 2.6.2).
    Param {
        /// The parameter.
        what: Param,
        /// The form.
        form: Form,
        /// Whether it stands in double quotes.
        quoted: bool,
    },
    /// A command substitution (XCU 2.6.3), by its number among those of the command, in text order from 0.
    Sub {
        /// The number.
        number: u32,
        /// Whether it stands in double quotes.
        quoted: bool,
    },
    /// An arithmetic expansion (XCU 2.6.4).
    Arith {
        /// The parts of its text: bytes are plain, and expansions are marked quoted.
        parts: Vec<Part>,
        /// Whether it stands in double quotes.
        quoted: bool,
    },
}

/// A parameter (XCU 2.5, narrowed).
#[derive(Debug, Drop)]
pub enum Param {
    /// A variable's name.
    Name(Text),
    /// An argument, counted from 1; 0 is `$0`.
    Place(u32),
    /// `@`
    At,
    /// `*`
    Star,
    /// `#`
    Count,
    /// `?`
    Status,
}

/// The form of a parameter expansion (XCU 2.6.2). `colon`: an empty parameter counts as unset.
#[derive(Debug, Drop)]
#[cycle(word)]
pub enum Form {
    /// `$x`, `${x}`
    Plain,
    /// `${#x}`
    Length,
    /// `${x:-word}`, `${x-word}`
    Default {
        /// Whether there is a colon.
        colon: bool,
        /// The word.
        word: Word,
    },
    /// `${x:=word}`, `${x=word}`
    Assign {
        /// Whether there is a colon.
        colon: bool,
        /// The word.
        word: Word,
    },
    /// `${x:?word}`, `${x?word}`
    Check {
        /// Whether there is a colon.
        colon: bool,
        /// The word, where it isn't omitted.
        word: Option<Word>,
    },
    /// `${x:+word}`, `${x+word}`
    Alternate {
        /// Whether there is a colon.
        colon: bool,
        /// The word.
        word: Word,
    },
    /// `${x%word}`, `${x%%word}`
    CutSuffix {
        /// Whether the longest is removed.
        longest: bool,
        /// The pattern.
        word: Word,
    },
    /// `${x#word}`, `${x##word}`
    CutPrefix {
        /// Whether the longest is removed.
        longest: bool,
        /// The pattern.
        word: Word,
    },
}
