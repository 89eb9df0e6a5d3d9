//! The constructs that can be open while a word is read, and what can be refused.

/// The levels of nesting that may be open at once.
pub const MAX_LEVELS: u32 = 64;

/// What a construct stands in.
#[derive(Clone, Copy, Debug)]
pub struct Nest {
    /// How many `$(`, `${` and `$((` are open.
    pub levels: u32,
    /// Whether one of them is a `${`.
    pub in_braces: bool,
}

/// How far a word has come, which decides where a `~` begins a tilde-prefix (XCU 2.6.1).
#[derive(Clone, Copy, Debug)]
pub enum Spot {
    /// Between two tokens of a `$( )`.
    Between,
    /// At the first byte of a word.
    Begin,
    /// All bytes so far are those of a name.
    Name,
    /// A value begins here: after the `=` of a leading `NAME=`, or after an unquoted `:` in its value.
    ValueBegin,
    /// In the value of a leading `NAME=`.
    Value,
    /// Anywhere else in a word.
    Elsewhere,
}

/// A construct that is open. An offset is told as the number of bytes that are left there, the byte at it included.
#[derive(Clone, Copy, Debug)]
pub enum Construct {
    /// The tokens of a `$( )`, with where it opened; with `None` the one word of a token.
    Commands(Nest, Option<usize>, Spot),
    /// The name of a `$name`.
    Name,
    /// Double quotes, with where they opened.
    DoubleQuotes(Nest, usize),
    /// The beginning of a `${ }`, with where it opened and whether it is in double quotes.
    BraceHead(Nest, usize, bool),
    /// The rest of a `${ }`, with where it opened and whether it is in double quotes.
    Braces(Nest, usize, bool),
    /// A `$(( ))`, with where it opened.
    Arithmetic(Nest, usize),
    /// Parentheses in a `$(( ))`, with where that opened.
    Parentheses(Nest, usize),
}

/// A spelling that isn't in the profile.
#[derive(Clone, Copy, Debug)]
pub enum Spelling {
    /// `&`
    And,
    /// `;;`
    DoubleSemi,
    /// `<<`
    DoubleLess,
    /// `<<-`
    DoubleLessDash,
    /// `<&`
    LessAnd,
    /// `<>`
    LessGreat,
    /// `>|`
    GreatPipe,
    /// `>&` before a word other than `1` or `2`.
    GreatAnd,
    /// `$$`
    DollarDollar,
    /// `$!`
    DollarBang,
    /// `$-`
    DollarDash,
    /// A backquote.
    Backquote,
    /// `$(` in a `${ }`.
    Substitution,
    /// A `~` that begins a tilde-prefix.
    Tilde,
}

/// What is refused, with the number of bytes that are left at its place.
#[derive(Clone, Copy, Debug)]
pub enum Fault {
    /// A quote that isn't closed.
    UnclosedQuote(usize),
    /// A `${`, `$(` or `$((` that isn't closed.
    UnclosedBrace(usize),
    /// A level too many.
    TooDeep(usize),
    /// A spelling that isn't in the profile.
    Spelled(Spelling, usize),
    /// An IoNumber that isn't in the profile.
    Number(usize),
}
