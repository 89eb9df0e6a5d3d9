//! Refusals of the grammar.

/// Why items are no script.
#[derive(Clone, Copy, Debug, PartialEq, Eq)]
pub enum SyntaxRefusal {
    /// No script goes on so.
    BadSyntax,
    /// A level too many opens at this offset.
    TooDeep(u32),
}

/// Why there is no script.
#[derive(Clone, Copy, Debug, PartialEq, Eq)]
pub enum GrammarRefusal {
    /// The items are refused.
    Refused(SyntaxRefusal),
    /// Memory was wanted and refused.
    Memory,
}
