//! Bytes of a word, each with the mark that says whether it is quoted.

ghost use Rattle.std.specs.Prelude.{◌≡◌, ◌∷◌, [], ◌<◌, length, Some, None, MatchOption, IfSome};
ghost use Rattle.sh_pattern.specs.Marks.{is_unquoted, past};

/// A byte of a word, after quote removal has been decided and before it is done.
#[derive(Clone, Copy, Debug, PartialEq, Eq)]
pub struct Mark {
    pub byte: u8,
    /// A quoted byte is ordinary: it stands for itself alone (XCU 2.13.1).
    pub quoted: bool,
}

/// Whether the mark is this byte, unquoted.
pub(crate) fn is_unquoted(mark: Mark, byte: u8) -> bool
    ensures { result ≡ is_unquoted byte mark }
{
    !mark.quoted && mark.byte == byte
}

/// The first mark and those that follow it.
pub(crate) fn front(text: &[Mark]) -> Option<(Mark, &[Mark])>
    ensures { MatchOption result (text.now ≡ []) (λ r. text.now ≡ r.0 ∷ r.1.now) }
{
    match text {
        [] => None,
        [first, rest @ ..] => Some((*first, rest)),
    }
}

/// What follows this byte where the text begins with it, unquoted.
pub(crate) fn past(byte: u8, text: &[Mark]) -> Option<&[Mark]>
    ensures past { MatchOption result
        (past byte text.now ≡ None)
        (λ rest. past byte text.now ≡ Some rest.now) }
    ensures shorter { IfSome result (λ rest. length rest.now < length text.now) }
{
    let (first, rest) = front(text)?;
    if is_unquoted(first, byte) {
        Some(rest)
    } else {
        None
    }
}
