//! The option letters of a command.
ghost use Rattle.std.specs.Prelude.{◌≡◌};
ghost use Rattle.ut_options.specs.Rows.{is_among as is_among_def, row_of, takes};

/// The option letters of a command. Every byte may be one.
#[derive(Clone, Copy, Debug)]
pub struct Letters {
    /// Those without an argument.
    pub plain: &'static [u8],
    /// Those with an argument.
    pub valued: &'static [u8],
    /// Whether a word of `-` and digits alone is a count, as the argument of `-n` (own).
    pub counts: bool,
}

/// What an option letter takes.
#[derive(Clone, Copy, Debug, PartialEq, Eq)]
pub(crate) enum Takes {
    /// No argument.
    Nothing,
    /// An argument.
    Argument,
    /// The command has no such letter.
    Unlisted,
}

impl Letters {
    /// What a letter takes.
    pub(crate) fn takes(&self, letter: u8) -> Takes
        ensures { result ≡ takes (row_of self.now) letter }
    {
        if is_among(self.plain, letter) {
            return Takes::Nothing;
        }
        if is_among(self.valued, letter) {
            return Takes::Argument;
        }
        Takes::Unlisted
    }
}

/// Whether the byte is one of the letters.
pub(crate) fn is_among(letters: &[u8], letter: u8) -> bool
    ensures { result ≡ is_among_def letters.now letter }
{
    letters.contains(&letter)
}
