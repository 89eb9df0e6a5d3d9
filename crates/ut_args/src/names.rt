//! The commands that there are, by their names.
ghost use Rattle.std.specs.Prelude.{◌≡◌, find, nat_eq};
ghost use Rattle.std.specs.Cmp.Lexicographic.{pointwise};
ghost use Rattle.ut_args.specs.Names.{name_text};

/// A command of the table: one of the eleven utilities, or one that the shell does itself.
#[derive(Clone, Copy, Debug, PartialEq, Eq)]
pub enum Name {
    Cat,
    Grep,
    Tr,
    Cut,
    Head,
    Tail,
    Wc,
    Uniq,
    Sort,
    Paste,
    Tee,
    True,
    False,
    /// `:`
    Colon,
    Break,
    Continue,
    Exit,
    Set,
    Shift,
    Unset,
    Read,
    Test,
    /// `[`
    Bracket,
    Echo,
}

impl Name {
    ghost use Rattle.std.specs.Prelude.{◌≡◌};
    ghost use Rattle.ut_args.specs.Names.{name_of};

    /// All of them.
    pub const ALL: [Name; 24] = [
        Name::Cat,
        Name::Grep,
        Name::Tr,
        Name::Cut,
        Name::Head,
        Name::Tail,
        Name::Wc,
        Name::Uniq,
        Name::Sort,
        Name::Paste,
        Name::Tee,
        Name::True,
        Name::False,
        Name::Colon,
        Name::Break,
        Name::Continue,
        Name::Exit,
        Name::Set,
        Name::Shift,
        Name::Unset,
        Name::Read,
        Name::Test,
        Name::Bracket,
        Name::Echo,
    ];

    /// The name as a script writes it.
    pub fn text(self) -> &'static [u8]
        ensures { result.now ≡ name_text self }
    {
        match self {
            Name::Cat => b"cat",
            Name::Grep => b"grep",
            Name::Tr => b"tr",
            Name::Cut => b"cut",
            Name::Head => b"head",
            Name::Tail => b"tail",
            Name::Wc => b"wc",
            Name::Uniq => b"uniq",
            Name::Sort => b"sort",
            Name::Paste => b"paste",
            Name::Tee => b"tee",
            Name::True => b"true",
            Name::False => b"false",
            Name::Colon => b":",
            Name::Break => b"break",
            Name::Continue => b"continue",
            Name::Exit => b"exit",
            Name::Set => b"set",
            Name::Shift => b"shift",
            Name::Unset => b"unset",
            Name::Read => b"read",
            Name::Test => b"test",
            Name::Bracket => b"[",
            Name::Echo => b"echo",
        }
    }

    /// The command that a word names; None where the table has none of this name.
    #[tactic(auto, unfolding(crate::specs::Names::name_of))]
    pub fn named(word: &[u8]) -> Option<Name>
        ensures { result ≡ name_of word.now }
    {
        name_among(&Name::ALL, word)
    }
}

/// The first of the names that the word is.
fn name_among(names: &[Name], word: &[u8]) -> Option<Name>
    ensures { result ≡ find (λ name. pointwise nat_eq (name_text name) word.now) names.now }
{
    for name in names {
        if name.text() == word {
            return Some(*name);
        }
    }
    None
}
