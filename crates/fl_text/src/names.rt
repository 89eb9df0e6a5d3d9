//! The kinds of nodes by their names.
ghost use Rattle.std.specs.Prelude.{◌≡◌, find, nat_eq};
ghost use Rattle.std.specs.Cmp.Lexicographic.{pointwise};
ghost use Rattle.fl_text.specs.Names.{name_text};

/// A kind of node, as a graph's text names it.
#[derive(Clone, Copy, Debug, PartialEq, Eq)]
pub enum Name {
    Source,
    Text,
    Split,
    Map,
    Whole,
    Cat,
    Agg,
    Finish,
    Tee,
    Drain,
    Sink,
}

impl Name {
    ghost use Rattle.std.specs.Prelude.{◌≡◌};
    ghost use Rattle.fl_text.specs.Names.{name_of};

    /// All of them.
    const ALL: [Name; 11] = [
        Name::Source,
        Name::Text,
        Name::Split,
        Name::Map,
        Name::Whole,
        Name::Cat,
        Name::Agg,
        Name::Finish,
        Name::Tee,
        Name::Drain,
        Name::Sink,
    ];

    /// The name as the text has it.
    pub fn text(self) -> &'static [u8]
        ensures { result.now ≡ name_text self }
    {
        match self {
            Name::Source => b"source",
            Name::Text => b"text",
            Name::Split => b"split",
            Name::Map => b"map",
            Name::Whole => b"whole",
            Name::Cat => b"cat",
            Name::Agg => b"agg",
            Name::Finish => b"finish",
            Name::Tee => b"tee",
            Name::Drain => b"drain",
            Name::Sink => b"sink",
        }
    }

    /// The kind of this name, if one has it.
    #[tactic(auto, unfolding(crate::specs::Names::name_of))]
    pub fn named(text: &[u8]) -> Option<Name>
        ensures { result ≡ name_of text.now }
    {
        name_among(&Name::ALL, text)
    }
}

/// The first of these that has the name.
fn name_among(names: &[Name], text: &[u8]) -> Option<Name>
    ensures { result ≡ find (λ name. pointwise nat_eq (name_text name) text.now) names.now }
{
    for name in names {
        if name.text() == text {
            return Some(*name);
        }
    }
    None
}
