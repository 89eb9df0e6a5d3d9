//! Refusals that come before anything runs.
use ps_lines::{Memory, Text};

/// A refusal of the script's text. The first four and `TooDeep` come from the tokens, the others from the grammar.
#[derive(Debug, Drop)]
pub enum Static {
    /// The quote at this offset isn't closed.
    UnclosedQuote(u32),
    /// The `${`, `$(` or `$((` at this offset isn't closed.
    UnclosedBrace(u32),
    /// This spelling, at this offset, isn't in the profile.
    OutOfProfile(Text, u32),
    /// The script has over 1,048,576 bytes.
    ScriptTooLong,
    /// The tokens are no script.
    BadSyntax,
    /// The 65th level of nesting opens at this offset.
    TooDeep(u32),
    /// The command at this offset has a command substitution beside an assigning expansion.
    SubstitutionMix(u32),
    /// The `${ }` at this offset has none of the forms of an expansion.
    ParameterForm(u32),
}

/// Why there are no tokens.
#[derive(Debug, Drop)]
pub enum LexRefusal {
    /// The script is refused.
    Refused(Static),
    /// Memory was wanted and refused.
    Memory,
}

impl From<Memory> for LexRefusal {
    ghost use Rattle.std.specs.Prelude.{◌≡◌};
    ghost use Rattle.sh_lex.specs.declared.refusals.LexRefusal.TheVariants as lex;

    ghost from_gives = { λ _ refusal. refusal ≡ lex.Memory };

    fn from(_refused: Memory) -> LexRefusal {
        LexRefusal::Memory
    }
}
