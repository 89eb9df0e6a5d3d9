//! Why a script is not run, or not run further.
use ps_lines::Text;

/// Why a script is not run, or not run further. Offsets are in bytes, from the script's first.
///
/// Up to `ParameterForm` they come before anything has run; the others in the middle: what was written stays.
#[derive(Debug, PartialEq, Eq, Drop)]
pub enum Refusal {
    /// The quote at this offset isn't closed.
    UnclosedQuote(u32),
    /// The `${`, `$(` or `$((` at this offset isn't closed.
    UnclosedBrace(u32),
    /// This spelling, at this offset, isn't in the profile.
    OutOfProfile(Text, u32),
    /// The script has over 1,048,576 bytes.
    ScriptTooLong,
    /// The tokens are no script.
    BadSyntax,
    /// The 65th level of nesting opens at this offset.
    TooDeep(u32),
    /// The command at this offset has a command substitution beside an assigning expansion.
    SubstitutionMix(u32),
    /// The `${ }` at this offset has none of the forms of an expansion.
    ParameterForm(u32),
    /// No command has this name.
    UnknownCommand(Text),
    /// The command of this name has no such option letter.
    UnsupportedFlag(Text, u8),
    /// A command would write a path that it also reads, that it writes twice, or that an enclosing redirection holds: the path as written.
    PathBusy(Text),
    /// One turn more than a run may take would begin.
    TurnsOver,
    /// There are more fields than an expansion may have, or more file operands than a command may have.
    ArgsTooMany,
    /// This pattern of `grep` has a back-reference.
    UnsupportedPattern(Text),
}
