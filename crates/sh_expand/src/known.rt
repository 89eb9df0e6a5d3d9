//! What an expansion is given, besides the variables.

ghost use Rattle.std.specs.Prelude.{◌≡◌};
ghost use Rattle.std.specs.Option.{option_copied, unwrap_or};
ghost use Rattle.sh_expand.specs.Given.{given_of, argument as argument_def, substituted as substituted_def};

/// What an expansion is given, besides the variables.
#[derive(Clone, Copy)]
pub(crate) struct Known<'a> {
    /// `$0`.
    pub zero: &'a [u8],
    /// The arguments, `$1` first.
    pub args: &'a [Vec<u8>],
    /// `$?`.
    pub status: u8,
    /// The texts of the command substitutions, in order.
    pub subs: &'a [Vec<u8>],
}

/// `$0`, or an argument, counted from 1.
#[tactic(auto, using(crate::proofs::ParameterLemmas::texts))]
pub(crate) fn argument<'a>(known: &Known<'a>, place: u32) -> Option<&'a [u8]>
    ensures { option_copied result ≡ argument_def (given_of known.now) place }
{
    if place == 0 {
        return Some(known.zero);
    }
    text_at(known.args, place as usize - 1)
}

/// The text of a command substitution, counted from 0.
pub(crate) fn substituted<'a>(known: &Known<'a>, number: u32) -> &'a [u8]
    ensures { result.now ≡ substituted_def (given_of known.now) number }
{
    match text_at(known.subs, number as usize) {
        Some(text) => text,
        None => b"",
    }
}

ghost use Rattle.std.specs.List.{slice_get};
ghost use Rattle.ps_lines.specs.Texts.{texts_of};

/// The text at this place, from 0.
#[tactic(auto, using(crate::proofs::ParameterLemmas::texts))]
fn text_at(texts: &[Vec<u8>], place: usize) -> Option<&[u8]>
    ensures { option_copied result ≡ slice_get (texts_of texts.now) place }
{
    match texts.get(place) {
        Some(text) => Some(text.as_slice()),
        None => None,
    }
}
