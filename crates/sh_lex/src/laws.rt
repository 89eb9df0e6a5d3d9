//! Laws of the definitions that belong to no single call.
ghost use Rattle.sh_lex.specs.Lexes.{HasOneReading};
ghost use Rattle.sh_lex.specs.Laws.{TokensAreInOrder, TokensStand, SubstitutionsEnd};

/// Every text has exactly one list of tokens or exactly one refusal, and not both.
pub fn one_reading(text: &[u8])
    ensures { HasOneReading text.now }
{
    let _ = text;
}

/// The tokens of a text stand in it one behind the other, and none is empty.
pub fn tokens_are_in_order(text: &[u8])
    ensures { TokensAreInOrder text.now }
{
    let _ = text;
}

/// Each token of a text is the longest that begins at its place, and only blanks, comments and removed backslash-newlines stand
/// between them.
pub fn tokens_stand_in_the_text(text: &[u8])
    ensures { TokensStand text.now }
{
    let _ = text;
}

/// A command substitution ends at a `)`, whatever stands behind that, and where fewer levels are open too. So what a whole text says
/// of its end holds in any part of the text that has it.
pub fn substitutions_end_by_themselves()
    ensures { SubstitutionsEnd }
{}
