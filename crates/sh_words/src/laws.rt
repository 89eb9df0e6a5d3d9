//! Laws of the definitions that belong to no single call.
ghost use Rattle.std.specs.Prelude.{◌≡◌, ℕ, List};
ghost use Rattle.std.specs.List.{range_with_len};
ghost use Rattle.sh_tree.specs.Numbering.{word_numbers};
ghost use Rattle.sh_words.specs.Words.{WordOutcome, ReadsWord, ReadsAssign, HasOneOutcome};

/// Every list of bytes, read as a word, has exactly one tree, and one first `${` without a form or none.
pub fn one_outcome(bytes: &[u8], first: u32)
    ensures { HasOneOutcome (ReadsWord first bytes.now) }
{
    let _ = bytes;
    let _ = first;
}

/// So it is with the value of an assignment.
pub fn one_outcome_of_an_assignment(bytes: &[u8], first: u32)
    ensures { HasOneOutcome (ReadsAssign first bytes.now) }
{
    let _ = bytes;
    let _ = first;
}

/// The command substitutions of a word are numbered from its first number on, each once, in the order of the text; and so are those of
/// the value of an assignment.
pub fn substitutions_are_numbered()
    ensures word { (first : ℕ) (bytes : List ℕ) (outcome : WordOutcome) → ReadsWord first bytes outcome
        → word_numbers outcome.tree ≡ range_with_len first outcome.subs }
    ensures value { (first : ℕ) (bytes : List ℕ) (outcome : WordOutcome) → ReadsAssign first bytes outcome
        → word_numbers outcome.tree ≡ range_with_len first outcome.subs }
{}
