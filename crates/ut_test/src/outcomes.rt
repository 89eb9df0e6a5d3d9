//! Answers of `test`.

ghost use Rattle.std.specs.Prelude.{◌≡◌};
ghost use Rattle.ut_test.specs.Questions.{unless_negated as unless_negated_def};
ghost use Rattle.ut_test.specs.Tests.{answer as answer_def, opposite as opposite_def};

/// What `test` answers.
#[derive(Clone, Copy, Debug, PartialEq, Eq)]
pub enum Tested {
    Yes,
    No,
    /// The arguments are no test.
    BadUsage,
}

/// The answer to a question of yes or no.
pub(crate) fn answer(holds: bool) -> Tested
    ensures { result ≡ answer_def holds }
{
    if holds { Tested::Yes } else { Tested::No }
}

/// The answer of `!` before arguments that have this one.
pub(crate) fn opposite(answer: Tested) -> Tested
    ensures { result ≡ opposite_def answer }
{
    match answer {
        Tested::Yes => Tested::No,
        Tested::No => Tested::Yes,
        Tested::BadUsage => Tested::BadUsage,
    }
}

/// An answer, or its opposite where `negated` holds.
pub(crate) fn unless_negated(negated: bool, answer: Tested) -> Tested
    ensures { result ≡ unless_negated_def negated answer }
{
    if negated { opposite(answer) } else { answer }
}
