//! What the arguments of `test` ask: an answer that the words give, or what is at one place.

ghost use Rattle.std.specs.Prelude.{◌≡◌, ◌&&◌, ℕ, List};
ghost use Rattle.ps_lines.specs.Texts.{texts_of};
ghost use Rattle.ps_world.specs.declared.places.Place.{Place};
ghost use Rattle.ut_args.specs.Operators.{binary_of as binary_of_def, is_not as is_not_def, unary_of as unary_of_def};
ghost use Rattle.ut_test.specs.Questions.{answered, hangs};
ghost use Rattle.ut_test.specs.Tests.{asks_a_file, compared as compared_def, four_arguments as four_arguments_def, looks, looks_in_three, negated_by as negated_by_def, one_argument as one_argument_def, opposite as opposite_def, tested_by, three_arguments as three_arguments_def, two_arguments as two_arguments_def};
ghost use Rattle.ut_options.specs.Numbers.{number_of as number_of_def};

use crate::operators::holds;
use crate::outcomes::{Tested, answer, opposite};
use ut_args::{Asked, Binary, Relation, Unary, binary_of, is_not, unary_of};
use ut_options::number_of;

/// What arguments ask.
#[derive(Clone, Copy, Debug)]
pub(crate) enum Question<'a> {
    /// Nothing: the words give the answer.
    Known(Tested),
    /// Whether the place that the path names is what is asked, or isn't where `negated` holds.
    Look {
        asked: Asked,
        path: &'a [u8],
        negated: bool,
    },
}

/// What these arguments ask, by their number.
pub(crate) fn question_of(args: &[Vec<u8>]) -> Question<'_>
    ensures answer { (places : List ℕ → Place) → answered places result ≡ tested_by places (texts_of args.now) }
    ensures hangs { hangs result ≡ asks_a_file (texts_of args.now) }
{
    match args {
        [] => Question::Known(Tested::No),
        [word] => Question::Known(one_argument(word.as_slice())),
        [operator, operand] => two_arguments(operator.as_slice(), operand.as_slice()),
        [left, operator, right] => {
            three_arguments(left.as_slice(), operator.as_slice(), right.as_slice())
        }
        [word, left, operator, right] => four_arguments(
            word.as_slice(),
            left.as_slice(),
            operator.as_slice(),
            right.as_slice(),
        ),
        _ => Question::Known(Tested::BadUsage),
    }
}

/// The answer to one argument: whether it has a byte.
fn one_argument(word: &[u8]) -> Tested
    ensures { result ≡ one_argument_def word.now }
{
    match word {
        [] => Tested::No,
        [..] => Tested::Yes,
    }
}

/// What an operator and its operand ask.
fn two_arguments<'a>(operator: &[u8], operand: &'a [u8]) -> Question<'a>
    ensures answer { (places : List ℕ → Place) → answered places result ≡ two_arguments_def places operator.now operand.now }
    ensures hangs { hangs result ≡ looks (unary_of_def operator.now) }
{
    match unary_of(operator) {
        Some(Unary::HasBytes) => Question::Known(one_argument(operand)),
        Some(Unary::Not | Unary::IsEmpty) => Question::Known(opposite(one_argument(operand))),
        Some(Unary::At(asked)) => Question::Look {
            asked,
            path: operand,
            negated: false,
        },
        None => Question::Known(Tested::BadUsage),
    }
}

/// What three arguments ask: an operator between two operands, else `!` before the others.
fn three_arguments<'a>(left: &[u8], operator: &[u8], right: &'a [u8]) -> Question<'a>
    ensures answer { (places : List ℕ → Place) → answered places result ≡ three_arguments_def places left.now operator.now right.now }
    ensures hangs { hangs result ≡ looks_in_three (binary_of_def operator.now) left.now operator.now }
{
    match binary_of(operator) {
        Some(Binary::Same) => Question::Known(answer(left == right)),
        Some(Binary::Differ) => Question::Known(answer(left != right)),
        Some(Binary::Compare(how)) => Question::Known(compared(how, left, right)),
        None => negated_by(left, two_arguments(operator, right)),
    }
}

/// What four arguments ask: `!` before three.
fn four_arguments<'a>(word: &[u8], left: &[u8], operator: &[u8], right: &'a [u8]) -> Question<'a>
    ensures answer { (places : List ℕ → Place) → answered places result ≡ four_arguments_def places word.now left.now operator.now right.now }
    ensures hangs { hangs result ≡ (is_not_def word.now && looks_in_three (binary_of_def operator.now) left.now operator.now) }
{
    negated_by(word, three_arguments(left, operator, right))
}

/// The answer to a comparison of the numbers that two texts spell.
fn compared(how: Relation, left: &[u8], right: &[u8]) -> Tested
    ensures { result ≡ compared_def how (number_of_def left.now) (number_of_def right.now) }
{
    match (number_of(left), number_of(right)) {
        (Some(left), Some(right)) => answer(holds(how, left.cmp(&right))),
        _ => Tested::BadUsage,
    }
}

/// What a word asks before arguments that ask this: the opposite where it is `!`.
fn negated_by<'a>(word: &[u8], question: Question<'a>) -> Question<'a>
    ensures answer { (places : List ℕ → Place) → answered places result ≡ negated_by_def word.now (answered places question.entry) }
    ensures hangs { hangs result ≡ (is_not_def word.now && hangs question.entry) }
{
    if is_not(word) {
        opposite_of(question)
    } else {
        Question::Known(Tested::BadUsage)
    }
}

/// The question whose answer is the opposite.
fn opposite_of(question: Question<'_>) -> Question<'_>
    ensures answer { (places : List ℕ → Place) → answered places result ≡ opposite_def (answered places question.entry) }
    ensures hangs { hangs result ≡ hangs question.entry }
{
    match question {
        Question::Known(answer) => Question::Known(opposite(answer)),
        Question::Look {
            asked,
            path,
            negated,
        } => Question::Look {
            asked,
            path,
            negated: !negated,
        },
    }
}
