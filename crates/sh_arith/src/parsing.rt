//! What tokens come next, where an expression is read from the left.

ghost use Rattle.std.specs.Prelude.{◌≡◌, ◌<◌, ◌∷◌, ℕ, List, length, map, Some, None, MatchOption, IfSome};
ghost use Rattle.sh_arith.specs.Tokens as text;
ghost use Rattle.sh_arith.specs.Tokens.{meaning, name, mark};
ghost use Rattle.sh_arith.specs.Trees.{operator_level};
ghost use Rattle.sh_arith.specs.Syntax.{prefix_of};
ghost use Rattle.sh_arith.specs.Parsing.{NoAssignment, Stops, IsNotNext, GoesBy};

use crate::operators::{Operator, Prefix};
use crate::tokens::{Symbol, Token};

/// How loosely an assignment binds; what binds tighter is any other expression.
pub(crate) const ASSIGNMENT: u32 = 12;

/// What an expression goes on with.
#[derive(Clone, Copy, Debug, PartialEq, Eq)]
pub(crate) enum Step {
    Operator(Operator),
    Question,
}

/// The name of an assignment that comes next, and what follows its `=`.
pub(crate) fn assigned<'t, 'a>(tokens: &'t [Token<'a>]) -> Option<(&'a [u8], &'t [Token<'a>])>
    ensures name { MatchOption result
        (NoAssignment (map meaning tokens.now))
        (λ found. map meaning tokens.now ≡ name found.0.now ∷ (mark Symbol.Assign ∷ map meaning found.1.now)) }
    ensures shorter { IfSome result (λ found. length found.1.now < length tokens.now) }
{
    match tokens {
        [Token::Name(word), Token::Symbol(Symbol::Assign), rest @ ..] => Some((*word, rest)),
        _ => None,
    }
}

/// The operator that an expression goes on with, where it binds tighter than `bound`, and what follows it.
pub(crate) fn next_step<'t, 'a>(
    bound: u32,
    tokens: &'t [Token<'a>],
) -> Option<(Step, &'t [Token<'a>])>
    ensures step { MatchOption result
        (Stops bound (map meaning tokens.now))
        (λ found. GoesBy found.0 bound (map meaning tokens.now) (map meaning found.1.now)) }
    ensures shorter { IfSome result (λ found. length found.1.now < length tokens.now) }
{
    let (token, rest) = tokens.split_first()?;
    let Token::Symbol(symbol) = *token else {
        return None;
    };
    Some((step_of(bound, symbol)?, rest))
}

/// The operator that a symbol after an expression is, where it binds tighter than `bound`.
fn step_of(bound: u32, symbol: Symbol) -> Option<Step>
    ensures step { (rest : List text.Token) → MatchOption result
        (Stops bound (mark symbol ∷ rest))
        (λ step. GoesBy step bound (mark symbol ∷ rest) rest) }
{
    match symbol {
        Symbol::Operator(operator) => {
            if operator_level(operator) < bound {
                return Some(Step::Operator(operator));
            }
            None
        }
        Symbol::Question => {
            if ASSIGNMENT <= bound {
                return Some(Step::Question);
            }
            None
        }
        _ => None,
    }
}

/// What follows this symbol, where it comes next.
pub(crate) fn past<'t, 'a>(symbol: Symbol, tokens: &'t [Token<'a>]) -> Option<&'t [Token<'a>]>
    ensures past { MatchOption result
        (IsNotNext symbol (map meaning tokens.now))
        (λ rest. map meaning tokens.now ≡ mark symbol ∷ map meaning rest.now) }
    ensures shorter { IfSome result (λ rest. length rest.now < length tokens.now) }
{
    let (token, rest) = tokens.split_first()?;
    match *token {
        Token::Symbol(found) if found == symbol => Some(rest),
        _ => None,
    }
}

/// The unary operator that a symbol is.
pub(crate) fn prefix_of(symbol: Symbol) -> Option<Prefix>
    ensures { result ≡ prefix_of symbol }
{
    match symbol {
        Symbol::Operator(Operator::Add) => Some(Prefix::Plus),
        Symbol::Operator(Operator::Subtract) => Some(Prefix::Minus),
        Symbol::Complement => Some(Prefix::Complement),
        Symbol::Not => Some(Prefix::Not),
        _ => None,
    }
}

/// How loosely an operator binds: 1 is the tightest.
pub(crate) fn operator_level(operator: Operator) -> u32
    ensures { result ≡ operator_level operator }
{
    match operator {
        Operator::Multiply | Operator::Divide | Operator::Remainder => 1,
        Operator::Add | Operator::Subtract => 2,
        Operator::ShiftLeft | Operator::ShiftRight => 3,
        Operator::Less | Operator::LessOrEqual | Operator::Greater | Operator::GreaterOrEqual => 4,
        Operator::Equal | Operator::NotEqual => 5,
        Operator::BitAnd => 6,
        Operator::BitXor => 7,
        Operator::BitOr => 8,
        Operator::And => 9,
        Operator::Or => 10,
    }
}
