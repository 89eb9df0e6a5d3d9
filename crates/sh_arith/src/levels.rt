//! How deep expressions nest, and where they end.
//!
//! Each call takes tokens that begin with an expression, and the levels that there is room for. It answers the expression's
//! levels and the tokens after it, or none where there are more. So no call goes deeper than the room.

ghost use Rattle.std.specs.Prelude.{◌≡◌, ◌<◌, ◌≤◌, ◌+◌, ◌∷◌, max, List, length, map, IfSome};
ghost use Rattle.sh_arith.specs.Tokens as text;
ghost use Rattle.sh_arith.specs.Tokens.{meaning, mark};
ghost use Rattle.sh_arith.specs.Trees.{Tree, operator_level};
ghost use Rattle.sh_arith.specs.Parsing.{IsAny, IsTighter, IsOperand};
ghost use Rattle.sh_arith.specs.Levels.{levels, Measures};

use crate::operators::Operator;
use crate::parsing::{ASSIGNMENT, Step, assigned, next_step, operator_level, past, prefix_of};
use crate::tokens::{Symbol, Token};

/// The levels that an expression may have.
pub const MAX_LEVELS: u32 = 64;

/// Measures an expression of any kind.
#[cycle(levels)]
pub(crate) fn measure<'t, 'a>(tokens: &'t [Token<'a>], room: u32) -> Option<(u32, &'t [Token<'a>])>
    ensures measured { (tree : Tree) (rest : List text.Token) → IsAny (map meaning tokens.now) tree rest → Measures room (levels tree) rest result }
    ensures within { IfSome result (λ found. found.0 ≤ room) }
    ensures shorter { IfSome result (λ found. length found.1.now < length tokens.now) }
{
    match assigned(tokens) {
        Some((_, value)) => measure_inside(value, room),
        None => measure_tighter(ASSIGNMENT, tokens, room),
    }
}

/// Measures an expression whose operators bind tighter than `bound`.
#[cycle(levels)]
pub(crate) fn measure_tighter<'t, 'a>(
    bound: u32,
    tokens: &'t [Token<'a>],
    room: u32,
) -> Option<(u32, &'t [Token<'a>])>
    ensures measured { (tree : Tree) (rest : List text.Token) → IsTighter bound (map meaning tokens.now) tree rest → Measures room (levels tree) rest result }
    ensures within { IfSome result (λ found. found.0 ≤ room) }
    ensures shorter { IfSome result (λ found. length found.1.now < length tokens.now) }
{
    let (mut levels, mut rest) = measure_operand(tokens, room)?;
    while let Some((step, left)) = next_step(bound, rest) {
        (levels, rest) = match step {
            Step::Operator(operator) => measure_right(operator, levels, left, room)?,
            Step::Question => measure_sides(levels, left, room)?,
        };
    }
    Some((levels, rest))
}

/// Measures an operand.
#[cycle(levels)]
fn measure_operand<'t, 'a>(tokens: &'t [Token<'a>], room: u32) -> Option<(u32, &'t [Token<'a>])>
    ensures measured { (tree : Tree) (rest : List text.Token) → IsOperand (map meaning tokens.now) tree rest → Measures room (levels tree) rest result }
    ensures within { IfSome result (λ found. found.0 ≤ room) }
    ensures shorter { IfSome result (λ found. length found.1.now < length tokens.now) }
{
    let (token, rest) = tokens.split_first()?;
    match *token {
        Token::Number(_) => Some((0, rest)),
        Token::Name(_) => Some((0, rest)),
        Token::Symbol(Symbol::OpenParen) => {
            let (levels, rest) = measure_inside(rest, room)?;
            Some((levels, past(Symbol::CloseParen, rest)?))
        }
        Token::Symbol(symbol) => {
            prefix_of(symbol)?;
            let (levels, rest) = measure_operand(rest, room.checked_sub(1)?)?;
            Some((levels + 1, rest))
        }
    }
}

/// Measures an expression of any kind, and counts the level round it.
#[cycle(levels)]
fn measure_inside<'t, 'a>(tokens: &'t [Token<'a>], room: u32) -> Option<(u32, &'t [Token<'a>])>
    ensures measured { (tree : Tree) (rest : List text.Token) → IsAny (map meaning tokens.now) tree rest → Measures room (levels tree + 1) rest result }
    ensures within { IfSome result (λ found. found.0 ≤ room) }
    ensures shorter { IfSome result (λ found. length found.1.now < length tokens.now) }
{
    let (levels, rest) = measure(tokens, room.checked_sub(1)?)?;
    Some((levels + 1, rest))
}

/// Measures an operator's two sides, of which the left one has so many levels.
#[cycle(levels)]
fn measure_right<'t, 'a>(
    operator: Operator,
    left: u32,
    tokens: &'t [Token<'a>],
    room: u32,
) -> Option<(u32, &'t [Token<'a>])>
    requires { left ≤ room }
    ensures measured { (tree : Tree) (rest : List text.Token) → IsTighter (operator_level operator) (map meaning tokens.now) tree rest
        → Measures room (max left (levels tree)) rest result }
    ensures within { IfSome result (λ found. found.0 ≤ room) }
    ensures shorter { IfSome result (λ found. length found.1.now < length tokens.now) }
{
    let (right, rest) = measure_tighter(operator_level(operator), tokens, room)?;
    Some((left.max(right), rest))
}

/// Measures a `?:`, of which the condition has so many levels, and the tokens are those after its `?`.
#[cycle(levels)]
fn measure_sides<'t, 'a>(
    condition: u32,
    tokens: &'t [Token<'a>],
    room: u32,
) -> Option<(u32, &'t [Token<'a>])>
    ensures measured { (chosen other : Tree) (middle rest : List text.Token) → IsAny (map meaning tokens.now) chosen (mark Symbol.Colon ∷ middle)
        → IsTighter 12 middle other rest → Measures room (max condition (max (levels chosen) (levels other)) + 1) rest result }
    ensures within { IfSome result (λ found. found.0 ≤ room) }
    ensures shorter { IfSome result (λ found. length found.1.now < length tokens.now) }
{
    let inside = room.checked_sub(1)?;
    if inside < condition {
        return None;
    }
    let (chosen, rest) = measure(tokens, inside)?;
    let (other, rest) = measure_tighter(ASSIGNMENT, past(Symbol::Colon, rest)?, inside)?;
    Some((condition.max(chosen).max(other) + 1, rest))
}
