//! Evaluates expressions (XCU 2.6.4).
//!
//! Each call takes tokens that begin with an expression, and answers its value and the tokens after it. The expression is
//! known to be there, and to have no more levels than there may be: that was seen before anything is evaluated.

ghost use Rattle.std.specs.Prelude.{◌≡◌, ◌⊎◌, ◌<◌, ◌≤◌, ◌∷◌, List, length, map, IfOk, OnOk, OnErr, MatchResult};
ghost use Rattle.std.specs.FinMap as variables;
ghost use Rattle.sh_arith.specs.Tokens as text;
ghost use Rattle.sh_arith.specs.Tokens.{meaning, mark};
ghost use Rattle.sh_arith.specs.Trees.{Tree, assignment, operator_level};
ghost use Rattle.sh_arith.specs.Trees as trees;
ghost use Rattle.sh_arith.specs.Parsing.{IsAny, IsTighter, IsOperand};
ghost use Rattle.sh_arith.specs.Levels.{levels};
ghost use Rattle.sh_arith.specs.Values.{value_of, assigned_text, decided, operated, chosen_by, evaluate, Reaches};
ghost use Rattle.sh_arith.specs.Evaluation.{Ends, ReachesRight, ReachesSide};

use crate::constants::{constant_value, variable_value};
use crate::faults::ArithFault;
use crate::levels::{MAX_LEVELS, measure, measure_tighter};
use crate::operators::{Operator, Prefix, applied, prefixed};
use crate::parsing::{ASSIGNMENT, Step, assigned, next_step, operator_level, past, prefix_of};
use crate::tokens::{Symbol, Token};
use crate::variables::Env;
use ps_lines::{Memory, decimal};
use std::alloc::Global;

/// The value of an expression, and the tokens after it.
#[derive(Clone, Copy, Debug)]
pub(crate) struct Evaluated<'t, 'a> {
    pub value: i64,
    pub rest: &'t [Token<'a>],
}

/// Evaluates an expression of any kind.
#[cycle(evaluation)]
pub(crate) fn evaluate<'t, 'a>(
    alloc: Global,
    tokens: &'t [Token<'a>],
    env: &mut Env,
) -> Result<Evaluated<'t, 'a>, ArithFault>
    ensures value { (tree : Tree) (rest : List text.Token) → IsAny (map meaning tokens.now) tree rest → levels tree ≤ MAX_LEVELS
        → Ends (evaluate tree env.old) (Reaches tree env.old) rest env.new result }
    ensures shorter { IfOk result (λ found. length found.rest.now < length tokens.now) }
{
    match assigned(tokens) {
        Some((name, value)) => assign(alloc, name, value, env),
        None => evaluate_tighter(alloc, ASSIGNMENT, tokens, env),
    }
}

/// Evaluates an expression of any kind, and gives its value to a variable.
#[cycle(evaluation)]
fn assign<'t, 'a>(
    alloc: Global,
    name: &[u8],
    tokens: &'t [Token<'a>],
    env: &mut Env,
) -> Result<Evaluated<'t, 'a>, ArithFault>
    ensures value { (tree : Tree) (rest : List text.Token) → IsAny (map meaning tokens.now) tree rest → levels tree ≤ MAX_LEVELS
        → Ends (evaluate (assignment name.now tree) env.old) (Reaches tree env.old) rest env.new result }
    ensures shorter { IfOk result (λ found. length found.rest.now < length tokens.now) }
{
    let found = evaluate(alloc, tokens, env)?;
    set_number(alloc, name, found.value, env)?;
    Ok(found)
}

/// Evaluates an expression whose operators bind tighter than `bound`.
#[cycle(evaluation)]
fn evaluate_tighter<'t, 'a>(
    alloc: Global,
    bound: u32,
    tokens: &'t [Token<'a>],
    env: &mut Env,
) -> Result<Evaluated<'t, 'a>, ArithFault>
    ensures value { (tree : Tree) (rest : List text.Token) → IsTighter bound (map meaning tokens.now) tree rest → levels tree ≤ MAX_LEVELS
        → Ends (evaluate tree env.old) (Reaches tree env.old) rest env.new result }
    ensures shorter { IfOk result (λ found. length found.rest.now < length tokens.now) }
{
    let mut found = evaluate_operand(alloc, tokens, env)?;
    while let Some((step, left)) = next_step(bound, found.rest) {
        found = match step {
            Step::Operator(operator) => evaluate_right(alloc, operator, found.value, left, env)?,
            Step::Question => evaluate_side(alloc, found.value, left, env)?,
        };
    }
    Ok(found)
}

/// Evaluates an operand.
#[cycle(evaluation)]
fn evaluate_operand<'t, 'a>(
    alloc: Global,
    tokens: &'t [Token<'a>],
    env: &mut Env,
) -> Result<Evaluated<'t, 'a>, ArithFault>
    ensures value { (tree : Tree) (rest : List text.Token) → IsOperand (map meaning tokens.now) tree rest → levels tree ≤ MAX_LEVELS
        → Ends (evaluate tree env.old) (Reaches tree env.old) rest env.new result }
    ensures shorter { IfOk result (λ found. length found.rest.now < length tokens.now) }
{
    let Some((token, rest)) = tokens.split_first() else {
        return Err(ArithFault::Syntax);
    };
    match *token {
        Token::Number(word) => Ok(Evaluated {
            value: constant_value(word)?,
            rest,
        }),
        Token::Name(word) => Ok(Evaluated {
            value: value_of(alloc, word, env)?,
            rest,
        }),
        Token::Symbol(Symbol::OpenParen) => evaluate_parenthesized(alloc, rest, env),
        Token::Symbol(symbol) => {
            let prefix = prefix_of(symbol).ok_or(ArithFault::Syntax)?;
            evaluate_prefixed(alloc, prefix, rest, env)
        }
    }
}

/// Evaluates what parentheses are round. The tokens are those after the first.
#[cycle(evaluation)]
fn evaluate_parenthesized<'t, 'a>(
    alloc: Global,
    tokens: &'t [Token<'a>],
    env: &mut Env,
) -> Result<Evaluated<'t, 'a>, ArithFault>
    ensures value { (inner : Tree) (rest : List text.Token) → IsAny (map meaning tokens.now) inner (mark Symbol.CloseParen ∷ rest) → levels inner ≤ MAX_LEVELS
        → Ends (evaluate inner env.old) (Reaches inner env.old) rest env.new result }
    ensures shorter { IfOk result (λ found. length found.rest.now < length tokens.now) }
{
    let found = evaluate(alloc, tokens, env)?;
    Ok(Evaluated {
        value: found.value,
        rest: past(Symbol::CloseParen, found.rest).ok_or(ArithFault::Syntax)?,
    })
}

/// Evaluates the operand of a unary operator, and what that computes of it.
#[cycle(evaluation)]
fn evaluate_prefixed<'t, 'a>(
    alloc: Global,
    prefix: Prefix,
    tokens: &'t [Token<'a>],
    env: &mut Env,
) -> Result<Evaluated<'t, 'a>, ArithFault>
    ensures value { (inner : Tree) (rest : List text.Token) → IsOperand (map meaning tokens.now) inner rest → levels inner ≤ MAX_LEVELS
        → Ends (evaluate (trees.prefixed prefix inner) env.old) (Reaches inner env.old) rest env.new result }
    ensures shorter { IfOk result (λ found. length found.rest.now < length tokens.now) }
{
    let found = evaluate_operand(alloc, tokens, env)?;
    Ok(Evaluated {
        value: prefixed(prefix, found.value)?,
        rest: found.rest,
    })
}

/// What an operator computes of a value and of its right side, which is evaluated where the value doesn't decide.
#[cycle(evaluation)]
fn evaluate_right<'t, 'a>(
    alloc: Global,
    operator: Operator,
    left: i64,
    tokens: &'t [Token<'a>],
    env: &mut Env,
) -> Result<Evaluated<'t, 'a>, ArithFault>
    ensures value { (right : Tree) (rest : List text.Token) → IsTighter (operator_level operator) (map meaning tokens.now) right rest → levels right ≤ MAX_LEVELS
        → Ends (operated operator left env.old (evaluate right env.old)) (ReachesRight operator left right env.old) rest env.new result }
    ensures shorter { IfOk result (λ found. length found.rest.now < length tokens.now) }
{
    let bound = operator_level(operator);
    if let Some(value) = decided(operator, left) {
        return Ok(Evaluated {
            value,
            rest: skip_tighter(bound, tokens)?,
        });
    }
    let right = evaluate_tighter(alloc, bound, tokens, env)?;
    Ok(Evaluated {
        value: applied(operator, left, right.value)?,
        rest: right.rest,
    })
}

/// Evaluates the side of a `?:` that its condition chooses. The tokens are those after its `?`.
#[cycle(evaluation)]
fn evaluate_side<'t, 'a>(
    alloc: Global,
    condition: i64,
    tokens: &'t [Token<'a>],
    env: &mut Env,
) -> Result<Evaluated<'t, 'a>, ArithFault>
    ensures value { (chosen other : Tree) (middle rest : List text.Token) → IsAny (map meaning tokens.now) chosen (mark Symbol.Colon ∷ middle)
        → IsTighter 12 middle other rest → levels chosen ≤ MAX_LEVELS → levels other ≤ MAX_LEVELS
        → Ends (chosen_by condition (evaluate chosen env.old) (evaluate other env.old)) (ReachesSide condition chosen other env.old) rest env.new result }
    ensures shorter { IfOk result (λ found. length found.rest.now < length tokens.now) }
{
    if condition == 0 {
        let rest = past(Symbol::Colon, skip(tokens)?).ok_or(ArithFault::Syntax)?;
        return evaluate_tighter(alloc, ASSIGNMENT, rest, env);
    }
    let chosen = evaluate(alloc, tokens, env)?;
    let rest = past(Symbol::Colon, chosen.rest).ok_or(ArithFault::Syntax)?;
    Ok(Evaluated {
        value: chosen.value,
        rest: skip_tighter(ASSIGNMENT, rest)?,
    })
}

/// What follows an expression that isn't evaluated.
fn skip<'t, 'a>(tokens: &'t [Token<'a>]) -> Result<&'t [Token<'a>], ArithFault>
    ensures rest { (tree : Tree) (rest : List text.Token) → IsAny (map meaning tokens.now) tree rest → levels tree ≤ MAX_LEVELS
        → MatchResult result (λ left. map meaning left.now ≡ rest) (λ _. ⊥) }
    ensures shorter { IfOk result (λ left. length left.now < length tokens.now) }
{
    let (_, rest) = measure(tokens, MAX_LEVELS).ok_or(ArithFault::Deep)?;
    Ok(rest)
}

/// The same where its operators bind tighter than `bound`.
fn skip_tighter<'t, 'a>(bound: u32, tokens: &'t [Token<'a>]) -> Result<&'t [Token<'a>], ArithFault>
    ensures rest { (tree : Tree) (rest : List text.Token) → IsTighter bound (map meaning tokens.now) tree rest → levels tree ≤ MAX_LEVELS
        → MatchResult result (λ left. map meaning left.now ≡ rest) (λ _. ⊥) }
    ensures shorter { IfOk result (λ left. length left.now < length tokens.now) }
{
    let (_, rest) = measure_tighter(bound, tokens, MAX_LEVELS).ok_or(ArithFault::Deep)?;
    Ok(rest)
}

/// The value of `&&` and `||` where the left side decides it.
fn decided(operator: Operator, left: i64) -> Option<i64>
    ensures { result ≡ decided operator left }
{
    match operator {
        Operator::And if left == 0 => Some(0),
        Operator::Or if left != 0 => Some(1),
        _ => None,
    }
}

/// The value of a variable, 0 where it is unset.
fn value_of(alloc: Global, name: &[u8], env: &Env) -> Result<i64, ArithFault>
    ensures { MatchResult result
        (λ value. value_of name.now env.now ≡ Ok value)
        (λ fault. (fault ≡ ArithFault.Memory) ⊎ (value_of name.now env.now ≡ Err fault)) }
{
    match env.get(name) {
        Some(text) => variable_value(alloc, name, text),
        None => Ok(0),
    }
}

/// Sets a variable to a number in decimal.
fn set_number(alloc: Global, name: &[u8], value: i64, env: &mut Env) -> Result<(), Memory>
    ensures ok { OnOk result (env.new ≡ variables.insert env.old name.now (assigned_text value)) }
    ensures err { OnErr result (env.new ≡ env.old) }
{
    let text = number_text(alloc, value)?;
    env.set(alloc, name, text.as_slice())
}

/// A number in decimal, with a `-` where it is negative.
fn number_text(alloc: Global, value: i64) -> Result<Vec<u8>, Memory>
    ensures { IfOk result (λ text. text.items ≡ assigned_text value) }
{
    let mut text = Vec::new(alloc);
    if value < 0 {
        text.push(b'-')?;
    }
    decimal(value.unsigned_abs(), &mut text)?;
    Ok(text)
}
