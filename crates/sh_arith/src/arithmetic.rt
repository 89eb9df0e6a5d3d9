//! The value of an arithmetic expression (XCU 2.6.4).

ghost use Rattle.std.specs.Prelude.{◌≡◌, ◌⊎◌, ℕ, List, map, Ok, Err, IfOk, IfErr};
ghost use Rattle.sh_arith.specs.Tokens.{meaning, Lexes};
ghost use Rattle.sh_arith.specs.Arithmetic.{HasOutcome, IsUnderWay};

use crate::evaluation::evaluate;
use crate::faults::ArithFault;
use crate::levels::{MAX_LEVELS, measure};
use crate::syntax::is_expression;
use crate::tokens::{Token, tokens};
use crate::variables::Env;
use std::alloc::Global;

/// The value of a text as an arithmetic expression over the variables, to which it may assign.
///
/// Syntax and Deep are told before anything is evaluated, Syntax first. After any other fault the variables have the
/// assignments that were evaluated before it.
pub fn arith(alloc: Global, text: &[u8], env: &mut Env) -> Result<i64, ArithFault>
    ensures value { IfOk result (λ value. HasOutcome text.now env.old (Ok value, env.new)) }
    ensures fault { IfErr result (λ fault. HasOutcome text.now env.old (Err fault, env.new)
        ⊎ ((fault ≡ ArithFault.Memory) × IsUnderWay text.now env.old env.new)) }
{
    let found = tokens(alloc, text)?;
    value_of(alloc, found.as_slice(), env)
}

/// The same of the tokens that the text is made of.
fn value_of(alloc: Global, tokens: &[Token<'_>], env: &mut Env) -> Result<i64, ArithFault>
    ensures value { (text : List ℕ) → Lexes text (map meaning tokens.now)
        → IfOk result (λ value. HasOutcome text env.old (Ok value, env.new)) }
    ensures fault { (text : List ℕ) → Lexes text (map meaning tokens.now)
        → IfErr result (λ fault. HasOutcome text env.old (Err fault, env.new)
        ⊎ ((fault ≡ ArithFault.Memory) × IsUnderWay text env.old env.new)) }
{
    if tokens.is_empty() {
        return Ok(0);
    }
    if !is_expression(alloc, tokens)? {
        return Err(ArithFault::Syntax);
    }
    if measure(tokens, MAX_LEVELS).is_none() {
        return Err(ArithFault::Deep);
    }
    Ok(evaluate(alloc, tokens, env)?.value)
}
