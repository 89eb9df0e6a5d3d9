//! Whether tokens make an expression.
//!
//! It goes over the tokens once, and keeps the parentheses and question marks that are open: a text may nest deeper than
//! calls should, and is judged all the same.

ghost use Rattle.std.specs.Prelude.{◌≡◌, ◌∷◌, ◌↔◌, [], map, reverse, Some, None, IsTrue, IfOk, OnOk, MatchOption};
ghost use Rattle.sh_arith.specs.Tokens.{meaning};
ghost use Rattle.sh_arith.specs.Trees.{Tree, Reads};
ghost use Rattle.sh_arith.specs.Syntax.{accepts, next_state, begun, continued, closed_paren, closed_question, may_end};

use crate::operators::Operator;
use crate::tokens::{Symbol, Token};
use ps_lines::Memory;
use std::alloc::Global;

/// What may come next.
#[derive(Clone, Copy, Debug, PartialEq, Eq)]
pub(crate) enum Expected {
    /// An expression of any kind, an assignment too.
    Anything,
    Operand,
    /// What follows a name at which an assignment may begin.
    AfterName,
    /// What follows an operand.
    AfterOperand,
}

/// What is open.
#[derive(Clone, Copy, Debug, PartialEq, Eq)]
pub(crate) enum Bracket {
    Paren,
    Question,
}

/// Whether the tokens make an expression.
pub(crate) fn is_expression(alloc: Global, tokens: &[Token<'_>]) -> Result<bool, Memory>
    ensures { IfOk result (λ holds. IsTrue holds
        ↔ ((tree : Tree) × Reads (map meaning tokens.now) tree)) }
{
    is_accepted(alloc, tokens)
}

/// Whether each token may follow those before it, and nothing is open at their end.
fn is_accepted(alloc: Global, tokens: &[Token<'_>]) -> Result<bool, Memory>
    ensures { IfOk result (λ holds. holds ≡ accepts Expected.Anything [] (map meaning tokens.now)) }
{
    let mut brackets = Vec::new(alloc);
    let mut expected = Expected::Anything;
    for token in tokens {
        match next_state(expected, *token, &mut brackets)? {
            Some(next) => expected = next,
            None => return Ok(false),
        }
    }
    Ok(may_end(expected, brackets.as_slice()))
}

/// Whether the tokens may end here.
fn may_end(expected: Expected, brackets: &[Bracket]) -> bool
    ensures { result ≡ may_end expected (reverse brackets.now) }
{
    match expected {
        Expected::AfterName | Expected::AfterOperand => brackets.is_empty(),
        Expected::Anything | Expected::Operand => false,
    }
}

/// What may come after this token, with the brackets that are open then, the innermost last. None: it can't stand here.
fn next_state(
    expected: Expected,
    token: Token<'_>,
    brackets: &mut Vec<Bracket>,
) -> Result<Option<Expected>, Memory>
    ensures { IfOk result (λ next. MatchOption next
        (next_state expected (reverse brackets.old.items) (meaning token.entry) ≡ None)
        (λ state. next_state expected (reverse brackets.old.items) (meaning token.entry)
        ≡ Some (state, reverse brackets.new.items))) }
{
    match (expected, token) {
        (Expected::Anything, Token::Name(_)) => Ok(Some(Expected::AfterName)),
        (Expected::Operand, Token::Name(_)) => Ok(Some(Expected::AfterOperand)),
        (Expected::Anything | Expected::Operand, Token::Number(_)) => Ok(Some(
            Expected::AfterOperand,
        )),
        (Expected::Anything | Expected::Operand, Token::Symbol(symbol)) => begun(symbol, brackets),
        (Expected::AfterName, Token::Symbol(Symbol::Assign)) => Ok(Some(Expected::Anything)),
        (Expected::AfterName | Expected::AfterOperand, Token::Symbol(symbol)) => continued(
            symbol, brackets,
        ),
        (Expected::AfterName | Expected::AfterOperand, _) => Ok(None),
    }
}

/// The same for a symbol where an operand is expected.
fn begun(symbol: Symbol, brackets: &mut Vec<Bracket>) -> Result<Option<Expected>, Memory>
    ensures { IfOk result (λ next. MatchOption next
        (begun (reverse brackets.old.items) symbol ≡ None)
        (λ state. begun (reverse brackets.old.items) symbol ≡ Some (state, reverse brackets.new.items))) }
{
    match symbol {
        Symbol::OpenParen => {
            open_bracket(Bracket::Paren, brackets)?;
            Ok(Some(Expected::Anything))
        }
        Symbol::Complement | Symbol::Not => Ok(Some(Expected::Operand)),
        Symbol::Operator(Operator::Add | Operator::Subtract) => Ok(Some(Expected::Operand)),
        _ => Ok(None),
    }
}

/// The same for a symbol after an operand, where no assignment may begin.
fn continued(symbol: Symbol, brackets: &mut Vec<Bracket>) -> Result<Option<Expected>, Memory>
    ensures { IfOk result (λ next. MatchOption next
        (continued None (reverse brackets.old.items) symbol ≡ None)
        (λ state. continued None (reverse brackets.old.items) symbol ≡ Some (state, reverse brackets.new.items))) }
{
    match symbol {
        Symbol::Operator(_) => Ok(Some(Expected::Operand)),
        Symbol::Question => {
            open_bracket(Bracket::Question, brackets)?;
            Ok(Some(Expected::Anything))
        }
        Symbol::Colon => Ok(closed_question(brackets)),
        Symbol::CloseParen => Ok(closed_paren(brackets)),
        Symbol::Assign | Symbol::Complement | Symbol::Not | Symbol::OpenParen => Ok(None),
    }
}

#[tactic(auto, using(crate::proofs::BracketLemmas::top_first))]
fn open_bracket(bracket: Bracket, brackets: &mut Vec<Bracket>) -> Result<(), Memory>
    ensures { OnOk result (reverse brackets.new.items ≡ bracket ∷ reverse brackets.old.items) }
{
    brackets.push(bracket)?;
    Ok(())
}

#[tactic(auto, using(crate::proofs::BracketLemmas::top_first))]
fn closed_paren(brackets: &mut Vec<Bracket>) -> Option<Expected>
    ensures { MatchOption result
        (closed_paren (reverse brackets.old.items) ≡ None)
        (λ state. closed_paren (reverse brackets.old.items) ≡ Some (state, reverse brackets.new.items)) }
{
    match brackets.pop() {
        Some(Bracket::Paren) => Some(Expected::AfterOperand),
        _ => None,
    }
}

#[tactic(auto, using(crate::proofs::BracketLemmas::top_first))]
fn closed_question(brackets: &mut Vec<Bracket>) -> Option<Expected>
    ensures { MatchOption result
        (closed_question (reverse brackets.old.items) ≡ None)
        (λ state. closed_question (reverse brackets.old.items) ≡ Some (state, reverse brackets.new.items)) }
{
    match brackets.pop() {
        Some(Bracket::Question) => Some(Expected::Operand),
        _ => None,
    }
}
