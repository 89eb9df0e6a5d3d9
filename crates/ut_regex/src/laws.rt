//! Laws of the definitions that belong to no single call.
ghost use Rattle.std.specs.Prelude.{◌≡◌, ◌↔◌, ◌++◌, ◌∷◌, ℕ, Bool, true, List};
ghost use Rattle.std.specs.List.{list_any};
ghost use Rattle.ps_lines.specs.Lines.{lines};
ghost use Rattle.ut_regex.specs.Answers.{is_had};
ghost use Rattle.ut_regex.specs.Having.{CutsOut};
ghost use Rattle.ut_regex.specs.OneReading.{HasOneReading};
ghost use Rattle.ut_regex.specs.Same.{SameTree};
ghost use Rattle.ut_regex.specs.Several.{any_of};
ghost use Rattle.ut_regex.specs.Spans.{Has};
ghost use Rattle.ut_regex.specs.Tree.{Tree};

use crate::reading::first_fault;

/// Every text is an expression of exactly one tree or has exactly one first fault, and not both, as a basic expression and
/// as an extended one.
pub fn one_reading(basic: bool, text: &[u8])
    ensures { HasOneReading basic text.now }
{
    let _ = first_fault(basic, text);
}

/// Expressions that are the same are had by the same lines, so that the trees that a text reads as tell one answer for a line.
pub fn same_lines(line: &[u8])
    ensures { (fold whole : Bool) (re other : Tree) → SameTree re other → Has fold whole line.now re → Has fold whole line.now other }
{
    let _ = line;
}

/// What is answered for a line is whether it has the expression.
pub fn lines_are_answered()
    ensures { (fold whole : Bool) (re : Tree) (line : List ℕ) → (is_had fold whole re line ≡ true) ↔ Has fold whole line re }
{}

/// A line has one of several expressions, sought together, where it has some of them.
pub fn some_expression_is_had()
    ensures { (fold whole : Bool) (trees : List Tree) (line : List ℕ) → is_had fold whole (any_of trees) line ≡ list_any (λ re. is_had fold whole re line) trees }
{}

/// The lines of a text out of which a line is cut are those before it, the line itself, and those behind it.
#[tactic(auto, using(crate::proofs::HavingLemmas::lines_cut))]
pub fn lines_around_a_cut()
    ensures { (text before line rest : List ℕ) → CutsOut text before line rest → lines text ≡ lines before ++ line ∷ lines rest }
{}
