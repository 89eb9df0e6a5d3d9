//! Laws of the definitions that belong to no single call.
ghost use Rattle.std.specs.Prelude.{◌≡◌, ◌≢◌, ℕ, List, Err};
ghost use Rattle.sh_arith.specs.Trees.{Tree};
ghost use Rattle.sh_arith.specs.Variables.{Variables};
ghost use Rattle.sh_arith.specs.Values.{Outcome};
ghost use Rattle.sh_arith.specs.Arithmetic.{Writes, HasOutcome};

use crate::faults::ArithFault;

/// A text writes at most one expression. Over each variables it has an outcome, no other, and want of memory is none.
pub fn one_outcome()
    ensures tree { (text : List ℕ) (tree other : Tree) → Writes text tree → Writes text other → tree ≡ other }
    ensures some { (text : List ℕ) (variables : Variables) → (outcome : Outcome) × HasOutcome text variables outcome }
    ensures only { (text : List ℕ) (variables : Variables) (outcome other : Outcome)
        → HasOutcome text variables outcome → HasOutcome text variables other → outcome ≡ other }
    ensures no_memory { (text : List ℕ) (variables : Variables) (outcome : Outcome)
        → HasOutcome text variables outcome → outcome.0 ≢ Err ArithFault.Memory }
{}
