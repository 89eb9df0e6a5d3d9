//! What invocations are, in laws: each is the contract of a function that does nothing.
ghost use Rattle.std.specs.Prelude.{◌≡◌, ◌-◌, ◌++◌, ℕ, List, Bool, Ok, length, take};
ghost use Rattle.ut_args.specs.Built.{is_built_by};
ghost use Rattle.ut_args.specs.Classes.{class_by, keeps_closed_by};
ghost use Rattle.ut_args.specs.Inputs.{emptied, operands_by, with_operands};
ghost use Rattle.ut_args.specs.Invocations.{words_of};
ghost use Rattle.ut_args.specs.Reading.{invocation};
ghost use Rattle.ut_args.specs.declared.commands.Command.{Command as Commands};

use crate::invocations::Inv;

/// An invocation is determined by its words.
#[tactic(auto, using(crate::proofs::CommandLemmas::determined))]
pub fn words_determine_the_invocation(one: &Inv, other: &Inv)
    ensures { words_of one.now ≡ words_of other.now → one.now ≡ other.now }
{}

/// Words with the empty text in place of operands ask for the same, of these operands; that is built, and has the class, as before.
#[tactic(auto, using(crate::proofs::OperandLemmas::operand_laws))]
pub fn operands_may_be_empty()
    ensures read { (words : List (List ℕ)) (asked : Commands) (flags : List Bool) → invocation words ≡ Ok asked →
        invocation (take (length words - length (operands_by asked)) words ++ emptied flags (operands_by asked)) ≡ Ok (with_operands (emptied flags (operands_by asked)) asked) }
    ensures built { (asked : Commands) (flags : List Bool) → is_built_by (with_operands (emptied flags (operands_by asked)) asked) ≡ is_built_by asked }
    ensures class { (asked : Commands) (flags : List Bool) → class_by (with_operands (emptied flags (operands_by asked)) asked) ≡ class_by asked }
    ensures closed { (asked : Commands) (flags : List Bool) → keeps_closed_by (with_operands (emptied flags (operands_by asked)) asked) ≡ keeps_closed_by asked }
{}
