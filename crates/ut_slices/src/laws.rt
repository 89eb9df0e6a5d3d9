//! What the first and the last lines of a text are, in laws: each is the contract of a function that does nothing.
#![tactic(auto, using(crate::proofs::PartLemmas::part_laws, crate::proofs::LastLemmas::last_laws))]

ghost use Rattle.std.specs.Prelude.{◌≡◌, ◌∷◌, ◌++◌, [], ℕ, List, true};
ghost use Rattle.ps_lines.specs.Lines.{is_cutlist};
ghost use Rattle.ut_args.specs.declared.commands.Unit.{Unit as Units};
ghost use Rattle.ut_slices.specs.Ends.{first_lines, last};

/// The first lines of a text that is cut at an end of lines are the first of the first lines of its parts.
pub fn first_lines_are_those_of_the_parts()
    ensures { (count : ℕ) (front back : List ℕ) → is_cutlist (front ∷ back ∷ []) ≡ true →
        first_lines count (front ++ back) ≡ first_lines count (first_lines count front ++ first_lines count back) }
{}

/// Its last lines are the last of the last lines of its parts, and so are its last bytes.
pub fn ends_are_those_of_the_parts()
    ensures { (unit : Units) (count : ℕ) (front back : List ℕ) → is_cutlist (front ∷ back ∷ []) ≡ true →
        last unit count (front ++ back) ≡ last unit count (last unit count front ++ last unit count back) }
{}
