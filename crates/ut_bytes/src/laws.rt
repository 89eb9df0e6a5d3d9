//! What squeezing is, in laws: each is the contract of a function that does nothing.
#![tactic(auto, using(crate::proofs::SqueezeLemmas::squeeze_laws))]

ghost use Rattle.std.specs.Prelude.{◌≡◌, ◌++◌, ℕ, List, Bool, None};
ghost use Rattle.ut_bytes.specs.Steps.{squeezed_behind};

/// A text squeezed is its parts squeezed, joined and squeezed once more, wherever it is cut.
pub fn a_text_is_squeezed_by_its_parts()
    ensures { (set : ℕ → Bool) (front back : List ℕ) →
        squeezed_behind None set (front ++ back) ≡ squeezed_behind None set (squeezed_behind None set front ++ squeezed_behind None set back) }
{}
