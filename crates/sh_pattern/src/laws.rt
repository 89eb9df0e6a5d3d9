//! What the definitions of a pattern and of a fit mean, told by laws.

ghost use Rattle.std.specs.Prelude.{◌≡◌, ◌∷◌, ◌++◌, ◌↔◌, List, ℕ, map};
ghost use Rattle.sh_pattern.specs.declared.elements.Element.{Element};
ghost use Rattle.sh_pattern.specs.declared.marks.Mark.{Mark};
ghost use Rattle.ps_world.specs.Files.{Files};
ghost use Rattle.ps_world.specs.Paths.{Components};
ghost use Rattle.sh_pattern.specs.Fits.{Fits};
ghost use Rattle.sh_pattern.specs.PathExpansion.{Expands};
ghost use Rattle.sh_pattern.specs.Reading.{Reads};

/// A pattern of ordinary bytes fits exactly their own text.
pub fn ordinary_bytes_fit_themselves()
    ensures { (bytes text : List ℕ) → Fits (map Element.Byte bytes) text ↔ (text ≡ bytes) }
{}

/// A star before a pattern fits exactly the texts of which the pattern fits an ending.
pub fn star_fits_every_ending()
    ensures { (pattern : List Element) (text : List ℕ) → Fits (Element.AnyString ∷ pattern) text
        ↔ ((passed : List ℕ) × (left : List ℕ) × (text ≡ passed ++ left) × Fits pattern left) }
{}

/// Every marked text reads as exactly one pattern.
pub fn a_text_reads_as_one_pattern()
    ensures some { (text : List Mark) → (pattern : List Element) × Reads text pattern }
    ensures only { (text : List Mark) (pattern other : List Element) → Reads text pattern → Reads text other → pattern ≡ other }
{}

/// Every marked text expands to some names, in all files and from every working directory.
pub fn a_text_expands_to_some_names()
    ensures { (files : Files) (home : Components) (text : List Mark) → (names : List (List ℕ)) × Expands files home text names }
{}
