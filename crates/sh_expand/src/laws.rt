//! Laws of the definitions that belong to no single call.
ghost use Rattle.std.specs.Prelude.{◌≡◌, ◌⊎◌, ◌∷◌, [], ℕ, Bool, List, map, true, false};
ghost use Rattle.std.specs.List.{list_any};
ghost use Rattle.ps_world.specs.Files.{Files};
ghost use Rattle.ps_world.specs.Paths.{Components};
ghost use Rattle.sh_arith.specs.Variables.{Variables};
ghost use Rattle.sh_tree.specs.Trees.{WordTree, no_part, part, plain};
ghost use Rattle.sh_expand.specs.Given.{Given};
ghost use Rattle.sh_expand.specs.Marks.{bare, begins_pattern};
ghost use Rattle.sh_expand.specs.MarkedTexts.{MarkedText};
ghost use Rattle.sh_expand.specs.Parameters.{as_fields};
ghost use Rattle.sh_expand.specs.Splitting.{split};
ghost use Rattle.sh_expand.specs.Fields.{AreFields, Pass, PatternIn, Stop, TextGives, TextStops, IsMeant};
ghost use Rattle.sh_expand.specs.Outcomes.{WordsAreExpanded};
ghost use Rattle.sh_expand.specs.Laws.{bytes_of_fields, IsPartOf};

use crate::faults::ExpandFault;

/// Words have one outcome at most: their fields, or their first fault, each with the variables then. Where they have more fields than
/// they may, there is no such fault.
///
/// So `expand` tells a fault exactly where the words have it, but for want of memory and a tree that fails: a fault that it tells is
/// theirs, and where they have one it gives no fields and tells no other.
pub fn words_have_one_outcome()
    ensures fields { (files : Files) (home : Components) (given : Given) (before after later : Variables) (words : List WordTree) (fields others : List (List ℕ))
        → AreFields files home given before words fields after → AreFields files home given before words others later → (fields ≡ others) × (after ≡ later) }
    ensures fault { (given : Given) (before after later : Variables) (words : List WordTree) (fault other : ExpandFault)
        → Stop given before words fault after → Stop given before words other later → IsMeant fault → IsMeant other → (fault ≡ other) × (after ≡ later) }
    ensures either { (files : Files) (home : Components) (given : Given) (before after later : Variables) (words : List WordTree) (fields : List (List ℕ)) (fault : ExpandFault)
        → AreFields files home given before words fields after → Stop given before words fault later → IsMeant fault → ⊥ }
    ensures passed { (given : Given) (before after later : Variables) (words : List WordTree) (fault : ExpandFault)
        → Pass given before words after → Stop given before words fault later → IsMeant fault → ⊥ }
    ensures too_many { (given : Given) (before after later : Variables) (words : List WordTree) (fault : ExpandFault)
        → Stop given before words ExpandFault.ArgsTooMany after → Stop given before words fault later → IsMeant fault → ⊥ }
    ensures pattern { (given : Given) (before after later : Variables) (words : List WordTree) (found other : Bool)
        → PatternIn given before words found after → PatternIn given before words other later → (found ≡ other) × (after ≡ later) }
{}

/// A word of which nothing is split has one text at most, or one fault.
pub fn a_word_has_one_text()
    ensures text { (given : Given) (before after later : Variables) (word : WordTree) (text other : List ℕ)
        → TextGives given before word text after → TextGives given before word other later → (text ≡ other) × (after ≡ later) }
    ensures fault { (given : Given) (before after later : Variables) (word : WordTree) (fault other : ExpandFault)
        → TextStops given before word fault after → TextStops given before word other later → IsMeant fault → IsMeant other → (fault ≡ other) × (after ≡ later) }
    ensures either { (given : Given) (before after later : Variables) (word : WordTree) (text : List ℕ) (fault : ExpandFault)
        → TextGives given before word text after → TextStops given before word fault later → IsMeant fault → ⊥ }
{}

/// Words have an outcome: their fields, or the first fault that they mean, each with the variables then. So has a word of which nothing is
/// split: a text or a fault. By the two laws before it is the only one.
pub fn words_have_an_outcome()
    ensures fields { (files : Files) (home : Components) (given : Given) (before : Variables) (words : List WordTree)
        → ((fields : List (List ℕ)) × (after : Variables) × AreFields files home given before words fields after)
        ⊎ ((fault : ExpandFault) × (after : Variables) × Stop given before words fault after × IsMeant fault) }
    ensures passed { (given : Given) (before : Variables) (words : List WordTree)
        → ((after : Variables) × Pass given before words after)
        ⊎ ((fault : ExpandFault) × (after : Variables) × Stop given before words fault after × IsMeant fault) }
    ensures text { (given : Given) (before : Variables) (word : WordTree)
        → ((text : List ℕ) × (after : Variables) × TextGives given before word text after)
        ⊎ ((fault : ExpandFault) × (after : Variables) × TextStops given before word fault after × IsMeant fault) }
{}

/// What words mean is a function of what is given, of the variables, and of the files and the working directory where names are looked
/// up: meanings that take it as given are told of something.
pub fn words_are_expanded()
    ensures { WordsAreExpanded }
{}

/// `"$@"` gives exactly the arguments, each a field of its own, whatever is in them and in IFS.
pub fn arguments_are_fields()
    ensures { (ifs : List ℕ) (arguments : List (List ℕ)) → map bare (split ifs (as_fields true arguments)) ≡ arguments }
{}

/// Field splitting never invents a byte: those of the fields stand among those of the word, in their order.
pub fn splitting_invents_nothing()
    ensures { (ifs : List ℕ) (marks : MarkedText) → IsPartOf (bytes_of_fields (split ifs marks)) (bare marks) }
{}

/// A word of bytes outside quotes, with none that begins a pattern, is a field as it is written; no variable changes.
pub fn a_plain_word_is_itself()
    ensures { (files : Files) (home : Components) (given : Given) (variables : Variables) (first : ℕ) (rest : List ℕ)
        → list_any begins_pattern (first ∷ rest) ≡ false
        → AreFields files home given variables (part (plain (first ∷ rest)) no_part ∷ []) ((first ∷ rest) ∷ []) variables }
{}
