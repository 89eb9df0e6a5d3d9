//! What it is to have a pattern, in laws: each is the contract of a function that does nothing.
#![tactic(auto)]

ghost use Rattle.std.specs.Prelude.{◌≡◌, ◌↔◌, ◌++◌, ℕ, Bool, List, false, true};
ghost use Rattle.ut_args.specs.declared.commands.Syntax.{Syntax};
ghost use Rattle.ut_regex.specs.Spans.{Has};
ghost use Rattle.ut_regex.specs.Tree.{Tree};
ghost use Rattle.ut_grep.specs.Patterns.{is_had_by, tree_of, IsPattern};

/// A line has a pattern of `-F` exactly where it is some bytes, the pattern, and some bytes.
pub fn bytes_are_found_where_they_stand()
    ensures { (pattern line : List ℕ) → (is_had_by false false (tree_of Syntax.Fixed pattern) line ≡ true)
        ↔ ((front : List ℕ) × (back : List ℕ) × (line ≡ front ++ (pattern ++ back))) }
{}

/// A pattern is found in a line where the line has the expression that the pattern is read as.
pub fn a_pattern_is_found_where_it_is_had()
    ensures { (form : Syntax) (pattern : List ℕ) (re : Tree) → IsPattern form pattern re → (fold whole : Bool) (line : List ℕ)
        → (is_had_by fold whole (tree_of form pattern) line ≡ true) ↔ Has fold whole line re }
{}
