//! What the order of lines and lines in order are, in laws: each is the contract of a function that does nothing.
#![tactic(auto, using(crate::proofs::OrderLemmas::order_laws))]

ghost use Rattle.std.specs.Prelude.{◌≡◌, ◌∷◌, ◌++◌, ℕ, List, [], true, false};
ghost use Rattle.std.specs.Cmp.{IsTotalOrder};
ghost use Rattle.std.specs.declared.cmp.Ordering.TheVariants.{Equal};
ghost use Rattle.ut_args.specs.declared.SortArgs.{SortArgs};
ghost use Rattle.ut_sort.specs.Keys.{keys_cmp, keys_in_force};
ghost use Rattle.ut_sort.specs.Order.{order_of, sorted_lines};
ghost use Rattle.ut_sort.specs.Merging.{merged};
ghost use Rattle.ut_sort.specs.Sort.{sort};
ghost use Rattle.ut_sort.specs.Sorted.{IsSorted};
ghost use Rattle.ps_lines.specs.Lines.{is_cutlist};

/// Of every two lines one is before the other or both are equal, the same seen from either, and what is before a line that is before
/// another is before that.
pub fn order_is_total()
    ensures { (args : SortArgs) → IsTotalOrder (order_of args) }
{}

/// Without `-u` only lines of the same bytes are equal; with `-u` those that no key tells apart.
pub fn equal_lines()
    ensures all { (args : SortArgs) → args.unique ≡ false → (one other : List ℕ) → order_of args one other ≡ Equal → one ≡ other }
    ensures unique { (args : SortArgs) → args.unique ≡ true → (one other : List ℕ)
        → order_of args one other ≡ keys_cmp args.separator (keys_in_force args.ordering args.keys) one other }
{}

/// The sorted lines are in order, and have of each set of equal lines all, or with `-u` the first one alone.
pub fn sorted_lines_are_in_order()
    ensures { (args : SortArgs) (texts : List (List ℕ)) → IsSorted (order_of args) args.unique texts (sorted_lines args texts) }
{}

/// No other list is: what sort writes doesn't hang on how it sorts.
pub fn no_other_list_is_sorted()
    ensures { (args : SortArgs) (texts list : List (List ℕ)) → IsSorted (order_of args) args.unique texts list → list ≡ sorted_lines args texts }
{}

/// The merge of two sorted lists is what sort makes of both one after the other.
pub fn merge_sorts()
    ensures { (args : SortArgs) (texts others : List (List ℕ))
        → merged (order_of args) args.unique (sorted_lines args texts) (sorted_lines args others) ≡ sorted_lines args (texts ++ others) }
{}

/// What sort makes of a text that is cut at an end of lines is the merge of what it makes of the two parts.
#[tactic(auto, using(crate::proofs::UtilityLemmas::sorts_parts))]
pub fn parts_are_merged()
    ensures { (args : SortArgs) (front back : List ℕ) → is_cutlist (front ∷ back ∷ []) ≡ true
        → (sort args).part (front ++ back) ≡ (sort args).aggregate ((sort args).part front) ((sort args).part back) }
{}
