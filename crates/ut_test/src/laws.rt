//! What the definitions mean, told by laws.

ghost use Rattle.std.specs.Prelude.{◌≡◌, ◌≤◌, ◌<◌, ◌+◌, ◌-◌, ◌^◌, ◌++◌, ◌∷◌, [], List, ℕ, Some, None, true, false, not, length, filter, replicate, codes, decimal, pos, neg_ℤ};
ghost use Rattle.std.specs.List.{concat, list_any};
ghost use Rattle.ps_world.specs.declared.places.Place.{Place};
ghost use Rattle.ut_test.specs.Fields.{fields_read, is_in, is_white, IsTrimmed};
ghost use Rattle.ut_options.specs.Numbers.{number_of};
ghost use Rattle.ut_args.specs.Operators.{binary_of};
ghost use Rattle.ut_test.specs.Tests.{opposite, tested_by};

/// `!` before arguments gives the opposite of their answer, and leaves bad usage as it is: before none, one and three of them always,
/// and before two where the first is no operator between two operands.
pub fn not_gives_the_opposite()
    ensures none { (places : List ℕ → Place) → tested_by places (codes "!" ∷ []) ≡ opposite (tested_by places []) }
    ensures one { (places : List ℕ → Place) (word : List ℕ) →
        tested_by places (codes "!" ∷ word ∷ []) ≡ opposite (tested_by places (word ∷ [])) }
    ensures two { (places : List ℕ → Place) (operator operand : List ℕ) → binary_of operator ≡ None →
        tested_by places (codes "!" ∷ operator ∷ operand ∷ []) ≡ opposite (tested_by places (operator ∷ operand ∷ [])) }
    ensures three { (places : List ℕ → Place) (left operator right : List ℕ) →
        tested_by places (codes "!" ∷ left ∷ operator ∷ right ∷ []) ≡ opposite (tested_by places (left ∷ operator ∷ right ∷ [])) }
{}

/// A number in decimal is read as itself, with a plus sign too, and behind a minus sign as its opposite.
pub fn numbers_in_decimal_are_read()
    ensures plain { (number : ℕ) → number < 2 ^ 63 → number_of (decimal number) ≡ Some (pos number) }
    ensures plus { (number : ℕ) → number < 2 ^ 63 → number_of (43 ∷ decimal number) ≡ Some (pos number) }
    ensures minus { (number : ℕ) → number ≤ 2 ^ 63 → number_of (45 ∷ decimal number) ≡ Some (neg_ℤ (pos number)) }
{}

/// A line has exactly as many fields as there are names.
pub fn there_is_a_field_for_each_name()
    ensures { (ifs line : List ℕ) (names : ℕ) → 1 ≤ names → length (fields_read ifs line names) ≡ names }
{}

/// Nothing of a line is lost but bytes of IFS: its other bytes are those of the fields, in their order.
pub fn only_bytes_of_ifs_are_dropped()
    ensures { (ifs line : List ℕ) (names : ℕ) →
        filter (λ byte. not (is_in ifs byte)) (concat (fields_read ifs line names)) ≡ filter (λ byte. not (is_in ifs byte)) line }
{}

/// A line without bytes of IFS is the first field, and the others are empty.
pub fn a_line_without_bytes_of_ifs_is_the_first_field()
    ensures { (ifs line : List ℕ) (names : ℕ) → list_any (is_in ifs) line ≡ false → 1 ≤ names →
        fields_read ifs line names ≡ line ∷ replicate (names - 1) [] }
{}

/// One name gets the line without the white space of IFS at its ends, and with all else.
pub fn one_name_gets_the_line()
    ensures { (ifs line : List ℕ) → (field : List ℕ) × (fields_read ifs line 1 ≡ field ∷ []) × IsTrimmed (is_white (is_in ifs)) line field }
{}

/// Where fields end, for two names and more: bytes that aren't in IFS are a field up to a byte of IFS that isn't white space, and up to
/// white space before a byte that isn't in IFS; and white space before a line changes nothing.
pub fn bytes_of_ifs_end_fields()
    ensures ender { (ifs field rest : List ℕ) (byte names : ℕ) → 1 ≤ names → list_any (is_in ifs) field ≡ false →
        is_in ifs byte ≡ true → is_white (is_in ifs) byte ≡ false →
        fields_read ifs (field ++ byte ∷ rest) (names + 1) ≡ field ∷ fields_read ifs rest names }
    ensures white { (ifs field rest : List ℕ) (first byte next names : ℕ) → 1 ≤ names → list_any (is_in ifs) (first ∷ field) ≡ false →
        is_white (is_in ifs) byte ≡ true → is_in ifs next ≡ false →
        fields_read ifs (first ∷ field ++ byte ∷ next ∷ rest) (names + 1) ≡ (first ∷ field) ∷ fields_read ifs (next ∷ rest) names }
    ensures before { (ifs line : List ℕ) (byte names : ℕ) → is_white (is_in ifs) byte ≡ true →
        fields_read ifs (byte ∷ line) names ≡ fields_read ifs line names }
{}
