//! What lines and numbers are, in laws: each is the contract of a function that does nothing.
#![tactic(auto, using(crate::proofs::LineLemmas::line_laws, crate::proofs::NumberLemmas::number_laws))]

ghost use Rattle.std.specs.Prelude.{◌≡◌, ℕ, ◌^◌, ◌<◌, ◌==◌, ◌++◌, List, [], ◌∷◌, true, false, Some, decimal};
ghost use Rattle.std.specs.List.{concat, flat_map, slice_split};
ghost use Rattle.ps_lines.specs.Lines.{are_lines, closing, is_closed, is_cutlist, lines, text_of_lines, without_empty_rest};
ghost use Rattle.ps_lines.specs.Numbers.{number_of};

use crate::newlines::NEWLINE;

/// The lines of a text are the texts between its newlines, but for an empty rest after the last newline (XBD 3.206).
pub fn lines_stand_between_newlines()
    ensures { (text : List ℕ) → lines text ≡ without_empty_rest (slice_split (λ byte. byte == NEWLINE) text) }
{}

/// No line has a newline within.
pub fn lines_have_no_newline()
    ensures { (text : List ℕ) → are_lines (lines text) ≡ true }
{}

/// A text is its lines one after another, each with a newline, but for one at the end that no newline ends; and a text
/// that is made so of given lines has these lines.
pub fn text_is_its_lines()
    ensures closed { (text : List ℕ) → is_closed text ≡ true → text_of_lines (lines text) ≡ text }
    ensures unclosed { (text : List ℕ) → is_closed text ≡ false → text_of_lines (lines text) ≡ text ++ NEWLINE ∷ [] }
    ensures lines { (texts : List (List ℕ)) → are_lines texts ≡ true → lines (text_of_lines texts) ≡ texts }
{}

/// An empty text is closed, and any other exactly where its last byte is a newline.
pub fn closed_text_ends_in_a_newline()
    ensures empty { is_closed [] ≡ true }
    ensures last { (front : List ℕ) (byte : ℕ) → is_closed (front ++ byte ∷ []) ≡ (byte == NEWLINE) }
{}

/// A newline that closes a text adds no line, and the text is closed then.
pub fn closing_keeps_the_lines()
    ensures lines { (text : List ℕ) → lines (closing text) ≡ lines text }
    ensures closed { (text : List ℕ) → is_closed (closing text) ≡ true }
{}

/// The lines of a closed text followed by another are the lines of both, in order.
pub fn closed_text_keeps_its_lines()
    ensures { (front back : List ℕ) → is_closed front ≡ true → lines (front ++ back) ≡ lines front ++ lines back }
{}

/// Texts that are cut at ends of lines have the lines of their whole.
pub fn cut_texts_have_the_lines_of_the_whole()
    ensures { (texts : List (List ℕ)) → is_cutlist texts ≡ true → lines (concat texts) ≡ flat_map lines texts }
{}

/// A number that is written in decimal is read back.
pub fn decimal_is_read_back()
    ensures { (number : ℕ) → number < 2 ^ 64 → number_of (decimal number) ≡ Some number }
{}
