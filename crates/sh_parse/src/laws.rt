//! Laws of the definitions that belong to no single call.
ghost use Rattle.std.specs.Prelude.{◌≡◌, ℕ, List};
ghost use Rattle.sh_tree.specs.Trees.{ScriptTree};
ghost use Rattle.sh_tree.specs.Numbering.{IsNumberedScript};
ghost use Rattle.sh_parse.specs.Grammar.{Reads};
ghost use Rattle.sh_parse.specs.Pieces.{WordViews};
ghost use Rattle.sh_parse.specs.Stops.{HasOneOutcome};
ghost use Rattle.sh_parse.specs.Texts.{HasItems};
ghost use Rattle.sh_parse.specs.Outcomes.{HasOneOutcome as OneOutcome, IsScript, TextsAreRead};
ghost use Rattle.sh_parse.specs.declared.items.Item as item;

use crate::items::Item;

/// A list of items is read as at most one script, however many levels may be open.
pub fn one_script(items: &[Item])
    ensures { (views : WordViews) (most : ℕ) (one other : ScriptTree) → Reads views most items.now one
        → Reads views most items.now other → one ≡ other }
{
    let _ = items;
}

/// Every list of items is exactly one script or has exactly one refusal, and not both.
pub fn one_outcome(items: &[Item])
    ensures { (views : WordViews) → HasOneOutcome views items.now }
{
    let _ = items;
}

/// A text has at most one list of items.
pub fn one_list_of_items(text: &[u8])
    ensures { (one other : List item.Item) → HasItems text.now one → HasItems text.now other → one ≡ other }
{
    let _ = text;
}

/// Every text is exactly one script or has exactly one refusal, and not both.
pub fn one_outcome_of_a_text(text: &[u8])
    ensures { OneOutcome text.now }
{
    let _ = text;
}

/// What each text is, is a function of the text: meanings that take it as given are told of something.
pub fn texts_are_read()
    ensures { TextsAreRead }
{}

/// Each command of a text's script numbers its command substitutions: the words, assignments and redirections of a simple command, the
/// words of a `for`, and the redirections behind a compound command name theirs from 0 on, each once (XCU 2.6.3).
pub fn substitutions_are_numbered()
    ensures { (text : List ℕ) (script : ScriptTree) → IsScript text script → IsNumberedScript script }
{}
