//! Whether a word assigns a variable, as it is written.
ghost use Rattle.std.specs.Prelude.{◌≡◌, false};
ghost use Rattle.sh_tree.specs.Trees.{no_part};
ghost use Rattle.sh_tree.specs.Views.{word_tree, part_tree, form_tree};
ghost use Rattle.sh_words.specs.Inner.Built.{trees_onto};
ghost use Rattle.sh_words.specs.Assigning.{is_pair, text_assigns, word_assigns, part_assigns, form_assigns};

use sh_tree::{Form, Part, Word};

/// Whether an expansion in the word assigns a variable, as it is written: `${x=word}` or `${x:=word}` at any depth, or an `=` of an
/// arithmetic expansion's own text that is no part of `==`, `!=`, `<=` or `>=` (own).
pub fn assigns_in(word: &Word) -> bool
    ensures { result ≡ word_assigns false (word_tree word.now) }
{
    parts_assign(word.parts.as_slice(), false)
}

/// Whether one of the parts assigns; `arithmetic`: they are the text of an arithmetic expansion.
#[cycle(assigns)]
fn parts_assign(parts: &[Part], arithmetic: bool) -> bool
    ensures { result ≡ word_assigns arithmetic (trees_onto parts.now no_part) }
{
    for part in parts {
        if part_assigns(part, arithmetic) {
            return true;
        }
    }
    false
}

/// Whether a part assigns.
#[cycle(assigns)]
fn part_assigns(part: &Part, arithmetic: bool) -> bool
    ensures { result ≡ part_assigns arithmetic (part_tree part.now) }
{
    match part {
        Part::Plain(text) => arithmetic && text_assigns(text.as_slice()),
        Part::Quoted(_) | Part::Sub { .. } => false,
        Part::Param { form, .. } => form_assigns(form),
        Part::Arith { parts, .. } => parts_assign(parts.as_slice(), true),
    }
}

/// Whether a form assigns, or its word does.
#[cycle(assigns)]
fn form_assigns(form: &Form) -> bool
    ensures { result ≡ form_assigns (form_tree form.now) }
{
    match form {
        Form::Plain | Form::Length => false,
        Form::Assign { .. } => true,
        Form::Check { word, .. } => match word {
            Some(word) => parts_assign(word.parts.as_slice(), false),
            None => false,
        },
        Form::Default { word, .. } => parts_assign(word.parts.as_slice(), false),
        Form::Alternate { word, .. } => parts_assign(word.parts.as_slice(), false),
        Form::CutSuffix { word, .. } => parts_assign(word.parts.as_slice(), false),
        Form::CutPrefix { word, .. } => parts_assign(word.parts.as_slice(), false),
    }
}

/// Whether an `=` stands in the text of an arithmetic expansion by itself.
fn text_assigns(text: &[u8]) -> bool
    ensures { result ≡ text_assigns text.now }
{
    let mut rest = text;
    while let Some((first, after)) = rest.split_first() {
        match after.split_first() {
            Some((second, behind)) if is_pair(*first, *second) => rest = behind,
            _ if *first == b'=' => return true,
            _ => rest = after,
        }
    }
    false
}

/// Whether the bytes are one operator: `==`, `!=`, `<=`, `>=`, `<<` or `>>`.
fn is_pair(first: u8, second: u8) -> bool
    ensures { result ≡ is_pair first second }
{
    (second == b'=' && (first == b'=' || first == b'!' || first == b'<' || first == b'>'))
        || (first == b'<' && second == b'<')
        || (first == b'>' && second == b'>')
}
