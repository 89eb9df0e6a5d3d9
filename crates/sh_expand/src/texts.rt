//! The text of a word of which nothing is split.

ghost use Rattle.std.specs.Prelude.{◌≡◌, Ok, Err, IfErr, IfOk, OnOk, OnErr};
ghost use Rattle.sh_tree.specs.Views.{word_tree};
ghost use Rattle.sh_expand.specs.Given.{given_of};
ghost use Rattle.sh_expand.specs.Fields.{TextGives, TextStops, IsOfWords};
ghost use Rattle.sh_expand.specs.Frames.{frame_given};
ghost use Rattle.sh_expand.specs.Outcomes.{Expansions, AreExpansions, Tells, told_of};

use crate::faults::{ExpandFault, told};
use crate::frames::{Frame, known_of};
use crate::known::Known;
use crate::marks::bare;
use crate::parameters::Setting;
use crate::values::add_word;
use sh_arith::Env;
use sh_tree::Word;
use std::alloc::Global;

/// Expands a word to one text, without field splitting and path expansion.
///
/// Unset and Arith are told for the first part that has such a fault. After a fault the variables have what was assigned before it.
/// So but for want of memory it tells the word's one outcome.
#[tactic(auto, using(crate::proofs::OutcomeLemmas::text_tells))]
pub fn expand_one(alloc: Global, word: &Word, frame: &mut Frame<'_>) -> Result<Vec<u8>, ExpandFault>
    ensures text { IfOk result (λ text. TextGives (frame_given frame.old) frame.old.env.now (word_tree word.now) text.items frame.new.env.now) }
    ensures fault { IfErr result (λ fault. TextStops (frame_given frame.old) frame.old.env.now (word_tree word.now) fault frame.new.env.now) }
    ensures of_words { IfErr result IsOfWords }
    ensures told { (expansions : Expansions) → AreExpansions expansions → Tells (λ text. text.items) (told_of (expansions.text (frame_given frame.old) frame.old.env.now (word_tree word.now))) result frame.new.env.now }
    ensures same { frame_given frame.new ≡ frame_given frame.old }
    ensures same_reference { frame.new.env.ghost_name ≡ frame.old.env.ghost_name }
{
    let known = known_of(frame);
    text_of_word(alloc, word, &known, frame.env)
}

/// The same, over what is known and the variables.
#[tactic(auto, using(crate::proofs::FieldLemmas::texts))]
fn text_of_word(
    alloc: Global,
    word: &Word,
    known: &Known<'_>,
    env: &mut Env,
) -> Result<Vec<u8>, ExpandFault>
    ensures text { IfOk result (λ text. TextGives (given_of known.now) env.old (word_tree word.now) text.items env.new) }
    ensures fault { IfErr result (λ fault. TextStops (given_of known.now) env.old (word_tree word.now) fault env.new) }
    ensures of_words { IfErr result IsOfWords }
{
    let mut marks = Vec::new(alloc);
    match add_word(alloc, word, Setting::Joined, known, env, &mut marks) {
        Ok(()) => {
            let Ok(text) = bare(alloc, marks.as_slice()) else {
                return Err(ExpandFault::Memory);
            };
            Ok(text)
        }
        Err(fault) => Err(told(fault)),
    }
}
