//! What reads the words of a script.
ghost use Rattle.std.specs.Prelude.{◌≡◌, IfOk};
ghost use Rattle.sh_tree.specs.Views.{word_tree};
ghost use Rattle.sh_parse.specs.Pieces.{WordViews};

use crate::items::Span;
use ps_lines::{Memory, Text};
use sh_tree::Word;
use std::alloc::Global;

/// What is looked up in a word before it is read.
#[derive(Clone, Copy, Debug)]
pub struct Look {
    /// The offset, in the script, of its first `${` that has none of the forms of an expansion.
    pub fault: Option<u32>,
    /// Whether an expansion in it assigns a variable.
    pub assigns: bool,
}

/// Reads the words of a script, by where they stand. The grammar doesn't look into them.
///
/// `first` is the number of a word's first command substitution among those of its command, from 0. The only refusal is
/// want of memory.
pub trait WordReader {
    /// What the words are.
    ghost views: { Self → WordViews };

    /// The word at this place.
    fn word(&self, alloc: Global, at: Span, first: usize) -> Result<Word, Memory>
        ensures { IfOk result (λ word. word_tree word ≡ (views self.now).word at first) };

    /// The name and the value of the assignment at this place.
    fn assign(&self, alloc: Global, at: Span, first: usize) -> Result<(Text, Word), Memory>
        ensures { IfOk result (λ assign. (assign.0, word_tree assign.1) ≡ (views self.now).assign at first) };

    /// The name at this place, behind a `for`.
    fn name(&self, alloc: Global, at: Span) -> Result<Text, Memory>
        ensures { IfOk result (λ name. name ≡ (views self.now).name at) };

    /// What is looked up in the word at this place.
    fn look(&self, alloc: Global, at: Span) -> Result<Look, Memory>
        ensures fault { IfOk result (λ look. look.fault ≡ (views self.now).fault at) }
        ensures assigns { IfOk result (λ look. look.assigns ≡ (views self.now).assigns at) };
}
