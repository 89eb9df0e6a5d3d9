//! The words of a text, by where they stand.
//!
//! Where the text's command substitutions end is found once, before any word is read. So a word is read without those in it, and what
//! stands inside many is read as often as what stands in none.
ghost use Rattle.std.specs.Prelude.{◌≡◌, IfOk};
ghost use Rattle.sh_words.specs.Words.{ReadsWord};
ghost use Rattle.sh_words.specs.Built.{outcome_of};
ghost use Rattle.sh_parse.specs.Outcomes.{bytes_at, in_text};

use crate::items::{Item, Span};
use crate::kinds::spelled;
use crate::readers::{Look, WordReader};
use crate::texts::between;
use ps_lines::{Memory, Text};
use sh_tree::Word;
use sh_words::{ReadWord, Substitutions, assigns_in, read_assign_in, read_word_in};
use std::alloc::Global;

/// The words of a text.
#[derive(Drop)]
pub struct TextWords<'a> {
    /// The text.
    text: &'a [u8],
    /// Its command substitutions.
    substitutions: Substitutions<'a>,
}

impl<'a> TextWords<'a> {
    /// The words of this text, which has these items. Where none of them opens a command substitution, the text isn't searched for any.
    pub fn of(alloc: Global, text: &'a [u8], items: &[Item]) -> Result<TextWords<'a>, Memory>
        ensures { IfOk result (λ words. words.text.now ≡ text.now) }
    {
        let substitutions = if items.iter().any(|item| matches!(item, Item::SubOpen(_))) {
            Substitutions::of(alloc, text)?
        } else {
            Substitutions::none(alloc)
        };
        Ok(TextWords {
            text,
            substitutions,
        })
    }

    /// The word at this place, with the number of its first command substitution.
    fn read(&self, alloc: Global, at: Span, first: u32) -> Result<ReadWord, Memory>
        ensures { IfOk result (λ read. ReadsWord first (bytes_at self.now.text.now at) (outcome_of read)) }
    {
        let end = at.to as usize;
        read_word_in(alloc, &self.substitutions, end, self.bytes(at), first)
    }

    /// The bytes of the word at this place.
    fn bytes(&self, at: Span) -> &'a [u8]
        ensures { result.now ≡ bytes_at self.now.text.now at }
    {
        between(self.text, at.from as usize, at.to as usize)
    }
}

impl<'a> WordReader for TextWords<'a> {
    ghost use Rattle.std.specs.Prelude.{◌≡◌, IfOk};
    ghost use Rattle.sh_tree.specs.Views.{word_tree};
    ghost use Rattle.sh_parse.specs.Inner.WordsOf.{words_of};

    ghost views = { λ words. words_of words.text.now };

    fn word(&self, alloc: Global, at: Span, first: usize) -> Result<Word, Memory> {
        let read = self.read(alloc, at, number(first)?)?;
        Ok(read.word)
    }

    fn assign(&self, alloc: Global, at: Span, first: usize) -> Result<(Text, Word), Memory> {
        let first = number(first)?;
        let bytes = self.bytes(at);
        let end = at.to as usize;
        let (name, read) = read_assign_in(alloc, &self.substitutions, end, bytes, first)?;
        Ok((name, read.word))
    }

    fn name(&self, alloc: Global, at: Span) -> Result<Text, Memory> {
        let bytes = spelled(alloc, self.bytes(at))?;
        Text::copy_of(alloc, bytes.as_slice())
    }

    fn look(&self, alloc: Global, at: Span) -> Result<Look, Memory> {
        let read = self.read(alloc, at, 0)?;
        Ok(Look {
            fault: in_text(at.from, read.fault)?,
            assigns: assigns_in(&read.word),
        })
    }
}

/// The number of a command substitution.
fn number(first: usize) -> Result<u32, Memory>
    ensures { IfOk result (λ number. number ≡ first) }
{
    match u32::try_from(first) {
        Ok(number) => Ok(number),
        Err(_) => Err(Memory),
    }
}

/// The offset in a text of what stands at an offset of a word in it.
fn in_text(from: u32, offset: Option<usize>) -> Result<Option<u32>, Memory>
    ensures { IfOk result (λ place. place ≡ in_text from offset) }
{
    match offset {
        Some(offset) => match from.checked_add(number(offset)?) {
            Some(place) => Ok(Some(place)),
            None => Err(Memory),
        },
        None => Ok(None),
    }
}
