//! The script of a text.
ghost use Rattle.std.specs.Prelude.{◌≡◌, IfOk, IfErr};
ghost use Rattle.sh_lex.specs.Lexes.{Lexes};
ghost use Rattle.sh_tree.specs.Views.{script_tree};
ghost use Rattle.sh_tree.specs.Numbering.{IsNumberedScript};
ghost use Rattle.sh_parse.specs.Outcomes.{IsScript, IsSound};
ghost use Rattle.sh_parse.specs.Inner.WordsOf.{words_of};
ghost use Rattle.sh_parse.specs.Parses.{Refuses};
ghost use Rattle.sh_parse.specs.Inner.Parses.{RefusesItems, of_misuse, of_grammar};

use crate::checking::check;
use crate::items::Item;
use crate::misuses::{Misuse, first_misuse};
use crate::parsing::build;
use crate::readers::WordReader;
use crate::refusals::{GrammarRefusal, SyntaxRefusal};
use crate::text_words::TextWords;
use crate::texts::read_items;
use ps_lines::Memory;
use sh_lex::{LexRefusal, Static, Token};
use sh_tree::Script;
use std::alloc::Global;

/// Why a text that has tokens is no script.
#[derive(Debug, Drop)]
pub enum ParseRefusal {
    /// The script is refused: `BadSyntax`, `TooDeep`, `SubstitutionMix` or `ParameterForm`.
    Refused(Static),
    /// Memory was wanted and refused.
    Memory,
}

/// The script of a text that has these tokens, which are those of `sh_lex::lex` (XCU 2.10.2, narrowed).
///
/// Refused is, at the first token that no script goes on with, those of command substitutions at their place, `BadSyntax`, or
/// `TooDeep` where the 65th level opens; and of a script the first, by offset, of `ParameterForm` and `SubstitutionMix`.
/// The words of each of its commands name the command's substitutions, from 0 on and each once.
/// The tokens of substitutions aren't among `tokens`: so the text is read once more, and `tokens` says that it can be.
#[tactic(auto, using(crate::proofs::Parsings::refusal_of_text, crate::proofs::Parsings::not_refused))]
pub fn parse(alloc: Global, text: &[u8], tokens: &[Token]) -> Result<Script, ParseRefusal>
    requires { Lexes text.now tokens.now }
    ensures script { IfOk result (λ script. IsScript text.now (script_tree script)) }
    ensures numbered { IfOk result (λ script. IsNumberedScript (script_tree script)) }
    ensures refusal { IfErr result (λ refusal. Refuses text.now refusal) }
{
    let _ = tokens;
    match read_items(alloc, text) {
        Ok(items) => parse_text(alloc, text, items.as_slice()),
        Err(LexRefusal::Refused(refusal)) => Err(ParseRefusal::Refused(refusal)),
        Err(LexRefusal::Memory) => Err(ParseRefusal::Memory),
    }
}

/// The script that the items of a text are.
fn parse_text(alloc: Global, text: &[u8], items: &[Item]) -> Result<Script, ParseRefusal>
    ensures script { IfOk result (λ script. IsSound (script_tree script) (words_of text.now) items.now) }
    ensures refusal { IfErr result (λ refusal. RefusesItems (words_of text.now) items.now refusal) }
{
    match TextWords::of(alloc, text, items) {
        Ok(words) => parse_with(alloc, &words, items),
        Err(Memory) => Err(ParseRefusal::Memory),
    }
}

/// The script that the items are, with the words that `reader` reads.
fn parse_with<W: WordReader>(
    alloc: Global,
    reader: &W,
    items: &[Item],
) -> Result<Script, ParseRefusal>
    ensures script { IfOk result (λ script. IsSound (script_tree script) (W.views reader.now) items.now) }
    ensures refusal { IfErr result (λ refusal. RefusesItems (W.views reader.now) items.now refusal) }
{
    match check(alloc, items) {
        Ok(()) => match first_misuse(alloc, reader, items) {
            Ok(None) => match build(alloc, reader, items) {
                Ok(script) => Ok(script),
                Err(Memory) => Err(ParseRefusal::Memory),
            },
            Ok(Some(misuse)) => Err(ParseRefusal::Refused(of_misuse(misuse))),
            Err(Memory) => Err(ParseRefusal::Memory),
        },
        Err(refusal) => Err(of_grammar(refusal)),
    }
}

/// How a misuse is told.
fn of_misuse(misuse: Misuse) -> Static
    ensures { result ≡ of_misuse misuse }
{
    match misuse {
        Misuse::Form(offset) => Static::ParameterForm(offset),
        Misuse::Mix(offset) => Static::SubstitutionMix(offset),
    }
}

/// How it is told that items are no script.
fn of_grammar(refusal: GrammarRefusal) -> ParseRefusal
    ensures { result ≡ of_grammar refusal }
{
    match refusal {
        GrammarRefusal::Refused(SyntaxRefusal::BadSyntax) => ParseRefusal::Refused(
            Static::BadSyntax,
        ),
        GrammarRefusal::Refused(SyntaxRefusal::TooDeep(offset)) => {
            ParseRefusal::Refused(Static::TooDeep(offset))
        }
        GrammarRefusal::Memory => ParseRefusal::Memory,
    }
}
