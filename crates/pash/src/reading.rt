//! What the text of a script is.
ghost use Rattle.std.specs.Prelude.{IfOk, IfErr};
ghost use Rattle.sh_tree.specs.Views.{script_tree};
ghost use Rattle.sh_parse.specs.Outcomes.{HasOutcome, script as script_def};
ghost use Rattle.pash.specs.Readings.{IsUnread};

use sh_lex::{LexRefusal, lex};
use sh_parse::{ParseRefusal, parse};
use sh_tree::Script;
use std::alloc::Global;

/// The script of a text: its tokens first, then their tree.
pub fn read_script(alloc: Global, text: &[u8]) -> Result<Script, ParseRefusal>
    ensures script { IfOk result (λ script. HasOutcome text.now (script_def (script_tree script))) }
    ensures refusal { IfErr result (λ refusal. IsUnread text.now refusal) }
{
    match lex(alloc, text) {
        Ok(tokens) => match parse(alloc, text, tokens.as_slice()) {
            Ok(script) => Ok(script),
            Err(refusal) => Err(refusal),
        },
        Err(LexRefusal::Refused(cause)) => Err(ParseRefusal::Refused(cause)),
        Err(LexRefusal::Memory) => Err(ParseRefusal::Memory),
    }
}
