//! Texts put at the end of an output.
ghost use Rattle.std.specs.Prelude.{◌≡◌, ◌∷◌, ◌++◌, []};
ghost use Rattle.std.specs.Result.{is_ok};
ghost use Rattle.ps_lines.specs.Lines.{text_of_lines};
ghost use Rattle.ut_streams.specs.Streams.{Put};

use ps_lines::{Memory, NEWLINE};

/// Appends the text.
#[tactic(auto, using(crate::proofs::StreamLemmas::puts))]
pub fn put(text: &[u8], out: &mut Vec<u8>) -> Result<(), Memory>
    ensures { Put text.now out.old.items out.new.items (is_ok result) }
{
    out.extend_from_slice(text)?;
    Ok(())
}

/// Appends the line and a newline.
#[tactic(auto, using(crate::proofs::StreamLemmas::puts))]
pub fn put_line(line: &[u8], out: &mut Vec<u8>) -> Result<(), Memory>
    ensures { Put (line.now ++ NEWLINE ∷ []) out.old.items out.new.items (is_ok result) }
{
    match put(line, out) {
        Ok(()) => put(&[NEWLINE], out),
        Err(memory) => Err(memory),
    }
}
