//! What `echo` writes.

ghost use Rattle.std.specs.Prelude.{◌≡◌, ◌++◌, IfOk, OnOk};
ghost use Rattle.std.specs.List.{join_with_byte};
ghost use Rattle.ps_lines.specs.Texts.{texts_of};
ghost use Rattle.ut_test.specs.Echo.{echoed, spaced};

use ps_lines::{Memory, NEWLINE};
use std::alloc::Global;

/// What stands between two operands.
const SPACE: u8 = b' ';

/// The output of `echo` with these operands: they stand with single spaces between them, and a newline ends them.
///
/// No byte of an operand is an escape, and no word is an option: whoever reads the words refuses a first `-n`.
pub fn echo(alloc: Global, args: &[Vec<u8>]) -> Result<Vec<u8>, Memory>
    ensures { IfOk result (λ out. out.items ≡ echoed (texts_of args.now)) }
{
    let mut out = Vec::with_capacity(alloc, size_of(args))?;
    put_all(&mut out, args)?;
    out.push(NEWLINE)?;
    Ok(out)
}

/// How many bytes are enough for the output: those of the operands, one behind each, and a newline.
fn size_of(args: &[Vec<u8>]) -> usize {
    let mut size = 1usize;
    for word in args {
        size = size.saturating_add(word.len()).saturating_add(1);
    }
    size
}

/// Appends the operands, with a space between each two.
#[tactic(auto, using(crate::proofs::EchoLemmas::joined_all))]
fn put_all(out: &mut Vec<u8>, args: &[Vec<u8>]) -> Result<(), Memory>
    ensures { OnOk result (out.new.items ≡ out.old.items ++ join_with_byte SPACE (texts_of args.now)) }
{
    match args {
        [] => Ok(()),
        [first, others @ ..] => {
            out.extend_from_slice(first.as_slice())?;
            put_others(out, others)?;
            Ok(())
        }
    }
}

/// Appends the operands, each behind a space.
fn put_others(out: &mut Vec<u8>, others: &[Vec<u8>]) -> Result<(), Memory>
    ensures { OnOk result (out.new.items ≡ out.old.items ++ spaced (texts_of others.now)) }
{
    for word in others {
        out.push(SPACE)?;
        out.extend_from_slice(word.as_slice())?;
    }
    Ok(())
}
