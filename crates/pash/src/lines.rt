//! The lines that tell answers.
ghost use Rattle.std.specs.Prelude.{◌≡◌, ◌++◌, codes, IfOk, OnOk};
ghost use Rattle.sh_eval.specs.Lines.{diagnostic as diagnostic_def};
ghost use Rattle.pash.specs.Answers.{line_of, refusal_text, with_letter, with_number};

use crate::answers::Why;
use ps_lines::{Memory, decimal};
use sh_eval::Refusal;
use std::alloc::Global;

/// The program's name.
const NAME: &[u8] = b"pash";

/// Why a path that names nothing can't be read.
const NO_SUCH_FILE: &[u8] = b"No such file or directory";

/// The line that tells an answer: empty where the script or the graph ran to its end, and after a fault or want of memory.
pub fn answer_line(alloc: Global, why: &Why) -> Result<Vec<u8>, Memory>
    ensures { IfOk result (λ line. line.items ≡ line_of why.now) }
{
    match why {
        Why::Refused(cause) => refusal_line(alloc, cause),
        Why::Usage => Ok(Vec::from_slice(alloc, b"pash: usage\n")?),
        Why::NoScript(path) => diagnostic(alloc, NAME, path.as_slice(), NO_SUCH_FILE),
        Why::NotJson => Ok(Vec::from_slice(alloc, b"pash: NotJson\n")?),
        Why::NotGraph => Ok(Vec::from_slice(alloc, b"pash: NotGraph\n")?),
        Why::BadVersion => Ok(Vec::from_slice(alloc, b"pash: BadVersion\n")?),
        Why::NoFile(path) => diagnostic(alloc, NAME, path.as_slice(), NO_SUCH_FILE),
        Why::Finished | Why::ReadFault | Why::WriteFault | Why::TreeFault | Why::Memory => {
            Ok(Vec::new(alloc))
        }
    }
}

/// The line `NAME: SUBJECT: REASON`.
fn diagnostic(alloc: Global, name: &[u8], subject: &[u8], reason: &[u8]) -> Result<Vec<u8>, Memory>
    ensures { IfOk result (λ line. line.items ≡ diagnostic_def name.now subject.now reason.now) }
{
    let mut line = Vec::from_slice(alloc, name)?;
    line.extend_from_slice(b": ")?;
    line.extend_from_slice(subject)?;
    line.extend_from_slice(b": ")?;
    line.extend_from_slice(reason)?;
    line.extend_from_slice(b"\n")?;
    Ok(line)
}

/// The line `pash: refused: `, the refusal's name and its details.
fn refusal_line(alloc: Global, cause: &Refusal) -> Result<Vec<u8>, Memory>
    ensures { IfOk result (λ line. line.items ≡ codes "pash: refused: " ++ refusal_text cause.now ++ codes "\n") }
{
    let mut line = Vec::from_slice(alloc, b"pash: refused: ")?;
    add_refusal(&mut line, cause)?;
    line.extend_from_slice(b"\n")?;
    Ok(line)
}

/// Appends a refusal's name, and its details.
fn add_refusal(line: &mut Vec<u8>, cause: &Refusal) -> Result<(), Memory>
    ensures { OnOk result (line.new.items ≡ line.old.items ++ refusal_text cause.now) }
{
    match cause {
        Refusal::UnclosedQuote(offset) => add_with_number(line, b"UnclosedQuote", *offset),
        Refusal::UnclosedBrace(offset) => add_with_number(line, b"UnclosedBrace", *offset),
        Refusal::OutOfProfile(spelling, offset) => {
            add_out_of_profile(line, spelling.as_slice(), *offset)
        }
        Refusal::ScriptTooLong => add(line, b"ScriptTooLong"),
        Refusal::BadSyntax => add(line, b"BadSyntax"),
        Refusal::TooDeep(offset) => add_with_number(line, b"TooDeep", *offset),
        Refusal::SubstitutionMix(offset) => add_with_number(line, b"SubstitutionMix", *offset),
        Refusal::ParameterForm(offset) => add_with_number(line, b"ParameterForm", *offset),
        Refusal::UnknownCommand(name) => add_both(line, b"UnknownCommand ", name.as_slice()),
        Refusal::UnsupportedFlag(name, letter) => {
            add_unsupported_flag(line, name.as_slice(), *letter)
        }
        Refusal::PathBusy(path) => add_both(line, b"PathBusy ", path.as_slice()),
        Refusal::TurnsOver => add(line, b"TurnsOver"),
        Refusal::ArgsTooMany => add(line, b"ArgsTooMany"),
        Refusal::UnsupportedPattern(pattern) => {
            add_both(line, b"UnsupportedPattern ", pattern.as_slice())
        }
    }
}

fn add_out_of_profile(line: &mut Vec<u8>, spelling: &[u8], offset: u32) -> Result<(), Memory>
    ensures { OnOk result (line.new.items ≡ line.old.items ++ (codes "OutOfProfile " ++ with_number spelling.now offset)) }
{
    add(line, b"OutOfProfile ")?;
    add_with_number(line, spelling, offset)
}

fn add_unsupported_flag(line: &mut Vec<u8>, name: &[u8], letter: u8) -> Result<(), Memory>
    ensures { OnOk result (line.new.items ≡ line.old.items ++ (codes "UnsupportedFlag " ++ with_letter name.now letter)) }
{
    add(line, b"UnsupportedFlag ")?;
    add_with_letter(line, name, letter)
}

fn add(line: &mut Vec<u8>, text: &[u8]) -> Result<(), Memory>
    ensures { OnOk result (line.new.items ≡ line.old.items ++ text.now) }
{
    line.extend_from_slice(text)?;
    Ok(())
}

/// Appends one text, and behind it another.
fn add_both(line: &mut Vec<u8>, front: &[u8], back: &[u8]) -> Result<(), Memory>
    ensures { OnOk result (line.new.items ≡ line.old.items ++ (front.now ++ back.now)) }
{
    line.extend_from_slice(front)?;
    line.extend_from_slice(back)?;
    Ok(())
}

/// Appends a text, a space, and a number in decimal.
fn add_with_number(line: &mut Vec<u8>, text: &[u8], number: u32) -> Result<(), Memory>
    ensures { OnOk result (line.new.items ≡ line.old.items ++ with_number text.now number) }
{
    line.extend_from_slice(text)?;
    line.extend_from_slice(b" ")?;
    decimal(u64::from(number), line)
}

/// Appends a text, a space, and a letter.
fn add_with_letter(line: &mut Vec<u8>, text: &[u8], letter: u8) -> Result<(), Memory>
    ensures { OnOk result (line.new.items ≡ line.old.items ++ with_letter text.now letter) }
{
    line.extend_from_slice(text)?;
    line.extend_from_slice(b" ")?;
    line.push(letter)?;
    Ok(())
}
