//! Invocations read from words.
ghost use Rattle.std.specs.Prelude.{◌≡◌, ◌<◌, length, [], Ok, Err, IfOk, IfErr};
ghost use Rattle.ps_lines.specs.Texts.{texts_of};
ghost use Rattle.ut_options.specs.Scanning.{scanned};
ghost use Rattle.ut_args.specs.Table.{row};
ghost use Rattle.ut_args.specs.Invocations.{command_of, words_of};
ghost use Rattle.ut_args.specs.Reading.{asked as asked_def, asked_behind, asked_by as asked_by_def, if_some as if_some_def, invocation};

use crate::commands::Command;
use crate::faults::ArgFault;
use crate::invocations::Inv;
use crate::names::Name;
use crate::rows::letters_of;
use crate::values::with_words;
use crate::{columns, keys, shell, strings, utilities};
use ps_lines::{Memory, Text};
use std::alloc::Global;
use ut_options::{Options, Scanned, Texts, Usage, scan};

/// The invocation that a command's words are, the first of them its name.
///
/// A name that isn't in the table comes first of the faults, then the first option letter from the left that the command doesn't have,
/// then every other fault.
pub fn read_inv(alloc: Global, words: &[Vec<u8>]) -> Result<Inv, ArgFault>
    requires named { 0 < length words.now }
    ensures words { IfOk result (λ inv. words_of inv ≡ texts_of words.now) }
    ensures command { IfOk result (λ inv. invocation (texts_of words.now) ≡ Ok (command_of inv)) }
    ensures fault { IfErr result (λ fault. (fault ≡ ArgFault.Memory → ⊥) → invocation (texts_of words.now) ≡ Err fault) }
{
    let [name, behind @ ..] = words else {
        return Err(ArgFault::Memory);
    };
    let Some(known) = Name::named(name.as_slice()) else {
        return Err(ArgFault::UnknownCommand(Text::copy_of(alloc, name.as_slice())?));
    };
    match asked(alloc, known, behind)? {
        Ok(command) => Ok(with_words(Texts::copy_of(alloc, words)?, command)),
        Err(Usage::UnsupportedFlag(letter)) => Err(ArgFault::UnsupportedFlag(
            Text::copy_of(alloc, name.as_slice())?,
            letter,
        )),
        Err(Usage::BadUsage) => Err(ArgFault::BadUsage(Text::copy_of(alloc, name.as_slice())?)),
    }
}

/// What the words behind a command's name ask for. Those of four commands are all operands.
fn asked(alloc: Global, name: Name, words: &[Vec<u8>]) -> Result<Result<Command, Usage>, Memory>
    ensures { IfOk result (λ read. read ≡ asked_def name (texts_of words.now)) }
{
    match name {
        Name::Set | Name::Test | Name::Bracket | Name::Echo => {
            asked_by_operands(alloc, name, words)
        }
        _ => asked_by_options(alloc, name, words),
    }
}

/// What words ask for that are all operands.
fn asked_by_operands(
    alloc: Global,
    name: Name,
    words: &[Vec<u8>],
) -> Result<Result<Command, Usage>, Memory>
    ensures { IfOk result (λ read. read ≡ asked_by_def name [] (texts_of words.now)) }
{
    let options = Options::new(alloc);
    let operands = Texts::copy_of(alloc, words)?;
    asked_by(alloc, name, &options, operands)
}

/// What words ask for that are options and operands.
fn asked_by_options(
    alloc: Global,
    name: Name,
    words: &[Vec<u8>],
) -> Result<Result<Command, Usage>, Memory>
    ensures { IfOk result (λ read. read ≡ asked_behind name (scanned (row name) (texts_of words.now))) }
{
    match scan(alloc, &letters_of(name), words)? {
        Ok(scanned) => {
            let Scanned { options, operands } = scanned;
            asked_by(alloc, name, &options, operands)
        }
        Err(usage) => Ok(Err(usage)),
    }
}

/// What options and operands of a command ask for.
fn asked_by(
    alloc: Global,
    name: Name,
    options: &Options,
    operands: Texts,
) -> Result<Result<Command, Usage>, Memory>
    ensures { IfOk result (λ read. read ≡ asked_by_def name options.now operands) }
{
    match name {
        Name::Cat => Ok(Ok(utilities::cat(operands))),
        Name::Grep => Ok(if_some(utilities::grep(alloc, options, operands)?)),
        Name::Tr => Ok(if_some(strings::tr(alloc, options, &operands)?)),
        Name::Cut => Ok(if_some(columns::cut(alloc, options, operands)?)),
        Name::Head => Ok(if_some(utilities::head(options, operands))),
        Name::Tail => Ok(if_some(utilities::tail(options, operands))),
        Name::Wc => Ok(if_some(utilities::wc(options, operands))),
        Name::Uniq => Ok(if_some(utilities::uniq(options, operands))),
        Name::Sort => Ok(if_some(keys::sort(alloc, options, operands)?)),
        Name::Paste => Ok(if_some(columns::paste(alloc, options, operands)?)),
        Name::Tee => Ok(Ok(utilities::tee(options, operands))),
        Name::True => Ok(Ok(Command::True)),
        Name::False => Ok(Ok(Command::False)),
        Name::Colon => Ok(Ok(Command::Colon)),
        Name::Break => Ok(if_some(shell::break_loop(&operands))),
        Name::Continue => Ok(if_some(shell::continue_loop(&operands))),
        Name::Exit => Ok(if_some(shell::exit(&operands))),
        Name::Shift => Ok(if_some(shell::shift(&operands))),
        Name::Unset => Ok(if_some(shell::unset(operands))),
        Name::Read => Ok(shell::read(options, operands)),
        Name::Set => shell::set(alloc, operands),
        Name::Test => Ok(shell::test(operands)),
        Name::Bracket => shell::bracket(alloc, operands),
        Name::Echo => Ok(shell::echo(operands)),
    }
}

/// A command, or bad usage.
fn if_some(asked: Option<Command>) -> Result<Command, Usage>
    ensures { result ≡ if_some_def asked }
{
    asked.ok_or(Usage::BadUsage)
}
