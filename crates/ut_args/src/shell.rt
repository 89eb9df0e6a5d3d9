//! What the words of the shell's own commands ask for.
ghost use Rattle.std.specs.Prelude.{◌≡◌, Some, None, IfOk, IfSome, IfNone, option_map};
ghost use Rattle.std.specs.List.{list_all};
ghost use Rattle.ps_lines.specs.Texts.{texts_of};
ghost use Rattle.ps_lines.specs.Bytes.{is_name_byte as is_name_byte_def};
ghost use Rattle.ut_options.specs.Numbers.{option_number};
ghost use Rattle.ut_args.specs.Lists.{place_of as place_of_def};
ghost use Rattle.ut_args.specs.Shell.{are_names as are_names_def, before_bracket, begins_with_word as begins_with_word_def, begins_with_sign as begins_with_sign_def, bracket as bracket_def, echo as echo_def, fault_of_three as fault_of_three_def, fault_of_two as fault_of_two_def, is_name as is_name_def, no_operator as no_operator_def, numbers_fault as numbers_fault_def, one_at_most, read as read_def, set as set_def, set_fault as set_fault_def, signed_letter as signed_letter_def, status_of as status_of_def, test as test_def, test_fault as test_fault_def, unset as unset_def};

use crate::columns::place_of;
use crate::commands::{
    Command, EchoArgs, ExitArgs, LoopArgs, NamesArgs, SetArgs, ShiftArgs, TestArgs,
};
use crate::operators::{Binary, binary_of, is_not, unary_of};
use ps_lines::{Memory, is_name_byte, is_name_start};
use std::alloc::Global;
use ut_options::{Options, Texts, Usage, number_of, read_number};

/// `break`: at most one number, from 1.
pub(crate) fn break_loop(operands: &Texts) -> Option<Command>
    ensures { result ≡ option_map (λ depth. Command.Break (record { depth = depth })) (one_at_most place_of_def operands.now) }
{
    let depth = one_place(operands)?;
    Some(Command::Break(LoopArgs { depth }))
}

/// `continue`: at most one number, from 1.
pub(crate) fn continue_loop(operands: &Texts) -> Option<Command>
    ensures { result ≡ option_map (λ depth. Command.Continue (record { depth = depth })) (one_at_most place_of_def operands.now) }
{
    let depth = one_place(operands)?;
    Some(Command::Continue(LoopArgs { depth }))
}

/// At most one number, from 1.
fn one_place(operands: &Texts) -> Option<Option<u64>>
    ensures { result ≡ one_at_most place_of_def operands.now }
{
    match operands.as_slice() {
        [] => Some(None),
        [operand] => Some(Some(place_of(operand.as_slice())?)),
        _ => None,
    }
}

/// `exit`: at most one number, up to 255.
pub(crate) fn exit(operands: &Texts) -> Option<Command>
    ensures { result ≡ option_map (λ status. Command.Exit (record { status = status })) (one_at_most status_of_def operands.now) }
{
    let status = one_status(operands)?;
    Some(Command::Exit(ExitArgs { status }))
}

/// At most one number, up to 255.
fn one_status(operands: &Texts) -> Option<Option<u8>>
    ensures { result ≡ one_at_most status_of_def operands.now }
{
    match operands.as_slice() {
        [] => Some(None),
        [operand] => Some(Some(status_of(operand.as_slice())?)),
        _ => None,
    }
}

/// A number up to 255.
fn status_of(text: &[u8]) -> Option<u8>
    ensures { result ≡ status_of_def text.now }
{
    let number = read_number(text)?;
    if number <= 255 {
        Some(number as u8)
    } else {
        None
    }
}

/// `shift`: at most one number.
pub(crate) fn shift(operands: &Texts) -> Option<Command>
    ensures { result ≡ option_map (λ count. Command.Shift (record { count = count })) (one_at_most option_number operands.now) }
{
    let count = one_number(operands)?;
    Some(Command::Shift(ShiftArgs { count }))
}

/// At most one number.
fn one_number(operands: &Texts) -> Option<Option<u64>>
    ensures { result ≡ one_at_most option_number operands.now }
{
    match operands.as_slice() {
        [] => Some(None),
        [operand] => Some(Some(read_number(operand.as_slice())?)),
        _ => None,
    }
}

/// `unset`: names.
pub(crate) fn unset(names: Texts) -> Option<Command>
    ensures { result ≡ unset_def names }
{
    if are_names(&names) {
        Some(Command::Unset(NamesArgs { names }))
    } else {
        None
    }
}

/// `read`: `-r`, and names.
pub(crate) fn read(options: &Options, names: Texts) -> Result<Command, Usage>
    ensures { result ≡ read_def options.now names }
{
    if !options.has(b'r') {
        return Err(Usage::UnsupportedFlag(b'r'));
    }
    if !are_names(&names) {
        return Err(Usage::BadUsage);
    }
    Ok(Command::Read(NamesArgs { names }))
}

/// Whether they are one name or more.
fn are_names(names: &Texts) -> bool
    ensures { result ≡ are_names_def names.now }
{
    match names.as_slice() {
        [] => false,
        names => all_names(names),
    }
}

/// Whether each of the texts is a name.
fn all_names(names: &[Vec<u8>]) -> bool
    ensures { result ≡ list_all is_name_def (texts_of names.now) }
{
    let mut left = names;
    while let [name, rest @ ..] = left {
        if !is_name(name.as_slice()) {
            return false;
        }
        left = rest;
    }
    true
}

/// Whether the text is a name (XBD 3.216).
fn is_name(text: &[u8]) -> bool
    ensures { result ≡ is_name_def text.now }
{
    match text {
        [] => false,
        [first, rest @ ..] => is_name_start(*first) && are_name_bytes(rest),
    }
}

/// Whether each byte may go on a name.
fn are_name_bytes(text: &[u8]) -> bool
    ensures { result ≡ list_all is_name_byte_def text.now }
{
    let mut left = text;
    while let [byte, rest @ ..] = left {
        if !is_name_byte(*byte) {
            return false;
        }
        left = rest;
    }
    true
}

/// `echo`: every word is an operand, but a first `-n` is an option that isn't there.
pub(crate) fn echo(operands: Texts) -> Result<Command, Usage>
    ensures { result ≡ echo_def operands }
{
    if begins_with_word(&operands, b"-n") {
        return Err(Usage::UnsupportedFlag(b'n'));
    }
    Ok(Command::Echo(EchoArgs { operands }))
}

/// Whether the first text is this word.
fn begins_with_word(texts: &Texts, word: &[u8]) -> bool
    ensures { result ≡ begins_with_word_def texts.now word.now }
{
    match texts.as_slice() {
        [] => false,
        [first, ..] => first.as_slice() == word,
    }
}

/// `set`: the words behind a first `--`, or all where the first begins with no sign.
pub(crate) fn set(alloc: Global, words: Texts) -> Result<Result<Command, Usage>, Memory>
    ensures { IfOk result (λ read. read ≡ set_def words) }
{
    match words.as_slice() {
        [] => Ok(Err(Usage::BadUsage)),
        [first, others @ ..] => {
            if first.as_slice() == b"--".as_slice() {
                let arguments = Texts::copy_of(alloc, others)?;
                return Ok(Ok(Command::Set(SetArgs { arguments })));
            }
            if begins_with_sign(first.as_slice()) {
                return Ok(Err(set_fault(words.as_slice())));
            }
            let arguments = words.copy()?;
            Ok(Ok(Command::Set(SetArgs { arguments })))
        }
    }
}

/// The usage fault of set: the first letter with a sign, among words that begin with one, up to `--`.
fn set_fault(words: &[Vec<u8>]) -> Usage
    ensures { result ≡ set_fault_def (texts_of words.now) }
{
    let mut left = words;
    while let [word, rest @ ..] = left {
        if !begins_with_sign(word.as_slice()) || word.as_slice() == b"--".as_slice() {
            return Usage::BadUsage;
        }
        if let Some(letter) = signed_letter(word.as_slice()) {
            return Usage::UnsupportedFlag(letter);
        }
        left = rest;
    }
    Usage::BadUsage
}

/// Whether the word begins with a sign.
fn begins_with_sign(word: &[u8]) -> bool
    ensures { result ≡ begins_with_sign_def word.now }
{
    match word {
        [byte, ..] => *byte == b'-' || *byte == b'+',
        _ => false,
    }
}

/// The letter of a word of a sign and one letter.
fn signed_letter(word: &[u8]) -> Option<u8>
    ensures { result ≡ signed_letter_def word.now }
{
    match word {
        [_, byte] => {
            if begins_with_sign(word) && byte.is_ascii_alphabetic() {
                Some(*byte)
            } else {
                None
            }
        }
        _ => None,
    }
}

/// `test`.
pub(crate) fn test(arguments: Texts) -> Result<Command, Usage>
    ensures { result ≡ test_def arguments }
{
    match test_fault(arguments.as_slice()) {
        Some(fault) => Err(fault),
        None => Ok(Command::Test(TestArgs { arguments })),
    }
}

/// `[`: as test, with a last `]`.
pub(crate) fn bracket(alloc: Global, words: Texts) -> Result<Result<Command, Usage>, Memory>
    ensures { IfOk result (λ read. read ≡ bracket_def words) }
{
    let Some(arguments) = before_bracket(words.as_slice()) else {
        return Ok(Err(Usage::BadUsage));
    };
    match test_fault(arguments) {
        Some(fault) => Ok(Err(fault)),
        None => {
            let arguments = Texts::copy_of(alloc, arguments)?;
            Ok(Ok(Command::Bracket(TestArgs { arguments })))
        }
    }
}

/// The words before a last `]`.
fn before_bracket(words: &[Vec<u8>]) -> Option<&[Vec<u8>]>
    ensures some { IfSome result (λ before. before_bracket (texts_of words.now) ≡ Some (texts_of before.now)) }
    ensures none { IfNone result (before_bracket (texts_of words.now) ≡ None) }
{
    let (last, before) = words.split_last()?;
    if last.as_slice() == b"]".as_slice() {
        Some(before)
    } else {
        None
    }
}

/// The usage fault of test with these arguments.
fn test_fault(arguments: &[Vec<u8>]) -> Option<Usage>
    ensures { result ≡ test_fault_def (texts_of arguments.now) }
{
    match arguments {
        [] | [_] => None,
        [operator, _] => fault_of_two(operator.as_slice()),
        [left, operator, right] => {
            fault_of_three(left.as_slice(), operator.as_slice(), right.as_slice())
        }
        [word, left, operator, right] => {
            if !is_not(word.as_slice()) {
                return Some(Usage::BadUsage);
            }
            fault_of_three(left.as_slice(), operator.as_slice(), right.as_slice())
        }
        _ => Some(Usage::BadUsage),
    }
}

/// The usage fault of an operator before one operand.
fn fault_of_two(operator: &[u8]) -> Option<Usage>
    ensures { result ≡ fault_of_two_def operator.now }
{
    match unary_of(operator) {
        Some(_) => None,
        None => Some(no_operator(operator)),
    }
}

/// The usage fault of an operator between two operands; where there is none, `!` may stand before two arguments.
fn fault_of_three(left: &[u8], operator: &[u8], right: &[u8]) -> Option<Usage>
    ensures { result ≡ fault_of_three_def left.now operator.now right.now }
{
    match binary_of(operator) {
        Some(Binary::Compare(_)) => numbers_fault(number_of(left), number_of(right)),
        Some(_) => None,
        None => {
            if is_not(left) {
                return fault_of_two(operator);
            }
            Some(no_operator(operator))
        }
    }
}

/// Two numbers are compared.
fn numbers_fault(left: Option<i64>, right: Option<i64>) -> Option<Usage>
    ensures { result ≡ numbers_fault_def left right }
{
    match (left, right) {
        (Some(_), Some(_)) => None,
        _ => Some(Usage::BadUsage),
    }
}

/// The usage fault of a word in the place of an operator.
fn no_operator(word: &[u8]) -> Usage
    ensures { result ≡ no_operator_def word.now }
{
    match word {
        [b'-', ..] => match signed_letter(word) {
            Some(letter) => Usage::UnsupportedFlag(letter),
            None => Usage::BadUsage,
        },
        _ => Usage::BadUsage,
    }
}
