//! Options and operands, read from words.
ghost use Rattle.std.specs.Prelude.{◌≡◌, ◌++◌, ◌∷◌, [], IfOk, OnOk, Some, None, false, codes, if◌then◌else◌};
ghost use Rattle.std.specs.Str.{all_ascii_digits, bytes_eq};
ghost use Rattle.ps_lines.specs.Lines.{is_empty};
ghost use Rattle.ps_lines.specs.Texts.{texts_of};
ghost use Rattle.ut_options.specs.Rows.{row_of};
ghost use Rattle.ut_options.specs.Scanning.{begins_with_hyphen as begins_with_hyphen_def, is_count as is_count_def, is_operand as is_operand_def, letters_given, letters_step, scanned, word_given, word_step};

use crate::given::Options;
use crate::letters::{Letters, Takes};
use crate::texts::Texts;
use crate::usage::Usage;
use ps_lines::Memory;
use std::alloc::Global;

/// What the words behind a command's name give.
#[derive(Debug, Drop)]
pub struct Scanned {
    /// The options, in order.
    pub options: Options,
    /// The operands behind them.
    pub operands: Texts,
}

/// How the reading goes on behind a word.
#[derive(Clone, Copy, Debug, PartialEq, Eq)]
pub(crate) enum Step {
    /// With the next word, which is the argument of this letter.
    Next(Option<u8>),
    /// The word and those behind it are operands.
    Operands,
    /// The words behind it are operands.
    Ends,
    /// The command has no option of this letter.
    Unlisted(u8),
}

/// The options and operands of the words behind a command's name.
///
/// The first letter from the left that the command doesn't list is told, else bad usage where the last letter's argument is missing.
pub fn scan(
    alloc: Global,
    letters: &Letters,
    words: &[Vec<u8>],
) -> Result<Result<Scanned, Usage>, Memory>
    ensures { IfOk result (λ read. read ≡ scanned (row_of letters.now) (texts_of words.now)) }
{
    let mut options = Options::new(alloc);
    let mut waiting = None;
    let mut left = words;
    while let [word, rest @ ..] = left {
        match read_word(alloc, &mut options, letters, waiting, word.as_slice())? {
            Step::Next(next) => waiting = next,
            Step::Operands => return Ok(Ok(with_operands(alloc, options, left)?)),
            Step::Ends => return Ok(Ok(with_operands(alloc, options, rest)?)),
            Step::Unlisted(letter) => return Ok(Err(Usage::UnsupportedFlag(letter))),
        }
        left = rest;
    }
    if waiting.is_some() {
        return Ok(Err(Usage::BadUsage));
    }
    Ok(Ok(with_operands(alloc, options, &[])?))
}

/// Options with operands behind them.
fn with_operands(alloc: Global, options: Options, operands: &[Vec<u8>]) -> Result<Scanned, Memory>
    ensures options { IfOk result (λ scanned. scanned.options ≡ options) }
    ensures operands { IfOk result (λ scanned. scanned.operands ≡ texts_of operands.now) }
{
    let operands = Texts::copy_of(alloc, operands)?;
    Ok(Scanned { options, operands })
}

/// Appends the options of one word, where a letter before it may want it as its argument.
fn read_word(
    alloc: Global,
    options: &mut Options,
    letters: &Letters,
    waiting: Option<u8>,
    word: &[u8],
) -> Result<Step, Memory>
    ensures step { IfOk result (λ step. step ≡ word_step (row_of letters.now) waiting word.now) }
    ensures options { OnOk result (options.new ≡ options.old ++ word_given (row_of letters.now) waiting word.now) }
{
    if let Some(letter) = waiting {
        options.push(alloc, letter, word)?;
        return Ok(Step::Next(None));
    }
    if is_operand(word) {
        return Ok(Step::Operands);
    }
    if word == b"--".as_slice() {
        return Ok(Step::Ends);
    }
    read_options(alloc, options, letters, word)
}

/// Appends the options of a word that begins with a hyphen.
fn read_options(
    alloc: Global,
    options: &mut Options,
    letters: &Letters,
    word: &[u8],
) -> Result<Step, Memory>
    requires no_operand { is_operand_def word.now ≡ false }
    requires no_end { bytes_eq word.now (codes "--") ≡ false }
    ensures step { IfOk result (λ step. step ≡ word_step (row_of letters.now) None word.now) }
    ensures options { OnOk result (options.new ≡ options.old ++ word_given (row_of letters.now) None word.now) }
{
    let Some((_, behind_hyphen)) = word.split_first() else {
        return Ok(Step::Operands);
    };
    if is_count(letters, behind_hyphen) {
        options.push(alloc, b'n', behind_hyphen)?;
        return Ok(Step::Next(None));
    }
    read_letters(alloc, options, letters, behind_hyphen)
}

/// Appends the options that letters of one word give.
fn read_letters(
    alloc: Global,
    options: &mut Options,
    letters: &Letters,
    word: &[u8],
) -> Result<Step, Memory>
    ensures step { IfOk result (λ step. step ≡ letters_step (row_of letters.now) word.now) }
    ensures options { OnOk result (options.new ≡ options.old ++ letters_given (row_of letters.now) word.now) }
{
    let mut left = word;
    while let [letter, rest @ ..] = left {
        match letters.takes(*letter) {
            Takes::Nothing => options.push(alloc, *letter, b"")?,
            Takes::Argument => return read_argument(alloc, options, *letter, rest),
            Takes::Unlisted => return Ok(Step::Unlisted(*letter)),
        }
        left = rest;
    }
    Ok(Step::Next(None))
}

/// Appends a letter with its argument, which is the rest of its word, if any, else the next word.
fn read_argument(
    alloc: Global,
    options: &mut Options,
    letter: u8,
    rest: &[u8],
) -> Result<Step, Memory>
    ensures step { IfOk result (λ step. step ≡ (if is_empty rest.now then Step.Next (Some letter) else Step.Next None)) }
    ensures options { OnOk result (options.new ≡ options.old ++ (if is_empty rest.now then [] else record { letter = letter; argument = rest.now } ∷ [])) }
{
    if rest.is_empty() {
        return Ok(Step::Next(Some(letter)));
    }
    options.push(alloc, letter, rest)?;
    Ok(Step::Next(None))
}

/// Whether the word begins with no hyphen, or is one alone (XBD 12.2, guideline 13).
fn is_operand(word: &[u8]) -> bool
    ensures { result ≡ is_operand_def word.now }
{
    !begins_with_hyphen(word) || word == b"-".as_slice()
}

/// Whether the word begins with a hyphen.
fn begins_with_hyphen(word: &[u8]) -> bool
    ensures { result ≡ begins_with_hyphen_def word.now }
{
    match word {
        [byte, ..] => *byte == b'-',
        _ => false,
    }
}

/// Whether the bytes behind a hyphen are a count.
fn is_count(letters: &Letters, behind_hyphen: &[u8]) -> bool
    ensures { result ≡ is_count_def (row_of letters.now) behind_hyphen.now }
{
    letters.counts && !behind_hyphen.is_empty() && are_digits(behind_hyphen)
}

/// Whether all the bytes are digits.
fn are_digits(text: &[u8]) -> bool
    ensures { result ≡ all_ascii_digits text.now }
{
    let mut left = text;
    while let [byte, rest @ ..] = left {
        if !byte.is_ascii_digit() {
            return false;
        }
        left = rest;
    }
    true
}
