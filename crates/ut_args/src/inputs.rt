//! The inputs and the files of an invocation.
ghost use Rattle.std.specs.Prelude.{◌≡◌, ◌≤◌, ◌-◌, ◌∷◌, ◌++◌, [], length, take, drop, get_or, false, Ok, IfOk, OnOk, if◌then◌else◌};
ghost use Rattle.std.specs.List.{count_by, list_all, list_any};
ghost use Rattle.ps_lines.specs.Lines.{is_empty};
ghost use Rattle.ps_lines.specs.Texts.{texts_of};
ghost use Rattle.ut_args.specs.Invocations.{command_of, words_of};
ghost use Rattle.ut_args.specs.Reading.{invocation};
ghost use Rattle.ut_args.specs.Inputs.{counted as counted_def, emptied, files_of, inputs_of, is_file, is_named, is_standard, joined_inputs as joined_inputs_def, operands_of, separate_inputs as separate_inputs_def, shared_inputs as shared_inputs_def, with_operands};

use crate::faults::ArgFault;
use crate::invocations::Inv;
use crate::reading::read_inv;
use ps_lines::Memory;
use std::alloc::Global;
use ut_options::Texts;

impl Inv {
    /// The operands that name its inputs, in order: files, or `-` for standard input; the empty text names none.
    pub fn operands(&self) -> &[Vec<u8>]
        ensures { texts_of result.now ≡ operands_of self.now }
    {
        match self {
            Inv::Cat(cat) => cat.args.operands.as_slice(),
            Inv::Grep(grep) => grep.args.operands.as_slice(),
            Inv::Cut(cut) => cut.args.operands.as_slice(),
            Inv::Head(head) => head.args.operands.as_slice(),
            Inv::Tail(tail) => tail.args.operands.as_slice(),
            Inv::Wc(wc) => wc.args.operands.as_slice(),
            Inv::Uniq(uniq) => uniq.args.operands.as_slice(),
            Inv::Sort(sort) => sort.args.operands.as_slice(),
            Inv::Paste(paste) => paste.args.operands.as_slice(),
            _ => &[],
        }
    }

    /// The paths of the files that it writes, in order: those of `tee`.
    pub fn files_written(&self) -> &[Vec<u8>]
        ensures { texts_of result.now ≡ files_of self.now }
    {
        match self {
            Inv::Tee(tee) => tee.args.files.as_slice(),
            _ => &[],
        }
    }

    /// How many inputs it reads. An operand that is the empty text stands for none, and the operands of cat, cut and sort are joined
    /// before.
    pub fn inputs(&self) -> u32
        ensures { result ≡ inputs_of self.now }
    {
        match self {
            Inv::Cat(_) | Inv::Cut(_) | Inv::Sort(_) => joined_inputs(self.operands()),
            Inv::Grep(_) | Inv::Head(_) | Inv::Tail(_) | Inv::Wc(_) | Inv::Uniq(_) =>
                separate_inputs(self.operands()),
            Inv::Paste(paste) => {
                if paste.args.serial {
                    return separate_inputs(self.operands());
                }
                shared_inputs(self.operands())
            }
            Inv::Tr(_) | Inv::Tee(_) => 1,
            _ => 0,
        }
    }

    /// The invocation with the empty text, which names no input, in place of each operand whose flag is set.
    ///
    /// `lacking` has the flags of its operands, in order; an operand without a flag stays. The new words are read again, as they
    /// determine the invocation.
    pub fn without(&self, alloc: Global, lacking: &[bool]) -> Result<Inv, Memory>
        ensures command { IfOk result (λ inv. command_of inv ≡ with_operands (emptied lacking.now (operands_of self.now)) (command_of self.now)) }
        ensures words { IfOk result (λ inv. words_of inv ≡ take (length (words_of self.now) - length (operands_of self.now)) (words_of self.now) ++ emptied lacking.now (operands_of self.now)) }
    {
        let words = self.words_without(alloc, lacking)?;
        match read_inv(alloc, words.as_slice()) {
            Ok(inv) => Ok(inv),
            Err(ArgFault::Memory) => Err(Memory),
            // the words of an invocation are one with emptied operands too
            Err(ArgFault::UnknownCommand(_)) => unreachable!(),
            Err(ArgFault::UnsupportedFlag(_, _)) => unreachable!(),
            Err(ArgFault::BadUsage(_)) => unreachable!(),
        }
    }

    /// The words of that invocation.
    fn words_without(&self, alloc: Global, lacking: &[bool]) -> Result<Texts, Memory>
        ensures asked { IfOk result (λ words. invocation words ≡ Ok (with_operands (emptied lacking.now (operands_of self.now)) (command_of self.now))) }
        ensures words { IfOk result (λ words. words ≡ take (length (words_of self.now) - length (operands_of self.now)) (words_of self.now) ++ emptied lacking.now (operands_of self.now)) }
    {
        emptied_words(alloc, self.words(), self.operands(), lacking)
    }
}

/// Words, of which the last are operands, with the empty text in place of each operand whose flag is set.
#[tactic(auto, using(crate::proofs::OperandLemmas::front_steps))]
fn emptied_words(
    alloc: Global,
    words: &[Vec<u8>],
    operands: &[Vec<u8>],
    lacking: &[bool],
) -> Result<Texts, Memory>
    requires { length operands.now ≤ length words.now }
    ensures { IfOk result (λ texts. texts ≡ take (length words.now - length operands.now) (texts_of words.now) ++ emptied lacking.now (texts_of operands.now)) }
{
    let mut texts = Texts::copy_of(alloc, &words[..words.len() - operands.len()])?;
    push_emptied(alloc, &mut texts, operands, lacking)?;
    Ok(texts)
}

/// Appends operands, with the empty text in place of each whose flag is set.
#[tactic(auto, using(crate::proofs::OperandLemmas::emptied_steps))]
fn push_emptied(
    alloc: Global,
    texts: &mut Texts,
    operands: &[Vec<u8>],
    lacking: &[bool],
) -> Result<(), Memory>
    ensures { OnOk result (texts.new ≡ texts.old ++ emptied lacking.now (texts_of operands.now)) }
{
    let mut flags = lacking;
    let mut left = operands;
    while let [operand, rest @ ..] = left {
        push_operand(alloc, texts, operand.as_slice(), is_first_set(flags))?;
        flags = behind_first(flags);
        left = rest;
    }
    Ok(())
}

/// Appends an operand, or the empty text in its place.
fn push_operand(alloc: Global, texts: &mut Texts, operand: &[u8], lacks: bool) -> Result<(), Memory>
    ensures { OnOk result (texts.new ≡ texts.old ++ (if lacks then [] else operand.now) ∷ []) }
{
    if lacks {
        return texts.push(alloc, b"");
    }
    texts.push(alloc, operand)
}

/// Whether there is a first flag, and it is set.
fn is_first_set(flags: &[bool]) -> bool
    ensures { result ≡ get_or flags.now 0 false }
{
    match flags {
        [flag, ..] => *flag,
        [] => false,
    }
}

/// The flags behind the first.
fn behind_first(flags: &[bool]) -> &[bool]
    ensures { result.now ≡ drop 1 flags.now }
{
    match flags {
        [_, others @ ..] => others,
        [] => flags,
    }
}

/// How many inputs there are where operands are joined before.
fn joined_inputs(operands: &[Vec<u8>]) -> u32
    ensures { result ≡ joined_inputs_def (texts_of operands.now) }
{
    match operands {
        [] => 1,
        operands => {
            if are_empty(operands) {
                return 0;
            }
            1
        }
    }
}

/// How many inputs there are where each operand that names one has its own.
fn separate_inputs(operands: &[Vec<u8>]) -> u32
    ensures { result ≡ separate_inputs_def (texts_of operands.now) }
{
    match operands {
        [] => 1,
        operands => counted(count_named(operands)),
    }
}

/// The same, with one input for all operands that are standard input.
fn shared_inputs(operands: &[Vec<u8>]) -> u32
    ensures { result ≡ shared_inputs_def (texts_of operands.now) }
{
    match operands {
        [] => 1,
        operands => {
            if has_standard(operands) {
                return counted(count_files(operands) + 1);
            }
            counted(count_files(operands))
        }
    }
}

/// So many, as a number of 32 bits counts.
fn counted(number: usize) -> u32
    ensures { result ≡ counted_def number }
{
    const MOST: usize = 4_294_967_295;
    if number < MOST {
        number as u32
    } else {
        u32::MAX
    }
}

/// Whether each of the operands is empty.
fn are_empty(operands: &[Vec<u8>]) -> bool
    ensures { result ≡ list_all is_empty (texts_of operands.now) }
{
    let mut left = operands;
    while let [operand, rest @ ..] = left {
        if !operand.is_empty() {
            return false;
        }
        left = rest;
    }
    true
}

/// How many of the operands name an input.
fn count_named(operands: &[Vec<u8>]) -> usize
    ensures count { result ≡ count_by is_named (texts_of operands.now) }
{
    let mut count = 0;
    let mut left = operands;
    while let [operand, rest @ ..] = left {
        if !operand.is_empty() {
            count += 1;
        }
        left = rest;
    }
    count
}

/// How many of the operands name a file.
fn count_files(operands: &[Vec<u8>]) -> usize
    ensures count { result ≡ count_by is_file (texts_of operands.now) }
    ensures most { result ≤ length operands.now }
{
    let mut count = 0;
    let mut left = operands;
    while let [operand, rest @ ..] = left {
        if !operand.is_empty() && operand.as_slice() != b"-".as_slice() {
            count += 1;
        }
        left = rest;
    }
    count
}

/// Whether one of the operands is standard input.
fn has_standard(operands: &[Vec<u8>]) -> bool
    ensures { result ≡ list_any is_standard (texts_of operands.now) }
{
    let mut left = operands;
    while let [operand, rest @ ..] = left {
        if operand.as_slice() == b"-".as_slice() {
            return true;
        }
        left = rest;
    }
    false
}
