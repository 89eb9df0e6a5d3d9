//! The forms of an expansion (XCU 2.5, 2.6.2, narrowed).
ghost use Rattle.std.specs.Prelude.{◌≡◌, IfOk};
ghost use Rattle.ps_lines.specs.Bytes.{is_name_byte};
ghost use Rattle.sh_lex.specs.Texts.{unspliced, run};
ghost use Rattle.sh_lex.specs.Heads.{param_of, head_of};
ghost use Rattle.sh_tree.specs.Views.{word_tree, form_tree};
ghost use Rattle.sh_words.specs.Parameters.{braced, parenthesis_at, special, expansion, check_form, form_of, bare_form};
ghost use Rattle.sh_words.specs.Inner.Built.{expansion_of};

use ps_lines::{Memory, Text};
use sh_lex::{
    Class, Head, Introduced, Operator, Parameter, behind_run, brace_head, front, introduced_by, run,
};
use sh_tree::{Form, Param, Word};
use std::alloc::Global;

/// The form of an operator and this word.
pub fn form_with(operator: Operator, word: Word) -> Form
    ensures { form_tree result ≡ form_of operator (word_tree word) }
{
    match operator {
        Operator::Default(colon) => Form::Default { colon, word },
        Operator::Assign(colon) => Form::Assign { colon, word },
        Operator::Check(colon) => check(colon, word),
        Operator::Alternate(colon) => Form::Alternate { colon, word },
        Operator::CutSuffix(longest) => Form::CutSuffix { longest, word },
        Operator::CutPrefix(longest) => Form::CutPrefix { longest, word },
    }
}

/// The form of `?`, whose word is omitted where it has no part.
fn check(colon: bool, word: Word) -> Form
    ensures { form_tree result ≡ check_form colon (word_tree word) }
{
    if word.parts.is_empty() {
        Form::Check { colon, word: None }
    } else {
        Form::Check {
            colon,
            word: Some(word),
        }
    }
}

/// An expansion. The slice is what is left behind the part that is told.
#[derive(Debug, Drop)]
pub enum Expansion<'a> {
    /// A parameter without a word, with whether its length is meant.
    Whole(Param, bool, &'a [u8]),
    /// A `${ }` with a word, up to which it is read.
    WithWord(Param, Operator, &'a [u8]),
    /// A `$(`
    Commands(&'a [u8]),
    /// A `$((`
    Arithmetic(&'a [u8]),
    /// A `${` that has none of the forms.
    NoForm,
}

/// The form without a word.
pub fn bare_form(measured: bool) -> Form
    ensures { form_tree result ≡ bare_form measured }
{
    if measured { Form::Length } else { Form::Plain }
}

/// The expansion that a text behind a `$` begins.
pub fn find_expansion(alloc: Global, text: &[u8]) -> Result<Expansion<'_>, Memory>
    ensures { IfOk result (λ found. expansion_of found ≡ expansion text.now) }
{
    let Some((byte, rest)) = front(text) else {
        return Ok(Expansion::NoForm);
    };
    match introduced_by(byte) {
        Introduced::Braces => braced(alloc, brace_head(rest)),
        Introduced::Parenthesis => Ok(parenthesis(rest)),
        Introduced::Name => {
            let name = Param::Name(name(alloc, text)?);
            Ok(Expansion::Whole(name, false, behind_run(Class::Name, text)))
        }
        Introduced::Special => Ok(Expansion::Whole(special(byte), false, rest)),
        Introduced::OutOfProfile(_) | Introduced::Nothing => Ok(Expansion::NoForm),
    }
}

/// A digit, `@`, `*`, `#` or `?` behind a `$`.
fn special(byte: u8) -> Param
    ensures { result ≡ special byte }
{
    match byte {
        b'@' => Param::At,
        b'*' => Param::Star,
        b'#' => Param::Count,
        b'?' => Param::Status,
        _ => Param::Place(u32::from(byte.saturating_sub(b'0'))),
    }
}

/// Behind `$(`.
fn parenthesis(text: &[u8]) -> Expansion<'_>
    ensures { expansion_of result ≡ parenthesis_at text.now (unspliced text.now) }
{
    match front(text) {
        Some((b'(', rest)) => Expansion::Arithmetic(rest),
        _ => Expansion::Commands(text),
    }
}

/// The expansion of which this is the beginning.
fn braced<'a>(alloc: Global, head: Head<'a>) -> Result<Expansion<'a>, Memory>
    ensures { IfOk result (λ found. expansion_of found ≡ braced (head_of head.entry)) }
{
    match head {
        Head::Whole(what, measured, rest) => {
            Ok(Expansion::Whole(param(alloc, what)?, measured, rest))
        }
        Head::WithWord(what, by, rest) => Ok(Expansion::WithWord(param(alloc, what)?, by, rest)),
        Head::NoForm => Ok(Expansion::NoForm),
    }
}

/// The parameter, with a name of its own.
fn param(alloc: Global, what: Parameter<'_>) -> Result<Param, Memory>
    ensures { IfOk result (λ param. param ≡ param_of what.entry) }
{
    match what {
        Parameter::Name(text) => Ok(Param::Name(name(alloc, text)?)),
        Parameter::Place(number) => Ok(Param::Place(number)),
        Parameter::At => Ok(Param::At),
        Parameter::Star => Ok(Param::Star),
        Parameter::Count => Ok(Param::Count),
        Parameter::Status => Ok(Param::Status),
    }
}

/// The name at the beginning of the text: the longest run of its bytes.
pub fn name(alloc: Global, text: &[u8]) -> Result<Text, Memory>
    ensures { IfOk result (λ name. name ≡ run is_name_byte text.now) }
{
    Ok(Text::from_vec(run(alloc, Class::Name, text)?))
}
