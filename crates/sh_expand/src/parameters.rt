//! Parameters (XCU 2.5, 2.6.2): their texts, and the arguments as `$@` and `$*` give them.

ghost use Rattle.std.specs.Prelude.{◌≡◌, ◌<◌, ◌++◌, ◌∷◌, [], length, decimal, IfOk, IfSome, OnOk, OnErr, MatchOption};
ghost use Rattle.sh_expand.specs.Marks.{value};
ghost use Rattle.std.specs.Option.{option_copied};
ghost use Rattle.ps_lines.specs.Texts.{texts_of};
ghost use Rattle.sh_arith.specs.Values.{assigned_text};
ghost use Rattle.sh_expand.specs.Given.{given_of};
ghost use Rattle.sh_expand.specs.Parameters.{separator_of as separator_of_def, joined as joined_def, joined_behind, parameter_text, is_usable as is_usable_def, or_nothing as or_nothing_def, assigned, name_of as name_of_def, as_fields, behind_fields, plain_value, makes_fields};

use crate::known::{Known, argument};
use crate::marks::{Marked, add_value};
use crate::separators::ifs_of;
use ps_lines::{Memory, Text, decimal};
use sh_arith::Env;
use sh_tree::Param;
use std::alloc::Global;

/// How a word is used.
#[derive(Clone, Copy, Debug, PartialEq, Eq)]
pub(crate) enum Setting {
    /// It becomes fields, and its bytes outside quotes are as they are written.
    Outer,
    /// It is the word of such an expansion: its bytes outside quotes are split.
    Inner,
    /// Nothing is split: `$@` and `$*` are joined.
    Joined,
}

/// The byte that joins `$*`, the first of IFS; none where IFS is empty.
fn separator_of(env: &Env) -> &[u8]
    ensures { result.now ≡ separator_of_def env.now }
{
    let ifs = ifs_of(env);
    if ifs.is_empty() { ifs } else { &ifs[..1] }
}

/// A text in decimal.
pub(crate) fn number_text(alloc: Global, number: u64) -> Result<Text, Memory>
    ensures { IfOk result (λ text. text ≡ decimal number) }
{
    let mut digits = Vec::new(alloc);
    decimal(number, &mut digits)?;
    Text::copy_of(alloc, digits.as_slice())
}

/// A number in decimal, with a `-` where it is negative.
pub(crate) fn signed_text(alloc: Global, number: i64) -> Result<Vec<u8>, Memory>
    ensures { IfOk result (λ text. text.items ≡ assigned_text number) }
{
    let mut text = Vec::new(alloc);
    if number < 0 {
        text.push(b'-')?;
    }
    decimal(number.unsigned_abs(), &mut text)?;
    Ok(text)
}

/// The texts, with the separator between them.
fn joined(alloc: Global, separator: &[u8], texts: &[Vec<u8>]) -> Result<Text, Memory>
    ensures { IfOk result (λ text. text ≡ joined_def separator.now (texts_of texts.now)) }
{
    let mut text = Vec::new(alloc);
    if let Some((first, others)) = front(texts) {
        text.extend_from_slice(first)?;
        add_others(&mut text, separator, others)?;
    }
    Text::copy_of(alloc, text.as_slice())
}

/// The first text, and the others.
fn front(texts: &[Vec<u8>]) -> Option<(&[u8], &[Vec<u8>])>
    ensures first { MatchOption result (texts.now ≡ []) (λ r. texts_of texts.now ≡ r.0.now ∷ texts_of r.1.now) }
    ensures shorter { IfSome result (λ r. length r.1.now < length texts.now) }
{
    match texts {
        [] => None,
        [first, others @ ..] => Some((first.as_slice(), others)),
    }
}

/// Appends the texts, with the separator before each.
fn add_others(out: &mut Vec<u8>, separator: &[u8], texts: &[Vec<u8>]) -> Result<(), Memory>
    ensures { OnOk result (out.new.items ≡ out.old.items ++ joined_behind separator.now (texts_of texts.now)) }
{
    let mut left = texts;
    while let Some((text, others)) = front(left) {
        out.extend_from_slice(separator)?;
        out.extend_from_slice(text)?;
        left = others;
    }
    Ok(())
}

/// Appends the arguments, with the end of a field between them.
fn add_fields(out: &mut Vec<Marked>, quoted: bool, texts: &[Vec<u8>]) -> Result<(), Memory>
    ensures { OnOk result (out.new.items ≡ out.old.items ++ as_fields quoted (texts_of texts.now)) }
{
    match front(texts) {
        Some((first, others)) => {
            add_value(out, quoted, first)?;
            add_other_fields(out, quoted, others)
        }
        None => Ok(()),
    }
}

/// Appends the arguments, with the end of a field before each.
fn add_other_fields(out: &mut Vec<Marked>, quoted: bool, texts: &[Vec<u8>]) -> Result<(), Memory>
    ensures { OnOk result (out.new.items ≡ out.old.items ++ behind_fields quoted (texts_of texts.now)) }
{
    let mut left = texts;
    while let Some((text, others)) = front(left) {
        out.push(Marked::FieldEnd)?;
        add_value(out, quoted, text)?;
        left = others;
    }
    Ok(())
}

/// The text of a parameter, or none where it is unset. That of `$@` and `$*` is their arguments, joined.
pub(crate) fn text_of(
    alloc: Global,
    what: &Param,
    known: &Known<'_>,
    env: &Env,
) -> Result<Option<Text>, Memory>
    ensures { IfOk result (λ text. text ≡ parameter_text (given_of known.now) env.now what.now) }
{
    match what {
        Param::Name(name) => copied(alloc, env.get(name.as_slice())),
        Param::Place(place) => copied(alloc, argument(known, *place)),
        Param::At => Ok(Some(joined(alloc, b" ", known.args)?)),
        Param::Star => Ok(Some(joined(alloc, separator_of(env), known.args)?)),
        Param::Count => Ok(Some(number_text(alloc, known.args.len() as u64)?)),
        Param::Status => Ok(Some(number_text(alloc, u64::from(known.status))?)),
    }
}

/// A text of its own.
fn copied(alloc: Global, text: Option<&[u8]>) -> Result<Option<Text>, Memory>
    ensures { IfOk result (λ copy. copy ≡ option_copied text.entry) }
{
    match text {
        Some(text) => Ok(Some(Text::copy_of(alloc, text)?)),
        None => Ok(None),
    }
}

/// Whether the parameter counts as set; with the colon an empty one doesn't.
pub(crate) fn is_usable(colon: bool, text: &Option<Text>) -> bool
    ensures { result ≡ is_usable_def colon text.now }
{
    match text {
        Some(text) => match text.as_slice() {
            [] => !colon,
            [..] => true,
        },
        None => false,
    }
}

/// The text, or nothing where the parameter is unset.
pub(crate) fn or_nothing(text: &Option<Text>) -> &[u8]
    ensures { result.now ≡ or_nothing_def text.now }
{
    match text {
        Some(text) => text.as_slice(),
        None => b"",
    }
}

/// Appends the length of a text in decimal.
pub(crate) fn add_length(
    alloc: Global,
    out: &mut Vec<Marked>,
    quoted: bool,
    text: &[u8],
) -> Result<(), Memory>
    ensures { OnOk result (out.new.items ≡ out.old.items ++ value quoted (decimal (length text.now))) }
{
    let length = number_text(alloc, text.len() as u64)?;
    add_value(out, quoted, length.as_slice())
}

/// Sets the parameter to a text. Only names are variables.
pub(crate) fn set(alloc: Global, what: &Param, text: &[u8], env: &mut Env) -> Result<(), Memory>
    ensures ok { OnOk result (env.new ≡ assigned what.now text.now env.old) }
    ensures err { OnErr result (env.new ≡ env.old) }
{
    match what {
        Param::Name(name) => env.set(alloc, name.as_slice(), text),
        Param::Place(_) | Param::At | Param::Star | Param::Count | Param::Status => Ok(()),
    }
}

/// How a fault names the parameter.
pub(crate) fn name_of(alloc: Global, what: &Param) -> Result<Text, Memory>
    ensures { IfOk result (λ name. name ≡ name_of_def what.now) }
{
    match what {
        Param::Name(name) => Text::copy_of(alloc, name.as_slice()),
        Param::Place(place) => number_text(alloc, u64::from(*place)),
        Param::At => Text::copy_of(alloc, b"@"),
        Param::Star => Text::copy_of(alloc, b"*"),
        Param::Count => Text::copy_of(alloc, b"#"),
        Param::Status => Text::copy_of(alloc, b"?"),
    }
}

/// Appends what `$x`, `$@` or `$*` gives; `text` is the parameter's text.
pub(crate) fn add_plain(
    out: &mut Vec<Marked>,
    what: &Param,
    quoted: bool,
    setting: Setting,
    known: &Known<'_>,
    text: &[u8],
) -> Result<(), Memory>
    ensures { OnOk result (out.new.items ≡ out.old.items ++ plain_value (given_of known.now) setting what.now quoted text.now) }
{
    if makes_fields(what, quoted, setting) {
        add_fields(out, quoted, known.args)
    } else {
        add_value(out, quoted, text)
    }
}

/// Whether the parameter gives a field for each argument: `$@`, and `$*` outside quotes, where fields are made.
fn makes_fields(what: &Param, quoted: bool, setting: Setting) -> bool
    ensures { result ≡ makes_fields what.now quoted setting }
{
    match setting {
        Setting::Joined => false,
        Setting::Outer | Setting::Inner => match what {
            Param::At => true,
            Param::Star => !quoted,
            Param::Name(_) | Param::Place(_) | Param::Count | Param::Status => false,
        },
    }
}
