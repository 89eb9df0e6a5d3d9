//! Parts of words that have their marks at once, and those that need the marks of a word first.

ghost use Rattle.std.specs.Prelude.{◌≡◌, ◌⊎◌, ◌++◌, IfOk};
ghost use Rattle.sh_tree.specs.Trees.{WordTree};
ghost use Rattle.sh_expand.specs.Given.{given_of};
ghost use Rattle.sh_expand.specs.Parameters.{name_of as name_of_def};
ghost use Rattle.sh_expand.specs.Values.{BeginsAs, begun, form_begun, word_in, word_in_form, text_in, unless_set as unless_set_def, where_set as where_set_def, needs, at_once, inside as inside_def, plain_manner as plain_manner_def, not_set as not_set_def};
ghost use Rattle.sh_tree.specs.Views.{part_tree, form_tree};

use crate::faults::ValueFault;
use crate::known::{Known, substituted};
use crate::marks::{Manner, Marked, add_bytes, add_value};
use crate::parameters::{Setting, add_length, add_plain, is_usable, name_of, or_nothing, text_of};
use ps_lines::Text;
use sh_arith::Env;
use sh_tree::{Form, Param, Part};
use std::alloc::Global;

/// How a part of a word begins.
#[derive(Debug, Drop)]
pub(crate) enum Begin {
    /// It is done: its marks were appended.
    Done,
    /// It needs the marks of the word in it, which is used so, and keeps the text of its parameter.
    Needs(Setting, Option<Text>),
}

/// The text of `${x?}` without a word.
const NOT_SET: &[u8] = b"parameter not set";

/// Begins a part.
#[tactic(auto, using(crate::proofs::ValueLemmas::begins))]
pub(crate) fn begin_part(
    alloc: Global,
    part: &Part,
    used: Setting,
    known: &Known<'_>,
    env: &Env,
    out: &mut Vec<Marked>,
) -> Result<Begin, ValueFault>
    ensures { BeginsAs (begun (given_of known.now) used env.now (part_tree part.now)) (word_in (part_tree part.now))
        (text_in (given_of known.now) env.now (part_tree part.now)) out.old.items out.new.items result }
{
    match part {
        Part::Plain(text) => {
            let Ok(()) = add_bytes(out, plain_manner(used), text.as_slice()) else {
                return Err(ValueFault::Memory);
            };
            Ok(Begin::Done)
        }
        Part::Quoted(text) => {
            let Ok(()) = add_value(out, true, text.as_slice()) else {
                return Err(ValueFault::Memory);
            };
            Ok(Begin::Done)
        }
        Part::Param { what, form, quoted } => {
            let Ok(text) = text_of(alloc, what, known, env) else {
                return Err(ValueFault::Memory);
            };
            begin_form(alloc, what, text, form, *quoted, used, known, out)
        }
        Part::Sub { number, quoted } => {
            let Ok(()) = add_value(out, *quoted, substituted(known, *number)) else {
                return Err(ValueFault::Memory);
            };
            Ok(Begin::Done)
        }
        Part::Arith { .. } => Ok(Begin::Needs(Setting::Joined, None)),
    }
}

/// Begins a parameter expansion; `text` is its parameter's text.
#[tactic(auto, using(crate::proofs::ValueLemmas::begins))]
fn begin_form(
    alloc: Global,
    what: &Param,
    text: Option<Text>,
    form: &Form,
    quoted: bool,
    used: Setting,
    known: &Known<'_>,
    out: &mut Vec<Marked>,
) -> Result<Begin, ValueFault>
    ensures { BeginsAs (form_begun (given_of known.now) used what.now quoted text (form_tree form.now)) (word_in_form (form_tree form.now)) text out.old.items out.new.items result }
{
    match form {
        Form::Plain => {
            let Ok(()) = add_plain(out, what, quoted, used, known, or_nothing(&text)) else {
                return Err(ValueFault::Memory);
            };
            Ok(Begin::Done)
        }
        Form::Length => {
            let Ok(()) = add_length(alloc, out, quoted, or_nothing(&text)) else {
                return Err(ValueFault::Memory);
            };
            Ok(Begin::Done)
        }
        Form::Default { colon, .. } => unless_set(out, quoted, *colon, text, inside(used)),
        Form::Assign { colon, .. } => unless_set(out, quoted, *colon, text, Setting::Joined),
        Form::Check { colon, word } => match word {
            Some(_) => unless_set(out, quoted, *colon, text, Setting::Joined),
            None => set_or_fault(alloc, out, what, quoted, *colon, text),
        },
        Form::Alternate { colon, .. } => where_set(out, quoted, *colon, text, inside(used)),
        Form::CutSuffix { .. } | Form::CutPrefix { .. } => {
            Ok(Begin::Needs(Setting::Joined, text))
        }
    }
}

/// Appends the parameter's text, where it counts as set; else a word is needed.
#[tactic(auto, using(crate::proofs::ValueLemmas::begins))]
fn unless_set(
    out: &mut Vec<Marked>,
    quoted: bool,
    colon: bool,
    text: Option<Text>,
    within: Setting,
) -> Result<Begin, ValueFault>
    ensures { (word : WordTree) → BeginsAs (unless_set_def quoted colon text (needs within word)) word text out.old.items out.new.items result }
{
    if !is_usable(colon, &text) {
        return Ok(Begin::Needs(within, text));
    }
    let Ok(()) = add_value(out, quoted, or_nothing(&text)) else {
        return Err(ValueFault::Memory);
    };
    Ok(Begin::Done)
}

/// Appends nothing where the parameter doesn't count as set; else a word is needed.
#[tactic(auto, using(crate::proofs::ValueLemmas::begins))]
fn where_set(
    out: &mut Vec<Marked>,
    quoted: bool,
    colon: bool,
    text: Option<Text>,
    within: Setting,
) -> Result<Begin, ValueFault>
    ensures { (word : WordTree) → BeginsAs (where_set_def quoted colon text (needs within word)) word text out.old.items out.new.items result }
{
    if is_usable(colon, &text) {
        return Ok(Begin::Needs(within, text));
    }
    let Ok(()) = add_value(out, quoted, b"") else {
        return Err(ValueFault::Memory);
    };
    Ok(Begin::Done)
}

/// Appends the parameter's text, which has to count as set.
#[tactic(auto, using(crate::proofs::ValueLemmas::begins))]
fn set_or_fault(
    alloc: Global,
    out: &mut Vec<Marked>,
    what: &Param,
    quoted: bool,
    colon: bool,
    text: Option<Text>,
) -> Result<Begin, ValueFault>
    ensures { (word : WordTree) → BeginsAs (unless_set_def quoted colon text (at_once (Err (ValueFault.Unset (name_of_def what.now) not_set_def)))) word text out.old.items out.new.items result }
{
    if !is_usable(colon, &text) {
        return Err(unset(alloc, what, NOT_SET));
    }
    let Ok(()) = add_value(out, quoted, or_nothing(&text)) else {
        return Err(ValueFault::Memory);
    };
    Ok(Begin::Done)
}

/// The fault of a parameter that is unset, told by this text; or want of memory.
pub(crate) fn unset(alloc: Global, what: &Param, text: &[u8]) -> ValueFault
    ensures { (result ≡ ValueFault.Unset (name_of_def what.now) text.now) ⊎ (result ≡ ValueFault.Memory) }
{
    let Ok(name) = name_of(alloc, what) else {
        return ValueFault::Memory;
    };
    let Ok(text) = Text::copy_of(alloc, text) else {
        return ValueFault::Memory;
    };
    ValueFault::Unset(name, text)
}

/// How a byte outside quotes is marked.
fn plain_manner(used: Setting) -> Manner
    ensures { result ≡ plain_manner_def used }
{
    match used {
        Setting::Outer | Setting::Joined => Manner::Written,
        Setting::Inner => Manner::Loose,
    }
}

/// How the word of an expansion is used.
fn inside(used: Setting) -> Setting
    ensures { result ≡ inside_def used }
{
    match used {
        Setting::Outer | Setting::Inner => Setting::Inner,
        Setting::Joined => Setting::Joined,
    }
}
