//! What words give: the marks of their parts (XCU 2.6.2 to 2.6.4).

ghost use Rattle.std.specs.Prelude.{◌≡◌, Ok, Err, IfErr, IfOk, OnOk};
ghost use Rattle.sh_tree.specs.Views.{word_tree};
ghost use Rattle.sh_expand.specs.Given.{given_of};
ghost use Rattle.sh_expand.specs.Values.{WordGives, PartGives, Adds, begun, needs, word_in, word_in_form, text_in};
ghost use Rattle.sh_tree.specs.Views.{part_tree, form_tree, parts_tree};

use crate::beginning::{Begin, begin_part};
use crate::ending::end_part;
use crate::faults::ValueFault;
use crate::known::Known;
use crate::marks::Marked;
use crate::parameters::Setting;
use ps_lines::Text;
use sh_arith::Env;
use sh_tree::{Form, Part, Word};
use std::alloc::Global;

/// Appends what a word gives that is used so.
pub(crate) fn add_word(
    alloc: Global,
    word: &Word,
    used: Setting,
    known: &Known<'_>,
    env: &mut Env,
    out: &mut Vec<Marked>,
) -> Result<(), ValueFault>
    ensures marks { OnOk result (Adds (λ marks. WordGives (given_of known.now) used env.old (word_tree word.now) (Ok marks, env.new)) out.old.items out.new.items) }
    ensures fault { IfErr result (λ fault. WordGives (given_of known.now) used env.old (word_tree word.now) (Err fault, env.new)) }
{
    add_parts(alloc, word.parts.as_slice(), used, known, env, out)
}

/// Appends what the parts of a word give.
#[cycle(values)]
fn add_parts(
    alloc: Global,
    parts: &[Part],
    used: Setting,
    known: &Known<'_>,
    env: &mut Env,
    out: &mut Vec<Marked>,
) -> Result<(), ValueFault>
    ensures marks { OnOk result (Adds (λ marks. WordGives (given_of known.now) used env.old (parts_tree parts.now) (Ok marks, env.new)) out.old.items out.new.items) }
    ensures fault { IfErr result (λ fault. WordGives (given_of known.now) used env.old (parts_tree parts.now) (Err fault, env.new)) }
{
    for part in parts {
        match add_part(alloc, part, used, known, env, out) {
            Ok(()) => {}
            Err(fault) => return Err(fault),
        }
    }
    Ok(())
}

/// Appends what a part gives.
#[cycle(values)]
fn add_part(
    alloc: Global,
    part: &Part,
    used: Setting,
    known: &Known<'_>,
    env: &mut Env,
    out: &mut Vec<Marked>,
) -> Result<(), ValueFault>
    ensures marks { OnOk result (Adds (λ marks. PartGives (given_of known.now) used env.old (part_tree part.now) (Ok marks, env.new)) out.old.items out.new.items) }
    ensures fault { IfErr result (λ fault. PartGives (given_of known.now) used env.old (part_tree part.now) (Err fault, env.new)) }
{
    match begin_part(alloc, part, used, known, env, out) {
        Ok(Begin::Done) => Ok(()),
        Ok(Begin::Needs(within, text)) => {
            add_by_word(alloc, part, used, within, text, known, env, out)
        }
        Err(fault) => Err(fault),
    }
}

/// Appends what a part gives that needs the marks of its word, which is used so; `text` is its parameter's.
#[cycle(values)]
fn add_by_word(
    alloc: Global,
    part: &Part,
    used: Setting,
    within: Setting,
    text: Option<Text>,
    known: &Known<'_>,
    env: &mut Env,
    out: &mut Vec<Marked>,
) -> Result<(), ValueFault>
    requires begun { begun (given_of known.now) used env.old (part_tree part.now) ≡ needs within (word_in (part_tree part.now)) }
    requires text { text ≡ text_in (given_of known.now) env.old (part_tree part.now) }
    ensures marks { OnOk result (Adds (λ marks. PartGives (given_of known.now) used env.old (part_tree part.now) (Ok marks, env.new)) out.old.items out.new.items) }
    ensures fault { IfErr result (λ fault. PartGives (given_of known.now) used env.old (part_tree part.now) (Err fault, env.new)) }
{
    match marks_in(alloc, part, within, known, env) {
        Ok(marks) => end_part(alloc, part, text, marks.as_slice(), env, out),
        Err(fault) => Err(fault),
    }
}

/// The marks of the word that is in a part.
#[cycle(values)]
fn marks_in(
    alloc: Global,
    part: &Part,
    within: Setting,
    known: &Known<'_>,
    env: &mut Env,
) -> Result<Vec<Marked>, ValueFault>
    ensures marks { IfOk result (λ marks. WordGives (given_of known.now) within env.old (word_in (part_tree part.now)) (Ok marks.items, env.new)) }
    ensures fault { IfErr result (λ fault. WordGives (given_of known.now) within env.old (word_in (part_tree part.now)) (Err fault, env.new)) }
{
    match part {
        Part::Arith { parts, .. } => marks_of(alloc, parts.as_slice(), within, known, env),
        Part::Param { form, .. } => marks_in_form(alloc, form, within, known, env),
        Part::Plain(_) | Part::Quoted(_) | Part::Sub { .. } => {
            marks_of(alloc, &[], within, known, env)
        }
    }
}

/// The marks of the word that is in a form.
#[cycle(values)]
fn marks_in_form(
    alloc: Global,
    form: &Form,
    within: Setting,
    known: &Known<'_>,
    env: &mut Env,
) -> Result<Vec<Marked>, ValueFault>
    ensures marks { IfOk result (λ marks. WordGives (given_of known.now) within env.old (word_in_form (form_tree form.now)) (Ok marks.items, env.new)) }
    ensures fault { IfErr result (λ fault. WordGives (given_of known.now) within env.old (word_in_form (form_tree form.now)) (Err fault, env.new)) }
{
    match form {
        Form::Default { word, .. } => marks_of(alloc, word.parts.as_slice(), within, known, env),
        Form::Assign { word, .. } => marks_of(alloc, word.parts.as_slice(), within, known, env),
        Form::Check { word, .. } => match word {
            Some(word) => marks_of(alloc, word.parts.as_slice(), within, known, env),
            None => marks_of(alloc, &[], within, known, env),
        },
        Form::Alternate { word, .. } => marks_of(alloc, word.parts.as_slice(), within, known, env),
        Form::CutSuffix { word, .. } => marks_of(alloc, word.parts.as_slice(), within, known, env),
        Form::CutPrefix { word, .. } => marks_of(alloc, word.parts.as_slice(), within, known, env),
        Form::Plain | Form::Length => marks_of(alloc, &[], within, known, env),
    }
}

/// The marks of a word of these parts.
#[cycle(values)]
fn marks_of(
    alloc: Global,
    parts: &[Part],
    within: Setting,
    known: &Known<'_>,
    env: &mut Env,
) -> Result<Vec<Marked>, ValueFault>
    ensures marks { IfOk result (λ marks. WordGives (given_of known.now) within env.old (parts_tree parts.now) (Ok marks.items, env.new)) }
    ensures fault { IfErr result (λ fault. WordGives (given_of known.now) within env.old (parts_tree parts.now) (Err fault, env.new)) }
{
    let mut marks = Vec::new(alloc);
    match add_parts(alloc, parts, within, known, env, &mut marks) {
        Ok(()) => Ok(marks),
        Err(fault) => Err(fault),
    }
}
