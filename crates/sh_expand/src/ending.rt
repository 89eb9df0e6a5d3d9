//! What a part of a word makes of the marks of its word.

ghost use Rattle.std.specs.Prelude.{◌≡◌, ◌⊎◌, ◌++◌, Ok, Err, IfErr, IfOk, OnOk, OnErr, MatchResult};
ghost use Rattle.sh_expand.specs.Marks.{bare as bare_def, or_empty, value};
ghost use Rattle.sh_expand.specs.Parameters.{name_of as name_of_def};
ghost use Rattle.sh_expand.specs.Values.{Adds, Computes, Trims, Ends, FormEnds, form_assigns};
ghost use Rattle.sh_tree.specs.Views.{part_tree, form_tree};

use crate::beginning::unset;
use crate::faults::{ValueFault, arith_fault};
use crate::marks::{Marked, add_value, bare, pattern_of};
use crate::parameters::{or_nothing, set, signed_text};
use ps_lines::{Memory, Text};
use sh_arith::{Env, arith};
use sh_pattern::{Side, read_pattern, trimmed};
use sh_tree::{Form, Param, Part};
use std::alloc::Global;

/// Appends the value of the marks as an arithmetic expression (XCU 2.6.4).
#[tactic(auto, using(crate::proofs::ValueLemmas::ends))]
pub(crate) fn add_computed(
    alloc: Global,
    quoted: bool,
    text: &[u8],
    env: &mut Env,
    out: &mut Vec<Marked>,
) -> Result<(), ValueFault>
    ensures marks { OnOk result (Adds (λ marks. Computes quoted text.now env.old (Ok marks, env.new)) out.old.items out.new.items) }
    ensures fault { IfErr result (λ fault. Computes quoted text.now env.old (Err fault, env.new)) }
{
    match arith(alloc, text, env) {
        Ok(number) => {
            let Ok(value) = signed_text(alloc, number) else {
                return Err(ValueFault::Memory);
            };
            let Ok(()) = add_value(out, quoted, value.as_slice()) else {
                return Err(ValueFault::Memory);
            };
            Ok(())
        }
        Err(fault) => Err(arith_fault(fault)),
    }
}

/// Appends what a form makes of the marks of its word; `text` is its parameter's.
#[tactic(auto, using(crate::proofs::ValueLemmas::ends))]
pub(crate) fn end_form(
    alloc: Global,
    what: &Param,
    form: &Form,
    quoted: bool,
    text: &[u8],
    marks: &[Marked],
    out: &mut Vec<Marked>,
) -> Result<(), ValueFault>
    ensures marks { OnOk result (Adds (λ added. FormEnds what.now quoted text.now marks.now (form_tree form.now) (Ok added)) out.old.items out.new.items) }
    ensures fault { IfErr result (λ fault. FormEnds what.now quoted text.now marks.now (form_tree form.now) (Err fault) ⊎ (fault ≡ ValueFault.Memory)) }
{
    match form {
        Form::Default { .. } | Form::Alternate { .. } => add_marks(out, quoted, marks),
        Form::Assign { .. } => add_text(alloc, quoted, marks, out),
        Form::Check { word, .. } => match word {
            Some(_) => Err(unset_by(alloc, what, marks)),
            None => Ok(()),
        },
        Form::CutSuffix { longest, .. } => {
            add_trimmed(alloc, text, marks, Side::Suffix, *longest, quoted, out)
        }
        Form::CutPrefix { longest, .. } => {
            add_trimmed(alloc, text, marks, Side::Prefix, *longest, quoted, out)
        }
        Form::Plain | Form::Length => Ok(()),
    }
}

/// Appends the marks; in double quotes they are a part, also where there is none.
#[tactic(auto, using(crate::proofs::ValueLemmas::ends))]
fn add_marks(out: &mut Vec<Marked>, quoted: bool, marks: &[Marked]) -> Result<(), ValueFault>
    ensures ok { OnOk result (out.new.items ≡ out.old.items ++ or_empty quoted marks.now) }
    ensures memory { IfErr result (λ fault. fault ≡ ValueFault.Memory) }
{
    if !quoted || !marks.is_empty() {
        let Ok(()) = out.extend_from_slice(marks) else {
            return Err(ValueFault::Memory);
        };
        return Ok(());
    }
    let Ok(()) = out.push(Marked::EmptyPart) else {
        return Err(ValueFault::Memory);
    };
    Ok(())
}

/// Appends the text of the marks.
fn add_text(
    alloc: Global,
    quoted: bool,
    marks: &[Marked],
    out: &mut Vec<Marked>,
) -> Result<(), ValueFault>
    ensures ok { OnOk result (out.new.items ≡ out.old.items ++ value quoted (bare_def marks.now)) }
    ensures memory { IfErr result (λ fault. fault ≡ ValueFault.Memory) }
{
    let Ok(text) = bare(alloc, marks) else {
        return Err(ValueFault::Memory);
    };
    let Ok(()) = add_value(out, quoted, text.as_slice()) else {
        return Err(ValueFault::Memory);
    };
    Ok(())
}

/// The fault of a parameter that is unset, told by the text of the marks; or want of memory.
fn unset_by(alloc: Global, what: &Param, marks: &[Marked]) -> ValueFault
    ensures { (result ≡ ValueFault.Unset (name_of_def what.now) (bare_def marks.now)) ⊎ (result ≡ ValueFault.Memory) }
{
    match bare(alloc, marks) {
        Ok(text) => unset(alloc, what, text.as_slice()),
        Err(Memory) => ValueFault::Memory,
    }
}

/// Appends the text without a beginning or an ending that fits the pattern of these marks.
#[tactic(auto, using(crate::proofs::ValueLemmas::ends))]
fn add_trimmed(
    alloc: Global,
    text: &[u8],
    marks: &[Marked],
    side: Side,
    longest: bool,
    quoted: bool,
    out: &mut Vec<Marked>,
) -> Result<(), ValueFault>
    ensures ok { OnOk result (Adds (λ added. Trims side longest quoted text.now marks.now (Ok added)) out.old.items out.new.items) }
    ensures memory { IfErr result (λ fault. fault ≡ ValueFault.Memory) }
{
    let Ok(marks) = pattern_of(alloc, marks) else {
        return Err(ValueFault::Memory);
    };
    let Ok(pattern) = read_pattern(alloc, marks.as_slice()) else {
        return Err(ValueFault::Memory);
    };
    let Ok(rest) = trimmed(alloc, &pattern, text, side, longest) else {
        return Err(ValueFault::Memory);
    };
    let Ok(()) = add_value(out, quoted, rest) else {
        return Err(ValueFault::Memory);
    };
    Ok(())
}

/// Sets the parameter of `${x=word}` to the text of the marks of its word.
pub(crate) fn assign(
    alloc: Global,
    what: &Param,
    form: &Form,
    marks: &[Marked],
    env: &mut Env,
) -> Result<(), Memory>
    ensures ok { OnOk result (env.new ≡ form_assigns what.now marks.now (form_tree form.now) env.old) }
    ensures err { OnErr result (env.new ≡ env.old) }
{
    match form {
        Form::Assign { .. } => {
            let text = bare(alloc, marks)?;
            set(alloc, what, text.as_slice(), env)
        }
        Form::Plain
        | Form::Length
        | Form::Default { .. }
        | Form::Check { .. }
        | Form::Alternate { .. }
        | Form::CutSuffix { .. }
        | Form::CutPrefix { .. } => Ok(()),
    }
}

/// Appends what a part makes of the marks of its word; `text` is its parameter's.
#[tactic(auto, using(crate::proofs::ValueLemmas::ends))]
pub(crate) fn end_part(
    alloc: Global,
    part: &Part,
    text: Option<Text>,
    marks: &[Marked],
    env: &mut Env,
    out: &mut Vec<Marked>,
) -> Result<(), ValueFault>
    ensures marks { OnOk result (Adds (λ added. Ends text marks.now env.old (part_tree part.now) (Ok added, env.new)) out.old.items out.new.items) }
    ensures fault { IfErr result (λ fault. Ends text marks.now env.old (part_tree part.now) (Err fault, env.new)
        ⊎ ((fault ≡ ValueFault.Memory) × (env.new ≡ env.old))) }
{
    match part {
        Part::Arith { quoted, .. } => {
            let Ok(text) = bare(alloc, marks) else {
                return Err(ValueFault::Memory);
            };
            add_computed(alloc, *quoted, text.as_slice(), env, out)
        }
        Part::Param { what, form, quoted } => {
            match end_form(alloc, what, form, *quoted, or_nothing(&text), marks, out) {
                Ok(()) => {
                    let Ok(()) = assign(alloc, what, form, marks, env) else {
                        return Err(ValueFault::Memory);
                    };
                    Ok(())
                }
                Err(fault) => Err(fault),
            }
        }
        Part::Plain(_) | Part::Quoted(_) | Part::Sub { .. } => Ok(()),
    }
}
