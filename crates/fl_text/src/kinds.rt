//! The kind of node that parts are.
ghost use Rattle.std.specs.Prelude.{◌≡◌, None, option_and_then, option_map, IfOk, is_some};
ghost use Rattle.ps_lines.specs.Texts.{texts_of};
ghost use Rattle.fl_graph.specs.declared.kinds.NodeKind.TheVariants as kind;
ghost use Rattle.fl_text.specs.Inner.Kinds.{inv_of, kind_from as kind_from_def, kind_of as kind_of_def, mode_of as mode_of_def, parts_fit as parts_fit_def, sink_of as sink_of_def, source_of as source_of_def, tee_of as tee_of_def};

use crate::names::Name;
use crate::parts::Parts;
use fl_graph::{From, NodeKind, To};
use ps_lines::{Memory, Text};
use ps_world::{Mode, Path};
use std::alloc::Global;
use ut_args::{ArgFault, Inv, read_inv};
use ut_options::Texts;

/// The kind of node that parts are, if its name has these and no others.
pub fn kind_of(alloc: Global, parts: Parts) -> Result<Option<NodeKind>, Memory>
    ensures { IfOk result (λ made. made ≡ kind_of_def parts) }
{
    if !parts_fit(&parts) {
        return Ok(None);
    }
    kind_from(alloc, parts)
}

/// Whether these are parts that a node of this name has.
fn parts_fit(parts: &Parts) -> bool
    ensures { result ≡ parts_fit_def parts.now }
{
    let append = parts.append.is_some();
    let close = parts.close.is_some();
    let path = parts.path.is_some();
    let text = parts.text.is_some();
    let words = parts.words.is_some();
    match parts.name {
        Name::Source => !append && !close && !text && !words,
        Name::Text => !append && !close && !path && !words,
        Name::Split | Name::Drain => !append && !close && !path && !text && !words,
        Name::Map | Name::Whole | Name::Agg | Name::Finish => {
            !append && !close && !path && !text
        }
        Name::Cat => !append && !path && !text && !words,
        Name::Tee | Name::Sink => !close && !text && !words,
    }
}

/// The kind of this name, with the parts that it asks for.
fn kind_from(alloc: Global, parts: Parts) -> Result<Option<NodeKind>, Memory>
    ensures { IfOk result (λ made. made ≡ kind_from_def parts.name parts) }
{
    let Parts {
        name,
        append,
        close,
        path,
        text,
        words,
    } = parts;
    match name {
        Name::Source => Ok(Some(NodeKind::Source(source_of(path)))),
        Name::Text => Ok(text_of(text)),
        Name::Split => Ok(Some(NodeKind::Split)),
        Name::Map => map_of(alloc, &words),
        Name::Whole => whole_of(alloc, &words),
        Name::Cat => Ok(cat_of(close)),
        Name::Agg => agg_of(alloc, &words),
        Name::Finish => finish_of(alloc, &words),
        Name::Tee => Ok(tee_of(path, append)),
        Name::Drain => Ok(Some(NodeKind::Drain)),
        Name::Sink => Ok(sink_kind(path, append)),
    }
}

/// A text, which has its bytes.
fn text_of(text: Option<Text>) -> Option<NodeKind>
    ensures { result ≡ option_map kind.Text text }
{
    match text {
        Some(text) => Some(NodeKind::Text(text)),
        None => None,
    }
}

/// A cat, which closes its inputs or doesn't.
fn cat_of(close: Option<bool>) -> Option<NodeKind>
    ensures { result ≡ option_map kind.Cat close }
{
    match close {
        Some(close) => Some(NodeKind::Cat { close }),
        None => None,
    }
}

/// A map, which has an invocation.
fn map_of(alloc: Global, words: &Option<Texts>) -> Result<Option<NodeKind>, Memory>
    ensures { IfOk result (λ made. made ≡ option_map kind.Map (option_and_then inv_of words.now)) }
{
    match inv_in(alloc, words)? {
        Some(inv) => Ok(Some(NodeKind::Map(inv))),
        None => Ok(None),
    }
}

/// A whole, which has an invocation.
fn whole_of(alloc: Global, words: &Option<Texts>) -> Result<Option<NodeKind>, Memory>
    ensures { IfOk result (λ made. made ≡ option_map kind.Whole (option_and_then inv_of words.now)) }
{
    match inv_in(alloc, words)? {
        Some(inv) => Ok(Some(NodeKind::Whole(inv))),
        None => Ok(None),
    }
}

/// An aggregate, which has an invocation.
fn agg_of(alloc: Global, words: &Option<Texts>) -> Result<Option<NodeKind>, Memory>
    ensures { IfOk result (λ made. made ≡ option_map kind.Agg (option_and_then inv_of words.now)) }
{
    match inv_in(alloc, words)? {
        Some(inv) => Ok(Some(NodeKind::Agg(inv))),
        None => Ok(None),
    }
}

/// A finish, which has an invocation.
fn finish_of(alloc: Global, words: &Option<Texts>) -> Result<Option<NodeKind>, Memory>
    ensures { IfOk result (λ made. made ≡ option_map kind.Finish (option_and_then inv_of words.now)) }
{
    match inv_in(alloc, words)? {
        Some(inv) => Ok(Some(NodeKind::Finish(inv))),
        None => Ok(None),
    }
}

/// A sink, of a file or of standard output.
fn sink_kind(path: Option<Path>, append: Option<bool>) -> Option<NodeKind>
    ensures { result ≡ option_map kind.Sink (sink_of_def path append) }
{
    match sink_of(path, append) {
        Some(sink) => Some(NodeKind::Sink(sink)),
        None => None,
    }
}

/// Where a source has its bytes from.
fn source_of(path: Option<Path>) -> From
    ensures { result ≡ source_of_def path }
{
    match path {
        Some(path) => From::File(path),
        None => From::Input,
    }
}

/// Where a sink writes its bytes to: a file has a path and a mode, and standard output neither.
fn sink_of(path: Option<Path>, append: Option<bool>) -> Option<To>
    ensures { result ≡ sink_of_def path append }
{
    match path {
        Some(path) => match append {
            Some(append) => Some(To::File(path, mode_of(append))),
            None => None,
        },
        None => match append {
            Some(_) => None,
            None => Some(To::Output),
        },
    }
}

/// A tee, which has a path and a mode.
fn tee_of(path: Option<Path>, append: Option<bool>) -> Option<NodeKind>
    ensures { result ≡ tee_of_def path append }
{
    match path {
        Some(path) => match append {
            Some(append) => Some(NodeKind::TeeFile(path, mode_of(append))),
            None => None,
        },
        None => None,
    }
}

/// How a file is written.
fn mode_of(append: bool) -> Mode
    ensures { result ≡ mode_of_def append }
{
    if append { Mode::Append } else { Mode::Fresh }
}

/// The invocation that words are, where they are there and are one.
fn inv_in(alloc: Global, words: &Option<Texts>) -> Result<Option<Inv>, Memory>
    ensures { IfOk result (λ inv. inv ≡ option_and_then inv_of words.now) }
{
    match words {
        Some(words) => inv_of_words(alloc, words.as_slice()),
        None => Ok(None),
    }
}

/// The invocation that words are, if they are one.
#[tactic(auto, using(crate::proofs::KindLemmas::inv_steps))]
fn inv_of_words(alloc: Global, words: &[Vec<u8>]) -> Result<Option<Inv>, Memory>
    ensures { IfOk result (λ inv. inv ≡ inv_of (texts_of words.now)) }
{
    if words.is_empty() {
        return Ok(None);
    }
    match read_inv(alloc, words) {
        Ok(inv) => Ok(Some(inv)),
        Err(fault) => none_of(fault),
    }
}

/// No invocation where words are none; but want of memory says nothing of them.
fn none_of(fault: ArgFault) -> Result<Option<Inv>, Memory>
    ensures { IfOk result (λ inv. (inv ≡ None) × (fault ≡ ArgFault.Memory → ⊥)) }
{
    match fault {
        ArgFault::Memory => Err(Memory),
        ArgFault::UnknownCommand(_) | ArgFault::UnsupportedFlag(_, _) | ArgFault::BadUsage(_) => {
            Ok(None)
        }
    }
}
