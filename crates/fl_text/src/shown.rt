//! What a node's kind has beside its edges and its stage, looked at.
ghost use Rattle.std.specs.Prelude.{◌≡◌, option_map};
ghost use Rattle.std.specs.Option.{option_copied};
ghost use Rattle.ut_args.specs.Invocations.{words_of};
ghost use Rattle.fl_text.specs.Parts.{parts_of};

use crate::names::Name;
use fl_graph::{From, NodeKind, To};
use ps_lines::Text;
use ps_world::{Mode, Path};
use ut_args::Inv;

/// The kind's name.
pub fn name_of(kind: &NodeKind) -> Name
    ensures { result ≡ (parts_of kind.now).name }
{
    match kind {
        NodeKind::Source(From::Input) | NodeKind::Source(From::File(_)) => Name::Source,
        NodeKind::Text(_) => Name::Text,
        NodeKind::Split => Name::Split,
        NodeKind::Map(_) => Name::Map,
        NodeKind::Whole(_) => Name::Whole,
        NodeKind::Cat { .. } => Name::Cat,
        NodeKind::Agg(_) => Name::Agg,
        NodeKind::Finish(_) => Name::Finish,
        NodeKind::TeeFile(_, _) => Name::Tee,
        NodeKind::Drain => Name::Drain,
        NodeKind::Sink(To::Output) | NodeKind::Sink(To::File(_, _)) => Name::Sink,
    }
}

/// Whether a file is written behind what it holds, where one is written.
pub fn append_of(kind: &NodeKind) -> Option<bool>
    ensures { result ≡ (parts_of kind.now).append }
{
    match kind {
        NodeKind::TeeFile(_, mode) | NodeKind::Sink(To::File(_, mode)) => {
            Some(*mode == Mode::Append)
        }
        _ => None,
    }
}

/// Whether a cat closes its inputs.
pub fn close_of(kind: &NodeKind) -> Option<bool>
    ensures { result ≡ (parts_of kind.now).close }
{
    match kind {
        NodeKind::Cat { close } => Some(*close),
        _ => None,
    }
}

/// The path of a file that is read or written.
pub fn path_of(kind: &NodeKind) -> Option<&Path>
    ensures { option_copied result ≡ (parts_of kind.now).path }
{
    match kind {
        NodeKind::Source(From::File(path))
        | NodeKind::TeeFile(path, _)
        | NodeKind::Sink(To::File(path, _)) => Some(path),
        _ => None,
    }
}

/// The text of a text node.
pub fn text_of(kind: &NodeKind) -> Option<&Text>
    ensures { option_copied result ≡ (parts_of kind.now).text }
{
    match kind {
        NodeKind::Text(text) => Some(text),
        _ => None,
    }
}

/// The invocation that a node runs.
pub fn inv_of(kind: &NodeKind) -> Option<&Inv>
    ensures { option_map (λ inv. words_of inv.now) result ≡ (parts_of kind.now).words }
{
    match kind {
        NodeKind::Map(inv) | NodeKind::Whole(inv) | NodeKind::Agg(inv) | NodeKind::Finish(inv) => {
            Some(inv)
        }
        _ => None,
    }
}
