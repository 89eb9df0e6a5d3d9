//! The words of the utilities that a graph runs.
ghost use Rattle.std.specs.Prelude.{◌≡◌, ◌++◌, length, IfOk, OnOk, OnErr};
ghost use Rattle.fl_classes.specs.Used.{is_cat as is_cat_def, words_by, words_used};

use fl_graph::{Node, NodeKind};
use ps_lines::Memory;
use std::alloc::Global;
use ut_args::Inv;
use ut_options::Texts;

/// Puts the words of the nodes' utilities behind these. Where memory is refused nothing has changed.
pub(crate) fn add_words(alloc: Global, used: &mut Vec<Texts>, nodes: &[Node]) -> Result<(), Memory>
    ensures ok { OnOk result (used.new.items ≡ used.old.items ++ words_used nodes.now) }
    ensures err { OnErr result (used.new.items ≡ used.old.items) }
{
    let mut words = words_of_nodes(alloc, nodes)?;
    used.append(&mut words)?;
    Ok(())
}

/// The words of the nodes' utilities: of each map and whole that has an in and isn't cat.
fn words_of_nodes(alloc: Global, nodes: &[Node]) -> Result<Vec<Texts>, Memory>
    ensures { IfOk result (λ words. words.items ≡ words_used nodes.now) }
{
    let mut words = Vec::new(alloc);
    for node in nodes {
        add_words_of(alloc, &mut words, &node.kind, node.ins.len())?;
    }
    Ok(words)
}

/// Puts the words of a node's utility behind these, if it has one that counts.
fn add_words_of(
    alloc: Global,
    words: &mut Vec<Texts>,
    kind: &NodeKind,
    ins: usize,
) -> Result<(), Memory>
    ensures { OnOk result (words.new.items ≡ words.old.items ++ words_by kind.now ins) }
{
    if let NodeKind::Map(inv) | NodeKind::Whole(inv) = kind {
        if ins > 0 && !matches!(inv, Inv::Cat(_)) {
            words.push(Texts::copy_of(alloc, inv.words())?)?;
        }
    }
    Ok(())
}
