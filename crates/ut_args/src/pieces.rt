//! Texts between separators.
ghost use Rattle.std.specs.Prelude.{◌≡◌, ◌<◌, ◌≤◌, ◌++◌, length, Some, None, IfSome, IfNone, OnOk};
ghost use Rattle.ut_args.specs.Pieces.{before_separator, cut_at as cut_at_def, from_separator, pieces};

use ps_lines::Memory;
use std::alloc::Global;
use ut_options::Texts;

/// The texts before and behind the first separator.
pub(crate) fn cut_at<'t>(separators: &[u8], text: &'t [u8]) -> Option<(&'t [u8], &'t [u8])>
    ensures cut { IfSome result (λ cut. cut_at_def separators.now text.now ≡ Some (cut.0.now, cut.1.now)) }
    ensures none { IfNone result (cut_at_def separators.now text.now ≡ None) }
    ensures shorter { IfSome result (λ cut. length cut.1.now < length text.now) }
{
    let (before, from) = split_at_separator(separators, text);
    match from {
        [] => None,
        [_, behind @ ..] => Some((before, behind)),
    }
}

/// The bytes before the first separator, and those from it on.
fn split_at_separator<'t>(separators: &[u8], text: &'t [u8]) -> (&'t [u8], &'t [u8])
    ensures before { result.0.now ≡ before_separator separators.now text.now }
    ensures from { result.1.now ≡ from_separator separators.now text.now }
    ensures shorter { length result.1.now ≤ length text.now }
{
    let mut count = 0;
    let mut left = text;
    while let [byte, rest @ ..] = left {
        if separators.contains(byte) {
            break;
        }
        count += 1;
        left = rest;
    }
    (&text[..count], left)
}

/// Appends the texts between the separators of a text.
#[tactic(auto, using(crate::proofs::PieceLemmas::pieces_steps))]
pub(crate) fn push_pieces(
    alloc: Global,
    texts: &mut Texts,
    separators: &[u8],
    text: &[u8],
) -> Result<(), Memory>
    ensures { OnOk result (texts.new ≡ texts.old ++ pieces separators.now text.now) }
{
    let mut left = text;
    while let Some((piece, behind)) = cut_at(separators, left) {
        texts.push(alloc, piece)?;
        left = behind;
    }
    texts.push(alloc, left)
}
