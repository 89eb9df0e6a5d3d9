//! Texts in pieces, for what is tried over every cutting.
ghost use Rattle.std.specs.Prelude.{◌≡◌, ◌++◌, IfOk};
ghost use Rattle.std.specs.List.{concat};
ghost use Rattle.ps_lines.specs.Texts.{texts_of};

use std::alloc::{AllocError, Global};

/// The text in pieces: it is cut behind each byte whose bit is set in `cuts`, the lowest bit for the first byte.
#[tactic(auto, using(crate::proofs::StreamLemmas::pieces))]
pub fn cut_behind(alloc: Global, text: &[u8], cuts: u64) -> Result<Vec<Vec<u8>>, AllocError>
    ensures { IfOk result (λ pieces. concat (texts_of pieces.items) ≡ text.now) }
{
    let mut pieces = Vec::new(alloc);
    let mut piece = Vec::new(alloc);
    let mut ends = cuts;
    let mut left = text;
    while let [byte, rest @ ..] = left {
        piece.push(*byte)?;
        piece = end_piece(&mut pieces, piece, ends % 2 == 1)?;
        ends /= 2;
        left = rest;
    }
    pieces.push(piece)?;
    Ok(pieces)
}

/// What is left of the piece that is being made: all of it, or nothing where it ends here and goes to the pieces.
#[tactic(auto, using(crate::proofs::StreamLemmas::pieces))]
fn end_piece(pieces: &mut Vec<Vec<u8>>, piece: Vec<u8>, ends: bool) -> Result<Vec<u8>, AllocError>
    ensures { IfOk result (λ left. concat (texts_of pieces.new.items) ++ left.items ≡ concat (texts_of pieces.old.items) ++ piece.items) }
{
    if !ends {
        return Ok(piece);
    }
    let alloc = *pieces.allocator();
    pieces.push(piece)?;
    Ok(Vec::new(alloc))
}
