//! Which texts are expressions, and the first fault of the others.
ghost use Rattle.std.specs.Prelude.{◌≡◌, ◌+◌, ◌<◌, ◌≤◌, ◌^◌, ◌⊎◌, [], true, false, IfSome, IfNone, Err, IfOk, IfErr, MatchResult};
ghost use Rattle.ut_regex.specs.Tree.{Tree, tree, last_tree, with_nodes};
ghost use Rattle.ut_regex.specs.Sizes.{IsSmall, IsTooLarge};
ghost use Rattle.ut_regex.specs.Same.{SameTree};
ghost use Rattle.ut_regex.specs.Reading.{leaves, depth_behind, may_end, Reads, IsRead, Faults, Refuses};

use crate::building::Builder;
use crate::fault::ReFault;
use crate::pieces::{Before, Piece, next_piece};
use crate::sizes::is_too_large;
use crate::tree::{Node, Regex};
use std::alloc::Global;

/// Reads a basic expression (XBD 9.3).
///
/// The first fault from the left is told, and `TooLarge` only of what has no other fault. `Memory` is told of an expression
/// alone.
pub fn read_bre(alloc: Global, text: &[u8]) -> Result<Regex, ReFault>
    ensures read { IfOk result (λ re. Reads true text.now (tree re) × IsSmall (tree re)) }
    ensures fault { IfErr result (Refuses true text.now) }
    ensures small { (re : Tree) → Reads true text.now re → IsSmall re → MatchResult result (λ made. SameTree re (tree made)) (λ fault. fault ≡ ReFault.Memory) }
    ensures large { (re : Tree) → Reads true text.now re → IsTooLarge re → MatchResult result (λ _. ⊥) (λ fault. (fault ≡ ReFault.TooLarge) ⊎ (fault ≡ ReFault.Memory)) }
    ensures first { (fault : ReFault) → Faults true text.now fault → result ≡ Err fault }
{
    read(alloc, true, text)
}

/// Reads an extended expression (XBD 9.4).
///
/// The first fault from the left is told, and `TooLarge` only of what has no other fault. `Memory` is told of an expression
/// alone.
pub fn read_ere(alloc: Global, text: &[u8]) -> Result<Regex, ReFault>
    ensures read { IfOk result (λ re. Reads false text.now (tree re) × IsSmall (tree re)) }
    ensures fault { IfErr result (Refuses false text.now) }
    ensures small { (re : Tree) → Reads false text.now re → IsSmall re → MatchResult result (λ made. SameTree re (tree made)) (λ fault. fault ≡ ReFault.Memory) }
    ensures large { (re : Tree) → Reads false text.now re → IsTooLarge re → MatchResult result (λ _. ⊥) (λ fault. (fault ≡ ReFault.TooLarge) ⊎ (fault ≡ ReFault.Memory)) }
    ensures first { (fault : ReFault) → Faults false text.now fault → result ≡ Err fault }
{
    read(alloc, false, text)
}

/// Reads an expression.
fn read(alloc: Global, basic: bool, text: &[u8]) -> Result<Regex, ReFault>
    ensures read { IfOk result (λ re. Reads basic text.now (tree re) × IsSmall (tree re)) }
    ensures fault { IfErr result (Refuses basic text.now) }
{
    if let Some(fault) = first_fault(basic, text) {
        return Err(fault);
    }
    let nodes = match read_nodes(alloc, basic, text) {
        Ok(nodes) => nodes,
        Err(fault) => return Err(fault),
    };
    match is_too_large(alloc, &nodes) {
        Ok(false) => Ok(Regex { nodes }),
        Ok(true) => Err(ReFault::TooLarge),
        Err(_) => Err(ReFault::Memory),
    }
}

/// The nodes of an expression of any size.
fn read_nodes(alloc: Global, basic: bool, text: &[u8]) -> Result<Vec<Node>, ReFault>
    ensures read { IfOk result (λ nodes. Reads basic text.now (last_tree (with_nodes [] nodes.items))) }
    ensures fault { IfErr result (λ fault. (fault ≡ ReFault.Memory) ⊎ Faults basic text.now fault) }
{
    let mut builder = Builder::new(alloc);
    let mut before = Before::Start;
    let mut depth = 0usize;
    let mut left = text;
    'pieces: while !left.is_empty() {
        match next_piece(basic, before, 0 < depth, left) {
            Ok((piece, rest)) => {
                let Ok(()) = builder.add(piece) else {
                    return Err(ReFault::Memory);
                };
                before = left_by(piece);
                depth = depth_after(depth, piece);
                left = rest;
            }
            Err(fault) => return Err(fault),
        }
    }
    if ends_here(before, depth) {
        match builder.finish() {
            Ok(nodes) => Ok(nodes),
            Err(_) => Err(ReFault::Memory),
        }
    } else {
        Err(ReFault::NotARegex)
    }
}

/// The first fault of a text from the left. How large an expression is counts for nothing here.
pub(crate) fn first_fault(basic: bool, text: &[u8]) -> Option<ReFault>
    ensures none { IfNone result (IsRead basic text.now) }
    ensures fault { IfSome result (Faults basic text.now) }
{
    let mut before = Before::Start;
    let mut depth = 0usize;
    let mut left = text;
    'pieces: while !left.is_empty() {
        match next_piece(basic, before, 0 < depth, left) {
            Ok((piece, rest)) => {
                before = left_by(piece);
                depth = depth_after(depth, piece);
                left = rest;
            }
            Err(fault) => return Some(fault),
        }
    }
    if ends_here(before, depth) {
        None
    } else {
        Some(ReFault::NotARegex)
    }
}

/// What a piece is for the one behind it.
fn left_by(piece: Piece) -> Before
    ensures { result ≡ leaves piece }
{
    match piece {
        Piece::One(_) | Piece::Close | Piece::Repeat(_) => Before::Part,
        Piece::Begin | Piece::End => Before::Anchor,
        Piece::Open => Before::Opened,
        Piece::Bar => Before::Barred,
    }
}

/// How many groups are open behind a piece.
fn depth_after(depth: usize, piece: Piece) -> usize
    requires { depth + 1 < 2 ^ 64 }
    ensures depth { result ≡ depth_behind depth piece }
    ensures one { result ≤ depth + 1 }
{
    match piece {
        Piece::Open => depth + 1,
        Piece::Close => depth.saturating_sub(1),
        Piece::One(_) | Piece::Begin | Piece::End | Piece::Bar | Piece::Repeat(_) => depth,
    }
}

/// Whether an expression may end here.
fn ends_here(before: Before, depth: usize) -> bool
    ensures { result ≡ may_end before depth }
{
    depth == 0 && before != Before::Barred
}
