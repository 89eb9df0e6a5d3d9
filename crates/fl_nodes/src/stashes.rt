//! Halves by the number of their edge.
ghost use Rattle.std.specs.Prelude.{◌≡◌, ℕ, List, map, Some, is_some, IfOk, IfSome};
ghost use Rattle.fl_graph.specs.declared.pieces.Piece.{Piece as Pieces};
ghost use Rattle.fl_nodes.specs.Stashes.{half_of, has_each, without, without_all, LayBefore, Lie};
ghost use Rattle.fl_relay.specs.Edges.{EdgeId};

use fl_relay::{EdgeGiver, EdgeTaker};
use ps_lines::Memory;
use std::alloc::Global;

/// A half of an edge.
pub trait EdgeHalf: Drop {
    ghost use Rattle.fl_graph.specs.declared.pieces.Piece.{Piece as Pieces};
    ghost use Rattle.fl_relay.specs.Edges.{EdgeId};

    /// The relay that it is of.
    ghost name: { Self → EdgeId };
    /// The pieces that it has carried.
    ghost carried: { Self → List Pieces };
}

impl EdgeHalf for EdgeGiver {
    ghost use Rattle.fl_relay.specs.Edges.{gives_over, put_on};

    ghost name = { gives_over };

    ghost carried = { put_on };
}

impl EdgeHalf for EdgeTaker {
    ghost use Rattle.fl_relay.specs.Edges.{takes_over, taken_from};

    ghost name = { takes_over };

    ghost carried = { taken_from };
}

/// Takes out the half of this edge, where one lies there.
pub fn half_at<T: EdgeHalf>(stash: &mut Vec<Option<T>>, edge: u32) -> Option<T>
    ensures half { result ≡ half_of stash.old.items edge }
    ensures gone { stash.new.items ≡ without stash.old.items edge }
{
    let place = edge as usize;
    if place >= stash.len() {
        return None;
    }
    stash[place].take()
}

/// Takes out the halves of these edges, in order; none, where there isn't one for each. Then, and on Memory, the halves that were found
/// are let go.
pub fn halves_at<T: EdgeHalf>(
    alloc: Global,
    stash: &mut Vec<Option<T>>,
    edges: &[u32],
) -> Result<Option<Vec<T>>, Memory>
    ensures there { IfOk result (λ found. is_some found ≡ has_each stash.old.items edges.now) }
    ensures halves { IfOk result (λ found. IfSome found (λ halves. map Some halves.items ≡ map (half_of stash.old.items) edges.now)) }
    ensures gone { IfOk result (λ found. IfSome found (λ halves. stash.new.items ≡ without_all stash.old.items edges.now)) }
    ensures kept { LayBefore stash.old.items stash.new.items }
    ensures names { IfOk result (λ found. IfSome found (λ halves. (ids : ℕ → EdgeId) (pieces : ℕ → List Pieces) →
        Lie T.name T.carried ids pieces stash.old.items → map T.name halves.items ≡ map ids edges.now)) }
    ensures carried { IfOk result (λ found. IfSome found (λ halves. (ids : ℕ → EdgeId) (pieces : ℕ → List Pieces) →
        Lie T.name T.carried ids pieces stash.old.items → map T.carried halves.items ≡ map pieces edges.now)) }
{
    let mut halves = Vec::new(alloc);
    for place in 0..edges.len() {
        let Some(half) = half_at(stash, edges[place]) else {
            return Ok(None);
        };
        halves.push(half)?;
    }
    Ok(Some(halves))
}
