//! The halves of edges together again, behind a run.
ghost use Rattle.std.specs.Prelude.{◌≡◌, ℕ, List, map, true, is_some};
ghost use Rattle.std.specs.List.{list_all};
ghost use Rattle.fl_graph.specs.Runs.{are_closed, is_clean};
ghost use Rattle.fl_graph.specs.declared.pieces.Piece.{Piece as Pieces};
ghost use Rattle.fl_nodes.specs.Stashes.{half_of, has_each, without, without_all, CanSettle, CanSettleAll, LayBefore, Lie};
ghost use Rattle.fl_relay.specs.Edges.{EdgeId, gives_over, takes_over, put_on, taken_from};

use crate::stashes::half_at;
use fl_relay::laws::settle_edge;
use fl_relay::{EdgeGiver, EdgeTaker};
use std::sync::Wait;

/// Settles a taker with the giver that lies at its edge, and answers whether one did: nothing was put behind what closes, and where the taker
/// has come to the end it has taken what was put.
pub fn settle_at<H: Wait>(
    rt: &H,
    stash: &mut Vec<Option<EdgeGiver>>,
    edge: u32,
    taker: EdgeTaker,
) -> bool
    requires { CanSettle stash.old.items edge taker }
    ensures there { result ≡ is_some (half_of stash.old.items edge) }
    ensures gone { stash.new.items ≡ without stash.old.items edge }
    ensures settled { result ≡ true → are_closed (taken_from taker) ≡ true → (ids : ℕ → EdgeId) (pieces : ℕ → List Pieces) →
        Lie gives_over put_on ids pieces stash.old.items → taken_from taker ≡ pieces edge }
    ensures clean { result ≡ true → (ids : ℕ → EdgeId) (pieces : ℕ → List Pieces) → Lie gives_over put_on ids pieces stash.old.items → is_clean (pieces edge) ≡ true }
{
    match half_at(stash, edge) {
        Some(giver) => {
            settle_edge(rt, giver, taker);
            true
        }
        None => false,
    }
}

/// Settles the takers of these edges, in order, with the givers that lie there, and answers whether there was one for each. It stops at the
/// first that lacks one.
pub fn settle_ins<H: Wait>(
    rt: &H,
    stash: &mut Vec<Option<EdgeGiver>>,
    edges: &[u32],
    takers: Vec<EdgeTaker>,
) -> bool
    requires { CanSettleAll stash.old.items edges.now takers.items }
    ensures there { result ≡ has_each stash.old.items edges.now }
    ensures gone { result ≡ true → stash.new.items ≡ without_all stash.old.items edges.now }
    ensures kept { LayBefore stash.old.items stash.new.items }
    ensures settled { result ≡ true → list_all (λ taker. are_closed (taken_from taker)) takers.items ≡ true → (ids : ℕ → EdgeId) (pieces : ℕ → List Pieces) →
        Lie gives_over put_on ids pieces stash.old.items → map taken_from takers.items ≡ map pieces edges.now }
    ensures clean { result ≡ true → (ids : ℕ → EdgeId) (pieces : ℕ → List Pieces) → Lie gives_over put_on ids pieces stash.old.items →
        list_all (λ edge. is_clean (pieces edge)) edges.now ≡ true }
{
    let mut place = 0;
    for taker in takers {
        if !settle_at(rt, stash, edges[place], taker) {
            return false;
        }
        place += 1;
    }
    true
}
