//! The halves of all edges together again.
ghost use Rattle.std.specs.Prelude.{◌≡◌, ℕ, List, length, map, vec_len, true};
ghost use Rattle.std.specs.List.{list_all};
ghost use Rattle.fl_edges.specs.Settled.{AreAtEnds, AreBack, AreSettled, CanSettleEach, IsBare};
ghost use Rattle.fl_graph.specs.Net.{gives, takes};
ghost use Rattle.fl_graph.specs.Valid.{Valid};
ghost use Rattle.fl_graph.specs.Runs.{is_clean};
ghost use Rattle.fl_graph.specs.declared.pieces.Piece.{Piece as Pieces};
ghost use Rattle.fl_nodes.specs.Stashes.{has_each, Lie};
ghost use Rattle.fl_relay.specs.Edges.{EdgeId, gives_over, put_on, taken_from};
ghost use Rattle.fl_threads.specs.Threads.{EachOf};

use crate::returning::put_back_all;
use fl_graph::{Graph, Node};
use fl_nodes::settle_ins;
use fl_relay::{EdgeGiver, EdgeTaker};
use std::sync::Wait;

/// Puts the two halves of each edge of a valid graph together again, where each node has taken its ins to their ends: what was taken from an edge
/// is what was put on it.
///
/// `stash` has room for a giver at the number of each edge. Givers and takers are those of the nodes, in their order.
pub fn settle_edges<H: Wait>(
    rt: &H,
    stash: Vec<Option<EdgeGiver>>,
    graph: &Graph,
    givers: Vec<Vec<EdgeGiver>>,
    takers: Vec<Vec<EdgeTaker>>,
)
    requires valid { Valid graph.now.nodes graph.now.status }
    requires room { vec_len stash ≡ length (gives graph.now.nodes) }
    requires bare { IsBare stash.items }
    requires back { AreBack graph.now.nodes givers.items takers.items }
    requires ends { AreAtEnds takers.items }
    ensures { AreSettled graph.now.nodes givers.items takers.items }
{
    let nodes = graph.nodes.as_slice();
    let mut stash = stash;
    put_back_all(&mut stash, nodes, givers);
    settle_each(rt, &mut stash, nodes, takers);
}

/// Settles the takers of all nodes with the givers that lie there.
fn settle_each<H: Wait>(
    rt: &H,
    stash: &mut Vec<Option<EdgeGiver>>,
    nodes: &[Node],
    takers: Vec<Vec<EdgeTaker>>,
)
    requires can { CanSettleEach stash.old.items nodes.now takers.items }
    requires there { has_each stash.old.items (takes nodes.now) ≡ true }
    requires ends { AreAtEnds takers.items }
    ensures settled { (ids : ℕ → EdgeId) (pieces : ℕ → List Pieces) → Lie gives_over put_on ids pieces stash.old.items →
        EachOf (λ cell own. map taken_from own.items ≡ map pieces cell.ins) nodes.now takers.items }
    ensures clean { (ids : ℕ → EdgeId) (pieces : ℕ → List Pieces) → Lie gives_over put_on ids pieces stash.old.items →
        list_all (λ edge. is_clean (pieces edge)) (takes nodes.now) ≡ true }
{
    let mut node = 0;
    for own in takers {
        let _settled = settle_ins(rt, stash, nodes[node].ins.as_slice(), own);
        node += 1;
    }
}
