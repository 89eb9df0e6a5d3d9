//! The givers of all nodes, back by the numbers of their edges.
ghost use Rattle.std.specs.Prelude.{◌≡◌, ◌<◌, ℕ, length, map, get_or, slice_set, Some, vec_len, true};
ghost use Rattle.fl_edges.specs.Settled.{all_of, put_all};
ghost use Rattle.fl_graph.specs.Net.{gives, has};
ghost use Rattle.fl_threads.specs.Threads.{EachOf};

use fl_graph::Node;
use fl_relay::EdgeGiver;

/// Puts the givers of all nodes at the numbers of their edges.
pub(crate) fn put_back_all(
    stash: &mut Vec<Option<EdgeGiver>>,
    nodes: &[Node],
    givers: Vec<Vec<EdgeGiver>>,
)
    requires counted { EachOf (λ cell own. length own.items ≡ length cell.outs) nodes.now givers.items }
    requires below { (edge : ℕ) → has edge (gives nodes.now) ≡ true → edge < vec_len stash.old }
    ensures { stash.new.items ≡ put_all stash.old.items (gives nodes.now) (all_of givers.items) }
{
    let mut node = 0;
    for own in givers {
        put_back(stash, nodes[node].outs.as_slice(), own);
        node += 1;
    }
}

/// Puts givers at the numbers of these edges, in order.
fn put_back(stash: &mut Vec<Option<EdgeGiver>>, edges: &[u32], givers: Vec<EdgeGiver>)
    requires counted { length givers.items ≡ length edges.now }
    requires below { (edge : ℕ) → has edge edges.now ≡ true → edge < vec_len stash.old }
    ensures put { stash.new.items ≡ put_all stash.old.items edges.now givers.items }
    ensures len { vec_len stash.new ≡ vec_len stash.old }
{
    let mut place = 0;
    for giver in givers {
        put_at(stash, edges[place], giver);
        place += 1;
    }
}

/// Puts a giver at the number of this edge.
fn put_at(stash: &mut Vec<Option<EdgeGiver>>, edge: u32, giver: EdgeGiver)
    requires { edge < vec_len stash.old }
    ensures put { stash.new.items ≡ slice_set stash.old.items edge (Some giver) }
    ensures len { vec_len stash.new ≡ vec_len stash.old }
{
    stash[edge as usize] = Some(giver);
}
