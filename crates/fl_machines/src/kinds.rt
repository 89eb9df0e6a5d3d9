//! Which nodes run a utility.
ghost use Rattle.std.specs.Prelude.{◌≡◌};
ghost use Rattle.fl_machines.specs.Kinds.{is_utility_node as is_utility_node_def};

use fl_graph::NodeKind;
use ut_args::is_built;

/// Whether a node of this kind with so many ins and outs runs a utility, and may stand in a valid graph.
pub fn is_utility_node(kind: &NodeKind, ins: u32, outs: u32) -> bool
    ensures { result ≡ is_utility_node_def kind.now ins outs }
{
    match kind {
        NodeKind::Map(inv) => ins == 1 && outs == 1 && inv.inputs() == 1 && is_built(inv),
        NodeKind::Whole(inv) => ins == inv.inputs() && outs == 1 && is_built(inv),
        NodeKind::Finish(inv) => ins == 1 && outs == 1 && is_built(inv),
        _ => false,
    }
}
