//! Which nodes the engine runs.
ghost use Rattle.std.specs.Prelude.{◌≡◌};
ghost use Rattle.fl_classes.specs.Kinds.{are_run as are_run_def, is_run as is_run_def};

use fl_graph::{Node, NodeKind};
use ut_args::{Inv, Origin, Report};

/// Whether the engine runs each of these nodes.
pub fn are_run(nodes: &[Node]) -> bool
    ensures { result ≡ are_run_def nodes.now }
{
    nodes.iter().all(|node| is_run(&node.kind))
}

/// Whether the engine runs a node of this kind.
pub fn is_run(kind: &NodeKind) -> bool
    ensures { result ≡ is_run_def kind.now }
{
    match kind {
        NodeKind::Agg(Inv::Wc(_)) => true,
        NodeKind::Agg(Inv::Grep(grep)) => match grep.args.report {
            Report::Count => true,
            Report::Lines | Report::Path | Report::Nothing => false,
        },
        NodeKind::Agg(Inv::Uniq(_)) => true,
        NodeKind::Agg(Inv::Tr(_)) => true,
        NodeKind::Agg(Inv::Head(_)) => true,
        NodeKind::Agg(Inv::Tail(tail)) => match tail.args.part.origin {
            Origin::Start(_) => false,
            Origin::End(_) => true,
        },
        NodeKind::Agg(Inv::Sort(_)) => true,
        NodeKind::Agg(_) => false,
        NodeKind::Source(_) | NodeKind::Sink(_) | NodeKind::Text(_) => true,
        NodeKind::TeeFile(..) => true,
        NodeKind::Split | NodeKind::Cat { .. } | NodeKind::Drain => true,
        NodeKind::Map(_) | NodeKind::Whole(_) | NodeKind::Finish(_) => true,
    }
}
