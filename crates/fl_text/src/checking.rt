//! Valid graphs, told by tables in memory.
ghost use Rattle.std.specs.Prelude.{◌≡◌, true, IfOk};
ghost use Rattle.fl_graph.specs.Checks.{is_valid as is_valid_def};
ghost use Rattle.fl_graph.specs.Valid.{Valid};

use crate::files::has_paths_apart;
use crate::ports::{fit_alone, has_one_of_each_end, names_selectors};
use crate::wiring::is_wired;
use fl_graph::{Graph, Node, StatusRule};
use ps_lines::Memory;
use std::alloc::Global;

/// Whether a graph is valid. `fl_graph::validate` tells the same without memory, in a time that is quadratic in the number of nodes and edges.
///
/// Here it is linear in that number and in what the nodes hold, but for the files: for n of them it takes a number of comparisons of paths that
/// grows as n log n.
#[tactic(auto, using(fl_graph::proofs::CheckLemmas::valid_if, fl_graph::proofs::CheckLemmas::only_if_valid))]
pub fn check(alloc: Global, graph: &Graph) -> Result<bool, Memory>
    ensures yes { IfOk result (λ is. is ≡ true → Valid graph.now.nodes graph.now.status) }
    ensures no { IfOk result (λ is. Valid graph.now.nodes graph.now.status → is ≡ true) }
{
    is_valid(alloc, graph.nodes.as_slice(), &graph.status)
}

/// Whether nodes and a status rule are those of a valid graph.
fn is_valid(alloc: Global, nodes: &[Node], status: &StatusRule) -> Result<bool, Memory>
    ensures { IfOk result (λ is. is ≡ is_valid_def nodes.now status.now) }
{
    let is_wired = is_wired(alloc, nodes)?;
    let is_apart = has_paths_apart(alloc, nodes)?;
    Ok(
        is_wired
            && fit_alone(nodes)
            && has_one_of_each_end(nodes)
            && is_apart
            && names_selectors(nodes, status),
    )
}
