//! Valid graphs.
ghost use Rattle.std.specs.Prelude.{◌≡◌, true};
ghost use Rattle.fl_graph.specs.Checks.{is_valid as is_valid_def};
ghost use Rattle.fl_graph.specs.Valid.{Valid};

use crate::edges::has_edges;
use crate::graphs::{Graph, Node, StatusRule};
use crate::makers::joins_maps;
use crate::paths::has_paths_apart;
use crate::ports::{fit_alone, has_one_of_each_end};
use crate::status::names_selectors;

/// Whether a graph is valid:
///
/// - Each edge leads from one node to one later node, and the edges are numbered from 0.
/// - Each node has as many ins and outs as its kind has.
/// - At most one node reads standard input, and at most one writes standard output.
/// - Maps and aggregates are of invocations that read one input.
/// - Maps are of a class that has one (S or P), and aggregates and finishes are of class P.
/// - Maps, wholes, aggregates and finishes are of invocations that are built.
/// - The ins of an aggregate and of a finish come from maps or aggregates of the same words.
/// - No file is both read and written, none is written twice, and none is `/dev/null`.
/// - The status names maps and wholes of grep.
///
/// Takes no memory. Its time is at most quadratic in the number of nodes and edges.
#[tactic(auto, using(crate::proofs::CheckLemmas::valid_if, crate::proofs::CheckLemmas::only_if_valid))]
pub fn validate(graph: &Graph) -> bool
    ensures yes { result ≡ true → Valid graph.now.nodes graph.now.status }
    ensures no { Valid graph.now.nodes graph.now.status → result ≡ true }
{
    is_valid(graph.nodes.as_slice(), &graph.status)
}

/// Whether nodes and a status rule are those of a valid graph.
fn is_valid(nodes: &[Node], status: &StatusRule) -> bool
    ensures { result ≡ is_valid_def nodes.now status.now }
{
    has_edges(nodes)
        && fit_alone(nodes)
        && joins_maps(nodes)
        && has_one_of_each_end(nodes)
        && has_paths_apart(nodes)
        && names_selectors(nodes, status)
}
