//! Texts of graphs read.
ghost use Rattle.std.specs.Prelude.{◌≡◌, true, false, Some, IfOk, IsErrOf};
ghost use Rattle.serde_json.specs.View.{view};
ghost use Rattle.fl_graph.specs.Valid.{Valid};
ghost use Rattle.fl_graph.specs.declared.graphs.Graph.{Graph as Graphs};
ghost use Rattle.fl_text.specs.Inner.Drafts.{graph_in as graph_in_def};
ghost use Rattle.fl_text.specs.Texts.{has_other_version as has_other_version_def, is_other_version as is_other_version_def, IsGraph, IsGraphText, IsNoGraph, IsNoJson, IsOfOtherVersion};

use crate::checking::check;
use crate::nodes::{VERSION, graph_in};
use fl_graph::Graph;
use ps_lines::Memory;
use serde_json::Value;
use std::alloc::Global;

/// Why a text gives no graph.
#[derive(Clone, Copy, Debug, PartialEq, Eq)]
pub enum TextFault {
    /// It is no JSON.
    NotJson,
    /// It is JSON, but not that of a valid graph.
    NotGraph,
    /// It is a JSON object of another version.
    BadVersion,
    /// Memory was refused.
    Memory,
}

/// The valid graph whose JSON value a text has.
///
/// NotJson is told first, then BadVersion, then NotGraph. White space, the order of keys and how a string is escaped don't count, and of
/// equal keys the last does.
#[tactic(auto, using(crate::proofs::AnswerLemmas::read_steps))]
pub fn read(alloc: Global, text: &[u8]) -> Result<Graph, TextFault>
    ensures text { IfOk result (λ graph. IsGraphText text.now graph) }
    ensures graph { IfOk result IsGraph }
    ensures not_json { IsErrOf result TextFault.NotJson → IsNoJson text.now }
    ensures bad_version { IsErrOf result TextFault.BadVersion → IsOfOtherVersion text.now }
    ensures not_graph { IsErrOf result TextFault.NotGraph → IsNoGraph text.now }
{
    match Value::from_slice(alloc, text) {
        Ok(value) => read_value(alloc, value),
        Err(error) => {
            if error.is_memory() {
                Err(TextFault::Memory)
            } else {
                Err(TextFault::NotJson)
            }
        }
    }
}

/// The valid graph whose value this is.
#[tactic(auto, using(crate::proofs::AnswerLemmas::one_value))]
fn read_value(alloc: Global, value: Value) -> Result<Graph, TextFault>
    ensures graph { IfOk result (λ graph. graph_in_def (view value) ≡ Some graph) }
    ensures valid { IfOk result (λ graph. Valid graph.nodes graph.status) }
    ensures not_json { IsErrOf result TextFault.NotJson → ⊥ }
    ensures bad_version { IsErrOf result TextFault.BadVersion → has_other_version_def (view value) ≡ true }
    ensures not_graph { IsErrOf result TextFault.NotGraph → has_other_version_def (view value) ≡ false }
    ensures none { IsErrOf result TextFault.NotGraph → (graph : Graphs) → graph_in_def (view value) ≡ Some graph → Valid graph.nodes graph.status → ⊥ }
{
    if has_other_version(&value) {
        return Err(TextFault::BadVersion);
    }
    match graph_in(alloc, value) {
        Ok(Some(graph)) => match check(alloc, &graph) {
            Ok(true) => Ok(graph),
            Ok(false) => Err(TextFault::NotGraph),
            Err(Memory) => Err(TextFault::Memory),
        },
        Ok(None) => Err(TextFault::NotGraph),
        Err(Memory) => Err(TextFault::Memory),
    }
}

/// Whether a value is an object of another version.
fn has_other_version(value: &Value) -> bool
    ensures { result ≡ has_other_version_def (view value.now) }
{
    match value.get("version").and_then(Value::as_u64) {
        Some(count) => is_other_version(count),
        None => false,
    }
}

/// Whether a number is that of another version.
fn is_other_version(count: u64) -> bool
    ensures { result ≡ is_other_version_def count }
{
    count < 0x1_0000_0000 && count != VERSION as u64
}
