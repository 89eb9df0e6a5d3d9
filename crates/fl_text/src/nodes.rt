//! The nodes and the status rule of a graph, read from JSON values.
ghost use Rattle.std.specs.Prelude.{◌≡◌, codes, option_map, IfOk};
ghost use Rattle.serde_json.specs.View.{items_view, members_view, view};
ghost use Rattle.fl_text.specs.Inner.Members.{found};
ghost use Rattle.fl_text.specs.Inner.Drafts.{all_in, each_of, fields_view, fixed_in as fixed_in_def, graph_in as graph_in_def, graph_in_members, is_version as is_version_def, node_from as node_from_def, node_in as node_in_def, node_in_members, parts_in as parts_in_def, required, rule_in, selected_in, status_in as status_in_def};

use crate::fields::{Fields, is_none_left, take, take_fields};
use crate::kinds::kind_of;
use crate::parts::Parts;
use crate::values::{
    read_byte, read_byte_at, read_count_at, read_counts_at, read_name_at, read_path_at,
    read_switch_at, read_text_at, read_words_at, take_items, take_members,
};
use fl_graph::{Cell, Graph, Node, Seq, StatusRule};
use ps_lines::Memory;
use serde_json::{Map, Value};
use std::alloc::Global;

/// The version of the format.
pub const VERSION: u32 = 1;

/// The graph that a value is, valid or not; None where it is none.
pub fn graph_in(alloc: Global, value: Value) -> Result<Option<Graph>, Memory>
    ensures { IfOk result (λ graph. graph ≡ graph_in_def (view value)) }
{
    match take_members(alloc, value) {
        Some(members) => graph_of_members(alloc, members),
        None => Ok(None),
    }
}

/// The graph of an object's members.
fn graph_of_members(alloc: Global, members: Map<String, Value>) -> Result<Option<Graph>, Memory>
    ensures { IfOk result (λ graph. graph ≡ graph_in_members (members_view members.entries)) }
{
    let mut left = members;
    let nodes = take(&mut left, "nodes");
    let status = take(&mut left, "status");
    let version = take(&mut left, "version");
    if !is_none_left(&left) || !is_version(read_count_at(&version)) {
        return Ok(None);
    }
    let Some(nodes) = nodes_at(alloc, nodes)? else {
        return Ok(None);
    };
    let Some(status) = status_at(alloc, status)? else {
        return Ok(None);
    };
    Ok(Some(Graph { nodes, status }))
}

/// Whether this is the number of the format's version.
fn is_version(count: Option<u32>) -> bool
    ensures { result ≡ is_version_def count }
{
    match count {
        Some(count) => count == VERSION,
        None => false,
    }
}

/// Nodes that have to be there.
fn nodes_at(alloc: Global, value: Option<Value>) -> Result<Option<Seq<Node>>, Memory>
    ensures { IfOk result (λ nodes. nodes ≡ required (all_in node_in_def) (option_map view value)) }
{
    match value {
        Some(value) => all_nodes(alloc, value),
        None => Ok(None),
    }
}

/// Nodes.
fn all_nodes(alloc: Global, value: Value) -> Result<Option<Seq<Node>>, Memory>
    ensures { IfOk result (λ nodes. nodes ≡ all_in node_in_def (view value)) }
{
    match take_items(alloc, value) {
        Some(values) => each_node(alloc, values),
        None => Ok(None),
    }
}

/// The nodes that these values are.
#[tactic(auto, using(crate::proofs::ReadLemmas::one_by_one))]
fn each_node(alloc: Global, values: Vec<Value>) -> Result<Option<Seq<Node>>, Memory>
    ensures { IfOk result (λ nodes. nodes ≡ each_of node_in_def (items_view values.items)) }
{
    let mut nodes = Vec::with_capacity(alloc, values.len())?;
    let mut left = values.into_iter();
    while let Some(value) = left.next() {
        let Some(node) = node_in(alloc, value)? else {
            return Ok(None);
        };
        nodes.push(node)?;
    }
    Ok(Some(Seq::from_vec(nodes)))
}

/// The node that a value is.
fn node_in(alloc: Global, value: Value) -> Result<Option<Node>, Memory>
    ensures { IfOk result (λ node. node ≡ node_in_def (view value)) }
{
    match take_members(alloc, value) {
        Some(members) => node_of_members(alloc, members),
        None => Ok(None),
    }
}

/// The node that an object's members are.
fn node_of_members(alloc: Global, members: Map<String, Value>) -> Result<Option<Node>, Memory>
    ensures { IfOk result (λ node. node ≡ node_in_members (members_view members.entries)) }
{
    match take_fields(members) {
        Some(fields) => node_from(alloc, &fields),
        None => Ok(None),
    }
}

/// The node of what an object has at the keys of a node.
fn node_from(alloc: Global, fields: &Fields) -> Result<Option<Node>, Memory>
    ensures { IfOk result (λ node. node ≡ node_from_def (fields_view fields.now)) }
{
    let Some(ins) = read_counts_at(alloc, &fields.ins)? else {
        return Ok(None);
    };
    let Some(outs) = read_counts_at(alloc, &fields.outs)? else {
        return Ok(None);
    };
    let Some(stage) = read_count_at(&fields.stage) else {
        return Ok(None);
    };
    let Some(parts) = parts_in(alloc, fields)? else {
        return Ok(None);
    };
    // The kind comes last, so that no exit has to let it go.
    match kind_of(alloc, parts)? {
        Some(kind) => Ok(Some(Cell {
            kind,
            ins,
            outs,
            stage,
        })),
        None => Ok(None),
    }
}

/// The parts of a node's kind.
fn parts_in(alloc: Global, fields: &Fields) -> Result<Option<Parts>, Memory>
    ensures { IfOk result (λ parts. parts ≡ parts_in_def (fields_view fields.now)) }
{
    let Some(name) = read_name_at(alloc, &fields.kind)? else {
        return Ok(None);
    };
    let Some(append) = read_switch_at(&fields.append) else {
        return Ok(None);
    };
    let Some(close) = read_switch_at(&fields.close) else {
        return Ok(None);
    };
    let Some(path) = read_path_at(alloc, &fields.path)? else {
        return Ok(None);
    };
    let Some(text) = read_text_at(alloc, &fields.text)? else {
        return Ok(None);
    };
    let Some(words) = read_words_at(alloc, &fields.words)? else {
        return Ok(None);
    };
    Ok(Some(Parts {
        name,
        append,
        close,
        path,
        text,
        words,
    }))
}

/// A status rule that has to be there.
fn status_at(alloc: Global, value: Option<Value>) -> Result<Option<StatusRule>, Memory>
    ensures { IfOk result (λ rule. rule ≡ required status_in_def (option_map view value)) }
{
    match value {
        Some(value) => status_in(alloc, value),
        None => Ok(None),
    }
}

/// The status rule that a value is.
fn status_in(alloc: Global, value: Value) -> Result<Option<StatusRule>, Memory>
    ensures { IfOk result (λ rule. rule ≡ status_in_def (view value)) }
{
    match take_members(alloc, value) {
        Some(members) => status_of_members(alloc, members),
        None => Ok(None),
    }
}

/// The status rule of an object's members.
fn status_of_members(
    alloc: Global,
    members: Map<String, Value>,
) -> Result<Option<StatusRule>, Memory>
    ensures { IfOk result (λ rule. rule ≡ rule_in (found (codes "fixed") (members_view members.entries)) (members_view members.entries)) }
{
    let mut left = members;
    match take(&mut left, "fixed") {
        Some(value) => Ok(fixed_in(&value, is_none_left(&left))),
        None => selected_of_members(alloc, left),
    }
}

/// The fixed status that a value is, where no other member stands beside it.
fn fixed_in(value: &Value, is_alone: bool) -> Option<StatusRule>
    ensures { result ≡ fixed_in_def (view value.now) is_alone }
{
    if !is_alone {
        return None;
    }
    match read_byte(value) {
        Some(code) => Some(StatusRule::Fixed(code)),
        None => None,
    }
}

/// The status rule of an object that names nodes.
fn selected_of_members(
    alloc: Global,
    members: Map<String, Value>,
) -> Result<Option<StatusRule>, Memory>
    ensures { IfOk result (λ rule. rule ≡ selected_in (members_view members.entries)) }
{
    let mut left = members;
    let nodes = take(&mut left, "nodes");
    let none = take(&mut left, "none");
    let some = take(&mut left, "some");
    if !is_none_left(&left) {
        return Ok(None);
    }
    let Some(nodes) = read_counts_at(alloc, &nodes)? else {
        return Ok(None);
    };
    let Some(none) = read_byte_at(&none) else {
        return Ok(None);
    };
    let Some(some) = read_byte_at(&some) else {
        return Ok(None);
    };
    Ok(Some(StatusRule::Selected { nodes, some, none }))
}
