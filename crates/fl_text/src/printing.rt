//! Graphs printed.
ghost use Rattle.std.specs.Prelude.{◌≡◌, true, map, option_map, IfOk, OnOk};
ghost use Rattle.std.specs.List.{list_all};
ghost use Rattle.std.specs.Option.{option_map_or};
ghost use Rattle.ps_lines.specs.Texts.{texts_of};
ghost use Rattle.serde_json.specs.Data.{boolean, put as serde_json_put};
ghost use Rattle.serde_json.specs.View.{members_view, view};
ghost use Rattle.fl_graph.specs.declared.graphs.StatusRule.TheVariants as rule;
ghost use Rattle.fl_text.specs.Inner.Written.{put_some as put_some_def};
ghost use Rattle.fl_text.specs.Parts.{parts_of};
ghost use Rattle.fl_text.specs.Texts.{graph_text, IsJson};
ghost use Rattle.fl_text.specs.Values.{are_bytes, are_counts, bytes_value as bytes_value_def, count_value as count_value_def, graph_value as graph_value_def, is_count, is_held, is_held_node, is_held_status, is_path, list_value, node_value as node_value_def, path_value as path_value_def, status_value as status_value_def};

use crate::nodes::VERSION;
use crate::shown::{append_of, close_of, inv_of, name_of, path_of, text_of};
use fl_graph::{Graph, Node, NodeKind, StatusRule};
use ps_lines::Memory;
use ps_world::Path;
use serde_json::{Map, Value};
use std::alloc::Global;

/// The text of a graph: the compact JSON of its value, without white space and with the keys in the order of their bytes.
///
/// Any graph is printed, valid or not.
pub fn print(alloc: Global, graph: &Graph) -> Result<Vec<u8>, Memory>
    ensures text { IfOk result (λ text. text.items ≡ graph_text graph.now.nodes graph.now.status) }
    ensures json { IfOk result (λ text. IsJson text.items (graph_value_def graph.now.nodes graph.now.status)) }
    ensures held { IfOk result (λ _. is_held graph.now.nodes graph.now.status ≡ true) }
{
    let value = graph_value(alloc, graph)?;
    Ok(value.to_vec(alloc)?)
}

/// The JSON value of a graph.
fn graph_value(alloc: Global, graph: &Graph) -> Result<Value, Memory>
    ensures value { IfOk result (λ value. view value ≡ graph_value_def graph.now.nodes graph.now.status) }
    ensures held { IfOk result (λ _. is_held graph.now.nodes graph.now.status ≡ true) }
{
    let mut members = Map::new(alloc);
    put(alloc, &mut members, "version", Value::from(VERSION))?;
    put(
        alloc,
        &mut members,
        "status",
        status_value(alloc, &graph.status)?,
    )?;
    put(
        alloc,
        &mut members,
        "nodes",
        nodes_value(alloc, graph.nodes.as_slice())?,
    )?;
    Ok(Value::Object(members))
}

/// The JSON value of a status rule.
fn status_value(alloc: Global, status: &StatusRule) -> Result<Value, Memory>
    ensures value { IfOk result (λ value. view value ≡ status_value_def status.now) }
    ensures held { IfOk result (λ _. is_held_status status.now ≡ true) }
{
    match status {
        StatusRule::Fixed(code) => fixed_value(alloc, *code),
        StatusRule::Selected { nodes, some, none } => {
            selected_value(alloc, nodes.as_slice(), *some, *none)
        }
    }
}

/// The JSON value of a fixed status.
fn fixed_value(alloc: Global, code: u8) -> Result<Value, Memory>
    ensures { IfOk result (λ value. view value ≡ status_value_def (rule.Fixed code)) }
{
    let mut members = Map::new(alloc);
    put(alloc, &mut members, "fixed", Value::from(code))?;
    Ok(Value::Object(members))
}

/// The JSON value of a status that nodes select.
fn selected_value(alloc: Global, nodes: &[u32], some: u8, none: u8) -> Result<Value, Memory>
    ensures value { IfOk result (λ value. view value ≡ status_value_def (rule.Selected nodes.now some none)) }
    ensures held { IfOk result (λ _. are_counts nodes.now ≡ true) }
{
    let mut members = Map::new(alloc);
    put(alloc, &mut members, "some", Value::from(some))?;
    put(alloc, &mut members, "none", Value::from(none))?;
    put(alloc, &mut members, "nodes", counts_value(alloc, nodes)?)?;
    Ok(Value::Object(members))
}

/// The JSON value of nodes.
fn nodes_value(alloc: Global, nodes: &[Node]) -> Result<Value, Memory>
    ensures value { IfOk result (λ value. view value ≡ list_value node_value_def nodes.now) }
    ensures held { IfOk result (λ _. list_all is_held_node nodes.now ≡ true) }
{
    let mut values = Vec::with_capacity(alloc, nodes.len())?;
    for node in nodes {
        values.push(node_value(alloc, node)?)?;
    }
    Ok(Value::Array(values))
}

/// The JSON value of a node. Its members are put in from the last to the first.
fn node_value(alloc: Global, node: &Node) -> Result<Value, Memory>
    ensures value { IfOk result (λ value. view value ≡ node_value_def node.now) }
    ensures held { IfOk result (λ _. is_held_node node.now ≡ true) }
{
    let mut members = Map::new(alloc);
    put_some(
        alloc,
        &mut members,
        "words",
        words_value(alloc, &node.kind)?,
    )?;
    put_some(alloc, &mut members, "text", text_value(alloc, &node.kind)?)?;
    put(alloc, &mut members, "stage", count_value(node.stage))?;
    put_some(alloc, &mut members, "path", path_value(alloc, &node.kind)?)?;
    put(
        alloc,
        &mut members,
        "out",
        counts_value(alloc, node.outs.as_slice())?,
    )?;
    put(
        alloc,
        &mut members,
        "kind",
        bytes_value(alloc, name_of(&node.kind).text())?,
    )?;
    put(
        alloc,
        &mut members,
        "in",
        counts_value(alloc, node.ins.as_slice())?,
    )?;
    put_some(
        alloc,
        &mut members,
        "close",
        switch_value(close_of(&node.kind)),
    )?;
    put_some(
        alloc,
        &mut members,
        "append",
        switch_value(append_of(&node.kind)),
    )?;
    Ok(Value::Object(members))
}

/// Puts a member in.
fn put(
    alloc: Global,
    members: &mut Map<String, Value>,
    key: &str,
    value: Value,
) -> Result<(), Memory>
    ensures { OnOk result (members_view members.new.entries ≡ serde_json_put key.now (view value) (members_view members.old.entries)) }
{
    serde_json::put(members, alloc, key, value)?;
    Ok(())
}

/// Puts a member in, where there is one.
fn put_some(
    alloc: Global,
    members: &mut Map<String, Value>,
    key: &str,
    value: Option<Value>,
) -> Result<(), Memory>
    ensures { OnOk result (members_view members.new.entries ≡ put_some_def key.now (option_map view value) (members_view members.old.entries)) }
{
    match value {
        Some(value) => put(alloc, members, key, value),
        None => Ok(()),
    }
}

/// The JSON value of a switch, where there is one.
fn switch_value(is_on: Option<bool>) -> Option<Value>
    ensures { option_map view result ≡ option_map boolean is_on }
{
    match is_on {
        Some(is_on) => Some(Value::Bool(is_on)),
        None => None,
    }
}

/// The JSON value of the path of a kind that has one.
fn path_value(alloc: Global, kind: &NodeKind) -> Result<Option<Value>, Memory>
    ensures value { IfOk result (λ value. option_map view value ≡ option_map path_value_def (parts_of kind.now).path) }
    ensures held { IfOk result (λ _. option_map_or is_path (parts_of kind.now).path true ≡ true) }
{
    match path_of(kind) {
        Some(path) => Ok(Some(value_of_path(alloc, path)?)),
        None => Ok(None),
    }
}

/// The JSON value of a path: the text that spells it.
fn value_of_path(alloc: Global, path: &Path) -> Result<Value, Memory>
    ensures value { IfOk result (λ value. view value ≡ path_value_def path.now) }
    ensures held { IfOk result (λ _. is_path path.now ≡ true) }
{
    // Tells the proof that the components are names.
    let _ = &path.parts;
    let text = path.spell(alloc)?;
    bytes_value(alloc, text.as_slice())
}

/// The JSON value of the text of a kind that has one.
fn text_value(alloc: Global, kind: &NodeKind) -> Result<Option<Value>, Memory>
    ensures value { IfOk result (λ value. option_map view value ≡ option_map bytes_value_def (parts_of kind.now).text) }
    ensures held { IfOk result (λ _. option_map_or are_bytes (parts_of kind.now).text true ≡ true) }
{
    match text_of(kind) {
        Some(text) => Ok(Some(bytes_value(alloc, text.as_slice())?)),
        None => Ok(None),
    }
}

/// The JSON value of the words of a kind that runs an invocation.
fn words_value(alloc: Global, kind: &NodeKind) -> Result<Option<Value>, Memory>
    ensures value { IfOk result (λ value. option_map view value ≡ option_map (list_value bytes_value_def) (parts_of kind.now).words) }
    ensures held { IfOk result (λ _. option_map_or (λ words. list_all are_bytes words) (parts_of kind.now).words true ≡ true) }
{
    match inv_of(kind) {
        Some(inv) => Ok(Some(value_of_words(alloc, inv.words())?)),
        None => Ok(None),
    }
}

/// The JSON value of words.
fn value_of_words(alloc: Global, words: &[Vec<u8>]) -> Result<Value, Memory>
    ensures value { IfOk result (λ value. view value ≡ list_value bytes_value_def (texts_of words.now)) }
    ensures held { IfOk result (λ _. list_all are_bytes (texts_of words.now) ≡ true) }
{
    let mut values = Vec::with_capacity(alloc, words.len())?;
    for word in words {
        values.push(bytes_value(alloc, word.as_slice())?)?;
    }
    Ok(Value::Array(values))
}

/// The JSON value of numbers.
fn counts_value(alloc: Global, counts: &[u32]) -> Result<Value, Memory>
    ensures value { IfOk result (λ value. view value ≡ list_value count_value_def counts.now) }
    ensures held { IfOk result (λ _. are_counts counts.now ≡ true) }
{
    let mut values = Vec::with_capacity(alloc, counts.len())?;
    for count in counts {
        values.push(Value::from(*count))?;
    }
    Ok(Value::Array(values))
}

/// The JSON value of a number.
fn count_value(count: u32) -> Value
    ensures value { view result ≡ count_value_def count }
    ensures held { is_count count ≡ true }
{
    Value::from(count)
}

/// The JSON value of bytes: a string of as many characters.
fn bytes_value(alloc: Global, bytes: &[u8]) -> Result<Value, Memory>
    ensures value { IfOk result (λ value. view value ≡ bytes_value_def bytes.now) }
    ensures held { IfOk result (λ _. are_bytes bytes.now ≡ true) }
{
    let mut text = String::new(alloc);
    for byte in bytes {
        text.push(*byte as char)?;
    }
    Ok(Value::String(text))
}
