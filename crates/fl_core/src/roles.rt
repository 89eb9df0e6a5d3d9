//! Which end each node has.
ghost use Rattle.std.specs.Prelude.{◌≡◌, ◌==◌, true, IfOk};
ghost use Rattle.std.specs.List.{position};
ghost use Rattle.std.specs.Option.{option_map_or};
ghost use Rattle.fl_core.specs.EndLists.{HasItsEnds, numbers_of, place_of as place_of_def};
ghost use Rattle.fl_core.specs.Roles.{HasRoles, needs_no_more, role_at as role_at_def, role_of as role_of_def};

use crate::end_lists::Ends;
use fl_graph::{From, Graph, Node, NodeKind, To};
use ps_lines::Memory;
use std::alloc::Global;

/// Which end a node has.
#[derive(Clone, Copy, Debug, PartialEq, Eq)]
pub enum Role {
    /// None.
    Nothing,
    /// What the source of standard input reads.
    Input,
    /// What the sink of standard output writes.
    Output,
    /// The reader at this place in its list.
    Reader(usize),
    /// The writer at this place in its list.
    Writer(usize),
}

/// Whether each node that reads or writes has an end.
pub fn have_ends<R, W, I, O>(graph: &Graph, ends: &Ends<R, W, I, O>) -> bool
    ensures yes { result ≡ true → HasItsEnds graph.now.nodes ends.now }
    ensures no { HasItsEnds graph.now.nodes ends.now → result ≡ true }
{
    each_has_end(graph.nodes.as_slice(), ends)
}

/// Whether each of these nodes that reads or writes has an end.
fn each_has_end<R, W, I, O>(nodes: &[Node], ends: &Ends<R, W, I, O>) -> bool
    ensures yes { result ≡ true → HasItsEnds nodes.now ends.now }
    ensures no { HasItsEnds nodes.now ends.now → result ≡ true }
{
    for node in 0..nodes.len() {
        if !has_end(&nodes[node].kind, node, ends) {
            return false;
        }
    }
    true
}

/// Whether a node of this kind and number has an end, where it reads or writes.
fn has_end<R, W, I, O>(kind: &NodeKind, node: usize, ends: &Ends<R, W, I, O>) -> bool
    ensures { result ≡ needs_no_more kind.now node ends.now }
{
    match kind {
        NodeKind::Source(From::File(_)) => place_of(ends.readers.as_slice(), node).is_some(),
        NodeKind::Sink(To::File(..)) => place_of(ends.writers.as_slice(), node).is_some(),
        NodeKind::TeeFile(..) => place_of(ends.writers.as_slice(), node).is_some(),
        _ => true,
    }
}

/// The roles of all nodes of a graph.
pub fn roles_of<R, W, I, O>(
    alloc: Global,
    graph: &Graph,
    ends: &Ends<R, W, I, O>,
) -> Result<Vec<Role>, Memory>
    ensures { IfOk result (λ roles. HasRoles graph.now.nodes ends.now roles.items) }
{
    roles_of_nodes(alloc, graph.nodes.as_slice(), ends)
}

/// The roles of these nodes.
fn roles_of_nodes<R, W, I, O>(
    alloc: Global,
    nodes: &[Node],
    ends: &Ends<R, W, I, O>,
) -> Result<Vec<Role>, Memory>
    ensures { IfOk result (λ roles. HasRoles nodes.now ends.now roles.items) }
{
    let mut roles = Vec::new(alloc);
    for node in 0..nodes.len() {
        roles.push(role_of(&nodes[node].kind, node, ends))?;
    }
    Ok(roles)
}

/// The role of a node of this kind and number.
fn role_of<R, W, I, O>(kind: &NodeKind, node: usize, ends: &Ends<R, W, I, O>) -> Role
    ensures { result ≡ role_of_def kind.now node (numbers_of ends.now.readers.items) (numbers_of ends.now.writers.items) }
{
    match kind {
        NodeKind::Source(From::Input) => Role::Input,
        NodeKind::Source(From::File(_)) => match place_of(ends.readers.as_slice(), node) {
            Some(place) => Role::Reader(place),
            None => Role::Nothing,
        },
        NodeKind::Sink(To::Output) => Role::Output,
        NodeKind::Sink(To::File(..)) => writer_at(place_of(ends.writers.as_slice(), node)),
        NodeKind::TeeFile(..) => writer_at(place_of(ends.writers.as_slice(), node)),
        _ => Role::Nothing,
    }
}

/// The role of a node whose writer has this place.
fn writer_at(place: Option<usize>) -> Role
    ensures { result ≡ option_map_or Role.Writer place Role.Nothing }
{
    match place {
        Some(place) => Role::Writer(place),
        None => Role::Nothing,
    }
}

/// The place of the first end with this number.
fn place_of<End>(ends: &[(u32, End)], number: usize) -> Option<usize>
    ensures { result ≡ place_of_def (numbers_of ends.now) number }
{
    first_with(ends, number)
}

/// Likewise, as std says it.
fn first_with<End>(ends: &[(u32, End)], number: usize) -> Option<usize>
    ensures { result ≡ position (λ end. end.0 == number) ends.now }
{
    ends.iter().position(|end| end.0 as usize == number)
}

/// The role of the node with this number.
pub(crate) fn role_at(roles: &[Role], node: u32) -> Role
    ensures { result ≡ role_at_def roles.now node }
{
    match roles.get(node as usize) {
        Some(role) => *role,
        None => Role::Nothing,
    }
}
