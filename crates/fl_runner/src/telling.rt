//! What is told of a run, from what came of its nodes.
ghost use Rattle.std.specs.Prelude.{◌≡◌, ◌<◌, ◌^◌, true, length, map, get_or, false, IfSome, IfNone};
ghost use Rattle.std.specs.List.{list_any};
ghost use Rattle.fl_classes.specs.Flow.{status_by};
ghost use Rattle.fl_nodes.specs.Work.{is_fault as is_fault_def};
ghost use Rattle.fl_runner.specs.Told.{IsFirstFault, NoFault, NoneFailed, Tells};

use fl_graph::StatusRule;
use fl_nodes::NodeDone;
use ps_world::WorldErr;

/// What is told of a run.
#[derive(Clone, Copy, Debug, PartialEq, Eq)]
pub(crate) enum Told {
    /// All nodes have run to the ends of their texts, with this status.
    Done(u8),
    /// The end of this node failed.
    Fault(u32),
    /// Memory was refused.
    Memory,
}

/// What is told of nodes that have run to their stops: the fault of the lowest whose end failed, else want of memory where one was refused it.
pub(crate) fn tell<E>(rule: &StatusRule, nodes: &[NodeDone<E>]) -> Told
    requires few { length nodes.now < 2 ^ 32 }
    ensures { Tells rule.now nodes.now result }
{
    if let Some(node) = first_fault(nodes) {
        return Told::Fault(node);
    }
    if has_failed(nodes) {
        return Told::Memory;
    }
    Told::Done(status_of(rule, nodes))
}

/// The lowest node whose end failed.
fn first_fault<E>(nodes: &[NodeDone<E>]) -> Option<u32>
    requires few { length nodes.now < 2 ^ 32 }
    ensures first { IfSome result (λ node. IsFirstFault nodes.now node) }
    ensures none { IfNone result (NoFault nodes.now) }
{
    for node in 0..nodes.len() {
        if is_fault(&nodes[node].failure) {
            return Some(node as u32);
        }
    }
    None
}

/// Whether it is that the node's end failed.
fn is_fault(failure: &Option<WorldErr>) -> bool
    ensures { result ≡ is_fault_def failure.now }
{
    matches!(failure, Some(WorldErr::Failed))
}

/// Whether a node has failed.
fn has_failed<E>(nodes: &[NodeDone<E>]) -> bool
    ensures { result ≡ false → NoneFailed nodes.now }
{
    for node in 0..nodes.len() {
        if nodes[node].failure.is_some() {
            return true;
        }
    }
    false
}

/// The status of a graph whose nodes tell this.
fn status_of<E>(rule: &StatusRule, nodes: &[NodeDone<E>]) -> u8
    ensures { result ≡ status_by rule.now (map (λ done. done.selected) nodes.now) }
{
    match rule {
        StatusRule::Fixed(code) => *code,
        StatusRule::Selected {
            nodes: named,
            some,
            none,
        } => {
            if any_selected(nodes, named.as_slice()) {
                *some
            } else {
                *none
            }
        }
    }
}

/// Whether one of the named nodes has selected a line.
fn any_selected<E>(nodes: &[NodeDone<E>], named: &[u32]) -> bool
    ensures { result ≡ list_any (λ node. get_or (map (λ done. done.selected) nodes.now) node false) named.now }
{
    for node in named {
        if has_selected(nodes, *node) {
            return true;
        }
    }
    false
}

/// Whether a node of this number, if there is one, has selected a line.
fn has_selected<E>(nodes: &[NodeDone<E>], node: u32) -> bool
    ensures { result ≡ get_or (map (λ done. done.selected) nodes.now) node false }
{
    let place = node as usize;
    if nodes.len() <= place {
        return false;
    }
    nodes[place].selected
}
