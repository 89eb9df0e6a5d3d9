//! What a node's thread gets, and what it gives back.
ghost use Rattle.fl_nodes.specs.Work.{IsReady};

use crate::ends::OwnEnd;
use fl_graph::Machine;
use fl_relay::{EdgeGiver, EdgeTaker};
use ps_world::WorldErr;
use std::alloc::Global;

/// A node that is to run on a thread of its own. All nodes of a run pass one gate.
#[derive(Drop)]
pub struct NodeJob<'a, M: Machine, E: OwnEnd, G> {
    /// Its number, counted from 0.
    pub number: u32,
    /// Its machine, at its beginning.
    pub machine: M,
    /// The halves of its ins, in order, from which nothing was taken.
    pub takers: Vec<EdgeTaker>,
    /// The halves of its outs, in order, on which nothing was put.
    pub givers: Vec<EdgeGiver>,
    /// Its end outside. The in of a node that reads comes from there, and the first out of a node that writes goes there.
    pub own: E,
    pub alloc: Global,
    /// What it passes before its first act and behind its last one.
    pub gate: &'a G,
    ghost ready: { IsReady (M.state machine) (E.state own) takers.items givers.items },
}

/// What came of a node.
#[derive(Drop)]
pub struct NodeDone<E> {
    /// Its number.
    pub number: u32,
    /// The halves of its edges, in order.
    pub takers: Vec<EdgeTaker>,
    pub givers: Vec<EdgeGiver>,
    /// Its end.
    pub own: E,
    /// Why it has failed, where it has: its end did, or memory was refused.
    pub failure: Option<WorldErr>,
    /// Whether it has selected a line, where nothing before it failed.
    pub selected: bool,
}
