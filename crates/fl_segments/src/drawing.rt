//! A graph that is being made, node by node.
ghost use Rattle.std.specs.Prelude.{◌≡◌, ◌+◌, ◌++◌, [], ◌∷◌, length, IfOk, OnOk};
ghost use Rattle.std.specs.List.{range_with_len};
ghost use Rattle.fl_segments.specs.Inner.Drawing.{next_of};

use fl_graph::{Node, NodeKind, Seq};
use ps_lines::Memory;
use std::alloc::Global;

/// Nodes in their order. Edges are numbered in the order in which they are given.
#[derive(Drop)]
pub(crate) struct Drawing {
    pub(crate) nodes: Vec<Node>,
    /// The number of the next edge to be given.
    pub(crate) next: u32,
}

/// The edges of a node that is to come. They are made before the node's kind, so that no exit has a kind to let go.
#[derive(Drop)]
pub(crate) struct Edges {
    ins: Seq<u32>,
    outs: Seq<u32>,
    /// The number of the next edge behind the node.
    next: u32,
}

impl Drawing {
    /// No nodes.
    pub(crate) fn new(alloc: Global) -> Drawing
        ensures nodes { result.nodes.items ≡ [] }
        ensures next { result.next ≡ 0 }
    {
        Drawing {
            nodes: Vec::new(alloc),
            next: 0,
        }
    }

    /// The number of the next node. A node that has no number of 32 bits wants memory.
    pub(crate) fn next_node(&self) -> Result<u32, Memory>
        ensures { IfOk result (λ node. node ≡ length self.now.nodes.items) }
    {
        let Ok(node) = u32::try_from(self.nodes.len()) else {
            return Err(Memory);
        };
        Ok(node)
    }

    /// The edges of a node that takes these and gives the next one. An edge that has no number of 32 bits wants memory.
    pub(crate) fn giving(&self, alloc: Global, ins: &[u32]) -> Result<Edges, Memory>
        ensures ins { IfOk result (λ edges. edges.ins ≡ ins.now) }
        ensures outs { IfOk result (λ edges. edges.outs ≡ self.now.next ∷ []) }
        ensures next { IfOk result (λ edges. edges.next ≡ self.now.next + 1) }
    {
        let Some(next) = self.next.checked_add(1) else {
            return Err(Memory);
        };
        let ins = Seq::from_vec(Vec::from_slice(alloc, ins)?);
        let outs = Seq::from_vec(Vec::from_slice(alloc, &[self.next])?);
        Ok(Edges { ins, outs, next })
    }

    /// The edges of a node that takes these and gives so many.
    #[tactic(auto, using(crate::proofs::DrawingLemmas::next_sum))]
    pub(crate) fn giving_parts(
        &self,
        alloc: Global,
        ins: &[u32],
        count: u32,
    ) -> Result<Edges, Memory>
        ensures ins { IfOk result (λ edges. edges.ins ≡ ins.now) }
        ensures outs { IfOk result (λ edges. edges.outs ≡ range_with_len self.now.next count) }
        ensures next { IfOk result (λ edges. edges.next ≡ next_of count self.now.next) }
    {
        let ins = Seq::from_vec(Vec::from_slice(alloc, ins)?);
        let outs = numbers_from(alloc, self.next, count)?;
        let Some(next) = self.next.checked_add(count) else {
            return Err(Memory);
        };
        Ok(Edges {
            ins,
            outs: Seq::from_vec(outs),
            next,
        })
    }

    /// The edges of a node that takes these and gives none.
    pub(crate) fn ending(&self, alloc: Global, ins: &[u32]) -> Result<Edges, Memory>
        ensures ins { IfOk result (λ edges. edges.ins ≡ ins.now) }
        ensures outs { IfOk result (λ edges. edges.outs ≡ []) }
        ensures next { IfOk result (λ edges. edges.next ≡ self.now.next) }
    {
        let ins = Seq::from_vec(Vec::from_slice(alloc, ins)?);
        let outs = Seq::from_vec(Vec::new(alloc));
        Ok(Edges {
            ins,
            outs,
            next: self.next,
        })
    }

    /// Adds a node.
    pub(crate) fn add(&mut self, kind: NodeKind, edges: Edges, stage: u32) -> Result<(), Memory>
        ensures nodes { OnOk result (self.new.nodes.items ≡ self.old.nodes.items ++ record { kind = kind; ins = edges.ins; outs = edges.outs; stage = stage } ∷ []) }
        ensures next { OnOk result (self.new.next ≡ edges.next) }
    {
        let Edges { ins, outs, next } = edges;
        self.nodes.push(Node {
            kind,
            ins,
            outs,
            stage,
        })?;
        self.next = next;
        Ok(())
    }
}

/// So many numbers, from this one on. One that doesn't fit into 32 bits wants memory.
#[tactic(auto, using(crate::proofs::RowLemmas::row_more))]
pub(crate) fn numbers_from(alloc: Global, from: u32, count: u32) -> Result<Vec<u32>, Memory>
    ensures { IfOk result (λ numbers. numbers.items ≡ range_with_len from count) }
{
    let mut numbers = Vec::new(alloc);
    for done in 0..count {
        let Some(number) = from.checked_add(done) else {
            return Err(Memory);
        };
        numbers.push(number)?;
    }
    Ok(numbers)
}
